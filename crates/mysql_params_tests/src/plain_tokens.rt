//! Tokens that end by jumps, and runs of plain bytes that are passed 16 at once, against the same
//! found byte by byte: for each kind of token every length from 0 to 70 of its inside, closed and
//! open, and with a backslash before each place of it, in both modes.
use crate::plain_reading::split;
use crate::shared::same_in;
use mysql_named_params::places::{FoundPlace, PlaceKind, first_place};
use mysql_named_params::tokens::{TokenKind, first_token};
use std::alloc::{AllocError, Global};
use std::process::Abort;

// Down to `old_token` these are the bodies that the crate had before its jumps. They have no
// contract here: so their sums saturate, they split texts at the end at the latest, and an empty
// text has a token of one byte.

/// Whether the byte is white space.
fn is_white_space(byte: u8) -> bool {
    byte.is_ascii_whitespace()
}

/// Whether a name may begin with the byte.
fn is_start_byte(byte: u8) -> bool {
    byte.is_ascii_lowercase() || byte == b'_'
}

/// Whether a name may go on with the byte.
fn is_name_byte(byte: u8) -> bool {
    is_start_byte(byte) || byte.is_ascii_digit()
}

/// Whether the byte escapes the next one.
fn is_escape(byte: u8, no_backslash_escape: bool) -> bool {
    !no_backslash_escape && byte == b'\\'
}

/// How many bytes there are up to and with the first place of the word, or to the end.
fn len_up_to(text: &[u8], word: &[u8]) -> usize {
    for i in 0..text.len() {
        if text[i..].starts_with(word) {
            return i.saturating_add(word.len());
        }
    }
    text.len()
}

/// How many bytes of a string there are after its opening quote.
fn string_len(text: &[u8], quote: u8, no_backslash_escape: bool) -> usize {
    let mut escaped = false;
    for (i, byte) in text.iter().enumerate() {
        if escaped {
            escaped = false;
        } else if *byte == quote {
            return i.saturating_add(1);
        } else {
            escaped = is_escape(*byte, no_backslash_escape);
        }
    }
    text.len()
}

/// How many name bytes the text begins with.
fn name_len(text: &[u8]) -> usize {
    for (i, byte) in text.iter().enumerate() {
        if !is_name_byte(*byte) {
            return i;
        }
    }
    text.len()
}

/// Whether a `-` and then this text open a comment.
fn opens_dash_comment(text: &[u8]) -> bool {
    match text {
        [b'-', gap, ..] => is_white_space(*gap) && *gap != b'\n',
        _ => false,
    }
}

/// Whether a `/` and then this text open a comment.
fn opens_block_comment(text: &[u8]) -> bool {
    match text {
        [b'*', b'!' | b'+', ..] => false,
        [b'*', ..] => true,
        _ => false,
    }
}

/// Whether a `:` and then this text open a name.
fn opens_name(text: &[u8]) -> bool {
    match text {
        [first, ..] => is_start_byte(*first),
        [] => false,
    }
}

/// The kind of the token at the front of the text, and its length.
fn old_token(text: &[u8], no_backslash_escape: bool) -> (TokenKind, usize) {
    let (kind, opening, tail) = match text {
        [b'?', ..] => (TokenKind::Mark, 1usize, 0),
        [b':', rest @ ..] if opens_name(rest) => {
            (TokenKind::Name, 2, name_len(split(rest, 1).1))
        }
        [b':', ..] => (TokenKind::Other, 1, 0),
        [quote @ (b'\'' | b'"'), rest @ ..] => (
            TokenKind::Other,
            1,
            string_len(rest, *quote, no_backslash_escape),
        ),
        [b'`', rest @ ..] => (TokenKind::Other, 1, len_up_to(rest, b"`")),
        [b'#', rest @ ..] => (TokenKind::Other, 1, len_up_to(rest, b"\n")),
        [b'-', rest @ ..] if opens_dash_comment(rest) => {
            (TokenKind::Other, 3, len_up_to(split(rest, 2).1, b"\n"))
        }
        [b'-', ..] => (TokenKind::Other, 1, 0),
        [b'/', rest @ ..] if opens_block_comment(rest) => {
            (TokenKind::Other, 2, len_up_to(split(rest, 1).1, b"*/"))
        }
        [b'/', ..] => (TokenKind::Other, 1, 0),
        _ => (TokenKind::Other, 1, 0),
    };
    (kind, opening.saturating_add(tail))
}

/// The first name or mark of a text.
fn plain_first_place(text: &[u8], no_backslash_escape: bool) -> Option<FoundPlace> {
    let mut before = 0usize;
    for _ in 0..text.len() {
        let (kind, len) = old_token(split(text, before).1, no_backslash_escape);
        let kind = match kind {
            TokenKind::Name => PlaceKind::Name,
            TokenKind::Mark => PlaceKind::Mark,
            TokenKind::Other => {
                before = before.saturating_add(len);
                continue;
            }
        };
        return Some(FoundPlace { before, kind, len });
    }
    None
}

/// Whether both find the same first place, and then the same tokens one after another.
fn same_tokens(text: &[u8], no_backslash_escape: bool) -> bool {
    if first_place(text, no_backslash_escape) != plain_first_place(text, no_backslash_escape) {
        return false;
    }
    let mut rest = text;
    for _ in 0..text.len() {
        if rest.is_empty() {
            return true;
        }
        let found = first_token(rest, no_backslash_escape);
        if found != old_token(rest, no_backslash_escape) {
            return false;
        }
        rest = split(rest, found.1).1;
    }
    true
}

fn same_in_both_modes(text: &[u8]) -> bool {
    same_tokens(text, false) && same_tokens(text, true)
}

/// How a token opens, the byte of which its inside is made, and what closes it; then a place.
type Kind = (&'static [u8], u8, &'static [u8]);

const KINDS: &[Kind] = &[
    (b"'", b'a', b"':b"),
    (b"'", b'"', b"'?"),
    (b"\"", b'a', b"\" :b"),
    (b"\"", b'\'', b"\"?"),
    (b"`", b'a', b"`:b"),
    (b"#", b'a', b"\n:b"),
    (b"-- ", b'a', b"\n?"),
    (b"/*", b'a', b"*/:b"),
    (b"/*", b'*', b"*/?"),
    (b"/*", b'/', b"*/ :b"),
    (b":a", b'1', b" ?"),
    (b"?", b' ', b":b"),
    (b"", b'x', b":b"),
    (b"", b'\xff', b"?"),
];

/// Appends an open token with so many bytes inside, and a backslash before one place of these,
/// if there is one.
fn append_open(
    text: &mut Vec<u8>,
    kind: &Kind,
    inside: usize,
    backslash: Option<usize>,
) -> Result<(), AllocError> {
    text.extend_from_slice(kind.0)?;
    for at in 0..=inside {
        if backslash == Some(at) {
            text.push(b'\\')?;
        }
        if at < inside {
            text.push(kind.1)?;
        }
    }
    Ok(())
}

/// Whether all is the same of such a token: open, and closed.
fn agreement(
    alloc: Global,
    kind: &Kind,
    inside: usize,
    backslash: Option<usize>,
) -> Result<(bool, bool), AllocError> {
    let mut text = Vec::new(alloc);
    append_open(&mut text, kind, inside, backslash)?;
    let open = same_in_both_modes(&text);
    text.extend_from_slice(kind.2)?;
    Ok((open, same_in_both_modes(&text)))
}

/// All is the same of such a token. That there is no memory is no agreement: so callers have no
/// error to meet.
fn agrees(rt: &impl Abort, alloc: Global, kind: &Kind, inside: usize, backslash: Option<usize>) {
    let case = (kind, inside, backslash);
    let found = agreement(alloc, kind, inside, backslash);
    same_in(rt, &found, &Ok((true, true)), &case);
}

#[test]
fn tokens_end_where_a_plain_reading_ends_them(rt: HostRuntime) {
    for kind in KINDS {
        for inside in 0..=70 {
            agrees(&rt, rt.alloc(), kind, inside, None);
            for place in 0..=inside {
                agrees(&rt, rt.alloc(), kind, inside, Some(place));
            }
        }
    }
}
