//! Every query of up to three bytes over the bytes that the grammar names, alone and before a name,
//! against a plain reading of the grammar that shares no code with the crate, in both modes.
use crate::plain_reading::{plain_token, split};
use crate::shared::same_in;
use crate::spellings::Spelling;
use mysql_named_params::tokens::TokenKind;
use mysql_params::named_params::{NamedParamsError, ParsedNamedParams};
use std::alloc::Global;
use std::borrow::CowSlice;
use std::process::Abort;

/// The bytes that the grammar names but the form feed, and one of each kind of other byte.
const ALPHABET: &[u8] = b"'\"\\`#-/*!+:?a_Z0 \t\n\x0b\r\xc3";

/// Whether the query has a token of this kind.
fn has(query: &[u8], no_backslash_escape: bool, wanted: TokenKind) -> bool {
    let mut rest = query;
    for _ in 0..query.len() {
        let (kind, len) = plain_token(rest, no_backslash_escape);
        if kind == wanted {
            return true;
        }
        rest = split(rest, len).1;
    }
    false
}

/// What a query with marks, and names, have after what this token becomes, if they begin with it.
fn after_token<'a, 'n>(
    kind: TokenKind,
    token: &[u8],
    marked: &'a [u8],
    names: &'a [CowSlice<'n, u8>],
) -> Option<(&'a [u8], &'a [CowSlice<'n, u8>])> {
    if kind != TokenKind::Name {
        return Some((marked.strip_prefix(token)?, names));
    }
    match (token, names) {
        ([b':', wanted @ ..], [name, names @ ..]) if name.as_slice() == wanted => {
            Some((marked.strip_prefix(b"?".as_slice())?, names))
        }
        _ => None,
    }
}

/// Whether the query with marks and the names are what was parsed.
fn is_parsed(query: &[u8], no_backslash_escape: bool, parsed: &ParsedNamedParams<'_>) -> bool {
    let mut rest = query;
    let mut left = (parsed.query(), parsed.params());
    for _ in 0..query.len() {
        let (kind, len) = plain_token(rest, no_backslash_escape);
        let (token, after) = split(rest, len);
        match after_token(kind, token, left.0, left.1) {
            Some(after) => left = after,
            None => return false,
        }
        rest = after;
    }
    left.0.is_empty() && left.1.is_empty()
}

/// Whether the query has names and marks.
fn is_mixed(query: &[u8], no_backslash_escape: bool) -> bool {
    has(query, no_backslash_escape, TokenKind::Name)
        && has(query, no_backslash_escape, TokenKind::Mark)
}

/// Whether the call answers as the plain reading. That there is no memory is no answer: so callers
/// have no error to meet.
fn answers(alloc: Global, query: &[u8], spelling: Spelling) -> bool {
    let mode = spelling.has_no_backslash_escape();
    let mixed = is_mixed(query, mode);
    match spelling.parsed(alloc, query) {
        Ok(parsed) => !mixed && is_parsed(query, mode, &parsed),
        Err(NamedParamsError::Mixed(_)) => mixed,
        Err(NamedParamsError::Memory(_)) => false,
    }
}

/// Every call that parses.
const SPELLINGS: &[Spelling] = &[
    Spelling::Parse,
    Spelling::ParseIn(false),
    Spelling::ParseIn(true),
];

/// Each call answers as the plain reading.
fn agrees(rt: &impl Abort, alloc: Global, query: &[u8]) {
    for spelling in SPELLINGS {
        let same = answers(alloc, query, *spelling);
        same_in(rt, same, true, &(query, spelling.name()));
    }
}

/// So it is of each query of one to three bytes that begins with this one, and of those of three
/// before a name.
fn all_agree(rt: &impl Abort, alloc: Global, first: u8) {
    agrees(rt, alloc, &[first]);
    for second in ALPHABET {
        agrees(rt, alloc, &[first, *second]);
        for third in ALPHABET {
            agrees(rt, alloc, &[first, *second, *third]);
            agrees(rt, alloc, &[first, *second, *third, b':', b'b']);
        }
    }
}

#[test]
fn parse_agrees_with_a_plain_reading(rt: HostRuntime) {
    agrees(&rt, rt.alloc(), b"");
    for first in ALPHABET {
        all_agree(&rt, rt.alloc(), *first);
    }
}

/// So it is of each query of two bytes that begins with this one.
fn agrees_before_all(rt: &impl Abort, alloc: Global, first: u8) {
    for second in 0..=255u8 {
        agrees(rt, alloc, &[first, second]);
    }
}

#[test]
fn parse_agrees_on_all_bytes(rt: HostRuntime) {
    for first in 0..=255u8 {
        agrees(&rt, rt.alloc(), &[first]);
        agrees(&rt, rt.alloc(), &[b'-', b'-', first, b':', b'a']);
        agrees(&rt, rt.alloc(), &[b'/', b'*', first, b':', b'a']);
        agrees(&rt, rt.alloc(), &[b':', first, b':', b'a']);
        agrees_before_all(&rt, rt.alloc(), first);
    }
}
