//! A plain reading of the grammar's tokens that shares no code with the crate.
use mysql_named_params::tokens::TokenKind;

/// How many bytes there are up to and with the first place of the word, or to the end.
fn up_to(text: &[u8], word: &[u8]) -> usize {
    for i in 0..text.len() {
        if text[i..].starts_with(word) {
            return i.saturating_add(word.len());
        }
    }
    text.len()
}

/// How many bytes of a string stand after its opening quote.
fn string(text: &[u8], quote: u8, no_backslash_escape: bool) -> usize {
    let mut escaped = false;
    for (i, byte) in text.iter().enumerate() {
        if escaped {
            escaped = false;
        } else if *byte == quote {
            return i.saturating_add(1);
        } else {
            escaped = *byte == b'\\' && !no_backslash_escape;
        }
    }
    text.len()
}

/// How many bytes of a name the text begins with.
fn bytes_of_name(text: &[u8]) -> usize {
    for (i, byte) in text.iter().enumerate() {
        if !matches!(*byte, b'a'..=b'z' | b'_' | b'0'..=b'9') {
            return i;
        }
    }
    text.len()
}

/// How many bytes the token of a `-` has after it.
fn after_dash(text: &[u8]) -> usize {
    match text {
        [b'-', b' ' | b'\t' | b'\x0c' | b'\r', inside @ ..] => {
            up_to(inside, b"\n").saturating_add(2)
        }
        _ => 0,
    }
}

/// How many bytes the token of a `/` has after it.
fn after_slash(text: &[u8]) -> usize {
    match text {
        [b'*', b'!' | b'+', ..] => 0,
        [b'*', inside @ ..] => up_to(inside, b"*/").saturating_add(1),
        _ => 0,
    }
}

/// How many bytes the token of a `:` has after it.
fn after_colon(text: &[u8]) -> usize {
    match text {
        [b'a'..=b'z' | b'_', ..] => bytes_of_name(text),
        _ => 0,
    }
}

/// How many bytes the token has after its first byte, by the row of the grammar's table for that.
fn after_first(first: u8, text: &[u8], no_backslash_escape: bool) -> usize {
    match first {
        b'\'' | b'"' => string(text, first, no_backslash_escape),
        b'`' => up_to(text, b"`"),
        b'#' => up_to(text, b"\n"),
        b'-' => after_dash(text),
        b'/' => after_slash(text),
        b':' => after_colon(text),
        _ => 0,
    }
}

/// Of which kind the first token is.
fn kind(text: &[u8]) -> TokenKind {
    match text {
        [b'?', ..] => TokenKind::Mark,
        [b':', b'a'..=b'z' | b'_', ..] => TokenKind::Name,
        _ => TokenKind::Other,
    }
}

/// The kind of the first token and how many bytes it has; of no text a token of no byte.
pub(crate) fn plain_token(text: &[u8], no_backslash_escape: bool) -> (TokenKind, usize) {
    let len = match text {
        [first, rest @ ..] => after_first(*first, rest, no_backslash_escape).saturating_add(1),
        [] => 0,
    };
    (kind(text), len)
}

/// The text before so many bytes of its front, and after them.
pub(crate) fn split(text: &[u8], count: usize) -> (&[u8], &[u8]) {
    text.split_at(count.min(text.len()))
}
