//! The first backslash in a string of a query.
ghost use Rattle.std.specs.Prelude.{◌≡◌, Bool, None, IsTrue, IsFalse, position};
ghost use Rattle.mysql_named_params.specs.Bytes.{begins, is_string_quote};
ghost use Rattle.mysql_named_params.specs.Tokens.{OnTokens};
ghost use Rattle.mysql_steady_text.specs.FirstBackslash.{first_backslash, is_backslash};

use memchr::memchr;
use mysql_named_params::tokens::first_token;

// The position of the first backslash in a token of these bytes, if it is a string.
fn backslash_in(token: &[u8]) -> Option<usize>
    ensures string { IsTrue (begins is_string_quote token.now) →
        result ≡ position is_backslash token.now }
    ensures other { IsFalse (begins is_string_quote token.now) → result ≡ None }
{
    match token {
        [b'\'' | b'"', ..] => backslash_position(token),
        _ => None,
    }
}

// The position of the first backslash in a text.
fn backslash_position(text: &[u8]) -> Option<usize>
    ensures { result ≡ position is_backslash text.now }
{
    text.iter().position(|byte| *byte == b'\\')
}

/// The position of the first backslash in a string of the query, the same in both modes. It
/// allocates nothing. For the crates above.
pub fn first_backslash(query: &[u8]) -> Option<usize>
    ensures { (mode : Bool) → OnTokens mode query.now (λ ts. result ≡ first_backslash ts) }
{
    let Some(_) = memchr(b'\\', query) else {
        return None;
    };
    let mut rest = query;
    while !rest.is_empty() {
        let (_, len) = first_token(rest, true);
        if let Some(within) = backslash_in(&rest[..len]) {
            return Some(query.len() - rest.len() + within);
        }
        rest = &rest[len..];
    }
    None
}
