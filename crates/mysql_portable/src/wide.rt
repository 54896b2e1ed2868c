//! The first construct that isn't portable in a query with wide names, which can have capitals.
ghost use Rattle.std.specs.Prelude.{◌≡◌, ◌↔◌, ◌≤◌, ◌<◌, length, None};
ghost use Rattle.mysql_named_params.specs.LoweredNames.{lower_names};
ghost use Rattle.mysql_named_params.specs.Reading.{OnTokensIn, OnWideTokens};
ghost use Rattle.mysql_named_params.specs.WideNames.{is_wide_start};
ghost use Rattle.mysql_portable.specs.ByStart.{begins_exponent_by, begins_fraction_by, begins_place_by, begins_tag_by, block_construct_by, found_in_front_by, front_construct_by, is_dash_before_place_by, is_quiet_by, may_begin_something_by, number_construct_by};
ghost use Rattle.mysql_portable.specs.FirstUnportable.{first_unportable};
ghost use Rattle.mysql_portable.specs.FirstUnportableInClient.{first_unportable_in_client, IsPortableInClient};
ghost use Rattle.mysql_portable.specs.Portable.{IsPortable};

use crate::client::{
    first_unportable_in_client, found_in_bytes, holds_nothing_in_quotes, line_after, passed_len,
    statement_after,
};
use crate::no_construct::no_construct_len;
use crate::portable;
use crate::portable::{
    Construct, Unportable, begins_exponent_dashes, closes, first_unportable, front_construct,
    is_tag_byte, is_version, stands_apart,
};
use mysql_named_params::places::Reading;
use mysql_named_params::tokens::{first_token, opens_wide_name, wide_len};

// Whether the byte begins a wide name.
fn is_wide_start(byte: u8) -> bool
    ensures { result ≡ is_wide_start byte }
{
    byte.is_ascii_alphabetic() || byte == b'_'
}

// Whether the text begins with a mark or a wide name.
fn begins_place(text: &[u8]) -> bool
    ensures { result ≡ begins_place_by is_wide_start text.now }
{
    match text {
        [b'?', ..] => true,
        [b':', start, ..] => is_wide_start(*start),
        _ => false,
    }
}

// Whether a `$` followed by this text begins with `$$` or `$tag$`, or a place comes first.
#[inline(never)]
fn begins_tag(text: &[u8]) -> bool
    ensures { result ≡ begins_tag_by is_wide_start text.now }
{
    for i in 0..text.len() {
        if text[i] == b'$' || begins_place(&text[i..]) {
            return true;
        }
        if !is_tag_byte(text[i]) {
            return false;
        }
    }
    false
}

// Whether a `.` followed by this text begins like `.5e--`, or a place comes first.
#[inline(never)]
fn begins_fraction(text: &[u8]) -> bool
    ensures { result ≡ begins_fraction_by is_wide_start text.now }
{
    for i in 0..text.len() {
        if begins_place(&text[i..]) {
            return true;
        }
        let byte = text[i];
        if byte == b'e' || byte == b'E' {
            return begins_exponent_dashes(&text[i + 1..]);
        }
        if !byte.is_ascii_digit() {
            return false;
        }
    }
    false
}

// Whether the text begins with the `e` and the sign of an exponent, and then a place.
fn begins_exponent(text: &[u8]) -> bool
    ensures { result ≡ begins_exponent_by is_wide_start text.now }
{
    match text {
        [b'e' | b'E', b'+' | b'-', rest @ ..] => begins_place(rest),
        _ => false,
    }
}

// Whether this byte, before this text, may begin something.
fn may_begin_something(byte: u8, rest: &[u8]) -> bool
    ensures { result ≡ may_begin_something_by is_wide_start byte rest.now }
{
    match byte {
        b'\'' | b'"' | b'`' | b'#' | b'-' | b'?' | b'[' | b';' | b'\\' => true,
        b'/' => matches!(rest, [b'*', ..]),
        b'*' => match rest {
            [b'/', after @ ..] => !stands_apart(after),
            _ => false,
        },
        b'!' => !is_version(rest),
        b':' => match rest {
            [start, ..] => is_wide_start(*start),
            _ => false,
        },
        b'$' => begins_tag(rest),
        b'.' => begins_fraction(rest),
        _ => false,
    }
}

// Whether the text begins with the text of a quiet comment.
fn is_quiet_text(text: &[u8]) -> bool
    ensures { result ≡ is_quiet_by is_wide_start text.now }
{
    for i in 0..text.len() {
        let rest = &text[i + 1..];
        if may_begin_something(text[i], rest) {
            return false;
        }
        if closes(text[i], rest) {
            return true;
        }
    }
    false
}

// The construct that a `/` opens before this text. To the grammar `/*M!` is a comment, in which no
// names are.
#[inline(never)]
fn block_construct(text: &[u8]) -> Option<Construct>
    ensures { result ≡ block_construct_by is_wide_start text.now }
{
    match text {
        [b'*', rest @ ..] if !matches!(rest, [b'!' | b'+', ..]) => portable::block_construct(text),
        [b'*', rest @ ..] if is_quiet_text(rest) => None,
        [b'*', b'!', ..] => Some(Construct::ExecutableComment),
        [b'*', b'+', ..] => Some(Construct::Hint),
        _ => None,
    }
}

// The construct of a digit or a point before this text.
fn number_construct(byte: u8, rest: &[u8]) -> Option<Construct>
    ensures { result ≡ number_construct_by is_wide_start byte rest.now }
{
    if byte == b'.' && begins_fraction(rest) {
        return Some(Construct::DashesAfterExponent);
    }
    if begins_exponent(rest) {
        return Some(Construct::PlaceAfterExponent);
    }
    None
}

// The construct that begins with the token at the front of the text, which has the length `len`.
#[inline(always)]
fn front_construct_wide(text: &[u8], len: usize) -> Option<Construct>
    requires some { 0 < len }
    requires in_range { len ≤ length text.now }
    ensures { result ≡ front_construct_by is_wide_start text.now len }
{
    let rest = &text[1..];
    match text[0] {
        b'/' => block_construct(rest),
        b'$' if begins_tag(rest) => Some(Construct::DollarQuote),
        b'$' => None,
        byte @ (b'0'..=b'9' | b'.') => number_construct(byte, rest),
        _ => front_construct(text, len),
    }
}

// The first construct of a query with wide names.
fn first_of_wide(query: &[u8], no_backslash_escape: bool) -> Option<Unportable>
    ensures first { OnWideTokens no_backslash_escape query.now (λ ts.
        result ≡ first_unportable (lower_names ts)) }
    ensures none { OnWideTokens no_backslash_escape query.now (λ ts.
        (result ≡ None) ↔ IsPortable (lower_names ts)) }
{
    let mut rest = query;
    'tokens: loop {
        rest = &rest[no_construct_len(rest)..];
        if rest.is_empty() {
            return None;
        }
        if opens_wide_name(rest) {
            let len = 1 + wide_len(&rest[1..]);
            rest = &rest[len..];
        } else {
            let (_, len) = first_token(rest, no_backslash_escape);
            if let Some(construct) = front_construct_wide(rest, len) {
                return Some(Unportable {
                    construct,
                    at: query.len() - rest.len(),
                });
            }
            rest = &rest[len..];
        }
    }
}

/// [`first_unportable`] in a reading. With wide names it finds what is to be found in the query
/// with its names in lower case, in which each place and each construct has the same position. So
/// `/*+ SET_VAR(x=:A) */` isn't portable, like the same text with `:a`: bound, it has a value in
/// the hint. It reads the query as it is, and allocates nothing.
pub fn first_unportable_in(query: &[u8], reading: Reading) -> Option<Unportable>
    ensures first { OnTokensIn reading query.now (λ ts.
        result ≡ first_unportable (lower_names ts)) }
    ensures none { OnTokensIn reading query.now (λ ts.
        (result ≡ None) ↔ IsPortable (lower_names ts)) }
{
    if reading.wide_names {
        first_of_wide(query, reading.no_backslash_escape)
    } else {
        first_unportable(query, reading.no_backslash_escape)
    }
}

// Whether the text begins with a `-` directly before a place.
fn is_dash_before_place(text: &[u8]) -> bool
    ensures { result ≡ is_dash_before_place_by is_wide_start text.now }
{
    match text {
        [b'-', rest @ ..] => begins_place(rest),
        _ => false,
    }
}

// The construct that is found in the token at the front of the text, which has the length `len`.
fn found_in_front_wide(statement: bool, line: bool, text: &[u8], len: usize) -> Option<Construct>
    requires some { 0 < len }
    requires in_range { len ≤ length text.now }
    ensures { result ≡ found_in_front_by is_wide_start statement line text.now len }
{
    if let Some(found) = front_construct_wide(text, len) {
        return Some(found);
    }
    if is_dash_before_place(text) && statement {
        return Some(Construct::DashInFront);
    }
    if holds_nothing_in_quotes(text, len) {
        return None;
    }
    let (token, rest) = text.split_at(len);
    if token.contains(&0) {
        return Some(Construct::ZeroByte);
    }
    found_in_bytes(statement, line, token, rest)
}

// The first construct for a client of a query with wide names.
fn first_of_wide_in_client(query: &[u8], no_backslash_escape: bool) -> Option<Unportable>
    ensures first { OnWideTokens no_backslash_escape query.now (λ ts.
        result ≡ first_unportable_in_client (lower_names ts)) }
    ensures none { OnWideTokens no_backslash_escape query.now (λ ts.
        (result ≡ None) ↔ IsPortableInClient (lower_names ts)) }
{
    let mut rest = query;
    let mut statement = true;
    let mut line = true;
    'tokens: loop {
        rest = &rest[passed_len(statement, line, rest)..];
        if rest.is_empty() {
            return None;
        }
        if opens_wide_name(rest) {
            let len = 1 + wide_len(&rest[1..]);
            statement = false;
            line = false;
            rest = &rest[len..];
        } else {
            let (_, len) = first_token(rest, no_backslash_escape);
            if let Some(construct) = found_in_front_wide(statement, line, rest, len) {
                return Some(Unportable {
                    construct,
                    at: query.len() - rest.len(),
                });
            }
            let token = &rest[..len];
            statement = statement_after(statement, token);
            line = line_after(line, token);
            rest = &rest[len..];
        }
    }
}

/// [`first_unportable_in_client`] in a reading, as [`first_unportable_in`] is
/// [`first_unportable`] in one.
pub fn first_unportable_in_client_in(query: &[u8], reading: Reading) -> Option<Unportable>
    ensures first { OnTokensIn reading query.now (λ ts.
        result ≡ first_unportable_in_client (lower_names ts)) }
    ensures none { OnTokensIn reading query.now (λ ts.
        (result ≡ None) ↔ IsPortableInClient (lower_names ts)) }
{
    if reading.wide_names {
        first_of_wide_in_client(query, reading.no_backslash_escape)
    } else {
        first_unportable_in_client(query, reading.no_backslash_escape)
    }
}
