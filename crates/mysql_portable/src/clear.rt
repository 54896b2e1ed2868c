//! A quick test for queries that are steady and portable. It looks at 16 bytes at once, and closer
//! only at bytes that may begin or end a construct. For the crates above; no user needs it.
ghost use Rattle.std.specs.Prelude.{◌≡◌, ◌==◌, ◌+◌, ◌<◌, ◌≤◌, Bool, false, true, length, take, drop, map, slice_index, IsTrue, IsFalse};
ghost use Rattle.std.specs.Simd.Lanes.{mask_l};
ghost use Rattle.mysql_named_params.specs.Bytes.{begins, dash, newline, space};
ghost use Rattle.mysql_named_params.specs.LoweredNames.{lower_names};
ghost use Rattle.mysql_named_params.specs.Reading.{OnWideTokens};
ghost use Rattle.mysql_named_params.specs.Tokens.{OnTokens};
ghost use Rattle.mysql_named_params.specs.WideNames.{is_wide_start};
ghost use Rattle.mysql_portable.specs.Clear.{begins_client_line, begins_opener_after, begins_special_block, byte_before, is_clear, is_clear_after, is_clear_from, is_clear_in_client, is_in_doubt, is_in_doubt_for, is_in_doubt_in_client, is_never_in_doubt, is_of_client, is_sign, may_be_in_doubt, may_begin_tag, may_take_dashes, may_take_place};
ghost use Rattle.mysql_portable.specs.FirstUnportableInClient.{IsPortableInClient};
ghost use Rattle.mysql_portable.specs.Steady.{IsSteady};

use crate::client::{begins_word, is_client_word, letter_of, stand_before_comment};
use crate::portable::{begins_special, is_tag_byte, may_open_line};
use mysql_sql_text::blocks::LANES;
use std::simd::prelude::*;

/// Whether no byte of the text is in doubt. A clear query is steady and portable.
pub fn is_clear(text: &[u8]) -> bool
    ensures { result ≡ is_clear text.now }
{
    is_clear_for(text, false)
}

/// Whether no byte of the query is in doubt, on servers or in a client. Such a query is steady. It
/// is also portable on servers and in the clients `mysql` and `mariadb`, with wide names too. Most
/// queries that are steady and portable pass the test. A query that begins with a comment doesn't,
/// nor does one with a comment after a `;`.
pub fn is_clear_in_client(query: &[u8]) -> bool
    ensures value { result ≡ is_clear_in_client query.now }
    ensures steady { IsTrue result → IsSteady query.now }
    ensures portable { IsTrue result → (mode : Bool) →
        OnTokens mode query.now IsPortableInClient }
    ensures portable_by_wide_names { IsTrue result → (mode : Bool) →
        OnWideTokens mode query.now (λ ts. IsPortableInClient (lower_names ts)) }
{
    !begins_client_line(query) && is_clear_for(query, true)
}

// Whether no byte of the text is in doubt on servers, nor in a client if `client` is true. It is
// inlined, so that each value of `client` has a loop of its own.
#[inline(always)]
fn is_clear_for(text: &[u8], client: bool) -> bool
    ensures { result ≡ is_clear_after client space text.now }
{
    let reach = text.len().saturating_sub(LANES - 1);
    let mut at = 0;
    'by_lanes: while at < reach {
        if is_doubt_in_block(text, at, client) {
            return false;
        }
        at += LANES;
    }
    !is_doubt_within(text, at, client)
}

// Whether one of the 16 bytes from the index `from` on is in doubt. Each bit of a mask is read
// once, so bytes that may be in doubt and are close together cost no further comparison. It is
// inlined, since it is the body of a loop.
#[inline(always)]
fn is_doubt_in_block(text: &[u8], from: usize, client: bool) -> bool
    requires { from + LANES ≤ length text.now }
    ensures some { IsTrue result → is_clear_from client text.now from ≡ false }
    ensures none { IsFalse result →
        is_clear_from client text.now (from + LANES) ≡ is_clear_from client text.now from }
{
    let mut at = from;
    let mut doubts = doubt_mask(text, from, client);
    'doubts: while doubts != 0 {
        let run = doubts.trailing_zeros() as usize;
        at += run;
        if is_doubt_at(text, at, client) {
            return true;
        }
        at += 1;
        doubts >>= run + 1;
    }
    false
}

// One bit for each of the 16 bytes from the index `at` on: whether the byte may be in doubt. The
// lowest bit is that of the first byte.
#[inline(always)]
fn doubt_mask(text: &[u8], at: usize, client: bool) -> u64
    requires { at + LANES ≤ length text.now }
    ensures { result ≡ mask_l (map (may_be_in_doubt client) (take LANES (drop at text.now))) }
{
    let bytes = u8x16::from_slice(&text[at..]);
    let unsteady = bytes.simd_ge(u8x16::splat(128)) | bytes.simd_eq(u8x16::splat(b'\\'));
    let bracket_or_dollar = bytes.simd_eq(u8x16::splat(b'[')) | bytes.simd_eq(u8x16::splat(b'$'));
    let slash_or_dash = bytes.simd_eq(u8x16::splat(b'/')) | bytes.simd_eq(u8x16::splat(b'-'));
    let places = bytes.simd_eq(u8x16::splat(b':')) | bytes.simd_eq(u8x16::splat(b'?'));
    let returns = bytes.simd_eq(u8x16::splat(b'\r'));
    let others = ((unsteady | bracket_or_dollar) | (slash_or_dash | places)) | returns;
    if !client {
        return others.to_bitmask();
    }
    let zero_or_end = bytes.simd_eq(u8x16::splat(0)) | bytes.simd_eq(u8x16::splat(b';'));
    let letters = bytes.simd_eq(u8x16::splat(b'd')) | bytes.simd_eq(u8x16::splat(b'D'));
    (others | (zero_or_end | letters)).to_bitmask()
}

// Whether the byte at this index is in doubt.
fn is_doubt_at(text: &[u8], at: usize, client: bool) -> bool
    requires { at < length text.now }
    ensures { result ≡ is_in_doubt_for client (byte_before text.now at)
        (slice_index text.now at) (drop (at + 1) text.now) }
{
    let byte = text[at];
    let rest = &text[at + 1..];
    is_in_doubt(byte_before(text, at), byte, rest) || client && is_in_doubt_in_client(byte, rest)
}

// Whether a byte from this index on is in doubt.
fn is_doubt_within(text: &[u8], from: usize, client: bool) -> bool
    requires { from ≤ length text.now }
    ensures some { IsTrue result → is_clear_from client text.now from ≡ false }
    ensures none { IsFalse result → is_clear_from client text.now from ≡ true }
{
    for at in from..text.len() {
        if may_be_in_doubt(text[at], client) && is_doubt_at(text, at, client) {
            return true;
        }
    }
    false
}

// The byte before this index, or a space if the index is 0.
fn byte_before(text: &[u8], at: usize) -> u8
    requires { at ≤ length text.now }
    ensures { result ≡ byte_before text.now at }
{
    if at == 0 { b' ' } else { text[at - 1] }
}

// Whether the byte, between the byte before it and this rest, isn't steady, or may begin or end a
// construct.
fn is_in_doubt(before: u8, byte: u8, rest: &[u8]) -> bool
    ensures { result ≡ is_in_doubt before byte rest.now }
{
    match byte {
        b'[' | b'\\' | 128.. => true,
        b'\r' => !begins_newline(rest),
        b'$' => begins_tag(rest),
        b'/' => begins_special_block(rest),
        b'-' => may_open_line(rest) || may_take_dashes(before) && begins_dash(rest),
        b'?' => may_take_place(before),
        b':' => may_take_place(before) && begins_wide_name(rest),
        _ => false,
    }
}

// Whether the text begins with a newline.
fn begins_newline(text: &[u8]) -> bool
    ensures { result ≡ begins (λ c. c == newline) text.now }
{
    matches!(text, [b'\n', ..])
}

// Whether the text begins with a byte that may begin a tag after a `$`, or a place.
fn begins_tag(text: &[u8]) -> bool
    ensures { result ≡ begins may_begin_tag text.now }
{
    match text {
        [first, ..] => may_begin_tag(*first),
        [] => false,
    }
}

// Whether the byte may begin a tag after a `$`, or a place.
fn may_begin_tag(byte: u8) -> bool
    ensures { result ≡ may_begin_tag byte }
{
    byte == b'$' || byte == b'?' || byte == b':' || is_tag_byte(byte)
}

// Whether a `/` followed by this text is a comment that may be executed, or a hint.
fn begins_special_block(text: &[u8]) -> bool
    ensures { result ≡ begins_special_block text.now }
{
    match text {
        [b'*', rest @ ..] => begins_special(rest),
        _ => false,
    }
}

// Whether a byte is a sign.
fn is_sign(byte: u8) -> bool
    ensures { result ≡ is_sign byte }
{
    byte == b'+' || byte == b'-'
}

// Whether two dashes after this byte may belong to a number.
fn may_take_dashes(byte: u8) -> bool
    ensures { result ≡ may_take_dashes byte }
{
    byte == b'e' || byte == b'E' || is_sign(byte)
}

// Whether a place after this byte may belong to a number.
fn may_take_place(byte: u8) -> bool
    ensures { result ≡ may_take_place byte }
{
    byte.is_ascii_digit() || byte == b'.' || is_sign(byte)
}

// Whether the text begins with a dash.
fn begins_dash(text: &[u8]) -> bool
    ensures { result ≡ begins (λ c. c == dash) text.now }
{
    matches!(text, [b'-', ..])
}

// Whether the text begins with the start byte of a wide name.
fn begins_wide_name(text: &[u8]) -> bool
    ensures { result ≡ begins is_wide_start text.now }
{
    match text {
        [first, ..] => first.is_ascii_alphabetic() || *first == b'_',
        [] => false,
    }
}

// Whether the byte, before this rest, may begin a construct of a client, or is a `;` before a
// statement that may begin with one.
fn is_in_doubt_in_client(byte: u8, rest: &[u8]) -> bool
    ensures { result ≡ is_in_doubt_in_client byte rest.now }
{
    match byte {
        0 => true,
        b';' => begins_client_line(rest),
        b'-' => stand_before_comment(rest),
        b'/' => begins_opener_after(rest),
        b'd' | b'D' => begins_word(b"elimiter", rest),
        _ => false,
    }
}

// Whether a `/` followed by this text begins with `/*!`, `/*+` or `/*/`.
fn begins_opener_after(rest: &[u8]) -> bool
    ensures { result ≡ begins_opener_after rest.now }
{
    matches!(rest, [b'*', b'!' | b'+' | b'/', ..])
}

// Whether the text begins, after white space, with a word of a client, or with bytes that may be a
// comment or a line that a client drops.
fn begins_client_line(text: &[u8]) -> bool
    ensures { result ≡ begins_client_line text.now }
{
    let mut rest = text;
    while let [byte, more @ ..] = rest {
        if *byte > b' ' {
            return matches!(*byte, b'#' | b'-' | b'/') || is_client_word(letter_of(*byte), more);
        }
        rest = more;
    }
    false
}

// Whether the byte may be in doubt on servers, or in a client if `client` is true.
fn may_be_in_doubt(byte: u8, client: bool) -> bool
    ensures { result ≡ may_be_in_doubt client byte }
{
    !is_never_in_doubt(byte) || client && is_of_client(byte)
}

// Whether a construct of a client or a statement may begin with the byte.
fn is_of_client(byte: u8) -> bool
    ensures { result ≡ is_of_client byte }
{
    byte == 0 || byte == b';' || byte == b'd' || byte == b'D'
}

// Whether the byte is never in doubt on servers: it is steady, no construct and no place begins
// with it, and it ends no comment.
fn is_never_in_doubt(byte: u8) -> bool
    ensures { result ≡ is_never_in_doubt byte }
{
    NEVER_IN_DOUBT[byte as usize] == b'1'
}

// `1` for each byte that is never in doubt, 32 bytes a line.
static NEVER_IN_DOUBT: [u8; 256] = *b"\
    11111111111110111111111111111111\
    11110111111110101111111111011110\
    11111111111111111111111111100111\
    11111111111111111111111111111111\
    00000000000000000000000000000000\
    00000000000000000000000000000000\
    00000000000000000000000000000000\
    00000000000000000000000000000000";
