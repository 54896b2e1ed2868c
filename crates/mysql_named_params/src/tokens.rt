//! The token at the front of a text, and runs of bytes with which only plain tokens begin. `places`
//! finds names and marks with these functions; no user needs them.
ghost use Rattle.std.specs.Prelude.{◌≡◌, ◌<◌, ◌≤◌, length, take, drop};
ghost use Rattle.mysql_named_params.specs.Bytes.{is_white_space, is_start_byte, is_name_byte, begins};
ghost use Rattle.mysql_named_params.specs.FirstToken.{IsNameFront, IsFirstToken, opens_dash_comment, opens_block_comment};
ghost use Rattle.mysql_named_params.specs.PlainBytes.{is_always_plain, AreAlwaysPlain};
ghost use Rattle.mysql_named_params.specs.WideNames.{is_wide_byte};
ghost use Rattle.mysql_named_params.specs.WidePlaces.{opens_wide_name, wide_len};

use crate::ends::string::string_len;
use crate::ends::{len_up_to_byte, len_up_to_close};
use crate::lanes::{ByteSet, first_set, run_end};
use std::simd::prelude::*;

/// The kinds of tokens that a search for names and marks distinguishes.
#[derive(Clone, Copy, Debug, PartialEq, Eq)]
pub enum TokenKind {
    /// A name.
    Name,
    /// A mark.
    Mark,
    /// A string, a quoted identifier, a comment, or one byte of anything else.
    Other,
}

/// Whether the byte is white space. For the crate above.
pub fn is_white_space(byte: u8) -> bool
    ensures { result ≡ is_white_space byte }
{
    byte.is_ascii_whitespace()
}

/// Whether the byte begins a name. For the crate above.
pub fn is_start_byte(byte: u8) -> bool
    ensures { result ≡ is_start_byte byte }
{
    byte.is_ascii_lowercase() || byte == b'_'
}

// Whether the byte continues a name.
fn is_name_byte(byte: u8) -> bool
    ensures { result ≡ is_name_byte byte }
{
    is_start_byte(byte) || byte.is_ascii_digit()
}

// The number of name bytes at the front of the text.
fn name_len(text: &[u8]) -> usize
    ensures in_range { result ≤ length text.now }
    ensures front { IsNameFront (take result text.now) (drop result text.now) }
{
    run_end(NameBytes, text, 0, text.len())
}

// The bytes that continue a name.
#[derive(Clone, Copy)]
struct NameBytes;

impl ByteSet for NameBytes {
    ghost contains = { λ _. is_name_byte };

    #[inline(always)]
    fn contains(self, byte: u8) -> bool {
        is_name_byte(byte)
    }

    #[inline(always)]
    fn first_other(self, text: &[u8], at: usize) -> Option<usize> {
        let bytes = u8x16::from_slice(&text[at..]);
        let not_lower = bytes.simd_lt(u8x16::splat(b'a')) | bytes.simd_gt(u8x16::splat(b'z'));
        let not_digit = bytes.simd_lt(u8x16::splat(b'0')) | bytes.simd_gt(u8x16::splat(b'9'));
        let others = (not_lower & not_digit) & bytes.simd_ne(u8x16::splat(b'_'));
        first_set(others.to_bitmask())
    }
}

// Whether the byte continues a wide name.
fn is_wide_byte(byte: u8) -> bool
    ensures { result ≡ is_wide_byte byte }
{
    is_name_byte(byte) || byte.is_ascii_uppercase()
}

/// Whether the text begins with a wide name and its colon. For the crate above.
pub fn opens_wide_name(text: &[u8]) -> bool
    ensures { result ≡ opens_wide_name text.now }
{
    match text {
        [b':', first, ..] => is_start_byte(*first) || first.is_ascii_uppercase(),
        _ => false,
    }
}

/// The number of bytes at the front of the text that continue a wide name. For the crate above.
pub fn wide_len(text: &[u8]) -> usize
    ensures in_range { result ≤ length text.now }
    ensures len { result ≡ wide_len text.now }
{
    run_end(WideBytes, text, 0, text.len())
}

// The bytes that continue a wide name.
#[derive(Clone, Copy)]
struct WideBytes;

impl ByteSet for WideBytes {
    ghost contains = { λ _. is_wide_byte };

    #[inline(always)]
    fn contains(self, byte: u8) -> bool {
        is_wide_byte(byte)
    }

    #[inline(always)]
    fn first_other(self, text: &[u8], at: usize) -> Option<usize> {
        let bytes = u8x16::from_slice(&text[at..]);
        let not_lower = bytes.simd_lt(u8x16::splat(b'a')) | bytes.simd_gt(u8x16::splat(b'z'));
        let not_upper = bytes.simd_lt(u8x16::splat(b'A')) | bytes.simd_gt(u8x16::splat(b'Z'));
        let not_digit = bytes.simd_lt(u8x16::splat(b'0')) | bytes.simd_gt(u8x16::splat(b'9'));
        let not_letter = not_lower & not_upper;
        let others = (not_letter & not_digit) & bytes.simd_ne(u8x16::splat(b'_'));
        first_set(others.to_bitmask())
    }
}

// Whether a `-` followed by this text opens a comment.
fn opens_dash_comment(text: &[u8]) -> bool
    ensures { result ≡ opens_dash_comment text.now }
{
    match text {
        [b'-', gap, ..] => is_white_space(*gap) && *gap != b'\n',
        _ => false,
    }
}

// Whether a `/` followed by this text opens a comment.
fn opens_block_comment(text: &[u8]) -> bool
    ensures { result ≡ opens_block_comment text.now }
{
    match text {
        [b'*', b'!' | b'+', ..] => false,
        [b'*', ..] => true,
        _ => false,
    }
}

// Whether a `:` followed by this text opens a name.
fn opens_name(text: &[u8]) -> bool
    ensures { result ≡ begins is_start_byte text.now }
{
    match text {
        [first, ..] => is_start_byte(*first),
        [] => false,
    }
}

/// The kind of the token at the front of the text, and its length.
pub fn first_token(text: &[u8], no_backslash_escape: bool) -> (TokenKind, usize)
    requires { 0 < length text.now }
    ensures { IsFirstToken no_backslash_escape text.now result.0 result.1 }
{
    let rest = &text[1..];
    match text[0] {
        b'?' => (TokenKind::Mark, 1),
        b':' if opens_name(rest) => (TokenKind::Name, 2 + name_len(&rest[1..])),
        b':' => (TokenKind::Other, 1),
        quote @ (b'\'' | b'"') => (
            TokenKind::Other,
            1 + string_len(rest, quote, no_backslash_escape),
        ),
        b'`' => (TokenKind::Other, 1 + len_up_to_byte(rest, b'`')),
        b'#' => (TokenKind::Other, 1 + len_up_to_byte(rest, b'\n')),
        b'-' if opens_dash_comment(rest) => (
            TokenKind::Other,
            3 + len_up_to_byte(&rest[2..], b'\n'),
        ),
        b'-' => (TokenKind::Other, 1),
        b'/' if opens_block_comment(rest) => (TokenKind::Other, 2 + len_up_to_close(&rest[1..])),
        b'/' => (TokenKind::Other, 1),
        _ => (TokenKind::Other, 1),
    }
}

// The number of bytes of a plain run that are skipped by the table before 16 bytes are searched at
// once. With none, short tokens that repeat, such as `(?,?,?)` or `'Y','N'`, took 1.2 to 1.8 times
// the time. With more, longer runs are slower. No other number was measured.
const PLAIN_BY_TABLE: usize = 8;

/// An index from `from` on, such that each byte from `from` up to it begins only a plain token. It
/// is in fact the furthest such index. The contract needn't say so, because `first_place` examines
/// the byte at the index itself.
pub(crate) fn plain_end(text: &[u8], from: usize) -> usize
    requires { from ≤ length text.now }
    ensures in_range { (from ≤ result) × (result ≤ length text.now) }
    ensures plain { AreAlwaysPlain text.now from result }
{
    let near = text.len().min(from.saturating_add(PLAIN_BY_TABLE));
    for at in from..near {
        if !is_always_plain(text[at]) {
            return at;
        }
    }
    far_plain_end(text, near)
}

// `plain_end` without the table. It is never inlined, so that the loop over the first bytes stays
// short.
#[inline(never)]
fn far_plain_end(text: &[u8], from: usize) -> usize
    requires { from ≤ length text.now }
    ensures in_range { (from ≤ result) × (result ≤ length text.now) }
    ensures plain { AreAlwaysPlain text.now from result }
{
    run_end(PlainBytes, text, from, text.len())
}

// The bytes with which only a plain token begins.
#[derive(Clone, Copy)]
struct PlainBytes;

impl ByteSet for PlainBytes {
    ghost contains = { λ _. is_always_plain };

    #[inline(always)]
    fn contains(self, byte: u8) -> bool {
        is_always_plain(byte)
    }

    #[inline(always)]
    fn first_other(self, text: &[u8], at: usize) -> Option<usize> {
        let bytes = u8x16::from_slice(&text[at..]);
        let quotes = bytes.simd_eq(u8x16::splat(b'\'')) | bytes.simd_eq(u8x16::splat(b'"'));
        let identifier_or_hash = bytes.simd_eq(u8x16::splat(b'`'))
            | bytes.simd_eq(u8x16::splat(b'#'));
        let dash_or_slash = bytes.simd_eq(u8x16::splat(b'-')) | bytes.simd_eq(u8x16::splat(b'/'));
        let places = bytes.simd_eq(u8x16::splat(b':')) | bytes.simd_eq(u8x16::splat(b'?'));
        let others = (quotes | identifier_or_hash) | (dash_or_slash | places);
        first_set(others.to_bitmask())
    }
}

// Whether only a plain token begins with the byte.
fn is_always_plain(byte: u8) -> bool
    ensures { result ≡ is_always_plain byte }
{
    ALWAYS_PLAIN[byte as usize] == b'1'
}

// `1` for each byte with which only a plain token begins, 32 bytes a line.
static ALWAYS_PLAIN: [u8; 256] = *b"\
    11111111111111111111111111111111\
    11001110111110101111111111011110\
    11111111111111111111111111111111\
    01111111111111111111111111111111\
    11111111111111111111111111111111\
    11111111111111111111111111111111\
    11111111111111111111111111111111\
    11111111111111111111111111111111";
