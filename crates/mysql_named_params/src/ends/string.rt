//! The end of a string: the first quote that isn't escaped, or none.
//!
//! - `string_len` is for all strings. It finds the end of an empty string and a near end itself.
//! - `short_string_len` is for texts of fewer than 16 bytes, one by one.
//! - `long_string_len` is for an end after the first 16 bytes, by blocks and by jumps.
//! - `closing_quote` is for one block of 16 bytes, and `far_quote` is for a jump.
//! - `is_escaped` is for one quote. It looks at the escapes before the quote.
ghost use Rattle.std.specs.Prelude.{◌≡◌, ◌+◌, ◌≤◌, length, take, drop, map, IsTrue};
ghost use Rattle.std.specs.Simd.Lanes.{mask_l};
ghost use Rattle.memchr.specs.Find.{is_byte};
ghost use Rattle.mysql_sql_text.specs.StringUnits.{is_escape};
ghost use Rattle.mysql_named_params.specs.Bytes.{is_string_quote};
ghost use Rattle.mysql_named_params.specs.Tokens.{IsStringTail};
ghost use Rattle.mysql_named_params.specs.ClosingQuote.{is_escaped, NoneCloses, IsFirstClosing, IsNextQuote};

use super::BEFORE_MEMCHR;
use memchr::memchr;
use mysql_sql_text::blocks::LANES;
use std::simd::prelude::*;

/// The length of a string after its opening quote. Many strings are empty, so that case is tested
/// first.
pub(crate) fn string_len(text: &[u8], quote: u8, no_backslash_escape: bool) -> usize
    requires { IsTrue (is_string_quote quote) }
    ensures in_range { result ≤ length text.now }
    ensures string { IsStringTail no_backslash_escape quote (take result text.now)
        (drop result text.now) }
{
    if text.len() < LANES {
        return short_string_len(text, quote, no_backslash_escape);
    }
    if text[0] == quote {
        return 1;
    }
    match closing_quote(text, 0, quote, no_backslash_escape) {
        Some(close) => close + 1,
        None => long_string_len(text, quote, no_backslash_escape),
    }
}

// `string_len`, byte by byte.
fn short_string_len(text: &[u8], quote: u8, no_backslash_escape: bool) -> usize
    ensures in_range { result ≤ length text.now }
    ensures string { IsStringTail no_backslash_escape quote (take result text.now)
        (drop result text.now) }
{
    let mut at = 0;
    'bytes: while at < text.len() {
        let byte = text[at];
        if byte == quote {
            return at + 1;
        }
        at += 1;
        if is_escape(byte, no_backslash_escape) {
            at = text.len().min(at + 1);
        }
    }
    at
}

// `string_len`, if none of the first 16 bytes closes the string. Only quotes are searched for. The
// bytes before a quote decide whether it closes the string, so other escapes cost nothing.
#[inline(never)]
fn long_string_len(text: &[u8], quote: u8, no_backslash_escape: bool) -> usize
    requires long { LANES ≤ length text.now }
    requires open { NoneCloses no_backslash_escape quote text.now 0 LANES }
    ensures in_range { result ≤ length text.now }
    ensures string { IsStringTail no_backslash_escape quote (take result text.now)
        (drop result text.now) }
{
    let mut at = LANES;
    'jumps: while at < text.len() {
        let near = text.len().min(at.saturating_add(BEFORE_MEMCHR));
        let reach = near.saturating_sub(LANES - 1);
        'by_lanes: while at < reach {
            match closing_quote(text, at, quote, no_backslash_escape) {
                Some(close) => return close + 1,
                None => at += LANES,
            }
        }
        let far = far_quote(text, at, quote);
        if far == text.len() {
            return far;
        }
        if !is_escaped(text, far, no_backslash_escape) {
            return far + 1;
        }
        at = far + 1;
    }
    at
}

// The index of the first closing quote among the 16 bytes from the index `from` on. Each bit of a
// mask is read once, so quotes that are close together cost no further comparison.
#[inline(always)]
fn closing_quote(text: &[u8], from: usize, quote: u8, no_backslash_escape: bool) -> Option<usize>
    requires { from + LANES ≤ length text.now }
    ensures { IsFirstClosing no_backslash_escape quote text.now from LANES result }
{
    let mut at = from;
    let mut quotes = quotes_of_block(text, from, quote);
    'quotes: while quotes != 0 {
        let run = quotes.trailing_zeros() as usize;
        at += run;
        if !is_escaped(text, at, no_backslash_escape) {
            return Some(at);
        }
        at += 1;
        quotes >>= run + 1;
    }
    None
}

// One bit for each of the 16 bytes from the index `at` on: whether the byte is the quote. The
// lowest bit is that of the first byte.
#[inline(always)]
fn quotes_of_block(text: &[u8], at: usize, quote: u8) -> u64
    requires { at + LANES ≤ length text.now }
    ensures { result ≡ mask_l (map (is_byte quote) (take LANES (drop at text.now))) }
{
    u8x16::from_slice(&text[at..])
        .simd_eq(u8x16::splat(quote))
        .to_bitmask()
}

// Whether the byte at this index of a string is escaped: the number of escapes directly before it
// is odd.
fn is_escaped(text: &[u8], at: usize, no_backslash_escape: bool) -> bool
    requires { at ≤ length text.now }
    ensures { result ≡ is_escaped no_backslash_escape text.now at }
{
    let mut escaped = false;
    let mut first = at;
    'escapes: while first > 0 && is_escape(text[first - 1], no_backslash_escape) {
        escaped = !escaped;
        first -= 1;
    }
    escaped
}

// Whether the byte escapes the one after it in a string.
fn is_escape(byte: u8, no_backslash_escape: bool) -> bool
    ensures { result ≡ is_escape no_backslash_escape byte }
{
    !no_backslash_escape && byte == b'\\'
}

// The index of the next quote from the index `from` on, or the end, by a jump.
#[inline(never)]
fn far_quote(text: &[u8], from: usize, quote: u8) -> usize
    requires { from ≤ length text.now }
    ensures { IsNextQuote quote text.now from result }
{
    match memchr(quote, &text[from..]) {
        Some(far) => from + far,
        None => text.len(),
    }
}
