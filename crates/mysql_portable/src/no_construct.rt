//! Runs of bytes that begin no construct. Only a plain token begins with each of them, and no
//! construct of a server or of a client, with two exceptions: an exponent before a place, and a
//! word at the front of a client's line or statement. No line or statement begins after one of
//! them. The first bytes are skipped by a table, since most runs are short, and longer runs are
//! skipped 16 bytes at once.
ghost use Rattle.std.specs.Prelude.{◌≡◌, ◌≤◌, length};
ghost use Rattle.mysql_named_params.specs.Bytes.{begins};
ghost use Rattle.mysql_named_params.specs.Lanes.{EachPasses};
ghost use Rattle.mysql_portable.specs.NoConstruct.{begins_no_construct, is_of_exponent, StandBeforeNoExponent, StandBeforeNoSign};

use mysql_named_params::lanes::{ByteSet, first_set, run_end};
use std::simd::prelude::*;

// The number of bytes that are skipped by the table before 16 are searched at once. It is smaller
// than for plain runs, since `no_construct_len` itself finds that a run is empty. A larger number
// makes longer runs slower, a smaller number short ones. No other number was measured.
const PASSED_BY_TABLE: usize = 4;

/// A number of bytes at the front of the text that begin no construct, none of which is before an
/// exponent and a place. It is inlined, so that one look-up without a call is enough if there is no
/// such byte.
#[inline(always)]
pub(crate) fn no_construct_len(text: &[u8]) -> usize
    ensures in_range { result ≤ length text.now }
    ensures no_construct { EachPasses begins_no_construct text.now 0 result }
    ensures no_exponent { StandBeforeNoExponent text.now result }
    ensures no_sign { StandBeforeNoSign text.now result }
{
    match text {
        [first, ..] if begins_no_construct(*first) => no_construct_run_len(text),
        _ => 0,
    }
}

// `no_construct_len` of a run. It needn't look at digits: an exponent has a sign, and a run ends at
// a sign. So only a run that ends within an exponent gives back its last two bytes, which may be a
// digit and `e`.
fn no_construct_run_len(text: &[u8]) -> usize
    ensures in_range { result ≤ length text.now }
    ensures no_construct { EachPasses begins_no_construct text.now 0 result }
    ensures no_exponent { StandBeforeNoExponent text.now result }
    ensures no_sign { StandBeforeNoSign text.now result }
{
    let end = no_construct_end(text);
    if goes_on_exponent(&text[end..]) {
        end.saturating_sub(2)
    } else {
        end
    }
}

// Whether the text begins with the letter of an exponent or its sign.
fn goes_on_exponent(text: &[u8]) -> bool
    ensures { result ≡ begins is_of_exponent text.now }
{
    matches!(text, [b'e' | b'E' | b'+' | b'-', ..])
}

// An index up to which no byte of the text begins a construct. It is in fact the furthest such
// index.
fn no_construct_end(text: &[u8]) -> usize
    ensures in_range { result ≤ length text.now }
    ensures no_construct { EachPasses begins_no_construct text.now 0 result }
{
    let near = text.len().min(PASSED_BY_TABLE);
    for at in 0..near {
        if !begins_no_construct(text[at]) {
            return at;
        }
    }
    run_end(NoConstructBytes, text, near, text.len())
}

// The bytes with which no construct begins.
#[derive(Clone, Copy)]
struct NoConstructBytes;

impl ByteSet for NoConstructBytes {
    ghost contains = { λ _. begins_no_construct };

    #[inline(always)]
    fn contains(self, byte: u8) -> bool {
        begins_no_construct(byte)
    }

    // Two bytes that differ only in their last bit are compared as one.
    #[inline(always)]
    fn first_other(self, text: &[u8], at: usize) -> Option<usize> {
        let bytes = u8x16::from_slice(&text[at..]);
        let pairs = bytes | u8x16::splat(1);
        let quotes = pairs.simd_eq(u8x16::splat(b'#')) | bytes.simd_eq(u8x16::splat(b'\''));
        let star_or_slash = pairs.simd_eq(u8x16::splat(b'+')) | pairs.simd_eq(u8x16::splat(b'/'));
        let colon_or_dash = pairs.simd_eq(u8x16::splat(b';')) | bytes.simd_eq(u8x16::splat(b'-'));
        let brackets = bytes.simd_eq(u8x16::splat(b'[')) | bytes.simd_eq(u8x16::splat(b'\\'));
        let mark_or_dollar = bytes.simd_eq(u8x16::splat(b'?')) | bytes.simd_eq(u8x16::splat(b'$'));
        let ends = bytes.simd_eq(u8x16::splat(b'\n')) | bytes.simd_eq(u8x16::splat(0));
        let names = bytes.simd_eq(u8x16::splat(b'`')) | ends;
        let signs = (quotes | star_or_slash) | (colon_or_dash | brackets);
        let others = signs | (mark_or_dollar | names);
        first_set(others.to_bitmask())
    }
}

// Whether no construct begins with the byte.
fn begins_no_construct(byte: u8) -> bool
    ensures { result ≡ begins_no_construct byte }
{
    BEGINS_NO_CONSTRUCT[byte as usize] == b'1'
}

// `1` for each byte with which no construct begins, 32 bytes a line.
static BEGINS_NO_CONSTRUCT: [u8; 256] = *b"\
    01111111110111111111111111111111\
    11000110110010001111111111001110\
    11111111111111111111111111100111\
    01111111111111111111111111111111\
    11111111111111111111111111111111\
    11111111111111111111111111111111\
    11111111111111111111111111111111\
    11111111111111111111111111111111";
