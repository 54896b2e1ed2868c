//! Bytes between single quotes, with their escapes: their length, and how they fill a slice.
//!
//! Most bytes stand for themselves. So the bytes are read in blocks of 16, and the escapes of a
//! block are counted at once. A block without escapes is copied whole. A block with few escapes is
//! written from escape to escape. A block with many is written four bytes at once, whichever of
//! them are escaped. The last bytes are written one by one.
ghost use Rattle.std.specs.Prelude.{◌≡◌, [], ◌∷◌, ◌++◌, ◌+◌, ◌*◌, ◌≤◌, length, take, map, MatchOption};
ghost use Rattle.std.specs.Int.RustNames.{count_ones};
ghost use Rattle.std.specs.Simd.Lanes.{mask_l};
ghost use Rattle.mysql_sql_text.specs.EscapedLanes.{first_byte, four_lanes, last_byte};
ghost use Rattle.mysql_sql_text.specs.LiteralText.{escaped, escaped_byte, needs_escape};

use crate::blocks::{HALF, LANES, both_ends};
use crate::strings::append_byte;
use std::simd::prelude::*;

// A block with more escapes than this is written four bytes at once. From escape to escape with up
// to eight, JSON with short names took 1.4 times the time, and texts with every second byte escaped
// took 1.6. Since more than two are written four bytes at once, texts with many escapes take 0.7 of
// the instructions.
const FEW_ESCAPES: u32 = 2;

// ASCII's character "substitute".
const CONTROL_Z: u8 = 26;

// With backslash escapes: the byte after the backslash for each byte, or `.` if the byte stands for
// itself.
static AFTER_BACKSLASH: [u8; 256] = *b"\
    0.........n..r............Z.....\
    ..\"....'........................\
    ............................\\...\
    ................................\
    ................................\
    ................................\
    ................................\
    ................................";

// For each set of escaped lanes among four, one bit a lane: the lanes that are written, in order.
// `128` stands for the first byte of an escape. The bytes after the last of the four are
// overwritten.
static PLACES: [[u8; 16]; 16] = [
    [0, 1, 2, 3, 0, 0, 0, 0, 0, 0, 0, 0, 0, 0, 0, 0],
    [128, 0, 1, 2, 3, 0, 0, 0, 0, 0, 0, 0, 0, 0, 0, 0],
    [0, 128, 1, 2, 3, 0, 0, 0, 0, 0, 0, 0, 0, 0, 0, 0],
    [128, 0, 128, 1, 2, 3, 0, 0, 0, 0, 0, 0, 0, 0, 0, 0],
    [0, 1, 128, 2, 3, 0, 0, 0, 0, 0, 0, 0, 0, 0, 0, 0],
    [128, 0, 1, 128, 2, 3, 0, 0, 0, 0, 0, 0, 0, 0, 0, 0],
    [0, 128, 1, 128, 2, 3, 0, 0, 0, 0, 0, 0, 0, 0, 0, 0],
    [128, 0, 128, 1, 128, 2, 3, 0, 0, 0, 0, 0, 0, 0, 0, 0],
    [0, 1, 2, 128, 3, 0, 0, 0, 0, 0, 0, 0, 0, 0, 0, 0],
    [128, 0, 1, 2, 128, 3, 0, 0, 0, 0, 0, 0, 0, 0, 0, 0],
    [0, 128, 1, 2, 128, 3, 0, 0, 0, 0, 0, 0, 0, 0, 0, 0],
    [128, 0, 128, 1, 2, 128, 3, 0, 0, 0, 0, 0, 0, 0, 0, 0],
    [0, 1, 128, 2, 128, 3, 0, 0, 0, 0, 0, 0, 0, 0, 0, 0],
    [128, 0, 1, 128, 2, 128, 3, 0, 0, 0, 0, 0, 0, 0, 0, 0],
    [0, 128, 1, 128, 2, 128, 3, 0, 0, 0, 0, 0, 0, 0, 0, 0],
    [128, 0, 128, 1, 128, 2, 128, 3, 0, 0, 0, 0, 0, 0, 0, 0],
];

// The length of the escaped bytes. The last block overlaps the one before it, so that no bytes are
// left over.
pub(crate) fn escaped_len(bytes: &[u8], no_backslash_escape: bool) -> usize
    ensures exact { result ≡ length (escaped no_backslash_escape bytes.now) }
    ensures few { result ≤ 2 * length bytes.now }
{
    if bytes.len() < LANES {
        return escaped_len_of_few(bytes, no_backslash_escape);
    }
    let mut at = 0;
    let mut escapes = 0;
    while bytes.len() - at > LANES {
        let block = u8x16::from_slice(&bytes[at..]);
        escapes += count_set_bits(escaped_lanes(block, no_backslash_escape));
        at += LANES;
    }
    let last = bytes.len() - LANES;
    let end = u8x16::from_slice(&bytes[last..]);
    let uncounted = escaped_lanes(end, no_backslash_escape) >> (at - last);
    escapes += count_set_bits(uncounted);
    bytes.len() + escapes
}

// The number of bits that are set. Most words have none, and those are not counted.
#[inline(always)]
fn count_set_bits(bits: u64) -> usize
    ensures { result ≡ count_ones bits }
{
    if bits == 0 {
        return 0;
    }
    bits.count_ones() as usize
}

// `escaped_len` of fewer than 16 bytes. From 8 bytes on they are read at once, and fewer are read
// one by one.
#[inline(always)]
fn escaped_len_of_few(bytes: &[u8], no_backslash_escape: bool) -> usize
    requires { length bytes.now ≤ LANES }
    ensures exact { result ≡ length (escaped no_backslash_escape bytes.now) }
    ensures few { result ≤ 2 * length bytes.now }
{
    if bytes.len() < HALF {
        return escaped_bytes_len(bytes, no_backslash_escape);
    }
    let escapes = escaped_lanes(both_ends(bytes), no_backslash_escape);
    // If some of the last 8 bytes are also among the first 8, they are counted only there.
    let counted = escapes >> (LANES - bytes.len());
    bytes.len() + counted.count_ones() as usize
}

// The length of the escaped bytes, byte by byte.
fn escaped_bytes_len(bytes: &[u8], no_backslash_escape: bool) -> usize
    ensures exact { result ≡ length (escaped no_backslash_escape bytes.now) }
    ensures few { result ≤ 2 * length bytes.now }
{
    let mut len = 0;
    for byte in bytes {
        len += escaped_byte_len(*byte, no_backslash_escape);
    }
    len
}

// The length of an escaped byte.
fn escaped_byte_len(byte: u8, no_backslash_escape: bool) -> usize
    ensures exact { result ≡ length (escaped_byte no_backslash_escape byte) }
    ensures few { result ≤ 2 }
{
    if escape(byte, no_backslash_escape).is_some() {
        2
    } else {
        1
    }
}

// Appends bytes, escaped.
pub(crate) fn append_escaped(
    buffer: &mut [u8],
    start: usize,
    bytes: &[u8],
    no_backslash_escape: bool,
) -> usize
    requires { start + length (escaped no_backslash_escape bytes.now) ≤ length buffer.old }
    ensures next { result ≡ start + length (escaped no_backslash_escape bytes.now) }
    ensures front { take result buffer.new
        ≡ take start buffer.old ++ escaped no_backslash_escape bytes.now }
{
    let mut at = start;
    let mut rest = bytes;
    'by_lanes: while rest.len() >= LANES {
        at = append_block(buffer, at, rest, no_backslash_escape);
        rest = &rest[LANES..];
    }
    append_escaped_bytes(buffer, at, rest, no_backslash_escape)
}

// Appends the first 16 bytes, escaped. The bytes written after them are overwritten later, so there
// must be room for all bytes. It is inlined, since it is the body of a loop over blocks.
#[inline(always)]
fn append_block(buffer: &mut [u8], at: usize, bytes: &[u8], no_backslash_escape: bool) -> usize
    requires block { LANES ≤ length bytes.now }
    requires fits { at + length (escaped no_backslash_escape bytes.now) ≤ length buffer.old }
    ensures next { result ≡ at + length (escaped no_backslash_escape (take LANES bytes.now)) }
    ensures front { take result buffer.new
        ≡ take at buffer.old ++ escaped no_backslash_escape (take LANES bytes.now) }
{
    let block = u8x16::from_slice(bytes);
    let escapes = escaped_lanes(block, no_backslash_escape);
    if escapes == 0 {
        return append_lanes(buffer, at, block);
    }
    // 16 bytes are written at once, so there must be as many after the block.
    if bytes.len() < 2 * LANES {
        return append_escaped_bytes(buffer, at, &bytes[..LANES], no_backslash_escape);
    }
    if escapes.count_ones() > FEW_ESCAPES {
        return append_many_escapes(buffer, at, block, escapes, no_backslash_escape);
    }
    append_few_escapes(buffer, at, bytes, escapes, no_backslash_escape)
}

// `append_block`, from escape to escape. The bytes after an escape are copied whole, 16 at once,
// and the next escape is written over them. The block's mask gives its place, so no byte is
// compared again.
#[inline(always)]
fn append_few_escapes(
    buffer: &mut [u8],
    start: usize,
    bytes: &[u8],
    block_escapes: u64,
    no_backslash_escape: bool,
) -> usize
    requires two_blocks { 2 * LANES ≤ length bytes.now }
    requires mask { block_escapes
        ≡ mask_l (map (needs_escape no_backslash_escape) (take LANES bytes.now)) }
    requires fits { start + length (escaped no_backslash_escape bytes.now) ≤ length buffer.old }
    ensures next { result ≡ start + length (escaped no_backslash_escape (take LANES bytes.now)) }
    ensures front { take result buffer.new
        ≡ take start buffer.old ++ escaped no_backslash_escape (take LANES bytes.now) }
{
    let mut at = start;
    let mut from = 0;
    let mut escapes = block_escapes;
    'escapes: while escapes != 0 {
        append_lanes(buffer, at, u8x16::from_slice(&bytes[from..]));
        let plain = escapes.trailing_zeros() as usize;
        let escape = bytes[from + plain];
        at = append_escaped_byte(buffer, at + plain, escape, no_backslash_escape);
        from += plain + 1;
        escapes >>= plain + 1;
    }
    append_lanes(buffer, at, u8x16::from_slice(&bytes[from..]));
    at + (LANES - from)
}

// Appends 16 bytes, escaped, four at once.
#[inline(always)]
fn append_many_escapes(
    buffer: &mut [u8],
    start: usize,
    block: u8x16,
    block_escapes: u64,
    no_backslash_escape: bool,
) -> usize
    requires mask { block_escapes ≡ mask_l (map (needs_escape no_backslash_escape) block) }
    requires fits { start + length (escaped no_backslash_escape block) + LANES
        ≤ length buffer.old }
    ensures next { result ≡ start + length (escaped no_backslash_escape block) }
    ensures front { take result buffer.new
        ≡ take start buffer.old ++ escaped no_backslash_escape block }
{
    let mut at = start;
    let mut lanes = last_bytes(block, no_backslash_escape);
    for quarter in 0..4u32 {
        let escapes = block_escapes >> (4 * quarter);
        at = append_four(buffer, at, lanes, escapes, no_backslash_escape);
        lanes = lanes.shuffle(
            lanes,
            [4, 5, 6, 7, 8, 9, 10, 11, 12, 13, 14, 15, 16, 17, 18, 19],
        );
    }
    at
}

// Appends the first four lanes, each after the first byte of an escape if its bit is set.
#[inline(always)]
fn append_four(
    buffer: &mut [u8],
    at: usize,
    lanes: u8x16,
    escapes: u64,
    no_backslash_escape: bool,
) -> usize
    requires { at + LANES ≤ length buffer.old }
    ensures next { result ≡ at + length (four_lanes no_backslash_escape escapes lanes) }
    ensures front { take result buffer.new
        ≡ take at buffer.old ++ four_lanes no_backslash_escape escapes lanes }
{
    let four = escapes % 16;
    let places = u8x16::from_slice(&PLACES[four as usize]);
    let firsts = u8x16::splat(first_byte(no_backslash_escape));
    let text = places
        .simd_ge(u8x16::splat(128))
        .select(firsts, lanes.swizzle_dyn(places));
    append_lanes(buffer, at, text);
    at + 4 + four.count_ones() as usize
}

// The first of the two bytes that stand for an escaped byte.
#[inline(always)]
fn first_byte(no_backslash_escape: bool) -> u8
    ensures { result ≡ first_byte no_backslash_escape }
{
    if no_backslash_escape { b'\'' } else { b'\\' }
}

// The last of the bytes that stand for each byte of a block.
#[inline(always)]
fn last_bytes(block: u8x16, no_backslash_escape: bool) -> u8x16
    ensures { result ≡ map (last_byte no_backslash_escape) block }
{
    if no_backslash_escape {
        return block;
    }
    let zeros = block.simd_eq(u8x16::splat(0));
    let newlines = block.simd_eq(u8x16::splat(b'\n'));
    let returns = block.simd_eq(u8x16::splat(b'\r'));
    let substitutes = block.simd_eq(u8x16::splat(CONTROL_Z));
    let last = zeros.select(u8x16::splat(b'0'), block);
    let last = newlines.select(u8x16::splat(b'n'), last);
    let last = returns.select(u8x16::splat(b'r'), last);
    substitutes.select(u8x16::splat(b'Z'), last)
}

// Appends 16 bytes as they are. It is inlined, like the loop over blocks that it is a part of.
#[inline(always)]
fn append_lanes(buffer: &mut [u8], at: usize, block: u8x16) -> usize
    requires { at + LANES ≤ length buffer.old }
    ensures next { result ≡ at + length block }
    ensures front { take result buffer.new ≡ take at buffer.old ++ block }
{
    block.copy_to_slice(&mut buffer[at..]);
    at + LANES
}

// One bit for each byte: whether it is escaped. The lowest bit is that of the first byte. It is
// inlined, so that the block and the bytes that it is compared with stay in vector registers over
// the loop.
#[inline(always)]
fn escaped_lanes(block: u8x16, no_backslash_escape: bool) -> u64
    ensures { result ≡ mask_l (map (needs_escape no_backslash_escape) block) }
{
    let quotes = block.simd_eq(u8x16::splat(b'\''));
    if no_backslash_escape {
        return quotes.to_bitmask();
    }
    let escapes = quotes
        | block.simd_eq(u8x16::splat(b'\\'))
        | block.simd_eq(u8x16::splat(b'"'))
        | block.simd_eq(u8x16::splat(0))
        | block.simd_eq(u8x16::splat(b'\n'))
        | block.simd_eq(u8x16::splat(b'\r'))
        | block.simd_eq(u8x16::splat(CONTROL_Z));
    escapes.to_bitmask()
}

// Appends bytes, escaped, byte by byte.
fn append_escaped_bytes(
    buffer: &mut [u8],
    start: usize,
    bytes: &[u8],
    no_backslash_escape: bool,
) -> usize
    requires { start + length (escaped no_backslash_escape bytes.now) ≤ length buffer.old }
    ensures next { result ≡ start + length (escaped no_backslash_escape bytes.now) }
    ensures front { take result buffer.new
        ≡ take start buffer.old ++ escaped no_backslash_escape bytes.now }
{
    let mut at = start;
    for byte in bytes {
        at = append_escaped_byte(buffer, at, *byte, no_backslash_escape);
    }
    at
}

// Appends a byte, escaped.
fn append_escaped_byte(buffer: &mut [u8], at: usize, byte: u8, no_backslash_escape: bool) -> usize
    requires { at + length (escaped_byte no_backslash_escape byte) ≤ length buffer.old }
    ensures next { result ≡ at + length (escaped_byte no_backslash_escape byte) }
    ensures front { take result buffer.new
        ≡ take at buffer.old ++ escaped_byte no_backslash_escape byte }
{
    match escape(byte, no_backslash_escape) {
        Some((first, second)) => {
            let at = append_byte(buffer, at, first);
            append_byte(buffer, at, second)
        }
        None => append_byte(buffer, at, byte),
    }
}

// The two bytes that stand for a byte between quotes, if it doesn't stand for itself.
fn escape(byte: u8, no_backslash_escape: bool) -> Option<(u8, u8)>
    ensures { MatchOption result (escaped_byte no_backslash_escape byte ≡ byte ∷ [])
        (λ pair. escaped_byte no_backslash_escape byte ≡ pair.0 ∷ pair.1 ∷ []) }
{
    if no_backslash_escape {
        return if byte == b'\'' {
            Some((b'\'', b'\''))
        } else {
            None
        };
    }
    let second = AFTER_BACKSLASH[byte as usize];
    if second == b'.' {
        None
    } else {
        Some((b'\\', second))
    }
}
