//! A test for UTF-8. Most texts are ASCII or begin with ASCII, which is tested 16 bytes at once.
ghost use Rattle.std.specs.Prelude.{◌≡◌, ◌+◌, ◌≤◌, length, take, drop, IsTrue};
ghost use Rattle.std.specs.Str.{IsAscii, is_utf8};

use crate::blocks::{HALF, LANES, both_ends};
use std::simd::prelude::*;

/// Whether bytes are UTF-8. For the crate above.
pub fn is_utf8(bytes: &[u8]) -> bool
    ensures { result ≡ is_utf8 bytes.now }
{
    let ascii = ascii_front_len(bytes);
    if ascii == bytes.len() {
        return true;
    }
    str::from_utf8(&bytes[ascii..]).is_ok()
}

// A number of bytes at the front that are ASCII: those before the first block that isn't ASCII, or
// all. The last block overlaps the one before it, so that no bytes are left over. `is_utf8` tests
// the bytes after them, so the contract needn't say that the number is the greatest.
fn ascii_front_len(bytes: &[u8]) -> usize
    ensures within { result ≤ length bytes.now }
    ensures ascii { IsAscii (take result bytes.now) }
{
    if bytes.len() < LANES {
        return ascii_front_of_few(bytes);
    }
    let mut at = 0;
    while bytes.len() - at > LANES {
        if !is_ascii_block(bytes, at) {
            return at;
        }
        at += LANES;
    }
    if is_ascii_block(bytes, bytes.len() - LANES) {
        bytes.len()
    } else {
        at
    }
}

// `ascii_front_len` of fewer than 16 bytes. From 8 bytes on they are read at once, and fewer are
// read one by one.
fn ascii_front_of_few(bytes: &[u8]) -> usize
    requires { length bytes.now ≤ LANES }
    ensures within { result ≤ length bytes.now }
    ensures ascii { IsAscii (take result bytes.now) }
{
    if bytes.len() >= HALF {
        return ascii_front_of_ends(bytes);
    }
    for at in 0..bytes.len() {
        if bytes[at] >= 128 {
            return at;
        }
    }
    bytes.len()
}

// `ascii_front_len` of 8 to 16 bytes, by the first 8 and the last 8: all bytes, or none.
#[inline(always)]
fn ascii_front_of_ends(bytes: &[u8]) -> usize
    requires at_least { HALF ≤ length bytes.now }
    requires at_most { length bytes.now ≤ LANES }
    ensures within { result ≤ length bytes.now }
    ensures ascii { IsAscii (take result bytes.now) }
{
    if are_ascii_lanes(both_ends(bytes)) {
        bytes.len()
    } else {
        0
    }
}

// Whether the 16 bytes from the index `at` on are all ASCII.
#[inline(always)]
fn is_ascii_block(bytes: &[u8], at: usize) -> bool
    requires { at + LANES ≤ length bytes.now }
    ensures { IsTrue result → IsAscii (take LANES (drop at bytes.now)) }
{
    are_ascii_lanes(u8x16::from_slice(&bytes[at..]))
}

// Whether the bytes of a block are all ASCII.
#[inline(always)]
fn are_ascii_lanes(block: u8x16) -> bool
    ensures { IsTrue result → IsAscii block }
{
    block.simd_ge(u8x16::splat(128)).to_bitmask() == 0
}
