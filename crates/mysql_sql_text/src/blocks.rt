//! Blocks of 16 bytes, which are processed at once, and fewer bytes as one block.
ghost use Rattle.std.specs.Prelude.{◌≡◌, ◌++◌, ◌-◌, ◌≤◌, length, take, drop};

use std::simd::prelude::*;

/// The number of bytes in a block. For the crates above.
pub const LANES: usize = 16;

// Half the number of bytes in a block.
pub(crate) const HALF: usize = 8;

// The last 8 bytes, followed by the first 8. If there are fewer than 16 bytes, some are in both
// halves.
#[inline(always)]
pub(crate) fn both_ends(bytes: &[u8]) -> u8x16
    requires { HALF ≤ length bytes.now }
    ensures { result ≡ drop (length bytes.now - HALF) bytes.now ++ take HALF bytes.now }
{
    let last = bytes.len() - HALF;
    u8x8::from_slice(&bytes[last..]).shuffle(
        u8x8::from_slice(bytes),
        [0, 1, 2, 3, 4, 5, 6, 7, 8, 9, 10, 11, 12, 13, 14, 15],
    )
}
