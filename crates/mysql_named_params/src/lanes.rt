//! Searches of 16 bytes at once, for the crate above. Each takes a few instructions. So a near end
//! costs no more than a loop over a few bytes, and a far one much less.
ghost use Rattle.std.specs.Prelude.{◌≡◌, ◌+◌, ◌<◌, ◌≤◌, ℕ, Bool, false, length, slice_index};
ghost use Rattle.mysql_named_params.specs.Lanes.{first_set, is_neither, EachPasses, IsFirstOther};

use mysql_sql_text::blocks::LANES;
use std::simd::prelude::*;

/// The index of the lowest bit that is set, if one is set. For the crate above.
#[inline(always)]
pub fn first_set(mask: u64) -> Option<usize>
    ensures { result ≡ first_set mask }
{
    if mask == 0 {
        None
    } else {
        Some(mask.trailing_zeros() as usize)
    }
}

// The number of bytes before the first byte that is `first` or `second`, among the 16 bytes from
// the index `at` on. `None` if none of them is.
#[inline(always)]
pub(crate) fn first_of_two(text: &[u8], at: usize, first: u8, second: u8) -> Option<usize>
    requires { at + LANES ≤ length text.now }
    ensures { IsFirstOther (is_neither first second) text.now at LANES result }
{
    let bytes = u8x16::from_slice(&text[at..]);
    let found = bytes.simd_eq(u8x16::splat(first)) | bytes.simd_eq(u8x16::splat(second));
    first_set(found.to_bitmask())
}

/// A set of bytes that a search skips. For the crate above.
pub trait ByteSet: Copy {
    // whether the set contains a byte
    ghost contains: { Self → ℕ → Bool };

    /// Whether the set contains the byte.
    fn contains(self, byte: u8) -> bool
        ensures { result ≡ contains self byte };

    /// The number of bytes before the first byte that isn't in the set, among the 16 bytes from the
    /// index `at` on. `None` if all of them are in the set.
    fn first_other(self, text: &[u8], at: usize) -> Option<usize>
        requires { at + LANES ≤ length text.now }
        ensures { IsFirstOther (contains self) text.now at LANES result };
}

/// All bytes except two. For the crate above.
#[derive(Clone, Copy)]
pub struct Neither {
    /// One of the two bytes.
    pub first: u8,
    /// The other byte, or the same byte again.
    pub second: u8,
}

impl ByteSet for Neither {
    ghost contains = { λ set. is_neither set.first set.second };

    #[inline(always)]
    fn contains(self, byte: u8) -> bool {
        byte != self.first && byte != self.second
    }

    #[inline(always)]
    fn first_other(self, text: &[u8], at: usize) -> Option<usize> {
        first_of_two(text, at, self.first, self.second)
    }
}

/// The end of the run of bytes of the set that begins at `from`. If the run reaches `end`, the
/// result is `end` or an index after it up to which the run goes. As long as the text has 16 more
/// bytes, they are searched at once, even beyond `end`. The function is inlined, so that each set
/// has a loop of its own. For the crate above.
#[inline(always)]
pub fn run_end<S: ByteSet>(set: S, text: &[u8], from: usize, end: usize) -> usize
    requires { (from ≤ end) × (end ≤ length text.now) }
    ensures in_range { (from ≤ result) × (result ≤ length text.now) }
    ensures run { EachPasses (S.contains set) text.now from result }
    ensures stops { result < end → S.contains set (slice_index text.now result) ≡ false }
{
    let reach = end.min(text.len().saturating_sub(LANES - 1));
    let mut at = from;
    'by_lanes: while at < reach {
        match set.first_other(text, at) {
            Some(run) => return at + run,
            None => at += LANES,
        }
    }
    while at < end && set.contains(text[at]) {
        at += 1;
    }
    at
}
