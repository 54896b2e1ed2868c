//! A search by jumps for one of two bytes in a text. A test needs only these bytes, since the
//! construct that it searches for begins or ends with one of them.
ghost use Rattle.std.specs.Prelude.{◌≤◌, length};
ghost use Rattle.mysql_named_params.specs.Lanes.{is_neither, EachPasses};

use mysql_named_params::lanes::{Neither, run_end};

// The number of bytes that are searched one by one after one of the two bytes, before 16 are
// searched at once. A larger number is slower for texts in which the two are far apart, a smaller
// number for texts in which they are close together. No other number was measured.
const BEFORE_JUMP: usize = 8;

/// An index from `from` on, such that no byte from `from` up to it is one of the two. It is in fact
/// the furthest such index. The contract needn't say so, because callers examine the byte at the
/// index themselves.
pub(crate) fn end_without(text: &[u8], from: usize, first: u8, second: u8) -> usize
    requires { from ≤ length text.now }
    ensures in_range { (from ≤ result) × (result ≤ length text.now) }
    ensures none { EachPasses (is_neither first second) text.now from result }
{
    run_end(Neither { first, second }, text, from, text.len())
}

/// `end_without` after one of the two bytes, where the next is often near.
pub(crate) fn near_end_without(text: &[u8], from: usize, first: u8, second: u8) -> usize
    requires { from ≤ length text.now }
    ensures in_range { (from ≤ result) × (result ≤ length text.now) }
    ensures none { EachPasses (is_neither first second) text.now from result }
{
    let near = text.len().min(from.saturating_add(BEFORE_JUMP));
    for at in from..near {
        if text[at] == first || text[at] == second {
            return at;
        }
    }
    end_without(text, near, first, second)
}
