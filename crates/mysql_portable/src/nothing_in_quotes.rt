//! Bytes with which nothing begins that a client finds in quotes: all except 0, a newline and a
//! backslash. They are searched 16 at once.
ghost use Rattle.std.specs.Prelude.{◌≡◌, ◌≤◌, length, IsTrue};
ghost use Rattle.mysql_named_params.specs.Lanes.{EachPasses};
ghost use Rattle.mysql_portable.specs.NothingInQuotes.{begins_nothing_in_quotes};

use mysql_named_params::lanes::{ByteSet, first_set, run_end};
use std::simd::prelude::*;

/// Whether the bytes before the index `end` begin nothing in quotes. As long as the text has 16
/// more bytes, they are searched at once, even beyond `end`, and the others one by one.
pub(crate) fn begin_nothing_in_quotes(text: &[u8], end: usize) -> bool
    requires { end ≤ length text.now }
    ensures { IsTrue result → EachPasses begins_nothing_in_quotes text.now 0 end }
{
    end <= run_end(NothingInQuotesBytes, text, 0, end)
}

// The bytes with which nothing begins in quotes.
#[derive(Clone, Copy)]
struct NothingInQuotesBytes;

impl ByteSet for NothingInQuotesBytes {
    ghost contains = { λ _. begins_nothing_in_quotes };

    #[inline(always)]
    fn contains(self, byte: u8) -> bool {
        begins_nothing_in_quotes(byte)
    }

    #[inline(always)]
    fn first_other(self, text: &[u8], at: usize) -> Option<usize> {
        let bytes = u8x16::from_slice(&text[at..]);
        let ends = bytes.simd_eq(u8x16::splat(0)) | bytes.simd_eq(u8x16::splat(b'\n'));
        let others = ends | bytes.simd_eq(u8x16::splat(b'\\'));
        first_set(others.to_bitmask())
    }
}

// Whether the byte begins nothing in quotes.
fn begins_nothing_in_quotes(byte: u8) -> bool
    ensures { result ≡ begins_nothing_in_quotes byte }
{
    byte != 0 && byte != b'\n' && byte != b'\\'
}
