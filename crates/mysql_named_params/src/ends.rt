//! The ends of strings, quoted identifiers and comments. Most ends are near: the first 16 bytes are
//! searched at once, or the bytes of a short text and of a block comment one by one. A far end is
//! found by a jump. The code after the near bytes is in functions that are never inlined, so that
//! the code for a near end stays short. Strings have escapes, so they have a module of their own,
//! `string`.
ghost use Rattle.std.specs.Prelude.{◌≤◌, [], ◌∷◌, length, take, drop};
ghost use Rattle.mysql_named_params.specs.Bytes.{asterisk, slash, IsUpTo};

use crate::lanes::{Neither, first_of_two, run_end};
use memchr::{memchr, memmem};
use mysql_sql_text::blocks::LANES;

pub(crate) mod string;

// The number of bytes of a string, a name or a line that are searched 16 at once before `memchr`,
// which costs a call. With 32 bytes one by one and then a call, the ends took 10 in a hundred of
// the instructions on scripts. A larger number avoids calls for ends that are farther, but makes
// long texts slower. No other number was measured.
const BEFORE_MEMCHR: usize = 512;

// The number of bytes of a block comment that are searched one by one before `memmem`. With 512
// more bytes after these, 16 at once, comments of some hundred bytes took up to twice the time, and
// rows of asterisks up to five times.
const BEFORE_MEMMEM: usize = 32;

/// The length up to the first such byte, with it, or to the end.
pub(crate) fn len_up_to_byte(text: &[u8], byte: u8) -> usize
    ensures in_range { result ≤ length text.now }
    ensures up_to { IsUpTo (byte ∷ []) (take result text.now) (drop result text.now) }
{
    if text.len() < LANES {
        return short_len_up_to_byte(text, byte);
    }
    match first_of_two(text, 0, byte, byte) {
        Some(run) => run + 1,
        None => LANES + long_len_up_to_byte(&text[LANES..], byte),
    }
}

// `len_up_to_byte`, byte by byte.
fn short_len_up_to_byte(text: &[u8], byte: u8) -> usize
    ensures in_range { result ≤ length text.now }
    ensures up_to { IsUpTo (byte ∷ []) (take result text.now) (drop result text.now) }
{
    for at in 0..text.len() {
        if text[at] == byte {
            return at + 1;
        }
    }
    text.len()
}

// `len_up_to_byte`, 16 bytes at once, and then by a jump.
#[inline(never)]
fn long_len_up_to_byte(text: &[u8], byte: u8) -> usize
    ensures in_range { result ≤ length text.now }
    ensures up_to { IsUpTo (byte ∷ []) (take result text.now) (drop result text.now) }
{
    let near = text.len().min(BEFORE_MEMCHR);
    let others = Neither {
        first: byte,
        second: byte,
    };
    let at = run_end(others, text, 0, near);
    if at < near {
        return at + 1;
    }
    at + far_len_up_to_byte(&text[at..], byte)
}

// `len_up_to_byte`, by a jump.
#[inline(never)]
fn far_len_up_to_byte(text: &[u8], byte: u8) -> usize
    ensures in_range { result ≤ length text.now }
    ensures up_to { IsUpTo (byte ∷ []) (take result text.now) (drop result text.now) }
{
    match memchr(byte, text) {
        Some(at) => at + 1,
        None => text.len(),
    }
}

/// The length up to the first `*/`, with it, or to the end. The first bytes are read one by one,
/// since many comments are short. The rest is searched by a jump, since many other comments are
/// full of asterisks.
pub(crate) fn len_up_to_close(text: &[u8]) -> usize
    ensures in_range { result ≤ length text.now }
    ensures up_to { IsUpTo (asterisk ∷ slash ∷ []) (take result text.now) (drop result text.now) }
{
    let near = text.len().min(BEFORE_MEMMEM);
    for at in 0..near {
        if text[at] == b'*' && at + 1 < text.len() && text[at + 1] == b'/' {
            return at + 2;
        }
    }
    near + far_len_up_to_close(&text[near..])
}

// `len_up_to_close`, by a jump.
#[inline(never)]
fn far_len_up_to_close(text: &[u8]) -> usize
    ensures in_range { result ≤ length text.now }
    ensures up_to { IsUpTo (asterisk ∷ slash ∷ []) (take result text.now) (drop result text.now) }
{
    match memmem::find(text, b"*/") {
        Some(at) => at + 2,
        None => text.len(),
    }
}
