//! Literals of bytes: strings with their escapes, and hexadecimal literals.
ghost use Rattle.std.specs.Prelude.{◌≡◌, [], ◌∷◌, ◌++◌, ◌+◌, ◌*◌, ◌<◌, ◌≤◌, length, take, codes};
ghost use Rattle.mysql_sql_text.specs.LiteralText.{bytes_literal, escaped, hexadecimal_digit, hexadecimal, quoted};

use crate::escapes::{append_escaped, escaped_len};
use crate::utf8::is_utf8;

/// The length of the literal of bytes.
#[inline]
pub fn bytes_literal_len(bytes: &[u8], no_backslash_escape: bool) -> u128
    ensures { result ≡ length (bytes_literal no_backslash_escape bytes.now) }
{
    if is_utf8(bytes) {
        string_len(bytes, no_backslash_escape)
    } else {
        2 + 2 * bytes.len() as u128
    }
}

/// Fills the slice with the literal of bytes: a string if they are UTF-8, or else a hexadecimal
/// literal. The slice must have exactly the length `bytes_literal_len`.
#[inline]
pub fn fill_bytes_literal(buffer: &mut [u8], bytes: &[u8], no_backslash_escape: bool)
    requires { length buffer.old ≡ length (bytes_literal no_backslash_escape bytes.now) }
    ensures { buffer.new ≡ bytes_literal no_backslash_escape bytes.now }
{
    // Unless every byte is escaped, a string is shorter than a hexadecimal literal. So a buffer
    // that is shorter than that means UTF-8. The computation of the length has tested it, so no
    // test is needed.
    if (buffer.len() as u128) < 2 + 2 * bytes.len() as u128 {
        return fill_string(buffer, bytes, no_backslash_escape);
    }
    if is_utf8(bytes) {
        fill_string(buffer, bytes, no_backslash_escape);
    } else {
        fill_hexadecimal(buffer, bytes);
    }
}

/// The length of bytes between quotes, escaped.
#[inline]
pub fn string_len(bytes: &[u8], no_backslash_escape: bool) -> u128
    ensures exact { result ≡ length (quoted (escaped no_backslash_escape bytes.now)) }
    ensures few { result ≤ 2 + 2 * length bytes.now }
{
    2 + escaped_len(bytes, no_backslash_escape) as u128
}

/// Fills the slice with bytes between quotes, escaped. The slice must have exactly the length
/// `string_len`.
pub fn fill_string(buffer: &mut [u8], bytes: &[u8], no_backslash_escape: bool)
    requires { length buffer.old ≡ length (quoted (escaped no_backslash_escape bytes.now)) }
    ensures { buffer.new ≡ quoted (escaped no_backslash_escape bytes.now) }
{
    let at = append_byte(buffer, 0, b'\'');
    let at = append_before_quote(buffer, at, bytes, no_backslash_escape);
    append_byte(buffer, at, b'\'');
}

// Appends bytes, escaped, up to the last byte of the buffer. If there is no room for escapes, no
// byte is escaped, and they are copied whole.
fn append_before_quote(
    buffer: &mut [u8],
    at: usize,
    bytes: &[u8],
    no_backslash_escape: bool,
) -> usize
    requires { at + length (escaped no_backslash_escape bytes.now) + 1 ≡ length buffer.old }
    ensures next { result ≡ at + length (escaped no_backslash_escape bytes.now) }
    ensures front { take result buffer.new
        ≡ take at buffer.old ++ escaped no_backslash_escape bytes.now }
{
    if buffer.len() - at == bytes.len() + 1 {
        return append_bytes(buffer, at, bytes);
    }
    append_escaped(buffer, at, bytes, no_backslash_escape)
}

// Appends one byte.
pub(crate) fn append_byte(buffer: &mut [u8], at: usize, byte: u8) -> usize
    requires { at < length buffer.old }
    ensures next { result ≡ at + 1 }
    ensures front { take result buffer.new ≡ take at buffer.old ++ byte ∷ [] }
{
    buffer[at] = byte;
    at + 1
}

// Appends bytes as they are.
fn append_bytes(buffer: &mut [u8], at: usize, bytes: &[u8]) -> usize
    requires { at + length bytes.now ≤ length buffer.old }
    ensures next { result ≡ at + length bytes.now }
    ensures front { take result buffer.new ≡ take at buffer.old ++ bytes.now }
{
    let end = at + bytes.len();
    buffer[at..end].copy_from_slice(bytes);
    end
}

/// Fills the slice with `0x` and two hexadecimal digits for each byte.
pub fn fill_hexadecimal(buffer: &mut [u8], bytes: &[u8])
    requires { length buffer.old ≡ 2 + 2 * length bytes.now }
    ensures { buffer.new ≡ codes "0x" ++ hexadecimal bytes.now }
{
    let at = append_byte(buffer, 0, b'0');
    let at = append_byte(buffer, at, b'x');
    append_pairs(buffer, at, bytes);
}

// Appends two hexadecimal digits for each byte.
fn append_pairs(buffer: &mut [u8], at: usize, bytes: &[u8]) -> usize
    requires { at + 2 * length bytes.now ≤ length buffer.old }
    ensures next { result ≡ at + 2 * length bytes.now }
    ensures front { take result buffer.new ≡ take at buffer.old ++ hexadecimal bytes.now }
{
    let end = at + 2 * bytes.len();
    fill_pairs(&mut buffer[at..end], bytes);
    end
}

// Fills the slice with two hexadecimal digits for each byte.
fn fill_pairs(buffer: &mut [u8], bytes: &[u8])
    requires { length buffer.old ≡ 2 * length bytes.now }
    ensures { buffer.new ≡ hexadecimal bytes.now }
{
    for (i, byte) in bytes.iter().enumerate() {
        buffer[2 * i] = hexadecimal_digit(*byte / 16);
        buffer[2 * i + 1] = hexadecimal_digit(*byte % 16);
    }
}

// The hexadecimal digit of a number, in upper case.
fn hexadecimal_digit(number: u8) -> u8
    requires { number < 16 }
    ensures { result ≡ hexadecimal_digit number }
{
    if number < 10 {
        b'0' + number
    } else {
        b'A' + (number - 10)
    }
}
