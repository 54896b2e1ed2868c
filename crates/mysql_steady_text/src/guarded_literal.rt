//! The length of a guarded literal, a slice that is filled with it, and the form of literals that
//! writes them.
ghost use Rattle.std.specs.Prelude.{◌≡◌, [], ◌∷◌, ◌++◌, ◌+◌, ◌-◌, ◌*◌, ◌<◌, ◌≤◌, ◌&&◌, nat_le, nat_lt, slice_index, take, codes, false, length, Some, is_none, option_map, refl};
ghost use Rattle.std.specs.List.{list_all};
ghost use Rattle.mysql_sql_text.specs.LiteralText.{hexadecimal, quoted};
ghost use Rattle.mysql_values.specs.BorrowedValue.{owned};
ghost use Rattle.mysql_values.specs.Literal.{is_float};
ghost use Rattle.mysql_values.specs.declared.value.Value.TheVariants.{NULL, Bytes, Int, UInt, Float, Double, Date, Time};
ghost use Rattle.mysql_portable.specs.Steady.{is_no_backslash};
ghost use Rattle.mysql_steady_text.specs.GuardedLiteral.{guarded, guarded_byte, guarded_bytes_literal, guarded_literal_of, are_held};
ghost use Rattle.mysql_steady_text.specs.GuardedLiterals.{IsGuardedFor};

use crate::laws::{borrowed_guarded_literals, guarded_literals};
use memchr::memchr2;
use mysql_binding::LiteralForm;
use mysql_sql_text::strings::{fill_hexadecimal, fill_string, string_len};
use mysql_sql_text::utf8::is_utf8;
use mysql_values::value::{Value, ValueRef};

// The introducer before hexadecimal digits, and a space.
const INTRODUCER: &[u8] = b"_utf8mb4 ";

// The length of the guarded literal of bytes.
fn guarded_bytes_len(bytes: &[u8], no_backslash_escape: bool) -> u128
    ensures { result ≡ length (guarded_bytes_literal no_backslash_escape bytes.now) }
{
    let pairs_len = 2 + 2 * bytes.len() as u128;
    if !is_utf8(bytes) {
        return pairs_len;
    }
    if are_held(bytes, no_backslash_escape) {
        return guarded_string_len(bytes);
    }
    INTRODUCER.len() as u128 + pairs_len
}

// Fills the slice with the guarded literal of bytes.
fn fill_guarded_bytes(buffer: &mut [u8], bytes: &[u8], no_backslash_escape: bool)
    requires { length buffer.old ≡ length (guarded_bytes_literal no_backslash_escape bytes.now) }
    ensures { buffer.new ≡ guarded_bytes_literal no_backslash_escape bytes.now }
{
    if !is_utf8(bytes) {
        return fill_hexadecimal(buffer, bytes);
    }
    if are_held(bytes, no_backslash_escape) {
        return fill_guarded_string(buffer, bytes);
    }
    fill_introduced_pairs(buffer, bytes);
}

// Fills the slice with the introducer, a space and hexadecimal digits.
#[tactic(auto, using(crate::proofs::FormLemmas::introduced_len))]
fn fill_introduced_pairs(buffer: &mut [u8], bytes: &[u8])
    requires { length buffer.old ≡ length (codes "_utf8mb4 0x" ++ hexadecimal bytes.now) }
    ensures { buffer.new ≡ codes "_utf8mb4 0x" ++ hexadecimal bytes.now }
{
    let (introducer, pairs) = buffer.split_at_mut(INTRODUCER.len());
    introducer.copy_from_slice(INTRODUCER);
    fill_hexadecimal(pairs, bytes);
}

// Whether guarded strings of a mode hold the bytes.
fn are_held(bytes: &[u8], no_backslash_escape: bool) -> bool
    ensures { result ≡ are_held no_backslash_escape bytes.now }
{
    !no_backslash_escape || lacks_backslash(bytes)
}

// Whether no byte is a backslash. The loop goes on after one, so that many bytes are tested at
// once.
fn lacks_backslash(bytes: &[u8]) -> bool
    ensures { result ≡ list_all is_no_backslash bytes.now }
{
    let mut all = true;
    for byte in bytes {
        all &= *byte != b'\\';
    }
    all
}

// The length of guarded strings.
fn guarded_string_len(bytes: &[u8]) -> u128
    ensures { result ≡ length (quoted (guarded false bytes.now)) }
{
    if lacks_backslash(bytes) {
        return string_len(bytes, true);
    }
    2 + guarded_len(bytes)
}

// Fills the slice with guarded strings.
fn fill_guarded_string(buffer: &mut [u8], bytes: &[u8])
    requires { length buffer.old ≡ length (quoted (guarded false bytes.now)) }
    ensures { buffer.new ≡ quoted (guarded false bytes.now) }
{
    if lacks_backslash(bytes) {
        return fill_string(buffer, bytes, true);
    }
    let at = append_byte(buffer, 0, b'\'');
    let at = append_guarded(buffer, at, bytes);
    append_byte(buffer, at, b'\'');
}

// The length of the bytes of guarded strings.
fn guarded_len(bytes: &[u8]) -> u128
    ensures exact { result ≡ length (guarded false bytes.now) }
    ensures few { result ≤ 5 * length bytes.now }
{
    let mut len = 0;
    let mut rest = bytes;
    while let Some(run) = memchr2(b'\'', b'\\', rest) {
        len += run as u128 + guarded_byte_len(is_after_high(rest, run), rest[run]);
        rest = &rest[run + 1..];
    }
    len + rest.len() as u128
}

// Whether a byte from 128 on is directly before the index.
fn is_after_high(bytes: &[u8], at: usize) -> bool
    requires { at ≤ length bytes.now }
    ensures { result ≡ (nat_lt 0 at && nat_le 128 (slice_index bytes.now (at - 1))) }
{
    at > 0 && 128 <= bytes[at - 1]
}

// The length of a byte of guarded strings.
fn guarded_byte_len(high: bool, byte: u8) -> u128
    ensures exact { result ≡ length (guarded_byte high byte) }
    ensures few { result ≤ 5 }
{
    if byte == b'\\' && high {
        return 5;
    }
    if byte == b'\'' || byte == b'\\' { 2 } else { 1 }
}

// Appends the bytes of guarded strings. Those between quotes and backslashes are copied at once.
fn append_guarded(buffer: &mut [u8], start: usize, bytes: &[u8]) -> usize
    requires { start + length (guarded false bytes.now) ≤ length buffer.old }
    ensures next { result ≡ start + length (guarded false bytes.now) }
    ensures front { take result buffer.new ≡ take start buffer.old ++ guarded false bytes.now }
{
    let mut at = start;
    let mut rest = bytes;
    while let Some(run) = memchr2(b'\'', b'\\', rest) {
        at = append_bytes(buffer, at, &rest[..run]);
        at = append_guarded_byte(buffer, at, is_after_high(rest, run), rest[run]);
        rest = &rest[run + 1..];
    }
    append_bytes(buffer, at, rest)
}

// Appends bytes as they are.
fn append_bytes(buffer: &mut [u8], at: usize, bytes: &[u8]) -> usize
    requires { at + length bytes.now ≤ length buffer.old }
    ensures next { result ≡ at + length bytes.now }
    ensures front { take result buffer.new ≡ take at buffer.old ++ bytes.now }
{
    let end = at + bytes.len();
    buffer[at..end].copy_from_slice(bytes);
    end
}

// Appends a byte of guarded strings.
fn append_guarded_byte(buffer: &mut [u8], at: usize, high: bool, byte: u8) -> usize
    requires { at + length (guarded_byte high byte) ≤ length buffer.old }
    ensures next { result ≡ at + length (guarded_byte high byte) }
    ensures front { take result buffer.new ≡ take at buffer.old ++ guarded_byte high byte }
{
    if byte == b'\'' {
        return append_two(buffer, at, b'\'');
    }
    if byte == b'\\' {
        let at = if high { append_border(buffer, at) } else { at };
        return append_two(buffer, at, b'\\');
    }
    append_byte(buffer, at, byte)
}

// Appends the end of a string, a space and the beginning of the next.
fn append_border(buffer: &mut [u8], at: usize) -> usize
    requires { at + 3 ≤ length buffer.old }
    ensures next { result ≡ at + 3 }
    ensures front { take result buffer.new ≡ take at buffer.old ++ codes "' '" }
{
    let at = append_byte(buffer, at, b'\'');
    let at = append_byte(buffer, at, b' ');
    append_byte(buffer, at, b'\'')
}

// Appends one byte twice.
fn append_two(buffer: &mut [u8], at: usize, byte: u8) -> usize
    requires { at + 2 ≤ length buffer.old }
    ensures next { result ≡ at + 2 }
    ensures front { take result buffer.new ≡ take at buffer.old ++ byte ∷ byte ∷ [] }
{
    let at = append_byte(buffer, at, byte);
    append_byte(buffer, at, byte)
}

// Appends one byte.
fn append_byte(buffer: &mut [u8], at: usize, byte: u8) -> usize
    requires { at < length buffer.old }
    ensures next { result ≡ at + 1 }
    ensures front { take result buffer.new ≡ take at buffer.old ++ byte ∷ [] }
{
    buffer[at] = byte;
    at + 1
}

/// The form of guarded literals, for the crates above.
#[derive(Debug, Clone, Copy)]
pub struct GuardedForm {
    /// Whether the connection is taken to be in the mode without backslash escapes.
    pub no_backslash_escape: bool,
}

impl LiteralForm for GuardedForm {
    ghost literal = { λ form. guarded_literal_of form.no_backslash_escape };

    ghost IsKnown = { λ form. IsGuardedFor form.no_backslash_escape };

    ghost floats = { λ form. elim [
      | NULL ↦ refl
      | Bytes bytes ↦ refl
      | Int number ↦ refl
      | UInt number ↦ refl
      | Float bits ↦ refl
      | Double bits ↦ refl
      | Date year month day hour minute second microseconds ↦ refl
      | Time negative days hours minutes seconds microseconds ↦ refl
    ] };

    fn len(&self, value: ValueRef<'_>) -> Option<u128> {
        match value {
            ValueRef::Bytes(bytes) => Some(guarded_bytes_len(bytes, self.no_backslash_escape)),
            plain => plain.sql_len(true),
        }
    }

    fn put(&self, value: ValueRef<'_>, room: &mut [u8]) {
        borrowed_guarded_literals(value, self.no_backslash_escape);
        fill_borrowed_literal(value, room, self.no_backslash_escape);
    }

    fn value_len(&self, value: &Value) -> Option<u128> {
        match value {
            Value::Bytes(bytes) => {
                Some(guarded_bytes_len(bytes.as_slice(), self.no_backslash_escape))
            }
            other => other.sql_len(true),
        }
    }

    fn put_value(&self, value: &Value, room: &mut [u8]) {
        guarded_literals(value, self.no_backslash_escape);
        fill_literal(value, room, self.no_backslash_escape);
    }
}

// Fills the slice with the guarded literal.
fn fill_literal(value: &Value, buffer: &mut [u8], no_backslash_escape: bool)
    requires { option_map length (guarded_literal_of no_backslash_escape value.now)
        ≡ Some (length buffer.old) }
    ensures { guarded_literal_of no_backslash_escape value.now ≡ Some buffer.new }
{
    match value {
        Value::Bytes(bytes) => fill_guarded_bytes(buffer, bytes.as_slice(), no_backslash_escape),
        other => other.put_sql(true, buffer),
    }
}

// Fills the slice with the guarded literal of a borrowed value.
fn fill_borrowed_literal(value: ValueRef<'_>, buffer: &mut [u8], no_backslash_escape: bool)
    requires { option_map length (guarded_literal_of no_backslash_escape (owned value))
        ≡ Some (length buffer.old) }
    ensures { guarded_literal_of no_backslash_escape (owned value.entry) ≡ Some buffer.new }
{
    match value {
        ValueRef::Bytes(bytes) => fill_guarded_bytes(buffer, bytes, no_backslash_escape),
        plain => plain.put_sql(true, buffer),
    }
}
