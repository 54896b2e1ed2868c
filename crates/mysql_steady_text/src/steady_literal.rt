//! The length of a steady literal, a slice that is filled with it, and the form of literals that
//! writes them.
ghost use Rattle.std.specs.Prelude.{◌≡◌, ◌++◌, codes, length, Some, is_none, option_map, refl};
ghost use Rattle.std.specs.List.{list_all};
ghost use Rattle.mysql_sql_text.specs.LiteralText.{hexadecimal};
ghost use Rattle.mysql_values.specs.BorrowedValue.{owned};
ghost use Rattle.mysql_values.specs.Literal.{is_float};
ghost use Rattle.mysql_values.specs.declared.value.Value.TheVariants.{NULL, Bytes, Int, UInt, Float, Double, Date, Time};
ghost use Rattle.mysql_portable.specs.Steady.{IsSteady};
ghost use Rattle.mysql_steady_text.specs.SteadyLiteral.{is_spelled_out, steady_bytes_literal, steady_literal_of};
ghost use Rattle.mysql_steady_text.specs.ReadSteadyLiteral.{ReadsSteadyAs};
ghost use Rattle.mysql_steady_text.specs.SteadyLiterals.{IsSteadyFor};

use crate::laws::{borrowed_steady_literals, steady_literals};
use mysql_binding::LiteralForm;
use mysql_sql_text::strings::{fill_hexadecimal, fill_string, string_len};
use mysql_values::laws::{borrowed_fields_in_range, fields_in_range};
use mysql_values::value::{Value, ValueRef};

// The introducer before a string or hexadecimal digits.
const INTRODUCER: &[u8] = b"_utf8mb4";

/// The number of bytes of the steady literal of a value.
///
/// `None` exactly for `Float` and `Double`, which have no literal. It allocates nothing. The length
/// may be above `isize::MAX`, and then no slice is that long.
pub fn steady_len(value: &Value) -> Option<u128>
    ensures exact { result ≡ option_map length (steady_literal_of value.now) }
    ensures float { is_none result ≡ is_float value.now }
{
    match value {
        Value::Bytes(bytes) => Some(steady_bytes_len(bytes.as_slice())),
        other => other.sql_len(true),
    }
}

/// Writes the steady literal of a value over the whole of `room`.
///
/// It can be called only if the value has a literal, so isn't a float, and `room` has exactly the
/// length that [`steady_len`] returns. Nothing is allocated, and nothing is refused.
pub fn put_steady(value: &Value, room: &mut [u8])
    requires { option_map length (steady_literal_of value.now) ≡ Some (length room.old) }
    ensures exact { steady_literal_of value.now ≡ Some room.new }
    ensures steady { IsSteady room.new }
    ensures reads_back { ReadsSteadyAs value.now room.new }
{
    steady_literals(value);
    fill_literal(value, room);
}

/// The number of bytes of the steady literal of a borrowed value.
///
/// `None` exactly for `Float` and `Double`, which have no literal. It allocates nothing. The length
/// may be above `isize::MAX`, and then no slice is that long.
pub fn borrowed_steady_len(value: ValueRef<'_>) -> Option<u128>
    ensures exact { result ≡ option_map length (steady_literal_of (owned value.entry)) }
    ensures float { is_none result ≡ is_float (owned value.entry) }
{
    match value {
        ValueRef::Bytes(bytes) => Some(steady_bytes_len(bytes)),
        plain => plain.sql_len(true),
    }
}

/// Writes the steady literal of a borrowed value over the whole of `room`.
///
/// It can be called only if the value has a literal, so isn't a float, and `room` has exactly the
/// length that [`borrowed_steady_len`] returns. Nothing is allocated, and nothing is refused.
pub fn put_borrowed_steady(value: ValueRef<'_>, room: &mut [u8])
    requires { option_map length (steady_literal_of (owned value)) ≡ Some (length room.old) }
    ensures exact { steady_literal_of (owned value.entry) ≡ Some room.new }
    ensures steady { IsSteady room.new }
    ensures reads_back { ReadsSteadyAs (owned value.entry) room.new }
{
    borrowed_steady_literals(value);
    fill_borrowed_literal(value, room);
}

// Fills the slice with the steady literal.
fn fill_literal(value: &Value, buffer: &mut [u8])
    requires { option_map length (steady_literal_of value.now) ≡ Some (length buffer.old) }
    ensures { steady_literal_of value.now ≡ Some buffer.new }
{
    match value {
        Value::Bytes(bytes) => fill_steady_bytes(buffer, bytes.as_slice()),
        other => other.put_sql(true, buffer),
    }
}

// Fills the slice with the steady literal of a borrowed value.
fn fill_borrowed_literal(value: ValueRef<'_>, buffer: &mut [u8])
    requires { option_map length (steady_literal_of (owned value)) ≡ Some (length buffer.old) }
    ensures { steady_literal_of (owned value.entry) ≡ Some buffer.new }
{
    match value {
        ValueRef::Bytes(bytes) => fill_steady_bytes(buffer, bytes),
        plain => plain.put_sql(true, buffer),
    }
}

// The length of the steady literal of bytes.
fn steady_bytes_len(bytes: &[u8]) -> u128
    ensures { result ≡ length (steady_bytes_literal bytes.now) }
{
    if are_spelled_out(bytes) {
        return INTRODUCER.len() as u128 + string_len(bytes, true);
    }
    let pairs_len = 2 + 2 * bytes.len() as u128;
    match str::from_utf8(bytes) {
        Ok(_) => INTRODUCER.len() as u128 + 1 + pairs_len,
        Err(_) => pairs_len,
    }
}

// Fills the slice with the steady literal of bytes.
fn fill_steady_bytes(buffer: &mut [u8], bytes: &[u8])
    requires { length buffer.old ≡ length (steady_bytes_literal bytes.now) }
    ensures { buffer.new ≡ steady_bytes_literal bytes.now }
{
    if are_spelled_out(bytes) {
        let (introducer, string) = buffer.split_at_mut(INTRODUCER.len());
        introducer.copy_from_slice(INTRODUCER);
        return fill_string(string, bytes, true);
    }
    match str::from_utf8(bytes) {
        Ok(_) => fill_introduced_pairs(buffer, bytes),
        Err(_) => fill_hexadecimal(buffer, bytes),
    }
}

// Fills the slice with the introducer, a space and hexadecimal digits.
#[tactic(auto, using(crate::proofs::FormLemmas::introduced_len))]
fn fill_introduced_pairs(buffer: &mut [u8], bytes: &[u8])
    requires { length buffer.old ≡ length (codes "_utf8mb4 0x" ++ hexadecimal bytes.now) }
    ensures { buffer.new ≡ codes "_utf8mb4 0x" ++ hexadecimal bytes.now }
{
    let (introducer, pairs) = buffer.split_at_mut(INTRODUCER.len() + 1);
    introducer.copy_from_slice(b"_utf8mb4 ");
    fill_hexadecimal(pairs, bytes);
}

// Whether a steady string holds each of the bytes. The loop goes on after a byte that it doesn't
// hold, so that many bytes are tested at once.
fn are_spelled_out(bytes: &[u8]) -> bool
    ensures { result ≡ list_all is_spelled_out bytes.now }
{
    let mut all = true;
    for byte in bytes {
        all &= is_spelled_out(*byte);
    }
    all
}

// Whether a steady string holds the byte.
fn is_spelled_out(byte: u8) -> bool
    ensures { result ≡ is_spelled_out byte }
{
    32 <= byte && byte <= 126 && byte != b'\\'
}

/// The form of steady literals, for the crates above.
#[derive(Debug, Clone, Copy)]
pub struct SteadyForm;

impl LiteralForm for SteadyForm {
    ghost literal = { λ _. steady_literal_of };

    ghost IsKnown = { λ _. IsSteadyFor };

    ghost floats = { λ _. elim [
      | NULL ↦ refl
      | Bytes bytes ↦ refl
      | Int number ↦ refl
      | UInt number ↦ refl
      | Float bits ↦ refl
      | Double bits ↦ refl
      | Date year month day hour minute second microseconds ↦ refl
      | Time negative days hours minutes seconds microseconds ↦ refl
    ] };

    fn len(&self, value: ValueRef<'_>) -> Option<u128> {
        borrowed_steady_len(value)
    }

    fn put(&self, value: ValueRef<'_>, room: &mut [u8]) {
        borrowed_fields_in_range(value);
        borrowed_steady_literals(value);
        put_borrowed_steady(value, room);
    }

    fn value_len(&self, value: &Value) -> Option<u128> {
        steady_len(value)
    }

    fn put_value(&self, value: &Value, room: &mut [u8]) {
        fields_in_range(value);
        steady_literals(value);
        put_steady(value, room);
    }
}
