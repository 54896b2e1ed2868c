//! Laws about the types of this crate. A law is called only for its `ensures`, if a proof needs it.
ghost use Rattle.std.specs.Prelude.{◌≡◌, ◌↔◌, IsTrue, None, Some};
ghost use Rattle.std.specs.Cmp.{IsTotalOrder};
ghost use Rattle.std.specs.Cmp.Lexicographic.{slice_cmp};
ghost use Rattle.std.specs.Ordering.{nat_cmp};
ghost use Rattle.std.specs.declared.cmp.Ordering.TheVariants.{Equal};
ghost use Rattle.mysql_value_core.specs.declared.value.Value as value;
ghost use Rattle.mysql_value_core.specs.ValueOf.{MeansBytes, too_long_duration};
ghost use Rattle.mysql_value_core.specs.ValueOrder.{value_cmp};
ghost use Rattle.mysql_wire_part.specs.Answer.{IsAnswer};

mod borrowed;
mod literals;
mod rows;

use crate::value::convert::{FromValueError, ToValue, ToValueError};
use crate::value::{
    BinValue, Bytes, ClientSide, SerializationSide, ServerSide, TextValue, Value, ValueDeserializer,
};
pub use borrowed::{
    borrowed_equality, borrowed_fields_in_range, borrowed_literal_shape, borrowed_order,
    borrowed_partial_order,
};
pub use literals::{
    as_sql_error_equality, escaped_literals_stand_in_line, fields_in_range, floats_have_no_literal,
    literal_reads_back, literal_shape,
};
use mysql_wire_part::MyDeserialize;
pub use rows::{binary_row_error_equality, binary_rows_read_back, spare_null_bits_say_nothing};
use std::alloc::Global;
use std::cmp::Ordering;

/// Bytes are equal if and only if their lists are equal.
pub fn bytes_equality(a: &Bytes, b: &Bytes) -> bool
    ensures same { IsTrue result ↔ (a.now ≡ b.now) }
    ensures member { result ≡ ⟦<Bytes as PartialEq>⟧.eq a.now b.now }
{
    a == b
}

/// Bytes are ordered like lists: by the first byte that differs. A prefix comes before the whole.
pub fn bytes_order(a: &Bytes, b: &Bytes) -> Ordering
    ensures order { result ≡ slice_cmp nat_cmp a.now b.now }
    ensures member { result ≡ ⟦<Bytes as Ord>⟧.cmp a.now b.now }
{
    a.cmp(b)
}

/// Values are equal if and only if variant and fields are equal.
pub fn value_equality(a: &Value, b: &Value) -> bool
    ensures same { IsTrue result ↔ (a.now ≡ b.now) }
    ensures member { result ≡ ⟦<Value as PartialEq>⟧.eq a.now b.now }
{
    a == b
}

/// Values are ordered by variant, then by the fields.
pub fn value_order(a: &Value, b: &Value) -> Ordering
    ensures order { result ≡ value_cmp a.now b.now }
    ensures member { result ≡ ⟦<Value as Ord>⟧.cmp a.now b.now }
{
    a.cmp(b)
}

/// Any two values have an order: that of `cmp`.
pub fn value_partial_order(a: &Value, b: &Value) -> Option<Ordering>
    ensures order { result ≡ Some (value_cmp a.now b.now) }
    ensures member { result ≡ ⟦<Value as PartialOrd>⟧.partial_cmp a.now b.now }
{
    a.partial_cmp(b)
}

/// Refused conversions are equal if and only if their values are equal.
pub fn from_value_error_equality(a: &FromValueError, b: &FromValueError) -> bool
    ensures same { IsTrue result ↔ (a.now ≡ b.now) }
    ensures member { result ≡ ⟦<FromValueError as PartialEq>⟧.eq a.now b.now }
{
    a == b
}

/// Errors of `ToValue` are equal if and only if variant and fields are equal.
pub fn to_value_error_equality(a: &ToValueError, b: &ToValueError) -> bool
    ensures same { IsTrue result ↔ (a.now ≡ b.now) }
    ensures member { result ≡ ⟦<ToValueError as PartialEq>⟧.eq a.now b.now }
{
    a == b
}

/// The order of values is total and transitive, and it is `Equal` if and only if the values are
/// equal.
pub fn value_order_is_total()
    ensures total { IsTotalOrder value_cmp }
    ensures equal { (a b : value.Value) → (value_cmp a b ≡ Equal) ↔ (a ≡ b) }
{}

/// The value of an object is the value that its own type gives.
pub fn object_value(alloc: Global, object: &dyn ToValue) -> Result<Value, ToValueError>
    ensures value { IsAnswer (λ value. value) too_long_duration
        (value_of object.now) (MeansBytes (value_of object.now)) result }
{
    object.to_value(alloc)
}

/// Values don't have a fixed number of bytes, neither in text form nor in binary form.
pub fn sizes_of_readings()
    ensures text { ⟦<ValueDeserializer<TextValue> as MyDeserialize<'static>>⟧.SIZE ≡ None }
    ensures binary { ⟦<ValueDeserializer<BinValue> as MyDeserialize<'static>>⟧.SIZE ≡ None }
{}

/// Any two `ServerSide` are equal.
pub fn server_side_equality(a: &ServerSide, b: &ServerSide) -> bool
    ensures same { IsTrue result ↔ (a.now ≡ b.now) }
    ensures member { result ≡ ⟦<ServerSide as PartialEq>⟧.eq a.now b.now }
{
    a == b
}

/// Null bitmaps of a server begin with two unused bits, and those of a client with none.
pub fn null_bitmap_offsets()
    ensures server { ⟦<ServerSide as SerializationSide>⟧.BIT_OFFSET ≡ 2 }
    ensures client { ⟦<ClientSide as SerializationSide>⟧.BIT_OFFSET ≡ 0 }
{}
