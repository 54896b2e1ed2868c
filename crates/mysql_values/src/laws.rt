//! Laws about the types of this crate and of `mysql_value_core`. A law is called only for its
//! `ensures`, if a proof needs it.
ghost use Rattle.std.specs.Prelude.{◌≡◌, ◌↔◌, IsTrue, Some, string_bytes};
ghost use Rattle.mysql_value_core.specs.FromValue.{value_array, value_bytes, value_text};
ghost use Rattle.mysql_value_core.specs.ValueOrder.{value_cmp};
ghost use Rattle.mysql_values.specs.DurationConversion.{ConvertsBackRounded};
ghost use Rattle.mysql_values.specs.Intermediate.{committed, AreEqualParsed};
ghost use Rattle.mysql_values.specs.OptionConversion.{AreEqualOptions};
ghost use Rattle.mysql_values.specs.Rollback.{ConvertsBack};
ghost use Rattle.mysql_values.specs.Boolean.{boolean_conversion};
ghost use Rattle.mysql_values.specs.WholeNumber.{whole_conversion};

mod borrowed;

use crate::value::convert::{
    FromValue, OptionIr2, ParseIr, ParseIrOpt, ToValue, ValueIr, WholeNumber,
};
pub use borrowed::{borrowed_conversions, borrowed_option, borrowed_whole_number};
pub use mysql_sql_text::laws::{
    escapes_read, numbers_read, single_bytes_read_back, time_texts_are_read, times_read_back,
};
pub use mysql_value_core::laws::{
    as_sql_error_equality, binary_row_error_equality, binary_rows_read_back, borrowed_equality,
    borrowed_fields_in_range, borrowed_literal_shape, borrowed_order, borrowed_partial_order,
    bytes_equality, bytes_order, escaped_literals_stand_in_line, fields_in_range,
    floats_have_no_literal, from_value_error_equality, literal_reads_back, literal_shape,
    null_bitmap_offsets, object_value, server_side_equality, sizes_of_readings,
    spare_null_bits_say_nothing, to_value_error_equality, value_equality, value_order,
    value_order_is_total, value_partial_order,
};
use std::cmp::Ordering;
use std::time::Duration;

/// Intermediates of values are equal if and only if the values are equal.
pub fn value_ir_equality(a: &ValueIr, b: &ValueIr) -> bool
    ensures same { IsTrue result ↔ (a.now ≡ b.now) }
    ensures member { result ≡ ⟦<ValueIr as PartialEq>⟧.eq a.now b.now }
{
    a == b
}

/// Intermediates of values are ordered like the values.
pub fn value_ir_order(a: &ValueIr, b: &ValueIr) -> Option<Ordering>
    ensures order { result ≡ Some (value_cmp a.now.0 b.now.0) }
    ensures member { result ≡ ⟦<ValueIr as PartialOrd>⟧.partial_cmp a.now b.now }
{
    a.partial_cmp(b)
}

/// Intermediates with a `T` and its value are equal if and only if both are equal.
pub fn parse_ir_equality<T: PartialEq>(a: &ParseIr<T>, b: &ParseIr<T>) -> bool
    ensures same { IsTrue result ↔ (IsTrue (T.eq a.now.0 b.now.0) × (a.now.1 ≡ b.now.1)) }
    ensures member { result ≡ ⟦<ParseIr<T> as PartialEq>⟧.eq a.now b.now }
{
    a == b
}

/// Intermediates with a `T`, and its value if it is kept, are equal if and only if variant, `T` and
/// value are equal.
pub fn parse_ir_opt_equality<T: PartialEq>(a: &ParseIrOpt<T>, b: &ParseIrOpt<T>) -> bool
    ensures same { IsTrue result ↔ AreEqualParsed T.eq a.now b.now }
    ensures member { result ≡ ⟦<ParseIrOpt<T> as PartialEq>⟧.eq a.now b.now }
{
    a == b
}

/// Intermediates of options are equal if and only if both are none, or both hold equal
/// intermediates.
pub fn option_ir_equality<T: FromValue>(a: &OptionIr2<T>, b: &OptionIr2<T>) -> bool
where
    T::Intermediate: PartialEq,
    ensures same { IsTrue result ↔ AreEqualOptions T.Intermediate.eq a.now b.now }
    ensures member { result ≡ ⟦<OptionIr2<T> as PartialEq>⟧.eq a.now b.now }
{
    a == b
}

/// A whole number converts back from its value.
pub fn whole_number_converts_back<T: WholeNumber + Drop>(number: &T)
    ensures converts_back { ConvertsBack
        (whole_conversion T.is_signed T.width T.of_number) committed
        (T.value_of number.now) number.now }
{
    // A proof uses here that the type holds the number of its parts.
    let (negative, magnitude) = number.to_parts();
    let _same = T::from_parts(negative, magnitude);
}

/// A Boolean converts back from its value.
pub fn boolean_converts_back(boolean: &bool)
    ensures converts_back { ConvertsBack boolean_conversion committed
        (⟦<bool as ToValue>⟧.value_of boolean.now) boolean.now }
{
    // A proof uses here that it is `true` or `false`.
    let _boolean = *boolean;
}

/// A duration converts back from its value, rounded half up to microseconds.
pub fn duration_converts_back(duration: &Duration)
    ensures rounded { ConvertsBackRounded duration.now
        (⟦<Duration as ToValue>⟧.value_of duration.now) }
{
    // A proof uses here which fields a duration has.
    let _duration = *duration;
}

/// A text converts back from its value.
pub fn text_converts_back(text: &String)
    ensures converts_back { ConvertsBack value_text (λ seen. seen)
        (⟦<String as ToValue>⟧.value_of text.now) (string_bytes text.now) }
{
    // A proof uses here that the text is UTF-8.
    let _text = text.as_str();
}

/// Bytes convert back from their value.
pub fn bytes_convert_back(bytes: &Vec<u8>)
    ensures converts_back { ConvertsBack value_bytes (λ seen. seen)
        (⟦<Vec<u8> as ToValue>⟧.value_of bytes.now) bytes.now.items }
{}

/// An array of bytes converts back from its value.
pub fn array_converts_back<const N: usize>(bytes: &[u8; N])
    ensures converts_back { ConvertsBack (value_array N) (λ seen. seen)
        (⟦<[u8; N] as ToValue>⟧.value_of bytes.now) bytes.now }
{}
