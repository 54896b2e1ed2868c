//! Conversions to whole numbers: the code that is common to the twelve types.
ghost use Rattle.std.specs.Prelude.{◌≡◌, ◌≢◌, ℕ, ◌≤◌, Bool, ℤ, true, Some, Option, IfSome, IsTrue};
ghost use Rattle.std.specs.Option.{option_map};
ghost use Rattle.mysql_value_core.specs.FromValue.{ConvertsOrHandsBack};
ghost use Rattle.mysql_value_core.specs.ValueOf.{MeansBytes};
ghost use Rattle.mysql_values.specs.Decimal.{signed_number};
ghost use Rattle.mysql_values.specs.Intermediate.{committed};
ghost use Rattle.mysql_values.specs.Rollback.{ConvertsAndRollsBack, ConvertsBack};
ghost use Rattle.mysql_values.specs.WholeNumber.{is_int_or_uint, number_in_type, whole_conversion};
ghost use Rattle.mysql_values.specs.declared.value.convert.intermediate.ParseIrOpt as parsed_ir;

use crate::bytes::Bytes;
use crate::value::Value;
use crate::value::convert::decimal::decimal_parts;
use crate::value::convert::{FromValue, FromValueError, ParseIrOpt, ToValue};

/// A whole-number type, and the numbers that it holds. The trait stands for the twelve types of
/// Rust, so that their conversions are written once.
pub trait WholeNumber: ToValue + Sized {
    // whether the type has negative numbers
    ghost is_signed: { Bool };

    // the bits of a number of the type
    ghost width: { ℕ };

    // no type is wider than 128 bits
    ghost width_at_most_128: { width ≤ 128 };

    // a number that the type holds, as a number of the type
    ghost of_number: { ℤ → Self };

    /// The number with this sign and magnitude, if the type holds it. A 0 with a `-` is 0.
    fn from_parts(negative: bool, magnitude: u128) -> Option<Self>
        ensures number { result
            ≡ number_in_type is_signed width of_number (signed_number negative magnitude) }
        ensures converts_back { IfSome result (λ x.
            ConvertsBack (whole_conversion is_signed width of_number) committed
            (Self.value_of x) x) }
        ensures no_memory { IfSome result (λ x.
            is_int_or_uint (signed_number negative magnitude) ≡ true →
            ¬ (MeansBytes (Self.value_of x))) };

    /// Whether the number is negative, and its magnitude.
    fn to_parts(&self) -> (bool, u128)
        ensures number { number_in_type is_signed width of_number (signed_number result.0 result.1)
            ≡ Some self.now }
        ensures sign { IsTrue result.0 → result.1 ≢ 0 };
}

// The intermediate of an `Int` or a `UInt` with this sign and magnitude.
fn number_intermediate<T: WholeNumber>(
    negative: bool,
    magnitude: u128,
    v: Value,
) -> Result<ParseIrOpt<T>, FromValueError>
    requires number { whole_conversion T.is_signed T.width T.of_number v
        ≡ option_map ParseIrOpt.Ready
        (number_in_type T.is_signed T.width T.of_number (signed_number negative magnitude)) }
    requires of_64_bits { is_int_or_uint (signed_number negative magnitude) ≡ true }
    ensures converts_and_rolls_back { ConvertsAndRollsBack (λ ir. ir)
        (whole_conversion T.is_signed T.width T.of_number) T.value_of v result }
{
    match T::from_parts(negative, magnitude) {
        Some(x) => Ok(ParseIrOpt::Ready(x)),
        None => Err(FromValueError(v)),
    }
}

// The intermediate of bytes.
fn bytes_intermediate<T: WholeNumber>(bytes: Bytes) -> Result<ParseIrOpt<T>, FromValueError>
    ensures converts_and_rolls_back { ConvertsAndRollsBack (λ ir. ir)
        (whole_conversion T.is_signed T.width T.of_number) T.value_of (Value.Bytes bytes) result }
{
    match decimal_parts(bytes.as_slice()) {
        Some((negative, magnitude)) => match T::from_parts(negative, magnitude) {
            Some(x) => Ok(ParseIrOpt::Parsed(x, Value::Bytes(bytes))),
            None => Err(FromValueError(Value::Bytes(bytes))),
        },
        None => Err(FromValueError(Value::Bytes(bytes))),
    }
}

// The intermediate of a value.
fn whole_number_intermediate<T: WholeNumber>(v: Value) -> Result<ParseIrOpt<T>, FromValueError>
    ensures converts_and_rolls_back { ConvertsAndRollsBack (λ ir. ir)
        (whole_conversion T.is_signed T.width T.of_number) T.value_of v result }
{
    match v {
        Value::Int(number) => {
            number_intermediate(
                number < 0,
                u128::from(number.unsigned_abs()),
                Value::Int(number),
            )
        }
        Value::UInt(number) => number_intermediate(false, u128::from(number), Value::UInt(number)),
        Value::Bytes(bytes) => bytes_intermediate(bytes),
        other => Err(FromValueError(other)),
    }
}

impl<T: WholeNumber> TryFrom<Value> for ParseIrOpt<T> {
    type Error = FromValueError;

    ghost try_from_gives = { λ value result. ConvertsOrHandsBack (λ ir. ir)
        (whole_conversion T.is_signed T.width T.of_number value) value result };

    fn try_from(value: Value) -> Result<ParseIrOpt<T>, FromValueError> {
        whole_number_intermediate(value)
    }
}

impl<T: WholeNumber + Drop + From<ParseIrOpt<T>>> FromValue for T {
    type Intermediate = ParseIrOpt<T>;

    ghost Seen = { T };

    ghost seen = { λ x. x };

    ghost SeenIr = { parsed_ir.ParseIrOpt T };

    ghost seen_ir = { λ ir. ir };

    ghost conversion = { whole_conversion T.is_signed T.width T.of_number };

    ghost commit = { committed };

    fn commit_intermediate(ir: ParseIrOpt<T>) -> T {
        ir.commit()
    }

    #[inline]
    fn get_intermediate(v: Value) -> Result<ParseIrOpt<T>, FromValueError>
        ensures converts_and_rolls_back { ConvertsAndRollsBack (λ ir. ir)
            (whole_conversion T.is_signed T.width T.of_number) T.value_of v result }
    {
        whole_number_intermediate(v)
    }
}
