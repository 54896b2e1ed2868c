//! Conversions of borrowed values. They follow the rules of [`FromValue`](super::FromValue), and
//! need no memory.
ghost use Rattle.std.specs.Prelude.{◌≡◌, Bool, IfOk, IsSome, List, OnErr, ℕ, Option, string_bytes};
ghost use Rattle.std.specs.Duration.{as_nanos};
ghost use Rattle.std.specs.Option.{option_map};
ghost use Rattle.mysql_value_core.specs.BorrowedValue.{owned};
ghost use Rattle.mysql_value_core.specs.FromValue.{value_bytes, value_text};
ghost use Rattle.mysql_value_core.specs.declared.value.Value as value;
ghost use Rattle.mysql_values.specs.Boolean.{boolean_conversion};
ghost use Rattle.mysql_values.specs.DurationConversion.{duration_conversion};
ghost use Rattle.mysql_values.specs.Intermediate.{committed};
ghost use Rattle.mysql_values.specs.OptionConversion.{option_conversion};
ghost use Rattle.mysql_values.specs.WholeNumber.{whole_conversion};

use crate::value::ValueRef;
use crate::value::convert::WholeNumber;
use crate::value::convert::boolean::boolean_of_text;
use crate::value::convert::decimal::decimal_parts;
use crate::value::convert::duration::{duration_of, duration_of_text};
use std::alloc::{AllocError, Global};
use std::time::Duration;

/// A type to which borrowed values convert, like owned values. Bytes and texts are borrowed, not
/// copied.
///
/// A borrowed value is `Copy`, so a refusal returns no value, and there is no intermediate. In
/// contracts, `converted` is the result for a value. In [`FromValue`](super::FromValue),
/// `conversion` is the intermediate before it is committed.
///
/// `String` and `Vec<u8>` don't implement it. They allocate, and refused memory isn't the same as a
/// value that doesn't convert. [`copied_text`] and [`copied_bytes`] make them, so no call makes an
/// `Option<String>`.
pub trait FromValueRef<'v>: Sized {
    // the view that contracts have of the type
    ghost Seen: { Type 0 };

    ghost seen: { Self → Seen };

    // the result of converting a value, if it converts
    ghost converted: { value.Value → Option Seen };

    /// Converts the value; `None` if it doesn't convert. It allocates nothing.
    fn from_value_ref(value: ValueRef<'v>) -> Option<Self>
        ensures { option_map seen result ≡ converted (owned value.entry) };
}

impl<'v, T: WholeNumber + Drop> FromValueRef<'v> for T {
    ghost Seen = { T };

    ghost seen = { λ x. x };

    ghost converted = { λ value.
        option_map committed (whole_conversion T.is_signed T.width T.of_number value) };

    fn from_value_ref(value: ValueRef<'v>) -> Option<T> {
        match value {
            ValueRef::Int(number) => {
                T::from_parts(number < 0, u128::from(number.unsigned_abs()))
            }
            ValueRef::UInt(number) => T::from_parts(false, u128::from(number)),
            ValueRef::Bytes(bytes) => match decimal_parts(bytes) {
                Some((negative, magnitude)) => T::from_parts(negative, magnitude),
                None => None,
            },
            _ => None,
        }
    }
}

impl<'v> FromValueRef<'v> for bool {
    ghost Seen = { Bool };

    ghost seen = { λ boolean. boolean };

    ghost converted = { λ value. option_map committed (boolean_conversion value) };

    fn from_value_ref(value: ValueRef<'v>) -> Option<bool> {
        match value {
            ValueRef::Int(number) => Some(number != 0),
            ValueRef::UInt(number) => Some(number != 0),
            ValueRef::Bytes(bytes) => boolean_of_text(bytes),
            _ => None,
        }
    }
}

impl<'v> FromValueRef<'v> for Duration {
    ghost Seen = { ℕ };

    ghost seen = { as_nanos };

    ghost converted = { λ value. option_map committed (duration_conversion value) };

    fn from_value_ref(value: ValueRef<'v>) -> Option<Duration> {
        match value {
            ValueRef::Bytes(text) => duration_of_text(text),
            ValueRef::Time(false, days, hours, minutes, seconds, microseconds) => {
                Some(duration_of(days, hours, minutes, seconds, microseconds))
            }
            _ => None,
        }
    }
}

impl<'v> FromValueRef<'v> for &'v [u8] {
    ghost Seen = { List ℕ };

    ghost seen = { λ bytes. bytes.now };

    ghost converted = { value_bytes };

    fn from_value_ref(value: ValueRef<'v>) -> Option<&'v [u8]> {
        match value {
            ValueRef::Bytes(bytes) => Some(bytes),
            _ => None,
        }
    }
}

impl<'v> FromValueRef<'v> for &'v str {
    ghost Seen = { List ℕ };

    ghost seen = { λ text. text.now };

    ghost converted = { value_text };

    fn from_value_ref(value: ValueRef<'v>) -> Option<&'v str> {
        match value {
            ValueRef::Bytes(bytes) => match str::from_utf8(bytes) {
                Ok(text) => Some(text),
                Err(_) => None,
            },
            _ => None,
        }
    }
}

impl<'v, T: FromValueRef<'v>> FromValueRef<'v> for Option<T> {
    ghost Seen = { Option T.Seen };

    ghost seen = { option_map T.seen };

    ghost converted = { option_conversion T.converted };

    fn from_value_ref(value: ValueRef<'v>) -> Option<Option<T>> {
        match value {
            ValueRef::NULL => Some(None),
            other => match T::from_value_ref(other) {
                Some(x) => Some(Some(x)),
                None => None,
            },
        }
    }
}

/// A copy of the text of a borrowed value, if its bytes are a text. It is the `String` to which the
/// owned value converts. It allocates only if the value converts.
pub fn copied_text(alloc: Global, value: ValueRef<'_>) -> Result<Option<String>, AllocError>
    ensures converts { IfOk result (λ text.
        option_map string_bytes text ≡ value_text (owned value.entry)) }
    ensures memory { OnErr result (IsSome (value_text (owned value.entry))) }
{
    match <&str as FromValueRef>::from_value_ref(value) {
        Some(text) => Ok(Some(String::from_str(alloc, text)?)),
        None => Ok(None),
    }
}

/// A copy of the bytes of a borrowed value, if it has bytes. It is the `Vec<u8>` to which the owned
/// value converts. It allocates only if the value converts.
pub fn copied_bytes(alloc: Global, value: ValueRef<'_>) -> Result<Option<Vec<u8>>, AllocError>
    ensures converts { IfOk result (λ bytes.
        option_map (λ vector. vector.items) bytes ≡ value_bytes (owned value.entry)) }
    ensures memory { OnErr result (IsSome (value_bytes (owned value.entry))) }
{
    match value {
        ValueRef::Bytes(bytes) => Ok(Some(Vec::from_slice(alloc, bytes)?)),
        _ => Ok(None),
    }
}
