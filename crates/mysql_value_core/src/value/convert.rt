//! Conversions between values and Rust types.
ghost use Rattle.std.specs.Prelude.{◌≡◌, IfOk, OnErr, alloc_error};
ghost use Rattle.mysql_wire_part.specs.Answer.{IsAnswer};
ghost use Rattle.mysql_value_core.specs.Value.{IsBytes};
ghost use Rattle.mysql_value_core.specs.ValueOf.{Meaning, MeansBytes, too_long_duration};
ghost use Rattle.mysql_value_core.specs.declared.value.convert.ToValueError.TheVariants.{Memory};

use crate::value::Value;
use std::alloc::{AllocError, Global};
use std::time::Duration;
use thiserror::Error;

mod from;
mod nested;
mod to_value;
mod try_from;

/// A conversion of a value was refused. The field is exactly the value that was passed.
#[derive(Debug, PartialEq, Drop, Error)]
#[error("Couldn't convert the value `{0:?}` to a desired type")]
pub struct FromValueError(pub Value);

impl FromValueError {
    /// A copy of the error. Only a copy of `Bytes` allocates, on the allocator of the bytes.
    pub fn clone(&self) -> Result<FromValueError, AllocError>
        ensures equal { IfOk result (λ copy. copy ≡ self.now) }
        ensures memory { OnErr result (IsBytes self.now.0) }
    {
        Ok(FromValueError(self.0.clone()?))
    }
}

/// The error of an argument that has no value.
#[derive(Debug, PartialEq, Drop, Error)]
pub enum ToValueError {
    /// The duration, rounded to microseconds, has more days than a `Time` holds.
    #[error("Duration has too many days")]
    DurationTooLong(Duration),
    /// Memory for the value was refused.
    #[error("out of memory")]
    Memory(AllocError),
}

impl From<AllocError> for ToValueError {
    ghost from_gives = { λ _ error. error ≡ Memory alloc_error };

    fn from(error: AllocError) -> ToValueError {
        ToValueError::Memory(error)
    }
}

/// An argument of a query: a type that has a value.
pub trait ToValue {
    // the value of the argument, or the cause for which it has none
    ghost value_of: { Self → Meaning };

    /// Returns the value of the argument. It allocates only if the value is `Bytes`.
    /// `DurationTooLong` comes only if the type's `value_of` says so. A type of this library says
    /// so only for a duration that is too long.
    fn to_value(&self, alloc: Global) -> Result<Value, ToValueError>
        ensures { IsAnswer (λ value. value) too_long_duration (value_of self.now)
            (MeansBytes (value_of self.now)) result };
}
