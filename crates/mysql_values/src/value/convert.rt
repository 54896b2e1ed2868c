//! Conversions of values to Rust types that can be undone.
ghost use Rattle.std.specs.Prelude.{◌≡◌, Option, Some, IsSome, IfOk};
ghost use Rattle.std.specs.Option.{option_map};
ghost use Rattle.mysql_wire_part.specs.Answer.{IsAnswer};
ghost use Rattle.mysql_value_core.specs.FromValue.{ConvertsOrHandsBack};
ghost use Rattle.mysql_value_core.specs.ValueOf.{Meaning, too_long_duration};
ghost use Rattle.mysql_value_core.specs.declared.value.Value as value;
ghost use Rattle.mysql_values.specs.Rollback.{RollsBack, NullFromNull};

use crate::value::Value;
use std::alloc::Global;

mod boolean;
mod byte_strings;
mod decimal;
mod duration;
mod from_ref;
mod intermediate;
mod option;
mod signed;
mod texts;
mod unsigned;
mod whole_number;

pub use crate::value::convert::from_ref::{FromValueRef, copied_bytes, copied_text};
pub use crate::value::convert::intermediate::{ParseIr, ParseIrOpt, ValueIr};
pub use crate::value::convert::option::OptionIr2;
pub use crate::value::convert::whole_number::WholeNumber;
pub use mysql_value_core::value::convert::{FromValueError, ToValue, ToValueError};

/// An intermediate of a conversion, which can be converted back to a value.
pub trait IntoValue {
    // the value that it is converted back to
    ghost undo: { Self → Meaning };

    // whether converting it back allocates
    ghost takes_memory: { Self → Type 0 };

    /// Returns the value to which the intermediate is rolled back. If `get_intermediate` gave the
    /// intermediate, this value converts to the same again. The call can be out of memory only if
    /// the type's `takes_memory` says so. It is refused as `DurationTooLong` only if its `undo` is
    /// that refusal. The intermediate is consumed in any case.
    fn into_value(self, alloc: Global) -> Result<Value, ToValueError>
        ensures { IsAnswer (λ value. value) too_long_duration (undo self)
            (takes_memory self) result };
}

/// A type to which values convert.
///
/// A type states its conversion and the commit of the intermediate, in terms of the view that
/// contracts have of both. For a `Vec` this view is the list of its items, for most types it is
/// `Self`.
pub trait FromValue: Sized {
    /// The result of a conversion before it is decided whether `Self` or the value is wanted.
    type Intermediate: TryFrom<Value, Error = FromValueError> + Into<Self> + IntoValue;

    // the view that contracts have of the type
    ghost Seen: { Type 0 };

    ghost seen: { Self → Seen };

    // the view that contracts have of the intermediate
    ghost SeenIr: { Type 0 };

    ghost seen_ir: { Self.Intermediate → SeenIr };

    // the intermediate of a value that converts
    ghost conversion: { value.Value → Option SeenIr };

    // the result of committing an intermediate
    ghost commit: { SeenIr → Seen };

    /// Commits the intermediate.
    fn commit_intermediate(ir: Self::Intermediate) -> Self
        ensures { seen result ≡ commit (seen_ir ir) };

    /// Returns the intermediate of a value, from which the value can be restored. If the value
    /// doesn't convert, it is refused with exactly that value. It allocates nothing.
    fn get_intermediate(v: Value) -> Result<Self::Intermediate, FromValueError>
        ensures converts { ConvertsOrHandsBack seen_ir (conversion v) v result }
        ensures rolls_back { IfOk result (λ ir.
            RollsBack conversion commit (Self.Intermediate.undo ir) (seen_ir ir)) }
        ensures null { IfOk result (λ ir. NullFromNull (Self.Intermediate.undo ir) v) };

    /// Converts a value that is proved to convert; `from_value_opt` tests this. It can't be called
    /// for other values.
    fn from_value(v: Value) -> Self
        requires { IsSome (conversion v) }
        ensures { option_map commit (conversion v) ≡ Some (seen result) }
    {
        match Self::get_intermediate(v) {
            Ok(ir) => Self::commit_intermediate(ir),
            Err(_) => unreachable!(),
        }
    }

    /// Converts a value, or returns the value in the error.
    #[inline]
    fn from_value_opt(v: Value) -> Result<Self, FromValueError>
        ensures { ConvertsOrHandsBack seen (option_map commit (conversion v)) v result }
    {
        let ir = Self::get_intermediate(v)?;
        Ok(Self::commit_intermediate(ir))
    }
}

/// Converts a value that is proved to convert; `from_value_opt` tests this. It can't be called for
/// other values.
pub fn from_value<T: FromValue>(v: Value) -> T
    requires { IsSome (T.conversion v) }
    ensures { option_map T.commit (T.conversion v) ≡ Some (T.seen result) }
{
    T::from_value(v)
}

/// Converts a value, or returns the value in the error.
#[inline]
pub fn from_value_opt<T: FromValue>(v: Value) -> Result<T, FromValueError>
    ensures { ConvertsOrHandsBack T.seen (option_map T.commit (T.conversion v)) v result }
{
    T::from_value_opt(v)
}
