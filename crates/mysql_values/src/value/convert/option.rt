//! Conversions to options, by the conversions to the types in them.
ghost use Rattle.std.specs.Prelude.{◌≡◌, Option};
ghost use Rattle.std.specs.Option.{option_map};

use crate::value::Value;
use crate::value::convert::{FromValue, FromValueError, IntoValue, ToValueError};
use std::alloc::Global;

/// The intermediate of an `Option<T>`: none, or the intermediate of a `T`.
#[derive(Drop)]
#[derive_where(Debug, PartialEq; T::Intermediate)]
pub enum OptionIr2<T: FromValue> {
    None,
    Some(T::Intermediate),
}

impl<T: FromValue> IntoValue for OptionIr2<T> {
    ghost use Rattle.mysql_values.specs.OptionConversion.{option_undo, OptionTakesMemory};

    ghost undo = { option_undo T.Intermediate.undo };

    ghost takes_memory = { OptionTakesMemory T.Intermediate.takes_memory };

    fn into_value(self, alloc: Global) -> Result<Value, ToValueError> {
        match self {
            OptionIr2::Some(ir) => ir.into_value(alloc),
            OptionIr2::None => Ok(Value::NULL),
        }
    }
}

impl<T: FromValue> TryFrom<Value> for OptionIr2<T> {
    type Error = FromValueError;

    ghost use Rattle.mysql_values.specs.OptionConversion.{ConvertsToOption};

    ghost try_from_gives = { ConvertsToOption T.seen_ir T.conversion };

    fn try_from(value: Value) -> Result<OptionIr2<T>, FromValueError> {
        match value {
            Value::NULL => Ok(OptionIr2::None),
            other => Ok(OptionIr2::Some(T::get_intermediate(other)?)),
        }
    }
}

impl<T: FromValue> From<OptionIr2<T>> for Option<T> {
    ghost use Rattle.mysql_values.specs.OptionConversion.{seen_option};

    ghost from_gives = { λ ir x.
        option_map T.seen x ≡ option_map T.commit (seen_option T.seen_ir ir) };

    fn from(ir: OptionIr2<T>) -> Option<T> {
        match ir {
            OptionIr2::Some(ir) => Some(T::commit_intermediate(ir)),
            OptionIr2::None => None,
        }
    }
}

impl<T: FromValue> FromValue for Option<T> {
    type Intermediate = OptionIr2<T>;

    ghost use Rattle.mysql_values.specs.OptionConversion.{option_conversion, seen_option};

    ghost Seen = { Option T.Seen };

    ghost seen = { option_map T.seen };

    ghost SeenIr = { Option T.SeenIr };

    ghost seen_ir = { seen_option T.seen_ir };

    ghost conversion = { option_conversion T.conversion };

    ghost commit = { option_map T.commit };

    fn commit_intermediate(ir: OptionIr2<T>) -> Option<T> {
        Option::<T>::from(ir)
    }

    #[inline]
    fn get_intermediate(v: Value) -> Result<OptionIr2<T>, FromValueError> {
        match v {
            Value::NULL => Ok(OptionIr2::None),
            other => Ok(OptionIr2::Some(T::get_intermediate(other)?)),
        }
    }
}
