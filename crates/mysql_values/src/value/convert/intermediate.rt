//! Intermediates: the result of a conversion before it is decided whether the result or the value
//! is wanted.
ghost use Rattle.std.specs.Prelude.{◌≡◌, IfOk, Ok, OnErr, Some};
ghost use Rattle.mysql_wire_part.specs.Answer.{IsAnswer};
ghost use Rattle.mysql_value_core.specs.Value.{IsBytes};
ghost use Rattle.mysql_value_core.specs.ValueOf.{too_long_duration};
ghost use Rattle.mysql_value_core.specs.declared.value.Value as value;

use crate::value::Value;
use crate::value::convert::{FromValue, FromValueError, IntoValue, ToValue, ToValueError};
use std::alloc::{AllocError, Global};

/// A `T` and the value that was converted to it.
#[derive(Debug, PartialEq, Drop)]
pub struct ParseIr<T>(pub T, pub Value);

impl<T> ParseIr<T> {
    /// The `T`.
    pub fn commit(self) -> T
        ensures { result ≡ self.0 }
    {
        let ParseIr(x, _) = self;
        x
    }

    /// The value.
    pub fn rollback(self) -> Value
    where
        T: Drop,
        ensures { result ≡ self.1 }
    {
        let ParseIr(_, value) = self;
        value
    }
}

/// A `T`, and the value that was converted to it if that value is kept.
#[derive(Debug, PartialEq, Drop)]
pub enum ParseIrOpt<T> {
    /// Only the `T`. Its own value takes the place of the value that was converted.
    Ready(T),
    /// The `T` and the value that was converted to it.
    Parsed(T, Value),
}

impl<T> ParseIrOpt<T> {
    ghost use Rattle.mysql_values.specs.Intermediate.{committed};

    /// The `T`.
    pub fn commit(self) -> T
        ensures { result ≡ committed self }
    {
        match self {
            ParseIrOpt::Ready(x) => x,
            ParseIrOpt::Parsed(x, _) => x,
        }
    }
}

impl<T: ToValue + Drop> ParseIrOpt<T> {
    ghost use Rattle.mysql_values.specs.Intermediate.{rollback_value, RollbackTakesMemory};

    /// Returns the value that is kept, or else the value of the `T`. Making the latter allocates if
    /// it is `Bytes`, and is refused as `DurationTooLong` if a duration is too long. The
    /// intermediate is consumed in any case.
    pub fn rollback(self, alloc: Global) -> Result<Value, ToValueError>
        ensures { IsAnswer (λ value. value) too_long_duration (rollback_value T.value_of self)
            (RollbackTakesMemory T.value_of self) result }
    {
        match self {
            ParseIrOpt::Ready(x) => x.to_value(alloc),
            ParseIrOpt::Parsed(_, value) => Ok(value),
        }
    }
}

impl<T: ToValue + Drop> IntoValue for ParseIrOpt<T> {
    ghost use Rattle.mysql_values.specs.Intermediate.{rollback_value, RollbackTakesMemory};

    ghost undo = { rollback_value T.value_of };

    ghost takes_memory = { RollbackTakesMemory T.value_of };

    fn into_value(self, alloc: Global) -> Result<Value, ToValueError> {
        self.rollback(alloc)
    }
}

/// The intermediate of a `Value`, which is the value itself. It is ordered like the value.
#[derive(Debug, PartialEq, PartialOrd, Drop)]
pub struct ValueIr(pub Value);

impl ValueIr {
    /// A copy. Only a copy of `Bytes` allocates, on the allocator of the bytes.
    pub fn clone(&self) -> Result<ValueIr, AllocError>
        ensures equal { IfOk result (λ copy. copy ≡ self.now) }
        ensures memory { OnErr result (IsBytes self.now.0) }
    {
        Ok(ValueIr(self.0.clone()?))
    }
}

impl IntoValue for ValueIr {
    ghost undo = { λ ir. Ok ir.0 };

    ghost takes_memory = { λ _. ⊥ };

    fn into_value(self, _alloc: Global) -> Result<Value, ToValueError> {
        let ValueIr(value) = self;
        Ok(value)
    }
}

impl TryFrom<Value> for ValueIr {
    type Error = FromValueError;

    ghost try_from_gives = { λ value result. result ≡ Ok (record { 0 = value }) };

    fn try_from(value: Value) -> Result<ValueIr, FromValueError> {
        Ok(ValueIr(value))
    }
}

impl From<ValueIr> for Value {
    ghost from_gives = { λ ir value. value ≡ ir.0 };

    fn from(ir: ValueIr) -> Value {
        let ValueIr(value) = ir;
        value
    }
}

impl FromValue for Value {
    type Intermediate = ValueIr;

    ghost Seen = { value.Value };

    ghost seen = { λ v. v };

    ghost SeenIr = { value.Value };

    ghost seen_ir = { λ ir. ir.0 };

    ghost conversion = { λ v. Some v };

    ghost commit = { λ v. v };

    fn commit_intermediate(ir: ValueIr) -> Value {
        let ValueIr(value) = ir;
        value
    }

    fn get_intermediate(v: Value) -> Result<ValueIr, FromValueError> {
        Ok(ValueIr(v))
    }
}
