//! The values of whole numbers and Booleans.
ghost use Rattle.mysql_value_core.specs.ValueTable.{value_of_bool, value_of_i128, value_of_i16, value_of_i32, value_of_i64, value_of_i8, value_of_isize, value_of_u128, value_of_u16, value_of_u32, value_of_u64, value_of_u8, value_of_usize};

mod duration;
mod texts;

use crate::value::convert::{ToValue, ToValueError};
use crate::value::{Bytes, Value};
use std::alloc::Global;

impl ToValue for i8 {
    ghost value_of = { value_of_i8 };

    fn to_value(&self, _alloc: Global) -> Result<Value, ToValueError> {
        Ok(Value::Int(i64::from(*self)))
    }
}

impl ToValue for i16 {
    ghost value_of = { value_of_i16 };

    fn to_value(&self, _alloc: Global) -> Result<Value, ToValueError> {
        Ok(Value::Int(i64::from(*self)))
    }
}

impl ToValue for i32 {
    ghost value_of = { value_of_i32 };

    fn to_value(&self, _alloc: Global) -> Result<Value, ToValueError> {
        Ok(Value::Int(i64::from(*self)))
    }
}

impl ToValue for i64 {
    ghost value_of = { value_of_i64 };

    fn to_value(&self, _alloc: Global) -> Result<Value, ToValueError> {
        Ok(Value::Int(*self))
    }
}

impl ToValue for isize {
    ghost value_of = { value_of_isize };

    fn to_value(&self, _alloc: Global) -> Result<Value, ToValueError> {
        Ok(Value::Int(*self as i64))
    }
}

impl ToValue for u8 {
    ghost value_of = { value_of_u8 };

    fn to_value(&self, _alloc: Global) -> Result<Value, ToValueError> {
        Ok(Value::UInt(u64::from(*self)))
    }
}

impl ToValue for u16 {
    ghost value_of = { value_of_u16 };

    fn to_value(&self, _alloc: Global) -> Result<Value, ToValueError> {
        Ok(Value::UInt(u64::from(*self)))
    }
}

impl ToValue for u32 {
    ghost value_of = { value_of_u32 };

    fn to_value(&self, _alloc: Global) -> Result<Value, ToValueError> {
        Ok(Value::UInt(u64::from(*self)))
    }
}

impl ToValue for u64 {
    ghost value_of = { value_of_u64 };

    fn to_value(&self, _alloc: Global) -> Result<Value, ToValueError> {
        Ok(Value::UInt(*self))
    }
}

impl ToValue for usize {
    ghost value_of = { value_of_usize };

    fn to_value(&self, _alloc: Global) -> Result<Value, ToValueError> {
        Ok(Value::UInt(*self as u64))
    }
}

impl ToValue for i128 {
    ghost value_of = { value_of_i128 };

    fn to_value(&self, alloc: Global) -> Result<Value, ToValueError> {
        let number = *self;
        if number >= i64::MIN as i128 && number <= i64::MAX as i128 {
            return Ok(Value::Int(number as i64));
        }
        if number >= 0 && number <= u64::MAX as i128 {
            return Ok(Value::UInt(number as u64));
        }
        let text = number.to_string(alloc)?;
        Ok(Value::Bytes(Bytes::from(text.into_bytes())))
    }
}

impl ToValue for u128 {
    ghost value_of = { value_of_u128 };

    fn to_value(&self, alloc: Global) -> Result<Value, ToValueError> {
        let number = *self;
        if number <= u64::MAX as u128 {
            return Ok(Value::UInt(number as u64));
        }
        let text = number.to_string(alloc)?;
        Ok(Value::Bytes(Bytes::from(text.into_bytes())))
    }
}

impl ToValue for bool {
    ghost value_of = { value_of_bool };

    fn to_value(&self, _alloc: Global) -> Result<Value, ToValueError> {
        Ok(Value::Int(i64::from(*self)))
    }
}
