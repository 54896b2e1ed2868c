//! The values of bytes and texts. Each is a copy.
ghost use Rattle.std.specs.Prelude.{string_bytes, ⊤};
ghost use Rattle.mysql_wire_part.specs.Answer.{IsAnswer};
ghost use Rattle.mysql_value_core.specs.FromValue.{cow_bytes, cow_text};
ghost use Rattle.mysql_value_core.specs.ValueOf.{bytes_value, too_long_duration};
ghost use Rattle.mysql_value_core.specs.ValueTable.{value_of_byte_array, value_of_byte_cow, value_of_byte_slice, value_of_byte_vec, value_of_str, value_of_str_cow, value_of_string};

use crate::value::convert::{ToValue, ToValueError};
use crate::value::{Bytes, Value};
use std::alloc::Global;
use std::borrow::{CowSlice, CowStr};

// A copy of the bytes, as a value.
fn bytes_value(alloc: Global, bytes: &[u8]) -> Result<Value, ToValueError>
    ensures { IsAnswer (λ value. value) too_long_duration (bytes_value bytes.now) ⊤ result }
{
    Ok(Value::Bytes(Bytes::from(Vec::from_slice(alloc, bytes)?)))
}

impl ToValue for &[u8] {
    ghost value_of = { λ bytes. value_of_byte_slice bytes.now };

    fn to_value(&self, alloc: Global) -> Result<Value, ToValueError> {
        bytes_value(alloc, *self)
    }
}

impl ToValue for Vec<u8> {
    ghost value_of = { λ bytes. value_of_byte_vec bytes.items };

    fn to_value(&self, alloc: Global) -> Result<Value, ToValueError> {
        bytes_value(alloc, self.as_slice())
    }
}

impl<const N: usize> ToValue for [u8; N] {
    ghost value_of = { value_of_byte_array };

    fn to_value(&self, alloc: Global) -> Result<Value, ToValueError> {
        bytes_value(alloc, self)
    }
}

impl<'a> ToValue for CowSlice<'a, u8> {
    ghost value_of = { λ bytes. value_of_byte_cow (cow_bytes bytes).1 };

    fn to_value(&self, alloc: Global) -> Result<Value, ToValueError> {
        match self {
            CowSlice::Borrowed(bytes) => bytes_value(alloc, *bytes),
            CowSlice::Owned(bytes) => bytes_value(alloc, bytes.as_slice()),
        }
    }
}

impl ToValue for &str {
    ghost value_of = { λ text. value_of_str text.now };

    fn to_value(&self, alloc: Global) -> Result<Value, ToValueError> {
        bytes_value(alloc, self.as_bytes())
    }
}

impl ToValue for String {
    ghost value_of = { λ text. value_of_string (string_bytes text) };

    fn to_value(&self, alloc: Global) -> Result<Value, ToValueError> {
        bytes_value(alloc, self.as_str().as_bytes())
    }
}

impl<'a> ToValue for CowStr<'a> {
    ghost value_of = { λ text. value_of_str_cow (cow_text text).1 };

    fn to_value(&self, alloc: Global) -> Result<Value, ToValueError> {
        match self {
            CowStr::Borrowed(text) => bytes_value(alloc, text.as_bytes()),
            CowStr::Owned(text) => bytes_value(alloc, text.as_str().as_bytes()),
        }
    }
}
