//! Conversion to values from types that need no memory for it.
ghost use Rattle.std.specs.Prelude.{◌≡◌, Ok, string_bytes};
ghost use Rattle.mysql_value_core.specs.ValueTable.{value_of_bool, value_of_byte_vec, value_of_i16, value_of_i32, value_of_i64, value_of_i8, value_of_isize, value_of_string, value_of_u16, value_of_u32, value_of_u64, value_of_u8, value_of_usize};

use crate::value::{Bytes, Value};

impl From<i8> for Value {
    ghost from_gives = { λ number value. Ok value ≡ value_of_i8 number };

    fn from(number: i8) -> Value {
        Value::Int(i64::from(number))
    }
}

impl From<i16> for Value {
    ghost from_gives = { λ number value. Ok value ≡ value_of_i16 number };

    fn from(number: i16) -> Value {
        Value::Int(i64::from(number))
    }
}

impl From<i32> for Value {
    ghost from_gives = { λ number value. Ok value ≡ value_of_i32 number };

    fn from(number: i32) -> Value {
        Value::Int(i64::from(number))
    }
}

impl From<i64> for Value {
    ghost from_gives = { λ number value. Ok value ≡ value_of_i64 number };

    fn from(number: i64) -> Value {
        Value::Int(number)
    }
}

impl From<isize> for Value {
    ghost from_gives = { λ number value. Ok value ≡ value_of_isize number };

    fn from(number: isize) -> Value {
        Value::Int(number as i64)
    }
}

impl From<u8> for Value {
    ghost from_gives = { λ number value. Ok value ≡ value_of_u8 number };

    fn from(number: u8) -> Value {
        Value::UInt(u64::from(number))
    }
}

impl From<u16> for Value {
    ghost from_gives = { λ number value. Ok value ≡ value_of_u16 number };

    fn from(number: u16) -> Value {
        Value::UInt(u64::from(number))
    }
}

impl From<u32> for Value {
    ghost from_gives = { λ number value. Ok value ≡ value_of_u32 number };

    fn from(number: u32) -> Value {
        Value::UInt(u64::from(number))
    }
}

impl From<u64> for Value {
    ghost from_gives = { λ number value. Ok value ≡ value_of_u64 number };

    fn from(number: u64) -> Value {
        Value::UInt(number)
    }
}

impl From<usize> for Value {
    ghost from_gives = { λ number value. Ok value ≡ value_of_usize number };

    fn from(number: usize) -> Value {
        Value::UInt(number as u64)
    }
}

impl From<bool> for Value {
    ghost from_gives = { λ boolean value. Ok value ≡ value_of_bool boolean };

    fn from(boolean: bool) -> Value {
        Value::Int(i64::from(boolean))
    }
}

impl From<Vec<u8>> for Value {
    ghost from_gives = { λ bytes value. Ok value ≡ value_of_byte_vec bytes.items };

    fn from(bytes: Vec<u8>) -> Value {
        Value::Bytes(Bytes::from(bytes))
    }
}

impl From<String> for Value {
    ghost from_gives = { λ text value. Ok value ≡ value_of_string (string_bytes text) };

    fn from(text: String) -> Value {
        Value::Bytes(Bytes::from(text.into_bytes()))
    }
}
