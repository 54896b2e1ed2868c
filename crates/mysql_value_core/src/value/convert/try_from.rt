//! Conversion of values to texts and bytes of the standard library. It allocates nothing.
ghost use Rattle.std.specs.Prelude.{string_bytes};
ghost use Rattle.std.specs.Option.{option_map};
ghost use Rattle.mysql_value_core.specs.FromValue.{ConvertsOrHandsBack, value_array, value_bytes, cow_bytes, cow_text, owned_cow, value_text};

use crate::value::convert::FromValueError;
use crate::value::{Bytes, Value};
use mysql_sql_text::utf8::is_utf8;
use std::borrow::{CowSlice, CowStr};

impl TryFrom<Value> for Vec<u8> {
    type Error = FromValueError;

    ghost try_from_gives = { λ v r.
        ConvertsOrHandsBack (λ bytes. bytes.items) (value_bytes v) v r };

    fn try_from(value: Value) -> Result<Vec<u8>, FromValueError> {
        match value {
            Value::Bytes(bytes) => Ok(Vec::<u8>::from(bytes)),
            other => Err(FromValueError(other)),
        }
    }
}

impl TryFrom<Value> for CowSlice<'static, u8> {
    type Error = FromValueError;

    ghost try_from_gives = { λ v r.
        ConvertsOrHandsBack cow_bytes (option_map owned_cow (value_bytes v)) v r };

    fn try_from(value: Value) -> Result<CowSlice<'static, u8>, FromValueError> {
        match value {
            Value::Bytes(bytes) => Ok(CowSlice::Owned(Vec::<u8>::from(bytes))),
            other => Err(FromValueError(other)),
        }
    }
}

impl<const N: usize> TryFrom<Value> for [u8; N] {
    type Error = FromValueError;

    ghost try_from_gives = { λ v r. ConvertsOrHandsBack (λ array. array) (value_array N v) v r };

    fn try_from(value: Value) -> Result<[u8; N], FromValueError> {
        match value {
            Value::Bytes(bytes) => match <[u8; N]>::try_from(bytes.as_slice()) {
                Ok(array) => Ok(array),
                Err(_) => Err(FromValueError(Value::Bytes(bytes))),
            },
            other => Err(FromValueError(other)),
        }
    }
}

impl TryFrom<Value> for String {
    type Error = FromValueError;

    ghost try_from_gives = { λ v r. ConvertsOrHandsBack string_bytes (value_text v) v r };

    fn try_from(value: Value) -> Result<String, FromValueError> {
        match value {
            Value::Bytes(bytes) => text_of(Vec::<u8>::from(bytes)),
            other => Err(FromValueError(other)),
        }
    }
}

// The text of bytes that are UTF-8, or else the bytes.
#[tactic(auto, using(crate::proofs::TextLemmas::text_rules))]
fn text_of(bytes: Vec<u8>) -> Result<String, FromValueError>
    ensures { ConvertsOrHandsBack string_bytes (value_text (Value.Bytes bytes.items))
        (Value.Bytes bytes.items) result }
{
    if !is_utf8(bytes.as_slice()) {
        return Err(FromValueError(Value::Bytes(Bytes::from(bytes))));
    }
    let text = unsafe { String::from_utf8_unchecked(bytes) };
    Ok(text)
}

impl TryFrom<Value> for CowStr<'static> {
    type Error = FromValueError;

    ghost try_from_gives = { λ v r.
        ConvertsOrHandsBack cow_text (option_map owned_cow (value_text v)) v r };

    fn try_from(value: Value) -> Result<CowStr<'static>, FromValueError> {
        Ok(CowStr::Owned(String::try_from(value)?))
    }
}
