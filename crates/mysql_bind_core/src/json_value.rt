//! The types and the bytes that JSON values give to names.
ghost use Rattle.std.specs.Prelude.{◌≡◌, IfOk, option_map};
ghost use Rattle.json.specs.Value.{value_view};
ghost use Rattle.mysql_bind_core.specs.JsonValues.{number_type, scalar_said, type_of_decimals};

use crate::value_type::{ValueType, typed_value};
use json::Value as Json;
use std::alloc::{AllocError, Global};

/// How a JSON number is interpreted that isn't a whole number of 64 bits.
#[derive(Debug, Clone, Copy, PartialEq, Eq)]
pub enum Decimals {
    /// It is refused.
    Refused,
    /// As its text.
    Text,
    /// As an exact number.
    Exact,
    /// As the nearest double.
    Double,
}

// The type and the bytes of a JSON value, which are its text: those of a string, or of a number as
// it stands. None of a list and of an object.
pub(crate) fn scalar_parts(
    alloc: Global,
    json: &Json<'_>,
    decimals: Decimals,
) -> Result<Option<(ValueType, Vec<u8>)>, AllocError>
    ensures { IfOk result (λ found. option_map (λ parts. (parts.0, parts.1.items)) found
        ≡ scalar_said decimals (value_view json.now)) }
{
    let (value_type, text) = match json {
        Json::Null => (ValueType::Null, ""),
        Json::Bool(true) => (ValueType::Bool, "true"),
        Json::Bool(false) => (ValueType::Bool, "false"),
        Json::Number(text) => (number_type(alloc, text, decimals)?, *text),
        Json::String(text) => (ValueType::Text, *text),
        Json::Array(_) | Json::Object(_) => return Ok(None),
    };
    Ok(Some((value_type, Vec::from_slice(alloc, text.as_bytes())?)))
}

// The type of a number with this text.
pub(crate) fn number_type(
    alloc: Global,
    text: &str,
    decimals: Decimals,
) -> Result<ValueType, AllocError>
    ensures { IfOk result (λ value_type. value_type ≡ number_type decimals text.now) }
{
    if typed_value(alloc, ValueType::Number, text.as_bytes())?.is_some() {
        return Ok(ValueType::Number);
    }
    Ok(type_of_decimals(decimals))
}

// The type of a number that isn't a whole number of 64 bits.
fn type_of_decimals(decimals: Decimals) -> ValueType
    ensures { result ≡ type_of_decimals decimals }
{
    match decimals {
        Decimals::Refused => ValueType::Number,
        Decimals::Text => ValueType::Text,
        Decimals::Exact => ValueType::Decimal,
        Decimals::Double => ValueType::Double,
    }
}
