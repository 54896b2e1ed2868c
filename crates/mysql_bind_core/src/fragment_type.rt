//! The fragments that the bytes of a source make for the place of a name.
ghost use Rattle.std.specs.Prelude.{◌≡◌, IfOk, Some, map, option_map};
ghost use Rattle.json.specs.Json.{document};
ghost use Rattle.json.specs.Value.{value_view};
ghost use Rattle.mysql_float_literal.specs.DoubleText.{double_value};
ghost use Rattle.mysql_bind_core.specs.Contents.{all_of, content, double_item, double_of, finite_double, has_exponent, item_of, item_said, list_in, list_of_json, name_of, number_item, number_of, said};

use crate::value_type::{ValueType, copied, lent_number, typed_value};
use json::{Error as JsonError, Scratch, Value as Json};
use mysql_float_literal::Double;
use mysql_fragments::{Fragment, Item};
use mysql_sql_text::utf8::is_utf8;
use mysql_values::bytes::Bytes;
use mysql_values::value::Value;
use std::alloc::{AllocError, Global};

/// The fragment that the bytes make for the place of a name, if they are valid for the type. Such a
/// fragment can be written.
pub fn typed_fragment(
    alloc: Global,
    value_type: ValueType,
    bytes: &[u8],
) -> Result<Option<Fragment>, AllocError>
    ensures { IfOk result (λ found. option_map said found ≡ content value_type bytes.now) }
{
    match value_type {
        ValueType::Decimal => number_of(alloc, bytes),
        ValueType::Double => Ok(double_of(bytes)),
        ValueType::Identifier => name_of(alloc, bytes),
        ValueType::List => list_in(alloc, bytes),
        value_type => match typed_value(alloc, value_type, bytes)? {
            Some(value) => Ok(Some(Fragment::Value(value))),
            None => Ok(None),
        },
    }
}

// An exact number.
fn number_of(alloc: Global, text: &[u8]) -> Result<Option<Fragment>, AllocError>
    ensures { IfOk result (λ found. option_map said found ≡ number_of text.now) }
{
    let number = Fragment::Decimal(Vec::from_slice(alloc, text)?);
    if number.fault().is_none() {
        Ok(Some(number))
    } else {
        Ok(None)
    }
}

// The double nearest to a decimal number, if it is finite: `inf` and `nan` are none.
fn finite_double(text: &[u8]) -> Option<Double>
    ensures { option_map double_value result ≡ finite_double text.now }
{
    match fast_float::parse::<f64, _>(text) {
        Ok(double) => Double::new(double),
        Err(_) => None,
    }
}

// A double.
fn double_of(text: &[u8]) -> Option<Fragment>
    ensures { option_map said result ≡ double_of text.now }
{
    match finite_double(text) {
        Some(double) => Some(Fragment::Double(double)),
        None => None,
    }
}

// A name that servers take, in UTF-8.
fn name_of(alloc: Global, bytes: &[u8]) -> Result<Option<Fragment>, AllocError>
    ensures { IfOk result (λ found. option_map said found ≡ name_of bytes.now) }
{
    if !is_utf8(bytes) {
        return Ok(None);
    }
    let name = Fragment::Identifier(Vec::from_slice(alloc, bytes)?);
    if name.fault().is_none() {
        Ok(Some(name))
    } else {
        Ok(None)
    }
}

// The list of a JSON text.
fn list_in(alloc: Global, bytes: &[u8]) -> Result<Option<Fragment>, AllocError>
    ensures { IfOk result (λ found. option_map said found ≡ list_in bytes.now) }
{
    match std::str::from_utf8(bytes) {
        Ok(text) => list_of_text(alloc, text),
        Err(_) => Ok(None),
    }
}

// The list of a JSON text in UTF-8.
fn list_of_text(alloc: Global, text: &str) -> Result<Option<Fragment>, AllocError>
    ensures { IfOk result (λ found. option_map said found ≡ list_of_json (document text.now)) }
{
    let mut scratch = Scratch::new(alloc);
    // A text that isn't JSON has no list. All other errors are out of memory.
    match Json::parse(alloc, text, &mut scratch) {
        Ok(json) => list_of_json(alloc, &json),
        Err(JsonError::Invalid) => Ok(None),
        Err(_) => Err(AllocError),
    }
}

// The list of a JSON array that isn't empty.
fn list_of_json(alloc: Global, json: &Json<'_>) -> Result<Option<Fragment>, AllocError>
    ensures { IfOk result (λ found.
        option_map said found ≡ list_of_json (Some (value_view json.now))) }
{
    let Json::Array(values) = json else {
        return Ok(None);
    };
    if values.is_empty() {
        return Ok(None);
    }
    match items_of(alloc, values.as_slice())? {
        Some(items) => Ok(Some(Fragment::List(items))),
        None => Ok(None),
    }
}

// The items of JSON values.
fn items_of(alloc: Global, values: &[Json<'_>]) -> Result<Option<Vec<Item>>, AllocError>
    ensures { IfOk result (λ found. option_map (λ items. map item_said items.items) found
        ≡ all_of item_of (map value_view values.now)) }
{
    let mut items = Vec::new(alloc);
    for json in values {
        match item_of(alloc, json)? {
            Some(item) => items.push(item)?,
            None => return Ok(None),
        }
    }
    Ok(Some(items))
}

// The item of a JSON value.
fn item_of(alloc: Global, json: &Json<'_>) -> Result<Option<Item>, AllocError>
    ensures { IfOk result (λ found. option_map item_said found ≡ item_of (value_view json.now)) }
{
    match json {
        Json::Null => Ok(Some(Item::Value(Value::NULL))),
        Json::Bool(true) => Ok(Some(Item::Value(Value::Int(1)))),
        Json::Bool(false) => Ok(Some(Item::Value(Value::Int(0)))),
        Json::Number(text) => number_item(alloc, text.as_bytes()),
        Json::String(text) => {
            let copy = Vec::from_slice(alloc, text.as_bytes())?;
            Ok(Some(Item::Value(Value::Bytes(Bytes::from(copy)))))
        }
        Json::Array(_) | Json::Object(_) => Ok(None),
    }
}

// A double as an item.
fn double_item(text: &[u8]) -> Option<Item>
    ensures { option_map item_said result ≡ double_item text.now }
{
    match finite_double(text) {
        Some(double) => Some(Item::Double(double)),
        None => None,
    }
}

// Whether the text has an `e` or an `E`.
pub(crate) fn has_exponent(text: &[u8]) -> bool
    ensures { result ≡ has_exponent text.now }
{
    text.iter().any(|byte| *byte == b'e' || *byte == b'E')
}

// The item of a number. A number with an exponent is a double. Any other is a whole number, if 64
// bits hold it, or else an exact number.
fn number_item(alloc: Global, text: &[u8]) -> Result<Option<Item>, AllocError>
    ensures { IfOk result (λ found. option_map item_said found ≡ number_item text.now) }
{
    if has_exponent(text) {
        return Ok(double_item(text));
    }
    if let Some(value) = copied(alloc, lent_number(text))? {
        return Ok(Some(Item::Value(value)));
    }
    let number = Fragment::Decimal(Vec::from_slice(alloc, text)?);
    if number.fault().is_none() {
        Ok(Some(Item::Decimal(Vec::from_slice(alloc, text)?)))
    } else {
        Ok(None)
    }
}
