//! The assignments that the members of a JSON object make.
ghost use Rattle.std.specs.Prelude.{◌≡◌, ◌∷◌, ◌++◌, [], IfOk, OnOk, Some, is_some, map, option_map};
ghost use Rattle.json.specs.Token.{Token};
ghost use Rattle.json.specs.Value.{value_view};
ghost use Rattle.mysql_bind_core.specs.Cells.{assignment_said};
ghost use Rattle.mysql_bind_core.specs.JsonMembers.{first_refused, item_token, list_said, list_text, member_said, number_as, number_or_string, refused_type, with_exponent};
ghost use Rattle.mysql_bind_core.specs.JsonValues.{number_type};

use crate::assignment::Assignment;
use crate::fragment_type::{has_exponent, typed_fragment};
use crate::json_value::{Decimals, number_type, scalar_parts};
use crate::value_type::ValueType;
use json::{Value as Json, Writer, is_number};
use std::alloc::{AllocError, Global};

/// What a member of a JSON object assigns to its name. A list is a list of its items, in which each
/// number is taken as `decimals` says. None of an object, and of a list with a list or an object.
///
/// Example: with [`Decimals::Double`] the member `"a": [1, 0.5]` gives `a` the list `[1,0.5e0]`.
pub fn member_assignment(
    alloc: Global,
    name: &str,
    json: &Json<'_>,
    decimals: Decimals,
) -> Result<Option<Assignment>, AllocError>
    ensures { IfOk result (λ found. option_map assignment_said found
        ≡ option_map (λ parts. (name.now, parts)) (member_said decimals (value_view json.now))) }
{
    match member_parts(alloc, json, decimals)? {
        Some((value_type, bytes)) => Ok(Some(Assignment {
            name: Vec::from_slice(alloc, name.as_bytes())?,
            value_type,
            bytes,
        })),
        None => Ok(None),
    }
}

// The type and the bytes of a member.
fn member_parts(
    alloc: Global,
    json: &Json<'_>,
    decimals: Decimals,
) -> Result<Option<(ValueType, Vec<u8>)>, AllocError>
    ensures { IfOk result (λ found. option_map (λ parts. (parts.0, parts.1.items)) found
        ≡ member_said decimals (value_view json.now)) }
{
    match json {
        Json::Array(items) => list_parts(alloc, items.as_slice(), decimals),
        json => scalar_parts(alloc, json, decimals),
    }
}

// The type and the bytes of a list.
fn list_parts(
    alloc: Global,
    items: &[Json<'_>],
    decimals: Decimals,
) -> Result<Option<(ValueType, Vec<u8>)>, AllocError>
    ensures { IfOk result (λ found. option_map (λ parts. (parts.0, parts.1.items)) found
        ≡ list_said decimals (map value_view items.now)) }
{
    if let Some(value_type) = first_refused(alloc, items, decimals)? {
        return Ok(Some((value_type, Vec::from_slice(alloc, b"-")?)));
    }
    match list_text(alloc, items, decimals)? {
        Some(text) => Ok(Some((ValueType::List, text))),
        None => Ok(None),
    }
}

// The type of the first item that is a number and not what its type takes.
fn first_refused(
    alloc: Global,
    items: &[Json<'_>],
    decimals: Decimals,
) -> Result<Option<ValueType>, AllocError>
    ensures { IfOk result (λ found.
        found ≡ first_refused decimals (map value_view items.now)) }
{
    for json in items {
        if let Some(value_type) = refused_type(alloc, json, decimals)? {
            return Ok(Some(value_type));
        }
    }
    Ok(None)
}

// The type of a number that isn't what its type takes.
fn refused_type(
    alloc: Global,
    json: &Json<'_>,
    decimals: Decimals,
) -> Result<Option<ValueType>, AllocError>
    ensures { IfOk result (λ found. found ≡ refused_type decimals (value_view json.now)) }
{
    let Json::Number(text) = json else {
        return Ok(None);
    };
    let value_type = number_type(alloc, text, decimals)?;
    if typed_fragment(alloc, value_type, text.as_bytes())?.is_some() {
        return Ok(None);
    }
    Ok(Some(value_type))
}

// A list as JSON.
fn list_text(
    alloc: Global,
    items: &[Json<'_>],
    decimals: Decimals,
) -> Result<Option<Vec<u8>>, AllocError>
    ensures { IfOk result (λ found. option_map (λ text. text.items) found
        ≡ list_text decimals (map value_view items.now)) }
{
    let mut writer = Writer::new(Vec::new(alloc));
    writer.begin_array()?;
    for json in items {
        if !write_item(alloc, json, decimals, &mut writer)? {
            return Ok(None);
        }
    }
    writer.end_array()?;
    Ok(Some(writer.into_inner()))
}

// Writes an item of a list. Whether it is one.
fn write_item(
    alloc: Global,
    json: &Json<'_>,
    decimals: Decimals,
    writer: &mut Writer,
) -> Result<bool, AllocError>
    ensures is_one { IfOk result (λ is_one.
        is_one ≡ is_some (item_token decimals (value_view json.now))) }
    ensures written { (t : Token) → item_token decimals (value_view json.now) ≡ Some t →
        OnOk result (writer.new.tokens ≡ writer.old.tokens ++ t ∷ []) }
    ensures before { OnOk result (writer.new.before ≡ writer.old.before) }
{
    match json {
        Json::Null => writer.null()?,
        Json::Bool(truth) => writer.boolean(*truth)?,
        Json::String(text) => writer.string(text)?,
        Json::Number(text) => write_number(alloc, text, decimals, writer)?,
        Json::Array(_) | Json::Object(_) => return Ok(false),
    }
    Ok(true)
}

// Writes a number as an item.
fn write_number(
    alloc: Global,
    text: &str,
    decimals: Decimals,
    writer: &mut Writer,
) -> Result<(), AllocError>
    ensures written { OnOk result (writer.new.tokens
        ≡ writer.old.tokens ++ number_as (number_type decimals text.now) text.now ∷ []) }
    ensures before { OnOk result (writer.new.before ≡ writer.old.before) }
{
    match number_type(alloc, text, decimals)? {
        ValueType::Text => writer.string(text),
        ValueType::Double => {
            let double = with_exponent(alloc, text)?;
            write_text(double.as_str(), writer)
        }
        _ => write_text(text, writer),
    }
}

// The text of a double with an exponent.
fn with_exponent(alloc: Global, text: &str) -> Result<String, AllocError>
    ensures { IfOk result (λ double. double.bytes.items ≡ with_exponent text.now) }
{
    let mut double = String::from_str(alloc, text)?;
    if !has_exponent(text.as_bytes()) {
        double.push_str("e0")?;
    }
    Ok(double)
}

// Writes a text as a number of JSON, or as a string if it is none.
fn write_text(text: &str, writer: &mut Writer) -> Result<(), AllocError>
    ensures written { OnOk result (writer.new.tokens
        ≡ writer.old.tokens ++ number_or_string text.now ∷ []) }
    ensures before { OnOk result (writer.new.before ≡ writer.old.before) }
{
    if is_number(text) {
        writer.number(text)
    } else {
        writer.string(text)
    }
}
