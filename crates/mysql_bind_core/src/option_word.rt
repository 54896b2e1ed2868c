//! The words of the options that give a value or a column to a name.
ghost use Rattle.std.specs.Prelude.{◌≡◌, IfOk, option_map};
ghost use Rattle.std.specs.List.{before_first, position};
ghost use Rattle.mysql_bind_core.specs.Cells.{assignment_said};
ghost use Rattle.mysql_bind_core.specs.OptionWords.{behind, column_by_word, first_pair, front_of, is_colon, is_equals_sign, is_zero, name_of, named_seen, null_seen, pair_parts, rest_of, set_by_word, type_named, type_or_text, type_word_of};

use crate::assignment::Assignment;
use crate::column::{NamedColumn, NullText};
use crate::value_type::ValueType;
use std::alloc::{AllocError, Global};

/// The parts of a word `NAME`, `NAME:TYPE`, `NAME=REST` or `NAME:TYPE=REST`.
#[derive(Debug, Clone, Copy)]
pub struct OptionWord<'w> {
    /// The name. It ends before the first colon or `=`.
    pub name: &'w str,
    /// The word of the type: from the first colon to the first `=` behind it, if a colon is before
    /// the first `=`.
    pub type_word: Option<&'w str>,
    /// All that follows the first `=`, if there is one.
    pub rest: Option<&'w str>,
}

impl<'w> OptionWord<'w> {
    /// Splits a word. Each word has such parts.
    pub fn new(word: &'w str) -> OptionWord<'w>
        ensures name { result.name.now ≡ name_of word.now }
        ensures type_word { option_map (λ part. part.now) result.type_word
            ≡ type_word_of word.now }
        ensures rest { option_map (λ part. part.now) result.rest ≡ rest_of word.now }
    {
        let (front, rest) = parts_at_equals_sign(word);
        let (name, type_word) = parts_at_colon(front);
        OptionWord {
            name,
            type_word,
            rest,
        }
    }

    /// The type that the word names: text, if it names none. None if no type has the name.
    pub fn value_type(self) -> Option<ValueType>
        ensures { result ≡ type_or_text (option_map (λ part. part.now) self.entry.type_word) }
    {
        match self.type_word {
            Some(word) => type_named(word),
            None => Some(ValueType::Text),
        }
    }
}

// What stands before the first `=`, and what stands behind it.
fn parts_at_equals_sign(text: &str) -> (&str, Option<&str>)
    ensures front { result.0.now ≡ front_of text.now }
    ensures rest { option_map (λ part. part.now) result.1 ≡ behind is_equals_sign text.now }
{
    match text.split_once('=') {
        Some((front, rest)) => (front, Some(rest)),
        None => (text, None),
    }
}

// What stands before the first colon, and what stands behind it.
fn parts_at_colon(text: &str) -> (&str, Option<&str>)
    ensures front { result.0.now ≡ before_first is_colon text.now }
    ensures rest { option_map (λ part. part.now) result.1 ≡ behind is_colon text.now }
{
    match text.split_once(':') {
        Some((front, rest)) => (front, Some(rest)),
        None => (text, None),
    }
}

/// The type with this name, if there is one.
pub fn type_named(word: &str) -> Option<ValueType>
    ensures { result ≡ type_named word.now }
{
    match word {
        "text" => Some(ValueType::Text),
        "line" => Some(ValueType::Line),
        "bytes" => Some(ValueType::Bytes),
        "int" => Some(ValueType::Int),
        "uint" => Some(ValueType::Uint),
        "bool" => Some(ValueType::Bool),
        "hex" => Some(ValueType::Hex),
        "base64" => Some(ValueType::Base64),
        "decimal" => Some(ValueType::Decimal),
        "double" => Some(ValueType::Double),
        "identifier" => Some(ValueType::Identifier),
        "list" => Some(ValueType::List),
        _ => None,
    }
}

/// The assignment of bytes to the name of a word, as the type that the word names. None if no type
/// has that name.
pub fn word_assignment(
    alloc: Global,
    word: OptionWord<'_>,
    bytes: Vec<u8>,
) -> Result<Option<Assignment>, AllocError>
    ensures { IfOk result (λ found. option_map assignment_said found
        ≡ option_map (λ value_type. (word.entry.name.now, (value_type, bytes.items)))
        (type_or_text (option_map (λ part. part.now) word.entry.type_word))) }
{
    match word.value_type() {
        Some(value_type) => {
            let name = Vec::from_slice(alloc, word.name.as_bytes())?;
            Ok(Some(Assignment {
                name,
                value_type,
                bytes,
            }))
        }
        None => Ok(None),
    }
}

/// The assignment of a word `NAME=VALUE` or `NAME:TYPE=VALUE`. None if the word has no `=`, or if
/// no type has the name that it gives.
pub fn set_assignment(alloc: Global, word: &str) -> Result<Option<Assignment>, AllocError>
    ensures { IfOk result (λ found.
        option_map assignment_said found ≡ set_by_word word.now) }
{
    let word = OptionWord::new(word);
    match word.rest {
        Some(value) => {
            let bytes = Vec::from_slice(alloc, value.as_bytes())?;
            word_assignment(alloc, word, bytes)
        }
        None => Ok(None),
    }
}

/// The column of a word `NAME:TYPE`, `NAME=HEADER` or `NAME:TYPE=HEADER`. Without a header its name
/// is its header. None if the word says neither a type nor a header, or if no type has the name
/// that it gives.
pub fn named_column(alloc: Global, word: &str) -> Result<Option<NamedColumn>, AllocError>
    ensures { IfOk result (λ found. option_map named_seen found ≡ column_by_word word.now) }
{
    let word = OptionWord::new(word);
    if word.type_word.is_none() && word.rest.is_none() {
        return Ok(None);
    }
    let Some(value_type) = word.value_type() else {
        return Ok(None);
    };
    let name = Vec::from_slice(alloc, word.name.as_bytes())?;
    let header = match word.rest {
        Some(header) => header,
        None => word.name,
    };
    let header = Vec::from_slice(alloc, header.as_bytes())?;
    Ok(Some(NamedColumn {
        name,
        value_type,
        header,
    }))
}

/// The text that means NULL of a word `NAME=TEXT`, if the word has an `=`. The name ends before the
/// first one.
pub fn null_text(alloc: Global, word: &str) -> Result<Option<NullText>, AllocError>
    ensures { IfOk result (λ found. option_map null_seen found ≡ pair_parts word.now) }
{
    let (name, rest) = parts_at_equals_sign(word);
    match rest {
        Some(text) => {
            let name = Vec::from_slice(alloc, name.as_bytes())?;
            let text = Vec::from_slice(alloc, text.as_bytes())?;
            Ok(Some(NullText { name, text }))
        }
        None => Ok(None),
    }
}

/// The parts of bytes before and behind their first `=`, if they have one.
pub fn pair_parts(pair: &[u8]) -> Option<(&[u8], &[u8])>
    ensures { option_map (λ parts. (parts.0.now, parts.1.now)) result ≡ pair_parts pair.now }
{
    match equals_sign_position(pair) {
        Some(at) => Some((&pair[..at], &pair[at + 1..])),
        None => None,
    }
}

// The index of the first `=`.
fn equals_sign_position(pair: &[u8]) -> Option<usize>
    ensures { result ≡ position is_equals_sign pair.now }
{
    pair.iter().position(|byte| *byte == b'=')
}

/// The pair at the front of pairs that each end in a byte 0, and the pairs behind it. None if no
/// byte 0 is left.
pub fn first_pair(pairs: &[u8]) -> Option<(&[u8], &[u8])>
    ensures { option_map (λ parts. (parts.0.now, parts.1.now)) result ≡ first_pair pairs.now }
{
    match zero_position(pairs) {
        Some(at) => Some((&pairs[..at], &pairs[at + 1..])),
        None => None,
    }
}

// The index of the first byte 0.
fn zero_position(pairs: &[u8]) -> Option<usize>
    ensures { result ≡ position is_zero pairs.now }
{
    pairs.iter().position(|byte| *byte == 0)
}
