//! What the calls are given and should answer, as plain data for tables.
use crate::outcome::Is;
use mysql_params::params::Params;
use mysql_values::bytes::Bytes;
use mysql_values::value::Value;
use std::alloc::{AllocError, Global};
use std::collections::HashMap;

/// A value as plain data.
#[derive(Clone, Copy)]
pub(crate) enum Plain<'a> {
    Null,
    Bytes(&'a [u8]),
    Int(i64),
    UInt(u64),
    Float(u32),
    Double(u64),
    Date(u16, u8, u8, u8, u8, u8, u32),
    Time(bool, u32, u8, u8, u8, u32),
}

impl Plain<'_> {
    /// The value. Only one of bytes asks for memory, once.
    pub(crate) fn value(self, alloc: Global) -> Result<Value, AllocError> {
        match self {
            Plain::Bytes(text) => bytes(alloc, text),
            _ => Ok(self.without_bytes()),
        }
    }

    /// The value, if it isn't one of bytes.
    pub(crate) fn without_bytes(self) -> Value {
        match self {
            Plain::Null | Plain::Bytes(_) => Value::NULL,
            Plain::Int(number) => Value::Int(number),
            Plain::UInt(number) => Value::UInt(number),
            Plain::Float(bits) => Value::Float(bits),
            Plain::Double(bits) => Value::Double(bits),
            Plain::Date(y, m, d, h, min, s, micros) => Value::Date(y, m, d, h, min, s, micros),
            Plain::Time(negative, d, h, min, s, micros) => Value::Time(
                negative, d, h, min, s, micros,
            ),
        }
    }
}

impl Is<Plain<'_>> for Value {
    fn is(&self, wanted: Plain<'_>) -> bool {
        match wanted {
            Plain::Bytes(text) => is_bytes(self, text),
            _ => *self == wanted.without_bytes(),
        }
    }
}

/// The value that holds these bytes.
pub(crate) fn bytes(alloc: Global, text: &[u8]) -> Result<Value, AllocError> {
    Ok(Value::Bytes(Bytes::from(Vec::from_slice(alloc, text)?)))
}

fn is_bytes(value: &Value, text: &[u8]) -> bool {
    match value {
        Value::Bytes(bytes) => bytes.as_slice() == text,
        _ => false,
    }
}

/// Parameters as plain data.
#[derive(Clone, Copy)]
pub(crate) enum Given<'a> {
    Empty,
    Positional(&'a [Plain<'a>]),
    Named(&'a [(&'a [u8], Plain<'a>)]),
}

impl Given<'_> {
    /// The parameters.
    pub(crate) fn params(self, alloc: Global) -> Result<Params, AllocError> {
        match self {
            Given::Empty => Ok(Params::Empty),
            Given::Positional(values) => positional(alloc, values),
            Given::Named(entries) => named(alloc, entries),
        }
    }
}

/// The numbers from 1 to 17 for the names from `a` to `q`: one more than the places that binding
/// keeps without memory.
pub(crate) const A_TO_Q: Given = Given::Named(&[
    (b"a", Plain::UInt(1)),
    (b"b", Plain::UInt(2)),
    (b"c", Plain::UInt(3)),
    (b"d", Plain::UInt(4)),
    (b"e", Plain::UInt(5)),
    (b"f", Plain::UInt(6)),
    (b"g", Plain::UInt(7)),
    (b"h", Plain::UInt(8)),
    (b"i", Plain::UInt(9)),
    (b"j", Plain::UInt(10)),
    (b"k", Plain::UInt(11)),
    (b"l", Plain::UInt(12)),
    (b"m", Plain::UInt(13)),
    (b"n", Plain::UInt(14)),
    (b"o", Plain::UInt(15)),
    (b"p", Plain::UInt(16)),
    (b"q", Plain::UInt(17)),
]);

fn positional(alloc: Global, plain: &[Plain<'_>]) -> Result<Params, AllocError> {
    let mut values = Vec::new(alloc);
    for value in plain {
        values.push(value.value(alloc)?)?;
    }
    Ok(Params::Positional(values))
}

fn named(alloc: Global, plain: &[(&[u8], Plain<'_>)]) -> Result<Params, AllocError> {
    let mut entries = HashMap::new(alloc);
    for (name, value) in plain {
        let value = value.value(alloc)?;
        let name = Vec::from_slice(alloc, *name)?;
        match entries.insert(name, value) {
            Ok(_) => {}
            Err(_) => return Err(AllocError),
        }
    }
    Ok(Params::Named(entries))
}

impl Is<Given<'_>> for Params {
    fn is(&self, wanted: Given<'_>) -> bool {
        match (self, wanted) {
            (Params::Empty, Given::Empty) => true,
            (Params::Positional(found), Given::Positional(wanted)) => found.is(wanted),
            (Params::Named(found), Given::Named(wanted)) => are_entries(found, wanted),
            _ => false,
        }
    }
}

impl Is<&[Plain<'_>]> for Vec<Value> {
    fn is(&self, wanted: &[Plain<'_>]) -> bool {
        if self.len() != wanted.len() {
            return false;
        }
        for (found, wanted) in self.iter().zip(wanted) {
            if !found.is(*wanted) {
                return false;
            }
        }
        true
    }
}

fn are_entries(found: &HashMap<Vec<u8>, Value>, wanted: &[(&[u8], Plain<'_>)]) -> bool {
    for (name, value) in wanted {
        match found.get(*name) {
            Some(found) if found.is(*value) => {}
            _ => return false,
        }
    }
    found.len() == wanted.len()
}

impl Is<&[u8]> for Vec<u8> {
    fn is(&self, wanted: &[u8]) -> bool {
        self.as_slice() == wanted
    }
}

impl Is<&str> for String {
    fn is(&self, wanted: &str) -> bool {
        self.as_str() == wanted
    }
}

/// Names of one byte each.
pub(crate) fn names(alloc: Global, letters: &[u8]) -> Result<Vec<Vec<u8>>, AllocError> {
    let mut names = Vec::new(alloc);
    for letter in letters {
        names.push(Vec::from_slice(alloc, &[*letter])?)?;
    }
    Ok(names)
}
