//! Fragments as plain data, and what they give.
use mysql_bind_call::{bind_fragments_anywhere, bind_fragments_in_any_mode};
use mysql_fragments::{
    ColumnAssignment, Fragment, Fragments, FragmentsError, Item, SteadyFragmentsError,
};
use mysql_values::bytes::Bytes;
use mysql_values::value::Value;
use std::alloc::{AllocError, Global};

/// A fragment as plain data: `Text` is the value of a text, `Texts` a list of such values, and
/// `Assignments` have such values.
#[derive(Clone, Copy)]
pub(crate) enum Plain {
    Text(&'static [u8]),
    Texts(&'static [&'static [u8]]),
    Float(u32),
    Decimal(&'static [u8]),
    Identifier(&'static [u8]),
    Qualified(&'static [&'static [u8]]),
    Identifiers(&'static [&'static [&'static [u8]]]),
    Assignments(&'static [(&'static [&'static [u8]], &'static [u8])]),
}

fn text_value(alloc: Global, text: &[u8]) -> Result<Value, AllocError> {
    Ok(Value::Bytes(Bytes::from(Vec::from_slice(alloc, text)?)))
}

fn texts(alloc: Global, plain: &[&[u8]]) -> Result<Vec<Item>, AllocError> {
    let mut items = Vec::new(alloc);
    for text in plain {
        items.push(Item::Value(text_value(alloc, *text)?))?;
    }
    Ok(items)
}

fn names(alloc: Global, plain: &[&[u8]]) -> Result<Vec<Vec<u8>>, AllocError> {
    let mut names = Vec::new(alloc);
    for name in plain {
        names.push(Vec::from_slice(alloc, *name)?)?;
    }
    Ok(names)
}

fn columns(alloc: Global, plain: &[&[&[u8]]]) -> Result<Vec<Vec<Vec<u8>>>, AllocError> {
    let mut columns = Vec::new(alloc);
    for column in plain {
        columns.push(names(alloc, *column)?)?;
    }
    Ok(columns)
}

fn assignments(
    alloc: Global,
    plain: &[(&[&[u8]], &[u8])],
) -> Result<Vec<ColumnAssignment>, AllocError> {
    let mut assignments = Vec::new(alloc);
    for (column, text) in plain {
        let column = names(alloc, *column)?;
        let item = Item::Value(text_value(alloc, *text)?);
        assignments.push(ColumnAssignment { column, item })?;
    }
    Ok(assignments)
}

fn fragment(alloc: Global, plain: Plain) -> Result<Fragment, AllocError> {
    match plain {
        Plain::Text(text) => Ok(Fragment::Value(text_value(alloc, text)?)),
        Plain::Texts(plain) => Ok(Fragment::List(texts(alloc, plain)?)),
        Plain::Float(bits) => Ok(Fragment::Value(Value::Float(bits))),
        Plain::Decimal(text) => Ok(Fragment::Decimal(Vec::from_slice(alloc, text)?)),
        Plain::Identifier(name) => Ok(Fragment::Identifier(Vec::from_slice(alloc, name)?)),
        Plain::Qualified(plain) => Ok(Fragment::Qualified(names(alloc, plain)?)),
        Plain::Identifiers(plain) => Ok(Fragment::Identifiers(columns(alloc, plain)?)),
        Plain::Assignments(plain) => Ok(Fragment::Assignments(assignments(alloc, plain)?)),
    }
}

/// Fragments by position.
pub(crate) fn positional(alloc: Global, plain: &[Plain]) -> Result<Fragments, AllocError> {
    let mut list = Vec::new(alloc);
    for one in plain {
        list.push(fragment(alloc, *one)?)?;
    }
    Ok(Fragments::Positional(list))
}

/// What a query gives with fragments by position, for any server or for one.
pub(crate) fn steadily_bound(
    alloc: Global,
    query: &[u8],
    plain: &[Plain],
    anywhere: bool,
) -> Result<Vec<u8>, SteadyFragmentsError> {
    match positional(alloc, plain) {
        Ok(fragments) => {
            if anywhere {
                bind_fragments_anywhere(alloc, query, &fragments)
            } else {
                bind_fragments_in_any_mode(alloc, query, &fragments)
            }
        }
        Err(error) => Err(SteadyFragmentsError::Fragments(FragmentsError::Memory(error))),
    }
}
