//! Fragments as plain data, and what they give.
use mysql_bind_call::bind_fragments;
use mysql_float_literal::Double;
use mysql_fragments::{ColumnAssignment, Fragment, Fragments, FragmentsError, Item, Keyword};
use mysql_values::bytes::Bytes;
use mysql_values::value::Value;
use std::alloc::{AllocError, Global};

/// An item as plain data.
#[derive(Clone, Copy)]
pub(crate) enum PlainItem {
    Null,
    Int(i64),
    Text(&'static [u8]),
    Float(u32),
    Decimal(&'static [u8]),
    // The bits of a double.
    Double(u64),
}

/// A fragment as plain data.
#[derive(Clone, Copy)]
pub(crate) enum Plain {
    Decimal(&'static [u8]),
    // The bits of a double.
    Double(u64),
    List(&'static [PlainItem]),
    Rows(&'static [&'static [PlainItem]]),
    Identifier(&'static [u8]),
    Qualified(&'static [&'static [u8]]),
    Keyword(&'static [u8]),
    Identifiers(&'static [&'static [&'static [u8]]]),
    Assignments(&'static [(&'static [&'static [u8]], PlainItem)]),
}

fn item(alloc: Global, plain: PlainItem) -> Result<Item, AllocError> {
    match plain {
        PlainItem::Null => Ok(Item::Value(Value::NULL)),
        PlainItem::Int(number) => Ok(Item::Value(Value::Int(number))),
        PlainItem::Text(text) => {
            let text = Bytes::from(Vec::from_slice(alloc, text)?);
            Ok(Item::Value(Value::Bytes(text)))
        }
        PlainItem::Float(bits) => Ok(Item::Value(Value::Float(bits))),
        PlainItem::Decimal(text) => Ok(Item::Decimal(Vec::from_slice(alloc, text)?)),
        PlainItem::Double(bits) => match Double::from_bits(bits) {
            Some(double) => Ok(Item::Double(double)),
            None => Ok(Item::Value(Value::Double(bits))),
        },
    }
}

fn items(alloc: Global, plain: &[PlainItem]) -> Result<Vec<Item>, AllocError> {
    let mut items = Vec::new(alloc);
    for one in plain {
        items.push(item(alloc, *one)?)?;
    }
    Ok(items)
}

fn rows(alloc: Global, plain: &[&[PlainItem]]) -> Result<Vec<Vec<Item>>, AllocError> {
    let mut rows = Vec::new(alloc);
    for row in plain {
        rows.push(items(alloc, *row)?)?;
    }
    Ok(rows)
}

fn names(alloc: Global, plain: &[&[u8]]) -> Result<Vec<Vec<u8>>, AllocError> {
    let mut names = Vec::new(alloc);
    for name in plain {
        names.push(Vec::from_slice(alloc, *name)?)?;
    }
    Ok(names)
}

fn columns(alloc: Global, plain: &[&[&[u8]]]) -> Result<Vec<Vec<Vec<u8>>>, AllocError> {
    let mut columns = Vec::new(alloc);
    for column in plain {
        columns.push(names(alloc, *column)?)?;
    }
    Ok(columns)
}

fn assignments(
    alloc: Global,
    plain: &[(&[&[u8]], PlainItem)],
) -> Result<Vec<ColumnAssignment>, AllocError> {
    let mut assignments = Vec::new(alloc);
    for (column, set_to) in plain {
        let column = names(alloc, *column)?;
        let item = item(alloc, *set_to)?;
        assignments.push(ColumnAssignment { column, item })?;
    }
    Ok(assignments)
}

/// The fragment of plain data.
pub(crate) fn fragment(alloc: Global, plain: Plain) -> Result<Fragment, AllocError> {
    match plain {
        Plain::Decimal(text) => Ok(Fragment::Decimal(Vec::from_slice(alloc, text)?)),
        Plain::Double(bits) => match Double::from_bits(bits) {
            Some(double) => Ok(Fragment::Double(double)),
            None => Ok(Fragment::Value(Value::Double(bits))),
        },
        Plain::List(plain) => Ok(Fragment::List(items(alloc, plain)?)),
        Plain::Rows(plain) => Ok(Fragment::Rows(rows(alloc, plain)?)),
        Plain::Identifier(name) => Ok(Fragment::Identifier(Vec::from_slice(alloc, name)?)),
        Plain::Qualified(plain) => Ok(Fragment::Qualified(names(alloc, plain)?)),
        Plain::Keyword(word) => Ok(Fragment::Keyword(Keyword::new(alloc, word)?)),
        Plain::Identifiers(plain) => Ok(Fragment::Identifiers(columns(alloc, plain)?)),
        Plain::Assignments(plain) => Ok(Fragment::Assignments(assignments(alloc, plain)?)),
    }
}

/// What a query gives with one fragment by position.
pub(crate) fn bound(alloc: Global, query: &[u8], plain: Plain) -> Result<Vec<u8>, FragmentsError> {
    let mut list = Vec::new(alloc);
    match fragment(alloc, plain) {
        Ok(fragment) => match list.push(fragment) {
            Ok(()) => bind_fragments(alloc, query, &Fragments::Positional(list)),
            Err(_) => Err(FragmentsError::Memory(AllocError)),
        },
        Err(error) => Err(FragmentsError::Memory(error)),
    }
}
