//! Fragments as plain data for tables, and how they are made.
use crate::inputs::Plain;
use crate::outcome::Is;
use mysql_fragments::{ColumnAssignment, Fragment, Fragments, Item, Keyword};
use std::alloc::{AllocError, Global};
use std::collections::HashMap;

/// An item as plain data.
#[derive(Clone, Copy)]
pub(crate) enum PlainItem {
    Value(Plain<'static>),
    Decimal(&'static [u8]),
}

impl PlainItem {
    fn item(self, alloc: Global) -> Result<Item, AllocError> {
        match self {
            PlainItem::Value(value) => Ok(Item::Value(value.value(alloc)?)),
            PlainItem::Decimal(number) => Ok(Item::Decimal(Vec::from_slice(alloc, number)?)),
        }
    }
}

/// A fragment as plain data.
#[derive(Clone, Copy)]
pub(crate) enum PlainFragment {
    Value(Plain<'static>),
    Decimal(&'static [u8]),
    List(&'static [PlainItem]),
    Rows(&'static [&'static [PlainItem]]),
    Identifier(&'static [u8]),
    Qualified(&'static [&'static [u8]]),
    Keyword(&'static [u8]),
    Identifiers(&'static [&'static [&'static [u8]]]),
    Assignments(&'static [PlainAssignment]),
}

/// The names of a column, and what it is set to.
pub(crate) type PlainAssignment = (&'static [&'static [u8]], PlainItem);

impl PlainFragment {
    fn fragment(self, alloc: Global) -> Result<Fragment, AllocError> {
        match self {
            PlainFragment::Value(value) => Ok(Fragment::Value(value.value(alloc)?)),
            PlainFragment::Decimal(number) => {
                Ok(Fragment::Decimal(Vec::from_slice(alloc, number)?))
            }
            PlainFragment::List(plain) => Ok(Fragment::List(items(alloc, plain)?)),
            PlainFragment::Rows(plain) => Ok(Fragment::Rows(rows(alloc, plain)?)),
            PlainFragment::Identifier(name) => {
                Ok(Fragment::Identifier(Vec::from_slice(alloc, name)?))
            }
            PlainFragment::Qualified(plain) => Ok(Fragment::Qualified(parts(alloc, plain)?)),
            PlainFragment::Keyword(word) => Ok(Fragment::Keyword(Keyword::new(alloc, word)?)),
            PlainFragment::Identifiers(plain) => {
                Ok(Fragment::Identifiers(columns(alloc, plain)?))
            }
            PlainFragment::Assignments(plain) => {
                Ok(Fragment::Assignments(assignments(alloc, plain)?))
            }
        }
    }
}

fn items(alloc: Global, plain: &[PlainItem]) -> Result<Vec<Item>, AllocError> {
    let mut items = Vec::new(alloc);
    for item in plain {
        items.push(item.item(alloc)?)?;
    }
    Ok(items)
}

fn rows(alloc: Global, plain: &[&[PlainItem]]) -> Result<Vec<Vec<Item>>, AllocError> {
    let mut rows = Vec::new(alloc);
    for row in plain {
        rows.push(items(alloc, *row)?)?;
    }
    Ok(rows)
}

fn parts(alloc: Global, plain: &[&[u8]]) -> Result<Vec<Vec<u8>>, AllocError> {
    let mut parts = Vec::new(alloc);
    for name in plain {
        parts.push(Vec::from_slice(alloc, *name)?)?;
    }
    Ok(parts)
}

fn columns(alloc: Global, plain: &[&[&[u8]]]) -> Result<Vec<Vec<Vec<u8>>>, AllocError> {
    let mut columns = Vec::new(alloc);
    for names in plain {
        columns.push(parts(alloc, *names)?)?;
    }
    Ok(columns)
}

fn assignments(
    alloc: Global,
    plain: &[PlainAssignment],
) -> Result<Vec<ColumnAssignment>, AllocError> {
    let mut assignments = Vec::new(alloc);
    for (names, item) in plain {
        let column = parts(alloc, *names)?;
        let item = item.item(alloc)?;
        assignments.push(ColumnAssignment { column, item })?;
    }
    Ok(assignments)
}

/// What is given to the places of a query, as plain data.
#[derive(Clone, Copy)]
pub(crate) enum InPlaces {
    Positional(&'static [PlainFragment]),
    Named(&'static [(&'static [u8], PlainFragment)]),
}

impl InPlaces {
    /// The fragments.
    pub(crate) fn fragments(self, alloc: Global) -> Result<Fragments, AllocError> {
        match self {
            InPlaces::Positional(plain) => positional(alloc, plain),
            InPlaces::Named(plain) => named(alloc, plain),
        }
    }
}

fn positional(alloc: Global, plain: &[PlainFragment]) -> Result<Fragments, AllocError> {
    let mut list = Vec::new(alloc);
    for fragment in plain {
        list.push(fragment.fragment(alloc)?)?;
    }
    Ok(Fragments::Positional(list))
}

fn named(alloc: Global, plain: &[(&[u8], PlainFragment)]) -> Result<Fragments, AllocError> {
    let mut entries = HashMap::new(alloc);
    for (name, fragment) in plain {
        let fragment = fragment.fragment(alloc)?;
        let name = Vec::from_slice(alloc, *name)?;
        match entries.insert(name, fragment) {
            Ok(_) => {}
            Err(_) => return Err(AllocError),
        }
    }
    Ok(Fragments::Named(entries))
}

impl Is<PlainItem> for Item {
    fn is(&self, wanted: PlainItem) -> bool {
        match (self, wanted) {
            (Item::Value(found), PlainItem::Value(wanted)) => found.is(wanted),
            (Item::Decimal(found), PlainItem::Decimal(wanted)) => found.is(wanted),
            _ => false,
        }
    }
}

impl Is<PlainFragment> for Fragment {
    fn is(&self, wanted: PlainFragment) -> bool {
        match (self, wanted) {
            (Fragment::Value(found), PlainFragment::Value(wanted)) => found.is(wanted),
            (Fragment::Decimal(found), PlainFragment::Decimal(wanted)) => found.is(wanted),
            (Fragment::List(found), PlainFragment::List(wanted)) => are_items(found, wanted),
            (Fragment::Rows(found), PlainFragment::Rows(wanted)) => are_rows(found, wanted),
            (Fragment::Identifier(found), PlainFragment::Identifier(wanted)) => found.is(wanted),
            (Fragment::Qualified(found), PlainFragment::Qualified(wanted)) => {
                are_parts(found, wanted)
            }
            (Fragment::Keyword(found), PlainFragment::Keyword(wanted)) => found.is(wanted),
            (Fragment::Identifiers(found), PlainFragment::Identifiers(wanted)) => {
                are_columns(found, wanted)
            }
            (Fragment::Assignments(found), PlainFragment::Assignments(wanted)) => {
                are_assignments(found, wanted)
            }
            _ => false,
        }
    }
}

impl Is<&[u8]> for Keyword {
    fn is(&self, word: &[u8]) -> bool {
        self.as_bytes() == word
    }
}

fn are_items(found: &[Item], wanted: &[PlainItem]) -> bool {
    for (found, wanted) in found.iter().zip(wanted) {
        if !found.is(*wanted) {
            return false;
        }
    }
    found.len() == wanted.len()
}

fn are_rows(found: &[Vec<Item>], wanted: &[&[PlainItem]]) -> bool {
    for (found, wanted) in found.iter().zip(wanted) {
        if !are_items(found, *wanted) {
            return false;
        }
    }
    found.len() == wanted.len()
}

fn are_parts(found: &[Vec<u8>], wanted: &[&[u8]]) -> bool {
    for (found, wanted) in found.iter().zip(wanted) {
        if found.as_slice() != *wanted {
            return false;
        }
    }
    found.len() == wanted.len()
}

impl Is<InPlaces> for Fragments {
    fn is(&self, wanted: InPlaces) -> bool {
        match (self, wanted) {
            (Fragments::Positional(found), InPlaces::Positional(wanted)) => {
                are_fragments(found, wanted)
            }
            (Fragments::Named(found), InPlaces::Named(wanted)) => are_entries(found, wanted),
            _ => false,
        }
    }
}

fn are_fragments(found: &[Fragment], wanted: &[PlainFragment]) -> bool {
    for (found, wanted) in found.iter().zip(wanted) {
        if !found.is(*wanted) {
            return false;
        }
    }
    found.len() == wanted.len()
}

fn are_entries(
    found: &HashMap<Vec<u8>, Fragment>,
    wanted: &[(&'static [u8], PlainFragment)],
) -> bool {
    for (name, fragment) in wanted {
        match found.get(*name) {
            Some(found) if found.is(*fragment) => {}
            _ => return false,
        }
    }
    found.len() == wanted.len()
}

fn are_columns(found: &[Vec<Vec<u8>>], wanted: &[&[&[u8]]]) -> bool {
    for (found, wanted) in found.iter().zip(wanted) {
        if !are_parts(found, *wanted) {
            return false;
        }
    }
    found.len() == wanted.len()
}

fn are_assignments(found: &[ColumnAssignment], wanted: &[PlainAssignment]) -> bool {
    for (found, (names, item)) in found.iter().zip(wanted) {
        if !are_parts(found.column.as_slice(), *names) || !found.item.is(*item) {
            return false;
        }
    }
    found.len() == wanted.len()
}
