//! Random fragments.
use crate::borrowed::Run;
use crate::borrowed::values::{pick, picked, value};
use mysql_fragments::{ColumnAssignment, Fragment, Fragments, Item, Keyword};
use std::alloc::AllocError;

// Names with and without a fault.
const NAMES: &[u8] = b"orders~a\0b~\xC3\xA9~\xFF~a\\b~a`b~~a ~a\\~a\\`b~\
    a_name_of_more_than_64_characters_which_no_server_takes_for_a_table";

// Exact numbers, and texts that are none.
const NUMBERS: &[u8] = b"-1.50~0~99999999999999999999.5~.5~1.~~1.2.3~1e5~--1~\
    123456789012345678901234567890123456789012345678901234567890123456";

// Keywords, and texts that are none.
const WORDS: &[u8] = b"ASC~IS NOT NULL~a  b~1a~~x;";

/// So many fragments.
pub fn random_fragments(run: &mut Run, count: usize) -> Result<Fragments, AllocError> {
    let floats = run.random.one_in(8);
    let mut list = Vec::with_capacity(run.alloc, count)?;
    for _ in 0..count {
        list.push(fragment(run, floats)?)?;
    }
    Ok(Fragments::Positional(list))
}

// A fragment of any kind, perhaps with a fault.
fn fragment(run: &mut Run, floats: bool) -> Result<Fragment, AllocError> {
    match run.random.below(18) {
        0..=5 => Ok(Fragment::Value(value(run, floats)?)),
        6..=8 => Ok(Fragment::List(list(run, floats)?)),
        9..=11 => Ok(Fragment::Rows(rows(run, floats)?)),
        12..=13 => Ok(Fragment::Assignments(assignments(run, floats)?)),
        _ => named_fragment(run),
    }
}

// A fragment without values.
fn named_fragment(run: &mut Run) -> Result<Fragment, AllocError> {
    match run.random.below(6) {
        0 => Ok(Fragment::Decimal(picked(run, NUMBERS)?)),
        1 => Ok(Fragment::Keyword(Keyword::new(run.alloc, pick(&mut run.random, WORDS))?)),
        2 => Ok(Fragment::Qualified(names(run)?)),
        3 => Ok(Fragment::Identifiers(columns(run)?)),
        _ => Ok(Fragment::Identifier(picked(run, NAMES)?)),
    }
}

// Up to three names.
fn names(run: &mut Run) -> Result<Vec<Vec<u8>>, AllocError> {
    let mut names = Vec::with_capacity(run.alloc, 3)?;
    for _ in 0..run.random.below(4) {
        names.push(picked(run, NAMES)?)?;
    }
    Ok(names)
}

// Up to three columns.
fn columns(run: &mut Run) -> Result<Vec<Vec<Vec<u8>>>, AllocError> {
    let mut columns = Vec::with_capacity(run.alloc, 3)?;
    for _ in 0..run.random.below(4) {
        columns.push(names(run)?)?;
    }
    Ok(columns)
}

// Up to three assignments.
fn assignments(run: &mut Run, floats: bool) -> Result<Vec<ColumnAssignment>, AllocError> {
    let decimals = run.random.one_in(4);
    let mut assignments = Vec::with_capacity(run.alloc, 3)?;
    for _ in 0..run.random.below(4) {
        let column = names(run)?;
        let item = item(run, floats, decimals)?;
        assignments.push(ColumnAssignment { column, item })?;
    }
    Ok(assignments)
}

// Up to five items.
fn list(run: &mut Run, floats: bool) -> Result<Vec<Item>, AllocError> {
    let count = run.random.below(6);
    let decimals = run.random.one_in(4);
    items(run, count, floats, decimals)
}

// Up to four rows, mostly of one length.
fn rows(run: &mut Run, floats: bool) -> Result<Vec<Vec<Item>>, AllocError> {
    let width = run.random.below(4);
    let decimals = run.random.one_in(4);
    let mut rows = Vec::with_capacity(run.alloc, 4)?;
    for _ in 0..run.random.below(5) {
        let is_other = run.random.one_in(12);
        let count = if is_other { run.random.below(4) } else { width };
        rows.push(items(run, count, floats, decimals)?)?;
    }
    Ok(rows)
}

/// No rows, or one or two of this width and a last one, which may be shorter and has an item.
pub fn random_shape(run: &mut Run, width: usize) -> Result<Fragments, AllocError> {
    let count = run.random.below(3);
    let mut rows = Vec::with_capacity(run.alloc, 3)?;
    for _ in 0..count {
        rows.push(items(run, width, false, false)?)?;
    }
    if count > 0 {
        let last = run.random.below(width).saturating_add(1);
        rows.push(items(run, last, false, false)?)?;
    }
    let list = vec![in run.alloc; Fragment::Rows(rows)]?;
    Ok(Fragments::Positional(list))
}

// So many values, and perhaps exact numbers among them.
fn items(
    run: &mut Run,
    count: usize,
    floats: bool,
    decimals: bool,
) -> Result<Vec<Item>, AllocError> {
    let mut items = Vec::with_capacity(run.alloc, count)?;
    for _ in 0..count {
        items.push(item(run, floats, decimals)?)?;
    }
    Ok(items)
}

// A value, or perhaps an exact number.
fn item(run: &mut Run, floats: bool, decimals: bool) -> Result<Item, AllocError> {
    if decimals && run.random.one_in(3) {
        Ok(Item::Decimal(picked(run, NUMBERS)?))
    } else {
        Ok(Item::Value(value(run, floats)?))
    }
}
