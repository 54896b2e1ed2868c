//! Batches: many rows and long lists in one statement, for a mode and as steady text.
use crate::digest::Digest;
use crate::pools::Pools;
use crate::random::Random;
use mysql_fragments::{Fragment, Fragments, Item};
use mysql_params::fragments::{bind_fragments, bind_fragments_anywhere};
use mysql_values::value::Value;
use std::alloc::{AllocError, Global};

const ROWS: &[u8] = b"INSERT INTO events (id, kind, name, note) VALUES ?";

const LIST: &[u8] = b"SELECT id, name FROM events WHERE kind = 'new' AND id IN (?) ORDER BY id";

/// Binds so many batches of each kind.
pub fn run(
    alloc: Global,
    random: &mut Random,
    pools: &Pools,
    batches: usize,
    digest: &mut Digest,
) -> Result<(), AllocError> {
    for _ in 0..batches {
        let rows = rows(alloc, random, pools)?;
        take_batch(alloc, ROWS, rows, digest)?;
        let numbers = numbers(alloc, random)?;
        take_batch(alloc, LIST, numbers, digest)?;
        let texts = texts(alloc, random, pools)?;
        take_batch(alloc, LIST, texts, digest)?;
    }
    Ok(())
}

// Binds a fragment in both ways, and takes in the texts.
fn take_batch(
    alloc: Global,
    query: &[u8],
    fragment: Fragment,
    digest: &mut Digest,
) -> Result<(), AllocError> {
    let mut list = Vec::with_capacity(alloc, 1)?;
    list.push(fragment)?;
    let fragments = Fragments::Positional(list);
    match bind_fragments(alloc, query, &fragments) {
        Ok(text) => digest.bytes(text.as_slice()),
        Err(_) => digest.number(1),
    }
    match bind_fragments_anywhere(alloc, query, &fragments) {
        Ok(text) => digest.bytes(text.as_slice()),
        Err(_) => digest.number(2),
    }
    Ok(())
}

// From 500 to 1,000 rows of two numbers and two texts.
fn rows(alloc: Global, random: &mut Random, pools: &Pools) -> Result<Fragment, AllocError> {
    let count = 500 + random.below(501);
    let mut rows = Vec::with_capacity(alloc, count)?;
    for _ in 0..count {
        let mut row = Vec::with_capacity(alloc, 4)?;
        row.push(number(random.positive()))?;
        row.push(Item::Value(Value::UInt(random.below(100) as u64)))?;
        row.push(text(alloc, pools.text(random, 5, 40))?)?;
        row.push(if random.one_in(10) {
            Item::Value(Value::NULL)
        } else {
            text(alloc, pools.text(random, 20, 200))?
        })?;
        rows.push(row)?;
    }
    Ok(Fragment::Rows(rows))
}

// About 1,000 numbers.
fn numbers(alloc: Global, random: &mut Random) -> Result<Fragment, AllocError> {
    let count = 900 + random.below(201);
    let mut items = Vec::with_capacity(alloc, count)?;
    for _ in 0..count {
        items.push(number(random.positive()))?;
    }
    Ok(Fragment::List(items))
}

// About 1,000 texts.
fn texts(alloc: Global, random: &mut Random, pools: &Pools) -> Result<Fragment, AllocError> {
    let count = 900 + random.below(201);
    let mut items = Vec::with_capacity(alloc, count)?;
    for _ in 0..count {
        items.push(text(alloc, pools.text(random, 5, 40))?)?;
    }
    Ok(Fragment::List(items))
}

// An item of a number.
fn number(number: i64) -> Item {
    Item::Value(Value::Int(number))
}

// An item of a text.
fn text(alloc: Global, bytes: &[u8]) -> Result<Item, AllocError> {
    let bytes = Vec::from_slice(alloc, bytes)?;
    Ok(Item::Value(Value::Bytes(bytes.into())))
}
