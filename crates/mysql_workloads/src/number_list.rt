//! A list of a thousand numbers, bound again and again to a query with one mark.
use crate::digest::Digest;
use crate::first_turn::take_bytes;
use crate::random::Random;
use mysql_fragments::{Fragment, Fragments, Item};
use mysql_params::fragments::bind_fragments;
use mysql_values::value::Value;
use std::alloc::{AllocError, Global};

const QUERY: &[u8] = b"SELECT id, name FROM events WHERE kind = 'new' AND id IN (?) ORDER BY id";

// The number of numbers.
const NUMBERS: usize = 1000;

/// Binds the list so many times.
pub fn run(
    alloc: Global,
    random: &mut Random,
    turns: usize,
    digest: &mut Digest,
) -> Result<(), AllocError> {
    let mut items = Vec::with_capacity(alloc, NUMBERS)?;
    for _ in 0..NUMBERS {
        items.push(Item::Value(Value::Int(random.positive())))?;
    }
    let mut list = Vec::with_capacity(alloc, 1)?;
    list.push(Fragment::List(items))?;
    let fragments = Fragments::Positional(list);
    for turn in 0..turns {
        match bind_fragments(alloc, QUERY, &fragments) {
            Ok(text) => take_bytes(digest, turn, text.as_slice()),
            Err(_) => digest.number(1),
        }
    }
    Ok(())
}
