//! Literals of single values: texts, bytes that aren't UTF-8, numbers, dates, times and NULL.
use crate::digest::Digest;
use crate::first_turn::take_bytes;
use crate::pools::Pools;
use crate::random::Random;
use crate::some_values::{bytes, value};
use mysql_values::value::Value;
use std::alloc::{AllocError, Global};

// The number of values.
const VALUES: usize = 256;

/// Writes each value so many times.
pub fn run(
    alloc: Global,
    random: &mut Random,
    pools: &Pools,
    turns: usize,
    digest: &mut Digest,
) -> Result<(), AllocError> {
    let values = values(alloc, random, pools)?;
    for turn in 0..turns {
        for value in values.iter() {
            match value.as_sql(alloc, turn % 2 == 1) {
                Ok(literal) => take_bytes(digest, turn, literal.as_str().as_bytes()),
                Err(_) => digest.number(1),
            }
        }
    }
    Ok(())
}

// Values of each kind: one in sixteen is NULL, and one in sixteen bytes that aren't UTF-8.
fn values(alloc: Global, random: &mut Random, pools: &Pools) -> Result<Vec<Value>, AllocError> {
    let mut values = Vec::with_capacity(alloc, VALUES)?;
    for place in 0..VALUES {
        values.push(match place % 16 {
            0 => Value::NULL,
            1 => bytes(
                alloc,
                b"\x89PNG\r\n\x1A\n\x00\x00\x00\rIHDR\x00\x00\x01\x00\xFF",
            )?,
            _ => value(alloc, random, pools)?,
        })?;
    }
    Ok(values)
}
