//! Texts, numbers, dates and times bound as steady text, to a query of nine marks. The parameters
//! are copied for each call, which takes them.
use crate::digest::Digest;
use crate::first_turn::take_bytes;
use crate::pools::Pools;
use crate::random::Random;
use crate::some_values::{bytes, value};
use mysql_params::bind_text_anywhere;
use mysql_params::params::Params;
use std::alloc::{AllocError, Global};

const QUERY: &[u8] = b"INSERT INTO events (kind, a, b, c, d, e, f, g, h, text) /* of a day */ \
    VALUES ('new', ?, ?, ?, ?, ?, ?, ?, ?, ?)";

// The number of marks.
const MARKS: usize = 9;

// The number of rows to bind in turn.
const ROWS: usize = 16;

/// Binds each row so many times.
pub fn run(
    alloc: Global,
    random: &mut Random,
    pools: &Pools,
    turns: usize,
    digest: &mut Digest,
) -> Result<(), AllocError> {
    let mut rows = Vec::with_capacity(alloc, ROWS)?;
    for _ in 0..ROWS {
        let mut values = Vec::with_capacity(alloc, MARKS)?;
        for _ in 1..MARKS {
            values.push(value(alloc, random, pools)?)?;
        }
        values.push(bytes(alloc, pools.text(random, 100, 1000))?)?;
        rows.push(Params::Positional(values))?;
    }
    for turn in 0..turns {
        for row in rows.iter() {
            let row = row.clone()?;
            match bind_text_anywhere(alloc, QUERY, row) {
                Ok(text) => take_bytes(digest, turn, text.as_slice()),
                Err(_) => digest.number(1),
            }
        }
    }
    Ok(())
}
