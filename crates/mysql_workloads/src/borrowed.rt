//! The calls for borrowed values against those for owned ones, on random inputs: the same texts,
//! values and buffers, or the same refusals with the same fields.
//!
//! A case is a query with its parameters, a query with fragments, rows of cells, a row in each
//! form, and a value. Its seed and its number make it, so that a difference can be had again.
mod answers;
mod bindings;
mod cases;
mod conversions;
mod fragments;
mod random_fragments;
mod rooms;
mod row_bytes;
mod rows;
mod tally;
mod values;

use crate::borrowed::tally::Tally;
use crate::random::Random;
use std::alloc::{AllocError, Global};

// An odd number with bits all over, by which a seed is spread.
const SPREAD: u64 = 0xD6E8_FEB8_6659_FD93;

/// What cases are made with, and what came of them.
#[derive(Drop)]
pub struct Run {
    /// Where memory comes from.
    pub alloc: Global,
    /// What the case is made of.
    pub random: Random,
    /// How the calls answered.
    pub tally: Tally,
}

/// Compares so many cases of a seed, and prints what came of it. It gives whether nothing differed
/// and each kind of answer came.
pub fn print(rt: &HostRuntime, seed: u64, count: usize) -> bool {
    let mut run = Run {
        alloc: rt.alloc(),
        random: Random { state: seed },
        tally: Tally::new(),
    };
    for case in 0..count {
        run.tally.case = case;
        run.random.state = seed.wrapping_mul(SPREAD) ^ (case as u64).rotate_left(32);
        if compare(&mut run).is_err() {
            let _ = println!(rt; "borrowed: out of memory");
            return false;
        }
    }
    run.tally.print(rt)
}

// Compares a case.
fn compare(run: &mut Run) -> Result<(), AllocError> {
    bindings::compare(run)?;
    fragments::compare(run)?;
    fragments::compare_rows(run)?;
    rows::compare_text(run)?;
    rows::compare_binary(run)?;
    conversions::compare(run)
}
