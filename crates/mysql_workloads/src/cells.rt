//! A client reads the same rows in text form again and again, and converts each cell.
use crate::digest::Digest;
use crate::first_turn::take_bytes;
use crate::pools::Pools;
use crate::random::Random;
use crate::rows_in::{COLUMNS, ROWS, put_text_rows, row_pools};
use mysql_values::value::convert::from_value_opt;
use mysql_values::value::{Value, read_text_cells};
use mysql_wire_part::{ParseBuf, WireError};
use std::alloc::{AllocError, Global};
use std::time::Duration;

/// Reads the rows so many times.
pub fn run(
    alloc: Global,
    random: &mut Random,
    pools: &Pools,
    turns: usize,
    digest: &mut Digest,
) -> Result<(), AllocError> {
    let rows = row_pools(alloc, random, pools)?;
    let mut bytes = Vec::with_capacity(alloc, ROWS * 400)?;
    put_text_rows(&mut bytes, random, pools, &rows)?;
    for turn in 0..turns {
        if read_rows(alloc, &bytes, turn, digest).is_err() {
            digest.number(1);
        }
    }
    Ok(())
}

// Reads rows to the end of the bytes.
fn read_rows(
    alloc: Global,
    bytes: &[u8],
    turn: usize,
    digest: &mut Digest,
) -> Result<(), WireError> {
    let mut buffer = ParseBuf(bytes);
    for _ in 0..ROWS {
        let cells = read_text_cells(alloc, &mut buffer, COLUMNS.len())?;
        for (column, cell) in cells.into_iter().enumerate() {
            convert(column, cell, turn, digest);
        }
    }
    digest.number(buffer.len() as u64);
    Ok(())
}

// Converts a cell of a column to the type that a program wants.
fn convert(column: usize, cell: Value, turn: usize, digest: &mut Digest) {
    match column {
        0 => match from_value_opt::<u64>(cell) {
            Ok(number) => digest.number(number),
            Err(_) => digest.number(1),
        },
        1 => match from_value_opt::<Option<u32>>(cell) {
            Ok(Some(number)) => digest.number(u64::from(number)),
            Ok(None) => digest.number(2),
            Err(_) => digest.number(3),
        },
        3 => match from_value_opt::<Option<Vec<u8>>>(cell) {
            Ok(Some(bytes)) => take_bytes(digest, turn, bytes.as_slice()),
            Ok(None) => digest.number(4),
            Err(_) => digest.number(5),
        },
        6 => match from_value_opt::<Option<Duration>>(cell) {
            Ok(Some(time)) => digest.number(time.as_secs() ^ u64::from(time.subsec_nanos())),
            Ok(None) => digest.number(6),
            Err(_) => digest.number(7),
        },
        7 => match from_value_opt::<Option<bool>>(cell) {
            Ok(Some(truth)) => digest.number(u64::from(truth)),
            Ok(None) => digest.number(8),
            Err(_) => digest.number(9),
        },
        _ => match from_value_opt::<Option<String>>(cell) {
            Ok(Some(text)) => take_bytes(digest, turn, text.as_str().as_bytes()),
            Ok(None) => digest.number(10),
            Err(_) => digest.number(11),
        },
    }
}
