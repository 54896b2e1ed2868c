//! What `rows_in` does, by the calls that copy nothing.
use crate::digest::Digest;
use crate::pools::Pools;
use crate::random::Random;
use crate::rows_in::{COLUMNS, ROWS, is_null, put_binary_rows, put_text_rows, row_pools};
use mysql_values::value::convert::FromValueRef;
use mysql_values::value::{ValueRef, read_binary_value, read_text_cells_into};
use mysql_wire_part::{ColumnFlags, Flags, ParseBuf, WireError};
use std::alloc::{AllocError, Global};
use std::time::Duration;

/// Reads so many buffers of rows of each form.
pub fn run(
    alloc: Global,
    random: &mut Random,
    pools: &Pools,
    buffers: usize,
    digest: &mut Digest,
) -> Result<(), AllocError> {
    let rows = row_pools(alloc, random, pools)?;
    let mut bytes = Vec::with_capacity(alloc, ROWS * 400)?;
    for _ in 0..buffers {
        put_binary_rows(&mut bytes, random, &rows)?;
        if read_binary_rows(&bytes, digest).is_err() {
            digest.number(1);
        }
        put_text_rows(&mut bytes, random, pools, &rows)?;
        if read_text_rows(alloc, &bytes, digest).is_err() {
            digest.number(1);
        }
    }
    Ok(())
}

// Reads rows in binary form to the end of the bytes.
fn read_binary_rows(bytes: &[u8], digest: &mut Digest) -> Result<(), WireError> {
    let mut buffer = ParseBuf(bytes);
    for _ in 0..ROWS {
        let nulls = buffer.checked_eat_u16_le().ok_or(WireError::UnexpectedEof)?;
        for (column, (kind, unsigned)) in COLUMNS.iter().enumerate() {
            if is_null(nulls, column) {
                convert(column, ValueRef::NULL, digest);
                continue;
            }
            let flags = ColumnFlags::from_bits_retain(if *unsigned { 32 } else { 0 });
            let cell = read_binary_value(*kind, flags, &mut buffer)?;
            convert(column, cell, digest);
        }
    }
    digest.number(buffer.len() as u64);
    Ok(())
}

// Reads rows in text form to the end of the bytes, one after another into the same cells.
fn read_text_rows(alloc: Global, bytes: &[u8], digest: &mut Digest) -> Result<(), WireError> {
    let mut buffer = ParseBuf(bytes);
    let mut cells = Vec::with_capacity(alloc, COLUMNS.len())?;
    for _ in 0..ROWS {
        read_text_cells_into(&mut buffer, COLUMNS.len(), &mut cells)?;
        for (column, cell) in cells.iter().enumerate() {
            convert(column, *cell, digest);
        }
    }
    digest.number(buffer.len() as u64);
    Ok(())
}

// What a value of this column converts to, if it does.
fn converted<'v, T: FromValueRef<'v>>(value: ValueRef<'v>) -> Option<Option<T>> {
    <Option<T> as FromValueRef>::from_value_ref(value)
}

// Converts a cell of a column to the type that a program wants.
fn convert(column: usize, value: ValueRef<'_>, digest: &mut Digest) {
    match column {
        0 => match <i64 as FromValueRef>::from_value_ref(value) {
            Some(number) => digest.number(number.cast_unsigned()),
            None => digest.number(1),
        },
        1 => match converted::<u32>(value) {
            Some(Some(number)) => digest.number(u64::from(number)),
            Some(None) => digest.number(2),
            None => digest.number(3),
        },
        6 => match converted::<Duration>(value) {
            Some(Some(time)) => digest.number(time.as_secs() ^ u64::from(time.subsec_nanos())),
            Some(None) => digest.number(4),
            None => digest.number(5),
        },
        7 => match converted::<bool>(value) {
            Some(Some(truth)) => digest.number(u64::from(truth)),
            Some(None) => digest.number(6),
            None => digest.number(7),
        },
        5 => take_date(value, digest),
        _ => take_text(value, digest),
    }
}

// Takes in a text, or NULL.
fn take_text(value: ValueRef<'_>, digest: &mut Digest) {
    match converted::<&str>(value) {
        Some(Some(text)) => digest.bytes(text.as_bytes()),
        Some(None) => digest.number(8),
        None => digest.number(9),
    }
}

// Takes in a date, or its text, or NULL.
fn take_date(value: ValueRef<'_>, digest: &mut Digest) {
    match value {
        ValueRef::Date(year, month, day, hour, minute, second, microseconds) => {
            digest.number(u64::from(year) ^ u64::from(microseconds));
            digest.bytes(&[month, day, hour, minute, second]);
        }
        other => take_text(other, digest),
    }
}
