//! Rows in text and binary form, whole, cut off and changed, read into borrowed cells and into
//! owned ones.
use crate::borrowed::Run;
use crate::borrowed::answers::Answer;
use crate::borrowed::row_bytes::{
    Column, is_null, random_binary, random_binary_row, random_columns, random_text_row,
};
use crate::borrowed::tally::Call;
use crate::borrowed::values::copied_values;
use mysql_values::value::{
    BinValue, BinaryRowError, NullBitmap, TextValue, Value, ValueDeserializer, ValueRef,
    read_binary_cells_into, read_binary_value, read_null_bitmap, read_text_cell, read_text_cells,
    read_text_cells_into,
};
use mysql_wire_part::{MyDeserialize, ParseBuf, WireError};
use std::alloc::{AllocError, Global};

// How a cell is read.
#[derive(Clone, Copy)]
enum Cell {
    Text,
    Binary(Column),
}

// How a row is read.
#[derive(Clone, Copy)]
enum Row<'c> {
    // So many cells in text form.
    Text(usize),
    // Columns in binary form.
    Binary(&'c [Column]),
}

/// Reads a random row in text form by each call.
pub fn compare_text(run: &mut Run) -> Result<(), AllocError> {
    let count = run.random.below(7);
    let bytes = random_text_row(run, count)?;
    let wanted = match run.random.below(8) {
        0 => count.saturating_add(1),
        1 => count.saturating_sub(1),
        _ => count,
    };
    compare_text_cells(run, wanted, bytes.as_slice());
    compare_row(run, Row::Text(wanted), bytes.as_slice());
    Ok(())
}

/// Reads a random row in binary form by each call, and a value of each of its columns.
pub fn compare_binary(run: &mut Run) -> Result<(), AllocError> {
    let columns = random_columns(run)?;
    let bytes = random_binary_row(run, columns.as_slice())?;
    compare_bitmap(run, columns.len(), bytes.as_slice());
    compare_row(run, Row::Binary(columns.as_slice()), bytes.as_slice());
    for column in columns.as_slice() {
        let bytes = random_binary(run, column.0)?;
        let (mut old, mut new) = (ParseBuf(bytes.as_slice()), ParseBuf(bytes.as_slice()));
        compare_cell(run, Cell::Binary(*column), &mut old, &mut new);
    }
    Ok(())
}

// Reads cells one by one, up to the first that can't be read.
fn compare_text_cells(run: &mut Run, count: usize, bytes: &[u8]) {
    let (mut old, mut new) = (ParseBuf(bytes), ParseBuf(bytes));
    for _ in 0..count {
        if !compare_cell(run, Cell::Text, &mut old, &mut new) {
            return;
        }
    }
}

// Reads a cell, and gives whether it could be read.
fn compare_cell(run: &mut Run, cell: Cell, old: &mut ParseBuf<'_>, new: &mut ParseBuf<'_>) -> bool {
    let owned = owned_cell(run.alloc, cell, old);
    let lent = lent_cell(run.alloc, cell, new);
    let call = match cell {
        Cell::Text => Call::TextCell,
        Cell::Binary(_) => Call::BinaryValue,
    };
    run.tally
        .take(call, owned.kind(), owned == lent && *old == *new);
    owned.is_ok()
}

// The cell by the call for owned ones.
fn owned_cell(alloc: Global, cell: Cell, buffer: &mut ParseBuf<'_>) -> Result<Value, WireError> {
    match cell {
        Cell::Text => { Ok(ValueDeserializer::<TextValue>::deserialize(alloc, (), buffer)?.0) }
        Cell::Binary(column) => {
            Ok(ValueDeserializer::<BinValue>::deserialize(alloc, column, buffer)?.0)
        }
    }
}

// A copy of the cell by the call for borrowed ones.
fn lent_cell(alloc: Global, cell: Cell, buffer: &mut ParseBuf<'_>) -> Result<Value, WireError> {
    match read_cell(cell, buffer) {
        Ok(value) => Ok(value.to_value(alloc)?),
        Err(error) => Err(error),
    }
}

// The cell by the call for borrowed ones.
fn read_cell<'b>(cell: Cell, buffer: &mut ParseBuf<'b>) -> Result<ValueRef<'b>, WireError> {
    match cell {
        Cell::Text => read_text_cell(buffer),
        Cell::Binary((kind, flags)) => read_binary_value(kind, flags, buffer),
    }
}

// Reads a row by the calls for whole rows.
fn compare_row(run: &mut Run, row: Row<'_>, bytes: &[u8]) {
    let (mut old, mut new) = (ParseBuf(bytes), ParseBuf(bytes));
    let owned = owned_row(run.alloc, row, &mut old);
    let lent = lent_row(run.alloc, row, &mut new);
    let call = match row {
        Row::Text(_) => Call::TextCells,
        Row::Binary(_) => Call::BinaryCells,
    };
    run.tally
        .take(call, owned.kind(), owned == lent && old == new);
}

// The row by the calls for owned values.
fn owned_row(
    alloc: Global,
    row: Row<'_>,
    buffer: &mut ParseBuf<'_>,
) -> Result<Vec<Value>, BinaryRowError> {
    match row {
        Row::Text(count) => match read_text_cells(alloc, buffer, count) {
            Ok(values) => Ok(values),
            Err(error) => Err(BinaryRowError::Wire(error)),
        },
        Row::Binary(columns) => owned_binary_row(alloc, columns, buffer),
    }
}

// Copies of the row by the calls for borrowed values, read over two stale cells.
fn lent_row(
    alloc: Global,
    row: Row<'_>,
    buffer: &mut ParseBuf<'_>,
) -> Result<Vec<Value>, BinaryRowError> {
    let mut cells = Vec::from_elem(alloc, ValueRef::Int(-1), 2).map_err(out_of_memory)?;
    read_row_into(row, buffer, &mut cells)?;
    copied_values(alloc, cells.as_slice()).map_err(out_of_memory)
}

// The row by the calls for borrowed values.
fn read_row_into<'b>(
    row: Row<'_>,
    buffer: &mut ParseBuf<'b>,
    cells: &mut Vec<ValueRef<'b>>,
) -> Result<(), BinaryRowError> {
    match row {
        Row::Text(count) => {
            read_text_cells_into(buffer, count, cells).map_err(BinaryRowError::Wire)
        }
        Row::Binary(columns) => read_binary_cells_into(columns, buffer, cells),
    }
}

// The refusal of memory as one of a row.
fn out_of_memory(error: AllocError) -> BinaryRowError {
    BinaryRowError::Wire(WireError::Memory(error))
}

// The values of a row in binary form, read one by one.
fn owned_binary_row(
    alloc: Global,
    columns: &[Column],
    buffer: &mut ParseBuf<'_>,
) -> Result<Vec<Value>, BinaryRowError> {
    let mut rest = *buffer;
    let bits = owned_bitmap(columns.len(), &mut rest)?;
    let values = owned_cells(alloc, columns, bits, &mut rest).map_err(BinaryRowError::Wire)?;
    *buffer = rest;
    Ok(values)
}

// The values that follow the bits of NULL.
fn owned_cells(
    alloc: Global,
    columns: &[Column],
    bits: &[u8],
    rest: &mut ParseBuf<'_>,
) -> Result<Vec<Value>, WireError> {
    let mut values = Vec::with_capacity(alloc, columns.len())?;
    for (i, column) in columns.iter().enumerate() {
        let value = if is_null(bits, i) {
            Value::NULL
        } else {
            owned_cell(alloc, Cell::Binary(*column), rest)?
        };
        put_value(&mut values, value)?;
    }
    Ok(values)
}

// Appends a value.
fn put_value(values: &mut Vec<Value>, value: Value) -> Result<(), AllocError> {
    values.push(value)?;
    Ok(())
}

// Reads the bits of NULL of a row of so many columns.
fn compare_bitmap(run: &mut Run, count: usize, bytes: &[u8]) {
    let (mut old, mut new) = (ParseBuf(bytes), ParseBuf(bytes));
    let owned = owned_bitmap(count, &mut old);
    let is_same = match (&owned, &read_null_bitmap(count, &mut new)) {
        (Ok(bits), Ok(bitmap)) => are_same_nulls(count, bits, *bitmap),
        (Err(a), Err(b)) => *a == *b,
        _ => false,
    };
    run.tally
        .take(Call::NullBitmap, owned.kind(), is_same && old == new);
}

// Whether both say of each of so many columns whether it is NULL.
fn are_same_nulls(count: usize, bits: &[u8], bitmap: NullBitmap<'_>) -> bool {
    for i in 0..count {
        if is_null(bits, i) != bitmap.is_null(i) {
            return false;
        }
    }
    true
}

// The bytes of the bits of NULL, by the calls that eat bytes.
fn owned_bitmap<'b>(count: usize, buffer: &mut ParseBuf<'b>) -> Result<&'b [u8], BinaryRowError> {
    let mut rest = *buffer;
    match rest.checked_eat_u8() {
        Some(0) => {}
        Some(header) => return Err(BinaryRowError::BadHeader(header)),
        None => return Err(BinaryRowError::Wire(WireError::UnexpectedEof)),
    }
    let Some(bits) = rest.checked_eat_buf(count.wrapping_add(9) / 8) else {
        return Err(BinaryRowError::Wire(WireError::UnexpectedEof));
    };
    *buffer = rest;
    Ok(bits.0)
}
