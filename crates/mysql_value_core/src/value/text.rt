//! Values of rows in text form.
ghost use Rattle.std.specs.Prelude.{◌≡◌, ◌≤◌, ◌<◌, None, OnErr, vec_capacity};
ghost use Rattle.mysql_wire_part.specs.Answer.{IsAnswer};
ghost use Rattle.mysql_wire_part.specs.ParseBuf.{left, read_refusal};
ghost use Rattle.mysql_value_core.specs.BorrowedValue.{owned, owned_values};
ghost use Rattle.mysql_value_core.specs.TextCell.{read_cell, read_cells, ReadsBytes, ReadsACell};
ghost use Rattle.mysql_value_core.specs.declared.value.Value as value;

use crate::value::{Bytes, Value, ValueDeserializer, ValueRef};
use mysql_wire_part::{MyDeserialize, ParseBuf, WireError};
use std::alloc::{AllocError, Global};
use std::marker::PhantomData;

// The byte that is the whole cell of a NULL.
const NULL_CELL: u8 = 0xFB;

// A row usually has at most this many cells.
const USUAL_CELLS: usize = 64;

/// The text form of a value, which is a cell: NULL or bytes.
#[derive(Drop)]
pub struct TextValue;

impl<'de> MyDeserialize<'de> for ValueDeserializer<TextValue> {
    const SIZE: Option<usize> = None;

    ghost SIZE = { None };

    type Ctx = ();

    ghost Seen = { value.Value };

    ghost seen = { λ deserializer. deserializer.0 };

    ghost reads = { λ _ bytes. read_cell bytes };

    ghost takes_memory = { λ _ bytes. ReadsBytes (read_cell bytes) };

    fn deserialize(alloc: Global, _ctx: (), buf: &mut ParseBuf<'de>) -> Result<Self, WireError> {
        let value = eat_cell(alloc, buf)?;
        Ok(ValueDeserializer(value, PhantomData))
    }
}

/// Reads `count` cells. It allocates only if the first cell can be read. It then reserves memory
/// for the least of three numbers of cells: `count`, the number of bytes that are left, and 64. It
/// reserves more as more cells come.
///
/// On an error the buffer is unchanged. The error is that of the first cell that has one, or out of
/// memory.
// It is inlined in programs of any size, as is the reading of a cell in binary form. By calls of
// both, rows take 4 in a hundred more instructions.
#[inline(always)]
pub fn read_text_cells(
    alloc: Global,
    buf: &mut ParseBuf<'_>,
    count: usize,
) -> Result<Vec<Value>, WireError>
    // It can be out of memory if the first cell can be read, even if a later cell is refused.
    ensures read { IsAnswer (λ cells. (cells.items, left buf.new)) read_refusal
        (read_cells count (left buf.old)) (ReadsACell count (left buf.old)) result }
    ensures unchanged { OnErr result (left buf.new ≡ left buf.old) }
{
    let mut rest = *buf;
    let mut cells = Vec::new(alloc);
    for _ in 0..count {
        let cell = eat_cell(alloc, &mut rest)?;
        reserve_once(&mut cells, count.min(rest.0.len().saturating_add(1)))?;
        cells.push(cell).map_err(AllocError::from)?;
    }
    *buf = rest;
    Ok(cells)
}

// Reserves memory for `count` cells, but at most for those of a usual row, if none is reserved yet.
// So a row takes one allocation. A cell has at least one byte, so a caller knows how many can
// follow.
fn reserve_once(cells: &mut Vec<Value>, count: usize) -> Result<(), AllocError>
    ensures { cells.new.items ≡ cells.old.items }
{
    if cells.is_empty() {
        cells.reserve_exact(count.min(USUAL_CELLS))?;
    }
    Ok(())
}

// The cell at the front of the buffer.
fn eat_cell(alloc: Global, buf: &mut ParseBuf<'_>) -> Result<Value, WireError>
    ensures read { IsAnswer (λ cell. (cell, left buf.new)) read_refusal
        (read_cell (left buf.old)) (ReadsBytes (read_cell (left buf.old))) result }
    ensures unchanged { OnErr result (left buf.new ≡ left buf.old) }
{
    if let [NULL_CELL, rest @ ..] = buf.0 {
        buf.0 = rest;
        return Ok(Value::NULL);
    }
    let mut after = *buf;
    let text = after.eat_lenenc_str()?;
    let bytes = Bytes::from(Vec::from_slice(alloc, text)?);
    *buf = after;
    Ok(Value::Bytes(bytes))
}

/// Reads the cell at the front of the buffer. The value borrows its bytes from the buffer, and
/// nothing is copied. After an error the buffer is unchanged.
pub fn read_text_cell<'b>(buf: &mut ParseBuf<'b>) -> Result<ValueRef<'b>, WireError>
    // It allocates nothing, so it is never out of memory.
    ensures read { IsAnswer (λ cell. (owned cell, left buf.new)) read_refusal
        (read_cell (left buf.old)) ⊥ result }
    ensures unchanged { OnErr result (left buf.new ≡ left buf.old) }
{
    if let [NULL_CELL, behind @ ..] = buf.0 {
        buf.0 = behind;
        return Ok(ValueRef::NULL);
    }
    let text = buf.eat_lenenc_str()?;
    Ok(ValueRef::Bytes(text))
}

/// Reads `count` cells into a vector, and replaces the vector's cells. So many rows can be read
/// into one vector, one after another, and nothing is copied. It allocates only if the vector's
/// capacity is too small for the cells and the first cell can be read. On an error the buffer is
/// unchanged, and the vector may hold any cells.
///
/// All rows that are read into one vector have to live as long as the vector. If each packet
/// overwrites the buffer of the packet before it, use [`read_text_cell`].
pub fn read_text_cells_into<'b>(
    buf: &mut ParseBuf<'b>,
    count: usize,
    cells: &mut Vec<ValueRef<'b>>,
) -> Result<(), WireError>
    // It can be out of memory only if the vector's capacity is too small and the first cell can be
    // read.
    ensures read { IsAnswer (λ _. (owned_values cells.new.items, left buf.new)) read_refusal
        (read_cells count (left buf.old))
        ((vec_capacity cells.old < count) × ReadsACell count (left buf.old)) result }
    ensures unchanged { OnErr result (left buf.new ≡ left buf.old) }
    ensures room { vec_capacity cells.old ≤ vec_capacity cells.new }
{
    let mut rest = *buf;
    cells.clear();
    for _ in 0..count {
        let cell = read_text_cell(&mut rest)?;
        cells.push(cell).map_err(AllocError::from)?;
    }
    *buf = rest;
    Ok(())
}
