//! Rows in binary form.
ghost use Rattle.std.specs.Prelude.{◌≡◌, ◌≤◌, ◌<◌, length, IsOk, OnErr, vec_capacity};
ghost use Rattle.mysql_wire_part.specs.Answer.{IsAnswer};
ghost use Rattle.mysql_wire_part.specs.ParseBuf.{left, read_refusal};
ghost use Rattle.mysql_value_core.specs.BorrowedValue.{owned, owned_values};
ghost use Rattle.mysql_value_core.specs.BinaryRow.{bitmap_bytes, is_null_column, read_bitmap, read_column, read_columns, read_row, row_refusal};

use crate::value::ValueRef;
use crate::value::borrowed_binary::read_binary_value;
use crate::value::side::{SerializationSide, ServerSide};
use mysql_wire_part::{ColumnFlags, ColumnType, ParseBuf, WireError};
use std::alloc::AllocError;
use thiserror::Error;

// The first byte of a row.
const ROW_HEADER: u8 = 0;

/// The error of reading a row in binary form. The buffer is unchanged.
#[derive(Debug, PartialEq, Drop, Error)]
pub enum BinaryRowError {
    /// The first byte of the row, which isn't 0. FE and FF begin the packets that end the rows or
    /// break them off.
    #[error("Bad row header {0}")]
    BadHeader(u8),
    /// The header, the bitmap or a value can't be read, or memory for the cells was refused.
    #[error(transparent)]
    Wire(WireError),
}

impl From<WireError> for BinaryRowError {
    ghost use Rattle.mysql_value_core.specs.declared.value.binary_row.BinaryRowError.TheVariants.{Wire};

    ghost from_gives = { λ wire error. error ≡ Wire wire };

    fn from(error: WireError) -> BinaryRowError {
        BinaryRowError::Wire(error)
    }
}

/// The columns of a row in binary form that are NULL.
#[derive(Clone, Copy)]
pub struct NullBitmap<'b>(&'b [u8]);

impl NullBitmap<'_> {
    /// Whether the column with this index is NULL. If the row has no such column, the result is a
    /// spare bit of the bitmap.
    pub fn is_null(self, index: usize) -> bool
        ensures bit { result ≡ is_null_column (bitmap_bytes self.entry) index }
    {
        let bit = index % 8 + ServerSide::BIT_OFFSET;
        match self.0.get(index / 8 + bit / 8) {
            Some(byte) => *byte & (1 << (bit % 8)) != 0,
            None => false,
        }
    }
}

/// Takes the header and the bitmap of a row of `count` columns off the buffer. The values follow in
/// the buffer: read the value of each column that isn't NULL with [`read_binary_value`]. So a row
/// is read without memory, even if the packets come one after another in one buffer.
///
/// After an error the buffer is unchanged.
pub fn read_null_bitmap<'b>(
    count: usize,
    buf: &mut ParseBuf<'b>,
) -> Result<NullBitmap<'b>, BinaryRowError>
    // It allocates nothing, so it is never out of memory.
    ensures read { IsAnswer (λ bitmap. (bitmap_bytes bitmap, left buf.new)) row_refusal
        (read_bitmap count (left buf.old)) ⊥ result }
    ensures unchanged { OnErr result (left buf.new ≡ left buf.old) }
{
    let [header, rest @ ..] = buf.0 else {
        return Err(BinaryRowError::Wire(WireError::UnexpectedEof));
    };
    if *header != ROW_HEADER {
        return Err(BinaryRowError::BadHeader(*header));
    }
    let len = count / 8 + (count % 8 + ServerSide::BIT_OFFSET + 7) / 8;
    let Some((bitmap, rest)) = rest.split_at_checked(len) else {
        return Err(BinaryRowError::Wire(WireError::UnexpectedEof));
    };
    buf.0 = rest;
    Ok(NullBitmap(bitmap))
}

/// Reads a row in binary form into a vector, and replaces the vector's cells: one cell for each
/// column of `columns`. So many rows can be read into one vector, one after another, and nothing is
/// copied. It allocates only if the vector's capacity is too small for the cells.
///
/// A row begins with its header and is the whole packet. Bytes after its last value are left in the
/// buffer. A column whose bit is set is NULL, whatever its type is. Bits that belong to no column
/// are ignored. On an error the buffer is unchanged, and the vector may hold any cells.
///
/// All rows that are read into one vector have to live as long as the vector. If each packet
/// overwrites the buffer of the packet before it, use [`read_null_bitmap`].
pub fn read_binary_cells_into<'b>(
    columns: &[(ColumnType, ColumnFlags)],
    buf: &mut ParseBuf<'b>,
    cells: &mut Vec<ValueRef<'b>>,
) -> Result<(), BinaryRowError>
    // It can be out of memory only if the vector's capacity is too small and the bitmap can be
    // read.
    ensures read { IsAnswer (λ _. (owned_values cells.new.items, left buf.new)) row_refusal
        (read_row columns.now (left buf.old)) ((vec_capacity cells.old < length columns.now)
        × IsOk (read_bitmap (length columns.now) (left buf.old))) result }
    ensures unchanged { OnErr result (left buf.new ≡ left buf.old) }
    ensures room { vec_capacity cells.old ≤ vec_capacity cells.new }
{
    let mut rest = *buf;
    let bitmap = read_null_bitmap(columns.len(), &mut rest)?;
    eat_columns(columns, bitmap, &mut rest, cells)?;
    *buf = rest;
    Ok(())
}

// The values of the columns. After an error, some of the buffer's bytes may have been taken off.
fn eat_columns<'b>(
    columns: &[(ColumnType, ColumnFlags)],
    bitmap: NullBitmap<'b>,
    buf: &mut ParseBuf<'b>,
    cells: &mut Vec<ValueRef<'b>>,
) -> Result<(), WireError>
    ensures read { IsAnswer (λ _. (owned_values cells.new.items, left buf.new)) read_refusal
        (read_columns (bitmap_bytes bitmap.entry) 0 columns.now (left buf.old))
        (vec_capacity cells.old < length columns.now) result }
    ensures room { vec_capacity cells.old ≤ vec_capacity cells.new }
{
    cells.clear();
    for i in 0..columns.len() {
        let (column, flags) = columns[i];
        let cell = eat_column(bitmap.is_null(i), column, flags, buf)?;
        cells.push(cell).map_err(AllocError::from)?;
    }
    Ok(())
}

// The value of a column.
fn eat_column<'b>(
    is_null: bool,
    column: ColumnType,
    flags: ColumnFlags,
    buf: &mut ParseBuf<'b>,
) -> Result<ValueRef<'b>, WireError>
    ensures read { IsAnswer (λ value. (owned value, left buf.new)) read_refusal
        (read_column is_null (column, flags) (left buf.old)) ⊥ result }
{
    if is_null {
        return Ok(ValueRef::NULL);
    }
    read_binary_value(column, flags, buf)
}
