//! The cells of a row, which borrow their bytes, and the values of cells.
ghost use Rattle.std.specs.Prelude.{◌≡◌, List, map, Some, IfOk, IfSome, length, option_map};
ghost use Rattle.mysql_values.specs.BorrowedValue.{owned};
ghost use Rattle.mysql_bind_core.specs.Cells.{AreAssigned, cell_value, value_said};

use crate::assignment::Assignment;
use crate::value_type::{ValueType, lent_value, typed_value};
use mysql_values::value::{Value, ValueRef};
use std::alloc::{AllocError, Global};

/// The bytes that a source has for a column in one row.
#[derive(Debug, Clone, Copy)]
pub struct Cell<'c> {
    /// How the bytes are interpreted.
    pub value_type: ValueType,
    /// The bytes of the source, borrowed.
    pub bytes: &'c [u8],
}

// The value of a cell. It borrows the cell's bytes, or owns bytes that were decoded from them.
#[derive(Drop)]
pub(crate) enum CellValue<'c> {
    Lent(ValueRef<'c>),
    Made(Value),
}

impl CellValue<'_> {
    // The value.
    pub(crate) fn borrowed(&self) -> ValueRef<'_>
        ensures { owned result ≡ value_said self.now }
    {
        match self {
            CellValue::Lent(value) => *value,
            CellValue::Made(value) => value.borrowed(),
        }
    }
}

// The value of a cell, if its bytes have one of its type. Memory is taken only for decoded bytes.
fn cell_value<'c>(alloc: Global, cell: Cell<'c>) -> Result<Option<CellValue<'c>>, AllocError>
    ensures { IfOk result (λ found. option_map value_said found ≡ cell_value cell.entry) }
{
    if let Some(value) = lent_value(cell.value_type, cell.bytes) {
        return Ok(Some(CellValue::Lent(value)));
    }
    match typed_value(alloc, cell.value_type, cell.bytes)? {
        Some(value) => Ok(Some(CellValue::Made(value))),
        None => Ok(None),
    }
}

// The value of each cell, if all have one.
pub(crate) fn cell_values<'c>(
    alloc: Global,
    cells: &[Cell<'c>],
) -> Result<Option<Vec<CellValue<'c>>>, AllocError>
    ensures { IfOk result (λ found. IfSome found (λ values.
        map cell_value cells.now ≡ map (λ value. Some (value_said value)) values.items)) }
{
    let mut values = Vec::with_capacity(alloc, cells.len())?;
    for cell in cells {
        match cell_value(alloc, *cell)? {
            Some(value) => values.push(value)?,
            None => return Ok(None),
        }
    }
    Ok(Some(values))
}
