//! Cells of rows in text form, as things of any type that values convert to.
ghost use Rattle.std.specs.Prelude.{◌≡◌, Ok, Some, IfErr, IfOk};
ghost use Rattle.std.specs.Option.{option_map};
ghost use Rattle.mysql_wire_part.specs.ParseBuf.{left};
ghost use Rattle.mysql_values.specs.TextCell.{read_cell};
ghost use Rattle.mysql_values.specs.declared.value.Value as value;
ghost use Rattle.shop_example.specs.Cell.{IsCellRefusal};

use mysql_values::value::convert::{FromValue, FromValueError, from_value_opt};
use mysql_values::value::{TextValue, ValueDeserializer};
use mysql_wire_part::{MyDeserialize, ParseBuf, WireError};
use std::alloc::Global;
use thiserror::Error;

/// Why a cell gave nothing.
#[derive(Debug, PartialEq, Drop, Error)]
pub enum CellError {
    #[error(transparent)]
    Wire(WireError),
    #[error(transparent)]
    Value(FromValueError),
}

/// What the next cell converts to. A cell that doesn't convert is taken off the buffer too, and the
/// error has its value; on an error of the wire the buffer is unchanged.
pub fn cell<T: FromValue>(alloc: Global, buf: &mut ParseBuf<'_>) -> Result<T, CellError>
    ensures read { IfOk result (λ x. (cell : value.Value)
        × (read_cell (left buf.old) ≡ Ok (cell, left buf.new))
        × (option_map T.commit (T.conversion cell) ≡ Some (T.seen x))) }
    ensures refused { IfErr result
        (IsCellRefusal T.conversion (left buf.old) (left buf.new)) }
{
    let value = match ValueDeserializer::<TextValue>::deserialize(alloc, (), buf) {
        Ok(cell) => cell.0,
        Err(error) => return Err(CellError::Wire(error)),
    };
    // `from_value` requires that the value converts, which nobody knows of a cell.
    match from_value_opt(value) {
        Ok(x) => Ok(x),
        Err(error) => Err(CellError::Value(error)),
    }
}
