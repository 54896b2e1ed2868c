//! The error of reading from a buffer.
ghost use Rattle.std.specs.Prelude.{◌≡◌, alloc_error};
ghost use Rattle.mysql_wire_part.specs.declared.error.WireError.TheVariants.{Memory};

use crate::column::ColumnType;
use std::alloc::AllocError;
use thiserror::Error;

/// The error of reading from a buffer. The buffer is unchanged.
#[derive(Debug, PartialEq, Drop, Error)]
pub enum WireError {
    /// The buffer has fewer bytes left than needed.
    #[error("Unexpected end of buffer")]
    UnexpectedEof,
    /// A length is expected, and it can't begin with this byte: 251 (FB) or 255 (FF).
    #[error("Bad length lead {0}")]
    BadLengthLead(u8),
    /// Values of this column type can't be read.
    #[error("Unsupported column type")]
    UnsupportedColumn(ColumnType),
    /// Memory for the value was refused.
    #[error("out of memory")]
    Memory(AllocError),
}

impl From<AllocError> for WireError {
    ghost from_gives = { λ _ error. error ≡ Memory alloc_error };

    fn from(error: AllocError) -> WireError {
        WireError::Memory(error)
    }
}
