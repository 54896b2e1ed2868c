//! Laws about the types of this crate. Each is the contract of a function.
ghost use Rattle.std.specs.Prelude.{◌≡◌, ◌↔◌, IsTrue};
ghost use Rattle.mysql_wire_part.specs.ParseBuf.{left};

use crate::column::{ColumnFlags, ColumnType};
use crate::error::WireError;
use crate::parse_buf::ParseBuf;

/// Buffers are equal if and only if the bytes that are left are equal.
pub fn parse_buf_equality(a: &ParseBuf<'_>, b: &ParseBuf<'_>) -> bool
    ensures same { IsTrue result ↔ (left a.now ≡ left b.now) }
    ensures member { result ≡ ⟦<ParseBuf<'static> as PartialEq>⟧.eq a.now b.now }
{
    a == b
}

/// Column types are equal if and only if the variants are equal.
pub fn column_type_equality(a: &ColumnType, b: &ColumnType) -> bool
    ensures same { IsTrue result ↔ (a.now ≡ b.now) }
    ensures member { result ≡ ⟦<ColumnType as PartialEq>⟧.eq a.now b.now }
{
    a == b
}

/// Column flags are equal if and only if all their bits are equal.
pub fn column_flags_equality(a: &ColumnFlags, b: &ColumnFlags) -> bool
    ensures same { IsTrue result ↔ (a.now ≡ b.now) }
    ensures member { result ≡ ⟦<ColumnFlags as PartialEq>⟧.eq a.now b.now }
{
    a == b
}

/// Errors are equal if and only if variant and fields are equal.
pub fn wire_error_equality(a: &WireError, b: &WireError) -> bool
    ensures same { IsTrue result ↔ (a.now ≡ b.now) }
    ensures member { result ≡ ⟦<WireError as PartialEq>⟧.eq a.now b.now }
{
    a == b
}
