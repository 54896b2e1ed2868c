//! Laws about rows in binary form.
ghost use Rattle.std.specs.Prelude.{◌≡◌, ◌↔◌, ℕ, IsTrue, List, length};
ghost use Rattle.mysql_value_core.specs.BinaryRow.{Column, SaySameNulls, read_columns};
ghost use Rattle.mysql_value_core.specs.BinaryRowReadBack.{RowReadsBack};
ghost use Rattle.mysql_value_core.specs.declared.value.Value as value;

use crate::value::BinaryRowError;

/// A row that is written in binary form is read back, with each bitmap that says which of its
/// values are NULL. Any bytes may follow it.
pub fn binary_rows_read_back()
    ensures reads_back { (columns : List Column) (bitmap : List ℕ) (values : List value.Value)
        → RowReadsBack columns bitmap values }
{}

/// The bits of the bitmap that belong to no column have no effect. If two bitmaps are the same for
/// the columns, they give the same cells.
pub fn spare_null_bits_say_nothing()
    ensures same { (columns : List Column) (bitmap bitmap' bytes : List ℕ)
        → SaySameNulls (length columns) bitmap bitmap'
        → read_columns bitmap 0 columns bytes ≡ read_columns bitmap' 0 columns bytes }
{}

/// Errors are equal if and only if variant and fields are equal.
pub fn binary_row_error_equality(a: &BinaryRowError, b: &BinaryRowError) -> bool
    ensures same { IsTrue result ↔ (a.now ≡ b.now) }
    ensures member { result ≡ ⟦<BinaryRowError as PartialEq>⟧.eq a.now b.now }
{
    a == b
}
