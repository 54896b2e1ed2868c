//! Rows of values, kept in the form's own bytes.
ghost use Rattle.std.specs.Prelude.{◌≡◌, ◌*◌, ◌<◌, length};

use mysql_fragments::RowsRef;
use mysql_values::value::ValueRef;

/// Rows of values, one row after another, all of one length.
#[derive(Drop)]
pub(crate) struct RowsInPlace<'f> {
    pub(crate) cells: Vec<ValueRef<'f>>,
    pub(crate) width: usize,
    pub(crate) count: usize,
    pub(crate) ghost shape: { (length cells.items ≡ count * width) × (0 < count) × (0 < width) },
}

impl<'f> RowsInPlace<'f> {
    /// The same rows, borrowed.
    pub(crate) fn lent(&self) -> RowsRef<'_>
        ensures { (result.cells.now ≡ self.now.cells.items) × (result.width ≡ self.now.width) }
    {
        match RowsRef::new(self.cells.as_slice(), self.width) {
            Ok(rows) => rows,
            Err(_) => unreachable!(),
        }
    }
}
