//! Rows of borrowed values in one slice.
ghost use Rattle.std.specs.Prelude.{◌≡◌, ◌*◌, ◌<◌, None, Some, IfErr, IfOk, drop, length, take};
ghost use Rattle.mysql_fragments.specs.RowShape.{shape_fault};

use crate::fragments_error::FragmentFault;
use mysql_values::value::ValueRef;

/// Rows of borrowed values in one slice, one row after another, all of one length.
#[derive(Clone, Copy)]
pub struct RowsRef<'v> {
    cells: &'v [ValueRef<'v>],
    width: usize,
    count: usize,
    ghost shape: { (length cells.now ≡ count * width) × (0 < count) × (0 < width) },
}

impl<'v> RowsRef<'v> {
    /// The rows of these cells, with `width` cells in each.
    ///
    /// An empty slice is refused as `Empty`, and a width of 0 as `EmptyRow`. If the number of cells
    /// isn't a multiple of the width, they are refused as `RowLength`, with the number of the last
    /// row. That number is 0 if there are fewer cells than the width.
    pub fn new(cells: &'v [ValueRef<'v>], width: usize) -> Result<RowsRef<'v>, FragmentFault>
        ensures made { IfOk result (λ rows. (rows.cells.now ≡ cells.now) × (rows.width ≡ width)
            × (length cells.now ≡ rows.count * width)) }
        ensures has_shape { IfOk result (λ rows. shape_fault (length cells.now) width ≡ None) }
        ensures refused { IfErr result (λ fault.
            shape_fault (length cells.now) width ≡ Some fault) }
    {
        if cells.len() == 0 {
            return Err(FragmentFault::Empty);
        }
        if width == 0 {
            return Err(FragmentFault::EmptyRow { row: 0 });
        }
        let count = cells.len() / width;
        if cells.len() % width == 0 {
            Ok(RowsRef {
                cells,
                width,
                count,
            })
        } else {
            Err(FragmentFault::RowLength { row: count })
        }
    }

    /// The number of rows.
    pub fn len(&self) -> usize
        ensures { result ≡ self.now.count }
    {
        self.count
    }

    /// The row with this number.
    pub(crate) fn row(&self, r: usize) -> &'v [ValueRef<'v>]
        requires { r < self.now.count }
        ensures { result.now ≡ take self.now.width (drop (r * self.now.width) self.now.cells.now) }
    {
        let start = r * self.width;
        &self.cells[start..start + self.width]
    }
}
