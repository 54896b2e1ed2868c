//! Borrowed fragments: their floats, their faults, and the length of their text.
ghost use Rattle.std.specs.Prelude.{◌≡◌, ◌+◌, ◌^◌, ◌≤◌, None, IfSome, codes, length, map};
ghost use Rattle.std.specs.List.{flat_map, list_any, sum_by};
ghost use Rattle.mysql_values.specs.BorrowedValue.{owned};
ghost use Rattle.mysql_values.specs.Literal.{is_float};
ghost use Rattle.mysql_binding.specs.LiteralForm.{written_literal};
ghost use Rattle.mysql_binding.specs.MeasuredText.{IsOfFields};
ghost use Rattle.mysql_binding.specs.PushedLiteral.{AreKnownUnlessFloats};
ghost use Rattle.mysql_fragments.specs.BorrowedFragments.{cell_item, cell_rows};
ghost use Rattle.mysql_fragments.specs.BorrowedText.{borrowed_fault, borrowed_text, borrowed_values, cell_row_text, cell_values, cells_fault, cells_text, first_borrowed_fault_from, first_borrowed_float_from, has_borrowed_float, has_float_cell};
ghost use Rattle.mysql_fragments.specs.FragmentText.{joined};

use crate::fragment_ref::FragmentRef;
use crate::fragments_error::FragmentFault;
use crate::measured::{with_fragment, with_literal, with_more, with_separator};
use crate::rows_ref::RowsRef;
use crate::written::has_float;
use mysql_binding::LiteralForm;
use mysql_values::value::ValueRef;

/// The place of the first borrowed fragment with a float.
pub(crate) fn first_borrowed_float(fragments: &[FragmentRef<'_>]) -> Option<usize>
    ensures { result ≡ first_borrowed_float_from 0 fragments.now }
{
    for (place, fragment) in fragments.iter().enumerate() {
        if has_borrowed_float(fragment) {
            return Some(place);
        }
    }
    None
}

// Whether a value of the fragment is a float.
fn has_borrowed_float(fragment: &FragmentRef<'_>) -> bool
    ensures { result ≡ has_borrowed_float fragment.now }
{
    match fragment {
        FragmentRef::Owned(fragment) => has_float(*fragment),
        FragmentRef::Value(value) => is_float(*value),
        FragmentRef::List(cells) => has_float_cell(*cells),
        FragmentRef::Rows(rows) => has_float_row(rows),
    }
}

// Whether the value is a float.
fn is_float(value: ValueRef<'_>) -> bool
    ensures { result ≡ is_float (owned value.entry) }
{
    matches!(value, ValueRef::Float(_) | ValueRef::Double(_))
}

// Whether a cell is a float.
fn has_float_cell(cells: &[ValueRef<'_>]) -> bool
    ensures { result ≡ has_float_cell cells.now }
{
    for cell in cells {
        if is_float(*cell) {
            return true;
        }
    }
    false
}

// Whether a cell of a row is a float.
fn has_float_row(rows: &RowsRef<'_>) -> bool
    ensures { result ≡ list_any has_float_cell (cell_rows rows.now) }
{
    for r in 0..rows.len() {
        if has_float_cell(rows.row(r)) {
            return true;
        }
    }
    false
}

/// The place of the first borrowed fragment that can't be written, and its fault.
pub(crate) fn first_borrowed_fault(fragments: &[FragmentRef<'_>]) -> Option<(usize, FragmentFault)>
    ensures { result ≡ first_borrowed_fault_from 0 fragments.now }
{
    for (place, fragment) in fragments.iter().enumerate() {
        if let Some(fault) = borrowed_fault(fragment) {
            return Some((place, fault));
        }
    }
    None
}

// Why the fragment can't be written.
fn borrowed_fault(fragment: &FragmentRef<'_>) -> Option<FragmentFault>
    ensures { result ≡ borrowed_fault fragment.now }
{
    match fragment {
        FragmentRef::Owned(fragment) => fragment.fault(),
        FragmentRef::List(cells) => cells_fault(*cells),
        FragmentRef::Value(_) | FragmentRef::Rows(_) => None,
    }
}

// The fault of a list.
fn cells_fault(cells: &[ValueRef<'_>]) -> Option<FragmentFault>
    ensures { result ≡ cells_fault cells.now }
{
    match cells {
        [] => Some(FragmentFault::Empty),
        [_, ..] => None,
    }
}

/// The length of a text: of the query's pieces, which have `piece_bytes` bytes, and of the
/// fragments between them, their values as literals in a form. `None` if it is above `isize::MAX`.
pub(crate) fn borrowed_len<F: LiteralForm>(
    piece_bytes: usize,
    fragments: &[FragmentRef<'_>],
    form: &F,
) -> Option<usize>
    ensures len { IfSome result (λ len. len ≡ piece_bytes + sum_by length
        (map (borrowed_text (written_literal (F.literal form.now))) fragments.now)) }
    ensures too_long { result ≡ None → 2 ^ 63 ≤ piece_bytes + sum_by length
        (map (borrowed_text (written_literal (F.literal form.now))) fragments.now) }
    ensures known { IfSome result (λ len. AreKnownUnlessFloats (F.literal form.now) IsOfFields
        (flat_map borrowed_values fragments.now)) }
{
    let mut len = piece_bytes;
    for fragment in fragments {
        len = with_borrowed(len, fragment, form)?;
    }
    Some(len)
}

// The length with that of a fragment.
fn with_borrowed<F: LiteralForm>(len: usize, fragment: &FragmentRef<'_>, form: &F) -> Option<usize>
    ensures len { IfSome result (λ sum. sum
        ≡ len + length (borrowed_text (written_literal (F.literal form.now)) fragment.now)) }
    ensures too_long { result ≡ None → 2 ^ 63
        ≤ len + length (borrowed_text (written_literal (F.literal form.now)) fragment.now) }
    ensures known { IfSome result (λ sum. AreKnownUnlessFloats (F.literal form.now) IsOfFields
        (borrowed_values fragment.now)) }
{
    match fragment {
        FragmentRef::Owned(fragment) => with_fragment(len, *fragment, form),
        FragmentRef::Value(value) => with_literal(len, *value, form),
        FragmentRef::List(cells) => with_cells(len, *cells, form),
        FragmentRef::Rows(rows) => with_cell_rows(len, rows, form),
    }
}

// The length with that of cells with commas between them.
fn with_cells<F: LiteralForm>(len: usize, cells: &[ValueRef<'_>], form: &F) -> Option<usize>
    ensures len { IfSome result (λ sum. sum
        ≡ len + length (cells_text (written_literal (F.literal form.now)) cells.now)) }
    ensures too_long { result ≡ None → 2 ^ 63
        ≤ len + length (cells_text (written_literal (F.literal form.now)) cells.now) }
    ensures known { IfSome result (λ sum. AreKnownUnlessFloats (F.literal form.now) IsOfFields
        (cell_values cells.now)) }
{
    let mut sum = len;
    for (i, cell) in cells.iter().enumerate() {
        sum = with_separator(sum, i, b", ")?;
        sum = with_literal(sum, *cell, form)?;
    }
    Some(sum)
}

// The length with that of rows in brackets with commas between them.
fn with_cell_rows<F: LiteralForm>(len: usize, rows: &RowsRef<'_>, form: &F) -> Option<usize>
    ensures len { IfSome result (λ sum. sum ≡ len + length (joined (codes ", ")
        (map (cell_row_text (written_literal (F.literal form.now))) (cell_rows rows.now)))) }
    ensures too_long { result ≡ None → 2 ^ 63 ≤ len + length (joined (codes ", ")
        (map (cell_row_text (written_literal (F.literal form.now))) (cell_rows rows.now))) }
    ensures known { IfSome result (λ sum. AreKnownUnlessFloats (F.literal form.now) IsOfFields
        (flat_map cell_values (cell_rows rows.now))) }
{
    let mut sum = len;
    for r in 0..rows.len() {
        sum = with_separator(sum, r, b", ")?;
        sum = with_cell_row(sum, rows.row(r), form)?;
    }
    Some(sum)
}

// The length with that of a row in brackets.
fn with_cell_row<F: LiteralForm>(len: usize, row: &[ValueRef<'_>], form: &F) -> Option<usize>
    ensures len { IfSome result (λ sum. sum
        ≡ len + length (cell_row_text (written_literal (F.literal form.now)) row.now)) }
    ensures too_long { result ≡ None → 2 ^ 63
        ≤ len + length (cell_row_text (written_literal (F.literal form.now)) row.now) }
    ensures known { IfSome result (λ sum. AreKnownUnlessFloats (F.literal form.now) IsOfFields
        (cell_values row.now)) }
{
    let sum = with_cells(len, row, form)?;
    with_more(sum, 2)
}
