//! Queries with borrowed fragments in their places and their values as literals, written at once
//! into a slice of exactly their length.
ghost use Rattle.std.specs.Prelude.{◌≡◌, ◌+◌, ◌++◌, ◌≤◌, Some, IfOk, codes, length, map, take};
ghost use Rattle.std.specs.List.{flat_map, sum_by};
ghost use Rattle.mysql_named_params.specs.Places.{place_count};
ghost use Rattle.mysql_binding.specs.LiteralForm.{written_literal};
ghost use Rattle.mysql_binding.specs.Pieces.{pieces, joined_text};
ghost use Rattle.mysql_binding.specs.PushedLiteral.{AreKnownUnlessFloats};
ghost use Rattle.mysql_binding.specs.SurveyedQuery.{OnSurveyed};
ghost use Rattle.mysql_binding.specs.TextLength.{pieces_len};
ghost use Rattle.mysql_fragments.specs.BorrowedFragments.{cell_rows};
ghost use Rattle.mysql_fragments.specs.BorrowedText.{borrowed_text, borrowed_values, cell_row_text, cell_values, cells_text};
ghost use Rattle.mysql_fragments.specs.FragmentText.{joined};

use crate::appended::append_filled;
use crate::borrowed::borrowed_len;
use crate::fragment_ref::FragmentRef;
use crate::names::append_separator;
use crate::rows_ref::RowsRef;
use mysql_binding::{LiteralForm, SurveyedQuery, append_piece, place_after, put_literal};
use mysql_values::value::ValueRef;
use std::alloc::{AllocError, Global};

/// The query with the texts of borrowed fragments in its places. There are as many fragments as
/// places.
pub(crate) fn filled_borrowed<F: LiteralForm>(
    alloc: Global,
    surveyed: &SurveyedQuery<'_>,
    fragments: &[FragmentRef<'_>],
    form: &F,
) -> Result<Vec<u8>, AllocError>
    requires places { surveyed.now.survey.names + surveyed.now.survey.marks ≡ length fragments.now }
    ensures text { IfOk result (λ text. OnSurveyed surveyed.now (λ ts.
        joined_text (pieces ts) (map (borrowed_text (written_literal (F.literal form.now)))
        fragments.now) ≡ Some text.items)) }
    ensures known { IfOk result (λ text. AreKnownUnlessFloats (F.literal form.now)
        (F.IsKnown form.now) (flat_map borrowed_values fragments.now)) }
{
    let Some(len) = borrowed_len(surveyed.survey.piece_bytes, fragments, form) else {
        return Err(AllocError);
    };
    let mut text = vec![in alloc; 0u8; len]?;
    fill_borrowed(surveyed, fragments, form, text.as_mut_slice());
    Ok(text)
}

/// Fills `text` with the pieces of the query and, between them, the texts of borrowed fragments.
/// Its length is exactly theirs.
pub(crate) fn fill_borrowed<F: LiteralForm>(
    surveyed: &SurveyedQuery<'_>,
    fragments: &[FragmentRef<'_>],
    form: &F,
    text: &mut [u8],
)
    requires places { OnSurveyed surveyed.now (λ ts.
        length fragments.now ≡ place_count ts) }
    requires room { OnSurveyed surveyed.now (λ ts. length text.old
        ≡ pieces_len ts + sum_by length (map (borrowed_text (written_literal (F.literal form.now)))
        fragments.now)) }
    ensures text { OnSurveyed surveyed.now (λ ts. joined_text (pieces ts)
        (map (borrowed_text (written_literal (F.literal form.now))) fragments.now)
        ≡ Some text.new) }
    ensures known { AreKnownUnlessFloats (F.literal form.now) (F.IsKnown form.now)
        (flat_map borrowed_values fragments.now) }
{
    let mut rest = surveyed.query;
    let mut at = 0;
    for (i, fragment) in fragments.iter().enumerate() {
        let Some(found) = place_after(surveyed.known, i, rest, surveyed.reading) else {
            unreachable!()
        };
        let (piece, _, after) = found.cut(rest);
        at = append_piece(text, at, piece);
        at = append_borrowed(text, at, fragment, form);
        rest = after;
    }
    append_piece(text, at, rest);
}

// Writes the text of a fragment with the literals of its values into `text` from index `at` on, and
// returns the index after it. The bytes before `at` are kept.
fn append_borrowed<F: LiteralForm>(
    text: &mut [u8],
    at: usize,
    fragment: &FragmentRef<'_>,
    form: &F,
) -> usize
    requires room { at + length (borrowed_text (written_literal (F.literal form.now)) fragment.now)
        ≤ length text.old }
    ensures next { result
        ≡ at + length (borrowed_text (written_literal (F.literal form.now)) fragment.now) }
    ensures front { take result text.new ≡ take at text.old
        ++ borrowed_text (written_literal (F.literal form.now)) fragment.now }
    ensures known { AreKnownUnlessFloats (F.literal form.now) (F.IsKnown form.now)
        (borrowed_values fragment.now) }
{
    match fragment {
        FragmentRef::Owned(fragment) => append_filled(text, at, *fragment, form),
        FragmentRef::Value(value) => put_literal(text, at, *value, form),
        FragmentRef::List(cells) => append_cells(text, at, *cells, form),
        FragmentRef::Rows(rows) => append_cell_rows(text, at, rows, form),
    }
}

// Writes cells with commas between them, and returns the index after them.
fn append_cells<F: LiteralForm>(
    text: &mut [u8],
    at: usize,
    cells: &[ValueRef<'_>],
    form: &F,
) -> usize
    requires room { at + length (cells_text (written_literal (F.literal form.now)) cells.now)
        ≤ length text.old }
    ensures next { result
        ≡ at + length (cells_text (written_literal (F.literal form.now)) cells.now) }
    ensures front { take result text.new ≡ take at text.old
        ++ cells_text (written_literal (F.literal form.now)) cells.now }
    ensures known { AreKnownUnlessFloats (F.literal form.now) (F.IsKnown form.now)
        (cell_values cells.now) }
{
    let mut end = at;
    for (i, cell) in cells.iter().enumerate() {
        end = append_separator(text, end, i, b", ");
        end = put_literal(text, end, *cell, form);
    }
    end
}

// Writes rows in brackets with commas between them, and returns the index after them.
fn append_cell_rows<F: LiteralForm>(
    text: &mut [u8],
    at: usize,
    rows: &RowsRef<'_>,
    form: &F,
) -> usize
    requires room { at + length (joined (codes ", ")
        (map (cell_row_text (written_literal (F.literal form.now))) (cell_rows rows.now)))
        ≤ length text.old }
    ensures next { result ≡ at + length (joined (codes ", ")
        (map (cell_row_text (written_literal (F.literal form.now))) (cell_rows rows.now))) }
    ensures front { take result text.new ≡ take at text.old ++ joined (codes ", ")
        (map (cell_row_text (written_literal (F.literal form.now))) (cell_rows rows.now)) }
    ensures known { AreKnownUnlessFloats (F.literal form.now) (F.IsKnown form.now)
        (flat_map cell_values (cell_rows rows.now)) }
{
    let mut end = at;
    for r in 0..rows.len() {
        end = append_separator(text, end, r, b", ");
        end = append_cell_row(text, end, rows.row(r), form);
    }
    end
}

// Writes a row in brackets, and returns the index after it.
fn append_cell_row<F: LiteralForm>(
    text: &mut [u8],
    at: usize,
    row: &[ValueRef<'_>],
    form: &F,
) -> usize
    requires room { at + length (cell_row_text (written_literal (F.literal form.now)) row.now)
        ≤ length text.old }
    ensures next { result
        ≡ at + length (cell_row_text (written_literal (F.literal form.now)) row.now) }
    ensures front { take result text.new ≡ take at text.old
        ++ cell_row_text (written_literal (F.literal form.now)) row.now }
    ensures known { AreKnownUnlessFloats (F.literal form.now) (F.IsKnown form.now)
        (cell_values row.now) }
{
    let start = append_piece(text, at, b"(");
    let end = append_cells(text, start, row, form);
    append_piece(text, end, b")")
}
