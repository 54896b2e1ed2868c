//! Fragments with the literals of their values, written into a slice that has room for them.
ghost use Rattle.std.specs.Prelude.{◌≡◌, ◌+◌, ◌++◌, ◌≤◌, codes, length, map, take};
ghost use Rattle.std.specs.List.{flat_map};
ghost use Rattle.mysql_binding.specs.LiteralForm.{written_literal};
ghost use Rattle.mysql_binding.specs.PushedLiteral.{AreKnownUnlessFloats};
ghost use Rattle.mysql_fragments.specs.FragmentText.{assignment_values, filled_assignment, filled_assignments, filled_item, filled_items, filled_row, filled_text, fragment_values, item_values, joined};

use crate::fragment::{ColumnAssignment, Fragment, Item};
use crate::names::{append_columns, append_identifier, append_names, append_separator};
use mysql_binding::{LiteralForm, append_piece, put_literal};

/// Writes the text of a fragment with the literals of its values into `text` from index `at` on,
/// and returns the index after it. The bytes before `at` are kept.
pub(crate) fn append_filled<F: LiteralForm>(
    text: &mut [u8],
    at: usize,
    fragment: &Fragment,
    form: &F,
) -> usize
    requires room { at + length (filled_text (written_literal (F.literal form.now)) fragment.now)
        ≤ length text.old }
    ensures next { result
        ≡ at + length (filled_text (written_literal (F.literal form.now)) fragment.now) }
    ensures front { take result text.new ≡ take at text.old
        ++ filled_text (written_literal (F.literal form.now)) fragment.now }
    ensures known { AreKnownUnlessFloats (F.literal form.now) (F.IsKnown form.now)
        (fragment_values fragment.now) }
{
    match fragment {
        Fragment::Value(value) => put_literal(text, at, value, form),
        Fragment::List(items) => append_items(text, at, items.as_slice(), form),
        Fragment::Rows(rows) => append_rows(text, at, rows.as_slice(), form),
        Fragment::Decimal(number) => append_piece(text, at, number.as_slice()),
        Fragment::Double(double) => append_piece(text, at, double.as_bytes()),
        Fragment::Identifier(name) => append_identifier(text, at, name.as_slice()),
        Fragment::Qualified(names) => append_names(text, at, names.as_slice()),
        Fragment::Keyword(word) => append_piece(text, at, word.as_bytes()),
        Fragment::Identifiers(columns) => append_columns(text, at, columns.as_slice()),
        Fragment::Assignments(assignments) => {
            append_assignments(text, at, assignments.as_slice(), form)
        }
    }
}

// Writes an item, and returns the index after it: the literal of a value.
fn append_item<F: LiteralForm>(text: &mut [u8], at: usize, item: &Item, form: &F) -> usize
    requires room { at + length (filled_item (written_literal (F.literal form.now)) item.now)
        ≤ length text.old }
    ensures next { result
        ≡ at + length (filled_item (written_literal (F.literal form.now)) item.now) }
    ensures front { take result text.new ≡ take at text.old
        ++ filled_item (written_literal (F.literal form.now)) item.now }
    ensures known { AreKnownUnlessFloats (F.literal form.now) (F.IsKnown form.now)
        (item_values item.now) }
{
    match item {
        Item::Value(value) => put_literal(text, at, value, form),
        Item::Decimal(number) => append_piece(text, at, number.as_slice()),
        Item::Double(double) => append_piece(text, at, double.as_bytes()),
    }
}

// Writes items with commas between them, and returns the index after them.
fn append_items<F: LiteralForm>(text: &mut [u8], at: usize, items: &[Item], form: &F) -> usize
    requires room { at + length (filled_items (written_literal (F.literal form.now)) items.now)
        ≤ length text.old }
    ensures next { result
        ≡ at + length (filled_items (written_literal (F.literal form.now)) items.now) }
    ensures front { take result text.new ≡ take at text.old
        ++ filled_items (written_literal (F.literal form.now)) items.now }
    ensures known { AreKnownUnlessFloats (F.literal form.now) (F.IsKnown form.now)
        (flat_map item_values items.now) }
{
    let mut end = at;
    for (i, item) in items.iter().enumerate() {
        end = append_separator(text, end, i, b", ");
        end = append_item(text, end, item, form);
    }
    end
}

// Writes rows in brackets with commas between them, and returns the index after them.
fn append_rows<F: LiteralForm>(text: &mut [u8], at: usize, rows: &[Vec<Item>], form: &F) -> usize
    requires room { at + length (joined (codes ", ")
        (map (filled_row (written_literal (F.literal form.now))) rows.now)) ≤ length text.old }
    ensures next { result ≡ at + length (joined (codes ", ")
        (map (filled_row (written_literal (F.literal form.now))) rows.now)) }
    ensures front { take result text.new ≡ take at text.old ++ joined (codes ", ")
        (map (filled_row (written_literal (F.literal form.now))) rows.now) }
    ensures known { AreKnownUnlessFloats (F.literal form.now) (F.IsKnown form.now)
        (flat_map (λ row. flat_map item_values row.items) rows.now) }
{
    let mut end = at;
    for (i, row) in rows.iter().enumerate() {
        end = append_separator(text, end, i, b", ");
        end = append_row(text, end, row, form);
    }
    end
}

// Writes a row in brackets, and returns the index after it.
fn append_row<F: LiteralForm>(text: &mut [u8], at: usize, row: &Vec<Item>, form: &F) -> usize
    requires room { at + length (filled_row (written_literal (F.literal form.now)) row.now)
        ≤ length text.old }
    ensures next { result
        ≡ at + length (filled_row (written_literal (F.literal form.now)) row.now) }
    ensures front { take result text.new ≡ take at text.old
        ++ filled_row (written_literal (F.literal form.now)) row.now }
    ensures known { AreKnownUnlessFloats (F.literal form.now) (F.IsKnown form.now)
        (flat_map item_values row.now.items) }
{
    let start = append_piece(text, at, b"(");
    let end = append_items(text, start, row.as_slice(), form);
    append_piece(text, end, b")")
}

// Writes assignments with commas between them, and returns the index after them.
fn append_assignments<F: LiteralForm>(
    text: &mut [u8],
    at: usize,
    assignments: &[ColumnAssignment],
    form: &F,
) -> usize
    requires room { at + length
        (filled_assignments (written_literal (F.literal form.now)) assignments.now)
        ≤ length text.old }
    ensures next { result ≡ at + length
        (filled_assignments (written_literal (F.literal form.now)) assignments.now) }
    ensures front { take result text.new ≡ take at text.old
        ++ filled_assignments (written_literal (F.literal form.now)) assignments.now }
    ensures known { AreKnownUnlessFloats (F.literal form.now) (F.IsKnown form.now)
        (flat_map assignment_values assignments.now) }
{
    let mut end = at;
    for (i, assignment) in assignments.iter().enumerate() {
        end = append_separator(text, end, i, b", ");
        end = append_assignment(text, end, assignment, form);
    }
    end
}

// Writes an assignment, and returns the index after it.
fn append_assignment<F: LiteralForm>(
    text: &mut [u8],
    at: usize,
    assignment: &ColumnAssignment,
    form: &F,
) -> usize
    requires room { at + length
        (filled_assignment (written_literal (F.literal form.now)) assignment.now)
        ≤ length text.old }
    ensures next { result ≡ at + length
        (filled_assignment (written_literal (F.literal form.now)) assignment.now) }
    ensures front { take result text.new ≡ take at text.old
        ++ filled_assignment (written_literal (F.literal form.now)) assignment.now }
    ensures known { AreKnownUnlessFloats (F.literal form.now) (F.IsKnown form.now)
        (assignment_values assignment.now) }
{
    let column_end = append_names(text, at, assignment.column.as_slice());
    let start = append_piece(text, column_end, b" = ");
    append_item(text, start, &assignment.item, form)
}
