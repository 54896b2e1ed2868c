//! The length of a query with fragments in its places and their values as literals, before a byte
//! of it is written. Nothing is allocated. Each function adds a length to the one so far, and
//! returns `None` if the sum is above `isize::MAX`.
ghost use Rattle.std.specs.Prelude.{◌≡◌, ◌+◌, ◌^◌, ◌≤◌, [], ◌∷◌, None, IfSome, codes, length, map};
ghost use Rattle.std.specs.List.{flat_map};
ghost use Rattle.mysql_binding.specs.LiteralForm.{written_literal};
ghost use Rattle.mysql_binding.specs.MeasuredText.{IsOfFields};
ghost use Rattle.mysql_binding.specs.PushedLiteral.{AreKnownUnlessFloats};
ghost use Rattle.mysql_fragments.specs.FilledText.{separator_before};
ghost use Rattle.mysql_fragments.specs.FragmentText.{assignment_values, columns_text, doubled, filled_assignment, filled_assignments, filled_item, filled_items, filled_row, filled_text, fragment_values, identifier_text, item_values, joined};

use crate::fragment::{ColumnAssignment, Fragment, Item};
use mysql_binding::{LiteralForm, LiteralValue, literal_len};

/// The length with that of a fragment.
pub(crate) fn with_fragment<F: LiteralForm>(
    len: usize,
    fragment: &Fragment,
    form: &F,
) -> Option<usize>
    ensures len { IfSome result (λ sum. sum
        ≡ len + length (filled_text (written_literal (F.literal form.now)) fragment.now)) }
    ensures too_long { result ≡ None → 2 ^ 63
        ≤ len + length (filled_text (written_literal (F.literal form.now)) fragment.now) }
    ensures known { IfSome result (λ sum. AreKnownUnlessFloats (F.literal form.now) IsOfFields
        (fragment_values fragment.now)) }
{
    match fragment {
        Fragment::Value(value) => with_literal(len, value, form),
        Fragment::List(items) => with_items(len, items.as_slice(), form),
        Fragment::Rows(rows) => with_rows(len, rows.as_slice(), form),
        Fragment::Decimal(number) => with_more(len, number.len() as u128),
        Fragment::Double(double) => with_more(len, double.as_bytes().len() as u128),
        Fragment::Identifier(name) => with_identifier(len, name.as_slice()),
        Fragment::Qualified(names) => with_names(len, names.as_slice()),
        Fragment::Keyword(word) => with_more(len, word.as_bytes().len() as u128),
        Fragment::Identifiers(columns) => with_columns(len, columns.as_slice()),
        Fragment::Assignments(assignments) => with_assignments(len, assignments.as_slice(), form),
    }
}

// The length with that of an item.
fn with_item<F: LiteralForm>(len: usize, item: &Item, form: &F) -> Option<usize>
    ensures len { IfSome result (λ sum. sum
        ≡ len + length (filled_item (written_literal (F.literal form.now)) item.now)) }
    ensures too_long { result ≡ None → 2 ^ 63
        ≤ len + length (filled_item (written_literal (F.literal form.now)) item.now) }
    ensures known { IfSome result (λ sum. AreKnownUnlessFloats (F.literal form.now) IsOfFields
        (item_values item.now)) }
{
    match item {
        Item::Value(value) => with_literal(len, value, form),
        Item::Decimal(number) => with_more(len, number.len() as u128),
        Item::Double(double) => with_more(len, double.as_bytes().len() as u128),
    }
}

// The length with that of items with commas between them.
fn with_items<F: LiteralForm>(len: usize, items: &[Item], form: &F) -> Option<usize>
    ensures len { IfSome result (λ sum. sum
        ≡ len + length (filled_items (written_literal (F.literal form.now)) items.now)) }
    ensures too_long { result ≡ None → 2 ^ 63
        ≤ len + length (filled_items (written_literal (F.literal form.now)) items.now) }
    ensures known { IfSome result (λ sum. AreKnownUnlessFloats (F.literal form.now) IsOfFields
        (flat_map item_values items.now)) }
{
    let mut sum = len;
    for (i, item) in items.iter().enumerate() {
        sum = with_separator(sum, i, b", ")?;
        sum = with_item(sum, item, form)?;
    }
    Some(sum)
}

// The length with that of rows in brackets with commas between them.
fn with_rows<F: LiteralForm>(len: usize, rows: &[Vec<Item>], form: &F) -> Option<usize>
    ensures len { IfSome result (λ sum. sum ≡ len + length (joined (codes ", ")
        (map (filled_row (written_literal (F.literal form.now))) rows.now))) }
    ensures too_long { result ≡ None → 2 ^ 63 ≤ len + length (joined (codes ", ")
        (map (filled_row (written_literal (F.literal form.now))) rows.now)) }
    ensures known { IfSome result (λ sum. AreKnownUnlessFloats (F.literal form.now) IsOfFields
        (flat_map (λ row. flat_map item_values row.items) rows.now)) }
{
    let mut sum = len;
    for (i, row) in rows.iter().enumerate() {
        sum = with_separator(sum, i, b", ")?;
        sum = with_row(sum, row, form)?;
    }
    Some(sum)
}

// The length with that of a row in brackets.
fn with_row<F: LiteralForm>(len: usize, row: &Vec<Item>, form: &F) -> Option<usize>
    ensures len { IfSome result (λ sum. sum
        ≡ len + length (filled_row (written_literal (F.literal form.now)) row.now)) }
    ensures too_long { result ≡ None → 2 ^ 63
        ≤ len + length (filled_row (written_literal (F.literal form.now)) row.now) }
    ensures known { IfSome result (λ sum. AreKnownUnlessFloats (F.literal form.now) IsOfFields
        (flat_map item_values row.now.items)) }
{
    let sum = with_items(len, row.as_slice(), form)?;
    with_more(sum, 2)
}

// The length with that of assignments with commas between them.
fn with_assignments<F: LiteralForm>(
    len: usize,
    assignments: &[ColumnAssignment],
    form: &F,
) -> Option<usize>
    ensures len { IfSome result (λ sum. sum ≡ len + length
        (filled_assignments (written_literal (F.literal form.now)) assignments.now)) }
    ensures too_long { result ≡ None → 2 ^ 63 ≤ len + length
        (filled_assignments (written_literal (F.literal form.now)) assignments.now) }
    ensures known { IfSome result (λ sum. AreKnownUnlessFloats (F.literal form.now) IsOfFields
        (flat_map assignment_values assignments.now)) }
{
    let mut sum = len;
    for (i, assignment) in assignments.iter().enumerate() {
        sum = with_separator(sum, i, b", ")?;
        sum = with_assignment(sum, assignment, form)?;
    }
    Some(sum)
}

// The length with that of an assignment.
fn with_assignment<F: LiteralForm>(
    len: usize,
    assignment: &ColumnAssignment,
    form: &F,
) -> Option<usize>
    ensures len { IfSome result (λ sum. sum ≡ len + length
        (filled_assignment (written_literal (F.literal form.now)) assignment.now)) }
    ensures too_long { result ≡ None → 2 ^ 63 ≤ len + length
        (filled_assignment (written_literal (F.literal form.now)) assignment.now) }
    ensures known { IfSome result (λ sum. AreKnownUnlessFloats (F.literal form.now) IsOfFields
        (assignment_values assignment.now)) }
{
    let sum = with_names(len, assignment.column.as_slice())?;
    let sum = with_more(sum, 3)?;
    with_item(sum, &assignment.item, form)
}

// The length with that of columns with commas between them.
fn with_columns(len: usize, columns: &[Vec<Vec<u8>>]) -> Option<usize>
    ensures len { IfSome result (λ sum. sum ≡ len + length (columns_text columns.now)) }
    ensures too_long { result ≡ None → 2 ^ 63 ≤ len + length (columns_text columns.now) }
{
    let mut sum = len;
    for (i, names) in columns.iter().enumerate() {
        sum = with_separator(sum, i, b", ")?;
        sum = with_names(sum, names.as_slice())?;
    }
    Some(sum)
}

// The length with that of names as identifiers with points between them.
fn with_names(len: usize, names: &[Vec<u8>]) -> Option<usize>
    ensures len { IfSome result (λ sum. sum ≡ len + length (joined (codes ".")
        (map (λ name. identifier_text name.items) names.now))) }
    ensures too_long { result ≡ None → 2 ^ 63 ≤ len + length (joined (codes ".")
        (map (λ name. identifier_text name.items) names.now)) }
{
    let mut sum = len;
    for (i, name) in names.iter().enumerate() {
        sum = with_separator(sum, i, b".")?;
        sum = with_identifier(sum, name.as_slice())?;
    }
    Some(sum)
}

// The length with that of a name as an identifier.
fn with_identifier(len: usize, name: &[u8]) -> Option<usize>
    ensures len { IfSome result (λ sum. sum ≡ len + length (identifier_text name.now)) }
    ensures too_long { result ≡ None → 2 ^ 63 ≤ len + length (identifier_text name.now) }
{
    with_more(len, name.len() as u128 + backquotes(name) as u128 + 2)
}

// The number of backquotes in a name.
fn backquotes(name: &[u8]) -> usize
    ensures doubled { length (doubled name.now) ≡ length name.now + result }
    ensures in_name { result ≤ length name.now }
{
    let mut count = 0;
    for b in name {
        if *b == b'`' {
            count += 1;
        }
    }
    count
}

/// The length with that of the literal of a value; a float has none.
pub(crate) fn with_literal<F: LiteralForm, V: LiteralValue>(
    len: usize,
    value: V,
    form: &F,
) -> Option<usize>
    ensures len { IfSome result (λ sum. sum
        ≡ len + length (written_literal (F.literal form.now) (V.value value))) }
    ensures too_long { result ≡ None → 2 ^ 63
        ≤ len + length (written_literal (F.literal form.now) (V.value value)) }
    ensures known { IfSome result (λ sum. AreKnownUnlessFloats (F.literal form.now) IsOfFields
        (V.value value ∷ [])) }
{
    with_more(len, literal_len(value, form))
}

/// The length with that of a separator before the text of number `i`: the first text has none.
pub(crate) fn with_separator(len: usize, i: usize, separator: &[u8]) -> Option<usize>
    ensures len { IfSome result (λ sum. sum ≡ len + length (separator_before separator.now i)) }
    ensures too_long { result ≡ None → 2 ^ 63 ≤ len + length (separator_before separator.now i) }
{
    if i == 0 {
        Some(len)
    } else {
        with_more(len, separator.len() as u128)
    }
}

/// The length and `more` bytes.
pub(crate) fn with_more(len: usize, more: u128) -> Option<usize>
    ensures len { IfSome result (λ sum. sum ≡ len + more) }
    ensures too_long { result ≡ None → 2 ^ 63 ≤ len + more }
{
    let sum = (len as u128).checked_add(more)?;
    if sum > isize::MAX as u128 {
        return None;
    }
    Some(sum as usize)
}
