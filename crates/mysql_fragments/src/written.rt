//! The text of fragments, with their values in a form, and these values.
ghost use Rattle.std.specs.Prelude.{◌≡◌, ◌++◌, IfOk, OnErr, codes, map};
ghost use Rattle.std.specs.Io.{StartsWith};
ghost use Rattle.std.specs.List.{flat_map, list_any};
ghost use Rattle.mysql_values.specs.Literal.{is_float};
ghost use Rattle.mysql_binding.specs.LiteralForm.{written_literal};
ghost use Rattle.mysql_binding.specs.PushedLiteral.{AreKnownUnlessFloats};
ghost use Rattle.mysql_fragments.specs.FragmentErrors.{has_float, is_float_item};
ghost use Rattle.mysql_fragments.specs.FragmentText.{assignment_values, columns_text, filled_assignment, filled_assignments, filled_item, filled_items, filled_row, filled_text, fragment_values, identifier_text, item_values, joined};

use crate::fragment::{ColumnAssignment, Fragment, Item};
use crate::value_form::ValueForm;
use mysql_values::value::Value;
use std::alloc::AllocError;

/// Appends the text of a fragment, with its values in a form. If memory is refused, a part of it
/// may have been appended.
pub(crate) fn push_fragment<F: ValueForm>(
    text: &mut Vec<u8>,
    fragment: &Fragment,
    form: &F,
) -> Result<(), AllocError>
    ensures text { IfOk result (λ done. text.new.items
        ≡ text.old.items ++ filled_text (written_literal (F.written form.now)) fragment.now) }
    ensures known { IfOk result (λ done. AreKnownUnlessFloats (F.written form.now)
        (F.IsKnown form.now) (fragment_values fragment.now)) }
    ensures kept { OnErr result (StartsWith text.new.items text.old.items) }
{
    match fragment {
        Fragment::Value(value) => form.push(text, value),
        Fragment::List(items) => push_items(text, items.as_slice(), form),
        Fragment::Rows(rows) => push_rows(text, rows.as_slice(), form),
        Fragment::Decimal(number) => text.extend_from_slice(number.as_slice()),
        Fragment::Double(double) => text.extend_from_slice(double.as_bytes()),
        Fragment::Identifier(name) => push_identifier(text, name.as_slice()),
        Fragment::Qualified(names) => push_names(text, names.as_slice()),
        Fragment::Keyword(word) => text.extend_from_slice(word.as_bytes()),
        Fragment::Identifiers(columns) => push_columns(text, columns.as_slice()),
        Fragment::Assignments(assignments) => push_assignments(text, assignments.as_slice(), form),
    }
}

// Writes an item to the end: a value in the form.
#[inline(always)]
fn push_item<F: ValueForm>(text: &mut Vec<u8>, item: &Item, form: &F) -> Result<(), AllocError>
    ensures text { IfOk result (λ done. text.new.items
        ≡ text.old.items ++ filled_item (written_literal (F.written form.now)) item.now) }
    ensures known { IfOk result (λ done. AreKnownUnlessFloats (F.written form.now)
        (F.IsKnown form.now) (item_values item.now)) }
    ensures kept { OnErr result (StartsWith text.new.items text.old.items) }
{
    match item {
        Item::Value(value) => form.push(text, value),
        Item::Decimal(number) => text.extend_from_slice(number.as_slice()),
        Item::Double(double) => text.extend_from_slice(double.as_bytes()),
    }
}

// Writes items with commas between them to the end.
fn push_items<F: ValueForm>(text: &mut Vec<u8>, items: &[Item], form: &F) -> Result<(), AllocError>
    ensures text { IfOk result (λ done. text.new.items
        ≡ text.old.items ++ filled_items (written_literal (F.written form.now)) items.now) }
    ensures known { IfOk result (λ done. AreKnownUnlessFloats (F.written form.now)
        (F.IsKnown form.now) (flat_map item_values items.now)) }
    ensures kept { OnErr result (StartsWith text.new.items text.old.items) }
{
    for (i, item) in items.iter().enumerate() {
        if i > 0 {
            text.extend_from_slice(b", ")?;
        }
        push_item(text, item, form)?;
    }
    Ok(())
}

// Writes rows in brackets with commas between them to the end.
fn push_rows<F: ValueForm>(
    text: &mut Vec<u8>,
    rows: &[Vec<Item>],
    form: &F,
) -> Result<(), AllocError>
    ensures text { IfOk result (λ done. text.new.items ≡ text.old.items
        ++ joined (codes ", ") (map (filled_row (written_literal (F.written form.now))) rows.now)) }
    ensures known { IfOk result (λ done. AreKnownUnlessFloats (F.written form.now)
        (F.IsKnown form.now) (flat_map (λ row. flat_map item_values row.items) rows.now)) }
    ensures kept { OnErr result (StartsWith text.new.items text.old.items) }
{
    for (i, row) in rows.iter().enumerate() {
        if i > 0 {
            text.extend_from_slice(b", ")?;
        }
        text.push(b'(')?;
        push_items(text, row.as_slice(), form)?;
        text.push(b')')?;
    }
    Ok(())
}

// Writes assignments with commas between them to the end.
fn push_assignments<F: ValueForm>(
    text: &mut Vec<u8>,
    assignments: &[ColumnAssignment],
    form: &F,
) -> Result<(), AllocError>
    ensures text { IfOk result (λ done. text.new.items ≡ text.old.items
        ++ filled_assignments (written_literal (F.written form.now)) assignments.now) }
    ensures known { IfOk result (λ done. AreKnownUnlessFloats (F.written form.now)
        (F.IsKnown form.now) (flat_map assignment_values assignments.now)) }
    ensures kept { OnErr result (StartsWith text.new.items text.old.items) }
{
    for (i, assignment) in assignments.iter().enumerate() {
        if i > 0 {
            text.extend_from_slice(b", ")?;
        }
        push_assignment(text, assignment, form)?;
    }
    Ok(())
}

// Writes an assignment to the end.
fn push_assignment<F: ValueForm>(
    text: &mut Vec<u8>,
    assignment: &ColumnAssignment,
    form: &F,
) -> Result<(), AllocError>
    ensures text { IfOk result (λ done. text.new.items ≡ text.old.items
        ++ filled_assignment (written_literal (F.written form.now)) assignment.now) }
    ensures known { IfOk result (λ done. AreKnownUnlessFloats (F.written form.now)
        (F.IsKnown form.now) (assignment_values assignment.now)) }
    ensures kept { OnErr result (StartsWith text.new.items text.old.items) }
{
    push_names(text, assignment.column.as_slice())?;
    text.extend_from_slice(b" = ")?;
    push_item(text, &assignment.item, form)?;
    Ok(())
}

// Writes columns with commas between them to the end.
fn push_columns(text: &mut Vec<u8>, columns: &[Vec<Vec<u8>>]) -> Result<(), AllocError>
    ensures text { IfOk result (λ done.
        text.new.items ≡ text.old.items ++ columns_text columns.now) }
    ensures kept { OnErr result (StartsWith text.new.items text.old.items) }
{
    for (i, names) in columns.iter().enumerate() {
        if i > 0 {
            text.extend_from_slice(b", ")?;
        }
        push_names(text, names.as_slice())?;
    }
    Ok(())
}

/// Writes names as identifiers with points between them to the end.
pub(crate) fn push_names(text: &mut Vec<u8>, names: &[Vec<u8>]) -> Result<(), AllocError>
    ensures text { IfOk result (λ done. text.new.items ≡ text.old.items
        ++ joined (codes ".") (map (λ name. identifier_text name.items) names.now)) }
    ensures kept { OnErr result (StartsWith text.new.items text.old.items) }
{
    for (i, name) in names.iter().enumerate() {
        if i > 0 {
            text.push(b'.')?;
        }
        push_identifier(text, name.as_slice())?;
    }
    Ok(())
}

/// Writes a name as an identifier in backquotes to the end.
pub(crate) fn push_identifier(text: &mut Vec<u8>, name: &[u8]) -> Result<(), AllocError>
    ensures text { IfOk result (λ done.
        text.new.items ≡ text.old.items ++ identifier_text name.now) }
    ensures kept { OnErr result (StartsWith text.new.items text.old.items) }
{
    text.push(b'`')?;
    for b in name {
        text.push(*b)?;
        if *b == b'`' {
            text.push(*b)?;
        }
    }
    text.push(b'`')?;
    Ok(())
}

/// Copies the values of a fragment to the end.
pub(crate) fn push_values(values: &mut Vec<Value>, fragment: &Fragment) -> Result<(), AllocError>
    ensures { IfOk result (λ done.
        values.new.items ≡ values.old.items ++ fragment_values fragment.now) }
{
    match fragment {
        Fragment::Value(value) => {
            values.push(value.clone()?)?;
            Ok(())
        }
        Fragment::List(items) => push_item_values(values, items.as_slice()),
        Fragment::Rows(rows) => push_row_values(values, rows.as_slice()),
        Fragment::Assignments(assignments) => {
            push_assignment_values(values, assignments.as_slice())
        }
        Fragment::Decimal(_)
        | Fragment::Double(_)
        | Fragment::Identifier(_)
        | Fragment::Qualified(_)
        | Fragment::Keyword(_)
        | Fragment::Identifiers(_) => Ok(()),
    }
}

// Copies the values of items to the end.
fn push_item_values(values: &mut Vec<Value>, items: &[Item]) -> Result<(), AllocError>
    ensures { IfOk result (λ done.
        values.new.items ≡ values.old.items ++ flat_map item_values items.now) }
{
    for item in items {
        push_item_value(values, item)?;
    }
    Ok(())
}

// Copies the value of an item to the end, if it is one.
fn push_item_value(values: &mut Vec<Value>, item: &Item) -> Result<(), AllocError>
    ensures { IfOk result (λ done.
        values.new.items ≡ values.old.items ++ item_values item.now) }
{
    match item {
        Item::Value(value) => {
            values.push(value.clone()?)?;
            Ok(())
        }
        Item::Decimal(_) | Item::Double(_) => Ok(()),
    }
}

// Copies the values of rows to the end.
fn push_row_values(values: &mut Vec<Value>, rows: &[Vec<Item>]) -> Result<(), AllocError>
    ensures { IfOk result (λ done. values.new.items
        ≡ values.old.items ++ flat_map (λ row. flat_map item_values row.items) rows.now) }
{
    for row in rows {
        push_item_values(values, row.as_slice())?;
    }
    Ok(())
}

// Copies the values of assignments to the end.
fn push_assignment_values(
    values: &mut Vec<Value>,
    assignments: &[ColumnAssignment],
) -> Result<(), AllocError>
    ensures { IfOk result (λ done. values.new.items
        ≡ values.old.items ++ flat_map assignment_values assignments.now) }
{
    for assignment in assignments {
        push_item_value(values, &assignment.item)?;
    }
    Ok(())
}

/// Whether a value of the fragment is a float.
pub(crate) fn has_float(fragment: &Fragment) -> bool
    ensures { result ≡ has_float fragment.now }
{
    match fragment {
        Fragment::Value(value) => is_float(value),
        Fragment::List(items) => has_float_item(items.as_slice()),
        Fragment::Rows(rows) => has_float_row(rows.as_slice()),
        Fragment::Assignments(assignments) => has_float_assignment(assignments.as_slice()),
        Fragment::Decimal(_)
        | Fragment::Double(_)
        | Fragment::Identifier(_)
        | Fragment::Qualified(_)
        | Fragment::Keyword(_)
        | Fragment::Identifiers(_) => false,
    }
}

// Whether the value is a float.
fn is_float(value: &Value) -> bool
    ensures { result ≡ is_float value.now }
{
    matches!(value, Value::Float(_) | Value::Double(_))
}

// Whether an item is a float.
fn has_float_item(items: &[Item]) -> bool
    ensures { result ≡ list_any is_float_item items.now }
{
    items.iter().any(|item| is_float_item(item))
}

// Whether the item is a float.
fn is_float_item(item: &Item) -> bool
    ensures { result ≡ is_float_item item.now }
{
    match item {
        Item::Value(value) => is_float(value),
        Item::Decimal(_) | Item::Double(_) => false,
    }
}

// Whether an item of a row is a float.
fn has_float_row(rows: &[Vec<Item>]) -> bool
    ensures { result ≡ list_any (λ row. list_any is_float_item row.items) rows.now }
{
    rows.iter().any(|row| has_float_item(row.as_slice()))
}

// Whether the item of an assignment is a float.
fn has_float_assignment(assignments: &[ColumnAssignment]) -> bool
    ensures { result ≡ list_any (λ assignment. is_float_item assignment.item) assignments.now }
{
    assignments
        .iter()
        .any(|assignment| is_float_item(&assignment.item))
}
