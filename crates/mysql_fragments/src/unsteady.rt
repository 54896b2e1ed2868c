//! The first fragment whose text isn't steady.
ghost use Rattle.std.specs.Prelude.{◌≡◌, ◌&&◌, List};
ghost use Rattle.std.specs.List.{list_all};
ghost use Rattle.mysql_portable.specs.Steady.{is_steady};
ghost use Rattle.mysql_params_core.specs.Referents.{referents};
ghost use Rattle.mysql_fragments.specs.BorrowedFragments.{AreSaid, Says};
ghost use Rattle.mysql_fragments.specs.FragmentText.{fragment_text, item_text};
ghost use Rattle.mysql_fragments.specs.declared.fragment.Fragment as said_fragment;
ghost use Rattle.mysql_fragments.specs.SteadyFragments.{first_unsteady_from};

use crate::fragment::{ColumnAssignment, Fragment, Item};
use crate::fragment_ref::FragmentRef;
use mysql_portable::steady::first_unsteady;

/// The place of the first fragment whose text isn't steady.
pub fn first_unsteady_place(fragments: &[&Fragment]) -> Option<usize>
    ensures { result ≡ first_unsteady_from 0 (referents fragments.now) }
{
    for (place, fragment) in fragments.iter().enumerate() {
        if !is_steady_fragment(*fragment) {
            return Some(place);
        }
    }
    None
}

/// The place of the first borrowed fragment whose text isn't steady. For the crate above.
pub fn first_unsteady_fragment(fragments: &[FragmentRef<'_>]) -> Option<usize>
    ensures { (said : List said_fragment.Fragment) → AreSaid fragments.now said →
        result ≡ first_unsteady_from 0 said }
{
    for (place, fragment) in fragments.iter().enumerate() {
        if !is_steady_borrowed(fragment) {
            return Some(place);
        }
    }
    None
}

// Whether the text of the fragment is steady. The text of values always is.
fn is_steady_borrowed(fragment: &FragmentRef<'_>) -> bool
    ensures { (said : said_fragment.Fragment) → Says fragment.now said →
        result ≡ list_all is_steady (fragment_text said) }
{
    match fragment {
        FragmentRef::Owned(fragment) => is_steady_fragment(*fragment),
        FragmentRef::Value(_) => true,
        FragmentRef::List(_) => true,
        FragmentRef::Rows(_) => true,
    }
}

// Whether the text of the fragment is steady. The text isn't made for it: marks, and everything
// around numbers and names, are steady.
fn is_steady_fragment(fragment: &Fragment) -> bool
    ensures { result ≡ list_all is_steady (fragment_text fragment.now) }
{
    match fragment {
        Fragment::Value(_) => true,
        Fragment::Decimal(number) => is_steady_text(number.as_slice()),
        Fragment::Double(double) => is_steady_text(double.as_bytes()),
        Fragment::List(items) => are_steady_items(items.as_slice()),
        Fragment::Rows(rows) => are_steady_rows(rows.as_slice()),
        Fragment::Identifier(name) => is_steady_text(name.as_slice()),
        Fragment::Qualified(names) => are_steady_names(names.as_slice()),
        Fragment::Keyword(word) => is_steady_text(word.as_bytes()),
        Fragment::Identifiers(columns) => are_steady_columns(columns.as_slice()),
        Fragment::Assignments(assignments) => are_steady_assignments(assignments.as_slice()),
    }
}

// Whether the text is steady.
fn is_steady_text(text: &[u8]) -> bool
    ensures { result ≡ list_all is_steady text.now }
{
    first_unsteady(text).is_none()
}

// Whether the text of an item is steady.
fn is_steady_item(item: &Item) -> bool
    ensures { result ≡ list_all is_steady (item_text item.now) }
{
    match item {
        Item::Value(_) => true,
        Item::Decimal(number) => is_steady_text(number.as_slice()),
        Item::Double(double) => is_steady_text(double.as_bytes()),
    }
}

// Whether the texts of all items are steady.
fn are_steady_items(items: &[Item]) -> bool
    ensures { result ≡ list_all (λ item. list_all is_steady (item_text item)) items.now }
{
    items.iter().all(|item| is_steady_item(item))
}

// Whether the texts of all items of rows are steady.
fn are_steady_rows(rows: &[Vec<Item>]) -> bool
    ensures { result ≡ list_all (λ row.
        list_all (λ item. list_all is_steady (item_text item)) row.items) rows.now }
{
    rows.iter().all(|row| are_steady_items(row.as_slice()))
}

// Whether all names are steady.
fn are_steady_names(names: &[Vec<u8>]) -> bool
    ensures { result ≡ list_all (λ name. list_all is_steady name.items) names.now }
{
    names.iter().all(|name| is_steady_text(name.as_slice()))
}

// Whether all names of all columns are steady.
fn are_steady_columns(columns: &[Vec<Vec<u8>>]) -> bool
    ensures { result ≡ list_all (λ names.
        list_all (λ name. list_all is_steady name.items) names.items) columns.now }
{
    columns
        .iter()
        .all(|names| are_steady_names(names.as_slice()))
}

// Whether the names and the texts of the items of all assignments are steady.
fn are_steady_assignments(assignments: &[ColumnAssignment]) -> bool
    ensures { result ≡ list_all (λ assignment.
        list_all (λ name. list_all is_steady name.items) assignment.column.items
        && list_all is_steady (item_text assignment.item)) assignments.now }
{
    assignments
        .iter()
        .all(|assignment| is_steady_assignment(assignment))
}

// Whether the names of the column and the text of the item are steady.
fn is_steady_assignment(assignment: &ColumnAssignment) -> bool
    ensures { result ≡ (list_all (λ name. list_all is_steady name.items) assignment.now.column.items
        && list_all is_steady (item_text assignment.now.item)) }
{
    are_steady_names(assignment.column.as_slice()) && is_steady_item(&assignment.item)
}
