//! Which fragments can be written.
ghost use Rattle.std.specs.Prelude.{◌≡◌, ◌==◌, false, None, Some, if◌then◌else◌};
ghost use Rattle.std.specs.List.{list_any};
ghost use Rattle.mysql_fragments.specs.FragmentFaults.{assignment_fault, assignments_fault, assignments_fault_from, character_count, columns_fault, columns_fault_from, digit_count, ends_in_space, escapes_end, fault_of, is_continuation, is_decimal, is_keyword, is_keyword_from, is_number_from, item_fault, items_fault, list_fault, name_fault, names_fault, names_fault_from, number_fault, row_fault, rows_fault, rows_fault_from};

use crate::fragment::{ColumnAssignment, Fragment, Item};
use crate::fragments_error::FragmentFault;

impl Fragment {
    /// Why the fragment can't be written; `None` if it can.
    pub fn fault(&self) -> Option<FragmentFault>
        ensures { result ≡ fault_of self.now }
    {
        match self {
            Fragment::Value(_) | Fragment::Double(_) => None,
            Fragment::Decimal(text) => number_fault(text.as_slice(), 0, 0),
            Fragment::List(items) => list_fault(items.as_slice()),
            Fragment::Rows(rows) => rows_fault(rows.as_slice()),
            Fragment::Identifier(name) => name_fault(name.as_slice(), 0),
            Fragment::Qualified(names) => names_fault(names.as_slice(), 0),
            Fragment::Keyword(word) => keyword_fault(word.as_bytes()),
            Fragment::Identifiers(columns) => columns_fault(columns.as_slice()),
            Fragment::Assignments(assignments) => assignments_fault(assignments.as_slice()),
        }
    }
}

// The first fault of a list.
fn list_fault(items: &[Item]) -> Option<FragmentFault>
    ensures { result ≡ list_fault items.now }
{
    if items.is_empty() {
        Some(FragmentFault::Empty)
    } else {
        items_fault(items, 0)
    }
}

// The first fault of the items of this row.
fn items_fault(items: &[Item], row: usize) -> Option<FragmentFault>
    ensures { result ≡ items_fault row 0 items.now }
{
    for (index, item) in items.iter().enumerate() {
        if let Some(fault) = item_fault(item, row, index) {
            return Some(fault);
        }
    }
    None
}

// The fault of this item of this row.
fn item_fault(item: &Item, row: usize, index: usize) -> Option<FragmentFault>
    ensures { result ≡ item_fault row index item.now }
{
    match item {
        Item::Value(_) | Item::Double(_) => None,
        Item::Decimal(text) => number_fault(text.as_slice(), row, index),
    }
}

// The fault of a text that is to be an exact number of at most 65 digits, as this item of this row.
fn number_fault(text: &[u8], row: usize, index: usize) -> Option<FragmentFault>
    ensures { result ≡ number_fault row index text.now }
{
    if is_decimal(text) && digit_count(text) <= 65 {
        None
    } else {
        Some(FragmentFault::Number { row, item: index })
    }
}

// The number of digits of a number.
fn digit_count(text: &[u8]) -> usize
    ensures { result ≡ digit_count text.now }
{
    let mut count = 0;
    for b in text {
        if u8::is_ascii_digit(b) {
            count += 1;
        }
    }
    count
}

// The first fault of rows.
fn rows_fault(rows: &[Vec<Item>]) -> Option<FragmentFault>
    ensures { result ≡ rows_fault rows.now }
{
    match rows {
        [] => Some(FragmentFault::Empty),
        [first, ..] => unequal_rows_fault(rows, first.len()),
    }
}

// The first fault of rows that are all to have this width.
fn unequal_rows_fault(rows: &[Vec<Item>], width: usize) -> Option<FragmentFault>
    ensures { result ≡ rows_fault_from width 0 rows.now }
{
    for (row, items) in rows.iter().enumerate() {
        if let Some(fault) = row_fault(items.as_slice(), width, row) {
            return Some(fault);
        }
    }
    None
}

// The first fault of this row: it has items, as many as the first row.
fn row_fault(items: &[Item], width: usize, row: usize) -> Option<FragmentFault>
    ensures { result ≡ row_fault width row items.now }
{
    if items.is_empty() {
        Some(FragmentFault::EmptyRow { row })
    } else if items.len() == width {
        items_fault(items, row)
    } else {
        Some(FragmentFault::RowLength { row })
    }
}

// Whether the text is an exact number.
fn is_decimal(text: &[u8]) -> bool
    ensures { result ≡ is_decimal text.now }
{
    match text {
        [] => false,
        [b'-', digits @ ..] => is_number(digits),
        digits => is_number(digits),
    }
}

// Whether the text is digits with at most one point between them.
fn is_number(digits: &[u8]) -> bool
    ensures { result ≡ is_number_from false false digits.now }
{
    let mut digit = false;
    let mut point = false;
    for b in digits {
        if b.is_ascii_digit() {
            digit = true;
        } else if *b == b'.' && digit && !point {
            digit = false;
            point = true;
        } else {
            return false;
        }
    }
    digit
}

// The first fault of assignments.
fn assignments_fault(assignments: &[ColumnAssignment]) -> Option<FragmentFault>
    ensures { result ≡ assignments_fault assignments.now }
{
    if assignments.is_empty() {
        Some(FragmentFault::Empty)
    } else {
        first_assignment_fault(assignments)
    }
}

// The first fault of the assignments, whose names are counted through all columns.
fn first_assignment_fault(assignments: &[ColumnAssignment]) -> Option<FragmentFault>
    ensures { result ≡ assignments_fault_from 0 0 assignments.now }
{
    let mut part: usize = 0;
    for (index, assignment) in assignments.iter().enumerate() {
        if let Some(fault) = assignment_fault(assignment, part, index) {
            return Some(fault);
        }
        part = part.saturating_add(assignment.column.len());
    }
    None
}

// The fault of the assignment of this number, whose first name has this number.
fn assignment_fault(
    assignment: &ColumnAssignment,
    part: usize,
    index: usize,
) -> Option<FragmentFault>
    ensures { result ≡ assignment_fault part index assignment.now }
{
    match names_fault(assignment.column.as_slice(), part) {
        Some(fault) => Some(fault),
        None => item_fault(&assignment.item, 0, index),
    }
}

// The first fault of columns.
fn columns_fault(columns: &[Vec<Vec<u8>>]) -> Option<FragmentFault>
    ensures { result ≡ columns_fault columns.now }
{
    if columns.is_empty() {
        Some(FragmentFault::Empty)
    } else {
        first_column_fault(columns)
    }
}

// The first fault of the columns, whose names are counted through all of them.
fn first_column_fault(columns: &[Vec<Vec<u8>>]) -> Option<FragmentFault>
    ensures { result ≡ columns_fault_from 0 columns.now }
{
    let mut part: usize = 0;
    for names in columns {
        if let Some(fault) = names_fault(names.as_slice(), part) {
            return Some(fault);
        }
        part = part.saturating_add(names.len());
    }
    None
}

// The first fault of a qualified identifier whose first name has this number in the fragment.
fn names_fault(names: &[Vec<u8>], part: usize) -> Option<FragmentFault>
    ensures { result ≡ names_fault part names.now }
{
    if names.is_empty() {
        Some(FragmentFault::Empty)
    } else {
        first_name_fault(names, part)
    }
}

// The first fault of names from this number on.
fn first_name_fault(names: &[Vec<u8>], part: usize) -> Option<FragmentFault>
    ensures { result ≡ names_fault_from part names.now }
{
    let mut number = part;
    for name in names {
        if let Some(fault) = name_fault(name.as_slice(), number) {
            return Some(fault);
        }
        number = number.saturating_add(1);
    }
    None
}

// The fault of the name with this number in an identifier.
fn name_fault(name: &[u8], part: usize) -> Option<FragmentFault>
    ensures { result ≡ name_fault part name.now }
{
    if name.is_empty() {
        Some(FragmentFault::EmptyName { part })
    } else if has_zero(name) {
        Some(FragmentFault::ZeroByte { part })
    } else if character_count(name) > 64 {
        Some(FragmentFault::LongName { part })
    } else if name[name.len() - 1] == b' ' {
        Some(FragmentFault::TrailingSpace { part })
    } else if escapes_end(name) {
        Some(FragmentFault::Backslash { part })
    } else {
        None
    }
}

// Whether a backslash is directly before a backquote, or is the last byte.
fn escapes_end(name: &[u8]) -> bool
    ensures { result ≡ escapes_end name.now }
{
    for i in 0..name.len() {
        let rest = &name[i + 1..];
        if name[i] == b'\\' && matches!(rest, [b'`', ..] | []) {
            return true;
        }
    }
    false
}

// Whether a byte of the name is 0.
fn has_zero(name: &[u8]) -> bool
    ensures { result ≡ list_any (λ b. b == 0) name.now }
{
    name.iter().any(|b| *b == 0)
}

// The number of characters of a name.
fn character_count(name: &[u8]) -> usize
    ensures { result ≡ character_count name.now }
{
    let mut count = 0;
    for b in name {
        if !is_continuation(*b) {
            count += 1;
        }
    }
    count
}

// Whether the byte continues a UTF-8 character.
fn is_continuation(b: u8) -> bool
    ensures { result ≡ is_continuation b }
{
    128 <= b && b < 192
}

// The fault of a text that is to be a keyword.
fn keyword_fault(word: &[u8]) -> Option<FragmentFault>
    ensures { result ≡ (if is_keyword word.now then None else Some FragmentFault.Keyword) }
{
    if is_keyword(word) {
        None
    } else {
        Some(FragmentFault::Keyword)
    }
}

// Whether the text is words that begin with a letter, with one space between them.
fn is_keyword(word: &[u8]) -> bool
    ensures { result ≡ is_keyword word.now }
{
    let mut begun = false;
    for b in word {
        if b.is_ascii_alphabetic() {
            begun = true;
        } else if *b == b'_' && begun {
            begun = true;
        } else if *b == b' ' && begun {
            begun = false;
        } else {
            return false;
        }
    }
    begun
}
