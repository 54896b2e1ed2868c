//! Fragments in the mode without backslash escapes, and what one argument makes. The wanted texts
//! are written by the rules of the MySQL Reference Manual, "String Literals".
use mysql_bind_call::bind_fragments_in;
use mysql_fragments::{Fragment, Fragments, Item, expanded_query_in};
use mysql_to_fragments::{Decimal, ToFragment, ToItem, ToRow, Word};
use std::alloc::Global;

const WITHOUT_BACKSLASHES: bool = true;

/// The string ends at its second quote: a backslash escapes nothing.
const QUERY: &[u8] = b"'\\' ?";

// The fragment of one argument, by position.
fn alone<A: ToFragment>(alloc: Global, argument: &A) -> Option<Fragments> {
    let mut list = Vec::new(alloc);
    let fragment = argument.to_fragment(alloc).ok()?;
    list.push(fragment).ok()?;
    Some(Fragments::Positional(list))
}

// Whether an argument gives this text in the place of the query.
fn gives<A: ToFragment>(alloc: Global, argument: &A, wanted: &[u8]) -> bool {
    match alone(alloc, argument) {
        Some(fragments) => {
            match bind_fragments_in(alloc, QUERY, &fragments, WITHOUT_BACKSLASHES) {
                Ok(text) => text.as_slice() == wanted,
                Err(_) => false,
            }
        }
        None => false,
    }
}

#[test]
fn texts_without_backslash_escapes(rt: HostRuntime) {
    let text = gives(rt.alloc(), &"a\\'", b"'\\' 'a\\'''");
    assert!(rt; text);
    let word = gives(rt.alloc(), &Word(b"DESC"), b"'\\' DESC");
    assert!(rt; word);
}

// Whether a query without backslash escapes is expanded to itself and a value.
fn expands(alloc: Global) -> bool {
    match alone(alloc, &7u8) {
        Some(fragments) => {
            match expanded_query_in(alloc, QUERY, &fragments, WITHOUT_BACKSLASHES) {
                Ok(expanded) => expanded.query.as_slice() == QUERY && expanded.values.len() == 1,
                Err(_) => false,
            }
        }
        None => false,
    }
}

#[test]
fn expanded_without_backslash_escapes(rt: HostRuntime) {
    let same = expands(rt.alloc());
    assert!(rt; same);
}

// Whether a word makes its keyword.
fn makes_a_keyword(alloc: Global) -> bool {
    match Word(b"ASC").to_fragment(alloc) {
        Ok(Fragment::Keyword(word)) => word.as_bytes() == b"ASC".as_slice(),
        _ => false,
    }
}

// Whether an exact number makes its item.
fn makes_an_item(alloc: Global) -> bool {
    match Decimal(b"1.50").to_item(alloc) {
        Ok(Item::Decimal(text)) => text.as_slice() == b"1.50".as_slice(),
        _ => false,
    }
}

// Whether a tuple makes a row of its items.
fn makes_a_row(alloc: Global) -> bool {
    match (1u8, Decimal(b"0.5"), "x").to_row(alloc) {
        Ok(row) => row.len() == 3,
        Err(_) => false,
    }
}

#[test]
fn one_argument(rt: HostRuntime) {
    let keyword = makes_a_keyword(rt.alloc());
    assert!(rt; keyword);
    let item = makes_an_item(rt.alloc());
    assert!(rt; item);
    let row = makes_a_row(rt.alloc());
    assert!(rt; row);
}
