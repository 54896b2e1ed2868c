//! Fragments in the places of names with capitals. The wanted texts are written by the rules of the
//! MySQL Reference Manual, "Comparison Functions and Operators" and "Schema Object Names", and by
//! the rule of wide names.
use crate::shared::Plain::{Identifier, List};
use crate::shared::PlainItem::{Int, Null};
use crate::shared::{Plain, fragment};
use mysql_bind_call::{BindRefusal, Portability, Purpose, QueryRefusal, Scope, bind};
use mysql_fragments::{
    FragmentRef, Fragments, FragmentsError, TextInRoom, bind_wide_borrowed_fragments,
    bind_wide_borrowed_fragments_into, expanded_wide_query_in,
};
use mysql_values::value::ValueRef;
use std::alloc::{AllocError, Global};
use std::collections::HashMap;

const NAMED: &[(&[u8], Plain)] = &[
    (b"userIds", List(&[Int(7), Null])),
    (b"Table", Identifier(b"t`1")),
];

const QUERY: &[u8] = b"SELECT ':Table' FROM :Table WHERE id IN (:userIds)";

const WANTED: &[u8] = b"SELECT ':Table' FROM `t``1` WHERE id IN (7, NULL)";

fn named(alloc: Global) -> Result<Fragments, AllocError> {
    let mut entries = HashMap::new(alloc);
    for (name, plain) in NAMED {
        let name = Vec::from_slice(alloc, *name)?;
        entries.insert(name, fragment(alloc, *plain)?)?;
    }
    Ok(Fragments::Named(entries))
}

// For whom a text is, by wide names.
fn purpose(scope: Scope, portability: Portability) -> Purpose {
    Purpose {
        scope,
        portability,
        wide_names: true,
    }
}

// What a query gives for a purpose.
fn given(alloc: Global, query: &[u8], purpose: Purpose) -> Result<Vec<u8>, BindRefusal> {
    match named(alloc) {
        Ok(fragments) => bind(alloc, query, &fragments, purpose),
        Err(error) => Err(BindRefusal::Memory(error)),
    }
}

fn gives(alloc: Global, query: &[u8], purpose: Purpose, wanted: &[u8]) -> bool {
    match given(alloc, query, purpose) {
        Ok(text) => text.as_slice() == wanted,
        Err(_) => false,
    }
}

fn in_mode(no_backslash_escape: bool) -> Purpose {
    let scope = Scope::OneMode {
        no_backslash_escape,
    };
    purpose(scope, Portability::Any)
}

#[test]
fn fragments_by_wide_names(rt: HostRuntime) {
    assert!(rt; gives(rt.alloc(), QUERY, in_mode(false), WANTED));
    assert!(rt; gives(rt.alloc(), QUERY, in_mode(true), WANTED));
}

fn refused(alloc: Global, query: &[u8], purpose: Purpose, wanted: BindRefusal) -> bool {
    match given(alloc, query, purpose) {
        Ok(_) => false,
        Err(refusal) => refusal == wanted,
    }
}

#[test]
fn labels_are_refused(rt: HostRuntime) {
    let label = BindRefusal::Fragments(FragmentsError::NotAlone { place: 0, at: 3 });
    assert!(rt; refused(rt.alloc(), b"lbl:Table", in_mode(false), label));
    let mixed = BindRefusal::Fragments(FragmentsError::Mixed);
    assert!(rt; refused(rt.alloc(), b":Table ?", in_mode(false), mixed));
}

fn expands(alloc: Global) -> bool {
    match named(alloc) {
        Ok(fragments) => match expanded_wide_query_in(alloc, QUERY, &fragments, false) {
            Ok(expanded) => {
                expanded.query.as_slice()
                    == b"SELECT ':Table' FROM `t``1` WHERE id IN (?, ?)".as_slice()
                    && expanded.values.len() == 2
            }
            Err(_) => false,
        },
        Err(_) => false,
    }
}

#[test]
fn a_query_with_marks(rt: HostRuntime) {
    assert!(rt; expands(rt.alloc()));
}

#[test]
fn borrowed_fragments(rt: HostRuntime) {
    let list = [ValueRef::Int(7), ValueRef::NULL];
    let fragments = [FragmentRef::List(&list)];
    let text = bind_wide_borrowed_fragments(rt.alloc(), b"(?) ':A'", &fragments, false);
    let same = match text {
        Ok(text) => text.as_slice() == b"(7, NULL) ':A'".as_slice(),
        Err(_) => false,
    };
    assert!(rt; same);
    let mut room = [b'*'; 10];
    let told = bind_wide_borrowed_fragments_into(b"(?)", &fragments, false, &mut room);
    let written = match told {
        Ok(TextInRoom::Written { len }) => len == 9,
        _ => false,
    };
    assert!(rt; written);
    assert!(rt; room == *b"(7, NULL)*");
    // Beside a wide name fragments by position are refused.
    let refused = bind_wide_borrowed_fragments(rt.alloc(), b":A", &fragments, false).is_err();
    assert!(rt; refused);
}

#[test]
fn steady_fragments_by_wide_names(rt: HostRuntime) {
    let anywhere = purpose(Scope::AnyConnection, Portability::Servers);
    let in_any_mode = purpose(Scope::AnyConnection, Portability::Any);
    assert!(rt; gives(rt.alloc(), QUERY, anywhere, WANTED));
    assert!(rt; gives(rt.alloc(), QUERY, in_any_mode, WANTED));
    assert!(rt; gives(rt.alloc(), b"[a] (:userIds)", in_any_mode, b"[a] (7, NULL)"));
    let unsteady = BindRefusal::Query(QueryRefusal::Unsteady { at: 8 });
    assert!(rt; refused(rt.alloc(), b":Table '\\'", anywhere, unsteady));
    let mixed = BindRefusal::Fragments(FragmentsError::Mixed);
    assert!(rt; refused(rt.alloc(), b":Table ?", anywhere, mixed));
    assert!(rt; given(rt.alloc(), b"/*+ :Table */", anywhere).is_err());
}
