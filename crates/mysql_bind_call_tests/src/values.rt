//! Texts of values for each purpose. The wanted texts are written by the rules of the MySQL
//! Reference Manual, "String Literals", "Hexadecimal Literals" and "Character Set Introducers".
use crate::purposes::{BACKSLASHES, NO_BACKSLASHES, PORTABILITIES, purpose};
use mysql_bind_call::{ByPosition, GiveValues, Portability, Purpose, Scope, bind};
use mysql_params_core::params::{NamedPairs, Params};
use mysql_values::bytes::Bytes;
use mysql_values::value::{Value, ValueRef};
use std::alloc::{AllocError, Global};
use std::collections::{BTreeMap, HashMap};

// `it's\`
const VALUE: &[u8] = b"it's\\";

// A scope, and the literal of the value for it. With backslash escapes `\'` is a quote, and `\\` a
// backslash. Without them `''` is a quote, and a backslash is a byte like any other. For the other
// scopes the value is written by its digits.
const LITERALS: &[(Scope, &[u8])] = &[
    (BACKSLASHES, b"'it\\'s\\\\'"),
    (NO_BACKSLASHES, b"'it''s\\'"),
    (Scope::EitherMode, b"_utf8mb4 0x697427735C"),
    (Scope::AnyConnection, b"_utf8mb4 0x697427735C"),
];

fn is_bound<V: GiveValues>(
    alloc: Global,
    query: &[u8],
    values: &V,
    purpose: Purpose,
    literal: &[u8],
) -> bool {
    let Ok(text) = bind(alloc, query, values, purpose) else {
        return false;
    };
    match text.as_slice() {
        [b'S', b'E', b'L', b'E', b'C', b'T', b' ', rest @ ..] => rest == literal,
        _ => false,
    }
}

fn value(alloc: Global) -> Result<Value, AllocError> {
    Ok(Value::Bytes(Bytes::from(Vec::from_slice(alloc, VALUE)?)))
}

fn sorted(alloc: Global, name: &[u8]) -> Result<BTreeMap<Vec<u8>, Value>, AllocError> {
    let mut entries = BTreeMap::new(alloc);
    entries.insert(Vec::from_slice(alloc, name)?, value(alloc)?)?;
    Ok(entries)
}

fn params(alloc: Global, name: &[u8]) -> Result<Params, AllocError> {
    let mut entries = HashMap::new(alloc);
    entries.insert(Vec::from_slice(alloc, name)?, value(alloc)?)?;
    Ok(Params::Named(entries))
}

#[test]
fn a_pair_is_found_by_its_name(rt: HostRuntime) {
    let list = [
        (b"a".as_slice(), ValueRef::NULL),
        (b"b".as_slice(), ValueRef::Bytes(VALUE)),
    ];
    let pairs = NamedPairs(&list);
    assert!(rt; pairs.index_of(b"b") == Some(1));
    assert!(rt; pairs.index_of(b"B").is_none());
}

#[test]
fn pairs_for_each_purpose(rt: HostRuntime) {
    let narrow = [(b"a".as_slice(), ValueRef::Bytes(VALUE))];
    let wide = [(b"A".as_slice(), ValueRef::Bytes(VALUE))];
    for (scope, literal) in LITERALS {
        for portability in PORTABILITIES {
            let narrow_purpose = purpose(*scope, *portability, false);
            let pairs = NamedPairs(&narrow);
            let bound = is_bound(rt.alloc(), b"SELECT :a", &pairs, narrow_purpose, *literal);
            assert!(rt; bound);
            let wide_purpose = purpose(*scope, *portability, true);
            let pairs = NamedPairs(&wide);
            let bound = is_bound(rt.alloc(), b"SELECT :A", &pairs, wide_purpose, *literal);
            assert!(rt; bound);
        }
    }
}

#[test]
fn values_by_position_for_each_purpose(rt: HostRuntime) {
    let list = [ValueRef::Bytes(VALUE)];
    for (scope, literal) in LITERALS {
        for portability in PORTABILITIES {
            let narrow = purpose(*scope, *portability, false);
            let values = ByPosition(&list);
            let bound = is_bound(rt.alloc(), b"SELECT ?", &values, narrow, *literal);
            assert!(rt; bound);
            let wide = purpose(*scope, *portability, true);
            let bound = is_bound(rt.alloc(), b"SELECT ?", &values, wide, *literal);
            assert!(rt; bound);
        }
    }
}

#[test]
fn sorted_maps_for_each_purpose(rt: HostRuntime) {
    let entries = sorted(rt.alloc(), b"A").expect(&rt, "a map");
    for (scope, literal) in LITERALS {
        for portability in PORTABILITIES {
            let wide = purpose(*scope, *portability, true);
            let bound = is_bound(rt.alloc(), b"SELECT :A", &entries, wide, *literal);
            assert!(rt; bound);
        }
    }
}

#[test]
fn params_for_each_purpose(rt: HostRuntime) {
    let params = params(rt.alloc(), b"a").expect(&rt, "parameters");
    for (scope, literal) in LITERALS {
        for portability in PORTABILITIES {
            let narrow = purpose(*scope, *portability, false);
            let bound = is_bound(rt.alloc(), b"SELECT :a", &params, narrow, *literal);
            assert!(rt; bound);
        }
    }
}

// A capital is no name of the grammar, so it stays as it is.
#[test]
fn capitals_begin_no_name_of_the_grammar(rt: HostRuntime) {
    let pairs = [(b"a".as_slice(), ValueRef::UInt(5))];
    let narrow = purpose(Scope::AnyConnection, Portability::Servers, false);
    let text = bind(rt.alloc(), b":A = :a", &NamedPairs(&pairs), narrow).expect(&rt, "a text");
    assert_eq!(rt; text.as_slice(), b":A = 5".as_slice());
}

// A query for either mode may have bytes from 128 on, here `\xC3\xBC`.
#[test]
fn bytes_from_128_on_in_either_mode(rt: HostRuntime) {
    let values = [ValueRef::Bytes(b"x")];
    let either = purpose(Scope::EitherMode, Portability::Any, false);
    let text = bind(
        rt.alloc(),
        b"SELECT '\xC3\xBC', a[1], ?",
        &ByPosition(&values),
        either,
    )
    .expect(&rt, "a text");
    assert_eq!(rt;
        text.as_slice(),
        b"SELECT '\xC3\xBC', a[1], _utf8mb4'x'".as_slice()
    );
}
