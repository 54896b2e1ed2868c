//! Texts that are bound to fragments. The wanted texts are written by the rules of the MySQL
//! Reference Manual, "Schema Object Names", "Numeric Literals" and "Comparison Functions and
//! Operators".
use crate::shared::Plain::{Decimal, Double, Identifier, Keyword, List, Qualified, Rows};
use crate::shared::PlainItem::{Decimal as Number, Double as Binary, Int, Null};
use crate::shared::{Plain, bound, fragment};
use mysql_bind_call::bind_fragments;
use mysql_fragments::{Fragment, Fragments, expanded_for_literals, expanded_query};
use mysql_values::value::Value;
use std::alloc::Global;
use std::collections::HashMap;

const TEXTS: &[(&[u8], Plain, &[u8])] = &[
    (
        b"a IN (?) -- ?\n",
        List(&[Int(7), Number(b"-1.50"), Null]),
        b"a IN (7, -1.50, NULL) -- ?\n",
    ),
    (
        b"VALUES ?",
        Rows(&[&[Int(1), Int(-2)], &[Int(3), Null]]),
        b"VALUES (1, -2), (3, NULL)",
    ),
    (b"1-?", Decimal(b"-0.5"), b"1--0.5"),
    // 2^128 - 1.
    (
        b"?",
        Decimal(b"340282366920938463463374607431768211455"),
        b"340282366920938463463374607431768211455",
    ),
    // 65 digits, which a server keeps.
    (b"?", Decimal(&[b'9'; 65]), &[b'9'; 65]),
    // 1.5, -5e-324, the nearest double to 0.1, 2^53: the digits are those of Python's `repr`.
    (b"a=?", Double(0x3ff8_0000_0000_0000), b"a=1.5e0"),
    (b"1-?;", Double(0x8000_0000_0000_0001), b"1--5e-324;"),
    (
        b"a IN (?)",
        List(&[Binary(0x3fb9_9999_9999_999a), Number(b"-1.50"), Null]),
        b"a IN (0.1e0, -1.50, NULL)",
    ),
    (
        b"VALUES ?",
        Rows(&[
            &[Int(1), Binary(0x4340_0000_0000_0000)],
            &[Int(3), Binary(0x8000_0000_0000_0000)],
        ]),
        b"VALUES (1, 9007199254740992.0e0), (3, -0.0e0)",
    ),
    (
        b"SELECT ? FROM t",
        Identifier(b"a`b"),
        b"SELECT `a``b` FROM t",
    ),
    // A backslash that stands neither last nor before a backquote.
    (
        b"SELECT ? FROM t",
        Identifier(b"\\a`\\\\b"),
        b"SELECT `\\a``\\\\b` FROM t",
    ),
    (
        b"TABLE ?",
        Qualified(&[b"db.x", b"`"]),
        b"TABLE `db.x`.````",
    ),
    (b"ORDER BY a ?", Keyword(b"DESC"), b"ORDER BY a DESC"),
    (b"a ?", Keyword(b"is not Null"), b"a is not Null"),
    (
        b"SELECT ? 1",
        Keyword(b"SQL_NO_CACHE"),
        b"SELECT SQL_NO_CACHE 1",
    ),
];

fn gives(alloc: Global, query: &[u8], plain: Plain, wanted: &[u8]) -> bool {
    match bound(alloc, query, plain) {
        Ok(text) => text.as_slice() == wanted,
        Err(_) => false,
    }
}

#[test]
fn fragments_in_a_place(rt: HostRuntime) {
    for (query, plain, wanted) in TEXTS {
        let same = gives(rt.alloc(), *query, *plain, *wanted);
        assert!(rt; same);
    }
}

fn named(alloc: Global) -> Option<Fragments> {
    let mut entries = HashMap::new(alloc);
    let ids = fragment(alloc, List(&[Int(4), Int(5)])).ok()?;
    let name = Vec::from_slice(alloc, b"ids").ok()?;
    match entries.insert(name, ids) {
        Ok(_) => Some(Fragments::Named(entries)),
        Err(_) => None,
    }
}

fn bound_by_name(alloc: Global) -> bool {
    match named(alloc) {
        Some(fragments) => match bind_fragments(alloc, b"(:ids) AND (:ids)", &fragments) {
            Ok(text) => text.as_slice() == b"(4, 5) AND (4, 5)".as_slice(),
            Err(_) => false,
        },
        None => false,
    }
}

fn expanded_by_name(alloc: Global) -> bool {
    match named(alloc) {
        Some(fragments) => match expanded_query(alloc, b"a IN (:ids)", &fragments) {
            Ok(expanded) => {
                expanded.values.len() == 2 && expanded.query.as_slice() == b"a IN (?, ?)".as_slice()
            }
            Err(_) => false,
        },
        None => false,
    }
}

fn positional(alloc: Global) -> Option<Fragments> {
    let mut list = Vec::new(alloc);
    let ids = fragment(alloc, List(&[Int(7), Number(b"-1.50"), Null])).ok()?;
    list.push(ids).ok()?;
    list.push(Fragment::Value(Value::Int(5))).ok()?;
    Some(Fragments::Positional(list))
}

const LIST_AND_VALUE: &[u8] = b"SELECT * FROM t WHERE id IN (?) AND n = ?";

const MARKS_OF_BOTH: &[u8] = b"SELECT * FROM t WHERE id IN (?, -1.50, ?) AND n = ?";

fn expanded_by_position(alloc: Global) -> bool {
    match positional(alloc) {
        Some(fragments) => match expanded_for_literals(alloc, LIST_AND_VALUE, &fragments, false) {
            Ok(expanded) => {
                let values = expanded.values.as_slice();
                let are_given = matches!(values, [Value::Int(7), Value::NULL, Value::Int(5)]);
                are_given && expanded.query.as_slice() == MARKS_OF_BOTH
            }
            Err(_) => false,
        },
        None => false,
    }
}

#[test]
fn a_name_gives_its_fragment_each_time(rt: HostRuntime) {
    let same = bound_by_name(rt.alloc());
    assert!(rt; same);
}

#[test]
fn a_prepared_statement_has_marks_and_values(rt: HostRuntime) {
    let same = expanded_by_name(rt.alloc());
    assert!(rt; same);
}

#[test]
fn a_query_for_literals_has_marks_and_values(rt: HostRuntime) {
    let same = expanded_by_position(rt.alloc());
    assert!(rt; same);
}

fn has_just_its_own_room(alloc: Global) -> bool {
    match positional(alloc) {
        Some(fragments) => match bind_fragments(alloc, LIST_AND_VALUE, &fragments) {
            Ok(text) => text.capacity() == text.len(),
            Err(_) => false,
        },
        None => false,
    }
}

#[test]
fn a_text_has_just_its_own_room(rt: HostRuntime) {
    let exact = has_just_its_own_room(rt.alloc());
    assert!(rt; exact);
}
