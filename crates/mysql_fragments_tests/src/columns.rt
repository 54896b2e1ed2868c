//! Columns and assignments. The wanted texts are written by the grammar of the MySQL Reference
//! Manual, "INSERT Statement", "UPDATE Statement" and "Schema Object Names".
use crate::shared::Plain::{Assignments, Identifiers};
use crate::shared::PlainItem::{Decimal as Number, Double as Binary, Float, Int, Null, Text};
use crate::shared::{Plain, bound, fragment};
use mysql_fragments::{
    FragmentFault, FragmentRef, Fragments, FragmentsError, bind_borrowed_fragments, expanded_query,
};
use mysql_values::value::Value;
use std::alloc::Global;

const TEXTS: &[(&[u8], Plain, &[u8])] = &[
    (
        b"INSERT INTO t (?) VALUES (1, 2)",
        Identifiers(&[&[b"a"], &[b"t", b"b`c"]]),
        b"INSERT INTO t (`a`, `t`.`b``c`) VALUES (1, 2)",
    ),
    (
        b"SELECT ? FROM t",
        Identifiers(&[&[b"a, b"]]),
        b"SELECT `a, b` FROM t",
    ),
    (
        b"UPDATE t SET ? WHERE id = 7",
        Assignments(&[(&[b"a"], Int(1)), (&[b"t", b"b"], Text(b"it's"))]),
        b"UPDATE t SET `a` = 1, `t`.`b` = 'it\\'s' WHERE id = 7",
    ),
    // A double's number is that of Python's `repr`.
    (
        b"INSERT INTO t SET ?",
        Assignments(&[
            (&[b"a = 1, b"], Null),
            (&[b"c"], Number(b"-1.50")),
            (&[b"d"], Binary(0xbff8_0000_0000_0000)),
            (&[b"e"], Int(-3)),
        ]),
        b"INSERT INTO t SET `a = 1, b` = NULL, `c` = -1.50, `d` = -1.5e0, `e` = -3",
    ),
];

const FAULTS: &[(Plain, FragmentFault)] = &[
    (Identifiers(&[]), FragmentFault::Empty),
    (Identifiers(&[&[b"a"], &[]]), FragmentFault::Empty),
    (
        Identifiers(&[&[b"a"], &[b""], &[]]),
        FragmentFault::EmptyName { part: 1 },
    ),
    // Names are counted through all columns.
    (
        Identifiers(&[&[b"t", b"a"], &[b"t", b"b "]]),
        FragmentFault::TrailingSpace { part: 3 },
    ),
    (Assignments(&[]), FragmentFault::Empty),
    (Assignments(&[(&[], Number(b"x"))]), FragmentFault::Empty),
    (
        Assignments(&[(&[b"a"], Int(1)), (&[b"b"], Number(b"1e5")), (&[], Null)]),
        FragmentFault::Number { row: 0, item: 1 },
    ),
    // The fault of a column comes before that of its item.
    (
        Assignments(&[(&[b"t", b"a"], Int(1)), (&[b"b\0"], Number(b"1e5"))]),
        FragmentFault::ZeroByte { part: 2 },
    ),
];

fn gives(alloc: Global, query: &[u8], plain: Plain, wanted: &[u8]) -> bool {
    match bound(alloc, query, plain) {
        Ok(text) => text.as_slice() == wanted,
        Err(_) => false,
    }
}

fn borrowed_gives(alloc: Global, query: &[u8], plain: Plain, wanted: &[u8]) -> bool {
    match fragment(alloc, plain) {
        Ok(fragment) => {
            let fragments = [FragmentRef::Owned(&fragment)];
            match bind_borrowed_fragments(alloc, query, fragments.as_slice(), false) {
                Ok(text) => text.as_slice() == wanted,
                Err(_) => false,
            }
        }
        Err(_) => false,
    }
}

#[test]
fn columns_and_assignments_in_a_place(rt: HostRuntime) {
    for (query, plain, wanted) in TEXTS {
        let same = gives(rt.alloc(), *query, *plain, *wanted);
        assert!(rt; same);
    }
}

#[test]
fn borrowed_columns_and_assignments(rt: HostRuntime) {
    for (query, plain, wanted) in TEXTS {
        let same = borrowed_gives(rt.alloc(), *query, *plain, *wanted);
        assert!(rt; same);
    }
}

fn has_fault(alloc: Global, plain: Plain, wanted: FragmentFault) -> bool {
    match bound(alloc, b"?", plain) {
        Err(FragmentsError::Fault { place, fault }) => place == 0 && fault == wanted,
        _ => false,
    }
}

#[test]
fn faults_of_columns_and_assignments(rt: HostRuntime) {
    for (plain, fault) in FAULTS {
        let told = has_fault(rt.alloc(), *plain, *fault);
        assert!(rt; told);
    }
}

// The fault of its first column comes after the float.
const FLOAT: Plain = Assignments(&[(&[b""], Int(1)), (&[b"b"], Float(0))]);

fn has_float(alloc: Global) -> bool {
    match bound(alloc, b"?", FLOAT) {
        Err(FragmentsError::Float { place }) => place == 0,
        _ => false,
    }
}

#[test]
fn a_float_is_told_before_a_fault(rt: HostRuntime) {
    let float = has_float(rt.alloc());
    assert!(rt; float);
}

fn positional(alloc: Global, plain: Plain) -> Option<Fragments> {
    let mut list = Vec::new(alloc);
    list.push(fragment(alloc, plain).ok()?).ok()?;
    Some(Fragments::Positional(list))
}

const CHANGES: Plain = Assignments(&[
    (&[b"a"], Int(7)),
    (&[b"b"], Number(b"-1.50")),
    (&[b"c"], Null),
]);

const CHANGES_WITH_MARKS: &[u8] = b"UPDATE t SET `a` = ?, `b` = -1.50, `c` = ?";

fn expanded(alloc: Global) -> bool {
    match positional(alloc, CHANGES) {
        Some(fragments) => match expanded_query(alloc, b"UPDATE t SET ?", &fragments) {
            Ok(expanded) => {
                let values = expanded.values.as_slice();
                let are_given = matches!(values, [Value::Int(7), Value::NULL]);
                are_given && expanded.query.as_slice() == CHANGES_WITH_MARKS
            }
            Err(_) => false,
        },
        None => false,
    }
}

#[test]
fn assignments_of_a_prepared_statement(rt: HostRuntime) {
    let same = expanded(rt.alloc());
    assert!(rt; same);
}
