//! Fragments that arguments make. The wanted texts are written by the rules of the MySQL Reference
//! Manual, "Schema Object Names", "Numeric Literals", "Row Subqueries", "INSERT Statement" and
//! "UPDATE Statement".
use mysql_bind_call::bind_fragments;
use mysql_fragments::FragmentsError;
use mysql_params_core::params::ToParamsError;
use mysql_to_fragments::{
    AssignmentsOf, Decimal, DoubleOf, Identifier, Identifiers, ListOf, Qualified, RowsOf,
    ToFragments, Word,
};
use mysql_values::value::convert::ToValueError;
use std::alloc::Global;
use std::time::Duration;

/// A duration of more days than a `Time` has, in seconds.
const TOO_LONG: u64 = 371085174374400;

// Whether a query and arguments for it give this text.
fn arguments_give<A: ToFragments>(
    alloc: Global,
    query: &[u8],
    arguments: &A,
    wanted: &[u8],
) -> bool {
    match arguments.to_fragments(alloc) {
        Ok(fragments) => match bind_fragments(alloc, query, &fragments) {
            Ok(text) => text.as_slice() == wanted,
            Err(_) => false,
        },
        Err(_) => false,
    }
}

#[test]
fn values_and_exact_numbers(rt: HostRuntime) {
    let arguments = (
        ("a", -7i8),
        ("b", "it's"),
        ("c", Decimal(b"-1.50")),
        ("d", None::<u8>),
    );
    let same = arguments_give(
        rt.alloc(),
        b":d, :c, :b, :a",
        &arguments,
        b"NULL, -1.50, 'it\\'s', -7",
    );
    assert!(rt; same);
}

#[test]
fn a_list_and_rows(rt: HostRuntime) {
    let ids = [7u64, 1, 42];
    let rows = [(1u8, "x", Decimal(b"0.5")), (2, "y", Decimal(b"2"))];
    let arguments = (
        ("ids", ListOf(ids.as_slice())),
        ("rows", RowsOf(rows.as_slice())),
    );
    let same = arguments_give(
        rt.alloc(),
        b"a IN (:ids) AND (b, c, d) IN (:rows)",
        &arguments,
        b"a IN (7, 1, 42) AND (b, c, d) IN ((1, 'x', 0.5), (2, 'y', 2))",
    );
    assert!(rt; same);
}

#[test]
fn names_and_a_keyword(rt: HostRuntime) {
    let parts: [&[u8]; 2] = [b"db.x", b"t"];
    let arguments = (
        ("table", Qualified(parts.as_slice())),
        ("column", Identifier(b"a`b")),
        ("way", Word(b"DESC")),
    );
    let same = arguments_give(
        rt.alloc(),
        b"TABLE :table ORDER BY :column :way",
        &arguments,
        b"TABLE `db.x`.`t` ORDER BY `a``b` DESC",
    );
    assert!(rt; same);
}

#[test]
fn columns_and_assignments(rt: HostRuntime) {
    let a: [&[u8]; 1] = [b"a"];
    let b: [&[u8]; 2] = [b"t", b"b`"];
    let columns = [a.as_slice(), b.as_slice()];
    let changes = [(a.as_slice(), "x"), (b.as_slice(), "y")];
    let arguments = (
        ("columns", Identifiers(columns.as_slice())),
        ("changes", AssignmentsOf(changes.as_slice())),
    );
    let same = arguments_give(
        rt.alloc(),
        b"INSERT INTO t (:columns) VALUES (1, 2) ON DUPLICATE KEY UPDATE :changes",
        &arguments,
        b"INSERT INTO t (`a`, `t`.`b```) VALUES (1, 2) \
          ON DUPLICATE KEY UPDATE `a` = 'x', `t`.`b``` = 'y'",
    );
    assert!(rt; same);
}

#[test]
fn eight_of_each(rt: HostRuntime) {
    let rows = [(1u8, 2u8, 3u8, 4u8, 5u8, 6u8, 7u8, 8u8)];
    let arguments = (
        ("a", 1u8),
        ("b", 2u8),
        ("c", 3u8),
        ("d", 4u8),
        ("e", 5u8),
        ("f", 6u8),
        ("g", 7u8),
        ("h", RowsOf(rows.as_slice())),
    );
    let same = arguments_give(
        rt.alloc(),
        b":a,:b,:c,:d,:e,:f,:g,:h",
        &arguments,
        b"1,2,3,4,5,6,7,(1, 2, 3, 4, 5, 6, 7, 8)",
    );
    assert!(rt; same);
}

// A float is written as the double of its value: 0.1 as one of 32 bits isn't the double 0.1.
#[test]
fn doubles_and_floats(rt: HostRuntime) {
    let list = [DoubleOf(0.5), DoubleOf(-0.0)];
    let rows = [(1u8, DoubleOf(1e300)), (2, DoubleOf(0.1))];
    let arguments = (
        ("a", DoubleOf(-1.5e-7)),
        ("b", DoubleOf(0.1f32)),
        ("c", ListOf(list.as_slice())),
        ("d", RowsOf(rows.as_slice())),
    );
    let same = arguments_give(
        rt.alloc(),
        b":a, :b, (:c), :d",
        &arguments,
        b"-1.5e-7, 0.10000000149011612e0, (0.5e0, -0.0e0), (1, 1e300), (2, 0.1e0)",
    );
    assert!(rt; same);
}

// Whether arguments are refused for a float in this place.
fn is_float<A: ToFragments>(alloc: Global, arguments: &A, wanted: usize) -> bool {
    match arguments.to_fragments(alloc) {
        Ok(fragments) => match bind_fragments(alloc, b":a, :b", &fragments) {
            Err(FragmentsError::Float { place }) => place == wanted,
            _ => false,
        },
        Err(_) => false,
    }
}

#[test]
fn doubles_without_a_number_are_refused(rt: HostRuntime) {
    let list = [DoubleOf(1.5), DoubleOf(f64::NAN)];
    let infinite = is_float(rt.alloc(), &(("a", DoubleOf(f64::INFINITY)), ("b", 1u8)), 0);
    assert!(rt; infinite);
    let listed = is_float(
        rt.alloc(),
        &(("a", DoubleOf(1.5)), ("b", ListOf(list.as_slice()))),
        1,
    );
    assert!(rt; listed);
    let float = is_float(
        rt.alloc(),
        &(("a", DoubleOf(1.5)), ("b", DoubleOf(f32::NEG_INFINITY))),
        1,
    );
    assert!(rt; float);
}

// Whether arguments are refused for this name, which is that of two.
fn is_redefined<A: ToFragments>(alloc: Global, arguments: &A, wanted: &[u8]) -> bool {
    match arguments.to_fragments(alloc) {
        Err(ToParamsError::Redefined(name)) => name.as_slice() == wanted,
        _ => false,
    }
}

// Whether arguments are refused for a duration.
fn is_too_long<A: ToFragments>(alloc: Global, arguments: &A) -> bool {
    match arguments.to_fragments(alloc) {
        Err(ToParamsError::Value(ToValueError::DurationTooLong(duration))) => {
            duration == Duration::from_secs(TOO_LONG)
        }
        _ => false,
    }
}

#[test]
fn a_name_of_two_is_refused(rt: HostRuntime) {
    let arguments = (("ab", 1u8), ("b", 2u8), ("ab", Identifier(b"c")));
    let told = is_redefined(rt.alloc(), &arguments, b"ab");
    assert!(rt; told);
}

#[test]
fn durations_that_are_too_long_are_refused(rt: HostRuntime) {
    let long = Duration::from_secs(TOO_LONG);
    let list = [Duration::from_secs(1), long];
    let rows = [(1u8, Duration::from_secs(1)), (2, long)];
    let alone = is_too_long(rt.alloc(), &(("a", 1u8), ("b", long)));
    assert!(rt; alone);
    let listed = is_too_long(rt.alloc(), &(("a", ListOf(list.as_slice())),));
    assert!(rt; listed);
    let a: [&[u8]; 1] = [b"a"];
    let changes = [(a.as_slice(), Duration::from_secs(1)), (a.as_slice(), long)];
    let assigned = is_too_long(rt.alloc(), &(("a", AssignmentsOf(changes.as_slice())),));
    assert!(rt; assigned);
    let in_a_row = is_too_long(rt.alloc(), &(("a", RowsOf(rows.as_slice())),));
    assert!(rt; in_a_row);
}
