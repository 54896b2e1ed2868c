//! Texts that are bound to borrowed fragments. The wanted texts are written by the rules of the
//! MySQL Reference Manual, "VALUES Statement", "Comparison Functions and Operators", "String
//! Literals" and "Server SQL Modes" (of `NO_BACKSLASH_ESCAPES`).
use mysql_fragments::{
    Fragment, FragmentFault, FragmentRef, FragmentsError, RowsRef, bind_borrowed_fragments,
};
use mysql_params_core::params::ParamsConfusionError;
use mysql_values::value::{Value, ValueRef};
use std::alloc::Global;

const CELLS: &[ValueRef<'static>] = &[
    ValueRef::Int(1),
    ValueRef::Bytes(b"it's"),
    ValueRef::Int(-2),
    ValueRef::NULL,
];

fn borrowed_gives(
    alloc: Global,
    query: &[u8],
    fragments: &[FragmentRef<'_>],
    wanted: &[u8],
) -> bool {
    match bind_borrowed_fragments(alloc, query, fragments, false) {
        Ok(text) => text.as_slice() == wanted,
        Err(_) => false,
    }
}

fn borrowed_refused(
    alloc: Global,
    query: &[u8],
    fragments: &[FragmentRef<'_>],
    wanted: FragmentsError,
) -> bool {
    match bind_borrowed_fragments(alloc, query, fragments, false) {
        Ok(_) => false,
        Err(error) => error == wanted,
    }
}

fn rows_fault(cells: &[ValueRef<'_>], width: usize) -> Option<FragmentFault> {
    RowsRef::new(cells, width).err()
}

#[test]
fn borrowed_list(rt: HostRuntime) {
    let same = borrowed_gives(
        rt.alloc(),
        b"a IN (?)",
        &[FragmentRef::List(CELLS)],
        b"a IN (1, 'it\\'s', -2, NULL)",
    );
    assert!(rt; same);
}

#[test]
fn borrowed_rows(rt: HostRuntime) {
    let same = match RowsRef::new(CELLS, 2) {
        Ok(rows) => {
            rows.len() == 2
                && borrowed_gives(
                    rt.alloc(),
                    b"VALUES ?;",
                    &[FragmentRef::Rows(rows)],
                    b"VALUES (1, 'it\\'s'), (-2, NULL);",
                )
        }
        Err(_) => false,
    };
    assert!(rt; same);
}

// A backslash is a byte like any other, and a quote is doubled.
#[test]
fn borrowed_texts_without_backslashes(rt: HostRuntime) {
    let texts = [ValueRef::Bytes(b"it's"), ValueRef::Bytes(b"a\\b")];
    let fragments = [
        FragmentRef::List(&texts),
        FragmentRef::Value(ValueRef::Bytes(b"it's")),
    ];
    let text = bind_borrowed_fragments(rt.alloc(), b"a IN (?) OR b=?", &fragments, true);
    let same = match text {
        Ok(text) => text.as_slice() == b"a IN ('it''s', 'a\\b') OR b='it''s'".as_slice(),
        Err(_) => false,
    };
    assert!(rt; same);
}

#[test]
fn borrowed_value_beside_a_fragment(rt: HostRuntime) {
    let owned = Fragment::Value(Value::Int(7));
    let same = borrowed_gives(
        rt.alloc(),
        b"?=?",
        &[
            FragmentRef::Owned(&owned),
            FragmentRef::Value(ValueRef::UInt(8)),
        ],
        b"7=8",
    );
    assert!(rt; same);
}

#[test]
fn cells_that_are_no_rows(rt: HostRuntime) {
    assert!(rt; rows_fault(&[], 2) == Some(FragmentFault::Empty));
    assert!(rt; rows_fault(CELLS, 0) == Some(FragmentFault::EmptyRow { row: 0 }));
    assert!(rt; rows_fault(CELLS, 3) == Some(FragmentFault::RowLength { row: 1 }));
    assert!(rt; rows_fault(CELLS, 5) == Some(FragmentFault::RowLength { row: 0 }));
    assert!(rt; rows_fault(CELLS, 4) == None);
}

#[test]
fn borrowed_causes(rt: HostRuntime) {
    let alloc = rt.alloc();
    let empty = borrowed_refused(
        alloc,
        b"a IN (?)",
        &[FragmentRef::List(&[])],
        FragmentsError::Fault {
            place: 0,
            fault: FragmentFault::Empty,
        },
    );
    assert!(rt; empty);
    let float = borrowed_refused(
        alloc,
        b"a IN (?)",
        &[FragmentRef::List(&[ValueRef::NULL, ValueRef::Double(0)])],
        FragmentsError::Float { place: 0 },
    );
    assert!(rt; float);
    let few = borrowed_refused(
        alloc,
        b"? = ?",
        &[FragmentRef::List(CELLS)],
        FragmentsError::MarkCount {
            marks: 2,
            fragments: 1,
        },
    );
    assert!(rt; few);
}

#[test]
fn borrowed_causes_of_the_query(rt: HostRuntime) {
    let alloc = rt.alloc();
    let alone = borrowed_refused(
        alloc,
        b"1?",
        &[FragmentRef::Value(ValueRef::Int(1))],
        FragmentsError::NotAlone { place: 0, at: 1 },
    );
    assert!(rt; alone);
    let named = borrowed_refused(
        alloc,
        b":a",
        &[FragmentRef::List(CELLS)],
        FragmentsError::Confusion(ParamsConfusionError::PositionalParamsForNamedQuery),
    );
    assert!(rt; named);
    let mixed = borrowed_refused(
        alloc,
        b":a ?",
        &[FragmentRef::List(CELLS)],
        FragmentsError::Mixed,
    );
    assert!(rt; mixed);
}
