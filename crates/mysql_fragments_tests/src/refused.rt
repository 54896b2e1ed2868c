//! What is refused.
use crate::shared::Plain::{Decimal, Identifier, Keyword, List, Qualified, Rows};
use crate::shared::PlainItem::{Decimal as Number, Float, Int};
use crate::shared::{Plain, bound};
use mysql_fragments::{FragmentFault, FragmentsError};
use std::alloc::Global;

const FAULTS: &[(Plain, FragmentFault)] = &[
    (List(&[]), FragmentFault::Empty),
    (Rows(&[]), FragmentFault::Empty),
    (Qualified(&[]), FragmentFault::Empty),
    (Rows(&[&[Int(1)], &[]]), FragmentFault::EmptyRow { row: 1 }),
    (
        Rows(&[&[Int(1)], &[Int(2), Int(3)]]),
        FragmentFault::RowLength { row: 1 },
    ),
    (
        Rows(&[&[Int(1)], &[Number(b"1e5")]]),
        FragmentFault::Number { row: 1, item: 0 },
    ),
    (
        List(&[Int(1), Number(b"")]),
        FragmentFault::Number { row: 0, item: 1 },
    ),
    (Decimal(b"1."), FragmentFault::Number { row: 0, item: 0 }),
    (Decimal(b".5"), FragmentFault::Number { row: 0, item: 0 }),
    (Decimal(b"1.2.3"), FragmentFault::Number { row: 0, item: 0 }),
    (Decimal(b"--1"), FragmentFault::Number { row: 0, item: 0 }),
    (Decimal(b"0x1"), FragmentFault::Number { row: 0, item: 0 }),
    (
        Decimal(&[b'1'; 66]),
        FragmentFault::Number { row: 0, item: 0 },
    ),
    (Identifier(b""), FragmentFault::EmptyName { part: 0 }),
    (
        Qualified(&[b"a", b"b\0"]),
        FragmentFault::ZeroByte { part: 1 },
    ),
    (
        Qualified(&[b"a", b"b "]),
        FragmentFault::TrailingSpace { part: 1 },
    ),
    (Identifier(&[b'a'; 65]), FragmentFault::LongName { part: 0 }),
    (Identifier(b"a\\"), FragmentFault::Backslash { part: 0 }),
    (Identifier(b"\\\\"), FragmentFault::Backslash { part: 0 }),
    (Identifier(b"\\`b"), FragmentFault::Backslash { part: 0 }),
    (
        Qualified(&[b"a\\b", b"a``\\`b"]),
        FragmentFault::Backslash { part: 1 },
    ),
    // A name is tried for a backslash last.
    (Identifier(b"\\`\0"), FragmentFault::ZeroByte { part: 0 }),
    (
        Identifier(&[b'\\'; 65]),
        FragmentFault::LongName { part: 0 },
    ),
    (
        Identifier(b"\\` "),
        FragmentFault::TrailingSpace { part: 0 },
    ),
    (Keyword(b"ASC "), FragmentFault::Keyword),
    (Keyword(b"_utf8mb4"), FragmentFault::Keyword),
    (Keyword(b"a;b"), FragmentFault::Keyword),
];

fn has_fault(alloc: Global, plain: Plain, wanted: FragmentFault) -> bool {
    match bound(alloc, b"?", plain) {
        Err(FragmentsError::Fault { place, fault }) => place == 0 && fault == wanted,
        _ => false,
    }
}

#[test]
fn faults_are_told(rt: HostRuntime) {
    for (plain, fault) in FAULTS {
        let told = has_fault(rt.alloc(), *plain, *fault);
        assert!(rt; told);
    }
}

fn is_not_alone(alloc: Global) -> bool {
    match bound(alloc, b"SELECT 1?", List(&[])) {
        Err(FragmentsError::NotAlone { place, at }) => place == 0 && at == 8,
        _ => false,
    }
}

fn has_float(alloc: Global) -> bool {
    match bound(alloc, b"?", Rows(&[&[Float(0)], &[]])) {
        Err(FragmentsError::Float { place }) => place == 0,
        _ => false,
    }
}

#[test]
fn causes_of_bind_text_come_first(rt: HostRuntime) {
    let alone = is_not_alone(rt.alloc());
    assert!(rt; alone);
    let float = has_float(rt.alloc());
    assert!(rt; float);
}
