//! Values: how they are shown, compared and copied.
use crate::shared::{Plain, answer_of, same_in, value, value_ref, value_refs, values};
use mysql_values::bytes::Bytes;
use std::cmp::Ordering;
use std::fmt::Debug;
use std::process::Abort;

// Values, and how they are shown.
const SHOWN: &[(Plain, &str)] = &[
    (Plain::Bytes(b""), "Bytes(\"\")"),
    (Plain::Bytes(b"it's ok!"), "Bytes(\"it's ok!\")"),
    (Plain::Bytes(b"123456789"), "Bytes(\"12345678..\")"),
    (
        Plain::Bytes(b"\"\\\x00\x1f ~\x7f\xff"),
        "Bytes(\"\\x22\\x5c\\x00\\x1f ~\\x7f\\xff\")",
    ),
    (
        Plain::Date(2019, 11, 27, 0, 0, 0, 0),
        "Date(\"'2019-11-27'\")",
    ),
    (
        Plain::Date(1, 2, 3, 0, 0, 4, 0),
        "Date(\"'0001-02-03 00:00:04'\")",
    ),
    (
        Plain::Date(2019, 11, 27, 12, 30, 0, 56),
        "Date(\"'2019-11-27 12:30:00.000056'\")",
    ),
    (
        Plain::Date(65535, 255, 255, 0, 0, 0, 4294967295),
        "Date(\"'65535-255-255 00:00:00.4294967295'\")",
    ),
    (
        Plain::Time(true, 300, 8, 8, 8, 123456),
        "Time(\"'-7208:08:08.123456'\")",
    ),
    (Plain::Time(true, 0, 0, 0, 0, 0), "Time(\"'-000:00:00'\")"),
    (
        Plain::Time(false, 4294967295, 255, 0, 0, 0),
        "Time(\"'103079215335:00:00'\")",
    ),
    (Plain::Null, "Null"),
    (Plain::Int(-3), "Int(-3)"),
    (Plain::UInt(5), "UInt(5)"),
    (Plain::Float(1065353216), "Float(1065353216)"),
    (Plain::Double(0), "Double(0)"),
];

#[test]
fn debug_texts(rt: HostRuntime) {
    for (plain, text) in SHOWN {
        let value = value(&rt, rt.alloc(), *plain);
        let shown = answer_of(&rt, format!(in rt.alloc(); "{value:?}"));
        same_in(&rt, shown.as_str(), *text, &"a value");
        let borrowed = value_ref(*plain);
        let shown = answer_of(&rt, format!(in rt.alloc(); "{borrowed:?}"));
        same_in(&rt, shown.as_str(), *text, &"a borrowed value");
    }
}

// Values in their order, no two of them equal.
const ASCENDING: &[Plain] = &[
    Plain::Null,
    Plain::Bytes(b""),
    Plain::Bytes(b"a"),
    Plain::Bytes(b"ab"),
    Plain::Bytes(b"b"),
    Plain::Bytes(b"\xff"),
    Plain::Int(-1),
    Plain::Int(0),
    Plain::UInt(0),
    Plain::UInt(9223372036854775808),
    // The bits of 1.0 and of -1.0.
    Plain::Float(1065353216),
    Plain::Float(3212836864),
    Plain::Double(0),
    Plain::Date(2018, 12, 31, 23, 59, 59, 999999),
    Plain::Date(2019, 1, 1, 0, 0, 0, 0),
    Plain::Date(2019, 1, 1, 0, 0, 0, 1),
    Plain::Time(false, 1, 0, 0, 0, 0),
    Plain::Time(false, 1, 0, 0, 1, 0),
    Plain::Time(true, 0, 0, 0, 0, 0),
    Plain::Time(true, 1, 0, 0, 0, 0),
];

// Two values stand in this order, and are equal if it says so.
fn are_in_order<T: Debug + Ord>(rt: &impl Abort, a: &T, b: &T, order: Ordering) {
    let found = (a.cmp(b), a.partial_cmp(b), a == b);
    let wanted = (order, Some(order), order == Ordering::Equal);
    same_in(rt, found, wanted, &(a, b));
}

#[test]
fn equality_and_order(rt: HostRuntime) {
    let values = values(&rt, rt.alloc(), ASCENDING);
    // The copy of a vector goes by the trait.
    let copies = answer_of(&rt, values.clone());
    for (i, a) in values.iter().enumerate() {
        for (j, b) in copies.iter().enumerate() {
            are_in_order(&rt, a, b, i.cmp(&j));
        }
    }
}

#[test]
fn equality_and_order_of_borrowed_values(rt: HostRuntime) {
    let values = value_refs(&rt, rt.alloc(), ASCENDING);
    for (i, a) in values.iter().enumerate() {
        for (j, b) in values.iter().enumerate() {
            are_in_order(&rt, a, b, i.cmp(&j));
        }
    }
}

#[test]
fn borrowed_and_owned_values(rt: HostRuntime) {
    for plain in ASCENDING {
        let owned = value(&rt, rt.alloc(), *plain);
        let borrowed = value_ref(*plain);
        same_in(&rt, owned.borrowed(), borrowed, &owned);
        let copy = answer_of(&rt, borrowed.to_value(rt.alloc()));
        same_in(&rt, &copy, &owned, &borrowed);
    }
}

#[test]
fn bytes_and_vectors(rt: HostRuntime) {
    let text = Bytes::from(answer_of(&rt, Vec::from_slice(rt.alloc(), b"text")));
    let copy = Vec::<u8>::from(answer_of(&rt, text.clone()));
    same_in(&rt, copy.as_slice(), b"text", &"a copy");
}
