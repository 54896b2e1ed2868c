//! Conversions of borrowed values: as the owned ones convert, without memory.
use crate::shared::{answer_of, same_in};
use mysql_values::value::ValueRef;
use mysql_values::value::ValueRef::{Bytes, Date, Double, Float, Int, NULL, Time, UInt};
use mysql_values::value::convert::{FromValueRef, copied_bytes, copied_text};
use std::fmt::Debug;
use std::process::Abort;
use std::time::Duration;

// Each value converts to the thing beside it, or to none.
fn borrowed_gives<'v, T: FromValueRef<'v> + Copy + Debug + PartialEq>(
    rt: &impl Abort,
    rows: &[(ValueRef<'v>, Option<T>)],
) {
    for (value, wanted) in rows {
        same_in(rt, T::from_value_ref(*value), *wanted, value);
    }
}

#[test]
fn whole_numbers(rt: HostRuntime) {
    borrowed_gives::<i8>(
        &rt,
        &[
            (Int(-128), Some(-128)),
            (Int(128), None),
            (UInt(127), Some(127)),
            (Bytes(b"-128"), Some(-128)),
            (Bytes(b"+7"), Some(7)),
            (Bytes(b"7.0"), None),
            (Bytes(b""), None),
            (NULL, None),
            (Float(0), None),
        ],
    );
    borrowed_gives::<u64>(
        &rt,
        &[
            (UInt(u64::MAX), Some(u64::MAX)),
            (Int(-1), None),
            (Bytes(b"18446744073709551615"), Some(u64::MAX)),
            (Bytes(b"18446744073709551616"), None),
            (Date(0, 0, 0, 0, 0, 0, 0), None),
        ],
    );
    borrowed_gives::<i128>(&rt, &[(UInt(u64::MAX), Some(18446744073709551615))]);
}

#[test]
fn booleans(rt: HostRuntime) {
    borrowed_gives::<bool>(
        &rt,
        &[
            (Int(0), Some(false)),
            (Int(-1), Some(true)),
            (UInt(2), Some(true)),
            (Bytes(b"0"), Some(false)),
            (Bytes(b"1"), Some(true)),
            (Bytes(b"2"), None),
            (NULL, None),
        ],
    );
}

#[test]
fn durations(rt: HostRuntime) {
    borrowed_gives::<Duration>(
        &rt,
        &[
            (
                Bytes(b"899:59:59.5"),
                Some(Duration::new(3_239_999, 500_000_000)),
            ),
            (
                Time(false, 1, 2, 3, 4, 5),
                Some(Duration::new(93_784, 5_000)),
            ),
            (
                Time(false, 0, 0, 0, 0, 4_294_967_295),
                Some(Duration::new(4_294, 967_295_000)),
            ),
            (Time(true, 0, 1, 0, 0, 0), None),
            (Bytes(b"-00:00:00"), None),
            (Bytes(b"900:00:00"), None),
            (Int(1), None),
        ],
    );
}

#[test]
fn texts_and_bytes(rt: HostRuntime) {
    borrowed_gives::<&str>(
        &rt,
        &[
            (Bytes(b"it's"), Some("it's")),
            (Bytes(b""), Some("")),
            (Bytes(b"\xC3\x28"), None),
            (Int(97), None),
        ],
    );
    borrowed_gives::<&[u8]>(
        &rt,
        &[
            (Bytes(b"\xC3\x28"), Some(b"\xC3\x28")),
            (NULL, None),
            (Double(0), None),
        ],
    );
}

#[test]
fn options(rt: HostRuntime) {
    borrowed_gives::<Option<i32>>(
        &rt,
        &[
            (NULL, Some(None)),
            (Int(7), Some(Some(7))),
            (Bytes(b"seven"), None),
        ],
    );
    borrowed_gives::<Option<&str>>(&rt, &[(NULL, Some(None)), (Bytes(b"a"), Some(Some("a")))]);
}

#[test]
fn copies(rt: HostRuntime) {
    let text = answer_of(&rt, copied_text(rt.alloc(), ValueRef::Bytes(b"it's")));
    let found = text.as_ref().map(|text| text.as_str());
    same_in(&rt, found, Some("it's"), &"a text");
    let none = answer_of(&rt, copied_text(rt.alloc(), ValueRef::Bytes(b"\xC3\x28")));
    same_in(&rt, none.as_ref(), None, &"no text");
    let bytes = answer_of(&rt, copied_bytes(rt.alloc(), ValueRef::Bytes(b"\xC3\x28")));
    let found = bytes.as_ref().map(|bytes| bytes.as_slice());
    same_in(&rt, found, Some(b"\xC3\x28"), &"bytes");
    let none = answer_of(&rt, copied_bytes(rt.alloc(), ValueRef::NULL));
    same_in(&rt, none.as_ref(), None, &"no bytes");
}
