//! A value of each column type, by its number.
use crate::shared::{WITH_BACKSLASHES, all_refuse_in, answer_of, binds, refuses};
use mysql_flat_params::Outcome;
use std::alloc::{AllocError, Global};
use std::process::Abort;

/// Numbers of types, flags, bytes, and the literal of their value.
const VALUES: &[(u8, u8, &[u8], &[u8])] = &[
    (1, 0, b"\xff", b"-1"),
    (1, 128, b"\xff", b"255"),
    // Only the bit 128 is looked at.
    (1, 127, b"\xff", b"-1"),
    (1, 255, b"\xff", b"255"),
    (2, 0, b"\0\x80", b"-32768"),
    (2, 128, b"\0\x80", b"32768"),
    (3, 0, b"\xff\xff\xff\xff", b"-1"),
    (3, 128, b"\xff\xff\xff\xff", b"4294967295"),
    (6, 0, b"", b"NULL"),
    (7, 0, b"\x04\xe3\x07\x0b\x1b", b"'2019-11-27'"),
    (8, 0, b"\0\0\0\0\0\0\0\x80", b"-9223372036854775808"),
    (
        8,
        128,
        b"\xff\xff\xff\xff\xff\xff\xff\xff",
        b"18446744073709551615",
    ),
    (9, 0, b"\xfe\xff\xff\xff", b"-2"),
    (10, 0, b"\0", b"'0000-00-00'"),
    (11, 0, b"\x08\x01\0\0\0\0\x0a\x0b\x0c", b"'-010:11:12'"),
    (
        12,
        0,
        b"\x07\xe3\x07\x0b\x1b\x01\x02\x03",
        b"'2019-11-27 01:02:03'",
    ),
    (13, 0, b"\xe3\x07", b"2019"),
    (14, 0, b"\x04\xe3\x07\x0b\x1b", b"'2019-11-27'"),
];

/// The numbers of the types whose values are strings.
const STRINGS: &[u8] = &[
    0, 15, 16, 242, 245, 246, 247, 248, 249, 250, 251, 252, 253, 254, 255,
];

/// The numbers of the other types that can be read.
const OTHERS: &[u8] = &[1, 2, 3, 4, 5, 6, 7, 8, 9, 10, 11, 12, 13, 14];

// A form of one parameter by position.
fn form(alloc: Global, number: u8, flags: u8, bytes: &[u8]) -> Result<Vec<u8>, AllocError> {
    let mut form = Vec::from_slice(alloc, &[0, number, flags])?;
    form.extend_from_slice(bytes)?;
    Ok(form)
}

// A parameter of this type is bound as this literal.
fn is_bound_as(
    rt: &impl Abort,
    alloc: Global,
    (number, flags): (u8, u8),
    bytes: &[u8],
    text: &[u8],
) {
    let form = answer_of(rt, form(alloc, number, flags, bytes));
    binds(rt, alloc, b"?", form.as_slice(), text);
}

#[test]
fn values_of_types(rt: HostRuntime) {
    for (number, flags, bytes, text) in VALUES {
        is_bound_as(&rt, rt.alloc(), (*number, *flags), *bytes, *text);
    }
    for number in STRINGS {
        is_bound_as(&rt, rt.alloc(), (*number, 0), b"\x02it", b"'it'");
    }
}

/// Values that have no literal.
const FLOATS: &[(&[u8], &[u8], Outcome)] = &[
    (b"?", b"\0\x04\0\0\0\x80\x3f", Outcome::Float { place: 0 }),
    (
        b"?",
        b"\0\x05\0\0\0\0\0\0\0\xf0\x3f",
        Outcome::Float { place: 0 },
    ),
];

#[test]
fn floats(rt: HostRuntime) {
    all_refuse_in(&rt, rt.alloc(), WITH_BACKSLASHES, FLOATS);
}

#[test]
fn numbers_without_a_reading(rt: HostRuntime) {
    for number in 0..=255u8 {
        if !STRINGS.contains(&number) && !OTHERS.contains(&number) {
            let wanted = Outcome::FormType {
                place: 0,
                position: 0,
                number,
            };
            refuses(&rt, rt.alloc(), b"?", &[0, number, 0], wanted);
        }
    }
}
