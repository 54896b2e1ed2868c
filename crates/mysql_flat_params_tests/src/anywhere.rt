//! Forms bound to text for any mode and any server.
use crate::shared::{FORM, QUERY, same_in, wrote};
use mysql_flat_params::{Outcome, bind_anywhere_into};

/// Queries, forms, and the text.
const TEXTS: &[(&[u8], &[u8], &[u8])] = &[
    (QUERY, FORM, b"SELECT 42, ':id', _utf8mb4'x'' OR ''1''=''1'"),
    // The text ends with a backslash.
    (
        b"SELECT :b",
        b"\x01b\xfd\0\x05it's\\",
        b"SELECT _utf8mb4 0x697427735C",
    ),
    (
        b"?, ?",
        b"\0\xfd\0\x02\xc3\xa9\0\xfd\0\x02\xbf'",
        b"_utf8mb4 0xC3A9, 0xBF27",
    ),
    (b"8/?-?", b"\0\x01\0\x02\0\x01\0\xfd", b"8/2--3"),
    (b"SELECT '?'", b"", b"SELECT '?'"),
    (b"", b"", b""),
];

#[test]
fn bound_texts(rt: HostRuntime) {
    for (query, form, text) in TEXTS {
        let mut room = [b'#'; 64];
        let outcome = bind_anywhere_into(rt.alloc(), *query, *form, &mut room);
        wrote(&rt, outcome, &room, *text, &(query, form));
    }
}

#[test]
fn room_too_short_by_one(rt: HostRuntime) {
    let mut room = [b'#'; 43];
    let outcome = bind_anywhere_into(rt.alloc(), QUERY, FORM, &mut room);
    same_in(&rt, outcome, Outcome::Room { len: 44 }, &"the answer");
    same_in(&rt, room, [b'#'; 43], &"the room");
}

/// `b` is NULL.
const NULL_FOR_B: &[u8] = b"\x01b\x06\0";

/// Queries, forms, and why they are refused: the form, the bytes, the constructs, and then the
/// causes of binding.
const REFUSALS: &[(&[u8], &[u8], Outcome)] = &[
    (
        b"\\",
        b"\x01b\x06",
        Outcome::FormEnd {
            place: 0,
            position: 0,
        },
    ),
    (b"[:a ? \\", b"", Outcome::Unsteady { position: 6 }),
    (
        b"SELECT '\xc3\xa9', :b",
        NULL_FOR_B,
        Outcome::Unsteady { position: 8 },
    ),
    (
        b"SELECT [:a ?",
        b"",
        Outcome::Unportable {
            number: 6,
            position: 7,
        },
    ),
    (
        b"SELECT /*! :b */ 1",
        NULL_FOR_B,
        Outcome::Unportable {
            number: 1,
            position: 7,
        },
    ),
    (b":a ?", b"", Outcome::Mixed),
    (
        b":b, :c",
        NULL_FOR_B,
        Outcome::Missing {
            place: 1,
            position: 5,
            len: 1,
        },
    ),
    (b"?", NULL_FOR_B, Outcome::NamedForPositional),
    (b":b", b"\0\x06\0", Outcome::PositionalForNamed),
    (
        b"?, ?",
        b"\0\x06\0",
        Outcome::MarkCount {
            marks: 2,
            values: 1,
        },
    ),
    (
        b"1:b",
        NULL_FOR_B,
        Outcome::NotAlone {
            place: 0,
            position: 1,
        },
    ),
    (b"?", b"\0\x04\0\0\0\x80\x3f", Outcome::Float { place: 0 }),
];

#[test]
fn refusals(rt: HostRuntime) {
    for (query, form, wanted) in REFUSALS {
        let mut room = [b'#'; 64];
        let outcome = bind_anywhere_into(rt.alloc(), *query, *form, &mut room);
        let case = (query, form);
        same_in(&rt, outcome, *wanted, &case);
        same_in(&rt, room, [b'#'; 64], &case);
    }
}
