//! Forms bound to text for both modes and any server.
use crate::shared::{FORM, QUERY, same_in, wrote};
use mysql_flat_params::{Outcome, bind_in_both_modes_into};

/// Queries, forms, and the text. `ü` is C3 BC (RFC 3629).
const TEXTS: &[(&[u8], &[u8], &[u8])] = &[
    (QUERY, FORM, b"SELECT 42, ':id', _utf8mb4'x'' OR ''1''=''1'"),
    // An identifier, a string and a comment.
    (
        b"SELECT b\xC3\xBC, '\xC3\xBC ?', ? # \xC3\xBC",
        b"\0\xfd\0\x05it's\\",
        b"SELECT b\xC3\xBC, '\xC3\xBC ?', _utf8mb4 0x697427735C # \xC3\xBC",
    ),
    // Backslashes outside of strings.
    (
        b"`\\\xC3\xBC`, :b # \\'",
        b"\x01b\xfd\0\x02\xc3\xa9",
        b"`\\\xC3\xBC`, _utf8mb4 0xC3A9 # \\'",
    ),
    // Bytes that are no UTF-8, in the query and in the value.
    (b"'\xFF', ?", b"\0\xfd\0\x01\xff", b"'\xFF', 0xFF"),
    (b"\xFF", b"", b"\xFF"),
];

#[test]
fn bound_texts(rt: HostRuntime) {
    for (query, form, text) in TEXTS {
        let mut room = [b'#'; 64];
        let outcome = bind_in_both_modes_into(rt.alloc(), *query, *form, &mut room);
        wrote(&rt, outcome, &room, *text, &(query, form));
    }
}

#[test]
fn room_too_short_by_one(rt: HostRuntime) {
    let mut room = [b'#'; 43];
    let outcome = bind_in_both_modes_into(rt.alloc(), QUERY, FORM, &mut room);
    same_in(&rt, outcome, Outcome::Room { len: 44 }, &"the answer");
    same_in(&rt, room, [b'#'; 43], &"the room");
}

/// `b` is NULL.
const NULL_FOR_B: &[u8] = b"\x01b\x06\0";

/// Queries, forms, and why they are refused: the form, a backslash in a string, the constructs, and
/// then the causes of binding.
const REFUSALS: &[(&[u8], &[u8], Outcome)] = &[
    (
        b"'\\'",
        b"\x01b\x06",
        Outcome::FormEnd {
            place: 0,
            position: 0,
        },
    ),
    (
        b"SELECT '\xC3\xBC\\', [:a ?",
        b"",
        Outcome::Backslash { position: 10 },
    ),
    // A text in double quotes is a string. A backslash in backquotes isn't one in a string.
    (
        b"`\\`, \"\\n\", :b",
        NULL_FOR_B,
        Outcome::Backslash { position: 6 },
    ),
    (
        b"\xC3\xBC [:a ?",
        b"",
        Outcome::Unportable {
            number: 6,
            position: 3,
        },
    ),
    (
        b"`\xC3\xBC\\` [:a ?",
        b"",
        Outcome::Unportable {
            number: 19,
            position: 0,
        },
    ),
    (b"'\xC3\xBC', :a ?", b"", Outcome::Mixed),
    (
        b"'\xC3\xBC', :b, :c",
        NULL_FOR_B,
        Outcome::Missing {
            place: 1,
            position: 11,
            len: 1,
        },
    ),
    (b"'\xC3', ?", NULL_FOR_B, Outcome::NamedForPositional),
    (b"'\xC3', :b", b"\0\x06\0", Outcome::PositionalForNamed),
    (
        b"'\xC3', ?, ?",
        b"\0\x06\0",
        Outcome::MarkCount {
            marks: 2,
            values: 1,
        },
    ),
    (
        b"\xC3\xBC:b",
        NULL_FOR_B,
        Outcome::NotAlone {
            place: 0,
            position: 2,
        },
    ),
    (
        b"'\xC3', ?",
        b"\0\x04\0\0\0\x80\x3f",
        Outcome::Float { place: 0 },
    ),
];

#[test]
fn refusals(rt: HostRuntime) {
    for (query, form, wanted) in REFUSALS {
        let mut room = [b'#'; 64];
        let outcome = bind_in_both_modes_into(rt.alloc(), *query, *form, &mut room);
        let case = (query, form);
        same_in(&rt, outcome, *wanted, &case);
        same_in(&rt, room, [b'#'; 64], &case);
    }
}
