//! Worked forms and the texts for any server that they give. The forms are written by hand by the
//! protocol and by the heading of `FlatFragments.antt`, the texts by the rules of the MySQL
//! Reference Manual, "Schema Object Names", "Character Set Introducers" and "Hexadecimal Literals".
use crate::shared::same_in;
use mysql_flat_params::{FragmentsOutcome, Outcome, bind_fragments_anywhere_into};
use mysql_fragments::FragmentFault;
use std::alloc::Global;

// What became of binding in a room of 64 bytes, whether the text stands at its front, and whether
// the rest is unchanged.
fn answer(alloc: Global, query: &[u8], form: &[u8], text: &[u8]) -> (FragmentsOutcome, bool, bool) {
    let mut room = [b'#'; 64];
    let outcome = bind_fragments_anywhere_into(alloc, query, form, &mut room);
    let kept = room.iter().skip(text.len()).all(|byte| *byte == b'#');
    (outcome, room.starts_with(text), kept)
}

const TEXTS: &[(&[u8], &[u8], &[u8])] = &[
    (b"SELECT 1", b"", b"SELECT 1"),
    // A list of 7, -1.50, a text and bytes that are no UTF-8 (VAR_STRING).
    (
        b"a IN (?)",
        b"\0\x81\0\x04\0\0\0\x01\0\x07\x80\0\x05-1.50\xfd\0\x04it's\xfd\0\x01\xff",
        b"a IN (7, -1.50, _utf8mb4'it''s', 0xFF)",
    ),
    // A list of the doubles 1.5 and -0.
    (
        b"a IN (?)",
        b"\0\x81\0\x02\0\0\0\x05\0\0\0\0\0\0\0\xf8\x3f\x05\0\0\0\0\0\0\0\0\x80",
        b"a IN (1.5e0, -0.0e0)",
    ),
    // By name: a row with a backslash and the letter e with an acute, and a name with a backquote.
    (
        b":t VALUES :r",
        b"\x01r\x82\0\x01\0\0\0\x02\0\0\0\xfd\0\x01\\\xfd\0\x02\xc3\xa9\x01t\x83\0\x03a`b",
        b"`a``b` VALUES (_utf8mb4 0x5C, _utf8mb4 0xC3A9)",
    ),
];

#[test]
fn worked_forms(rt: HostRuntime) {
    for (query, form, text) in TEXTS {
        let found = answer(rt.alloc(), *query, *form, *text);
        let done = FragmentsOutcome::AsValues(Outcome::Done { len: text.len() });
        same_in(&rt, found, (done, true, true), query);
    }
}

const REFUSED: &[(&[u8], &[u8], FragmentsOutcome)] = &[
    // A form before the query.
    (
        b"\\",
        b"\0\x83\0\x02a",
        FragmentsOutcome::AsValues(Outcome::FormEnd {
            place: 0,
            position: 0,
        }),
    ),
    // The query before what is given to it.
    (
        b"? \\",
        b"\0\x81\0\0\0\0\0",
        FragmentsOutcome::AsValues(Outcome::Unsteady { position: 2 }),
    ),
    // A bracket is the sixth construct.
    (
        b"? [a]",
        b"\0\x83\0\x02\xc3\xa9",
        FragmentsOutcome::AsValues(Outcome::Unportable {
            number: 6,
            position: 2,
        }),
    ),
    (
        b":b, :a",
        b"\x01b\x83\0\x02\xc3\xa9",
        FragmentsOutcome::AsValues(Outcome::Missing {
            place: 1,
            position: 5,
            len: 1,
        }),
    ),
    // A fault before a name that isn't ASCII.
    (
        b"?, ?",
        b"\0\x83\0\x02\xc3\xa9\0\x81\0\0\0\0\0",
        FragmentsOutcome::Fault {
            place: 1,
            fault: FragmentFault::Empty,
        },
    ),
    (
        b"?, ?",
        b"\0\x83\0\x02\xc3\xa9\0\x83\0\x02b\\",
        FragmentsOutcome::Fault {
            place: 1,
            fault: FragmentFault::Backslash { part: 0 },
        },
    ),
    (
        b"?, ?",
        b"\0\xfd\0\x02\xc3\xa9\0\x84\0\x02\0\0\0\x01a\x02\\b",
        FragmentsOutcome::UnsteadyFragment { place: 1 },
    ),
];

#[test]
fn refused_forms(rt: HostRuntime) {
    for (query, form, outcome) in REFUSED {
        let found = answer(rt.alloc(), *query, *form, b"");
        same_in(&rt, found, (*outcome, true, true), form);
    }
}

// The number of mysql_params.h, and its place.
#[test]
fn the_number_of_an_unsteady_fragment(rt: HostRuntime) {
    let outcome = FragmentsOutcome::UnsteadyFragment { place: 7 };
    same_in(
        &rt,
        (outcome.number(), outcome.report().place),
        (19, 7),
        &(),
    );
}
