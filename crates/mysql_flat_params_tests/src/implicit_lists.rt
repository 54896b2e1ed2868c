//! Forms with implicit lists (type 136) and implicit rows (type 137), and the texts that they give.
//! The forms are written by hand by the protocol and by the heading of `FlatFragments.antt`, the
//! texts by the MySQL Reference Manual, "Comparison Functions and Operators" and "INSERT
//! Statement", and the refusals by the heading of `Brackets.antt`.
use crate::fragments_shared::answer;
use crate::shared::same_in;
use mysql_flat_params::{
    FragmentsOutcome, Outcome, Reading, bind_fragments_anywhere_into, bind_fragments_into_read,
    bind_wide_fragments_anywhere_into,
};
use mysql_fragments::FragmentFault;
use std::alloc::Global;

// A list of 7 and NULL.
const LIST: &[u8] = b"\0\x88\0\x02\0\0\0\x01\0\x07\x06\0";

// Two rows of 1 and 2.
const ROWS: &[u8] = b"\0\x89\0\x02\0\0\0\x01\0\0\0\x01\0\x01\x01\0\0\0\x01\0\x02";

const TEXTS: &[(&[u8], &[u8], &[u8])] = &[
    (b"a IN (?)", LIST, b"a IN (7, NULL)"),
    (b"a IN (\n?)", LIST, b"a IN (\n7, NULL)"),
    (b"a IN ( /* c */ ? )", LIST, b"a IN ( /* c */ 7, NULL )"),
    (b"(a, b) = (?)", LIST, b"(a, b) = (7, NULL)"),
    (b"VALUES ?", ROWS, b"VALUES (1), (2)"),
    (b"t (a) value ?", ROWS, b"t (a) value (1), (2)"),
    (b"(a) IN (?)", ROWS, b"(a) IN ((1), (2))"),
    // A list with an exact number in it, 0.5, and a row of one.
    (
        b"a IN (?)",
        b"\0\x88\0\x01\0\0\0\x80\0\x030.5",
        b"a IN (0.5)",
    ),
    (
        b"VALUES ?",
        b"\0\x89\0\x01\0\0\0\x01\0\0\0\x80\0\x030.5",
        b"VALUES (0.5)",
    ),
    // The value 1, a list that the program said, and an implicit one.
    (
        b"f(?, ?) IN (?)",
        b"\0\x01\0\x01\0\x81\0\x02\0\0\0\x01\0\x02\x01\0\x03\0\x88\0\x01\0\0\0\x01\0\x04",
        b"f(1, 2, 3) IN (4)",
    ),
    // By name: `a` is 1, and `b` an implicit list of 7, which two places have.
    (
        b"b IN (:b) AND :a IN (:b)",
        b"\x01a\x01\0\x01\x01b\x88\0\x01\0\0\0\x01\0\x07",
        b"b IN (7) AND 1 IN (7)",
    ),
];

#[test]
fn lists_in_brackets(rt: HostRuntime) {
    for (query, form, text) in TEXTS {
        let found = answer(rt.alloc(), *query, *form, *text);
        let done = FragmentsOutcome::AsValues(Outcome::Done { len: text.len() });
        same_in(&rt, found, (done, true, true), query);
    }
}

fn unbracketed(place: usize, position: usize) -> FragmentsOutcome {
    FragmentsOutcome::Unbracketed { place, position }
}

const UNBRACKETED: &[(&[u8], &[u8], (usize, usize))] = &[
    (b"JSON_SET(d, '$.name', ?)", LIST, (0, 22)),
    (b"LIMIT ?", LIST, (0, 6)),
    (b"FIELD(id, ?)", LIST, (0, 10)),
    (b"JSON_ARRAY(?)", LIST, (0, 11)),
    (b"ROUND(?)", LIST, (0, 6)),
    (b"COALESCE(?)", LIST, (0, 9)),
    (b"VALUES ?", LIST, (0, 7)),
    (b"CALL value(?)", LIST, (0, 11)),
    (b"CALL value ?", ROWS, (0, 11)),
    (b"a IN /*M! f */ (?)", LIST, (0, 16)),
    (b"f(?)", ROWS, (0, 2)),
    // By name: `b` is an implicit list of 7, and its second place is refused.
    (
        b":a IN (:b) AND f(:b)",
        b"\x01a\x01\0\x01\x01b\x88\0\x01\0\0\0\x01\0\x07",
        (2, 17),
    ),
    // A NaN, the empty list and an empty name come later.
    (
        b"? f(?)",
        b"\0\x05\0\0\0\0\0\0\0\xf8\x7f\0\x88\0\x01\0\0\0\x01\0\x07",
        (1, 4),
    ),
    (b"f(?)", b"\0\x88\0\0\0\0\0", (0, 2)),
    (b"? f(?)", b"\0\x83\0\0\0\x88\0\x01\0\0\0\x01\0\x07", (1, 4)),
];

const REFUSED: &[(&[u8], &[u8], FragmentsOutcome)] = &[
    // Two marks for one fragment, a mark beside a letter, and a name without a fragment come first.
    (
        b"f(?) ?",
        LIST,
        FragmentsOutcome::AsValues(Outcome::MarkCount {
            marks: 2,
            values: 1,
        }),
    ),
    (
        b"f(?x)",
        LIST,
        FragmentsOutcome::AsValues(Outcome::NotAlone {
            place: 0,
            position: 2,
        }),
    ),
    (
        b"f(:b) :c",
        b"\x01b\x88\0\x01\0\0\0\x01\0\x07",
        FragmentsOutcome::AsValues(Outcome::Missing {
            place: 1,
            position: 7,
            len: 1,
        }),
    ),
    // In brackets the empty list is at fault, as one that the program said.
    (
        b"IN (?)",
        b"\0\x88\0\0\0\0\0",
        FragmentsOutcome::Fault {
            place: 0,
            fault: FragmentFault::Empty,
        },
    ),
    // An implicit list in a list, and the count of an implicit list in three bytes.
    (
        b"IN (?)",
        b"\0\x88\0\x01\0\0\0\x88\0\0\0\0\0",
        FragmentsOutcome::AsValues(Outcome::FormType {
            place: 0,
            position: 0,
            number: 0x88,
        }),
    ),
    (
        b"IN (?)",
        b"\0\x88\0\0\0\0",
        FragmentsOutcome::AsValues(Outcome::FormEnd {
            place: 0,
            position: 0,
        }),
    ),
];

#[test]
fn lists_without_brackets(rt: HostRuntime) {
    for (query, form, (place, position)) in UNBRACKETED {
        let found = answer(rt.alloc(), *query, *form, b"");
        same_in(
            &rt,
            found,
            (unbracketed(*place, *position), true, true),
            query,
        );
    }
    for (query, form, refused) in REFUSED {
        let found = answer(rt.alloc(), *query, *form, b"");
        same_in(&rt, found, (*refused, true, true), query);
    }
}

// What the three other calls answer, and whether each leaves the room as it was.
fn others(alloc: Global, query: &[u8], form: &[u8]) -> [(FragmentsOutcome, bool); 3] {
    let reading = Reading {
        no_backslash_escape: true,
        wide_names: true,
    };
    let mut room = [b'#'; 64];
    let wide = bind_fragments_into_read(alloc, query, form, reading, &mut room);
    let first = (wide, room == [b'#'; 64]);
    let mut room = [b'#'; 64];
    let anywhere = bind_fragments_anywhere_into(alloc, query, form, &mut room);
    let second = (anywhere, room == [b'#'; 64]);
    let mut room = [b'#'; 64];
    let wide = bind_wide_fragments_anywhere_into(alloc, query, form, &mut room);
    [first, second, (wide, room == [b'#'; 64])]
}

#[test]
fn lists_in_other_calls(rt: HostRuntime) {
    let refused = (unbracketed(0, 2), true);
    same_in(&rt, others(rt.alloc(), b"f(?)", LIST), [refused; 3], &"f");
    let done = (FragmentsOutcome::AsValues(Outcome::Done { len: 12 }), false);
    same_in(&rt, others(rt.alloc(), b"IN (?)", LIST), [done; 3], &"IN");

    // A name that isn't ASCII comes after the list, and alone it is refused for any mode.
    let form = b"\0\x83\0\x02\xc3\xa9\0\x88\0\x01\0\0\0\x01\0\x07";
    let refused = (unbracketed(1, 4), true);
    same_in(&rt, others(rt.alloc(), b"? f(?)", form), [refused; 3], &"é");
    let outcome = unbracketed(3, 5);
    same_in(&rt, outcome.number(), 21, &outcome);
    let report = outcome.report();
    same_in(&rt, (report.place, report.position), (3, 5), &outcome);
    same_in(
        &rt,
        (report.len, report.marks, report.values, report.byte),
        (0, 0, 0, 0),
        &outcome,
    );
}
