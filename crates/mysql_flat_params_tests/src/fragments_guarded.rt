//! Worked forms and the texts with guarded literals that they give, in the mode in which a
//! backslash escapes and in the other. The forms are written by hand by the protocol and by the
//! heading of `FlatFragments.antt`, the texts by docs/RULES.md, "Guarded binding".
use crate::shared::same_in;
use mysql_flat_params::{
    FragmentsOutcome, Outcome, bind_wide_fragments_anywhere_into, bind_wide_fragments_guarded_into,
};
use mysql_fragments::FragmentFault;
use std::alloc::Global;
use std::process::Abort;

// What became of binding in a room of 64 bytes, whether the text stands at its front, and whether
// the rest is unchanged.
fn answer(
    alloc: Global,
    query: &[u8],
    form: &[u8],
    no_backslash_escape: bool,
    text: &[u8],
) -> (FragmentsOutcome, bool, bool) {
    let mut room = [b'#'; 64];
    let outcome = bind_wide_fragments_guarded_into(
        alloc,
        query,
        form,
        no_backslash_escape,
        &mut room,
    );
    let kept = room.iter().skip(text.len()).all(|byte| *byte == b'#');
    (outcome, room.starts_with(text), kept)
}

// A query, a form, and the texts with backslash escapes and without.
const TEXTS: &[(&[u8], &[u8], &[u8], &[u8])] = &[
    (b"SELECT 1", b"", b"SELECT 1", b"SELECT 1"),
    // The text `it's\`.
    (
        b"a = ?",
        b"\0\xfd\0\x05it's\\",
        b"a = 'it''s\\\\'",
        b"a = _utf8mb4 0x697427735C",
    ),
    // A backslash after the letter e with an acute, and one before it.
    (
        b"?",
        b"\0\xfd\0\x03\xc3\xa9\\",
        b"'\xc3\xa9' '\\\\'",
        b"_utf8mb4 0xC3A95C",
    ),
    (
        b"?",
        b"\0\xfd\0\x03\\\xc3\xa9",
        b"'\\\\\xc3\xa9'",
        b"_utf8mb4 0x5CC3A9",
    ),
    // A zero byte and a newline, and bytes that are no UTF-8, with a backslash.
    (
        b"?, ?",
        b"\0\xfd\0\x02\0\n\0\xfd\0\x02\xff\\",
        b"'\0\n', 0xFF5C",
        b"'\0\n', 0xFF5C",
    ),
    // A list of 7, -1.50, a text, NULL and the letter e with an acute.
    (
        b"a IN (?)",
        b"\0\x81\0\x05\0\0\0\x01\0\x07\x80\0\x05-1.50\xfd\0\x04it's\x06\0\xfd\0\x02\xc3\xa9",
        b"a IN (7, -1.50, 'it''s', NULL, '\xc3\xa9')",
        b"a IN (7, -1.50, 'it''s', NULL, '\xc3\xa9')",
    ),
    // By name: a row with a backslash and a text, and a name with a backquote.
    (
        b":Table VALUES :rows",
        b"\x04rows\x82\0\x01\0\0\0\x02\0\0\0\xfd\0\x01\\\xfd\0\x01x\x05Table\x83\0\x03a`b",
        b"`a``b` VALUES ('\\\\', 'x')",
        b"`a``b` VALUES (_utf8mb4 0x5C, 'x')",
    ),
];

#[test]
fn worked_forms(rt: HostRuntime) {
    for (query, form, escaped, unescaped) in TEXTS {
        let found = answer(rt.alloc(), *query, *form, false, *escaped);
        let done = FragmentsOutcome::AsValues(Outcome::Done { len: escaped.len() });
        same_in(&rt, found, (done, true, true), query);
        let found = answer(rt.alloc(), *query, *form, true, *unescaped);
        let done = FragmentsOutcome::AsValues(Outcome::Done {
            len: unescaped.len(),
        });
        same_in(&rt, found, (done, true, true), query);
    }
}

// Forms that are refused, and queries that are refused with any form.
const REFUSED: &[(&[u8], &[u8], Outcome)] = &[
    (
        b"\\",
        b"\0\x83\0\x02a",
        Outcome::FormEnd {
            place: 0,
            position: 0,
        },
    ),
    (
        b"?",
        b"\0\x80\0\xfb",
        Outcome::FormLengthLead {
            place: 0,
            position: 0,
            lead: 0xfb,
        },
    ),
    (
        b"?",
        b"\0\x8a\0",
        Outcome::FormType {
            place: 0,
            position: 0,
            number: 0x8a,
        },
    ),
    (
        b"?",
        b"\0\x06\0\x01a\x06\0",
        Outcome::FormMixed {
            place: 1,
            position: 3,
        },
    ),
    (
        b"?",
        b"\x01a\x06\0\x01a\x06\0",
        Outcome::FormRepeated {
            place: 1,
            position: 5,
            len: 1,
        },
    ),
    (
        b"? \\",
        b"\0\x81\0\0\0\0\0",
        Outcome::Unsteady { position: 2 },
    ),
    // A bracket is the sixth construct.
    (
        b"? [a]",
        b"\0\x83\0\x02\xc3\xa9",
        Outcome::Unportable {
            number: 6,
            position: 2,
        },
    ),
];

// What the query refuses of a form.
const REFUSED_FOR_THE_QUERY: &[(&[u8], &[u8], Outcome)] = &[
    (b":A, ?", b"", Outcome::Mixed),
    (
        b":b, :A",
        b"\x01b\x83\0\x02\xc3\xa9",
        Outcome::Missing {
            place: 1,
            position: 5,
            len: 1,
        },
    ),
    (b"?", b"\x01a\x06\0", Outcome::NamedForPositional),
    (b":A", b"\0\x06\0", Outcome::PositionalForNamed),
    (
        b"? ?",
        b"\0\x06\0",
        Outcome::MarkCount {
            marks: 2,
            values: 1,
        },
    ),
    (
        b"1?",
        b"\0\x80\0\x011",
        Outcome::NotAlone {
            place: 0,
            position: 1,
        },
    ),
    (b"?", b"\0\x04\0\0\0\x80\x7f", Outcome::Float { place: 0 }),
    // 65 bytes.
    (
        b"'0123456789 0123456789 0123456789 0123456789 0123456789', ?",
        b"\0\xfd\0\x04it's",
        Outcome::Room { len: 65 },
    ),
];

// What fragments alone are refused for.
const REFUSED_FRAGMENTS: &[(&[u8], &[u8], FragmentsOutcome)] = &[
    // An implicit list as an argument.
    (
        b"f(?)",
        b"\0\x88\0\x01\0\0\0\x01\0\x07",
        FragmentsOutcome::Unbracketed {
            place: 0,
            position: 2,
        },
    ),
    // A fault before a name that isn't ASCII.
    (
        b"?, ?",
        b"\0\x83\0\x02\xc3\xa9\0\x81\0\0\0\0\0",
        FragmentsOutcome::Fault {
            place: 1,
            fault: FragmentFault::Empty,
        },
    ),
    (
        b"?, ?",
        b"\0\xfd\0\x02\xc3\xa9\0\x84\0\x02\0\0\0\x01a\x02\\b",
        FragmentsOutcome::UnsteadyFragment { place: 1 },
    ),
];

// In each mode the form is refused so.
fn is_refused(
    rt: &impl Abort,
    alloc: Global,
    query: &[u8],
    form: &[u8],
    outcome: FragmentsOutcome,
) {
    let found = answer(alloc, query, form, false, b"");
    same_in(rt, found, (outcome, true, true), &query);
    let found = answer(alloc, query, form, true, b"");
    same_in(rt, found, (outcome, true, true), &query);
}

#[test]
fn refused_forms(rt: HostRuntime) {
    for (query, form, outcome) in REFUSED {
        is_refused(
            &rt,
            rt.alloc(),
            *query,
            *form,
            FragmentsOutcome::AsValues(*outcome),
        );
    }
    for (query, form, outcome) in REFUSED_FOR_THE_QUERY {
        is_refused(
            &rt,
            rt.alloc(),
            *query,
            *form,
            FragmentsOutcome::AsValues(*outcome),
        );
    }
    for (query, form, outcome) in REFUSED_FRAGMENTS {
        is_refused(&rt, rt.alloc(), *query, *form, *outcome);
    }
}

// Steady literals are refused for the same.
#[test]
fn refused_with_steady_literals(rt: HostRuntime) {
    for (query, form, outcome) in REFUSED_FRAGMENTS {
        let mut room = [b'#'; 64];
        let told = bind_wide_fragments_anywhere_into(rt.alloc(), *query, *form, &mut room);
        same_in(&rt, told, *outcome, query);
    }
}
