//! Worked forms and the texts that they give. The forms are written by hand by the protocol and by
//! the heading of `FlatFragments.antt`, the texts by the rules of the MySQL Reference Manual,
//! "Schema Object Names", "Numeric Literals", "Comparison Functions and Operators", "INSERT
//! Statement" and "UPDATE Statement".
use crate::fragments_shared::answer;
use crate::shared::same_in;
use mysql_flat_params::{FragmentsOutcome, Outcome};
use mysql_fragments::FragmentFault;

const TEXTS: &[(&[u8], &[u8], &[u8])] = &[
    (b"SELECT 1", b"", b"SELECT 1"),
    // One value: the number 7 in one byte (TINY).
    (b"a = ?", b"\0\x01\0\x07", b"a = 7"),
    // An exact number.
    (b"a = ?", b"\0\x80\0\x05-1.50", b"a = -1.50"),
    // The doubles 1.5 and -0, the float that is nearest to 0.1, and 1.5 with 7 in a list.
    (b"a = ?", b"\0\x05\0\0\0\0\0\0\0\xf8\x3f", b"a = 1.5e0"),
    (b"a = ?", b"\0\x05\0\0\0\0\0\0\0\0\x80", b"a = -0.0e0"),
    (
        b"a = ?",
        b"\0\x04\0\xcd\xcc\xcc\x3d",
        b"a = 0.10000000149011612e0",
    ),
    (
        b"a IN (?)",
        b"\0\x81\0\x02\0\0\0\x01\0\x07\x05\0\0\0\0\0\0\0\xf8\x3f",
        b"a IN (7, 1.5e0)",
    ),
    // A list of 7, -1.50 and NULL.
    (
        b"a IN (?)",
        b"\0\x81\0\x03\0\0\0\x01\0\x07\x80\0\x05-1.50\x06\0",
        b"a IN (7, -1.50, NULL)",
    ),
    // A list of 7 and NULL.
    (
        b"a IN (?)",
        b"\0\x81\0\x02\0\0\0\x01\0\x07\x06\0",
        b"a IN (7, NULL)",
    ),
    // A row of an exact number and NULL.
    (
        b"VALUES ?",
        b"\0\x82\0\x01\0\0\0\x02\0\0\0\x80\0\x030.5\x06\0",
        b"VALUES (0.5, NULL)",
    ),
    // Two rows of the double 5e-324.
    (
        b"VALUES ?",
        b"\0\x82\0\x02\0\0\0\x01\0\0\0\x05\0\x01\0\0\0\0\0\0\0\x01\0\0\0\x05\0\x01\0\0\0\0\0\0\0",
        b"VALUES (5e-324), (5e-324)",
    ),
    // Two rows of a number and a text (VAR_STRING).
    (
        b"VALUES ?",
        b"\0\x82\0\x02\0\0\0\x02\0\0\0\x01\0\x01\xfd\0\x02it\x02\0\0\0\x01\0\xff\xfd\0\x01'",
        b"VALUES (1, 'it'), (-1, '\\'')",
    ),
    (b"FROM ?", b"\0\x83\0\x03a`b", b"FROM `a``b`"),
    (b"FROM ?", b"\0\x83\0\x03a\\b", b"FROM `a\\b`"),
    (
        b"FROM ?",
        b"\0\x84\0\x02\0\0\0\x02db\x01t",
        b"FROM `db`.`t`",
    ),
    (b"ORDER BY a ?", b"\0\x85\0\x04DESC", b"ORDER BY a DESC"),
    // The columns `a` and `t`.`b`.
    (
        b"t (?) VALUES",
        b"\0\x86\0\x02\0\0\0\x01\0\0\0\x01a\x02\0\0\0\x01t\x01b",
        b"t (`a`, `t`.`b`) VALUES",
    ),
    // `a` set to 1, `t`.`b` to -1.50, and `c` to the text it's.
    (
        b"SET ?;",
        b"\0\x87\0\x03\0\0\0\x01\0\0\0\x01a\x01\0\x01\x02\0\0\0\x01t\x01b\x80\0\x05-1.50\
            \x01\0\0\0\x01c\xfd\0\x04it's",
        b"SET `a` = 1, `t`.`b` = -1.50, `c` = 'it\\'s';",
    ),
    // By name, and with a value that has no sign.
    (
        b"(:i), :t",
        b"\x01t\x83\0\x01t\x01i\x81\0\x01\0\0\0\x01\x80\xff",
        b"(255), `t`",
    ),
];

#[test]
fn worked_forms(rt: HostRuntime) {
    for (query, form, text) in TEXTS {
        let found = answer(rt.alloc(), *query, *form, *text);
        let done = FragmentsOutcome::AsValues(Outcome::Done { len: text.len() });
        same_in(&rt, found, (done, true, true), query);
    }
}

const REFUSED: &[(&[u8], &[u8], FragmentsOutcome)] = &[
    // A count of two and one item.
    (
        b"?",
        b"\0\x81\0\x02\0\0\0\x06\0",
        FragmentsOutcome::AsValues(Outcome::FormEnd {
            place: 0,
            position: 0,
        }),
    ),
    // A count of three bytes, in the second parameter.
    (
        b"?",
        b"\0\x06\0\0\x82\0\x02\0\0",
        FragmentsOutcome::AsValues(Outcome::FormEnd {
            place: 1,
            position: 3,
        }),
    ),
    // A list in a list.
    (
        b"?",
        b"\0\x81\0\x01\0\0\0\x81\0\0\0\0\0",
        FragmentsOutcome::AsValues(Outcome::FormType {
            place: 0,
            position: 0,
            number: 0x81,
        }),
    ),
    (
        b"?",
        b"\0\x8a\0",
        FragmentsOutcome::AsValues(Outcome::FormType {
            place: 0,
            position: 0,
            number: 0x8a,
        }),
    ),
    // A count of two columns and one of them, and an assignment without its item.
    (
        b"?",
        b"\0\x86\0\x02\0\0\0\x01\0\0\0\x01a",
        FragmentsOutcome::AsValues(Outcome::FormEnd {
            place: 0,
            position: 0,
        }),
    ),
    (
        b"?",
        b"\0\x87\0\x01\0\0\0\x01\0\0\0\x01a",
        FragmentsOutcome::AsValues(Outcome::FormEnd {
            place: 0,
            position: 0,
        }),
    ),
    // An assignment of an identifier.
    (
        b"?",
        b"\0\x87\0\x01\0\0\0\x01\0\0\0\x01a\x83\0\x01b",
        FragmentsOutcome::AsValues(Outcome::FormType {
            place: 0,
            position: 0,
            number: 0x83,
        }),
    ),
    (
        b"?",
        b"\0\x80\0\xfb",
        FragmentsOutcome::AsValues(Outcome::FormLengthLead {
            place: 0,
            position: 0,
            lead: 0xfb,
        }),
    ),
    (
        b"?",
        b"\0\x06\0\x01a\x06\0",
        FragmentsOutcome::AsValues(Outcome::FormMixed {
            place: 1,
            position: 3,
        }),
    ),
    (
        b"?",
        b"\x01a\x06\0\x01a\x06\0",
        FragmentsOutcome::AsValues(Outcome::FormRepeated {
            place: 1,
            position: 5,
            len: 1,
        }),
    ),
    (
        b"x :b, :a",
        b"\x01b\x06\0",
        FragmentsOutcome::AsValues(Outcome::Missing {
            place: 1,
            position: 7,
            len: 1,
        }),
    ),
    (
        b"? ?",
        b"\0\x06\0",
        FragmentsOutcome::AsValues(Outcome::MarkCount {
            marks: 2,
            values: 1,
        }),
    ),
    (
        b"1?",
        b"\0\x80\0\x011",
        FragmentsOutcome::AsValues(Outcome::NotAlone {
            place: 0,
            position: 1,
        }),
    ),
    (
        b"a IN (?)",
        b"\0\x81\0\0\0\0\0",
        FragmentsOutcome::Fault {
            place: 0,
            fault: FragmentFault::Empty,
        },
    ),
    (
        b"?, ?",
        b"\0\x06\0\0\x84\0\x02\0\0\0\x01a\0",
        FragmentsOutcome::Fault {
            place: 1,
            fault: FragmentFault::EmptyName { part: 1 },
        },
    ),
    // No columns, a column without names, no assignments, and one of what is no number.
    (
        b"?",
        b"\0\x86\0\0\0\0\0",
        FragmentsOutcome::Fault {
            place: 0,
            fault: FragmentFault::Empty,
        },
    ),
    (
        b"?",
        b"\0\x86\0\x01\0\0\0\0\0\0\0",
        FragmentsOutcome::Fault {
            place: 0,
            fault: FragmentFault::Empty,
        },
    ),
    (
        b"?",
        b"\0\x87\0\0\0\0\0",
        FragmentsOutcome::Fault {
            place: 0,
            fault: FragmentFault::Empty,
        },
    ),
    (
        b"?",
        b"\0\x87\0\x02\0\0\0\x01\0\0\0\x01a\x06\0\x01\0\0\0\x01b\x80\0\x01x",
        FragmentsOutcome::Fault {
            place: 0,
            fault: FragmentFault::Number { row: 0, item: 1 },
        },
    ),
    // No rows, a row without items, and rows of one and of two items.
    (
        b"?",
        b"\0\x82\0\0\0\0\0",
        FragmentsOutcome::Fault {
            place: 0,
            fault: FragmentFault::Empty,
        },
    ),
    (
        b"?",
        b"\0\x82\0\x01\0\0\0\0\0\0\0",
        FragmentsOutcome::Fault {
            place: 0,
            fault: FragmentFault::EmptyRow { row: 0 },
        },
    ),
    (
        b"?",
        b"\0\x82\0\x02\0\0\0\x01\0\0\0\x06\0\x02\0\0\0\x06\0\x06\0",
        FragmentsOutcome::Fault {
            place: 0,
            fault: FragmentFault::RowLength { row: 1 },
        },
    ),
    // A list of a NaN, and after NULL an infinity of 32 bits.
    (
        b"a IN (?)",
        b"\0\x81\0\x01\0\0\0\x05\0\0\0\0\0\0\0\xf8\x7f",
        FragmentsOutcome::AsValues(Outcome::Float { place: 0 }),
    ),
    (
        b"a = ? AND b = ?",
        b"\0\x06\0\0\x04\0\0\0\x80\x7f",
        FragmentsOutcome::AsValues(Outcome::Float { place: 1 }),
    ),
    // The other kind of parameters, and both kinds of places.
    (
        b"?",
        b"\x01a\x06\0",
        FragmentsOutcome::AsValues(Outcome::NamedForPositional),
    ),
    (
        b":a",
        b"\0\x06\0",
        FragmentsOutcome::AsValues(Outcome::PositionalForNamed),
    ),
    (b":a, ?", b"", FragmentsOutcome::AsValues(Outcome::Mixed)),
    // A backslash at the end, and before a backquote in the second name.
    (
        b"?",
        b"\0\x83\0\x02a\\",
        FragmentsOutcome::Fault {
            place: 0,
            fault: FragmentFault::Backslash { part: 0 },
        },
    ),
    (
        b"?",
        b"\0\x84\0\x02\0\0\0\x01a\x04b\\`c",
        FragmentsOutcome::Fault {
            place: 0,
            fault: FragmentFault::Backslash { part: 1 },
        },
    ),
    // A text from outside is no keyword.
    (
        b"ORDER BY a ?",
        b"\0\x85\0\x06DESC,b",
        FragmentsOutcome::Fault {
            place: 0,
            fault: FragmentFault::Keyword,
        },
    ),
];

#[test]
fn refused_forms(rt: HostRuntime) {
    for (query, form, outcome) in REFUSED {
        let found = answer(rt.alloc(), *query, *form, b"");
        same_in(&rt, found, (*outcome, true, true), form);
    }
}

#[test]
fn a_short_room_is_unchanged(rt: HostRuntime) {
    let mut room = [b'#'; 4];
    let form = b"\0\x81\0\x02\0\0\0\x06\0\x06\0";
    let outcome = mysql_flat_params::bind_fragments_into(rt.alloc(), b"?", form, false, &mut room);
    let wanted = FragmentsOutcome::AsValues(Outcome::Room { len: 10 });
    same_in(&rt, (outcome, room), (wanted, *b"####"), &());
}
