//! Rows: one query bound to many forms.
use crate::shared::{WITH_BACKSLASHES, WITHOUT_BACKSLASHES, same_in};
use mysql_flat_params::{Outcome, Rows, bind_rows_into};
use std::alloc::Global;
use std::process::Abort;

/// A row of the table: a query; forms, each as a length-encoded string; how many bytes the room
/// has; the texts in it, likewise; the rows that are bound, and the bytes of their forms; what
/// became of the call.
type Case<'c> = (&'c [u8], &'c [u8], usize, &'c [u8], (usize, usize), Outcome);

/// In each mode.
const CASES: &[Case<'static>] = &[
    // No rows. The query isn't looked at.
    (b"?", b"", 0, b"", (0, 0), Outcome::Done { len: 0 }),
    (b":a ?", b"", 9, b"", (0, 0), Outcome::Done { len: 0 }),
    // A LONGLONG (8) 1 and a VAR_STRING (253) `a`; a LONGLONG 2 and a NULL (6).
    (
        b"(?, ?)",
        b"\x10\0\x08\0\x01\0\0\0\0\0\0\0\0\xfd\0\x01a\x0e\0\x08\0\x02\0\0\0\0\0\0\0\0\x06\0",
        19,
        b"\x08(1, 'a')\x09(2, NULL)",
        (2, 32),
        Outcome::Done { len: 19 },
    ),
    // The room is too short by one for the second row, and then for the first.
    (
        b"(?, ?)",
        b"\x10\0\x08\0\x01\0\0\0\0\0\0\0\0\xfd\0\x01a\x0e\0\x08\0\x02\0\0\0\0\0\0\0\0\x06\0",
        18,
        b"\x08(1, 'a')",
        (1, 17),
        Outcome::Room { len: 10 },
    ),
    (
        b"(?, ?)",
        b"\x10\0\x08\0\x01\0\0\0\0\0\0\0\0\xfd\0\x01a\x0e\0\x08\0\x02\0\0\0\0\0\0\0\0\x06\0",
        8,
        b"",
        (0, 0),
        Outcome::Room { len: 9 },
    ),
    // As many values by position as are kept on the stack, and one more.
    (
        b"?,?,?,?,?,?,?,?,?,?,?,?,?,?,?,?",
        b"\x30\0\x06\0\0\x06\0\0\x06\0\0\x06\0\0\x06\0\0\x06\0\0\x06\0\0\x06\0\
            \0\x06\0\0\x06\0\0\x06\0\0\x06\0\0\x06\0\0\x06\0\0\x06\0\0\x06\0",
        99,
        b"\x4fNULL,NULL,NULL,NULL,NULL,NULL,NULL,NULL,NULL,NULL,NULL,NULL,NULL,NULL,NULL,NULL",
        (1, 49),
        Outcome::Done { len: 80 },
    ),
    (
        b"?,?,?,?,?,?,?,?,?,?,?,?,?,?,?,?,?",
        b"\x33\0\x06\0\0\x06\0\0\x06\0\0\x06\0\0\x06\0\0\x06\0\0\x06\0\0\x06\0\
            \0\x06\0\0\x06\0\0\x06\0\0\x06\0\0\x06\0\0\x06\0\0\x06\0\0\x06\0\
            \0\x06\0",
        99,
        b"\x54NULL,NULL,NULL,NULL,NULL,NULL,NULL,NULL,NULL,NULL,NULL,NULL,NULL,NULL,NULL,NULL,NULL",
        (1, 52),
        Outcome::Done { len: 85 },
    ),
    // By name; the lengths of the forms in their longest spelling, and the empty form.
    (
        b":a :a",
        b"\xfc\x04\0\x01a\x06\0\xfe\x04\0\0\0\0\0\0\0\x01a\x06\0",
        40,
        b"\x09NULL NULL\x09NULL NULL",
        (2, 20),
        Outcome::Done { len: 20 },
    ),
    (
        b";",
        b"\0\0\0",
        9,
        b"\x01;\x01;\x01;",
        (3, 3),
        Outcome::Done { len: 6 },
    ),
    // The second row is refused, for its query and for its form.
    (
        b"?",
        b"\x03\0\x06\0\0\x03\0\x06\0",
        9,
        b"\x04NULL",
        (1, 4),
        Outcome::MarkCount {
            marks: 1,
            values: 0,
        },
    ),
    (
        b"?",
        b"\x03\0\x06\0\x07\0\x06\0\x01a\x06\0",
        9,
        b"\x04NULL",
        (1, 4),
        Outcome::FormMixed {
            place: 1,
            position: 3,
        },
    ),
    (
        b":b",
        b"\x04\x01b\x06\0\x04\x01a\x06\0",
        9,
        b"\x04NULL",
        (1, 5),
        Outcome::Missing {
            place: 0,
            position: 1,
            len: 1,
        },
    ),
    (b":a ?", b"\0", 9, b"", (0, 0), Outcome::Mixed),
    // The form of the second row isn't a length-encoded string.
    (
        b"?",
        b"\x03\0\x06\0\x04\0\x06\0",
        9,
        b"\x04NULL",
        (1, 4),
        Outcome::FormEnd {
            place: 0,
            position: 0,
        },
    ),
    (
        b"?",
        b"\x03\0\x06\0\xfb\0\x06\0",
        9,
        b"\x04NULL",
        (1, 4),
        Outcome::FormLengthLead {
            place: 0,
            position: 0,
            lead: 251,
        },
    ),
    // More places than stand on the stack.
    (
        b"????????????????? ",
        b"\0",
        9,
        b"",
        (0, 0),
        Outcome::MarkCount {
            marks: 17,
            values: 0,
        },
    ),
    (
        b":a,:a,:a,:a,:a,:a,:a,:a,:a,:a,:a,:a,:a,:a,:a,:a,:b",
        b"\x11\x01a\x01\0\x07\x01b\x08\0\x09\0\0\0\0\0\0\0\x0a\x01b\x01\0\x08\x01a\x01\0\x09",
        99,
        b"\x217,7,7,7,7,7,7,7,7,7,7,7,7,7,7,7,9\x219,9,9,9,9,9,9,9,9,9,9,9,9,9,9,9,8",
        (2, 29),
        Outcome::Done { len: 68 },
    ),
];

#[test]
fn rows_of_queries(rt: HostRuntime) {
    for case in CASES {
        for mode in [WITH_BACKSLASHES, WITHOUT_BACKSLASHES] {
            binds_rows(&rt, rt.alloc(), mode, case);
        }
    }
}

/// Rows by name: TINY (1) numbers under `a` and `b`, in each mode. The names of the first row are
/// found once for the rows after it.
const NAMED: &[Case<'static>] = &[
    (
        b":b-:a,:b",
        b"\x0a\x01a\x01\0\x01\x01b\x01\0\x02\x0a\x01a\x01\0\x03\x01b\x01\0\x04\x0a\x01a\x01\0\x05\
            \x01b\x01\0\x06",
        18,
        b"\x052-1,2\x054-3,4\x056-5,6",
        (3, 33),
        Outcome::Done { len: 18 },
    ),
    // The second row has them in the other order, and a name more.
    (
        b":b-:a,:b",
        b"\x0a\x01a\x01\0\x01\x01b\x01\0\x02\x0f\x01b\x01\0\x04\x01c\x01\0\x09\x01a\x01\0\x03\x0a\
            \x01a\x01\0\x05\x01b\x01\0\x06",
        18,
        b"\x052-1,2\x054-3,4\x056-5,6",
        (3, 38),
        Outcome::Done { len: 18 },
    ),
    // The second row has a name more at its end, and then a name less.
    (
        b":a",
        b"\x05\x01a\x01\0\x01\x0a\x01a\x01\0\x03\x01b\x01\0\x04\x05\x01a\x01\0\x05",
        6,
        b"\x011\x013\x015",
        (3, 23),
        Outcome::Done { len: 6 },
    ),
    (
        b":b-:a,:b",
        b"\x0a\x01a\x01\0\x01\x01b\x01\0\x02\x05\x01a\x01\0\x03\x05\x01a\x01\0\x05",
        18,
        b"\x052-1,2",
        (1, 11),
        Outcome::Missing {
            place: 0,
            position: 1,
            len: 1,
        },
    ),
    // Its second name begins as the one before does, and stands twice, and ends within the form.
    (
        b":b-:a,:b",
        b"\x0a\x01a\x01\0\x01\x01b\x01\0\x02\x0b\x01a\x01\0\x03\x02bb\x01\0\x04\x05\x01a\x01\0\x05",
        18,
        b"\x052-1,2",
        (1, 11),
        Outcome::Missing {
            place: 0,
            position: 1,
            len: 1,
        },
    ),
    (
        b":b-:a,:b",
        b"\x0a\x01a\x01\0\x01\x01b\x01\0\x02\x0a\x01a\x01\0\x03\x01a\x01\0\x04\x05\x01a\x01\0\x05",
        18,
        b"\x052-1,2",
        (1, 11),
        Outcome::FormRepeated {
            place: 1,
            position: 6,
            len: 1,
        },
    ),
    (
        b":b-:a,:b",
        b"\x0a\x01a\x01\0\x01\x01b\x01\0\x02\x09\x01a\x01\0\x03\x01b\x01\0\x05\x01a\x01\0\x05",
        18,
        b"\x052-1,2",
        (1, 11),
        Outcome::FormEnd {
            place: 1,
            position: 5,
        },
    ),
    // Its `a` is a FLOAT (4), in the second place.
    (
        b":b-:a,:b",
        b"\x0a\x01a\x01\0\x01\x01b\x01\0\x02\x0d\x01a\x04\0\0\0\x80\x3f\x01b\x01\0\x04\x05\x01a\
            \x01\0\x05",
        18,
        b"\x052-1,2",
        (1, 11),
        Outcome::Float { place: 1 },
    ),
    // It has no names.
    (
        b":b-:a,:b",
        b"\x0a\x01a\x01\0\x01\x01b\x01\0\x02\x04\0\x01\0\x03\x05\x01a\x01\0\x05",
        18,
        b"\x052-1,2",
        (1, 11),
        Outcome::PositionalForNamed,
    ),
    // The room is too short by one for it.
    (
        b":b-:a,:b",
        b"\x0a\x01a\x01\0\x01\x01b\x01\0\x02\x0a\x01a\x01\0\x03\x01b\x01\0\x04\x0a\x01a\x01\0\x05\
            \x01b\x01\0\x06",
        11,
        b"\x052-1,2",
        (1, 11),
        Outcome::Room { len: 6 },
    ),
    // Names for a query with marks beside names, and with marks only.
    (
        b":a ?",
        b"\x05\x01a\x01\0\x01\x05\x01a\x01\0\x01",
        9,
        b"",
        (0, 0),
        Outcome::Mixed,
    ),
    (
        b"?",
        b"\x05\x01a\x01\0\x01\x05\x01a\x01\0\x01",
        9,
        b"",
        (0, 0),
        Outcome::NamedForPositional,
    ),
    // A place that doesn't stand alone.
    (
        b"x:a",
        b"\x05\x01a\x01\0\x01\x05\x01a\x01\0\x01",
        9,
        b"",
        (0, 0),
        Outcome::NotAlone {
            place: 0,
            position: 1,
        },
    ),
];

#[test]
fn rows_of_names(rt: HostRuntime) {
    for case in NAMED {
        for mode in [WITH_BACKSLASHES, WITHOUT_BACKSLASHES] {
            binds_rows(&rt, rt.alloc(), mode, case);
        }
    }
}

/// `a` is 1 and `b` is 2, in this order, and `b` is 4 and `a` is 3.
const ONE_ORDER: &[u8] = b"\x0a\x01a\x01\0\x01\x01b\x01\0\x02";

const OTHER_ORDER: &[u8] = b"\x0a\x01b\x01\0\x04\x01a\x01\0\x03";

#[test]
fn rows_whose_names_change_each_time(rt: HostRuntime) {
    let mut forms = Vec::new(rt.alloc());
    let mut texts = Vec::new(rt.alloc());
    for _ in 0..12 {
        append(&rt, &mut forms, ONE_ORDER);
        append(&rt, &mut forms, OTHER_ORDER);
        append(&rt, &mut texts, b"\x031,2\x033,4");
    }
    let (forms, texts) = (forms.as_slice(), texts.as_slice());
    let wanted = Outcome::Done { len: 96 };
    let case = (b":a,:b".as_slice(), forms, 96, texts, (24, 264), wanted);
    binds_rows(&rt, rt.alloc(), WITH_BACKSLASHES, &case);
}

/// 17 names, which are more than a walk finds: `a` is 1, and so on up to `q`.
const MANY: &[u8] =
    b"\x55\x01a\x01\0\x01\x01b\x01\0\x02\x01c\x01\0\x03\x01d\x01\0\x04\x01e\x01\0\x05\x01f\x01\0\
        \x06\x01g\x01\0\x07\x01h\x01\0\x08\x01i\x01\0\x09\x01j\x01\0\x0a\x01k\x01\0\x0b\x01l\x01\0\
        \x0c\x01m\x01\0\x0d\x01n\x01\0\x0e\x01o\x01\0\x0f\x01p\x01\0\x10\x01q\x01\0\x11";

#[test]
fn rows_of_many_names(rt: HostRuntime) {
    let mut forms = Vec::new(rt.alloc());
    for _ in 0..3 {
        append(&rt, &mut forms, MANY);
    }
    let texts = b"\x0817,1,2,3\x0817,1,2,3\x0817,1,2,3";
    let wanted = Outcome::Done { len: 27 };
    let case = (
        b":q,:a,:b,:c".as_slice(),
        forms.as_slice(),
        27,
        texts.as_slice(),
        (3, 258),
        wanted,
    );
    binds_rows(&rt, rt.alloc(), WITH_BACKSLASHES, &case);
}

fn append(rt: &impl Abort, bytes: &mut Vec<u8>, more: &[u8]) {
    bytes.extend_from_slice(more).expect(rt, "no memory");
}

/// What depends on the mode: the string ends before the mark, or after it.
const WITHOUT: &[Case<'static>] = &[(
    b"'\\',?",
    b"\x05\0\xfd\0\x01'\x05\0\xfd\0\x01\\",
    99,
    b"\x08'\\',''''\x07'\\','\\'",
    (2, 12),
    Outcome::Done { len: 17 },
)];

const WITH: &[Case<'static>] = &[(
    b"'\\',?",
    b"\x05\0\xfd\0\x01'",
    99,
    b"",
    (0, 0),
    Outcome::MarkCount {
        marks: 0,
        values: 1,
    },
)];

#[test]
fn rows_in_a_mode(rt: HostRuntime) {
    for case in WITHOUT {
        binds_rows(&rt, rt.alloc(), WITHOUT_BACKSLASHES, case);
    }
    for case in WITH {
        binds_rows(&rt, rt.alloc(), WITH_BACKSLASHES, case);
    }
}

/// The rest of the room, and what stands behind it, is unchanged.
fn binds_rows(rt: &impl Abort, alloc: Global, mode: bool, case: &Case<'_>) {
    let (query, forms, room_len, texts, (count, read), wanted) = *case;
    let mut room = [b'#'; 100];
    assert!(rt; room_len <= 100, "a room of {room_len} bytes");
    let (rows, outcome) = bind_rows_into(alloc, query, forms, mode, &mut room[..room_len]);
    let found = (outcome, rows.count, rows.read, rows.written);
    same_in(
        rt,
        found,
        (wanted, count, read, texts.len()),
        &(query, forms, mode),
    );
    let kept = room.iter().skip(texts.len()).all(|byte| *byte == b'#');
    same_in(
        rt,
        (room.starts_with(texts), kept),
        (true, true),
        &(query, forms, mode),
    );
}
