//! Queries read by wide names, which may have capitals. The texts follow the rule by hand: a `:`, a
//! letter or `_`, and all letters, digits and `_` that follow, outside of strings, quoted names and
//! comments. The forms are written by hand by the protocol.
use crate::shared::{NO_HEAD, NO_PLACE, same_in, wrote};
use mysql_flat_params::{
    FragmentsOutcome, Outcome, PlaceSpan, ReadTemplate, Reading, TableHead, TableOutcome,
    bind_by_table_into_read, bind_fragments_into_read, bind_into_read, bind_rows_into_read,
    bind_wide_anywhere_into, bind_wide_fragments_anywhere_into, bind_wide_in_both_modes_into,
    name_place_read, names_into_read, report_first_unportable_in_client_wide,
    report_first_unportable_wide, table_into_read,
};

const WIDE: Reading = Reading {
    no_backslash_escape: false,
    wide_names: true,
};

const GRAMMAR: Reading = Reading {
    no_backslash_escape: false,
    wide_names: false,
};

const QUERY: &[u8] = b"SELECT :userId, ':ID', :ID";

/// `ID` is NULL (6), and `userId` the number 7 in one byte (TINY, 1).
const FORM: &[u8] = b"\x02ID\x06\0\x06userId\x01\0\x07";

const TEXT: &[u8] = b"SELECT 7, ':ID', NULL";

// The places of QUERY.
const PLACES: [PlaceSpan; 2] = [
    PlaceSpan { before: 7, len: 7 },
    PlaceSpan { before: 9, len: 3 },
];

// What its table says of them together.
const HEAD: TableHead = TableHead {
    names: 2,
    marks: 0,
    not_alone: 0,
    place: 0,
    position: 0,
    piece_bytes: 16,
};

#[test]
fn bound_by_capitals(rt: HostRuntime) {
    let mut room = [b'#'; 64];
    let outcome = bind_into_read(rt.alloc(), QUERY, FORM, WIDE, &mut room);
    wrote(&rt, outcome, &room, TEXT, &QUERY);
}

/// Queries, forms, readings, and why they are refused.
const REFUSALS: &[(&[u8], &[u8], Reading, Outcome)] = &[
    // By the grammar, `user` is the name: with a value for it, `Id` stands directly behind.
    (
        QUERY,
        FORM,
        GRAMMAR,
        Outcome::Missing {
            place: 0,
            position: 8,
            len: 4,
        },
    ),
    (
        QUERY,
        b"\x04user\x06\0",
        GRAMMAR,
        Outcome::NotAlone {
            place: 0,
            position: 7,
        },
    ),
    (
        b"lbl:LOOP",
        b"\x04LOOP\x06\0",
        WIDE,
        Outcome::NotAlone {
            place: 0,
            position: 3,
        },
    ),
    (
        b":id, :ID",
        b"\x02id\x06\0",
        WIDE,
        Outcome::Missing {
            place: 1,
            position: 6,
            len: 2,
        },
    ),
    (b":ID ?", b"", WIDE, Outcome::Mixed),
];

#[test]
fn refusals(rt: HostRuntime) {
    for (query, form, reading, wanted) in REFUSALS {
        let mut room = [b'#'; 64];
        let outcome = bind_into_read(rt.alloc(), *query, *form, *reading, &mut room);
        same_in(&rt, outcome, *wanted, query);
        same_in(&rt, room, [b'#'; 64], query);
    }
}

#[test]
fn names_with_capitals(rt: HostRuntime) {
    let mut room = [b'#'; 40];
    let outcome = names_into_read(rt.alloc(), QUERY, WIDE, &mut room);
    wrote(
        &rt,
        outcome,
        &room,
        b"\x12SELECT ?, ':ID', ?\x06userId\x02ID",
        &QUERY,
    );
    same_in(
        &rt,
        name_place_read(QUERY, b"ID", WIDE),
        Some((1, 24)),
        &"ID",
    );
    same_in(&rt, name_place_read(QUERY, b"id", WIDE), None, &"id");
    same_in(&rt, name_place_read(QUERY, b"ID", GRAMMAR), None, &"ID");
}

#[test]
fn bound_by_a_table(rt: HostRuntime) {
    let mut head = NO_HEAD;
    let mut places = [NO_PLACE; 2];
    let outcome = table_into_read(rt.alloc(), QUERY, WIDE, &mut head, &mut places);
    same_in(&rt, outcome, Outcome::Done { len: 2 }, &"the answer");
    same_in(&rt, head, HEAD, &"the head");
    same_in(&rt, places, PLACES, &"the places");
    let template = ReadTemplate {
        query: QUERY,
        reading: WIDE,
        head: HEAD,
        places: &PLACES,
    };
    let mut room = [b'#'; 64];
    let told = bind_by_table_into_read(rt.alloc(), &template, FORM, &mut room);
    let wanted = Outcome::Done { len: TEXT.len() };
    same_in(&rt, told, TableOutcome::AsQuery(wanted), &"by the table");
    wrote(&rt, wanted, &room, TEXT, &"by the table");
}

#[test]
fn rows_bound_by_capitals(rt: HostRuntime) {
    // FORM twice, of 15 bytes each, and the text twice, of 21 bytes each.
    let forms = b"\x0f\x02ID\x06\0\x06userId\x01\0\x07\x0f\x02ID\x06\0\x06userId\x01\0\x07";
    let texts = b"\x15SELECT 7, ':ID', NULL\x15SELECT 7, ':ID', NULL";
    let mut room = [b'#'; 64];
    let (rows, outcome) = bind_rows_into_read(rt.alloc(), QUERY, forms, WIDE, &mut room);
    same_in(
        &rt,
        (rows.count, rows.read, rows.written),
        (2, 32, 44),
        &QUERY,
    );
    wrote(&rt, outcome, &room, texts, &QUERY);
}

#[test]
fn fragments_bound_by_capitals(rt: HostRuntime) {
    // A list of 7 and NULL, and the identifier `t`.
    let form = b"\x03Ids\x81\0\x02\0\0\0\x01\0\x07\x06\0\x05Table\x83\0\x01t";
    let query = b"FROM :Table WHERE id IN (:Ids)";
    let text = b"FROM `t` WHERE id IN (7, NULL)";
    let mut room = [b'#'; 64];
    let told = bind_fragments_into_read(rt.alloc(), query, form, WIDE, &mut room);
    let wanted = Outcome::Done { len: text.len() };
    same_in(&rt, told, FragmentsOutcome::AsValues(wanted), &query);
    wrote(&rt, wanted, &room, text, &query);
}

/// Queries, and why they are refused for any server and for both modes, with FORM given.
const STEADY_REFUSALS: &[(&[u8], Outcome, Outcome)] = &[
    (
        b":ID '\\'",
        Outcome::Unsteady { position: 5 },
        Outcome::Backslash { position: 5 },
    ),
    (
        b"SELECT /*+ SET_VAR(x=:ID) */ 1",
        Outcome::Unportable {
            number: 2,
            position: 7,
        },
        Outcome::Unportable {
            number: 2,
            position: 7,
        },
    ),
    (b":ID ?", Outcome::Mixed, Outcome::Mixed),
    (
        b"x:ID",
        Outcome::NotAlone {
            place: 0,
            position: 1,
        },
        Outcome::NotAlone {
            place: 0,
            position: 1,
        },
    ),
];

#[test]
fn steady_texts_by_capitals(rt: HostRuntime) {
    let mut room = [b'#'; 64];
    let outcome = bind_wide_anywhere_into(rt.alloc(), QUERY, FORM, &mut room);
    wrote(&rt, outcome, &room, TEXT, &QUERY);
    let mut room = [b'#'; 64];
    let outcome = bind_wide_in_both_modes_into(rt.alloc(), QUERY, FORM, &mut room);
    wrote(&rt, outcome, &room, TEXT, &QUERY);
    for (query, anywhere, both_modes) in STEADY_REFUSALS {
        let mut room = [b'#'; 64];
        let outcome = bind_wide_anywhere_into(rt.alloc(), *query, FORM, &mut room);
        same_in(&rt, outcome, *anywhere, query);
        let outcome = bind_wide_in_both_modes_into(rt.alloc(), *query, FORM, &mut room);
        same_in(&rt, outcome, *both_modes, query);
        same_in(&rt, room, [b'#'; 64], query);
    }
}

#[test]
fn steady_fragments_by_capitals(rt: HostRuntime) {
    // A list of 7 and the text `x`, and the identifier `t`.
    let form = b"\x03Ids\x81\0\x02\0\0\0\x01\0\x07\xfd\0\x01x\x05Table\x83\0\x01t";
    let query = b"FROM :Table WHERE id IN (:Ids)";
    let text = b"FROM `t` WHERE id IN (7, _utf8mb4'x')";
    let mut room = [b'#'; 64];
    let told = bind_wide_fragments_anywhere_into(rt.alloc(), query, form, &mut room);
    let wanted = Outcome::Done { len: text.len() };
    same_in(&rt, told, FragmentsOutcome::AsValues(wanted), &query);
    wrote(&rt, wanted, &room, text, &query);
}

#[test]
fn constructs_by_capitals(rt: HostRuntime) {
    let mut report = Outcome::Mixed.report();
    let number = report_first_unportable_wide(QUERY, false, &mut report);
    same_in(&rt, number, 0, &QUERY);
    let hint = b"SELECT /*+ SET_VAR(x=:ID) */ 1";
    let number = report_first_unportable_wide(hint, false, &mut report);
    same_in(&rt, (number, report.position), (2, 7), &hint);
    let dash = b"-:ID";
    let number = report_first_unportable_in_client_wide(dash, false, &mut report);
    same_in(&rt, (number, report.position), (14, 0), &dash);
}
