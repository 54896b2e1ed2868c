//! Tables of queries for any mode and any server, and what is bound by them. The texts are written
//! by hand: `_utf8mb4'..'` with each quote doubled for printable ASCII without a backslash, and
//! `_utf8mb4 0x..` for other UTF-8. Those with guarded literals are by docs/RULES.md, "Guarded
//! binding".
use crate::shared::{NO_HEAD, NO_PLACE, answer_of, same_in, wrote};
use mysql_flat_params::{
    AnywhereTemplate, Outcome, PlaceSpan, TableHead, TableOutcome,
    bind_wide_anywhere_by_table_into, bind_wide_guarded_by_table_into, wide_anywhere_table_into,
};
use std::alloc::{AllocError, Global};
use std::process::Abort;

const QUERY: &[u8] = b"SELECT :userId, ':ID', :ID";

// The places of QUERY.
const PLACES: [PlaceSpan; 2] = [
    PlaceSpan { before: 7, len: 7 },
    PlaceSpan { before: 9, len: 3 },
];

// What its table says of them together.
const HEAD: TableHead = TableHead {
    names: 2,
    marks: 0,
    not_alone: 0,
    place: 0,
    position: 0,
    piece_bytes: 16,
};

/// `ID` is the text `it's`, and `userId` the text `é`, both of type VAR_STRING (253).
const FORM: &[u8] = b"\x02ID\xfd\0\x04it's\x06userId\xfd\0\x02\xC3\xA9";

const TEXT: &[u8] = b"SELECT _utf8mb4 0xC3A9, ':ID', _utf8mb4'it''s'";

const TEMPLATE: AnywhereTemplate<'static> = AnywhereTemplate {
    query: QUERY,
    head: HEAD,
    places: &PLACES,
};

#[test]
fn table_of_a_query(rt: HostRuntime) {
    let mut head = NO_HEAD;
    let mut places = [NO_PLACE; 3];
    let outcome = wide_anywhere_table_into(rt.alloc(), QUERY, &mut head, &mut places);
    same_in(&rt, outcome, Outcome::Done { len: 2 }, &"the answer");
    same_in(&rt, head, HEAD, &"the head");
    same_in(&rt, places, [PLACES[0], PLACES[1], NO_PLACE], &"the room");
}

#[test]
fn bound_by_the_table(rt: HostRuntime) {
    let mut room = [b'#'; 64];
    let told = bind_wide_anywhere_by_table_into(rt.alloc(), &TEMPLATE, FORM, &mut room);
    let wanted = Outcome::Done { len: TEXT.len() };
    same_in(&rt, told, TableOutcome::AsQuery(wanted), &"by the table");
    wrote(&rt, wanted, &room, TEXT, &"by the table");
}

/// Forms for QUERY, and the texts with guarded literals: with backslash escapes, and without.
const GUARDED: &[(&[u8], &[u8], &[u8])] = &[
    (
        FORM,
        b"SELECT '\xC3\xA9', ':ID', 'it''s'",
        b"SELECT '\xC3\xA9', ':ID', 'it''s'",
    ),
    // `ID` is the text `é\`, and `userId` has the byte 255.
    (
        b"\x02ID\xfd\0\x03\xC3\xA9\\\x06userId\xfd\0\x01\xff",
        b"SELECT 0xFF, ':ID', '\xC3\xA9' '\\\\'",
        b"SELECT 0xFF, ':ID', _utf8mb4 0xC3A95C",
    ),
];

#[test]
fn guarded_by_the_table(rt: HostRuntime) {
    for (form, with_escapes, without) in GUARDED {
        for (mode, text) in [(false, *with_escapes), (true, *without)] {
            let mut room = [b'#'; 64];
            let told = bind_wide_guarded_by_table_into(
                rt.alloc(),
                &TEMPLATE,
                *form,
                mode,
                &mut room,
            );
            let wanted = Outcome::Done { len: text.len() };
            same_in(&rt, told, TableOutcome::AsQuery(wanted), form);
            wrote(&rt, wanted, &room, text, form);
        }
    }
}

/// Queries that get no table, and why.
const REFUSALS: &[(&[u8], Outcome)] = &[
    (b":ID '\\'", Outcome::Unsteady { position: 5 }),
    (b"'\xC3\xA9' :ID", Outcome::Unsteady { position: 1 }),
    (
        b"SELECT /*+ SET_VAR(x=:ID) */ 1",
        Outcome::Unportable {
            number: 2,
            position: 7,
        },
    ),
    (b":a, :b, :c, :d", Outcome::Room { len: 4 }),
];

#[test]
fn no_table(rt: HostRuntime) {
    for (query, wanted) in REFUSALS {
        let mut head = NO_HEAD;
        let mut places = [NO_PLACE; 3];
        let outcome = wide_anywhere_table_into(rt.alloc(), *query, &mut head, &mut places);
        same_in(&rt, outcome, *wanted, query);
        same_in(&rt, head, NO_HEAD, query);
        same_in(&rt, places, [NO_PLACE; 3], query);
    }
}

/// Forms, and why they are refused for QUERY. The head of the last isn't that of QUERY.
const FORM_REFUSALS: &[(&[u8], TableHead, TableOutcome)] = &[
    (
        b"\x02ID\x06",
        HEAD,
        TableOutcome::AsQuery(Outcome::FormEnd {
            place: 0,
            position: 0,
        }),
    ),
    (
        b"\x02ID\x06\0",
        HEAD,
        TableOutcome::AsQuery(Outcome::Missing {
            place: 0,
            position: 8,
            len: 6,
        }),
    ),
    (
        b"\0\x06\0",
        HEAD,
        TableOutcome::AsQuery(Outcome::PositionalForNamed),
    ),
    (FORM, NO_HEAD, TableOutcome::OtherTable),
];

#[test]
fn refusals_by_the_table(rt: HostRuntime) {
    for (form, head, wanted) in FORM_REFUSALS {
        let mut room = [b'#'; 64];
        let template = AnywhereTemplate {
            query: QUERY,
            head: *head,
            places: &PLACES,
        };
        let told = bind_wide_anywhere_by_table_into(rt.alloc(), &template, *form, &mut room);
        same_in(&rt, told, *wanted, form);
        same_in(&rt, room, [b'#'; 64], form);
        let guarded = bind_wide_guarded_by_table_into(
            rt.alloc(),
            &template,
            *form,
            false,
            &mut room,
        );
        same_in(&rt, guarded, *wanted, form);
        same_in(&rt, room, [b'#'; 64], form);
    }
}

#[test]
fn room_too_short_by_one(rt: HostRuntime) {
    let mut room = [b'#'; 45];
    let told = bind_wide_anywhere_by_table_into(rt.alloc(), &TEMPLATE, FORM, &mut room);
    let wanted = Outcome::Room { len: TEXT.len() };
    same_in(&rt, told, TableOutcome::AsQuery(wanted), &"the answer");
    same_in(&rt, room, [b'#'; 45], &"the room");
}

// A query with a name and a mark has a table, and is refused when it is bound.
#[test]
fn mixed_by_the_table(rt: HostRuntime) {
    let mut head = NO_HEAD;
    let mut places = [NO_PLACE; 2];
    let outcome = wide_anywhere_table_into(rt.alloc(), b":ID ?", &mut head, &mut places);
    same_in(&rt, outcome, Outcome::Done { len: 2 }, &"the table");
    let template = AnywhereTemplate {
        query: b":ID ?",
        head,
        places: &places,
    };
    let mut room = [b'#'; 8];
    let told = bind_wide_anywhere_by_table_into(rt.alloc(), &template, b"", &mut room);
    same_in(
        &rt,
        told,
        TableOutcome::AsQuery(Outcome::Mixed),
        &"the answer",
    );
}

// Makes a text of this many copies, with commas between them.
fn copies(alloc: Global, copy: &[u8], count: usize) -> Result<Vec<u8>, AllocError> {
    let mut text = Vec::new(alloc);
    for i in 0..count {
        if i > 0 {
            text.push(b',')?;
        }
        text.extend_from_slice(copy)?;
    }
    Ok(text)
}

// A form of this many parameters by position. Each is the text `'`.
fn quotes(alloc: Global, count: usize) -> Result<Vec<u8>, AllocError> {
    let mut form = Vec::new(alloc);
    for _ in 0..count {
        form.extend_from_slice(b"\0\xfd\0\x01'")?;
    }
    Ok(form)
}

// This many marks are bound to as many texts, and to no other number of them.
fn binds_marks(rt: &impl Abort, alloc: Global, count: usize) {
    let query = answer_of(rt, copies(alloc, b"?", count));
    let text = answer_of(rt, copies(alloc, b"_utf8mb4''''", count));
    let mut head = NO_HEAD;
    let mut places = [NO_PLACE; 20];
    let table = wide_anywhere_table_into(alloc, query.as_slice(), &mut head, &mut places);
    same_in(rt, table, Outcome::Done { len: count }, &count);
    let template = AnywhereTemplate {
        query: query.as_slice(),
        head,
        places: places.get(..count).expect(rt, "the places"),
    };
    for values in 1..20 {
        let form = answer_of(rt, quotes(alloc, values));
        let mut room = [b'#'; 300];
        let told = bind_wide_anywhere_by_table_into(alloc, &template, form.as_slice(), &mut room);
        let wanted = if values == count {
            Outcome::Done { len: text.len() }
        } else {
            Outcome::MarkCount {
                marks: count,
                values,
            }
        };
        same_in(rt, told, TableOutcome::AsQuery(wanted), &(count, values));
        if values == count {
            wrote(rt, wanted, &room, text.as_slice(), &count);
        }
    }
}

// As many values as are kept on the stack, and more.
#[test]
fn few_marks_and_more(rt: HostRuntime) {
    for count in [1, 2, 15, 16, 17, 18] {
        binds_marks(&rt, rt.alloc(), count);
    }
}
