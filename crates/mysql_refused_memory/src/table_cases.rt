//! Tables of the places of queries, and binding by them into the caller's room.
use crate::outcome::Memory::{Asked, Never};
use crate::outcome::{Case, Memory, Outcome, cases, row};
use mysql_flat_params::{
    AnywhereTemplate, Outcome as Told, PlaceSpan, ReadTemplate, Reading, TableHead, TableOutcome,
    Template, bind_by_table_into, bind_by_table_into_read, bind_wide_anywhere_by_table_into,
    bind_wide_guarded_by_table_into, table_into, table_into_read, wide_anywhere_table_into,
};
use std::alloc::Global;

/// How the call of this name went, if it stands here.
pub(crate) fn case(alloc: Global, name: &str) -> Option<Case> {
    if let Some(row) = row(MADE, name) {
        return Some(Ok(made(alloc, row, None)));
    }
    if let Some((row, reading)) = row(WIDE_MADE, name) {
        return Some(Ok(made(alloc, row, Some(reading))));
    }
    if let Some(row) = row(ANYWHERE_MADE, name) {
        return Some(Ok(made_anywhere(alloc, row)));
    }
    if let Some(row) = row(BOUND, name) {
        return Some(Ok(bound(alloc, row)));
    }
    if let Some(row) = row(ANYWHERE_BOUND, name) {
        return Some(Ok(bound_anywhere(alloc, row)));
    }
    if let Some(row) = row(GUARDED_BOUND, name) {
        return Some(Ok(bound_guarded(alloc, row)));
    }
    if let Some(row) = row(MARKS_BOUND, name) {
        return Some(Ok(bound_marks(alloc, row, None)));
    }
    if let Some((row, no_backslash_escape)) = row(GUARDED_MARKS_BOUND, name) {
        return Some(Ok(bound_marks(alloc, row, Some(no_backslash_escape))));
    }
    Some(Ok(bound_by_wide_names(alloc, row(WIDE_BOUND, name)?)))
}

/// Head and places before a call.
const NO_HEAD: TableHead = TableHead {
    names: 9,
    marks: 9,
    not_alone: 9,
    place: 9,
    position: 9,
    piece_bytes: 9,
};

const NO_PLACE: PlaceSpan = PlaceSpan { before: 9, len: 9 };

/// A query, what is told, the places, and whether the call asks for memory.
type MadeRow = (&'static [u8], Told, &'static [PlaceSpan], Memory);

const MADE: &[(&str, MadeRow)] = cases! {
    "table_into of names" => b":a,:b", Told::Done { len: 2 },
        &[PlaceSpan { before: 0, len: 2, }, PlaceSpan { before: 1, len: 2, }], Asked;
    "table_into of nothing" => b"':a'", Told::Done { len: 0 }, &[], Never;
    "table_into of a room that is too short" => b"?,?,?", Told::Room { len: 3 }, &[], Never;
};

/// The readings by wide names.
const WITH_BACKSLASHES: Reading = Reading {
    no_backslash_escape: false,
    wide_names: true,
};

const WITHOUT_BACKSLASHES: Reading = Reading {
    no_backslash_escape: true,
    wide_names: true,
};

/// The same in a reading.
const WIDE_MADE: &[(&str, (MadeRow, Reading))] = cases! {
    "table_into_read of names" => (b":Ab,:b", Told::Done { len: 2 }, WIDE_PLACES, Asked),
        WITH_BACKSLASHES;
    "table_into_read of a name without backslash escapes" => (b"'\\':A", Told::Done { len: 1 },
        &[PlaceSpan { before: 3, len: 2, }], Asked), WITHOUT_BACKSLASHES;
    "table_into_read of nothing" => (b"':A'", Told::Done { len: 0 }, &[], Never), WITH_BACKSLASHES;
    "table_into_read of a room that is too short" =>
        (b":A,:A,:A", Told::Room { len: 3 }, &[], Never), WITH_BACKSLASHES;
};

// In the reading, or with backslash escapes by the names of the grammar.
fn made(
    alloc: Global,
    (query, wanted, places, memory): MadeRow,
    reading: Option<Reading>,
) -> Outcome {
    let mut head = NO_HEAD;
    let mut room = [NO_PLACE; 2];
    let told = match reading {
        None => table_into(alloc, query, false, &mut head, &mut room),
        Some(reading) => table_into_read(alloc, query, reading, &mut head, &mut room),
    };
    made_in_room(told, head, room, (wanted, places)).with(memory)
}

/// How a call went that may write head and room.
fn made_in_room(
    told: Told,
    head: TableHead,
    room: [PlaceSpan; 2],
    (wanted, places): (Told, &[PlaceSpan]),
) -> Outcome {
    let is_untouched = room == [NO_PLACE; 2];
    match told {
        Told::OutOfMemory => Outcome::Memory.if_holds(is_untouched && head == NO_HEAD),
        Told::Done { .. } => Outcome::Answer.if_holds(told == wanted && room.starts_with(places)),
        _ => Outcome::Refusal.if_holds(told == wanted && is_untouched && head == NO_HEAD),
    }
}

/// The same of a query for any mode and any server.
const ANYWHERE_MADE: &[(&str, MadeRow)] = cases! {
    "wide_anywhere_table_into of names" =>
        b":Ab,:b", Told::Done { len: 2 }, WIDE_PLACES, Asked;
    "wide_anywhere_table_into of a query in doubt" =>
        b"SELECT /*+ MAX_EXECUTION_TIME(9) */ :A", Told::Done { len: 1 },
        &[PlaceSpan { before: 36, len: 2, }], Asked;
    "wide_anywhere_table_into of nothing" => b"':A'", Told::Done { len: 0 }, &[], Never;
    "wide_anywhere_table_into of a backslash" =>
        b":A '\\'", Told::Unsteady { position: 4 }, &[], Never;
    "wide_anywhere_table_into of a hint" => b"SELECT /*+ SET_VAR(x=:A) */ 1",
        Told::Unportable { number: 2, position: 7, }, &[], Never;
    "wide_anywhere_table_into of a room that is too short" =>
        b":A,:A,:A", Told::Room { len: 3 }, &[], Never;
};

fn made_anywhere(alloc: Global, (query, wanted, places, memory): MadeRow) -> Outcome {
    let mut head = NO_HEAD;
    let mut room = [NO_PLACE; 2];
    let told = wide_anywhere_table_into(alloc, query, &mut head, &mut room);
    made_in_room(told, head, room, (wanted, places)).with(memory)
}

/// A caller's room, before a call.
const ROOM: &[u8; 32] = &[b'*'; 32];

/// The table of `:a,:b`.
const HEAD: TableHead = TableHead {
    names: 2,
    marks: 0,
    not_alone: 0,
    place: 0,
    position: 0,
    piece_bytes: 1,
};

const PLACES: &[PlaceSpan] = &[
    PlaceSpan { before: 0, len: 2 },
    PlaceSpan { before: 1, len: 2 },
];

const ONE_PLACE: &[PlaceSpan] = &[PlaceSpan { before: 0, len: 2 }];

/// `a` and `b` are -3 and NULL.
const FORM: &[u8] = b"\x01a\x01\x00\xFD\x01b\x06\x00";

/// The head and the places of a table, a form, the text or what is told, and whether the call asks
/// for memory.
type BoundRow = (
    TableHead,
    &'static [PlaceSpan],
    &'static [u8],
    Result<&'static [u8], TableOutcome>,
    Memory,
);

const BOUND: &[(&str, BoundRow)] = cases! {
    "bind_by_table_into of names" => HEAD, PLACES, FORM, Ok(b"-3,NULL"), Asked;
    "bind_by_table_into of another table" =>
        HEAD, ONE_PLACE, FORM, Err(TableOutcome::OtherTable), Never;
    "bind_by_table_into of a cut form" => HEAD, PLACES, b"\x01",
        Err(TableOutcome::AsQuery(Told::FormEnd { place: 0, position: 0, })), Never;
    "bind_by_table_into of a missing name" => HEAD, PLACES, b"\x01a\x06\x00",
        Err(TableOutcome::AsQuery(Told::Missing { place: 1, position: 4, len: 1, })), Asked;
    "bind_by_table_into of no values" => HEAD, PLACES, b"",
        Err(TableOutcome::AsQuery(Told::Missing { place: 0, position: 1, len: 1, })), Asked;
};

fn bound(alloc: Global, (head, places, form, wanted, memory): BoundRow) -> Outcome {
    let mut room = *ROOM;
    let template = Template {
        query: b":a,:b",
        no_backslash_escape: false,
        head,
        places,
    };
    let told = bind_by_table_into(alloc, &template, form, &mut room);
    bound_in_room(told, &room, wanted).with(memory)
}

/// The table of `:Ab,:b` has the head of `:a,:b`.
const WIDE_PLACES: &[PlaceSpan] = &[
    PlaceSpan { before: 0, len: 3 },
    PlaceSpan { before: 1, len: 2 },
];

/// `Ab` and `b` are the text `it's` and NULL.
const WIDE_FORM: &[u8] = b"\x02Ab\xFD\x00\x04it's\x01b\x06\x00";

const ONLY_AB: &[u8] = b"\x02Ab\x06\x00";

/// The reading and the places of a table, a form, the text or what is told, and whether the call
/// asks for memory.
type WideRow = (
    Reading,
    &'static [PlaceSpan],
    &'static [u8],
    Result<&'static [u8], TableOutcome>,
    Memory,
);

const WIDE_BOUND: &[(&str, WideRow)] = cases! {
    "bind_by_table_into_read of names" =>
        WITH_BACKSLASHES, WIDE_PLACES, WIDE_FORM, Ok(b"'it\\'s',NULL"), Asked;
    "bind_by_table_into_read of names without backslash escapes" =>
        WITHOUT_BACKSLASHES, WIDE_PLACES, WIDE_FORM, Ok(b"'it''s',NULL"), Asked;
    "bind_by_table_into_read of another table" =>
        WITH_BACKSLASHES, ONE_PLACE, WIDE_FORM, Err(TableOutcome::OtherTable), Never;
    "bind_by_table_into_read of a missing name" => WITH_BACKSLASHES, WIDE_PLACES, ONLY_AB,
        Err(TableOutcome::AsQuery(Told::Missing { place: 1, position: 5, len: 1, })), Asked;
};

fn bound_by_wide_names(alloc: Global, (reading, places, form, wanted, memory): WideRow) -> Outcome {
    let mut room = *ROOM;
    let template = ReadTemplate {
        query: b":Ab,:b",
        reading,
        head: HEAD,
        places,
    };
    let told = bind_by_table_into_read(alloc, &template, form, &mut room);
    bound_in_room(told, &room, wanted).with(memory)
}

/// The places of a table, a form, the text or what is told, and whether the call asks for memory.
type AnywhereRow = (
    &'static [PlaceSpan],
    &'static [u8],
    Result<&'static [u8], TableOutcome>,
    Memory,
);

const ANYWHERE_BOUND: &[(&str, AnywhereRow)] = cases! {
    "bind_wide_anywhere_by_table_into of names" =>
        WIDE_PLACES, WIDE_FORM, Ok(b"_utf8mb4'it''s',NULL"), Asked;
    "bind_wide_anywhere_by_table_into of another table" =>
        ONE_PLACE, WIDE_FORM, Err(TableOutcome::OtherTable), Never;
    "bind_wide_anywhere_by_table_into of a cut form" => WIDE_PLACES, b"\x02",
        Err(TableOutcome::AsQuery(Told::FormEnd { place: 0, position: 0, })), Never;
    "bind_wide_anywhere_by_table_into of a missing name" => WIDE_PLACES, ONLY_AB,
        Err(TableOutcome::AsQuery(Told::Missing { place: 1, position: 5, len: 1, })), Asked;
};

fn bound_anywhere(alloc: Global, (places, form, wanted, memory): AnywhereRow) -> Outcome {
    let mut room = *ROOM;
    let template = AnywhereTemplate {
        query: b":Ab,:b",
        head: HEAD,
        places,
    };
    let told = bind_wide_anywhere_by_table_into(alloc, &template, form, &mut room);
    bound_in_room(told, &room, wanted).with(memory)
}

const GUARDED_BOUND: &[(&str, AnywhereRow)] = cases! {
    "bind_wide_guarded_by_table_into of names" =>
        WIDE_PLACES, WIDE_FORM, Ok(b"'it''s',NULL"), Asked;
    "bind_wide_guarded_by_table_into of another table" =>
        ONE_PLACE, WIDE_FORM, Err(TableOutcome::OtherTable), Never;
    "bind_wide_guarded_by_table_into of a missing name" => WIDE_PLACES, ONLY_AB,
        Err(TableOutcome::AsQuery(Told::Missing { place: 1, position: 5, len: 1, })), Asked;
};

fn bound_guarded(alloc: Global, (places, form, wanted, memory): AnywhereRow) -> Outcome {
    let mut room = *ROOM;
    let template = AnywhereTemplate {
        query: b":Ab,:b",
        head: HEAD,
        places,
    };
    let told = bind_wide_guarded_by_table_into(alloc, &template, form, false, &mut room);
    bound_in_room(told, &room, wanted).with(memory)
}

/// The table of `?,?`: its head, and its places.
const MARKS_HEAD: TableHead = TableHead {
    names: 0,
    marks: 2,
    not_alone: 0,
    place: 0,
    position: 0,
    piece_bytes: 1,
};

const MARKS: &[PlaceSpan] = &[
    PlaceSpan { before: 0, len: 1 },
    PlaceSpan { before: 1, len: 1 },
];

/// A form, the text or what is told, and whether the call asks for memory.
type MarksRow = (&'static [u8], Result<&'static [u8], TableOutcome>, Memory);

const MARKS_BOUND: &[(&str, MarksRow)] = cases! {
    "bind_wide_anywhere_by_table_into of two marks" =>
        b"\x00\x06\x00\x00\xFD\x00\x04it's", Ok(b"NULL,_utf8mb4'it''s'"), Never;
    "bind_wide_anywhere_by_table_into of one value for two marks" => b"\x00\x06\x00",
        Err(TableOutcome::AsQuery(Told::MarkCount { marks: 2, values: 1, })), Asked;
};

/// The same with guarded literals, and the mode.
const GUARDED_MARKS_BOUND: &[(&str, (MarksRow, bool))] = cases! {
    "bind_wide_guarded_by_table_into of two marks" =>
        (b"\x00\x06\x00\x00\xFD\x00\x05it's\\", Ok(b"NULL,'it''s\\\\'"), Never), false;
    "bind_wide_guarded_by_table_into of two marks without backslash escapes" =>
        (b"\x00\x06\x00\x00\xFD\x00\x02'\\", Ok(b"NULL,_utf8mb4 0x275C"), Never), true;
};

fn bound_marks(
    alloc: Global,
    (form, wanted, memory): MarksRow,
    guarded_in: Option<bool>,
) -> Outcome {
    let mut room = *ROOM;
    let template = AnywhereTemplate {
        query: b"?,?",
        head: MARKS_HEAD,
        places: MARKS,
    };
    let told = match guarded_in {
        None => bind_wide_anywhere_by_table_into(alloc, &template, form, &mut room),
        Some(no_backslash_escape) => {
            bind_wide_guarded_by_table_into(alloc, &template, form, no_backslash_escape, &mut room)
        }
    };
    bound_in_room(told, &room, wanted).with(memory)
}

/// How a call went that may write into the room.
fn bound_in_room(told: TableOutcome, room: &[u8], wanted: Result<&[u8], TableOutcome>) -> Outcome {
    let is_untouched = room == ROOM.as_slice();
    match (told, wanted) {
        (TableOutcome::AsQuery(Told::OutOfMemory), _) => Outcome::Memory.if_holds(is_untouched),
        (_, Ok(text)) => {
            let done = TableOutcome::AsQuery(Told::Done { len: text.len() });
            Outcome::Answer.if_holds(told == done && room.starts_with(text))
        }
        (_, Err(refusal)) => Outcome::Refusal.if_holds(told == refusal && is_untouched),
    }
}
