//! Tables of the places of queries, and what is bound by another table.
use crate::shared::{
    FORM, NO_HEAD, NO_PLACE, QUERY, TEXT, WITH_BACKSLASHES, WITHOUT_BACKSLASHES, same_in, wrote,
};
use mysql_flat_params::{
    Outcome, PlaceSpan, TableHead, TableOutcome, Template, bind_by_table_into, table_into,
};
use std::alloc::Global;
use std::process::Abort;

// The places of `SELECT :id, ':id', :name`.
const PLACES: [PlaceSpan; 2] = [
    PlaceSpan { before: 7, len: 3 },
    PlaceSpan { before: 9, len: 5 },
];

// What its table says of them together.
const HEAD: TableHead = TableHead {
    names: 2,
    marks: 0,
    not_alone: 0,
    place: 0,
    position: 0,
    piece_bytes: 16,
};

#[test]
fn table_of_a_query(rt: HostRuntime) {
    let mut head = NO_HEAD;
    let mut places = [NO_PLACE; 3];
    let outcome = table_into(rt.alloc(), QUERY, WITH_BACKSLASHES, &mut head, &mut places);
    same_in(&rt, outcome, Outcome::Done { len: 2 }, &"the answer");
    same_in(&rt, head, HEAD, &"the head");
    same_in(&rt, places, [PLACES[0], PLACES[1], NO_PLACE], &"the room");
}

#[test]
fn room_too_short_for_a_table_by_one(rt: HostRuntime) {
    let mut head = NO_HEAD;
    let mut places = [NO_PLACE; 1];
    let outcome = table_into(rt.alloc(), QUERY, WITH_BACKSLASHES, &mut head, &mut places);
    same_in(&rt, outcome, Outcome::Room { len: 2 }, &"the answer");
    same_in(&rt, head, NO_HEAD, &"the head");
    same_in(&rt, places, [NO_PLACE], &"the room");
}

// A mark after a place that doesn't stand alone: the head tells the first that doesn't.
#[test]
fn table_of_places_that_do_not_stand_alone(rt: HostRuntime) {
    let mut head = NO_HEAD;
    let mut places = [NO_PLACE; 3];
    let query = b"?, 1?, x?";
    let outcome = table_into(rt.alloc(), query, WITH_BACKSLASHES, &mut head, &mut places);
    let wanted = TableHead {
        names: 0,
        marks: 3,
        not_alone: 1,
        place: 1,
        position: 4,
        piece_bytes: 6,
    };
    same_in(&rt, outcome, Outcome::Done { len: 3 }, &"the answer");
    same_in(&rt, head, wanted, &"the head");
}

// In one mode the name is in a string, in the other behind it.
#[test]
fn table_in_each_mode(rt: HostRuntime) {
    let query = b"'\\' :a '";
    for (mode, count) in [(WITH_BACKSLASHES, 0), (WITHOUT_BACKSLASHES, 1)] {
        let mut head = NO_HEAD;
        let mut places = [NO_PLACE; 2];
        let outcome = table_into(rt.alloc(), query, mode, &mut head, &mut places);
        same_in(&rt, outcome, Outcome::Done { len: count }, &mode);
        same_in(&rt, head.names, count, &mode);
    }
}

// What is bound to QUERY by this table.
fn bound_by(rt: &impl Abort, alloc: Global, head: TableHead, places: &[PlaceSpan]) -> TableOutcome {
    let mut room = [b'#'; 64];
    let template = Template {
        query: QUERY,
        no_backslash_escape: WITH_BACKSLASHES,
        head,
        places,
    };
    let outcome = bind_by_table_into(alloc, &template, FORM, &mut room);
    match outcome {
        TableOutcome::AsQuery(told) => wrote(rt, told, &room, TEXT, &(head, places)),
        TableOutcome::OtherTable => same_in(rt, room, [b'#'; 64], &(head, places)),
    }
    outcome
}

#[test]
fn bound_by_the_own_table(rt: HostRuntime) {
    let outcome = bound_by(&rt, rt.alloc(), HEAD, &PLACES);
    let wanted = TableOutcome::AsQuery(Outcome::Done { len: 36 });
    same_in(&rt, outcome, wanted, &"the answer");
}

#[test]
fn heads_of_other_tables(rt: HostRuntime) {
    let others = [
        TableHead { names: 1, ..HEAD },
        TableHead { names: 3, ..HEAD },
        TableHead { marks: 1, ..HEAD },
        TableHead {
            names: usize::MAX,
            ..HEAD
        },
        TableHead {
            piece_bytes: 15,
            ..HEAD
        },
        TableHead {
            piece_bytes: 17,
            ..HEAD
        },
    ];
    for head in others {
        let outcome = bound_by(&rt, rt.alloc(), head, &PLACES);
        same_in(&rt, outcome, TableOutcome::OtherTable, &head);
    }
    let outcome = bound_by(&rt, rt.alloc(), HEAD, &PLACES[..1]);
    same_in(&rt, outcome, TableOutcome::OtherTable, &"one place");
    same_in(&rt, outcome.number(), 20, &"the number");
    same_in(&rt, outcome.report().len, 0, &"the report");
}

#[test]
fn places_of_other_tables(rt: HostRuntime) {
    let others = [
        // No byte in a place.
        [
            PlaceSpan { before: 7, len: 0 },
            PlaceSpan { before: 9, len: 8 },
        ],
        // Beyond the query, and so far that the sum is no number.
        [
            PlaceSpan { before: 7, len: 3 },
            PlaceSpan { before: 9, len: 6 },
        ],
        [
            PlaceSpan { before: 25, len: 3 },
            PlaceSpan { before: 9, len: 5 },
        ],
        [
            PlaceSpan {
                before: 7,
                len: usize::MAX,
            },
            PlaceSpan { before: 9, len: 5 },
        ],
        [
            PlaceSpan {
                before: usize::MAX,
                len: 3,
            },
            PlaceSpan { before: 9, len: 5 },
        ],
        // A name that the query doesn't have.
        [
            PlaceSpan { before: 6, len: 3 },
            PlaceSpan { before: 10, len: 5 },
        ],
    ];
    for places in others {
        let outcome = bound_by(&rt, rt.alloc(), HEAD, &places);
        same_in(&rt, outcome, TableOutcome::OtherTable, &places);
    }
}
