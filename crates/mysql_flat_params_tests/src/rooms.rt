//! Rooms that are too short, of the right length, and longer; and the answer to a query's names.
use crate::shared::{FORM, QUERY, TEXT, WITH_BACKSLASHES, WITHOUT_BACKSLASHES, finds_in, same_in};
use mysql_flat_params::{Outcome, bind_into, names_into};

#[test]
fn bound_in_its_room(rt: HostRuntime) {
    let mut room = [b'#'; 36];
    let outcome = bind_into(rt.alloc(), QUERY, FORM, WITH_BACKSLASHES, &mut room);
    same_in(&rt, outcome, Outcome::Done { len: 36 }, &"the answer");
    same_in(&rt, room.as_slice(), TEXT, &"the room");
}

#[test]
fn room_too_short_by_one(rt: HostRuntime) {
    let mut room = [b'#'; 35];
    let outcome = bind_into(rt.alloc(), QUERY, FORM, WITH_BACKSLASHES, &mut room);
    same_in(&rt, outcome, Outcome::Room { len: 36 }, &"the answer");
    same_in(&rt, room, [b'#'; 35], &"the room");
}

#[test]
fn room_too_short_for_names_by_one(rt: HostRuntime) {
    let mut room = [b'#'; 35];
    let outcome = names_into(rt.alloc(), QUERY, WITH_BACKSLASHES, &mut room[..26]);
    same_in(&rt, outcome, Outcome::Room { len: 27 }, &"the answer");
    same_in(&rt, room, [b'#'; 35], &"the room");
}

#[test]
fn no_room(rt: HostRuntime) {
    let mut room = [0u8; 0];
    let outcome = bind_into(rt.alloc(), b"", b"", WITH_BACKSLASHES, &mut room);
    same_in(&rt, outcome, Outcome::Done { len: 0 }, &"the answer");
    let outcome = bind_into(rt.alloc(), b" ", b"", WITH_BACKSLASHES, &mut room);
    same_in(&rt, outcome, Outcome::Room { len: 1 }, &"the answer");
    let outcome = names_into(rt.alloc(), b"", WITH_BACKSLASHES, &mut room);
    same_in(&rt, outcome, Outcome::Room { len: 1 }, &"the answer");
}

/// Queries, and the answer to asking for their names.
const NAMES: &[(&[u8], &[u8])] = &[
    (b"", b"\0"),
    (b"SELECT ?", b"\x08SELECT ?"),
    (b":a, :bc, :a", b"\x07?, ?, ?\x01a\x02bc\x01a"),
    (QUERY, b"\x12SELECT ?, ':id', ?\x02id\x04name"),
];

#[test]
fn names_of_queries(rt: HostRuntime) {
    for (query, answer) in NAMES {
        finds_in(&rt, rt.alloc(), WITH_BACKSLASHES, *query, *answer);
    }
}

#[test]
fn names_of_a_mixed_query(rt: HostRuntime) {
    for mode in [WITH_BACKSLASHES, WITHOUT_BACKSLASHES] {
        let mut room = [b'#'; 40];
        let outcome = names_into(rt.alloc(), b":a ?", mode, &mut room);
        same_in(&rt, outcome, Outcome::Mixed, &mode);
        same_in(&rt, room, [b'#'; 40], &mode);
    }
}
