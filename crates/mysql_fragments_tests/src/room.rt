//! Texts that are bound to borrowed fragments, in a room. The wanted texts are written by the rules
//! of the MySQL Reference Manual, "VALUES Statement", "Comparison Functions and Operators" and
//! "String Literals".
use crate::shared::{Plain, PlainItem, fragment};
use mysql_fragments::{
    Fragment, FragmentFault, FragmentRef, FragmentsError, RowsRef, TextInRoom,
    bind_borrowed_fragments_into,
};
use mysql_params_core::params::ParamsConfusionError;
use mysql_values::value::{Value, ValueRef};

const CELLS: &[ValueRef<'static>] = &[
    ValueRef::Int(1),
    ValueRef::Bytes(b"it's"),
    ValueRef::Int(-2),
    ValueRef::NULL,
];

/// Whether the room begins with the text and has its own bytes, which are `*`, after it.
fn stands_in(room: &[u8], text: &[u8]) -> bool {
    match room.strip_prefix(text) {
        Some(rest) => is_untouched(rest),
        None => false,
    }
}

fn is_untouched(room: &[u8]) -> bool {
    for b in room {
        if *b != b'*' {
            return false;
        }
    }
    true
}

fn written(told: &Result<TextInRoom, FragmentsError>, room: &[u8], wanted: &[u8]) -> bool {
    *told == Ok(TextInRoom::Written { len: wanted.len() }) && stands_in(room, wanted)
}

fn refused_in_room(query: &[u8], fragments: &[FragmentRef<'_>], wanted: FragmentsError) -> bool {
    let mut room = [b'*'; 8];
    let told = bind_borrowed_fragments_into(query, fragments, false, &mut room);
    told == Err(wanted) && is_untouched(&room)
}

#[test]
fn list_in_a_longer_room(rt: HostRuntime) {
    let mut room = [b'*'; 40];
    let told = bind_borrowed_fragments_into(
        b"a IN (?)",
        &[FragmentRef::List(CELLS)],
        false,
        &mut room,
    );
    assert!(rt; written(&told, &room, b"a IN (1, 'it\\'s', -2, NULL)"));
}

#[test]
fn rows_in_a_room_of_their_length(rt: HostRuntime) {
    let mut room = [b'*'; 32];
    let same = match RowsRef::new(CELLS, 2) {
        Ok(rows) => {
            let fragments = &[FragmentRef::Rows(rows)];
            let told = bind_borrowed_fragments_into(b"VALUES ?;", fragments, true, &mut room);
            written(&told, &room, b"VALUES (1, 'it''s'), (-2, NULL);")
        }
        Err(_) => false,
    };
    assert!(rt; same);
}

// The doubles are 1.5 and 5e-324.
#[test]
fn doubles_in_a_room_of_their_length(rt: HostRuntime) {
    let list = fragment(
        rt.alloc(),
        Plain::List(&[PlainItem::Double(1), PlainItem::Null]),
    );
    let alone = fragment(rt.alloc(), Plain::Double(0x3ff8_0000_0000_0000));
    let mut room = [b'*'; 30];
    let same = match (list, alone) {
        (Ok(list), Ok(alone)) => {
            let fragments = &[FragmentRef::Owned(&list), FragmentRef::Owned(&alone)];
            let told = bind_borrowed_fragments_into(b"a IN (?) OR b=?", fragments, true, &mut room);
            written(&told, &room, b"a IN (5e-324, NULL) OR b=1.5e0")
        }
        _ => false,
    };
    assert!(rt; same);
}

#[test]
fn room_that_is_too_short(rt: HostRuntime) {
    let owned = Fragment::Value(Value::Int(7));
    let fragments = &[
        FragmentRef::Owned(&owned),
        FragmentRef::Value(ValueRef::UInt(18)),
    ];
    let mut room = [b'*'; 3];
    let told = bind_borrowed_fragments_into(b"?=?", fragments, false, &mut room);
    assert!(rt; told == Ok(TextInRoom::TooShort { len: 4 }));
    assert!(rt; is_untouched(&room));
    let told = bind_borrowed_fragments_into(b"?=?", fragments, false, &mut []);
    assert!(rt; told == Ok(TextInRoom::TooShort { len: 4 }));
}

#[test]
fn refusals_in_a_room(rt: HostRuntime) {
    let list = &[FragmentRef::List(CELLS)];
    assert!(rt; refused_in_room(b":a ?", list, FragmentsError::Mixed));
    assert!(rt; refused_in_room(b"1?", list, FragmentsError::NotAlone { place: 0, at: 1 }));
    let kind = FragmentsError::Confusion(ParamsConfusionError::PositionalParamsForNamedQuery);
    assert!(rt; refused_in_room(b":a", list, kind));
    let few = FragmentsError::MarkCount {
        marks: 2,
        fragments: 1,
    };
    assert!(rt; refused_in_room(b"? = ?", list, few));
    let float = &[FragmentRef::List(&[ValueRef::NULL, ValueRef::Double(0)])];
    assert!(rt; refused_in_room(b"a IN (?)", float, FragmentsError::Float { place: 0 }));
    let empty = FragmentsError::Fault {
        place: 0,
        fault: FragmentFault::Empty,
    };
    assert!(rt; refused_in_room(b"a IN (?)", &[FragmentRef::List(&[])], empty));
}
