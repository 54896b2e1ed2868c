//! Texts in a room, and after a text.
use crate::purposes::{BACKSLASHES, NO_BACKSLASHES, purpose};
use mysql_bind_call::{ByPosition, Portability, Purpose, Scope, append, bind_into};
use mysql_binding::TextInRoom;
use mysql_params_core::params::NamedPairs;
use mysql_values::value::ValueRef;

const VALUES: &[ValueRef<'static>] = &[ValueRef::UInt(5)];

fn anywhere() -> Purpose {
    purpose(Scope::AnyConnection, Portability::Servers, true)
}

#[test]
fn a_text_in_a_room(rt: HostRuntime) {
    let values = ByPosition(VALUES);
    let mut room = *b"..........";
    let told = bind_into(rt.alloc(), b"SELECT ?", &values, anywhere(), &mut room);
    assert!(rt; told == Ok(TextInRoom::Written { len: 8 }));
    assert!(rt; room == *b"SELECT 5..");
    let told = bind_into(rt.alloc(), b"SELECT ?", &values, anywhere(), &mut room[..7]);
    assert!(rt; told == Ok(TextInRoom::TooShort { len: 8 }));
    assert!(rt; room == *b"SELECT 5..");
}

#[test]
fn a_text_after_a_text(rt: HostRuntime) {
    let values = ByPosition(VALUES);
    let mut text = Vec::from_slice(rt.alloc(), b"DO 1;").expect(&rt, "a vector");
    append(rt.alloc(), b"DO ?", &values, anywhere(), &mut text).expect(&rt, "a text");
    assert_eq!(rt; text.as_slice(), b"DO 1;DO 5".as_slice());
}

const PAIRS: &[(&[u8], ValueRef<'static>)] = &[(b"a", ValueRef::Bytes(b"it's"))];

/// The text of `x=:a` in each scope, by hand from the rules for strings.
const TEXTS: &[(Scope, &[u8])] = &[
    (BACKSLASHES, b"x='it\\'s'"),
    (NO_BACKSLASHES, b"x='it''s'"),
    (Scope::EitherMode, b"x=_utf8mb4'it''s'"),
    (Scope::AnyConnection, b"x=_utf8mb4'it''s'"),
];

#[test]
fn pairs_in_each_scope(rt: HostRuntime) {
    let pairs = NamedPairs(PAIRS);
    for (scope, wanted) in TEXTS {
        let purpose = purpose(*scope, Portability::Any, false);
        let mut room = [7u8; 17];
        let told = bind_into(rt.alloc(), b"x=:a", &pairs, purpose, &mut room);
        assert!(rt; told == Ok(TextInRoom::Written { len: wanted.len() }));
        assert_eq!(rt; room.get(..wanted.len()).unwrap_or(&[]), *wanted);
        let mut text = Vec::new(rt.alloc());
        append(rt.alloc(), b"x=:a", &pairs, purpose, &mut text).expect(&rt, "a text");
        assert_eq!(rt; text.as_slice(), *wanted);
    }
}
