//! Texts of fragments for each purpose. The wanted texts are written by the rules of the MySQL
//! Reference Manual, "String Literals", "Character Set Introducers" and "Schema Object Names".
use crate::purposes::{BACKSLASHES, NO_BACKSLASHES, PORTABILITIES, purpose};
use mysql_bind_call::{BindRefusal, Portability, Purpose, Scope, append, bind, bind_into};
use mysql_binding::TextInRoom;
use mysql_fragments::{Fragment, Fragments, Item};
use mysql_values::bytes::Bytes;
use mysql_values::value::Value;
use std::alloc::{AllocError, Global};

// The list of `x` and `it's`, for each scope.
const LISTS: &[(Scope, &[u8])] = &[
    (BACKSLASHES, b"a IN ('x', 'it\\'s') AND `t` = 1"),
    (NO_BACKSLASHES, b"a IN ('x', 'it''s') AND `t` = 1"),
    (
        Scope::EitherMode,
        b"a IN (_utf8mb4'x', _utf8mb4'it''s') AND `t` = 1",
    ),
    (
        Scope::AnyConnection,
        b"a IN (_utf8mb4'x', _utf8mb4'it''s') AND `t` = 1",
    ),
];

fn item(alloc: Global, text: &[u8]) -> Result<Item, AllocError> {
    let bytes = Bytes::from(Vec::from_slice(alloc, text)?);
    Ok(Item::Value(Value::Bytes(bytes)))
}

// A list and a name.
fn list_and_name(alloc: Global) -> Result<Fragments, AllocError> {
    let mut items = Vec::new(alloc);
    items.push(item(alloc, b"x")?)?;
    items.push(item(alloc, b"it's")?)?;
    let mut list = Vec::new(alloc);
    list.push(Fragment::List(items))?;
    list.push(Fragment::Identifier(Vec::from_slice(alloc, b"t")?))?;
    Ok(Fragments::Positional(list))
}

// A name.
fn name(alloc: Global, name: &[u8]) -> Result<Fragments, AllocError> {
    let mut list = Vec::new(alloc);
    list.push(Fragment::Identifier(Vec::from_slice(alloc, name)?))?;
    Ok(Fragments::Positional(list))
}

fn is_bound(alloc: Global, list: &Fragments, purpose: Purpose, wanted: &[u8]) -> bool {
    match bind(alloc, b"a IN (?) AND ? = 1", list, purpose) {
        Ok(text) => text.as_slice() == wanted,
        Err(_) => false,
    }
}

#[test]
fn lists_and_names_for_each_purpose(rt: HostRuntime) {
    let list = list_and_name(rt.alloc()).expect(&rt, "fragments");
    for (scope, wanted) in LISTS {
        for portability in PORTABILITIES {
            let narrow = is_bound(
                rt.alloc(),
                &list,
                purpose(*scope, *portability, false),
                *wanted,
            );
            assert!(rt; narrow);
            let wide = is_bound(
                rt.alloc(),
                &list,
                purpose(*scope, *portability, true),
                *wanted,
            );
            assert!(rt; wide);
        }
    }
}

#[test]
fn lists_and_names_in_a_room_and_after_a_text(rt: HostRuntime) {
    let list = list_and_name(rt.alloc()).expect(&rt, "fragments");
    for (scope, wanted) in LISTS {
        let purpose = purpose(*scope, Portability::Any, false);
        let mut room = [7u8; 64];
        let told = bind_into(rt.alloc(), b"a IN (?) AND ? = 1", &list, purpose, &mut room);
        assert!(rt; told == Ok(TextInRoom::Written { len: wanted.len() }));
        assert_eq!(rt; room.get(..wanted.len()).unwrap_or(&[]), *wanted);
        let mut text = Vec::new(rt.alloc());
        append(rt.alloc(), b"a IN (?) AND ? = 1", &list, purpose, &mut text).expect(&rt, "a text");
        assert_eq!(rt; text.as_slice(), *wanted);
    }
}

// A name with a byte from 128 on is taken for one mode only.
#[test]
fn names_beyond_ascii(rt: HostRuntime) {
    let list = name(rt.alloc(), b"\xC3\xBC").expect(&rt, "fragments");
    let one = purpose(BACKSLASHES, Portability::Any, false);
    let text = bind(rt.alloc(), b"SELECT ?", &list, one).expect(&rt, "a text");
    assert_eq!(rt; text.as_slice(), b"SELECT `\xC3\xBC`".as_slice());
    let either = purpose(Scope::EitherMode, Portability::Any, false);
    let refused = bind(rt.alloc(), b"SELECT ?", &list, either)
        == Err(BindRefusal::UnsteadyFragment { place: 0 });
    assert!(rt; refused);
    let any = purpose(Scope::AnyConnection, Portability::Any, false);
    let refused = bind(rt.alloc(), b"SELECT ?", &list, any)
        == Err(BindRefusal::UnsteadyFragment { place: 0 });
    assert!(rt; refused);
}
