//! Forms bound, and names found, in the mode without backslash escapes.
use crate::shared::{
    WITH_BACKSLASHES, WITHOUT_BACKSLASHES, all_bind_in, all_refuse_in, finds_in, refuses,
};
use mysql_flat_params::Outcome;

/// Queries, forms, and the text.
const TEXTS: &[(&[u8], &[u8], &[u8])] = &[
    // The string ends at the quote after the backslash.
    (
        b"SELECT 'a\\', :b",
        b"\x01b\xfd\0\x05it's\\",
        b"SELECT 'a\\', 'it''s\\'",
    ),
    (b"?", b"\0\xfd\0\x02''", b"''''''"),
    (
        b"SELECT ?",
        b"\0\xfd\0\x06\n\x00\"\\':",
        b"SELECT '\n\x00\"\\'':'",
    ),
    (b"8/?-?", b"\0\x01\0\x02\0\x01\0\xfd", b"8/2--3"),
];

#[test]
fn bound_texts(rt: HostRuntime) {
    all_bind_in(&rt, rt.alloc(), WITHOUT_BACKSLASHES, TEXTS);
}

/// A name, if a backslash escapes nothing: else it stands in an open string.
const AFTER_A_BACKSLASH: &[u8] = b"SELECT 'a\\':b";

/// `b` is NULL.
const NULL_FOR_B: &[u8] = b"\x01b\x06\0";

/// Queries, forms, and why they are refused without backslash escapes.
const REFUSALS: &[(&[u8], &[u8], Outcome)] = &[
    (
        AFTER_A_BACKSLASH,
        NULL_FOR_B,
        Outcome::NotAlone {
            place: 0,
            position: 11,
        },
    ),
    (
        b"SELECT 'a\\', :b, :c",
        NULL_FOR_B,
        Outcome::Missing {
            place: 1,
            position: 18,
            len: 1,
        },
    ),
    (b"'\\', :b, ?", b"", Outcome::Mixed),
];

#[test]
fn refusals(rt: HostRuntime) {
    all_refuse_in(&rt, rt.alloc(), WITHOUT_BACKSLASHES, REFUSALS);
}

#[test]
fn a_name_in_an_open_string(rt: HostRuntime) {
    let refused = Outcome::NamedForPositional;
    refuses(&rt, rt.alloc(), AFTER_A_BACKSLASH, NULL_FOR_B, refused);
}

#[test]
fn names_of_a_query(rt: HostRuntime) {
    let alloc = rt.alloc();
    let with = b"\x0dSELECT 'a\\':b";
    finds_in(&rt, alloc, WITH_BACKSLASHES, AFTER_A_BACKSLASH, with);
    let without = b"\x0cSELECT 'a\\'?\x01b";
    finds_in(&rt, alloc, WITHOUT_BACKSLASHES, AFTER_A_BACKSLASH, without);
}
