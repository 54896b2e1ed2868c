//! The mode without backslash escapes: there a backslash is a byte like any other, in queries and
//! in literals.
use crate::shared::{
    Given, Plain, Refused, WITH_BACKSLASHES, WITHOUT_BACKSLASHES, are_bound_by, are_refused_by,
};

/// Queries, what is given to them, and the text.
const TEXTS: &[(&[u8], Given<'_>, &[u8])] = &[
    // The string ends at the quote after the backslash.
    (b"SELECT 'a\\', :b", TEXT_FOR_B, b"SELECT 'a\\', 'it''s\\'"),
    (b"?", Given::Positional(&[Plain::Text(b"''")]), b"''''''"),
    (
        b"SELECT ?, ?",
        Given::Positional(&[Plain::Text(b"x' OR '1'='1"), Plain::Null]),
        b"SELECT 'x'' OR ''1''=''1', NULL",
    ),
    (
        b"SELECT (:a-10), :a",
        Given::Named(&[(b"a", Plain::Int(-3))]),
        b"SELECT (-3-10), -3",
    ),
    (
        b"VALUES (?,?,?)",
        Given::Positional(&[
            Plain::Text(b""),
            Plain::Day(2019, 11, 27),
            Plain::Text(b"\xC3\x28"),
        ]),
        b"VALUES ('','2019-11-27',0xC328)",
    ),
    (
        b"SELECT \"\\\", ? -- ?",
        Given::Positional(&[Plain::UInt(5)]),
        b"SELECT \"\\\", 5 -- ?",
    ),
    // A value that looks like places, and its text bound again.
    (
        b"SELECT ?",
        Given::Positional(&[Plain::Text(b"\\':b ?")]),
        b"SELECT '\\'':b ?'",
    ),
    (b"SELECT '\\'':b ?'", Given::Nothing, b"SELECT '\\'':b ?'"),
];

#[test]
fn bound_texts(rt: HostRuntime) {
    are_bound_by(&rt, rt.alloc(), WITHOUT_BACKSLASHES, TEXTS);
}

const NULL_FOR_B: Given<'_> = Given::Named(&[(b"b", Plain::Null)]);

const TEXT_FOR_B: Given<'_> = Given::Named(&[(b"b", Plain::Text(b"it's\\"))]);

/// A name after a string with a backslash.
const AFTER_A_STRING: &[(&[u8], Given<'_>, Refused<'_>)] = &[(
    b"SELECT 'a\\':b",
    NULL_FOR_B,
    Refused::NotAlone(0, 11),
)];

#[test]
fn a_name_after_a_string_with_a_backslash(rt: HostRuntime) {
    are_refused_by(&rt, rt.alloc(), WITHOUT_BACKSLASHES, AFTER_A_STRING);
}

/// Queries that have the name `b` if a backslash escapes nothing; else it stands in an open
/// string.
const NAMELESS_WITH_BACKSLASHES: &[(&[u8], Given<'_>, Refused<'_>)] = &[
    (b"SELECT 'a\\':b", TEXT_FOR_B, Refused::NamedGiven),
    (b"SELECT 'a\\', :b", TEXT_FOR_B, Refused::NamedGiven),
];

#[test]
fn a_name_in_an_open_string(rt: HostRuntime) {
    are_refused_by(&rt, rt.alloc(), WITH_BACKSLASHES, NAMELESS_WITH_BACKSLASHES);
}
