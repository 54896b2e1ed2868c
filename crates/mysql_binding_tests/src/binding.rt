//! Queries with values bound into them, and those that are refused.
use crate::shared::{
    EITHER_MODE, Given, Plain, Refused, WITH_BACKSLASHES, are_bound_by, are_refused_by, says,
};
use mysql_params::BindError;
use std::alloc::AllocError;

/// Queries, what is given to them, and the text.
const TEXTS: &[(&[u8], Given<'_>, &[u8])] = &[
    (b"", Given::Nothing, b""),
    (b"SELECT 1", Given::Positional(&[]), b"SELECT 1"),
    (
        b"SELECT (:a-10)",
        Given::Named(&[(b"a", Plain::Int(-3))]),
        b"SELECT (-3-10)",
    ),
    (
        b"SELECT ?, ?",
        Given::Positional(&[Plain::Text(b"x' OR '1'='1"), Plain::Null]),
        b"SELECT 'x\\' OR \\'1\\'=\\'1', NULL",
    ),
    (b"/*+:a", Given::Named(&[(b"a", Plain::UInt(5))]), b"/*+5"),
    (b":a-- x", Given::Named(&[(b"a", Plain::UInt(5))]), b"5-- x"),
    // A name that stands twice, and one that the query doesn't have.
    (
        b":a%:a!=1",
        Given::Named(&[(b"b", Plain::Float), (b"a", Plain::UInt(5))]),
        b"5%5!=1",
    ),
    (b"'?' = ?", Given::Positional(&[Plain::Null]), b"'?' = NULL"),
    (
        b"SELECT `a?`, \"?\" /* ? */ # ?\n, ? -- ?",
        Given::Positional(&[Plain::Text(b"\xC3\x28")]),
        b"SELECT `a?`, \"?\" /* ? */ # ?\n, 0xC328 -- ?",
    ),
    (
        b"VALUES (?,?)",
        Given::Positional(&[Plain::Text(b""), Plain::Day(2019, 11, 27)]),
        b"VALUES ('','2019-11-27')",
    ),
    // What looks like a place stands in an open token.
    (b"'a :a", Given::Nothing, b"'a :a"),
    (b"\"a :a", Given::Nothing, b"\"a :a"),
    (b"`a :a", Given::Nothing, b"`a :a"),
    (b"/*a :a", Given::Nothing, b"/*a :a"),
    (b"#a :a", Given::Nothing, b"#a :a"),
    (b"-- a :a", Given::Nothing, b"-- a :a"),
    (b"'\\':a", Given::Nothing, b"'\\':a"),
    (b"'a\\", Given::Nothing, b"'a\\"),
    (b"*/*?", Given::Nothing, b"*/*?"),
    // More places than are kept while a query is surveyed.
    (
        b"?,?,?,?,?,?,?,?,?,?,?,?,?,?,?,?,?,?,?,? -- ?",
        Given::Positional(&[
            Plain::UInt(1),
            Plain::UInt(1),
            Plain::UInt(1),
            Plain::UInt(1),
            Plain::UInt(1),
            Plain::UInt(1),
            Plain::UInt(1),
            Plain::UInt(1),
            Plain::UInt(1),
            Plain::UInt(1),
            Plain::UInt(1),
            Plain::UInt(1),
            Plain::UInt(1),
            Plain::UInt(1),
            Plain::UInt(1),
            Plain::UInt(1),
            Plain::UInt(2),
            Plain::UInt(2),
            Plain::UInt(2),
            Plain::UInt(2),
        ]),
        b"1,1,1,1,1,1,1,1,1,1,1,1,1,1,1,1,2,2,2,2 -- ?",
    ),
];

#[test]
fn bound_texts(rt: HostRuntime) {
    are_bound_by(&rt, rt.alloc(), WITH_BACKSLASHES, TEXTS);
}

/// Queries, what is given to them, and why they are refused. None has a backslash, so in either
/// mode they are refused alike.
const REFUSALS: &[(&[u8], Given<'_>, Refused<'_>)] = &[
    // Names and marks come before all other causes.
    (b":a ?", Given::Nothing, Refused::Mixed),
    (b":a?", Given::Positional(&[Plain::Float]), Refused::Mixed),
    (b"? x:a", Given::Named(&[]), Refused::Mixed),
    // Then what the lookup refuses.
    (b"", Given::Named(&[]), Refused::NamedGiven),
    (
        b"SELECT ?",
        Given::Named(&[(b"a", Plain::Null)]),
        Refused::NamedGiven,
    ),
    (
        b":a",
        Given::Positional(&[Plain::Null]),
        Refused::PositionalGiven,
    ),
    (b"x:a", Given::Positional(&[]), Refused::PositionalGiven),
    (b":a, :b", Given::Nothing, Refused::Missing(b"a")),
    (b"x:a", Given::Named(&[]), Refused::Missing(b"a")),
    (
        b":a, :b, :c",
        Given::Named(&[(b"a", Plain::Float)]),
        Refused::Missing(b"c"),
    ),
    (
        b":a, :b, :a",
        Given::Named(&[(b"a", Plain::Null)]),
        Refused::Missing(b"b"),
    ),
    // Then the number of marks.
    (
        b"SELECT ?, ?",
        Given::Positional(&[Plain::Null]),
        Refused::MarkCount(2, 1),
    ),
    (b"SELECT ?, ?", Given::Nothing, Refused::MarkCount(2, 0)),
    (
        b"?",
        Given::Positional(&[Plain::Null, Plain::Null]),
        Refused::MarkCount(1, 2),
    ),
    (
        b"1? ?",
        Given::Positional(&[Plain::Float]),
        Refused::MarkCount(2, 1),
    ),
    (
        b"'?'",
        Given::Positional(&[Plain::Null]),
        Refused::MarkCount(0, 1),
    ),
    // Then the places.
    (
        b"1?",
        Given::Positional(&[Plain::Float]),
        Refused::NotAlone(0, 1),
    ),
    (
        b":a_Aa:b",
        Given::Named(&[(b"a_", Plain::Null), (b"b", Plain::Null)]),
        Refused::NotAlone(0, 0),
    ),
    (
        b"::b",
        Given::Named(&[(b"b", Plain::Null)]),
        Refused::NotAlone(0, 1),
    ),
    (
        b"x:a",
        Given::Named(&[(b"a", Plain::Null)]),
        Refused::NotAlone(0, 1),
    ),
    (
        b":a:b",
        Given::Named(&[(b"a", Plain::Null), (b"b", Plain::Null)]),
        Refused::NotAlone(0, 0),
    ),
    (
        b"':b':a",
        Given::Named(&[(b"a", Plain::Null)]),
        Refused::NotAlone(0, 4),
    ),
    (
        b"?'x'",
        Given::Positional(&[Plain::Null]),
        Refused::NotAlone(0, 0),
    ),
    (
        b"?\x00",
        Given::Positional(&[Plain::Null]),
        Refused::NotAlone(0, 0),
    ),
    (
        b"\x0b?",
        Given::Positional(&[Plain::Null]),
        Refused::NotAlone(0, 1),
    ),
    (
        b"? ?x",
        Given::Positional(&[Plain::Null, Plain::Null]),
        Refused::NotAlone(1, 2),
    ),
    (
        b"? ?x",
        Given::Positional(&[Plain::Float, Plain::Null]),
        Refused::NotAlone(1, 2),
    ),
    // The position is that in the query, and not in one with marks for its names.
    (
        b":abc, x:b",
        Given::Named(&[(b"abc", Plain::Null), (b"b", Plain::Null)]),
        Refused::NotAlone(1, 7),
    ),
    // Then the values.
    (
        b"1+?",
        Given::Positional(&[Plain::Float]),
        Refused::Float(0),
    ),
    (
        b":a, :b",
        Given::Named(&[(b"a", Plain::Null), (b"b", Plain::Double)]),
        Refused::Float(1),
    ),
];

#[test]
fn first_cause_of_refusal(rt: HostRuntime) {
    are_refused_by(&rt, rt.alloc(), EITHER_MODE, REFUSALS);
}

/// Refusals, and what they print.
const MESSAGES: &[(Refused<'_>, &str)] = &[
    (Refused::Mixed, "Named and positional params in one query"),
    (
        Refused::Missing(b"a\n"),
        "Missing named parameter `a\\x0a` for statement",
    ),
    (
        Refused::NamedGiven,
        "Named params given where positional params are expected",
    ),
    (
        Refused::PositionalGiven,
        "Positional params given where named params are expected",
    ),
    (Refused::MarkCount(2, 1), "Query has 2 marks and 1 values"),
    (
        Refused::NotAlone(0, 1),
        "Place 0 at byte 1 does not stand alone",
    ),
    (Refused::Float(0), "Float at place 0"),
];

#[test]
fn messages(rt: HostRuntime) {
    let alloc = rt.alloc();
    for (refused, message) in MESSAGES {
        says(&rt, alloc, refused.error(&rt, alloc), *message);
    }
    says(&rt, alloc, BindError::Memory(AllocError), "out of memory");
}
