//! Texts with guarded literals, as each mode writes them. MariaDB 10.11 reads each of these
//! literals over 36 character sets as one text, and over utf8mb4, in its mode, as the value.
use crate::shared::{Given, Plain, Refused, answer_of, same_in};
use mysql_params::{SteadyTextError, bind_text_guarded};
use std::alloc::Global;
use std::process::Abort;

/// In this mode the query is bound to the text.
fn is_bound(
    rt: &impl Abort,
    alloc: Global,
    (query, given): (&[u8], Given<'_>),
    no_backslash_escape: bool,
    wanted: &[u8],
) {
    let params = given.params(rt, alloc);
    let bound = bind_text_guarded(alloc, query, params, no_backslash_escape);
    let text = answer_of(rt, bound);
    same_in(rt, text.as_slice(), wanted, &(query, no_backslash_escape));
}

/// Queries, what is given to them, and the texts with backslash escapes and without.
const TEXTS: &[(&[u8], Given<'_>, &[u8], &[u8])] = &[
    // Without a backslash both modes write the same: quotes are doubled, and all else stays.
    (
        b"SELECT ?",
        Given::Positional(&[Plain::Text(b"it's \0\n\"\xC3\xA9\"")]),
        b"SELECT 'it''s \0\n\"\xC3\xA9\"'",
        b"SELECT 'it''s \0\n\"\xC3\xA9\"'",
    ),
    (
        b"(:a, :b)",
        Given::Named(&[(b"a", Plain::Text(b"")), (b"b", Plain::Text(b"'"))]),
        b"('', '''')",
        b"('', '''')",
    ),
    // Over gbk the last byte of the character would take a backslash.
    (
        b"?",
        Given::Positional(&[Plain::Text(b"\xE8\xAA\xA0' OR 1=1 -- ")]),
        b"'\xE8\xAA\xA0'' OR 1=1 -- '",
        b"'\xE8\xAA\xA0'' OR 1=1 -- '",
    ),
    // With backslash escapes a backslash is doubled.
    (
        b"?",
        Given::Positional(&[Plain::Text(b"C:\\dir's")]),
        b"'C:\\\\dir''s'",
        b"_utf8mb4 0x433A5C6469722773",
    ),
    (
        b"?",
        Given::Positional(&[Plain::Text(b"{\"a\":\"\xC3\xA9\",\"b\":\"x\\ny\"}")]),
        b"'{\"a\":\"\xC3\xA9\",\"b\":\"x\\\\ny\"}'",
        b"_utf8mb4 0x7B2261223A22C3A9222C2262223A22785C6E79227D",
    ),
    // Directly after a byte from 128 on it begins a string.
    (
        b"?",
        Given::Positional(&[Plain::Text(b"\xC3\xA9\\")]),
        b"'\xC3\xA9' '\\\\'",
        b"_utf8mb4 0xC3A95C",
    ),
    (
        b"?",
        Given::Positional(&[Plain::Text(b"\\\xC3\xA9\\\\'\xC3\xA9\\")]),
        b"'\\\\\xC3\xA9' '\\\\\\\\''\xC3\xA9' '\\\\'",
        b"_utf8mb4 0x5CC3A95C5C27C3A95C",
    ),
    // Bytes that aren't UTF-8, and values that aren't bytes.
    (
        b"?, ?, ?, ?",
        Given::Positional(&[
            Plain::Text(b"\xFF\\"),
            Plain::Null,
            Plain::Int(-3),
            Plain::Day(2019, 11, 27),
        ]),
        b"0xFF5C, NULL, -3, '2019-11-27'",
        b"0xFF5C, NULL, -3, '2019-11-27'",
    ),
];

#[test]
fn bound_texts(rt: HostRuntime) {
    for (query, given, escaped, unescaped) in TEXTS {
        is_bound(&rt, rt.alloc(), (*query, *given), false, *escaped);
        is_bound(&rt, rt.alloc(), (*query, *given), true, *unescaped);
    }
}

#[test]
fn refusals(rt: HostRuntime) {
    let alloc = rt.alloc();
    let given = Given::Positional(&[Plain::Float]);
    let params = given.params(&rt, alloc);
    let found = bind_text_guarded(alloc, b"'\\', ?", params, false).err();
    let wanted = Some(SteadyTextError::Unsteady { at: 1 });
    same_in(&rt, &found, &wanted, &"an unsteady query");
    let params = given.params(&rt, alloc);
    let found = bind_text_guarded(alloc, b"[b], ?", params, false).err();
    let wanted = Some(SteadyTextError::Bind(Refused::Float(0).error(&rt, alloc)));
    same_in(&rt, &found, &wanted, &"a float");
}
