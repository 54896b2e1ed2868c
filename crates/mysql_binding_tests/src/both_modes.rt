//! Texts that no mode reads otherwise, of queries with bytes from 128 on, and the queries that are
//! refused.
use crate::shared::{Given, Plain, Refused, answer_of, same_in, says};
use mysql_params::named_params::ParsedNamedParams;
use mysql_params::{BothModesError, Construct, Unportable, bind_text_in_both_modes};
use std::alloc::Global;
use std::process::Abort;

/// Why a query is refused.
#[derive(Clone, Copy)]
enum BothModesRefused<'a> {
    Backslash(usize),
    Unportable(Construct, usize),
    Bind(Refused<'a>),
}

impl BothModesRefused<'_> {
    fn error(self, rt: &impl Abort, alloc: Global) -> BothModesError {
        match self {
            BothModesRefused::Backslash(at) => BothModesError::Backslash { at },
            BothModesRefused::Unportable(construct, at) => {
                BothModesError::Unportable(Unportable { construct, at })
            }
            BothModesRefused::Bind(refused) => BothModesError::Bind(refused.error(rt, alloc)),
        }
    }
}

const FIVE: Given<'_> = Given::Positional(&[Plain::UInt(5)]);

/// Queries, what is given to them, and the text. `ü` is C3 BC (RFC 3629).
const TEXTS: &[(&[u8], Given<'_>, &[u8])] = &[
    // An identifier, a comment and a string.
    (
        b"SELECT b\xC3\xBC, '\xC3\xBC ?' /* \xC3\xBC ' */ FROM `\xC3\xBC` AS t, :a",
        Given::Named(&[(b"a", Plain::Text(b"a'\\"))]),
        b"SELECT b\xC3\xBC, '\xC3\xBC ?' /* \xC3\xBC ' */ FROM `\xC3\xBC` AS t, _utf8mb4 0x61275C",
    ),
    // Backslashes outside of strings.
    (
        b"SELECT `\\\xC3\xBC`, 'a''b', ? # \\'",
        Given::Positional(&[Plain::Text(b"it's")]),
        b"SELECT `\\\xC3\xBC`, 'a''b', _utf8mb4'it''s' # \\'",
    ),
    // Bytes that are no UTF-8, in the query and in the value.
    (
        b"'\xFF', ?",
        Given::Positional(&[Plain::Text(b"\xFF")]),
        b"'\xFF', 0xFF",
    ),
    (b"SELECT 1", Given::Nothing, b"SELECT 1"),
];

/// In this mode no name stands in the text, and it stays as it is.
fn is_nameless(rt: &impl Abort, alloc: Global, text: &[u8], no_backslash_escape: bool) {
    let parsed = answer_of(
        rt,
        ParsedNamedParams::parse_in(alloc, text, no_backslash_escape),
    );
    same_in(rt, parsed.params().len(), 0, &text);
    same_in(rt, parsed.query(), text, &no_backslash_escape);
}

#[test]
fn bound_texts(rt: HostRuntime) {
    let alloc = rt.alloc();
    for (query, given, wanted) in TEXTS {
        let params = given.params(&rt, alloc);
        let text = answer_of(&rt, bind_text_in_both_modes(alloc, *query, params));
        same_in(&rt, text.as_slice(), *wanted, query);
    }
}

#[test]
fn names_left_in_either_mode(rt: HostRuntime) {
    for (_, _, text) in TEXTS {
        for mode in [false, true] {
            is_nameless(&rt, rt.alloc(), *text, mode);
        }
    }
}

/// Queries, what is given to them, and why they are refused.
const REFUSALS: &[(&[u8], Given<'_>, BothModesRefused<'_>)] = &[
    // A backslash in a string comes before all other causes.
    (
        b"SELECT '\xC3\xBC\\', [?",
        FIVE,
        BothModesRefused::Backslash(10),
    ),
    (
        b"`\\` # \\\n'a''\\\\', ? :a",
        FIVE,
        BothModesRefused::Backslash(12),
    ),
    (b"'a', \"b\\\"\", ?", FIVE, BothModesRefused::Backslash(7)),
    // An open string, in one mode alone.
    (b"'\\', ?, '", FIVE, BothModesRefused::Backslash(1)),
    // Then a construct that isn't portable.
    (
        b"\xC3\xBC[?, :a",
        FIVE,
        BothModesRefused::Unportable(Construct::Bracket, 2),
    ),
    (
        b"SELECT `\xC3\xBC\\`, [?, :a",
        FIVE,
        BothModesRefused::Unportable(Construct::EscapedBackquote, 7),
    ),
    (
        b"SELECT \xC3\xBC # a\r?, :a",
        FIVE,
        BothModesRefused::Unportable(Construct::ReturnInComment, 10),
    ),
    // Then what `bind_text` refuses.
    (
        b"\xC3\xBC :a ?",
        Given::Nothing,
        BothModesRefused::Bind(Refused::Mixed),
    ),
    (
        b"\xC3\xBC?",
        Given::Positional(&[Plain::Float]),
        BothModesRefused::Bind(Refused::NotAlone(0, 2)),
    ),
    (
        b"'\xC3\xBC'+?",
        Given::Positional(&[Plain::Float]),
        BothModesRefused::Bind(Refused::Float(0)),
    ),
];

#[test]
fn first_cause_of_refusal(rt: HostRuntime) {
    let alloc = rt.alloc();
    for (query, given, refused) in REFUSALS {
        let params = given.params(&rt, alloc);
        let found = bind_text_in_both_modes(alloc, *query, params).err();
        same_in(&rt, &found, &Some(refused.error(&rt, alloc)), query);
    }
}

/// Refusals, and what they print.
const MESSAGES: &[(BothModesRefused<'_>, &str)] = &[
    (
        BothModesRefused::Backslash(8),
        "Backslash in a string at byte 8 of the query",
    ),
    (
        BothModesRefused::Unportable(Construct::Bracket, 2),
        "Not portable at byte 2 of the query: `[` may open an identifier: \
         write the name in backquotes",
    ),
    (
        BothModesRefused::Bind(Refused::Float(0)),
        "Float at place 0",
    ),
];

#[test]
fn messages(rt: HostRuntime) {
    let alloc = rt.alloc();
    for (refused, message) in MESSAGES {
        says(&rt, alloc, refused.error(&rt, alloc), *message);
    }
}
