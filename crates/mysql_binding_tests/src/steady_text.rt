//! Texts that no mode and no character set reads otherwise, and the queries that are refused.
use crate::shared::{Given, Plain, Refused, answer_of, same_in, says};
use mysql_params::params::Params;
use mysql_params::{
    Construct, SteadyTextError, Unportable, bind_text_anywhere, bind_text_in_any_mode,
};
use std::alloc::Global;
use std::process::Abort;

/// A call that binds to a steady text.
#[derive(Clone, Copy)]
enum Call {
    Anywhere,
    InAnyMode,
}

const BOTH: &[Call] = &[Call::Anywhere, Call::InAnyMode];

const ANYWHERE: &[Call] = &[Call::Anywhere];

const IN_ANY_MODE: &[Call] = &[Call::InAnyMode];

impl Call {
    /// The name of the call in messages.
    fn name(self) -> &'static str {
        match self {
            Call::Anywhere => "bind_text_anywhere",
            Call::InAnyMode => "bind_text_in_any_mode",
        }
    }

    /// What the call gives.
    fn bound(
        self,
        alloc: Global,
        query: &[u8],
        params: Params,
    ) -> Result<Vec<u8>, SteadyTextError> {
        match self {
            Call::Anywhere => bind_text_anywhere(alloc, query, params),
            Call::InAnyMode => bind_text_in_any_mode(alloc, query, params),
        }
    }
}

/// Why a query is refused.
#[derive(Clone, Copy)]
enum SteadyRefused<'a> {
    Unsteady(usize),
    Unportable(Construct, usize),
    Bind(Refused<'a>),
}

impl SteadyRefused<'_> {
    fn error(self, rt: &impl Abort, alloc: Global) -> SteadyTextError {
        match self {
            SteadyRefused::Unsteady(at) => SteadyTextError::Unsteady { at },
            SteadyRefused::Unportable(construct, at) => {
                SteadyTextError::Unportable(Unportable { construct, at })
            }
            SteadyRefused::Bind(refused) => SteadyTextError::Bind(refused.error(rt, alloc)),
        }
    }
}

/// By each of the calls, the query is bound to the text.
fn is_bound_by(
    rt: &impl Abort,
    alloc: Global,
    calls: &[Call],
    query: &[u8],
    given: Given<'_>,
    wanted: &[u8],
) {
    for call in calls {
        let params = given.params(rt, alloc);
        let text = answer_of(rt, call.bound(alloc, query, params));
        same_in(rt, text.as_slice(), wanted, &(query, call.name()));
    }
}

/// By each of the calls, the query is refused so.
fn is_refused_by(
    rt: &impl Abort,
    alloc: Global,
    calls: &[Call],
    query: &[u8],
    given: Given<'_>,
    refused: SteadyRefused<'_>,
) {
    for call in calls {
        let found = call.bound(alloc, query, given.params(rt, alloc)).err();
        let wanted = Some(refused.error(rt, alloc));
        same_in(rt, &found, &wanted, &(query, call.name()));
    }
}

const FIVE: Given<'_> = Given::Positional(&[Plain::UInt(5)]);

/// Queries, what is given to them, and the text.
const TEXTS: &[(&[u8], Given<'_>, &[u8])] = &[
    (b"SELECT 1", Given::Nothing, b"SELECT 1"),
    (
        b"SELECT ?",
        Given::Positional(&[Plain::Text(b"it's")]),
        b"SELECT _utf8mb4'it''s'",
    ),
    (
        b"SELECT ?",
        Given::Positional(&[Plain::Text(b"\xE3\x81\x82")]),
        b"SELECT _utf8mb4 0xE38182",
    ),
    (
        b"(:a)",
        Given::Named(&[(b"a", Plain::Text(b""))]),
        b"(_utf8mb4'')",
    ),
    // A backslash, a newline and DEL are in digits, and the tilde isn't.
    (
        b"?,?,?,?",
        Given::Positional(&[
            Plain::Text(b"a\\"),
            Plain::Text(b"\n"),
            Plain::Text(b"\x7F"),
            Plain::Text(b" ~"),
        ]),
        b"_utf8mb4 0x615C,_utf8mb4 0x0A,_utf8mb4 0x7F,_utf8mb4' ~'",
    ),
    // Bytes that aren't UTF-8.
    (b"?", Given::Positional(&[Plain::Text(b"\xFF")]), b"0xFF"),
    (
        b"VALUES (:a, :b, :c, :a)",
        Given::Named(&[
            (b"a", Plain::UInt(5)),
            (b"b", Plain::Null),
            (b"c", Plain::Day(2019, 11, 27)),
        ]),
        b"VALUES (5, NULL, '2019-11-27', 5)",
    ),
    // Strings and comments of the query stay as they are.
    (
        b"SELECT 'it''s ?', \"?\", ? -- ?",
        Given::Positional(&[Plain::Int(-3)]),
        b"SELECT 'it''s ?', \"?\", -3 -- ?",
    ),
];

#[test]
fn bound_texts(rt: HostRuntime) {
    for (query, given, wanted) in TEXTS {
        is_bound_by(&rt, rt.alloc(), BOTH, *query, *given, *wanted);
    }
}

/// Queries that both calls refuse, what is given to them, and why.
const REFUSALS: &[(&[u8], Given<'_>, SteadyRefused<'_>)] = &[
    // Bytes that aren't steady come before all other causes.
    (b"SELECT '\\\\', ?", FIVE, SteadyRefused::Unsteady(8)),
    (
        b"-- \xC3\xA9\n:a ?",
        Given::Nothing,
        SteadyRefused::Unsteady(3),
    ),
    (b"[a], ?, '\x80'", FIVE, SteadyRefused::Unsteady(9)),
    // Then, without a construct that isn't portable, what `bind_text` refuses.
    (b":a ?", Given::Nothing, SteadyRefused::Bind(Refused::Mixed)),
    (
        b"x:a",
        Given::Named(&[]),
        SteadyRefused::Bind(Refused::Missing(b"a")),
    ),
    (
        b"1?, ?",
        Given::Positional(&[Plain::Float]),
        SteadyRefused::Bind(Refused::MarkCount(2, 1)),
    ),
    (
        b"1?",
        Given::Positional(&[Plain::Float]),
        SteadyRefused::Bind(Refused::NotAlone(0, 1)),
    ),
    (
        b"1+?",
        Given::Positional(&[Plain::Float]),
        SteadyRefused::Bind(Refused::Float(0)),
    ),
];

#[test]
fn first_cause_of_refusal(rt: HostRuntime) {
    for (query, given, refused) in REFUSALS {
        is_refused_by(&rt, rt.alloc(), BOTH, *query, *given, *refused);
    }
}

/// The place of a construct that isn't portable.
const BRACKET: SteadyRefused<'_> = SteadyRefused::Unportable(Construct::Bracket, 2);

/// That of a comment that may end at a carriage return.
const RETURN: SteadyRefused<'_> = SteadyRefused::Unportable(Construct::ReturnInComment, 2);

#[test]
fn queries_that_are_not_portable(rt: HostRuntime) {
    let alloc = rt.alloc();
    is_refused_by(&rt, alloc, ANYWHERE, b"a [b], ?", FIVE, BRACKET);
    is_bound_by(&rt, alloc, IN_ANY_MODE, b"a [b], ?", FIVE, b"a [b], 5");
    let mixed = SteadyRefused::Bind(Refused::Mixed);
    is_refused_by(&rt, alloc, ANYWHERE, b"? [:a]", FIVE, BRACKET);
    is_refused_by(&rt, alloc, IN_ANY_MODE, b"? [:a]", FIVE, mixed);
    is_refused_by(&rt, alloc, ANYWHERE, b"? # a\r", FIVE, RETURN);
    is_bound_by(&rt, alloc, IN_ANY_MODE, b"? # a\r", FIVE, b"5 # a\r");
    is_bound_by(&rt, alloc, ANYWHERE, b"? # a\r\n", FIVE, b"5 # a\r\n");
}

/// Refusals, and what they print.
const MESSAGES: &[(SteadyRefused<'_>, &str)] = &[
    (
        SteadyRefused::Unsteady(8),
        "Backslash or byte that is not ASCII at byte 8 of the query",
    ),
    (
        BRACKET,
        "Not portable at byte 2 of the query: `[` may open an identifier: \
         write the name in backquotes",
    ),
    (SteadyRefused::Bind(Refused::Float(0)), "Float at place 0"),
];

#[test]
fn messages(rt: HostRuntime) {
    let alloc = rt.alloc();
    for (refused, message) in MESSAGES {
        says(&rt, alloc, refused.error(&rt, alloc), *message);
    }
}
