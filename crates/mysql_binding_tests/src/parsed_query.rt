//! Queries that are parsed once and bound many times. The tables of the other modules show that
//! each is bound as `bind_text_in` binds it (`Spelling::Parsed`).
use crate::shared::{Given, Plain, answer_of, is_text, same_in};
use mysql_params::named_params::NamedParamsError;
use mysql_params::{Construct, ParsedQuery, Unportable};
use std::alloc::Global;
use std::process::Abort;

/// The parsed query is bound to the text.
fn binds(
    rt: &impl Abort,
    alloc: Global,
    parsed: &ParsedQuery<'_>,
    given: Given<'_>,
    wanted: &[u8],
) {
    let text = answer_of(rt, parsed.bind(alloc, given.params(rt, alloc)));
    is_text(rt, text, wanted);
}

/// The names `a` and `b`.
const NAMED: Given<'_> = Given::Named(&[(b"a", Plain::Int(-3)), (b"b", Plain::Text(b"it's"))]);

/// The same in the other order, with other values.
const REVERSED: Given<'_> = Given::Named(&[(b"b", Plain::Null), (b"a", Plain::UInt(5))]);

#[test]
fn one_query_with_many_values(rt: HostRuntime) {
    let parsed = answer_of(&rt, ParsedQuery::parse(rt.alloc(), b"SELECT :a, ':a', :b"));
    binds(
        &rt,
        rt.alloc(),
        &parsed,
        NAMED,
        b"SELECT -3, ':a', 'it\\'s'",
    );
    binds(&rt, rt.alloc(), &parsed, REVERSED, b"SELECT 5, ':a', NULL");
}

/// Queries, the mode, and the names without a colon, or none for a query that is mixed.
const NAMES: &[(&[u8], bool, Option<&[&[u8]]>)] = &[
    (b":a, :b_1 :a", false, Some(&[b"a", b"b_1", b"a"])),
    (b"'\\' :a' :b", false, Some(&[b"b"])),
    (b"'\\' :a' :b", true, Some(&[b"a"])),
    (b"?, ?", false, Some(&[])),
    (b":a ?", false, None),
];

/// The query has these names.
fn has_names(rt: &impl Abort, alloc: Global, query: &[u8], mode: bool, wanted: Option<&[&[u8]]>) {
    let parsed = answer_of(rt, ParsedQuery::parse_in(alloc, query, mode));
    match parsed.names(alloc) {
        Ok(names) => same_in(rt, Some(names.as_slice()), wanted, &query),
        Err(NamedParamsError::Mixed(_)) => same_in(rt, None, wanted, &query),
        Err(NamedParamsError::Memory(_)) => same_in(rt, "no memory", "names", &query),
    }
}

#[test]
fn names_in_either_mode(rt: HostRuntime) {
    for (query, mode, names) in NAMES {
        has_names(&rt, rt.alloc(), *query, *mode, *names);
    }
}

/// A query, its mode, how many marks it has, and what is unportable in it.
type Told = (&'static [u8], bool, usize, Option<Unportable>);

const TOLD: &[Told] = &[
    (
        b"'\\' [?",
        true,
        1,
        Some(Unportable {
            construct: Construct::Bracket,
            at: 4,
        }),
    ),
    (b"'\\' [?", false, 0, None),
    (b":a ?", false, 1, None),
    // More places than are kept while a query is surveyed.
    (
        b"?,?,?,?,?,?,?,?,?,?,?,?,?,?,?,?,?,?,?,? -- ?",
        false,
        20,
        None,
    ),
];

/// The parsed query tells all of this.
fn tells(rt: &impl Abort, alloc: Global, told: Told) {
    let parsed = answer_of(rt, ParsedQuery::parse_in(alloc, told.0, told.1));
    let mode = parsed.no_backslash_escape();
    let found = (
        parsed.query(),
        mode,
        parsed.marks(),
        parsed.first_unportable(),
    );
    same_in(rt, found, told, &"a parsed query");
}

#[test]
fn query_mode_and_what_is_unportable(rt: HostRuntime) {
    for told in TOLD {
        tells(&rt, rt.alloc(), *told);
    }
}

/// A copy of a parsed query that owns its query. What it was made of is gone.
fn copy(rt: &impl Abort, alloc: Global) -> ParsedQuery<'static> {
    let query = answer_of(rt, Vec::from_slice(alloc, b"SELECT ?"));
    let parsed = answer_of(rt, ParsedQuery::parse(alloc, query.as_slice()));
    let owned = answer_of(rt, parsed.into_owned(alloc));
    answer_of(rt, owned.clone())
}

#[test]
fn owned_queries_and_copies(rt: HostRuntime) {
    let given = Given::Positional(&[Plain::Null]);
    binds(
        &rt,
        rt.alloc(),
        &copy(&rt, rt.alloc()),
        given,
        b"SELECT NULL",
    );
}

#[test]
fn places_that_are_found_once(rt: HostRuntime) {
    let query = b"SELECT :a, ':a', :bc";
    let parsed = answer_of(&rt, ParsedQuery::parse(rt.alloc(), query));
    let surveyed = parsed.surveyed();
    same_in(&rt, surveyed.known.len(), 2, &"places");
    for (place, wanted) in surveyed.known.iter().zip([(7usize, 2usize), (8, 3)]) {
        same_in(&rt, (place.before, place.len), wanted, &"a place");
    }
    same_in(&rt, surveyed.survey.names, 2, &"names");
    same_in(&rt, surveyed.survey.not_alone, None, &"joined places");
}
