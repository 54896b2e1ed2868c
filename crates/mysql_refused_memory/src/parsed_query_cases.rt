//! Queries that are parsed once: `ParsedQuery`.
use crate::inputs::Given;
use crate::inputs::Given::{Empty, Named, Positional};
use crate::inputs::Plain::{Bytes, Float, Int, Null, UInt};
use crate::outcome::Memory::{Asked, Never};
use crate::outcome::{Case, Is, Memory, Outcome, cases, copied, holds, judged, row};
use mysql_params::ParsedQuery;
use std::alloc::Global;

/// How the call of this name went, if it stands here.
pub(crate) fn case(alloc: Global, name: &str) -> Option<Case> {
    if let Some(row) = row(BOUND, name) {
        return Some(bound(alloc, row));
    }
    let case = match row(CALLS, name)? {
        Call::Parse(query) => Ok(parsed(alloc, query)),
        Call::ParseOfNoPlaces => parsed_without_memory(alloc),
        Call::Names => names(alloc, b":a, :b", Ok(&[b"a", b"b"])),
        Call::NamesOfMixed => mixed_names(alloc),
        Call::Owned => owned_copy(alloc),
        Call::OwnedAgain => owned_again(alloc),
        Call::CloneOfBorrowed => copy_of_borrowed(alloc),
        Call::CloneOfOwned => copy_of_owned(alloc),
    };
    Some(case)
}

/// A call that binds nothing.
#[derive(Clone, Copy)]
enum Call {
    Parse(&'static [u8]),
    ParseOfNoPlaces,
    Names,
    NamesOfMixed,
    Owned,
    OwnedAgain,
    CloneOfBorrowed,
    CloneOfOwned,
}

const CALLS: &[(&str, Call)] = cases! {
    "ParsedQuery::parse of a name" => Call::Parse(b":a, 1");
    "ParsedQuery::parse of more places than are kept" => Call::Parse(MANY);
    "ParsedQuery::parse of no places" => Call::ParseOfNoPlaces;
    "ParsedQuery::names of two names" => Call::Names;
    "ParsedQuery::names of names and marks" => Call::NamesOfMixed;
    "into_owned of a borrowed query" => Call::Owned;
    "into_owned of an owned query" => Call::OwnedAgain;
    "clone of a borrowed ParsedQuery" => Call::CloneOfBorrowed;
    "clone of an owned ParsedQuery" => Call::CloneOfOwned;
};

const MANY: &[u8] = b"?,?,?,?,?,?,?,?,?,?,?,?,?,?,?,?,?,?";

impl Is<&[u8]> for ParsedQuery<'_> {
    fn is(&self, query: &[u8]) -> bool {
        self.query() == query
    }
}

fn parsed(alloc: Global, query: &[u8]) -> Outcome {
    judged(ParsedQuery::parse(alloc, query), Ok(query))
}

fn parsed_without_memory(alloc: Global) -> Case {
    match ParsedQuery::parse(alloc, b"SELECT ':a'") {
        Ok(parsed) => holds(parsed.marks() == 0),
        Err(_) => holds(false),
    }
}

impl Is<&[&[u8]]> for Vec<&[u8]> {
    fn is(&self, wanted: &[&[u8]]) -> bool {
        self.as_slice() == wanted
    }
}

fn names(alloc: Global, query: &[u8], wanted: Result<&[&[u8]], &str>) -> Case {
    let parsed = ParsedQuery::parse(alloc, query)?;
    Ok(judged(parsed.names(alloc), wanted))
}

fn mixed_names(alloc: Global) -> Case {
    Ok(names(alloc, b":a ?", Err("Mixed(MixedParamsError)"))?.without_memory())
}

fn owned_copy(alloc: Global) -> Case {
    let parsed = ParsedQuery::parse(alloc, b":a")?;
    Ok(judged(parsed.into_owned(alloc), Ok(b":a".as_slice())))
}

fn owned_again(alloc: Global) -> Case {
    let owned = ParsedQuery::parse(alloc, b":a")?.into_owned(alloc)?;
    Ok(judged(owned.into_owned(alloc), Ok(b":a".as_slice())).without_memory())
}

fn copy_of_borrowed(alloc: Global) -> Case {
    let parsed = ParsedQuery::parse(alloc, b":a")?;
    Ok(copied(parsed.clone(), &parsed))
}

fn copy_of_owned(alloc: Global) -> Case {
    let parsed = ParsedQuery::parse(alloc, b":a")?.into_owned(alloc)?;
    Ok(copied(parsed.clone(), &parsed))
}

/// A query, what is given, the text or the refusal, and whether the call asks for memory.
type Row = (
    &'static [u8],
    Given<'static>,
    Result<&'static [u8], &'static str>,
    Memory,
);

const FIVE: Given = Positional(&[UInt(5)]);

const MISSING_A: &str = "Params(Missing(MissingNamedParameterError([97])))";

const FOR_NAMES: &str = "Params(Confusion(PositionalParamsForNamedQuery))";

const BOUND: &[(&str, Row)] = cases! {
    "bind of a parsed query by name" =>
        b":a = :a", Named(&[(b"a", Bytes(b"it's"))]), Ok(b"'it\\'s' = 'it\\'s'"), Asked;
    "bind of a parsed query by position" =>
        b"SELECT (?-10)", Positional(&[Int(-3)]), Ok(b"SELECT (-3-10)"), Asked;
    "bind of a parsed query of names and marks" => b":a ?", Empty, Err("Mixed"), Never;
    "bind of a parsed query with a missing name" => b"x:a", Empty, Err(MISSING_A), Asked;
    "bind of a parsed query with values for names" => b":a", FIVE, Err(FOR_NAMES), Asked;
    "bind of a parsed query with too few values" =>
        b"SELECT ?, ?", FIVE, Err("MarkCount { marks: 2, values: 1 }"), Asked;
    "bind of a parsed query whose place does not stand alone" =>
        b"x:a", Named(&[(b"a", Null)]), Err("NotAlone { place: 0, at: 1 }"), Asked;
    "bind of a parsed query with a float" =>
        b"1+:a", Named(&[(b"a", Float(0))]), Err("Float { place: 0 }"), Asked;
};

fn bound(alloc: Global, (query, given, wanted, memory): Row) -> Case {
    let params = given.params(alloc)?;
    let parsed = ParsedQuery::parse(alloc, query)?;
    Ok(judged(parsed.bind(alloc, params), wanted).with(memory))
}
