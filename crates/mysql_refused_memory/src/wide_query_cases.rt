//! Queries with wide names that are parsed once: `WideQuery`.
use crate::inputs::Given;
use crate::inputs::Given::{Empty, Named, Positional};
use crate::inputs::Plain::{Bytes, Float, Int, Null, UInt};
use crate::outcome::Memory::{Asked, Never};
use crate::outcome::{Case, Is, Memory, Outcome, cases, copied, holds, judged, row};
use mysql_params::WideQuery;
use std::alloc::Global;

/// How the call of this name went, if it stands here.
pub(crate) fn case(alloc: Global, name: &str) -> Option<Case> {
    if let Some(row) = row(BOUND, name) {
        return Some(bound(alloc, row));
    }
    let case = match row(CALLS, name)? {
        Call::Parse(query) => Ok(judged(WideQuery::parse(alloc, query), Ok(query))),
        Call::ParseIn(query) => Ok(judged(WideQuery::parse_in(alloc, query, true), Ok(query))),
        Call::ParseOfNoPlaces => parsed_without_memory(alloc),
        Call::Names => names(alloc, b":Id, :id", Ok(&[b"Id", b"id"])),
        Call::NamesOfMixed => mixed_names(alloc),
        Call::Owned => owned_copy(alloc),
        Call::OwnedAgain => owned_again(alloc),
        Call::CloneOfBorrowed => copy_of_borrowed(alloc),
        Call::CloneOfOwned => copy_of_owned(alloc),
    };
    Some(case)
}

/// A call that binds nothing.
#[derive(Clone, Copy)]
enum Call {
    Parse(&'static [u8]),
    ParseIn(&'static [u8]),
    ParseOfNoPlaces,
    Names,
    NamesOfMixed,
    Owned,
    OwnedAgain,
    CloneOfBorrowed,
    CloneOfOwned,
}

const CALLS: &[(&str, Call)] = cases! {
    "WideQuery::parse of a name" => Call::Parse(b":Id, 1");
    "WideQuery::parse of more places than are kept" => Call::Parse(MANY);
    "WideQuery::parse_in of a name without backslash escapes" => Call::ParseIn(b"'\\', :Id");
    "WideQuery::parse of no places" => Call::ParseOfNoPlaces;
    "WideQuery::names of two names" => Call::Names;
    "WideQuery::names of names and marks" => Call::NamesOfMixed;
    "into_owned of a borrowed WideQuery" => Call::Owned;
    "into_owned of an owned WideQuery" => Call::OwnedAgain;
    "clone of a borrowed WideQuery" => Call::CloneOfBorrowed;
    "clone of an owned WideQuery" => Call::CloneOfOwned;
};

const MANY: &[u8] = b":A,:A,:A,:A,:A,:A,:A,:A,:A,:A,:A,:A,:A,:A,:A,:A,:A,:A";

impl Is<&[u8]> for WideQuery<'_> {
    fn is(&self, query: &[u8]) -> bool {
        self.query() == query
    }
}

fn parsed_without_memory(alloc: Global) -> Case {
    match WideQuery::parse(alloc, b"SELECT ':A'") {
        Ok(parsed) => holds(parsed.marks() == 0),
        Err(_) => holds(false),
    }
}

fn names(alloc: Global, query: &[u8], wanted: Result<&[&[u8]], &str>) -> Case {
    let parsed = WideQuery::parse(alloc, query)?;
    Ok(judged(parsed.names(alloc), wanted))
}

fn mixed_names(alloc: Global) -> Case {
    Ok(names(alloc, b":A ?", Err("Mixed(MixedParamsError)"))?.without_memory())
}

fn owned_copy(alloc: Global) -> Case {
    let parsed = WideQuery::parse(alloc, b":A")?;
    Ok(judged(parsed.into_owned(alloc), Ok(b":A".as_slice())))
}

fn owned_again(alloc: Global) -> Case {
    let owned = WideQuery::parse(alloc, b":A")?.into_owned(alloc)?;
    Ok(judged(owned.into_owned(alloc), Ok(b":A".as_slice())).without_memory())
}

fn copy_of_borrowed(alloc: Global) -> Case {
    let parsed = WideQuery::parse(alloc, b":A")?;
    Ok(copied(parsed.clone(), &parsed))
}

fn copy_of_owned(alloc: Global) -> Case {
    let parsed = WideQuery::parse(alloc, b":A")?.into_owned(alloc)?;
    Ok(copied(parsed.clone(), &parsed))
}

/// A query, what is given, the mode, the text or the refusal, and whether the call asks for memory.
type Row = (
    &'static [u8],
    Given<'static>,
    bool,
    Result<&'static [u8], &'static str>,
    Memory,
);

const FIVE: Given = Positional(&[UInt(5)]);

const TEXT: Given = Named(&[(b"Id", Bytes(b"it's"))]);

const MISSING_A: &str = "Params(Missing(MissingNamedParameterError([65])))";

const FOR_NAMES: &str = "Params(Confusion(PositionalParamsForNamedQuery))";

const FOR_MARKS: &str = "Params(Confusion(NamedParamsForPositionalQuery))";

const BOUND: &[(&str, Row)] = cases! {
    "bind of a WideQuery by name" => b":Id = :Id", TEXT, false, Ok(b"'it\\'s' = 'it\\'s'"), Asked;
    "bind of a WideQuery by a name without capitals" =>
        b"1+:a", Named(&[(b"a", Null)]), false, Ok(b"1+NULL"), Asked;
    "bind of a WideQuery without backslash escapes" =>
        b"'\\', :Id", TEXT, true, Ok(b"'\\', 'it''s'"), Asked;
    "bind of a WideQuery by position" =>
        b"SELECT (?-10)", Positional(&[Int(-3)]), false, Ok(b"SELECT (-3-10)"), Asked;
    "bind of a WideQuery of names and marks" => b":A ?", Empty, false, Err("Mixed"), Never;
    "bind of a WideQuery with a missing name" => b"x:A", Empty, false, Err(MISSING_A), Asked;
    "bind of a WideQuery with values for names" => b":A", FIVE, false, Err(FOR_NAMES), Asked;
    "bind of a WideQuery with named parameters for marks" =>
        b"?", TEXT, false, Err(FOR_MARKS), Asked;
    "bind of a WideQuery with too few values" =>
        b"SELECT ?, ?", FIVE, false, Err("MarkCount { marks: 2, values: 1 }"), Asked;
    "bind of a WideQuery whose place does not stand alone" =>
        b"lbl:Id", TEXT, false, Err("NotAlone { place: 0, at: 3 }"), Asked;
    "bind of a WideQuery with a float" =>
        b"1+:A", Named(&[(b"A", Float(0))]), false, Err("Float { place: 0 }"), Asked;
};

fn bound(alloc: Global, (query, given, no_backslash_escape, wanted, memory): Row) -> Case {
    let params = given.params(alloc)?;
    let parsed = WideQuery::parse_in(alloc, query, no_backslash_escape)?;
    Ok(judged(parsed.bind(alloc, params), wanted).with(memory))
}
