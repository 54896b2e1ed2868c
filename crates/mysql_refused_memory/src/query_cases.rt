//! Queries: `parse` and what it found.
use crate::outcome::Memory::{Asked, Never};
use crate::outcome::{Case, Is, Memory, Outcome, cases, holds, judged, row};
use mysql_params::named_params::ParsedNamedParams;
use std::alloc::{AllocError, Global};
use std::borrow::CowSlice;

/// How the call of this name went, if it stands here.
pub(crate) fn case(alloc: Global, name: &str) -> Option<Case> {
    if let Some((query, no_backslash_escape, parts, memory)) = row(QUERIES, name) {
        return Some(Ok(parsed(alloc, query, no_backslash_escape, parts).with(memory)));
    }
    match name {
        "parse of names and marks" => Some(holds(mixed(alloc))),
        "query and params of what was parsed" => Some(parts_of_parsed(alloc)),
        _ => None,
    }
}

/// The query with marks in the place of names, and the names.
type Parts = (&'static [u8], &'static [&'static [u8]]);

const MIXED: Result<Parts, &str> = Err("Mixed(MixedParamsError)");

const TABLE: &[u8] = b"INSERT INTO `my:table` VALUES (:one, ':two\\\\', :three)";

const MARKS_OF_TABLE: &[u8] = b"INSERT INTO `my:table` VALUES (?, ':two\\\\', ?)";

/// Queries, the mode (without one it is `parse`), the parts, and whether they ask for memory.
const QUERIES: &[(&str, (&[u8], Option<bool>, Result<Parts, &str>, Memory))] = cases! {
    "parse of two names" => b":a_Aa:b", None, Ok((b"?Aa?", &[b"a_", b"b"])), Asked;
    "parse of names outside strings" =>
        TABLE, None, Ok((MARKS_OF_TABLE, &[b"one", b"three"])), Asked;
    "parse of the empty query" => b"", None, Ok((b"", &[])), Never;
    "parse of a mark" => b"?", None, Ok((b"?", &[])), Never;
    "parse of an open string" => b"SELECT 'a\\':b", None, Ok((b"SELECT 'a\\':b", &[])), Never;
    "parse_in of a name after a backslash" =>
        b"SELECT 'a\\':b", Some(true), Ok((b"SELECT 'a\\'?", &[b"b"])), Asked;
    "parse_in of no names" => b"'\\' ?", Some(true), Ok((b"'\\' ?", &[])), Never;
    "parse_in of names and marks" => b"'\\':a ?", Some(true), MIXED, Never;
};

impl Is<Parts> for ParsedNamedParams<'_> {
    fn is(&self, (query, names): Parts) -> bool {
        self.query() == query && are_names(self.params(), names)
    }
}

fn are_names(found: &[CowSlice<'_, u8>], names: &[&[u8]]) -> bool {
    if found.len() != names.len() {
        return false;
    }
    for (found, name) in found.iter().zip(names) {
        if found.as_slice() != *name {
            return false;
        }
    }
    true
}

fn parsed(
    alloc: Global,
    query: &[u8],
    no_backslash_escape: Option<bool>,
    parts: Result<Parts, &str>,
) -> Outcome {
    let answer = match no_backslash_escape {
        Some(mode) => ParsedNamedParams::parse_in(alloc, query, mode),
        None => ParsedNamedParams::parse(alloc, query),
    };
    judged(answer, parts)
}

fn mixed(alloc: Global) -> bool {
    parsed(alloc, b":a?", None, MIXED).is_right() && parsed(alloc, b":a ?", None, MIXED).is_right()
}

const TWO: Parts = (b"? ?", &[b"a", b"b"]);

fn parts_of_parsed(alloc: Global) -> Case {
    match ParsedNamedParams::parse(alloc, b":a :b") {
        Err(_) => Err(AllocError),
        Ok(parsed) => holds(parsed.is(TWO)),
    }
}
