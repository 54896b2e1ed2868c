//! Values of the names of a query: `into_values` and `into_positional`.
use crate::inputs::Given::{Empty, Named, Positional};
use crate::inputs::Plain::{Bytes, UInt};
use crate::inputs::{Given, Plain, names};
use crate::outcome::Memory::{Asked, Never};
use crate::outcome::{Case, Memory, cases, judged, row};
use std::alloc::Global;

/// How the call of this name went, if it stands here.
pub(crate) fn case(alloc: Global, name: &str) -> Option<Case> {
    if let Some(row) = row(VALUES, name) {
        return Some(values(alloc, row));
    }
    Some(positional(alloc, row(POSITIONAL, name)?))
}

/// `a` with the bytes `x`.
const GIVEN: Given = Named(&[(b"a", X)]);

const X: Plain = Bytes(b"x");

const ONE: Given = Positional(&[UInt(1)]);

/// Names of one byte each, if the query has names; what is given; the values; and whether they ask
/// for memory.
type ValuesRow = (
    Option<&'static [u8]>,
    Given<'static>,
    Result<&'static [Plain<'static>], &'static str>,
    Memory,
);

const VALUES: &[(&str, ValuesRow)] = cases! {
    "into_values with a repeated name" => Some(b"aa"), GIVEN, Ok(&[X, X]), Asked;
    "into_values with a missing name" =>
        Some(b"abc"), GIVEN, Err("Missing(MissingNamedParameterError([99]))"), Asked;
    "into_values of nothing" =>
        Some(b"a"), Empty, Err("Missing(MissingNamedParameterError([97]))"), Asked;
    "into_values of positional parameters" => None, Positional(&[X]), Ok(&[X]), Never;
    "into_values of positional parameters for a name" =>
        Some(b"a"), ONE, Err("Confusion(PositionalParamsForNamedQuery)"), Never;
    "into_values of named parameters without names" =>
        None, GIVEN, Err("Confusion(NamedParamsForPositionalQuery)"), Never;
    "into_values of nothing without names" => None, Empty, Ok(&[]), Never;
};

fn values(alloc: Global, (letters, given, wanted, memory): ValuesRow) -> Case {
    let Some(letters) = letters else {
        let params = given.params(alloc)?;
        return Ok(judged(params.into_values(alloc, None), wanted).with(memory));
    };
    let names = names(alloc, letters)?;
    let params = given.params(alloc)?;
    let answer = params.into_values(alloc, Some(names.as_slice()));
    Ok(judged(answer, wanted).with(memory))
}

/// Names of one byte each, what is given, the parameters by position, and whether they ask for
/// memory.
type PositionalRow = (
    &'static [u8],
    Given<'static>,
    Result<Given<'static>, &'static str>,
    Memory,
);

const POSITIONAL: &[(&str, PositionalRow)] = cases! {
    "into_positional with a repeated name" => b"aa", GIVEN, Ok(Positional(&[X, X])), Asked;
    "into_positional with a missing name" =>
        b"abc", GIVEN, Err("Missing(MissingNamedParameterError([98]))"), Asked;
    "into_positional of positional parameters" => b"a", ONE, Ok(ONE), Never;
    "into_positional of nothing" => b"a", Empty, Ok(Empty), Never;
    "into_positional without names" => b"", GIVEN, Ok(Positional(&[])), Never;
};

fn positional(alloc: Global, (letters, given, wanted, memory): PositionalRow) -> Case {
    let names = names(alloc, letters)?;
    let params = given.params(alloc)?;
    let answer = params.into_positional(alloc, names.as_slice());
    Ok(judged(answer, wanted).with(memory))
}
