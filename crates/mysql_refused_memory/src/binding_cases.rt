//! Queries bound to text: `bind_text`.
use crate::inputs::Given::{Empty, Named, Positional};
use crate::inputs::Plain::{Bytes, Float, Int, Null, UInt};
use crate::inputs::{A_TO_Q, Given, Plain};
use crate::outcome::Memory::{Asked, Never};
use crate::outcome::{Case, Memory, cases, judged, row};
use mysql_params::{bind_text, bind_text_in};
use std::alloc::Global;

/// How the call of this name went, if it stands here.
pub(crate) fn case(alloc: Global, name: &str) -> Option<Case> {
    Some(bound(alloc, row(BOUND, name)?))
}

/// A query, what is given, the mode (without one it is `bind_text`), the text or the refusal, and
/// whether it asks for memory.
type Row = (
    &'static [u8],
    Given<'static>,
    Option<bool>,
    Result<&'static [u8], &'static str>,
    Memory,
);

const FIVE_OF_A: Given = Named(&[(b"a", UInt(5))]);

const FIVE: Given = Positional(&[UInt(5)]);

const INJECTION: Plain = Bytes(b"x' OR '1'='1");

const MISSING_A: &str = "Params(Missing(MissingNamedParameterError([97])))";

const BOUND: &[(&str, Row)] = cases! {
    "bind_text of a name" =>
        b"SELECT (:a-10)", Named(&[(b"a", Int(-3))]), None, Ok(b"SELECT (-3-10)"), Asked;
    "bind_text of a repeated name" => b":a%:a!=1", FIVE_OF_A, None, Ok(b"5%5!=1"), Asked;
    "bind_text of more names than are kept" =>
        b":a,:b,:c,:d,:e,:f,:g,:h,:i,:j,:k,:l,:m,:n,:o,:p,:q", A_TO_Q, None,
        Ok(b"1,2,3,4,5,6,7,8,9,10,11,12,13,14,15,16,17"), Asked;
    "bind_text of a text by name" =>
        b":a = :a", Named(&[(b"a", Bytes(b"it's"))]), None, Ok(b"'it\\'s' = 'it\\'s'"), Asked;
    "bind_text of a text and NULL by position" =>
        b"SELECT ?, ?", Positional(&[INJECTION, Null]), None,
        Ok(b"SELECT 'x\\' OR \\'1\\'=\\'1', NULL"), Asked;
    "bind_text of a query without places" => b"'\\':a", Empty, None, Ok(b"'\\':a"), Asked;
    "bind_text of a text without backslash escapes" =>
        b"SELECT 'a\\', :b", Named(&[(b"b", Bytes(b"it's\\"))]), Some(true),
        Ok(b"SELECT 'a\\', 'it''s\\'"), Asked;
    "bind_text of names and marks" => b":a ?", Empty, None, Err("Mixed"), Never;
    "bind_text of names and marks without backslash escapes" =>
        b"'\\', :a, ?", Empty, Some(true), Err("Mixed"), Never;
    "bind_text of a missing name" => b"x:a", Named(&[(b"b", UInt(5))]), None, Err(MISSING_A), Asked;
    "bind_text of nothing for a name" => b"x:a", Empty, None, Err(MISSING_A), Asked;
    "bind_text of named parameters for marks" =>
        b"SELECT ?", FIVE_OF_A, None, Err("Params(Confusion(NamedParamsForPositionalQuery))"),
        Asked;
    "bind_text of positional parameters for names" =>
        b":a", FIVE, None, Err("Params(Confusion(PositionalParamsForNamedQuery))"), Asked;
    "bind_text of too few values" =>
        b"SELECT ?, ?", Positional(&[Bytes(b"x")]), None, Err("MarkCount { marks: 2, values: 1 }"),
        Asked;
    "bind_text of a place that does not stand alone" =>
        b"x:a", Named(&[(b"a", Null)]), None, Err("NotAlone { place: 0, at: 1 }"), Asked;
    "bind_text of a float" =>
        b"1+:a", Named(&[(b"a", Float(0))]), None, Err("Float { place: 0 }"), Asked;
};

fn bound(alloc: Global, (query, given, no_backslash_escape, wanted, memory): Row) -> Case {
    let params = given.params(alloc)?;
    let answer = match no_backslash_escape {
        Some(mode) => bind_text_in(alloc, query, params, mode),
        None => bind_text(alloc, query, params),
    };
    Ok(judged(answer, wanted).with(memory))
}
