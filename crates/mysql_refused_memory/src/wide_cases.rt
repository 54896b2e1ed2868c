//! Queries bound by wide names, which may have capitals.
use crate::inputs::Given;
use crate::inputs::Given::{Empty, Named, Positional};
use crate::inputs::Plain::{Bytes, Float, Int, Null, UInt};
use crate::outcome::Memory::{Asked, Never};
use crate::outcome::{Case, Memory, cases, judged, row};
use crate::purposes::{WIDE, WIDE_WITHOUT_BACKSLASHES};
use mysql_params::{Purpose, bind};
use std::alloc::Global;

/// How the call of this name went, if it stands here.
pub(crate) fn case(alloc: Global, name: &str) -> Option<Case> {
    Some(bound(alloc, row(BOUND, name)?))
}

/// A query, what is given, the purpose, the text or the refusal, and whether it asks for memory.
type Row = (
    &'static [u8],
    Given<'static>,
    Purpose,
    Result<&'static [u8], &'static str>,
    Memory,
);

/// A number, a text and NULL for names that differ by their case alone.
const THREE: Given = Named(&[(b"ID", Int(-3)), (b"Id", Bytes(b"it's")), (b"id", Null)]);

const MANY: &[u8] = b":ID,:ID,:ID,:ID,:ID,:ID,:ID,:ID,:ID,:ID,:ID,:ID,:ID,:ID,:ID,:ID,:ID";

const MIXED: &str = "Values(Mixed)";

const MISSING_A: &str = "Values(Params(Missing(MissingNamedParameterError([65]))))";

const FOR_NAMES: &str = "Values(Params(Confusion(PositionalParamsForNamedQuery)))";

const FOR_MARKS: &str = "Values(Params(Confusion(NamedParamsForPositionalQuery)))";

const BOUND: &[(&str, Row)] = cases! {
    "bind by wide names of names with capitals" =>
        b"SELECT (:ID-10), :Id, :id", THREE, WIDE, Ok(b"SELECT (-3-10), 'it\\'s', NULL"), Asked;
    "bind by wide names of a name without capitals" =>
        b"':ID' = :id", THREE, WIDE, Ok(b"':ID' = NULL"), Asked;
    "bind by wide names of more names than are kept" =>
        MANY, Named(&[(b"ID", UInt(1))]), WIDE, Ok(b"1,1,1,1,1,1,1,1,1,1,1,1,1,1,1,1,1"), Asked;
    "bind by wide names of a number by position" =>
        b"? = ':ID'", Positional(&[Int(-3)]), WIDE, Ok(b"-3 = ':ID'"), Asked;
    "bind by wide names of a name with capitals" =>
        b"'\\':ID' = :Id", THREE, WIDE, Ok(b"'\\':ID' = 'it\\'s'"), Asked;
    "bind by wide names of a text without backslash escapes" =>
        b"SELECT 'a\\', :Id", THREE, WIDE_WITHOUT_BACKSLASHES, Ok(b"SELECT 'a\\', 'it''s'"), Asked;
    "bind by wide names of names and marks" => b":ID ?", Empty, WIDE, Err(MIXED), Never;
    "bind by wide names of names and marks without backslash escapes" =>
        b"'\\', :ID, ?", Empty, WIDE_WITHOUT_BACKSLASHES, Err(MIXED), Never;
    "bind by wide names of a missing name" => b"x:A", THREE, WIDE, Err(MISSING_A), Asked;
    "bind by wide names of positional parameters for names" =>
        b":A", Positional(&[UInt(5)]), WIDE, Err(FOR_NAMES), Asked;
    "bind by wide names of named parameters for marks" => b"?", THREE, WIDE, Err(FOR_MARKS), Asked;
    "bind by wide names of too few values" =>
        b"?, ?", Positional(&[Null]), WIDE, Err("Values(MarkCount { marks: 2, values: 1 })"), Asked;
    "bind by wide names of a place that does not stand alone" =>
        b"lbl:ID", THREE, WIDE, Err("Values(NotAlone { place: 0, at: 3 })"), Asked;
    "bind by wide names of a float" =>
        b"1+:A", Named(&[(b"A", Float(0))]), WIDE, Err("Values(Float { place: 0 })"), Asked;
};

fn bound(alloc: Global, (query, given, purpose, wanted, memory): Row) -> Case {
    let params = given.params(alloc)?;
    Ok(judged(bind(alloc, query, &params, purpose), wanted).with(memory))
}
