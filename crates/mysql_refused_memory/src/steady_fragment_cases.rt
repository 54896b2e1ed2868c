//! Fragments bound to steady text.
use crate::fragment_inputs::InPlaces;
use crate::fragment_inputs::InPlaces::{Named, Positional};
use crate::fragment_inputs::PlainFragment::{
    Assignments, Decimal, Identifier, Identifiers, Keyword, List, Qualified, Rows, Value,
};
use crate::fragment_inputs::PlainItem::{Decimal as Number, Value as Item};
use crate::inputs::Plain::{Bytes, Float, Int, Null};
use crate::outcome::Memory::{Asked, Never};
use crate::outcome::{Case, Memory, Outcome, cases, judged, row};
use mysql_fragments::{FragmentsError, SteadyFragmentsError};
use mysql_params::fragments::{bind_fragments_anywhere, bind_fragments_in_any_mode};
use std::alloc::Global;

/// How the call of this name went, if it stands here.
pub(crate) fn case(alloc: Global, name: &str) -> Option<Case> {
    if let Some(row) = row(ANYWHERE, name) {
        return Some(bound_anywhere(alloc, row));
    }
    Some(bound_in_any_mode(alloc, row(IN_ANY_MODE, name)?))
}

/// A query, what is given, the text or the refusal (one of fragments is shown by itself), and
/// whether the call asks for memory.
type Row = (
    &'static [u8],
    InPlaces,
    Result<&'static [u8], &'static str>,
    Memory,
);

const NAME_OF_A: InPlaces = Named(&[(b"a", Identifier(b"n"))]);

const UNPORTABLE: &str = "Unportable(Unportable { construct: Bracket, at: 0 })";

const MISSING_B: &str = "Missing(MissingNamedParameterError([98]))";

const ANYWHERE: &[(&str, Row)] = cases! {
    "bind_fragments_anywhere of a list" =>
        b"a IN (?)",
        Positional(&[List(&[Item(Bytes(b"it's")), Number(b"2.5"), Item(Bytes(b"\xC3\xA9"))])]),
        Ok(b"a IN (_utf8mb4'it''s', 2.5, _utf8mb4 0xC3A9)"), Asked;
    "bind_fragments_anywhere of rows by name" =>
        b"VALUES :a", Named(&[(b"a", Rows(&[&[Item(Int(1))], &[Item(Bytes(b"x"))]]))]),
        Ok(b"VALUES (1), (_utf8mb4'x')"), Asked;
    "bind_fragments_anywhere of names and a keyword" =>
        b"TABLE ? ORDER BY ? ?",
        Positional(&[Qualified(&[b"db", b"t"]), Identifier(b"a`b"), Keyword(b"DESC")]),
        Ok(b"TABLE `db`.`t` ORDER BY `a``b` DESC"), Asked;
    "bind_fragments_anywhere of columns and assignments" =>
        b"? = ?",
        Positional(&[Identifiers(&[&[b"a"]]), Assignments(&[(&[b"b"], Item(Bytes(b"it's")))])]),
        Ok(b"`a` = `b` = _utf8mb4'it''s'"), Asked;
    "bind_fragments_anywhere of an unsteady query" =>
        b"x\\:a", NAME_OF_A, Err("Unsteady { at: 1 }"), Never;
    "bind_fragments_anywhere of a query that is not portable" =>
        b"[:a", NAME_OF_A, Err(UNPORTABLE), Never;
    "bind_fragments_anywhere of names and marks" => b":a ?", NAME_OF_A, Err("Mixed"), Never;
    "bind_fragments_anywhere of a missing name" => b":a :b", NAME_OF_A, Err(MISSING_B), Asked;
    "bind_fragments_anywhere of named fragments for marks" =>
        b"?", NAME_OF_A, Err("Confusion(NamedParamsForPositionalQuery)"), Asked;
    "bind_fragments_anywhere of too few fragments" =>
        b"? ?", Positional(&[Keyword(b"ASC")]), Err("MarkCount { marks: 2, fragments: 1 }"), Asked;
    "bind_fragments_anywhere of a float" =>
        b"a IN (?)", Positional(&[List(&[Item(Null), Item(Float(0))])]), Err("Float { place: 0 }"),
        Asked;
    "bind_fragments_anywhere of a text that is no exact number" =>
        b"1 = :a", Named(&[(b"a", Decimal(b"1e5"))]),
        Err("Fault { place: 0, fault: Number { row: 0, item: 0 } }"), Asked;
    "bind_fragments_anywhere of a name that is not steady" =>
        b"? ?", Positional(&[Value(Bytes(b"\\")), Qualified(&[b"t", b"\xC3\xA9"])]),
        Err("UnsteadyFragment { place: 1 }"), Asked;
};

const IN_ANY_MODE: &[(&str, Row)] = cases! {
    "bind_fragments_in_any_mode of a query that is not portable" =>
        b"[ :a", Named(&[(b"a", Value(Bytes(b"it's")))]), Ok(b"[ _utf8mb4'it''s'"), Asked;
    "bind_fragments_in_any_mode of an unsteady query" =>
        b"x\\:a", NAME_OF_A, Err("Unsteady { at: 1 }"), Never;
    "bind_fragments_in_any_mode of names and marks" => b":a ?", NAME_OF_A, Err("Mixed"), Never;
    "bind_fragments_in_any_mode of a missing name" => b":a :b", NAME_OF_A, Err(MISSING_B), Asked;
    "bind_fragments_in_any_mode of positional fragments for names" =>
        b":a", Positional(&[]), Err("Confusion(PositionalParamsForNamedQuery)"), Asked;
    "bind_fragments_in_any_mode of a place that does not stand alone" =>
        b"[:a", NAME_OF_A, Err("NotAlone { place: 0, at: 1 }"), Asked;
    "bind_fragments_in_any_mode of a float" =>
        b"?", Positional(&[Value(Float(0))]), Err("Float { place: 0 }"), Asked;
    "bind_fragments_in_any_mode of an empty list" =>
        b"a IN (?)", Positional(&[List(&[])]), Err("Fault { place: 0, fault: Empty }"), Asked;
    "bind_fragments_in_any_mode of a name that is not steady" =>
        b":a = :b", Named(&[(b"a", Value(Bytes(b"\\"))), (b"b", Identifier(b"a\\b"))]),
        Err("UnsteadyFragment { place: 1 }"), Asked;
};

fn bound_anywhere(alloc: Global, (query, given, wanted, memory): Row) -> Case {
    let fragments = given.fragments(alloc)?;
    let answer = bind_fragments_anywhere(alloc, query, &fragments);
    Ok(judged_fragments(answer, wanted).with(memory))
}

fn bound_in_any_mode(alloc: Global, (query, given, wanted, memory): Row) -> Case {
    let fragments = given.fragments(alloc)?;
    let answer = bind_fragments_in_any_mode(alloc, query, &fragments);
    Ok(judged_fragments(answer, wanted).with(memory))
}

/// How a call went that should give this text, or this refusal.
pub(crate) fn judged_fragments(
    answer: Result<Vec<u8>, SteadyFragmentsError>,
    wanted: Result<&'static [u8], &'static str>,
) -> Outcome {
    match answer {
        Err(SteadyFragmentsError::Fragments(error)) => {
            let answer: Result<Vec<u8>, FragmentsError> = Err(error);
            judged(answer, wanted)
        }
        other => judged(other, wanted),
    }
}
