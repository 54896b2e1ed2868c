//! Queries with wide names, which may have capitals, bound to steady text; also fragments.
use crate::fragment_inputs::InPlaces;
use crate::fragment_inputs::PlainFragment::{Identifier, List, Value};
use crate::fragment_inputs::PlainItem::{Decimal as Number, Value as Item};
use crate::inputs::Given;
use crate::inputs::Given::{Empty, Named, Positional};
use crate::inputs::Plain::{Bytes, Float, Int, Null};
use crate::outcome::Memory::{Asked, Never};
use crate::outcome::{Case, Memory, cases, judged, row};
use crate::pair_cases::Wanted;
use crate::purposes::{WIDE_ANYWHERE, WIDE_IN_ANY_MODE, WIDE_IN_BOTH_MODES};
use crate::steady_fragment_cases::judged_fragments;
use crate::wide_fragment_cases::judged_bound;
use mysql_fragments::bind_wide_fragments_guarded;
use mysql_params::{Purpose, bind};
use std::alloc::Global;

/// How the call of this name went, if it stands here.
pub(crate) fn case(alloc: Global, name: &str) -> Option<Case> {
    if let Some(row) = row(BOUND, name) {
        return Some(bound(alloc, row));
    }
    if let Some(row) = row(GUARDED_FRAGMENTS, name) {
        return Some(guarded_fragments_bound(alloc, row));
    }
    Some(fragments_bound(alloc, row(FRAGMENTS, name)?))
}

/// A purpose, a query, what is given, the text or the refusal, and whether the call asks for
/// memory.
type Row = (Purpose, &'static [u8], Given<'static>, Wanted, Memory);

/// A text, a number and NULL for names that differ by their case alone.
const THREE: Given = Named(&[(b"ID", Bytes(b"it's")), (b"Id", Int(-3)), (b"id", Null)]);

const MANY: &[u8] = b":Id,:Id,:Id,:Id,:Id,:Id,:Id,:Id,:Id,:Id,:Id,:Id,:Id,:Id,:Id,:Id,:Id";

const BRACKET: &str = "Unportable(Unportable { construct: Bracket, at: 0 })";

const BRACKET_IN_QUERY: &str = "Query(Unportable(Unportable { construct: Bracket, at: 0 }))";

const UNSTEADY: &str = "Query(Unsteady { at: 1 })";

const MIXED: &str = "Values(Mixed)";

const MISSING_A: &str = "Values(Params(Missing(MissingNamedParameterError([65]))))";

const FOR_NAMES: &str = "Values(Params(Confusion(PositionalParamsForNamedQuery)))";

const BOUND: &[(&str, Row)] = cases! {
    "bind by wide names anywhere of names with capitals" =>
        WIDE_ANYWHERE, b"SELECT :ID, :Id, :id", THREE, Ok(b"SELECT _utf8mb4'it''s', -3, NULL"),
        Asked;
    "bind by wide names anywhere of a name without capitals" =>
        WIDE_ANYWHERE, b"':ID' = :id", THREE, Ok(b"':ID' = NULL"), Asked;
    "bind by wide names anywhere of a query in doubt" =>
        WIDE_ANYWHERE, b"/*! */ :ID", THREE, Ok(b"/*! */ _utf8mb4'it''s'"), Asked;
    "bind by wide names anywhere of more names than are kept" =>
        WIDE_ANYWHERE, MANY, Named(&[(b"Id", Int(1))]), Ok(b"1,1,1,1,1,1,1,1,1,1,1,1,1,1,1,1,1"),
        Asked;
    "bind by wide names anywhere of a text by position" =>
        WIDE_ANYWHERE, b"? = ':ID'", Positional(&[Bytes(b"\\")]), Ok(b"_utf8mb4 0x5C = ':ID'"),
        Asked;
    "bind by wide names anywhere of an unsteady query" =>
        WIDE_ANYWHERE, b"x\\:ID", THREE, Err(UNSTEADY), Never;
    "bind by wide names anywhere of a query that is not portable" =>
        WIDE_ANYWHERE, b"[:ID", THREE, Err(BRACKET_IN_QUERY), Never;
    "bind by wide names anywhere of a query that is not portable without capitals" =>
        WIDE_ANYWHERE, b"[:id", THREE, Err(BRACKET_IN_QUERY), Never;
    "bind by wide names anywhere of names and marks" =>
        WIDE_ANYWHERE, b"/*! */ :ID ?", Empty, Err(MIXED), Never;
    "bind by wide names anywhere of names and marks without capitals" =>
        WIDE_ANYWHERE, b"/*! */ :id ?", Empty, Err(MIXED), Never;
    "bind by wide names anywhere of a missing name" =>
        WIDE_ANYWHERE, b"(:A)", THREE, Err(MISSING_A), Asked;
    "bind by wide names anywhere of a place that does not stand alone" =>
        WIDE_ANYWHERE, b"lbl:ID", THREE, Err("Values(NotAlone { place: 0, at: 3 })"), Asked;
    "bind by wide names anywhere of a float" =>
        WIDE_ANYWHERE, b":A", Named(&[(b"A", Float(0))]), Err("Values(Float { place: 0 })"), Asked;
    "bind by wide names in any mode of a query that is not portable" =>
        WIDE_IN_ANY_MODE, b"[ :ID", THREE, Ok(b"[ _utf8mb4'it''s'"), Asked;
    "bind by wide names in any mode of a name without capitals" =>
        WIDE_IN_ANY_MODE, b"[ :id", THREE, Ok(b"[ NULL"), Asked;
    "bind by wide names in any mode of an unsteady query" =>
        WIDE_IN_ANY_MODE, b"x\\:ID", THREE, Err(UNSTEADY), Never;
    "bind by wide names in any mode of names and marks" =>
        WIDE_IN_ANY_MODE, b":ID ?", Empty, Err(MIXED), Never;
    "bind by wide names in any mode of values for names" =>
        WIDE_IN_ANY_MODE, b":ID", Positional(&[Int(5)]), Err(FOR_NAMES), Asked;
    "bind by wide names in both modes of names with capitals" =>
        WIDE_IN_BOTH_MODES, b"'\xC3\xBC', :ID, :Id", THREE, Ok(b"'\xC3\xBC', _utf8mb4'it''s', -3"),
        Asked;
    "bind by wide names in both modes of a name without capitals" =>
        WIDE_IN_BOTH_MODES, b"'\xC3\xBC', :id", THREE, Ok(b"'\xC3\xBC', NULL"), Asked;
    "bind by wide names in both modes of a query in doubt" =>
        WIDE_IN_BOTH_MODES, b"/*! */ :ID", THREE, Ok(b"/*! */ _utf8mb4'it''s'"), Asked;
    "bind by wide names in both modes of a backslash in a string" =>
        WIDE_IN_BOTH_MODES, b"'\\':ID", THREE, Err("Query(Backslash { at: 1 })"), Never;
    "bind by wide names in both modes of a query that is not portable" =>
        WIDE_IN_BOTH_MODES, b"[:ID", THREE, Err(BRACKET_IN_QUERY), Never;
    "bind by wide names in both modes of a query that is not portable without capitals" =>
        WIDE_IN_BOTH_MODES, b"[:id", THREE, Err(BRACKET_IN_QUERY), Never;
    "bind by wide names in both modes of names and marks" =>
        WIDE_IN_BOTH_MODES, b"/*! */ :ID ?", Empty, Err(MIXED), Never;
    "bind by wide names in both modes of names and marks without capitals" =>
        WIDE_IN_BOTH_MODES, b":id ?", Empty, Err(MIXED), Never;
    "bind by wide names in both modes of a missing name" =>
        WIDE_IN_BOTH_MODES, b"(:A)", THREE, Err(MISSING_A), Asked;
};

fn bound(alloc: Global, (purpose, query, given, wanted, memory): Row) -> Case {
    let params = given.params(alloc)?;
    Ok(judged(bind(alloc, query, &params, purpose), wanted).with(memory))
}

/// A purpose, a query, fragments, the text or the refusal, and whether the call asks for memory.
type FragmentsRow = (Purpose, &'static [u8], InPlaces, Wanted, Memory);

/// A name and a list, for names that differ by their case alone.
const NAME_AND_LIST: InPlaces = InPlaces::Named(&[
    (b"Ids", List(&[Number(b"2.5"), Item(Bytes(b"it's"))])),
    (b"ids", Identifier(b"n")),
]);

const TEXT: InPlaces = InPlaces::Positional(&[Value(Bytes(b"it's"))]);

const FRAGMENTS: &[(&str, FragmentsRow)] = cases! {
    "bind fragments by wide names anywhere of a name and a list" =>
        WIDE_ANYWHERE, b":ids IN (:Ids)", NAME_AND_LIST,
        Ok(b"`n` IN (2.5, _utf8mb4'it''s')"), Asked;
    "bind fragments by wide names anywhere of a name without capitals" =>
        WIDE_ANYWHERE, b"/*! */ ':Ids', :ids", NAME_AND_LIST, Ok(b"/*! */ ':Ids', `n`"), Asked;
    "bind fragments by wide names anywhere of a text by position" =>
        WIDE_ANYWHERE, b"? = ':Ids'", TEXT, Ok(b"_utf8mb4'it''s' = ':Ids'"), Asked;
    "bind fragments by wide names anywhere of an unsteady query" =>
        WIDE_ANYWHERE, b"x\\:Ids", NAME_AND_LIST, Err(UNSTEADY), Never;
    "bind fragments by wide names anywhere of a query that is not portable" =>
        WIDE_ANYWHERE, b"[ :Ids", NAME_AND_LIST, Err(BRACKET_IN_QUERY), Never;
    "bind fragments by wide names anywhere of a query that is not portable without capitals" =>
        WIDE_ANYWHERE, b"[ :ids", NAME_AND_LIST, Err(BRACKET_IN_QUERY), Never;
    "bind fragments by wide names anywhere of names and marks" =>
        WIDE_ANYWHERE, b":Ids ?", NAME_AND_LIST, Err("Mixed"), Never;
    "bind fragments by wide names anywhere of names and marks without capitals" =>
        WIDE_ANYWHERE, b":ids ?", NAME_AND_LIST, Err("Mixed"), Never;
    "bind fragments by wide names anywhere of a missing name" =>
        WIDE_ANYWHERE, b":A", NAME_AND_LIST,
        Err("Missing(MissingNamedParameterError([65]))"), Asked;
    "bind fragments by wide names in any mode of a query that is not portable" =>
        WIDE_IN_ANY_MODE, b"[ :Ids", NAME_AND_LIST, Ok(b"[ 2.5, _utf8mb4'it''s'"), Asked;
    "bind fragments by wide names in any mode of an unsteady query" =>
        WIDE_IN_ANY_MODE, b"x\\:Ids", NAME_AND_LIST, Err(UNSTEADY), Never;
    "bind fragments by wide names in any mode of names and marks" =>
        WIDE_IN_ANY_MODE, b":Ids ?", NAME_AND_LIST, Err("Mixed"), Never;
    "bind fragments by wide names in any mode of fragments for names" =>
        WIDE_IN_ANY_MODE, b":Ids", TEXT, Err("Confusion(PositionalParamsForNamedQuery)"), Asked;
};

fn fragments_bound(alloc: Global, (purpose, query, given, wanted, memory): FragmentsRow) -> Case {
    let fragments = given.fragments(alloc)?;
    Ok(judged_bound(bind(alloc, query, &fragments, purpose), wanted).with(memory))
}

/// A query, fragments, the text or the refusal, and whether the call asks for memory.
type GuardedRow = (&'static [u8], InPlaces, Wanted, Memory);

const GUARDED_FRAGMENTS: &[(&str, GuardedRow)] = cases! {
    "bind_wide_fragments_guarded of a name and a list" =>
        b":ids IN (:Ids)", NAME_AND_LIST, Ok(b"`n` IN (2.5, 'it''s')"), Asked;
    "bind_wide_fragments_guarded of an unsteady query" =>
        b"x\\:Ids", NAME_AND_LIST, Err("Unsteady { at: 1 }"), Never;
    "bind_wide_fragments_guarded of a query that is not portable" =>
        b"[ :Ids", NAME_AND_LIST, Err(BRACKET), Never;
    "bind_wide_fragments_guarded of names and marks" =>
        b":Ids ?", NAME_AND_LIST, Err("Mixed"), Never;
    "bind_wide_fragments_guarded of a missing name" =>
        b":A", NAME_AND_LIST, Err("Missing(MissingNamedParameterError([65]))"), Asked;
};

fn guarded_fragments_bound(alloc: Global, (query, given, wanted, memory): GuardedRow) -> Case {
    let fragments = given.fragments(alloc)?;
    let answer = bind_wide_fragments_guarded(alloc, query, &fragments, false);
    Ok(judged_fragments(answer, wanted).with(memory))
}
