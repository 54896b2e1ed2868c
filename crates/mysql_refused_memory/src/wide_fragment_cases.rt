//! Fragments bound to text by wide names, which may have capitals, and put into expanded queries.
use crate::fragment_cases::Expanded;
use crate::fragment_inputs::InPlaces;
use crate::fragment_inputs::InPlaces::{Named, Positional};
use crate::fragment_inputs::PlainFragment::{Identifier, Keyword as Word, List, Value};
use crate::fragment_inputs::PlainItem::{Decimal as Number, Value as Item};
use crate::inputs::Plain::{Bytes, Float, Int};
use crate::outcome::Memory::{Asked, Never};
use crate::outcome::{Case, Memory, Outcome, cases, judged, row};
use crate::pair_cases::Wanted;
use crate::purposes::{WIDE, WIDE_WITHOUT_BACKSLASHES};
use mysql_fragments::{FragmentsError, expanded_wide_query_in};
use mysql_params::{BindRefusal, Purpose, bind};
use std::alloc::Global;

/// How the call of this name went, if it stands here.
pub(crate) fn case(alloc: Global, name: &str) -> Option<Case> {
    if let Some(row) = row(BOUND, name) {
        return Some(bound(alloc, row));
    }
    Some(expanded(alloc, row(EXPANDED, name)?))
}

/// A query, what is given, a purpose, the text or the refusal, and whether it asks for memory.
type Row = (&'static [u8], InPlaces, Purpose, Wanted, Memory);

/// A name and a list, for names that differ by their case alone.
const NAME_AND_LIST: InPlaces = Named(&[
    (b"Ids", List(&[Number(b"2.5"), Item(Bytes(b"it's"))])),
    (b"ids", Identifier(b"n")),
]);

const WORD: InPlaces = Positional(&[Word(b"DESC")]);

const MISSING_A: &str = "Missing(MissingNamedParameterError([65]))";

const FOR_NAMES: &str = "Confusion(PositionalParamsForNamedQuery)";

const FOR_MARKS: &str = "Confusion(NamedParamsForPositionalQuery)";

const TOO_FEW: &str = "MarkCount { marks: 2, fragments: 1 }";

const NOT_ALONE: &str = "NotAlone { place: 0, at: 1 }";

const EMPTY_LIST: InPlaces = Named(&[(b"A", List(&[]))]);

const EMPTY: &str = "Fault { place: 0, fault: Empty }";

const BOUND: &[(&str, Row)] = cases! {
    "bind fragments by wide names of a name and a list" =>
        b":ids IN (:Ids)", NAME_AND_LIST, WIDE, Ok(b"`n` IN (2.5, 'it\\'s')"), Asked;
    "bind fragments by wide names of a name without capitals" =>
        b"':Ids', :ids", NAME_AND_LIST, WIDE, Ok(b"':Ids', `n`"), Asked;
    "bind fragments by wide names of a keyword by position" =>
        b"ORDER BY ':Ids' ?", WORD, WIDE, Ok(b"ORDER BY ':Ids' DESC"), Asked;
    "bind fragments by wide names of a list without backslash escapes" =>
        b"'\\', :Ids", NAME_AND_LIST, WIDE_WITHOUT_BACKSLASHES, Ok(b"'\\', 2.5, 'it''s'"), Asked;
    "bind fragments by wide names of more places than are kept" =>
        b":A,:A,:A,:A,:A,:A,:A,:A,:A,:A,:A,:A,:A,:A,:A,:A,:A", Named(&[(b"A", Value(Int(1)))]),
        WIDE, Ok(b"1,1,1,1,1,1,1,1,1,1,1,1,1,1,1,1,1"), Asked;
    "bind fragments by wide names of names and marks" =>
        b":Ids ?", NAME_AND_LIST, WIDE, Err("Mixed"), Never;
    "bind fragments by wide names of names and marks without backslash escapes" =>
        b"'\\', :Ids, ?", NAME_AND_LIST, WIDE_WITHOUT_BACKSLASHES, Err("Mixed"), Never;
    "bind fragments by wide names of a missing name" =>
        b":Ids :A", NAME_AND_LIST, WIDE, Err(MISSING_A), Asked;
    "bind fragments by wide names of positional fragments for names" =>
        b":Ids", WORD, WIDE, Err(FOR_NAMES), Asked;
    "bind fragments by wide names of named fragments for marks" =>
        b"?", NAME_AND_LIST, WIDE, Err(FOR_MARKS), Asked;
    "bind fragments by wide names of too few fragments" => b"? ?", WORD, WIDE, Err(TOO_FEW), Asked;
    "bind fragments by wide names of an empty list" =>
        b"(:A)", EMPTY_LIST, WIDE, Err(EMPTY), Asked;
    "bind fragments by wide names of a place that does not stand alone" =>
        b"x:Ids", NAME_AND_LIST, WIDE, Err(NOT_ALONE), Asked;
    "bind fragments by wide names of a float" =>
        b":A", Named(&[(b"A", Value(Float(0)))]), WIDE, Err("Float { place: 0 }"), Asked;
};

fn bound(alloc: Global, (query, given, purpose, wanted, memory): Row) -> Case {
    let fragments = given.fragments(alloc)?;
    Ok(judged_bound(bind(alloc, query, &fragments, purpose), wanted).with(memory))
}

/// [`judged`] for [`bind`] of fragments: a refusal of these is shown by itself.
pub(crate) fn judged_bound(answer: Result<Vec<u8>, BindRefusal>, wanted: Wanted) -> Outcome {
    match answer {
        Err(BindRefusal::Fragments(error)) => {
            let answer: Result<Vec<u8>, FragmentsError> = Err(error);
            judged(answer, wanted)
        }
        other => judged(other, wanted),
    }
}

/// A query, what is given, the mode, the expanded query or the refusal, and whether it asks for
/// memory.
type ExpandedRow = (
    &'static [u8],
    InPlaces,
    bool,
    Result<Expanded, &'static str>,
    Memory,
);

const EXPANDED: &[(&str, ExpandedRow)] = cases! {
    "expanded_wide_query_in of a name and a list" =>
        b":ids IN (:Ids)", NAME_AND_LIST, false, Ok((b"`n` IN (2.5, ?)", &[Bytes(b"it's")])), Asked;
    "expanded_wide_query_in of a name without capitals" =>
        b"':Ids', :ids", NAME_AND_LIST, false, Ok((b"':Ids', `n`", &[])), Asked;
    "expanded_wide_query_in of a list without backslash escapes" =>
        b"'\\', :Ids", NAME_AND_LIST, true, Ok((b"'\\', 2.5, ?", &[Bytes(b"it's")])), Asked;
    "expanded_wide_query_in of names and marks" =>
        b":Ids ?", NAME_AND_LIST, false, Err("Mixed"), Never;
    "expanded_wide_query_in of names and marks without backslash escapes" =>
        b"'\\', :Ids, ?", NAME_AND_LIST, true, Err("Mixed"), Never;
    "expanded_wide_query_in of a missing name" =>
        b":Ids :A", NAME_AND_LIST, false, Err(MISSING_A), Asked;
    "expanded_wide_query_in of positional fragments for names" =>
        b":Ids", WORD, false, Err(FOR_NAMES), Asked;
    "expanded_wide_query_in of named fragments for marks" =>
        b"?", NAME_AND_LIST, false, Err(FOR_MARKS), Asked;
    "expanded_wide_query_in of too few fragments" => b"? ?", WORD, false, Err(TOO_FEW), Asked;
    "expanded_wide_query_in of an empty list" => b"(:A)", EMPTY_LIST, false, Err(EMPTY), Asked;
    "expanded_wide_query_in of a place that does not stand alone" =>
        b"x:Ids", NAME_AND_LIST, false, Err(NOT_ALONE), Asked;
};

fn expanded(
    alloc: Global,
    (query, given, no_backslash_escape, wanted, memory): ExpandedRow,
) -> Case {
    let fragments = given.fragments(alloc)?;
    let answer = expanded_wide_query_in(alloc, query, &fragments, no_backslash_escape);
    Ok(judged(answer, wanted).with(memory))
}
