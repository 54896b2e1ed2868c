//! Queries with wide names, which may have capitals, bound from names and values, and from
//! fragments, that are borrowed.
use crate::outcome::Memory::{Asked, Never};
use crate::outcome::{Case, Memory, Outcome, cases, judged, row};
use crate::pair_cases::{Pair, Wanted, judged_pairs, told_in_room};
use crate::purposes::{
    WIDE, WIDE_ANYWHERE, WIDE_IN_ANY_MODE, WIDE_IN_BOTH_MODES, WIDE_WITHOUT_BACKSLASHES,
};
use mysql_fragments::{FragmentRef, bind_wide_borrowed_fragments};
use mysql_params::params::NamedPairs;
use mysql_params::{BindError, ByPosition, Purpose, WideQuery, bind, bind_into};
use mysql_values::value::ValueRef;
use std::alloc::Global;

/// How the call of this name went, if it stands here.
pub(crate) fn case(alloc: Global, name: &str) -> Option<Case> {
    if let Some(row) = row(PAIRS, name) {
        return Some(pairs_bound(alloc, row));
    }
    if let Some(row) = row(VALUES, name) {
        return Some(values_bound(alloc, row));
    }
    Some(Ok(fragments_bound(alloc, row(FRAGMENTS, name)?)))
}

/// Which call binds, and its purpose or mode.
#[derive(Clone, Copy)]
enum Call {
    Bind(Purpose),
    Room(Purpose),
    Parsed(bool),
    Appended(bool),
}

/// A call, a query, pairs, the text or the refusal, and whether the call asks for memory.
type PairsRow = (Call, &'static [u8], &'static [Pair], Wanted, Memory);

/// Two names that differ by their case alone.
const TWO: &[Pair] = &[(b"A", ValueRef::Bytes(b"it's")), (b"a", ValueRef::NULL)];

const TWICE: &[Pair] = &[(b"A", ValueRef::Int(1)), (b"A", ValueRef::Int(2))];

const QUERY: &[u8] = b"x=:A OR :a";

const STEADY: &[u8] = b"x=_utf8mb4'it''s' OR NULL";

const UNPORTABLE: &str = "Query(Unportable(Unportable { construct: Bracket, at: 0 }))";

const PAIRS: &[(&str, PairsRow)] = cases! {
    "bind by wide names of two pairs" =>
        Call::Bind(WIDE), QUERY, TWO, Ok(b"x='it\\'s' OR NULL"), Asked;
    "bind by wide names of pairs without backslash escapes" =>
        Call::Bind(WIDE_WITHOUT_BACKSLASHES), b"'\\' OR :A", TWO, Ok(b"'\\' OR 'it''s'"), Asked;
    "bind by wide names of pairs for a name without capitals" =>
        Call::Bind(WIDE), b"':A'=:a", TWO, Ok(b"':A'=NULL"), Asked;
    "bind by wide names of a name given twice" =>
        Call::Bind(WIDE), b"x=:A", TWICE, Err("Redefined { index: 1 }"), Never;
    "bind by wide names of pairs for names and marks" =>
        Call::Bind(WIDE), b":A ?", TWO, Err("Values(Mixed)"), Never;
    "bind by wide names of pairs for a place that does not stand alone" =>
        Call::Bind(WIDE), b"x:A", TWO, Err("Values(NotAlone { place: 0, at: 1 })"), Asked;
    "bind into room by wide names of two pairs" =>
        Call::Room(WIDE), b":a,:a", TWO, Ok(b"NULL,NULL"), Asked;
    "bind into room by wide names of pairs without backslash escapes" =>
        Call::Room(WIDE_WITHOUT_BACKSLASHES), b"'\\',:A", TWO, Ok(b"'\\','it''s'"), Asked;
    "bind into room by wide names of a name given twice" =>
        Call::Room(WIDE), b"x=:A", TWICE, Err("Redefined { index: 1 }"), Never;
    "bind_pairs of a WideQuery" => Call::Parsed(false), b"x=:A", TWO, Ok(b"x='it\\'s'"), Asked;
    "bind_pairs of a WideQuery without backslash escapes" =>
        Call::Parsed(true), b"x=:A", TWO, Ok(b"x='it''s'"), Asked;
    "append_pairs of a WideQuery" => Call::Appended(false), b"x=:a", TWO, Ok(b"xyx=NULL"), Asked;
    "append_pairs of a WideQuery with a missing name" =>
        Call::Appended(true), b"x=:Aa", TWO,
        Err("Params(Missing(MissingNamedParameterError([65, 97])))"), Asked;
    "bind by wide names anywhere of two pairs" =>
        Call::Bind(WIDE_ANYWHERE), QUERY, TWO, Ok(STEADY), Asked;
    "bind by wide names anywhere of pairs for a query in doubt" =>
        Call::Bind(WIDE_ANYWHERE), b"/*! */ :A", TWO, Ok(b"/*! */ _utf8mb4'it''s'"), Asked;
    "bind by wide names anywhere of pairs for an unsteady query" =>
        Call::Bind(WIDE_ANYWHERE), b"x=:A\\", TWO, Err("Query(Unsteady { at: 4 })"), Never;
    "bind by wide names anywhere of pairs for a query that is not portable" =>
        Call::Bind(WIDE_ANYWHERE), b"[ :A", TWO, Err(UNPORTABLE), Never;
    "bind by wide names in any mode of two pairs" =>
        Call::Bind(WIDE_IN_ANY_MODE), QUERY, TWO, Ok(STEADY), Asked;
    "bind by wide names in both modes of two pairs" =>
        Call::Bind(WIDE_IN_BOTH_MODES), QUERY, TWO, Ok(STEADY), Asked;
    "bind by wide names in both modes of pairs for a query in doubt" =>
        Call::Bind(WIDE_IN_BOTH_MODES), b"/*! */ :A", TWO, Ok(b"/*! */ _utf8mb4'it''s'"), Asked;
};

fn pairs_bound(alloc: Global, (call, query, pairs, wanted, memory): PairsRow) -> Case {
    let outcome = match call {
        Call::Bind(purpose) => judged(bind(alloc, query, &NamedPairs(pairs), purpose), wanted),
        Call::Room(purpose) => pairs_in_room(alloc, query, pairs, purpose, wanted),
        Call::Parsed(mode) => {
            let parsed = WideQuery::parse_in(alloc, query, mode)?;
            judged_pairs(parsed.bind_pairs(alloc, pairs), wanted)
        }
        Call::Appended(mode) => {
            pairs_appended(
                alloc,
                &WideQuery::parse_in(alloc, query, mode)?,
                pairs,
                wanted,
            )?
        }
    };
    Ok(outcome.with(memory))
}

/// A call, a query, values, the text or the refusal, and whether the call asks for memory.
type ValuesRow = (
    Call,
    &'static [u8],
    &'static [ValueRef<'static>],
    Wanted,
    Memory,
);

const FIVE: &[ValueRef] = &[ValueRef::Int(5)];

const TEXT: &[ValueRef] = &[ValueRef::Bytes(b"it's")];

const FOR_NAMES: &str = "Params(Confusion(PositionalParamsForNamedQuery))";

const VALUES_FOR_NAMES: &str = "Values(Params(Confusion(PositionalParamsForNamedQuery)))";

const VALUES: &[(&str, ValuesRow)] = cases! {
    "bind by wide names of a value" => Call::Bind(WIDE), b"':A'=?", FIVE, Ok(b"':A'=5"), Asked;
    "bind by wide names of a value without backslash escapes" =>
        Call::Bind(WIDE_WITHOUT_BACKSLASHES), b"'\\'=?", TEXT, Ok(b"'\\'='it''s'"), Asked;
    "bind by wide names of values for names" =>
        Call::Bind(WIDE), b"x=:A", FIVE, Err(VALUES_FOR_NAMES), Asked;
    "bind by wide names of values for names and marks" =>
        Call::Bind(WIDE), b":A ?", FIVE, Err("Values(Mixed)"), Never;
    "bind into room by wide names of a value" =>
        Call::Room(WIDE), b"x=?", TEXT, Ok(b"x='it\\'s'"), Asked;
    "bind into room by wide names of a value without backslash escapes" =>
        Call::Room(WIDE_WITHOUT_BACKSLASHES), b"x=?", TEXT, Ok(b"x='it''s'"), Asked;
    "bind_values of a WideQuery" => Call::Parsed(false), b"x=?", FIVE, Ok(b"x=5"), Asked;
    "bind_values of a WideQuery for names" =>
        Call::Parsed(true), b"x=:A", FIVE, Err(FOR_NAMES), Asked;
    "append_values of a WideQuery" => Call::Appended(true), b"x=?", TEXT, Ok(b"xyx='it''s'"), Asked;
    "append_values of a WideQuery for names" =>
        Call::Appended(false), b"x=:A", FIVE, Err(FOR_NAMES), Asked;
    "bind by wide names anywhere of a value" =>
        Call::Bind(WIDE_ANYWHERE), b"x=?", FIVE, Ok(b"x=5"), Asked;
    "bind by wide names anywhere of values for a query in doubt" =>
        Call::Bind(WIDE_ANYWHERE), b"/*! */ :A", FIVE, Err(VALUES_FOR_NAMES), Asked;
    "bind by wide names in any mode of a value" =>
        Call::Bind(WIDE_IN_ANY_MODE), b"[ ?", FIVE, Ok(b"[ 5"), Asked;
    "bind by wide names in both modes of a value" =>
        Call::Bind(WIDE_IN_BOTH_MODES), b"'\xC3\xBC'=?", TEXT,
        Ok(b"'\xC3\xBC'=_utf8mb4'it''s'"), Asked;
    "bind by wide names in both modes of values for a query in doubt" =>
        Call::Bind(WIDE_IN_BOTH_MODES), b"/*! */ :A", FIVE, Err(VALUES_FOR_NAMES), Asked;
};

fn values_bound(alloc: Global, (call, query, values, wanted, memory): ValuesRow) -> Case {
    let outcome = match call {
        Call::Bind(purpose) => judged(bind(alloc, query, &ByPosition(values), purpose), wanted),
        Call::Room(purpose) => values_in_room(alloc, query, values, purpose, wanted),
        Call::Parsed(mode) => {
            let parsed = WideQuery::parse_in(alloc, query, mode)?;
            judged(parsed.bind_values(alloc, values), wanted)
        }
        Call::Appended(mode) => {
            values_appended(
                alloc,
                &WideQuery::parse_in(alloc, query, mode)?,
                values,
                wanted,
            )?
        }
    };
    Ok(outcome.with(memory))
}

/// A caller's room, before a call.
const ROOM: &[u8; 16] = b"................";

fn pairs_in_room(
    alloc: Global,
    query: &[u8],
    pairs: &[(&[u8], ValueRef<'_>)],
    purpose: Purpose,
    wanted: Wanted,
) -> Outcome {
    let mut room = *ROOM;
    let told = bind_into(alloc, query, &NamedPairs(pairs), purpose, &mut room);
    told_in_room(told, &room, ROOM, wanted)
}

fn values_in_room(
    alloc: Global,
    query: &[u8],
    values: &[ValueRef<'_>],
    purpose: Purpose,
    wanted: Wanted,
) -> Outcome {
    let mut room = *ROOM;
    let told = bind_into(alloc, query, &ByPosition(values), purpose, &mut room);
    told_in_room(told, &room, ROOM, wanted)
}

fn pairs_appended(
    alloc: Global,
    parsed: &WideQuery<'_>,
    pairs: &[(&[u8], ValueRef<'_>)],
    wanted: Wanted,
) -> Case {
    let mut text = Vec::from_slice(alloc, b"xy")?;
    Ok(match parsed.append_pairs(alloc, pairs, &mut text) {
        Ok(()) => judged_pairs(Ok(text), wanted),
        Err(error) => judged_pairs(Err(error), wanted).if_holds(
            text.as_slice() == b"xy".as_slice(),
        ),
    })
}

fn values_appended(
    alloc: Global,
    parsed: &WideQuery<'_>,
    values: &[ValueRef<'_>],
    wanted: Wanted,
) -> Case {
    let mut text = Vec::from_slice(alloc, b"xy")?;
    Ok(match parsed.append_values(alloc, values, &mut text) {
        Ok(()) => judged::<Vec<u8>, &[u8], BindError>(Ok(text), wanted),
        Err(error) => judged::<Vec<u8>, &[u8], BindError>(Err(error), wanted).if_holds(
            text.as_slice() == b"xy".as_slice(),
        ),
    })
}

/// A query, the values of a list, the mode, the text or the refusal, and whether the call asks for
/// memory.
type FragmentsRow = (
    &'static [u8],
    &'static [ValueRef<'static>],
    bool,
    Wanted,
    Memory,
);

const FRAGMENTS: &[(&str, FragmentsRow)] = cases! {
    "bind_wide_borrowed_fragments of a list" =>
        b"':A' IN (?)", &[ValueRef::Int(1), ValueRef::Bytes(b"a")], false,
        Ok(b"':A' IN (1, 'a')"), Asked;
    "bind_wide_borrowed_fragments of a list without backslash escapes" =>
        b"'\\' IN (?)", TEXT, true, Ok(b"'\\' IN ('it''s')"), Asked;
    "bind_wide_borrowed_fragments of an empty list" =>
        b"x IN (?)", &[], false, Err("Fault { place: 0, fault: Empty }"), Never;
    "bind_wide_borrowed_fragments of names and marks" => b":A ?", TEXT, false, Err("Mixed"), Never;
};

fn fragments_bound(alloc: Global, (query, list, mode, wanted, memory): FragmentsRow) -> Outcome {
    let answer = bind_wide_borrowed_fragments(alloc, query, &[FragmentRef::List(list)], mode);
    judged(answer, wanted).with(memory)
}
