//! Queries bound from names and values, and from fragments, that are borrowed.
use crate::outcome::Memory::{Asked, Never};
use crate::outcome::{Case, Memory, Outcome, cases, judged, row};
use crate::purposes::{WIDE_ANYWHERE, WITH_BACKSLASHES};
use mysql_fragments::{FragmentRef, RowsRef, bind_borrowed_fragments};
use mysql_params::params::NamedPairs;
use mysql_params::{
    BindError, BindPairsError, BothModesError, BothModesPairsError, ByPosition, ParsedQuery,
    SteadyPairsError, SteadyTextError, TextInRoom, bind, bind_into, bind_pairs,
    bind_pairs_anywhere, bind_pairs_in_any_mode, bind_pairs_in_both_modes, bind_values,
    bind_values_anywhere, bind_values_in_any_mode, bind_values_in_both_modes,
};
use mysql_values::value::ValueRef;
use std::alloc::Global;
use std::fmt::Debug;

/// How the call of this name went, if it stands here.
pub(crate) fn case(alloc: Global, name: &str) -> Option<Case> {
    if let Some(row) = row(PAIRS, name) {
        return Some(pairs_bound(alloc, row));
    }
    if let Some(row) = row(VALUES, name) {
        return Some(values_bound(alloc, row));
    }
    if let Some(call) = row(MANY, name) {
        return Some(many_bound(alloc, call));
    }
    Some(fragments_bound(alloc, row(FRAGMENTS, name)?))
}

/// Which call binds.
#[derive(Clone, Copy)]
enum Call {
    Bind,
    Plain,
    Room,
    Parsed,
    Appended,
    Anywhere,
    AnyMode,
    BothModes,
}

pub(crate) type Wanted = Result<&'static [u8], &'static str>;

/// A name and its value.
pub(crate) type Pair = (&'static [u8], ValueRef<'static>);

/// A call, a query, pairs, the text or the refusal, and whether the call asks for memory.
type PairsRow = (Call, &'static [u8], &'static [Pair], Wanted, Memory);

const A: &[Pair] = &[(b"a", ValueRef::Bytes(b"it's")), (b"b", ValueRef::NULL)];

const TWICE: &[Pair] = &[(b"a", ValueRef::Int(1)), (b"a", ValueRef::Int(2))];

const STEADY: &[u8] = b"x=_utf8mb4'it''s' OR NULL";

const PAIRS: &[(&str, PairsRow)] = cases! {
    "bind_pairs of two pairs" =>
        Call::Plain, b"x=:a OR :b", A, Ok(b"x='it\\'s' OR NULL"), Asked;
    "bind_pairs of a name given twice" =>
        Call::Plain, b"x=:a", TWICE, Err("Redefined { index: 1 }"), Never;
    "bind_pairs of names and marks" => Call::Plain, b":a ?", A, Err("Mixed"), Never;
    "bind_pairs of a place that does not stand alone" =>
        Call::Plain, b"x:a", A, Err("NotAlone { place: 0, at: 1 }"), Asked;
    "bind into room of two pairs" => Call::Room, b"x=:b", A, Ok(b"x=NULL"), Asked;
    "bind into room of a name given twice" =>
        Call::Room, b"x=:a", TWICE, Err("Redefined { index: 1 }"), Never;
    "bind_pairs of a parsed query" => Call::Parsed, b"x=:b", A, Ok(b"x=NULL"), Asked;
    "append_pairs of a parsed query" => Call::Appended, b"x=:b", A, Ok(b"xyx=NULL"), Asked;
    "bind_pairs_anywhere of two pairs" => Call::Anywhere, b"x=:a OR :b", A, Ok(STEADY), Asked;
    "bind_pairs_anywhere of an unsteady query" =>
        Call::Anywhere, b"x=:a\\", A, Err("Bind(Unsteady { at: 4 })"), Never;
    "bind_pairs_in_any_mode of two pairs" => Call::AnyMode, b"x=:a OR :b", A, Ok(STEADY), Asked;
    "bind_pairs_in_both_modes of two pairs" =>
        Call::BothModes, b"x=:a OR :b", A, Ok(STEADY), Asked;
};

fn pairs_bound(alloc: Global, (call, query, pairs, wanted, memory): PairsRow) -> Case {
    Ok(bound_by(alloc, call, query, pairs, wanted)?.with(memory))
}

/// How this call of pairs went.
fn bound_by(
    alloc: Global,
    call: Call,
    query: &[u8],
    pairs: &[(&[u8], ValueRef<'_>)],
    wanted: Wanted,
) -> Case {
    Ok(match call {
        Call::Bind => judged(
            bind(alloc, query, &NamedPairs(pairs), WIDE_ANYWHERE),
            wanted,
        ),
        Call::Plain => judged_pairs(bind_pairs(alloc, query, pairs, false), wanted),
        Call::Room => pairs_in_room(alloc, query, pairs, wanted),
        Call::Parsed => {
            let parsed = ParsedQuery::parse(alloc, query)?;
            judged_pairs(parsed.bind_pairs(alloc, pairs), wanted)
        }
        Call::Appended => pairs_appended(alloc, query, pairs, wanted)?,
        Call::Anywhere => judged_steady(bind_pairs_anywhere(alloc, query, pairs), wanted),
        Call::AnyMode => judged_steady(bind_pairs_in_any_mode(alloc, query, pairs), wanted),
        Call::BothModes => judged_both(bind_pairs_in_both_modes(alloc, query, pairs), wanted),
    })
}

/// A call, a query, values, the text or the refusal, and whether the call asks for memory.
type ValuesRow = (
    Call,
    &'static [u8],
    &'static [ValueRef<'static>],
    Wanted,
    Memory,
);

const FIVE: &[ValueRef] = &[ValueRef::Int(5)];

const FOR_NAMES: &str = "Params(Confusion(PositionalParamsForNamedQuery))";

const VALUES: &[(&str, ValuesRow)] = cases! {
    "bind_values of a value" => Call::Plain, b"x=?", FIVE, Ok(b"x=5"), Asked;
    "bind_values of values for names" => Call::Plain, b"x=:a", FIVE, Err(FOR_NAMES), Asked;
    "bind_values of names and marks" => Call::Plain, b":a ?", FIVE, Err("Mixed"), Never;
    "bind into room of a borrowed value" => Call::Room, b"x=?", FIVE, Ok(b"x=5"), Asked;
    "bind_values of a parsed query" => Call::Parsed, b"x=?", FIVE, Ok(b"x=5"), Asked;
    "append_values of a parsed query" => Call::Appended, b"x=?", FIVE, Ok(b"xyx=5"), Asked;
    "bind_values_anywhere of a value" => Call::Anywhere, b"x=?", FIVE, Ok(b"x=5"), Asked;
    "bind_values_in_any_mode of a value" => Call::AnyMode, b"x=?", FIVE, Ok(b"x=5"), Asked;
    "bind_values_in_both_modes of a value" => Call::BothModes, b"x=?", FIVE, Ok(b"x=5"), Asked;
};

fn values_bound(alloc: Global, (call, query, values, wanted, memory): ValuesRow) -> Case {
    let outcome = match call {
        Call::Bind => judged(
            bind(alloc, query, &ByPosition(values), WIDE_ANYWHERE),
            wanted,
        ),
        Call::Plain => judged(bind_values(alloc, query, values, false), wanted),
        Call::Room => values_in_room(alloc, query, values, wanted),
        Call::Parsed => {
            let parsed = ParsedQuery::parse(alloc, query)?;
            judged(parsed.bind_values(alloc, values), wanted)
        }
        Call::Appended => values_appended(alloc, query, values, wanted)?,
        Call::Anywhere => judged_text(bind_values_anywhere(alloc, query, values), wanted),
        Call::AnyMode => judged_text(bind_values_in_any_mode(alloc, query, values), wanted),
        Call::BothModes => judged_modes(bind_values_in_both_modes(alloc, query, values), wanted),
    };
    Ok(outcome.with(memory))
}

/// How a call for pairs went.
pub(crate) fn judged_pairs(answer: Result<Vec<u8>, BindPairsError>, wanted: Wanted) -> Outcome {
    match answer {
        Err(BindPairsError::Bind(error)) => judged::<Vec<u8>, &[u8], BindError>(Err(error), wanted),
        other => judged(other, wanted),
    }
}

/// How a call for steady text of pairs went.
fn judged_steady(answer: Result<Vec<u8>, SteadyPairsError>, wanted: Wanted) -> Outcome {
    match answer {
        Err(SteadyPairsError::Bind(SteadyTextError::Bind(error))) => {
            judged::<Vec<u8>, &[u8], BindError>(Err(error), wanted)
        }
        other => judged(other, wanted),
    }
}

/// How a call for text in both modes of pairs went.
fn judged_both(answer: Result<Vec<u8>, BothModesPairsError>, wanted: Wanted) -> Outcome {
    match answer {
        Err(BothModesPairsError::Bind(BothModesError::Bind(error))) => {
            judged::<Vec<u8>, &[u8], BindError>(Err(error), wanted)
        }
        other => judged(other, wanted),
    }
}

/// How a call for steady text went.
fn judged_text(answer: Result<Vec<u8>, SteadyTextError>, wanted: Wanted) -> Outcome {
    match answer {
        Err(SteadyTextError::Bind(error)) => {
            judged::<Vec<u8>, &[u8], BindError>(Err(error), wanted)
        }
        other => judged(other, wanted),
    }
}

/// How a call for text in both modes went.
fn judged_modes(answer: Result<Vec<u8>, BothModesError>, wanted: Wanted) -> Outcome {
    match answer {
        Err(BothModesError::Bind(error)) => judged::<Vec<u8>, &[u8], BindError>(Err(error), wanted),
        other => judged(other, wanted),
    }
}

/// How a call into this room went: it has the text at its front, or is as before.
pub(crate) fn told_in_room<E: Debug + Drop>(
    told: Result<TextInRoom, E>,
    room: &[u8],
    before: &[u8],
    wanted: Wanted,
) -> Outcome {
    match told {
        Ok(TextInRoom::Written { len }) => {
            let text = room.get(..len).unwrap_or(&[]);
            Outcome::Answer.if_holds(wanted.is_ok_and(|wanted| wanted == text))
        }
        Ok(TextInRoom::TooShort { .. }) => Outcome::Wrong,
        Err(error) => judged::<Vec<u8>, &[u8], E>(Err(error), wanted).if_holds(room == before),
    }
}

/// A caller's room, before a call.
const ROOM: &[u8; 8] = b"........";

fn pairs_in_room(
    alloc: Global,
    query: &[u8],
    pairs: &[(&[u8], ValueRef<'_>)],
    wanted: Wanted,
) -> Outcome {
    let mut room = *ROOM;
    let told = bind_into(
        alloc,
        query,
        &NamedPairs(pairs),
        WITH_BACKSLASHES,
        &mut room,
    );
    told_in_room(told, &room, ROOM, wanted)
}

fn values_in_room(alloc: Global, query: &[u8], values: &[ValueRef<'_>], wanted: Wanted) -> Outcome {
    let mut room = *ROOM;
    let told = bind_into(
        alloc,
        query,
        &ByPosition(values),
        WITH_BACKSLASHES,
        &mut room,
    );
    told_in_room(told, &room, ROOM, wanted)
}

fn pairs_appended(
    alloc: Global,
    query: &[u8],
    pairs: &[(&[u8], ValueRef<'_>)],
    wanted: Wanted,
) -> Case {
    let parsed = ParsedQuery::parse(alloc, query)?;
    let mut text = Vec::from_slice(alloc, b"xy")?;
    Ok(match parsed.append_pairs(alloc, pairs, &mut text) {
        Ok(()) => judged_pairs(Ok(text), wanted),
        Err(error) => judged_pairs(Err(error), wanted).if_holds(
            text.as_slice() == b"xy".as_slice(),
        ),
    })
}

fn values_appended(alloc: Global, query: &[u8], values: &[ValueRef<'_>], wanted: Wanted) -> Case {
    let parsed = ParsedQuery::parse(alloc, query)?;
    let mut text = Vec::from_slice(alloc, b"xy")?;
    Ok(match parsed.append_values(alloc, values, &mut text) {
        Ok(()) => judged::<Vec<u8>, &[u8], BindError>(Ok(text), wanted),
        Err(error) => judged::<Vec<u8>, &[u8], BindError>(Err(error), wanted).if_holds(
            text.as_slice() == b"xy".as_slice(),
        ),
    })
}

/// Calls with pairs that are put into a sorted map.
const MANY: &[(&str, Call)] = cases! {
    "bind of more pairs than are walked" => Call::Bind;
    "bind_pairs of more pairs than are walked" => Call::Plain;
    "bind_pairs of a parsed query of more pairs than are walked" => Call::Parsed;
    "bind_pairs_anywhere of more pairs than are walked" => Call::Anywhere;
    "bind_pairs_in_both_modes of more pairs than are walked" => Call::BothModes;
};

/// One pair more than is walked.
const COUNT: usize = 65;

const LETTERS: &[u8] = b"abcdefghijklmnopqrstuvwxyz";

/// The letter of this number, from `a` again behind `z`.
fn letter(number: usize) -> u8 {
    match LETTERS.get(number % LETTERS.len()) {
        Some(letter) => *letter,
        None => b'a',
    }
}

/// How a call of pairs of the names from `aa` on went.
fn many_bound(alloc: Global, call: Call) -> Case {
    let mut names = Vec::with_capacity(alloc, COUNT)?;
    for i in 0..COUNT {
        names.push([letter(i / LETTERS.len()), letter(i)])?;
    }
    let mut pairs: Vec<(&[u8], ValueRef<'_>)> = Vec::with_capacity(alloc, COUNT)?;
    for (i, name) in names.iter().enumerate() {
        pairs.push((name.as_slice(), ValueRef::UInt(i as u64)))?;
    }
    bound_by(alloc, call, b"x=:cm", pairs.as_slice(), Ok(b"x=64"))
}

/// A query, fragments, and the text or the refusal.
type FragmentsRow = (&'static [u8], Fragments, Wanted, Memory);

/// Borrowed fragments.
#[derive(Clone, Copy)]
enum Fragments {
    /// A list of these values.
    List(&'static [ValueRef<'static>]),
    /// Rows of this width of these values.
    Rows(&'static [ValueRef<'static>], usize),
}

const CELLS: &[ValueRef] = &[ValueRef::Int(1), ValueRef::Bytes(b"a")];

const FRAGMENTS: &[(&str, FragmentsRow)] = cases! {
    "bind_borrowed_fragments of a list" =>
        b"x IN (?)", Fragments::List(CELLS), Ok(b"x IN (1, 'a')"), Asked;
    "bind_borrowed_fragments of rows" =>
        b"VALUES ?", Fragments::Rows(CELLS, 1), Ok(b"VALUES (1), ('a')"), Asked;
    "bind_borrowed_fragments of an empty list" =>
        b"x IN (?)", Fragments::List(&[]), Err("Fault { place: 0, fault: Empty }"), Never;
    "bind_borrowed_fragments of names and marks" =>
        b":a ?", Fragments::List(CELLS), Err("Mixed"), Never;
};

fn fragments_bound(alloc: Global, (query, fragments, wanted, memory): FragmentsRow) -> Case {
    let fragment = match fragments {
        Fragments::List(cells) => FragmentRef::List(cells),
        Fragments::Rows(cells, width) => match RowsRef::new(cells, width) {
            Ok(rows) => FragmentRef::Rows(rows),
            Err(_) => return Ok(Outcome::Wrong),
        },
    };
    let answer = bind_borrowed_fragments(alloc, query, &[fragment], false);
    Ok(judged(answer, wanted).with(memory))
}
