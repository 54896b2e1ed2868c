//! The one call that binds: a sorted map and fragments, after a text and into a room.
use crate::fragment_inputs::InPlaces;
use crate::fragment_inputs::InPlaces::{Named as ByName, Positional as InOrder};
use crate::fragment_inputs::PlainFragment::{Identifier, List};
use crate::fragment_inputs::PlainItem::{Decimal as Number, Value as Item};
use crate::inputs::Given::{Empty, Positional};
use crate::inputs::Plain::{Bytes, Int, Null};
use crate::inputs::{Given, Plain};
use crate::outcome::Memory::{Asked, Never};
use crate::outcome::{Case, Is, Memory, Outcome, cases, judged, row};
use crate::pair_cases::{Wanted, told_in_room};
use crate::purposes::{
    WIDE, WIDE_ANYWHERE, WIDE_IN_ANY_MODE, WIDE_IN_BOTH_MODES, WIDE_WITHOUT_BACKSLASHES,
};
use mysql_params::{BindRefusal, Purpose, TextInRoom, append, bind, bind_into};
use mysql_values::value::Value;
use std::alloc::{AllocError, Global};
use std::collections::BTreeMap;

/// How the call of this name went, if it stands here.
pub(crate) fn case(alloc: Global, name: &str) -> Option<Case> {
    if let Some(row) = row(SORTED, name) {
        return Some(sorted_bound(alloc, row));
    }
    if let Some(row) = row(FRAGMENTS, name) {
        return Some(fragments_bound(alloc, row));
    }
    if let Some(row) = row(PARAMS, name) {
        return Some(params_bound(alloc, row));
    }
    match name {
        "bind into room that is too short" => Some(too_short(alloc)),
        _ => None,
    }
}

/// A query, names and values, a purpose, the text or the refusal, and whether the call asks for
/// memory.
type SortedRow = (
    &'static [u8],
    &'static [(&'static [u8], Plain<'static>)],
    Purpose,
    Wanted,
    Memory,
);

/// A text and NULL for names that differ by their case alone.
const TWO: &[(&[u8], Plain)] = &[(b"A", Bytes(b"it's")), (b"a", Null)];

const MISSING_B: &str = "Values(Params(Missing(MissingNamedParameterError([66]))))";

const FOR_MARKS: &str = "Values(Params(Confusion(NamedParamsForPositionalQuery)))";

const SORTED: &[(&str, SortedRow)] = cases! {
    "bind of a sorted map" => b":A, :a", TWO, WIDE, Ok(b"'it\\'s', NULL"), Asked;
    "bind of a sorted map anywhere" =>
        b":A, :a", TWO, WIDE_ANYWHERE, Ok(b"_utf8mb4'it''s', NULL"), Asked;
    "bind of a sorted map with a missing name" => b":B", TWO, WIDE, Err(MISSING_B), Asked;
    "bind of a sorted map for marks" => b"?", TWO, WIDE, Err(FOR_MARKS), Asked;
    "bind of a sorted map for names and marks" =>
        b":A ?", TWO, WIDE, Err("Values(Mixed)"), Never;
};

fn sorted(
    alloc: Global,
    plain: &[(&[u8], Plain<'_>)],
) -> Result<BTreeMap<Vec<u8>, Value>, AllocError> {
    let mut entries = BTreeMap::new(alloc);
    for (name, value) in plain {
        let value = value.value(alloc)?;
        entries.insert(Vec::from_slice(alloc, *name)?, value)?;
    }
    Ok(entries)
}

fn sorted_bound(alloc: Global, (query, plain, purpose, wanted, memory): SortedRow) -> Case {
    let entries = sorted(alloc, plain)?;
    Ok(judged(bind(alloc, query, &entries, purpose), wanted).with(memory))
}

/// A query, fragments, a purpose, the text or the refusal, and whether the call asks for memory.
type FragmentsRow = (&'static [u8], InPlaces, Purpose, Wanted, Memory);

const LIST: InPlaces = InOrder(&[List(&[Item(Bytes(b"it's")), Number(b"2.5")])]);

const NAME: InPlaces = ByName(&[(b"A", Identifier(b"n"))]);

/// A name of a column with a byte from 128 on.
const UMLAUT: InPlaces = InOrder(&[Identifier(b"\xC3\xBC")]);

const MISSING_FRAGMENT: &str = "Fragments(Missing(MissingNamedParameterError([66])))";

const FRAGMENTS: &[(&str, FragmentsRow)] = cases! {
    "bind of fragments" => b"a IN (?)", LIST, WIDE, Ok(b"a IN ('it\\'s', 2.5)"), Asked;
    "bind of fragments without backslash escapes" =>
        b"a IN (?)", LIST, WIDE_WITHOUT_BACKSLASHES, Ok(b"a IN ('it''s', 2.5)"), Asked;
    "bind of fragments anywhere" =>
        b"a IN (?)", LIST, WIDE_ANYWHERE, Ok(b"a IN (_utf8mb4'it''s', 2.5)"), Asked;
    "bind of fragments in both modes" =>
        b"'\xC3\xBC' IN (?)", LIST, WIDE_IN_BOTH_MODES,
        Ok(b"'\xC3\xBC' IN (_utf8mb4'it''s', 2.5)"), Asked;
    "bind of fragments for names and marks" => b":A ?", NAME, WIDE, Err("Fragments(Mixed)"), Never;
    "bind of fragments for names and marks in both modes" =>
        b":A ?", NAME, WIDE_IN_BOTH_MODES, Err("Fragments(Mixed)"), Never;
    "bind of fragments for an unsteady query" =>
        b"x\\:A", NAME, WIDE_IN_ANY_MODE, Err("Query(Unsteady { at: 1 })"), Never;
    "bind of fragments for a backslash in a string" =>
        b"'\\\\':A", NAME, WIDE_IN_BOTH_MODES, Err("Query(Backslash { at: 1 })"), Never;
    "bind of fragments with a missing name" => b":B", NAME, WIDE, Err(MISSING_FRAGMENT), Asked;
    "bind of fragments with a missing name in both modes" =>
        b":B", NAME, WIDE_IN_BOTH_MODES, Err(MISSING_FRAGMENT), Asked;
    "bind of fragments with a name that is not steady" =>
        b"?", UMLAUT, WIDE_ANYWHERE, Err("UnsteadyFragment { place: 0 }"), Asked;
    "bind of fragments with a name that is not steady in both modes" =>
        b"?", UMLAUT, WIDE_IN_BOTH_MODES, Err("UnsteadyFragment { place: 0 }"), Asked;
};

fn fragments_bound(alloc: Global, (query, given, purpose, wanted, memory): FragmentsRow) -> Case {
    let fragments = given.fragments(alloc)?;
    Ok(judged(bind(alloc, query, &fragments, purpose), wanted).with(memory))
}

/// Where the call puts the text.
#[derive(Clone, Copy)]
enum Put {
    Behind,
    Room,
}

/// A place for the text, a query, what is given, the text or the refusal, and whether the call asks
/// for memory. It is for any connection to any server.
type ParamsRow = (Put, &'static [u8], Given<'static>, Wanted, Memory);

const FIVE: Given = Positional(&[Int(5)]);

const PARAMS: &[(&str, ParamsRow)] = cases! {
    "append of a value" => Put::Behind, b"x=?", FIVE, Ok(b"xyx=5"), Asked;
    "append of too few values" =>
        Put::Behind, b"?, ?", FIVE, Err("Values(MarkCount { marks: 2, values: 1 })"), Asked;
    "append of names and marks" => Put::Behind, b":A ?", Empty, Err("Values(Mixed)"), Never;
    "bind into room of a value" => Put::Room, b"x=?", FIVE, Ok(b"x=5"), Asked;
    "bind into room of too few values" =>
        Put::Room, b"?, ?", FIVE, Err("Values(MarkCount { marks: 2, values: 1 })"), Asked;
    "bind into room of an unsteady query" =>
        Put::Room, b"x\\:A", Empty, Err("Query(Unsteady { at: 1 })"), Never;
};

fn params_bound(alloc: Global, (put, query, given, wanted, memory): ParamsRow) -> Case {
    let outcome = match put {
        Put::Behind => appended(alloc, query, given, wanted)?,
        Put::Room => in_room(alloc, query, given, wanted)?,
    };
    Ok(outcome.with(memory))
}

fn appended(alloc: Global, query: &[u8], given: Given<'_>, wanted: Wanted) -> Case {
    let params = given.params(alloc)?;
    let mut text = Vec::from_slice(alloc, b"xy")?;
    Ok(
        match append(alloc, query, &params, WIDE_ANYWHERE, &mut text) {
            Ok(()) => judged::<Vec<u8>, &[u8], BindRefusal>(Ok(text), wanted),
            Err(refusal) => judged::<Vec<u8>, &[u8], BindRefusal>(Err(refusal), wanted).if_holds(
                text.as_slice() == b"xy".as_slice(),
            ),
        },
    )
}

/// A caller's room, before a call.
const ROOM: &[u8; 8] = b"........";

fn in_room(alloc: Global, query: &[u8], given: Given<'_>, wanted: Wanted) -> Case {
    let params = given.params(alloc)?;
    let mut room = *ROOM;
    let told = bind_into(alloc, query, &params, WIDE_ANYWHERE, &mut room);
    Ok(told_in_room(told, &room, ROOM, wanted))
}

impl Is<TextInRoom> for TextInRoom {
    fn is(&self, wanted: TextInRoom) -> bool {
        *self == wanted
    }
}

fn too_short(alloc: Global) -> Case {
    let params = FIVE.params(alloc)?;
    let mut room = [7u8; 2];
    let told = bind_into(alloc, b"x=?", &params, WIDE_ANYWHERE, &mut room);
    let outcome: Outcome = judged(told, Ok(TextInRoom::TooShort { len: 3 }));
    Ok(outcome.if_holds(room == [7, 7]))
}
