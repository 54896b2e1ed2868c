//! The calls of the archive by wide names, which may have capitals.
use crate::archive_cases::{ROOM, Wanted, written};
use crate::flat_fragment_cases::written as fragments_written;
use crate::outcome::Memory::{Asked, Never};
use crate::outcome::{Case, Memory, Outcome, cases, row};
use mysql_flat_params::{
    FragmentsOutcome, Outcome as Told, Reading, bind_fragments_into_read, bind_into_read,
    bind_wide_anywhere_into, bind_wide_fragments_anywhere_into, bind_wide_in_both_modes_into,
    names_into_read,
};
use std::alloc::Global;

/// How the call of this name went, if it stands here.
pub(crate) fn case(alloc: Global, name: &str) -> Option<Case> {
    if let Some(row) = row(BOUND, name) {
        return Some(Ok(bound(alloc, row)));
    }
    if let Some(row) = row(FRAGMENTS, name) {
        return Some(Ok(fragments_bound(alloc, row)));
    }
    Some(Ok(names_written(alloc, row(NAMES, name)?)))
}

/// Which call binds, and the mode of one that takes it.
#[derive(Clone, Copy)]
enum Call {
    Read(bool),
    Anywhere,
    BothModes,
}

/// The reading by wide names in a mode.
fn wide(no_backslash_escape: bool) -> Reading {
    Reading {
        no_backslash_escape,
        wide_names: true,
    }
}

/// A call, a query, a form, the answer or refusal, and whether the call asks for memory.
type BoundRow = (Call, &'static [u8], &'static [u8], Wanted, Memory);

/// The number -3 for `Ab`, and a text.
const NUMBER: &[u8] = b"\x02Ab\x01\x00\xFD";

const TEXT: &[u8] = b"\x02Ab\xFC\x00\x04it's";

const FLOAT: &[u8] = b"\x02Ab\x04\x00\x00\x00\x80\x3F";

const LONG_QUERY: &[u8] = b":Ab /* a comment that is longer than it */";

/// The number -3 for `ab`.
const LOWER: &[u8] = b"\x02ab\x01\x00\xFD";

const BRACKET: Wanted = Err(Told::Unportable {
    number: 6,
    position: 0,
});

const MISSING: Wanted = Err(Told::Missing {
    place: 0,
    position: 1,
    len: 1,
});

const NOT_ALONE: Wanted = Err(Told::NotAlone {
    place: 0,
    position: 3,
});

const BOUND: &[(&str, BoundRow)] = cases! {
    "bind_into_read of a name with a capital" =>
        Call::Read(false), b"(:Ab-10)", NUMBER, Ok(b"(-3-10)"), Asked;
    "bind_into_read of a text without backslash escapes" =>
        Call::Read(true), b"'\\', :Ab", TEXT, Ok(b"'\\', 'it''s'"), Asked;
    "bind_into_read of a name without capitals" =>
        Call::Read(false), b"':Ab', :ab", LOWER, Ok(b"':Ab', -3"), Asked;
    "bind_into_read of nothing" => Call::Read(false), b"':Ab'", b"", Ok(b"':Ab'"), Never;
    "bind_into_read of names and marks" =>
        Call::Read(false), b":Ab ?", b"", Err(Told::Mixed), Never;
    "bind_into_read of a room that is too short" =>
        Call::Read(false), LONG_QUERY, NUMBER, Err(Told::Room { len: 41 }), Asked;
    "bind_into_read of a missing name" => Call::Read(false), b":A", NUMBER, MISSING, Asked;
    "bind_into_read of values for names" =>
        Call::Read(false), b":Ab", b"\x00\x06\x00", Err(Told::PositionalForNamed), Asked;
    "bind_into_read of named parameters for marks" =>
        Call::Read(false), b"?", NUMBER, Err(Told::NamedForPositional), Asked;
    "bind_into_read of a float" => Call::Read(false), b":Ab", FLOAT, Err(Told::Float { place: 0 }),
        Asked;
    "bind_into_read of a place that does not stand alone" =>
        Call::Read(false), b"lbl:Ab", NUMBER, NOT_ALONE, Asked;
    "bind_wide_anywhere_into of a name with a capital" =>
        Call::Anywhere, b"= :Ab", TEXT, Ok(b"= _utf8mb4'it''s'"), Asked;
    "bind_wide_anywhere_into of a query in doubt" =>
        Call::Anywhere, b"/*! */ :Ab", NUMBER, Ok(b"/*! */ -3"), Asked;
    "bind_wide_anywhere_into of a name without capitals" =>
        Call::Anywhere, b"/*! */ :ab", LOWER, Ok(b"/*! */ -3"), Asked;
    "bind_wide_anywhere_into of an unsteady query" =>
        Call::Anywhere, b"\\:Ab ?", b"", Err(Told::Unsteady { position: 0 }), Never;
    "bind_wide_anywhere_into of a query that is not portable" =>
        Call::Anywhere, b"[:Ab ?", b"", BRACKET, Never;
    "bind_wide_anywhere_into of a query that is not portable without capitals" =>
        Call::Anywhere, b"[:ab ?", b"", BRACKET, Never;
    "bind_wide_anywhere_into of names and marks" =>
        Call::Anywhere, b"/*! */ :Ab ?", b"", Err(Told::Mixed), Never;
    "bind_wide_anywhere_into of names and marks without capitals" =>
        Call::Anywhere, b"/*! */ :ab ?", b"", Err(Told::Mixed), Never;
    "bind_wide_anywhere_into of a missing name" => Call::Anywhere, b":A", NUMBER, MISSING, Asked;
    "bind_wide_in_both_modes_into of a name with a capital" =>
        Call::BothModes, b"\xFF= :Ab", TEXT, Ok(b"\xFF= _utf8mb4'it''s'"), Asked;
    "bind_wide_in_both_modes_into of a query in doubt" =>
        Call::BothModes, b"/*! */ :Ab", NUMBER, Ok(b"/*! */ -3"), Asked;
    "bind_wide_in_both_modes_into of a name without capitals" =>
        Call::BothModes, b"\xFF= :ab", LOWER, Ok(b"\xFF= -3"), Asked;
    "bind_wide_in_both_modes_into of a backslash in a string" =>
        Call::BothModes, b"'\\':Ab ?", b"", Err(Told::Backslash { position: 1 }), Never;
    "bind_wide_in_both_modes_into of a query that is not portable" =>
        Call::BothModes, b"[:Ab ?", b"", BRACKET, Never;
    "bind_wide_in_both_modes_into of a query that is not portable without capitals" =>
        Call::BothModes, b"[:ab ?", b"", BRACKET, Never;
    "bind_wide_in_both_modes_into of names and marks" =>
        Call::BothModes, b"/*! */ :Ab ?", b"", Err(Told::Mixed), Never;
    "bind_wide_in_both_modes_into of names and marks without capitals" =>
        Call::BothModes, b"/*! */ :ab ?", b"", Err(Told::Mixed), Never;
    "bind_wide_in_both_modes_into of a missing name" =>
        Call::BothModes, b":A", NUMBER, MISSING, Asked;
};

fn bound(alloc: Global, (call, query, form, wanted, memory): BoundRow) -> Outcome {
    let mut room = *ROOM;
    let told = match call {
        Call::Read(mode) => bind_into_read(alloc, query, form, wide(mode), &mut room),
        Call::Anywhere => bind_wide_anywhere_into(alloc, query, form, &mut room),
        Call::BothModes => bind_wide_in_both_modes_into(alloc, query, form, &mut room),
    };
    written(told, &room, wanted).with(memory)
}

/// A call, not for both modes, a query, a form, the answer or refusal of values, and whether the
/// call asks for memory.
type FragmentsRow = (Call, &'static [u8], &'static [u8], Wanted, Memory);

/// A list of 7 and -1.50 for `Ids`, and the identifier `t` for `ids`.
const NAME_AND_LIST: &[u8] = b"\x03Ids\x81\0\x02\0\0\0\x01\0\x07\x80\0\x05-1.50\x03ids\x83\0\x01t";

/// The identifier `t` for `Ids`.
const NAME: &[u8] = b"\x03Ids\x83\0\x01t";

const FRAGMENTS: &[(&str, FragmentsRow)] = cases! {
    "bind_fragments_into_read of a name and a list" =>
        Call::Read(false), b":ids IN (:Ids)", NAME_AND_LIST, Ok(b"`t` IN (7, -1.50)"), Asked;
    "bind_fragments_into_read of a name without backslash escapes" =>
        Call::Read(true), b"'\\', :Ids", NAME, Ok(b"'\\', `t`"), Asked;
    "bind_fragments_into_read of names and marks" =>
        Call::Read(false), b":Ids ?", NAME, Err(Told::Mixed), Asked;
    "bind_fragments_into_read of a missing name" => Call::Read(false), b":A", NAME, MISSING, Asked;
    "bind_fragments_into_read of a place that does not stand alone" =>
        Call::Read(false), b"lbl:Ids", NAME, NOT_ALONE, Asked;
    "bind_wide_fragments_anywhere_into of a name and a list" =>
        Call::Anywhere, b":ids IN (:Ids)", NAME_AND_LIST, Ok(b"`t` IN (7, -1.50)"), Asked;
    "bind_wide_fragments_anywhere_into of an unsteady query" =>
        Call::Anywhere, b"\\:Ids", NAME, Err(Told::Unsteady { position: 0 }), Asked;
    "bind_wide_fragments_anywhere_into of a query that is not portable" =>
        Call::Anywhere, b"[ :Ids", NAME, BRACKET, Asked;
    "bind_wide_fragments_anywhere_into of a missing name" =>
        Call::Anywhere, b":A", NAME, MISSING, Asked;
};

fn fragments_bound(alloc: Global, (call, query, form, wanted, memory): FragmentsRow) -> Outcome {
    let mut room = *ROOM;
    let told = match call {
        Call::Read(mode) => bind_fragments_into_read(alloc, query, form, wide(mode), &mut room),
        _ => bind_wide_fragments_anywhere_into(alloc, query, form, &mut room),
    };
    let wanted = match wanted {
        Ok(text) => Ok(text),
        Err(refusal) => Err(FragmentsOutcome::AsValues(refusal)),
    };
    fragments_written(told, &room, wanted).with(memory)
}

/// A query, the mode, the answer or refusal, and whether the call asks for memory.
type NamesRow = (&'static [u8], bool, Wanted, Memory);

const NAMES: &[(&str, NamesRow)] = cases! {
    "names_into_read of two names" => b":Ab :b", false, Ok(b"\x03? ?\x02Ab\x01b"), Asked;
    "names_into_read of a name without backslash escapes" =>
        b"'\\':Ab", true, Ok(b"\x04'\\'?\x02Ab"), Asked;
    "names_into_read of no names" => b"':A'", false, Ok(b"\x04':A'"), Never;
    "names_into_read of names and marks" => b":A ?", false, Err(Told::Mixed), Never;
};

fn names_written(alloc: Global, (query, mode, wanted, memory): NamesRow) -> Outcome {
    let mut room = *ROOM;
    let told = names_into_read(alloc, query, wide(mode), &mut room);
    written(told, &room, wanted).with(memory)
}
