//! The calls of the archive, whose answer goes into the caller's room, and the reading of its form.
use crate::inputs::Given::{Empty, Named, Positional};
use crate::inputs::Plain::Bytes;
use crate::inputs::{Given, Plain};
use crate::outcome::Memory::{Asked, Never};
use crate::outcome::{Case, Memory, Outcome, cases, judged, row};
use mysql_flat_params::{
    Outcome as Told, bind_anywhere_into, bind_in_both_modes_into, bind_into, names_into,
    params_of_form,
};
use std::alloc::Global;

/// How the call of this name went, if it stands here.
pub(crate) fn case(alloc: Global, name: &str) -> Option<Case> {
    if let Some(row) = row(BOUND, name) {
        return Some(Ok(bound(alloc, row)));
    }
    if let Some(row) = row(ANYWHERE, name) {
        return Some(Ok(bound_anywhere(alloc, row)));
    }
    if let Some(row) = row(IN_BOTH_MODES, name) {
        return Some(Ok(bound_in_both_modes(alloc, row)));
    }
    if let Some(row) = row(NAMES, name) {
        return Some(Ok(names_written(alloc, row)));
    }
    let (form, given, memory) = row(FORMS, name)?;
    Some(Ok(judged(params_of_form(alloc, form), given).with(memory)))
}

/// A caller's room, before a call.
pub(crate) const ROOM: &[u8; 32] = &[b'*'; 32];

/// What stands in the room, or the refusal, which leaves the room as it was.
pub(crate) type Wanted = Result<&'static [u8], Told>;

/// How a call went that may write into the room.
pub(crate) fn written(told: Told, room: &[u8], wanted: Wanted) -> Outcome {
    let is_untouched = room == ROOM.as_slice();
    if told.number() == 1 {
        return Outcome::Memory.if_holds(is_untouched);
    }
    match wanted {
        Ok(text) => Outcome::Answer.if_holds(
            told == (Told::Done { len: text.len() })
                && told.number() == 0
                && is_written(room, text),
        ),
        Err(refusal) => Outcome::Refusal.if_holds(told == refusal && is_untouched),
    }
}

/// Whether the room has the text in front, and is as before after it.
fn is_written(room: &[u8], text: &[u8]) -> bool {
    match room.strip_prefix(text) {
        Some(rest) => ROOM.get(text.len()..) == Some(rest),
        None => false,
    }
}

/// A query, the answer or refusal, and whether the call asks for memory.
type NamesRow = (&'static [u8], Wanted, Memory);

// A room no longer than the query is too short before anything is written.
const LONG_NAMES: &[u8] = b":a :b /* a comment that is longer */";

const NAMES: &[(&str, NamesRow)] = cases! {
    "names_into of two names" => b":a :b", Ok(b"\x03? ?\x01a\x01b"), Asked;
    // A query without names is written without a vector of its own.
    "names_into of no names" => b"?", Ok(b"\x01?"), Never;
    "names_into of names and marks" => b":a ?", Err(Told::Mixed), Never;
    "names_into of a room that is too short" => LONG_NAMES, Err(Told::Room { len: 39 }), Never;
};

fn names_written(alloc: Global, (query, wanted, memory): NamesRow) -> Outcome {
    let mut room = *ROOM;
    let told = names_into(alloc, query, false, &mut room);
    written(told, &room, wanted).with(memory)
}

/// A form, its parameters or how the refusal is shown, and whether reading asks for memory.
type FormRow = (&'static [u8], Result<Given<'static>, &'static str>, Memory);

const AB: Plain = Bytes(b"ab");

const FORMS: &[(&str, FormRow)] = cases! {
    "params_of_form of a name" => b"\x01a\xFC\x00\x02ab", Ok(Named(&[(b"a", AB)])), Asked;
    "params_of_form of values" => b"\x00\xFC\x00\x02ab", Ok(Positional(&[AB])), Asked;
    "params_of_form of nothing" => b"", Ok(Empty), Never;
    "params_of_form of a cut form" =>
        b"\x01a\xFC\x00\x01x\x01b", Err("End { place: 1, position: 6 }"), Asked;
};

/// A query, a form, the answer or refusal, and whether the call asks for memory.
type BoundRow = (&'static [u8], &'static [u8], Wanted, Memory);

/// The number -3 for `a`, and by position.
const NUMBER_OF_A: &[u8] = b"\x01a\x01\x00\xFD";

const NUMBER: &[u8] = b"\x00\x01\x00\xFD";

/// A parameter with a name and one without, and two with one name.
const MIXED_FORM: &[u8] = b"\x01a\x01\x00\xFD\x00\x06\x00";

const REPEATED_FORM: &[u8] = b"\x01a\x01\x00\xFD\x01a\x06\x00";

const FLOAT_OF_A: &[u8] = b"\x01a\x04\x00\x00\x00\x80\x3F";

const LONG_QUERY: &[u8] = b":a /* a comment that is longer than it */";

const BOUND: &[(&str, BoundRow)] = cases! {
    "bind_into of a name" => b"(:a-10)", NUMBER_OF_A, Ok(b"(-3-10)"), Asked;
    "bind_into of a repeated name" => b":a%:a", b"\x01a\x01\x00\x05", Ok(b"5%5"), Asked;
    "bind_into of a text" => b"= ?", b"\x00\xFC\x00\x04it's", Ok(b"= 'it\\'s'"), Asked;
    "bind_into of values" => b"?,?", b"\x00\x01\x00\xFD\x00\x06\x00", Ok(b"-3,NULL"), Asked;
    "bind_into of nothing" => b"':a'", b"", Ok(b"':a'"), Never;
    "bind_into of a room that is too short" =>
        LONG_QUERY, NUMBER_OF_A, Err(Told::Room { len: 41 }), Asked;
    "bind_into of a cut form" =>
        b":a ?", b"\x01a\x01\x00", Err(Told::FormEnd { place: 0, position: 0, }), Asked;
    "bind_into of a form with a bad lead" =>
        b":a ?", b"\xFF", Err(Told::FormLengthLead { place: 0, position: 0, lead: 255, }), Asked;
    "bind_into of a form with an unknown type" =>
        b":a ?", b"\x01a\x15\x00", Err(Told::FormType { place: 0, position: 0, number: 21, }),
        Asked;
    "bind_into of a form with and without names" =>
        b":a ?", MIXED_FORM, Err(Told::FormMixed { place: 1, position: 5, }), Asked;
    "bind_into of a form with a repeated name" =>
        b":a ?", REPEATED_FORM, Err(Told::FormRepeated { place: 1, position: 6, len: 1, }), Asked;
    "bind_into of names and marks" => b":a ?", NUMBER, Err(Told::Mixed), Asked;
    "bind_into of a missing name" =>
        b":b", NUMBER_OF_A, Err(Told::Missing { place: 0, position: 1, len: 1, }), Asked;
    "bind_into of named parameters for marks" =>
        b"?", NUMBER_OF_A, Err(Told::NamedForPositional), Asked;
    "bind_into of values for names" => b":a", NUMBER, Err(Told::PositionalForNamed), Asked;
    "bind_into of too few values" =>
        b"?,?", NUMBER, Err(Told::MarkCount { marks: 2, values: 1, }), Asked;
    "bind_into of a place that does not stand alone" =>
        b"x:a", NUMBER_OF_A, Err(Told::NotAlone { place: 0, position: 1, }), Asked;
    "bind_into of a float" => b":a", FLOAT_OF_A, Err(Told::Float { place: 0 }), Asked;
};

fn bound(alloc: Global, (query, form, wanted, memory): BoundRow) -> Outcome {
    let mut room = *ROOM;
    let told = bind_into(alloc, query, form, false, &mut room);
    written(told, &room, wanted).with(memory)
}

/// A query, a form, the answer or refusal for any server or both modes, and whether the call asks
/// for memory.
type AnywhereRow = (&'static [u8], &'static [u8], Wanted, Memory);

const ANYWHERE: &[(&str, AnywhereRow)] = cases! {
    "bind_anywhere_into of a text" =>
        b"= ?", b"\x00\xFC\x00\x04it's", Ok(b"= _utf8mb4'it''s'"), Asked;
    "bind_anywhere_into of a room that is too short" =>
        LONG_QUERY, NUMBER_OF_A, Err(Told::Room { len: 41 }), Asked;
    "bind_anywhere_into of a cut form" =>
        b":a ?", b"\x01a\x01\x00", Err(Told::FormEnd { place: 0, position: 0, }), Never;
    "bind_anywhere_into of an unsteady query" =>
        b"\\:a ?", b"", Err(Told::Unsteady { position: 0 }), Never;
    "bind_anywhere_into of a query that is not portable" =>
        b"[:a ?", b"", Err(Told::Unportable { number: 6, position: 0, }), Never;
    "bind_anywhere_into of names and marks" => b":a ?", b"", Err(Told::Mixed), Never;
    "bind_anywhere_into of parameters for an unsteady query" =>
        b"\\:a", NUMBER_OF_A, Err(Told::Unsteady { position: 0 }), Asked;
    "bind_anywhere_into of a missing name" =>
        b":b", NUMBER_OF_A, Err(Told::Missing { place: 0, position: 1, len: 1, }), Asked;
};

fn bound_anywhere(alloc: Global, (query, form, wanted, memory): AnywhereRow) -> Outcome {
    let mut room = *ROOM;
    let told = bind_anywhere_into(alloc, query, form, &mut room);
    written(told, &room, wanted).with(memory)
}

const IN_BOTH_MODES: &[(&str, AnywhereRow)] = cases! {
    "bind_in_both_modes_into of a text" =>
        b"\xFF= ?", b"\x00\xFC\x00\x04it's", Ok(b"\xFF= _utf8mb4'it''s'"), Asked;
    "bind_in_both_modes_into of a room that is too short" =>
        LONG_QUERY, NUMBER_OF_A, Err(Told::Room { len: 41 }), Asked;
    "bind_in_both_modes_into of a cut form" =>
        b":a ?", b"\x01a\x01\x00", Err(Told::FormEnd { place: 0, position: 0, }), Never;
    "bind_in_both_modes_into of a backslash in a string" =>
        b"'\\':a ?", b"", Err(Told::Backslash { position: 1 }), Never;
    "bind_in_both_modes_into of a query that is not portable" =>
        b"[:a ?", b"", Err(Told::Unportable { number: 6, position: 0, }), Never;
    "bind_in_both_modes_into of names and marks" => b":a ?", b"", Err(Told::Mixed), Never;
    "bind_in_both_modes_into of parameters for a backslash in a string" =>
        b"'\\':a", NUMBER_OF_A, Err(Told::Backslash { position: 1 }), Asked;
    "bind_in_both_modes_into of a missing name" =>
        b":b", NUMBER_OF_A, Err(Told::Missing { place: 0, position: 1, len: 1, }), Asked;
};

fn bound_in_both_modes(alloc: Global, (query, form, wanted, memory): AnywhereRow) -> Outcome {
    let mut room = *ROOM;
    let told = bind_in_both_modes_into(alloc, query, form, &mut room);
    written(told, &room, wanted).with(memory)
}
