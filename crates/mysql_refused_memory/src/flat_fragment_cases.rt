//! Fragments in the flat form, read and bound into the caller's room.
use crate::fragment_inputs::InPlaces;
use crate::fragment_inputs::InPlaces::{Named, Positional};
use crate::fragment_inputs::PlainFragment::{Assignments, Identifier, Identifiers, List, Value};
use crate::fragment_inputs::PlainItem::{Decimal as Number, Value as Item};
use crate::inputs::Plain::{Int, Null};
use crate::outcome::Memory::{Asked, Never};
use crate::outcome::{Case, Memory, Outcome, cases, judged, row};
use mysql_flat_params::{
    FragmentsOutcome, Outcome as Told, bind_fragments_anywhere_into, bind_fragments_into,
    bind_wide_fragments_guarded_into, form_fragments,
};
use mysql_fragments::FragmentFault;
use std::alloc::Global;

/// How the call of this name went, if it stands here.
pub(crate) fn case(alloc: Global, name: &str) -> Option<Case> {
    if let Some((row, no_backslash_escape)) = row(BOUND, name) {
        return Some(Ok(bound(alloc, row, no_backslash_escape)));
    }
    if let Some(row) = row(ANYWHERE, name) {
        return Some(Ok(bound_anywhere(alloc, row)));
    }
    if let Some((row, no_backslash_escape)) = row(GUARDED, name) {
        return Some(Ok(bound_guarded(alloc, row, no_backslash_escape)));
    }
    let (form, wanted, memory) = row(FORMS, name)?;
    Some(Ok(judged(form_fragments(alloc, form), wanted).with(memory)))
}

/// A form, its fragments or how the refusal is shown, and whether reading asks for memory.
type FormRow = (&'static [u8], Result<InPlaces, &'static str>, Memory);

/// A list of 7, -1.50 and NULL, by position.
const LIST: &[u8] = b"\0\x81\0\x03\0\0\0\x01\0\x07\x80\0\x05-1.50\x06\0";

/// The identifier `t` for `t`, and the number -3 for `a`.
const NAME_AND_NUMBER: &[u8] = b"\x01t\x83\0\x01t\x01a\x01\0\xFD";

const NAME_ALONE: &[u8] = b"\x01t\x83\0\x01t";

/// The columns `a` and `t`.`b`, by position.
const COLUMNS: &[u8] = b"\0\x86\0\x02\0\0\0\x01\0\0\0\x01a\x02\0\0\0\x01t\x01b";

/// An implicit list of 7, by position.
const IMPLICIT: &[u8] = b"\0\x88\0\x01\0\0\0\x01\0\x07";

/// An implicit list of 7 for `t`.
const IMPLICIT_BY_NAME: &[u8] = b"\x01t\x88\0\x01\0\0\0\x01\0\x07";

/// `a` set to 1, and `t`.`b` to -1.50, by position.
const CHANGES: &[u8] = b"\0\x87\0\x02\0\0\0\x01\0\0\0\x01a\x01\0\x01\
    \x02\0\0\0\x01t\x01b\x80\0\x05-1.50";

const FORMS: &[(&str, FormRow)] = cases! {
    "form_fragments of a list" =>
        LIST, Ok(Positional(&[List(&[Item(Int(7)), Number(b"-1.50"), Item(Null)])])), Asked;
    "form_fragments of two names" =>
        NAME_AND_NUMBER, Ok(Named(&[(b"a", Value(Int(-3))), (b"t", Identifier(b"t"))])), Asked;
    "form_fragments of columns" =>
        COLUMNS, Ok(Positional(&[Identifiers(&[&[b"a"], &[b"t", b"b"]])])), Asked;
    "form_fragments of assignments" =>
        CHANGES, Ok(Positional(&[Assignments(&[
            (&[b"a"], Item(Int(1))),
            (&[b"t", b"b"], Number(b"-1.50")),
        ])])), Asked;
    "form_fragments of nothing" => b"", Ok(Positional(&[])), Never;
    "form_fragments of a list that is cut" =>
        b"\0\x81\0\x02\0\0\0\x06\0", Err("End { place: 0, position: 0 }"), Asked;
};

/// What stands in the room, or the refusal.
pub(crate) type Wanted = Result<&'static [u8], FragmentsOutcome>;

/// A query, a form, the answer or refusal, and whether the call asks for memory.
type BoundRow = (&'static [u8], &'static [u8], Wanted, Memory);

const NOT_ALONE: FragmentsOutcome = FragmentsOutcome::AsValues(Told::NotAlone {
    place: 0,
    position: 1,
});

const MISSING: FragmentsOutcome = FragmentsOutcome::AsValues(Told::Missing {
    place: 0,
    position: 1,
    len: 1,
});

const CUT: FragmentsOutcome = FragmentsOutcome::AsValues(Told::FormEnd {
    place: 0,
    position: 0,
});

const MARKS: FragmentsOutcome = FragmentsOutcome::AsValues(Told::MarkCount {
    marks: 2,
    values: 1,
});

const TOO_SHORT: FragmentsOutcome = FragmentsOutcome::AsValues(Told::Room { len: 40 });

const EMPTY: FragmentsOutcome = FragmentsOutcome::Fault {
    place: 0,
    fault: FragmentFault::Empty,
};

const UNBRACKETED: FragmentsOutcome = FragmentsOutcome::Unbracketed {
    place: 0,
    position: 2,
};

const UNPORTABLE: FragmentsOutcome = FragmentsOutcome::AsValues(Told::Unportable {
    number: 6,
    position: 0,
});

/// The same, and the mode.
const BOUND: &[(&str, (BoundRow, bool))] = cases! {
    "bind_fragments_into of a list" =>
        (b"a IN (?)", LIST, Ok(b"a IN (7, -1.50, NULL)"), Asked), false;
    "bind_fragments_into of two names" =>
        (b"(:a), :t", NAME_AND_NUMBER, Ok(b"(-3), `t`"), Asked), false;
    "bind_fragments_into of rows" =>
        (b"VALUES ?", b"\0\x82\0\x02\0\0\0\x01\0\0\0\x01\0\x01\x01\0\0\0\xFD\0\x02it",
        Ok(b"VALUES (1), ('it')"), Asked), false;
    "bind_fragments_into of names and a keyword" =>
        (b"? ?", b"\0\x84\0\x02\0\0\0\x02db\x01t\0\x85\0\x04DESC", Ok(b"`db`.`t` DESC"), Asked),
        false;
    "bind_fragments_into of columns" =>
        (b"(?)", COLUMNS, Ok(b"(`a`, `t`.`b`)"), Asked), false;
    "bind_fragments_into of assignments" =>
        (b"SET ?", CHANGES, Ok(b"SET `a` = 1, `t`.`b` = -1.50"), Asked), false;
    "bind_fragments_into of a text without backslash escapes" =>
        (b"'\\', ?", b"\0\xFD\0\x02'\\", Ok(b"'\\', '''\\'"), Asked), true;
    "bind_fragments_into of a room that is too short" =>
        (b"? /* a comment that is longer */, ?", b"\0\x83\0\x01t\0\x06\0",
        Err(TOO_SHORT), Asked), false;
    "bind_fragments_into of a list that is cut" =>
        (b"?", b"\0\x81\0\x02\0\0\0\x06\0", Err(CUT), Asked), false;
    "bind_fragments_into of a form with an unknown type" =>
        (b"?", b"\0\x8A\0", Err(FragmentsOutcome::AsValues(Told::FormType {
            place: 0,
            position: 0,
            number: 0x8A,
        })), Never), false;
    "bind_fragments_into of names and marks" =>
        (b":t ?", NAME_ALONE, Err(FragmentsOutcome::AsValues(Told::Mixed)), Asked), false;
    "bind_fragments_into of a missing name" => (b":b", NAME_ALONE, Err(MISSING), Asked), false;
    "bind_fragments_into of named fragments for marks" =>
        (b"?", NAME_ALONE, Err(FragmentsOutcome::AsValues(Told::NamedForPositional)), Asked), false;
    "bind_fragments_into of fragments for names" =>
        (b":t", LIST, Err(FragmentsOutcome::AsValues(Told::PositionalForNamed)), Asked), false;
    "bind_fragments_into of too few fragments" => (b"? ?", LIST, Err(MARKS), Asked), false;
    "bind_fragments_into of a place that does not stand alone" =>
        (b"x:t", NAME_ALONE, Err(NOT_ALONE), Asked), false;
    "bind_fragments_into of a float" =>
        (b"?", b"\0\x04\0\0\0\x80\x7F", Err(FragmentsOutcome::AsValues(Told::Float {
            place: 0
        })), Asked), false;
    "bind_fragments_into of an empty list" =>
        (b"(?)", b"\0\x81\0\0\0\0\0", Err(EMPTY), Asked), false;
    "bind_fragments_into of an implicit list" =>
        (b"IN (?)", IMPLICIT, Ok(b"IN (7)"), Asked), false;
    "bind_fragments_into of an implicit list by name" =>
        (b"IN (:t)", IMPLICIT_BY_NAME, Ok(b"IN (7)"), Asked), false;
    "bind_fragments_into of an implicit list without brackets" =>
        (b"f(:t)", IMPLICIT_BY_NAME, Err(UNBRACKETED), Asked), false;
};

const ANYWHERE: &[(&str, BoundRow)] = cases! {
    "bind_fragments_anywhere_into of a text and a name" =>
        b"? = ?", b"\0\x83\0\x01t\0\xFC\0\x04it's", Ok(b"`t` = _utf8mb4'it''s'"), Asked;
    "bind_fragments_anywhere_into of an unsteady query" =>
        b"\\:t", NAME_ALONE, Err(FragmentsOutcome::AsValues(Told::Unsteady { position: 0 })), Asked;
    "bind_fragments_anywhere_into of a query that is not portable" =>
        b"[:t", NAME_ALONE, Err(UNPORTABLE), Asked;
    "bind_fragments_anywhere_into of a missing name" => b":b", NAME_ALONE, Err(MISSING), Asked;
    "bind_fragments_anywhere_into of an empty list" =>
        b"(?)", b"\0\x81\0\0\0\0\0", Err(EMPTY), Asked;
    "bind_fragments_anywhere_into of a name that is not steady" =>
        b"?, ?", b"\0\x06\0\0\x83\0\x02\xC3\xA9",
        Err(FragmentsOutcome::UnsteadyFragment { place: 1 }), Asked;
    "bind_fragments_anywhere_into of an implicit list without brackets" =>
        b"f(:t)", IMPLICIT_BY_NAME, Err(UNBRACKETED), Asked;
};

/// The same, and the mode.
const GUARDED: &[(&str, (BoundRow, bool))] = cases! {
    "bind_wide_fragments_guarded_into of a text and a name" =>
        (b"? = ?", b"\0\x83\0\x01t\0\xFC\0\x05it's\\", Ok(b"`t` = 'it''s\\\\'"), Asked),
        false;
    "bind_wide_fragments_guarded_into of a name with a capital" =>
        (b"/*! */ :Ab", b"\x02Ab\xFC\0\x01\\", Ok(b"/*! */ _utf8mb4 0x5C"), Asked), true;
    "bind_wide_fragments_guarded_into of a room that is too short" =>
        (b"? /* a comment that is longer */, ?", b"\0\x83\0\x01t\0\x06\0",
        Err(TOO_SHORT), Asked), false;
    "bind_wide_fragments_guarded_into of an unsteady query" =>
        (b"\\:t", NAME_ALONE, Err(FragmentsOutcome::AsValues(Told::Unsteady { position: 0 })),
        Asked), false;
    "bind_wide_fragments_guarded_into of a query that is not portable" =>
        (b"[:T", NAME_ALONE, Err(UNPORTABLE), Asked), false;
    "bind_wide_fragments_guarded_into of a missing name" =>
        (b":B", NAME_ALONE, Err(MISSING), Asked), false;
    "bind_wide_fragments_guarded_into of a name that is not steady" =>
        (b"?, ?", b"\0\x06\0\0\x83\0\x02\xC3\xA9",
        Err(FragmentsOutcome::UnsteadyFragment { place: 1 }), Asked), false;
};

/// A caller's room, before a call.
const ROOM: &[u8; 32] = &[b'*'; 32];

fn bound(
    alloc: Global,
    (query, form, wanted, memory): BoundRow,
    no_backslash_escape: bool,
) -> Outcome {
    let mut room = *ROOM;
    let told = bind_fragments_into(alloc, query, form, no_backslash_escape, &mut room);
    written(told, &room, wanted).with(memory)
}

fn bound_anywhere(alloc: Global, (query, form, wanted, memory): BoundRow) -> Outcome {
    let mut room = *ROOM;
    let told = bind_fragments_anywhere_into(alloc, query, form, &mut room);
    written(told, &room, wanted).with(memory)
}

fn bound_guarded(
    alloc: Global,
    (query, form, wanted, memory): BoundRow,
    no_backslash_escape: bool,
) -> Outcome {
    let mut room = *ROOM;
    let told = bind_wide_fragments_guarded_into(alloc, query, form, no_backslash_escape, &mut room);
    written(told, &room, wanted).with(memory)
}

/// How a call went that may write into the room.
pub(crate) fn written(told: FragmentsOutcome, room: &[u8], wanted: Wanted) -> Outcome {
    let is_untouched = room == ROOM.as_slice();
    if told == FragmentsOutcome::AsValues(Told::OutOfMemory) {
        return Outcome::Memory.if_holds(is_untouched);
    }
    match wanted {
        Ok(text) => {
            let done = FragmentsOutcome::AsValues(Told::Done { len: text.len() });
            Outcome::Answer.if_holds(told == done && is_written(room, text))
        }
        Err(refusal) => Outcome::Refusal.if_holds(told == refusal && is_untouched),
    }
}

/// Whether the room has the text in front, and is as before after it.
fn is_written(room: &[u8], text: &[u8]) -> bool {
    match room.strip_prefix(text) {
        Some(rest) => ROOM.get(text.len()..) == Some(rest),
        None => false,
    }
}
