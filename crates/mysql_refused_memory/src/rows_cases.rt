//! Rows bound into the caller's room.
use crate::outcome::Memory::{Asked, Never};
use crate::outcome::{Case, Memory, Outcome, cases, row};
use mysql_flat_params::{Outcome as Told, Reading, bind_rows_into, bind_rows_into_read};
use std::alloc::Global;

/// How the call of this name went, if it stands here.
pub(crate) fn case(alloc: Global, name: &str) -> Option<Case> {
    if let Some(row) = row(BOUND, name) {
        return Some(Ok(bound(alloc, row, None)));
    }
    let (row, no_backslash_escape) = row(WIDE, name)?;
    Some(Ok(bound(alloc, row, Some(no_backslash_escape))))
}

/// A caller's room, before a call.
const ROOM: &[u8; 32] = &[b'*'; 32];

/// A query, the forms of rows, the texts, what is told, and whether the call asks for memory.
type RowsRow = (&'static [u8], &'static [u8], &'static [u8], Told, Memory);

/// The text `a`, and NULL.
const TWO_ROWS: &[u8] = b"\x05\x00\xFD\x00\x01a\x03\x00\x06\x00";

/// NULL, and nothing.
const ONE_ROW: &[u8] = b"\x03\x00\x06\x00\x00";

/// Sixteen times 1, of type TINY (1).
const SIXTEEN: &[u8] = b"\x40\0\x01\0\x01\0\x01\0\x01\0\x01\0\x01\0\x01\0\x01\
    \0\x01\0\x01\0\x01\0\x01\0\x01\0\x01\0\x01\0\x01\0\x01\0\x01\0\x01\0\x01\
    \0\x01\0\x01\0\x01\0\x01\0\x01\0\x01\0\x01\0\x01\0\x01\0\x01\0\x01\0\x01";

/// NULL, and the double 0.
const FLOAT_ROW: &[u8] = b"\x03\x00\x06\x00\x0B\x00\x05\x00\x00\x00\x00\x00\x00\x00\x00\x00";

const BOUND: &[(&str, RowsRow)] = cases! {
    "bind_rows_into of two rows" =>
        b"= ?", TWO_ROWS, b"\x05= 'a'\x06= NULL", Told::Done { len: 13 }, Never;
    "bind_rows_into of sixteen marks" => b"?,?,?,?,?,?,?,?,?,?,?,?,?,?,?,?", SIXTEEN,
        b"\x1F1,1,1,1,1,1,1,1,1,1,1,1,1,1,1,1", Told::Done { len: 32 }, Never;
    "bind_rows_into of no rows" => b":a ?", b"", b"", Told::Done { len: 0 }, Never;
    "bind_rows_into of a refused row" =>
        b"?", ONE_ROW, b"\x04NULL", Told::MarkCount { marks: 1, values: 0, }, Never;
    "bind_rows_into of a float" =>
        b"?", FLOAT_ROW, b"\x04NULL", Told::Float { place: 0 }, Asked;
    "bind_rows_into of more places than are kept" =>
        b"?????????????????", b"\x00", b"", Told::MarkCount { marks: 17, values: 0, }, Asked;
};

/// The text `it's` for `Ab`.
const WIDE_ROW: &[u8] = b"\x0A\x02Ab\xFD\x00\x04it's";

/// The same by wide names, in a mode. They have one row: for more the call also asks for memory
/// that it can do without, and answers if that is refused.
const WIDE: &[(&str, (RowsRow, bool))] = cases! {
    "bind_rows_into_read of a row" => (b"= :Ab", WIDE_ROW, b"\x09= 'it\\'s'",
        Told::Done { len: 10 }, Asked), false;
    "bind_rows_into_read of a row without backslash escapes" => (b"= :Ab", WIDE_ROW,
        b"\x09= 'it''s'", Told::Done { len: 10 }, Asked), true;
    "bind_rows_into_read of no rows" => (b":A ?", b"", b"", Told::Done { len: 0 }, Never), false;
    "bind_rows_into_read of a missing name" => (b"= :A", WIDE_ROW, b"",
        Told::Missing { place: 0, position: 3, len: 1, }, Asked), false;
};

// By wide names in the mode, or by those of the grammar.
fn bound(
    alloc: Global,
    (query, forms, texts, wanted, memory): RowsRow,
    wide: Option<bool>,
) -> Outcome {
    let mut room = *ROOM;
    let (rows, told) = match wide {
        None => bind_rows_into(alloc, query, forms, false, &mut room),
        Some(no_backslash_escape) => {
            let reading = Reading {
                no_backslash_escape,
                wide_names: true,
            };
            bind_rows_into_read(alloc, query, forms, reading, &mut room)
        }
    };
    if told.number() == 1 {
        // The rows before are kept.
        return Outcome::Memory
            .if_holds(is_written(&room, texts, rows.written))
            .with(memory);
    }
    let holds = told == wanted && rows.written == texts.len();
    let holds = holds && is_written(&room, texts, rows.written);
    match told {
        Told::Done { .. } => Outcome::Answer.if_holds(holds).with(memory),
        _ => Outcome::Refusal.if_holds(holds).with(memory),
    }
}

/// Whether the room has so many bytes of the texts in front, and is as before after them.
fn is_written(room: &[u8], texts: &[u8], len: usize) -> bool {
    room.get(..len) == texts.get(..len) && room.get(len..) == ROOM.get(len..)
}
