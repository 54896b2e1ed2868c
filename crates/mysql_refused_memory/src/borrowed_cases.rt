//! Borrowed values: copied, written, converted, and read in rows.
use crate::inputs::Plain::Bytes;
use crate::outcome::Memory::{Asked, Never};
use crate::outcome::{Case, Memory, Outcome, cases, holds, judged, row};
use crate::wire_cases::appended;
use mysql_values::value::convert::{FromValueRef, copied_bytes, copied_text};
use mysql_values::value::{
    BinaryRowError, ValueRef, read_binary_cells_into, read_null_bitmap, read_text_cells_into,
};
use mysql_wire_part::{ColumnFlags, ColumnType, Flags, MySerialize, ParseBuf, WireError};
use std::alloc::{AllocError, Global};

/// How the call of this name went, if it stands here.
pub(crate) fn case(alloc: Global, name: &str) -> Option<Case> {
    if let Some(row) = row(ROWS, name) {
        return Some(row_read(alloc, row));
    }
    let case = match row(CALLS, name)? {
        Call::ToValue => Ok(judged(TEXT.to_value(alloc), Ok(Bytes(b"ab")))),
        Call::ToValueOfNumber => holds(ValueRef::Int(7).to_value(alloc).is_ok()),
        Call::AsSql => Ok(judged(TEXT.as_sql(alloc, false), Ok("'ab'"))),
        Call::Serialize => serialized(alloc),
        Call::CopiedText => Ok(judged(present(copied_text(alloc, TEXT)), Ok("ab"))),
        Call::CopiedBytes => Ok(judged(present(copied_bytes(alloc, TEXT)), Ok(b"ab".as_slice()))),
        Call::NothingCopied => holds(are_none(alloc)),
        Call::Converted => holds(are_converted()),
        Call::NullBitmap => holds(has_nulls()),
    };
    Some(case)
}

const TEXT: ValueRef = ValueRef::Bytes(b"ab");

/// A call of borrowed values.
#[derive(Clone, Copy)]
enum Call {
    ToValue,
    ToValueOfNumber,
    AsSql,
    Serialize,
    CopiedText,
    CopiedBytes,
    NothingCopied,
    Converted,
    NullBitmap,
}

const CALLS: &[(&str, Call)] = cases! {
    "to_value of borrowed bytes" => Call::ToValue;
    "to_value of a borrowed number" => Call::ToValueOfNumber;
    "as_sql of borrowed bytes" => Call::AsSql;
    "serialize of borrowed bytes" => Call::Serialize;
    "copied_text of a text" => Call::CopiedText;
    "copied_bytes of bytes" => Call::CopiedBytes;
    "copied_text of what doesn't convert" => Call::NothingCopied;
    "from_value_ref of values" => Call::Converted;
    "read_null_bitmap of a row" => Call::NullBitmap;
};

fn serialized(alloc: Global) -> Case {
    let mut buf = Vec::from_slice(alloc, b"xy")?;
    let answer = TEXT.serialize(&mut buf);
    Ok(appended(answer, buf.as_slice(), b"\x02ab", b""))
}

/// What was copied, if the value converts; else it is wrong to be out of memory.
fn present<T: Drop>(copy: Result<Option<T>, AllocError>) -> Result<T, Failure> {
    match copy {
        Ok(Some(copy)) => Ok(copy),
        Ok(None) => Err(Failure::Nothing),
        Err(AllocError) => Err(Failure::Memory(AllocError)),
    }
}

/// Why there is no copy.
#[derive(Debug, Drop)]
enum Failure {
    Nothing,
    Memory(AllocError),
}

fn are_none(alloc: Global) -> bool {
    let text = copied_text(alloc, ValueRef::Bytes(b"\xC3\x28"));
    let bytes = copied_bytes(alloc, ValueRef::NULL);
    text.is_ok_and(|text| text.is_none()) && bytes.is_ok_and(|bytes| bytes.is_none())
}

fn are_converted() -> bool {
    u8::from_value_ref(ValueRef::Bytes(b"255")) == Some(255)
        && bool::from_value_ref(ValueRef::UInt(2)) == Some(true)
        && <&str>::from_value_ref(TEXT) == Some("ab")
        && Option::<u8>::from_value_ref(ValueRef::NULL) == Some(None)
}

fn has_nulls() -> bool {
    match read_null_bitmap(3, &mut ParseBuf(BINARY)) {
        Ok(bitmap) => !bitmap.is_null(0) && bitmap.is_null(1) && !bitmap.is_null(2),
        Err(_) => false,
    }
}

/// How a row is written.
#[derive(Clone, Copy)]
enum Form {
    Text,
    Binary,
}

/// A row, how it is written, the room of the vector, the cells or the refusal, and whether they ask
/// for memory.
type Row = (
    &'static [u8],
    Form,
    usize,
    Result<&'static [ValueRef<'static>], &'static str>,
    Memory,
);

const ROWS: &[(&str, Row)] = cases! {
    "read_text_cells_into of a new vector" => b"\x01a\xFB\x01b", Form::Text, 0, Ok(CELLS), Asked;
    "read_text_cells_into of room" => b"\x01a\xFB\x01b", Form::Text, 3, Ok(CELLS), Never;
    "read_text_cells_into of a cut row" =>
        b"\x01a\xFB\x02b", Form::Text, 0, Err("Wire(UnexpectedEof)"), Asked;
    "read_binary_cells_into of a new vector" => BINARY, Form::Binary, 0, Ok(CELLS), Asked;
    "read_binary_cells_into of room" => BINARY, Form::Binary, 3, Ok(CELLS), Never;
    "read_binary_cells_into of a cut row" =>
        b"\0\x08\x01a\x02b", Form::Binary, 0, Err("Wire(UnexpectedEof)"), Asked;
    "read_binary_cells_into of the end" =>
        b"\xFE\0\0\x02\0", Form::Binary, 0, Err("BadHeader(254)"), Never;
};

const CELLS: &[ValueRef] = &[ValueRef::Bytes(b"a"), ValueRef::NULL, ValueRef::Bytes(b"b")];

/// The row of these cells in binary form.
const BINARY: &[u8] = b"\0\x08\x01a\x01b";

/// The cells are read, or out of memory and a refusal leave the whole row.
fn row_read(alloc: Global, (input, form, room, wanted, memory): Row) -> Case {
    let mut cells = Vec::with_capacity(alloc, room)?;
    let mut buf = ParseBuf(input);
    let answer = match form {
        Form::Text => read_text_cells_into(&mut buf, 3, &mut cells).map_err(BinaryRowError::Wire),
        Form::Binary => {
            let column = (
                ColumnType::MYSQL_TYPE_BLOB,
                ColumnFlags::from_bits_retain(0),
            );
            read_binary_cells_into(&[column; 3], &mut buf, &mut cells)
        }
    };
    let is_left = if answer.is_ok() {
        buf.is_empty()
    } else {
        buf.0 == input
    };
    let outcome = match answer {
        Ok(()) => Outcome::Answer.if_holds(wanted.is_ok_and(|wanted| cells.as_slice() == wanted)),
        Err(BinaryRowError::Wire(WireError::Memory(AllocError))) => Outcome::Memory,
        Err(error) => judged::<String, &str, BinaryRowError>(Err(error), wanted.map(|_| "")),
    };
    Ok(outcome.if_holds(is_left).with(memory))
}
