//! Values read: text cells, rows in text form, and columns in binary form.
use crate::inputs::Plain;
use crate::inputs::Plain::{Bytes, Date, Double, Float, Int, Null, Time, UInt};
use crate::outcome::Memory::{Asked, Never};
use crate::outcome::{Case, Memory, Outcome, cases, judged, row};
use mysql_values::value::{BinValue, TextValue, Value, ValueDeserializer, read_text_cells};
use mysql_wire_part::{ColumnFlags, ColumnType, Flags, MyDeserialize, ParseBuf, WireError};
use std::alloc::Global;

/// How the call of this name went, if it stands here.
pub(crate) fn case(alloc: Global, name: &str) -> Option<Case> {
    if let Some(row) = row(ROWS, name) {
        return Some(Ok(text_cells(alloc, row)));
    }
    let outcome = match row(READINGS, name)? {
        Reading::Cell(input, wanted, memory) => cell(alloc, input, wanted).with(memory),
        Reading::NoCells => cells_refused(alloc),
        Reading::Blob => column(alloc, (ColumnType::MYSQL_TYPE_BLOB, 0), b"\x02ab*", AB),
        Reading::NoStrings => strings_refused(alloc),
        Reading::Columns(rows) => columns(alloc, rows),
    };
    Some(Ok(outcome))
}

/// What is read.
#[derive(Clone, Copy)]
enum Reading {
    /// A text cell, what it reads, and whether it asks for memory.
    Cell(&'static [u8], Wanted, Memory),
    NoCells,
    Blob,
    NoStrings,
    Columns(&'static [Column]),
}

const READINGS: &[(&str, Reading)] = cases! {
    "deserialize of a text cell" => Reading::Cell(b"\x02ab*", AB, Asked);
    "deserialize of a text cell of NULL" => Reading::Cell(b"\xFB*", NULL, Never);
    "deserialize of what is no text cell" => Reading::NoCells;
    "deserialize of a BLOB" => Reading::Blob;
    "deserialize of what is no BLOB" => Reading::NoStrings;
    "deserialize of whole numbers" => Reading::Columns(WHOLE_NUMBERS);
    "deserialize of floats and NULL" => Reading::Columns(FLOATS_AND_NULL);
    "deserialize of dates and times" => Reading::Columns(DATES_AND_TIMES);
    "deserialize of what is cut" => Reading::Columns(CUT);
    "deserialize of types without a reading" => Reading::Columns(UNSUPPORTED);
};

/// A value, or how the refusal is shown.
type Wanted = Result<Plain<'static>, &'static str>;

const NULL: Wanted = Ok(Null);

const AB: Wanted = Ok(Bytes(b"ab"));

/// How a value was read off the front of the input: with a star left after it, or after a refusal
/// the whole input.
fn value_read(
    answer: Result<Value, WireError>,
    left: &[u8],
    input: &[u8],
    wanted: Wanted,
) -> Outcome {
    let is_left = if answer.is_ok() {
        left == b"*".as_slice()
    } else {
        left == input
    };
    judged(answer, wanted).if_holds(is_left)
}

fn cell(alloc: Global, input: &[u8], wanted: Wanted) -> Outcome {
    let mut buf = ParseBuf(input);
    match ValueDeserializer::<TextValue>::deserialize(alloc, (), &mut buf) {
        Ok(cell) => value_read(Ok(cell.0), buf.0, input, wanted),
        Err(error) => value_read(Err(error), buf.0, input, wanted),
    }
}

/// What is no string, and its refusal.
const NO_STRINGS: &[(&[u8], &str)] = &[
    (b"\xFFa", "BadLengthLead(255)"),
    (b"\x03ab", "UnexpectedEof"),
    (b"", "UnexpectedEof"),
];

fn cells_refused(alloc: Global) -> Outcome {
    for (input, refusal) in NO_STRINGS {
        let outcome = cell(alloc, *input, Err(*refusal));
        if !outcome.is_right() {
            return Outcome::Wrong;
        }
    }
    Outcome::AnswerWithoutMemory
}

/// What a column of these flags reads.
fn column(
    alloc: Global,
    (column, flags): (ColumnType, u16),
    input: &[u8],
    wanted: Wanted,
) -> Outcome {
    let mut buf = ParseBuf(input);
    let ctx = (column, ColumnFlags::from_bits_retain(flags));
    match ValueDeserializer::<BinValue>::deserialize(alloc, ctx, &mut buf) {
        Ok(value) => value_read(Ok(value.0), buf.0, input, wanted),
        Err(error) => value_read(Err(error), buf.0, input, wanted),
    }
}

/// A column, its flags, its bytes, and what it reads.
type Column = (ColumnType, u16, &'static [u8], Wanted);

/// A table of columns.
macro_rules! columns {
    ($($column:ident, $($field:expr),+;)*) => { &[$((ColumnType::$column, $($field),+)),*] };
}

/// What the columns read without memory.
fn columns(alloc: Global, rows: &[Column]) -> Outcome {
    for (kind, flags, input, wanted) in rows {
        if !column(alloc, (*kind, *flags), *input, *wanted).is_right() {
            return Outcome::Wrong;
        }
    }
    Outcome::AnswerWithoutMemory
}

/// Columns of whole numbers.
const WHOLE_NUMBERS: &[Column] = columns! {
    MYSQL_TYPE_TINY, 0, b"\xFF*", Ok(Int(-1));
    MYSQL_TYPE_TINY, 32, b"\xFF*", Ok(Int(255));
    MYSQL_TYPE_SHORT, 0, b"\xFE\xFF*", Ok(Int(-2));
    MYSQL_TYPE_YEAR, 32, b"\xE3\x07*", Ok(Int(2019));
    MYSQL_TYPE_LONG, 0, b"\xFE\xFF\xFF\xFF*", Ok(Int(-2));
    MYSQL_TYPE_INT24, 32, b"\xFE\xFF\xFF\xFF*", Ok(Int(4294967294));
    MYSQL_TYPE_LONGLONG, 0, b"\xFE\xFF\xFF\xFF\xFF\xFF\xFF\xFF*", Ok(Int(-2));
    MYSQL_TYPE_LONGLONG, 32, b"\xFF\xFF\xFF\xFF\xFF\xFF\xFF\x7F*", Ok(Int(9223372036854775807));
    MYSQL_TYPE_LONGLONG, 32, b"\0\0\0\0\0\0\0\x80*", Ok(UInt(9223372036854775808));
};

/// Columns of floats and of `NULL`.
const FLOATS_AND_NULL: &[Column] = columns! {
    MYSQL_TYPE_FLOAT, 0, b"\0\0\x80\x3F*", Ok(Float(1065353216));
    MYSQL_TYPE_DOUBLE, 0, b"\x01\0\0\0\0\0\0\0*", Ok(Double(1));
    MYSQL_TYPE_NULL, 0, b"*", NULL;
};

const DATE: Wanted = Ok(Date(2019, 11, 27, 0, 0, 0, 0));

const TIME: Wanted = Ok(Time(false, 1, 2, 3, 4, 0));

/// Columns of dates and times.
const DATES_AND_TIMES: &[Column] = columns! {
    MYSQL_TYPE_TIMESTAMP, 0, b"\x05\xE3\x07\x0B\x1B\xFF*", DATE;
    MYSQL_TYPE_DATE, 0, b"\x05\xE3\x07\x0B\x1B\xFF*", DATE;
    MYSQL_TYPE_NEWDATE, 0, b"\x05\xE3\x07\x0B\x1B\xFF*", DATE;
    MYSQL_TYPE_DATETIME, 0, b"\x05\xE3\x07\x0B\x1B\xFF*", DATE;
    MYSQL_TYPE_TIME, 0, b"\x0A\x02\x01\0\0\0\x02\x03\x04\x09\x09*", TIME;
};

/// Columns whose bytes end within the value.
const CUT: &[Column] = columns! {
    MYSQL_TYPE_TINY, 0, b"", Err("UnexpectedEof");
    MYSQL_TYPE_SHORT, 0, b"a", Err("UnexpectedEof");
    MYSQL_TYPE_LONG, 0, b"abc", Err("UnexpectedEof");
    MYSQL_TYPE_LONGLONG, 0, b"abcdefg", Err("UnexpectedEof");
    MYSQL_TYPE_FLOAT, 0, b"abc", Err("UnexpectedEof");
    MYSQL_TYPE_DOUBLE, 0, b"abcdefg", Err("UnexpectedEof");
    MYSQL_TYPE_DATETIME, 0, b"\x04\xE3", Err("UnexpectedEof");
    MYSQL_TYPE_TIME, 0, b"\x08\x01", Err("UnexpectedEof");
};

/// Columns without a reading.
const UNSUPPORTED: &[Column] = columns! {
    MYSQL_TYPE_TIMESTAMP2, 0, b"*", Err("UnsupportedColumn(MYSQL_TYPE_TIMESTAMP2)");
    MYSQL_TYPE_DATETIME2, 0, b"*", Err("UnsupportedColumn(MYSQL_TYPE_DATETIME2)");
    MYSQL_TYPE_TIME2, 0, b"*", Err("UnsupportedColumn(MYSQL_TYPE_TIME2)");
    MYSQL_TYPE_TYPED_ARRAY, 0, b"*", Err("UnsupportedColumn(MYSQL_TYPE_TYPED_ARRAY)");
    MYSQL_TYPE_UNKNOWN, 0, b"*", Err("UnsupportedColumn(MYSQL_TYPE_UNKNOWN)");
};

/// Columns of strings.
const STRINGS: &[ColumnType] = &[
    ColumnType::MYSQL_TYPE_STRING,
    ColumnType::MYSQL_TYPE_VAR_STRING,
    ColumnType::MYSQL_TYPE_BLOB,
    ColumnType::MYSQL_TYPE_TINY_BLOB,
    ColumnType::MYSQL_TYPE_MEDIUM_BLOB,
    ColumnType::MYSQL_TYPE_LONG_BLOB,
    ColumnType::MYSQL_TYPE_SET,
    ColumnType::MYSQL_TYPE_ENUM,
    ColumnType::MYSQL_TYPE_DECIMAL,
    ColumnType::MYSQL_TYPE_VARCHAR,
    ColumnType::MYSQL_TYPE_BIT,
    ColumnType::MYSQL_TYPE_NEWDECIMAL,
    ColumnType::MYSQL_TYPE_GEOMETRY,
    ColumnType::MYSQL_TYPE_VECTOR,
    ColumnType::MYSQL_TYPE_JSON,
];

/// What is no string of a column, and its refusal.
const REFUSED_STRINGS: &[(&[u8], &str)] = &[
    (b"\xFB*", "BadLengthLead(251)"),
    (b"\xFF*", "BadLengthLead(255)"),
    (b"\x02a", "UnexpectedEof"),
];

fn strings_refused(alloc: Global) -> Outcome {
    for kind in STRINGS {
        for (input, refusal) in REFUSED_STRINGS {
            if !column(alloc, (*kind, 0), *input, Err(*refusal)).is_right() {
                return Outcome::Wrong;
            }
        }
    }
    Outcome::AnswerWithoutMemory
}

/// A row, how many cells are read, what is left, the cells or the refusal, and whether they ask for
/// memory.
type Row = (
    &'static [u8],
    usize,
    &'static [u8],
    Result<&'static [Plain<'static>], &'static str>,
    Memory,
);

const ROWS: &[(&str, Row)] = cases! {
    "read_text_cells of 3 cells" => ROW, 3, b"*", Ok(CELLS), Asked;
    "read_text_cells of 0 cells" => ROW, 0, ROW, Ok(&[]), Never;
    "read_text_cells of a cut row" => b"\x011\x022", 2, b"\x011\x022", Err("UnexpectedEof"), Asked;
    "read_text_cells of a bad lead" =>
        b"\x011\xFF", 2, b"\x011\xFF", Err("BadLengthLead(255)"), Asked;
};

/// Two cells with bytes and one of `NULL`, and a star after them.
const ROW: &[u8] = b"\x01a\xFB\x01b*";

const CELLS: &[Plain] = &[Bytes(b"a"), Null, Bytes(b"b")];

/// The cells are read off the front. Out of memory leaves the whole row.
fn text_cells(alloc: Global, (input, count, left, wanted, memory): Row) -> Outcome {
    let mut buf = ParseBuf(input);
    let answer = read_text_cells(alloc, &mut buf, count);
    let left = if answer.is_ok() { left } else { input };
    let is_left = buf.0 == left;
    judged(answer, wanted).if_holds(is_left).with(memory)
}
