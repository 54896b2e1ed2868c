//! Dates and times of each length, and what isn't read, from bytes that nobody wrote.
use crate::shared::{answer_of, same_in};
use mysql_values::value::{BinValue, Value, ValueDeserializer};
use mysql_wire_part::ColumnType::{self, MYSQL_TYPE_DATETIME, MYSQL_TYPE_TIME};
use mysql_wire_part::WireError::{BadLengthLead, UnexpectedEof, UnsupportedColumn};
use mysql_wire_part::{ColumnFlags, Flags, MyDeserialize, ParseBuf, WireError};
use std::alloc::Global;
use std::process::Abort;

// What the column reads, and what is left.
fn read<'a>(
    alloc: Global,
    column: ColumnType,
    input: &'a [u8],
) -> (Result<Value, WireError>, &'a [u8]) {
    let mut buf = ParseBuf(input);
    let ctx = (column, ColumnFlags::from_bits_retain(0));
    match ValueDeserializer::<BinValue>::deserialize(alloc, ctx, &mut buf) {
        Ok(read) => (Ok(read.0), buf.0),
        Err(error) => (Err(error), buf.0),
    }
}

// The length, so many bytes from 1 on, and the byte 42.
fn input_of(rt: &impl Abort, alloc: Global, len: u8) -> Vec<u8> {
    let mut input = Vec::new(alloc);
    answer_of(rt, input.push(len));
    for place in 0..len {
        answer_of(rt, input.push(place.wrapping_add(1)));
    }
    answer_of(rt, input.push(b'*'));
    input
}

fn date(len: u8) -> Value {
    match len {
        0..=3 => Value::Date(0, 0, 0, 0, 0, 0, 0),
        4..=6 => Value::Date(513, 3, 4, 0, 0, 0, 0),
        11 => Value::Date(513, 3, 4, 5, 6, 7, 185207048),
        _ => Value::Date(513, 3, 4, 5, 6, 7, 0),
    }
}

fn time(len: u8) -> Value {
    match len {
        0..=7 => Value::Time(false, 0, 0, 0, 0, 0),
        12 => Value::Time(true, 84148994, 6, 7, 8, 202050057),
        _ => Value::Time(true, 84148994, 6, 7, 8, 0),
    }
}

// The column refuses the bytes, and leaves them.
fn is_refused(rt: &impl Abort, alloc: Global, column: ColumnType, input: &[u8], error: WireError) {
    let wanted = Err(error);
    let (found, left) = read(alloc, column, input);
    same_in(rt, (&found, left), (&wanted, input), &column);
}

// The column reads all but the last byte, and no beginning of that.
fn is_read(rt: &impl Abort, alloc: Global, column: ColumnType, input: &[u8], value: Value) {
    let wanted = Ok(value);
    let (found, left) = read(alloc, column, input);
    same_in(rt, (&found, left), (&wanted, b"*"), &input);
    let form = input.strip_suffix(b"*").unwrap_or(&[]);
    for (end, _) in form.iter().enumerate() {
        let cut = form.get(..end).unwrap_or(&[]);
        is_refused(rt, alloc, column, cut, UnexpectedEof);
    }
}

#[test]
fn dates_and_times_of_each_length(rt: HostRuntime) {
    for len in 0..=255u8 {
        let input = input_of(&rt, rt.alloc(), len);
        is_read(&rt, rt.alloc(), MYSQL_TYPE_DATETIME, &input, date(len));
        is_read(&rt, rt.alloc(), MYSQL_TYPE_TIME, &input, time(len));
    }
}

const STRINGS: &[ColumnType] = &[
    ColumnType::MYSQL_TYPE_STRING,
    ColumnType::MYSQL_TYPE_VAR_STRING,
    ColumnType::MYSQL_TYPE_BLOB,
    ColumnType::MYSQL_TYPE_TINY_BLOB,
    ColumnType::MYSQL_TYPE_MEDIUM_BLOB,
    ColumnType::MYSQL_TYPE_LONG_BLOB,
    ColumnType::MYSQL_TYPE_SET,
    ColumnType::MYSQL_TYPE_ENUM,
    ColumnType::MYSQL_TYPE_DECIMAL,
    ColumnType::MYSQL_TYPE_VARCHAR,
    ColumnType::MYSQL_TYPE_BIT,
    ColumnType::MYSQL_TYPE_NEWDECIMAL,
    ColumnType::MYSQL_TYPE_GEOMETRY,
    ColumnType::MYSQL_TYPE_VECTOR,
    ColumnType::MYSQL_TYPE_JSON,
];

const NOT_READ: &[ColumnType] = &[
    ColumnType::MYSQL_TYPE_TIMESTAMP2,
    ColumnType::MYSQL_TYPE_DATETIME2,
    ColumnType::MYSQL_TYPE_TIME2,
    ColumnType::MYSQL_TYPE_TYPED_ARRAY,
    ColumnType::MYSQL_TYPE_UNKNOWN,
];

#[test]
fn refused_columns(rt: HostRuntime) {
    for column in STRINGS {
        is_refused(&rt, rt.alloc(), *column, &[251], BadLengthLead(251));
        is_refused(&rt, rt.alloc(), *column, &[255], BadLengthLead(255));
    }
    for column in NOT_READ {
        is_refused(&rt, rt.alloc(), *column, &[], UnsupportedColumn(*column));
        is_refused(
            &rt,
            rt.alloc(),
            *column,
            &[1, 2],
            UnsupportedColumn(*column),
        );
    }
}
