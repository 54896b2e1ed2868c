//! A client reads rows, in binary form and in text form, and converts their cells.
use crate::digest::Digest;
use crate::pools::Pools;
use crate::random::Random;
use mysql_values::value::convert::from_value_opt;
use mysql_values::value::{BinValue, Value, ValueDeserializer, read_text_cells};
use mysql_wire_part::{
    ColumnFlags, ColumnType, Flags, MyDeserialize, ParseBuf, WireError, put_lenenc_str,
};
use std::alloc::{AllocError, Global};
use std::time::Duration;

/// The number of rows that a buffer holds.
pub(crate) const ROWS: usize = 500;

// The number of rows to copy from.
const KINDS: usize = 2048;

/// The columns of a row, and whether their numbers have no sign.
pub(crate) const COLUMNS: [(ColumnType, bool); 9] = [
    (ColumnType::MYSQL_TYPE_LONGLONG, false),
    (ColumnType::MYSQL_TYPE_LONG, true),
    (ColumnType::MYSQL_TYPE_VAR_STRING, false),
    (ColumnType::MYSQL_TYPE_BLOB, false),
    (ColumnType::MYSQL_TYPE_NEWDECIMAL, false),
    (ColumnType::MYSQL_TYPE_DATETIME, false),
    (ColumnType::MYSQL_TYPE_TIME, false),
    (ColumnType::MYSQL_TYPE_TINY, false),
    (ColumnType::MYSQL_TYPE_VAR_STRING, false),
];

/// Reads so many buffers of rows of each form.
pub fn run(
    alloc: Global,
    random: &mut Random,
    pools: &Pools,
    buffers: usize,
    digest: &mut Digest,
) -> Result<(), AllocError> {
    let rows = row_pools(alloc, random, pools)?;
    let mut bytes = Vec::with_capacity(alloc, ROWS * 400)?;
    for _ in 0..buffers {
        put_binary_rows(&mut bytes, random, &rows)?;
        if read_binary_rows(alloc, &bytes, digest).is_err() {
            digest.number(1);
        }
        put_text_rows(&mut bytes, random, pools, &rows)?;
        if read_text_rows(alloc, &bytes, digest).is_err() {
            digest.number(1);
        }
    }
    Ok(())
}

// Which cells of a row are NULL, one bit for each: one in ten, and never the first.
fn nulls(random: &mut Random) -> u16 {
    let mut bits = 0u16;
    let number = random.next();
    for column in 1..9u32 {
        if (number >> (7 * column)) & 127 < 13 {
            bits |= 1u16 << column;
        }
    }
    bits
}

/// Whether the cell of a column is NULL.
#[inline(always)]
pub(crate) fn is_null(nulls: u16, column: usize) -> bool {
    (nulls >> (column % 16)) & 1 == 1
}

/// Rows to copy from, of both forms: those in binary form whole, those in text form without their
/// first cell. A copy gets a first cell of its own.
#[derive(Drop)]
pub(crate) struct RowPools {
    binary: Vec<Vec<u8>>,
    text: Vec<Vec<u8>>,
}

/// The pools of rows.
#[inline(always)]
pub(crate) fn row_pools(
    alloc: Global,
    random: &mut Random,
    pools: &Pools,
) -> Result<RowPools, AllocError> {
    let mut binary = Vec::with_capacity(alloc, KINDS)?;
    let mut text = Vec::with_capacity(alloc, KINDS)?;
    for _ in 0..KINDS {
        binary.push(binary_row(alloc, random, pools)?)?;
        text.push(text_row(alloc, random, pools)?)?;
    }
    Ok(RowPools { binary, text })
}

// A row in binary form: the bits of NULL, then the other cells.
fn binary_row(alloc: Global, random: &mut Random, pools: &Pools) -> Result<Vec<u8>, AllocError> {
    let mut bytes = Vec::with_capacity(alloc, 400)?;
    let nulls = nulls(random);
    bytes.extend_from_slice(&nulls.to_le_bytes())?;
    for column in 0..COLUMNS.len() {
        if !is_null(nulls, column) {
            put_binary_cell(&mut bytes, random, pools, column)?;
        }
    }
    Ok(bytes)
}

/// Fills a buffer with rows in binary form. The number in each, after its bits of NULL, is new.
#[inline(always)]
pub(crate) fn put_binary_rows(
    bytes: &mut Vec<u8>,
    random: &mut Random,
    rows: &RowPools,
) -> Result<(), AllocError> {
    bytes.clear();
    for _ in 0..ROWS {
        let row = match rows.binary.get(random.below(KINDS)) {
            Some(row) => row.as_slice(),
            None => &[],
        };
        bytes.extend_from_slice(row.get(..2).unwrap_or(&[]))?;
        bytes.extend_from_slice(&random.positive().to_le_bytes())?;
        bytes.extend_from_slice(row.get(10..).unwrap_or(&[]))?;
    }
    Ok(())
}

// Appends a cell of a column in binary form.
fn put_binary_cell(
    bytes: &mut Vec<u8>,
    random: &mut Random,
    pools: &Pools,
    column: usize,
) -> Result<(), AllocError> {
    match column {
        0 => bytes.extend_from_slice(&random.positive().to_le_bytes()),
        1 => bytes.extend_from_slice(&((random.next() & 0x3FFF_FFFF) as u32).to_le_bytes()),
        5 => put_date(bytes, random),
        6 => put_time(bytes, random),
        7 => bytes
            .push((random.next() & 1) as u8)
            .map_err(AllocError::from),
        _ => put_text_of(bytes, random, pools, column),
    }
}

// Appends the text of a column, with its length.
fn put_text_of(
    bytes: &mut Vec<u8>,
    random: &mut Random,
    pools: &Pools,
    column: usize,
) -> Result<(), AllocError> {
    match column {
        2 => put_lenenc_str(bytes, pools.text(random, 5, 40)),
        3 => put_lenenc_str(bytes, pools.text(random, 20, 200)),
        4 => put_decimal(bytes, random, pools),
        _ => put_lenenc_str(bytes, pools.plain(random, 5, 40)),
    }
}

// Appends an exact number, as 1234.99.
fn put_decimal(bytes: &mut Vec<u8>, random: &mut Random, pools: &Pools) -> Result<(), AllocError> {
    let whole = pools.digits(random, 1, 9);
    let part = pools.digits(random, 2, 2);
    bytes.push(u8::try_from(whole.len() + 1 + part.len()).unwrap_or(0))?;
    bytes.extend_from_slice(whole)?;
    bytes.push(b'.')?;
    bytes.extend_from_slice(part)
}

// Appends a date in binary form, every other one with microseconds.
fn put_date(bytes: &mut Vec<u8>, random: &mut Random) -> Result<(), AllocError> {
    let [a, b, c, d, e, f, g, h] = random.next().to_le_bytes();
    let (month, day) = (1 + a % 12, 1 + b % 28);
    let (hour, minute, second) = (c % 24, d % 60, e % 60);
    if f % 2 == 0 {
        return bytes.extend_from_slice(&[7, 0xEA, 7, month, day, hour, minute, second]);
    }
    bytes.extend_from_slice(&[
        11,
        0xEA,
        7,
        month,
        day,
        hour,
        minute,
        second,
        g,
        h,
        f % 15,
        0,
    ])
}

// Appends a time in binary form, every other one with microseconds.
fn put_time(bytes: &mut Vec<u8>, random: &mut Random) -> Result<(), AllocError> {
    let [a, b, c, d, e, f, g, _] = random.next().to_le_bytes();
    let (hours, minutes, seconds) = (a % 24, b % 60, c % 60);
    if d % 2 == 0 {
        return bytes.extend_from_slice(&[8, 0, d % 9, 0, 0, 0, hours, minutes, seconds]);
    }
    bytes.extend_from_slice(&[
        12,
        0,
        d % 9,
        0,
        0,
        0,
        hours,
        minutes,
        seconds,
        e,
        f,
        g % 15,
        0,
    ])
}

// A row in text form without its first cell.
fn text_row(alloc: Global, random: &mut Random, pools: &Pools) -> Result<Vec<u8>, AllocError> {
    let mut bytes = Vec::with_capacity(alloc, 400)?;
    let nulls = nulls(random);
    for column in 1..COLUMNS.len() {
        if is_null(nulls, column) {
            bytes.push(0xFB)?;
        } else {
            put_text_cell(&mut bytes, random, pools, column)?;
        }
    }
    Ok(bytes)
}

/// Fills a buffer with rows in text form. The number in the first cell of each is new.
#[inline(always)]
pub(crate) fn put_text_rows(
    bytes: &mut Vec<u8>,
    random: &mut Random,
    pools: &Pools,
    rows: &RowPools,
) -> Result<(), AllocError> {
    bytes.clear();
    for _ in 0..ROWS {
        put_lenenc_str(bytes, pools.digits(random, 1, 18))?;
        match rows.text.get(random.below(KINDS)) {
            Some(row) => bytes.extend_from_slice(row.as_slice())?,
            None => {}
        }
    }
    Ok(())
}

// Appends a cell of a column in text form.
fn put_text_cell(
    bytes: &mut Vec<u8>,
    random: &mut Random,
    pools: &Pools,
    column: usize,
) -> Result<(), AllocError> {
    match column {
        1 => put_lenenc_str(bytes, pools.digits(random, 1, 9)),
        5 => {
            bytes.extend_from_slice(b"\x132026-")?;
            put_two_digits(bytes, 1 + random.below(12), b'-')?;
            put_two_digits(bytes, 1 + random.below(28), b' ')?;
            put_clock(bytes, random)
        }
        6 => {
            bytes.extend_from_slice(b"\x0F")?;
            put_clock(bytes, random)?;
            bytes.push(b'.')?;
            bytes.extend_from_slice(pools.digits(random, 6, 6))
        }
        7 => bytes.extend_from_slice(&[1, b'0' + (random.next() & 1) as u8]),
        _ => put_text_of(bytes, random, pools, column),
    }
}

// Appends hours, minutes and seconds, as 12:34:56.
fn put_clock(bytes: &mut Vec<u8>, random: &mut Random) -> Result<(), AllocError> {
    put_two_digits(bytes, random.below(24), b':')?;
    put_two_digits(bytes, random.below(60), b':')?;
    let second = random.below(60);
    bytes.extend_from_slice(&[digit(second / 10), digit(second)])
}

// Appends two digits of a number, and a byte.
fn put_two_digits(bytes: &mut Vec<u8>, number: usize, after: u8) -> Result<(), AllocError> {
    bytes.extend_from_slice(&[digit(number / 10), digit(number), after])
}

// The last digit of a number.
fn digit(number: usize) -> u8 {
    b'0' + (number % 10) as u8
}

// Reads rows in binary form to the end of the bytes.
fn read_binary_rows(alloc: Global, bytes: &[u8], digest: &mut Digest) -> Result<(), WireError> {
    let mut buffer = ParseBuf(bytes);
    for _ in 0..ROWS {
        let nulls = buffer.checked_eat_u16_le().ok_or(WireError::UnexpectedEof)?;
        for (column, (kind, unsigned)) in COLUMNS.iter().enumerate() {
            if is_null(nulls, column) {
                convert(column, Value::NULL, digest);
                continue;
            }
            let flags = ColumnFlags::from_bits_retain(if *unsigned { 32 } else { 0 });
            let cell = ValueDeserializer::<BinValue>::deserialize(
                alloc,
                (*kind, flags),
                &mut buffer,
            )?;
            convert(column, cell.0, digest);
        }
    }
    digest.number(buffer.len() as u64);
    Ok(())
}

// Reads rows in text form to the end of the bytes.
fn read_text_rows(alloc: Global, bytes: &[u8], digest: &mut Digest) -> Result<(), WireError> {
    let mut buffer = ParseBuf(bytes);
    for _ in 0..ROWS {
        let cells = read_text_cells(alloc, &mut buffer, COLUMNS.len())?;
        for (column, cell) in cells.into_iter().enumerate() {
            convert(column, cell, digest);
        }
    }
    digest.number(buffer.len() as u64);
    Ok(())
}

// Converts a cell of a column to the type that a program wants.
fn convert(column: usize, value: Value, digest: &mut Digest) {
    match column {
        0 => match from_value_opt::<i64>(value) {
            Ok(number) => digest.number(number.cast_unsigned()),
            Err(_) => digest.number(1),
        },
        1 => match from_value_opt::<Option<u32>>(value) {
            Ok(Some(number)) => digest.number(u64::from(number)),
            Ok(None) => digest.number(2),
            Err(_) => digest.number(3),
        },
        6 => match from_value_opt::<Option<Duration>>(value) {
            Ok(Some(time)) => digest.number(time.as_secs() ^ u64::from(time.subsec_nanos())),
            Ok(None) => digest.number(4),
            Err(_) => digest.number(5),
        },
        7 => match from_value_opt::<Option<bool>>(value) {
            Ok(Some(truth)) => digest.number(u64::from(truth)),
            Ok(None) => digest.number(6),
            Err(_) => digest.number(7),
        },
        5 => take_date(value, digest),
        _ => take_text(value, digest),
    }
}

// Takes in a text, or NULL.
fn take_text(value: Value, digest: &mut Digest) {
    match from_value_opt::<Option<String>>(value) {
        Ok(Some(text)) => digest.bytes(text.as_str().as_bytes()),
        Ok(None) => digest.number(8),
        Err(_) => digest.number(9),
    }
}

// Takes in a date, or its text, or NULL.
fn take_date(value: Value, digest: &mut Digest) {
    match value {
        Value::Date(year, month, day, hour, minute, second, microseconds) => {
            digest.number(u64::from(year) ^ u64::from(microseconds));
            digest.bytes(&[month, day, hour, minute, second]);
        }
        other => take_text(other, digest),
    }
}
