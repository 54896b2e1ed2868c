//! Random rows in text and binary form.
use crate::borrowed::Run;
use crate::random::Random;
use mysql_wire_part::{ColumnFlags, ColumnType, Flags};
use std::alloc::AllocError;

/// A column's type and flags.
pub type Column = (ColumnType, ColumnFlags);

// All types of columns.
const TYPES: [ColumnType; 34] = [
    ColumnType::MYSQL_TYPE_DECIMAL,
    ColumnType::MYSQL_TYPE_TINY,
    ColumnType::MYSQL_TYPE_SHORT,
    ColumnType::MYSQL_TYPE_LONG,
    ColumnType::MYSQL_TYPE_FLOAT,
    ColumnType::MYSQL_TYPE_DOUBLE,
    ColumnType::MYSQL_TYPE_NULL,
    ColumnType::MYSQL_TYPE_TIMESTAMP,
    ColumnType::MYSQL_TYPE_LONGLONG,
    ColumnType::MYSQL_TYPE_INT24,
    ColumnType::MYSQL_TYPE_DATE,
    ColumnType::MYSQL_TYPE_TIME,
    ColumnType::MYSQL_TYPE_DATETIME,
    ColumnType::MYSQL_TYPE_YEAR,
    ColumnType::MYSQL_TYPE_NEWDATE,
    ColumnType::MYSQL_TYPE_VARCHAR,
    ColumnType::MYSQL_TYPE_BIT,
    ColumnType::MYSQL_TYPE_VECTOR,
    ColumnType::MYSQL_TYPE_JSON,
    ColumnType::MYSQL_TYPE_NEWDECIMAL,
    ColumnType::MYSQL_TYPE_ENUM,
    ColumnType::MYSQL_TYPE_SET,
    ColumnType::MYSQL_TYPE_TINY_BLOB,
    ColumnType::MYSQL_TYPE_MEDIUM_BLOB,
    ColumnType::MYSQL_TYPE_LONG_BLOB,
    ColumnType::MYSQL_TYPE_BLOB,
    ColumnType::MYSQL_TYPE_VAR_STRING,
    ColumnType::MYSQL_TYPE_STRING,
    ColumnType::MYSQL_TYPE_GEOMETRY,
    ColumnType::MYSQL_TYPE_TIMESTAMP2,
    ColumnType::MYSQL_TYPE_DATETIME2,
    ColumnType::MYSQL_TYPE_TIME2,
    ColumnType::MYSQL_TYPE_TYPED_ARRAY,
    ColumnType::MYSQL_TYPE_UNKNOWN,
];

// The number of types that can be read.
const READABLE: usize = 29;

// The usual lengths of a date or a time.
const LENGTHS: [u8; 6] = [0, 4, 7, 11, 8, 12];

/// Random columns, in one row of ten perhaps with some that can't be read.
pub fn random_columns(run: &mut Run) -> Result<Vec<Column>, AllocError> {
    let is_odd = run.random.one_in(10);
    let kinds = if is_odd { TYPES.len() } else { READABLE };
    let is_wide = run.random.one_in(10);
    let count = run.random.below(if is_wide { 40 } else { 10 });
    let mut columns = Vec::with_capacity(run.alloc, count)?;
    for _ in 0..count {
        columns.push(random_column(&mut run.random, kinds))?;
    }
    Ok(columns)
}

// A column of one of the first of the types, with random flags.
fn random_column(random: &mut Random, kinds: usize) -> Column {
    let kind = TYPES.get(random.below(kinds)).copied();
    let flags = u16::from_le_bytes([random.byte(), random.byte()]);
    (
        kind.unwrap_or(ColumnType::MYSQL_TYPE_NULL),
        ColumnFlags::from_bits_retain(flags),
    )
}

/// A row of so many cells, whole or changed.
pub fn random_text_row(run: &mut Run, count: usize) -> Result<Vec<u8>, AllocError> {
    let mut row = Vec::with_capacity(run.alloc, 256)?;
    for _ in 0..count {
        if run.random.one_in(5) {
            row.push(0xFB)?;
        } else {
            put_string(&mut row, &mut run.random)?;
        }
    }
    change(&mut row, &mut run.random)?;
    Ok(row)
}

/// A row of these columns, whole or changed: its header, the bits of NULL, and the values of those
/// without a bit.
pub fn random_binary_row(run: &mut Run, columns: &[Column]) -> Result<Vec<u8>, AllocError> {
    let bits = random_bits(run, columns.len())?;
    let mut row = Vec::with_capacity(run.alloc, 256)?;
    row.push(if run.random.one_in(40) { 0xFE } else { 0 })?;
    row.extend_from_slice(bits.as_slice())?;
    put_columns(&mut row, &mut run.random, columns, bits.as_slice())?;
    change(&mut row, &mut run.random)?;
    Ok(row)
}

// Bits of NULL for so many columns.
fn random_bits(run: &mut Run, columns: usize) -> Result<Vec<u8>, AllocError> {
    let mut bits = Vec::with_capacity(run.alloc, 8)?;
    put_bytes(&mut bits, &mut run.random, columns.wrapping_add(9) / 8)?;
    Ok(bits)
}

/// A value of a column in binary form, whole or changed.
pub fn random_binary(run: &mut Run, kind: ColumnType) -> Result<Vec<u8>, AllocError> {
    let mut form = Vec::with_capacity(run.alloc, 64)?;
    put_binary(&mut form, &mut run.random, kind)?;
    change(&mut form, &mut run.random)?;
    Ok(form)
}

// Appends the values of the columns without a bit.
fn put_columns(
    row: &mut Vec<u8>,
    random: &mut Random,
    columns: &[Column],
    bits: &[u8],
) -> Result<(), AllocError> {
    for (i, column) in columns.iter().enumerate() {
        if !is_null(bits, i) {
            put_binary(row, random, column.0)?;
        }
    }
    Ok(())
}

/// Whether the bit of a column is set.
pub fn is_null(bits: &[u8], column: usize) -> bool {
    let bit = column.wrapping_add(2);
    let byte = bits.get(bit / 8).copied().unwrap_or(0);
    (byte >> (bit % 8)) & 1 == 1
}

// Appends a value of a column in binary form.
fn put_binary(
    bytes: &mut Vec<u8>,
    random: &mut Random,
    kind: ColumnType,
) -> Result<(), AllocError> {
    match kind {
        ColumnType::MYSQL_TYPE_NULL => Ok(()),
        ColumnType::MYSQL_TYPE_TINY => put_bytes(bytes, random, 1),
        ColumnType::MYSQL_TYPE_SHORT | ColumnType::MYSQL_TYPE_YEAR => put_bytes(bytes, random, 2),
        ColumnType::MYSQL_TYPE_LONG | ColumnType::MYSQL_TYPE_INT24 | ColumnType::MYSQL_TYPE_FLOAT =>
            { put_bytes(bytes, random, 4) }
        ColumnType::MYSQL_TYPE_LONGLONG | ColumnType::MYSQL_TYPE_DOUBLE => {
            put_bytes(bytes, random, 8)
        }
        ColumnType::MYSQL_TYPE_DATE
        | ColumnType::MYSQL_TYPE_DATETIME
        | ColumnType::MYSQL_TYPE_NEWDATE
        | ColumnType::MYSQL_TYPE_TIME
        | ColumnType::MYSQL_TYPE_TIMESTAMP => put_date_or_time(bytes, random),
        _ => put_string(bytes, random),
    }
}

// Appends a date or a time: a length, mostly a usual one, and so many bytes, of which the first may
// be a sign.
fn put_date_or_time(bytes: &mut Vec<u8>, random: &mut Random) -> Result<(), AllocError> {
    let len = match LENGTHS.get(random.below(LENGTHS.len())) {
        Some(len) if !random.one_in(6) => *len,
        _ => random.byte() & 15,
    };
    bytes.push(len)?;
    if len > 0 {
        bytes.push(random.byte() & 1)?;
    }
    put_bytes(bytes, random, usize::from(len).saturating_sub(1))
}

// Appends a string with its length, in any form of the length, or rarely with none.
fn put_string(bytes: &mut Vec<u8>, random: &mut Random) -> Result<(), AllocError> {
    let most = if random.one_in(30) { 300 } else { 20 };
    let len = random.below(most);
    put_length(bytes, random, len)?;
    put_bytes(bytes, random, len)
}

// Appends a length.
fn put_length(bytes: &mut Vec<u8>, random: &mut Random, len: usize) -> Result<(), AllocError> {
    let [low, high, ..] = (len as u64).to_le_bytes();
    match random.below(100) {
        0 => bytes.extend_from_slice(&[0xFB]),
        1 => bytes.extend_from_slice(&[0xFF]),
        2..=8 => bytes.extend_from_slice(&[0xFD, low, high, 0]),
        9..=16 => bytes.extend_from_slice(&[0xFE, low, high, 0, 0, 0, 0, 0, 0]),
        17..=24 => bytes.extend_from_slice(&[0xFC, low, high]),
        _ if len > 250 => bytes.extend_from_slice(&[0xFC, low, high]),
        _ => bytes.extend_from_slice(&[low]),
    }
}

// Appends so many bytes.
fn put_bytes(bytes: &mut Vec<u8>, random: &mut Random, count: usize) -> Result<(), AllocError> {
    for _ in 0..count {
        bytes.push(random.byte())?;
    }
    Ok(())
}

// Leaves the bytes as they are, cuts them off, changes one, or appends more.
fn change(bytes: &mut Vec<u8>, random: &mut Random) -> Result<(), AllocError> {
    let len = bytes.len();
    match random.below(8) {
        0 => {
            bytes.truncate(random.below(len));
            Ok(())
        }
        1 => {
            change_byte(bytes.as_mut_slice(), random);
            Ok(())
        }
        2 => {
            let count = random.below(9);
            put_bytes(bytes, random, count)
        }
        _ => Ok(()),
    }
}

// Changes one byte, perhaps to one that leads a length.
fn change_byte(bytes: &mut [u8], random: &mut Random) {
    let leads = [0xFBu8, 0xFC, 0xFD, 0xFE, 0xFF];
    let lead = leads.get(random.below(10)).copied();
    let at = random.below(bytes.len());
    if let Some(place) = bytes.get_mut(at) {
        *place = lead.unwrap_or(random.byte());
    }
}
