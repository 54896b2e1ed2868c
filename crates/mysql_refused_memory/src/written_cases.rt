//! Values written: binary forms and SQL literals.
use crate::inputs::Plain;
use crate::inputs::Plain::{Bytes, Date, Double, Float, Int, Null, Time, UInt};
use crate::outcome::Memory::{Asked, Never};
use crate::outcome::{Case, Memory, cases, holds, judged, row};
use crate::wire_cases::appended;
use mysql_wire_part::MySerialize;
use std::alloc::Global;

/// How the call of this name went, if it stands here.
pub(crate) fn case(alloc: Global, name: &str) -> Option<Case> {
    if let Some((value, form, memory)) = row(FORMS, name) {
        return Some(serialized(alloc, value, form, memory));
    }
    if let Some((value, mode, literal)) = row(LITERALS, name) {
        return Some(literal_made(alloc, value, mode, literal));
    }
    let case = match row(CALLS, name)? {
        Call::AsSqlOfFloats => floats_refused(alloc),
        Call::Lengths => has_lengths(alloc),
        Call::PutSql(value, literal) => puts(alloc, value, literal),
        Call::LengthOfFloats => floats_without_length(),
    };
    Some(case)
}

/// Another call of values.
#[derive(Clone, Copy)]
enum Call {
    AsSqlOfFloats,
    Lengths,
    /// A value and its literal.
    PutSql(Plain<'static>, &'static [u8]),
    LengthOfFloats,
}

const CALLS: &[(&str, Call)] = cases! {
    "as_sql of floats" => Call::AsSqlOfFloats;
    "bin_len of values" => Call::Lengths;
    "put_sql of a text" => Call::PutSql(Bytes(b"it's"), b"'it\\'s'");
    "put_sql of a number" => Call::PutSql(Int(-123456), b"-123456");
    "sql_len of a float" => Call::LengthOfFloats;
};

const TIME: Plain = Time(true, 300, 8, 8, 8, 123456);

/// Values, their binary forms, and whether writing these asks for memory.
const FORMS: &[(&str, (Plain, &[u8], Memory))] = cases! {
    "serialize of Bytes" => Bytes(b"abc"), b"\x03abc", Asked;
    "serialize of Int" => Int(-2), b"\xFE\xFF\xFF\xFF\xFF\xFF\xFF\xFF", Asked;
    "serialize of UInt" => UInt(1), b"\x01\0\0\0\0\0\0\0", Asked;
    "serialize of Float" => Float(1065353216), b"\0\0\x80\x3F", Asked;
    "serialize of Double" => Double(1), b"\x01\0\0\0\0\0\0\0", Asked;
    "serialize of Date" => Date(2019, 11, 27, 0, 0, 0, 0), b"\x04\xE3\x07\x0B\x1B", Asked;
    "serialize of Time" => TIME, b"\x0C\x01\x2C\x01\0\0\x08\x08\x08\x40\xE2\x01\0", Asked;
    "serialize of NULL" => Null, b"", Never;
};

fn serialized(alloc: Global, value: Plain<'_>, form: &[u8], memory: Memory) -> Case {
    let value = value.value(alloc)?;
    let mut buf = Vec::from_slice(alloc, b"xy")?;
    let answer = value.serialize(&mut buf);
    Ok(appended(answer, buf.as_slice(), form, b"").with(memory))
}

/// Values, whether without backslash escapes, and their literals.
const LITERALS: &[(&str, (Plain, bool, &str))] = cases! {
    "as_sql of NULL" => Null, false, "NULL";
    "as_sql of Int" => Int(-3), false, "-3";
    "as_sql of UInt" => UInt(5), false, "5";
    "as_sql of text" => Bytes(b"it's"), false, "'it\\'s'";
    "as_sql of text without backslashes" => Bytes(b"it's"), true, "'it''s'";
    "as_sql of an empty text" => Bytes(b""), false, "''";
    "as_sql of bytes that are no text" => Bytes(b"\xC3\x28"), false, "0xC328";
    "as_sql of Date" =>
        Date(2019, 11, 27, 12, 30, 0, 123456), false, "'2019-11-27 12:30:00.123456'";
    "as_sql of Time" => TIME, false, "'-7208:08:08.123456'";
};

fn literal_made(alloc: Global, value: Plain<'_>, no_backslash_escape: bool, literal: &str) -> Case {
    let value = value.value(alloc)?;
    Ok(judged(value.as_sql(alloc, no_backslash_escape), Ok(literal)))
}

/// Values, and whether without backslash escapes.
const FLOATS: &[(Plain, bool)] = &[(Float(0), false), (Double(0), true)];

fn floats_refused(alloc: Global) -> Case {
    for (float, mode) in FLOATS {
        let float = float.without_bytes();
        let outcome = judged(float.as_sql(alloc, *mode), Err::<&str, &str>("Float"));
        if !outcome.is_right() {
            return holds(false);
        }
    }
    holds(true)
}

fn floats_without_length() -> Case {
    for (float, mode) in FLOATS {
        if float.without_bytes().sql_len(*mode).is_some() {
            return holds(false);
        }
    }
    holds(true)
}

/// Values, and the lengths of their binary forms.
const LENGTHS: &[(Plain, u64)] = &[(Bytes(b"abc"), 4), (TIME, 13), (Null, 0)];

fn has_lengths(alloc: Global) -> Case {
    for (value, len) in LENGTHS {
        if value.value(alloc)?.bin_len() != *len {
            return holds(false);
        }
    }
    holds(true)
}

/// Whether the value puts this literal of 7 bytes into a room of its length.
fn puts(alloc: Global, value: Plain<'_>, literal: &[u8]) -> Case {
    let value = value.value(alloc)?;
    let mut room = [b'*'; 7];
    if value.sql_len(false) != Some(7) {
        return holds(false);
    }
    value.put_sql(false, &mut room);
    holds(room.as_slice() == literal)
}
