//! Random texts and values, and values lent and copied.
use crate::borrowed::Run;
use crate::random::Random;
use mysql_values::value::{Value, ValueRef};
use std::alloc::{AllocError, Global};

// Texts without a byte that is escaped, parted by `~` as all lists of texts here.
const PLAIN: &[u8] = b"x~order 42~0~1~7~007~-0~-5~+0255~256~127~-128~-129~65535~65536~-2147483648~\
    24:61:00~9223372036854775807~1:02:03~-9223372036854775809~-01:00:00~18446744073709551615~5.5~\
    18446744073709551616~838:59:59.5~340282366920938463463374607431768211455~1~\
    -170141183460469231731687303715884105728~12:34:56~340282366920938463463374607431768211456~\
    01:02:03.000004~a text of more than thirty-two bytes, in ASCII~~a ?~:a";

const ROUGH: &[u8] =
    b"it's~\\~a\\'b~\"q\"~x' OR '1'='1~\n\r\0\x1A~M\xC3\xBCller~\xE5\x8C\x97\xE4\xBA\xAC~\
    \xF0\x9F\x98\x80~\xFF~\xC3~ok \xE5\x8C~\xED\xA0\x80~%_";

/// The text of this number.
pub fn piece(texts: &'static [u8], number: usize) -> Option<&'static [u8]> {
    texts.split(|byte| *byte == b'~').nth(number)
}

/// One of the texts: that after a random byte, or the first.
pub fn pick(random: &mut Random, texts: &'static [u8]) -> &'static [u8] {
    let behind = texts.get(random.below(texts.len())..).unwrap_or(texts);
    match piece(behind, 1) {
        Some(text) => text,
        None => piece(texts, 0).unwrap_or(b""),
    }
}

/// One of the texts, copied.
pub fn picked(run: &mut Run, texts: &'static [u8]) -> Result<Vec<u8>, AllocError> {
    Vec::from_slice(run.alloc, pick(&mut run.random, texts))
}

/// So many values, also floats or not.
pub fn values(run: &mut Run, count: usize, floats: bool) -> Result<Vec<Value>, AllocError> {
    let mut values = Vec::with_capacity(run.alloc, count)?;
    for _ in 0..count {
        values.push(value(run, floats)?)?;
    }
    Ok(values)
}

/// A value of any kind, or of any but a float.
pub fn value(run: &mut Run, floats: bool) -> Result<Value, AllocError> {
    let kinds = if floats { 16 } else { 14 };
    match run.random.below(kinds) {
        0 | 1 => Ok(Value::NULL),
        2..=5 => Ok(number(&mut run.random)),
        6 | 7 => Ok(date(&mut run.random)),
        8 | 9 => Ok(time(&mut run.random)),
        14 | 15 => Ok(float(&mut run.random)),
        _ => Ok(Value::Bytes(text(run)?.into())),
    }
}

// A whole number of any length, or a power of two or beside one.
fn number(random: &mut Random) -> Value {
    let shift = u32::from(random.byte() % 64);
    let beside = (random.below(3) as u64).wrapping_sub(1);
    let number = if random.one_in(2) {
        random.next() >> shift
    } else {
        (1u64 << shift).wrapping_add(beside)
    };
    match random.below(3) {
        0 => Value::UInt(number),
        1 => Value::Int(number.cast_signed()),
        _ => Value::Int(number.cast_signed().wrapping_neg()),
    }
}

// A float of any bits.
fn float(random: &mut Random) -> Value {
    if random.one_in(2) {
        Value::Double(random.next())
    } else {
        Value::Float(random.word())
    }
}

// A date, mostly with fields in their usual ranges, in one of four at midnight.
fn date(random: &mut Random) -> Value {
    let [low, high, month, day, hour, minute, second, kind] = random.next().to_le_bytes();
    let year = u16::from_le_bytes([low, high]);
    let rest = microseconds(random);
    if kind < 64 {
        return Value::Date(year, month, day, hour, minute, second, rest);
    }
    let (month, day) = (month % 13, day % 32);
    if kind < 128 {
        Value::Date(year % 10_000, month, day, 0, 0, 0, 0)
    } else {
        Value::Date(year, month, day, hour % 24, minute % 60, second % 60, rest)
    }
}

// A time, in half of all cases with fields in their usual ranges.
fn time(random: &mut Random) -> Value {
    let [sign, day, hours, minutes, seconds, kind, ..] = random.next().to_le_bytes();
    let rest = microseconds(random);
    if kind < 128 {
        return Value::Time(sign < 64, random.word(), hours, minutes, seconds, rest);
    }
    let days = u32::from(day % 35);
    Value::Time(
        sign < 128,
        days,
        hours % 24,
        minutes % 60,
        seconds % 60,
        rest,
    )
}

// Microseconds, in half of all cases 0.
fn microseconds(random: &mut Random) -> u32 {
    if random.one_in(2) { 0 } else { random.word() }
}

// A text of one part, or of three.
fn text(run: &mut Run) -> Result<Vec<u8>, AllocError> {
    let mut text = Vec::from_slice(run.alloc, part(&mut run.random))?;
    if run.random.one_in(3) {
        text.extend_from_slice(part(&mut run.random))?;
        text.extend_from_slice(part(&mut run.random))?;
    }
    Ok(text)
}

// A part of a text.
fn part(random: &mut Random) -> &'static [u8] {
    let texts = if random.one_in(3) { ROUGH } else { PLAIN };
    pick(random, texts)
}

/// The values, lent.
pub fn lent_values(alloc: Global, values: &[Value]) -> Result<Vec<ValueRef<'_>>, AllocError> {
    let mut lent = Vec::with_capacity(alloc, values.len())?;
    for value in values {
        lent.push(value.borrowed())?;
    }
    Ok(lent)
}

/// Copies of lent values.
pub fn copied_values(alloc: Global, values: &[ValueRef<'_>]) -> Result<Vec<Value>, AllocError> {
    let mut copies = Vec::with_capacity(alloc, values.len())?;
    for value in values {
        copies.push(value.to_value(alloc)?)?;
    }
    Ok(copies)
}
