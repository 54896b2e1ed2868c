//! Values of each kind that has a literal, made at random.
use crate::pools::Pools;
use crate::random::Random;
use mysql_values::value::Value;
use std::alloc::{AllocError, Global};

/// A value of one of these kinds, each about as often: a short and a longer text, a number of each
/// sign, a date and a time.
pub fn value(alloc: Global, random: &mut Random, pools: &Pools) -> Result<Value, AllocError> {
    match random.below(6) {
        0 => bytes(alloc, pools.text(random, 5, 40)),
        1 => bytes(alloc, pools.text(random, 20, 200)),
        2 => Ok(Value::Int(random.positive().wrapping_neg())),
        3 => Ok(Value::UInt(random.positive().cast_unsigned())),
        4 => Ok(date(random)),
        _ => Ok(time(random)),
    }
}

/// Bytes as a value.
pub fn bytes(alloc: Global, bytes: &[u8]) -> Result<Value, AllocError> {
    let bytes = Vec::from_slice(alloc, bytes)?;
    Ok(Value::Bytes(bytes.into()))
}

// A date, every third one without a clock, and another third with microseconds.
fn date(random: &mut Random) -> Value {
    let [a, b, c, d, e, f, g, h] = random.next().to_le_bytes();
    let (month, day) = (1 + a % 12, 1 + b % 28);
    match c % 3 {
        0 => Value::Date(2026, month, day, 0, 0, 0, 0),
        1 => Value::Date(2026, month, day, d % 24, e % 60, f % 60, 0),
        _ => {
            let microseconds = u32::from_le_bytes([g, h, 1, 0]);
            Value::Date(2026, month, day, d % 24, e % 60, f % 60, microseconds)
        }
    }
}

// A time, every other one with microseconds, and every fourth one below zero.
fn time(random: &mut Random) -> Value {
    let [a, b, c, d, e, f, g, _] = random.next().to_le_bytes();
    let (days, hours, minutes, seconds) = (u32::from(a % 9), b % 24, c % 60, d % 60);
    let microseconds = if e % 2 == 0 {
        0
    } else {
        u32::from_le_bytes([f, g, 2, 0])
    };
    Value::Time(e % 4 == 3, days, hours, minutes, seconds, microseconds)
}
