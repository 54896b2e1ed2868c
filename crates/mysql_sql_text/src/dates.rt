//! Literals of dates and times.
ghost use Rattle.std.specs.Prelude.{◌≡◌, ◌++◌, ◌+◌, ◌≤◌, length, take};
ghost use Rattle.mysql_sql_text.specs.LiteralText.{after_hours, date_literal, day_text, is_midnight, padded, quoted, time_literal};

use crate::numbers::{append_padded, decimal_len};
use crate::strings::append_byte;

/// The fields of a date with its time of day. Each may be out of its usual range.
#[derive(Clone, Copy)]
pub struct DateFields {
    pub year: u16,
    pub month: u8,
    pub day: u8,
    pub hour: u8,
    pub minute: u8,
    pub second: u8,
    pub microseconds: u32,
}

/// The fields of a time, which may be longer than a day. Each may be out of its usual range.
#[derive(Clone, Copy)]
pub struct TimeFields {
    pub negative: bool,
    pub days: u32,
    pub hours: u8,
    pub minutes: u8,
    pub seconds: u8,
    pub microseconds: u32,
}

/// The length of the literal of a date.
#[inline]
pub fn date_len(date: DateFields) -> u128
    ensures { result ≡ length (date_literal date) }
{
    let year = decimal_len(date.year as u64).max(4) as u128;
    let month = two_digits_len(date.month) as u128;
    let quoted_day = 4 + year + month + two_digits_len(date.day) as u128;
    if is_midnight(date) {
        quoted_day
    } else {
        let hour = two_digits_len(date.hour) as u128;
        quoted_day + 1 + hour + after_hours_len(date.minute, date.second, date.microseconds)
    }
}

/// The length of the literal of a time.
#[inline]
pub fn time_len(time: TimeFields) -> u128
    ensures { result ≡ length (time_literal time) }
{
    let hours = decimal_len(time.days as u64 * 24 + time.hours as u64).max(3) as u128;
    let len = 2 + hours + after_hours_len(time.minutes, time.seconds, time.microseconds);
    if time.negative { len + 1 } else { len }
}

// The length of `:MM:SS` and the fraction.
fn after_hours_len(minutes: u8, seconds: u8, microseconds: u32) -> u128
    ensures exact { result ≡ length (after_hours minutes seconds microseconds) }
    ensures few { result ≤ 100 }
{
    let whole = 2 + two_digits_len(minutes) as u128 + two_digits_len(seconds) as u128;
    if microseconds == 0 {
        whole
    } else {
        whole + 1 + decimal_len(microseconds as u64).max(6) as u128
    }
}

// The length of a number of at least two digits.
fn two_digits_len(number: u8) -> usize
    ensures exact { result ≡ length (padded 2 number) }
    ensures few { result ≤ 20 }
{
    decimal_len(number as u64).max(2)
}

/// Fills the slice with the literal of a date. The slice must have exactly the length `date_len`.
#[inline]
pub fn fill_date(buffer: &mut [u8], date: DateFields)
    requires { length buffer.old ≡ length (date_literal date) }
    ensures { buffer.new ≡ date_literal date }
{
    if is_midnight(date) {
        fill_day(buffer, date);
    } else {
        let at = append_byte(buffer, 0, b'\'');
        let at = append_day(buffer, at, date);
        let at = append_byte(buffer, at, b' ');
        let at = append_padded(buffer, at, 2, date.hour as u64);
        let at = append_after_hours(buffer, at, date.minute, date.second, date.microseconds);
        append_byte(buffer, at, b'\'');
    }
}

// Whether the time of day is all zero.
fn is_midnight(date: DateFields) -> bool
    ensures { result ≡ is_midnight date.hour date.minute date.second date.microseconds }
{
    date.hour == 0 && date.minute == 0 && date.second == 0 && date.microseconds == 0
}

// Fills the slice with the day of a date between quotes.
fn fill_day(buffer: &mut [u8], date: DateFields)
    requires { length buffer.old ≡ length (quoted (day_text date.year date.month date.day)) }
    ensures { buffer.new ≡ quoted (day_text date.year date.month date.day) }
{
    let at = append_byte(buffer, 0, b'\'');
    let at = append_day(buffer, at, date);
    append_byte(buffer, at, b'\'');
}

// Appends `YYYY-MM-DD`.
fn append_day(buffer: &mut [u8], at: usize, date: DateFields) -> usize
    requires { at + length (day_text date.year date.month date.day) ≤ length buffer.old }
    ensures next { result ≡ at + length (day_text date.year date.month date.day) }
    ensures front { take result buffer.new
        ≡ take at buffer.old ++ day_text date.year date.month date.day }
{
    let at = append_padded(buffer, at, 4, date.year as u64);
    let at = append_byte(buffer, at, b'-');
    let at = append_padded(buffer, at, 2, date.month as u64);
    let at = append_byte(buffer, at, b'-');
    append_padded(buffer, at, 2, date.day as u64)
}

/// Fills the slice with the literal of a time. The slice must have exactly the length `time_len`.
#[inline]
pub fn fill_time(buffer: &mut [u8], time: TimeFields)
    requires { length buffer.old ≡ length (time_literal time) }
    ensures { buffer.new ≡ time_literal time }
{
    let mut at = append_byte(buffer, 0, b'\'');
    if time.negative {
        at = append_byte(buffer, at, b'-');
    }
    let at = append_padded(buffer, at, 3, time.days as u64 * 24 + time.hours as u64);
    let at = append_after_hours(buffer, at, time.minutes, time.seconds, time.microseconds);
    append_byte(buffer, at, b'\'');
}

// Appends `:MM:SS` and the fraction.
fn append_after_hours(
    buffer: &mut [u8],
    at: usize,
    minutes: u8,
    seconds: u8,
    microseconds: u32,
) -> usize
    requires { at + length (after_hours minutes seconds microseconds) ≤ length buffer.old }
    ensures next { result ≡ at + length (after_hours minutes seconds microseconds) }
    ensures front { take result buffer.new
        ≡ take at buffer.old ++ after_hours minutes seconds microseconds }
{
    let at = append_byte(buffer, at, b':');
    let at = append_padded(buffer, at, 2, minutes as u64);
    let at = append_byte(buffer, at, b':');
    let at = append_padded(buffer, at, 2, seconds as u64);
    if microseconds == 0 {
        return at;
    }
    let at = append_byte(buffer, at, b'.');
    append_padded(buffer, at, 6, microseconds as u64)
}
