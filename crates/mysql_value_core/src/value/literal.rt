//! SQL literals of values.
ghost use Rattle.std.specs.Prelude.{◌≡◌, length, Some, Err, IfOk, IsSome, IsTrue, alloc_error, is_none, ok_or, option_map, string_bytes};
ghost use Rattle.mysql_wire_part.specs.Answer.{IsAnswer};
ghost use Rattle.mysql_value_core.specs.declared.value.literal.AsSqlError as AsSqlError;
ghost use Rattle.mysql_value_core.specs.declared.value.literal.AsSqlError.TheVariants.{Memory};
ghost use Rattle.mysql_value_core.specs.AsSql.{float, literal_refusal};
ghost use Rattle.mysql_value_core.specs.Literal.{is_float, literal_of};
ghost use Rattle.mysql_value_core.specs.ReadBack.{ReadsAs};
ghost use Rattle.mysql_value_core.specs.TimeLiteral.{WritesTimeText};

use crate::value::Value;
use mysql_sql_text::dates::{self, DateFields, TimeFields};
use mysql_sql_text::{numbers, strings};
use std::alloc::{AllocError, Global};
use thiserror::Error;

/// The error of a value that has no SQL literal.
#[derive(Debug, PartialEq, Drop, Error)]
pub enum AsSqlError {
    /// The value is a `Float` or a `Double`.
    #[error("Float has no SQL text")]
    Float,
    /// Memory for the text was refused, or the text would be longer than any text can be.
    #[error("out of memory")]
    Memory(AllocError),
}

impl From<AllocError> for AsSqlError {
    ghost from_gives = { λ _ error. error ≡ Memory alloc_error };

    fn from(error: AllocError) -> AsSqlError {
        AsSqlError::Memory(error)
    }
}

impl Value {
    /// Returns the SQL literal of the value (MySQL Reference Manual, "Literal Values").
    ///
    /// Bytes that are UTF-8 become a string, and other bytes a hexadecimal literal. A date or a
    /// time becomes a string; a field out of its usual range is written as it is.
    /// `no_backslash_escape` is for a server in the SQL mode `NO_BACKSLASH_ESCAPES`, in which a
    /// backslash in a string escapes nothing.
    ///
    /// The error `Float` comes exactly for `Float` and `Double`, without allocating. Any other
    /// value can be out of memory.
    pub fn as_sql(&self, alloc: Global, no_backslash_escape: bool) -> Result<String, AsSqlError>
        ensures gives { IsAnswer string_bytes literal_refusal
            (ok_or (literal_of no_backslash_escape self.now) float)
            (IsSome (literal_of no_backslash_escape self.now)) result }
        // A float allocates nothing.
        ensures float { IsTrue (is_float self.now) → result ≡ Err AsSqlError.Float }
        ensures reads_back { IfOk result
            (λ sql. ReadsAs no_backslash_escape self.now (string_bytes sql)) }
        ensures time { IfOk result (λ sql. WritesTimeText self.now (string_bytes sql)) }
    {
        let Some(len) = self.sql_len(no_backslash_escape) else {
            return Err(AsSqlError::Float);
        };
        let Ok(len) = usize::try_from(len) else {
            return Err(AsSqlError::Memory(AllocError));
        };
        let mut text = vec![in alloc; 0u8; len]?;
        self.fields_in_range();
        self.put_sql(no_backslash_escape, text.as_mut_slice());
        Ok(unsafe { String::from_utf8_unchecked(text) })
    }

    /// The number of bytes of the value's SQL literal, which is the text of `as_sql`.
    ///
    /// It is `None` exactly for `Float` and `Double`, which have no literal. It allocates nothing.
    /// If the length is above `isize::MAX`, no slice is that long.
    pub fn sql_len(&self, no_backslash_escape: bool) -> Option<u128>
        ensures exact { result ≡ option_map length (literal_of no_backslash_escape self.now) }
        ensures float { is_none result ≡ is_float self.now }
    {
        match self {
            Value::NULL => Some(4),
            Value::Bytes(bytes) => Some(strings::bytes_literal_len(
                bytes.as_slice(),
                no_backslash_escape,
            )),
            Value::Int(number) => Some(numbers::signed_len(*number)),
            Value::UInt(number) => Some(numbers::decimal_len(*number) as u128),
            Value::Float(_) | Value::Double(_) => None,
            &Value::Date(year, month, day, hour, minute, second, microseconds) => {
                Some(dates::date_len(DateFields {
                    year,
                    month,
                    day,
                    hour,
                    minute,
                    second,
                    microseconds,
                }))
            }
            &Value::Time(negative, days, hours, minutes, seconds, microseconds) => {
                Some(dates::time_len(TimeFields {
                    negative,
                    days,
                    hours,
                    minutes,
                    seconds,
                    microseconds,
                }))
            }
        }
    }

    /// Writes the value's SQL literal, which is the text of `as_sql`, over the whole of `room`.
    ///
    /// The value must have a literal, so it must not be a float. `room` must have exactly the
    /// length that `sql_len` returns in the same mode. It allocates nothing and is never refused.
    /// The promises of `as_sql` about its text hold for the bytes in `room` too.
    pub fn put_sql(&self, no_backslash_escape: bool, room: &mut [u8])
        requires { option_map length (literal_of no_backslash_escape self.now)
            ≡ Some (length room.old) }
        ensures exact { literal_of no_backslash_escape self.now ≡ Some room.new }
        ensures reads_back { ReadsAs no_backslash_escape self.now room.new }
        ensures time { WritesTimeText self.now room.new }
    {
        self.fields_in_range();
        self.fill_literal(no_backslash_escape, room);
    }

    // Fills the slice with the literal.
    fn fill_literal(&self, no_backslash_escape: bool, buffer: &mut [u8])
        requires { option_map length (literal_of no_backslash_escape self.now)
            ≡ Some (length buffer.old) }
        ensures { literal_of no_backslash_escape self.now ≡ Some buffer.new }
    {
        match self {
            Value::NULL => buffer.copy_from_slice(b"NULL"),
            Value::Bytes(bytes) => strings::fill_bytes_literal(
                buffer,
                bytes.as_slice(),
                no_backslash_escape,
            ),
            Value::Int(number) => numbers::fill_signed(buffer, *number),
            Value::UInt(number) => numbers::fill_padded(buffer, *number),
            Value::Float(_) | Value::Double(_) => unreachable!(),
            &Value::Date(year, month, day, hour, minute, second, microseconds) => {
                dates::fill_date(
                    buffer,
                    DateFields {
                        year,
                        month,
                        day,
                        hour,
                        minute,
                        second,
                        microseconds,
                    },
                )
            }
            &Value::Time(negative, days, hours, minutes, seconds, microseconds) => {
                dates::fill_time(
                    buffer,
                    TimeFields {
                        negative,
                        days,
                        hours,
                        minutes,
                        seconds,
                        microseconds,
                    },
                )
            }
        }
    }
}
