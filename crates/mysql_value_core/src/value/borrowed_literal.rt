//! SQL literals of borrowed values. They are those of the owned values.
//!
//! These calls have the same bodies as those of [`Value`](crate::value::Value). It would take
//! longer to borrow a value first.
ghost use Rattle.std.specs.Prelude.{◌≡◌, length, Some, Err, IfOk, IsSome, IsTrue, is_none, ok_or, option_map, string_bytes};
ghost use Rattle.mysql_wire_part.specs.Answer.{IsAnswer};
ghost use Rattle.mysql_value_core.specs.declared.value.literal.AsSqlError as AsSqlError;
ghost use Rattle.mysql_value_core.specs.BorrowedValue.{owned};
ghost use Rattle.mysql_value_core.specs.AsSql.{float, literal_refusal};
ghost use Rattle.mysql_value_core.specs.Literal.{is_float, literal_of};
ghost use Rattle.mysql_value_core.specs.ReadBack.{ReadsAs};
ghost use Rattle.mysql_value_core.specs.TimeLiteral.{WritesTimeText};

use crate::value::ValueRef;
use crate::value::literal::AsSqlError;
use mysql_sql_text::dates::{self, DateFields, TimeFields};
use mysql_sql_text::{numbers, strings};
use std::alloc::{AllocError, Global};

impl ValueRef<'_> {
    /// Returns the SQL literal of the value (MySQL Reference Manual, "Literal Values").
    ///
    /// Bytes that are UTF-8 become a string, and other bytes a hexadecimal literal. A date or a
    /// time becomes a string; a field out of its usual range is written as it is.
    /// `no_backslash_escape` is for a server in the SQL mode `NO_BACKSLASH_ESCAPES`, in which a
    /// backslash in a string escapes nothing.
    ///
    /// The error `Float` comes exactly for `Float` and `Double`, without allocating. Any other
    /// value can be out of memory.
    pub fn as_sql(self, alloc: Global, no_backslash_escape: bool) -> Result<String, AsSqlError>
        ensures gives { IsAnswer string_bytes literal_refusal
            (ok_or (literal_of no_backslash_escape (owned self.entry)) float)
            (IsSome (literal_of no_backslash_escape (owned self.entry))) result }
        // A float allocates nothing.
        ensures float { IsTrue (is_float (owned self.entry)) → result ≡ Err AsSqlError.Float }
        ensures reads_back { IfOk result
            (λ sql. ReadsAs no_backslash_escape (owned self.entry) (string_bytes sql)) }
        ensures time { IfOk result (λ sql. WritesTimeText (owned self.entry) (string_bytes sql)) }
    {
        let Some(len) = self.sql_len(no_backslash_escape) else {
            return Err(AsSqlError::Float);
        };
        let Ok(len) = usize::try_from(len) else {
            return Err(AsSqlError::Memory(AllocError));
        };
        let mut text = vec![in alloc; 0u8; len]?;
        self.fields_in_range();
        self.put_sql(no_backslash_escape, text.as_mut_slice());
        Ok(unsafe { String::from_utf8_unchecked(text) })
    }

    /// The number of bytes of the value's SQL literal, which is the text of `as_sql`.
    ///
    /// It is `None` exactly for `Float` and `Double`, which have no literal. It allocates nothing.
    /// If the length is above `isize::MAX`, no slice is that long.
    pub fn sql_len(self, no_backslash_escape: bool) -> Option<u128>
        ensures exact { result
            ≡ option_map length (literal_of no_backslash_escape (owned self.entry)) }
        ensures float { is_none result ≡ is_float (owned self.entry) }
    {
        match self {
            ValueRef::NULL => Some(4),
            ValueRef::Bytes(bytes) => Some(strings::bytes_literal_len(bytes, no_backslash_escape)),
            ValueRef::Int(number) => Some(numbers::signed_len(number)),
            ValueRef::UInt(number) => Some(numbers::decimal_len(number) as u128),
            ValueRef::Float(_) | ValueRef::Double(_) => None,
            ValueRef::Date(year, month, day, hour, minute, second, microseconds) => {
                Some(dates::date_len(DateFields {
                    year,
                    month,
                    day,
                    hour,
                    minute,
                    second,
                    microseconds,
                }))
            }
            ValueRef::Time(negative, days, hours, minutes, seconds, microseconds) => {
                Some(dates::time_len(TimeFields {
                    negative,
                    days,
                    hours,
                    minutes,
                    seconds,
                    microseconds,
                }))
            }
        }
    }

    /// Writes the value's SQL literal, which is the text of `as_sql`, over the whole of `room`.
    ///
    /// The value must have a literal, so it must not be a float. `room` must have exactly the
    /// length that `sql_len` returns in the same mode. It allocates nothing and is never refused.
    /// The promises of `as_sql` about its text hold for the bytes in `room` too.
    pub fn put_sql(self, no_backslash_escape: bool, room: &mut [u8])
        requires { option_map length (literal_of no_backslash_escape (owned self))
            ≡ Some (length room.old) }
        ensures exact { literal_of no_backslash_escape (owned self.entry) ≡ Some room.new }
        ensures reads_back { ReadsAs no_backslash_escape (owned self.entry) room.new }
        ensures time { WritesTimeText (owned self.entry) room.new }
    {
        self.fields_in_range();
        self.fill_literal(no_backslash_escape, room);
    }

    // Fills the slice with the literal.
    fn fill_literal(self, no_backslash_escape: bool, buffer: &mut [u8])
        requires { option_map length (literal_of no_backslash_escape (owned self))
            ≡ Some (length buffer.old) }
        ensures { literal_of no_backslash_escape (owned self.entry) ≡ Some buffer.new }
    {
        match self {
            ValueRef::NULL => buffer.copy_from_slice(b"NULL"),
            ValueRef::Bytes(bytes) => strings::fill_bytes_literal(
                buffer,
                bytes,
                no_backslash_escape,
            ),
            ValueRef::Int(number) => numbers::fill_signed(buffer, number),
            ValueRef::UInt(number) => numbers::fill_padded(buffer, number),
            ValueRef::Float(_) | ValueRef::Double(_) => unreachable!(),
            ValueRef::Date(year, month, day, hour, minute, second, microseconds) => {
                dates::fill_date(
                    buffer,
                    DateFields {
                        year,
                        month,
                        day,
                        hour,
                        minute,
                        second,
                        microseconds,
                    },
                )
            }
            ValueRef::Time(negative, days, hours, minutes, seconds, microseconds) => {
                dates::fill_time(
                    buffer,
                    TimeFields {
                        negative,
                        days,
                        hours,
                        minutes,
                        seconds,
                        microseconds,
                    },
                )
            }
        }
    }
}
