//! Borrowed values in binary form. The form is that of the owned values.
//!
//! These calls have the same bodies as those of [`Value`](crate::value::Value). It would take
//! longer to borrow or copy a value first.
ghost use Rattle.std.specs.Prelude.{◌≡◌, ◌≤◌, ◌++◌, length, IsOk, OnOk, OnErr};
ghost use Rattle.mysql_wire_part.specs.Reading.{read_number, map_read};
ghost use Rattle.mysql_wire_part.specs.Answer.{IsAnswer};
ghost use Rattle.mysql_wire_part.specs.ParseBuf.{left, read_refusal};
ghost use Rattle.mysql_wire_part.specs.Column.{is_unsigned};
ghost use Rattle.mysql_value_core.specs.BorrowedValue.{owned};
ghost use Rattle.mysql_value_core.specs.BinaryForm.{binary_form};
ghost use Rattle.mysql_value_core.specs.BinaryReading.{date_value, time_value, read_bytes_value, read_integer, read_binary};
ghost use Rattle.mysql_value_core.specs.BinaryReadBack.{ReadsBackInBinary};
ghost use Rattle.mysql_value_core.specs.declared.value.Value.TheVariants.{Double, Float, NULL};

use crate::value::ValueRef;
use crate::value::binary::{append_date, append_time, eat_counted};
use byteorder::{ByteOrder, LittleEndian};
use mysql_sql_text::dates::{DateFields, TimeFields};
use mysql_wire_part::{
    ColumnFlags, ColumnType, Flags, MySerialize, ParseBuf, WireError, lenenc_str_len,
    put_lenenc_str,
};
use std::alloc::AllocError;

impl ValueRef<'_> {
    /// The number of bytes of the value's binary form.
    pub fn bin_len(self) -> u64
        ensures count { result ≡ length (binary_form (owned self.entry)) }
    {
        match self {
            ValueRef::NULL => 0,
            ValueRef::Bytes(bytes) => lenenc_str_len(bytes),
            ValueRef::Int(_) | ValueRef::UInt(_) | ValueRef::Double(_) => 8,
            ValueRef::Float(_) => 4,
            ValueRef::Date(0, 0, 0, 0, 0, 0, 0) | ValueRef::Time(_, 0, 0, 0, 0, 0) => 1,
            ValueRef::Date(_, _, _, 0, 0, 0, 0) => 5,
            ValueRef::Date(_, _, _, _, _, _, 0) => 8,
            ValueRef::Date(..) => 12,
            ValueRef::Time(_, _, _, _, _, 0) => 9,
            ValueRef::Time(..) => 13,
        }
    }
}

impl MySerialize for ValueRef<'_> {
    ghost spelling = { λ value. binary_form (owned value) };

    /// Appends the binary form, as a whole or not at all.
    #[tactic(auto, using(crate::proofs::BinaryLemmas::reads_back_in_binary))]
    fn serialize(&self, buf: &mut Vec<u8>) -> Result<(), AllocError>
        ensures appended { OnOk result
            (buf.new.items ≡ buf.old.items ++ binary_form (owned self.now)) }
        ensures unchanged { OnErr result (buf.new.items ≡ buf.old.items) }
        ensures no_memory { owned self.now ≡ NULL → IsOk result }
        ensures reads_back { ReadsBackInBinary (owned self.now) }
    {
        self.fields_in_range();
        match *self {
            ValueRef::NULL => Ok(()),
            ValueRef::Bytes(bytes) => put_lenenc_str(buf, bytes),
            ValueRef::Int(number) => buf.extend_from_slice(&number.to_le_bytes()),
            ValueRef::UInt(number) => buf.extend_from_slice(&number.to_le_bytes()),
            ValueRef::Float(bits) => buf.extend_from_slice(&bits.to_le_bytes()),
            ValueRef::Double(bits) => buf.extend_from_slice(&bits.to_le_bytes()),
            ValueRef::Date(year, month, day, hour, minute, second, microseconds) => {
                append_date(
                    buf,
                    DateFields {
                        year,
                        month,
                        day,
                        hour,
                        minute,
                        second,
                        microseconds,
                    },
                )
            }
            ValueRef::Time(negative, days, hours, minutes, seconds, microseconds) => {
                append_time(
                    buf,
                    TimeFields {
                        negative,
                        days,
                        hours,
                        minutes,
                        seconds,
                        microseconds,
                    },
                )
            }
        }
    }
}

/// Reads the value at the front of the buffer by the type of its column and its flags. The value
/// borrows its bytes from the buffer, and nothing is copied. After an error the buffer is
/// unchanged.
pub fn read_binary_value<'b>(
    column: ColumnType,
    flags: ColumnFlags,
    buf: &mut ParseBuf<'b>,
) -> Result<ValueRef<'b>, WireError>
    // It allocates nothing, so it is never out of memory.
    ensures read { IsAnswer (λ value. (owned value, left buf.new)) read_refusal
        (read_binary column (is_unsigned flags) (left buf.old)) ⊥ result }
    ensures unchanged { OnErr result (left buf.new ≡ left buf.old) }
{
    let mut rest = *buf;
    let unsigned = flags.contains(ColumnFlags::UNSIGNED_FLAG);
    let value = eat_binary(column, unsigned, &mut rest)?;
    *buf = rest;
    Ok(value)
}

// The value at the front of the buffer, read by the type of its column. After an error, some of the
// buffer's bytes may have been taken off.
fn eat_binary<'b>(
    column: ColumnType,
    unsigned: bool,
    buf: &mut ParseBuf<'b>,
) -> Result<ValueRef<'b>, WireError>
    ensures read { IsAnswer (λ value. (owned value, left buf.new)) read_refusal
        (read_binary column unsigned (left buf.old)) ⊥ result }
{
    match column {
        ColumnType::MYSQL_TYPE_BIT
        | ColumnType::MYSQL_TYPE_BLOB
        | ColumnType::MYSQL_TYPE_DECIMAL
        | ColumnType::MYSQL_TYPE_ENUM
        | ColumnType::MYSQL_TYPE_GEOMETRY
        | ColumnType::MYSQL_TYPE_JSON
        | ColumnType::MYSQL_TYPE_LONG_BLOB
        | ColumnType::MYSQL_TYPE_MEDIUM_BLOB
        | ColumnType::MYSQL_TYPE_NEWDECIMAL
        | ColumnType::MYSQL_TYPE_SET
        | ColumnType::MYSQL_TYPE_STRING
        | ColumnType::MYSQL_TYPE_TINY_BLOB
        | ColumnType::MYSQL_TYPE_VARCHAR
        | ColumnType::MYSQL_TYPE_VAR_STRING
        | ColumnType::MYSQL_TYPE_VECTOR => eat_string(buf),
        ColumnType::MYSQL_TYPE_TINY => eat_integer(1, unsigned, buf),
        ColumnType::MYSQL_TYPE_SHORT | ColumnType::MYSQL_TYPE_YEAR => eat_integer(2, unsigned, buf),
        ColumnType::MYSQL_TYPE_LONG | ColumnType::MYSQL_TYPE_INT24 => eat_integer(4, unsigned, buf),
        ColumnType::MYSQL_TYPE_LONGLONG => eat_integer(8, unsigned, buf),
        ColumnType::MYSQL_TYPE_FLOAT => eat_float(buf),
        ColumnType::MYSQL_TYPE_DOUBLE => eat_double(buf),
        ColumnType::MYSQL_TYPE_NULL => Ok(ValueRef::NULL),
        ColumnType::MYSQL_TYPE_TIME => Ok(time_of(eat_counted(buf)?)),
        ColumnType::MYSQL_TYPE_DATE
        | ColumnType::MYSQL_TYPE_DATETIME
        | ColumnType::MYSQL_TYPE_NEWDATE
        | ColumnType::MYSQL_TYPE_TIMESTAMP => Ok(date_of(eat_counted(buf)?)),
        ColumnType::MYSQL_TYPE_TIMESTAMP2
        | ColumnType::MYSQL_TYPE_DATETIME2
        | ColumnType::MYSQL_TYPE_TIME2
        | ColumnType::MYSQL_TYPE_TYPED_ARRAY
        | ColumnType::MYSQL_TYPE_UNKNOWN => Err(WireError::UnsupportedColumn(column)),
    }
}

// A length-encoded string.
fn eat_string<'b>(buf: &mut ParseBuf<'b>) -> Result<ValueRef<'b>, WireError>
    ensures read { IsAnswer (λ value. (owned value, left buf.new)) read_refusal
        (read_bytes_value (left buf.old)) ⊥ result }
{
    let text = buf.eat_lenenc_str()?;
    Ok(ValueRef::Bytes(text))
}

// A whole number of `width` bytes.
fn eat_integer<'b>(
    width: usize,
    unsigned: bool,
    buf: &mut ParseBuf<'b>,
) -> Result<ValueRef<'b>, WireError>
    requires low { 1 ≤ width }
    requires high { width ≤ 8 }
    ensures read { IsAnswer (λ value. (owned value, left buf.new)) read_refusal
        (read_integer width unsigned (left buf.old)) ⊥ result }
{
    let bytes = buf.0;
    if buf.checked_eat_buf(width).is_none() {
        return Err(WireError::UnexpectedEof);
    }
    if !unsigned {
        return Ok(ValueRef::Int(LittleEndian::read_int(bytes, width)));
    }
    let number = LittleEndian::read_uint(bytes, width);
    match i64::try_from(number) {
        Ok(number) => Ok(ValueRef::Int(number)),
        Err(_) => Ok(ValueRef::UInt(number)),
    }
}

// The 4 bytes of a `Float`.
fn eat_float<'b>(buf: &mut ParseBuf<'b>) -> Result<ValueRef<'b>, WireError>
    ensures read { IsAnswer (λ value. (owned value, left buf.new)) read_refusal
        (map_read (λ bits. Float bits) (read_number 4 (left buf.old))) ⊥ result }
{
    let bits = buf.checked_eat_u32_le().ok_or(WireError::UnexpectedEof)?;
    Ok(ValueRef::Float(bits))
}

// The 8 bytes of a `Double`.
fn eat_double<'b>(buf: &mut ParseBuf<'b>) -> Result<ValueRef<'b>, WireError>
    ensures read { IsAnswer (λ value. (owned value, left buf.new)) read_refusal
        (map_read (λ bits. Double bits) (read_number 8 (left buf.old))) ⊥ result }
{
    let bits = buf.checked_eat_u64_le().ok_or(WireError::UnexpectedEof)?;
    Ok(ValueRef::Double(bits))
}

// The date of these bytes.
fn date_of<'b>(fields: &[u8]) -> ValueRef<'b>
    ensures fields { owned result ≡ date_value fields.now }
{
    match fields {
        [y0, y1, month, day, hour, minute, second, u0, u1, u2, u3] => {
            let year = u16::from_le_bytes([*y0, *y1]);
            let microseconds = u32::from_le_bytes([*u0, *u1, *u2, *u3]);
            ValueRef::Date(year, *month, *day, *hour, *minute, *second, microseconds)
        }
        [y0, y1, month, day, hour, minute, second, ..] => {
            let year = u16::from_le_bytes([*y0, *y1]);
            ValueRef::Date(year, *month, *day, *hour, *minute, *second, 0)
        }
        [y0, y1, month, day, ..] => {
            let year = u16::from_le_bytes([*y0, *y1]);
            ValueRef::Date(year, *month, *day, 0, 0, 0, 0)
        }
        _ => ValueRef::Date(0, 0, 0, 0, 0, 0, 0),
    }
}

// The time of these bytes.
fn time_of<'b>(fields: &[u8]) -> ValueRef<'b>
    ensures fields { owned result ≡ time_value fields.now }
{
    match fields {
        [
            sign,
            d0,
            d1,
            d2,
            d3,
            hours,
            minutes,
            seconds,
            u0,
            u1,
            u2,
            u3,
        ] => {
            let days = u32::from_le_bytes([*d0, *d1, *d2, *d3]);
            let microseconds = u32::from_le_bytes([*u0, *u1, *u2, *u3]);
            ValueRef::Time(*sign == 1, days, *hours, *minutes, *seconds, microseconds)
        }
        [sign, d0, d1, d2, d3, hours, minutes, seconds, ..] => {
            let days = u32::from_le_bytes([*d0, *d1, *d2, *d3]);
            ValueRef::Time(*sign == 1, days, *hours, *minutes, *seconds, 0)
        }
        _ => ValueRef::Time(false, 0, 0, 0, 0, 0),
    }
}
