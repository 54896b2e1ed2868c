//! Values in binary form, in rows and in a statement's parameters.
ghost use Rattle.std.specs.Prelude.{◌≡◌, ◌≤◌, ◌++◌, length, None, IsOk, OnOk, OnErr};
ghost use Rattle.mysql_wire_part.specs.Reading.{read_number, map_read};
ghost use Rattle.mysql_wire_part.specs.Answer.{IsAnswer};
ghost use Rattle.mysql_wire_part.specs.ParseBuf.{left, read_refusal};
ghost use Rattle.mysql_wire_part.specs.Column.{is_unsigned};
ghost use Rattle.mysql_value_core.specs.TextCell.{ReadsBytes};
ghost use Rattle.mysql_value_core.specs.BinaryForm.{binary_form, date_form, time_form};
ghost use Rattle.mysql_value_core.specs.BinaryReading.{date_value, time_value, read_counted, read_bytes_value, read_integer, read_binary};
ghost use Rattle.mysql_value_core.specs.BinaryReadBack.{ReadsBackInBinary};
ghost use Rattle.mysql_value_core.specs.declared.value.Value as value;

use crate::value::{Bytes, Value, ValueDeserializer};
use byteorder::{ByteOrder, LittleEndian};
use mysql_sql_text::dates::{DateFields, TimeFields};
use mysql_wire_part::{
    ColumnFlags, ColumnType, Flags, MyDeserialize, MySerialize, ParseBuf, WireError,
    lenenc_str_len, put_lenenc_str,
};
use std::alloc::{AllocError, Global};
use std::marker::PhantomData;

/// The binary form of a value. It depends on the type and the unsigned flag of its column.
#[derive(Drop)]
pub struct BinValue;

impl Value {
    /// The number of bytes of the value's binary form.
    pub fn bin_len(&self) -> u64
        ensures count { result ≡ length (binary_form self.now) }
    {
        match self {
            Value::NULL => 0,
            Value::Bytes(bytes) => lenenc_str_len(bytes.as_slice()),
            Value::Int(_) | Value::UInt(_) | Value::Double(_) => 8,
            Value::Float(_) => 4,
            Value::Date(0, 0, 0, 0, 0, 0, 0) | Value::Time(_, 0, 0, 0, 0, 0) => 1,
            Value::Date(_, _, _, 0, 0, 0, 0) => 5,
            Value::Date(_, _, _, _, _, _, 0) => 8,
            Value::Date(..) => 12,
            Value::Time(_, _, _, _, _, 0) => 9,
            Value::Time(..) => 13,
        }
    }
}

impl MySerialize for Value {
    ghost spelling = { binary_form };

    /// Appends the binary form, as a whole or not at all.
    #[tactic(auto, using(crate::proofs::BinaryLemmas::reads_back_in_binary))]
    fn serialize(&self, buf: &mut Vec<u8>) -> Result<(), AllocError>
        ensures appended { OnOk result (buf.new.items ≡ buf.old.items ++ binary_form self.now) }
        ensures unchanged { OnErr result (buf.new.items ≡ buf.old.items) }
        ensures no_memory { self.now ≡ Value.NULL → IsOk result }
        ensures reads_back { ReadsBackInBinary self.now }
    {
        self.fields_in_range();
        match self {
            Value::NULL => Ok(()),
            Value::Bytes(bytes) => put_lenenc_str(buf, bytes.as_slice()),
            Value::Int(number) => buf.extend_from_slice(&number.to_le_bytes()),
            Value::UInt(number) => buf.extend_from_slice(&number.to_le_bytes()),
            Value::Float(bits) => buf.extend_from_slice(&bits.to_le_bytes()),
            Value::Double(bits) => buf.extend_from_slice(&bits.to_le_bytes()),
            &Value::Date(year, month, day, hour, minute, second, microseconds) => {
                append_date(
                    buf,
                    DateFields {
                        year,
                        month,
                        day,
                        hour,
                        minute,
                        second,
                        microseconds,
                    },
                )
            }
            &Value::Time(negative, days, hours, minutes, seconds, microseconds) => {
                append_time(
                    buf,
                    TimeFields {
                        negative,
                        days,
                        hours,
                        minutes,
                        seconds,
                        microseconds,
                    },
                )
            }
        }
    }
}

/// Appends the binary form of a date.
pub(super) fn append_date(buf: &mut Vec<u8>, date: DateFields) -> Result<(), AllocError>
    ensures appended { OnOk result (buf.new.items ≡ buf.old.items
        ++ date_form date.year date.month date.day
        date.hour date.minute date.second date.microseconds) }
    ensures unchanged { OnErr result (buf.new.items ≡ buf.old.items) }
{
    let DateFields {
        year,
        month,
        day,
        hour,
        minute,
        second,
        microseconds,
    } = date;
    let [y0, y1] = year.to_le_bytes();
    if microseconds != 0 {
        let [u0, u1, u2, u3] = microseconds.to_le_bytes();
        let form = [11, y0, y1, month, day, hour, minute, second, u0, u1, u2, u3];
        return buf.extend_from_slice(&form);
    }
    if hour != 0 || minute != 0 || second != 0 {
        return buf.extend_from_slice(&[7, y0, y1, month, day, hour, minute, second]);
    }
    if year != 0 || month != 0 || day != 0 {
        return buf.extend_from_slice(&[4, y0, y1, month, day]);
    }
    buf.extend_from_slice(&[0])
}

/// Appends the binary form of a time.
pub(super) fn append_time(buf: &mut Vec<u8>, time: TimeFields) -> Result<(), AllocError>
    ensures appended { OnOk result (buf.new.items ≡ buf.old.items
        ++ time_form time.negative time.days time.hours
        time.minutes time.seconds time.microseconds) }
    ensures unchanged { OnErr result (buf.new.items ≡ buf.old.items) }
{
    let TimeFields {
        negative,
        days,
        hours,
        minutes,
        seconds,
        microseconds,
    } = time;
    let sign = u8::from(negative);
    let [d0, d1, d2, d3] = days.to_le_bytes();
    if microseconds != 0 {
        let [u0, u1, u2, u3] = microseconds.to_le_bytes();
        let form = [
            12, sign, d0, d1, d2, d3, hours, minutes, seconds, u0, u1, u2, u3,
        ];
        return buf.extend_from_slice(&form);
    }
    if days != 0 || hours != 0 || minutes != 0 || seconds != 0 {
        return buf.extend_from_slice(&[8, sign, d0, d1, d2, d3, hours, minutes, seconds]);
    }
    buf.extend_from_slice(&[0])
}

impl<'de> MyDeserialize<'de> for ValueDeserializer<BinValue> {
    const SIZE: Option<usize> = None;

    ghost SIZE = { None };

    type Ctx = (ColumnType, ColumnFlags);

    ghost Seen = { value.Value };

    ghost seen = { λ deserializer. deserializer.0 };

    ghost reads = { λ ctx bytes. read_binary ctx.0 (is_unsigned ctx.1) bytes };

    ghost takes_memory = { λ ctx bytes. ReadsBytes (read_binary ctx.0 (is_unsigned ctx.1) bytes) };

    // It is inlined, like `read_text_cells`.
    #[inline(always)]
    fn deserialize(
        alloc: Global,
        ctx: (ColumnType, ColumnFlags),
        buf: &mut ParseBuf<'de>,
    ) -> Result<Self, WireError>
        // Only the read of bytes allocates, so no other read is out of memory.
        ensures read { IsAnswer (λ read. (read.0, left buf.new)) read_refusal
            (read_binary ctx.0 (is_unsigned ctx.1) (left buf.old))
            (ReadsBytes (read_binary ctx.0 (is_unsigned ctx.1) (left buf.old))) result }
        ensures unchanged { OnErr result (left buf.new ≡ left buf.old) }
    {
        let mut rest = *buf;
        let unsigned = ctx.1.contains(ColumnFlags::UNSIGNED_FLAG);
        let value = eat_binary(alloc, ctx.0, unsigned, &mut rest)?;
        *buf = rest;
        Ok(ValueDeserializer(value, PhantomData))
    }
}

// The value at the front of the buffer, read by the type of its column. After an error, some of the
// buffer's bytes may have been taken off.
#[inline(always)]
fn eat_binary(
    alloc: Global,
    column: ColumnType,
    unsigned: bool,
    buf: &mut ParseBuf<'_>,
) -> Result<Value, WireError>
    ensures read { IsAnswer (λ value. (value, left buf.new)) read_refusal
        (read_binary column unsigned (left buf.old))
        (ReadsBytes (read_binary column unsigned (left buf.old))) result }
{
    match column {
        ColumnType::MYSQL_TYPE_BIT
        | ColumnType::MYSQL_TYPE_BLOB
        | ColumnType::MYSQL_TYPE_DECIMAL
        | ColumnType::MYSQL_TYPE_ENUM
        | ColumnType::MYSQL_TYPE_GEOMETRY
        | ColumnType::MYSQL_TYPE_JSON
        | ColumnType::MYSQL_TYPE_LONG_BLOB
        | ColumnType::MYSQL_TYPE_MEDIUM_BLOB
        | ColumnType::MYSQL_TYPE_NEWDECIMAL
        | ColumnType::MYSQL_TYPE_SET
        | ColumnType::MYSQL_TYPE_STRING
        | ColumnType::MYSQL_TYPE_TINY_BLOB
        | ColumnType::MYSQL_TYPE_VARCHAR
        | ColumnType::MYSQL_TYPE_VAR_STRING
        | ColumnType::MYSQL_TYPE_VECTOR => eat_string(alloc, buf),
        ColumnType::MYSQL_TYPE_TINY => eat_integer(1, unsigned, buf),
        ColumnType::MYSQL_TYPE_SHORT | ColumnType::MYSQL_TYPE_YEAR => eat_integer(2, unsigned, buf),
        ColumnType::MYSQL_TYPE_LONG | ColumnType::MYSQL_TYPE_INT24 => eat_integer(4, unsigned, buf),
        ColumnType::MYSQL_TYPE_LONGLONG => eat_integer(8, unsigned, buf),
        ColumnType::MYSQL_TYPE_FLOAT => eat_float(buf),
        ColumnType::MYSQL_TYPE_DOUBLE => eat_double(buf),
        ColumnType::MYSQL_TYPE_NULL => Ok(Value::NULL),
        ColumnType::MYSQL_TYPE_TIME => Ok(time_of(eat_counted(buf)?)),
        ColumnType::MYSQL_TYPE_DATE
        | ColumnType::MYSQL_TYPE_DATETIME
        | ColumnType::MYSQL_TYPE_NEWDATE
        | ColumnType::MYSQL_TYPE_TIMESTAMP => Ok(date_of(eat_counted(buf)?)),
        ColumnType::MYSQL_TYPE_TIMESTAMP2
        | ColumnType::MYSQL_TYPE_DATETIME2
        | ColumnType::MYSQL_TYPE_TIME2
        | ColumnType::MYSQL_TYPE_TYPED_ARRAY
        | ColumnType::MYSQL_TYPE_UNKNOWN => Err(WireError::UnsupportedColumn(column)),
    }
}

// A copy of a length-encoded string.
fn eat_string(alloc: Global, buf: &mut ParseBuf<'_>) -> Result<Value, WireError>
    ensures read { IsAnswer (λ value. (value, left buf.new)) read_refusal
        (read_bytes_value (left buf.old)) (ReadsBytes (read_bytes_value (left buf.old))) result }
{
    let text = buf.eat_lenenc_str()?;
    let bytes = Bytes::from(Vec::from_slice(alloc, text)?);
    Ok(Value::Bytes(bytes))
}

// A whole number of `width` bytes.
fn eat_integer(width: usize, unsigned: bool, buf: &mut ParseBuf<'_>) -> Result<Value, WireError>
    requires low { 1 ≤ width }
    requires high { width ≤ 8 }
    ensures read { IsAnswer (λ value. (value, left buf.new)) read_refusal
        (read_integer width unsigned (left buf.old)) ⊥ result }
{
    let bytes = buf.0;
    if buf.checked_eat_buf(width).is_none() {
        return Err(WireError::UnexpectedEof);
    }
    if !unsigned {
        return Ok(Value::Int(LittleEndian::read_int(bytes, width)));
    }
    let number = LittleEndian::read_uint(bytes, width);
    match i64::try_from(number) {
        Ok(number) => Ok(Value::Int(number)),
        Err(_) => Ok(Value::UInt(number)),
    }
}

// The 4 bytes of a `Float`.
fn eat_float(buf: &mut ParseBuf<'_>) -> Result<Value, WireError>
    ensures read { IsAnswer (λ value. (value, left buf.new)) read_refusal
        (map_read (λ bits. Value.Float bits) (read_number 4 (left buf.old))) ⊥ result }
{
    let bits = buf.checked_eat_u32_le().ok_or(WireError::UnexpectedEof)?;
    Ok(Value::Float(bits))
}

// The 8 bytes of a `Double`.
fn eat_double(buf: &mut ParseBuf<'_>) -> Result<Value, WireError>
    ensures read { IsAnswer (λ value. (value, left buf.new)) read_refusal
        (map_read (λ bits. Value.Double bits) (read_number 8 (left buf.old))) ⊥ result }
{
    let bits = buf.checked_eat_u64_le().ok_or(WireError::UnexpectedEof)?;
    Ok(Value::Double(bits))
}

/// Takes a length byte off the buffer, and returns that many of the next bytes.
pub(super) fn eat_counted<'a>(buf: &mut ParseBuf<'a>) -> Result<&'a [u8], WireError>
    ensures read { IsAnswer (λ fields. (fields.now, left buf.new)) read_refusal
        (read_counted (left buf.old)) ⊥ result }
{
    let count = buf.checked_eat_u8().ok_or(WireError::UnexpectedEof)?;
    let fields = buf
        .checked_eat_buf(count as usize)
        .ok_or(WireError::UnexpectedEof)?;
    Ok(fields.0)
}

// The date of these bytes.
fn date_of(fields: &[u8]) -> Value
    ensures fields { result ≡ date_value fields.now }
{
    match fields {
        [y0, y1, month, day, hour, minute, second, u0, u1, u2, u3] => {
            let year = u16::from_le_bytes([*y0, *y1]);
            let microseconds = u32::from_le_bytes([*u0, *u1, *u2, *u3]);
            Value::Date(year, *month, *day, *hour, *minute, *second, microseconds)
        }
        [y0, y1, month, day, hour, minute, second, ..] => {
            let year = u16::from_le_bytes([*y0, *y1]);
            Value::Date(year, *month, *day, *hour, *minute, *second, 0)
        }
        [y0, y1, month, day, ..] => {
            let year = u16::from_le_bytes([*y0, *y1]);
            Value::Date(year, *month, *day, 0, 0, 0, 0)
        }
        _ => Value::Date(0, 0, 0, 0, 0, 0, 0),
    }
}

// The time of these bytes.
fn time_of(fields: &[u8]) -> Value
    ensures fields { result ≡ time_value fields.now }
{
    match fields {
        [
            sign,
            d0,
            d1,
            d2,
            d3,
            hours,
            minutes,
            seconds,
            u0,
            u1,
            u2,
            u3,
        ] => {
            let days = u32::from_le_bytes([*d0, *d1, *d2, *d3]);
            let microseconds = u32::from_le_bytes([*u0, *u1, *u2, *u3]);
            Value::Time(*sign == 1, days, *hours, *minutes, *seconds, microseconds)
        }
        [sign, d0, d1, d2, d3, hours, minutes, seconds, ..] => {
            let days = u32::from_le_bytes([*d0, *d1, *d2, *d3]);
            Value::Time(*sign == 1, days, *hours, *minutes, *seconds, 0)
        }
        _ => Value::Time(false, 0, 0, 0, 0, 0),
    }
}
