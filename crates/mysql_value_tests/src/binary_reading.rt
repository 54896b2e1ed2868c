//! Values in binary form: as the types of columns read them.
use crate::shared::Plain::{Bytes, Date, Double, Float, Int, Null, Time, UInt};
use crate::shared::{Plain, answer_of, same_in, value, value_ref};
use mysql_values::value::{BinValue, Value, ValueDeserializer, read_binary_value};
use mysql_wire_part::WireError::{BadLengthLead, UnexpectedEof, UnsupportedColumn};
use mysql_wire_part::{ColumnFlags, ColumnType, Flags, MyDeserialize, ParseBuf, WireError};
use std::alloc::Global;

const SIGNED: u16 = 0;

// The flag of unsigned columns, and one that says nothing.
const OTHERS: u16 = 33;

// A table of columns.
macro_rules! columns {
    ($($column:ident, $($field:expr),+;)*) => { &[$((ColumnType::$column, $($field),+)),*] };
}

// The value that the column reads at the front of the buffer.
fn read(
    alloc: Global,
    (column, flags): (ColumnType, u16),
    buf: &mut ParseBuf<'_>,
) -> Result<Value, WireError> {
    let ctx = (column, ColumnFlags::from_bits_retain(flags));
    match ValueDeserializer::<BinValue>::deserialize(alloc, ctx, buf) {
        Ok(read) => Ok(read.0),
        Err(error) => Err(error),
    }
}

// Columns and their flags, bytes, and the value that they begin with.
const READ: &[(ColumnType, u16, &[u8], Plain)] = columns! {
    MYSQL_TYPE_TINY, SIGNED, &[0xFF, 0x2A], Int(-1);
    MYSQL_TYPE_TINY, OTHERS, &[0xFF, 0x2A], Int(255);
    MYSQL_TYPE_TINY, SIGNED, &[0x80, 0x2A], Int(-128);
    MYSQL_TYPE_TINY, OTHERS, &[0x80, 0x2A], Int(128);
    MYSQL_TYPE_TINY, SIGNED, &[0x7F, 0x2A], Int(127);
    MYSQL_TYPE_TINY, OTHERS, &[0x7F, 0x2A], Int(127);
    MYSQL_TYPE_SHORT, SIGNED, &[0xFF, 0xFF, 0x2A], Int(-1);
    MYSQL_TYPE_SHORT, OTHERS, &[0xFF, 0xFF, 0x2A], Int(65535);
    MYSQL_TYPE_SHORT, SIGNED, &[0, 0x80, 0x2A], Int(-32768);
    MYSQL_TYPE_SHORT, OTHERS, &[0, 0x80, 0x2A], Int(32768);
    MYSQL_TYPE_YEAR, SIGNED, &[0xFF, 0x7F, 0x2A], Int(32767);
    MYSQL_TYPE_YEAR, OTHERS, &[0xFF, 0x7F, 0x2A], Int(32767);
    MYSQL_TYPE_YEAR, SIGNED, &[0, 0x80, 0x2A], Int(-32768);
    MYSQL_TYPE_YEAR, OTHERS, &[0, 0x80, 0x2A], Int(32768);
    MYSQL_TYPE_LONG, SIGNED, &[0, 0, 0, 0x80, 0x2A], Int(-2147483648);
    MYSQL_TYPE_LONG, OTHERS, &[0, 0, 0, 0x80, 0x2A], Int(2147483648);
    MYSQL_TYPE_LONG, SIGNED, &[255, 255, 255, 255, 0x2A], Int(-1);
    MYSQL_TYPE_LONG, OTHERS, &[255, 255, 255, 255, 0x2A], Int(4294967295);
    MYSQL_TYPE_SHORT, SIGNED, &[0xFF, 0x7F, 0x2A], Int(32767);
    MYSQL_TYPE_SHORT, OTHERS, &[0xFF, 0x7F, 0x2A], Int(32767);
    MYSQL_TYPE_LONG, SIGNED, &[255, 255, 255, 0x7F, 0x2A], Int(2147483647);
    MYSQL_TYPE_LONG, OTHERS, &[255, 255, 255, 0x7F, 0x2A], Int(2147483647);
    MYSQL_TYPE_INT24, SIGNED, &[0, 0, 0, 0x80, 0x2A], Int(-2147483648);
    MYSQL_TYPE_INT24, OTHERS, &[0, 0, 0, 0x80, 0x2A], Int(2147483648);
    MYSQL_TYPE_INT24, SIGNED, &[255, 255, 255, 0x7F, 0x2A], Int(2147483647);
    MYSQL_TYPE_INT24, OTHERS, &[255, 255, 255, 0x7F, 0x2A], Int(2147483647);
    MYSQL_TYPE_LONGLONG, SIGNED,
        &[255, 255, 255, 255, 255, 255, 255, 0x7F, 0x2A], Int(9223372036854775807);
    MYSQL_TYPE_LONGLONG, OTHERS,
        &[255, 255, 255, 255, 255, 255, 255, 0x7F, 0x2A], Int(9223372036854775807);
    MYSQL_TYPE_LONGLONG, SIGNED, &[0, 0, 0, 0, 0, 0, 0, 0x80, 0x2A], Int(-9223372036854775808);
    MYSQL_TYPE_LONGLONG, OTHERS, &[0, 0, 0, 0, 0, 0, 0, 0x80, 0x2A], UInt(9223372036854775808);
    MYSQL_TYPE_NULL, SIGNED, b"*", Null;
    MYSQL_TYPE_FLOAT, SIGNED, b"\x00\x00\x80\x3F*", Float(1065353216);
    MYSQL_TYPE_DOUBLE, SIGNED, b"\x01\x00\x00\x00\x00\x00\x00\x00*", Double(1);
    MYSQL_TYPE_DATETIME, SIGNED, &[0, 0x2A], Date(0, 0, 0, 0, 0, 0, 0);
    MYSQL_TYPE_DATETIME, SIGNED,
        &[5, 0xE3, 7, 0x0B, 0x1B, 0xFF, 0x2A], Date(2019, 11, 27, 0, 0, 0, 0);
    MYSQL_TYPE_TIMESTAMP, SIGNED,
        &[11, 1, 2, 3, 4, 5, 6, 7, 8, 9, 10, 11, 0x2A], Date(513, 3, 4, 5, 6, 7, 185207048);
    MYSQL_TYPE_DATE, SIGNED,
        &[12, 1, 2, 3, 4, 5, 6, 7, 8, 9, 10, 11, 12, 0x2A], Date(513, 3, 4, 5, 6, 7, 0);
    MYSQL_TYPE_NEWDATE, SIGNED, &[3, 1, 2, 3, 0x2A], Date(0, 0, 0, 0, 0, 0, 0);
    MYSQL_TYPE_TIME, SIGNED,
        &[10, 2, 1, 0, 0, 0, 2, 3, 4, 9, 9, 0x2A], Time(false, 1, 2, 3, 4, 0);
    MYSQL_TYPE_TIME, SIGNED,
        &[12, 1, 2, 3, 4, 5, 6, 7, 8, 9, 10, 11, 12, 0x2A],
        Time(true, 84148994, 6, 7, 8, 202050057);
    MYSQL_TYPE_TIME, SIGNED, &[7, 1, 2, 3, 4, 5, 6, 7, 0x2A], Time(false, 0, 0, 0, 0, 0);
    // A negative time of zero is written so too.
    MYSQL_TYPE_TIME, SIGNED, &[0, 0x2A], Time(false, 0, 0, 0, 0, 0);
    MYSQL_TYPE_STRING, OTHERS, &[1, 0x41, 0x2A], Bytes(b"A");
    MYSQL_TYPE_VAR_STRING, OTHERS, &[1, 0x41, 0x2A], Bytes(b"A");
    MYSQL_TYPE_BLOB, OTHERS, &[1, 0x41, 0x2A], Bytes(b"A");
    MYSQL_TYPE_TINY_BLOB, OTHERS, &[1, 0x41, 0x2A], Bytes(b"A");
    MYSQL_TYPE_MEDIUM_BLOB, OTHERS, &[1, 0x41, 0x2A], Bytes(b"A");
    MYSQL_TYPE_LONG_BLOB, OTHERS, &[1, 0x41, 0x2A], Bytes(b"A");
    MYSQL_TYPE_SET, OTHERS, &[1, 0x41, 0x2A], Bytes(b"A");
    MYSQL_TYPE_ENUM, OTHERS, &[1, 0x41, 0x2A], Bytes(b"A");
    MYSQL_TYPE_DECIMAL, OTHERS, &[1, 0x41, 0x2A], Bytes(b"A");
    MYSQL_TYPE_VARCHAR, OTHERS, &[1, 0x41, 0x2A], Bytes(b"A");
    MYSQL_TYPE_BIT, OTHERS, &[1, 0x41, 0x2A], Bytes(b"A");
    MYSQL_TYPE_NEWDECIMAL, OTHERS, &[1, 0x41, 0x2A], Bytes(b"A");
    MYSQL_TYPE_GEOMETRY, OTHERS, &[1, 0x41, 0x2A], Bytes(b"A");
    MYSQL_TYPE_VECTOR, OTHERS, &[1, 0x41, 0x2A], Bytes(b"A");
    MYSQL_TYPE_JSON, OTHERS, &[1, 0x41, 0x2A], Bytes(b"A");
    MYSQL_TYPE_BLOB, SIGNED, &[0, 0x2A], Bytes(b"");
    MYSQL_TYPE_NEWDECIMAL, SIGNED, &[3, 0x31, 0x2E, 0x35, 0x2A], Bytes(b"1.5");
};

// The byte 42 is left.
#[test]
fn values_that_are_read(rt: HostRuntime) {
    for (column, flags, input, plain) in READ {
        let value = value(&rt, rt.alloc(), *plain);
        let mut buf = ParseBuf(*input);
        let found = answer_of(&rt, read(rt.alloc(), (*column, *flags), &mut buf));
        same_in(&rt, (&found, buf.0), (&value, b"*"), &(column, input));
        let mut buf = ParseBuf(*input);
        let flags = ColumnFlags::from_bits_retain(*flags);
        let found = read_binary_value(*column, flags, &mut buf).ok();
        let wanted = (Some(value_ref(*plain)), b"*".as_slice());
        same_in(&rt, (found, buf.0), wanted, &(column, input));
    }
}

// Values that end too early, lengths whose first byte begins none, and types that are not read.
const REFUSED: &[(ColumnType, &[u8], WireError)] = columns! {
    MYSQL_TYPE_STRING, &[2, 1], UnexpectedEof;
    MYSQL_TYPE_BLOB, &[252, 1], UnexpectedEof;
    MYSQL_TYPE_BLOB, &[253, 1, 0], UnexpectedEof;
    MYSQL_TYPE_BLOB, &[254, 255, 255, 255, 255, 255, 255, 255, 255], UnexpectedEof;
    MYSQL_TYPE_FLOAT, &[1, 2, 3], UnexpectedEof;
    MYSQL_TYPE_DOUBLE, &[1, 2, 3, 4, 5, 6, 7], UnexpectedEof;
    MYSQL_TYPE_DATETIME, &[], UnexpectedEof;
    MYSQL_TYPE_DATETIME, &[4, 0xE3], UnexpectedEof;
    MYSQL_TYPE_TIME, &[8, 1, 2, 3, 4, 5, 6, 7], UnexpectedEof;
    MYSQL_TYPE_TINY, &[], UnexpectedEof;
    MYSQL_TYPE_SHORT, &[0xFF], UnexpectedEof;
    MYSQL_TYPE_YEAR, &[0x7F], UnexpectedEof;
    MYSQL_TYPE_LONG, &[0, 0, 0x80], UnexpectedEof;
    MYSQL_TYPE_INT24, &[0, 0, 0x80], UnexpectedEof;
    MYSQL_TYPE_LONGLONG, &[255, 255, 255, 255, 255, 255, 0x7F], UnexpectedEof;
    MYSQL_TYPE_BLOB, &[0xFB], BadLengthLead(251);
    MYSQL_TYPE_JSON, &[0xFF, 1], BadLengthLead(255);
    MYSQL_TYPE_TIMESTAMP2, &[1, 2], UnsupportedColumn(ColumnType::MYSQL_TYPE_TIMESTAMP2);
    MYSQL_TYPE_DATETIME2, &[1, 2], UnsupportedColumn(ColumnType::MYSQL_TYPE_DATETIME2);
    MYSQL_TYPE_TIME2, &[1, 2], UnsupportedColumn(ColumnType::MYSQL_TYPE_TIME2);
    MYSQL_TYPE_TYPED_ARRAY, &[1, 2], UnsupportedColumn(ColumnType::MYSQL_TYPE_TYPED_ARRAY);
    MYSQL_TYPE_UNKNOWN, &[1, 2], UnsupportedColumn(ColumnType::MYSQL_TYPE_UNKNOWN);
    MYSQL_TYPE_TIMESTAMP2, &[], UnsupportedColumn(ColumnType::MYSQL_TYPE_TIMESTAMP2);
};

#[test]
fn refused_values_leave_the_buffer(rt: HostRuntime) {
    for (column, input, error) in REFUSED {
        let mut buf = ParseBuf(*input);
        let refusal = read(rt.alloc(), (*column, SIGNED), &mut buf).err();
        same_in(
            &rt,
            (refusal.as_ref(), buf.0),
            (Some(error), *input),
            column,
        );
    }
}
