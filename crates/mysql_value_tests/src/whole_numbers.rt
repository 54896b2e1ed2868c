//! Conversions to whole numbers, and back.
use crate::shared::Plain::{Bytes, Date, Double, Float, Int, Null, Time, UInt};
use crate::shared::{Plain, converts, same_in};
use mysql_values::value::convert::{FromValue, ToValue, WholeNumber};
use std::alloc::Global;
use std::process::Abort;

// Values, and the value of the number that each type converts them to.
const SMALL: &[(Plain, Plain)] = &[
    (Int(0), Int(0)),
    (Int(1), Int(1)),
    (Int(-1), Int(-1)),
    (UInt(0), Int(0)),
    (UInt(1), Int(1)),
    (Bytes(b"0"), Int(0)),
    (Bytes(b"1"), Int(1)),
    (Bytes(b"-1"), Int(-1)),
];

const SMALL_UNSIGNED: &[(Plain, Plain)] = &[
    (UInt(0), UInt(0)),
    (UInt(1), UInt(1)),
    (Int(0), UInt(0)),
    (Int(1), UInt(1)),
    (Bytes(b"0"), UInt(0)),
    (Bytes(b"1"), UInt(1)),
];

// Values that no type holds: texts of too many digits, and values of no number.
const NO_NUMBERS: &[Plain] = &[
    Bytes(b"340282366920938463463374607431768211456"),
    Bytes(b"-170141183460469231731687303715884105729"),
    Bytes(b"-340282366920938463463374607431768211457"),
    Bytes(b"9999999999999999999999999999999999999999999999999999"),
    Null,
    Float(0),
    Double(0),
    Date(0, 0, 0, 0, 0, 0, 0),
    Time(false, 0, 0, 0, 0, 0),
];

const NO_UNSIGNED: &[Plain] = &[Int(-1), Bytes(b"-1")];

fn converts_signed<T: FromValue + ToValue + Drop>(
    rt: &impl Abort,
    alloc: Global,
    rows: &[(Plain, Plain)],
    refused: &[Plain],
) {
    converts::<T>(rt, alloc, SMALL, NO_NUMBERS);
    converts::<T>(rt, alloc, rows, refused);
}

fn converts_unsigned<T: FromValue + ToValue + Drop>(
    rt: &impl Abort,
    alloc: Global,
    rows: &[(Plain, Plain)],
    refused: &[Plain],
) {
    converts::<T>(rt, alloc, SMALL_UNSIGNED, NO_NUMBERS);
    converts::<T>(rt, alloc, &[], NO_UNSIGNED);
    converts::<T>(rt, alloc, rows, refused);
}

// Of each type: its least and greatest number, and the next ones.
const I8: &[(Plain, Plain)] = &[
    (Bytes(b"-128"), Int(-128)),
    (Int(-128), Int(-128)),
    (Bytes(b"127"), Int(127)),
    (Int(127), Int(127)),
    (UInt(127), Int(127)),
];

const NO_I8: &[Plain] = &[
    Bytes(b"-129"),
    Bytes(b"128"),
    Int(-129),
    Int(128),
    UInt(128),
];

const I16: &[(Plain, Plain)] = &[
    (Bytes(b"-32768"), Int(-32768)),
    (Int(-32768), Int(-32768)),
    (Bytes(b"32767"), Int(32767)),
    (Int(32767), Int(32767)),
    (UInt(32767), Int(32767)),
];

const NO_I16: &[Plain] = &[
    Bytes(b"-32769"),
    Bytes(b"32768"),
    Int(-32769),
    Int(32768),
    UInt(32768),
];

const I32: &[(Plain, Plain)] = &[
    (Bytes(b"-2147483648"), Int(-2147483648)),
    (Int(-2147483648), Int(-2147483648)),
    (Bytes(b"2147483647"), Int(2147483647)),
    (Int(2147483647), Int(2147483647)),
    (UInt(2147483647), Int(2147483647)),
];

const NO_I32: &[Plain] = &[
    Bytes(b"-2147483649"),
    Bytes(b"2147483648"),
    Int(-2147483649),
    Int(2147483648),
    UInt(2147483648),
];

// `isize` too.
const I64: &[(Plain, Plain)] = &[
    (Bytes(b"-9223372036854775808"), Int(-9223372036854775808)),
    (Int(-9223372036854775808), Int(-9223372036854775808)),
    (Bytes(b"9223372036854775807"), Int(9223372036854775807)),
    (Int(9223372036854775807), Int(9223372036854775807)),
    (UInt(9223372036854775807), Int(9223372036854775807)),
];

const NO_I64: &[Plain] = &[
    Bytes(b"-9223372036854775809"),
    Bytes(b"9223372036854775808"),
    UInt(9223372036854775808),
];

// Beyond 64 bits the value is the text.
const I128: &[(Plain, Plain)] = &[
    (WIDE, WIDE),
    (NEGATIVE, NEGATIVE),
    (LEAST, LEAST),
    (GREATEST, GREATEST),
    (BELOW_64_BITS, BELOW_64_BITS),
    (ABOVE_64_BITS, ABOVE_64_BITS),
    (UInt(9223372036854775808), UInt(9223372036854775808)),
];

const WIDE: Plain = Bytes(b"169999999999999999999999999999999999999");

const NEGATIVE: Plain = Bytes(b"-169999999999999999999999999999999999999");

const LEAST: Plain = Bytes(b"-170141183460469231731687303715884105728");

const GREATEST: Plain = Bytes(b"170141183460469231731687303715884105727");

const BELOW_64_BITS: Plain = Bytes(b"-9223372036854775809");

const ABOVE_64_BITS: Plain = Bytes(b"18446744073709551616");

const NO_I128: &[Plain] = &[Bytes(b"170141183460469231731687303715884105728")];

#[test]
fn signed(rt: HostRuntime) {
    let alloc = rt.alloc();
    converts_signed::<i8>(&rt, alloc, I8, NO_I8);
    converts_signed::<i16>(&rt, alloc, I16, NO_I16);
    converts_signed::<i32>(&rt, alloc, I32, NO_I32);
    converts_signed::<i64>(&rt, alloc, I64, NO_I64);
    converts_signed::<isize>(&rt, alloc, I64, NO_I64);
    converts_signed::<i128>(&rt, alloc, I128, NO_I128);
}

const U8: &[(Plain, Plain)] = &[
    (Bytes(b"0000000255"), UInt(255)),
    (Bytes(b"255"), UInt(255)),
    (Bytes(b"-0"), UInt(0)),
    (Bytes(b"+7"), UInt(7)),
    (Bytes(b"-000"), UInt(0)),
    (Int(255), UInt(255)),
    (UInt(255), UInt(255)),
];

// Texts of no number, texts of others, and values that the type doesn't hold.
const NO_U8: &[Plain] = &[
    Bytes(b""),
    Bytes(b"+"),
    Bytes(b"-"),
    Bytes(b"--1"),
    Bytes(b"+-1"),
    Bytes(b"256"),
    Bytes(b"1a"),
    Bytes(b" 1"),
    Bytes(b"1 "),
    Bytes(b"0x1"),
    Bytes(b"1.0"),
    // An Arabic-Indic digit.
    Bytes(b"\xD9\xA1"),
    UInt(256),
    UInt(300),
    Int(300),
];

const U16: &[(Plain, Plain)] = &[
    (Bytes(b"65535"), UInt(65535)),
    (UInt(65535), UInt(65535)),
    (Int(65535), UInt(65535)),
];

const NO_U16: &[Plain] = &[Bytes(b"65536"), UInt(65536), Int(65536)];

const U32: &[(Plain, Plain)] = &[
    (Bytes(b"4294967295"), UInt(4294967295)),
    (UInt(4294967295), UInt(4294967295)),
    (Int(4294967295), UInt(4294967295)),
];

const NO_U32: &[Plain] = &[Bytes(b"4294967296"), UInt(4294967296), Int(4294967296)];

// `usize` too.
const U64: &[(Plain, Plain)] = &[
    (Bytes(b"18446744073709551615"), UInt(18446744073709551615)),
    (UInt(18446744073709551615), UInt(18446744073709551615)),
];

const NO_U64: &[Plain] = &[Bytes(b"18446744073709551616")];

const U128: &[(Plain, Plain)] = &[
    (WIDE, WIDE),
    (GREATEST_UNSIGNED, GREATEST_UNSIGNED),
    (UInt(18446744073709551615), UInt(18446744073709551615)),
    (Int(7), UInt(7)),
];

const GREATEST_UNSIGNED: Plain = Bytes(b"340282366920938463463374607431768211455");

#[test]
fn unsigned(rt: HostRuntime) {
    let alloc = rt.alloc();
    converts_unsigned::<u8>(&rt, alloc, U8, NO_U8);
    converts_unsigned::<u16>(&rt, alloc, U16, NO_U16);
    converts_unsigned::<u32>(&rt, alloc, U32, NO_U32);
    converts_unsigned::<u64>(&rt, alloc, U64, NO_U64);
    converts_unsigned::<usize>(&rt, alloc, U64, NO_U64);
    converts_unsigned::<u128>(&rt, alloc, U128, &[]);
}

#[test]
fn parts(rt: HostRuntime) {
    let found = ((-128i8).to_parts(), 255u8.to_parts(), i128::MIN.to_parts());
    let least = (true, 170141183460469231731687303715884105728);
    same_in(&rt, found, ((true, 128), (false, 255), least), &"to parts");
    let found = (
        u8::from_parts(false, 256),
        i8::from_parts(true, 128),
        u8::from_parts(true, 0),
    );
    same_in(&rt, found, (None, Some(-128), Some(0)), &"from parts");
}
