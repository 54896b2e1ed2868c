//! Values of arguments: `to_value`.
use crate::inputs::{Plain, bytes};
use crate::outcome::{Case, Outcome, cases, holds, judged, row};
use mysql_values::value::convert::ToValue;
use std::alloc::{AllocError, Global};
use std::borrow::{CowSlice, CowStr};
use std::time::Duration;

/// An argument.
#[derive(Clone, Copy)]
enum Argument {
    Slice,
    Array,
    BorrowedSlice,
    Text,
    BorrowedText,
    Present,
    Reference,
    GreatUnsigned,
    GreatSigned,
    Least,
    Object,
    Vector,
    OwnedSlice,
    String,
    OwnedText,
    Value,
    Numbers,
    NothingAndDurations,
    TooLong,
}

const ARGUMENTS: &[(&str, Argument)] = cases! {
    "to_value of &[u8]" => Argument::Slice;
    "to_value of [u8; 3]" => Argument::Array;
    "to_value of borrowed CowSlice" => Argument::BorrowedSlice;
    "to_value of &str" => Argument::Text;
    "to_value of borrowed CowStr" => Argument::BorrowedText;
    "to_value of Some text" => Argument::Present;
    "to_value of &&str" => Argument::Reference;
    "to_value of a great u128" => Argument::GreatUnsigned;
    "to_value of a great i128" => Argument::GreatSigned;
    "to_value of a least i128" => Argument::Least;
    "to_value of an object" => Argument::Object;
    "to_value of Vec<u8>" => Argument::Vector;
    "to_value of owned CowSlice" => Argument::OwnedSlice;
    "to_value of String" => Argument::String;
    "to_value of owned CowStr" => Argument::OwnedText;
    "to_value of a value of bytes" => Argument::Value;
    "to_value of numbers" => Argument::Numbers;
    "to_value of nothing and durations" => Argument::NothingAndDurations;
    "to_value of a duration that is too long" => Argument::TooLong;
};

/// How the call of this name went, if it stands here.
pub(crate) fn case(alloc: Global, name: &str) -> Option<Case> {
    let case = match row(ARGUMENTS, name)? {
        Argument::Vector => of(alloc, Vec::from_slice(alloc, SLICE)),
        Argument::OwnedSlice => owned_slice(alloc),
        Argument::String => of(alloc, String::from_str(alloc, TEXT)),
        Argument::OwnedText => owned_text(alloc),
        Argument::Value => of(alloc, bytes(alloc, SLICE)),
        Argument::Numbers => {
            holds(signed_numbers(alloc) && unsigned_numbers(alloc) && others(alloc))
        }
        Argument::NothingAndDurations => holds(nothing_and_durations(alloc)),
        Argument::TooLong => Ok(too_long(alloc)),
        other => Ok(borrowed(alloc, other)),
    };
    Some(case)
}

const ABC: Plain = Plain::Bytes(b"abc");

const GREAT: Plain = Plain::Bytes(b"18446744073709551616");

const LEAST: Plain = Plain::Bytes(b"-9223372036854775809");

const SLICE: &[u8] = b"abc";

const GREAT_SIGNED: i128 = 18446744073709551616;

const GREAT_UNSIGNED: u128 = 18446744073709551616;

const BELOW_64_BITS: i128 = -9223372036854775809;

const TEXT: &str = "abc";

fn borrowed(alloc: Global, argument: Argument) -> Outcome {
    match argument {
        Argument::Slice => makes(alloc, &SLICE, ABC),
        Argument::Array => makes(alloc, b"abc", ABC),
        Argument::BorrowedSlice => makes(alloc, &CowSlice::Borrowed(SLICE), ABC),
        Argument::Text => makes(alloc, &TEXT, ABC),
        Argument::BorrowedText => makes(alloc, &CowStr::Borrowed(TEXT), ABC),
        Argument::Present => makes(alloc, &Some(TEXT), ABC),
        Argument::Reference => makes(alloc, &&TEXT, ABC),
        Argument::GreatUnsigned => makes(alloc, &GREAT_UNSIGNED, GREAT),
        Argument::GreatSigned => makes(alloc, &GREAT_SIGNED, GREAT),
        Argument::Least => makes(alloc, &BELOW_64_BITS, LEAST),
        _ => object(alloc),
    }
}

/// The argument has this value.
fn makes<T: ToValue>(alloc: Global, argument: &T, value: Plain<'_>) -> Outcome {
    judged(argument.to_value(alloc), Ok(value))
}

fn object(alloc: Global) -> Outcome {
    let object: &dyn ToValue = &"abc";
    judged(object.to_value(alloc), Ok(ABC))
}

/// The argument, once it is there, has the value of `abc`.
fn of<T: ToValue + Drop>(alloc: Global, argument: Result<T, AllocError>) -> Case {
    Ok(makes(alloc, &argument?, ABC))
}

fn owned_slice(alloc: Global) -> Case {
    let argument = CowSlice::Owned(Vec::from_slice(alloc, b"abc")?);
    Ok(makes(alloc, &argument, ABC))
}

fn owned_text(alloc: Global) -> Case {
    let argument = CowStr::Owned(String::from_str(alloc, "abc")?);
    Ok(makes(alloc, &argument, ABC))
}

/// Whether the argument has this value, which is no bytes.
fn has<T: ToValue>(alloc: Global, argument: &T, value: Plain<'_>) -> bool {
    makes(alloc, argument, value).is_right()
}

fn signed_numbers(alloc: Global) -> bool {
    has(alloc, &-3i8, Plain::Int(-3))
        && has(alloc, &-3i16, Plain::Int(-3))
        && has(alloc, &-3i32, Plain::Int(-3))
        && has(alloc, &-3i64, Plain::Int(-3))
        && has(alloc, &-3isize, Plain::Int(-3))
        && has(alloc, &-3i128, Plain::Int(-3))
        && has(alloc, &true, Plain::Int(1))
}

fn unsigned_numbers(alloc: Global) -> bool {
    has(alloc, &3u8, Plain::UInt(3))
        && has(alloc, &3u16, Plain::UInt(3))
        && has(alloc, &3u32, Plain::UInt(3))
        && has(alloc, &3u64, Plain::UInt(3))
        && has(alloc, &3usize, Plain::UInt(3))
        && has(alloc, &3u128, Plain::UInt(3))
}

fn others(alloc: Global) -> bool {
    let float = Plain::Float(7).without_bytes();
    has(
        alloc,
        &9223372036854775808i128,
        Plain::UInt(9223372036854775808),
    ) && has(alloc, &float, Plain::Float(7))
}

fn nothing_and_durations(alloc: Global) -> bool {
    let minute = Plain::Time(false, 0, 0, 1, 0, 0);
    has(alloc, &None::<&str>, Plain::Null) && has(alloc, &Duration::new(59, 999999500), minute)
}

fn too_long(alloc: Global) -> Outcome {
    let answer = Duration::from_secs(371085174374400).to_value(alloc);
    let refusal = "DurationTooLong(371085174374400s)";
    judged(answer, Err::<Plain, &str>(refusal)).without_memory()
}
