//! Conversions and their way back.
use crate::inputs::{Plain, bytes};
use crate::outcome::{Case, Is, Outcome, cases, holds, judged, row};
use mysql_values::value::Value;
use mysql_values::value::convert::{
    FromValue, IntoValue, OptionIr2, ParseIr, ParseIrOpt, ValueIr, from_value, from_value_opt,
};
use std::alloc::{AllocError, Global};
use std::borrow::{CowSlice, CowStr};
use std::time::Duration;

/// What is handed back.
#[derive(Clone, Copy)]
enum Source {
    Great,
    Array,
    BorrowedSlice,
    BorrowedText,
    Present,
    String,
    Vector,
    OwnedText,
    OwnedSlice,
    Intermediate,
    NumbersAndNothing,
    GreatRollback,
    KeptText,
    Numbers,
}

const SOURCES: &[(&str, Source)] = cases! {
    "into_value of a great u128" => Source::Great;
    "into_value of [u8; 3]" => Source::Array;
    "into_value of borrowed CowSlice" => Source::BorrowedSlice;
    "into_value of borrowed CowStr" => Source::BorrowedText;
    "into_value of Some array" => Source::Present;
    "into_value of String" => Source::String;
    "into_value of Vec<u8>" => Source::Vector;
    "into_value of owned CowStr" => Source::OwnedText;
    "into_value of owned CowSlice" => Source::OwnedSlice;
    "into_value of ValueIr" => Source::Intermediate;
    "into_value of numbers and nothing" => Source::NumbersAndNothing;
    "rollback of a great u128" => Source::GreatRollback;
    "rollback of a kept text" => Source::KeptText;
    "rollback of numbers" => Source::Numbers;
};

/// What bytes or values are converted to.
#[derive(Clone, Copy)]
enum Target {
    U8,
    I8,
    I128,
    Bool,
    Duration,
    Array,
    Optional,
    String,
    CowText,
    Vector,
    CowSlice,
    Value,
    WhatConverts,
    Nothing,
}

const TARGETS: &[(&str, Target)] = cases! {
    "conversion to u8" => Target::U8;
    "conversion to i8" => Target::I8;
    "conversion to i128" => Target::I128;
    "conversion to bool" => Target::Bool;
    "conversion to Duration" => Target::Duration;
    "conversion to [u8; 2]" => Target::Array;
    "conversion to Option<u8>" => Target::Optional;
    "conversion to String" => Target::String;
    "conversion to CowStr" => Target::CowText;
    "conversion to Vec<u8>" => Target::Vector;
    "conversion to CowSlice" => Target::CowSlice;
    "conversion to Value" => Target::Value;
    "from_value of what converts" => Target::WhatConverts;
    "from_value_opt of what doesn't convert" => Target::Nothing;
};

/// How the call of this name went, if it stands here.
pub(crate) fn case(alloc: Global, name: &str) -> Option<Case> {
    if let Some(source) = row(SOURCES, name) {
        return Some(handed_back(alloc, source));
    }
    Some(converted(alloc, row(TARGETS, name)?))
}

const GREAT: u128 = 18446744073709551616;

const GREAT_TEXT: Result<Plain, &str> = Ok(Plain::Bytes(b"18446744073709551616"));

const ABC: Result<Plain, &str> = Ok(Plain::Bytes(b"abc"));

fn kept_text(alloc: Global) -> Case {
    let ir = ParseIrOpt::Parsed(5u8, bytes(alloc, b"5")?);
    Ok(judged(ir.rollback(alloc), Ok(Plain::Bytes(b"5"))).without_memory())
}

fn are_handed_back(alloc: Global) -> bool {
    ParseIrOpt::Ready(5u8).rollback(alloc) == Ok(Value::UInt(5))
        && ParseIrOpt::Ready(true).rollback(alloc) == Ok(Value::Int(1))
        && ParseIrOpt::Ready(5u8).commit() == 5
        && ParseIr(5u8, Value::Int(6)).rollback() == Value::Int(6)
        && ParseIr(5u8, Value::Int(6)).commit() == 5
}

/// The source is handed back as these bytes.
fn gives<T: IntoValue>(alloc: Global, source: T, wanted: Result<Plain<'_>, &str>) -> Outcome {
    judged(source.into_value(alloc), wanted)
}

fn handed_back(alloc: Global, source: Source) -> Case {
    match source {
        Source::Great => Ok(gives(alloc, ParseIrOpt::Ready(GREAT), GREAT_TEXT)),
        Source::Array => Ok(gives(alloc, *b"abc", ABC)),
        Source::BorrowedSlice => Ok(gives(alloc, CowSlice::Borrowed(b"abc"), ABC)),
        Source::BorrowedText => Ok(gives(alloc, CowStr::Borrowed("abc"), ABC)),
        Source::Present => Ok(gives(alloc, OptionIr2::<[u8; 3]>::Some(*b"abc"), ABC)),
        // What keeps its bytes is handed back without memory.
        Source::String => given(alloc, String::from_str(alloc, "abc")),
        Source::Vector => given(alloc, Vec::from_slice(alloc, b"abc")),
        Source::OwnedText => owned_text_given(alloc),
        Source::OwnedSlice => owned_slice_given(alloc),
        Source::Intermediate => value_given(alloc),
        Source::NumbersAndNothing => holds(numbers_are_given(alloc)),
        Source::GreatRollback => {
            Ok(judged(ParseIrOpt::Ready(GREAT).rollback(alloc), GREAT_TEXT))
        }
        Source::KeptText => kept_text(alloc),
        Source::Numbers => holds(are_handed_back(alloc)),
    }
}

/// The source, once it is there, is handed back as `abc`.
fn given<T: IntoValue>(alloc: Global, source: Result<T, AllocError>) -> Case {
    Ok(gives(alloc, source?, ABC).without_memory())
}

fn owned_text_given(alloc: Global) -> Case {
    let text = CowStr::Owned(String::from_str(alloc, "abc")?);
    Ok(gives(alloc, text, ABC).without_memory())
}

fn owned_slice_given(alloc: Global) -> Case {
    let text = CowSlice::Owned(Vec::from_slice(alloc, b"abc")?);
    Ok(gives(alloc, text, ABC).without_memory())
}

fn value_given(alloc: Global) -> Case {
    let ir = ValueIr(bytes(alloc, b"abc")?);
    Ok(gives(alloc, ir, ABC).without_memory())
}

fn numbers_are_given(alloc: Global) -> bool {
    gives(alloc, OptionIr2::<u8>::None, Ok(Plain::Null)).is_right()
        && gives(
            alloc,
            OptionIr2::<u8>::Some(ParseIrOpt::Ready(5)),
            Ok(Plain::UInt(5)),
        )
        .is_right()
        && gives(alloc, ParseIrOpt::Ready(5u8), Ok(Plain::UInt(5))).is_right()
}

const LEAST_I128: &[u8] = b"-170141183460469231731687303715884105728";

fn converted(alloc: Global, target: Target) -> Case {
    match target {
        Target::U8 => converts(alloc, b"0000000255", &255u8),
        Target::I8 => converts(alloc, b"-128", &-128i8),
        Target::I128 => converts(alloc, LEAST_I128, &i128::MIN),
        Target::Bool => converts(alloc, b"1", &true),
        Target::Duration => converts(alloc, b"12:34:56", &Duration::from_secs(45296)),
        Target::Array => converts_one_way(alloc, b"ab", b"ab"),
        Target::Optional => converts(alloc, b"+7", &Some(7u8)),
        Target::String => converts_to(alloc, b"abc", String::from_str(alloc, "abc")),
        Target::CowText => cow_text_converted(alloc),
        Target::Vector => converts_to(alloc, b"\xC3\x28", Vec::from_slice(alloc, b"\xC3\x28")),
        Target::CowSlice => cow_bytes_converted(alloc),
        Target::Value => converts_to(alloc, b"abc", bytes(alloc, b"abc")),
        Target::WhatConverts => holds(are_converted()),
        Target::Nothing => holds(are_refused()),
    }
}

/// The bytes convert to the target, directly and by the intermediate, which goes back to them.
fn converts<T: FromValue + PartialEq + Drop>(alloc: Global, text: &[u8], target: &T) -> Case {
    match converts_one_way(alloc, text, target)? {
        Outcome::AnswerWithoutMemory => goes_back::<T>(alloc, text),
        outcome => Ok(outcome),
    }
}

/// The bytes convert to the target, whose way back asks for memory.
fn converts_one_way<T: FromValue + PartialEq + Drop>(
    alloc: Global,
    text: &[u8],
    target: &T,
) -> Case {
    let is_made = is_made(bytes(alloc, text)?, target);
    holds(is_made && is_committed(bytes(alloc, text)?, target))
}

fn is_made<T: FromValue + PartialEq + Drop>(value: Value, target: &T) -> bool {
    match from_value_opt::<T>(value) {
        Ok(made) => made == *target,
        Err(_) => false,
    }
}

/// Whether the intermediate of the value is committed to the target.
fn is_committed<T: FromValue + PartialEq + Drop>(value: Value, target: &T) -> bool {
    match T::get_intermediate(value) {
        Ok(ir) => T::commit_intermediate(ir) == *target,
        Err(_) => false,
    }
}

/// The intermediate of the bytes goes back to them without memory.
fn goes_back<T: FromValue>(alloc: Global, text: &[u8]) -> Case {
    match T::get_intermediate(bytes(alloc, text)?) {
        Ok(ir) => Ok(gives(alloc, ir, Ok(Plain::Bytes(text))).without_memory()),
        Err(_) => holds(false),
    }
}

/// The same, of a target that is made first.
fn converts_to<T: FromValue + PartialEq + Drop>(
    alloc: Global,
    text: &[u8],
    target: Result<T, AllocError>,
) -> Case {
    converts(alloc, text, &target?)
}

fn cow_text_converted(alloc: Global) -> Case {
    match from_value_opt::<CowStr<'static>>(bytes(alloc, b"abc")?) {
        Ok(text) => back_if::<CowStr<'static>>(alloc, text.as_str() == "abc", b"abc"),
        Err(_error) => holds(false),
    }
}

/// What has to hold holds, and the intermediate of the bytes goes back to them.
fn back_if<T: FromValue>(alloc: Global, holds: bool, text: &[u8]) -> Case {
    if holds {
        goes_back::<T>(alloc, text)
    } else {
        Ok(Outcome::Wrong)
    }
}

fn cow_bytes_converted(alloc: Global) -> Case {
    let text = b"\xC3\x28".as_slice();
    match from_value_opt::<CowSlice<'static, u8>>(bytes(alloc, text)?) {
        Ok(found) => back_if::<CowSlice<'static, u8>>(alloc, found.as_slice() == text, text),
        Err(_error) => holds(false),
    }
}

fn are_converted() -> bool {
    from_value::<Option<u8>>(Value::NULL).is_none()
        && from_value::<Value>(Value::Float(7)) == Value::Float(7)
        && from_value_opt::<u8>(Value::Int(5)) == Ok(5)
        && from_value_opt::<bool>(Value::UInt(2)) == Ok(true)
        && is_made(Value::Time(false, 0, 0, 1, 0, 0), &Duration::from_secs(60))
}

fn are_refused() -> bool {
    is_refused::<u8>(Plain::Int(300))
        && is_refused::<bool>(Plain::Null)
        && is_refused::<Duration>(Plain::Time(true, 0, 0, 0, 0, 0))
        && is_refused::<String>(Plain::UInt(5))
        && is_refused::<Vec<u8>>(Plain::Null)
        && is_refused::<Option<u8>>(Plain::UInt(256))
}

/// Whether a value without bytes is refused, and handed back.
fn is_refused<T: FromValue + Drop>(value: Plain<'_>) -> bool {
    match from_value_opt::<T>(value.without_bytes()) {
        Ok(_) => false,
        Err(error) => error.0.is(value),
    }
}
