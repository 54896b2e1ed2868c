//! Conversions to Booleans, texts, bytes and optional things, and their way back.
use crate::shared::Plain::{Bytes, Date, Double, Float, Int, Null, Time, UInt};
use crate::shared::{Plain, answer_of, bytes, converts, gives, same_in, value};
use mysql_values::value::Value;
use mysql_values::value::convert::{
    FromValue, FromValueError, IntoValue, OptionIr2, ParseIr, ParseIrOpt, ToValue, ValueIr,
    from_value, from_value_opt,
};
use std::alloc::Global;
use std::borrow::{CowSlice, CowStr};
use std::fmt::Debug;
use std::process::Abort;

// Values, and the value of the Boolean that they convert to.
const BOOLEANS: &[(Plain, Plain)] = &[
    (UInt(0), Int(0)),
    (Int(0), Int(0)),
    (Int(-1), Int(1)),
    (UInt(2), Int(1)),
    (Bytes(b"0"), Int(0)),
    (Bytes(b"1"), Int(1)),
];

const NO_BOOLEANS: &[Plain] = &[
    Bytes(b"2"),
    Bytes(b""),
    Bytes(b"01"),
    Float(1065353216),
    Null,
    Double(0),
    Date(0, 0, 0, 0, 0, 0, 0),
    Time(false, 0, 0, 0, 0, 0),
];

const TEXTS: &[(Plain, Plain)] = &[
    (Bytes(b"ab"), Bytes(b"ab")),
    (Bytes(b"it's"), Bytes(b"it's")),
    (Bytes(b""), Bytes(b"")),
    (Bytes(b"\xC3\xA9"), Bytes(b"\xC3\xA9")),
];

const NO_TEXTS: &[Plain] = &[
    Bytes(b"\xC3\x28"),
    Null,
    Int(97),
    UInt(97),
    Float(0),
    Double(0),
    Date(0, 0, 0, 0, 0, 0, 0),
    Time(false, 0, 0, 0, 0, 0),
];

const BYTES: &[(Plain, Plain)] = &[
    (Bytes(b"ab"), Bytes(b"ab")),
    (Bytes(b"\xC3\x28"), Bytes(b"\xC3\x28")),
    (Bytes(b""), Bytes(b"")),
];

const NO_BYTES: &[Plain] = &[
    Null,
    Int(97),
    UInt(97),
    Float(0),
    Double(0),
    Date(0, 0, 0, 0, 0, 0, 0),
    Time(false, 0, 0, 0, 0, 0),
];

const TWO_BYTES: &[(Plain, Plain)] = &[(Bytes(b"ab"), Bytes(b"ab"))];

const NOT_TWO_BYTES: &[Plain] = &[Bytes(b"abc"), Bytes(b"a"), Null, Int(97)];

const OPTIONAL: &[(Plain, Plain)] = &[
    (Null, Null),
    (Int(5), UInt(5)),
    (UInt(5), UInt(5)),
    (Bytes(b"+7"), UInt(7)),
];

const NO_OPTION: &[Plain] = &[
    UInt(256),
    Bytes(b"256"),
    Float(0),
    Time(false, 0, 0, 0, 0, 0),
];

const VALUES: &[(Plain, Plain)] = &[
    (Null, Null),
    (Bytes(b"\xC3\x28"), Bytes(b"\xC3\x28")),
    (Int(-1), Int(-1)),
    (UInt(5), UInt(5)),
    (Float(7), Float(7)),
    (Double(7), Double(7)),
    (Date(1, 2, 3, 4, 5, 6, 7), Date(1, 2, 3, 4, 5, 6, 7)),
    (Time(true, 1, 2, 3, 4, 5), Time(true, 1, 2, 3, 4, 5)),
];

#[test]
fn other_types(rt: HostRuntime) {
    let alloc = rt.alloc();
    converts::<bool>(&rt, alloc, BOOLEANS, NO_BOOLEANS);
    converts::<String>(&rt, alloc, TEXTS, NO_TEXTS);
    converts::<Vec<u8>>(&rt, alloc, BYTES, NO_BYTES);
    converts::<[u8; 2]>(&rt, alloc, TWO_BYTES, NOT_TWO_BYTES);
    converts::<[u8; 0]>(&rt, alloc, &[], NO_BYTES);
    converts::<Option<u8>>(&rt, alloc, OPTIONAL, NO_OPTION);
    converts::<Option<Option<u8>>>(&rt, alloc, OPTIONAL, NO_OPTION);
    converts::<Value>(&rt, alloc, VALUES, &[]);
}

// The value converts to a thing that is handed back as the value.
fn comes_back<T: FromValue + IntoValue>(rt: &impl Abort, alloc: Global, plain: Plain) {
    let kept = value(rt, alloc, plain);
    let thing = answer_of(rt, from_value_opt::<T>(value(rt, alloc, plain)));
    gives(rt, thing.into_value(alloc), &kept, &kept);
}

// The conversion hands the value back.
fn gives_back<T: Drop>(rt: &impl Abort, found: Result<T, FromValueError>, value: &Value) {
    match found {
        Ok(_) => assert!(rt; false, "{value:?} converts"),
        Err(error) => same_in(rt, &error.0, value, &"a refusal"),
    }
}

// `converts` has no proof at the types of these two: its type parameter has the bound `Drop`.
#[test]
fn borrowed_or_owned(rt: HostRuntime) {
    let alloc = rt.alloc();
    for (plain, _) in TEXTS {
        comes_back::<CowStr<'static>>(&rt, alloc, *plain);
    }
    for (plain, _) in BYTES {
        comes_back::<CowSlice<'static, u8>>(&rt, alloc, *plain);
    }
}

#[test]
fn refused_texts(rt: HostRuntime) {
    for plain in NO_TEXTS {
        let kept = value(&rt, rt.alloc(), *plain);
        let found = from_value_opt::<CowStr<'static>>(value(&rt, rt.alloc(), *plain));
        gives_back(&rt, found, &kept);
    }
}

#[test]
fn refused_bytes(rt: HostRuntime) {
    for plain in NO_BYTES {
        let kept = value(&rt, rt.alloc(), *plain);
        let found = from_value_opt::<CowSlice<'static, u8>>(value(&rt, rt.alloc(), *plain));
        gives_back(&rt, found, &kept);
    }
}

// The outer one, as the value of an inner one is NULL too.
#[test]
fn nothing_of_null(rt: HostRuntime) {
    gives(
        &rt,
        from_value_opt::<Option<u8>>(Value::NULL),
        &None,
        &"NULL",
    );
    let found = from_value_opt::<Option<Option<u8>>>(Value::NULL);
    gives(&rt, found, &None, &"NULL");
}

#[test]
fn values_that_convert(rt: HostRuntime) {
    same_in(&rt, from_value::<Option<u8>>(Value::NULL), None, &"NULL");
    let found: Value = from_value(Value::Date(1, 2, 3, 4, 5, 6, 7));
    same_in(&rt, &found, &Value::Date(1, 2, 3, 4, 5, 6, 7), &"a date");
}

#[test]
fn intermediates(rt: HostRuntime) {
    let ready = ParseIrOpt::Ready(5);
    gives(&rt, u8::get_intermediate(Value::Int(5)), &ready, &"a u8");
    let text = bytes(&rt, rt.alloc(), b"1");
    let parsed = ParseIrOpt::Parsed(true, bytes(&rt, rt.alloc(), b"1"));
    gives(&rt, bool::get_intermediate(text), &parsed, &"a bool");
    gives(
        &rt,
        Option::<u8>::get_intermediate(Value::NULL),
        &OptionIr2::None,
        &"NULL",
    );
    let ir = ValueIr(Value::Float(7));
    gives(
        &rt,
        Value::get_intermediate(Value::Float(7)),
        &ir,
        &"a value",
    );
    gives(&rt, ir.clone(), &ir, &"a copy");
    assert!(rt; ValueIr(Value::NULL) < ir);
}

// The intermediate becomes the thing, and is rolled back to the value.
fn goes_both_ways<T: FromValue<Intermediate = ParseIrOpt<T>> + ToValue + Debug + PartialEq + Drop>(
    rt: &impl Abort,
    alloc: Global,
    plain: Plain,
    thing: &T,
    back: Plain,
) {
    let ir: ParseIrOpt<T> = answer_of(rt, T::get_intermediate(value(rt, alloc, plain)));
    same_in(rt, &ir.commit(), thing, thing);
    let ir: ParseIrOpt<T> = answer_of(rt, T::get_intermediate(value(rt, alloc, plain)));
    let back = value(rt, alloc, back);
    gives(rt, ir.rollback(alloc), &back, thing);
}

#[test]
fn way_back(rt: HostRuntime) {
    let alloc = rt.alloc();
    goes_both_ways(&rt, alloc, Int(5), &5u8, UInt(5));
    goes_both_ways(&rt, alloc, Int(7), &true, Int(1));
    goes_both_ways(&rt, alloc, Bytes(b"1"), &true, Bytes(b"1"));
    same_in(&rt, ParseIr(5, Value::Int(5)).commit(), 5, &"ParseIr");
    let kept = ParseIr(5, Value::Int(6)).rollback();
    same_in(&rt, &kept, &Value::Int(6), &"ParseIr");
}

// By std's trait the thing becomes the value.
fn becomes<T: Into<Value>>(rt: &impl Abort, thing: T, wanted: &Value) {
    same_in(rt, &thing.into(), wanted, &"std's trait");
}

#[test]
fn values_of_numbers(rt: HostRuntime) {
    let wanted = Value::Int(-3);
    becomes(&rt, -3i8, &wanted);
    becomes(&rt, -3i16, &wanted);
    becomes(&rt, -3i32, &wanted);
    becomes(&rt, -3i64, &wanted);
    becomes(&rt, -3isize, &wanted);
    let wanted = Value::UInt(3);
    becomes(&rt, 3u8, &wanted);
    becomes(&rt, 3u16, &wanted);
    becomes(&rt, 3u32, &wanted);
    becomes(&rt, 3u64, &wanted);
    becomes(&rt, 3usize, &wanted);
    becomes(&rt, true, &Value::Int(1));
    let wanted = bytes(&rt, rt.alloc(), b"ab");
    becomes(&rt, ValueIr(bytes(&rt, rt.alloc(), b"ab")), &wanted);
    let vector = answer_of(&rt, Vec::from_slice(rt.alloc(), b"ab"));
    becomes(&rt, vector, &wanted);
    let text = answer_of(&rt, String::from_str(rt.alloc(), "ab"));
    becomes(&rt, text, &wanted);
}

#[test]
fn values_of_borrowed_texts_and_bytes(rt: HostRuntime) {
    let alloc = rt.alloc();
    let wanted = bytes(&rt, alloc, b"ab");
    gives(&rt, "ab".to_value(alloc), &wanted, &"&str");
    gives(&rt, b"ab".as_slice().to_value(alloc), &wanted, &"&[u8]");
    gives(
        &rt,
        CowStr::Borrowed("ab").to_value(alloc),
        &wanted,
        &"CowStr",
    );
    gives(
        &rt,
        CowStr::Borrowed("ab").into_value(alloc),
        &wanted,
        &"CowStr",
    );
    let text = b"ab".as_slice();
    gives(
        &rt,
        CowSlice::Borrowed(text).to_value(alloc),
        &wanted,
        &"CowSlice",
    );
    gives(
        &rt,
        CowSlice::Borrowed(text).into_value(alloc),
        &wanted,
        &"CowSlice",
    );
}
