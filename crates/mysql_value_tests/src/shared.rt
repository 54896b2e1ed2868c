//! What several tests share.
use mysql_values::bytes::Bytes;
use mysql_values::value::convert::{FromValue, FromValueError, IntoValue, ToValue, from_value_opt};
use mysql_values::value::{Value, ValueRef};
use std::alloc::Global;
use std::fmt::{Debug, Display};
use std::process::Abort;

// The two are the same. A call is cheaper to prove than the message, which names the case.
pub(crate) fn same_in<T: Copy + Debug + PartialEq, C: Debug>(
    rt: &impl Abort,
    found: T,
    wanted: T,
    case: &C,
) {
    assert_eq!(rt; found, wanted, "of {case:?}");
}

// The answer of a call. An error ends the test here, so that callers have none to meet: each `?`
// would let go of all that lives there.
pub(crate) fn answer_of<T, E: Debug + Drop>(rt: &impl Abort, found: Result<T, E>) -> T {
    found.expect(rt, "an error in place of an answer")
}

// What is found is the wanted thing and no error.
pub(crate) fn gives<T: Debug + PartialEq + Drop, E: Debug + Drop, C: Debug>(
    rt: &impl Abort,
    found: Result<T, E>,
    wanted: &T,
    case: &C,
) {
    match found {
        Ok(found) => same_in(rt, &found, wanted, case),
        Err(error) => assert!(rt; false, "{error:?} of {case:?}"),
    }
}

// A value as plain data: a table of these is cheaper to prove than one of values.
#[derive(Clone, Copy)]
pub(crate) enum Plain {
    Null,
    Bytes(&'static [u8]),
    Int(i64),
    UInt(u64),
    Float(u32),
    Double(u64),
    Date(u16, u8, u8, u8, u8, u8, u32),
    Time(bool, u32, u8, u8, u8, u32),
}

pub(crate) fn value(rt: &impl Abort, alloc: Global, plain: Plain) -> Value {
    match plain {
        Plain::Null => Value::NULL,
        Plain::Bytes(text) => bytes(rt, alloc, text),
        Plain::Int(number) => Value::Int(number),
        Plain::UInt(number) => Value::UInt(number),
        Plain::Float(bits) => Value::Float(bits),
        Plain::Double(bits) => Value::Double(bits),
        Plain::Date(y, m, d, h, min, s, micros) => Value::Date(y, m, d, h, min, s, micros),
        Plain::Time(negative, d, h, min, s, micros) => Value::Time(negative, d, h, min, s, micros),
    }
}

// The value as a borrowed one.
pub(crate) fn value_ref(plain: Plain) -> ValueRef<'static> {
    match plain {
        Plain::Null => ValueRef::NULL,
        Plain::Bytes(text) => ValueRef::Bytes(text),
        Plain::Int(number) => ValueRef::Int(number),
        Plain::UInt(number) => ValueRef::UInt(number),
        Plain::Float(bits) => ValueRef::Float(bits),
        Plain::Double(bits) => ValueRef::Double(bits),
        Plain::Date(y, m, d, h, min, s, micros) => ValueRef::Date(y, m, d, h, min, s, micros),
        Plain::Time(negative, d, h, min, s, micros) => {
            ValueRef::Time(negative, d, h, min, s, micros)
        }
    }
}

// The values as borrowed ones, in a vector.
pub(crate) fn value_refs(rt: &impl Abort, alloc: Global, rows: &[Plain]) -> Vec<ValueRef<'static>> {
    let mut values = Vec::new(alloc);
    for plain in rows {
        answer_of(rt, values.push(value_ref(*plain)));
    }
    values
}

// The value that holds these bytes.
pub(crate) fn bytes(rt: &impl Abort, alloc: Global, text: &[u8]) -> Value {
    Value::Bytes(Bytes::from(answer_of(rt, Vec::from_slice(alloc, text))))
}

// The values, in a vector.
pub(crate) fn values(rt: &impl Abort, alloc: Global, rows: &[Plain]) -> Vec<Value> {
    let mut values = Vec::new(alloc);
    for plain in rows {
        answer_of(rt, values.push(value(rt, alloc, *plain)));
    }
    values
}

// Each value of a row converts to a thing whose own value is the other one: at once, by the
// intermediate, and by std's traits. The intermediate of bytes and of a time keeps these, and any
// other is handed back as the thing's value. The refused values are handed back.
pub(crate) fn converts<T: FromValue + ToValue + Drop>(
    rt: &impl Abort,
    alloc: Global,
    rows: &[(Plain, Plain)],
    refused: &[Plain],
) {
    for (plain, wanted) in rows {
        let thing = value(rt, alloc, *wanted);
        has_value(
            rt,
            alloc,
            from_value_opt::<T>(value(rt, alloc, *plain)),
            &thing,
        );
        has_value(
            rt,
            alloc,
            by_intermediate::<T>(value(rt, alloc, *plain)),
            &thing,
        );
        has_value(
            rt,
            alloc,
            by_std_traits::<T>(value(rt, alloc, *plain)),
            &thing,
        );
        let kept = match plain {
            Plain::Bytes(_) | Plain::Time(..) => value(rt, alloc, *plain),
            _ => value(rt, alloc, *wanted),
        };
        let ir = answer_of(rt, T::get_intermediate(value(rt, alloc, *plain)));
        gives(rt, ir.into_value(alloc), &kept, &kept);
    }
    for plain in refused {
        let wanted = Some(FromValueError(value(rt, alloc, *plain)));
        let refusal = from_value_opt::<T>(value(rt, alloc, *plain)).err();
        same_in(rt, &refusal, &wanted, &wanted);
        let refusal = by_std_traits::<T>(value(rt, alloc, *plain)).err();
        same_in(rt, &refusal, &wanted, &wanted);
    }
}

// The own value of what was converted.
fn has_value<T: ToValue + Drop>(
    rt: &impl Abort,
    alloc: Global,
    found: Result<T, FromValueError>,
    wanted: &Value,
) {
    let thing = answer_of(rt, found);
    gives(rt, thing.to_value(alloc), wanted, wanted);
}

fn by_intermediate<T: FromValue>(value: Value) -> Result<T, FromValueError> {
    Ok(T::commit_intermediate(T::get_intermediate(value)?))
}

fn by_std_traits<T: FromValue>(value: Value) -> Result<T, FromValueError> {
    Ok(T::Intermediate::try_from(value)?.into())
}

// The thing prints the text.
pub(crate) fn says(rt: &impl Abort, alloc: Global, thing: &impl Display, text: &str) {
    let printed = answer_of(rt, thing.to_string(alloc));
    same_in(rt, printed.as_str(), text, &"a message");
}
