//! What things make parameters.
use crate::own_type::Counted;
use crate::shared::{answer_of, bytes, named, positional, same};
use mysql_params::params::{Params, ToName, ToParams, ToParamsError};
use mysql_values::value::Value;
use mysql_values::value::convert::ToValue;
use std::alloc::Global;
use std::process::Abort;
use std::time::Duration;

// Through the bound alone, as all helpers here.
fn params_of<T: ToParams>(alloc: Global, things: &T) -> Result<Params, ToParamsError> {
    things.to_params(alloc)
}

// The things make these parameters, which are given away, so that callers have none to let go.
fn make<T: ToParams>(rt: &impl Abort, alloc: Global, things: &T, wanted: Params) {
    same(rt, &answer_of(rt, params_of(alloc, things)), &wanted);
}

// The things make positional parameters of these numbers.
fn make_numbers<T: ToParams>(rt: &impl Abort, alloc: Global, things: &T, numbers: &[u64]) {
    make(rt, alloc, things, positional(rt, alloc, numbers));
}

// The pairs make these parameters.
fn pairs_make<N: ToName, T: ToValue>(
    rt: &impl Abort,
    alloc: Global,
    pairs: &[(N, T)],
    wanted: Params,
) {
    same(
        rt,
        &answer_of(rt, Params::from_pairs(alloc, pairs)),
        &wanted,
    );
}

// The pairs of a name and an object make these parameters.
fn objects_make(rt: &impl Abort, alloc: Global, pairs: &[(&[u8], &dyn ToValue)], wanted: Params) {
    same(
        rt,
        &answer_of(rt, Params::from_objects(alloc, pairs)),
        &wanted,
    );
}

// The value of the thing is the wanted one.
fn has_value<T: ToValue>(rt: &impl Abort, alloc: Global, thing: &T, wanted: Value) {
    same(rt, &answer_of(rt, thing.to_value(alloc)), &wanted);
}

// Through the bound alone: the bytes of the name.
fn has_bytes<N: ToName + Drop>(rt: &impl Abort, name: N, wanted: &[u8]) {
    same(rt, name.name_bytes(), wanted);
}

#[test]
fn nested_values(rt: HostRuntime) {
    let alloc = rt.alloc();
    has_value(&rt, alloc, &&5u8, Value::UInt(5));
    has_value(&rt, alloc, &Some(-5i64), Value::Int(-5));
    has_value(&rt, alloc, &None::<i64>, Value::NULL);
    has_value(&rt, alloc, &Some(Some(true)), Value::Int(1));
    has_value(&rt, alloc, &Value::Float(1), Value::Float(1));
}

#[test]
fn no_things(rt: HostRuntime) {
    let alloc = rt.alloc();
    make(&rt, alloc, &(), Params::Empty);
    make(&rt, alloc, &Vec::<u8>::new(alloc), Params::Empty);
    let objects: [&dyn ToValue; 0] = [];
    make(&rt, alloc, &objects.as_slice(), Params::Empty);
    let pairs: [(&[u8], u8); 0] = [];
    pairs_make(&rt, alloc, &pairs, named(&rt, alloc, b""));
    objects_make(&rt, alloc, &[], named(&rt, alloc, b""));
}

#[test]
fn lists(rt: HostRuntime) {
    let alloc = rt.alloc();
    let list = answer_of(&rt, Vec::from_slice(alloc, &[1u64, 2, 2]));
    make_numbers(&rt, alloc, &list, &[1, 2, 2]);
    make_numbers(&rt, alloc, &&list, &[1, 2, 2]);
}

#[test]
fn parameters(rt: HostRuntime) {
    let alloc = rt.alloc();
    make(&rt, alloc, &Params::Empty, Params::Empty);
    make_numbers(&rt, alloc, &positional(&rt, alloc, &[1, 2]), &[1, 2]);
    make(
        &rt,
        alloc,
        &named(&rt, alloc, b"ab"),
        named(&rt, alloc, b"ab"),
    );
}

const NUMBERS: [u64; 12] = [1, 2, 3, 4, 5, 6, 7, 8, 9, 10, 11, 12];

#[test]
fn tuples(rt: HostRuntime) {
    let alloc = rt.alloc();
    make_numbers(&rt, alloc, &(1u8,), &NUMBERS[..1]);
    make_numbers(&rt, alloc, &(1u8, 2u64), &NUMBERS[..2]);
    make_numbers(&rt, alloc, &(1u8, 2u8, 3u8), &NUMBERS[..3]);
    make_numbers(&rt, alloc, &(1u8, 2u8, 3u8, 4u8), &NUMBERS[..4]);
    make_numbers(&rt, alloc, &(1u8, 2u8, 3u8, 4u8, 5u8), &NUMBERS[..5]);
    make_numbers(&rt, alloc, &(1u8, 2u8, 3u8, 4u8, 5u8, 6u8), &NUMBERS[..6]);
}

const SEVEN: (u8, u16, u32, u64, usize, u8, u8) = (1, 2, 3, 4, 5, 6, 7);

const EIGHT: (u8, u8, u8, u8, u8, u8, u8, u8) = (1, 2, 3, 4, 5, 6, 7, 8);

const NINE: (u8, u8, u8, u8, u8, u8, u8, u8, u8) = (1, 2, 3, 4, 5, 6, 7, 8, 9);

const TEN: (u8, u8, u8, u8, u8, u8, u8, u8, u8, u8) = (1, 2, 3, 4, 5, 6, 7, 8, 9, 10);

const ELEVEN: (u8, u8, u8, u8, u8, u8, u8, u8, u8, u8, u8) = (1, 2, 3, 4, 5, 6, 7, 8, 9, 10, 11);

const TWELVE: (u8, u8, u8, u8, u8, u8, u8, u8, u8, u8, u8, u8) = (
    1, 2, 3, 4, 5, 6, 7, 8, 9, 10, 11, 12,
);

#[test]
fn long_tuples(rt: HostRuntime) {
    make_numbers(&rt, rt.alloc(), &SEVEN, &NUMBERS[..7]);
    make_numbers(&rt, rt.alloc(), &EIGHT, &NUMBERS[..8]);
    make_numbers(&rt, rt.alloc(), &NINE, &NUMBERS[..9]);
    make_numbers(&rt, rt.alloc(), &TEN, &NUMBERS[..10]);
    make_numbers(&rt, rt.alloc(), &ELEVEN, &NUMBERS[..11]);
    make_numbers(&rt, rt.alloc(), &TWELVE, &NUMBERS);
}

#[test]
fn objects(rt: HostRuntime) {
    let alloc = rt.alloc();
    let own = Counted::new(Duration::from_secs(7));
    let objects: [&dyn ToValue; 4] = [&1u8, &"x", &None::<i64>, &own];
    let values = [
        Value::UInt(1),
        bytes(&rt, alloc, b"x"),
        Value::NULL,
        Value::Time(false, 0, 0, 0, 7, 0),
    ];
    let wanted = answer_of(&rt, Vec::from_array(alloc, values));
    make(&rt, alloc, &objects.as_slice(), Params::Positional(wanted));
}

#[test]
fn pairs(rt: HostRuntime) {
    let alloc = rt.alloc();
    let pairs = [("a", 1u8), ("b", 2u8)];
    pairs_make(&rt, alloc, &pairs, named(&rt, alloc, b"ab"));
}

#[test]
fn pairs_of_objects(rt: HostRuntime) {
    let alloc = rt.alloc();
    let values = [("a", Value::UInt(1)), ("b", bytes(&rt, alloc, b"x"))];
    let wanted = answer_of(&rt, Params::from_pairs(alloc, &values));
    let pairs: [(&[u8], &dyn ToValue); 2] = [(b"a", &1u8), (b"b", &"x")];
    objects_make(&rt, alloc, &pairs, wanted);
}

#[test]
fn a_name_that_stands_twice(rt: HostRuntime) {
    let pairs = [("a", 1u8), ("a", 2u8)];
    let error = ToParamsError::Redefined(answer_of(&rt, Vec::from_slice(rt.alloc(), b"a")));
    let found = Params::from_pairs(rt.alloc(), &pairs).err();
    same(&rt, &found, &Some(error));
}

#[test]
fn names_of_every_kind(rt: HostRuntime) {
    let alloc = rt.alloc();
    has_bytes(&rt, b"ab".as_slice(), b"ab");
    has_bytes(&rt, answer_of(&rt, Vec::from_slice(alloc, b"ab")), b"ab");
    has_bytes(&rt, "ab", b"ab");
    has_bytes(&rt, answer_of(&rt, String::from_str(alloc, "ab")), b"ab");
}
