//! What several tests share.
use mysql_params::params::Params;
use mysql_values::bytes::Bytes;
use mysql_values::value::Value;
use std::alloc::Global;
use std::collections::HashMap;
use std::fmt::Debug;
use std::process::Abort;

// The two are the same. A call is cheaper to prove than the message.
pub(crate) fn same<T: Copy + Debug + PartialEq>(rt: &impl Abort, found: T, wanted: T) {
    assert_eq!(rt; found, wanted);
}

// The same, with a message that names the case.
pub(crate) fn same_in<T: Copy + Debug + PartialEq, C: Debug>(
    rt: &impl Abort,
    found: T,
    wanted: T,
    case: &C,
) {
    assert_eq!(rt; found, wanted, "of {case:?}");
}

// The answer of a call. An error ends the test here, so that callers have none to meet: each `?`
// would let go of all that lives there.
pub(crate) fn answer_of<T, E: Debug + Drop>(rt: &impl Abort, found: Result<T, E>) -> T {
    found.expect(rt, "an error in place of an answer")
}

// The value that holds these bytes.
pub(crate) fn bytes(rt: &impl Abort, alloc: Global, text: &[u8]) -> Value {
    Value::Bytes(Bytes::from(answer_of(rt, Vec::from_slice(alloc, text))))
}

// A list of names of one byte each.
pub(crate) fn names(rt: &impl Abort, alloc: Global, letters: &[u8]) -> Vec<Vec<u8>> {
    let mut names = Vec::new(alloc);
    for letter in letters {
        let name = answer_of(rt, Vec::from_slice(alloc, &[*letter]));
        answer_of(rt, names.push(name));
    }
    names
}

// Named parameters: each letter names the number of its place, from 1 on.
pub(crate) fn named(rt: &impl Abort, alloc: Global, letters: &[u8]) -> Params {
    let mut entries = HashMap::new(alloc);
    for (i, letter) in letters.iter().enumerate() {
        let name = answer_of(rt, Vec::from_slice(alloc, &[*letter]));
        answer_of(rt, entries.insert(name, Value::UInt(i as u64 + 1)));
    }
    Params::Named(entries)
}

// The values of these numbers.
pub(crate) fn values(rt: &impl Abort, alloc: Global, numbers: &[u64]) -> Vec<Value> {
    let mut values = Vec::new(alloc);
    for number in numbers {
        answer_of(rt, values.push(Value::UInt(*number)));
    }
    values
}

// Positional parameters: these numbers.
pub(crate) fn positional(rt: &impl Abort, alloc: Global, numbers: &[u64]) -> Params {
    Params::Positional(values(rt, alloc, numbers))
}

// Parameters as plain data, for tables.
#[derive(Clone, Copy, Debug)]
pub(crate) enum Given {
    Empty,
    /// Each letter names the number of its place, from 1 on.
    Named(&'static [u8]),
    Positional(&'static [u64]),
}

pub(crate) fn params(rt: &impl Abort, alloc: Global, given: Given) -> Params {
    match given {
        Given::Empty => Params::Empty,
        Given::Named(letters) => named(rt, alloc, letters),
        Given::Positional(numbers) => positional(rt, alloc, numbers),
    }
}
