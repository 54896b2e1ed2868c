//! What parameters give to the names of a query.
use crate::shared::{Given, answer_of, names, params, same, same_in, values};
use mysql_params::params::{
    IntoPositionalError, MissingNamedParameterError, Params, ParamsConfusionError, ParamsError,
};
use mysql_params_core::params::{BorrowedParams, NameMap, NamedPairs, NamedValues, place_values};
use mysql_values::value::{Value, ValueRef};
use std::alloc::{AllocError, Global};
use std::collections::BTreeMap;
use std::process::Abort;

// Why parameters give no values.
#[derive(Clone, Copy, Debug)]
enum Refused {
    // The name of one byte is missing.
    Missing(u8),
    Confusion(ParamsConfusionError),
}

const NAMED: Refused = Refused::Confusion(ParamsConfusionError::NamedParamsForPositionalQuery);

const POSITIONAL: Refused = Refused::Confusion(ParamsConfusionError::PositionalParamsForNamedQuery);

// What is given, the names of a query, if it has a list of them, and the numbers of these names.
type Lookup = (
    Given,
    Option<&'static [u8]>,
    Result<&'static [u64], Refused>,
);

const VALUES: &[Lookup] = &[
    // The names that are there are exactly a prefix: the last of the list is reported.
    (
        Given::Named(b"a"),
        Some(b"abc"),
        Err(Refused::Missing(b'c')),
    ),
    (Given::Named(b""), Some(b"ab"), Err(Refused::Missing(b'b'))),
    (
        Given::Named(b"ab"),
        Some(b"abc"),
        Err(Refused::Missing(b'c')),
    ),
    // They are not: it is the first that is missing.
    (
        Given::Named(b"a"),
        Some(b"aba"),
        Err(Refused::Missing(b'b')),
    ),
    (
        Given::Named(b"b"),
        Some(b"abc"),
        Err(Refused::Missing(b'a')),
    ),
    (Given::Empty, Some(b"ab"), Err(Refused::Missing(b'a'))),
    // A repeated name has its value at each place; names that are not listed are ignored.
    (Given::Named(b"a"), Some(b"aa"), Ok(&[1, 1])),
    (Given::Named(b"abc"), Some(b"cac"), Ok(&[3, 1, 3])),
    (Given::Positional(&[1, 2]), Some(b"ab"), Err(POSITIONAL)),
    // No names.
    (Given::Empty, None, Ok(&[])),
    (Given::Empty, Some(b""), Ok(&[])),
    (Given::Positional(&[1, 2]), None, Ok(&[1, 2])),
    (Given::Positional(&[1, 2]), Some(b""), Ok(&[1, 2])),
    (Given::Named(b"a"), None, Err(NAMED)),
    (Given::Named(b"a"), Some(b""), Err(NAMED)),
    (Given::Named(b""), None, Err(NAMED)),
    (Given::Named(b""), Some(b""), Err(NAMED)),
];

fn misses(rt: &impl Abort, alloc: Global, letter: u8) -> MissingNamedParameterError {
    let name = answer_of(rt, Vec::from_slice(alloc, &[letter]));
    MissingNamedParameterError(name)
}

fn error(rt: &impl Abort, alloc: Global, refused: Refused) -> ParamsError {
    match refused {
        Refused::Missing(letter) => ParamsError::from(misses(rt, alloc, letter)),
        Refused::Confusion(confusion) => ParamsError::from(confusion),
    }
}

// What the parameters give to the names.
fn values_for(
    rt: &impl Abort,
    alloc: Global,
    given: Given,
    letters: Option<&[u8]>,
) -> Result<Vec<Value>, ParamsError> {
    let params = params(rt, alloc, given);
    match letters {
        None => params.into_values(alloc, None),
        Some(letters) => params.into_values(alloc, Some(names(rt, alloc, letters).as_slice())),
    }
}

// The parameters give this to the names.
fn gives(rt: &impl Abort, alloc: Global, (given, letters, wanted): Lookup) {
    let wanted = match wanted {
        Ok(numbers) => Ok(values(rt, alloc, numbers)),
        Err(refused) => Err(error(rt, alloc, refused)),
    };
    let found = values_for(rt, alloc, given, letters);
    same_in(rt, &found, &wanted, &(given, letters));
}

#[test]
fn values_for_names(rt: HostRuntime) {
    for lookup in VALUES {
        gives(&rt, rt.alloc(), *lookup);
    }
}

#[test]
fn a_value_given_twice(rt: HostRuntime) {
    let params = Params::from_pairs(rt.alloc(), &[("a", Value::Int(1))]);
    let list = names(&rt, rt.alloc(), b"aa");
    let values = answer_of(&rt, params).into_values(rt.alloc(), Some(list.as_slice()));
    let wanted = [Value::Int(1), Value::Int(1)];
    same(&rt, answer_of(&rt, values).as_slice(), wanted.as_slice());
}

// What is given, the names of a query, and what they are by position, or the name that is missing.
type Ordered = (Given, &'static [u8], Result<Given, u8>);

const BY_POSITION: &[Ordered] = &[
    // The first that is missing is reported.
    (Given::Named(b"a"), b"abc", Err(b'b')),
    (Given::Named(b""), b"ab", Err(b'a')),
    (Given::Named(b"b"), b"abc", Err(b'a')),
    (Given::Named(b"a"), b"aa", Ok(Given::Positional(&[1, 1]))),
    (
        Given::Named(b"abc"),
        b"cac",
        Ok(Given::Positional(&[3, 1, 3])),
    ),
    (Given::Named(b"a"), b"", Ok(Given::Positional(&[]))),
    // Others stay as they are.
    (Given::Empty, b"ab", Ok(Given::Empty)),
    (Given::Positional(&[1]), b"ab", Ok(Given::Positional(&[1]))),
];

// The parameters are these by position.
fn gives_by_position(rt: &impl Abort, alloc: Global, (given, letters, wanted): Ordered) {
    let wanted = match wanted {
        Ok(wanted) => Ok(params(rt, alloc, wanted)),
        Err(letter) => Err(IntoPositionalError::Missing(misses(rt, alloc, letter))),
    };
    let list = names(rt, alloc, letters);
    let found = params(rt, alloc, given).into_positional(alloc, list.as_slice());
    same_in(rt, &found, &wanted, &(given, letters));
}

#[test]
fn parameters_by_position(rt: HostRuntime) {
    for ordered in BY_POSITION {
        gives_by_position(&rt, rt.alloc(), *ordered);
    }
}

#[test]
fn values_where_they_stand(rt: HostRuntime) {
    let params = params(&rt, rt.alloc(), Given::Named(b"ab"));
    let found = answer_of(&rt, place_values(rt.alloc(), params.borrowed(), &[b"b"]));
    let wanted = [ValueRef::UInt(2)];
    same(&rt, found.as_slice(), wanted.as_slice());
}

#[test]
fn values_of_a_sorted_map(rt: HostRuntime) {
    let mut entries = BTreeMap::<Vec<u8>, Value>::without_names(rt.alloc());
    answer_of(&rt, entries.insert_value(rt.alloc(), b"b", Value::UInt(2)));
    answer_of(&rt, entries.insert_value(rt.alloc(), b"a", Value::UInt(1)));
    let params = BorrowedParams::Sorted(&entries);
    let found = answer_of(&rt, place_values(rt.alloc(), params, &[b"a"]));
    let wanted = [ValueRef::UInt(1)];
    same(&rt, found.as_slice(), wanted.as_slice());
}

// Of the name `a` the first pair counts.
const PAIRS: &[(&[u8], ValueRef<'static>)] = &[
    (b"a", ValueRef::UInt(1)),
    (b"b", ValueRef::Bytes(b"x")),
    (b"a", ValueRef::NULL),
];

#[test]
fn values_of_borrowed_pairs(rt: HostRuntime) {
    let pairs = NamedPairs(PAIRS);
    let params = BorrowedParams::Pairs(&pairs);
    let found = answer_of(&rt, place_values(rt.alloc(), params, &[b"b", b"a", b"b"]));
    let wanted = [
        ValueRef::Bytes(b"x"),
        ValueRef::UInt(1),
        ValueRef::Bytes(b"x"),
    ];
    same(&rt, found.as_slice(), wanted.as_slice());
    same(
        &rt,
        answer_of(&rt, pairs.first_redefined(rt.alloc())),
        Some(2),
    );
    let values = BorrowedParams::Values(&wanted);
    let found = answer_of(&rt, place_values(rt.alloc(), values, &[]));
    same(&rt, found.as_slice(), wanted.as_slice());
}

#[test]
fn value_of_one_name(rt: HostRuntime) {
    let Params::Named(entries) = params(&rt, rt.alloc(), Given::Named(b"ab")) else {
        panic!(rt; "no names")
    };
    assert!(rt; entries.value_of(b"b") == Some(ValueRef::UInt(2)));
    assert!(rt; entries.value_of(b"c") == None);
}

#[test]
fn value_of_one_pair(rt: HostRuntime) {
    let pairs = NamedPairs(PAIRS);
    assert!(rt; pairs.are_few());
    assert!(rt; pairs.value_of(b"a") == Some(ValueRef::UInt(1)));
    assert!(rt; pairs.value_of(b"ab") == None);
}

// Fifty names twice each, in the same order: more pairs than are found by walks.
#[test]
fn values_of_many_pairs(rt: HostRuntime) {
    let mut pairs = Vec::new(rt.alloc());
    for i in 0..100u64 {
        let at = (i % 50) as usize;
        answer_of(&rt, pairs.push((&LETTERS[at..at + 3], ValueRef::UInt(i))));
    }
    let pairs = NamedPairs(pairs.as_slice());
    assert!(rt; !pairs.are_few());
    same(
        &rt,
        answer_of(&rt, pairs.first_redefined(rt.alloc())),
        Some(50),
    );
    let params = BorrowedParams::Pairs(&pairs);
    let names: &[&[u8]] = &[&LETTERS[49..52], &LETTERS[..3]];
    let found = answer_of(&rt, place_values(rt.alloc(), params, names));
    let wanted = [ValueRef::UInt(49), ValueRef::UInt(0)];
    same(&rt, found.as_slice(), wanted.as_slice());
}

// Any three of them that follow one another are another name.
const LETTERS: &[u8] = b"abcdefghijklmnopqrstuvwxyzABCDEFGHIJKLMNOPQRSTUVWXYZ";

// Both differ, and a copy of the first is the same.
fn differ(rt: &impl Abort, first: Params, second: Params) {
    same(rt, &answer_of(rt, first.clone()), &first);
    assert!(rt; first != second, "{first:?}");
}

// Parameters that differ.
const DIFFERENT: &[(Given, Given)] = &[
    (Given::Named(b"ab"), Given::Named(b"ba")),
    (Given::Named(b"a"), Given::Named(b"ab")),
    (Given::Named(b""), Given::Empty),
    (Given::Positional(&[]), Given::Empty),
    (Given::Positional(&[2, 1]), Given::Positional(&[1, 2])),
];

#[test]
fn equality_and_copies(rt: HostRuntime) {
    for (first, second) in DIFFERENT {
        let first = params(&rt, rt.alloc(), *first);
        differ(&rt, first, params(&rt, rt.alloc(), *second));
    }
}

// A copy of the error is the same.
fn is_error_copied(rt: &impl Abort, error: ParamsError) {
    same(rt, &answer_of(rt, error.clone()), &error);
}

#[test]
fn copies_of_errors(rt: HostRuntime) {
    let missing = misses(&rt, rt.alloc(), b'a');
    is_error_copied(&rt, ParamsError::Missing(missing));
    is_error_copied(&rt, error(&rt, rt.alloc(), POSITIONAL));
    is_error_copied(&rt, ParamsError::Memory(AllocError));
}

#[test]
fn copies_of_missing_names(rt: HostRuntime) {
    let missing = misses(&rt, rt.alloc(), b'a');
    same(&rt, &answer_of(&rt, missing.clone()), &missing);
}
