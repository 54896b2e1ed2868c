//! Which things are asked for their value, and how often: each once, up to the first that decides.
use crate::own_type::Counted;
use crate::shared::{answer_of, same_in};
use mysql_params::params::{Params, ToPairs, ToParams, ToParamsError};
use mysql_values::value::convert::{ToValue, ToValueError};
use std::alloc::Global;
use std::process::Abort;
use std::time::Duration;

/// Three things, of which the second may have no value.
fn three_things(second: Duration) -> [Counted; 3] {
    let one = Duration::from_secs(1);
    [Counted::new(one), Counted::new(second), Counted::new(one)]
}

/// How often each was asked for its value.
fn times_asked(things: &[Counted; 3]) -> [u32; 3] {
    [
        things[0].times_asked(),
        things[1].times_asked(),
        things[2].times_asked(),
    ]
}

/// What makes parameters of three things.
#[derive(Clone, Copy, Debug)]
enum Maker {
    List,
    Objects,
    Tuple,
    Pairs,
    PairsOfObjects,
    TupleOfPairs,
}

const MAKERS: [Maker; 6] = [
    Maker::List,
    Maker::Objects,
    Maker::Tuple,
    Maker::Pairs,
    Maker::PairsOfObjects,
    Maker::TupleOfPairs,
];

/// Pairs of the things and names of one byte each.
fn pairs(alloc: Global, names: &[u8; 3], things: &[Counted; 3]) -> Result<Params, ToParamsError> {
    let pairs = [
        (&names[0..1], &things[0]),
        (&names[1..2], &things[1]),
        (&names[2..3], &things[2]),
    ];
    Params::from_pairs(alloc, &pairs)
}

/// The same, by their objects.
fn pairs_of_objects<'a>(
    alloc: Global,
    names: &'a [u8; 3],
    things: &'a [Counted; 3],
) -> Result<Params, ToParamsError> {
    let pairs: [(&'a [u8], &'a dyn ToValue); 3] = [
        (&names[0..1], &things[0]),
        (&names[1..2], &things[1]),
        (&names[2..3], &things[2]),
    ];
    Params::from_objects(alloc, &pairs)
}

fn objects<'a>(alloc: Global, things: &'a [Counted; 3]) -> Result<Params, ToParamsError> {
    let objects: [&'a dyn ToValue; 3] = [&things[0], &things[1], &things[2]];
    objects.as_slice().to_params(alloc)
}

fn make(
    rt: &impl Abort,
    alloc: Global,
    maker: Maker,
    things: &[Counted; 3],
) -> Result<Params, ToParamsError> {
    match maker {
        Maker::List => {
            let list = Vec::from_array(alloc, [&things[0], &things[1], &things[2]]);
            answer_of(rt, list).to_params(alloc)
        }
        Maker::Objects => objects(alloc, things),
        Maker::Tuple => (&things[0], &things[1], &things[2]).to_params(alloc),
        Maker::Pairs => pairs(alloc, b"abc", things),
        Maker::PairsOfObjects => pairs_of_objects(alloc, b"abc", things),
        Maker::TupleOfPairs => {
            (("a", &things[0]), ("b", &things[1]), ("c", &things[2])).to_named(alloc)
        }
    }
}

#[test]
fn each_thing_is_asked_once(rt: HostRuntime) {
    for maker in MAKERS {
        let things = three_things(Duration::from_secs(2));
        assert!(rt; make(&rt, rt.alloc(), maker, &things).is_ok(), "{maker:?}");
        same_in(&rt, &times_asked(&things), &[1, 1, 1], &maker);
    }
}

#[test]
fn nothing_is_asked_after_a_refused_thing(rt: HostRuntime) {
    // One second more than a `Time` has days for.
    let long = Duration::from_secs(371085174374400);
    for maker in MAKERS {
        let things = three_things(long);
        let refusal = make(&rt, rt.alloc(), maker, &things).err();
        let too_long = ToParamsError::Value(ToValueError::DurationTooLong(long));
        same_in(&rt, &refusal, &Some(too_long), &maker);
        same_in(&rt, &times_asked(&things), &[1, 1, 0], &maker);
    }
}

/// The pairs were refused for the name `a`.
fn is_redefined(rt: &impl Abort, alloc: Global, found: Result<Params, ToParamsError>) {
    let error = ToParamsError::Redefined(answer_of(rt, Vec::from_slice(alloc, b"a")));
    same_in(rt, &found.err(), &Some(error), &"a redefined name");
}

/// The pairs are refused for the name `a`, and so often the things are asked.
fn are_redefined(rt: &impl Abort, alloc: Global, names: &[u8; 3], wanted: [u32; 3]) {
    let things = three_things(Duration::from_secs(2));
    is_redefined(rt, alloc, pairs(alloc, names, &things));
    same_in(rt, &times_asked(&things), &wanted, &names);
    let things = three_things(Duration::from_secs(2));
    is_redefined(rt, alloc, pairs_of_objects(alloc, names, &things));
    same_in(rt, &times_asked(&things), &wanted, &(names, "of objects"));
}

#[test]
fn nothing_is_asked_from_a_redefined_name_on(rt: HostRuntime) {
    are_redefined(&rt, rt.alloc(), b"aab", [1, 0, 0]);
    are_redefined(&rt, rt.alloc(), b"aba", [1, 1, 0]);
    are_redefined(&rt, rt.alloc(), b"aaa", [1, 0, 0]);
}
