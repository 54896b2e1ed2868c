//! What makes parameters: `to_params`, `from_pairs`, `from_objects` and `to_named`.
use crate::inputs::{Given, Plain};
use crate::outcome::{Case, Outcome, cases, holds, judged, row};
use mysql_params::params::{Params, ToPairs, ToParams, ToParamsError};
use mysql_values::value::convert::ToValue;
use std::alloc::{AllocError, Global};
use std::time::Duration;

/// A duration of more days than a `Time` has, in seconds.
const TOO_LONG: u64 = 371085174374400;

/// What makes parameters.
#[derive(Clone, Copy)]
enum Maker {
    Pairs(&'static [(&'static str, u8)], Wanted),
    PairOfText,
    LongPair,
    Objects,
    RepeatedObject,
    LongObject,
    TupleOfPairs,
    TwelvePairs,
    RepeatedPair,
    LongPairOfTuple,
}

const MAKERS: &[(&str, Maker)] = cases! {
    "from_pairs of two names" => Maker::Pairs(&[("a", 1), ("b", 2)], ONE_AND_TWO);
    "from_pairs of a text" => Maker::PairOfText;
    "from_pairs of a repeated name" => Maker::Pairs(&[("a", 1), ("a", 2)], REPEATED);
    "from_pairs of a duration that is too long" => Maker::LongPair;
    "from_objects of two names" => Maker::Objects;
    "from_objects of a repeated name" => Maker::RepeatedObject;
    "from_objects of a duration that is too long" => Maker::LongObject;
    "to_named of two pairs" => Maker::TupleOfPairs;
    "to_named of twelve pairs" => Maker::TwelvePairs;
    "to_named of a repeated name" => Maker::RepeatedPair;
    "to_named of a duration that is too long" => Maker::LongPairOfTuple;
};

/// How the call of this name went, if it stands here.
pub(crate) fn case(alloc: Global, name: &str) -> Option<Case> {
    if let Some(maker) = row(MAKERS, name) {
        return Some(Ok(made(alloc, maker)));
    }
    if let Some(len) = row(TUPLES, name) {
        return Some(Ok(tuple(alloc, len)));
    }
    Some(params_made(alloc, row(ARGUMENTS, name)?))
}

const PAIR_OF_TEXT: &[(&[u8], &str)] = &[(b"a", "x")];

const ONE_AND_TEXT: ((&str, u8), (&str, &str)) = (("a", 1), ("b", "x"));

const TWO_OF_A: ((&str, u8), (&str, u8)) = (("a", 1), ("a", 2));

/// The parameters that are made by name.
fn made(alloc: Global, maker: Maker) -> Outcome {
    match maker {
        Maker::Pairs(pairs, wanted) => is_made(Params::from_pairs(alloc, pairs), wanted),
        Maker::PairOfText => is_made(Params::from_pairs(alloc, PAIR_OF_TEXT), X_OF_A),
        Maker::LongPair => long_pair(alloc),
        Maker::Objects => objects_by_name(alloc),
        Maker::RepeatedObject => repeated_object(alloc),
        Maker::LongObject => long_object_by_name(alloc),
        Maker::TupleOfPairs => is_made(ONE_AND_TEXT.to_named(alloc), ONE_AND_X),
        Maker::TwelvePairs => twelve_pairs(alloc),
        Maker::RepeatedPair => is_made(TWO_OF_A.to_named(alloc), REPEATED),
        Maker::LongPairOfTuple => long_pair_of_tuple(alloc),
    }
}

/// Arguments that stand in no tuple.
#[derive(Clone, Copy)]
enum Arguments {
    Numbers,
    Texts,
    Reference,
    Objects,
    Copied(Given<'static>),
    Text,
    Nothing,
    LongDurations,
    LongObject,
    LongInTuple,
}

const ARGUMENTS: &[(&str, Arguments)] = cases! {
    "to_params of numbers in a vector" => Arguments::Numbers;
    "to_params of texts in a vector" => Arguments::Texts;
    "to_params of a reference" => Arguments::Reference;
    "to_params of objects" => Arguments::Objects;
    "to_params of named parameters" => Arguments::Copied(ABC_OF_A);
    "to_params of positional parameters" => Arguments::Copied(ABC);
    "to_params of a text in a tuple" => Arguments::Text;
    "to_params of nothing" => Arguments::Nothing;
    "to_params of durations that are too long in a vector" => Arguments::LongDurations;
    "to_params of an object that is too long" => Arguments::LongObject;
    "to_params of a duration that is too long in a tuple" => Arguments::LongInTuple;
};

const TUPLES: &[(&str, usize)] = cases! {
    "to_params of a tuple of 1" => 1;
    "to_params of a tuple of 2" => 2;
    "to_params of a tuple of 3" => 3;
    "to_params of a tuple of 4" => 4;
    "to_params of a tuple of 5" => 5;
    "to_params of a tuple of 6" => 6;
    "to_params of a tuple of 7" => 7;
    "to_params of a tuple of 8" => 8;
    "to_params of a tuple of 9" => 9;
    "to_params of a tuple of 10" => 10;
    "to_params of a tuple of 11" => 11;
    "to_params of a tuple of 12" => 12;
};

/// The parameters, or how the refusal is shown.
type Wanted = Result<Given<'static>, &'static str>;

const EMPTY: Wanted = Ok(Given::Empty);

const ONE_AND_TWO: Wanted = Ok(Given::Named(&[(b"a", Plain::UInt(1)), (b"b", Plain::UInt(2))]));

const ONE_AND_X: Wanted = Ok(Given::Named(&[(b"a", Plain::UInt(1)), (b"b", Plain::Bytes(b"x"))]));

const X_OF_A: Wanted = Ok(Given::Named(&[(b"a", Plain::Bytes(b"x"))]));

const ABC_OF_A: Given = Given::Named(&[(b"a", Plain::Bytes(b"abc"))]);

const ABC: Given = Given::Positional(&[Plain::Bytes(b"abc")]);

const REPEATED: Wanted = Err("Redefined([97])");

const REFUSED: Wanted = Err("Value(DurationTooLong(371085174374400s))");

/// The values 1 to 12.
const COUNTED: &[Plain] = &[
    Plain::UInt(1),
    Plain::UInt(2),
    Plain::UInt(3),
    Plain::UInt(4),
    Plain::UInt(5),
    Plain::UInt(6),
    Plain::UInt(7),
    Plain::UInt(8),
    Plain::UInt(9),
    Plain::UInt(10),
    Plain::UInt(11),
    Plain::UInt(12),
];

fn is_made(answer: Result<Params, ToParamsError>, wanted: Wanted) -> Outcome {
    judged(answer, wanted)
}

/// The arguments make these parameters, or are refused so.
fn makes<T: ToParams>(alloc: Global, arguments: &T, wanted: Wanted) -> Outcome {
    judged(arguments.to_params(alloc), wanted)
}

/// The arguments make the numbers from 1 to `last` by position.
fn counts<T: ToParams>(alloc: Global, arguments: &T, last: usize) -> Outcome {
    makes(
        alloc,
        arguments,
        Ok(Given::Positional(COUNTED.get(..last).unwrap_or(&[]))),
    )
}

fn params_made(alloc: Global, arguments: Arguments) -> Case {
    match arguments {
        Arguments::Numbers => of(alloc, Vec::from_slice(alloc, ONE_TWO), COUNTED_TWO),
        Arguments::Texts => of(alloc, Vec::from_slice(alloc, TEXTS), Ok(ABC)),
        Arguments::Reference => reference(alloc),
        Arguments::Objects => Ok(objects(alloc)),
        Arguments::Copied(given) => of(alloc, given.params(alloc), Ok(given)),
        Arguments::Text => Ok(makes(alloc, &TEXT, Ok(ABC))),
        Arguments::Nothing => holds(nothing(alloc)),
        Arguments::LongDurations => long_vector(alloc),
        Arguments::LongObject => Ok(long_object(alloc)),
        Arguments::LongInTuple => Ok(long_tuple(alloc)),
    }
}

const TEXT: (&str,) = ("abc",);

const ONE: (u8,) = (1,);

const TWO: (u8, u8) = (1, 2);

const THREE: (u8, u8, u8) = (1, 2, 3);

const FOUR: (u8, u8, u8, u8) = (1, 2, 3, 4);

const FIVE: (u8, u8, u8, u8, u8) = (1, 2, 3, 4, 5);

const SIX: (u8, u8, u8, u8, u8, u8) = (1, 2, 3, 4, 5, 6);

const SEVEN: (u8, u8, u8, u8, u8, u8, u8) = (1, 2, 3, 4, 5, 6, 7);

const EIGHT: (u8, u8, u8, u8, u8, u8, u8, u8) = (1, 2, 3, 4, 5, 6, 7, 8);

const NINE: (u8, u8, u8, u8, u8, u8, u8, u8, u8) = (1, 2, 3, 4, 5, 6, 7, 8, 9);

const TEN: (u8, u8, u8, u8, u8, u8, u8, u8, u8, u8) = (1, 2, 3, 4, 5, 6, 7, 8, 9, 10);

const ELEVEN: (u8, u8, u8, u8, u8, u8, u8, u8, u8, u8, u8) = (1, 2, 3, 4, 5, 6, 7, 8, 9, 10, 11);

const TWELVE: (u8, u8, u8, u8, u8, u8, u8, u8, u8, u8, u8, u8) = (
    1, 2, 3, 4, 5, 6, 7, 8, 9, 10, 11, 12,
);

fn tuple(alloc: Global, len: usize) -> Outcome {
    match len {
        1 => counts(alloc, &ONE, 1),
        2 => counts(alloc, &TWO, 2),
        3 => counts(alloc, &THREE, 3),
        4 => counts(alloc, &FOUR, 4),
        5 => counts(alloc, &FIVE, 5),
        6 => counts(alloc, &SIX, 6),
        7 => counts(alloc, &SEVEN, 7),
        8 => counts(alloc, &EIGHT, 8),
        9 => counts(alloc, &NINE, 9),
        10 => counts(alloc, &TEN, 10),
        11 => counts(alloc, &ELEVEN, 11),
        _ => counts(alloc, &TWELVE, 12),
    }
}

/// The arguments, once they are there, make these parameters, or are refused so.
fn of<T: ToParams + Drop>(alloc: Global, arguments: Result<T, AllocError>, wanted: Wanted) -> Case {
    Ok(makes(alloc, &arguments?, wanted))
}

const ONE_TWO: &[u64] = &[1, 2];

const COUNTED_TWO: Wanted = Ok(Given::Positional(&[Plain::UInt(1), Plain::UInt(2)]));

const TEXTS: &[&str] = &["abc"];

fn long_vector(alloc: Global) -> Case {
    let durations = [Duration::from_secs(1), Duration::from_secs(TOO_LONG)];
    of(alloc, Vec::from_slice(alloc, &durations), REFUSED)
}

fn reference(alloc: Global) -> Case {
    Ok(counts(alloc, &&Vec::from_slice(alloc, &[1u64, 2])?, 2))
}

const OF_OBJECTS: Given = Given::Positional(&[Plain::UInt(1), Plain::Bytes(b"x"), Plain::Null]);

fn objects(alloc: Global) -> Outcome {
    let objects: [&dyn ToValue; 3] = [&1u8, &"x", &None::<i64>];
    is_made(objects.as_slice().to_params(alloc), Ok(OF_OBJECTS))
}

fn nothing(alloc: Global) -> bool {
    let objects: [&dyn ToValue; 0] = [];
    makes(alloc, &(), EMPTY).is_right()
        && makes(alloc, &Vec::<u8>::new(alloc), EMPTY).is_right()
        && is_made(objects.as_slice().to_params(alloc), EMPTY).is_right()
        && makes(alloc, &Params::Empty, EMPTY).is_right()
}

fn long_object(alloc: Global) -> Outcome {
    let long = Duration::from_secs(TOO_LONG);
    let objects: [&dyn ToValue; 2] = [&"x", &long];
    is_made(objects.as_slice().to_params(alloc), REFUSED)
}

fn long_tuple(alloc: Global) -> Outcome {
    makes(alloc, &("x", Duration::from_secs(TOO_LONG)), REFUSED)
}

fn long_pair(alloc: Global) -> Outcome {
    let pairs = [
        ("a", Duration::from_secs(1)),
        ("b", Duration::from_secs(TOO_LONG)),
    ];
    is_made(Params::from_pairs(alloc, &pairs), REFUSED)
}

fn objects_by_name(alloc: Global) -> Outcome {
    let pairs: [(&[u8], &dyn ToValue); 2] = [(b"a", &1u8), (b"b", &"x")];
    is_made(Params::from_objects(alloc, &pairs), ONE_AND_X)
}

fn repeated_object(alloc: Global) -> Outcome {
    let pairs: [(&[u8], &dyn ToValue); 2] = [(b"a", &1u8), (b"a", &"x")];
    is_made(Params::from_objects(alloc, &pairs), REPEATED)
}

fn long_object_by_name(alloc: Global) -> Outcome {
    let long = Duration::from_secs(TOO_LONG);
    let pairs: [(&[u8], &dyn ToValue); 2] = [(b"a", &"x"), (b"b", &long)];
    is_made(Params::from_objects(alloc, &pairs), REFUSED)
}

/// The names `a` to `l` with 1 to 12.
const TWELVE_NAMES: Wanted = Ok(Given::Named(&[
    (b"a", Plain::UInt(1)),
    (b"b", Plain::UInt(2)),
    (b"c", Plain::UInt(3)),
    (b"d", Plain::UInt(4)),
    (b"e", Plain::UInt(5)),
    (b"f", Plain::UInt(6)),
    (b"g", Plain::UInt(7)),
    (b"h", Plain::UInt(8)),
    (b"i", Plain::UInt(9)),
    (b"j", Plain::UInt(10)),
    (b"k", Plain::UInt(11)),
    (b"l", Plain::UInt(12)),
]));

type Pair = (&'static str, u8);

const TWELVE_PAIRS: (
    Pair,
    Pair,
    Pair,
    Pair,
    Pair,
    Pair,
    Pair,
    Pair,
    Pair,
    Pair,
    Pair,
    Pair,
) = (
    ("a", 1),
    ("b", 2),
    ("c", 3),
    ("d", 4),
    ("e", 5),
    ("f", 6),
    ("g", 7),
    ("h", 8),
    ("i", 9),
    ("j", 10),
    ("k", 11),
    ("l", 12),
);

fn twelve_pairs(alloc: Global) -> Outcome {
    is_made(TWELVE_PAIRS.to_named(alloc), TWELVE_NAMES)
}

fn long_pair_of_tuple(alloc: Global) -> Outcome {
    let pairs = (("a", 1u8), ("b", Duration::from_secs(TOO_LONG)));
    is_made(pairs.to_named(alloc), REFUSED)
}
