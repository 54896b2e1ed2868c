//! What errors and parameters show.
use crate::shared::{answer_of, named, same};
use mysql_params::params::{
    IntoPositionalError, MissingNamedParameterError, Params, ParamsConfusionError, ParamsError,
    ToPairs, ToParams, ToParamsError,
};
use mysql_values::value::convert::ToValueError;
use std::alloc::{AllocError, Global};
use std::fmt::Display;
use std::process::Abort;
use std::time::Duration;

fn missing(rt: &impl Abort, alloc: Global) -> MissingNamedParameterError {
    MissingNamedParameterError(answer_of(rt, Vec::from_slice(alloc, b"a\"\xFF")))
}

// The error's message is the text. The error is given away, so that callers have none to let go.
fn says<E: Display + Drop>(rt: &impl Abort, alloc: Global, error: E, text: &str) {
    let message = answer_of(rt, format!(in alloc; "{error}"));
    same(rt, message.as_str(), text);
}

// The parameters are shown as the text.
fn is_shown(rt: &impl Abort, alloc: Global, params: Params, text: &str) {
    let shown = answer_of(rt, format!(in alloc; "{params:?}"));
    same(rt, shown.as_str(), text);
}

const CONFUSIONS: [(ParamsConfusionError, &str); 2] = [
    (
        ParamsConfusionError::NamedParamsForPositionalQuery,
        "Named params given where positional params are expected",
    ),
    (
        ParamsConfusionError::PositionalParamsForNamedQuery,
        "Positional params given where named params are expected",
    ),
];

#[test]
fn messages_of_lookups(rt: HostRuntime) {
    let alloc = rt.alloc();
    let text = "Missing named parameter `a\\x22\\xff` for statement";
    says(&rt, alloc, missing(&rt, alloc), text);
    says(&rt, alloc, ParamsError::Missing(missing(&rt, alloc)), text);
    let positional = IntoPositionalError::Missing(missing(&rt, alloc));
    says(&rt, alloc, positional, text);
}

#[test]
fn messages_of_confusions(rt: HostRuntime) {
    for (error, text) in CONFUSIONS {
        says(&rt, rt.alloc(), error, text);
        says(&rt, rt.alloc(), ParamsError::Confusion(error), text);
    }
}

#[test]
fn messages_of_memory(rt: HostRuntime) {
    let alloc = rt.alloc();
    let text = "out of memory";
    says(&rt, alloc, IntoPositionalError::Memory(AllocError), text);
    says(&rt, alloc, ParamsError::Memory(AllocError), text);
    says(&rt, alloc, ToParamsError::Memory(AllocError), text);
}

#[test]
fn messages_of_makers(rt: HostRuntime) {
    let alloc = rt.alloc();
    let name = answer_of(&rt, Vec::from_slice(alloc, b"a\n"));
    let text = "Redefinition of named parameter `a\\x0a'";
    says(&rt, alloc, ToParamsError::Redefined(name), text);
    let error = ToValueError::DurationTooLong(Duration::from_secs(1));
    let text = "Duration has too many days";
    says(&rt, alloc, ToParamsError::Value(error), text);
}

#[test]
fn shown_parameters(rt: HostRuntime) {
    let alloc = rt.alloc();
    is_shown(&rt, alloc, Params::Empty, "Empty");
    is_shown(&rt, alloc, named(&rt, alloc, b""), "Named({})");
    let two = answer_of(&rt, (1i64, None::<u8>).to_params(alloc));
    is_shown(&rt, alloc, two, "Positional([Int(1), Null])");
}

// They are shown in the order of their names.
#[test]
fn shown_names(rt: HostRuntime) {
    let alloc = rt.alloc();
    let two = (("b", None::<u8>), ("a", 1i64)).to_named(alloc);
    let text = "Named({\"a\": Int(1), \"b\": Null})";
    is_shown(&rt, alloc, answer_of(&rt, two), text);
    let four = (("b", "x"), ("ab", None::<u8>), ("a", 1i64), ("", 2u64)).to_named(alloc);
    let text = "Named({\"\": UInt(2), \"a\": Int(1), \"ab\": Null, \"b\": Bytes(\"x\")})";
    is_shown(&rt, alloc, answer_of(&rt, four), text);
}
