//! Copies: every `clone` that can be out of memory.
use crate::inputs::{Given, Plain, bytes};
use crate::outcome::{Case, cases, copied, holds, row};
use mysql_params::named_params::ParsedNamedParams;
use mysql_params::params::{MissingNamedParameterError, Params, ParamsConfusionError, ParamsError};
use mysql_values::bytes::Bytes;
use mysql_values::value::Value;
use mysql_values::value::convert::{FromValueError, ValueIr};
use std::alloc::{AllocError, Global};

/// What is copied.
#[derive(Clone, Copy)]
enum Source {
    Bytes,
    Value,
    ConversionError,
    Intermediate,
    Parsed,
    NamedParams,
    PositionalParams,
    Missing,
    ParamsError,
    NoBytes,
}

const SOURCES: &[(&str, Source)] = cases! {
    "clone of Bytes" => Source::Bytes;
    "clone of a value of bytes" => Source::Value;
    "clone of FromValueError" => Source::ConversionError;
    "clone of ValueIr" => Source::Intermediate;
    "clone of ParsedNamedParams" => Source::Parsed;
    "clone of named parameters" => Source::NamedParams;
    "clone of positional parameters" => Source::PositionalParams;
    "clone of MissingNamedParameterError" => Source::Missing;
    "clone of ParamsError" => Source::ParamsError;
    "clone of what holds no bytes" => Source::NoBytes;
};

/// How the call of this name went, if it stands here.
pub(crate) fn case(alloc: Global, name: &str) -> Option<Case> {
    let case = match row(SOURCES, name)? {
        Source::Bytes => copy_of_bytes(alloc),
        Source::Value => copy_of_value(alloc),
        Source::ConversionError => copy_of_conversion_error(alloc),
        Source::Intermediate => copy_of_intermediate(alloc),
        Source::Parsed => copy_of_parsed(alloc),
        Source::NamedParams => copy_of_params(alloc, NAMED),
        Source::PositionalParams => copy_of_params(alloc, POSITIONAL),
        Source::Missing => copy_of_missing(alloc),
        Source::ParamsError => copy_of_params_error(alloc),
        Source::NoBytes => holds(are_copied()),
    };
    Some(case)
}

const NAMED: Given = Given::Named(&[(b"a", Plain::Bytes(b"abc"))]);

const POSITIONAL: Given = Given::Positional(&[Plain::Bytes(b"abc")]);

fn copy_of_bytes(alloc: Global) -> Case {
    let bytes = Bytes::from(Vec::from_slice(alloc, b"abc")?);
    Ok(copied(bytes.clone(), &bytes))
}

fn copy_of_value(alloc: Global) -> Case {
    let value = bytes(alloc, b"abc")?;
    Ok(copied(value.clone(), &value))
}

fn copy_of_conversion_error(alloc: Global) -> Case {
    let error = FromValueError(bytes(alloc, b"abc")?);
    Ok(copied(error.clone(), &error))
}

fn copy_of_intermediate(alloc: Global) -> Case {
    let ir = ValueIr(bytes(alloc, b"abc")?);
    Ok(copied(ir.clone(), &ir))
}

fn copy_of_parsed(alloc: Global) -> Case {
    match ParsedNamedParams::parse(alloc, b":a :b") {
        Ok(parsed) => Ok(copied(parsed.clone(), &parsed)),
        Err(_) => Err(AllocError),
    }
}

fn copy_of_params(alloc: Global, given: Given<'_>) -> Case {
    let params = given.params(alloc)?;
    Ok(copied(params.clone(), &params))
}

fn copy_of_missing(alloc: Global) -> Case {
    let error = MissingNamedParameterError(Vec::from_slice(alloc, b"a")?);
    Ok(copied(error.clone(), &error))
}

fn copy_of_params_error(alloc: Global) -> Case {
    let name = Vec::from_slice(alloc, b"a")?;
    let error = ParamsError::Missing(MissingNamedParameterError(name));
    Ok(copied(error.clone(), &error))
}

fn are_copied() -> bool {
    let error = ParamsError::Confusion(ParamsConfusionError::NamedParamsForPositionalQuery);
    let ir = ValueIr(Value::Int(5));
    Value::UInt(5).clone() == Ok(Value::UInt(5))
        && Params::Empty.clone() == Ok(Params::Empty)
        && ir.clone() == Ok(ValueIr(Value::Int(5)))
        && error.clone() == Ok(error)
}
