//! The assignments that the options make, and the messages about wrong ones.
use crate::complaint::{Complaint, Fault, Place, add_fault, bad_file, bad_word, unusable};
use crate::json_members::{add_members, decimals_of};
use crate::sources::{Sources, read_variable, shown_path, unmarked};
use clap::ArgMatches;
use mysql_bind_core::{
    Assignment, Decimals, OptionWord, ValueType, first_pair, pair_parts, set_assignment,
    typed_fragment, word_assignment,
};
use std::alloc::{AllocError, Global};

/// Assignments, and the origin of each: an option and a name, or a file.
#[derive(Drop)]
pub struct Values {
    /// The assignments.
    pub assignments: Vec<Assignment>,
    /// The origins of the assignments, one for each.
    pub origins: Vec<String>,
}

impl Values {
    /// No assignments.
    pub fn new(alloc: Global) -> Values {
        Values {
            assignments: Vec::new(alloc),
            origins: Vec::new(alloc),
        }
    }

    /// Adds an assignment.
    pub fn add(&mut self, origin: String, assignment: Assignment) -> Result<(), AllocError> {
        if self.origins.push(origin).is_err() {
            return Err(AllocError);
        }
        match self.assignments.push(assignment) {
            Ok(()) => Ok(()),
            Err(_) => Err(AllocError),
        }
    }
}

/// The names of the types, for messages.
pub static TYPES: &str = "text, line, bytes, int, uint, bool, hex, base64, decimal, double, \
     identifier and list";

/// The message about bytes that aren't valid for this type.
pub fn wrong_value(value_type: ValueType) -> &'static str {
    match value_type {
        ValueType::Text => "is not UTF-8: give it as NAME:bytes",
        ValueType::Line => "is not one line of UTF-8: give it as NAME:text or NAME:bytes",
        ValueType::Int => "is no whole number from -2^63 to 2^63-1",
        ValueType::Uint => "is no whole number from 0 to 2^64-1",
        ValueType::Number =>
            "is no whole number of 64 bits: write it as a string, or give --decimals=exact, \
             --decimals=double or --decimals=text",
        ValueType::Bool => "is neither true nor false",
        ValueType::Hex => "is not pairs of hexadecimal digits",
        ValueType::Base64 => "is no base64 with padding",
        ValueType::Decimal => "is no exact number of at most 65 digits, such as -1.50",
        ValueType::Double => "is no decimal number in the range of a double, such as -1.5e-7",
        ValueType::Identifier =>
            "is no name of 1 to 64 characters of UTF-8 without a byte 0, a space at its end, and a \
             backslash there or before a backquote",
        ValueType::List =>
            "is no JSON array with an item, and all of them texts, numbers, true, false or null, \
             such as [1, 2]",
        ValueType::Null | ValueType::Bytes => "has no value",
    }
}

// What is said further if the bytes without the newline at their end have a value.
fn newline_hint(alloc: Global, assignment: &Assignment) -> Result<&'static str, AllocError> {
    let bytes = assignment.bytes.as_slice();
    let [line @ .., b'\n'] = bytes else {
        return Ok("");
    };
    if assignment.value_type != ValueType::Line
        && typed_fragment(alloc, assignment.value_type, line)?.is_some()
    {
        Ok(": a newline ends it, so write the file without (printf in place of echo)")
    } else {
        Ok("")
    }
}

/// A fault for each assignment whose bytes aren't valid for its type.
pub fn wrong_values(alloc: Global, values: &Values) -> Result<Vec<Fault>, AllocError> {
    let mut faults = Vec::new(alloc);
    for i in 0..values.assignments.len() {
        let assignment = &values.assignments[i];
        if typed_fragment(alloc, assignment.value_type, assignment.bytes.as_slice())?.is_some() {
            continue;
        }
        let origin = origin_at(values, i);
        let hint = newline_hint(alloc, assignment)?;
        let what = format!(in alloc; "{origin}: {}{hint}", wrong_value(assignment.value_type))?;
        add_fault(&mut faults, Place::Words, what)?;
    }
    Ok(faults)
}

/// The origin of the assignment with this number.
pub fn origin_at(values: &Values, number: usize) -> &str {
    match values.origins.get(number) {
        Some(origin) => origin.as_str(),
        None => "",
    }
}

// The type that a word of an option names. What stands after the `=` is in no message.
fn check_type(alloc: Global, option: &str, word: OptionWord<'_>) -> Result<(), Complaint> {
    if word.value_type().is_some() {
        return Ok(());
    }
    let what = if word.name.is_empty() {
        format!(in alloc; "--{option}: write the name without its colon")?
    } else {
        format!(in alloc; "--{option}: the type after NAME: is one of {TYPES}")?
    };
    Err(unusable(alloc, Place::Words, what))
}

// Where an assignment of an option comes from.
fn origin_of(alloc: Global, option: &str, name: &str) -> Result<String, AllocError> {
    format!(in alloc; "--{option} {name}")
}

// Adds the assignment of bytes to the name of a word, whose type was checked.
fn add_word(
    values: &mut Values,
    alloc: Global,
    origin: String,
    word: OptionWord<'_>,
    bytes: Vec<u8>,
) -> Result<(), AllocError> {
    match word_assignment(alloc, word, bytes)? {
        Some(assignment) => values.add(origin, assignment),
        None => Ok(()),
    }
}

// Adds what `--set` gives.
fn add_set(values: &mut Values, alloc: Global, text: &str) -> Result<(), Complaint> {
    let word = OptionWord::new(text);
    check_type(alloc, "set", word)?;
    match set_assignment(alloc, text)? {
        Some(assignment) => Ok(values.add(origin_of(alloc, "set", word.name)?, assignment)?),
        None => Err(bad_word(alloc, "--set: write NAME=VALUE or NAME:TYPE=VALUE")),
    }
}

// Adds what `--file` gives.
fn add_file(
    values: &mut Values,
    sources: &mut Sources,
    rt: &HostRuntime,
    text: &str,
) -> Result<(), Complaint> {
    let word = OptionWord::new(text);
    check_type(rt.alloc(), "file", word)?;
    match word.rest {
        Some(path) => {
            let bytes = sources.read(rt, path)?;
            let origin = origin_of(rt.alloc(), "file", word.name)?;
            Ok(add_word(values, rt.alloc(), origin, word, bytes)?)
        }
        None => Err(bad_word(rt.alloc(), "--file: write NAME=PATH or NAME:TYPE=PATH")),
    }
}

// Adds what `--env` gives.
fn add_env(values: &mut Values, rt: &HostRuntime, text: &str) -> Result<(), Complaint> {
    let word = OptionWord::new(text);
    check_type(rt.alloc(), "env", word)?;
    let variable = match word.rest {
        Some(variable) => variable,
        None => word.name,
    };
    match read_variable(rt, variable)? {
        Some(bytes) => {
            let origin = origin_of(rt.alloc(), "env", word.name)?;
            Ok(add_word(values, rt.alloc(), origin, word, bytes)?)
        }
        None => {
            let what = format!(in rt.alloc();
                "--env {}: the environment has no such variable",
                word.name
            )?;
            Err(unusable(rt.alloc(), Place::Words, what))
        }
    }
}

// Adds what `--null` gives.
fn add_null(values: &mut Values, alloc: Global, name: &str) -> Result<(), Complaint> {
    if name.bytes().any(|byte| byte == b'=' || byte == b':') {
        return Err(bad_word(alloc, "--null: write NAME alone"));
    }
    let origin = origin_of(alloc, "null", name)?;
    let assignment = Assignment {
        name: Vec::from_slice(alloc, name.as_bytes())?,
        value_type: ValueType::Null,
        bytes: Vec::new(alloc),
    };
    values.add(origin, assignment)?;
    Ok(())
}

// A pair `NAME[:TYPE]=VALUE`, whose value is any bytes except 0. Messages have its number: behind a
// byte 0 in a value a part of the value would be a name.
fn add_pair(
    values: &mut Values,
    alloc: Global,
    path: &str,
    pair: &[u8],
    number: usize,
) -> Result<(), Complaint> {
    let Some((front, value)) = pair_parts(pair) else {
        let what = format!(in alloc;
            "pair {number} has no `=`: write NAME=VALUE, and a byte 0 after it"
        )?;
        return Err(bad_file(alloc, path, what.as_str()));
    };
    let Ok(front) = std::str::from_utf8(front) else {
        let what = format!(in alloc; "the name of pair {number} is not UTF-8")?;
        return Err(bad_file(alloc, path, what.as_str()));
    };
    let word = OptionWord::new(front);
    check_type(alloc, "pairs", word)?;
    let bytes = Vec::from_slice(alloc, value)?;
    let origin = format!(in alloc; "{path}: pair {number}")?;
    Ok(add_word(values, alloc, origin, word, bytes)?)
}

// Adds what `--pairs` gives.
fn add_pairs(
    values: &mut Values,
    sources: &mut Sources,
    rt: &HostRuntime,
    path: &str,
) -> Result<(), Complaint> {
    let bytes = sources.read(rt, path)?;
    let mut rest = bytes.as_slice();
    let mut number = 1usize;
    // Each pair has a byte.
    for _ in 0..bytes.len() {
        if rest.is_empty() {
            break;
        }
        let Some((pair, more)) = first_pair(rest) else {
            return Err(bad_file(
                rt.alloc(),
                shown_path(path),
                "no byte 0 ends the last pair: is it whole?",
            ));
        };
        add_pair(values, rt.alloc(), shown_path(path), pair, number)?;
        number = number.saturating_add(1);
        rest = more;
    }
    Ok(())
}

// Adds what these options give.
fn add_options(
    values: &mut Values,
    sources: &mut Sources,
    rt: &HostRuntime,
    matches: &ArgMatches<'_>,
) -> Result<(), Complaint> {
    for word in matches.get_strs("set").unwrap_or(&[]) {
        add_set(values, rt.alloc(), word)?;
    }
    for word in matches.get_strs("file").unwrap_or(&[]) {
        add_file(values, sources, rt, word)?;
    }
    for word in matches.get_strs("env").unwrap_or(&[]) {
        add_env(values, rt, word)?;
    }
    for name in matches.get_strs("null").unwrap_or(&[]) {
        add_null(values, rt.alloc(), name)?;
    }
    Ok(())
}

// Adds what `--json` gives.
fn add_json(
    values: &mut Values,
    sources: &mut Sources,
    rt: &HostRuntime,
    paths: &[&str],
    decimals: Decimals,
) -> Result<(), Complaint> {
    for path in paths {
        let bytes = sources.read(rt, path)?;
        add_members(
            values,
            rt.alloc(),
            shown_path(path),
            unmarked(bytes.as_slice()),
            decimals,
        )?;
    }
    Ok(())
}

/// The assignments that the options make, in the order `--set`, `--file`, `--env`, `--null`,
/// `--json`, `--pairs`.
pub fn values_of(
    sources: &mut Sources,
    rt: &HostRuntime,
    matches: &ArgMatches<'_>,
) -> Result<Values, Complaint> {
    let mut values = Values::new(rt.alloc());
    add_options(&mut values, sources, rt, matches)?;
    if let Some(paths) = matches.get_strs("json") {
        add_json(&mut values, sources, rt, paths, decimals_of(matches))?;
    }
    for path in matches.get_strs("pairs").unwrap_or(&[]) {
        add_pairs(&mut values, sources, rt, path)?;
    }
    Ok(values)
}
