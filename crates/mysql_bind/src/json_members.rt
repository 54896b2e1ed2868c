//! The members of a JSON object as assignments.
use crate::complaint::{Complaint, bad_file};
use crate::values::Values;
use clap::ArgMatches;
use json::{Error as JsonError, Scratch, Value as Json};
use mysql_bind_core::{Decimals, member_assignment};
use std::alloc::{AllocError, Global};

/// The choice of the option `--decimals`.
pub fn decimals_of(matches: &ArgMatches<'_>) -> Decimals {
    match matches.get_str("decimals") {
        Some("exact") => Decimals::Exact,
        Some("double") => Decimals::Double,
        Some(_) => Decimals::Text,
        None => Decimals::Refused,
    }
}

// Adds a member.
fn add_member(
    values: &mut Values,
    alloc: Global,
    path: &str,
    member: &(&str, Json<'_>),
    decimals: Decimals,
) -> Result<(), Complaint> {
    let name = member.0;
    match member_assignment(alloc, name, &member.1, decimals)? {
        Some(assignment) => {
            let origin = format!(in alloc; "{path}: `{name}`")?;
            values.add(origin, assignment)?;
            Ok(())
        }
        None => {
            let what = format!(in alloc;
                "`{name}` is an object, or a list with a list or an object: give each value a name \
                 of its own"
            )?;
            Err(bad_file(alloc, path, what.as_str()))
        }
    }
}

// Adds the members of an object.
fn add_each(
    values: &mut Values,
    alloc: Global,
    path: &str,
    json: &Json<'_>,
    decimals: Decimals,
) -> Result<(), Complaint> {
    let Json::Object(members) = json else {
        return Err(bad_file(alloc, path, "no JSON object: write {\"name\": value, ..}"));
    };
    for member in members {
        add_member(values, alloc, path, member, decimals)?;
    }
    Ok(())
}

/// Adds the members of the JSON object in a file.
pub fn add_members(
    values: &mut Values,
    alloc: Global,
    path: &str,
    bytes: &[u8],
    decimals: Decimals,
) -> Result<(), Complaint> {
    let Ok(text) = std::str::from_utf8(bytes) else {
        return Err(bad_file(alloc, path, "is not UTF-8"));
    };
    let mut scratch = Scratch::new(alloc);
    match Json::parse_strict(alloc, text, &mut scratch) {
        Ok(json) => add_each(values, alloc, path, &json, decimals),
        Err(JsonError::OutOfMemory) => Err(Complaint::Memory),
        Err(JsonError::DuplicateKey) => Err(bad_file(
            alloc,
            path,
            "a key stands twice in an object",
        )),
        Err(_) => Err(bad_file(alloc, path, "is no JSON")),
    }
}
