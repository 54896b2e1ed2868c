//! The commands of the program.
use crate::all_faults::{add_all_faults, add_joined};
use crate::complaint::{Complaint, Fault, add_fault};
use crate::matching::{is_new, matched_values};
use crate::output::write_text;
use crate::query_file::{QueryFile, complaint_of, read_query};
use crate::requests::request_of;
use crate::rows::rows;
use crate::sources::Sources;
use crate::values::{Values, values_of};
use clap::ArgMatches;
use mysql_bind_core::{Failure, Request, TakenQuery};
use mysql_named_params::named_params::NamedParamsError;
use std::alloc::{AllocError, Global};
use std::collections::BTreeSet;

/// Runs the command that the arguments name.
pub fn answer(rt: &HostRuntime, matches: &ArgMatches<'_>) -> Result<(), Complaint> {
    match matches.subcommand() {
        Some(("bind", inner)) => bind(rt, inner),
        Some(("rows", inner)) => rows(rt, inner),
        Some(("names", inner)) => names(rt, inner),
        Some(("check", inner)) => check(rt, inner),
        _ => Ok(()),
    }
}

// A refusal, as a complaint; a complaint out of memory is that.
fn refused(
    rt: &HostRuntime,
    query: &QueryFile<'_>,
    values: &Values,
    request: Request,
    failure: Failure,
) -> Complaint {
    match complaint_of(rt.alloc(), query, values, request, failure) {
        Ok(complaint) => complaint,
        Err(_) => Complaint::Memory,
    }
}

// Writes the query with its values bound, to standard output or to a file.
fn bind(rt: &HostRuntime, matches: &ArgMatches<'_>) -> Result<(), Complaint> {
    let request = request_of(rt.alloc(), matches)?;
    let mut sources = Sources::new(rt.alloc());
    let query = read_query(&mut sources, rt, matches.get_str("query").unwrap_or("-"))?;
    let values = values_of(&mut sources, rt, matches)?;
    let taken = match TakenQuery::new(rt.alloc(), query.bytes.as_slice(), request) {
        Ok(taken) => taken,
        Err(failure) => return Err(refused(rt, &query, &values, request, failure)),
    };
    let allow_unused = matches.get_flag("allow-unused");
    let values = matched_values(rt.alloc(), &query, &taken, values, allow_unused)?;
    let output = matches.get_str("output");
    let assignments = values.assignments.as_slice();
    let written = match output {
        None => taken.write(rt.alloc(), assignments, &mut rt.stdout()),
        Some(_) => match taken.text(rt.alloc(), assignments) {
            Ok(text) => return write_text(rt, output, text.as_slice()),
            Err(failure) => Err(failure),
        },
    };
    match written {
        Ok(()) => Ok(()),
        Err(failure) => Err(refused(rt, &query, &values, request, failure)),
    }
}

// Each name once, in the order of the first places, and the byte after it.
fn names_text(alloc: Global, names: &[&[u8]], end: u8) -> Result<Vec<u8>, AllocError> {
    let mut text = Vec::new(alloc);
    let mut told = BTreeSet::new(alloc);
    for name in names {
        if is_new(&mut told, *name)? {
            text.extend_from_slice(*name)?;
            text.push(end)?;
        }
    }
    Ok(text)
}

// Writes the names of the query.
fn names(rt: &HostRuntime, matches: &ArgMatches<'_>) -> Result<(), Complaint> {
    let request = request_of(rt.alloc(), matches)?;
    let mut sources = Sources::new(rt.alloc());
    let query = read_query(&mut sources, rt, matches.get_str("query").unwrap_or("-"))?;
    let taken = match TakenQuery::new(rt.alloc(), query.bytes.as_slice(), request) {
        Ok(taken) => taken,
        Err(failure) => {
            return Err(refused(rt, &query, &Values::new(rt.alloc()), request, failure));
        }
    };
    let end = if matches.get_flag("zero") { 0u8 } else { b'\n' };
    let text = query_names_text(rt.alloc(), &taken, end)?;
    write_text(rt, matches.get_str("output"), text.as_slice())
}

// The names of a query that is taken, each with the byte after it.
fn query_names_text(alloc: Global, query: &TakenQuery<'_>, end: u8) -> Result<Vec<u8>, Complaint> {
    match query.parsed().names(alloc) {
        Ok(names) => Ok(names_text(alloc, names.as_slice(), end)?),
        // A query that is taken has no marks.
        Err(NamedParamsError::Mixed(_)) => Ok(Vec::new(alloc)),
        Err(NamedParamsError::Memory(_)) => Err(Complaint::Memory),
    }
}

// Adds what is wrong with one query. Whether it could be read.
fn check_one(
    faults: &mut Vec<Fault>,
    sources: &mut Sources,
    rt: &HostRuntime,
    path: &str,
    request: Request,
) -> Result<bool, Complaint> {
    let query = match read_query(sources, rt, path) {
        Ok(query) => query,
        Err(Complaint::Unusable(found)) => {
            for fault in found {
                add_fault(faults, fault.place, fault.what)?;
            }
            return Ok(false);
        }
        Err(complaint) => return Err(complaint),
    };
    match TakenQuery::new(rt.alloc(), query.bytes.as_slice(), request) {
        Ok(taken) => add_joined(faults, rt.alloc(), &query, &taken)?,
        Err(failure) => add_all_faults(faults, rt.alloc(), &query, request, failure)?,
    }
    Ok(true)
}

// Says what is wrong with each query, and which can't be read.
fn check(rt: &HostRuntime, matches: &ArgMatches<'_>) -> Result<(), Complaint> {
    let request = request_of(rt.alloc(), matches)?;
    let mut sources = Sources::new(rt.alloc());
    let mut faults = Vec::new(rt.alloc());
    let mut all_read = true;
    for path in matches.get_strs("queries").unwrap_or(&["-"]) {
        let read = check_one(&mut faults, &mut sources, rt, path, request)?;
        all_read = all_read && read;
    }
    if !all_read {
        Err(Complaint::Unusable(faults))
    } else if faults.is_empty() {
        Ok(())
    } else {
        Err(Complaint::Refused(faults))
    }
}
