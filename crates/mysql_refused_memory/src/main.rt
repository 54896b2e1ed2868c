//! Makes the calls that standard input names, one a line, and says in a word how each went.
#![tactic(auto)]

mod archive_cases;
mod argument_cases;
mod bind_cases;
mod bind_inputs;
mod bind_rows_cases;
mod binding_cases;
mod borrowed_cases;
mod column_cases;
mod conversion_cases;
mod copy_cases;
mod fixed_query_cases;
mod flat_fragment_cases;
mod fragment_argument_cases;
mod fragment_cases;
mod fragment_inputs;
mod group_cases;
mod inputs;
mod lookup_cases;
mod maker_cases;
mod matched_cases;
mod one_call_cases;
mod outcome;
mod pair_cases;
mod parsed_query_cases;
mod program_cases;
mod purposes;
mod query_cases;
mod read_cases;
mod record_cases;
mod rows_cases;
mod steady_cases;
mod steady_fragment_cases;
mod table_cases;
mod table_text_cases;
mod value_cases;
mod wide_archive_cases;
mod wide_cases;
mod wide_fragment_cases;
mod wide_pair_cases;
mod wide_query_cases;
mod wide_steady_cases;
mod wire_cases;
mod written_cases;

use crate::outcome::{Case, Outcome};
use std::alloc::{AllocError, Global};
use std::io::Read;
use std::{io, str};

/// How the call of this name went, if there is one.
fn case(alloc: Global, name: &str) -> Option<Case> {
    if let Some(case) = value_case(alloc, name) {
        return Some(case);
    }
    if let Some(case) = query_case(alloc, name) {
        return Some(case);
    }
    if let Some(case) = fragments_case(alloc, name) {
        return Some(case);
    }
    if let Some(case) = bind_case(alloc, name) {
        return Some(case);
    }
    if let Some(case) = wide_case(alloc, name) {
        return Some(case);
    }
    bound_case(alloc, name)
}

/// Of the wire and values.
fn value_case(alloc: Global, name: &str) -> Option<Case> {
    if let Some(case) = wire_cases::case(alloc, name) {
        return Some(case);
    }
    if let Some(case) = written_cases::case(alloc, name) {
        return Some(case);
    }
    if let Some(case) = read_cases::case(alloc, name) {
        return Some(case);
    }
    if let Some(case) = borrowed_cases::case(alloc, name) {
        return Some(case);
    }
    if let Some(case) = copy_cases::case(alloc, name) {
        return Some(case);
    }
    if let Some(case) = value_cases::case(alloc, name) {
        return Some(case);
    }
    conversion_cases::case(alloc, name)
}

/// Of queries and parameters.
fn query_case(alloc: Global, name: &str) -> Option<Case> {
    if let Some(case) = query_cases::case(alloc, name) {
        return Some(case);
    }
    if let Some(case) = maker_cases::case(alloc, name) {
        return Some(case);
    }
    if let Some(case) = lookup_cases::case(alloc, name) {
        return Some(case);
    }
    parsed_query_cases::case(alloc, name)
}

/// Of fragments.
fn fragments_case(alloc: Global, name: &str) -> Option<Case> {
    if let Some(case) = fragment_cases::case(alloc, name) {
        return Some(case);
    }
    if let Some(case) = steady_fragment_cases::case(alloc, name) {
        return Some(case);
    }
    if let Some(case) = fragment_argument_cases::case(alloc, name) {
        return Some(case);
    }
    flat_fragment_cases::case(alloc, name)
}

/// Of the core of the shell tool.
fn bind_case(alloc: Global, name: &str) -> Option<Case> {
    if let Some(case) = bind_cases::case(alloc, name) {
        return Some(case);
    }
    if let Some(case) = matched_cases::case(alloc, name) {
        return Some(case);
    }
    if let Some(case) = record_cases::case(alloc, name) {
        return Some(case);
    }
    if let Some(case) = table_text_cases::case(alloc, name) {
        return Some(case);
    }
    if let Some(case) = group_cases::case(alloc, name) {
        return Some(case);
    }
    if let Some(case) = column_cases::case(alloc, name) {
        return Some(case);
    }
    bind_rows_cases::case(alloc, name)
}

/// Of wide names, except those of fixed queries, rows and tables.
fn wide_case(alloc: Global, name: &str) -> Option<Case> {
    if let Some(case) = wide_cases::case(alloc, name) {
        return Some(case);
    }
    if let Some(case) = wide_query_cases::case(alloc, name) {
        return Some(case);
    }
    if let Some(case) = wide_pair_cases::case(alloc, name) {
        return Some(case);
    }
    if let Some(case) = wide_steady_cases::case(alloc, name) {
        return Some(case);
    }
    if let Some(case) = wide_fragment_cases::case(alloc, name) {
        return Some(case);
    }
    wide_archive_cases::case(alloc, name)
}

/// Of binding, the program and the archive.
fn bound_case(alloc: Global, name: &str) -> Option<Case> {
    if let Some(case) = binding_cases::case(alloc, name) {
        return Some(case);
    }
    if let Some(case) = pair_cases::case(alloc, name) {
        return Some(case);
    }
    if let Some(case) = one_call_cases::case(alloc, name) {
        return Some(case);
    }
    if let Some(case) = steady_cases::case(alloc, name) {
        return Some(case);
    }
    if let Some(case) = fixed_query_cases::case(alloc, name) {
        return Some(case);
    }
    if let Some(case) = program_cases::case(alloc, name) {
        return Some(case);
    }
    if let Some(case) = argument_cases::case(alloc, name) {
        return Some(case);
    }
    if let Some(case) = rows_cases::case(alloc, name) {
        return Some(case);
    }
    if let Some(case) = table_cases::case(alloc, name) {
        return Some(case);
    }
    archive_cases::case(alloc, name)
}

/// The word for how a call went.
fn word(case: Option<Case>) -> &'static str {
    match case {
        None => "no such case",
        Some(Err(AllocError)) => "setup",
        Some(Ok(Outcome::Memory)) => "memory",
        Some(Ok(Outcome::Answer)) => "answer",
        Some(Ok(Outcome::Refusal)) => "refusal",
        Some(Ok(Outcome::AnswerWithoutMemory)) => "answer without memory",
        Some(Ok(Outcome::Wrong)) => "WRONG",
    }
}

/// Makes a request for memory for each dot in front of a line. The rest of the line.
fn without_dots(alloc: Global, line: &str) -> &str {
    let name = line.trim_start_matches('.');
    for _ in 0..line.len().saturating_sub(name.len()) {
        let _ = Vec::<u8>::with_capacity(alloc, 1);
    }
    name
}

/// Reads to the end of the input, or until the room is full. How much was read.
fn read_lines(rt: &HostRuntime, room: &mut [u8]) -> io::Result<usize> {
    let mut len = 0;
    for _ in 0..room.len() {
        if len >= room.len() {
            break;
        }
        match rt.stdin().read(&mut room[len..])? {
            0 => break,
            n => len += n,
        }
    }
    Ok(len)
}

fn main(rt: HostRuntime) -> io::Result<()> {
    let mut room = [0u8; 32_768];
    let len = read_lines(&rt, &mut room)?;
    let read = room.get(..len).unwrap_or(&[]);
    let text = str::from_utf8(read).unwrap_or("");
    for line in text.lines() {
        let name = without_dots(rt.alloc(), line);
        let word = word(case(rt.alloc(), name));
        println!(rt; "{name}: {word}")?;
    }
    Ok(())
}
