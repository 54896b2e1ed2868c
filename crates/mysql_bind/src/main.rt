//! The program `mysql_bind`: it binds values from files, the environment, JSON and descriptors into
//! a query. `mysql_bind_core` binds and refuses. This crate reads sources and reports refusals.
#![tactic(auto)]

mod all_faults;
mod changed_text;
mod column_words;
mod columns;
mod commands;
mod complaint;
mod construct_texts;
mod group_records;
mod group_words;
mod help;
mod interface;
mod json_members;
mod json_rows;
mod matching;
mod output;
mod progress;
mod query_file;
mod records;
mod refused_row;
mod requests;
mod rewritten;
mod rows;
mod script;
mod sources;
mod sql_modes;
mod table_script;
mod told;
mod values;
mod words;

use crate::commands::answer;
use crate::complaint::{Complaint, ErrorForm};
use crate::help::{HELP, VERSION};
use crate::interface::interface;
use crate::words::{error_form_of, usage_complaint, words_of};
use clap::error::ErrorKind;
use std::process::ExitCode;

// Does what the words ask for.
fn run(rt: &HostRuntime, words: &[String]) -> Result<(), Complaint> {
    let command = interface(rt.alloc())?;
    match command.try_get_matches_from(words) {
        Ok(matches) => answer(rt, &matches),
        Err(error) => match error.kind() {
            ErrorKind::DisplayHelp => printed(rt, HELP),
            ErrorKind::DisplayVersion => printed(rt, VERSION),
            ErrorKind::OutOfMemory => Err(Complaint::Memory),
            kind => Err(usage_complaint(rt.alloc(), kind, words)?),
        },
    }
}

// Prints a text of the program's own.
fn printed(rt: &HostRuntime, text: &str) -> Result<(), Complaint> {
    match print!(rt; "{text}") {
        Ok(()) => Ok(()),
        Err(_) => Err(Complaint::Write),
    }
}

// The status of the complaint, which is told.
fn end_of(rt: &HostRuntime, form: ErrorForm, complaint: &Complaint) -> ExitCode {
    // The status tells of a refusal whose message can't be printed.
    let _ = complaint.tell(rt, form);
    ExitCode::from(complaint.status())
}

// Ends with the status 0, or with that of a complaint.
fn main(rt: HostRuntime) -> ExitCode {
    match words_of(&rt) {
        Ok(words) => match run(&rt, words.as_slice()) {
            Ok(()) => ExitCode::SUCCESS,
            Err(complaint) => end_of(&rt, error_form_of(words.as_slice()), &complaint),
        },
        Err(complaint) => end_of(&rt, ErrorForm::Text, &complaint),
    }
}
