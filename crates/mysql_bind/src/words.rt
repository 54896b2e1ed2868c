//! The arguments of the program.
use crate::complaint::{Complaint, ErrorForm, Place, bad_word, unusable};
use clap::error::ErrorKind;
use std::alloc::{AllocError, Global};
use std::env;

/// The program's arguments, its own name first.
pub fn words_of(rt: &HostRuntime) -> Result<Vec<String>, Complaint> {
    let Ok(arguments) = env::args(rt) else {
        return Err(bad_word(
            rt.alloc(),
            "an argument is not UTF-8: give it by --file, --env or --pairs",
        ));
    };
    let mut words = Vec::new(rt.alloc());
    for word in arguments {
        if words.push(word).is_err() {
            return Err(Complaint::Memory);
        }
    }
    Ok(words)
}

/// The format in which faults are reported, before the arguments are known to be right.
pub fn error_form_of(words: &[String]) -> ErrorForm {
    for i in 0..words.len() {
        let word = words[i].as_str();
        if word == "--errors=json"
            || (i > 0 && word == "json" && words[i - 1].as_str() == "--errors")
        {
            return ErrorForm::Json;
        }
        if word == "--errors=github"
            || (i > 0 && word == "github" && words[i - 1].as_str() == "--errors")
        {
            return ErrorForm::Github;
        }
    }
    ErrorForm::Text
}

static OPTIONS: [&str; 31] = [
    "--literals",
    "--mode",
    "--sql-mode",
    "--allow-unportable",
    "--errors",
    "--set",
    "--file",
    "--env",
    "--null",
    "--json",
    "--pairs",
    "--decimals",
    "--csv",
    "--tsv",
    "--mysql-csv",
    "--mysql-tsv",
    "--ndjson",
    "--column",
    "--null-of",
    "--null-text",
    "--rows-per-statement",
    "--max-bytes",
    "--transaction",
    "--stream",
    "--progress",
    "--no-progress",
    "--allow-unused",
    "--output",
    "--zero",
    "--help",
    "--version",
];

// The options that are given no value.
static FLAGS: [&str; 9] = [
    "--allow-unportable",
    "--transaction",
    "--stream",
    "--progress",
    "--no-progress",
    "--allow-unused",
    "--zero",
    "--help",
    "--version",
];

// What stands before the first `=`: a value never does.
fn before_value(word: &str) -> &str {
    match word.split_once('=') {
        Some((front, _)) => front,
        None => word,
    }
}

// The option that is given the word after this one.
fn option_of_next(word: &str) -> Option<&str> {
    if word == "-o" {
        return Some("--output");
    }
    let has_value = OPTIONS.iter().any(|option| *option == word)
        && !FLAGS.iter().any(|flag| *flag == word);
    has_value.then_some(word)
}

// A word that begins with `--` and is an option of no command.
#[derive(Clone, Copy)]
enum UnknownOption<'a> {
    // The word, without what is given to it.
    Word(&'a str),
    // It follows this option, so that it may be a value.
    After(&'a str),
}

// The first such word.
fn unknown_option(words: &[String]) -> Option<UnknownOption<'_>> {
    let mut before = "";
    for word in words {
        let front = before_value(word.as_str());
        if front == "--" {
            return None;
        }
        if front.starts_with("--") && !OPTIONS.iter().any(|option| *option == front) {
            return match option_of_next(before) {
                Some(option) => Some(UnknownOption::After(option)),
                None => Some(UnknownOption::Word(front)),
            };
        }
        before = word.as_str();
    }
    None
}

// What is said of it.
fn unknown_option_text(alloc: Global, unknown: UnknownOption<'_>) -> Result<String, AllocError> {
    match unknown {
        UnknownOption::Word(option) => format!(in alloc;
            "there is no option {option} (mysql_bind --help)"
        ),
        UnknownOption::After(option) => format!(in alloc;
            "{option}: the word after it is no option, and a value that begins with `--` stands \
             after `=`: {option}=--x (mysql_bind --help)"
        ),
    }
}

// What is wrong with words of this kind of fault. A word is not repeated: it may hold a value.
fn usage_text(kind: ErrorKind) -> &'static str {
    match kind {
        ErrorKind::InvalidSubcommand | ErrorKind::MissingSubcommand =>
            "the first word is one of bind, rows, names and check (mysql_bind --help)",
        ErrorKind::InvalidValue =>
            "an option has a word that it doesn't take, or none: --literals takes steady or plain, \
             --mode backslash or no-backslash, --errors text, json or github, --decimals exact, \
             double or text (mysql_bind --help)",
        ErrorKind::ArgumentConflict =>
            "an option that is taken once is given twice (mysql_bind --help)",
        ErrorKind::TooManyValues => "a flag takes no value (mysql_bind --help)",
        _ =>
            "a word is not one that this command takes: a second QUERY, or an option of none or of \
             another command (mysql_bind --help)",
    }
}

/// The message about arguments that are refused.
pub fn usage_complaint(
    alloc: Global,
    kind: ErrorKind,
    words: &[String],
) -> Result<Complaint, AllocError> {
    if let Some(unknown) = unknown_option(words) {
        let what = unknown_option_text(alloc, unknown)?;
        return Ok(unusable(alloc, Place::Words, what));
    }
    Ok(bad_word(alloc, usage_text(kind)))
}
