//! The arguments that the program takes. Each option has the same name here, in the help, in the
//! manual page and in the completion.
use clap::{Arg, ArgAction, Command};
use std::alloc::{AllocError, Global};

static LITERALS: [&str; 2] = ["steady", "plain"];

static MODES: [&str; 2] = ["backslash", "no-backslash"];

static FORMS: [&str; 3] = ["text", "json", "github"];

static DECIMALS: [&str; 3] = ["exact", "double", "text"];

// An option that may be given many times.
fn many<'a>(alloc: Global, name: &'a str) -> Arg<'a> {
    Arg::new(alloc, name).long(name).action(ArgAction::Append)
}

// An option that is given once.
fn one<'a>(alloc: Global, name: &'a str) -> Arg<'a> {
    Arg::new(alloc, name).long(name).action(ArgAction::Set)
}

// An option without a value.
fn flag<'a>(alloc: Global, name: &'a str) -> Arg<'a> {
    Arg::new(alloc, name).long(name).action(ArgAction::SetTrue)
}

// What each command takes: how the query is read, what is taken, and how faults are told.
fn common<'a>(alloc: Global, name: &'a str) -> Result<Command<'a>, AllocError> {
    Command::new(alloc, name)
        .arg(one(alloc, "literals").value_parser(LITERALS.as_slice()))?
        .arg(one(alloc, "mode").value_parser(MODES.as_slice()))?
        .arg(one(alloc, "sql-mode"))?
        .arg(flag(alloc, "allow-unportable"))?
        .arg(one(alloc, "errors").value_parser(FORMS.as_slice()))
}

// The file of the query.
fn one_query<'a>(alloc: Global) -> Arg<'a> {
    Arg::new(alloc, "query").action(ArgAction::Set)
}

// What `bind` and `rows` take: values, and where the text is written.
fn binding<'a>(alloc: Global, name: &'a str) -> Result<Command<'a>, AllocError> {
    common(alloc, name)?
        .arg(many(alloc, "set"))?
        .arg(many(alloc, "file"))?
        .arg(many(alloc, "env"))?
        .arg(many(alloc, "null"))?
        .arg(many(alloc, "json"))?
        .arg(many(alloc, "pairs"))?
        .arg(one(alloc, "decimals").value_parser(DECIMALS.as_slice()))?
        .arg(flag(alloc, "allow-unused"))?
        .arg(one(alloc, "output").short('o'))?
        .arg(one_query(alloc))
}

// The words of `rows`.
fn rows<'a>(alloc: Global) -> Result<Command<'a>, AllocError> {
    binding(alloc, "rows")?
        .arg(one(alloc, "csv"))?
        .arg(one(alloc, "tsv"))?
        .arg(one(alloc, "mysql-csv"))?
        .arg(one(alloc, "mysql-tsv"))?
        .arg(one(alloc, "ndjson"))?
        .arg(many(alloc, "column"))?
        .arg(many(alloc, "null-of"))?
        .arg(one(alloc, "null-text"))?
        .arg(one(alloc, "rows-per-statement"))?
        .arg(one(alloc, "max-bytes"))?
        .arg(flag(alloc, "transaction"))?
        .arg(flag(alloc, "stream"))?
        .arg(flag(alloc, "progress"))?
        .arg(flag(alloc, "no-progress"))
}

// The words of `names`.
fn names<'a>(alloc: Global) -> Result<Command<'a>, AllocError> {
    common(alloc, "names")?
        .arg(flag(alloc, "zero").short('z'))?
        .arg(one(alloc, "output").short('o'))?
        .arg(one_query(alloc))
}

// The words of `check`.
fn check<'a>(alloc: Global) -> Result<Command<'a>, AllocError> {
    common(alloc, "check")?.arg(
        Arg::new(alloc, "queries")
            .action(ArgAction::Append)
            .num_args(1..),
    )
}

/// The whole command-line interface.
pub fn interface<'a>(alloc: Global) -> Result<Command<'a>, AllocError> {
    Command::new(alloc, "mysql_bind")
        .version("0.1.0")
        .subcommand_required(true)
        .subcommand(binding(alloc, "bind")?)?
        .subcommand(rows(alloc)?)?
        .subcommand(names(alloc)?)?
        .subcommand(check(alloc)?)
}
