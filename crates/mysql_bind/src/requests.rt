//! The request that the options make.
use crate::complaint::{Complaint, bad_word};
use crate::sql_modes::literals_of_answer;
use clap::ArgMatches;
use mysql_bind_core::{Literals, Portability, Request};
use std::alloc::Global;

/// The request that the options make.
pub fn request_of(alloc: Global, matches: &ArgMatches<'_>) -> Result<Request, Complaint> {
    let literals = literals_of(alloc, matches)?;
    let portability = if matches.get_flag("allow-unportable") {
        Portability::Any
    } else {
        Portability::Portable
    };
    Ok(Request {
        literals,
        portability,
    })
}

// The literals that are asked for.
fn literals_of(alloc: Global, matches: &ArgMatches<'_>) -> Result<Literals, Complaint> {
    let mode = matches.get_str("mode");
    let sql_mode = matches.get_str("sql-mode");
    if matches.get_str("literals") == Some("plain") {
        return plain_of(alloc, mode, sql_mode);
    }
    if mode.is_some() || sql_mode.is_some() {
        return Err(bad_word(
            alloc,
            "--mode and --sql-mode are for --literals=plain: steady literals need no mode",
        ));
    }
    Ok(Literals::Steady)
}

// The literals of a mode.
fn plain_of(
    alloc: Global,
    mode: Option<&str>,
    sql_mode: Option<&str>,
) -> Result<Literals, Complaint> {
    match (mode, sql_mode) {
        (Some(mode), None) => Ok(Literals::Plain {
            no_backslash_escape: mode == "no-backslash",
        }),
        (None, Some(text)) => literals_of_answer(alloc, text),
        (Some(_), Some(_)) => Err(bad_word(alloc, "give one of --mode and --sql-mode")),
        (None, None) => Err(bad_word(
            alloc,
            "--literals=plain needs --mode=backslash or --mode=no-backslash, or --sql-mode=TEXT \
             with what SELECT @@sql_mode answered",
        )),
    }
}
