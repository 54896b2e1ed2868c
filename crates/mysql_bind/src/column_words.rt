//! The options `--column`, `--null-of` and `--null-text`, which describe the columns of a table.
use crate::complaint::{Complaint, bad_word};
use crate::matching::is_new;
use crate::told::SourceName;
use crate::values::TYPES;
use clap::ArgMatches;
use mysql_bind_core::{ColumnWords, NamedColumn, NullText, named_column, null_text};
use std::alloc::{AllocError, Global};
use std::collections::{BTreeMap, BTreeSet};

/// Reads the options. Two that contradict each other are refused.
pub fn column_words(alloc: Global, matches: &ArgMatches<'_>) -> Result<ColumnWords, Complaint> {
    let null_text = match matches.get_str("null-text") {
        Some(text) => Some(Vec::from_slice(alloc, text.as_bytes())?),
        None => None,
    };
    Ok(ColumnWords {
        named: named_columns(alloc, matches.get_strs("column").unwrap_or(&[]))?,
        nulls: null_texts(alloc, matches.get_strs("null-of").unwrap_or(&[]))?,
        null_text,
    })
}

// The column of a word of `--column`.
fn column_of(alloc: Global, word: &str) -> Result<NamedColumn, Complaint> {
    match named_column(alloc, word)? {
        Some(column) => Ok(column),
        None => {
            let what = format!(in alloc;
                "--column: write NAME:TYPE, NAME=HEADER or NAME:TYPE=HEADER, with one of {TYPES}"
            )?;
            Err(bad_word(alloc, what.as_str()))
        }
    }
}

// What the words of `--column` say.
fn named_columns(alloc: Global, words: &[&str]) -> Result<Vec<NamedColumn>, Complaint> {
    let mut columns: Vec<NamedColumn> = Vec::new(alloc);
    for word in words {
        let column = column_of(alloc, word)?;
        if columns.push(column).is_err() {
            return Err(Complaint::Memory);
        }
    }
    check_named(alloc, columns.as_slice())?;
    Ok(columns)
}

// Refuses a name and a header that are given twice.
fn check_named(alloc: Global, columns: &[NamedColumn]) -> Result<(), Complaint> {
    let mut names = BTreeSet::new(alloc);
    let mut headers: BTreeMap<&[u8], &NamedColumn> = BTreeMap::new(alloc);
    for column in columns {
        let name = SourceName(column.name.as_slice());
        if !is_new(&mut names, column.name.as_slice())? {
            let what = format!(in alloc; "--column {name} is given twice")?;
            return Err(bad_word(alloc, what.as_str()));
        }
        if let Some(other) = headers.get(column.header.as_slice()) {
            let other = SourceName(other.name.as_slice());
            let what = format!(in alloc;
                "--column {name} has the header of --column {other}: a column has one name, which \
                 may stand at several places of the query"
            )?;
            return Err(bad_word(alloc, what.as_str()));
        }
        if headers.insert(column.header.as_slice(), column).is_err() {
            return Err(Complaint::Memory);
        }
    }
    Ok(())
}

// What the words of `--null-of` say. A name that is given twice is refused.
fn null_texts(alloc: Global, words: &[&str]) -> Result<Vec<NullText>, Complaint> {
    let mut nulls: Vec<NullText> = Vec::new(alloc);
    for word in words {
        let Some(null) = null_text(alloc, word)? else {
            return Err(bad_word(
                alloc,
                "--null-of: write NAME=TEXT, with the name of a column",
            ));
        };
        if nulls.push(null).is_err() {
            return Err(Complaint::Memory);
        }
    }
    check_nulls(alloc, nulls.as_slice())?;
    Ok(nulls)
}

// Refuses a name that is given twice.
fn check_nulls(alloc: Global, nulls: &[NullText]) -> Result<(), Complaint> {
    let mut names = BTreeSet::new(alloc);
    for null in nulls {
        if !is_new(&mut names, null.name.as_slice())? {
            let name = SourceName(null.name.as_slice());
            let what = format!(in alloc; "--null-of {name} is given twice")?;
            return Err(bad_word(alloc, what.as_str()));
        }
    }
    Ok(())
}
