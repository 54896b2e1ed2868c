//! The options `--rows-per-statement` and `--max-bytes`, by which rows of a table share statements.
use crate::complaint::{Complaint, Place, bad_word, one_fault};
use crate::matching::NamePlace;
use crate::query_file::QueryFile;
use crate::told::SourceName;
use crate::values::{Values, origin_at};
use clap::ArgMatches;
use mysql_bind_core::{ColumnWords, ROW_NAME, ValueType};
use std::alloc::Global;

/// The limits of a statement of several rows.
#[derive(Clone, Copy)]
pub struct Limits {
    /// The largest number of its rows.
    pub rows: usize,
    /// The largest number of its bytes, with the line of its `;`.
    pub bytes: usize,
}

// The number of a word, if there is one.
fn number_of(
    alloc: Global,
    matches: &ArgMatches<'_>,
    option: &'static str,
) -> Result<Option<usize>, Complaint> {
    let Some(word) = matches.get_str(option) else {
        return Ok(None);
    };
    match word.parse::<usize>() {
        Ok(number) if number > 0 => Ok(Some(number)),
        _ => {
            let what = format!(in alloc; "--{option}: write a whole number from 1 to 2^64-1")?;
            Err(bad_word(alloc, what.as_str()))
        }
    }
}

/// The limits that the words give, if they give some.
pub fn limits_of(alloc: Global, matches: &ArgMatches<'_>) -> Result<Option<Limits>, Complaint> {
    let rows = number_of(alloc, matches, "rows-per-statement")?;
    let bytes = number_of(alloc, matches, "max-bytes")?;
    if rows.is_none() && bytes.is_none() {
        return Ok(None);
    }
    Ok(Some(Limits {
        rows: rows.unwrap_or(usize::MAX),
        bytes: bytes.unwrap_or(usize::MAX),
    }))
}

/// Refuses types of columns that no row has.
pub fn check_types(alloc: Global, words: &ColumnWords) -> Result<(), Complaint> {
    for column in words.named.as_slice() {
        let what = match column.value_type {
            ValueType::Identifier => "identifier",
            ValueType::List => "list",
            _ => continue,
        };
        let name = SourceName(column.name.as_slice());
        let what = format!(in alloc;
            "--column {name}:{what}: no {what} stands in a row: give it another type, or leave out \
             --rows-per-statement and --max-bytes"
        )?;
        return Err(bad_word(alloc, what.as_str()));
    }
    Ok(())
}

/// Refuses a query without the place of the rows, and a value for it.
pub fn check_row(
    alloc: Global,
    query: &QueryFile<'_>,
    places: &[NamePlace],
    fixed: &Values,
) -> Result<(), Complaint> {
    if !places.iter().any(|place| place.name.as_slice() == ROW_NAME) {
        let what = "there is no name `:row` for the rows of --rows-per-statement and --max-bytes: \
             write it in place of a row, as in INSERT INTO t (a, b) VALUES :row";
        let place = Place::File(String::from_str(alloc, query.path)?);
        let what = String::from_str(alloc, what)?;
        return Err(Complaint::Refused(one_fault(alloc, place, what)?));
    }
    for i in 0..fixed.assignments.len() {
        if fixed.assignments[i].name.as_slice() == ROW_NAME {
            let origin = origin_at(fixed, i);
            let what = format!(in alloc;
                "{origin}: `:row` stands for the rows of the table, by --rows-per-statement or \
                 --max-bytes"
            )?;
            return Err(Complaint::Refused(one_fault(alloc, Place::Words, what)?));
        }
    }
    Ok(())
}
