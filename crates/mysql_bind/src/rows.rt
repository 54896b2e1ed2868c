//! The command `rows`: the query once for each row of a table.
use crate::column_words::column_words;
use crate::columns::Wanted;
use crate::complaint::{Complaint, bad_word};
use crate::group_words::{check_row, check_types, limits_of};
use crate::json_members::decimals_of;
use crate::json_rows::add_objects;
use crate::matching::{name_places, place_numbers};
use crate::progress::Progress;
use crate::query_file::{complaint_of, read_query};
use crate::records::add_records;
use crate::requests::request_of;
use crate::script::Script;
use crate::sources::{Sources, shown_path, unmarked};
use crate::table_script::TableScript;
use crate::values::{Values, values_of};
use clap::ArgMatches;
use mysql_bind_core::{START, TakenQuery};
use mysql_records::RecordFormat;
use std::alloc::Global;

// How a table is written.
#[derive(Clone, Copy, PartialEq, Eq)]
enum Form {
    Records(RecordFormat),
    Ndjson,
}

// The options that give a table.
static FORMS: [(&str, Form); 5] = [
    ("csv", Form::Records(RecordFormat::Csv)),
    ("tsv", Form::Records(RecordFormat::Tsv)),
    ("mysql-csv", Form::Records(RecordFormat::MysqlCsv)),
    ("mysql-tsv", Form::Records(RecordFormat::MysqlTsv)),
    ("ndjson", Form::Ndjson),
];

// The table of the words, which is one.
fn table_of<'a>(alloc: Global, matches: &ArgMatches<'a>) -> Result<(Form, &'a str), Complaint> {
    let mut found = None;
    let mut count = 0u8;
    for (option, form) in FORMS {
        if let Some(path) = matches.get_str(option) {
            found = Some((form, path));
            count = count.saturating_add(1);
        }
    }
    match found {
        Some(table) if count == 1 => Ok(table),
        _ => Err(bad_word(
            alloc,
            "rows: give one of --csv, --tsv, --mysql-csv, --mysql-tsv and --ndjson",
        )),
    }
}

// Refuses options that don't go together.
fn check_options(alloc: Global, matches: &ArgMatches<'_>, form: Form) -> Result<(), Complaint> {
    let typed = matches.get_strs("column").is_some()
        || matches.get_strs("null-of").is_some()
        || matches.get_str("null-text").is_some();
    if form == Form::Ndjson && typed {
        return Err(bad_word(
            alloc,
            "--column, --null-of and --null-text are not for --ndjson: JSON has types and null",
        ));
    }
    let grouped = matches.get_str("rows-per-statement").is_some()
        || matches.get_str("max-bytes").is_some();
    if form == Form::Ndjson && grouped {
        return Err(bad_word(
            alloc,
            "--rows-per-statement and --max-bytes are not for --ndjson: its members have no order",
        ));
    }
    if matches.get_flag("progress") && matches.get_flag("no-progress") {
        return Err(bad_word(alloc, "give one of --progress and --no-progress"));
    }
    if matches.get_flag("progress") && matches.get_str("errors") == Some("json") {
        return Err(bad_word(
            alloc,
            "--progress isn't for --errors=json: its lines are no JSON",
        ));
    }
    if matches.get_flag("stream") && matches.get_str("output").is_some() {
        return Err(bad_word(
            alloc,
            "--output is written whole or not at all: without --stream",
        ));
    }
    Ok(())
}

// Writes the rows of a table of records.
fn write_records(
    rt: &HostRuntime,
    matches: &ArgMatches<'_>,
    wanted: &Wanted<'_>,
    format: RecordFormat,
    bytes: &[u8],
) -> Result<(), Complaint> {
    let mut script = TableScript {
        wanted,
        transaction: matches.get_flag("transaction"),
        stream: matches.get_flag("stream"),
        begun: false,
        progress: Progress::new(rt, matches, unmarked(bytes).len()),
        text: Vec::new(rt.alloc()),
    };
    if script.transaction && !script.stream {
        script.text.extend_from_slice(START)?;
    }
    let added = add_records(&mut script, rt, format, bytes);
    script.progress.end(rt);
    match added {
        Ok(()) => script.finish(rt, matches.get_str("output")),
        Err(complaint) => {
            if script.stream {
                script.write_streamed(rt)?;
            }
            Err(complaint)
        }
    }
}

// Writes the rows of NDJSON.
fn write_objects(
    rt: &HostRuntime,
    matches: &ArgMatches<'_>,
    wanted: &Wanted<'_>,
    bytes: &[u8],
) -> Result<(), Complaint> {
    let mut script = Script {
        wanted,
        transaction: matches.get_flag("transaction"),
        stream: matches.get_flag("stream"),
        begun: false,
        progress: Progress::new(rt, matches, unmarked(bytes).len()),
        rows: Vec::new(rt.alloc()),
        lines: Vec::new(rt.alloc()),
    };
    let added = add_objects(&mut script, rt, decimals_of(matches), bytes);
    script.progress.end(rt);
    match added {
        Ok(()) => script.finish(rt, matches.get_str("output")),
        Err(complaint) if script.stream => {
            script.write_streamed(rt)?;
            Err(complaint)
        }
        Err(complaint) => Err(script.refused_behind(rt.alloc(), complaint)),
    }
}

/// Writes the query once for each row of the table.
pub fn rows(rt: &HostRuntime, matches: &ArgMatches<'_>) -> Result<(), Complaint> {
    let request = request_of(rt.alloc(), matches)?;
    let (form, path) = table_of(rt.alloc(), matches)?;
    check_options(rt.alloc(), matches, form)?;
    let limits = limits_of(rt.alloc(), matches)?;
    let words = column_words(rt.alloc(), matches)?;
    if limits.is_some() {
        check_types(rt.alloc(), &words)?;
    }
    let mut sources = Sources::new(rt.alloc());
    let query = read_query(&mut sources, rt, matches.get_str("query").unwrap_or("-"))?;
    let fixed = values_of(&mut sources, rt, matches)?;
    let places = match TakenQuery::new(rt.alloc(), query.bytes.as_slice(), request) {
        Ok(taken) => name_places(rt.alloc(), &taken)?,
        Err(failure) => {
            let values = Values::new(rt.alloc());
            return Err(complaint_of(rt.alloc(), &query, &values, request, failure)?);
        }
    };
    if limits.is_some() {
        check_row(rt.alloc(), &query, places.as_slice(), &fixed)?;
    }
    let wanted = Wanted {
        numbers: place_numbers(rt.alloc(), places.as_slice())?,
        query,
        request,
        places,
        fixed,
        words,
        limits,
        allow_unused: matches.get_flag("allow-unused"),
        path: String::from_str(rt.alloc(), shown_path(path))?,
    };
    let bytes = sources.read(rt, path)?;
    match form {
        Form::Records(format) => write_records(rt, matches, &wanted, format, bytes.as_slice()),
        Form::Ndjson => write_objects(rt, matches, &wanted, bytes.as_slice()),
    }
}
