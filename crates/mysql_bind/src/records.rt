//! The rows of CSV and TSV, and of what MySQL servers and clients write.
use crate::columns::{Wanted, add_fixed, columns_of};
use crate::complaint::{Complaint, Place, bad_file, one_fault};
use crate::group_records::add_groups;
use crate::progress::ROWS_AT_ONCE;
use crate::query_file::complaint_of;
use crate::refused_row::{RowAt, complaint_of_row};
use crate::script::STREAMED_ROWS;
use crate::sources::unmarked;
use crate::table_script::TableScript;
use crate::values::Values;
use mysql_bind_core::{
    Column, Failure, MatchedQuery, TableForm, TableRefusal, append_table, assignments_of,
    line_and_column, record_cells, table_parts,
};
use mysql_records::{Fault, FaultKind, LentField, RecordError, RecordFormat, first_record_into};
use std::alloc::Global;

// What is said of a fault, and what to write instead.
fn fault_text(format: RecordFormat, kind: FaultKind) -> &'static str {
    match kind {
        FaultKind::StrayReturn => match format {
            RecordFormat::Tsv =>
                "a carriage return stands before no newline: no field of TSV has one, but one of \
                 --csv may, in quotes",
            _ => "a carriage return stands before no newline: write the field in quotes",
        },
        FaultKind::StrayQuote => match format {
            RecordFormat::MysqlCsv =>
                "a quote stands within a field: write it as `\\\"`, and the field in quotes",
            _ => "a quote stands within a field: write it twice, and the field in quotes",
        },
        FaultKind::OpenQuote => "this quote is left open",
        FaultKind::BehindQuote => match format {
            RecordFormat::MysqlCsv =>
                "this follows the quote that ends a field: write a quote in a field as `\\\"`",
            _ =>
                "this follows the quote that ends a field: write a quote in a field twice, and the \
                 field in quotes",
        },
        FaultKind::UnknownEscape =>
            "this backslash makes no escape with the byte behind it: write a backslash twice",
    }
}

// A complaint about a place of the table.
fn place_refused(alloc: Global, path: &str, line: usize, column: usize, what: &str) -> Complaint {
    match (String::from_str(alloc, path), String::from_str(alloc, what)) {
        (Ok(path), Ok(what)) => {
            let place = Place::Line { path, line, column };
            match one_fault(alloc, place, what) {
                Ok(faults) => Complaint::Refused(faults),
                Err(_) => Complaint::Memory,
            }
        }
        _ => Complaint::Memory,
    }
}

/// The bytes of a table.
#[derive(Clone, Copy)]
pub struct Table<'t> {
    /// Its path, in the form that messages have.
    pub path: &'t str,
    /// The format of its records.
    pub format: RecordFormat,
    /// The bytes.
    pub bytes: &'t [u8],
}

impl<'t> Table<'t> {
    /// The bytes from an index on.
    pub fn from_index(self, at: usize) -> &'t [u8] {
        let at = at.min(self.bytes.len());
        &self.bytes[at..]
    }

    /// The index at which a rest of the bytes begins.
    pub fn index_of(self, rest: &[u8]) -> usize {
        self.bytes.len().saturating_sub(rest.len())
    }

    /// The line and the column of an index.
    pub fn place_of(self, at: usize) -> (usize, usize) {
        line_and_column(self.bytes, at.min(self.bytes.len()))
    }

    /// The message about a fault in the rest of the bytes from `start` on.
    pub fn fault_refused(self, alloc: Global, start: usize, fault: Fault) -> Complaint {
        let (line, column) = self.place_of(start.saturating_add(fault.at));
        place_refused(
            alloc,
            self.path,
            line,
            column,
            fault_text(self.format, fault.kind),
        )
    }

    /// The message about a record that begins at an index. Its number of fields isn't the number of
    /// columns.
    pub fn length_refused(self, alloc: Global, at: usize, len: usize, columns: usize) -> Complaint {
        let (line, _) = self.place_of(at);
        let fields = if len == 1 { "field" } else { "fields" };
        match format!(in alloc; "{len} {fields}, and the first line has {columns}") {
            Ok(what) => place_refused(alloc, self.path, line, 1, what.as_str()),
            Err(_) => Complaint::Memory,
        }
    }

    /// Reads the fields of the record at the front of a rest of the bytes, if there is one. It
    /// returns the bytes behind the record.
    pub fn read(
        self,
        alloc: Global,
        rest: &'t [u8],
        fields: &mut Vec<LentField<'t>>,
    ) -> Result<Option<&'t [u8]>, Complaint> {
        match first_record_into(alloc, self.format, rest, fields) {
            Ok(more) => Ok(more),
            Err(RecordError::Fault(fault)) => {
                Err(self.fault_refused(alloc, self.index_of(rest), fault))
            }
            Err(RecordError::Memory(_)) => Err(Complaint::Memory),
        }
    }

    /// The number of records in a rest of the bytes.
    pub fn count_records(self, alloc: Global, rest: &'t [u8]) -> Result<usize, Complaint> {
        let mut fields = Vec::new(alloc);
        let mut rest = rest;
        let mut count = 0usize;
        // Each record has a byte.
        for _ in 0..rest.len() {
            let Some(more) = self.read(alloc, rest, &mut fields)? else {
                break;
            };
            count = count.saturating_add(1);
            rest = more;
        }
        Ok(count)
    }

    /// Refuses a rest of the bytes that doesn't consist of records, or has a record whose number of
    /// fields isn't the number of columns.
    pub fn check_records(
        self,
        alloc: Global,
        rest: &'t [u8],
        columns: usize,
    ) -> Result<(), Complaint> {
        let mut fields = Vec::new(alloc);
        let mut rest = rest;
        // Each record has a byte.
        for _ in 0..rest.len() {
            let Some(more) = self.read(alloc, rest, &mut fields)? else {
                break;
            };
            if fields.len() != columns {
                let at = self.index_of(rest);
                return Err(self.length_refused(alloc, at, fields.len(), columns));
            }
            rest = more;
        }
        Ok(())
    }
}

// The table, and what is bound in each row.
#[derive(Drop)]
struct Bound<'b> {
    table: Table<'b>,
    // The names of the columns that are used, and of the values that are the same in each row.
    names: &'b [&'b [u8]],
    // The query, matched with these.
    query: MatchedQuery<'b, 'b>,
    // How a record becomes the cells of these.
    form: TableForm<'b>,
}

// What is said of the row of the record that begins at an index, and is refused for this. The first
// later record that isn't one, or has another number of fields, is told behind it.
fn row_refused(
    script: &mut TableScript<'_, '_>,
    rt: &HostRuntime,
    bound: &Bound<'_>,
    at: usize,
    failure: Failure,
) -> Result<Complaint, Complaint> {
    let table = bound.table;
    let mut fields = Vec::new(rt.alloc());
    let Some(more) = table.read(rt.alloc(), table.from_index(at), &mut fields)? else {
        return Err(Complaint::Memory);
    };
    let cells = record_cells(rt.alloc(), &bound.form, fields.as_slice())?;
    let assigned = assignments_of(rt.alloc(), bound.names, cells.as_slice())?;
    let (line, _) = table.place_of(at);
    let row = RowAt {
        assignments: assigned.as_slice(),
        line: line as u64,
    };
    let complaint = complaint_of_row(rt.alloc(), script.wanted, row, failure)?;
    if script.stream {
        script.begin(rt)?;
    }
    match table.check_records(rt.alloc(), more, bound.form.columns.len()) {
        Ok(()) => Ok(complaint),
        Err(later) => Ok(complaint.before(later)?),
    }
}

// What is said of a refusal in a rest of the table.
fn table_refused(
    script: &mut TableScript<'_, '_>,
    rt: &HostRuntime,
    bound: &Bound<'_>,
    rest: &[u8],
    refusal: TableRefusal,
) -> Result<Complaint, Complaint> {
    let table = bound.table;
    let start = table.index_of(rest);
    match refusal {
        TableRefusal::Record(fault) => Ok(table.fault_refused(rt.alloc(), start, fault)),
        TableRefusal::Length { at, fields } => {
            let at = start.saturating_add(at);
            let columns = bound.form.columns.len();
            Ok(table.length_refused(rt.alloc(), at, fields, columns))
        }
        TableRefusal::Row { at, failure } => {
            row_refused(script, rt, bound, start.saturating_add(at), failure)
        }
        // Each cell has its name.
        TableRefusal::Cells { .. } | TableRefusal::Memory(_) => Ok(Complaint::Memory),
    }
}

// Notes that the records of a rest of the table have rows, up to a later rest: as many as are added
// at once, except at the end, where they are counted.
fn note_rows(
    script: &mut TableScript<'_, '_>,
    rt: &HostRuntime,
    table: Table<'_>,
    rest: &[u8],
    later: &[u8],
) -> Result<(), Complaint> {
    if script.progress.is_told() {
        let rows = if later.is_empty() {
            table.count_records(rt.alloc(), rest)?
        } else {
            rows_at_once(script)
        };
        script.progress.add(rt, rows, table.index_of(later));
    }
    Ok(())
}

// How many rows are added at once.
fn rows_at_once(script: &TableScript<'_, '_>) -> usize {
    if script.stream {
        STREAMED_ROWS
    } else if script.progress.is_told() {
        ROWS_AT_ONCE
    } else {
        usize::MAX
    }
}

// Adds a row for each record of a rest of the table.
fn add_rows(
    script: &mut TableScript<'_, '_>,
    rt: &HostRuntime,
    bound: &Bound<'_>,
    rest: &[u8],
) -> Result<(), Complaint> {
    let most = rows_at_once(script);
    let mut rest = rest;
    // What is added at once has a byte, except at the end.
    for _ in 0..bound.table.bytes.len() {
        let text = &mut script.text;
        match append_table(rt.alloc(), &bound.query, &bound.form, rest, most, text) {
            Ok(more) => {
                note_rows(script, rt, bound.table, rest, more)?;
                rest = more;
            }
            Err(refusal) => return Err(table_refused(script, rt, bound, rest, refusal)?),
        }
        if rest.is_empty() {
            break;
        }
        if script.stream {
            script.write_streamed(rt)?;
        }
    }
    Ok(())
}

/// Adds the rows of a table to the script. Its first record names the columns.
pub fn add_records(
    script: &mut TableScript<'_, '_>,
    rt: &HostRuntime,
    format: RecordFormat,
    bytes: &[u8],
) -> Result<(), Complaint> {
    let wanted = script.wanted;
    let path = wanted.path.as_str();
    let bytes = unmarked(bytes);
    let table = Table {
        path,
        format,
        bytes,
    };
    let mut header = Vec::new(rt.alloc());
    let Some(rest) = table.read(rt.alloc(), bytes, &mut header)? else {
        return Err(bad_file(
            rt.alloc(),
            path,
            "is empty: its first line has the names of the columns",
        ));
    };
    let columns = columns_of(rt.alloc(), wanted, header.as_slice(), 1)?;
    match wanted.limits {
        Some(_) => add_groups(script, rt, table, columns.as_slice(), rest),
        None => add_table(script, rt, table, columns.as_slice(), rest),
    }
}

// Adds a row for each record of a rest of the table, which has these columns.
fn add_table(
    script: &mut TableScript<'_, '_>,
    rt: &HostRuntime,
    table: Table<'_>,
    columns: &[Column],
    rest: &[u8],
) -> Result<(), Complaint> {
    let wanted = script.wanted;
    let mut fixed = Vec::new(rt.alloc());
    add_fixed(&mut fixed, rt.alloc(), wanted)?;
    let parts = table_parts(rt.alloc(), columns, fixed.as_slice())?;
    let names = parts.names.as_slice();
    let bound = Bound {
        table,
        names,
        query: matched_query(rt.alloc(), wanted, names)?,
        form: TableForm {
            format: table.format,
            columns: parts.columns.as_slice(),
            fixed: parts.fixed.as_slice(),
        },
    };
    add_rows(script, rt, &bound, rest)
}

// The query, matched with the columns of these names.
fn matched_query<'q, 'n>(
    alloc: Global,
    wanted: &'q Wanted<'_>,
    names: &'q [&'n [u8]],
) -> Result<MatchedQuery<'q, 'n>, Complaint> {
    let query = &wanted.query;
    match MatchedQuery::with_columns(alloc, query.bytes.as_slice(), names, wanted.request) {
        Ok(matched) => Ok(matched),
        Err(failure) => {
            let values = Values::new(alloc);
            Err(complaint_of(alloc, query, &values, wanted.request, failure)?)
        }
    }
}
