//! The statements of several rows of CSV and TSV, and of what MySQL servers and clients write.
use crate::changed_text::{changed_column, changed_text};
use crate::columns::{Wanted, add_fixed};
use crate::complaint::{Complaint, bad_row};
use crate::group_words::Limits;
use crate::matching::is_new;
use crate::query_file::complaint_of;
use crate::records::Table;
use crate::refused_row::{RowAt, complaint_of_row};
use crate::table_script::TableScript;
use crate::values::Values;
use mysql_bind_core::{
    Assignment, Column, Failure, GroupForm, GroupRefusal, ROW_NAME, TableForm, TakenQuery,
    append_groups, assignments_of, bound_text, record_cells, taken_columns,
};
use std::alloc::{AllocError, Global};
use std::collections::BTreeSet;

// So many statements are appended at once where progress is told.
const STATEMENTS_AT_ONCE: usize = 16;

// The table, and what its statements are made of.
#[derive(Drop)]
struct Grouped<'t, 'c, 'q, 'b> {
    table: Table<'t>,
    columns: &'c [Column],
    query: TakenQuery<'q>,
    // How a record becomes a row.
    form: TableForm<'b>,
    // The assignments of the other names.
    fixed: &'b [Assignment],
    limits: Limits,
}

// How many statements are appended at once.
fn statements_at_once(script: &TableScript<'_, '_>) -> usize {
    if script.stream {
        1
    } else if script.progress.is_told() {
        STATEMENTS_AT_ONCE
    } else {
        usize::MAX
    }
}

// The assignments of the other names, and that of one field's bytes to `row`.
fn with_field(
    alloc: Global,
    wanted: &Wanted<'_>,
    field: &Assignment,
) -> Result<Vec<Assignment>, AllocError> {
    let mut assigned = Vec::new(alloc);
    add_fixed(&mut assigned, alloc, wanted)?;
    let assignment = Assignment {
        name: Vec::from_slice(alloc, ROW_NAME)?,
        value_type: field.value_type,
        bytes: Vec::from_slice(alloc, field.bytes.as_slice())?,
    };
    match assigned.push(assignment) {
        Ok(()) => Ok(assigned),
        Err(_) => Err(AllocError),
    }
}

// The complaint about a row whose text a client would change. It names the first field with which a
// client would, or the values that are the same in each row.
fn changed_row(
    alloc: Global,
    wanted: &Wanted<'_>,
    row: RowAt<'_>,
) -> Result<Complaint, AllocError> {
    let query = wanted.query.bytes.as_slice();
    let path = wanted.path.as_str();
    let request = wanted.request;
    for field in row.assignments {
        let assigned = with_field(alloc, wanted, field)?;
        if let Err(Failure::UnportableText(found)) = bound_text(
            alloc,
            query,
            assigned.as_slice(),
            request,
        ) {
            let by = changed_text(alloc, query, assigned.as_slice(), request, found)?;
            let what = if by.name == ROW_NAME {
                changed_column(alloc, field.name.as_slice(), found)?
            } else {
                by.what
            };
            return Ok(bad_row(alloc, path, row.line, what.as_str()));
        }
    }
    let what = "a client would change the text of this row";
    Ok(bad_row(alloc, path, row.line, what))
}

// The complaint about the row of the record that begins at an index. The row is refused for this
// failure.
fn row_refused(
    alloc: Global,
    wanted: &Wanted<'_>,
    grouped: &Grouped<'_, '_, '_, '_>,
    at: usize,
    failure: Failure,
) -> Result<Complaint, Complaint> {
    let table = grouped.table;
    let mut fields = Vec::new(alloc);
    if table
        .read(alloc, table.from_index(at), &mut fields)?
        .is_none()
    {
        return Err(Complaint::Memory);
    }
    let cells = record_cells(alloc, &grouped.form, fields.as_slice())?;
    let shown = shown_names(alloc, wanted, grouped.columns)?;
    let names = slices(alloc, shown.as_slice())?;
    let mut assigned = assignments_of(alloc, names.as_slice(), cells.as_slice())?;
    let (line, _) = table.place_of(at);
    let line = line as u64;
    if let Failure::UnportableText(_) = failure {
        let assignments = assigned.as_slice();
        return Ok(changed_row(alloc, wanted, RowAt { assignments, line })?);
    }
    add_fixed(&mut assigned, alloc, wanted)?;
    let assignments = assigned.as_slice();
    Ok(complaint_of_row(alloc, wanted, RowAt { assignments, line }, failure)?)
}

// The complaint about a row whose statement is too long.
fn long_row(
    alloc: Global,
    wanted: &Wanted<'_>,
    grouped: &Grouped<'_, '_, '_, '_>,
    at: usize,
    bytes: usize,
) -> Result<Complaint, Complaint> {
    let (line, _) = grouped.table.place_of(at);
    let most = grouped.limits.bytes;
    let what = format!(in alloc;
        "a statement with only this row has {bytes} bytes, and --max-bytes is {most}"
    )?;
    Ok(bad_row(alloc, wanted.path.as_str(), line as u64, what.as_str()))
}

// The complaint about a row, and behind it that about the first later record that isn't one or has
// another number of fields. The row's record begins at the index. The beginning of a script is
// written also before a refused row.
fn with_later(
    script: &mut TableScript<'_, '_>,
    rt: &HostRuntime,
    grouped: &Grouped<'_, '_, '_, '_>,
    at: usize,
    complaint: Complaint,
) -> Result<Complaint, Complaint> {
    let table = grouped.table;
    let mut fields = Vec::new(rt.alloc());
    let Some(more) = table.read(rt.alloc(), table.from_index(at), &mut fields)? else {
        return Err(Complaint::Memory);
    };
    if script.stream {
        script.begin(rt)?;
    }
    match table.check_records(rt.alloc(), more, grouped.form.columns.len()) {
        Ok(()) => Ok(complaint),
        Err(later) => Ok(complaint.before(later)?),
    }
}

// The complaint about a refusal in a rest of the table.
fn group_refused(
    script: &mut TableScript<'_, '_>,
    rt: &HostRuntime,
    grouped: &Grouped<'_, '_, '_, '_>,
    rest: &[u8],
    refusal: GroupRefusal,
) -> Result<Complaint, Complaint> {
    let table = grouped.table;
    let start = table.index_of(rest);
    match refusal {
        GroupRefusal::Record(fault) => Ok(table.fault_refused(rt.alloc(), start, fault)),
        GroupRefusal::Length { at, fields } => {
            let at = start.saturating_add(at);
            let columns = grouped.form.columns.len();
            Ok(table.length_refused(rt.alloc(), at, fields, columns))
        }
        GroupRefusal::Row { at, failure } => {
            let at = start.saturating_add(at);
            let complaint = row_refused(rt.alloc(), script.wanted, grouped, at, failure)?;
            with_later(script, rt, grouped, at, complaint)
        }
        GroupRefusal::Long { at, bytes } => {
            let at = start.saturating_add(at);
            let complaint = long_row(rt.alloc(), script.wanted, grouped, at, bytes)?;
            with_later(script, rt, grouped, at, complaint)
        }
        GroupRefusal::Memory(_) => Ok(Complaint::Memory),
    }
}

// Notes that the records of a rest of the table have statements, up to a later rest.
fn note_rows(
    script: &mut TableScript<'_, '_>,
    rt: &HostRuntime,
    table: Table<'_>,
    rest: &[u8],
    later: &[u8],
) -> Result<(), Complaint> {
    if script.progress.is_told() {
        let read = rest.len().saturating_sub(later.len());
        let rows = table.count_records(rt.alloc(), &rest[..read])?;
        script.progress.add(rt, rows, table.index_of(later));
    }
    Ok(())
}

// Adds the statements of a rest of the table.
fn add_statements(
    script: &mut TableScript<'_, '_>,
    rt: &HostRuntime,
    grouped: &Grouped<'_, '_, '_, '_>,
    rest: &[u8],
) -> Result<(), Complaint> {
    let rows = grouped.limits.rows.max(1);
    let statements = statements_at_once(script);
    // Without a limit of bytes the first try is the last one.
    let mut next = if grouped.limits.bytes == usize::MAX {
        rows
    } else {
        1
    };
    let mut rest = rest;
    // The records of each turn have a byte, except at the end.
    for _ in 0..grouped.table.bytes.len() {
        let form = GroupForm {
            table: grouped.form,
            fixed: grouped.fixed,
            rows,
            bytes: grouped.limits.bytes,
            start: next.max(1).min(rows),
            statements,
        };
        let text = &mut script.text;
        match append_groups(rt.alloc(), &grouped.query, &form, rest, text) {
            Ok(end) => {
                note_rows(script, rt, grouped.table, rest, end.rest)?;
                rest = end.rest;
                next = end.rows;
            }
            Err(refusal) => return Err(group_refused(script, rt, grouped, rest, refusal)?),
        }
        if rest.is_empty() {
            break;
        }
        if script.stream {
            script.write_streamed(rt)?;
        }
    }
    Ok(())
}

// The names that messages have for the columns that are used: those that options give, and numbers
// for all others. The first line of a table without names is a row of values, which no message
// has.
fn shown_names(
    alloc: Global,
    wanted: &Wanted<'_>,
    columns: &[Column],
) -> Result<Vec<Vec<u8>>, AllocError> {
    let mut given = BTreeSet::new(alloc);
    for column in wanted.words.named.as_slice() {
        is_new(&mut given, column.name.as_slice())?;
    }
    for null in wanted.words.nulls.as_slice() {
        is_new(&mut given, null.name.as_slice())?;
    }
    let mut names = Vec::new(alloc);
    for i in 0..columns.len() {
        if !columns[i].used {
            continue;
        }
        let name = columns[i].name.as_deref().unwrap_or(b"");
        let shown = if given.contains(name) {
            Vec::from_slice(alloc, name)?
        } else {
            let number = i.saturating_add(1);
            let shown = format!(in alloc; "column {number}")?;
            Vec::from_slice(alloc, shown.as_bytes())?
        };
        if names.push(shown).is_err() {
            return Err(AllocError);
        }
    }
    Ok(names)
}

// The names as slices.
fn slices<'n>(alloc: Global, names: &'n [Vec<u8>]) -> Result<Vec<&'n [u8]>, AllocError> {
    let mut slices = Vec::new(alloc);
    for name in names {
        slices.push(name.as_slice())?;
    }
    Ok(slices)
}

/// Adds the statements of a rest of a table, which has these columns, several rows in each.
pub fn add_groups(
    script: &mut TableScript<'_, '_>,
    rt: &HostRuntime,
    table: Table<'_>,
    columns: &[Column],
    rest: &[u8],
) -> Result<(), Complaint> {
    let wanted = script.wanted;
    let Some(limits) = wanted.limits else {
        return Ok(());
    };
    let taken = taken_columns(rt.alloc(), columns)?;
    let mut fixed = Vec::new(rt.alloc());
    add_fixed(&mut fixed, rt.alloc(), wanted)?;
    let grouped = Grouped {
        table,
        columns,
        query: taken_query(rt.alloc(), wanted)?,
        form: TableForm {
            format: table.format,
            columns: taken.as_slice(),
            fixed: &[],
        },
        fixed: fixed.as_slice(),
        limits,
    };
    add_statements(script, rt, &grouped, rest)
}

// The query, if it is taken.
fn taken_query<'q>(alloc: Global, wanted: &'q Wanted<'_>) -> Result<TakenQuery<'q>, Complaint> {
    let query = &wanted.query;
    match TakenQuery::new(alloc, query.bytes.as_slice(), wanted.request) {
        Ok(taken) => Ok(taken),
        Err(failure) => {
            let values = Values::new(alloc);
            Err(complaint_of(alloc, query, &values, wanted.request, failure)?)
        }
    }
}
