//! The statements of a table's records, from the bytes of the table.
ghost use Rattle.std.specs.Prelude.{◌≡◌, ◌≢◌, ◌∷◌, ◌++◌, ◌<◌, ◌≤◌, ◌^◌, ℕ, List, [], All, length, map, IfErr, IfNone, IfOk, IfSome, OnErr, OnOk};
ghost use Rattle.mysql_records.specs.Records.{BeginsWithRecord};
ghost use Rattle.mysql_records.specs.Seen.{lent_fields_seen, lent_seen};
ghost use Rattle.mysql_bind_core.specs.Cells.{TableQuery};
ghost use Rattle.mysql_bind_core.specs.Scripts.{statement};
ghost use Rattle.mysql_bind_core.specs.Tables.{AreAppended, AreCellsOf, BeginsWithRecords, Fields, IsRecordRefusal, IsRecordText, IsRefusedAt, IsTableMatched, IsTableRefused, cell_count, cell_said, column_said, field_said, used_count};
ghost use Rattle.mysql_bind_core.specs.declared.cell.Cell as declared;

use crate::cell::Cell;
use crate::failure::Failure;
use crate::matched::{MatchedQuery, note_length};
use crate::table::append_record;
use crate::table_form::{TableColumn, TableForm, TableRefusal};
use crate::value_type::ValueType;
use mysql_records::{Fault, LentField, RecordError, first_record_into};
use std::alloc::{AllocError, Global};

/// Appends the statements of a table's records to a script, in the order of the records and for at
/// most `most` of them. It returns the text behind these records, which is empty if all records
/// have a statement. The statement of a record is the one that [`append_record`] appends for its
/// cells.
///
/// The query has to be matched with one name for each cell of a record: the names of the columns
/// that are used, and then those of the cells that are the same in each row. The cell of each
/// number is assigned to the name of the same number.
///
/// If a record is refused, the script keeps the statements of the records before it. A refusal's
/// indices are in `text`.
pub fn append_table<'t>(
    alloc: Global,
    query: &MatchedQuery<'_, '_>,
    form: &TableForm<'_>,
    text: &'t [u8],
    most: usize,
    script: &mut Vec<u8>,
) -> Result<&'t [u8], TableRefusal>
    ensures appended { IfOk result (λ rest. (records : List Fields)
        × AreAppended query.now form.now text.now records rest.now script.old.items script.new.items
        × (length records ≤ most) × (rest.now ≢ [] → length records ≡ most)) }
    ensures refused { IfErr result (IsTableRefused query.now form.now text.now script.old.items
        script.new.items most) }
{
    check_names(query, form, text)?;
    let mut fields = Vec::new(alloc);
    let mut rest = text;
    for _count in 0..most {
        let Some(more) = read_record(alloc, form, text, rest, &mut fields)? else {
            return Ok(rest);
        };
        let at = text.len() - rest.len();
        if fields.len() != form.columns.len() {
            let fields = fields.len();
            return Err(TableRefusal::Length { at, fields });
        }
        if let Err(failure) = append_fields(alloc, query, form, fields.as_slice(), script) {
            return Err(TableRefusal::Row { at, failure });
        }
        rest = more;
    }
    Ok(rest)
}

// Refuses a query that isn't matched with one name for each cell of a record.
fn check_names(
    query: &MatchedQuery<'_, '_>,
    form: &TableForm<'_>,
    text: &[u8],
) -> Result<(), TableRefusal>
    ensures matched { OnOk result (IsTableMatched query.now form.now text.now) }
    ensures refused { IfErr result (λ e. (cells : ℕ) × (e ≡ TableRefusal.Cells cells)
        × (cells ≡ cell_count form.now) × (cells ≢ length query.now.columns)) }
{
    let _length = text.len();
    let cells = cell_count(form);
    if query.column_count() != cells {
        return Err(TableRefusal::Cells { cells });
    }
    Ok(())
}

// How many cells each record has.
fn cell_count(form: &TableForm<'_>) -> usize
    ensures count { result ≡ cell_count form.now }
    ensures fit { All (λ (cell : declared.Cell). length cell.bytes.now < 2 ^ 63)
        form.now.fixed.now }
{
    used_count(form.columns) + fixed_count(form.fixed)
}

// How many of the columns are used.
fn used_count(columns: &[TableColumn<'_>]) -> usize
    ensures count { result ≡ used_count columns.now }
    ensures most { result ≤ length columns.now }
{
    let mut count = 0usize;
    for i in 0..columns.len() {
        count += one_if_used(columns[i]);
    }
    count
}

// 1 for a column that is used, and 0 for another.
fn one_if_used(counted: TableColumn<'_>) -> usize
    ensures count { result ≡ used_count (counted.entry ∷ []) }
    ensures most { result ≤ 1 }
{
    if counted.used { 1 } else { 0 }
}

// How many cells there are. The length of each one's bytes is read: so they fit into memory.
fn fixed_count(cells: &[Cell<'_>]) -> usize
    ensures count { result ≡ length cells.now }
    ensures fit { All (λ (cell : declared.Cell). length cell.bytes.now < 2 ^ 63) cells.now }
{
    for i in 0..cells.len() {
        note_length(cells[i].bytes);
    }
    cells.len()
}

// Reads the record at the front of the rest of a text. Its fields replace those of the vector. It
// returns the text behind the record, or none if the rest is empty.
fn read_record<'t>(
    alloc: Global,
    form: &TableForm<'_>,
    text: &'t [u8],
    rest: &'t [u8],
    fields: &mut Vec<LentField<'t>>,
) -> Result<Option<&'t [u8]>, TableRefusal>
    requires { length rest.now ≤ length text.now }
    ensures none { IfOk result (λ found. IfNone found (rest.now ≡ [])) }
    ensures read { IfOk result (λ found. IfSome found (λ more. BeginsWithRecord form.now.format
        rest.now (lent_fields_seen fields.new.items) more.now)) }
    ensures refused { IfErr result (λ e. (query : TableQuery) (records : List Fields) →
        BeginsWithRecords form.now.format text.now records rest.now →
        IsRefusedAt query form.now text.now rest.now e) }
{
    match first_record_into(alloc, form.format, rest, fields) {
        Ok(found) => Ok(found),
        Err(error) => match error {
            RecordError::Memory(error) => Err(TableRefusal::Memory(error)),
            RecordError::Fault(fault) => {
                let at = text.len() - rest.len() + fault.at;
                let kind = fault.kind;
                Err(TableRefusal::Record(Fault { at, kind }))
            }
        },
    }
}

// Appends the statement of a record with these fields.
fn append_fields(
    alloc: Global,
    query: &MatchedQuery<'_, '_>,
    form: &TableForm<'_>,
    fields: &[LentField<'_>],
    script: &mut Vec<u8>,
) -> Result<(), Failure>
    ensures appended { OnOk result ((text : List ℕ)
        × IsRecordText query.now form.now (lent_fields_seen fields.now) text
        × (script.new.items ≡ script.old.items ++ statement text)) }
    ensures refused { IfErr result (IsRecordRefusal query.now form.now
        (lent_fields_seen fields.now)) }
    ensures kept { OnErr result (script.new.items ≡ script.old.items) }
{
    let cells = record_cells(alloc, form, fields)?;
    append_record(alloc, query, cells.as_slice(), script)
}

/// The cells of a record with these fields, whose bytes the cells borrow. They are one cell for
/// each column that is used, and then the cells that are the same in each row. A field without a
/// column and a column without a field are left out.
pub fn record_cells<'f>(
    alloc: Global,
    form: &TableForm<'f>,
    fields: &'f [LentField<'_>],
) -> Result<Vec<Cell<'f>>, AllocError>
    ensures { IfOk result (λ cells.
        AreCellsOf form.now (lent_fields_seen fields.now) cells.items) }
{
    let most = form.columns.len().saturating_add(form.fixed.len());
    let mut cells = Vec::with_capacity(alloc, most)?;
    for i in 0..form.columns.len().min(fields.len()) {
        push_cell(&mut cells, form.columns[i], &fields[i])?;
    }
    cells.extend_from_slice(form.fixed)?;
    Ok(cells)
}

// Adds the cell of a field to those of its record, if its column is used.
fn push_cell<'f>(
    cells: &mut Vec<Cell<'f>>,
    column: TableColumn<'_>,
    field: &'f LentField<'_>,
) -> Result<(), AllocError>
    ensures { OnOk result (map cell_said cells.new.items ≡ map cell_said cells.old.items
        ++ column_said column.entry (lent_seen field.now)) }
{
    if column.used {
        cells.push(cell_of(column, field))?;
    }
    Ok(())
}

// The cell of a field in its column.
fn cell_of<'f>(column: TableColumn<'_>, field: &'f LentField<'_>) -> Cell<'f>
    ensures { cell_said result ≡ field_said column.entry (lent_seen field.now) }
{
    let Some(bytes) = field.bytes() else {
        return Cell {
            value_type: ValueType::Null,
            bytes: b"",
        };
    };
    let value_type = match column.null_text {
        Some(text) if text == bytes => ValueType::Null,
        _ => column.value_type,
    };
    Cell { value_type, bytes }
}
