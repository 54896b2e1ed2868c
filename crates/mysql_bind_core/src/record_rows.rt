//! The rows of the records at the front of a text.
ghost use Rattle.std.specs.Prelude.{◌≢◌, ◌<◌, [], IfErr, IfOk, IsFalse, IsTrue};
ghost use Rattle.mysql_records.specs.Records.{BeginsWithRecord};
ghost use Rattle.mysql_records.specs.Seen.{lent_fields_seen};
ghost use Rattle.mysql_bind_core.specs.Groups.{HasNoRow};
ghost use Rattle.mysql_bind_core.specs.GroupSearch.{AreRead, IsNextRow, IsRestOf};
ghost use Rattle.mysql_bind_core.specs.RowItems.{FollowsNone, FollowsRow};

use crate::failure::Failure;
use crate::group_form::GroupRefusal;
use crate::row_items::row_items;
use crate::table_form::TableForm;
use crate::table_text::record_cells;
use mysql_fragments::Item;
use mysql_records::{Fault, LentField, RecordError, first_record_into};
use std::alloc::{AllocError, Global};

// The rest of a text, and the whole of it.
#[derive(Clone, Copy)]
pub(crate) struct Unread<'t> {
    pub text: &'t [u8],
    pub rest: &'t [u8],
}

// The next row of a text.
#[derive(Drop)]
pub(crate) enum NextRow<'t> {
    // Nothing.
    End,
    // A record: the items of its row, and the text behind it.
    Row { items: Vec<Item>, rest: &'t [u8] },
    // No record that has a row.
    Refused(GroupRefusal),
}

// The rows of records, and the text behind them.
#[derive(Drop)]
pub(crate) struct ReadRows<'t> {
    pub rows: Vec<Vec<Item>>,
    pub rest: &'t [u8],
    // Whether no further row follows.
    pub last: bool,
}

// The rows of the records at the front of the rest of a text, at most `most`. They end before a
// record without a row. If the first record has no row, it is refused.
pub(crate) fn read_rows<'t>(
    alloc: Global,
    form: &TableForm<'_>,
    unread: Unread<'t>,
    most: usize,
) -> Result<ReadRows<'t>, GroupRefusal>
    requires rest { IsRestOf form.now unread.text.now unread.rest.now }
    requires some { unread.rest.now ≢ [] }
    requires most { 0 < most }
    ensures read { IfOk result (AreRead form.now unread.entry.rest.now most) }
    ensures refused { IfErr result
        (HasNoRow form.now unread.entry.text.now unread.entry.rest.now) }
{
    let text = unread.text;
    let mut fields = Vec::new(alloc);
    let mut rows = Vec::new(alloc);
    let mut rest = unread.rest;
    for _count in 0..most {
        match next_row(alloc, form, Unread { text, rest }, &mut fields)? {
            NextRow::Row { items, rest: more } => {
                rows.push(items)?;
                rest = more;
            }
            NextRow::End => {
                let last = true;
                return Ok(ReadRows { rows, rest, last });
            }
            NextRow::Refused(refusal) => {
                if rows.is_empty() {
                    return Err(refusal);
                }
                let last = true;
                return Ok(ReadRows { rows, rest, last });
            }
        }
    }
    let last = is_last(alloc, form, Unread { text, rest }, &mut fields)?;
    Ok(ReadRows { rows, rest, last })
}

// Whether no row follows in the rest of a text.
fn is_last<'t>(
    alloc: Global,
    form: &TableForm<'_>,
    unread: Unread<'t>,
    fields: &mut Vec<LentField<'t>>,
) -> Result<bool, AllocError>
    requires { IsRestOf form.now unread.text.now unread.rest.now }
    ensures last { IfOk result (λ last. IsTrue last → FollowsNone form.now unread.entry.rest.now) }
    ensures not_last { IfOk result (λ last.
        IsFalse last → FollowsRow form.now unread.entry.rest.now) }
{
    match next_row(alloc, form, unread, fields)? {
        NextRow::Row { .. } => Ok(false),
        NextRow::End => Ok(true),
        NextRow::Refused(_) => Ok(true),
    }
}

// The next row in the rest of a text. The fields of its record replace those of the vector.
fn next_row<'t>(
    alloc: Global,
    form: &TableForm<'_>,
    unread: Unread<'t>,
    fields: &mut Vec<LentField<'t>>,
) -> Result<NextRow<'t>, AllocError>
    requires { IsRestOf form.now unread.text.now unread.rest.now }
    ensures { IfOk result (IsNextRow form.now unread.entry.text.now unread.entry.rest.now) }
{
    match first_record_into(alloc, form.format, unread.rest, fields) {
        Ok(Some(more)) => row_of_record(alloc, form, unread, fields.as_slice(), more),
        Ok(None) => Ok(NextRow::End),
        Err(error) => match error {
            RecordError::Memory(error) => Err(error),
            RecordError::Fault(fault) => {
                let at = unread.text.len() - unread.rest.len() + fault.at;
                let kind = fault.kind;
                Ok(NextRow::Refused(GroupRefusal::Record(Fault { at, kind })))
            }
        },
    }
}

// The row of the record at the front of the rest of a text. The record has these fields, and `more`
// is the text behind it.
fn row_of_record<'t>(
    alloc: Global,
    form: &TableForm<'_>,
    unread: Unread<'t>,
    fields: &[LentField<'t>],
    more: &'t [u8],
) -> Result<NextRow<'t>, AllocError>
    requires rest { IsRestOf form.now unread.text.now unread.rest.now }
    requires record { BeginsWithRecord form.now.format unread.rest.now
        (lent_fields_seen fields.now) more.now }
    ensures { IfOk result (IsNextRow form.now unread.entry.text.now unread.entry.rest.now) }
{
    let at = unread.text.len() - unread.rest.len();
    if fields.len() != form.columns.len() {
        let fields = fields.len();
        return Ok(NextRow::Refused(GroupRefusal::Length { at, fields }));
    }
    let cells = record_cells(alloc, form, fields)?;
    match row_items(alloc, cells.as_slice())? {
        Some(items) => Ok(NextRow::Row { items, rest: more }),
        None => {
            let failure = Failure::NoValue;
            Ok(NextRow::Refused(GroupRefusal::Row { at, failure }))
        }
    }
}
