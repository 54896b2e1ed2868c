//! The largest group of records that share a statement.
ghost use Rattle.std.specs.Prelude.{◌≡◌, ◌≢◌, ◌<◌, ◌≤◌, [], IfErr, IfOk};
ghost use Rattle.mysql_bind_core.specs.Groups.{IsFull, IsGroupRefused};
ghost use Rattle.mysql_bind_core.specs.GroupSearch.{IsFit, IsMost, IsRestOf, IsTried};

use crate::group_form::{GroupForm, GroupRefusal};
use crate::record_rows::{ReadRows, Unread, read_rows};
use crate::rows_text::{is_of_memory, rows_statement};
use crate::taken::TakenQuery;
use std::alloc::{AllocError, Global};

// Records at the front of a text, and their statement.
#[derive(Drop)]
pub(crate) struct Group<'t> {
    pub statement: Vec<u8>,
    // How many there are.
    pub rows: usize,
    // The text behind them.
    pub rest: &'t [u8],
    // Whether no further row follows.
    pub last: bool,
}

// The result of a try with a number of records.
#[derive(Drop)]
pub(crate) enum Tried<'t> {
    // They have a statement.
    Fits(Group<'t>),
    // This many records have no statement, or one that is too long.
    Unfit(usize),
}

// The group at the front of the rest of a text, which takes no further record. The first try has
// `start` records. After a try that fits, the next one adds more records: 1, 2, 4 and so on. After
// a try that doesn't fit, the next one adds half as many.
pub(crate) fn full_group<'t>(
    alloc: Global,
    query: &TakenQuery<'_>,
    form: &GroupForm<'_>,
    unread: Unread<'t>,
    start: usize,
) -> Result<Group<'t>, GroupRefusal>
    requires rest { IsRestOf form.now.table unread.text.now unread.rest.now }
    requires some { unread.rest.now ≢ [] }
    requires start { 0 < start }
    requires within { start ≤ form.now.rows }
    ensures fits { IfOk result (IsFit query.now form.now unread.entry.rest.now) }
    ensures most { IfOk result (λ group. group.rows ≤ form.now.rows) }
    ensures full { IfOk result (λ group.
        IsFull query.now form.now unread.entry.rest.now group.rows group.rest.now) }
    ensures refused { IfErr result
        (IsGroupRefused query.now form.now unread.entry.text.now unread.entry.rest.now) }
{
    let (first, first_most) = first_fit(alloc, query, form, unread, start)?;
    let mut group = first;
    let mut most = first_most;
    let mut step = 1usize;
    'more: while !group.last {
        if group.rows >= most {
            return Ok(group);
        }
        let tried = group.rows + step.min(most - group.rows);
        match try_rows(alloc, query, form, unread, tried)? {
            Tried::Fits(larger) => {
                group = larger;
                step = step.saturating_mul(2);
            }
            Tried::Unfit(count) => {
                most = count - 1;
                step = (step / 2).max(1);
            }
        }
    }
    Ok(group)
}

// A group that has a statement, and the largest number of records that a group may have. The first
// try has `start` records, and each further try half as many, until one fits.
fn first_fit<'t>(
    alloc: Global,
    query: &TakenQuery<'_>,
    form: &GroupForm<'_>,
    unread: Unread<'t>,
    start: usize,
) -> Result<(Group<'t>, usize), GroupRefusal>
    requires rest { IsRestOf form.now.table unread.text.now unread.rest.now }
    requires some { unread.rest.now ≢ [] }
    requires start { 0 < start }
    requires within { start ≤ form.now.rows }
    ensures fits { IfOk result (λ found. IsFit query.now form.now unread.entry.rest.now found.0) }
    ensures within { IfOk result (λ found. found.0.rows ≤ found.1) }
    ensures rows { IfOk result (λ found. found.1 ≤ form.now.rows) }
    ensures most { IfOk result (λ found.
        IsMost query.now form.now unread.entry.rest.now found.1) }
    ensures refused { IfErr result
        (IsGroupRefused query.now form.now unread.entry.text.now unread.entry.rest.now) }
{
    let mut tried = start;
    let mut most = form.rows;
    'fewer: loop {
        match try_rows(alloc, query, form, unread, tried)? {
            Tried::Fits(group) => return Ok((group, most)),
            Tried::Unfit(count) => {
                most = count - 1;
                tried = count / 2;
            }
        }
    }
}

// Tries the records at the front of the rest of a text, at most `most`. A single record that is
// unfit is refused.
fn try_rows<'t>(
    alloc: Global,
    query: &TakenQuery<'_>,
    form: &GroupForm<'_>,
    unread: Unread<'t>,
    most: usize,
) -> Result<Tried<'t>, GroupRefusal>
    requires rest { IsRestOf form.now.table unread.text.now unread.rest.now }
    requires some { unread.rest.now ≢ [] }
    requires most { 0 < most }
    ensures tried { IfOk result (IsTried query.now form.now unread.entry.rest.now most) }
    ensures refused { IfErr result
        (IsGroupRefused query.now form.now unread.entry.text.now unread.entry.rest.now) }
{
    let ReadRows { rows, rest, last } = read_rows(alloc, &form.table, unread, most)?;
    let count = rows.len();
    match rows_statement(alloc, query, form.fixed, rows) {
        Ok(statement) => {
            let bytes = statement.len();
            if bytes <= form.bytes {
                let rows = count;
                return Ok(Tried::Fits(Group {
                    statement,
                    rows,
                    rest,
                    last,
                }));
            }
            if count > 1 {
                return Ok(Tried::Unfit(count));
            }
            let at = unread.text.len() - unread.rest.len();
            Err(GroupRefusal::Long { at, bytes })
        }
        Err(failure) => {
            if is_of_memory(&failure) {
                return Err(GroupRefusal::Memory(AllocError));
            }
            if count > 1 {
                return Ok(Tried::Unfit(count));
            }
            let at = unread.text.len() - unread.rest.len();
            Err(GroupRefusal::Row { at, failure })
        }
    }
}
