//! The statement of rows that stand in one place of a query.
ghost use Rattle.std.specs.Prelude.{◌≡◌, ℕ, List, IfErr, IfOk};
ghost use Rattle.mysql_bind_core.specs.RowItems.{rows_said};
ghost use Rattle.mysql_bind_core.specs.RowsBound.{IsRowsBoundRefusal, IsRowsText, IsRowsWritten, is_of_memory};
ghost use Rattle.mysql_bind_core.specs.Scripts.{statement};

use crate::assignment::{Assignment, assigned_fragments, insert_fragment};
use crate::failure::Failure;
use crate::fragments_text::named_text;
use crate::group_form::ROW_NAME;
use crate::taken::{TakenQuery, found_in_text};
use mysql_fragments::{Fragment, Fragments, FragmentsError, Item, SteadyFragmentsError};
use std::alloc::Global;

// The statement of a query: its text, and the line that ends it. The name `row` stands for rows,
// and the other names have their assigned values.
pub(crate) fn rows_statement(
    alloc: Global,
    query: &TakenQuery<'_>,
    fixed: &[Assignment],
    rows: Vec<Vec<Item>>,
) -> Result<Vec<u8>, Failure>
    ensures written { IfOk result (λ bytes. (text : List ℕ)
        × IsRowsWritten query.now fixed.now (rows_said rows.items) text
        × (bytes.items ≡ statement text)) }
    ensures refused { IfErr result
        (IsRowsBoundRefusal query.now fixed.now (rows_said rows.items)) }
{
    let mut text = rows_text(alloc, query, fixed, rows)?;
    if let Some(found) = found_in_text(text.as_slice(), query.request()) {
        return Err(Failure::UnportableText(found));
    }
    text.extend_from_slice(b"\n;\n")?;
    Ok(text)
}

// The text, whether or not it is portable.
fn rows_text(
    alloc: Global,
    query: &TakenQuery<'_>,
    fixed: &[Assignment],
    rows: Vec<Vec<Item>>,
) -> Result<Vec<u8>, Failure>
    ensures bound { IfOk result (λ text.
        IsRowsText query.now fixed.now (rows_said rows.items) text.items) }
    ensures refused { IfErr result
        (IsRowsBoundRefusal query.now fixed.now (rows_said rows.items)) }
{
    let mut entries = assigned_fragments(alloc, fixed)?;
    insert_fragment(alloc, &mut entries, ROW_NAME, Fragment::Rows(rows))?;
    let fragments = Fragments::Named(entries);
    named_text(alloc, query.parsed().query(), &fragments, query.request())
}

// Whether the refusal is out of memory.
pub(crate) fn is_of_memory(failure: &Failure) -> bool
    ensures { result ≡ is_of_memory failure.now }
{
    match failure {
        Failure::Memory(_) => true,
        Failure::Fragments(FragmentsError::Memory(_)) => true,
        Failure::SteadyFragments(SteadyFragmentsError::Fragments(FragmentsError::Memory(_))) =>
            true,
        _ => false,
    }
}
