//! The statement of one row of a table, from its cells, which borrow their bytes.
ghost use Rattle.std.specs.Prelude.{◌≡◌, ◌++◌, ℕ, List, IfErr, OnErr, OnOk};
ghost use Rattle.mysql_bind_core.specs.RowTexts.{IsRowRefusal, IsRowText};
ghost use Rattle.mysql_bind_core.specs.Scripts.{statement};

use crate::cell::Cell;
use crate::failure::Failure;
use crate::matched::MatchedQuery;
use std::alloc::Global;

/// Appends the statement of a row of a table to a script: the bound text, and a line with `;`.
/// [`append_rows`](crate::append_rows) appends the same if the cells are assigned to the names of
/// their columns. If it refuses, the script stays as it is.
pub fn append_record(
    alloc: Global,
    query: &MatchedQuery<'_, '_>,
    cells: &[Cell<'_>],
    script: &mut Vec<u8>,
) -> Result<(), Failure>
    ensures appended { OnOk result ((text : List ℕ) × IsRowText query.now cells.now text
        × (script.new.items ≡ script.old.items ++ statement text)) }
    ensures refused { IfErr result (IsRowRefusal query.now cells.now) }
    ensures kept { OnErr result (script.new.items ≡ script.old.items) }
{
    let before = script.len();
    query.append_row(alloc, cells, script)?;
    match script.extend_from_slice(b"\n;\n") {
        Ok(()) => Ok(()),
        Err(error) => {
            script.truncate(before);
            Err(Failure::Memory(error))
        }
    }
}
