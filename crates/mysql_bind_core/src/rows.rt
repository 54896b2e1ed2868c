//! The statements of rows, one after another.
ghost use Rattle.std.specs.Prelude.{◌≡◌, ◌++◌, ℕ, List, take, IfErr, OnOk, OnErr};
ghost use Rattle.mysql_named_params.specs.Reading.{OnWideTokens};
ghost use Rattle.mysql_named_params.specs.Places.{names};
ghost use Rattle.mysql_params_core.specs.Referents.{referents};
ghost use Rattle.mysql_bind_core.specs.Bound.{IsWritten};
ghost use Rattle.mysql_bind_core.specs.Refusals.{IsRefusal};
ghost use Rattle.mysql_bind_core.specs.Requests.{mode_of};
ghost use Rattle.mysql_bind_core.specs.Scripts.{AreStatements, IsRefusedRow, statement};

use crate::assignment::Assignment;
use crate::failure::Failure;
use crate::row::{RefusedRow, Row};
use crate::taken::TakenQuery;
use std::alloc::{AllocError, Global};

/// Appends the statement of each row to a script: the bound text, and a line with `;`. If a row is
/// refused, the script keeps the statements of the rows before it. The names of the query are
/// listed once for all rows.
pub fn append_rows(
    alloc: Global,
    query: &TakenQuery<'_>,
    rows: &[Row],
    script: &mut Vec<u8>,
) -> Result<(), RefusedRow>
    ensures appended { OnOk result (AreStatements query.now.request query.now.query rows.now
        script.old.items script.new.items) }
    ensures refused { IfErr result (λ e.
        IsRefusedRow query.now.request query.now.query rows.now e.number e.failure) }
    ensures before { IfErr result (λ e. AreStatements query.now.request query.now.query
        (take e.number rows.now) script.old.items script.new.items) }
{
    if rows.is_empty() {
        return Ok(());
    }
    let Ok(names) = query.parsed().names(alloc) else {
        return Err(RefusedRow {
            number: 0,
            failure: Failure::Memory(AllocError),
        });
    };
    for number in 0..rows.len() {
        let assignments = rows[number].assignments.as_slice();
        let appended = append_statement(alloc, query, names.as_slice(), assignments, script);
        if let Err(failure) = appended {
            return Err(RefusedRow { number, failure });
        }
    }
    Ok(())
}

// Appends the text of a row, and the line that ends it.
fn append_statement(
    alloc: Global,
    query: &TakenQuery<'_>,
    query_names: &[&[u8]],
    assignments: &[Assignment],
    script: &mut Vec<u8>,
) -> Result<(), Failure>
    requires { OnWideTokens (mode_of query.now.request.literals) query.now.query (λ ts.
        referents query_names.now ≡ names ts) }
    ensures bound { OnOk result ((text : List ℕ)
        × IsWritten query.now.request query.now.query assignments.now text
        × (script.new.items ≡ script.old.items ++ statement text)) }
    ensures refused { IfErr result
        (IsRefusal query.now.request query.now.query assignments.now) }
    ensures kept { OnErr result (script.new.items ≡ script.old.items) }
{
    let before = script.len();
    query.append(alloc, query_names, assignments, script)?;
    match script.extend_from_slice(b"\n;\n") {
        Ok(()) => Ok(()),
        Err(error) => {
            script.truncate(before);
            Err(Failure::Memory(error))
        }
    }
}
