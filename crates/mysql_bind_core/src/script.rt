//! The whole script, in a transaction if one is asked for.
ghost use Rattle.std.specs.Prelude.{◌≡◌, ◌≢◌, ◌++◌, ℕ, List, [], take, if◌then◌else◌, IfOk, IfErr, OnOk, IsErrOf};
ghost use Rattle.std.specs.Io.KnownBytes.{Appends};
ghost use Rattle.mysql_io.specs.ReadersAndWriters.{AppendsPrefix};
ghost use Rattle.mysql_bind_core.specs.Bound.{IsTaken};
ghost use Rattle.mysql_bind_core.specs.Scripts.{AreStatements, IfMemory, IfQuery, IfRow, IsRowsRefusal, IsScript};

use crate::request::Request;
use crate::row::{Row, RowsFailure};
use crate::rows::append_rows;
use crate::taken::{TakenQuery, check_query};
use mysql_io::readers_and_writers::write_whole;
use std::alloc::{AllocError, Global};
use std::io::Write;

/// The statement that begins a transaction.
pub const START: &[u8] = b"START TRANSACTION\n;\n";

/// The statement that ends a transaction.
pub const COMMIT: &[u8] = b"COMMIT\n;\n";

// Appends the bytes, if they are wanted.
fn append_if(script: &mut Vec<u8>, wanted: bool, bytes: &[u8]) -> Result<(), AllocError>
    ensures { OnOk result (
        script.new.items ≡ script.old.items ++ (if wanted then bytes.now else [])) }
{
    if wanted {
        script.extend_from_slice(bytes)
    } else {
        Ok(())
    }
}

/// The script of the rows, or the refusal, which is never `Write`. The script has, for each row in
/// order, its bound text and a line with `;`. If a transaction is asked for, `START TRANSACTION`
/// and `COMMIT` are around them.
pub fn script_of(
    alloc: Global,
    query: &[u8],
    rows: &[Row],
    request: Request,
    transaction: bool,
) -> Result<Vec<u8>, RowsFailure>
    ensures written { IfOk result (λ script.
        IsScript request query.now rows.now transaction script.items) }
    ensures refused { IfErr result (IsRowsRefusal request query.now rows.now) }
{
    let taken = TakenQuery::new(alloc, query, request)?;
    taken_script(alloc, &taken, rows, transaction)
}

// The script of rows and a query that is taken.
fn taken_script(
    alloc: Global,
    query: &TakenQuery<'_>,
    rows: &[Row],
    transaction: bool,
) -> Result<Vec<u8>, RowsFailure>
    requires { IsTaken query.now.request query.now.query }
    ensures written { IfOk result (λ script.
        IsScript query.now.request query.now.query rows.now transaction script.items) }
    ensures refused { IfErr result (IsRowsRefusal query.now.request query.now.query rows.now) }
{
    let mut script = Vec::new(alloc);
    append_if(&mut script, transaction, START)?;
    append_rows(alloc, query, rows, &mut script)?;
    append_if(&mut script, transaction, COMMIT)?;
    Ok(script)
}

/// Writes the script of the rows, as [`script_of`] gives it, or refuses.
///
/// All rows are bound before the first byte is written. Every refusal except `Write` means that
/// nothing was written.
pub fn write_rows<W: Write>(
    alloc: Global,
    query: &[u8],
    rows: &[Row],
    request: Request,
    transaction: bool,
    output: &mut W,
) -> Result<(), RowsFailure>
    ensures written { OnOk result ((script : List ℕ)
        × IsScript request query.now rows.now transaction script
        × Appends (W.contents output.old) (W.contents output.new) script) }
    ensures refused { IfErr result (λ e. e ≢ RowsFailure.Write →
        IsRowsRefusal request query.now rows.now e) }

    // A refusal has written nothing.
    ensures unwritten { IfErr result (λ e. e ≢ RowsFailure.Write → output.new ≡ output.old) }

    // A failed write has written a prefix of the script.
    ensures begun { IsErrOf result RowsFailure.Write → (script : List ℕ)
        × IsScript request query.now rows.now transaction script
        × AppendsPrefix (W.contents output.old) (W.contents output.new) script }
{
    let script = script_of(alloc, query, rows, request, transaction)?;
    written(output, &script)
}

// Writes the whole script.
fn written<W: Write>(output: &mut W, script: &[u8]) -> Result<(), RowsFailure>
    ensures ok { OnOk result (Appends (W.contents output.old) (W.contents output.new) script.now) }
    ensures refused { IfErr result (λ e. e ≡ RowsFailure.Write) }
    ensures begun { IsErrOf result RowsFailure.Write →
        AppendsPrefix (W.contents output.old) (W.contents output.new) script.now }
{
    Ok(write_whole(output, script)?)
}

/// Writes the statement of each row, without a transaction. If a row is refused, exactly the
/// statements of the rows before it were written. So if rows are read piece by piece, each piece
/// can be written before the next one is read. Out of memory is reported as the refusal of the
/// query or of a row.
pub fn stream_rows<W: Write>(
    alloc: Global,
    query: &[u8],
    rows: &[Row],
    request: Request,
    output: &mut W,
) -> Result<(), RowsFailure>
    ensures written { OnOk result ((statements : List ℕ)
        × AreStatements request query.now rows.now [] statements
        × Appends (W.contents output.old) (W.contents output.new) statements) }
    ensures refused { IfErr result (λ e. e ≢ RowsFailure.Write →
        IsRowsRefusal request query.now rows.now e) }

    // If the query is refused, nothing was written. If a row is, the statements before it were.
    ensures unwritten { IfErr result (λ e. IfQuery e (output.new ≡ output.old)) }
    ensures before { IfErr result (λ e. IfRow e (λ number. (statements : List ℕ)
        × AreStatements request query.now (take number rows.now) [] statements
        × Appends (W.contents output.old) (W.contents output.new) statements)) }

    // Out of memory is reported for the query or a row, so the clauses above cover it.
    ensures memory { IfErr result (λ e. IfMemory e ⊥) }

    // A failed write has written a prefix of the statements of all rows, or of those before one.
    ensures begun { IsErrOf result RowsFailure.Write → (number : ℕ) × (statements : List ℕ)
        × AreStatements request query.now (take number rows.now) [] statements
        × AppendsPrefix (W.contents output.old) (W.contents output.new) statements }
{
    if rows.is_empty() {
        // Nothing is bound then, so no memory is asked for.
        check_query(alloc, query, request)?;
        return written(output, &[]);
    }
    let taken = TakenQuery::new(alloc, query, request)?;
    stream_taken(alloc, &taken, rows, output)
}

// Writes the statement of each row of a query that is taken.
fn stream_taken<W: Write>(
    alloc: Global,
    query: &TakenQuery<'_>,
    rows: &[Row],
    output: &mut W,
) -> Result<(), RowsFailure>
    requires { IsTaken query.now.request query.now.query }
    ensures written { OnOk result ((statements : List ℕ)
        × AreStatements query.now.request query.now.query rows.now [] statements
        × Appends (W.contents output.old) (W.contents output.new) statements) }
    ensures refused { IfErr result (λ e. e ≢ RowsFailure.Write →
        IsRowsRefusal query.now.request query.now.query rows.now e) }
    ensures only { IfErr result (λ e. IfQuery e ⊥) }
    ensures memory { IfErr result (λ e. IfMemory e ⊥) }
    ensures before { IfErr result (λ e. IfRow e (λ number. (statements : List ℕ)
        × AreStatements query.now.request query.now.query (take number rows.now) []
        statements
        × Appends (W.contents output.old) (W.contents output.new) statements)) }
    ensures begun { IsErrOf result RowsFailure.Write → (number : ℕ) × (statements : List ℕ)
        × AreStatements query.now.request query.now.query (take number rows.now) []
        statements
        × AppendsPrefix (W.contents output.old) (W.contents output.new) statements }
{
    let mut statements = Vec::new(alloc);
    let appended = append_rows(alloc, query, rows, &mut statements);
    // The statements before a refused row are written too.
    written(output, &statements)?;
    Ok(appended?)
}
