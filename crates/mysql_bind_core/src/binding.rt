//! Binding and writing in one call: the bound text of a query, or a refusal.
ghost use Rattle.std.specs.Prelude.{◌≡◌, ◌≢◌, ◌⊎◌, ℕ, List, IfOk, IfErr, OnOk, IsErrOf, alloc_error};
ghost use Rattle.std.specs.Io.KnownBytes.{Appends};
ghost use Rattle.mysql_io.specs.ReadersAndWriters.{AppendsPrefix};
ghost use Rattle.mysql_bind_core.specs.Bound.{IsTaken, IsWritten};
ghost use Rattle.mysql_bind_core.specs.Refusals.{IsCopied, IsRefusal};

use crate::assignment::Assignment;
use crate::failure::Failure;
use crate::request::Request;
use crate::taken::TakenQuery;
use std::alloc::Global;
use std::io::Write;

/// The query with the assigned values and other fragments in the places of its wide names, or the
/// refusal. The refusal is never `Write`. It is `Memory` only if the request takes the query, or,
/// if the query ends with `--`, in place of `Unportable` and `Marks`.
pub fn bound_text(
    alloc: Global,
    query: &[u8],
    assignments: &[Assignment],
    request: Request,
) -> Result<Vec<u8>, Failure>
    ensures bound { IfOk result (λ text.
        IsWritten request query.now assignments.now text.items) }
    ensures refused { IfErr result (IsRefusal request query.now assignments.now) }
    ensures only { IfErr result (λ e. e ≢ Failure.Write) }
    ensures memory { IsErrOf result (Failure.Memory alloc_error) →
        IsTaken request query.now ⊎ IsCopied request query.now }
{
    let taken = TakenQuery::new(alloc, query, request)?;
    taken.text(alloc, assignments)
}

/// Binds the assigned values to the wide names of the query, and writes the whole text, or refuses.
///
/// The text is the bound text of the whole query, with the literals that are asked for. Its values
/// are exactly those that the bytes of the assignments mean. Unless all queries are taken, it
/// writes only if every server and the clients read the query and the text alike.
///
/// Every refusal except `Write` means that nothing was written. `Memory` may come in place of any
/// other result, if the request takes the query. If the query ends with `--`, it may come in place
/// of `Unportable` and `Marks`.
pub fn write_bound<W: Write>(
    alloc: Global,
    query: &[u8],
    assignments: &[Assignment],
    request: Request,
    output: &mut W,
) -> Result<(), Failure>
    ensures written { OnOk result ((text : List ℕ)
        × IsWritten request query.now assignments.now text
        × Appends (W.contents output.old) (W.contents output.new) text) }
    ensures refused { IfErr result (λ e. e ≢ Failure.Write →
        IsRefusal request query.now assignments.now e) }

    // The refusal of a query is out of memory only if the query is copied.
    ensures memory { IsErrOf result (Failure.Memory alloc_error) →
        IsTaken request query.now ⊎ IsCopied request query.now }

    // A refusal has written nothing.
    ensures unwritten { IfErr result (λ e. e ≢ Failure.Write → output.new ≡ output.old) }

    // A failed write has written a prefix of the text.
    ensures begun { IsErrOf result Failure.Write → (text : List ℕ)
        × IsWritten request query.now assignments.now text
        × AppendsPrefix (W.contents output.old) (W.contents output.new) text }
{
    let taken = TakenQuery::new(alloc, query, request)?;
    taken.write(alloc, assignments, output)
}
