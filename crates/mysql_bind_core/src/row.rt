//! Rows, and why one or all of them are refused.
use crate::assignment::Assignment;
use crate::failure::Failure;
use mysql_io::readers_and_writers::WriteError;
use std::alloc::AllocError;

/// The assignments to the names of a query for one statement.
#[derive(Debug, Drop)]
pub struct Row {
    /// The assignments, in the form that [`bound_text`](crate::bound_text) takes.
    pub assignments: Vec<Assignment>,
}

/// A row without a statement. The rows before it have one.
#[derive(Debug, PartialEq, Drop)]
pub struct RefusedRow {
    /// The index of the row.
    pub number: usize,
    /// Why the row has no statement. It is never `Write`.
    pub failure: Failure,
}

/// Why not all rows are written.
#[derive(Debug, PartialEq, Drop)]
pub enum RowsFailure {
    /// The request doesn't take the query.
    Query(Failure),
    /// The first row that is refused.
    Row(RefusedRow),
    /// A write failed, or took no byte. A prefix was written.
    Write,
    /// Out of memory. It may come in place of any other.
    Memory(AllocError),
}

impl From<AllocError> for RowsFailure {
    ghost use Rattle.std.specs.Prelude.{◌≡◌, alloc_error};
    ghost use Rattle.mysql_bind_core.specs.declared.row.RowsFailure.TheVariants.{Memory};

    ghost from_gives = { λ _ failure. failure ≡ Memory alloc_error };

    fn from(error: AllocError) -> RowsFailure {
        RowsFailure::Memory(error)
    }
}

impl From<Failure> for RowsFailure {
    ghost use Rattle.std.specs.Prelude.{◌≡◌};
    ghost use Rattle.mysql_bind_core.specs.declared.row.RowsFailure.TheVariants.{Query};

    ghost from_gives = { λ refused failure. failure ≡ Query refused };

    fn from(refused: Failure) -> RowsFailure {
        RowsFailure::Query(refused)
    }
}

impl From<RefusedRow> for RowsFailure {
    ghost use Rattle.std.specs.Prelude.{◌≡◌};
    ghost use Rattle.mysql_bind_core.specs.declared.row.RowsFailure.TheVariants.{Row};

    ghost from_gives = { λ refused failure. failure ≡ Row refused };

    fn from(refused: RefusedRow) -> RowsFailure {
        RowsFailure::Row(refused)
    }
}

impl From<WriteError> for RowsFailure {
    ghost use Rattle.std.specs.Prelude.{◌≡◌};
    ghost use Rattle.mysql_bind_core.specs.declared.row.RowsFailure.TheVariants.{Write};

    ghost from_gives = { λ _ failure. failure ≡ Write };

    fn from(_error: WriteError) -> RowsFailure {
        RowsFailure::Write
    }
}
