//! The form of statements that the records of a table share, and the refusals of a record.
use crate::assignment::Assignment;
use crate::failure::Failure;
use crate::table_form::TableForm;
use mysql_records::Fault;
use std::alloc::{AllocError, AllocFailed};

/// The name that stands for the rows of a statement, as in `VALUES :row`.
pub const ROW_NAME: &[u8] = b"row";

/// How the records of a table become statements of several rows.
#[derive(Debug, Clone, Copy)]
pub struct GroupForm<'a> {
    /// How a record becomes a row. The row has an item for each cell of the record.
    pub table: TableForm<'a>,
    /// The assignments of the query's other names. They are the same in each statement.
    pub fixed: &'a [Assignment],
    /// The largest number of rows of a statement.
    pub rows: usize,
    /// The largest number of bytes of a statement, with the line of its `;`.
    pub bytes: usize,
    /// The number of rows of the first try for the first statement, from 1 to `rows`. It changes no
    /// statement, but a good guess saves tries. Each further statement begins with the number of
    /// rows of the one before.
    pub start: usize,
    /// The largest number of statements that are appended.
    pub statements: usize,
}

/// Where the appended statements end.
#[derive(Debug, Clone, Copy)]
pub struct AppendedGroups<'t> {
    /// The text behind the records that have statements. It is empty if all records have one.
    pub rest: &'t [u8],
    /// The number of rows of the last statement: a good `start` for the next call. If no statement
    /// was appended, it is `start`.
    pub rows: usize,
}

/// Why the first record without a statement has none. The records before it have one.
#[derive(Debug, PartialEq, Drop)]
pub enum GroupRefusal {
    /// The text isn't a table. The field is its first fault.
    Record(Fault),
    /// The record has another number of fields than there are columns.
    Length {
        /// The index at which the record begins.
        at: usize,
        /// How many fields it has.
        fields: usize,
    },
    /// A field says no item, or a statement with only the record's row is refused.
    Row {
        /// The index at which the record begins.
        at: usize,
        /// The cause. It is never `Write` or out of memory.
        failure: Failure,
    },
    /// A statement with only the record's row is longer than statements may be.
    Long {
        /// The index at which the record begins.
        at: usize,
        /// The number of bytes of the statement, with the line of its `;`.
        bytes: usize,
    },
    /// Out of memory. It can come in place of any other refusal.
    Memory(AllocError),
}

impl From<AllocError> for GroupRefusal {
    ghost use Rattle.std.specs.Prelude.{◌≡◌, alloc_error};
    ghost use Rattle.mysql_bind_core.specs.declared.group_form.GroupRefusal.TheVariants.{Memory};

    ghost from_gives = { λ _ refusal. refusal ≡ Memory alloc_error };

    fn from(error: AllocError) -> GroupRefusal {
        GroupRefusal::Memory(error)
    }
}

impl<T: Drop> From<AllocFailed<T>> for GroupRefusal {
    ghost use Rattle.std.specs.Prelude.{◌≡◌, alloc_error};
    ghost use Rattle.mysql_bind_core.specs.declared.group_form.GroupRefusal.TheVariants.{Memory};

    ghost from_gives = { λ _ refusal. refusal ≡ Memory alloc_error };

    fn from(_error: AllocFailed<T>) -> GroupRefusal {
        GroupRefusal::Memory(AllocError)
    }
}
