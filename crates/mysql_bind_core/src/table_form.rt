//! How the records of a table become rows, and why one doesn't.
use crate::cell::Cell;
use crate::failure::Failure;
use crate::value_type::ValueType;
use mysql_records::{Fault, RecordFormat};
use std::alloc::AllocError;

/// A column of a table.
#[derive(Debug, Clone, Copy)]
pub struct TableColumn<'a> {
    /// How the bytes of its fields are interpreted.
    pub value_type: ValueType,
    /// The bytes of a field that mean NULL, if any do.
    pub null_text: Option<&'a [u8]>,
    /// Whether its fields become cells.
    pub used: bool,
}

/// How the records of a table become rows.
#[derive(Debug, Clone, Copy)]
pub struct TableForm<'a> {
    /// The format of the records.
    pub format: RecordFormat,
    /// The columns. A record has one field for each.
    pub columns: &'a [TableColumn<'a>],
    /// The cells that are the same in each row. They follow the cells of its record.
    pub fixed: &'a [Cell<'a>],
}

/// Why the first record without a statement has none. The records before it have one.
#[derive(Debug, PartialEq, Drop)]
pub enum TableRefusal {
    /// The query isn't matched with one name for each cell of a record. Nothing is appended, also
    /// if there are no records.
    Cells {
        /// How many cells each record has: one for each column that is used, and those that are the
        /// same in each row.
        cells: usize,
    },
    /// The text doesn't consist of records. Its first fault is reported.
    Record(Fault),
    /// The number of the record's fields isn't the number of columns.
    Length {
        /// The index at which the record begins.
        at: usize,
        /// How many fields it has.
        fields: usize,
    },
    /// The row of the record is refused.
    Row {
        /// The index at which the record begins.
        at: usize,
        /// Why it has no statement. It is never `Write`.
        failure: Failure,
    },
    /// Out of memory while a record was read. It may come in place of any other refusal. If memory
    /// is refused while a row is bound, that is reported as `Row`.
    Memory(AllocError),
}
