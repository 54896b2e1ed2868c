//! All records of a text.
ghost use Rattle.std.specs.Prelude.{◌≢◌, IfErr, IfOk, []};
ghost use Rattle.mysql_records.specs.Faults.{IsTableRefusal};
ghost use Rattle.mysql_records.specs.LentFields.{HasMemoryCause};
ghost use Rattle.mysql_records.specs.Records.{IsTable};
ghost use Rattle.mysql_records.specs.Seen.{rows_seen};

use crate::fault::{Fault, RecordError};
use crate::format::RecordFormat;
use crate::record::{Field, Record, first_record};
use std::alloc::{AllocError, Global};

/// The fields of one record.
#[derive(Debug, PartialEq, Drop)]
pub struct Row {
    /// The fields, at least one.
    pub fields: Vec<Field>,
}

/// Returns all records of a text, in order: those of [`first_record`](crate::first_record) for the
/// text, for its rest, and so on to the end. The error is the fault of the first record that has
/// one, at its index in the text.
pub fn all_rows(alloc: Global, format: RecordFormat, text: &[u8]) -> Result<Vec<Row>, RecordError>
    ensures table { IfOk result (λ rows. IsTable format (rows_seen rows.items) text.now) }
    ensures refused { IfErr result (IsTableRefusal format text.now) }
    ensures some { IfErr result (λ error. text.now ≢ []) }
    ensures memory { IfErr result (HasMemoryCause format text.now) }
{
    let mut rows = Vec::new(alloc);
    let mut rest = text;
    'records: loop {
        let found = match first_record(alloc, format, rest) {
            Ok(found) => found,
            Err(error) => match error {
                RecordError::Memory(error) => return Err(RecordError::Memory(error)),
                RecordError::Fault(fault) => {
                    let at = text.len() - rest.len() + fault.at;
                    let kind = fault.kind;
                    return Err(RecordError::Fault(Fault { at, kind }));
                }
            },
        };
        let Some(record) = found else {
            return Ok(rows);
        };
        let Record { fields, rest: more } = record;
        if rows.push(Row { fields }).is_err() {
            return Err(RecordError::Memory(AllocError));
        }
        rest = more;
    }
}
