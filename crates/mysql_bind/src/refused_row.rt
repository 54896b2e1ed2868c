//! Messages about a row without a statement.
use crate::changed_text::changed_text;
use crate::columns::Wanted;
use crate::complaint::{Complaint, Fault, Place, add_fault, bad_row};
use crate::query_file::complaint_of;
use crate::values::{Values, wrong_value};
use mysql_bind_core::{Assignment, Failure, typed_fragment};
use mysql_values::show::Shown;
use std::alloc::{AllocError, Global};

/// A row of a table.
#[derive(Clone, Copy)]
pub struct RowAt<'r> {
    /// Its assignments.
    pub assignments: &'r [Assignment],
    /// The line at which it begins.
    pub line: u64,
}

/// The messages about a row that is refused for this reason.
pub fn complaint_of_row(
    alloc: Global,
    wanted: &Wanted<'_>,
    row: RowAt<'_>,
    failure: Failure,
) -> Result<Complaint, AllocError> {
    let path = wanted.path.as_str();
    let request = wanted.request;
    match failure {
        Failure::NoValue => wrong_fields(alloc, path, row),
        Failure::UnportableText(found) => {
            let query = wanted.query.bytes.as_slice();
            let changed = changed_text(alloc, query, row.assignments, request, found)?;
            Ok(bad_row(alloc, path, row.line, changed.what.as_str()))
        }
        Failure::Redefined(name) => {
            let what = format!(in alloc; "`{}` is given two values", Shown(name.as_slice()))?;
            Ok(bad_row(alloc, path, row.line, what.as_str()))
        }
        failure => complaint_of(alloc, &wanted.query, &Values::new(alloc), request, failure),
    }
}

// A fault for each field whose bytes have no value of its type.
fn wrong_fields(alloc: Global, path: &str, row: RowAt<'_>) -> Result<Complaint, AllocError> {
    let mut faults: Vec<Fault> = Vec::new(alloc);
    for assignment in row.assignments {
        let value_type = assignment.value_type;
        if typed_fragment(alloc, value_type, assignment.bytes.as_slice())?.is_some() {
            continue;
        }
        let what = format!(in alloc;
            "`{}` {}",
            Shown(assignment.name.as_slice()),
            wrong_value(value_type)
        )?;
        let path = String::from_str(alloc, path)?;
        let line = row.line;
        add_fault(&mut faults, Place::Row { path, line }, what)?;
    }
    Ok(Complaint::Refused(faults))
}
