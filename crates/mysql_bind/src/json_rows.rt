//! The rows of NDJSON: a JSON object on each line.
use crate::columns::{Wanted, add_fixed};
use crate::complaint::{Complaint, Fault, Place, add_fault, bad_row};
use crate::json_members::add_members;
use crate::matching::{add_unused, note_values};
use crate::script::{STREAMED_ROWS, Script};
use crate::sources::unmarked;
use crate::told::SourceName;
use crate::values::Values;
use mysql_bind_core::{Assignment, Decimals};
use mysql_values::show::Shown;
use std::alloc::{AllocError, Global};

// What is said of an object, at its row.
fn at_row(alloc: Global, wanted: &Wanted<'_>, line: u64, complaint: Complaint) -> Complaint {
    match complaint {
        Complaint::Unusable(faults) | Complaint::Refused(faults) => match faults.first() {
            Some(fault) => bad_row(alloc, wanted.path.as_str(), line, fault.what.as_str()),
            None => Complaint::Memory,
        },
        complaint => complaint,
    }
}

// The place of a row.
fn row_place(alloc: Global, wanted: &Wanted<'_>, line: u64) -> Result<Place, AllocError> {
    let path = String::from_str(alloc, wanted.path.as_str())?;
    Ok(Place::Row { path, line })
}

// What the members of objects are held against.
#[derive(Drop)]
struct Members {
    // Whether the name at each place has a value that is the same in each row.
    fixed: Vec<bool>,
    // How numbers are taken.
    decimals: Decimals,
}

impl Members {
    // Those that are wanted.
    fn new(alloc: Global, wanted: &Wanted<'_>, decimals: Decimals) -> Result<Members, AllocError> {
        let mut fixed = vec![in alloc; false; wanted.places.len()]?;
        let assignments = wanted.fixed.assignments.as_slice();
        note_values(fixed.as_mut_slice(), &wanted.numbers, assignments);
        Ok(Members { fixed, decimals })
    }
}

// A fault for each name without a value in this row, and for each member without a name.
fn row_faults(
    alloc: Global,
    wanted: &Wanted<'_>,
    members: &Members,
    values: &Values,
    line: u64,
) -> Result<Vec<Fault>, AllocError> {
    let mut faults = Vec::new(alloc);
    let mut assigned = Vec::from_slice(alloc, members.fixed.as_slice())?;
    let assignments = values.assignments.as_slice();
    note_values(assigned.as_mut_slice(), &wanted.numbers, assignments);
    for (place, has_value) in wanted.places.iter().zip(assigned) {
        if !has_value {
            let what = format!(in alloc; "no value for `:{}`", Shown(place.name.as_slice()))?;
            add_fault(&mut faults, row_place(alloc, wanted, line)?, what)?;
        }
    }
    for assignment in assignments {
        if !wanted.allow_unused && !wanted.numbers.contains_key(assignment.name.as_slice()) {
            let what = format!(in alloc;
                "`{}`: {} has no such name (--allow-unused takes it)",
                SourceName(assignment.name.as_slice()),
                wanted.query.path
            )?;
            add_fault(&mut faults, row_place(alloc, wanted, line)?, what)?;
        }
    }
    Ok(faults)
}

// What an object assigns.
fn object_assignments(
    alloc: Global,
    wanted: &Wanted<'_>,
    members: &Members,
    line: u64,
    text: &[u8],
) -> Result<Vec<Assignment>, Complaint> {
    let mut values = Values::new(alloc);
    let added = add_members(
        &mut values,
        alloc,
        wanted.path.as_str(),
        text,
        members.decimals,
    );
    if let Err(complaint) = added {
        return Err(at_row(alloc, wanted, line, complaint));
    }
    let faults = row_faults(alloc, wanted, members, &values, line)?;
    if !faults.is_empty() {
        return Err(Complaint::Refused(faults));
    }
    let mut assignments = Vec::new(alloc);
    for assignment in values.assignments {
        if wanted.numbers.contains_key(assignment.name.as_slice())
            && assignments.push(assignment).is_err()
        {
            return Err(Complaint::Memory);
        }
    }
    add_fixed(&mut assignments, alloc, wanted)?;
    Ok(assignments)
}

// Refuses values that are the same in each row and have no name in the query.
fn check_fixed(alloc: Global, wanted: &Wanted<'_>) -> Result<(), Complaint> {
    let mut faults = Vec::new(alloc);
    if !wanted.allow_unused {
        add_unused(
            &mut faults,
            alloc,
            &wanted.query,
            &wanted.numbers,
            &wanted.fixed,
        )?;
    }
    if faults.is_empty() {
        Ok(())
    } else {
        Err(Complaint::Refused(faults))
    }
}

// Whether a byte is white space of JSON (RFC 8259, section 2).
fn is_white_space(byte: u8) -> bool {
    matches!(byte, b' ' | b'\t' | b'\n' | b'\r')
}

/// Adds the rows of NDJSON to the script. Each line is a row, except a line of only white space. A
/// line ends only at LF and at the end of the bytes.
pub fn add_objects(
    script: &mut Script<'_, '_>,
    rt: &HostRuntime,
    decimals: Decimals,
    bytes: &[u8],
) -> Result<(), Complaint> {
    check_fixed(rt.alloc(), script.wanted)?;
    let members = Members::new(rt.alloc(), script.wanted, decimals)?;
    let mut rest = unmarked(bytes);
    let mut line = 1u64;
    let mut added = 0usize;
    // Each line has a byte.
    for _ in 0..bytes.len() {
        if rest.is_empty() {
            break;
        }
        let (text, after) = match rest.iter().position(|byte| *byte == b'\n') {
            Some(at) => (&rest[..at], &rest[at + 1..]),
            None => (rest, &rest[rest.len()..]),
        };
        if !text.iter().all(|byte| is_white_space(*byte)) {
            let assignments = object_assignments(rt.alloc(), script.wanted, &members, line, text)?;
            script.add(rt, assignments, line)?;
            added = added.saturating_add(1);
        }
        line = line.saturating_add(1);
        rest = after;
        if added >= STREAMED_ROWS || rest.is_empty() {
            let end = bytes.len().saturating_sub(rest.len());
            script.progress.add(rt, added, end);
            added = 0;
        }
    }
    Ok(())
}
