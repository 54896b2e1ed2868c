//! The outcome of a call that binds fragments into a caller's room.
ghost use Rattle.std.specs.Prelude.{◌≡◌, pos};
ghost use Rattle.mysql_flat_params.specs.FragmentsOutcomes.{fault_item, fault_number, fault_row, number_of, report_of};

use crate::outcome::{Outcome, Report};
use mysql_fragments::FragmentFault;

/// The outcome of a call that binds fragments into a caller's room. After each one except `Done`
/// the room is as it was.
#[derive(Clone, Copy, Debug, PartialEq, Eq)]
pub enum FragmentsOutcome {
    /// An outcome that calls which bind values have too. Only
    /// [`bind_fragments_anywhere_into`](crate::bind_fragments_anywhere_into) returns `Unsteady` and
    /// `Unportable`, also by wide names and with guarded literals. No call that binds fragments
    /// returns `Backslash`.
    AsValues(Outcome),
    /// The fragment for a place can't be written; the first such place is reported.
    Fault {
        /// The number of its place, from 0.
        place: usize,
        /// Its fault.
        fault: FragmentFault,
    },
    /// A place may not have its list or rows, which the form doesn't say are such; the first such
    /// place is reported.
    Unbracketed {
        /// The number of its place, from 0.
        place: usize,
        /// The index of its first byte in the query.
        position: usize,
    },
    /// The fragment for a place has a name with a backslash or a byte from 128 on; the first such
    /// place is reported. Only
    /// [`bind_fragments_anywhere_into`](crate::bind_fragments_anywhere_into) returns it, also by
    /// wide names and with guarded literals.
    UnsteadyFragment {
        /// The number of its place, from 0.
        place: usize,
    },
}

impl FragmentsOutcome {
    /// The number of the outcome's kind: the number of an [`Outcome`], 17 for a fault, 19 for a
    /// fragment that isn't steady, or 21 for a place that may not have its list or rows.
    pub fn number(self) -> i32
        ensures number { result ≡ pos (number_of self) }
    {
        match self {
            FragmentsOutcome::AsValues(outcome) => outcome.number(),
            FragmentsOutcome::Fault { .. } => 17,
            FragmentsOutcome::UnsteadyFragment { .. } => 19,
            FragmentsOutcome::Unbracketed { .. } => 21,
        }
    }

    /// The fields of the outcome. A fault has its place, its number as `byte`, its row as
    /// `position`, and its item or its part of a qualified identifier as `values`. The numbers are
    /// 1 for [`FragmentFault::Empty`], and then in the order of the declaration. A fragment that
    /// isn't steady has its place, and a place that may not have its list or rows its position too.
    pub fn report(self) -> Report
        ensures fields { result ≡ report_of self }
    {
        match self {
            FragmentsOutcome::AsValues(outcome) => outcome.report(),
            FragmentsOutcome::Fault { place, fault } => Report {
                len: 0,
                place,
                position: fault_row(fault),
                marks: 0,
                values: fault_item(fault),
                byte: fault_number(fault),
            },
            FragmentsOutcome::Unbracketed { place, position } => Report {
                len: 0,
                place,
                position,
                marks: 0,
                values: 0,
                byte: 0,
            },
            FragmentsOutcome::UnsteadyFragment { place } => Report {
                len: 0,
                place,
                position: 0,
                marks: 0,
                values: 0,
                byte: 0,
            },
        }
    }
}

// The number of a fault.
fn fault_number(fault: FragmentFault) -> usize
    ensures { result ≡ fault_number fault }
{
    match fault {
        FragmentFault::Empty => 1,
        FragmentFault::EmptyRow { .. } => 2,
        FragmentFault::RowLength { .. } => 3,
        FragmentFault::Number { .. } => 4,
        FragmentFault::EmptyName { .. } => 5,
        FragmentFault::ZeroByte { .. } => 6,
        FragmentFault::LongName { .. } => 7,
        FragmentFault::TrailingSpace { .. } => 8,
        FragmentFault::Keyword => 9,
        FragmentFault::Backslash { .. } => 10,
    }
}

// The row of a fault; 0 if it has none.
fn fault_row(fault: FragmentFault) -> usize
    ensures { result ≡ fault_row fault }
{
    match fault {
        FragmentFault::EmptyRow { row }
        | FragmentFault::RowLength { row }
        | FragmentFault::Number { row, .. } => row,
        _ => 0,
    }
}

// The item or the name of a fault; 0 if it has none.
fn fault_item(fault: FragmentFault) -> usize
    ensures { result ≡ fault_item fault }
{
    match fault {
        FragmentFault::Number { item, .. } => item,
        FragmentFault::EmptyName { part }
        | FragmentFault::ZeroByte { part }
        | FragmentFault::LongName { part }
        | FragmentFault::TrailingSpace { part }
        | FragmentFault::Backslash { part } => part,
        _ => 0,
    }
}
