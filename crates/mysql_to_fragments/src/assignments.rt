//! Columns and the items that they are set to.
ghost use Rattle.std.specs.Prelude.{Ok, map, ⊤};
ghost use Rattle.mysql_values.specs.Answer.{IsAnswer};
ghost use Rattle.mysql_values.specs.ValueOf.{too_long_duration};
ghost use Rattle.mysql_params_core.specs.Referents.{referents};
ghost use Rattle.mysql_to_fragments.specs.FragmentContent.{assignments, assignments_content};
ghost use Rattle.mysql_to_fragments.specs.Arguments.{all_said, made_of, said_of_column, with_one};

use crate::fragment::{ToFragment, copies};
use crate::item::ToItem;
use mysql_fragments::{ColumnAssignment, Fragment};
use mysql_values::value::convert::ToValueError;
use std::alloc::{AllocError, Global};

/// Columns and the items that they are set to, for a place like `SET :changes`. Each element has
/// the names of a column, like those of a [`Qualified`](crate::Qualified), and an item. Items of
/// several types are [`Value`](mysql_values::value::Value)s, or of a type of the caller's own.
#[derive(Drop)]
pub struct AssignmentsOf<'a, T>(pub &'a [(&'a [&'a [u8]], T)]);

impl<'a, T: ToItem> ToFragment for AssignmentsOf<'a, T> {
    ghost said = { λ changes. made_of assignments (all_said (map
        (λ change. said_of_column (referents change.0.now) (T.said_item change.1))
        changes.0.now)) };

    fn to_fragment(&self, alloc: Global) -> Result<Fragment, ToValueError> {
        let assignments = all_assignments(alloc, self.0)?;
        Ok(Fragment::Assignments(assignments))
    }
}

// The assignments that columns and arguments make.
fn all_assignments<T: ToItem>(
    alloc: Global,
    changes: &[(&[&[u8]], T)],
) -> Result<Vec<ColumnAssignment>, ToValueError>
    ensures { IsAnswer (λ made. assignments_content made.items) too_long_duration
        (all_said (map (λ change. said_of_column (referents change.0.now) (T.said_item change.1))
        changes.now)) ⊤ result }
{
    let mut made = Vec::new(alloc);
    for change in changes {
        push_assignment(alloc, &mut made, change.0, &change.1)?;
    }
    Ok(made)
}

// Appends the assignment of an argument's item to the column of these names.
fn push_assignment<T: ToItem>(
    alloc: Global,
    made: &mut Vec<ColumnAssignment>,
    names: &[&[u8]],
    argument: &T,
) -> Result<(), ToValueError>
    ensures { IsAnswer (λ _. assignments_content made.new.items) too_long_duration
        (with_one (Ok (assignments_content made.old.items))
        (said_of_column (referents names.now) (T.said_item argument.now))) ⊤ result }
{
    let item = argument.to_item(alloc)?;
    let column = copies(alloc, names)?;
    let assignment = ColumnAssignment { column, item };
    made.push(assignment).map_err(AllocError::from)?;
    Ok(())
}
