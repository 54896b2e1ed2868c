//! Rows of items.
ghost use Rattle.std.specs.Prelude.{Ok, map, ⊤};
ghost use Rattle.mysql_values.specs.Answer.{IsAnswer};
ghost use Rattle.mysql_values.specs.ValueOf.{too_long_duration};
ghost use Rattle.mysql_to_fragments.specs.FragmentContent.{content_of, items_content, rows};
ghost use Rattle.mysql_to_fragments.specs.Arguments.{SaidRow, all_said, made_of, with_one};

use crate::fragment::ToFragment;
use mysql_fragments::{Fragment, Item};
use mysql_values::value::convert::ToValueError;
use std::alloc::{AllocError, Global};

/// An argument that makes a row of items: a tuple of up to eight arguments, or a type of the
/// caller's own.
pub trait ToRow {
    // the contents of the items, or the first duration that is too long for a value
    ghost said_row: { Self → SaidRow };

    /// The items. `DurationTooLong` is returned only if the type's `said_row` is such a duration.
    /// `Memory` may come in place of any other result.
    fn to_row(&self, alloc: Global) -> Result<Vec<Item>, ToValueError>
        ensures { IsAnswer (λ items. items_content items.items) too_long_duration
            (said_row self.now) ⊤ result };
}

/// Rows of items, for a place like `VALUES :rows`.
#[derive(Drop)]
pub struct RowsOf<'a, R>(pub &'a [R]);

impl<'a, R: ToRow> ToFragment for RowsOf<'a, R> {
    ghost said = { λ rows_of. made_of rows (all_said (map R.said_row rows_of.0.now)) };

    fn to_fragment(&self, alloc: Global) -> Result<Fragment, ToValueError> {
        let rows = all_rows(alloc, self.0)?;
        Ok(Fragment::Rows(rows))
    }
}

// The rows that arguments make.
fn all_rows<R: ToRow>(alloc: Global, arguments: &[R]) -> Result<Vec<Vec<Item>>, ToValueError>
    ensures { IsAnswer (λ rows. map (λ row. items_content row.items) rows.items)
        too_long_duration (all_said (map R.said_row arguments.now)) ⊤ result }
{
    let mut rows = Vec::new(alloc);
    for argument in arguments {
        push_row(alloc, &mut rows, argument)?;
    }
    Ok(rows)
}

// Appends the row that an argument makes.
fn push_row<R: ToRow>(
    alloc: Global,
    rows: &mut Vec<Vec<Item>>,
    argument: &R,
) -> Result<(), ToValueError>
    ensures { IsAnswer (λ _. map (λ row. items_content row.items) rows.new.items)
        too_long_duration (with_one (Ok (map (λ row. items_content row.items) rows.old.items))
        (R.said_row argument.now)) ⊤ result }
{
    let row = argument.to_row(alloc)?;
    rows.push(row).map_err(AllocError::from)?;
    Ok(())
}
