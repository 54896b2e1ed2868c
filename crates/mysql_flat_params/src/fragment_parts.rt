//! The parts of fragments: texts, counts, names and columns.
ghost use Rattle.std.specs.Prelude.{⊤};
ghost use Rattle.mysql_wire_part.specs.Answer.{IsAnswer};
ghost use Rattle.mysql_wire_part.specs.ParseBuf.{left};
ghost use Rattle.mysql_params_core.specs.Names.{names_of};
ghost use Rattle.mysql_flat_params.specs.FlatForm.{read_name};
ghost use Rattle.mysql_flat_params.specs.FormErrors.{form_refusal};
ghost use Rattle.mysql_flat_params.specs.FlatFragments.{read_all, read_count, read_names};
ghost use Rattle.mysql_flat_params.specs.FragmentContent.{columns_content};

use crate::form::{Spot, eat_name};
use crate::form_error::FormError;
use mysql_wire_part::ParseBuf;
use std::alloc::Global;

/// A copy of the name or text at the front.
pub(crate) fn eat_text(
    alloc: Global,
    spot: Spot,
    rest: &mut ParseBuf<'_>,
) -> Result<Vec<u8>, FormError>
    ensures { IsAnswer (λ text. (text.items, left rest.new)) form_refusal
        (read_name spot.place spot.position (left rest.old)) ⊤ result }
{
    let text = eat_name(spot, rest)?;
    Ok(Vec::from_slice(alloc, text)?)
}

/// The count at the front.
pub(crate) fn eat_count(spot: Spot, rest: &mut ParseBuf<'_>) -> Result<u32, FormError>
    ensures { IsAnswer (λ count. (count, left rest.new)) form_refusal
        (read_count spot.place spot.position (left rest.old)) ⊥ result }
{
    match rest.checked_eat_u32_le() {
        Some(count) => Ok(count),
        None => Err(FormError::End {
            place: spot.place,
            position: spot.position,
        }),
    }
}

/// The columns at the front.
pub(crate) fn eat_columns(
    alloc: Global,
    spot: Spot,
    rest: &mut ParseBuf<'_>,
) -> Result<Vec<Vec<Vec<u8>>>, FormError>
    ensures { IsAnswer (λ columns. (columns_content columns.items, left rest.new)) form_refusal
        (read_all spot.place spot.position (read_names spot.place spot.position)
        (left rest.old)) ⊤ result }
{
    let mut count = eat_count(spot, rest)?;
    let mut columns = Vec::new(alloc);
    while count > 0 {
        columns.push(eat_names(alloc, spot, rest)?)?;
        count -= 1;
    }
    Ok(columns)
}

/// The names of a qualified identifier or of a column.
pub(crate) fn eat_names(
    alloc: Global,
    spot: Spot,
    rest: &mut ParseBuf<'_>,
) -> Result<Vec<Vec<u8>>, FormError>
    ensures { IsAnswer (λ names. (names_of names.items, left rest.new)) form_refusal
        (read_names spot.place spot.position (left rest.old)) ⊤ result }
{
    let mut count = eat_count(spot, rest)?;
    let mut names = Vec::new(alloc);
    while count > 0 {
        names.push(eat_text(alloc, spot, rest)?)?;
        count -= 1;
    }
    Ok(names)
}
