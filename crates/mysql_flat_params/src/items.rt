//! Lists, rows and assignments.
ghost use Rattle.std.specs.Prelude.{◌≡◌, IfOk, ⊤, map};
ghost use Rattle.mysql_wire_part.specs.Answer.{IsAnswer};
ghost use Rattle.mysql_wire_part.specs.ParseBuf.{left};
ghost use Rattle.mysql_values.specs.BorrowedValue.{owned};
ghost use Rattle.mysql_flat_params.specs.FormErrors.{form_refusal};
ghost use Rattle.mysql_flat_params.specs.FiniteDouble.{item_of_value};
ghost use Rattle.mysql_flat_params.specs.FlatFragments.{read_all, read_assignment, read_item, read_item_of, read_items};
ghost use Rattle.mysql_flat_params.specs.FragmentContent.{assignment_content, assignments_content, item_content, items_content};

use crate::double::double_in;
use crate::form::{Spot, eat_value_ref};
use crate::form_error::FormError;
use crate::fragment_parts::{eat_count, eat_names, eat_text};
use mysql_fragments::{ColumnAssignment, Item};
use mysql_values::value::ValueRef;
use mysql_wire_part::ParseBuf;
use std::alloc::{AllocError, Global};

/// The number of the type of an exact number.
pub(crate) const NUMBER: u8 = 128;

/// The rows at the front.
pub(crate) fn eat_rows(
    alloc: Global,
    spot: Spot,
    rest: &mut ParseBuf<'_>,
) -> Result<Vec<Vec<Item>>, FormError>
    ensures { IsAnswer (λ rows. (map (λ row. items_content row.items) rows.items, left rest.new))
        form_refusal (read_all spot.place spot.position (read_items spot.place spot.position)
        (left rest.old)) ⊤ result }
{
    let mut count = eat_count(spot, rest)?;
    let mut rows = Vec::new(alloc);
    while count > 0 {
        rows.push(eat_items(alloc, spot, rest)?)?;
        count -= 1;
    }
    Ok(rows)
}

/// The assignments at the front.
pub(crate) fn eat_assignments(
    alloc: Global,
    spot: Spot,
    rest: &mut ParseBuf<'_>,
) -> Result<Vec<ColumnAssignment>, FormError>
    ensures { IsAnswer (λ read. (assignments_content read.items, left rest.new)) form_refusal
        (read_all spot.place spot.position (read_assignment spot.place spot.position)
        (left rest.old)) ⊤ result }
{
    let mut count = eat_count(spot, rest)?;
    let mut assignments = Vec::new(alloc);
    while count > 0 {
        assignments.push(eat_assignment(alloc, spot, rest)?)?;
        count -= 1;
    }
    Ok(assignments)
}

// The assignment at the front: the names of its column, and its item.
fn eat_assignment(
    alloc: Global,
    spot: Spot,
    rest: &mut ParseBuf<'_>,
) -> Result<ColumnAssignment, FormError>
    ensures { IsAnswer (λ read. (assignment_content read, left rest.new)) form_refusal
        (read_assignment spot.place spot.position (left rest.old)) ⊤ result }
{
    let column = eat_names(alloc, spot, rest)?;
    let item = eat_item(alloc, spot, rest)?;
    Ok(ColumnAssignment { column, item })
}

/// The items at the front.
pub(crate) fn eat_items(
    alloc: Global,
    spot: Spot,
    rest: &mut ParseBuf<'_>,
) -> Result<Vec<Item>, FormError>
    ensures { IsAnswer (λ items. (items_content items.items, left rest.new)) form_refusal
        (read_items spot.place spot.position (left rest.old)) ⊤ result }
{
    let mut count = eat_count(spot, rest)?;
    let mut items = Vec::new(alloc);
    while count > 0 {
        items.push(eat_item(alloc, spot, rest)?)?;
        count -= 1;
    }
    Ok(items)
}

// The item at the front.
fn eat_item(alloc: Global, spot: Spot, rest: &mut ParseBuf<'_>) -> Result<Item, FormError>
    ensures { IsAnswer (λ item. (item_content item, left rest.new)) form_refusal
        (read_item spot.place spot.position (left rest.old)) ⊤ result }
{
    let [number, flags, bytes @ ..] = rest.0 else {
        return Err(FormError::End {
            place: spot.place,
            position: spot.position,
        });
    };
    let number = *number;
    let flags = *flags;
    *rest = ParseBuf(bytes);
    eat_item_of(alloc, spot, number, flags, rest)
}

// The item whose type has this number, after its flags.
fn eat_item_of(
    alloc: Global,
    spot: Spot,
    number: u8,
    flags: u8,
    rest: &mut ParseBuf<'_>,
) -> Result<Item, FormError>
    ensures { IsAnswer (λ item. (item_content item, left rest.new)) form_refusal
        (read_item_of spot.place spot.position number flags (left rest.old)) ⊤ result }
{
    if number == NUMBER {
        Ok(Item::Decimal(eat_text(alloc, spot, rest)?))
    } else {
        let value = eat_value_ref(spot, number, flags, rest)?;
        Ok(item_of(alloc, value)?)
    }
}

// The item of a value: a finite float or double is a double.
fn item_of(alloc: Global, value: ValueRef<'_>) -> Result<Item, AllocError>
    ensures { IfOk result (λ item. item_content item ≡ item_of_value (owned value.entry)) }
{
    match double_in(value) {
        Some(double) => Ok(Item::Double(double)),
        None => Ok(Item::Value(value.to_value(alloc)?)),
    }
}
