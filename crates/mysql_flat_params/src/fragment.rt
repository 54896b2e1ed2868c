//! One fragment.
ghost use Rattle.std.specs.Prelude.{◌≡◌, IfOk, ⊤};
ghost use Rattle.mysql_wire_part.specs.Answer.{IsAnswer};
ghost use Rattle.mysql_wire_part.specs.ParseBuf.{left};
ghost use Rattle.mysql_values.specs.BorrowedValue.{owned};
ghost use Rattle.mysql_flat_params.specs.FormErrors.{form_refusal};
ghost use Rattle.mysql_flat_params.specs.FiniteDouble.{fragment_of_value};
ghost use Rattle.mysql_flat_params.specs.FlatFragments.{read_fragment, read_fragment_of, read_keyword};
ghost use Rattle.mysql_flat_params.specs.FragmentContent.{content_of};

use crate::double::double_in;
use crate::form::{Spot, eat_name, eat_value_ref};
use crate::form_error::FormError;
use crate::fragment_parts::{eat_columns, eat_names, eat_text};
use crate::items::{NUMBER, eat_assignments, eat_items, eat_rows};
use crate::keywords::listed_keyword;
use crate::kinds_in_place::layout_type;
use mysql_fragments::{Fragment, Keyword};
use mysql_values::value::ValueRef;
use mysql_wire_part::ParseBuf;
use std::alloc::{AllocError, Global};

// The numbers of the other types of this library's own.
pub(crate) const LIST: u8 = 129;

pub(crate) const ROWS: u8 = 130;

const IDENTIFIER: u8 = 131;

const QUALIFIED: u8 = 132;

const KEYWORD: u8 = 133;

const IDENTIFIERS: u8 = 134;

pub(crate) const ASSIGNMENTS: u8 = 135;

/// The fragment at the front, with its type and its flags.
pub(crate) fn eat_fragment(
    alloc: Global,
    spot: Spot,
    rest: &mut ParseBuf<'_>,
) -> Result<Fragment, FormError>
    ensures { IsAnswer (λ fragment. (content_of fragment, left rest.new)) form_refusal
        (read_fragment spot.place spot.position (left rest.old)) ⊤ result }
{
    let [number, flags, bytes @ ..] = rest.0 else {
        return Err(FormError::End {
            place: spot.place,
            position: spot.position,
        });
    };
    let number = layout_type(*number);
    let flags = *flags;
    *rest = ParseBuf(bytes);
    eat_fragment_of(alloc, spot, number, flags, rest)
}

// The fragment whose type has the layout of the type with this number, after its flags.
fn eat_fragment_of(
    alloc: Global,
    spot: Spot,
    number: u8,
    flags: u8,
    rest: &mut ParseBuf<'_>,
) -> Result<Fragment, FormError>
    ensures { IsAnswer (λ fragment. (content_of fragment, left rest.new)) form_refusal
        (read_fragment_of spot.place spot.position number flags (left rest.old)) ⊤ result }
{
    if number == NUMBER {
        Ok(Fragment::Decimal(eat_text(alloc, spot, rest)?))
    } else if number == LIST {
        Ok(Fragment::List(eat_items(alloc, spot, rest)?))
    } else if number == ROWS {
        Ok(Fragment::Rows(eat_rows(alloc, spot, rest)?))
    } else if number == IDENTIFIER {
        Ok(Fragment::Identifier(eat_text(alloc, spot, rest)?))
    } else if number == QUALIFIED {
        Ok(Fragment::Qualified(eat_names(alloc, spot, rest)?))
    } else if number == KEYWORD {
        Ok(Fragment::Keyword(eat_keyword(alloc, spot, rest)?))
    } else if number == IDENTIFIERS {
        Ok(Fragment::Identifiers(eat_columns(alloc, spot, rest)?))
    } else if number == ASSIGNMENTS {
        Ok(Fragment::Assignments(eat_assignments(alloc, spot, rest)?))
    } else {
        let value = eat_value_ref(spot, number, flags, rest)?;
        Ok(fragment_of(alloc, value)?)
    }
}

// The fragment of a value: a finite float or double is a double.
fn fragment_of(alloc: Global, value: ValueRef<'_>) -> Result<Fragment, AllocError>
    ensures { IfOk result (λ fragment.
        content_of fragment ≡ fragment_of_value (owned value.entry)) }
{
    match double_in(value) {
        Some(double) => Ok(Fragment::Double(double)),
        None => Ok(Fragment::Value(value.to_value(alloc)?)),
    }
}

// The keyword at the front; empty if its text isn't one that a form may have.
fn eat_keyword(alloc: Global, spot: Spot, rest: &mut ParseBuf<'_>) -> Result<Keyword, FormError>
    ensures { IsAnswer (λ keyword. (keyword.word.items, left rest.new)) form_refusal
        (read_keyword spot.place spot.position (left rest.old)) ⊤ result }
{
    let text = eat_name(spot, rest)?;
    Ok(Keyword::new(alloc, listed_keyword(text))?)
}
