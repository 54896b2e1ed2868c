//! One fragment of a form, kept in the form's own bytes.
ghost use Rattle.std.specs.Prelude.{◌≡◌, ◌++◌, ℕ, IfErr, IfOk, IfSome, List, Ok, [], ⊤, length, map, true};
ghost use Rattle.mysql_wire_part.specs.Answer.{IsExpectedRefusal};
ghost use Rattle.mysql_wire_part.specs.ParseBuf.{left};
ghost use Rattle.mysql_value_core.specs.declared.value.ValueRef as borrowed_value;
ghost use Rattle.mysql_values.specs.BorrowedValue.{owned};
ghost use Rattle.mysql_flat_params.specs.FormErrors.{form_refusal};
ghost use Rattle.mysql_fragments.specs.BorrowedFragments.{Says};
ghost use Rattle.mysql_fragments.specs.declared.fragment.Fragment as said_fragment;
ghost use Rattle.mysql_flat_params.specs.FiniteDouble.{fragment_of_value};
ghost use Rattle.mysql_flat_params.specs.FlatFragments.{read_all, read_each, read_fragment, read_fragment_of, read_item, read_items};
ghost use Rattle.mysql_flat_params.specs.FragmentContent.{content_of, value_item};
ghost use Rattle.mysql_flat_params.specs.FormInPlace.{IsKeptAs, cell_content, rows_content};

use crate::double::double_in;
use crate::form::{Spot, eat_value_ref};
use crate::form_error::FormError;
use crate::fragment::{ASSIGNMENTS, LIST, ROWS, eat_fragment};
use crate::items::NUMBER;
use crate::kinds_in_place::layout_type;
use crate::rows_in_place::RowsInPlace;
use mysql_fragments::{Fragment, FragmentRef};
use mysql_values::value::ValueRef;
use mysql_wire_part::ParseBuf;
use std::alloc::{AllocError, Global};

// The number of bytes of the shortest item: its type and its flags.
const LEAST_ITEM: usize = 2;

/// A fragment of a form. Values stay in the form, also those of a list or of rows. Every other
/// fragment is copied.
#[derive(Drop)]
pub(crate) enum FragmentInPlace<'f> {
    Value(ValueRef<'f>),
    List(Vec<ValueRef<'f>>),
    Rows(RowsInPlace<'f>),
    /// A fragment of another kind. A list or rows with an exact number or a double in them are
    /// copied too, and so are empty rows, rows of two lengths, and an empty list of rows.
    Copied(Fragment),
}

impl<'f> FragmentInPlace<'f> {
    /// The fragment, borrowed.
    pub(crate) fn lent(&self) -> FragmentRef<'_>
        ensures { (said : said_fragment.Fragment) → IsKeptAs self.now said → Says result said }
    {
        match self {
            FragmentInPlace::Value(value) => FragmentRef::Value(*value),
            FragmentInPlace::List(cells) => FragmentRef::List(cells.as_slice()),
            FragmentInPlace::Rows(rows) => FragmentRef::Rows(rows.lent()),
            FragmentInPlace::Copied(fragment) => FragmentRef::Owned(fragment),
        }
    }
}

/// The fragment at the front, with its type and its flags.
pub(crate) fn eat_in_place<'f>(
    alloc: Global,
    spot: Spot,
    rest: &mut ParseBuf<'f>,
) -> Result<FragmentInPlace<'f>, FormError>
    ensures read { IfOk result (λ read. (said : said_fragment.Fragment) × IsKeptAs read said
        × (read_fragment spot.place spot.position (left rest.old)
        ≡ Ok (content_of said, left rest.new))) }
    ensures refused { IfErr result (λ error. IsExpectedRefusal
        (read_fragment spot.place spot.position (left rest.old)) ⊤ (form_refusal error)) }
{
    let [number, flags, bytes @ ..] = rest.0 else {
        return Err(FormError::End {
            place: spot.place,
            position: spot.position,
        });
    };
    let number = layout_type(*number);
    let flags = *flags;
    let mut ahead = ParseBuf(bytes);
    if number < NUMBER || number > ASSIGNMENTS {
        let value = eat_value_ref(spot, number, flags, &mut ahead)?;
        *rest = ahead;
        return Ok(kept_value(value));
    }
    match eat_values_of(alloc, spot, number, &mut ahead)? {
        Some(read) => {
            *rest = ahead;
            Ok(read)
        }
        None => Ok(FragmentInPlace::Copied(eat_fragment(alloc, spot, rest)?)),
    }
}

// A value that isn't an item, kept: for a finite double its number.
fn kept_value(value: ValueRef<'_>) -> FragmentInPlace<'_>
    ensures { (said : said_fragment.Fragment) × IsKeptAs result said
        × (content_of said ≡ fragment_of_value (owned value.entry)) }
{
    match double_in(value) {
        Some(double) => FragmentInPlace::Copied(Fragment::Double(double)),
        None => FragmentInPlace::Value(value),
    }
}

// The list or the rows of a type with this layout, if they have only values, and the rows one
// length.
fn eat_values_of<'f>(
    alloc: Global,
    spot: Spot,
    number: u8,
    rest: &mut ParseBuf<'f>,
) -> Result<Option<FragmentInPlace<'f>>, AllocError>
    ensures { IfOk result (λ read. IfSome read (λ kept. (said : said_fragment.Fragment)
        × IsKeptAs kept said × ((flags : ℕ) → read_fragment_of spot.place spot.position number flags
        (left rest.old) ≡ Ok (content_of said, left rest.new)))) }
{
    if number == LIST {
        match eat_list(alloc, spot, rest)? {
            Some(cells) => Ok(Some(FragmentInPlace::List(cells))),
            None => Ok(None),
        }
    } else if number == ROWS {
        match eat_rows_of_values(alloc, spot, rest)? {
            Some(rows) => Ok(Some(FragmentInPlace::Rows(rows))),
            None => Ok(None),
        }
    } else {
        Ok(None)
    }
}

// The items at the front, if all are values that can be read.
fn eat_list<'f>(
    alloc: Global,
    spot: Spot,
    rest: &mut ParseBuf<'f>,
) -> Result<Option<Vec<ValueRef<'f>>>, AllocError>
    ensures { IfOk result (λ read. IfSome read (λ cells.
        read_items spot.place spot.position (left rest.old)
        ≡ Ok (map cell_content cells.items, left rest.new))) }
{
    let Some(count) = rest.checked_eat_u32_le() else {
        return Ok(None);
    };
    let mut cells = cells_for(alloc, count as u64, rest.len())?;
    if eat_values(spot, count, &mut cells, rest)? {
        Ok(Some(cells))
    } else {
        Ok(None)
    }
}

// The rows at the front, if all items are values that can be read, and all rows have one length.
fn eat_rows_of_values<'f>(
    alloc: Global,
    spot: Spot,
    rest: &mut ParseBuf<'f>,
) -> Result<Option<RowsInPlace<'f>>, AllocError>
    ensures { IfOk result (λ read. IfSome read (λ rows.
        read_all spot.place spot.position (read_items spot.place spot.position) (left rest.old)
        ≡ Ok (rows_content rows, left rest.new))) }
{
    let Some(count) = rest.checked_eat_u32_le() else {
        return Ok(None);
    };
    let mut ahead = *rest;
    let Some(width) = ahead.checked_eat_u32_le() else {
        return Ok(None);
    };
    if count == 0 || width == 0 {
        return Ok(None);
    }
    let mut cells = cells_for(alloc, count as u64 * width as u64, rest.len())?;
    let mut left = count;
    while left > 0 {
        if !eat_row(spot, width, &mut cells, rest)? {
            return Ok(None);
        }
        left -= 1;
    }
    Ok(Some(RowsInPlace {
        cells,
        width: width as usize,
        count: count as usize,
    }))
}

// An empty list of cells, with memory for `count` cells, or for as many items as the bytes can hold
// if these are fewer.
fn cells_for<'f>(alloc: Global, count: u64, bytes: usize) -> Result<Vec<ValueRef<'f>>, AllocError>
    ensures { IfOk result (λ cells. cells.items ≡ []) }
{
    let most = bytes / LEAST_ITEM;
    let room = if count < most as u64 {
        count as usize
    } else {
        most
    };
    Vec::with_capacity(alloc, room)
}

// Appends the items of the row at the front to the cells. It returns whether the row has this
// length, and all items are values that can be read.
fn eat_row<'f>(
    spot: Spot,
    width: u32,
    cells: &mut Vec<ValueRef<'f>>,
    rest: &mut ParseBuf<'f>,
) -> Result<bool, AllocError>
    ensures { IfOk result (λ all. all ≡ true → (more : List borrowed_value.ValueRef)
        × (cells.new.items ≡ cells.old.items ++ more) × (length more ≡ width)
        × (read_items spot.place spot.position (left rest.old)
        ≡ Ok (map cell_content more, left rest.new))) }
{
    match rest.checked_eat_u32_le() {
        Some(count) => {
            if count == width {
                eat_values(spot, count, cells, rest)
            } else {
                Ok(false)
            }
        }
        None => Ok(false),
    }
}

// Appends `count` items to the cells. It returns whether all are values that can be read.
fn eat_values<'f>(
    spot: Spot,
    count: u32,
    cells: &mut Vec<ValueRef<'f>>,
    rest: &mut ParseBuf<'f>,
) -> Result<bool, AllocError>
    ensures { IfOk result (λ all. all ≡ true → (more : List borrowed_value.ValueRef)
        × (cells.new.items ≡ cells.old.items ++ more) × (length more ≡ count)
        × (read_each (read_item spot.place spot.position) count [] (left rest.old)
        ≡ Ok (map cell_content more, left rest.new))) }
{
    let mut missing = count;
    while missing > 0 {
        let Some(value) = eat_value_item(spot, rest) else {
            return Ok(false);
        };
        cells.push(value)?;
        missing -= 1;
    }
    Ok(true)
}

// The item at the front, if it is a value that can be read, and not a finite float or double.
fn eat_value_item<'f>(spot: Spot, rest: &mut ParseBuf<'f>) -> Option<ValueRef<'f>>
    ensures { IfSome result (λ value. read_item spot.place spot.position (left rest.old)
        ≡ Ok (value_item (owned value), left rest.new)) }
{
    let [number, flags, bytes @ ..] = rest.0 else {
        return None;
    };
    let number = *number;
    let flags = *flags;
    if number == NUMBER {
        return None;
    }
    *rest = ParseBuf(bytes);
    let value = eat_value_ref(spot, number, flags, rest).ok()?;
    match double_in(value) {
        Some(_) => None,
        None => Some(value),
    }
}
