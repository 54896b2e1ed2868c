//! The flat form of parameters.
ghost use Rattle.std.specs.Prelude.{◌≡◌, ◌≤◌, ◌+◌, ◌<◌, ⊤, [], ◌∷◌, length, None, Some, Ok, Err, IfOk, IfErr, IfSome, is_some, true, false, option_and_then, IsErrOf, OnOk, alloc_error};
ghost use Rattle.std.specs.FinMap as finite;
ghost use Rattle.mysql_wire_part.specs.Answer.{IsAnswer};
ghost use Rattle.mysql_wire_part.specs.Column.{is_unsigned};
ghost use Rattle.mysql_wire_part.specs.ParseBuf.{left, read_refusal};
ghost use Rattle.mysql_values.specs.BorrowedValue.{owned, owned_values};
ghost use Rattle.mysql_params_core.specs.Given.{empty, given, named, positional};
ghost use Rattle.mysql_flat_params.specs.ColumnNumbers.{column_type, is_unsigned_parameter};
ghost use Rattle.mysql_flat_params.specs.FlatForm.{HasFirstParameter, IsFormReading, IsReadFrom, name_refusal, refused_in, read_name, read_of_type, read_parameter, read_value};
ghost use Rattle.mysql_flat_params.specs.FormErrors.{IsFormRefusal, IsRefusalFrom, form_refusal};
ghost use Rattle.mysql_flat_params.specs.FormParams.{given_in_form};

use crate::column_number::column_type;
use crate::form_error::FormError;
use crate::form_names::FormNames;
use mysql_params_core::params::Params;
use mysql_values::value::{Value, ValueRef, read_binary_value};
use mysql_wire_part::{ColumnFlags, Flags, ParseBuf, WireError};
use std::alloc::{AllocError, Global};
use std::collections::HashMap;

// The flag of a parameter whose whole numbers have no sign.
const UNSIGNED: u8 = 128;

// The number of bytes of the shortest parameter: one each for its name's length, its type and its
// flags.
const LEAST_PARAMETER: usize = 3;

// Memory is reserved at once for up to this number of values after the first.
const MANY_VALUES: usize = 63;

/// The place of a parameter in the form.
#[derive(Clone, Copy)]
pub(crate) struct Spot {
    /// Its number, from 0.
    pub(crate) place: usize,
    /// The index of its first byte.
    pub(crate) position: usize,
}

/// The parameters of a form. The empty form has none. Otherwise all are by position or all by name,
/// like the first.
///
/// A form is its parameters, one after another. Each parameter has four parts:
///
/// - its name, a length-encoded string, which is empty for a parameter by position;
/// - a byte, the number of its column type ("Protocol::ColumnType" of the MySQL client/server
///   protocol);
/// - a byte of flags: 128 means that a whole number has no sign, and the other flags are ignored
///   ("COM_STMT_EXECUTE");
/// - its value in binary form, as [`read_binary_value`] reads it.
///
/// The parameters are read in order, up to the first that is refused. For each, the name is read
/// first (`End`, `LengthLead`) and checked (`Mixed`, `Repeated`). Then type and flags are read
/// (`End`); a number that isn't that of a type with a binary form is `UnsupportedType`. Then the
/// value is read (`End`, `LengthLead`). `Memory` comes only if the form's first parameter can be
/// read. Nothing is allocated for a length that the form only states.
pub fn params_of_form(alloc: Global, form: &[u8]) -> Result<Params, FormError>
    ensures params { IfOk result (λ params. IsFormReading form.now (Ok (given params))) }
    ensures refused { IfErr result (IsFormRefusal form.now) }

    // Only a form whose first parameter is read allocates.
    ensures memory { IsErrOf result (FormError.Memory alloc_error) →
        HasFirstParameter form.now }
{
    match form_params::<HashMap<Vec<u8>, Value>>(alloc, form, Vec::new(alloc))? {
        FormParams::Empty => Ok(Params::Empty),
        FormParams::Named(entries) => Ok(Params::Named(entries)),
        FormParams::Positional(values) => {
            Ok(Params::Positional(own_values(alloc, values.as_slice())?))
        }
    }
}

// The same values, each of its own bytes.
fn own_values(alloc: Global, values: &[ValueRef<'_>]) -> Result<Vec<Value>, AllocError>
    ensures { IfOk result (λ list. list.items ≡ owned_values values.now) }
{
    let mut list = Vec::with_capacity(alloc, values.len())?;
    for value in values {
        list.push(value.to_value(alloc)?)?;
    }
    Ok(list)
}

/// The parameters of a form: values by position stay in the form, and names are kept as `M` keeps
/// them.
#[derive(Drop)]
pub(crate) enum FormParams<'f, M: Drop> {
    Empty,
    Named(M),
    Positional(Vec<ValueRef<'f>>),
}

/// The parameters of a form, as [`params_of_form`] gives them. Values by position go into the spare
/// list; its old contents are dropped.
pub(crate) fn form_params<'f, M: FormNames<'f>>(
    alloc: Global,
    form: &'f [u8],
    spare: Vec<ValueRef<'f>>,
) -> Result<FormParams<'f, M>, FormError>
    ensures params { IfOk result (λ params.
        IsFormReading form.now (Ok (given_in_form M.values params))) }
    ensures refused { IfErr result (IsFormRefusal form.now) }
    ensures memory { IsErrOf result (FormError.Memory alloc_error) →
        HasFirstParameter form.now }
{
    let mut rest = ParseBuf(form);
    if rest.is_empty() {
        return Ok(FormParams::Empty);
    }
    let spot = Spot {
        place: 0,
        position: 0,
    };
    let name = eat_name(spot, &mut rest)?;
    let value = eat_value(spot, &mut rest)?;
    if name.is_empty() {
        positional_params(form.len(), value, rest, spare)
    } else {
        drop(spare);
        named_params(alloc, form.len(), name, value, rest)
    }
}

// The parameters by position that begin with this value and go on with the rest.
fn positional_params<'f, M: FormNames<'f>>(
    total: usize,
    first: ValueRef<'f>,
    rest: ParseBuf<'f>,
    spare: Vec<ValueRef<'f>>,
) -> Result<FormParams<'f, M>, FormError>
    requires { length (left rest) < total }
    ensures params { IfOk result (λ params.
        IsReadFrom total 1 (positional (owned first.entry ∷ [])) (left rest.entry)
        (Ok (given_in_form M.values params))) }
    ensures refused { IfErr result
        (IsRefusalFrom total 1 (positional (owned first.entry ∷ [])) (left rest.entry)) }
{
    let mut values = first_value(first, rest.len() / LEAST_PARAMETER, spare)?;
    let mut rest = rest;
    while !rest.is_empty() {
        append_parameter(total, &mut values, &mut rest)?;
    }
    Ok(FormParams::Positional(values))
}

// The first value in the spare list. At most `most` values follow it, and memory for a few of these
// is reserved.
fn first_value<'f>(
    first: ValueRef<'f>,
    most: usize,
    spare: Vec<ValueRef<'f>>,
) -> Result<Vec<ValueRef<'f>>, AllocError>
    ensures { IfOk result (λ values. values.items ≡ first.entry ∷ []) }
{
    let follow = if most < MANY_VALUES {
        most
    } else {
        MANY_VALUES
    };
    let mut values = spare;
    values.clear();
    values.reserve_exact(follow + 1)?;
    values.push(first)?;
    Ok(values)
}

// Appends the value of the next parameter by position.
fn append_parameter<'f>(
    total: usize,
    values: &mut Vec<ValueRef<'f>>,
    rest: &mut ParseBuf<'f>,
) -> Result<(), FormError>
    requires { length (left rest.old) ≤ total }
    ensures parameter { IsAnswer (λ _. (positional (owned_values values.new.items), left rest.new))
        form_refusal (read_parameter total (length values.old.items)
        (positional (owned_values values.old.items)) (left rest.old)) ⊤ result }
    ensures one_more { OnOk result (length values.new.items ≡ length values.old.items + 1) }
{
    let spot = Spot {
        place: values.len(),
        position: total - rest.len(),
    };
    let name = eat_name(spot, rest)?;
    if !name.is_empty() {
        return Err(FormError::Mixed {
            place: spot.place,
            position: spot.position,
        });
    }
    let value = eat_value(spot, rest)?;
    values.push(value)?;
    Ok(())
}

// The parameters by name that begin with this one and go on with the rest.
fn named_params<'f, M: FormNames<'f>>(
    alloc: Global,
    total: usize,
    name: &'f [u8],
    first: ValueRef<'f>,
    rest: ParseBuf<'f>,
) -> Result<FormParams<'f, M>, FormError>
    requires { length (left rest) < total }
    ensures params { IfOk result (λ params.
        IsReadFrom total 1 (named (finite.insert finite.empty name.now (owned first.entry)))
        (left rest.entry) (Ok (given_in_form M.values params))) }
    ensures refused { IfErr result
        (IsRefusalFrom total 1 (named (finite.insert finite.empty name.now (owned first.entry)))
        (left rest.entry)) }
{
    let follow = rest.len() / (LEAST_PARAMETER + 1);
    let mut names = M::with_first(alloc, name, first, follow)?;
    let mut rest = rest;
    let mut place = 1;
    while !rest.is_empty() {
        insert_parameter(alloc, total, place, &mut names, &mut rest)?;
        place += 1;
    }
    Ok(FormParams::Named(names))
}

// Inserts the value of the next parameter by name under its name.
fn insert_parameter<'f, M: FormNames<'f>>(
    alloc: Global,
    total: usize,
    place: usize,
    names: &mut M,
    rest: &mut ParseBuf<'f>,
) -> Result<(), FormError>
    requires { length (left rest.old) ≤ total }
    ensures { IsAnswer (λ _. (named (M.values names.new), left rest.new)) form_refusal
        (read_parameter total place (named (M.values names.old)) (left rest.old)) ⊤ result }
{
    let spot = Spot {
        place,
        position: total - rest.len(),
    };
    let name = eat_name(spot, rest)?;
    let at = total - rest.len() - name.len();
    if let Some(error) = name_error(spot, at, names, name) {
        return Err(error);
    }
    let value = eat_value(spot, rest)?;
    names.insert_new(alloc, name, value)?;
    Ok(())
}

// The refusal of a name, which is at this index, after parameters by name.
fn name_error<'f, M: FormNames<'f>>(
    spot: Spot,
    at: usize,
    names: &M,
    name: &[u8],
) -> Option<FormError>
    ensures refusal { option_and_then form_refusal result
        ≡ name_refusal spot.place spot.position at
        (named (M.values names.now)) name.now }
    ensures no_memory { IfSome result (λ error. is_some (form_refusal error) ≡ true) }
    ensures new { result ≡ None → finite.contains_key (M.values names.now) name.now ≡ false }
{
    let Spot { place, position } = spot;
    if name.is_empty() {
        return Some(FormError::Mixed { place, position });
    }
    if names.has(name) {
        return Some(FormError::Repeated {
            place,
            position: at,
            len: name.len(),
        });
    }
    None
}

/// The name at the front of a parameter.
pub(crate) fn eat_name<'a>(spot: Spot, rest: &mut ParseBuf<'a>) -> Result<&'a [u8], FormError>
    ensures name { IsAnswer (λ name. (name.now, left rest.new)) form_refusal
        (read_name spot.place spot.position (left rest.old)) ⊥ result }
    ensures within { IfOk result (λ name.
        length name.now + length (left rest.new) < length (left rest.old)) }
{
    // The error gets the place of its parameter.
    match rest.eat_lenenc_str() {
        Ok(name) => Ok(name),
        Err(error) => Err(form_error(spot, 0, error)),
    }
}

/// The value of a parameter, after its name.
pub(crate) fn eat_value<'f>(spot: Spot, rest: &mut ParseBuf<'f>) -> Result<ValueRef<'f>, FormError>
    ensures { IsAnswer (λ value. (owned value, left rest.new)) form_refusal
        (read_value spot.place spot.position (left rest.old)) ⊥ result }
{
    let Spot { place, position } = spot;
    let [number, flags, bytes @ ..] = rest.0 else {
        return Err(FormError::End { place, position });
    };
    let mut after = ParseBuf(bytes);
    let value = eat_value_ref(spot, *number, *flags, &mut after)?;
    *rest = after;
    Ok(value)
}

/// The value of a parameter whose type has this number, after its flags.
pub(crate) fn eat_value_ref<'f>(
    spot: Spot,
    number: u8,
    flags: u8,
    rest: &mut ParseBuf<'f>,
) -> Result<ValueRef<'f>, FormError>
    ensures { IsAnswer (λ value. (owned value, left rest.new)) form_refusal
        (read_of_type spot.place spot.position number (column_type number)
        (is_unsigned_parameter flags) (left rest.old)) ⊥ result }
{
    let Spot { place, position } = spot;
    let Some(column) = column_type(number) else {
        return Err(FormError::UnsupportedType {
            place,
            position,
            number,
        });
    };
    // The error gets the place of its parameter.
    match read_binary_value(column, column_flags(flags), rest) {
        Ok(value) => Ok(value),
        Err(error) => Err(form_error(spot, number, error)),
    }
}

/// Whether a whole number with these flags has no sign.
pub(crate) fn is_unsigned_parameter(flags: u8) -> bool
    ensures { result ≡ is_unsigned_parameter flags }
{
    flags & UNSIGNED != 0
}

// The flags of a column with the same meaning as the flags of a parameter.
fn column_flags(flags: u8) -> ColumnFlags
    ensures { is_unsigned result ≡ is_unsigned_parameter flags }
{
    if is_unsigned_parameter(flags) {
        ColumnFlags::UNSIGNED_FLAG
    } else {
        ColumnFlags::from_bits_retain(0)
    }
}

// Why a parameter whose type has this number can't be read.
fn form_error(spot: Spot, number: u8, error: WireError) -> FormError
    ensures refusal { IfSome (read_refusal error) (λ refusal. form_refusal result
        ≡ Some (refused_in spot.place spot.position number refusal)) }
    ensures memory { read_refusal error ≡ None → result ≡ FormError.Memory alloc_error }
{
    let Spot { place, position } = spot;
    match error {
        WireError::UnexpectedEof => FormError::End { place, position },
        WireError::BadLengthLead(lead) => FormError::LengthLead {
            place,
            position,
            lead,
        },
        WireError::UnsupportedColumn(_) => FormError::UnsupportedType {
            place,
            position,
            number,
        },
        WireError::Memory(error) => FormError::Memory(error),
    }
}
