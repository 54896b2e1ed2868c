//! The values for the names of a query, borrowed from parameters without a copy.
ghost use Rattle.std.specs.Prelude.{◌≡◌, ◌<◌, IfOk, IsErrOf, OnErr, alloc_error, length, ⊤};
ghost use Rattle.mysql_wire_part.specs.Answer.{IsAnswer};
ghost use Rattle.mysql_params_core.specs.Errors.{lookup_refusal};
ghost use Rattle.mysql_params_core.specs.Given.{ValueMap, given, named};
ghost use Rattle.mysql_params_core.specs.GivenBorrowed.{given_by_borrowed};
ghost use Rattle.mysql_params_core.specs.Lookup.{lookup, PlaceValuesTakeMemory};
ghost use Rattle.mysql_params_core.specs.Referents.{referents};
ghost use Rattle.mysql_values.specs.BorrowedValue.{owned, owned_values};

use crate::params::entries::{NamedPairs, NamedValues};
use crate::params::lookup::{missing_params_error, reported_name};
use crate::params::sorted_pairs::sorted_place_values;
use crate::params::{Params, ParamsConfusionError, ParamsError};
use mysql_values::value::{Value, ValueRef};
use std::alloc::{AllocError, Global};
use std::collections::{BTreeMap, HashMap};

/// Borrowed parameters: maps, pairs or lists, with values that are owned or borrowed. The crates
/// above bind with these; no user needs them.
#[derive(Clone, Copy)]
pub enum BorrowedParams<'p, 'v> {
    /// No parameters.
    Empty,
    /// Values by name.
    Named(&'p HashMap<Vec<u8>, Value>),
    /// Values by name, in the order of the names.
    Sorted(&'p BTreeMap<Vec<u8>, Value>),
    /// Values by name, in pairs. If several pairs have one name, the first counts.
    Pairs(&'p NamedPairs<'p>),
    /// Values by name, in the order of the names. Names and values are borrowed.
    SortedPairs(&'p BTreeMap<&'v [u8], ValueRef<'v>>),
    /// Values by position.
    Positional(&'p [Value]),
    /// Borrowed values by position.
    Values(&'p [ValueRef<'p>]),
}

impl Params {
    /// The same parameters, borrowed.
    pub fn borrowed(&self) -> BorrowedParams<'_, '_>
        ensures { given_by_borrowed result ≡ given self.now }
    {
        match self {
            Params::Empty => BorrowedParams::Empty,
            Params::Named(entries) => BorrowedParams::Named(entries),
            Params::Positional(values) => BorrowedParams::Positional(values.as_slice()),
        }
    }
}

/// The values for the names of a query, like [`Params::into_values`], but borrowed from the
/// parameters. No value is copied, and no name except one that is missing. An empty list means a
/// query without names.
///
/// `Missing` and `Confusion` come as in [`Params::into_values`]. For a list with names, `Memory`
/// comes only if the parameters are not by position. For an empty list, it comes only if there are
/// values by position. The crates above bind with this; no user needs it.
pub fn place_values<'p>(
    alloc: Global,
    params: BorrowedParams<'p, '_>,
    names: &[&[u8]],
) -> Result<Vec<ValueRef<'p>>, ParamsError>
    ensures values { IsAnswer (λ values. owned_values values.items) lookup_refusal
        (lookup (given_by_borrowed params.entry) (referents names.now)) ⊤ result }
    ensures memory { IsErrOf result (ParamsError.Memory alloc_error) →
        PlaceValuesTakeMemory (given_by_borrowed params.entry) (referents names.now) }
{
    match params {
        BorrowedParams::Empty => match names.first() {
            None => Ok(Vec::new(alloc)),
            Some(name) => Err(missing_params_error(alloc, name)),
        },
        BorrowedParams::Positional(values) => {
            if names.is_empty() {
                borrowed_values(alloc, values).map_err(ParamsError::Memory)
            } else {
                Err(ParamsError::Confusion(ParamsConfusionError::PositionalParamsForNamedQuery))
            }
        }
        BorrowedParams::Values(values) => {
            if names.is_empty() {
                copied_values(alloc, values).map_err(ParamsError::Memory)
            } else {
                Err(ParamsError::Confusion(ParamsConfusionError::PositionalParamsForNamedQuery))
            }
        }
        BorrowedParams::Named(entries) => named_place_values(alloc, entries, names),
        BorrowedParams::Pairs(pairs) => {
            if pairs.are_few() {
                named_place_values(alloc, pairs, names)
            } else {
                sorted_place_values(alloc, pairs.0, names)
            }
        }
        BorrowedParams::Sorted(entries) => named_place_values(alloc, entries, names),
        BorrowedParams::SortedPairs(entries) => named_place_values(alloc, entries, names),
    }
}

// The borrowed values, in order.
fn borrowed_values<'v>(alloc: Global, values: &'v [Value]) -> Result<Vec<ValueRef<'v>>, AllocError>
    ensures values { IfOk result (λ refs. owned_values refs.items ≡ values.now) }
    ensures memory { OnErr result (0 < length values.now) }
{
    let mut refs = Vec::with_capacity(alloc, values.len())?;
    for value in values {
        refs.push(value.borrowed())?;
    }
    Ok(refs)
}

// A copy of the list. The values in it stay borrowed.
fn copied_values<'v>(
    alloc: Global,
    values: &[ValueRef<'v>],
) -> Result<Vec<ValueRef<'v>>, AllocError>
    ensures values { IfOk result (λ refs. owned_values refs.items ≡ owned_values values.now) }
    ensures memory { OnErr result (0 < length values.now) }
{
    if values.is_empty() {
        return Ok(Vec::new(alloc));
    }
    Vec::from_slice(alloc, values)
}

// The values that named parameters give to a list of names. Each name is looked up once.
fn named_place_values<'p, M: NamedValues>(
    alloc: Global,
    entries: &'p M,
    names: &[&[u8]],
) -> Result<Vec<ValueRef<'p>>, ParamsError>
    ensures values { IsAnswer (λ values. owned_values values.items) lookup_refusal
        (lookup (named (M.values entries.now)) (referents names.now)) ⊤ result }
    ensures memory { IsErrOf result (ParamsError.Memory alloc_error) → 0 < length names.now }
{
    if names.is_empty() {
        return Err(ParamsError::Confusion(ParamsConfusionError::NamedParamsForPositionalQuery));
    }
    let mut values = Vec::with_capacity(alloc, names.len())?;
    for (i, name) in names.iter().enumerate() {
        match entries.value_of(*name) {
            Some(value) => values.push(value)?,
            None => return Err(missing_params_error(alloc, reported_name(entries, names, i))),
        }
    }
    Ok(values)
}
