//! The values of the names of a query.
ghost use Rattle.std.specs.Prelude.{◌≡◌, ◌⊎◌, ◌<◌, true, length, map, None, Some, IfOk, OnErr, IsErrOf, alloc_error, ⊤};
ghost use Rattle.std.specs.List.{list_all, list_any};
ghost use Rattle.std.specs.FinMap.{contains_key};
ghost use Rattle.mysql_wire_part.specs.Answer.{IsAnswer};
ghost use Rattle.mysql_params_core.specs.Errors.{lookup_refusal, absent_name};
ghost use Rattle.mysql_params_core.specs.FirstAbsent.{IsFirstAbsent};
ghost use Rattle.mysql_params_core.specs.Given.{given, value_map, named};
ghost use Rattle.mysql_params_core.specs.Lookup.{lookup, missing, positional_of, values_at, LookupTakesMemory, PositionTakesMemory};
ghost use Rattle.mysql_params_core.specs.Names.{names_of, listed_names, missing_name};

use crate::params::entries::{NamedValues, has_name};
use crate::params::{
    IntoPositionalError, MissingNamedParameterError, Params, ParamsConfusionError, ParamsError,
    ToName,
};
use mysql_values::value::Value;
use std::alloc::{AllocError, Global};
use std::collections::HashMap;

impl Params {
    /// Returns the values for the names of a query, in their order. A name that is repeated gives
    /// its value each time. Names in the map that aren't listed are ignored. `None` and an empty
    /// list both mean a query without names, which takes positional parameters as they are.
    ///
    /// `Missing` holds a name without a value:
    /// - For `Empty` it is the first name of the list.
    /// - For `Named` it depends on the listed names that are in the map. If they are exactly a
    ///   prefix of the list, which may be empty, it is the last name of the list. Otherwise it is
    ///   the first name that isn't in the map.
    ///
    /// `Confusion` comes for positional parameters and a list with names. It also comes for named
    /// parameters, even of an empty map, and a query without names. `Memory` comes only for `Named`
    /// or `Empty` and a list with names. The parameters are consumed, even if the call is refused.
    pub fn into_values(
        self,
        alloc: Global,
        named_params: Option<&[Vec<u8>]>,
    ) -> Result<Vec<Value>, ParamsError>
        ensures values { IsAnswer (λ values. values.items) lookup_refusal
            (lookup (given self) (listed_names named_params.entry)) ⊤ result }
        ensures memory { IsErrOf result (ParamsError.Memory alloc_error) →
            LookupTakesMemory (given self) (listed_names named_params.entry) }
    {
        let names = named_params.unwrap_or(&[]);
        match self {
            Params::Empty => match names.first() {
                None => Ok(Vec::new(alloc)),
                Some(name) => Err(missing_params_error(alloc, name.as_slice())),
            },
            Params::Positional(values) => {
                if names.is_empty() {
                    Ok(values)
                } else {
                    Err(ParamsError::Confusion(ParamsConfusionError::PositionalParamsForNamedQuery))
                }
            }
            Params::Named(entries) => {
                if names.is_empty() {
                    Err(ParamsError::Confusion(ParamsConfusionError::NamedParamsForPositionalQuery))
                } else {
                    named_values(alloc, entries, names)
                }
            }
        }
    }

    /// Returns the same parameters by position. Named parameters give the values for the names, in
    /// their order, or are refused with the first name that has no value. Other parameters are
    /// returned unchanged. `Memory` comes only for named parameters and a list with names. The
    /// parameters are consumed, even if the call is refused.
    pub fn into_positional(
        self,
        alloc: Global,
        named_params: &[Vec<u8>],
    ) -> Result<Params, IntoPositionalError>
        ensures positional { IsAnswer given absent_name
            (positional_of (given self) (names_of named_params.now)) ⊤ result }
        ensures memory { IsErrOf result (IntoPositionalError.Memory alloc_error) →
            PositionTakesMemory (given self) (names_of named_params.now) }
    {
        match self {
            Params::Named(entries) => named_positional(alloc, entries, named_params),
            params => Ok(params),
        }
    }
}

// The values that named parameters give to a list with names.
fn named_values(
    alloc: Global,
    entries: HashMap<Vec<u8>, Value>,
    names: &[Vec<u8>],
) -> Result<Vec<Value>, ParamsError>
    requires { 0 < length names.now }
    ensures { IsAnswer (λ values. values.items) lookup_refusal
        (lookup (named (value_map entries.entries)) (names_of names.now)) ⊤ result }
{
    match first_absent(&entries, names) {
        None => take_values(alloc, entries, names).map_err(ParamsError::Memory),
        Some(first) => Err(missing_params_error(alloc, reported_name(&entries, names, first))),
    }
}

// The named parameters by position.
fn named_positional(
    alloc: Global,
    entries: HashMap<Vec<u8>, Value>,
    names: &[Vec<u8>],
) -> Result<Params, IntoPositionalError>
    ensures positional { IsAnswer given absent_name
        (positional_of (named (value_map entries.entries)) (names_of names.now)) ⊤ result }
    ensures memory { IsErrOf result (IntoPositionalError.Memory alloc_error) →
        0 < length names.now }
{
    match first_absent(&entries, names) {
        None => {
            let values = take_values(alloc, entries, names)?;
            Ok(Params::Positional(values))
        }
        Some(first) => {
            let error = missing_error(alloc, names[first].as_slice())?;
            Err(IntoPositionalError::Missing(error))
        }
    }
}

// The index of the first name that isn't in the map.
fn first_absent(entries: &HashMap<Vec<u8>, Value>, names: &[Vec<u8>]) -> Option<usize>
    ensures { IsFirstAbsent (value_map entries.now.entries) (names_of names.now) result }
{
    for (i, name) in names.iter().enumerate() {
        if !has_name(entries, name.as_slice()) {
            return Some(i);
        }
    }
    None
}

// The name that is reported as missing. `first` is the index of the first name that isn't in the
// map.
pub(crate) fn reported_name<'n, M: NamedValues, N: ToName>(
    entries: &M,
    names: &'n [N],
    first: usize,
) -> &'n [u8]
    requires { IsFirstAbsent (M.values entries.now) (map N.name names.now) (Some first) }
    ensures { result.now ≡ missing_name (M.values entries.now) (map N.name names.now) }
{
    if has_any(entries, &names[first + 1..]) {
        names[first].name_bytes()
    } else {
        names[names.len() - 1].name_bytes()
    }
}

// Whether any of the names is in the map.
fn has_any<M: NamedValues, N: ToName>(entries: &M, names: &[N]) -> bool
    ensures { result
        ≡ list_any (λ name. contains_key (M.values entries.now) (N.name name)) names.now }
{
    names
        .iter()
        .any(|name| has_name(entries, name.name_bytes()))
}

// The values of the names, all of which are in the map. For the first occurrence of a name in the
// list, its value is moved out of the map with the key. For each later occurrence, the value is
// copied. `indices` holds the keys that were moved out, each with the index of its value. So no
// name is copied and no list is searched.
fn take_values(
    alloc: Global,
    entries: HashMap<Vec<u8>, Value>,
    names: &[Vec<u8>],
) -> Result<Vec<Value>, AllocError>
    requires { list_all (contains_key (value_map entries.entries)) (names_of names.now) ≡ true }
    ensures values { IfOk result (λ values.
        values_at (value_map entries.entries) (names_of names.now) ≡ Some values.items) }
    ensures memory { OnErr result (0 < length names.now) }
{
    let mut left = entries;
    let mut indices: HashMap<Vec<u8>, usize> = HashMap::new(alloc);
    let mut values = Vec::new(alloc);
    for name in names {
        if let Some((key, value)) = left.remove_entry(name) {
            indices.insert(key, values.len())?;
            values.push(value)?;
        } else if let Some(index) = indices.get(name) {
            let value = values[*index].clone()?;
            values.push(value)?;
        } else {
            unreachable!();
        }
    }
    Ok(values)
}

// The error of a lookup for a missing name, or out of memory.
pub(crate) fn missing_params_error(alloc: Global, name: &[u8]) -> ParamsError
    ensures { (lookup_refusal result ≡ None) ⊎ (lookup_refusal result ≡ Some (missing name.now)) }
{
    match missing_error(alloc, name) {
        Ok(error) => ParamsError::Missing(error),
        Err(error) => ParamsError::Memory(error),
    }
}

// The error for a missing name.
fn missing_error(alloc: Global, name: &[u8]) -> Result<MissingNamedParameterError, AllocError>
    ensures { IfOk result (λ error. error.0.items ≡ name.now) }
{
    let name = Vec::from_slice(alloc, name)?;
    Ok(MissingNamedParameterError(name))
}
