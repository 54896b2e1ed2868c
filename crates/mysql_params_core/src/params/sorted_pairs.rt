//! Borrowed pairs in a sorted map, for many pairs, in which walks would be slow.
ghost use Rattle.std.specs.Prelude.{◌≡◌, ◌<◌, Ok, IfOk, IsErrOf, MatchOption, alloc_error, length, map, option_map, ⊤};
ghost use Rattle.std.specs.FinMap.{get};
ghost use Rattle.mysql_wire_part.specs.Answer.{IsAnswer};
ghost use Rattle.mysql_values.specs.BorrowedValue.{owned, owned_values};
ghost use Rattle.mysql_params_core.specs.Errors.{lookup_refusal};
ghost use Rattle.mysql_params_core.specs.Given.{named};
ghost use Rattle.mysql_params_core.specs.GivenBorrowed.{pair_map};
ghost use Rattle.mysql_params_core.specs.Lookup.{lookup};
ghost use Rattle.mysql_params_core.specs.Made.{pairs_made, seen_pair, IsFirstRedefined};
ghost use Rattle.mysql_params_core.specs.Referents.{referents};

use crate::params::entries::NamedValues;
use crate::params::lookup::{missing_params_error, reported_name};
use crate::params::{ParamsConfusionError, ParamsError};
use mysql_values::value::ValueRef;
use std::alloc::{AllocError, Global};
use std::collections::BTreeMap;

impl<'p> NamedValues for BTreeMap<&'p [u8], ValueRef<'p>> {
    ghost values = { λ entries. pair_map entries.entries };

    fn value_of(&self, name: &[u8]) -> Option<ValueRef<'_>> {
        sorted_value(self, name)
    }
}

// The borrowed value of a name. It outlives the map.
fn sorted_value<'p>(entries: &BTreeMap<&'p [u8], ValueRef<'p>>, name: &[u8]) -> Option<ValueRef<'p>>
    ensures { option_map owned result ≡ get (pair_map entries.now.entries) name.now }
{
    match BTreeMap::get(entries, name) {
        Some(value) => Some(*value),
        None => None,
    }
}

/// The index of the first pair that has the name of an earlier pair. Each pair is inserted into a
/// sorted map of the pairs before it.
pub(super) fn first_redefined_sorted<'p>(
    alloc: Global,
    pairs: &[(&'p [u8], ValueRef<'p>)],
) -> Result<Option<usize>, AllocError>
    ensures { IfOk result (λ found. MatchOption found
        (pairs_made (map seen_pair pairs.now) ≡ Ok (named (pair_map pairs.now)))
        (IsFirstRedefined pairs.now)) }
{
    let mut entries: BTreeMap<&'p [u8], ValueRef<'p>> = BTreeMap::new(alloc);
    for (i, pair) in pairs.iter().enumerate() {
        if entries.insert(pair.0, pair.1)?.is_some() {
            return Ok(Some(i));
        }
    }
    Ok(None)
}

// The pairs in a sorted map. If several pairs have one name, it has the first, since the pairs are
// inserted from last to first.
fn sorted_pairs<'p>(
    alloc: Global,
    pairs: &[(&'p [u8], ValueRef<'p>)],
) -> Result<BTreeMap<&'p [u8], ValueRef<'p>>, AllocError>
    ensures { IfOk result (λ entries. pair_map entries.entries ≡ pair_map pairs.now) }
{
    let mut entries: BTreeMap<&'p [u8], ValueRef<'p>> = BTreeMap::new(alloc);
    let mut i = pairs.len();
    while i > 0 {
        i -= 1;
        entries.insert(pairs[i].0, pairs[i].1)?;
    }
    Ok(entries)
}

/// The values that pairs give to a list of names. Each name is looked up in a sorted map of the
/// pairs.
pub(super) fn sorted_place_values<'p>(
    alloc: Global,
    pairs: &[(&'p [u8], ValueRef<'p>)],
    names: &[&[u8]],
) -> Result<Vec<ValueRef<'p>>, ParamsError>
    ensures values { IsAnswer (λ values. owned_values values.items) lookup_refusal
        (lookup (named (pair_map pairs.now)) (referents names.now)) ⊤ result }
    ensures memory { IsErrOf result (ParamsError.Memory alloc_error) → 0 < length names.now }
{
    if names.is_empty() {
        return Err(ParamsError::Confusion(ParamsConfusionError::NamedParamsForPositionalQuery));
    }
    let entries = sorted_pairs(alloc, pairs)?;
    let mut values = Vec::with_capacity(alloc, names.len())?;
    for (i, name) in names.iter().enumerate() {
        match sorted_value(&entries, *name) {
            Some(value) => values.push(value)?,
            None => return Err(missing_params_error(alloc, reported_name(&entries, names, i))),
        }
    }
    Ok(values)
}
