//! The fragments for the places of a query.
ghost use Rattle.std.specs.Prelude.{◌≡◌, None, Ok, IfErr, IfOk};
ghost use Rattle.mysql_named_params.specs.Places.{names};
ghost use Rattle.mysql_params_core.specs.Referents.{referents};
ghost use Rattle.mysql_binding.specs.FirstCause.{mixed_cause};
ghost use Rattle.mysql_binding.specs.SurveyedQuery.{OnSurveyed};
ghost use Rattle.mysql_fragments.specs.FragmentErrors.{IsMissingOrMemory, IsPlaceRefusal};
ghost use Rattle.mysql_fragments.specs.GivenFragments.{fragment_map, fragments_at, fragments_for, given_fragments};

use crate::fragment::{Fragment, Fragments};
use crate::fragments_error::FragmentsError;
use mysql_binding::{SurveyedQuery, query_names};
use mysql_params_core::params::{MissingNamedParameterError, ParamsConfusionError};
use std::alloc::{AllocError, Global};
use std::collections::HashMap;

/// References to the fragments for the places of a query without both names and marks.
pub(crate) fn fragments_of_places<'f>(
    alloc: Global,
    surveyed: &SurveyedQuery<'_>,
    fragments: &'f Fragments,
) -> Result<Vec<&'f Fragment>, FragmentsError>
    requires unmixed { OnSurveyed surveyed.now (λ ts. mixed_cause ts ≡ None) }
    ensures fragments { IfOk result (λ list. OnSurveyed surveyed.now (λ ts.
        fragments_for (given_fragments fragments.now) (names ts) ≡ Ok (referents list.items))) }
    ensures refused { IfErr result (λ error. OnSurveyed surveyed.now (λ ts.
        IsPlaceRefusal (fragments_for (given_fragments fragments.now) (names ts)) error)) }
{
    let name_count = surveyed.survey.names;
    match fragments {
        Fragments::Positional(list) => {
            if name_count == 0 {
                let list = references(alloc, list.as_slice())?;
                Ok(list)
            } else {
                Err(FragmentsError::Confusion(ParamsConfusionError::PositionalParamsForNamedQuery))
            }
        }
        Fragments::Named(entries) => {
            if name_count == 0 {
                Err(FragmentsError::Confusion(ParamsConfusionError::NamedParamsForPositionalQuery))
            } else {
                fragments_of_names(alloc, surveyed, entries)
            }
        }
    }
}

// References to the fragments, in order.
fn references<'f>(alloc: Global, fragments: &'f [Fragment]) -> Result<Vec<&'f Fragment>, AllocError>
    ensures { IfOk result (λ list. referents list.items ≡ fragments.now) }
{
    let mut list = Vec::with_capacity(alloc, fragments.len())?;
    for fragment in fragments {
        list.push(fragment)?;
    }
    Ok(list)
}

// References to the fragments of the names of a query without both names and marks.
fn fragments_of_names<'f>(
    alloc: Global,
    surveyed: &SurveyedQuery<'_>,
    entries: &'f HashMap<Vec<u8>, Fragment>,
) -> Result<Vec<&'f Fragment>, FragmentsError>
    requires unmixed { OnSurveyed surveyed.now (λ ts. mixed_cause ts ≡ None) }
    ensures fragments { IfOk result (λ list. OnSurveyed surveyed.now (λ ts.
        fragments_at (fragment_map entries.now.entries) (names ts) ≡ Ok (referents list.items))) }
    ensures refused { IfErr result (λ error. OnSurveyed surveyed.now (λ ts.
        IsPlaceRefusal (fragments_at (fragment_map entries.now.entries) (names ts)) error)) }
{
    let names = query_names(alloc, surveyed)?;
    listed_fragments(alloc, names.as_slice(), entries)
}

// References to the fragments of names, in order.
fn listed_fragments<'f>(
    alloc: Global,
    names: &[&[u8]],
    entries: &'f HashMap<Vec<u8>, Fragment>,
) -> Result<Vec<&'f Fragment>, FragmentsError>
    ensures fragments { IfOk result (λ list.
        fragments_at (fragment_map entries.now.entries) (referents names.now)
        ≡ Ok (referents list.items)) }
    ensures refused { IfErr result (IsPlaceRefusal
        (fragments_at (fragment_map entries.now.entries) (referents names.now))) }
{
    let mut list = Vec::with_capacity(alloc, names.len())?;
    for name in names {
        match entries.get(*name) {
            Some(fragment) => list.push(fragment).map_err(AllocError::from)?,
            None => return Err(missing_error(alloc, *name)),
        }
    }
    Ok(list)
}

// The error of a name without a fragment, or out of memory.
fn missing_error(alloc: Global, name: &[u8]) -> FragmentsError
    ensures { IsMissingOrMemory name.now result }
{
    match Vec::from_slice(alloc, name) {
        Ok(name) => FragmentsError::Missing(MissingNamedParameterError(name)),
        Err(error) => FragmentsError::Memory(error),
    }
}
