//! The fragments of a form for the places of a query.
ghost use Rattle.std.specs.Prelude.{◌≡◌, List, None, Ok, IfErr, IfOk, IsErrOf, length, true};
ghost use Rattle.mysql_named_params.specs.Places.{HasMark, HasName, names};
ghost use Rattle.mysql_binding.specs.SurveyedQuery.{OnSurveyed};
ghost use Rattle.mysql_fragments.specs.BorrowedFragments.{AreSaid};
ghost use Rattle.mysql_fragments.specs.FragmentErrors.{IsCauseOrMemory, IsMissingOrMemory, IsPlaceRefusal, first_cause, mixed_cause};
ghost use Rattle.mysql_fragments.specs.GivenFragments.{FragmentMap, GivenFragments, fragments_at, fragments_for};
ghost use Rattle.mysql_fragments.specs.declared.fragment.Fragment as said_fragment;
ghost use Rattle.mysql_flat_params.specs.FormInPlace.{AreKeptAs, IsEarly, IsGivenAs, IsMapKeptAs};

use crate::fragment_in_place::FragmentInPlace;
use crate::fragments_in_place::FormInPlace;
use mysql_binding::{SurveyedQuery, place_after};
use mysql_fragments::{FragmentRef, FragmentsError};
use mysql_params_core::params::{MissingNamedParameterError, ParamsConfusionError};
use std::alloc::{AllocError, Global};
use std::collections::BTreeMap;

/// The fragments of a form for the places of a query, borrowed.
pub(crate) fn placed_fragments<'p>(
    alloc: Global,
    surveyed: &SurveyedQuery<'_>,
    kept: &'p FormInPlace<'_>,
) -> Result<Vec<FragmentRef<'p>>, FragmentsError>
    ensures placed { (given : GivenFragments) → IsGivenAs kept.now given →
        OnSurveyed surveyed.now (λ ts. IfOk result (λ list.
        (mixed_cause ts ≡ None) × (said : List said_fragment.Fragment)
        × (fragments_for given (names ts) ≡ Ok said) × AreSaid list.items said)) }
    ensures refused { (given : GivenFragments) → IsGivenAs kept.now given →
        OnSurveyed surveyed.now (λ ts. IfErr result
        (IsCauseOrMemory (first_cause true ts given))) }
    ensures early { IfErr result IsEarly }
    ensures mixed { OnSurveyed surveyed.now (λ ts. HasName ts × HasMark ts →
        IsErrOf result FragmentsError.Mixed) }
{
    let survey = surveyed.survey();
    if survey.names > 0 && survey.marks > 0 {
        return Err(FragmentsError::Mixed);
    }
    match kept {
        FormInPlace::Positional(list) => {
            if survey.names > 0 {
                return Err(FragmentsError::Confusion(
                    ParamsConfusionError::PositionalParamsForNamedQuery,
                ));
            }
            Ok(lent_fragments(alloc, list.as_slice())?)
        }
        FormInPlace::Named(entries) => {
            if survey.names == 0 {
                return Err(FragmentsError::Confusion(
                    ParamsConfusionError::NamedParamsForPositionalQuery,
                ));
            }
            named_fragments(alloc, surveyed, entries)
        }
    }
}

// The fragments, borrowed, in order.
fn lent_fragments<'p>(
    alloc: Global,
    kept: &'p [FragmentInPlace<'_>],
) -> Result<Vec<FragmentRef<'p>>, AllocError>
    ensures { IfOk result (λ list. (said : List said_fragment.Fragment) →
        AreKeptAs kept.now said → AreSaid list.items said) }
{
    let mut list = Vec::with_capacity(alloc, kept.len())?;
    for fragment in kept {
        list.push(fragment.lent())?;
    }
    Ok(list)
}

// The fragments of the names of a query without both names and marks.
fn named_fragments<'p>(
    alloc: Global,
    surveyed: &SurveyedQuery<'_>,
    entries: &'p BTreeMap<&[u8], FragmentInPlace<'_>>,
) -> Result<Vec<FragmentRef<'p>>, FragmentsError>
    requires unmixed { OnSurveyed surveyed.now (λ ts. mixed_cause ts ≡ None) }
    ensures placed { (fragments : FragmentMap) → IsMapKeptAs entries.now.entries fragments →
        OnSurveyed surveyed.now (λ ts. IfOk result (λ list.
        (said : List said_fragment.Fragment)
        × (fragments_at fragments (names ts) ≡ Ok said) × AreSaid list.items said)) }
    ensures refused { (fragments : FragmentMap) → IsMapKeptAs entries.now.entries fragments →
        OnSurveyed surveyed.now (λ ts. IfErr result
        (IsPlaceRefusal (fragments_at fragments (names ts)))) }
    ensures early { IfErr result IsEarly }
{
    let count = surveyed.survey.names;
    let mut list = Vec::with_capacity(alloc, count)?;
    let mut rest = surveyed.query;
    while list.len() < count {
        let Some(found) = place_after(surveyed.known, list.len(), rest, surveyed.reading) else {
            unreachable!()
        };
        let (_, place, after) = found.cut(rest);
        let name = &place[1..];
        match BTreeMap::get(entries, name) {
            Some(fragment) => list.push(fragment.lent()).map_err(AllocError::from)?,
            None => return Err(missing_error(alloc, name)),
        }
        rest = after;
    }
    Ok(list)
}

// The error of a name without a fragment, or out of memory.
fn missing_error(alloc: Global, name: &[u8]) -> FragmentsError
    ensures { IsMissingOrMemory name.now result }
{
    match Vec::from_slice(alloc, name) {
        Ok(name) => FragmentsError::Missing(MissingNamedParameterError(name)),
        Err(error) => FragmentsError::Memory(error),
    }
}
