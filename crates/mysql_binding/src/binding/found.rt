//! Finds the places of a query that aren't known yet, and the values of its names.
ghost use Rattle.std.specs.Prelude.{◌≡◌, ◌≢◌, ◌+◌, ◌<◌, ◌≤◌, None, IfOk, IfSome, OnErr, drop, length, Ok};
ghost use Rattle.mysql_named_params.specs.FirstPlace.{IsFirstPlace};
ghost use Rattle.mysql_named_params.specs.Places.{place_count, names};
ghost use Rattle.mysql_named_params.specs.Reading.{OnTokensIn};
ghost use Rattle.mysql_binding.specs.FoundPlaces.{BeginWithPlaces, found_places};
ghost use Rattle.mysql_binding.specs.SurveyedQuery.{OnSurveyed};
ghost use Rattle.mysql_binding.specs.FirstCause.{mixed_cause};
ghost use Rattle.mysql_params_core.specs.Given.{named};
ghost use Rattle.mysql_params_core.specs.GivenBorrowed.{given_by_borrowed};
ghost use Rattle.mysql_params_core.specs.Lookup.{lookup};
ghost use Rattle.mysql_binding.specs.PlaceValues.{placed_values};

use crate::binding::kept_values::KeptValues;
use crate::binding::place_values::PlaceValues;
use crate::binding::survey::SurveyedQuery;
use mysql_named_params::places::{FoundPlace, Reading, first_place_in, first_place_inlined};
use mysql_params_core::params::BorrowedParams;
use std::alloc::{AllocError, Global};

/// The first place in `rest`, which is the rest of a query after its first `i` places. It is taken
/// from `known`, or found now if it isn't there. For the crate above.
pub fn place_after(
    known: &[FoundPlace],
    i: usize,
    rest: &[u8],
    reading: Reading,
) -> Option<FoundPlace>
    requires { OnTokensIn reading rest.now (BeginWithPlaces (drop i known.now)) }
    ensures place { OnTokensIn reading rest.now (λ ts. IfSome result (IsFirstPlace ts)) }
    ensures none { OnTokensIn reading rest.now (λ ts.
        result ≡ None → place_count ts ≡ 0) }
    ensures in_range { IfSome result (λ found.
        (0 < found.len) × (found.before + found.len ≤ length rest.now)) }
    ensures next { IfSome result (λ found.
        OnTokensIn reading (drop (found.before + found.len) rest.now)
        (BeginWithPlaces (drop (i + 1) known.now))) }
{
    if i < known.len() {
        return Some(known[i]);
    }
    match first_place_in(rest, reading) {
        Some(found) => Some(found),
        None => None,
    }
}

// The same for a loop that finds most places of a query: the walk is inlined.
#[inline(always)]
fn place_after_inlined(
    known: &[FoundPlace],
    i: usize,
    rest: &[u8],
    reading: Reading,
) -> Option<FoundPlace>
    requires { OnTokensIn reading rest.now (BeginWithPlaces (drop i known.now)) }
    ensures place { OnTokensIn reading rest.now (λ ts. IfSome result (IsFirstPlace ts)) }
    ensures none { OnTokensIn reading rest.now (λ ts.
        result ≡ None → place_count ts ≡ 0) }
    ensures in_range { IfSome result (λ found.
        (0 < found.len) × (found.before + found.len ≤ length rest.now)) }
    ensures next { IfSome result (λ found.
        OnTokensIn reading (drop (found.before + found.len) rest.now)
        (BeginWithPlaces (drop (i + 1) known.now))) }
{
    if i < known.len() {
        let found = known[i];
        return Some(found);
    }
    match first_place_inlined(rest, reading) {
        Some(found) => Some(found),
        None => None,
    }
}

/// All places of a query. For the crate above.
pub fn all_places(
    alloc: Global,
    surveyed: &SurveyedQuery<'_>,
) -> Result<Vec<FoundPlace>, AllocError>
    ensures places { IfOk result (λ places. OnSurveyed surveyed.now (λ ts.
        places.items ≡ found_places ts)) }
    ensures memory { OnErr result (surveyed.now.survey.names + surveyed.now.survey.marks ≢ 0) }
{
    // Each kind of names has a loop of its own. In it `wide_names` is known, since the copy is a
    // local value.
    let query = *surveyed;
    if query.reading.wide_names {
        return all_places_of(alloc, &query);
    }
    all_places_of(alloc, &query)
}

// The same. It is inlined, so that no loop tests `wide_names` for each place.
#[inline(always)]
fn all_places_of(alloc: Global, surveyed: &SurveyedQuery<'_>) -> Result<Vec<FoundPlace>, AllocError>
    ensures places { IfOk result (λ places. OnSurveyed surveyed.now (λ ts.
        places.items ≡ found_places ts)) }
    ensures memory { OnErr result (surveyed.now.survey.names + surveyed.now.survey.marks ≢ 0) }
{
    let count = surveyed.survey.names + surveyed.survey.marks;
    let mut places = Vec::with_capacity(alloc, count)?;
    let mut rest = surveyed.query;
    while places.len() < count {
        let Some(found) = place_after_inlined(surveyed.known, places.len(), rest, surveyed.reading)
        else {
            unreachable!()
        };
        let (_, _, after) = found.cut(rest);
        places.push(found)?;
        rest = after;
    }
    Ok(places)
}

/// The values of a query's names, if each is found without memory. The query has at least one name
/// and no marks. No list of the names is made.
pub(super) fn found_values<'p>(
    alloc: Global,
    surveyed: &SurveyedQuery<'_>,
    params: BorrowedParams<'p, '_>,
) -> Result<Option<PlaceValues<'p>>, AllocError>
    requires unmixed { OnSurveyed surveyed.now (λ ts. mixed_cause ts ≡ None) }
    requires some { 0 < surveyed.now.survey.names }
    ensures { IfOk result (λ found. IfSome found (λ values. OnSurveyed surveyed.now (λ ts.
        lookup (given_by_borrowed params.entry) (names ts) ≡ Ok (placed_values values)))) }
{
    match params {
        BorrowedParams::Named(entries) => values_in(alloc, surveyed, entries),
        BorrowedParams::Sorted(entries) => values_in(alloc, surveyed, entries),
        BorrowedParams::SortedPairs(entries) => values_in(alloc, surveyed, entries),
        BorrowedParams::Pairs(pairs) => {
            if pairs.are_few() {
                values_in(alloc, surveyed, pairs)
            } else {
                Ok(None)
            }
        }
        _ => Ok(None),
    }
}

// The same for one kind of parameters. Each kind has a loop of its own, so the kind is chosen once
// and not for each name.
fn values_in<'p, M: KeptValues<'p>>(
    alloc: Global,
    surveyed: &SurveyedQuery<'_>,
    entries: &'p M,
) -> Result<Option<PlaceValues<'p>>, AllocError>
    requires unmixed { OnSurveyed surveyed.now (λ ts. mixed_cause ts ≡ None) }
    requires some { 0 < surveyed.now.survey.names }
    ensures { IfOk result (λ found. IfSome found (λ values. OnSurveyed surveyed.now (λ ts.
        lookup (named (M.values entries.now)) (names ts) ≡ Ok (placed_values values)))) }
{
    let count = surveyed.survey.names;
    let mut kept = Vec::with_capacity(alloc, count)?;
    let mut rest = surveyed.query;
    while kept.len() < count {
        let Some(found) = place_after(surveyed.known, kept.len(), rest, surveyed.reading) else {
            unreachable!()
        };
        let (_, place, after) = found.cut(rest);
        let Some(value) = entries.find(&place[1..]) else {
            return Ok(None);
        };
        kept.push(value)?;
        rest = after;
    }
    Ok(Some(entries.placed(kept)))
}
