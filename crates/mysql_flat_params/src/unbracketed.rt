//! The first place of a query that may not have its implicit list or implicit rows.
ghost use Rattle.std.specs.Prelude.{◌≡◌, List, None, IfOk, IfSome, Option, map, option_map, Some, true};
ghost use Rattle.mysql_named_params.specs.NamesAndMarks.{names};
ghost use Rattle.mysql_named_params.specs.Tokens.{Token};
ghost use Rattle.mysql_binding.specs.Survey.{IsSurvey};
ghost use Rattle.mysql_binding.specs.SurveyedQuery.{OnSurveyed};
ghost use Rattle.mysql_fragments.specs.BorrowedFragments.{AreSaid};
ghost use Rattle.mysql_fragments.specs.FragmentErrors.{Cause, cause_of, later_cause, mixed_cause};
ghost use Rattle.mysql_fragments.specs.GivenFragments.{GivenFragments};
ghost use Rattle.mysql_fragments.specs.declared.fragment.Fragment as said_fragment;
ghost use Rattle.mysql_flat_params.specs.FormCauses.{IsFormCauseOrMemory, first_form_cause, form_cause_of, unbracketed_place, with_brackets};
ghost use Rattle.mysql_flat_params.specs.FormInPlace.{AreGivenTo};
ghost use Rattle.mysql_flat_params.specs.FormKinds.{FormKinds};
ghost use Rattle.mysql_flat_params.specs.KindsInPlace.{AreKeptKinds, kind_under};

use crate::form_refusal::KeptError;
use crate::kinds_in_place::KindsInPlace;
use mysql_binding::{SurveyedQuery, place_after};
use mysql_fragments::brackets::{Implicit, first_unbracketed};
use mysql_fragments::{FragmentRef, FragmentsError, placed_error};
use std::alloc::{AllocError, Global};
use std::collections::BTreeMap;

/// The first cause that refuses the fragments of a form once they are in the order of the places,
/// or out of memory. The causes are those of [`placed_error`]. A place that may not have its
/// implicit list or rows comes after the number of marks and a place that doesn't stand alone.
pub(crate) fn form_error(
    alloc: Global,
    surveyed: &SurveyedQuery<'_>,
    kinds: &KindsInPlace<'_>,
    placed: &[FragmentRef<'_>],
) -> Option<KeptError>
    requires { OnSurveyed surveyed.now (λ ts. mixed_cause ts ≡ None) }
    ensures refused { (given : GivenFragments) (known : FormKinds) → AreKeptKinds kinds.now known →
        OnSurveyed surveyed.now (AreGivenTo given placed.now) → OnSurveyed surveyed.now (λ ts.
        IfSome result (IsFormCauseOrMemory (first_form_cause known ts given))) }
    ensures none { result ≡ None → (given : GivenFragments) (known : FormKinds) →
        AreKeptKinds kinds.now known → OnSurveyed surveyed.now (AreGivenTo given placed.now) →
        OnSurveyed surveyed.now (λ ts. first_form_cause known ts given ≡ None) }
    ensures later { result ≡ None → (ts : List Token) (said : List said_fragment.Fragment) →
        AreSaid placed.now said → IsSurvey surveyed.now.survey ts →
        later_cause true ts said ≡ None }
{
    let error = placed_error(surveyed.survey, placed);
    match place_in_doubt(alloc, surveyed, kinds) {
        Ok(found) => first_error(found, error),
        Err(error) => Some(KeptError::Fragments(FragmentsError::Memory(error))),
    }
}

// The first of a place that may not have its list or rows, if one is found, and of the first cause
// of fragments, if there is one.
fn first_error(found: Option<(usize, usize)>, error: Option<FragmentsError>) -> Option<KeptError>
    ensures cause { (cause : Option Cause) → option_map cause_of error ≡ option_map Some cause →
        option_map form_cause_of result ≡ option_map Some (with_brackets found cause) }
    ensures none { result ≡ None → error ≡ None }
{
    let Some((place, position)) = found else {
        return match error {
            Some(error) => Some(KeptError::Fragments(error)),
            None => None,
        };
    };
    match error {
        None | Some(FragmentsError::Float { .. } | FragmentsError::Fault { .. }) => {
            Some(KeptError::Unbracketed { place, position })
        }
        Some(error) => Some(KeptError::Fragments(error)),
    }
}

// Number and position of the first place that may not have its implicit list or rows. A query is
// walked only for a form with such a list or rows.
fn place_in_doubt(
    alloc: Global,
    surveyed: &SurveyedQuery<'_>,
    kinds: &KindsInPlace<'_>,
) -> Result<Option<(usize, usize)>, AllocError>
    requires { OnSurveyed surveyed.now (λ ts. mixed_cause ts ≡ None) }
    ensures { (known : FormKinds) → AreKeptKinds kinds.now known → OnSurveyed surveyed.now (λ ts.
        IfOk result (λ found. found ≡ unbracketed_place known ts)) }
{
    if kinds.by_place.is_empty() && kinds.by_name.is_empty() {
        return Ok(None);
    }
    if surveyed.survey.names == 0 {
        let list = kinds.by_place.as_slice();
        return Ok(first_unbracketed(surveyed.query, surveyed.reading, list));
    }
    let list = named_kinds(alloc, surveyed, &kinds.by_name)?;
    Ok(first_unbracketed(surveyed.query, surveyed.reading, list.as_slice()))
}

// What is kept under the names of a query without both names and marks, in order.
fn named_kinds(
    alloc: Global,
    surveyed: &SurveyedQuery<'_>,
    by_name: &BTreeMap<&[u8], Implicit>,
) -> Result<Vec<Implicit>, AllocError>
    requires { OnSurveyed surveyed.now (λ ts. mixed_cause ts ≡ None) }
    ensures { OnSurveyed surveyed.now (λ ts. IfOk result (λ list.
        list.items ≡ map (kind_under by_name.now.entries) (names ts))) }
{
    let count = surveyed.survey.names;
    let mut list = Vec::with_capacity(alloc, count)?;
    let mut rest = surveyed.query;
    while list.len() < count {
        let Some(found) = place_after(surveyed.known, list.len(), rest, surveyed.reading) else {
            unreachable!()
        };
        let (_, place, after) = found.cut(rest);
        list.push(named_kind(by_name, &place[1..]))?;
        rest = after;
    }
    Ok(list)
}

// What is kept under a name.
fn named_kind(by_name: &BTreeMap<&[u8], Implicit>, name: &[u8]) -> Implicit
    ensures { result ≡ kind_under by_name.now.entries name.now }
{
    match BTreeMap::get(by_name, name) {
        Some(kind) => *kind,
        None => Implicit::No,
    }
}
