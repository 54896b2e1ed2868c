//! Queries with the literals of values in the places of names and marks.
ghost use Rattle.std.specs.Prelude.{◌≡◌, false, ℕ, List, [], None, Ok, Some, IfErr, IfOk, IfSome, IsErrOf, length, option_map};
ghost use Rattle.mysql_named_params.specs.Tokens.{Token};
ghost use Rattle.mysql_named_params.specs.Reading.{OnTokensIn};
ghost use Rattle.mysql_named_params.specs.declared.places.Reading.{Reading};
ghost use Rattle.mysql_named_params.specs.Places.{names, HasName, HasMark};
ghost use Rattle.mysql_params_core.specs.Given.{Given};
ghost use Rattle.mysql_params_core.specs.GivenBorrowed.{given_by_borrowed};
ghost use Rattle.mysql_params_core.specs.Lookup.{LookupRefusal, lookup};
ghost use Rattle.mysql_params_core.specs.Referents.{referents};
ghost use Rattle.mysql_binding.specs.AppendedText.{AreFound};
ghost use Rattle.mysql_binding.specs.BindErrors.{IsCauseOrMemory, IsLookupError, cause_of};
ghost use Rattle.mysql_binding.specs.BoundAgain.{IsSameBoundAgain, IsSameByPosition};
ghost use Rattle.mysql_binding.specs.FirstCause.{mark_count_differs, first_cause, first_float, later_cause, mixed_cause, refused_params};
ghost use Rattle.mysql_binding.specs.Isolation.{IsBoundText};
ghost use Rattle.mysql_binding.specs.MeasuredText.{IsMeasured, IsOfSurvey};
ghost use Rattle.mysql_binding.specs.PlaceValues.{placed_values};
ghost use Rattle.mysql_binding.specs.Survey.{IsSurvey};
ghost use Rattle.mysql_binding.specs.SurveyedQuery.{OnSurveyed};
ghost use Rattle.mysql_binding.specs.WrittenText.{IsGivenText};

mod form;
mod found;
mod found_query;
mod kept_values;
mod literals;
mod names;
mod pairs;
mod parsed_query;
mod place_values;
mod room;
mod spanned;
mod spans;
mod survey;
mod text;
mod wide_query;

use crate::bind_error::BindError;
pub use crate::binding::form::{LiteralForm, PlainForm};
use crate::binding::found::found_values;
pub use crate::binding::found::{all_places, place_after};
use crate::binding::literals::{first_float, with_lengths};
pub use crate::binding::literals::{MeasuredText, literal_len, push_literal, put_literal};
pub use crate::binding::names::query_names;
pub use crate::binding::parsed_query::ParsedQuery;
pub use crate::binding::place_values::{LiteralValue, PairValues, PlaceValues};
pub use crate::binding::room::{TextInRoom, bind_surveyed_into};
pub use crate::binding::spanned::SpannedQuery;
pub use crate::binding::spans::{PlaceSpan, bind_spans_into, place_spans};
pub use crate::binding::survey::{Survey, SurveyedQuery};
use crate::binding::text::written_text;
pub use crate::binding::text::{append_piece, append_surveyed, bind_surveyed_after, fill_measured};
pub use crate::binding::wide_query::WideQuery;
use mysql_named_params::places::{FoundPlace, PlaceKind, Reading};
use mysql_params_core::params::{BorrowedParams, place_values};
use std::alloc::Global;

/// The number of places that are kept on the stack while a query is surveyed. A query with at most
/// this many places isn't walked again.
pub const KEPT_PLACES: usize = 16;

/// The content of each array element in which no place is kept yet.
pub const NO_PLACE: FoundPlace = FoundPlace {
    before: 0,
    kind: PlaceKind::Mark,
    len: 0,
};

/// The text of a query in any reading, with the literals of the values in any form. It is refused
/// for the causes of `bind_text_in`, in their order. For the crates above.
pub fn bind_borrowed_as<F: LiteralForm>(
    alloc: Global,
    query: &[u8],
    params: BorrowedParams<'_, '_>,
    reading: Reading,
    form: &F,
) -> Result<Vec<u8>, BindError>
    ensures text { OnTokensIn reading query.now (λ ts. IfOk result (λ text.
        IsGivenText (F.literal form.now) (F.IsKnown form.now) ts (given_by_borrowed params.entry)
        text.items)) }
    ensures refused { OnTokensIn reading query.now (λ ts. IfErr result
        (IsCauseOrMemory (first_cause ts (given_by_borrowed params.entry)))) }
    ensures mixed { OnTokensIn reading query.now (λ ts.
        HasName ts × HasMark ts → IsErrOf result BindError.Mixed) }
{
    let mut first = [NO_PLACE; KEPT_PLACES];
    let surveyed = SurveyedQuery::new(query, reading, &mut first);
    let survey = surveyed.survey;
    if survey.names > surveyed.known.len() && survey.marks == 0 {
        return bind_many_names(alloc, &surveyed, params, form);
    }
    bind_surveyed_as(alloc, &surveyed, params, form)
}

// The text of a query with no marks and more names than are kept. Its places are found once more
// and kept, 24 bytes each. So the walks for its names and for its text don't search for them.
fn bind_many_names<F: LiteralForm>(
    alloc: Global,
    surveyed: &SurveyedQuery<'_>,
    params: BorrowedParams<'_, '_>,
    form: &F,
) -> Result<Vec<u8>, BindError>
    requires no_marks { surveyed.now.survey.marks ≡ 0 }
    ensures text { OnSurveyed surveyed.now (λ ts. IfOk result (λ text.
        IsGivenText (F.literal form.now) (F.IsKnown form.now) ts (given_by_borrowed params.entry)
        text.items)) }
    ensures refused { OnSurveyed surveyed.now (λ ts. IfErr result
        (IsCauseOrMemory (first_cause ts (given_by_borrowed params.entry)))) }
    ensures mixed { OnSurveyed surveyed.now (λ ts.
        HasName ts × HasMark ts → IsErrOf result BindError.Mixed) }
{
    let places = all_places(alloc, surveyed)?;
    let surveyed = surveyed.with_places(places.as_slice());
    bind_surveyed_as(alloc, &surveyed, params, form)
}

/// The text of a surveyed query: the body of [`ParsedQuery::bind`]. It is refused for the same
/// causes. For the crates above.
pub fn bind_surveyed(
    alloc: Global,
    surveyed: &SurveyedQuery<'_>,
    params: BorrowedParams<'_, '_>,
) -> Result<Vec<u8>, BindError>
    ensures bound { OnSurveyed surveyed.now (λ ts. IfOk result (λ text.
        IsBoundText surveyed.now.reading.no_backslash_escape ts (given_by_borrowed params.entry)
        text.items)) }
    ensures refused { OnSurveyed surveyed.now (λ ts. IfErr result
        (IsCauseOrMemory (first_cause ts (given_by_borrowed params.entry)))) }
    ensures bound_again { IfOk result (λ text.
        IsSameBoundAgain surveyed.now.reading.no_backslash_escape text.items) }
    ensures by_position { OnSurveyed surveyed.now (λ ts. IfOk result (λ text.
        IsSameByPosition surveyed.now.reading.no_backslash_escape ts
        (given_by_borrowed params.entry) text.items)) }
    ensures mixed { OnSurveyed surveyed.now (λ ts.
        HasName ts × HasMark ts → IsErrOf result BindError.Mixed) }
{
    let form = PlainForm {
        no_backslash_escape: surveyed.reading.no_backslash_escape,
    };
    bind_surveyed_as(alloc, surveyed, params, &form)
}

/// [`bind_surveyed`] with the literals of the values in any form. It is refused for the same
/// causes. For the crates above.
pub fn bind_surveyed_as<F: LiteralForm>(
    alloc: Global,
    surveyed: &SurveyedQuery<'_>,
    params: BorrowedParams<'_, '_>,
    form: &F,
) -> Result<Vec<u8>, BindError>
    ensures text { OnSurveyed surveyed.now (λ ts. IfOk result (λ text.
        IsGivenText (F.literal form.now) (F.IsKnown form.now) ts (given_by_borrowed params.entry)
        text.items)) }
    ensures refused { OnSurveyed surveyed.now (λ ts. IfErr result
        (IsCauseOrMemory (first_cause ts (given_by_borrowed params.entry)))) }
    ensures mixed { OnSurveyed surveyed.now (λ ts.
        HasName ts × HasMark ts → IsErrOf result BindError.Mixed) }
{
    let measured = measured_text(alloc, surveyed, params, form)?;
    Ok(written_text(alloc, surveyed, &measured, form)?)
}

/// The values of a surveyed query, with the lengths of their literals and of the text. This is the
/// part of [`bind_surveyed_as`] before the text is allocated. It is refused for the same causes.
/// The error is also out of memory if the text would be longer than `isize::MAX` bytes. For the
/// crates above.
pub fn measured_text<'p, F: LiteralForm>(
    alloc: Global,
    surveyed: &SurveyedQuery<'_>,
    params: BorrowedParams<'p, '_>,
    form: &F,
) -> Result<MeasuredText<'p>, BindError>
    ensures measured { OnSurveyed surveyed.now (λ ts. IfOk result
        (IsMeasured (F.literal form.now) ts (given_by_borrowed params.entry))) }
    ensures refused { OnSurveyed surveyed.now (λ ts. IfErr result
        (IsCauseOrMemory (first_cause ts (given_by_borrowed params.entry)))) }
    ensures mixed { OnSurveyed surveyed.now (λ ts.
        HasName ts × HasMark ts → IsErrOf result BindError.Mixed) }
{
    let survey = surveyed.survey;
    if survey.names > 0 && survey.marks > 0 {
        return Err(BindError::Mixed);
    }
    let values = values_of_places(alloc, surveyed, params)?;
    measured_values(alloc, survey, values, form)
}

/// [`measured_text`] with values that are already looked up, for a query with this survey. For the
/// crates above, which find the places of names once for all rows.
pub fn measured_values<'p, F: LiteralForm>(
    alloc: Global,
    survey: Survey,
    values: PlaceValues<'p>,
    form: &F,
) -> Result<MeasuredText<'p>, BindError>
    ensures measured { IfOk result (λ measured. (reading : Reading) (query : List ℕ)
        (given : Given) → OnTokensIn reading query (IsSurvey survey) →
        OnTokensIn reading query (AreFound given (placed_values values.entry)) →
        OnTokensIn reading query (λ ts. IsMeasured (F.literal form.now) ts given measured)) }
    ensures refused { IfErr result (λ error. (reading : Reading) (query : List ℕ) (given : Given) →
        OnTokensIn reading query (IsSurvey survey) →
        OnTokensIn reading query (AreFound given (placed_values values.entry)) →
        OnTokensIn reading query (λ ts. IsCauseOrMemory (first_cause ts given) error)) }
    ensures in_survey { IfOk result
        (IsOfSurvey (F.literal form.now) survey (placed_values values.entry)) }
    ensures no_lookup { IfErr result (λ error. (refusal : LookupRefusal) →
        cause_of error ≡ Some (refused_params refusal) → ⊥) }
{
    if let Some(error) = later_error(survey, &values) {
        return Err(error);
    }
    Ok(with_lengths(alloc, survey.piece_bytes, values, form)?)
}

// The borrowed values for the places of a query that has no names or no marks.
fn values_of_places<'p>(
    alloc: Global,
    surveyed: &SurveyedQuery<'_>,
    params: BorrowedParams<'p, '_>,
) -> Result<PlaceValues<'p>, BindError>
    requires unmixed { OnSurveyed surveyed.now (λ ts. mixed_cause ts ≡ None) }
    ensures values { IfOk result (λ values. OnSurveyed surveyed.now (λ ts.
        lookup (given_by_borrowed params.entry) (names ts) ≡ Ok (placed_values values))) }
    ensures refused { IfErr result (λ error. OnSurveyed surveyed.now (λ ts.
        IsCauseOrMemory (first_cause ts (given_by_borrowed params.entry)) error)) }
{
    let found = if surveyed.survey.names > 0 {
        found_values(alloc, surveyed, params)?
    } else {
        given_values(params)
    };
    match found {
        Some(values) => Ok(values),
        None => values_of_list(alloc, surveyed, params),
    }
}

// The values by position, for a query without names. They stay where they are.
fn given_values<'p>(params: BorrowedParams<'p, '_>) -> Option<PlaceValues<'p>>
    ensures { IfSome result (λ values.
        lookup (given_by_borrowed params.entry) [] ≡ Ok (placed_values values)) }
{
    match params {
        BorrowedParams::Positional(values) => Some(PlaceValues::Positional(values)),
        BorrowedParams::Values(values) => Some(PlaceValues::Values(values)),
        _ => None,
    }
}

// The same by a list of the names, which reports a name without a value. The list is dropped before
// the text is written.
fn values_of_list<'p>(
    alloc: Global,
    surveyed: &SurveyedQuery<'_>,
    params: BorrowedParams<'p, '_>,
) -> Result<PlaceValues<'p>, BindError>
    requires unmixed { OnSurveyed surveyed.now (λ ts. mixed_cause ts ≡ None) }
    ensures values { IfOk result (λ values. OnSurveyed surveyed.now (λ ts.
        lookup (given_by_borrowed params.entry) (names ts) ≡ Ok (placed_values values))) }
    ensures refused { IfErr result (λ error. OnSurveyed surveyed.now (λ ts.
        IsCauseOrMemory (first_cause ts (given_by_borrowed params.entry)) error)) }
{
    let names = query_names(alloc, surveyed)?;
    looked_up_values(alloc, params, names.as_slice())
}

// The values that are given to these names. Each name is looked up, and the first without a value
// is reported.
fn looked_up_values<'p>(
    alloc: Global,
    params: BorrowedParams<'p, '_>,
    names: &[&[u8]],
) -> Result<PlaceValues<'p>, BindError>
    ensures values { IfOk result (λ values. lookup (given_by_borrowed params.entry)
        (referents names.now) ≡ Ok (placed_values values)) }
    ensures refused { IfErr result
        (IsLookupError (given_by_borrowed params.entry) (referents names.now)) }
{
    Ok(PlaceValues::Listed(place_values(alloc, params, names)?))
}

// The first of the causes after the lookup: the marks, the places, the floats.
fn later_error(survey: Survey, values: &PlaceValues<'_>) -> Option<BindError>
    ensures cause { (ts : List Token) → IsSurvey survey ts →
        option_map cause_of result ≡ option_map Some (later_cause ts (placed_values values.now)) }
    ensures no_lookup { IfSome result (λ error. (refusal : LookupRefusal) →
        cause_of error ≡ Some (refused_params refusal) → ⊥) }
    ensures none { result ≡ None →
        (mark_count_differs survey.names survey.marks (length (placed_values values.now)) ≡ false)
        × (first_float (placed_values values.now) ≡ None) }
{
    let count = values.count();
    if mark_count_differs(survey, count) {
        return Some(BindError::MarkCount {
            marks: survey.marks,
            values: count,
        });
    }
    if let Some((place, at)) = survey.not_alone {
        return Some(BindError::NotAlone { place, at });
    }
    match first_float(values) {
        Some(place) => Some(BindError::Float { place }),
        None => None,
    }
}

// Whether a query without names has another number of marks than of values.
fn mark_count_differs(survey: Survey, values: usize) -> bool
    ensures { result ≡ mark_count_differs survey.names survey.marks values }
{
    survey.names == 0 && survey.marks != values
}
