//! The bound text, in a room of the caller.
ghost use Rattle.std.specs.Prelude.{◌≡◌, ◌⊎◌, ◌≤◌, ◌<◌, ℕ, Bool, List, [], None, Some, Ok, length, take, drop, IfErr, IfOk, IfSome, IsErrOf, OnErr, alloc_error};
ghost use Rattle.std.specs.List.{Contains};
ghost use Rattle.mysql_named_params.specs.Reading.{OnTokensIn};
ghost use Rattle.mysql_named_params.specs.declared.places.Reading.{Reading};
ghost use Rattle.mysql_named_params.specs.Places.{HasMark, HasName, names};
ghost use Rattle.mysql_params_core.specs.Given.{Given};
ghost use Rattle.mysql_params_core.specs.GivenBorrowed.{given_by_borrowed};
ghost use Rattle.mysql_binding.specs.BindErrors.{IsCauseOrMemory};
ghost use Rattle.mysql_binding.specs.FirstCause.{first_cause};
ghost use Rattle.mysql_binding.specs.Isolation.{IsBoundText};
ghost use Rattle.mysql_binding.specs.TextInRoom.{HasTextOf, IsTextInRoom};
ghost use Rattle.mysql_flat_params.specs.FlatForm.{HasFirstParameter, IsFormReading};
ghost use Rattle.mysql_flat_params.specs.FormErrors.{IsFormRefusal};
ghost use Rattle.mysql_flat_params.specs.FormParams.{given_in_place, pairs_in_place};
ghost use Rattle.mysql_flat_params.specs.FragmentsAnywhereIntoRoom.{IsAnywhereAsValuesIn};
ghost use Rattle.mysql_flat_params.specs.declared.fragments_anywhere_room.AnywhereCall as anywhere_call;
ghost use Rattle.mysql_flat_params.specs.FragmentsFormErrors as fragments;
ghost use Rattle.mysql_flat_params.specs.FragmentsIntoRoom.{IsOutcomeAsValuesIn};
ghost use Rattle.mysql_flat_params.specs.IntoRoom.{IfMixed, IfMixedIn, IsBindOutcome, IsBindOutcomeIn, IsBoundForm, IsBoundFormIn, IsMissingNameIn, MissesOtherNameIn};
ghost use Rattle.mysql_flat_params.specs.Outcomes.{HasNoAnswer, IfDone, IfTooLong, UnlessDone, text_outcome};
ghost use Rattle.mysql_flat_params.specs.Steadiness.{IsBoundAs, refusal_as};
ghost use Rattle.mysql_flat_params.specs.SteadyIntoRoom.{IsSteadyOutcomeIn};
ghost use Rattle.mysql_flat_params.specs.declared.steady_room.Steadiness as steadiness;

use crate::form::{FormParams, form_params};
use crate::form_error::FormError;
use crate::form_names::NamesInPlace;
use crate::missing_place::name_place_read;
use crate::outcome::Outcome;
use mysql_binding::{
    BindError, KEPT_PLACES, NO_PLACE, PlainForm, SurveyedQuery, TextInRoom, bind_surveyed_into,
};
use mysql_named_params::places::Reading;
use mysql_params_core::params::{BorrowedParams, NamedPairs, ParamsConfusionError, ParamsError};
use std::alloc::Global;

/// Binds a form's parameters to a query in a mode, as `bind_text_in` does, and writes the text to
/// the front of the room. The form is that of [`params_of_form`](crate::params_of_form).
///
/// `Done` has the length of the text; the rest of the room is unchanged. `Room` has the length that
/// the room would need. A form is refused before the query. Then the first of the causes of
/// `bind_text_in` refuses the query. `Missing` reports the first place with the missing name.
///
/// Nothing is allocated if the empty form over a query with names and marks is `Mixed`, or if a
/// form is refused for its first parameter. Any other outcome may be `OutOfMemory` instead, which
/// also comes if the text would be longer than `isize::MAX` bytes. After every outcome except
/// `Done` the room is as before.
pub fn bind_into(
    alloc: Global,
    query: &[u8],
    form: &[u8],
    no_backslash_escape: bool,
    room: &mut [u8],
) -> Outcome
    ensures outcome { IsBindOutcome no_backslash_escape query.now form.now result }
    ensures written { IfDone result (λ len.
        IsBoundForm no_backslash_escape query.now form.now (take len room.new)) }

    // The empty form over a query with a name and a mark is refused without allocating.
    ensures mixed { form.now ≡ [] →
        IfMixed no_backslash_escape query.now (result ≡ Outcome.Mixed) }

    // A form that is refused for its first parameter is refused without allocating.
    ensures memory { result ≡ Outcome.OutOfMemory →
        (form.now ≡ []) ⊎ HasFirstParameter form.now }
    ensures rest { IfDone result (λ len.
        (len ≤ length room.old) × (drop len room.new ≡ drop len room.old)) }
    ensures too_long { IfTooLong result (λ len. length room.old < len) }
    ensures unchanged { UnlessDone result (room.new ≡ room.old) }
{
    let reading = Reading {
        no_backslash_escape,
        wide_names: false,
    };
    bind_into_read(alloc, query, form, reading, room)
}

/// [`bind_into`] for a query in any reading. Everything is the same, over the names of the reading.
pub fn bind_into_read(
    alloc: Global,
    query: &[u8],
    form: &[u8],
    reading: Reading,
    room: &mut [u8],
) -> Outcome
    ensures outcome { IsBindOutcomeIn reading query.now form.now result }
    ensures written { IfDone result (λ len.
        IsBoundFormIn reading query.now form.now (take len room.new)) }

    // The empty form over a query with a name and a mark is refused without allocating.
    ensures mixed { form.now ≡ [] →
        IfMixedIn reading query.now (result ≡ Outcome.Mixed) }

    // A form that is refused for its first parameter is refused without allocating.
    ensures memory { result ≡ Outcome.OutOfMemory →
        (form.now ≡ []) ⊎ HasFirstParameter form.now }
    ensures rest { IfDone result (λ len.
        (len ≤ length room.old) × (drop len room.new ≡ drop len room.old)) }
    ensures too_long { IfTooLong result (λ len. length room.old < len) }
    ensures unchanged { UnlessDone result (room.new ≡ room.old) }
{
    let params = match form_params::<NamesInPlace>(alloc, form, Vec::new(alloc)) {
        Ok(params) => params,
        Err(error) => return form_outcome(error),
    };
    match bind_params(alloc, query, params, reading, room) {
        Ok(text) => text_outcome(text),
        Err(error) => bind_outcome(query, error, reading),
    }
}

// The text of a query with a form's parameters, at the front of the room.
fn bind_params(
    alloc: Global,
    query: &[u8],
    params: ParamsInPlace<'_>,
    reading: Reading,
    room: &mut [u8],
) -> Result<TextInRoom, BindError>
    ensures bound { OnTokensIn reading query.now (λ ts. IfOk result (IsTextInRoom
        (IsBoundText reading.no_backslash_escape ts (given_in_place params.entry))
        (HasTextOf (IsBoundText reading.no_backslash_escape ts (given_in_place params.entry)))
        room.old room.new)) }
    ensures refused { OnTokensIn reading query.now (λ ts. IfErr result
        (IsCauseOrMemory (first_cause ts (given_in_place params.entry)))) }
    ensures mixed { OnTokensIn reading query.now (λ ts.
        HasName ts × HasMark ts → IsErrOf result BindError.Mixed) }
    ensures unchanged { OnErr result (room.new ≡ room.old) }
{
    let form = PlainForm {
        no_backslash_escape: reading.no_backslash_escape,
    };
    let mut first = [NO_PLACE; KEPT_PLACES];
    let surveyed = SurveyedQuery::new(query, reading, &mut first);
    let pairs = named_pairs(&params);
    let borrowed = borrowed_params(&params, &pairs);
    bind_surveyed_into(alloc, &surveyed, borrowed, &form, room)
}

// The outcome for a text in a room.
pub(crate) fn text_outcome(text: TextInRoom) -> Outcome
    ensures { result ≡ text_outcome text }
{
    match text {
        TextInRoom::Written { len } => Outcome::Done { len },
        TextInRoom::TooShort { len } => Outcome::Room { len },
    }
}

/// The parameters of a form, kept in the form's own bytes.
pub(crate) type ParamsInPlace<'f> = FormParams<'f, NamesInPlace<'f>>;

// The pairs in which names are kept, for `borrowed_params`; empty if they are kept in another way.
pub(crate) fn named_pairs<'p, 'f>(params: &'p ParamsInPlace<'f>) -> NamedPairs<'p>
    ensures { result.0.now ≡ pairs_in_place params.now }
{
    match params {
        FormParams::Named(NamesInPlace::Pairs(pairs)) => NamedPairs(pairs.as_slice()),
        _ => NamedPairs(&[]),
    }
}

// The same parameters, borrowed; the pairs are those of `named_pairs`.
pub(crate) fn borrowed_params<'p, 'f>(
    params: &'p ParamsInPlace<'f>,
    pairs: &'p NamedPairs<'p>,
) -> BorrowedParams<'p, 'f>
    requires { pairs.now.0.now ≡ pairs_in_place params.now }
    ensures { given_by_borrowed result ≡ given_in_place params.now }
{
    match params {
        FormParams::Empty => BorrowedParams::Empty,
        FormParams::Named(NamesInPlace::Pairs(_)) => BorrowedParams::Pairs(pairs),
        FormParams::Named(NamesInPlace::Sorted(entries)) => BorrowedParams::SortedPairs(entries),
        FormParams::Positional(values) => BorrowedParams::Values(values.as_slice()),
    }
}

// The outcome for an error of a form.
pub(crate) fn form_outcome(error: FormError) -> Outcome
    ensures outcome { (reading : Reading) (query form : List ℕ) → IsFormRefusal form error →
        IsBindOutcomeIn reading query form result }
    ensures steady { (wide_names : Bool) (which : steadiness.Steadiness) (query form : List ℕ) →
        IsFormRefusal form error → IsSteadyOutcomeIn wide_names (IsBoundAs wide_names which query)
        (refusal_as wide_names which query) query form result }
    ensures fragments { (reading : Reading) (query form : List ℕ) →
        fragments.IsFormRefusal form error → IsOutcomeAsValuesIn reading query form result }
    ensures fragments_anywhere { (call : anywhere_call.AnywhereCall) (query form : List ℕ) →
        fragments.IsFormRefusal form error → IsAnywhereAsValuesIn call query form result }
    ensures memory { result ≡ Outcome.OutOfMemory → error ≡ FormError.Memory alloc_error }
    ensures no_answer { HasNoAnswer result }
{
    match error {
        FormError::End { place, position } => Outcome::FormEnd { place, position },
        FormError::LengthLead {
            place,
            position,
            lead,
        } => Outcome::FormLengthLead {
            place,
            position,
            lead,
        },
        FormError::UnsupportedType {
            place,
            position,
            number,
        } => Outcome::FormType {
            place,
            position,
            number,
        },
        FormError::Mixed { place, position } => Outcome::FormMixed { place, position },
        FormError::Repeated {
            place,
            position,
            len,
        } => Outcome::FormRepeated {
            place,
            position,
            len,
        },
        FormError::Memory(_) => Outcome::OutOfMemory,
    }
}

// The outcome for an error of binding to this query.
pub(crate) fn bind_outcome(query: &[u8], error: BindError, reading: Reading) -> Outcome
    requires { (given : Given) × OnTokensIn reading query.now (λ ts.
        IsCauseOrMemory (first_cause ts given) error) }
    ensures outcome { (form : List ℕ) (given : Given) → IsFormReading form (Ok given) →
        OnTokensIn reading query.now (λ ts.
        IsCauseOrMemory (first_cause ts given) error) →
        IsBindOutcomeIn reading query.now form result }
    ensures mixed { error ≡ BindError.Mixed → result ≡ Outcome.Mixed }
    ensures no_answer { HasNoAnswer result }
{
    match told_outcome(query, error, reading) {
        Some(outcome) => outcome,
        None => unreachable!(),
    }
}

// The outcome for an error of binding to this query; `None` if the missing name isn't one of the
// query.
pub(crate) fn told_outcome(query: &[u8], error: BindError, reading: Reading) -> Option<Outcome>
    ensures outcome { (form : List ℕ) (given : Given) → IsFormReading form (Ok given) →
        OnTokensIn reading query.now (λ ts.
        IsCauseOrMemory (first_cause ts given) error) →
        IfSome result (IsBindOutcomeIn reading query.now form) }
    ensures none { ((given : Given) × OnTokensIn reading query.now (λ ts.
        IsCauseOrMemory (first_cause ts given) error)) → result ≡ None → ⊥ }
    ensures other { result ≡ None → MissesOtherNameIn reading query.now error }
    ensures mixed { error ≡ BindError.Mixed → result ≡ Some Outcome.Mixed }
    ensures no_answer { IfSome result HasNoAnswer }
{
    match error {
        BindError::Mixed => Some(Outcome::Mixed),
        BindError::Params(ParamsError::Missing(missing)) => {
            missing_outcome(query, missing.0.as_slice(), reading)
        }
        BindError::Params(
            ParamsError::Confusion(ParamsConfusionError::NamedParamsForPositionalQuery),
        ) => Some(Outcome::NamedForPositional),
        BindError::Params(
            ParamsError::Confusion(ParamsConfusionError::PositionalParamsForNamedQuery),
        ) => Some(Outcome::PositionalForNamed),
        BindError::Params(ParamsError::Memory(_)) => Some(Outcome::OutOfMemory),
        BindError::MarkCount { marks, values } => Some(Outcome::MarkCount { marks, values }),
        BindError::NotAlone { place, at } => Some(Outcome::NotAlone {
            place,
            position: at,
        }),
        BindError::Float { place } => Some(Outcome::Float { place }),
        BindError::Memory(_) => Some(Outcome::OutOfMemory),
    }
}

// The outcome for a name without a value; `None` if the query doesn't have the name.
fn missing_outcome(query: &[u8], name: &[u8], reading: Reading) -> Option<Outcome>
    ensures some { IfSome result (IsMissingNameIn reading query.now name.now) }
    ensures none { result ≡ None →
        OnTokensIn reading query.now (λ ts. Contains (names ts) name.now) → ⊥ }
    ensures absent { result ≡ None →
        OnTokensIn reading query.now (λ ts. Contains (names ts) name.now → ⊥) }
{
    match name_place_read(query, name, reading) {
        Some((place, position)) => Some(Outcome::Missing {
            place,
            position,
            len: name.len(),
        }),
        None => None,
    }
}
