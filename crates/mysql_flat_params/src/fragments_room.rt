//! The text that is bound to fragments, in a room of the caller.
ghost use Rattle.std.specs.Prelude.{◌≡◌, ◌≤◌, ◌<◌, List, ℕ, [], IfErr, IfOk, IsErrOf, OnErr, length, take, drop};
ghost use Rattle.std.specs.List.{Contains};
ghost use Rattle.mysql_named_params.specs.Reading.{OnTokensIn};
ghost use Rattle.mysql_named_params.specs.Places.{HasMark, HasName, names};
ghost use Rattle.mysql_binding.specs.TextInRoom.{HasTextOf, IsTextInRoom};
ghost use Rattle.mysql_fragments.specs.GivenFragments.{GivenFragments};
ghost use Rattle.mysql_flat_params.specs.IntoRoom.{IfMixed, IfMixedIn, IsMissingNameIn};
ghost use Rattle.mysql_flat_params.specs.FormCauses.{IsFormCauseOrMemory, first_form_cause};
ghost use Rattle.mysql_flat_params.specs.FormKinds.{FormKinds, IsKnownForm};
ghost use Rattle.mysql_flat_params.specs.KindsInPlace.{IsReadAs};
ghost use Rattle.mysql_flat_params.specs.FragmentsIntoRoom.{IsBoundForm, IsBoundFormIn, IsBoundTo, IsFragmentsOutcome, IsFragmentsOutcomeIn};
ghost use Rattle.mysql_flat_params.specs.declared.form_refusal.KeptError.TheVariants as kept_error;
ghost use Rattle.mysql_flat_params.specs.FragmentsOutcomes.{HasNoAnswer, IfDone, IfTooLong, UnlessDone};

use crate::form_refusal::KeptError;
use crate::fragments_in_place::{ReadForm, form_in_place};
use crate::fragments_outcome::FragmentsOutcome;
use crate::into_room::{form_outcome, text_outcome};
use crate::missing_place::name_place_read;
use crate::outcome::Outcome;
use crate::placed::placed_fragments;
use crate::unbracketed::form_error;
use mysql_binding::{KEPT_PLACES, NO_PLACE, PlainForm, SurveyedQuery, TextInRoom};
use mysql_fragments::{FragmentsError, bind_placed_into};
use mysql_named_params::places::Reading;
use mysql_params_core::params::ParamsConfusionError;
use std::alloc::{AllocError, Global};

/// Binds a form's fragments to a query in a mode, as `bind_fragments_in` does, and writes the text
/// to the front of the room. The form is that of [`form_fragments`](crate::form_fragments). Names
/// and values aren't copied, nor are those of a list and of rows of one length. Any other fragment
/// is copied, such as a list with an exact number in it.
///
/// `Done` has the length of the text; the rest of the room is unchanged. `Room` has the length that
/// the room would need. A form is refused before the query. Then the first of the causes of
/// `bind_fragments_in` refuses the query. `Missing` reports the first place with the missing name.
/// The empty form over a query with names and marks is `Mixed` without allocating.
///
/// After `NotAlone` and before `Float` comes `Unbracketed`, for a place that may not have its
/// implicit list or rows ([`first_unbracketed`](mysql_fragments::brackets::first_unbracketed)). A
/// form without them is bound without this walk.
///
/// Any other outcome may be `OutOfMemory` instead, also if a form is refused for its first
/// parameter: memory is allocated for the items before the refused one. `OutOfMemory` also comes if
/// the text would be longer than `isize::MAX` bytes. After every outcome except `Done` the room is
/// as before.
pub fn bind_fragments_into(
    alloc: Global,
    query: &[u8],
    form: &[u8],
    no_backslash_escape: bool,
    room: &mut [u8],
) -> FragmentsOutcome
    ensures outcome { IsFragmentsOutcome no_backslash_escape query.now form.now result }
    ensures written { IfDone result (λ len.
        IsBoundForm no_backslash_escape query.now form.now (take len room.new)) }

    // The empty form over a query with a name and a mark is refused without allocating.
    ensures mixed { form.now ≡ [] → IfMixed no_backslash_escape query.now
        (result ≡ FragmentsOutcome.AsValues Outcome.Mixed) }
    ensures rest { IfDone result (λ len.
        (len ≤ length room.old) × (drop len room.new ≡ drop len room.old)) }
    ensures too_long { IfTooLong result (λ len. length room.old < len) }
    ensures unchanged { UnlessDone result (room.new ≡ room.old) }
{
    let reading = Reading {
        no_backslash_escape,
        wide_names: false,
    };
    bind_fragments_into_read(alloc, query, form, reading, room)
}

/// [`bind_fragments_into`] for a query in any reading. Everything is the same, over the names of
/// the reading.
pub fn bind_fragments_into_read(
    alloc: Global,
    query: &[u8],
    form: &[u8],
    reading: Reading,
    room: &mut [u8],
) -> FragmentsOutcome
    ensures outcome { IsFragmentsOutcomeIn reading query.now form.now result }
    ensures written { IfDone result (λ len.
        IsBoundFormIn reading query.now form.now (take len room.new)) }

    // The empty form over a query with a name and a mark is refused without allocating.
    ensures mixed { form.now ≡ [] → IfMixedIn reading query.now
        (result ≡ FragmentsOutcome.AsValues Outcome.Mixed) }
    ensures rest { IfDone result (λ len.
        (len ≤ length room.old) × (drop len room.new ≡ drop len room.old)) }
    ensures too_long { IfTooLong result (λ len. length room.old < len) }
    ensures unchanged { UnlessDone result (room.new ≡ room.old) }
{
    let read = match form_in_place(alloc, form) {
        Ok(read) => read,
        Err(error) => return FragmentsOutcome::AsValues(form_outcome(error)),
    };
    match bind_read(alloc, query, &read, reading, room) {
        Ok(text) => FragmentsOutcome::AsValues(text_outcome(text)),
        Err(error) => kept_outcome(query, error, reading),
    }
}

// The query with the fragments of a form in its places, at the front of the room.
fn bind_read(
    alloc: Global,
    query: &[u8],
    read: &ReadForm<'_>,
    reading: Reading,
    room: &mut [u8],
) -> Result<TextInRoom, KeptError>
    requires { (given : GivenFragments) × (kinds : FormKinds) × IsReadAs read.now given kinds }
    ensures bound { (given : GivenFragments) (kinds : FormKinds) → IsReadAs read.now given kinds →
        OnTokensIn reading query.now (λ ts. IfOk result (IsTextInRoom
        (IsBoundTo reading given kinds ts) (HasTextOf (IsBoundTo reading given kinds ts))
        room.old room.new)) }
    ensures refused { (given : GivenFragments) (kinds : FormKinds) →
        IsReadAs read.now given kinds → OnTokensIn reading query.now (λ ts. IfErr result
        (IsFormCauseOrMemory (first_form_cause kinds ts given))) }
    ensures mixed { OnTokensIn reading query.now (λ ts. HasName ts × HasMark ts →
        IsErrOf result (kept_error.Fragments FragmentsError.Mixed)) }
    ensures unchanged { OnErr result (room.new ≡ room.old) }
{
    let mut first = [NO_PLACE; KEPT_PLACES];
    let surveyed = SurveyedQuery::new(query, reading, &mut first);
    let placed = placed_fragments(alloc, &surveyed, &read.kept)?;
    let placed = placed.as_slice();
    if let Some(error) = form_error(alloc, &surveyed, &read.kinds, placed) {
        return Err(error);
    }
    let form = PlainForm {
        no_backslash_escape: reading.no_backslash_escape,
    };
    match bind_placed_into(&surveyed, placed, &form, room) {
        Some(text) => Ok(text),
        None => Err(KeptError::Fragments(FragmentsError::Memory(AllocError))),
    }
}

/// The outcome for an error of binding to this query.
pub(crate) fn kept_outcome(query: &[u8], error: KeptError, reading: Reading) -> FragmentsOutcome
    requires { (given : GivenFragments) × (kinds : FormKinds)
        × OnTokensIn reading query.now (λ ts.
        IsFormCauseOrMemory (first_form_cause kinds ts given) error) }
    ensures outcome { (form : List ℕ) (given : GivenFragments) (kinds : FormKinds) →
        IsKnownForm form given kinds → OnTokensIn reading query.now (λ ts.
        IsFormCauseOrMemory (first_form_cause kinds ts given) error) →
        IsFragmentsOutcomeIn reading query.now form result }
    ensures mixed { error ≡ kept_error.Fragments FragmentsError.Mixed →
        result ≡ FragmentsOutcome.AsValues Outcome.Mixed }
    ensures no_answer { HasNoAnswer result }
{
    match error {
        KeptError::Unbracketed { place, position } => {
            FragmentsOutcome::Unbracketed { place, position }
        }
        KeptError::Fragments(error) => fragments_outcome(query, error, reading),
    }
}

// The outcome for an error of the fragments.
fn fragments_outcome(query: &[u8], error: FragmentsError, reading: Reading) -> FragmentsOutcome
    requires { (given : GivenFragments) × (kinds : FormKinds)
        × OnTokensIn reading query.now (λ ts.
        IsFormCauseOrMemory (first_form_cause kinds ts given) (kept_error.Fragments error)) }
    ensures outcome { (form : List ℕ) (given : GivenFragments) (kinds : FormKinds) →
        IsKnownForm form given kinds → OnTokensIn reading query.now (λ ts.
        IsFormCauseOrMemory (first_form_cause kinds ts given) (kept_error.Fragments error)) →
        IsFragmentsOutcomeIn reading query.now form result }
    ensures mixed { error ≡ FragmentsError.Mixed →
        result ≡ FragmentsOutcome.AsValues Outcome.Mixed }
    ensures no_answer { HasNoAnswer result }
{
    FragmentsOutcome::AsValues(match error {
        FragmentsError::Fault { place, fault } => return FragmentsOutcome::Fault { place, fault },
        FragmentsError::Mixed => Outcome::Mixed,
        FragmentsError::Missing(missing) => {
            missing_outcome(query, missing.0.as_slice(), reading)
        }
        FragmentsError::Confusion(ParamsConfusionError::NamedParamsForPositionalQuery) => {
            Outcome::NamedForPositional
        }
        FragmentsError::Confusion(ParamsConfusionError::PositionalParamsForNamedQuery) => {
            Outcome::PositionalForNamed
        }
        FragmentsError::MarkCount { marks, fragments } => Outcome::MarkCount {
            marks,
            values: fragments,
        },
        FragmentsError::NotAlone { place, at } => Outcome::NotAlone {
            place,
            position: at,
        },
        FragmentsError::Float { place } => Outcome::Float { place },
        FragmentsError::Memory(_) => Outcome::OutOfMemory,
    })
}

// The outcome for a name of this query that has no fragment.
fn missing_outcome(query: &[u8], name: &[u8], reading: Reading) -> Outcome
    requires { OnTokensIn reading query.now (λ ts. Contains (names ts) name.now) }
    ensures { IsMissingNameIn reading query.now name.now result }
{
    match name_place_read(query, name, reading) {
        Some((place, position)) => Outcome::Missing {
            place,
            position,
            len: name.len(),
        },
        None => unreachable!(),
    }
}
