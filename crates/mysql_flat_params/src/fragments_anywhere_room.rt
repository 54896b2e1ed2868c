//! The text for any server that is bound to fragments, in a room of the caller.
ghost use Rattle.std.specs.Prelude.{◌≡◌, ◌+◌, ◌≤◌, ◌<◌, true, Bool, List, ℕ, None, IfErr, IfOk, IfSome, OnErr, length, take, drop};
ghost use Rattle.mysql_named_params.specs.Reading.{OnTokensIn, reading_with};
ghost use Rattle.mysql_portable.specs.Steady.{IsSteady};
ghost use Rattle.mysql_binding.specs.SurveyedQuery.{OnSurveyed};
ghost use Rattle.mysql_binding.specs.TextInRoom.{HasTextOf, IsTextInRoom};
ghost use Rattle.mysql_fragments.specs.BorrowedFragments.{AreSaid};
ghost use Rattle.mysql_fragments.specs.FilledText.{ArePlaced, IsFilledQuery};
ghost use Rattle.mysql_fragments.specs.FragmentsInRoom.{HasFilledLength};
ghost use Rattle.mysql_fragments.specs.GivenFragments.{GivenFragments};
ghost use Rattle.mysql_fragments.specs.declared.fragment.Fragment as said_fragment;
ghost use Rattle.mysql_flat_params.specs.AnywhereCalls.{IsBoundIn, IsKnownIn, literal_in};
ghost use Rattle.mysql_flat_params.specs.FormCauses.{IsSteadyFormRefusal};
ghost use Rattle.mysql_flat_params.specs.FormKinds.{FormKinds, IsKnownForm};
ghost use Rattle.mysql_flat_params.specs.KindsInPlace.{IsReadAs};
ghost use Rattle.mysql_flat_params.specs.FragmentsAnywhereIntoRoom.{IsAnywhereForm, IsAnywhereFormIn, IsAnywhereOutcome, IsAnywhereOutcomeIn, IsTakenQueryIn, IsWideAnywhereForm, IsWideAnywhereOutcome, MayStandIn, is_wide};
ghost use Rattle.mysql_flat_params.specs.FragmentsOutcomes.{HasNoAnswer, IfDone, IfTooLong, UnlessDone};

use crate::form_refusal::{KeptError, SteadyKeptError};
use crate::fragments_in_place::{ReadForm, form_in_place};
use crate::fragments_outcome::FragmentsOutcome;
use crate::fragments_room::kept_outcome;
use crate::into_room::{form_outcome, text_outcome};
use crate::outcome::Outcome;
use crate::placed::placed_fragments;
use crate::steady_room::{Steadiness, SteadyCall, query_outcome};
use crate::unbracketed::form_error;
use mysql_binding::{KEPT_PLACES, NO_PLACE, SurveyedQuery, TextInRoom};
use mysql_fragments::{FragmentRef, FragmentsError, bind_placed_into, first_unsteady_fragment};
use mysql_named_params::places::Reading;
use mysql_steady_text::{GuardedForm, SteadyForm};
use std::alloc::{AllocError, Global};

// The two calls of this file.
const GRAMMAR: AnywhereCall = AnywhereCall::Steady { wide_names: false };

const WIDE: AnywhereCall = AnywhereCall::Steady { wide_names: true };

/// Binds a form's fragments to a query, as `bind_fragments_anywhere` does, and writes the text to
/// the front of the room. The text is read the same on any server, in every `sql_mode` and over
/// every character set of a connection.
///
/// Form, room, `Done` and `Room` are as for [`bind_fragments_into`](crate::bind_fragments_into). A
/// form is refused before the query. Then come `Unsteady` and `Unportable`, then the causes of
/// `bind_fragments_into`. `UnsteadyFragment` is last: a fragment has a name with a backslash or a
/// byte from 128 on. Any outcome may be `OutOfMemory` instead. After every outcome except `Done`
/// the room is as before.
// A steady query has the same tokens in both modes (`mysql_portable::laws::steady_texts`).
pub fn bind_fragments_anywhere_into(
    alloc: Global,
    query: &[u8],
    form: &[u8],
    room: &mut [u8],
) -> FragmentsOutcome
    ensures outcome { IsAnywhereOutcome query.now form.now result }
    ensures written { IfDone result (λ len.
        IsAnywhereForm query.now form.now (take len room.new)) }
    ensures rest { IfDone result (λ len.
        (len ≤ length room.old) × (drop len room.new ≡ drop len room.old)) }
    ensures too_long { IfTooLong result (λ len. length room.old < len) }
    ensures unchanged { UnlessDone result (room.new ≡ room.old) }
{
    bind_form_anywhere(alloc, query, form, GRAMMAR, room)
}

/// [`bind_fragments_anywhere_into`] by wide names. Everything else is the same.
pub fn bind_wide_fragments_anywhere_into(
    alloc: Global,
    query: &[u8],
    form: &[u8],
    room: &mut [u8],
) -> FragmentsOutcome
    ensures outcome { IsWideAnywhereOutcome query.now form.now result }
    ensures written { IfDone result (λ len.
        IsWideAnywhereForm query.now form.now (take len room.new)) }
    ensures rest { IfDone result (λ len.
        (len ≤ length room.old) × (drop len room.new ≡ drop len room.old)) }
    ensures too_long { IfTooLong result (λ len. length room.old < len) }
    ensures unchanged { UnlessDone result (room.new ≡ room.old) }
{
    bind_form_anywhere(alloc, query, form, WIDE, room)
}

/// The literals that a call writes, and the names by which it reads the query.
#[derive(Clone, Copy)]
pub(crate) enum AnywhereCall {
    /// Steady literals, by wide names or by those of the grammar.
    Steady { wide_names: bool },
    /// Guarded literals for a mode, by wide names.
    Guarded { no_backslash_escape: bool },
}

impl AnywhereCall {
    // Whether the call reads wide names.
    fn wide_names(self) -> bool
        ensures { result ≡ is_wide self }
    {
        match self {
            AnywhereCall::Steady { wide_names } => wide_names,
            AnywhereCall::Guarded { .. } => true,
        }
    }
}

/// The body of the calls.
pub(crate) fn bind_form_anywhere(
    alloc: Global,
    query: &[u8],
    form: &[u8],
    call: AnywhereCall,
    room: &mut [u8],
) -> FragmentsOutcome
    ensures outcome { IsAnywhereOutcomeIn call query.now form.now result }
    ensures written { IfDone result (λ len.
        IsAnywhereFormIn call query.now form.now (take len room.new)) }
    ensures rest { IfDone result (λ len.
        (len ≤ length room.old) × (drop len room.new ≡ drop len room.old)) }
    ensures too_long { IfTooLong result (λ len. length room.old < len) }
    ensures unchanged { UnlessDone result (room.new ≡ room.old) }
{
    let read = match form_in_place(alloc, form) {
        Ok(read) => read,
        Err(error) => return FragmentsOutcome::AsValues(form_outcome(error)),
    };
    let steady = SteadyCall {
        steadiness: Steadiness::Anywhere,
        wide_names: call.wide_names(),
    };
    if let Some(outcome) = query_outcome(query, steady) {
        return FragmentsOutcome::AsValues(outcome);
    }
    match bind_read_steady(alloc, query, &read, call, room) {
        Ok(text) => FragmentsOutcome::AsValues(text_outcome(text)),
        Err(error) => steady_outcome(query, error, call),
    }
}

// The query with the fragments of a form in its places, at the front of the room. The query is
// steady, so it has the same tokens in both modes.
fn bind_read_steady(
    alloc: Global,
    query: &[u8],
    read: &ReadForm<'_>,
    call: AnywhereCall,
    room: &mut [u8],
) -> Result<TextInRoom, SteadyKeptError>
    requires steady { IsSteady query.now }
    requires given { (given : GivenFragments) × (kinds : FormKinds)
        × IsReadAs read.now given kinds }
    ensures bound { (given : GivenFragments) (kinds : FormKinds) → IsReadAs read.now given kinds →
        IfOk result (IsTextInRoom (IsBoundIn call query.now given)
        (HasTextOf (IsBoundIn call query.now given)) room.old room.new) }
    ensures may_stand { (given : GivenFragments) (kinds : FormKinds) →
        IsReadAs read.now given kinds →
        IfOk result (λ text. MayStandIn (is_wide call) query.now kinds) }
    ensures refused { (given : GivenFragments) (kinds : FormKinds) →
        IsReadAs read.now given kinds → (mode : Bool) →
        OnTokensIn (reading_with (is_wide call) mode) query.now (λ ts.
        IfErr result (IsSteadyFormRefusal kinds ts given)) }
    ensures unchanged { OnErr result (room.new ≡ room.old) }
{
    let reading = Reading {
        no_backslash_escape: false,
        wide_names: call.wide_names(),
    };
    let mut first = [NO_PLACE; KEPT_PLACES];
    let surveyed = SurveyedQuery::new(query, reading, &mut first);
    let placed = placed_fragments(alloc, &surveyed, &read.kept)?;
    let placed = placed.as_slice();
    if let Some(error) = form_error(alloc, &surveyed, &read.kinds, placed) {
        return Err(SteadyKeptError::Kept(error));
    }
    if let Some(place) = first_unsteady_fragment(placed) {
        return Err(SteadyKeptError::UnsteadyFragment { place });
    }
    match bind_placed_as(&surveyed, placed, call, room) {
        Some(text) => Ok(text),
        None => {
            let memory = KeptError::Fragments(FragmentsError::Memory(AllocError));
            Err(SteadyKeptError::Kept(memory))
        }
    }
}

// The text of a query with these fragments in its places, with the literals of the call, as
// `bind_placed_into` writes it.
fn bind_placed_as(
    surveyed: &SurveyedQuery<'_>,
    placed: &[FragmentRef<'_>],
    call: AnywhereCall,
    room: &mut [u8],
) -> Option<TextInRoom>
    requires places { surveyed.now.survey.names + surveyed.now.survey.marks
        ≡ length placed.now }
    ensures text { (given : GivenFragments) (said : List said_fragment.Fragment) →
        AreSaid placed.now said →
        OnSurveyed surveyed.now (λ ts. ArePlaced true ts given said) →
        OnSurveyed surveyed.now (λ ts. IfSome result (IsTextInRoom
        (IsFilledQuery (literal_in call) (IsKnownIn call)
        surveyed.now.reading.no_backslash_escape ts given)
        (HasFilledLength (literal_in call) surveyed.now.reading.no_backslash_escape ts given)
        room.old room.new)) }
    ensures unchanged { result ≡ None → room.new ≡ room.old }
{
    match call {
        AnywhereCall::Steady { .. } => bind_placed_into(surveyed, placed, &SteadyForm, room),
        AnywhereCall::Guarded {
            no_backslash_escape,
        } => {
            let form = GuardedForm {
                no_backslash_escape,
            };
            bind_placed_into(surveyed, placed, &form, room)
        }
    }
}

// The outcome for an error of fragments, for a query that is steady and portable.
fn steady_outcome(query: &[u8], error: SteadyKeptError, call: AnywhereCall) -> FragmentsOutcome
    requires taken { IsTakenQueryIn (is_wide call) query.now }
    requires error { (given : GivenFragments) × (kinds : FormKinds) × ((mode : Bool) →
        OnTokensIn (reading_with (is_wide call) mode) query.now (λ ts.
        IsSteadyFormRefusal kinds ts given error)) }
    ensures outcome { (form : List ℕ) (given : GivenFragments) (kinds : FormKinds) →
        IsKnownForm form given kinds → ((mode : Bool) →
        OnTokensIn (reading_with (is_wide call) mode) query.now (λ ts.
        IsSteadyFormRefusal kinds ts given error)) →
        IsAnywhereOutcomeIn call query.now form result }
    ensures no_answer { HasNoAnswer result }
{
    match error {
        SteadyKeptError::Kept(error) => {
            let reading = Reading {
                no_backslash_escape: false,
                wide_names: call.wide_names(),
            };
            kept_outcome(query, error, reading)
        }
        SteadyKeptError::UnsteadyFragment { place } => {
            FragmentsOutcome::UnsteadyFragment { place }
        }
    }
}
