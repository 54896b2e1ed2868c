//! Texts with steady literals, in a room of the caller.
ghost use Rattle.std.specs.Prelude.{◌≡◌, ◌⊎◌, ◌≤◌, ◌<◌, ℕ, Bool, true, [], None, Some, length, take, drop, IfErr, IfOk, IfSome, IsErrOf, OnErr};
ghost use Rattle.mysql_named_params.specs.Places.{HasMark, HasName};
ghost use Rattle.mysql_named_params.specs.Reading.{OnTokensIn, OnWideTokens, reading_with};
ghost use Rattle.mysql_named_params.specs.Tokens.{OnTokens};
ghost use Rattle.mysql_portable.specs.Steady.{first_unsteady, HoldNoEscapes};
ghost use Rattle.mysql_binding.specs.BindErrors.{IsCauseOrMemory};
ghost use Rattle.mysql_binding.specs.FirstCause.{first_cause};
ghost use Rattle.mysql_binding.specs.MeasuredText.{HasGivenLength};
ghost use Rattle.mysql_binding.specs.TextInRoom.{IsTextInRoom};
ghost use Rattle.mysql_binding.specs.WrittenText.{IsGivenText};
ghost use Rattle.mysql_steady_text.specs.FirstBackslash.{first_backslash};
ghost use Rattle.mysql_steady_text.specs.SteadyLiteral.{steady_literal_of};
ghost use Rattle.mysql_steady_text.specs.SteadyLiterals.{IsSteadyFor};
ghost use Rattle.mysql_flat_params.specs.AnywhereIntoRoom.{IsAnywhereForm, IsAnywhereOutcome, anywhere_refusal};
ghost use Rattle.mysql_flat_params.specs.BothModesIntoRoom.{IsBothModesForm, IsBothModesOutcome, both_modes_refusal};
ghost use Rattle.mysql_flat_params.specs.FlatForm.{HasFirstParameter};
ghost use Rattle.mysql_flat_params.specs.FormParams.{given_in_place};
ghost use Rattle.mysql_flat_params.specs.Outcomes.{HasNoAnswer, IfDone, IfTooLong, UnlessDone};
ghost use Rattle.mysql_flat_params.specs.Steadiness.{IsBoundAs, byte_refusal, purpose_of, refusal_as, refusal_outcome, scope_of};
ghost use Rattle.mysql_flat_params.specs.SteadyIntoRoom.{IsSteadyForm, IsSteadyOutcomeIn};
ghost use Rattle.mysql_flat_params.specs.WideSteadyIntoRoom.{IsWideAnywhereForm, IsWideAnywhereOutcome, IsWideBothModesForm, IsWideBothModesOutcome, wide_anywhere_refusal, wide_both_modes_refusal};
ghost use Rattle.mysql_flat_params.specs.declared.outcome.Outcome as outcome;

use crate::form::form_params;
use crate::form_names::NamesInPlace;
use crate::into_room::{
    ParamsInPlace, bind_outcome, borrowed_params, form_outcome, named_pairs, text_outcome,
};
use crate::outcome::Outcome;
use crate::unportable::construct_number;
use mysql_binding::{
    BindError, KEPT_PLACES, NO_PLACE, SurveyedQuery, TextInRoom, bind_surveyed_into,
};
use mysql_named_params::places::Reading;
use mysql_steady_text::SteadyForm;
use mysql_steady_text::purpose::{Portability, Purpose, QueryRefusal, Scope, query_refusal};
use std::alloc::Global;

// The text and the names of each call.
const ANYWHERE: SteadyCall = SteadyCall {
    steadiness: Steadiness::Anywhere,
    wide_names: false,
};

const IN_BOTH_MODES: SteadyCall = SteadyCall {
    steadiness: Steadiness::BothModes,
    wide_names: false,
};

pub(crate) const WIDE_ANYWHERE: SteadyCall = SteadyCall {
    steadiness: Steadiness::Anywhere,
    wide_names: true,
};

const WIDE_IN_BOTH_MODES: SteadyCall = SteadyCall {
    steadiness: Steadiness::BothModes,
    wide_names: true,
};

/// Binds a form's parameters to a query, as `bind_text_anywhere` does, and writes the text to the
/// front of the room. The text is read the same on any server, in every `sql_mode` and over every
/// character set of a connection.
///
/// Form, room, `Done` and `Room` are as for [`bind_into`](crate::bind_into). A form is refused
/// before the query. Then come `Unsteady` and `Unportable`, and then the causes of `bind_into`.
/// Nothing is allocated for `Unsteady`, `Unportable` and `Mixed` over the empty form, and for a
/// form that is refused for its first parameter. Any other outcome may be `OutOfMemory` instead.
/// After every outcome except `Done` the room is as before.
// A steady query has the same tokens in both modes (`mysql_portable::laws::steady_texts`).
pub fn bind_anywhere_into(alloc: Global, query: &[u8], form: &[u8], room: &mut [u8]) -> Outcome
    ensures outcome { IsAnywhereOutcome query.now form.now result }
    ensures written { IfDone result (λ len.
        IsAnywhereForm query.now form.now (take len room.new)) }

    // Over the empty form these are refused without allocating.
    ensures refused { (mode : Bool) → OnTokens mode query.now (λ ts. form.now ≡ [] →
        (told : outcome.Outcome) → anywhere_refusal query.now ts ≡ Some told → result ≡ told) }
    ensures mixed { (mode : Bool) → OnTokens mode query.now (λ ts. form.now ≡ [] →
        anywhere_refusal query.now ts ≡ None → HasName ts × HasMark ts →
        result ≡ Outcome.Mixed) }

    // A form that is refused for its first parameter is refused without allocating.
    ensures memory { result ≡ Outcome.OutOfMemory →
        (form.now ≡ []) ⊎ HasFirstParameter form.now }
    ensures rest { IfDone result (λ len.
        (len ≤ length room.old) × (drop len room.new ≡ drop len room.old)) }
    ensures too_long { IfTooLong result (λ len. length room.old < len) }
    ensures unchanged { UnlessDone result (room.new ≡ room.old) }
{
    bind_steady_into(alloc, query, form, ANYWHERE, room)
}

/// Binds a form's parameters to a query, as `bind_text_in_both_modes` does, and writes the text to
/// the front of the room. The text is read the same on any server, in every `sql_mode`. The query
/// may hold bytes from 128 on. The connection's character set then has to be that of these bytes:
/// utf8mb4 for UTF-8.
///
/// Everything else is as for [`bind_anywhere_into`], except that `Backslash`, for a backslash in a
/// string of the query, comes in place of `Unsteady`.
// A query without a backslash in its strings has the same tokens in both modes
// (`mysql_portable::laws::modes_agree`).
pub fn bind_in_both_modes_into(alloc: Global, query: &[u8], form: &[u8], room: &mut [u8]) -> Outcome
    ensures outcome { IsBothModesOutcome query.now form.now result }
    ensures written { IfDone result (λ len.
        IsBothModesForm query.now form.now (take len room.new)) }

    // Over the empty form these are refused without allocating.
    ensures refused { (mode : Bool) → OnTokens mode query.now (λ ts. form.now ≡ [] →
        (told : outcome.Outcome) → both_modes_refusal ts ≡ Some told → result ≡ told) }
    ensures mixed { (mode : Bool) → OnTokens mode query.now (λ ts. form.now ≡ [] →
        both_modes_refusal ts ≡ None → HasName ts × HasMark ts → result ≡ Outcome.Mixed) }

    // A form that is refused for its first parameter is refused without allocating.
    ensures memory { result ≡ Outcome.OutOfMemory →
        (form.now ≡ []) ⊎ HasFirstParameter form.now }
    ensures rest { IfDone result (λ len.
        (len ≤ length room.old) × (drop len room.new ≡ drop len room.old)) }
    ensures too_long { IfTooLong result (λ len. length room.old < len) }
    ensures unchanged { UnlessDone result (room.new ≡ room.old) }
{
    bind_steady_into(alloc, query, form, IN_BOTH_MODES, room)
}

/// [`bind_anywhere_into`] by wide names. Everything else is the same.
pub fn bind_wide_anywhere_into(alloc: Global, query: &[u8], form: &[u8], room: &mut [u8]) -> Outcome
    ensures outcome { IsWideAnywhereOutcome query.now form.now result }
    ensures written { IfDone result (λ len.
        IsWideAnywhereForm query.now form.now (take len room.new)) }

    // Over the empty form these are refused without allocating.
    ensures unsteady { (at : ℕ) → form.now ≡ [] → first_unsteady query.now ≡ Some at →
        result ≡ Outcome.Unsteady at }
    ensures refused { (mode : Bool) → OnWideTokens mode query.now (λ ts. form.now ≡ [] →
        (told : outcome.Outcome) → wide_anywhere_refusal query.now ts ≡ Some told → result ≡ told) }
    ensures mixed { (mode : Bool) → OnWideTokens mode query.now (λ ts. form.now ≡ [] →
        wide_anywhere_refusal query.now ts ≡ None →
        HasName ts × HasMark ts → result ≡ Outcome.Mixed) }

    // A form that is refused for its first parameter is refused without allocating.
    ensures memory { result ≡ Outcome.OutOfMemory →
        (form.now ≡ []) ⊎ HasFirstParameter form.now }
    ensures rest { IfDone result (λ len.
        (len ≤ length room.old) × (drop len room.new ≡ drop len room.old)) }
    ensures too_long { IfTooLong result (λ len. length room.old < len) }
    ensures unchanged { UnlessDone result (room.new ≡ room.old) }
{
    bind_steady_into(alloc, query, form, WIDE_ANYWHERE, room)
}

/// [`bind_in_both_modes_into`] by wide names. Everything else is as for
/// [`bind_wide_anywhere_into`], except that `Backslash`, for a backslash in a string of the query,
/// comes in place of `Unsteady`.
pub fn bind_wide_in_both_modes_into(
    alloc: Global,
    query: &[u8],
    form: &[u8],
    room: &mut [u8],
) -> Outcome
    ensures outcome { IsWideBothModesOutcome query.now form.now result }
    ensures written { IfDone result (λ len.
        IsWideBothModesForm query.now form.now (take len room.new)) }

    // Over the empty form these are refused without allocating.
    ensures backslash { (mode : Bool) → OnWideTokens mode query.now (λ ts. (at : ℕ) →
        form.now ≡ [] → first_backslash ts ≡ Some at → result ≡ Outcome.Backslash at) }
    ensures refused { (mode : Bool) → OnWideTokens mode query.now (λ ts. form.now ≡ [] →
        (told : outcome.Outcome) → wide_both_modes_refusal ts ≡ Some told → result ≡ told) }
    ensures mixed { (mode : Bool) → OnWideTokens mode query.now (λ ts. form.now ≡ [] →
        wide_both_modes_refusal ts ≡ None →
        HasName ts × HasMark ts → result ≡ Outcome.Mixed) }

    // A form that is refused for its first parameter is refused without allocating.
    ensures memory { result ≡ Outcome.OutOfMemory →
        (form.now ≡ []) ⊎ HasFirstParameter form.now }
    ensures rest { IfDone result (λ len.
        (len ≤ length room.old) × (drop len room.new ≡ drop len room.old)) }
    ensures too_long { IfTooLong result (λ len. length room.old < len) }
    ensures unchanged { UnlessDone result (room.new ≡ room.old) }
{
    bind_steady_into(alloc, query, form, WIDE_IN_BOTH_MODES, room)
}

/// The kind of text that a call gives, and so the queries that it takes.
#[derive(Clone, Copy)]
pub(crate) enum Steadiness {
    /// For any mode and any character set, of a query of ASCII without a backslash.
    Anywhere,
    /// For both modes, of a query without a backslash in its strings.
    BothModes,
}

/// The kind of text that a call gives, and the names by which it reads the query.
#[derive(Clone, Copy)]
pub(crate) struct SteadyCall {
    /// The kind of text.
    pub steadiness: Steadiness,
    /// Whether by wide names, or by those of the grammar.
    pub wide_names: bool,
}

// The body of the calls.
fn bind_steady_into(
    alloc: Global,
    query: &[u8],
    form: &[u8],
    call: SteadyCall,
    room: &mut [u8],
) -> Outcome
    ensures outcome { IsSteadyOutcomeIn call.wide_names
        (IsBoundAs call.wide_names call.steadiness query.now)
        (refusal_as call.wide_names call.steadiness query.now) query.now form.now result }
    ensures written { IfDone result (λ len. IsSteadyForm
        (IsBoundAs call.wide_names call.steadiness query.now) form.now (take len room.new)) }
    ensures byte { (mode : Bool) →
        OnTokensIn (reading_with call.wide_names mode) query.now (λ ts. form.now ≡ [] →
        (told : outcome.Outcome) → byte_refusal call.steadiness query.now ts ≡ Some told →
        result ≡ told) }
    ensures refused { (mode : Bool) →
        OnTokensIn (reading_with call.wide_names mode) query.now (λ ts. form.now ≡ [] →
        (told : outcome.Outcome) →
        refusal_as call.wide_names call.steadiness query.now ts ≡ Some told → result ≡ told) }
    ensures mixed { (mode : Bool) →
        OnTokensIn (reading_with call.wide_names mode) query.now (λ ts. form.now ≡ [] →
        refusal_as call.wide_names call.steadiness query.now ts ≡ None →
        HasName ts × HasMark ts → result ≡ Outcome.Mixed) }
    ensures memory { result ≡ Outcome.OutOfMemory →
        (form.now ≡ []) ⊎ HasFirstParameter form.now }
    ensures rest { IfDone result (λ len.
        (len ≤ length room.old) × (drop len room.new ≡ drop len room.old)) }
    ensures too_long { IfTooLong result (λ len. length room.old < len) }
    ensures unchanged { UnlessDone result (room.new ≡ room.old) }
{
    let params = match form_params::<NamesInPlace>(alloc, form, Vec::new(alloc)) {
        Ok(params) => params,
        Err(error) => return form_outcome(error),
    };
    if let Some(outcome) = query_outcome(query, call) {
        return outcome;
    }

    // A query that isn't refused has the same tokens in both modes, so it is read in one of them.
    let reading = Reading {
        no_backslash_escape: true,
        wide_names: call.wide_names,
    };
    match bind_params_steady(alloc, query, params, reading, room) {
        Ok(text) => text_outcome(text),
        Err(error) => bind_outcome(query, error, reading),
    }
}

/// The outcome for a query that is refused with any parameters. If there is none, the modes agree
/// on the query. It allocates nothing.
pub(crate) fn query_outcome(query: &[u8], call: SteadyCall) -> Option<Outcome>
    ensures told { (mode : Bool) →
        OnTokensIn (reading_with call.wide_names mode) query.now (λ ts.
        result ≡ refusal_as call.wide_names call.steadiness query.now ts) }
    ensures agree { result ≡ None → OnTokens true query.now HoldNoEscapes }
    ensures no_answer { IfSome result HasNoAnswer }
{
    match query_refusal(query, purpose_of(call)) {
        Some(refusal) => Some(refusal_outcome(refusal)),
        None => None,
    }
}

// The purpose of a call. Its texts are for all servers.
fn purpose_of(call: SteadyCall) -> Purpose
    ensures { result ≡ purpose_of call.wide_names call.steadiness }
{
    Purpose {
        scope: scope_of(call.steadiness),
        portability: Portability::Servers,
        wide_names: call.wide_names,
    }
}

// The connections in which such a text is read the same.
fn scope_of(steadiness: Steadiness) -> Scope
    ensures { result ≡ scope_of steadiness }
{
    match steadiness {
        Steadiness::Anywhere => Scope::AnyConnection,
        Steadiness::BothModes => Scope::EitherMode,
    }
}

// The outcome for a refusal of the query.
fn refusal_outcome(refusal: QueryRefusal) -> Outcome
    ensures value { result ≡ refusal_outcome refusal }
    ensures no_answer { HasNoAnswer result }
{
    match refusal {
        QueryRefusal::Unsteady { at } => Outcome::Unsteady { position: at },
        QueryRefusal::Backslash { at } => Outcome::Backslash { position: at },
        QueryRefusal::Unportable(found) => Outcome::Unportable {
            number: construct_number(found.construct),
            position: found.at,
        },
    }
}

// The text of a query with the steady literals of a form's parameters, at the front of the room.
fn bind_params_steady(
    alloc: Global,
    query: &[u8],
    params: ParamsInPlace<'_>,
    reading: Reading,
    room: &mut [u8],
) -> Result<TextInRoom, BindError>
    ensures text { OnTokensIn reading query.now (λ ts. IfOk result (IsTextInRoom
        (IsGivenText steady_literal_of IsSteadyFor ts (given_in_place params.entry))
        (HasGivenLength steady_literal_of ts (given_in_place params.entry)) room.old room.new)) }
    ensures refused { OnTokensIn reading query.now (λ ts. IfErr result
        (IsCauseOrMemory (first_cause ts (given_in_place params.entry)))) }
    ensures mixed { OnTokensIn reading query.now (λ ts.
        HasName ts × HasMark ts → IsErrOf result BindError.Mixed) }
    ensures unchanged { OnErr result (room.new ≡ room.old) }
{
    let mut first = [NO_PLACE; KEPT_PLACES];
    let surveyed = SurveyedQuery::new(query, reading, &mut first);
    let pairs = named_pairs(&params);
    let borrowed = borrowed_params(&params, &pairs);
    bind_surveyed_into(alloc, &surveyed, borrowed, &SteadyForm, room)
}
