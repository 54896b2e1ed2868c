//! Binding by the table of a query for any mode and any server, with literals of one kind.
ghost use Rattle.std.specs.Prelude.{◌≡◌, ◌≢◌, ◌⊎◌, ◌≤◌, ◌<◌, true, [], None, length, take, drop, IfErr, IfOk, IfSome, IsErrOf, OnErr};
ghost use Rattle.mysql_named_params.specs.declared.places.Reading.{Reading};
ghost use Rattle.mysql_named_params.specs.Places.{HasMark, HasName};
ghost use Rattle.mysql_named_params.specs.Reading.{OnTokensIn, wide_reading};
ghost use Rattle.mysql_binding.specs.BindErrors.{IsCauseOrMemory};
ghost use Rattle.mysql_binding.specs.FirstCause.{first_cause};
ghost use Rattle.mysql_binding.specs.MeasuredText.{HasGivenLength};
ghost use Rattle.mysql_binding.specs.PlaceSpans.{StaysInRoom};
ghost use Rattle.mysql_binding.specs.SpannedQuery.{HasOwnSpans, RefusesNames};
ghost use Rattle.mysql_binding.specs.TextInRoom.{IsTextInRoom};
ghost use Rattle.mysql_binding.specs.WrittenText.{IsGivenText};
ghost use Rattle.mysql_binding.specs.declared.binding.room.TextInRoom.TheVariants as in_room;
ghost use Rattle.mysql_flat_params.specs.AnywhereTable.{HasAnywhereTable, IsBindOutcomeBy, any_template};
ghost use Rattle.mysql_flat_params.specs.FewValues.{IsFewBound};
ghost use Rattle.mysql_flat_params.specs.FlatForm.{HasFirstParameter};
ghost use Rattle.mysql_flat_params.specs.FormParams.{given_in_place};
ghost use Rattle.mysql_flat_params.specs.IntoRoom.{IfMixedIn};
ghost use Rattle.mysql_flat_params.specs.PlaceTable.{CanHaveTableIn, IfDone, IfTooLong, MissesOtherPlaceIn, UnlessDone};
ghost use Rattle.mysql_flat_params.specs.SteadyIntoRoom.{IsSteadyForm};
ghost use Rattle.mysql_flat_params.specs.TableLiterals.{IsBoundWith, IsKnownWith, literal_with};

use crate::anywhere_table::{AnywhereTemplate, WIDE_READING};
use crate::few_values::bind_few;
use crate::form::form_params;
use crate::form_names::NamesInPlace;
use crate::into_room::{ParamsInPlace, borrowed_params, form_outcome, named_pairs, text_outcome};
use crate::outcome::Outcome;
use crate::place_table::{TableOutcome, survey_of, table_outcome};
use mysql_binding::{BindError, LiteralForm, SpannedQuery, TextInRoom, bind_spans_into};
use mysql_steady_text::{GuardedForm, SteadyForm};
use std::alloc::Global;

/// The literals that a call writes.
#[derive(Clone, Copy)]
pub(crate) enum AnywhereLiterals {
    /// Steady literals.
    Steady,
    /// Guarded literals for a mode.
    Guarded { no_backslash_escape: bool },
}

/// The body of the calls.
pub(crate) fn bind_by_table_with(
    alloc: Global,
    template: &AnywhereTemplate<'_>,
    form: &[u8],
    literals: AnywhereLiterals,
    room: &mut [u8],
) -> TableOutcome
    ensures outcome { HasAnywhereTable template.now →
        IsBindOutcomeBy (IsBoundWith literals template.now.query.now) template.now.query.now
        form.now result }
    ensures written { HasAnywhereTable template.now → IfDone result (λ len.
        IsSteadyForm (IsBoundWith literals template.now.query.now) form.now
        (take len room.new)) }

    // A table that the query can't have by its numbers is refused before the form is read.
    ensures unfit { (CanHaveTableIn (any_template template.now) → ⊥) →
        result ≡ TableOutcome.OtherTable }

    // A table that it can have is refused only if the missing name isn't a name of the query.
    ensures other { result ≡ TableOutcome.OtherTable →
        CanHaveTableIn (any_template template.now) →
        MissesOtherPlaceIn (any_template template.now) form.now }

    // The empty form over a query with a name and a mark is refused without allocating.
    ensures mixed { HasAnywhereTable template.now → form.now ≡ [] →
        IfMixedIn (wide_reading true) template.now.query.now
        (result ≡ TableOutcome.AsQuery Outcome.Mixed) }

    // A form that is refused for its first parameter is refused without allocating.
    ensures memory { result ≡ TableOutcome.AsQuery Outcome.OutOfMemory →
        (form.now ≡ []) ⊎ HasFirstParameter form.now }
    ensures rest { IfDone result (λ len.
        (len ≤ length room.old) × (drop len room.new ≡ drop len room.old)) }
    ensures too_long { IfTooLong result (λ len. length room.old < len) }
    ensures unchanged { UnlessDone result (room.new ≡ room.old) }
{
    let survey = survey_of(template.head);
    let Some(spanned) = SpannedQuery::try_new(template.query, survey, template.places) else {
        return TableOutcome::OtherTable;
    };
    if let Some(len) = bind_few_with(&spanned, form, literals, room) {
        return TableOutcome::AsQuery(Outcome::Done { len });
    }
    let params = match form_params::<NamesInPlace>(alloc, form, Vec::new(alloc)) {
        Ok(params) => params,
        Err(error) => return TableOutcome::AsQuery(form_outcome(error)),
    };
    match bind_places_with(alloc, &spanned, params, literals, room) {
        Ok(text) => TableOutcome::AsQuery(text_outcome(text)),
        Err(error) => table_outcome(template.query, error, WIDE_READING),
    }
}

// The text with a form's few values by position, at the front of the room, as `bind_few` writes it.
fn bind_few_with(
    spanned: &SpannedQuery<'_>,
    form: &[u8],
    literals: AnywhereLiterals,
    room: &mut [u8],
) -> Option<usize>
    ensures text { IfSome result (λ len. (reading : Reading) → HasOwnSpans spanned.now reading →
        IsFewBound (literal_with literals) (IsKnownWith literals) reading spanned.now.query.now
        form.now room.old room.new len) }
    ensures some_form { IfSome result (λ len. form.now ≢ []) }
    ensures in_room { IfSome result (λ len.
        StaysInRoom room.old room.new (in_room.Written len)) }
    ensures unchanged { result ≡ None → room.new ≡ room.old }
{
    match literals {
        AnywhereLiterals::Steady => bind_few(spanned, form, &SteadyForm, room),
        AnywhereLiterals::Guarded {
            no_backslash_escape,
        } => {
            let guarded = GuardedForm {
                no_backslash_escape,
            };
            bind_few(spanned, form, &guarded, room)
        }
    }
}

// The text of a query with the literals of a form's parameters, at the front of the room.
fn bind_places_with(
    alloc: Global,
    spanned: &SpannedQuery<'_>,
    params: ParamsInPlace<'_>,
    literals: AnywhereLiterals,
    room: &mut [u8],
) -> Result<TextInRoom, BindError>
    ensures text { HasOwnSpans spanned.now (wide_reading true) →
        OnTokensIn (wide_reading true) spanned.now.query.now (λ ts. IfOk result (IsTextInRoom
        (IsGivenText (literal_with literals) (IsKnownWith literals) ts
        (given_in_place params.entry))
        (HasGivenLength (literal_with literals) ts (given_in_place params.entry))
        room.old room.new)) }
    ensures refused { HasOwnSpans spanned.now (wide_reading true) →
        OnTokensIn (wide_reading true) spanned.now.query.now (λ ts. IfErr result
        (IsCauseOrMemory (first_cause ts (given_in_place params.entry)))) }
    ensures mixed { HasOwnSpans spanned.now (wide_reading true) →
        OnTokensIn (wide_reading true) spanned.now.query.now (λ ts.
        HasName ts × HasMark ts → IsErrOf result BindError.Mixed) }
    ensures lookup { IfErr result (RefusesNames spanned.now (given_in_place params.entry)) }
    ensures in_room { IfOk result (StaysInRoom room.old room.new) }
    ensures unchanged { OnErr result (room.new ≡ room.old) }
{
    match literals {
        AnywhereLiterals::Steady => bind_places(alloc, spanned, params, &SteadyForm, room),
        AnywhereLiterals::Guarded {
            no_backslash_escape,
        } => {
            let guarded = GuardedForm {
                no_backslash_escape,
            };
            bind_places(alloc, spanned, params, &guarded, room)
        }
    }
}

// The same with literals in any form.
fn bind_places<F: LiteralForm>(
    alloc: Global,
    spanned: &SpannedQuery<'_>,
    params: ParamsInPlace<'_>,
    literals: &F,
    room: &mut [u8],
) -> Result<TextInRoom, BindError>
    ensures text { HasOwnSpans spanned.now (wide_reading true) →
        OnTokensIn (wide_reading true) spanned.now.query.now (λ ts. IfOk result (IsTextInRoom
        (IsGivenText (F.literal literals.now) (F.IsKnown literals.now) ts
        (given_in_place params.entry))
        (HasGivenLength (F.literal literals.now) ts (given_in_place params.entry))
        room.old room.new)) }
    ensures refused { HasOwnSpans spanned.now (wide_reading true) →
        OnTokensIn (wide_reading true) spanned.now.query.now (λ ts. IfErr result
        (IsCauseOrMemory (first_cause ts (given_in_place params.entry)))) }
    ensures mixed { HasOwnSpans spanned.now (wide_reading true) →
        OnTokensIn (wide_reading true) spanned.now.query.now (λ ts.
        HasName ts × HasMark ts → IsErrOf result BindError.Mixed) }
    ensures lookup { IfErr result (RefusesNames spanned.now (given_in_place params.entry)) }
    ensures in_room { IfOk result (StaysInRoom room.old room.new) }
    ensures unchanged { OnErr result (room.new ≡ room.old) }
{
    let pairs = named_pairs(&params);
    let borrowed = borrowed_params(&params, &pairs);
    bind_spans_into(alloc, spanned, borrowed, literals, room)
}
