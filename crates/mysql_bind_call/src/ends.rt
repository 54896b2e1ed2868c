//! The text, for a purpose, of a query with borrowed values, into a room or after a text. No vector
//! is allocated for it.
ghost use Rattle.std.specs.Prelude.{◌≡◌, ◌++◌, true, ℕ, List, Some, IfErr, IfOk, IsErrOf, OnErr, OnOk};
ghost use Rattle.mysql_params_core.specs.GivenBorrowed.{given_by_borrowed};
ghost use Rattle.mysql_binding.specs.MeasuredText.{HasGivenLength};
ghost use Rattle.mysql_binding.specs.SurveyedQuery.{OnSurveyed};
ghost use Rattle.mysql_binding.specs.TextInRoom.{HasTextOf, IsTextInRoom};
ghost use Rattle.mysql_binding.specs.WrittenText.{IsGivenText};
ghost use Rattle.mysql_steady_text.specs.Purposes.{reading_for};
ghost use Rattle.mysql_bind_call.specs.Accepted.{IsAccepted, OnQuery};
ghost use Rattle.mysql_bind_call.specs.AnyGiven.{values};
ghost use Rattle.mysql_bind_call.specs.BoundTexts.{IsAppended, IsValuesText};
ghost use Rattle.mysql_bind_call.specs.Refusals.{IsCauseOrMemory, mixed_refusal};
ghost use Rattle.mysql_bind_call.specs.declared.refusal.BindRefusal as said;

use crate::errors::of_values;
use crate::refusal::BindRefusal;
use mysql_binding::{
    KEPT_PLACES, LiteralForm, NO_PLACE, PlainForm, SurveyedQuery, TextInRoom, bind_surveyed_after,
    bind_surveyed_into,
};
use mysql_named_params::places::{FoundPlace, Reading};
use mysql_params_core::params::BorrowedParams;
use mysql_steady_text::SteadyForm;
use mysql_steady_text::purpose::{Purpose, Scope};
use std::alloc::Global;

/// The text of a query that is accepted for the purpose, at the front of `room`. If `room` is too
/// short, the length of the text.
pub(crate) fn values_into(
    alloc: Global,
    query: &[u8],
    params: BorrowedParams<'_, '_>,
    purpose: Purpose,
    room: &mut [u8],
) -> Result<TextInRoom, BindRefusal>
    requires accepted { IsAccepted purpose query.now }
    ensures bound { IfOk result (λ told. OnQuery purpose query.now (λ ts. IsTextInRoom
        (IsValuesText purpose.scope ts (given_by_borrowed params.entry))
        (HasTextOf (IsValuesText purpose.scope ts (given_by_borrowed params.entry)))
        room.old room.new told)) }
    ensures refused { IfErr result (λ refusal. OnQuery purpose query.now (λ ts.
        IsCauseOrMemory purpose.scope ts (values (given_by_borrowed params.entry)) refusal)) }
    ensures mixed { OnQuery purpose query.now (λ ts. (refusal : said.BindRefusal) →
        mixed_refusal ts (values (given_by_borrowed params.entry)) ≡ Some refusal →
        IsErrOf result refusal) }
    ensures unchanged { OnErr result (room.new ≡ room.old) }
{
    let mut first = [NO_PLACE; KEPT_PLACES];
    let surveyed = surveyed_for(query, purpose, &mut first);
    match purpose.scope {
        Scope::OneMode {
            no_backslash_escape,
        } => {
            let form = PlainForm {
                no_backslash_escape,
            };
            written_into(alloc, &surveyed, params, &form, room)
        }
        Scope::EitherMode => written_into(alloc, &surveyed, params, &SteadyForm, room),
        Scope::AnyConnection => written_into(alloc, &surveyed, params, &SteadyForm, room),
    }
}

/// The same after what `text` holds.
pub(crate) fn values_after(
    alloc: Global,
    query: &[u8],
    params: BorrowedParams<'_, '_>,
    purpose: Purpose,
    text: &mut Vec<u8>,
) -> Result<(), BindRefusal>
    requires accepted { IsAccepted purpose query.now }
    ensures bound { IfOk result (λ done. OnQuery purpose query.now (λ ts. IsAppended
        (IsValuesText purpose.scope ts (given_by_borrowed params.entry))
        text.old.items text.new.items)) }
    ensures refused { IfErr result (λ refusal. OnQuery purpose query.now (λ ts.
        IsCauseOrMemory purpose.scope ts (values (given_by_borrowed params.entry)) refusal)) }
    ensures mixed { OnQuery purpose query.now (λ ts. (refusal : said.BindRefusal) →
        mixed_refusal ts (values (given_by_borrowed params.entry)) ≡ Some refusal →
        IsErrOf result refusal) }
    ensures unchanged { OnErr result (text.new.items ≡ text.old.items) }
{
    let mut first = [NO_PLACE; KEPT_PLACES];
    let surveyed = surveyed_for(query, purpose, &mut first);
    match purpose.scope {
        Scope::OneMode {
            no_backslash_escape,
        } => {
            let form = PlainForm {
                no_backslash_escape,
            };
            written_after(alloc, &surveyed, params, &form, text)
        }
        Scope::EitherMode => written_after(alloc, &surveyed, params, &SteadyForm, text),
        Scope::AnyConnection => written_after(alloc, &surveyed, params, &SteadyForm, text),
    }
}

// The survey of a query. If it is accepted for either mode or for any connection, both modes read
// it alike, and it is read without backslash escapes.
fn surveyed_for<'q>(
    query: &'q [u8],
    purpose: Purpose,
    first: &'q mut [FoundPlace],
) -> SurveyedQuery<'q>
    ensures query { result.query.now ≡ query.now }
    ensures reading { result.reading ≡ reading_for purpose true }
{
    let no_backslash_escape = match purpose.scope {
        Scope::OneMode {
            no_backslash_escape,
        } => no_backslash_escape,
        Scope::EitherMode | Scope::AnyConnection => true,
    };
    let reading = Reading {
        no_backslash_escape,
        wide_names: purpose.wide_names,
    };
    SurveyedQuery::new(query, reading, first)
}

// The text into a room, with literals of any form.
fn written_into<F: LiteralForm>(
    alloc: Global,
    surveyed: &SurveyedQuery<'_>,
    params: BorrowedParams<'_, '_>,
    form: &F,
    room: &mut [u8],
) -> Result<TextInRoom, BindRefusal>
    ensures text { IfOk result (λ told. OnSurveyed surveyed.now (λ ts. IsTextInRoom
        (IsGivenText (F.literal form.now) (F.IsKnown form.now) ts (given_by_borrowed params.entry))
        (HasGivenLength (F.literal form.now) ts (given_by_borrowed params.entry))
        room.old room.new told)) }
    ensures refused { IfErr result (λ refusal. OnSurveyed surveyed.now (λ ts.
        IsCauseOrMemory Scope.EitherMode ts (values (given_by_borrowed params.entry)) refusal)) }
    ensures mixed { OnSurveyed surveyed.now (λ ts. (refusal : said.BindRefusal) →
        mixed_refusal ts (values (given_by_borrowed params.entry)) ≡ Some refusal →
        IsErrOf result refusal) }
    ensures unchanged { OnErr result (room.new ≡ room.old) }
{
    of_values(bind_surveyed_into(alloc, surveyed, params, form, room))
}

// The same after a text.
fn written_after<F: LiteralForm>(
    alloc: Global,
    surveyed: &SurveyedQuery<'_>,
    params: BorrowedParams<'_, '_>,
    form: &F,
    text: &mut Vec<u8>,
) -> Result<(), BindRefusal>
    ensures text { OnOk result ((more : List ℕ) × (text.new.items ≡ text.old.items ++ more)
        × OnSurveyed surveyed.now (λ ts. IsGivenText (F.literal form.now) (F.IsKnown form.now) ts
        (given_by_borrowed params.entry) more)) }
    ensures refused { IfErr result (λ refusal. OnSurveyed surveyed.now (λ ts.
        IsCauseOrMemory Scope.EitherMode ts (values (given_by_borrowed params.entry)) refusal)) }
    ensures mixed { OnSurveyed surveyed.now (λ ts. (refusal : said.BindRefusal) →
        mixed_refusal ts (values (given_by_borrowed params.entry)) ≡ Some refusal →
        IsErrOf result refusal) }
    ensures unchanged { OnErr result (text.new.items ≡ text.old.items) }
{
    of_values(bind_surveyed_after(alloc, surveyed, params, form, text))
}
