//! The text, for a purpose, of a query with fragments.
ghost use Rattle.std.specs.Prelude.{◌≡◌, None, Some, IfErr, IfOk, IsErrOf, true, ⊤};
ghost use Rattle.mysql_named_params.specs.Reading.{OnTokensIn, reading_with};
ghost use Rattle.mysql_named_params.specs.Places.{HasMark, HasName};
ghost use Rattle.mysql_portable.specs.Steady.{IsSteady};
ghost use Rattle.mysql_steady_text.specs.FirstBackslash.{first_backslash};
ghost use Rattle.mysql_fragments.specs.Expanded.{IsBoundFragments};
ghost use Rattle.mysql_fragments.specs.GivenFragments.{given_fragments};
ghost use Rattle.mysql_fragments.specs.SteadyFragments.{IsSteadyFragments};
ghost use Rattle.mysql_fragments.specs.SteadyFragmentsErrors.{IsFragmentsRefusal};
ghost use Rattle.mysql_bind_call.specs.Accepted.{IsAccepted, OnQuery};
ghost use Rattle.mysql_bind_call.specs.AnyGiven.{fragments};
ghost use Rattle.mysql_bind_call.specs.BoundTexts.{IsFragmentsText};
ghost use Rattle.mysql_bind_call.specs.FragmentsInBothModes.{IsFragmentsInBothModes};
ghost use Rattle.mysql_bind_call.specs.Refusals.{IsCauseOrMemory, mixed_refusal};
ghost use Rattle.mysql_bind_call.specs.declared.refusal.BindRefusal as said;

use crate::errors::{of_fragments, of_steady};
use crate::given::BorrowedGiven;
use crate::refusal::BindRefusal;
use crate::values::GiveValues;
use mysql_fragments::{
    Fragments, FragmentsError, SteadyFragmentsError, bind_steady_fragments, bound_fragments,
    filled_query, first_unsteady_place, placed_fragments,
};
use mysql_named_params::places::Reading;
use mysql_steady_text::SteadyForm;
use mysql_steady_text::purpose::{Purpose, Scope};
use std::alloc::Global;

impl GiveValues for Fragments {
    ghost AreMade = { λ list. ⊤ };

    ghost Gives = { λ list what. what ≡ fragments (given_fragments list) };

    ghost NeedNoMemory = { λ list. ⊤ };

    ghost IsOwnRefusal = { λ list refusal. ⊥ };

    #[inline(always)]
    fn own_refusal(&self, alloc: Global) -> Option<BindRefusal> {
        None
    }

    #[inline(always)]
    fn given(&self) -> BorrowedGiven<'_, '_> {
        BorrowedGiven::Fragments(self)
    }
}

/// The text of a query that is accepted for the purpose.
pub(crate) fn bind_list(
    alloc: Global,
    query: &[u8],
    list: &Fragments,
    purpose: Purpose,
) -> Result<Vec<u8>, BindRefusal>
    requires accepted { IsAccepted purpose query.now }
    ensures bound { IfOk result (λ text. OnQuery purpose query.now (λ ts.
        IsFragmentsText purpose.scope ts (given_fragments list.now) text.items)) }
    ensures refused { IfErr result (λ refusal. OnQuery purpose query.now (λ ts.
        IsCauseOrMemory purpose.scope ts (fragments (given_fragments list.now)) refusal)) }
    ensures mixed { OnQuery purpose query.now (λ ts. (refusal : said.BindRefusal) →
        mixed_refusal ts (fragments (given_fragments list.now)) ≡ Some refusal →
        IsErrOf result refusal) }
{
    let wide_names = purpose.wide_names;
    match purpose.scope {
        Scope::OneMode {
            no_backslash_escape,
        } => in_one_mode(alloc, query, list, no_backslash_escape, wide_names),
        Scope::EitherMode => in_either_mode(alloc, query, list, wide_names),
        Scope::AnyConnection => for_any_connection(alloc, query, list, wide_names),
    }
}

// The text for one mode.
fn in_one_mode(
    alloc: Global,
    query: &[u8],
    list: &Fragments,
    no_backslash_escape: bool,
    wide_names: bool,
) -> Result<Vec<u8>, BindRefusal>
    ensures bound { IfOk result (λ text.
        OnTokensIn (reading_with wide_names no_backslash_escape) query.now (λ ts.
        IsBoundFragments no_backslash_escape ts (given_fragments list.now) text.items)) }
    ensures refused { IfErr result (λ refusal.
        OnTokensIn (reading_with wide_names no_backslash_escape) query.now (λ ts.
        IsCauseOrMemory (Scope.OneMode no_backslash_escape) ts
        (fragments (given_fragments list.now)) refusal)) }
    ensures mixed { OnTokensIn (reading_with wide_names no_backslash_escape) query.now (λ ts.
        (refusal : said.BindRefusal) →
        mixed_refusal ts (fragments (given_fragments list.now)) ≡ Some refusal →
        IsErrOf result refusal) }
{
    let reading = Reading {
        no_backslash_escape,
        wide_names,
    };
    of_fragments(bound_fragments(alloc, query, list, reading))
}

// The text of a steady query for any connection.
fn for_any_connection(
    alloc: Global,
    query: &[u8],
    list: &Fragments,
    wide_names: bool,
) -> Result<Vec<u8>, BindRefusal>
    requires { IsSteady query.now }
    ensures bound { IfOk result (λ text. OnTokensIn (reading_with wide_names true) query.now (λ ts.
        IsSteadyFragments ts (given_fragments list.now) text.items)) }
    ensures refused { IfErr result (λ refusal.
        OnTokensIn (reading_with wide_names true) query.now (λ ts.
        IsCauseOrMemory Scope.AnyConnection ts (fragments (given_fragments list.now)) refusal)) }
    ensures mixed { OnTokensIn (reading_with wide_names true) query.now (λ ts.
        (refusal : said.BindRefusal) →
        mixed_refusal ts (fragments (given_fragments list.now)) ≡ Some refusal →
        IsErrOf result refusal) }
{
    of_steady(bind_steady_fragments(alloc, query, list, wide_names))
}

// The text for either mode, of a query with no backslash in a string.
fn in_either_mode(
    alloc: Global,
    query: &[u8],
    list: &Fragments,
    wide_names: bool,
) -> Result<Vec<u8>, BindRefusal>
    requires { OnTokensIn (reading_with wide_names true) query.now (λ ts.
        first_backslash ts ≡ None) }
    ensures bound { IfOk result (λ text. OnTokensIn (reading_with wide_names true) query.now (λ ts.
        IsFragmentsInBothModes ts (given_fragments list.now) text.items)) }
    ensures refused { IfErr result (λ refusal.
        OnTokensIn (reading_with wide_names true) query.now (λ ts.
        IsCauseOrMemory Scope.AnyConnection ts (fragments (given_fragments list.now)) refusal)) }
    ensures mixed { OnTokensIn (reading_with wide_names true) query.now (λ ts.
        (refusal : said.BindRefusal) →
        mixed_refusal ts (fragments (given_fragments list.now)) ≡ Some refusal →
        IsErrOf result refusal) }
{
    of_steady(filled_in_both(alloc, query, list, wide_names))
}

// The same, or the error of steady fragments.
fn filled_in_both(
    alloc: Global,
    query: &[u8],
    list: &Fragments,
    wide_names: bool,
) -> Result<Vec<u8>, SteadyFragmentsError>
    requires { OnTokensIn (reading_with wide_names true) query.now (λ ts.
        first_backslash ts ≡ None) }
    ensures bound { IfOk result (λ text. OnTokensIn (reading_with wide_names true) query.now (λ ts.
        IsFragmentsInBothModes ts (given_fragments list.now) text.items)) }
    ensures refused { OnTokensIn (reading_with wide_names true) query.now (λ ts.
        IfErr result (IsFragmentsRefusal ts (given_fragments list.now))) }
    ensures mixed { OnTokensIn (reading_with wide_names true) query.now (λ ts.
        HasName ts × HasMark ts →
        IsErrOf result (SteadyFragmentsError.Fragments FragmentsError.Mixed)) }
{
    let reading = Reading {
        no_backslash_escape: true,
        wide_names,
    };
    let placed = placed_fragments(alloc, query, list, reading, true)?;
    if let Some(place) = first_unsteady_place(placed.as_slice()) {
        return Err(SteadyFragmentsError::UnsteadyFragment { place });
    }
    let text = filled_query(alloc, query, placed.as_slice(), reading, &SteadyForm)?;
    Ok(text)
}
