//! The text, for a purpose, of a query with borrowed values.
ghost use Rattle.std.specs.Prelude.{◌≡◌, true, Some, IfErr, IfOk, IsErrOf};
ghost use Rattle.mysql_named_params.specs.Reading.{OnTokensIn, reading_with};
ghost use Rattle.mysql_params_core.specs.GivenBorrowed.{given_by_borrowed};
ghost use Rattle.mysql_binding.specs.WrittenText.{IsGivenText};
ghost use Rattle.mysql_steady_text.specs.SteadyLiteral.{steady_literal_of};
ghost use Rattle.mysql_steady_text.specs.SteadyLiterals.{IsSteadyFor};
ghost use Rattle.mysql_bind_call.specs.AnyGiven.{values};
ghost use Rattle.mysql_bind_call.specs.BoundTexts.{IsValuesText};
ghost use Rattle.mysql_bind_call.specs.Refusals.{IsCauseOrMemory, mixed_refusal};
ghost use Rattle.mysql_bind_call.specs.Accepted.{IsAccepted, OnQuery};
ghost use Rattle.mysql_bind_call.specs.declared.refusal.BindRefusal as said;

use crate::errors::of_values;
use crate::refusal::BindRefusal;
use mysql_binding::{LiteralForm, PlainForm, bind_borrowed_as};
use mysql_named_params::places::Reading;
use mysql_params_core::params::BorrowedParams;
use mysql_steady_text::SteadyForm;
use mysql_steady_text::purpose::{Purpose, Scope};
use std::alloc::Global;

/// The text of a query that is accepted for the purpose. Values are written as plain literals for
/// one mode, and as steady ones for the other scopes.
#[inline(always)]
pub(crate) fn bind_borrowed(
    alloc: Global,
    query: &[u8],
    params: BorrowedParams<'_, '_>,
    purpose: Purpose,
) -> Result<Vec<u8>, BindRefusal>
    requires accepted { IsAccepted purpose query.now }
    ensures bound { IfOk result (λ text. OnQuery purpose query.now (λ ts.
        IsValuesText purpose.scope ts (given_by_borrowed params.entry) text.items)) }
    ensures refused { IfErr result (λ refusal. OnQuery purpose query.now (λ ts.
        IsCauseOrMemory purpose.scope ts (values (given_by_borrowed params.entry)) refusal)) }
    ensures mixed { OnQuery purpose query.now (λ ts. (refusal : said.BindRefusal) →
        mixed_refusal ts (values (given_by_borrowed params.entry)) ≡ Some refusal →
        IsErrOf result refusal) }
{
    let wide_names = purpose.wide_names;
    match purpose.scope {
        Scope::OneMode {
            no_backslash_escape,
        } => {
            let reading = Reading {
                no_backslash_escape,
                wide_names,
            };
            let form = PlainForm {
                no_backslash_escape,
            };
            written(alloc, query, params, reading, &form)
        }
        Scope::EitherMode => steady(alloc, query, params, wide_names),
        Scope::AnyConnection => steady(alloc, query, params, wide_names),
    }
}

// The text with steady literals. The modes agree on a query that is accepted for either mode or for
// any connection, so it is read in one of them.
#[inline(always)]
fn steady(
    alloc: Global,
    query: &[u8],
    params: BorrowedParams<'_, '_>,
    wide_names: bool,
) -> Result<Vec<u8>, BindRefusal>
    ensures text { IfOk result (λ text. OnTokensIn (reading_with wide_names true) query.now (λ ts.
        IsGivenText steady_literal_of IsSteadyFor ts (given_by_borrowed params.entry) text.items)) }
    ensures refused { IfErr result (λ refusal. OnTokensIn (reading_with wide_names true) query.now
        (λ ts. IsCauseOrMemory Scope.EitherMode ts (values (given_by_borrowed params.entry))
        refusal)) }
    ensures mixed { OnTokensIn (reading_with wide_names true) query.now (λ ts.
        (refusal : said.BindRefusal) →
        mixed_refusal ts (values (given_by_borrowed params.entry)) ≡ Some refusal →
        IsErrOf result refusal) }
{
    let reading = Reading {
        no_backslash_escape: true,
        wide_names,
    };
    written(alloc, query, params, reading, &SteadyForm)
}

// The text of a query in a reading, with literals of any form.
#[inline(always)]
fn written<F: LiteralForm>(
    alloc: Global,
    query: &[u8],
    params: BorrowedParams<'_, '_>,
    reading: Reading,
    form: &F,
) -> Result<Vec<u8>, BindRefusal>
    ensures text { IfOk result (λ text. OnTokensIn reading query.now (λ ts.
        IsGivenText (F.literal form.now) (F.IsKnown form.now) ts (given_by_borrowed params.entry)
        text.items)) }
    ensures refused { IfErr result (λ refusal. OnTokensIn reading query.now (λ ts.
        IsCauseOrMemory Scope.EitherMode ts (values (given_by_borrowed params.entry)) refusal)) }
    ensures mixed { OnTokensIn reading query.now (λ ts. (refusal : said.BindRefusal) →
        mixed_refusal ts (values (given_by_borrowed params.entry)) ≡ Some refusal →
        IsErrOf result refusal) }
{
    of_values(bind_borrowed_as(alloc, query, params, reading, form))
}
