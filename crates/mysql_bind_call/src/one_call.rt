//! The one call that binds.
ghost use Rattle.std.specs.Prelude.{◌≡◌, ◌⊎◌, None, Some, IfErr, IfOk, IfSome, IsErrOf};
ghost use Rattle.mysql_bind_call.specs.AnyGiven.{AnyGiven};
ghost use Rattle.mysql_bind_call.specs.BoundTexts.{IsTextFor};
ghost use Rattle.mysql_bind_call.specs.GivenBy.{IsGivenBy};
ghost use Rattle.mysql_bind_call.specs.Refusals.{IsCauseOrMemory, IsRefusalFor, early_refusal, mixed_refusal};
ghost use Rattle.mysql_bind_call.specs.Accepted.{IsAccepted, OnQuery};
ghost use Rattle.mysql_bind_call.specs.declared.refusal.BindRefusal as said;

use crate::borrowed_values::bind_borrowed;
use crate::fragments::bind_list;
use crate::given::BorrowedGiven;
use crate::refusal::BindRefusal;
use crate::values::GiveValues;
use mysql_steady_text::purpose::{Purpose, query_refusal};
use std::alloc::Global;

/// The text of a query for a purpose, with a literal or a fragment in the place of each name and
/// mark. Nothing else of the query changes.
///
/// The first of these causes refuses it:
///
/// - `Redefined`: a pair has the name of an earlier pair;
/// - `Query`: the query is refused for the purpose, first for a byte, then for a construct;
/// - `Values`: a cause of [`bind_text_in`](crate::bind_text_in), in its order;
/// - `Fragments`: a cause of [`bind_fragments_in`](crate::bind_fragments_in), in its order;
/// - `UnsteadyFragment`: the purpose isn't one mode, and the name of a fragment has a backslash or
///   a byte from 128 on.
///
/// Out of memory may come in place of any other result, except for the refusals of a query and of
/// one with names and marks. More than 64 pairs also need memory before these.
// A query has one token list in each mode (`mysql_named_params::laws::one_token_list`). One that is
// accepted for either mode or any connection has the same in both. So a clause speaks of one `ts`.
#[inline(always)]
pub fn bind<V: GiveValues>(
    alloc: Global,
    query: &[u8],
    values: &V,
    purpose: Purpose,
) -> Result<Vec<u8>, BindRefusal>
    ensures bound { IfOk result (λ text. V.AreMade values.now × ((given : AnyGiven) →
        V.Gives values.now given → OnQuery purpose query.now (λ ts.
        IsTextFor purpose.scope ts given text.items))) }
    ensures accepted { IfOk result (λ text. IsAccepted purpose query.now) }
    ensures refused { IfErr result (λ refusal. V.IsOwnRefusal values.now refusal
        ⊎ (V.AreMade values.now × ((given : AnyGiven) → V.Gives values.now given →
        OnQuery purpose query.now (λ ts. IsRefusalFor purpose query.now ts given refusal)))) }

    // These are refused without allocating.
    ensures early { V.NeedNoMemory values.now → (given : AnyGiven) →
        V.Gives values.now given → OnQuery purpose query.now (λ ts. (refusal : said.BindRefusal) →
        early_refusal purpose query.now ts given ≡ Some refusal → IsErrOf result refusal) }
{
    match refusal_before(alloc, query, values, purpose) {
        Some(refusal) => Err(refusal),
        None => text_of(alloc, query, values.given(), purpose),
    }
}

/// The refusal before any place is looked at: what is given can't be given to any query, or the
/// query is refused for the purpose.
#[inline(always)]
pub(crate) fn refusal_before<V: GiveValues>(
    alloc: Global,
    query: &[u8],
    values: &V,
    purpose: Purpose,
) -> Option<BindRefusal>
    ensures made { result ≡ None → V.AreMade values.now }
    ensures accepted { result ≡ None → IsAccepted purpose query.now }
    ensures refused { IfSome result (λ refusal. V.IsOwnRefusal values.now refusal
        ⊎ (V.AreMade values.now × ((given : AnyGiven) → V.Gives values.now given →
        OnQuery purpose query.now (λ ts. IsRefusalFor purpose query.now ts given refusal)))) }
    ensures early { IfSome result (λ told. V.NeedNoMemory values.now → (given : AnyGiven) →
        V.Gives values.now given → OnQuery purpose query.now (λ ts. (refusal : said.BindRefusal) →
        early_refusal purpose query.now ts given ≡ Some refusal → told ≡ refusal)) }
{
    if let Some(refusal) = values.own_refusal(alloc) {
        return Some(refusal);
    }
    match query_refusal(query, purpose) {
        Some(why) => Some(BindRefusal::Query(why)),
        None => None,
    }
}

// The text of a query that is accepted for the purpose.
#[inline(always)]
fn text_of(
    alloc: Global,
    query: &[u8],
    given: BorrowedGiven<'_, '_>,
    purpose: Purpose,
) -> Result<Vec<u8>, BindRefusal>
    requires accepted { IsAccepted purpose query.now }
    ensures bound { IfOk result (λ text. (what : AnyGiven) → IsGivenBy given.entry what →
        OnQuery purpose query.now (λ ts. IsTextFor purpose.scope ts what text.items)) }
    ensures refused { IfErr result (λ refusal. (what : AnyGiven) → IsGivenBy given.entry what →
        OnQuery purpose query.now (λ ts. IsCauseOrMemory purpose.scope ts what refusal)) }
    ensures mixed { (what : AnyGiven) → IsGivenBy given.entry what →
        OnQuery purpose query.now (λ ts. (refusal : said.BindRefusal) →
        mixed_refusal ts what ≡ Some refusal → IsErrOf result refusal) }
{
    match given {
        BorrowedGiven::Values(params) => bind_borrowed(alloc, query, params, purpose),
        BorrowedGiven::Fragments(list) => bind_list(alloc, query, list, purpose),
    }
}
