//! The one call that binds, after a text.
ghost use Rattle.std.specs.Prelude.{◌≡◌, ◌⊎◌, Some, IfErr, IfOk, IsErrOf, OnErr};
ghost use Rattle.mysql_fragments.specs.GivenFragments.{given_fragments};
ghost use Rattle.mysql_bind_call.specs.Accepted.{IsAccepted, OnQuery};
ghost use Rattle.mysql_bind_call.specs.AnyGiven.{AnyGiven, fragments};
ghost use Rattle.mysql_bind_call.specs.BoundTexts.{IsAppended, IsFragmentsText, IsTextFor};
ghost use Rattle.mysql_bind_call.specs.GivenBy.{IsGivenBy};
ghost use Rattle.mysql_bind_call.specs.Refusals.{IsCauseOrMemory, IsRefusalFor, early_refusal, mixed_refusal};
ghost use Rattle.mysql_bind_call.specs.declared.refusal.BindRefusal as said;

use crate::ends::values_after;
use crate::fragments::bind_list;
use crate::given::BorrowedGiven;
use crate::one_call::refusal_before;
use crate::refusal::BindRefusal;
use crate::values::GiveValues;
use mysql_fragments::Fragments;
use mysql_steady_text::purpose::Purpose;
use std::alloc::Global;

/// [`bind`](crate::bind), after what `text` holds. It is refused for the same causes, and then
/// `text` is unchanged. No vector is allocated for the text, except for that of [`Fragments`]; but
/// `text` may grow.
pub fn append<V: GiveValues>(
    alloc: Global,
    query: &[u8],
    values: &V,
    purpose: Purpose,
    text: &mut Vec<u8>,
) -> Result<(), BindRefusal>
    ensures bound { IfOk result (λ done. V.AreMade values.now × ((given : AnyGiven) →
        V.Gives values.now given → OnQuery purpose query.now (λ ts.
        IsAppended (IsTextFor purpose.scope ts given) text.old.items text.new.items))) }
    ensures accepted { IfOk result (λ done. IsAccepted purpose query.now) }
    ensures refused { IfErr result (λ refusal. V.IsOwnRefusal values.now refusal
        ⊎ (V.AreMade values.now × ((given : AnyGiven) → V.Gives values.now given →
        OnQuery purpose query.now (λ ts. IsRefusalFor purpose query.now ts given refusal)))) }

    // These are refused without allocating.
    ensures early { V.NeedNoMemory values.now → (given : AnyGiven) →
        V.Gives values.now given → OnQuery purpose query.now (λ ts. (refusal : said.BindRefusal) →
        early_refusal purpose query.now ts given ≡ Some refusal → IsErrOf result refusal) }
    ensures unchanged { OnErr result (text.new.items ≡ text.old.items) }
{
    match refusal_before(alloc, query, values, purpose) {
        Some(refusal) => Err(refusal),
        None => text_after(alloc, query, values.given(), purpose, text),
    }
}

// The text of a query that is accepted for the purpose, after another text.
#[inline(always)]
fn text_after(
    alloc: Global,
    query: &[u8],
    given: BorrowedGiven<'_, '_>,
    purpose: Purpose,
    text: &mut Vec<u8>,
) -> Result<(), BindRefusal>
    requires accepted { IsAccepted purpose query.now }
    ensures bound { IfOk result (λ done. (what : AnyGiven) → IsGivenBy given.entry what →
        OnQuery purpose query.now (λ ts. IsAppended (IsTextFor purpose.scope ts what)
        text.old.items text.new.items)) }
    ensures refused { IfErr result (λ refusal. (what : AnyGiven) → IsGivenBy given.entry what →
        OnQuery purpose query.now (λ ts. IsCauseOrMemory purpose.scope ts what refusal)) }
    ensures mixed { (what : AnyGiven) → IsGivenBy given.entry what →
        OnQuery purpose query.now (λ ts. (refusal : said.BindRefusal) →
        mixed_refusal ts what ≡ Some refusal → IsErrOf result refusal) }
    ensures unchanged { OnErr result (text.new.items ≡ text.old.items) }
{
    match given {
        BorrowedGiven::Values(params) => values_after(alloc, query, params, purpose, text),
        BorrowedGiven::Fragments(list) => list_after(alloc, query, list, purpose, text),
    }
}

// The same with fragments. The text is made in a vector and copied.
fn list_after(
    alloc: Global,
    query: &[u8],
    list: &Fragments,
    purpose: Purpose,
    text: &mut Vec<u8>,
) -> Result<(), BindRefusal>
    requires accepted { IsAccepted purpose query.now }
    ensures bound { IfOk result (λ done. OnQuery purpose query.now (λ ts. IsAppended
        (IsFragmentsText purpose.scope ts (given_fragments list.now))
        text.old.items text.new.items)) }
    ensures refused { IfErr result (λ refusal. OnQuery purpose query.now (λ ts.
        IsCauseOrMemory purpose.scope ts (fragments (given_fragments list.now)) refusal)) }
    ensures mixed { OnQuery purpose query.now (λ ts. (refusal : said.BindRefusal) →
        mixed_refusal ts (fragments (given_fragments list.now)) ≡ Some refusal →
        IsErrOf result refusal) }
    ensures unchanged { OnErr result (text.new.items ≡ text.old.items) }
{
    match bind_list(alloc, query, list, purpose) {
        Ok(bound) => match text.extend_from_slice(bound.as_slice()) {
            Ok(()) => Ok(()),
            Err(error) => Err(BindRefusal::Memory(error)),
        },
        Err(refusal) => Err(refusal),
    }
}
