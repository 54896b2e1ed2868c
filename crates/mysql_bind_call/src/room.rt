//! The one call that binds, into a room of the caller.
ghost use Rattle.std.specs.Prelude.{◌≡◌, ◌⊎◌, Some, IfErr, IfOk, IsErrOf, OnErr, length};
ghost use Rattle.mysql_fragments.specs.GivenFragments.{given_fragments};
ghost use Rattle.mysql_binding.specs.TextInRoom.{HasTextOf, IsTextInRoom};
ghost use Rattle.mysql_bind_call.specs.Accepted.{IsAccepted, OnQuery};
ghost use Rattle.mysql_bind_call.specs.AnyGiven.{AnyGiven, fragments};
ghost use Rattle.mysql_bind_call.specs.BoundTexts.{IsFragmentsText, IsTextFor};
ghost use Rattle.mysql_bind_call.specs.GivenBy.{IsGivenBy};
ghost use Rattle.mysql_bind_call.specs.Refusals.{IsCauseOrMemory, IsRefusalFor, early_refusal, mixed_refusal};
ghost use Rattle.mysql_bind_call.specs.declared.refusal.BindRefusal as said;

use crate::ends::values_into;
use crate::fragments::bind_list;
use crate::given::BorrowedGiven;
use crate::one_call::refusal_before;
use crate::refusal::BindRefusal;
use crate::values::GiveValues;
use mysql_binding::TextInRoom;
use mysql_fragments::Fragments;
use mysql_steady_text::purpose::Purpose;
use std::alloc::Global;

/// [`bind`](crate::bind) into `room`: the text is written to its front. If `room` is too short, the
/// length of the text is returned. It is refused for the same causes, and then `room` is unchanged.
/// No vector is allocated for the text, except for that of [`Fragments`].
pub fn bind_into<V: GiveValues>(
    alloc: Global,
    query: &[u8],
    values: &V,
    purpose: Purpose,
    room: &mut [u8],
) -> Result<TextInRoom, BindRefusal>
    ensures bound { IfOk result (λ told. V.AreMade values.now × ((given : AnyGiven) →
        V.Gives values.now given → OnQuery purpose query.now (λ ts.
        IsTextInRoom (IsTextFor purpose.scope ts given)
        (HasTextOf (IsTextFor purpose.scope ts given)) room.old room.new told))) }
    ensures accepted { IfOk result (λ told. IsAccepted purpose query.now) }
    ensures refused { IfErr result (λ refusal. V.IsOwnRefusal values.now refusal
        ⊎ (V.AreMade values.now × ((given : AnyGiven) → V.Gives values.now given →
        OnQuery purpose query.now (λ ts. IsRefusalFor purpose query.now ts given refusal)))) }

    // These are refused without allocating.
    ensures early { V.NeedNoMemory values.now → (given : AnyGiven) →
        V.Gives values.now given → OnQuery purpose query.now (λ ts. (refusal : said.BindRefusal) →
        early_refusal purpose query.now ts given ≡ Some refusal → IsErrOf result refusal) }
    ensures unchanged { OnErr result (room.new ≡ room.old) }
{
    match refusal_before(alloc, query, values, purpose) {
        Some(refusal) => Err(refusal),
        None => text_into(alloc, query, values.given(), purpose, room),
    }
}

// The text of a query that is accepted for the purpose, at the front of the room.
#[inline(always)]
fn text_into(
    alloc: Global,
    query: &[u8],
    given: BorrowedGiven<'_, '_>,
    purpose: Purpose,
    room: &mut [u8],
) -> Result<TextInRoom, BindRefusal>
    requires accepted { IsAccepted purpose query.now }
    ensures bound { IfOk result (λ told. (what : AnyGiven) → IsGivenBy given.entry what →
        OnQuery purpose query.now (λ ts. IsTextInRoom (IsTextFor purpose.scope ts what)
        (HasTextOf (IsTextFor purpose.scope ts what)) room.old room.new told)) }
    ensures refused { IfErr result (λ refusal. (what : AnyGiven) → IsGivenBy given.entry what →
        OnQuery purpose query.now (λ ts. IsCauseOrMemory purpose.scope ts what refusal)) }
    ensures mixed { (what : AnyGiven) → IsGivenBy given.entry what →
        OnQuery purpose query.now (λ ts. (refusal : said.BindRefusal) →
        mixed_refusal ts what ≡ Some refusal → IsErrOf result refusal) }
    ensures unchanged { OnErr result (room.new ≡ room.old) }
{
    match given {
        BorrowedGiven::Values(params) => values_into(alloc, query, params, purpose, room),
        BorrowedGiven::Fragments(list) => list_into(alloc, query, list, purpose, room),
    }
}

// The same with fragments. The text is made in a vector and copied.
fn list_into(
    alloc: Global,
    query: &[u8],
    list: &Fragments,
    purpose: Purpose,
    room: &mut [u8],
) -> Result<TextInRoom, BindRefusal>
    requires accepted { IsAccepted purpose query.now }
    ensures bound { IfOk result (λ told. OnQuery purpose query.now (λ ts. IsTextInRoom
        (IsFragmentsText purpose.scope ts (given_fragments list.now))
        (HasTextOf (IsFragmentsText purpose.scope ts (given_fragments list.now)))
        room.old room.new told)) }
    ensures refused { IfErr result (λ refusal. OnQuery purpose query.now (λ ts.
        IsCauseOrMemory purpose.scope ts (fragments (given_fragments list.now)) refusal)) }
    ensures mixed { OnQuery purpose query.now (λ ts. (refusal : said.BindRefusal) →
        mixed_refusal ts (fragments (given_fragments list.now)) ≡ Some refusal →
        IsErrOf result refusal) }
    ensures unchanged { OnErr result (room.new ≡ room.old) }
{
    match bind_list(alloc, query, list, purpose) {
        Ok(text) => Ok(put_front(text.as_slice(), room)),
        Err(refusal) => Err(refusal),
    }
}

// Copies the text to the front of the room, if it is long enough.
fn put_front(text: &[u8], room: &mut [u8]) -> TextInRoom
    ensures { IsTextInRoom (λ front. front ≡ text.now) (λ len. len ≡ length text.now)
        room.old room.new result }
{
    let len = text.len();
    if room.len() < len {
        return TextInRoom::TooShort { len };
    }
    room[..len].copy_from_slice(text);
    TextInRoom::Written { len }
}
