//! Queries with fragments in the places of wide names, which may have capitals.
ghost use Rattle.std.specs.Prelude.{◌≡◌, false, true, List, IfErr, IfOk, IsErrOf, OnErr};
ghost use Rattle.mysql_values.specs.Literal.{literal_of};
ghost use Rattle.mysql_named_params.specs.Reading.{OnWideTokens};
ghost use Rattle.mysql_named_params.specs.Places.{HasName, HasMark};
ghost use Rattle.mysql_binding.specs.TextInRoom.{HasTextOf, IsTextInRoom};
ghost use Rattle.mysql_fragments.specs.BorrowedFragments.{AreSaid};
ghost use Rattle.mysql_fragments.specs.Expanded.{IsBoundFragments, IsExpandedQuery};
ghost use Rattle.mysql_fragments.specs.FragmentErrors.{IsCauseElseMemory, IsCauseOrMemory, first_cause};
ghost use Rattle.mysql_fragments.specs.FragmentsInRoom.{IsCauseOrTooLong, IsTooLong};
ghost use Rattle.mysql_fragments.specs.GivenFragments.{given_fragments, positional};
ghost use Rattle.mysql_fragments.specs.declared.fragment.Fragment as said_fragment;

use crate::bound_refs::{bind_borrowed_in, bind_borrowed_into_in};
use crate::expanded::{ExpandedQuery, expanded};
use crate::fragment::Fragments;
use crate::fragment_ref::FragmentRef;
use crate::fragments_error::FragmentsError;
use mysql_binding::TextInRoom;
use mysql_named_params::places::Reading;
use std::alloc::Global;

/// [`expanded_query_in`](crate::expanded_query_in) by wide names.
pub fn expanded_wide_query_in(
    alloc: Global,
    query: &[u8],
    fragments: &Fragments,
    no_backslash_escape: bool,
) -> Result<ExpandedQuery, FragmentsError>
    ensures expanded { OnWideTokens no_backslash_escape query.now (λ ts. IfOk result (λ expanded.
        IsExpandedQuery false no_backslash_escape ts (given_fragments fragments.now)
        expanded.query.items expanded.values.items)) }
    ensures refused { OnWideTokens no_backslash_escape query.now (λ ts. IfErr result
        (IsCauseOrMemory (first_cause false ts (given_fragments fragments.now)))) }

    // A query with a name and a mark is refused without allocating.
    ensures mixed { OnWideTokens no_backslash_escape query.now (λ ts.
        HasName ts × HasMark ts → IsErrOf result FragmentsError.Mixed) }
{
    let reading = Reading {
        no_backslash_escape,
        wide_names: true,
    };
    expanded(alloc, query, fragments, reading, false)
}

/// [`bind_borrowed_fragments`](crate::bind_borrowed_fragments) for a query that is read by wide
/// names. A query with such a name is refused, because the fragments are by position.
pub fn bind_wide_borrowed_fragments(
    alloc: Global,
    query: &[u8],
    fragments: &[FragmentRef<'_>],
    no_backslash_escape: bool,
) -> Result<Vec<u8>, FragmentsError>
    ensures bound { (said : List said_fragment.Fragment) → AreSaid fragments.now said →
        OnWideTokens no_backslash_escape query.now (λ ts. IfOk result (λ text.
        IsBoundFragments no_backslash_escape ts (positional said) text.items)) }
    ensures refused { (said : List said_fragment.Fragment) → AreSaid fragments.now said →
        OnWideTokens no_backslash_escape query.now (λ ts. IfErr result
        (IsCauseElseMemory (first_cause true ts (positional said)))) }

    // A query with a name and a mark is refused without allocating.
    ensures mixed { OnWideTokens no_backslash_escape query.now (λ ts.
        HasName ts × HasMark ts → IsErrOf result FragmentsError.Mixed) }
{
    let reading = Reading {
        no_backslash_escape,
        wide_names: true,
    };
    bind_borrowed_in(alloc, query, fragments, reading)
}

/// [`bind_borrowed_fragments_into`](crate::bind_borrowed_fragments_into) for a query that is read
/// by wide names.
pub fn bind_wide_borrowed_fragments_into(
    query: &[u8],
    fragments: &[FragmentRef<'_>],
    no_backslash_escape: bool,
    room: &mut [u8],
) -> Result<TextInRoom, FragmentsError>
    ensures bound { (said : List said_fragment.Fragment) → AreSaid fragments.now said →
        OnWideTokens no_backslash_escape query.now (λ ts. IfOk result (IsTextInRoom
        (IsBoundFragments no_backslash_escape ts (positional said))
        (HasTextOf (IsBoundFragments no_backslash_escape ts (positional said)))
        room.old room.new)) }
    ensures refused { (said : List said_fragment.Fragment) → AreSaid fragments.now said →
        OnWideTokens no_backslash_escape query.now (λ ts. IfErr result
        (IsCauseOrTooLong (first_cause true ts (positional said))
        (IsTooLong (literal_of no_backslash_escape) ts said))) }
    ensures mixed { OnWideTokens no_backslash_escape query.now (λ ts.
        HasName ts × HasMark ts → IsErrOf result FragmentsError.Mixed) }
    ensures unchanged { OnErr result (room.new ≡ room.old) }
{
    let reading = Reading {
        no_backslash_escape,
        wide_names: true,
    };
    bind_borrowed_into_in(query, fragments, reading, room)
}
