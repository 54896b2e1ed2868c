//! Queries with borrowed fragments in their places.
ghost use Rattle.std.specs.Prelude.{◌≡◌, ◌+◌, ◌<◌, true, List, None, Some, IfErr, IfOk, IsErrOf, OnErr, length, option_map};
ghost use Rattle.mysql_values.specs.Literal.{literal_of};
ghost use Rattle.mysql_named_params.specs.Tokens.{OnTokens, Token};
ghost use Rattle.mysql_named_params.specs.Reading.{OnTokensIn};
ghost use Rattle.mysql_named_params.specs.Places.{HasName, HasMark};
ghost use Rattle.mysql_binding.specs.Survey.{IsSurvey};
ghost use Rattle.mysql_binding.specs.TextInRoom.{HasTextOf, IsTextInRoom};
ghost use Rattle.mysql_fragments.specs.BorrowedFragments.{AreSaid};
ghost use Rattle.mysql_fragments.specs.Expanded.{IsBoundFragments};
ghost use Rattle.mysql_fragments.specs.FragmentErrors.{IsCauseElseMemory, cause_of, first_cause};
ghost use Rattle.mysql_fragments.specs.FragmentsInRoom.{IsCauseOrTooLong, IsTooLong};
ghost use Rattle.mysql_fragments.specs.GivenFragments.{positional};
ghost use Rattle.mysql_fragments.specs.declared.fragment.Fragment as said_fragment;

use crate::filled_refs::filled_borrowed;
use crate::fragment_ref::FragmentRef;
use crate::fragments_error::FragmentsError;
use crate::placed_refs::{bind_placed_into, placed_error};
use mysql_binding::{KEPT_PLACES, NO_PLACE, PlainForm, Survey, SurveyedQuery, TextInRoom};
use mysql_named_params::places::Reading;
use mysql_params_core::params::ParamsConfusionError;
use std::alloc::{AllocError, Global};

/// The query with a fragment in the place of each mark, its values as literals. The text is the one
/// that `bind_fragments_in` gives for positional fragments of the same content. The fragments are
/// borrowed: only one vector of the text's length is allocated.
///
/// It refuses for the same causes in the same order. [`RowsRef::new`](crate::RowsRef::new) already
/// refuses rows of two lengths.
///
/// `Memory` may come in place of any text. It also comes if the text would be longer than
/// `isize::MAX` bytes.
// A query has one token list in each mode (`mysql_named_params::laws::one_token_list`), so the
// clauses speak of the same `ts`.
pub fn bind_borrowed_fragments(
    alloc: Global,
    query: &[u8],
    fragments: &[FragmentRef<'_>],
    no_backslash_escape: bool,
) -> Result<Vec<u8>, FragmentsError>
    ensures bound { (said : List said_fragment.Fragment) → AreSaid fragments.now said →
        OnTokens no_backslash_escape query.now (λ ts. IfOk result (λ text.
        IsBoundFragments no_backslash_escape ts (positional said) text.items)) }
    ensures refused { (said : List said_fragment.Fragment) → AreSaid fragments.now said →
        OnTokens no_backslash_escape query.now (λ ts. IfErr result
        (IsCauseElseMemory (first_cause true ts (positional said)))) }

    // A query with a name and a mark is refused without allocating.
    ensures mixed { OnTokens no_backslash_escape query.now (λ ts.
        HasName ts × HasMark ts → IsErrOf result FragmentsError.Mixed) }
{
    let reading = Reading {
        no_backslash_escape,
        wide_names: false,
    };
    bind_borrowed_in(alloc, query, fragments, reading)
}

/// The body of [`bind_borrowed_fragments`], for a query in any reading.
pub(crate) fn bind_borrowed_in(
    alloc: Global,
    query: &[u8],
    fragments: &[FragmentRef<'_>],
    reading: Reading,
) -> Result<Vec<u8>, FragmentsError>
    ensures bound { (said : List said_fragment.Fragment) → AreSaid fragments.now said →
        OnTokensIn reading query.now (λ ts. IfOk result (λ text.
        IsBoundFragments reading.no_backslash_escape ts (positional said) text.items)) }
    ensures refused { (said : List said_fragment.Fragment) → AreSaid fragments.now said →
        OnTokensIn reading query.now (λ ts. IfErr result
        (IsCauseElseMemory (first_cause true ts (positional said)))) }
    ensures mixed { OnTokensIn reading query.now (λ ts.
        HasName ts × HasMark ts → IsErrOf result FragmentsError.Mixed) }
{
    let mut first = [NO_PLACE; KEPT_PLACES];
    let surveyed = SurveyedQuery::new(query, reading, &mut first);
    if let Some(error) = borrowed_error(surveyed.survey, fragments) {
        return Err(error);
    }
    let form = PlainForm {
        no_backslash_escape: reading.no_backslash_escape,
    };
    Ok(filled_borrowed(alloc, &surveyed, fragments, &form)?)
}

/// [`bind_borrowed_fragments`] into a room, a buffer of the caller: the text is written to its
/// front. If the room is shorter than the text, the length of the text is returned. Nothing is
/// allocated. It refuses first, for the same causes in the same order, and leaves the room as it
/// was.
///
/// `Memory` comes only if the text would be longer than `isize::MAX` bytes.
pub fn bind_borrowed_fragments_into(
    query: &[u8],
    fragments: &[FragmentRef<'_>],
    no_backslash_escape: bool,
    room: &mut [u8],
) -> Result<TextInRoom, FragmentsError>
    ensures bound { (said : List said_fragment.Fragment) → AreSaid fragments.now said →
        OnTokens no_backslash_escape query.now (λ ts. IfOk result (IsTextInRoom
        (IsBoundFragments no_backslash_escape ts (positional said))
        (HasTextOf (IsBoundFragments no_backslash_escape ts (positional said)))
        room.old room.new)) }
    ensures refused { (said : List said_fragment.Fragment) → AreSaid fragments.now said →
        OnTokens no_backslash_escape query.now (λ ts. IfErr result
        (IsCauseOrTooLong (first_cause true ts (positional said))
        (IsTooLong (literal_of no_backslash_escape) ts said))) }
    ensures mixed { OnTokens no_backslash_escape query.now (λ ts.
        HasName ts × HasMark ts → IsErrOf result FragmentsError.Mixed) }
    ensures unchanged { OnErr result (room.new ≡ room.old) }
{
    let reading = Reading {
        no_backslash_escape,
        wide_names: false,
    };
    bind_borrowed_into_in(query, fragments, reading, room)
}

/// The body of [`bind_borrowed_fragments_into`], for a query in any reading.
pub(crate) fn bind_borrowed_into_in(
    query: &[u8],
    fragments: &[FragmentRef<'_>],
    reading: Reading,
    room: &mut [u8],
) -> Result<TextInRoom, FragmentsError>
    ensures bound { (said : List said_fragment.Fragment) → AreSaid fragments.now said →
        OnTokensIn reading query.now (λ ts. IfOk result (IsTextInRoom
        (IsBoundFragments reading.no_backslash_escape ts (positional said))
        (HasTextOf (IsBoundFragments reading.no_backslash_escape ts (positional said)))
        room.old room.new)) }
    ensures refused { (said : List said_fragment.Fragment) → AreSaid fragments.now said →
        OnTokensIn reading query.now (λ ts. IfErr result
        (IsCauseOrTooLong (first_cause true ts (positional said))
        (IsTooLong (literal_of reading.no_backslash_escape) ts said))) }
    ensures mixed { OnTokensIn reading query.now (λ ts.
        HasName ts × HasMark ts → IsErrOf result FragmentsError.Mixed) }
    ensures unchanged { OnErr result (room.new ≡ room.old) }
{
    let mut first = [NO_PLACE; KEPT_PLACES];
    let surveyed = SurveyedQuery::new(query, reading, &mut first);
    if let Some(error) = borrowed_error(surveyed.survey, fragments) {
        return Err(error);
    }
    let form = PlainForm {
        no_backslash_escape: reading.no_backslash_escape,
    };
    match bind_placed_into(&surveyed, fragments, &form, room) {
        Some(text) => Ok(text),
        None => Err(FragmentsError::Memory(AllocError)),
    }
}

// Why borrowed fragments are refused for a query with this survey: the first cause.
fn borrowed_error(survey: Survey, fragments: &[FragmentRef<'_>]) -> Option<FragmentsError>
    ensures cause { (ts : List Token) (said : List said_fragment.Fragment) →
        AreSaid fragments.now said → IsSurvey survey ts → option_map cause_of result
        ≡ option_map Some (first_cause true ts (positional said)) }
    ensures mixed { 0 < survey.names → 0 < survey.marks → result ≡ Some FragmentsError.Mixed }
    ensures count { result ≡ None → survey.names + survey.marks ≡ length fragments.now }
{
    if survey.names == 0 {
        return placed_error(survey, fragments);
    }
    if survey.marks > 0 {
        return Some(FragmentsError::Mixed);
    }
    Some(FragmentsError::Confusion(ParamsConfusionError::PositionalParamsForNamedQuery))
}
