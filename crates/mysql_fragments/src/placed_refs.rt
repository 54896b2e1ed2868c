//! Borrowed fragments for the places of a query, in order: why they are refused, and the text in a
//! room of the caller. Both calls are for the crates above, which find the fragments of names
//! themselves. Nothing is allocated.
ghost use Rattle.std.specs.Prelude.{◌≡◌, ◌+◌, false, true, List, None, Some, IfSome, length, option_map};
ghost use Rattle.mysql_named_params.specs.Tokens.{Token};
ghost use Rattle.mysql_binding.specs.FirstCause.{mark_count_differs};
ghost use Rattle.mysql_binding.specs.Survey.{IsSurvey};
ghost use Rattle.mysql_binding.specs.SurveyedQuery.{OnSurveyed};
ghost use Rattle.mysql_binding.specs.TextInRoom.{IsTextInRoom};
ghost use Rattle.mysql_fragments.specs.BorrowedFragments.{AreSaid};
ghost use Rattle.mysql_fragments.specs.FilledText.{ArePlaced, IsFilledQuery};
ghost use Rattle.mysql_fragments.specs.FragmentErrors.{cause_of, later_cause};
ghost use Rattle.mysql_fragments.specs.FragmentsInRoom.{HasFilledLength, IsTooLong};
ghost use Rattle.mysql_fragments.specs.GivenFragments.{GivenFragments};
ghost use Rattle.mysql_fragments.specs.declared.fragment.Fragment as said_fragment;

use crate::borrowed::{borrowed_len, first_borrowed_fault, first_borrowed_float};
use crate::expanded::mark_count_differs;
use crate::filled_refs::fill_borrowed;
use crate::fragment_ref::FragmentRef;
use crate::fragments_error::FragmentsError;
use mysql_binding::{LiteralForm, Survey, SurveyedQuery, TextInRoom};

/// The first cause that refuses the fragments once they are in the order of the places: the number
/// of marks, a place that doesn't stand alone, a float, a fault. The caller has already refused
/// names and marks in one query, names without a fragment and fragments of the other kind.
pub fn placed_error(survey: Survey, placed: &[FragmentRef<'_>]) -> Option<FragmentsError>
    ensures cause { (ts : List Token) (said : List said_fragment.Fragment) →
        AreSaid placed.now said → IsSurvey survey ts → option_map cause_of result
        ≡ option_map Some (later_cause true ts said) }
    ensures count { result ≡ None →
        mark_count_differs survey.names survey.marks (length placed.now) ≡ false }
{
    if mark_count_differs(survey, placed.len()) {
        return Some(FragmentsError::MarkCount {
            marks: survey.marks,
            fragments: placed.len(),
        });
    }
    if let Some((place, at)) = survey.not_alone {
        return Some(FragmentsError::NotAlone { place, at });
    }
    if let Some(place) = first_borrowed_float(placed) {
        return Some(FragmentsError::Float { place });
    }
    match first_borrowed_fault(placed) {
        Some((place, fault)) => Some(FragmentsError::Fault { place, fault }),
        None => None,
    }
}

/// The text of a query with these fragments in its places, with the literals in any form. It is
/// written to the front of the room. If the room is shorter than the text, the length of the text
/// is returned. `None` if the text would be longer than `isize::MAX` bytes. In these two cases the
/// room is unchanged.
pub fn bind_placed_into<F: LiteralForm>(
    surveyed: &SurveyedQuery<'_>,
    placed: &[FragmentRef<'_>],
    form: &F,
    room: &mut [u8],
) -> Option<TextInRoom>
    requires places { surveyed.now.survey.names + surveyed.now.survey.marks
        ≡ length placed.now }
    ensures text { (given : GivenFragments) (said : List said_fragment.Fragment) →
        AreSaid placed.now said →
        OnSurveyed surveyed.now (λ ts. ArePlaced true ts given said) →
        OnSurveyed surveyed.now (λ ts. IfSome result (IsTextInRoom
        (IsFilledQuery (F.literal form.now) (F.IsKnown form.now)
        surveyed.now.reading.no_backslash_escape ts given)
        (HasFilledLength (F.literal form.now) surveyed.now.reading.no_backslash_escape ts given)
        room.old room.new)) }
    ensures too_long { result ≡ None → (said : List said_fragment.Fragment) →
        AreSaid placed.now said → OnSurveyed surveyed.now (λ ts.
        IsTooLong (F.literal form.now) ts said) }
    ensures unchanged { result ≡ None → room.new ≡ room.old }
{
    let len = borrowed_len(surveyed.survey.piece_bytes, placed, form)?;
    if room.len() < len {
        return Some(TextInRoom::TooShort { len });
    }
    fill_borrowed(surveyed, placed, form, &mut room[..len]);
    Some(TextInRoom::Written { len })
}
