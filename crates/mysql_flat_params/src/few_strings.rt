//! Binding a few values by position to a surveyed query, without allocating. The text is written as
//! a length-encoded string.
ghost use Rattle.std.specs.Prelude.{◌≡◌, ◌+◌, ◌≤◌, None, length, map, IfSome};
ghost use Rattle.std.specs.List.{sum};
ghost use Rattle.mysql_values.specs.BorrowedValue.{owned_values};
ghost use Rattle.mysql_named_params.specs.Places.{place_count};
ghost use Rattle.mysql_params_core.specs.Given.{positional};
ghost use Rattle.mysql_binding.specs.FirstCause.{first_float};
ghost use Rattle.mysql_binding.specs.LiteralForm.{literal_len};
ghost use Rattle.mysql_binding.specs.MeasuredText.{IsLookedUp};
ghost use Rattle.mysql_binding.specs.SurveyedQuery.{OnSurveyed};
ghost use Rattle.mysql_binding.specs.TextLength.{pieces_len};
ghost use Rattle.mysql_binding.specs.WrittenText.{IsWrittenText};
ghost use Rattle.mysql_flat_params.specs.RowInRoom.{IsFormInRoom, IsStringInRoom};
ghost use Rattle.mysql_flat_params.specs.declared.outcome.Outcome.TheVariants as outcome;

use crate::few_values::{
    FEW, append_literal, has_few_marks, is_surely_short, literal_lens, read_values,
};
use crate::rows::length_lead;
use mysql_binding::{LiteralForm, PlainForm, SurveyedQuery, append_piece, place_after};
use mysql_values::value::ValueRef;

/// Writes the text with a form's values by position to the front of the room, as a length-encoded
/// string, and returns the string's length. It returns `None` as
/// [`bind_few`](crate::few_values::bind_few) does, and the room is then unchanged. Nothing is
/// allocated.
pub(crate) fn bind_few_string(
    surveyed: &SurveyedQuery<'_>,
    form: &[u8],
    room: &mut [u8],
) -> Option<usize>
    ensures string { IfSome result (λ len. IsFormInRoom surveyed.now.reading
        surveyed.now.query.now form.now room.old room.new (outcome.Done len)) }
    ensures unchanged { result ≡ None → room.new ≡ room.old }
{
    let survey = surveyed.survey;
    if !has_few_marks(survey) || is_surely_short(room.len(), survey.piece_bytes, form.len()) {
        return None;
    }
    let mut values = [ValueRef::NULL; FEW];
    let values = &mut values[..survey.marks];
    if !read_values(form, values) {
        return None;
    }
    write_string(surveyed, values, room)
}

// Writes the text of a query with these values, as a length-encoded string, to the front of the
// room, and returns the string's length. `None` for a float, or if the room is too short. The room
// is then unchanged.
fn write_string(
    surveyed: &SurveyedQuery<'_>,
    values: &[ValueRef<'_>],
    room: &mut [u8],
) -> Option<usize>
    requires few { length values.now ≤ 16 }
    requires places { OnSurveyed surveyed.now (λ ts.
        length (owned_values values.now) ≡ place_count ts) }
    requires looked_up { first_float (owned_values values.now) ≡ None →
        OnSurveyed surveyed.now (λ ts. IsLookedUp ts (positional (owned_values values.now))
        (owned_values values.now)) }
    ensures string { IfSome result (λ len. IsStringInRoom surveyed.now.reading
        surveyed.now.query.now (positional (owned_values values.now)) room.old room.new
        (outcome.Done len)) }
    ensures unchanged { result ≡ None → room.new ≡ room.old }
{
    let mut lens = [0; FEW];
    let lens = &mut lens[..values.len()];
    let plain = PlainForm {
        no_backslash_escape: surveyed.reading.no_backslash_escape,
    };
    let len = literal_lens(
        surveyed.survey.piece_bytes,
        room.len(),
        values,
        &plain,
        lens,
    )?;
    let (lead, count) = length_lead(len as u64);
    if room.len() - len < count {
        return None;
    }
    let (front, back) = room.split_at_mut(count);
    front.copy_from_slice(&lead[..count]);
    fill_marks(surveyed, values, lens, &plain, &mut back[..len]);
    Some(count + len)
}

// Fills `text` with the pieces of the query and, between them, the literals of the values. The
// literals have the lengths `lens`.
fn fill_marks<F: LiteralForm>(
    surveyed: &SurveyedQuery<'_>,
    values: &[ValueRef<'_>],
    lens: &[usize],
    literals: &F,
    text: &mut [u8],
)
    requires no_float { first_float (owned_values values.now) ≡ None }
    requires places { OnSurveyed surveyed.now (λ ts.
        length (owned_values values.now) ≡ place_count ts) }
    requires lens { lens.now
        ≡ map (literal_len (F.literal literals.now)) (owned_values values.now) }
    requires room { OnSurveyed surveyed.now (λ ts.
        length text.old ≡ pieces_len ts + sum lens.now) }
    ensures { OnSurveyed surveyed.now (λ ts.
        IsWrittenText (F.literal literals.now) (F.IsKnown literals.now) ts
        (owned_values values.now) text.new) }
{
    let mut rest = surveyed.query;
    let mut at = 0;
    for (i, value) in values.iter().enumerate() {
        let Some(found) = place_after(surveyed.known, i, rest, surveyed.reading) else {
            unreachable!()
        };
        let (piece, _, after) = found.cut(rest);
        at = append_piece(text, at, piece);
        at = append_literal(text, at, *value, lens[i], literals);
        rest = after;
    }
    append_piece(text, at, rest);
}
