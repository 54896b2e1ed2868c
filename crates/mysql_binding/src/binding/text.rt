//! Writes the text of a query with the literals of values in its places, in a slice of its exact
//! length.
ghost use Rattle.std.specs.Prelude.{◌≡◌, ◌+◌, ◌++◌, ◌≤◌, ℕ, List, None, IfErr, IfOk, IsErrOf, OnOk, OnErr, length, map, take};
ghost use Rattle.std.specs.List.{sum};
ghost use Rattle.mysql_named_params.specs.Places.{HasMark, HasName, place_count};
ghost use Rattle.mysql_params_core.specs.Given.{Given};
ghost use Rattle.mysql_params_core.specs.GivenBorrowed.{given_by_borrowed};
ghost use Rattle.mysql_binding.specs.AppendedText.{AreFound, IsAppended};
ghost use Rattle.mysql_binding.specs.BindErrors.{IsCauseOrMemory};
ghost use Rattle.mysql_binding.specs.FirstCause.{first_cause, first_float};
ghost use Rattle.mysql_binding.specs.LiteralForm.{literal_len};
ghost use Rattle.mysql_binding.specs.MeasuredText.{IsMeasured};
ghost use Rattle.mysql_binding.specs.PlaceValues.{placed_values};
ghost use Rattle.mysql_binding.specs.SurveyedQuery.{OnSurveyed};
ghost use Rattle.mysql_binding.specs.TextLength.{pieces_len};
ghost use Rattle.mysql_binding.specs.WrittenText.{IsGivenText, IsWrittenText};

use crate::bind_error::BindError;
use crate::binding::form::LiteralForm;
use crate::binding::found::place_after;
use crate::binding::literals::{MeasuredText, append_literal};
use crate::binding::place_values::{PlaceValues, ValueList};
use crate::binding::survey::SurveyedQuery;
use crate::binding::{measured_text, measured_values};
use mysql_params_core::params::BorrowedParams;
use std::alloc::{AllocError, Global};

/// The text of a measured query, in a vector of exactly its length.
pub(super) fn written_text<F: LiteralForm>(
    alloc: Global,
    surveyed: &SurveyedQuery<'_>,
    measured: &MeasuredText<'_>,
    form: &F,
) -> Result<Vec<u8>, AllocError>
    requires measured { (given : Given) × OnSurveyed surveyed.now (λ ts.
        IsMeasured (F.literal form.now) ts given measured.now) }
    ensures { IfOk result (λ text. (given : Given) →
        OnSurveyed surveyed.now (λ ts. IsMeasured (F.literal form.now) ts given measured.now) →
        OnSurveyed surveyed.now (λ ts.
        IsGivenText (F.literal form.now) (F.IsKnown form.now) ts given text.items)) }
{
    let mut text = vec![in alloc; 0u8; measured.len]?;
    fill_measured(surveyed, measured, form, text.as_mut_slice());
    Ok(text)
}

/// Writes the text of a measured query over the whole of `room`, which has its length. It allocates
/// nothing and is never refused. For the crates above.
pub fn fill_measured<F: LiteralForm>(
    surveyed: &SurveyedQuery<'_>,
    measured: &MeasuredText<'_>,
    form: &F,
    room: &mut [u8],
)
    requires measured { (given : Given) × OnSurveyed surveyed.now (λ ts.
        IsMeasured (F.literal form.now) ts given measured.now) }
    requires room { length room.old ≡ measured.now.len }
    ensures { (given : Given) →
        OnSurveyed surveyed.now (λ ts. IsMeasured (F.literal form.now) ts given measured.now) →
        OnSurveyed surveyed.now (λ ts.
        IsGivenText (F.literal form.now) (F.IsKnown form.now) ts given room.new) }
{
    let lens = measured.lens.as_slice();
    match &measured.values {
        PlaceValues::Positional(list) => fill_text(surveyed, *list, lens, form, room),
        PlaceValues::Values(list) => fill_text(surveyed, *list, lens, form, room),
        PlaceValues::Named(list) => fill_text(surveyed, list.as_slice(), lens, form, room),
        PlaceValues::Pairs(list) => fill_text(surveyed, list, lens, form, room),
        PlaceValues::Listed(list) => fill_text(surveyed, list.as_slice(), lens, form, room),
    }
}

/// Appends the text of a measured query to another text, so no vector is allocated for it.
pub(super) fn append_measured<F: LiteralForm>(
    surveyed: &SurveyedQuery<'_>,
    measured: &MeasuredText<'_>,
    form: &F,
    text: &mut Vec<u8>,
) -> Result<(), AllocError>
    requires measured { (given : Given) × OnSurveyed surveyed.now (λ ts.
        IsMeasured (F.literal form.now) ts given measured.now) }
    ensures appended { OnOk result ((more : List ℕ) × (text.new.items ≡ text.old.items ++ more)
        × ((given : Given) →
        OnSurveyed surveyed.now (λ ts. IsMeasured (F.literal form.now) ts given measured.now) →
        OnSurveyed surveyed.now (λ ts.
        IsGivenText (F.literal form.now) (F.IsKnown form.now) ts given more))) }
    ensures kept { OnErr result (text.new.items ≡ text.old.items) }
{
    let at = text.len();
    let Some(end) = at.checked_add(measured.len) else {
        return Err(AllocError);
    };
    text.resize(end, 0)?;
    fill_after(surveyed, measured, form, text.as_mut_slice(), at);
    Ok(())
}

/// Appends the text of a surveyed query to another text, in any form of literals. `values` are
/// those that were looked up for its places.
///
/// It is refused for the causes of [`bind_surveyed_as`](crate::bind_surveyed_as) that come after
/// the lookup. After a refusal `text` is unchanged. For the crates above, which write many texts of
/// one query without a map of values.
pub fn append_surveyed<F: LiteralForm>(
    alloc: Global,
    surveyed: &SurveyedQuery<'_>,
    values: PlaceValues<'_>,
    form: &F,
    text: &mut Vec<u8>,
) -> Result<(), BindError>
    requires { (given : Given) × OnSurveyed surveyed.now
        (AreFound given (placed_values values)) }
    ensures appended { OnOk result (IsAppended (F.literal form.now) (F.IsKnown form.now)
        surveyed.now.reading surveyed.now.query.now (placed_values values.entry)
        text.old.items text.new.items) }
    ensures refused { IfErr result (λ error. (given : Given) →
        OnSurveyed surveyed.now (AreFound given (placed_values values.entry)) →
        OnSurveyed surveyed.now (λ ts. IsCauseOrMemory (first_cause ts given) error)) }
    ensures kept { OnErr result (text.new.items ≡ text.old.items) }
{
    let measured = measured_values(alloc, surveyed.survey, values, form)?;
    Ok(append_measured(surveyed, &measured, form, text)?)
}

/// [`bind_surveyed_as`](crate::bind_surveyed_as) after what `text` holds, without allocating a
/// vector for it. It is refused for the same causes, and then `text` is unchanged. For the crates
/// above.
pub fn bind_surveyed_after<F: LiteralForm>(
    alloc: Global,
    surveyed: &SurveyedQuery<'_>,
    params: BorrowedParams<'_, '_>,
    form: &F,
    text: &mut Vec<u8>,
) -> Result<(), BindError>
    ensures appended { OnOk result ((more : List ℕ) × (text.new.items ≡ text.old.items ++ more)
        × OnSurveyed surveyed.now (λ ts. IsGivenText (F.literal form.now) (F.IsKnown form.now) ts
        (given_by_borrowed params.entry) more)) }
    ensures refused { OnSurveyed surveyed.now (λ ts. IfErr result
        (IsCauseOrMemory (first_cause ts (given_by_borrowed params.entry)))) }
    ensures mixed { OnSurveyed surveyed.now (λ ts.
        HasName ts × HasMark ts → IsErrOf result BindError.Mixed) }
    ensures kept { OnErr result (text.new.items ≡ text.old.items) }
{
    let measured = measured_text(alloc, surveyed, params, form)?;
    Ok(append_measured(surveyed, &measured, form, text)?)
}

// Writes the text of a measured query into another text from the index `at` on, and returns the
// index after it. The bytes before `at` are kept.
fn fill_after<F: LiteralForm>(
    surveyed: &SurveyedQuery<'_>,
    measured: &MeasuredText<'_>,
    form: &F,
    text: &mut [u8],
    at: usize,
) -> usize
    requires measured { (given : Given) × OnSurveyed surveyed.now (λ ts.
        IsMeasured (F.literal form.now) ts given measured.now) }
    requires room { at + measured.now.len ≤ length text.old }
    ensures next { result ≡ at + measured.now.len }
    ensures front { (more : List ℕ) × (take result text.new ≡ take at text.old ++ more)
        × ((given : Given) →
        OnSurveyed surveyed.now (λ ts. IsMeasured (F.literal form.now) ts given measured.now) →
        OnSurveyed surveyed.now (λ ts.
        IsGivenText (F.literal form.now) (F.IsKnown form.now) ts given more)) }
{
    let end = at + measured.len;
    let room = &mut text[at..end];
    fill_measured(surveyed, measured, form, room);
    end
}

// Fills `text` with the pieces of the query and, between them, the literals of the values. The
// literals have the lengths `lens`.
fn fill_text<F: LiteralForm, L: ValueList>(
    surveyed: &SurveyedQuery<'_>,
    values: L,
    lens: &[usize],
    form: &F,
    text: &mut [u8],
)
    requires no_float { first_float (L.values values) ≡ None }
    requires places { OnSurveyed surveyed.now (λ ts.
        length (L.values values) ≡ place_count ts) }
    requires lens { lens.now ≡ map (literal_len (F.literal form.now)) (L.values values) }
    requires room { OnSurveyed surveyed.now (λ ts.
        length text.old ≡ pieces_len ts + sum lens.now) }
    ensures { OnSurveyed surveyed.now (λ ts.
        IsWrittenText (F.literal form.now) (F.IsKnown form.now) ts (L.values values)
        text.new) }
{
    let mut rest = surveyed.query;
    let mut at = 0;
    for (i, len) in lens.iter().enumerate() {
        let Some(found) = place_after(surveyed.known, i, rest, surveyed.reading) else {
            unreachable!()
        };
        let (piece, _, after) = found.cut(rest);
        at = append_piece(text, at, piece);
        at = append_literal(text, at, values.at(i), *len, form);
        rest = after;
    }
    append_piece(text, at, rest);
}

/// Copies the piece into the text from the index `at` on, and returns the index after it. The bytes
/// before `at` are kept. For the crate above.
pub fn append_piece(text: &mut [u8], at: usize, piece: &[u8]) -> usize
    requires { at + length piece.now ≤ length text.old }
    ensures next { result ≡ at + length piece.now }
    ensures front { take result text.new ≡ take at text.old ++ piece.now }
{
    let end = at + piece.len();
    text[at..end].copy_from_slice(piece);
    end
}
