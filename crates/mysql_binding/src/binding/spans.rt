//! The places of a query as plain numbers that a caller keeps, and binding by these numbers without
//! a walk of the query.
ghost use Rattle.std.specs.Prelude.{◌≡◌, ◌+◌, ◌<◌, ◌≤◌, None, Ok, length, map, take, drop, IfErr, IfOk, IfSome, IsErrOf, OnErr, OnOk};
ghost use Rattle.std.specs.List.{sum};
ghost use Rattle.mysql_named_params.specs.Reading.{OnTokensIn};
ghost use Rattle.mysql_named_params.specs.declared.places.Reading.{Reading};
ghost use Rattle.mysql_named_params.specs.Places.{HasMark, HasName};
ghost use Rattle.mysql_params_core.specs.Given.{named};
ghost use Rattle.mysql_params_core.specs.GivenBorrowed.{given_by_borrowed};
ghost use Rattle.mysql_params_core.specs.Lookup.{lookup};
ghost use Rattle.mysql_params_core.specs.Referents.{referents};
ghost use Rattle.mysql_binding.specs.BindErrors.{IsCauseOrMemory, IsLookupError};
ghost use Rattle.mysql_binding.specs.FirstCause.{first_cause, first_float};
ghost use Rattle.mysql_binding.specs.LiteralForm.{literal_len};
ghost use Rattle.mysql_binding.specs.FoundPlaces.{found_places};
ghost use Rattle.mysql_binding.specs.MeasuredText.{HasGivenLength, IsMeasured};
ghost use Rattle.mysql_binding.specs.PlaceSpans.{IsReady, IsTextAt, StaysInRoom, after_span, outside_len, span_of};
ghost use Rattle.mysql_binding.specs.PlaceValues.{placed_values};
ghost use Rattle.mysql_binding.specs.SpannedQuery.{HasOwnSpans, RefusesNames, spanned_names};
ghost use Rattle.mysql_binding.specs.SurveyedQuery.{OnSurveyed};
ghost use Rattle.mysql_binding.specs.TextInRoom.{IsTextInRoom};
ghost use Rattle.mysql_binding.specs.WrittenText.{IsGivenText};

use crate::bind_error::BindError;
use crate::binding::form::LiteralForm;
use crate::binding::found::all_places;
use crate::binding::kept_values::KeptValues;
use crate::binding::literals::{MeasuredText, append_literal};
use crate::binding::place_values::{PlaceValues, ValueList};
use crate::binding::room::TextInRoom;
use crate::binding::spanned::SpannedQuery;
use crate::binding::survey::SurveyedQuery;
use crate::binding::text::append_piece;
use crate::binding::{given_values, looked_up_values, measured_values};
use mysql_named_params::places::FoundPlace;
use mysql_params_core::params::BorrowedParams;
use std::alloc::{AllocError, Global};

/// The span of a place of a query.
#[derive(Clone, Copy, Debug, PartialEq, Eq)]
#[repr(C)]
pub struct PlaceSpan {
    /// The number of bytes between it and the place before it, or the start of the query.
    pub before: usize,
    /// The number of its bytes. Those of a name include the colon.
    pub len: usize,
}

impl PlaceSpan {
    // The text cut at the place: the bytes before it, its own, and those after it.
    fn cut<'a>(&self, text: &'a [u8]) -> (&'a [u8], &'a [u8], &'a [u8])
        requires in_range { self.now.before + self.now.len ≤ length text.now }
        ensures before { result.0.now ≡ take self.now.before text.now }
        ensures place { result.1.now ≡ take self.now.len (drop self.now.before text.now) }
        ensures after { result.2.now ≡ after_span self.now text.now }
    {
        let (before, from_place) = text.split_at(self.before);
        let (place, after) = from_place.split_at(self.len);
        (before, place, after)
    }
}

/// Writes the spans of a query's places over the whole of `room`, which has one item for each
/// place. If memory is refused, `room` is unchanged. For the crate above.
pub fn place_spans(
    alloc: Global,
    surveyed: &SurveyedQuery<'_>,
    room: &mut [PlaceSpan],
) -> Result<(), AllocError>
    requires { length room.old ≡ surveyed.now.survey.names + surveyed.now.survey.marks }
    ensures spans { OnOk result (OnSurveyed surveyed.now (λ ts.
        room.new ≡ map span_of (found_places ts))) }
    ensures unchanged { OnErr result (room.new ≡ room.old) }
{
    let places = all_places(alloc, surveyed)?;
    write_spans(places.as_slice(), room);
    Ok(())
}

// Writes the spans of these places over the whole of `room`.
fn write_spans(places: &[FoundPlace], room: &mut [PlaceSpan])
    requires { length room.old ≡ length places.now }
    ensures { room.new ≡ map span_of places.now }
{
    for (i, place) in places.iter().enumerate() {
        room[i] = PlaceSpan {
            before: place.before,
            len: place.len,
        };
    }
}

/// [`bind_surveyed_into`](crate::bind_surveyed_into) by the spans of a query's places: the text or
/// the refusal of the query in the reading that has this survey and these spans. The query isn't
/// walked again, and only its bytes outside of the places are copied. For the crate above.
///
/// If the survey or the spans aren't the query's, any text or refusal can come. But nothing is
/// written after the text, and after a refusal `room` is unchanged. A missing name, or values of
/// the other kind, is reported only for the names at these spans.
pub fn bind_spans_into<F: LiteralForm>(
    alloc: Global,
    spanned: &SpannedQuery<'_>,
    params: BorrowedParams<'_, '_>,
    form: &F,
    room: &mut [u8],
) -> Result<TextInRoom, BindError>
    ensures text { (reading : Reading) → HasOwnSpans spanned.now reading →
        OnTokensIn reading spanned.now.query.now (λ ts. IfOk result (IsTextInRoom
        (IsGivenText (F.literal form.now) (F.IsKnown form.now) ts (given_by_borrowed params.entry))
        (HasGivenLength (F.literal form.now) ts (given_by_borrowed params.entry))
        room.old room.new)) }
    ensures refused { (reading : Reading) → HasOwnSpans spanned.now reading →
        OnTokensIn reading spanned.now.query.now (λ ts. IfErr result
        (IsCauseOrMemory (first_cause ts (given_by_borrowed params.entry)))) }
    ensures mixed { (reading : Reading) → HasOwnSpans spanned.now reading →
        OnTokensIn reading spanned.now.query.now (λ ts.
        HasName ts × HasMark ts → IsErrOf result BindError.Mixed) }
    ensures lookup { IfErr result (RefusesNames spanned.now (given_by_borrowed params.entry)) }
    ensures in_room { IfOk result (StaysInRoom room.old room.new) }
    ensures unchanged { OnErr result (room.new ≡ room.old) }
{
    let measured = measured_spans(alloc, spanned, params, form)?;
    let len = measured.len;
    if room.len() < len {
        return Ok(TextInRoom::TooShort { len });
    }
    fill_spans(spanned, &measured, form, &mut room[..len]);
    Ok(TextInRoom::Written { len })
}

// The values and lengths that the text is written from.
fn measured_spans<'p, F: LiteralForm>(
    alloc: Global,
    spanned: &SpannedQuery<'_>,
    params: BorrowedParams<'p, '_>,
    form: &F,
) -> Result<MeasuredText<'p>, BindError>
    ensures ready { IfOk result
        (IsReady (F.literal form.now) spanned.now.spans.now spanned.now.query.now) }
    ensures measured { (reading : Reading) → HasOwnSpans spanned.now reading →
        OnTokensIn reading spanned.now.query.now (λ ts. IfOk result
        (IsMeasured (F.literal form.now) ts (given_by_borrowed params.entry))) }
    ensures refused { (reading : Reading) → HasOwnSpans spanned.now reading →
        OnTokensIn reading spanned.now.query.now (λ ts. IfErr result
        (IsCauseOrMemory (first_cause ts (given_by_borrowed params.entry)))) }
    ensures mixed { (reading : Reading) → HasOwnSpans spanned.now reading →
        OnTokensIn reading spanned.now.query.now (λ ts.
        HasName ts × HasMark ts → IsErrOf result BindError.Mixed) }
    ensures lookup { IfErr result (RefusesNames spanned.now (given_by_borrowed params.entry)) }
{
    let survey = spanned.survey;
    if survey.names > 0 && survey.marks > 0 {
        return Err(BindError::Mixed);
    }
    let values = values_at(alloc, spanned, params)?;
    measured_values(alloc, survey, values, form)
}

// The borrowed values for the names of a query that has no names or no marks.
fn values_at<'p>(
    alloc: Global,
    spanned: &SpannedQuery<'_>,
    params: BorrowedParams<'p, '_>,
) -> Result<PlaceValues<'p>, BindError>
    ensures values { IfOk result (λ values. lookup (given_by_borrowed params.entry)
        (spanned_names spanned.now) ≡ Ok (placed_values values)) }
    ensures refused { IfErr result
        (IsLookupError (given_by_borrowed params.entry) (spanned_names spanned.now)) }
{
    let found = if spanned.survey.names > 0 {
        found_at(alloc, spanned, params)?
    } else {
        given_values(params)
    };
    match found {
        Some(values) => Ok(values),
        None => values_of_list(alloc, spanned, params),
    }
}

// The same for a query with names, if each value is found without memory. No list of the names is
// made.
fn found_at<'p>(
    alloc: Global,
    spanned: &SpannedQuery<'_>,
    params: BorrowedParams<'p, '_>,
) -> Result<Option<PlaceValues<'p>>, AllocError>
    requires some { 0 < spanned.now.survey.names }
    ensures { IfOk result (λ found. IfSome found (λ values. lookup (given_by_borrowed params.entry)
        (spanned_names spanned.now) ≡ Ok (placed_values values))) }
{
    match params {
        BorrowedParams::Named(entries) => values_in_at(alloc, spanned, entries),
        BorrowedParams::Sorted(entries) => values_in_at(alloc, spanned, entries),
        BorrowedParams::SortedPairs(entries) => values_in_at(alloc, spanned, entries),
        BorrowedParams::Pairs(pairs) => {
            if pairs.are_few() {
                values_in_at(alloc, spanned, pairs)
            } else {
                Ok(None)
            }
        }
        _ => Ok(None),
    }
}

// The same for one kind of parameters. Each kind has a loop of its own, so the kind is chosen once
// and not for each name.
fn values_in_at<'p, M: KeptValues<'p>>(
    alloc: Global,
    spanned: &SpannedQuery<'_>,
    entries: &'p M,
) -> Result<Option<PlaceValues<'p>>, AllocError>
    requires some { 0 < spanned.now.survey.names }
    ensures { IfOk result (λ found. IfSome found (λ values.
        lookup (named (M.values entries.now)) (spanned_names spanned.now)
        ≡ Ok (placed_values values))) }
{
    let spans = spanned.name_spans();
    let mut kept = Vec::with_capacity(alloc, spans.len())?;
    let mut rest = spanned.query;
    for span in spans {
        let (_, place, after) = span.cut(rest);
        let Some(value) = entries.find(&place[1..]) else {
            return Ok(None);
        };
        kept.push(value)?;
        rest = after;
    }
    Ok(Some(entries.placed(kept)))
}

// The same by a list of the names, which reports a name without a value.
fn values_of_list<'p>(
    alloc: Global,
    spanned: &SpannedQuery<'_>,
    params: BorrowedParams<'p, '_>,
) -> Result<PlaceValues<'p>, BindError>
    ensures values { IfOk result (λ values. lookup (given_by_borrowed params.entry)
        (spanned_names spanned.now) ≡ Ok (placed_values values)) }
    ensures refused { IfErr result
        (IsLookupError (given_by_borrowed params.entry) (spanned_names spanned.now)) }
{
    let names = span_names(alloc, spanned)?;
    looked_up_values(alloc, params, names.as_slice())
}

// The bytes of the first places, as many as there are names, each without its first byte: slices of
// the query.
fn span_names<'q>(alloc: Global, spanned: &SpannedQuery<'q>) -> Result<Vec<&'q [u8]>, AllocError>
    ensures { IfOk result (λ list. referents list.items ≡ spanned_names spanned.now) }
{
    let spans = spanned.name_spans();
    let mut list = Vec::with_capacity(alloc, spans.len())?;
    let mut rest = spanned.query;
    for span in spans {
        let (_, place, after) = span.cut(rest);
        list.push(&place[1..])?;
        rest = after;
    }
    Ok(list)
}

// Fills `room` with the text of a measured query whose places have these spans.
fn fill_spans<F: LiteralForm>(
    spanned: &SpannedQuery<'_>,
    measured: &MeasuredText<'_>,
    form: &F,
    room: &mut [u8],
)
    requires ready { IsReady (F.literal form.now) spanned.now.spans.now spanned.now.query.now
        measured.now }
    requires room { length room.old ≡ measured.now.len }
    ensures { IsTextAt (F.literal form.now) (F.IsKnown form.now) spanned.now.spans.now
        spanned.now.query.now (placed_values measured.now.values) room.new }
{
    let lens = measured.lens.as_slice();
    match &measured.values {
        PlaceValues::Positional(list) => fill_in(spanned, *list, lens, form, room),
        PlaceValues::Values(list) => fill_in(spanned, *list, lens, form, room),
        PlaceValues::Named(list) => fill_in(spanned, list.as_slice(), lens, form, room),
        PlaceValues::Pairs(list) => fill_in(spanned, list, lens, form, room),
        PlaceValues::Listed(list) => fill_in(spanned, list.as_slice(), lens, form, room),
    }
}

// The same for one kind of list, with the lengths of the values' literals.
fn fill_in<F: LiteralForm, L: ValueList>(
    spanned: &SpannedQuery<'_>,
    values: L,
    lens: &[usize],
    form: &F,
    room: &mut [u8],
)
    requires each { length (L.values values) ≡ length spanned.now.spans.now }
    requires no_float { first_float (L.values values) ≡ None }
    requires lens { lens.now ≡ map (literal_len (F.literal form.now)) (L.values values) }
    requires room { length room.old
        ≡ outside_len spanned.now.spans.now spanned.now.query.now + sum lens.now }
    ensures { IsTextAt (F.literal form.now) (F.IsKnown form.now) spanned.now.spans.now
        spanned.now.query.now (L.values values) room.new }
{
    let spans = spanned.spans;
    let mut rest = spanned.query;
    let mut at = 0;
    for (i, len) in lens.iter().enumerate() {
        let (piece, _, after) = spans[i].cut(rest);
        at = append_piece(room, at, piece);
        at = append_literal(room, at, values.at(i), *len, form);
        rest = after;
    }
    append_piece(room, at, rest);
}
