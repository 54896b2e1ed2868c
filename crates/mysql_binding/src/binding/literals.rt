//! The literals of values in any form, and the length of the text with them before it is written.
ghost use Rattle.std.specs.Prelude.{◌≡◌, ◌+◌, ◌^◌, ◌<◌, IfOk, map, ◌++◌, ◌≤◌, false, None, Some, IfSome, OnErr, length, take};
ghost use Rattle.std.specs.List.{All, sum};
ghost use Rattle.mysql_values.specs.Value.{FieldsInRange};
ghost use Rattle.mysql_values.specs.Literal.{is_float};
ghost use Rattle.mysql_binding.specs.LiteralForm.{literal_len, written_literal};
ghost use Rattle.mysql_binding.specs.FirstCause.{first_float};
ghost use Rattle.mysql_binding.specs.PlaceValues.{placed_values};
ghost use Rattle.mysql_binding.specs.PushedLiteral.{IsKnownUnlessFloat};

use crate::binding::form::LiteralForm;
use crate::binding::place_values::{LiteralValue, PlaceValues, ValueList};
use mysql_values::value::Value;
use std::alloc::{AllocError, Global};

/// The values of a query's places and the length of the text that is written from them.
#[derive(Debug, Drop)]
pub struct MeasuredText<'p> {
    /// The values of the places.
    pub values: PlaceValues<'p>,
    /// The length of each value's literal.
    pub lens: Vec<usize>,
    /// The length of the text.
    pub len: usize,
}

/// The values with the lengths of their literals and of the text. `piece_bytes` is the length of
/// the pieces between the places.
///
/// If the text would be longer than `isize::MAX` bytes, the error is out of memory.
pub(super) fn with_lengths<'p, F: LiteralForm>(
    alloc: Global,
    piece_bytes: usize,
    values: PlaceValues<'p>,
    form: &F,
) -> Result<MeasuredText<'p>, AllocError>
    ensures values { IfOk result (λ measured. measured.values ≡ values.entry) }
    ensures in_range { IfOk result (λ measured. All FieldsInRange (placed_values values.entry)) }
    ensures lens { IfOk result (λ measured. measured.lens.items
        ≡ map (literal_len (F.literal form.now)) (placed_values values.entry)) }
    ensures len { IfOk result (λ measured. measured.len ≡ piece_bytes + sum measured.lens.items) }
    ensures fits { IfOk result (λ measured. measured.len < 2 ^ 63) }
{
    let (lens, len) = literal_lens(alloc, piece_bytes, &values, form)?;
    Ok(MeasuredText { values, lens, len })
}

// The length of each value's literal, and of the text with these literals and `piece_bytes` other
// bytes. A float has the length 0. The error is also out of memory if the text would be longer than
// `isize::MAX` bytes.
fn literal_lens<F: LiteralForm>(
    alloc: Global,
    piece_bytes: usize,
    values: &PlaceValues<'_>,
    form: &F,
) -> Result<(Vec<usize>, usize), AllocError>
    ensures in_range { IfOk result (λ both. All FieldsInRange (placed_values values.now)) }
    ensures lens { IfOk result (λ both.
        both.0.items ≡ map (literal_len (F.literal form.now)) (placed_values values.now)) }
    ensures len { IfOk result (λ both. both.1 ≡ piece_bytes + sum both.0.items) }
    ensures fits { IfOk result (λ both. both.1 < 2 ^ 63) }
{
    match values {
        PlaceValues::Positional(list) => lens_in(alloc, piece_bytes, *list, form),
        PlaceValues::Values(list) => lens_in(alloc, piece_bytes, *list, form),
        PlaceValues::Named(list) => lens_in(alloc, piece_bytes, list.as_slice(), form),
        PlaceValues::Pairs(list) => lens_in(alloc, piece_bytes, list, form),
        PlaceValues::Listed(list) => lens_in(alloc, piece_bytes, list.as_slice(), form),
    }
}

// The same for one kind of list.
fn lens_in<F: LiteralForm, L: ValueList>(
    alloc: Global,
    piece_bytes: usize,
    values: L,
    form: &F,
) -> Result<(Vec<usize>, usize), AllocError>
    ensures in_range { IfOk result (λ both. All FieldsInRange (L.values values)) }
    ensures lens { IfOk result (λ both.
        both.0.items ≡ map (literal_len (F.literal form.now)) (L.values values)) }
    ensures len { IfOk result (λ both. both.1 ≡ piece_bytes + sum both.0.items) }
    ensures fits { IfOk result (λ both. both.1 < 2 ^ 63) }
{
    let count = values.count();
    let mut lens = Vec::with_capacity(alloc, count)?;
    let Some(mut len) = end_after(piece_bytes, 0) else {
        return Err(AllocError);
    };
    for place in 0..count {
        let Some(end) = end_after(len, literal_len(values.at(place), form)) else {
            return Err(AllocError);
        };
        lens.push(end - len)?;
        len = end;
    }
    Ok((lens, len))
}

/// The place of the first float.
pub(super) fn first_float(values: &PlaceValues<'_>) -> Option<usize>
    ensures { result ≡ first_float (placed_values values.now) }
{
    match values {
        PlaceValues::Positional(list) => first_float_in(*list),
        PlaceValues::Values(list) => first_float_in(*list),
        PlaceValues::Named(list) => first_float_in(list.as_slice()),
        PlaceValues::Pairs(list) => first_float_in(list),
        PlaceValues::Listed(list) => first_float_in(list.as_slice()),
    }
}

// The same for one kind of list.
fn first_float_in<L: ValueList>(values: L) -> Option<usize>
    ensures { result ≡ first_float (L.values values) }
{
    for place in 0..values.count() {
        if values.at(place).is_float() {
            return Some(place);
        }
    }
    None
}

/// The length of the literal of a value, 0 for a float. For the crate above.
#[tactic(auto, using(crate::proofs::TextLengthLemmas::length_or_zero))]
pub fn literal_len<F: LiteralForm, V: LiteralValue>(value: V, form: &F) -> u128
    ensures len { result ≡ literal_len (F.literal form.now) (V.value value) }
    ensures in_range { FieldsInRange (V.value value) }
{
    value.len_in(form).unwrap_or(0)
}

/// Writes the literal of a value into the text from the index `at` on, and returns the index after
/// it. The value isn't a float, and its literal has `len` bytes. The bytes before `at` are kept.
pub(super) fn append_literal<F: LiteralForm, V: LiteralValue>(
    text: &mut [u8],
    at: usize,
    value: V,
    len: usize,
    form: &F,
) -> usize
    requires no_float { is_float (V.value value) ≡ false }
    requires len { len ≡ literal_len (F.literal form.now) (V.value value) }
    requires room { at + len ≤ length text.old }
    ensures next { result ≡ at + len }
    ensures front { take result text.new
        ≡ take at text.old ++ written_literal (F.literal form.now) (V.value value) }
    ensures literal { F.literal form.now (V.value value)
        ≡ Some (written_literal (F.literal form.now) (V.value value)) }
    ensures known { F.IsKnown form.now (V.value value)
        (written_literal (F.literal form.now) (V.value value)) }
{
    let end = at + len;
    value.put_in(form, &mut text[at..end]);
    end
}

/// Appends the literal of a value to the text; a float appends nothing. If memory is refused, the
/// text is unchanged. For the crates above, to write a text in one pass if its length isn't known
/// yet.
pub fn push_literal<F: LiteralForm>(
    text: &mut Vec<u8>,
    value: &Value,
    form: &F,
) -> Result<(), AllocError>
    ensures text { IfOk result (λ done. text.new.items
        ≡ text.old.items ++ written_literal (F.literal form.now) value.now) }
    ensures known { IfOk result (λ done.
        IsKnownUnlessFloat (F.literal form.now) (F.IsKnown form.now) value.now) }
    ensures kept { OnErr result (text.new.items ≡ text.old.items) }

    // Nothing is allocated for a float.
    ensures memory { OnErr result (is_float value.now ≡ false) }
{
    let Some(len) = value.len_in(form) else {
        return Ok(());
    };
    let at = text.len();
    let Some(end) = end_after(at, len) else {
        return Err(AllocError);
    };
    text.resize(end, 0)?;
    append_literal(text.as_mut_slice(), at, value, end - at, form);
    Ok(())
}

/// The index `len` bytes after `at`, if it is at most `isize::MAX`.
pub(super) fn end_after(at: usize, len: u128) -> Option<usize>
    ensures end { IfSome result (λ end. end ≡ at + len) }
    ensures fits { IfSome result (λ end. end < 2 ^ 63) }
    ensures too_long { result ≡ None → 2 ^ 63 ≤ at + len }
{
    let end = (at as u128).checked_add(len)?;
    if end > isize::MAX as u128 {
        return None;
    }
    Some(end as usize)
}

/// Writes the literal of a value into the text from the index `at` on, and returns the index after
/// it. For a float it writes nothing. The bytes before `at` are kept. For the crate above.
pub fn put_literal<F: LiteralForm, V: LiteralValue>(
    text: &mut [u8],
    at: usize,
    value: V,
    form: &F,
) -> usize
    requires room { at + literal_len (F.literal form.now) (V.value value) ≤ length text.old }
    ensures next { result ≡ at + literal_len (F.literal form.now) (V.value value) }
    ensures front { take result text.new
        ≡ take at text.old ++ written_literal (F.literal form.now) (V.value value) }
    ensures known { IsKnownUnlessFloat (F.literal form.now) (F.IsKnown form.now)
        (V.value value) }
{
    match value.len_in(form) {
        Some(len) => append_literal(text, at, value, len as usize, form),
        None => at,
    }
}
