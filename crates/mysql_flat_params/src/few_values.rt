//! Binding a few values by position to a query whose spans are known, without allocating.
ghost use Rattle.std.specs.Prelude.{◌≡◌, ◌≢◌, ◌+◌, ◌++◌, ◌<◌, ◌≤◌, [], Ok, None, Some, length, map, true, false, take, IfSome};
ghost use Rattle.std.specs.List.{sum};
ghost use Rattle.mysql_wire_part.specs.ParseBuf.{left};
ghost use Rattle.mysql_named_params.specs.declared.places.Reading.{Reading};
ghost use Rattle.mysql_params_core.specs.Given.{positional};
ghost use Rattle.mysql_values.specs.BorrowedValue.{owned, owned_values};
ghost use Rattle.mysql_values.specs.BinaryReading.{read_bytes_value, read_integer};
ghost use Rattle.mysql_values.specs.Literal.{is_float};
ghost use Rattle.mysql_binding.specs.FirstCause.{first_float};
ghost use Rattle.mysql_binding.specs.LiteralForm.{literal_len, written_literal};
ghost use Rattle.mysql_binding.specs.PlaceSpans.{IsTextAt, StaysInRoom, after_span, outside_len};
ghost use Rattle.mysql_binding.specs.SpannedQuery.{HasOwnSpans};
ghost use Rattle.mysql_binding.specs.TextInRoom.{IsTextInRoom};
ghost use Rattle.mysql_binding.specs.declared.binding.room.TextInRoom.TheVariants as in_room;
ghost use Rattle.mysql_flat_params.specs.FewValues.{IsFewBound};
ghost use Rattle.mysql_flat_params.specs.FlatForm.{IsFormReading, read_value};
ghost use Rattle.mysql_flat_params.specs.RowNames.{IsReadUnder};

use crate::form::{Spot, eat_value_ref, is_unsigned_parameter};
use mysql_binding::{LiteralForm, PlaceSpan, SpannedQuery, Survey, append_piece};
use mysql_values::value::ValueRef;
use mysql_wire_part::ParseBuf;

/// At most this many values are kept on the stack.
pub(crate) const FEW: usize = 16;

// The numbers of the column types that most values have.
const LONG_LONG: u8 = 8;

const VAR_STRING: u8 = 253;

// A literal is at most this many bytes shorter than its parameter, which has one of these types and
// a name of one byte.
const MOST_SHORTER: usize = 10;

/// Writes the text with a form's values by position to the front of the room, and returns its
/// length.
///
/// `None` if there are no values or more than a few, if the name of one isn't the byte 0, if the
/// room is too short, or if anything is to be refused. The room is then unchanged. Nothing is
/// allocated.
pub(crate) fn bind_few<F: LiteralForm>(
    spanned: &SpannedQuery<'_>,
    form: &[u8],
    literals: &F,
    room: &mut [u8],
) -> Option<usize>
    ensures text { IfSome result (λ len. (reading : Reading) → HasOwnSpans spanned.now reading →
        IsFewBound (F.literal literals.now) (F.IsKnown literals.now) reading spanned.now.query.now
        form.now room.old room.new len) }
    ensures some_form { IfSome result (λ len. form.now ≢ []) }
    ensures in_room { IfSome result (λ len.
        StaysInRoom room.old room.new (in_room.Written len)) }
    ensures unchanged { result ≡ None → room.new ≡ room.old }
{
    let survey = spanned.survey;
    if !has_few_marks(survey) || is_surely_short(room.len(), survey.piece_bytes, form.len()) {
        return None;
    }
    let mut values = [ValueRef::NULL; FEW];
    let values = &mut values[..survey.marks];
    if !read_values(form, values) {
        return None;
    }
    write_few(spanned, values, literals, room)
}

/// Whether a room of this length is surely too short for the text of a form of this length and a
/// query with this many bytes outside of its places. Such a room is refused before the literals are
/// measured, since the call for any number of values measures them again.
pub(crate) fn is_surely_short(room_len: usize, piece_bytes: usize, form_len: usize) -> bool {
    room_len < piece_bytes.saturating_add(form_len.saturating_sub(MOST_SHORTER * FEW))
}

/// Whether a query with this survey has a few marks, no names, and only places that stand alone.
pub(crate) fn has_few_marks(survey: Survey) -> bool
    ensures no_names { result ≡ true → survey.names ≡ 0 }
    ensures some { result ≡ true → 0 < survey.marks }
    ensures few { result ≡ true → survey.marks ≤ 16 }
    ensures alone { result ≡ true → survey.not_alone ≡ None }
{
    survey.names == 0 && 0 < survey.marks && survey.marks <= FEW && survey.not_alone.is_none()
}

/// Reads the values of a form over the whole of `values`, if it has exactly as many, and the name
/// of each is the byte 0. Otherwise it returns false, and some values may have changed.
pub(crate) fn read_values<'f>(form: &'f [u8], values: &mut [ValueRef<'f>]) -> bool
    requires some { 0 < length values.old }
    ensures read { result ≡ true →
        IsFormReading form.now (Ok (positional (owned_values values.new))) }
{
    let mut rest = ParseBuf(form);
    for i in 0..values.len() {
        let spot = Spot {
            place: i,
            position: form.len() - rest.len(),
        };
        let Some(value) = value_by_position(spot, &mut rest) else {
            return false;
        };
        values[i] = value;
    }
    rest.is_empty()
}

// The value of the next parameter, if its name is the byte 0 and it is read.
fn value_by_position<'f>(spot: Spot, rest: &mut ParseBuf<'f>) -> Option<ValueRef<'f>>
    ensures { IfSome result (λ value. IsReadUnder spot.place spot.position [] (owned value)
        (left rest.old) (left rest.new)) }
{
    let [name_len, bytes @ ..] = rest.0 else {
        return None;
    };
    if *name_len != 0 {
        return None;
    }
    let mut after = ParseBuf(bytes);
    let value = value_at_front(spot, &mut after)?;
    *rest = after;
    Some(value)
}

// The value of a parameter, after its name, if it is read.
fn value_at_front<'f>(spot: Spot, rest: &mut ParseBuf<'f>) -> Option<ValueRef<'f>>
    ensures { IfSome result (λ value. read_value spot.place spot.position (left rest.old)
        ≡ Ok (owned value, left rest.new)) }
{
    let [number, flags, bytes @ ..] = rest.0 else {
        return None;
    };
    let mut after = ParseBuf(bytes);
    let value = match *number {
        LONG_LONG => whole_number(is_unsigned_parameter(*flags), &mut after)?,
        VAR_STRING => string(&mut after)?,
        _ => eat_value_ref(spot, *number, *flags, &mut after).ok()?,
    };
    *rest = after;
    Some(value)
}

// A whole number of 8 bytes.
fn whole_number<'f>(unsigned: bool, rest: &mut ParseBuf<'f>) -> Option<ValueRef<'f>>
    ensures { IfSome result (λ value.
        read_integer 8 unsigned (left rest.old) ≡ Ok (owned value, left rest.new)) }
{
    let number = rest.checked_eat_u64_le()?;
    if !unsigned {
        return Some(ValueRef::Int(number.cast_signed()));
    }
    match i64::try_from(number) {
        Ok(number) => Some(ValueRef::Int(number)),
        Err(_) => Some(ValueRef::UInt(number)),
    }
}

// A length-encoded string.
fn string<'f>(rest: &mut ParseBuf<'f>) -> Option<ValueRef<'f>>
    ensures { IfSome result (λ value.
        read_bytes_value (left rest.old) ≡ Ok (owned value, left rest.new)) }
{
    match rest.eat_lenenc_str() {
        Ok(text) => Some(ValueRef::Bytes(text)),
        Err(_) => None,
    }
}

// Writes the text of a query with these values at the front of the room, and returns its length.
// `None` for a float, or if the room is too short. The room is then unchanged.
fn write_few<F: LiteralForm>(
    spanned: &SpannedQuery<'_>,
    values: &[ValueRef<'_>],
    literals: &F,
    room: &mut [u8],
) -> Option<usize>
    requires each { length values.now ≡ length spanned.now.spans.now }
    requires few { length values.now ≤ 16 }
    ensures no_float { IfSome result (λ len. first_float (owned_values values.now) ≡ None) }
    ensures text { IfSome result (λ len. IsTextAt (F.literal literals.now) (F.IsKnown literals.now)
        spanned.now.spans.now spanned.now.query.now (owned_values values.now)
        (take len room.new)) }
    ensures in_room { IfSome result (λ len.
        StaysInRoom room.old room.new (in_room.Written len)) }
    ensures unchanged { result ≡ None → room.new ≡ room.old }
{
    let mut lens = [0; FEW];
    let lens = &mut lens[..values.len()];
    let len = literal_lens(
        spanned.survey.piece_bytes,
        room.len(),
        values,
        literals,
        lens,
    )?;
    fill_spans(spanned, values, lens, literals, &mut room[..len]);
    Some(len)
}

/// Writes the lengths of the values' literals over the whole of `lens`, and returns the length of
/// the text with these literals and `piece_bytes` other bytes. `None` for a float, or if the text
/// is longer than `room_len`.
pub(crate) fn literal_lens<F: LiteralForm>(
    piece_bytes: usize,
    room_len: usize,
    values: &[ValueRef<'_>],
    literals: &F,
    lens: &mut [usize],
) -> Option<usize>
    requires each { length lens.old ≡ length values.now }
    ensures no_float { IfSome result (λ len. first_float (owned_values values.now) ≡ None) }
    ensures lens { IfSome result (λ len.
        lens.new ≡ map (literal_len (F.literal literals.now)) (owned_values values.now)) }
    ensures len { IfSome result (λ len. len ≡ piece_bytes + sum lens.new) }
    ensures fits { IfSome result (λ len. len ≤ room_len) }
{
    if piece_bytes > room_len {
        return None;
    }
    let mut at = piece_bytes;
    for (i, value) in values.iter().enumerate() {
        let len = literals.len(*value)?;
        if len > (room_len - at) as u128 {
            return None;
        }
        lens[i] = len as usize;
        at += len as usize;
    }
    Some(at)
}

// Fills `room` with the text of a query whose places have these spans. The literals of the values
// have these lengths.
fn fill_spans<F: LiteralForm>(
    spanned: &SpannedQuery<'_>,
    values: &[ValueRef<'_>],
    lens: &[usize],
    literals: &F,
    room: &mut [u8],
)
    requires each { length values.now ≡ length spanned.now.spans.now }
    requires no_float { first_float (owned_values values.now) ≡ None }
    requires lens { lens.now
        ≡ map (literal_len (F.literal literals.now)) (owned_values values.now) }
    requires room { length room.old
        ≡ outside_len spanned.now.spans.now spanned.now.query.now + sum lens.now }
    ensures { IsTextAt (F.literal literals.now) (F.IsKnown literals.now) spanned.now.spans.now
        spanned.now.query.now (owned_values values.now) room.new }
{
    let spans = spanned.spans;
    let mut rest = spanned.query;
    let mut at = 0;
    for (i, value) in values.iter().enumerate() {
        let (piece, after) = around(spans[i], rest);
        at = append_piece(room, at, piece);
        at = append_literal(room, at, *value, lens[i], literals);
        rest = after;
    }
    append_piece(room, at, rest);
}

// The bytes before a place and those after it.
fn around<'a>(span: PlaceSpan, text: &'a [u8]) -> (&'a [u8], &'a [u8])
    requires in_range { span.before + span.len ≤ length text.now }
    ensures before { result.0.now ≡ take span.before text.now }
    ensures after { result.1.now ≡ after_span span text.now }
{
    (&text[..span.before], &text[span.before + span.len..])
}

/// Writes the literal of a value, which has `len` bytes, into the text from the index `at` on, and
/// returns the index after it. The bytes before `at` are kept.
pub(crate) fn append_literal<F: LiteralForm>(
    text: &mut [u8],
    at: usize,
    value: ValueRef<'_>,
    len: usize,
    literals: &F,
) -> usize
    requires no_float { is_float (owned value) ≡ false }
    requires len { len ≡ literal_len (F.literal literals.now) (owned value) }
    requires room { at + len ≤ length text.old }
    ensures next { result ≡ at + len }
    ensures front { take result text.new
        ≡ take at text.old ++ written_literal (F.literal literals.now) (owned value.entry) }
    ensures literal { F.literal literals.now (owned value.entry)
        ≡ Some (written_literal (F.literal literals.now) (owned value.entry)) }
    ensures known { F.IsKnown literals.now (owned value.entry)
        (written_literal (F.literal literals.now) (owned value.entry)) }
{
    let end = at + len;
    literals.put(value, &mut text[at..end]);
    end
}
