//! The names of a query, in a room of the caller.
//!
//! A query without a byte `?` has no marks. If the room may be long enough for its answer, one walk
//! gathers the query with marks and its names in two vectors, which are then copied. Otherwise
//! nothing is allocated: one walk sums the lengths, and a second one writes if the room is long
//! enough.
ghost use Rattle.std.specs.Prelude.{◌≡◌, ◌≢◌, ◌+◌, ◌*◌, ◌≤◌, ◌<◌, ◌++◌, ◌∷◌, [], length, take, drop, IfOk, true};
ghost use Rattle.mysql_wire_part.specs.Lenenc.{lenenc_spelling};
ghost use Rattle.mysql_named_params.specs.Bytes.{question_mark};
ghost use Rattle.mysql_named_params.specs.Tokens.{OnTokens, text_of};
ghost use Rattle.mysql_named_params.specs.Reading.{OnTokensIn};
ghost use Rattle.mysql_named_params.specs.Places.{names, marks, with_marks, HasName};
ghost use Rattle.mysql_named_params.specs.Parsed.{parsed};
ghost use Rattle.mysql_flat_params.specs.IntoRoom.{IfMixed, IfMixedIn, IsInRoom, IsInRoomOrMemory, IsNamesAnswer, IsNamesAnswerIn, IsNamesOutcome, IsNamesOutcomeIn};
ghost use Rattle.mysql_flat_params.specs.NamesAnswer.{lenenc_row, names_answer};
ghost use Rattle.mysql_flat_params.specs.NamesSurvey.{IsNamesSurvey};
ghost use Rattle.mysql_flat_params.specs.Outcomes.{IfDone, IfTooLong, UnlessDone};

use crate::outcome::Outcome;
use memchr::memchr;
use mysql_named_params::places::{PlaceKind, Reading, first_place_in, first_place_inlined};
use mysql_wire_part::{fill_lenenc_str, lenenc_str_len, put_lenenc_str};
use std::alloc::{AllocError, Global};

/// Writes a query with `?` in the place of each name to the front of the room, and then each name
/// in order, with repeats. Each is a length-encoded string. Query and names are those that
/// [`ParsedNamedParams::parse_in`](mysql_named_params::named_params::ParsedNamedParams::parse_in)
/// gives in a mode.
///
/// `Done` has the length of the answer; the rest of the room is unchanged. `Room` has the length
/// that the room would need. A query with names and marks is `Mixed`. `OutOfMemory` comes only for
/// a query with names and without marks, with a room longer than the query; otherwise nothing is
/// allocated. There are no other outcomes. After every outcome except `Done` the room is as before.
pub fn names_into(
    alloc: Global,
    query: &[u8],
    no_backslash_escape: bool,
    room: &mut [u8],
) -> Outcome
    ensures outcome { IsNamesOutcome no_backslash_escape query.now result }
    ensures written { IfDone result (λ len.
        IsNamesAnswer no_backslash_escape query.now (take len room.new)) }

    // A query with a name and a mark is refused without allocating.
    ensures mixed { IfMixed no_backslash_escape query.now (result ≡ Outcome.Mixed) }

    // Only a query with names and without marks allocates.
    ensures memory { OnTokens no_backslash_escape query.now (λ ts.
        result ≡ Outcome.OutOfMemory → HasName ts × (marks ts ≡ 0)) }
    ensures short_room { result ≡ Outcome.OutOfMemory → length query.now < length room.old }
    ensures rest { IfDone result (λ len.
        (len ≤ length room.old) × (drop len room.new ≡ drop len room.old)) }
    ensures too_long { IfTooLong result (λ len. length room.old < len) }
    ensures unchanged { UnlessDone result (room.new ≡ room.old) }
{
    let reading = Reading {
        no_backslash_escape,
        wide_names: false,
    };
    names_into_read(alloc, query, reading, room)
}

/// [`names_into`] for a query in any reading. Everything is the same, over the names of the
/// reading.
pub fn names_into_read(alloc: Global, query: &[u8], reading: Reading, room: &mut [u8]) -> Outcome
    ensures outcome { IsNamesOutcomeIn reading query.now result }
    ensures written { IfDone result (λ len.
        IsNamesAnswerIn reading query.now (take len room.new)) }

    // A query with a name and a mark is refused without allocating.
    ensures mixed { IfMixedIn reading query.now (result ≡ Outcome.Mixed) }

    // Only a query with names and without marks allocates.
    ensures memory { OnTokensIn reading query.now (λ ts.
        result ≡ Outcome.OutOfMemory → HasName ts × (marks ts ≡ 0)) }
    ensures short_room { result ≡ Outcome.OutOfMemory → length query.now < length room.old }
    ensures rest { IfDone result (λ len.
        (len ≤ length room.old) × (drop len room.new ≡ drop len room.old)) }
    ensures too_long { IfTooLong result (λ len. length room.old < len) }
    ensures unchanged { UnlessDone result (room.new ≡ room.old) }
{
    if query.len() < room.len() && has_names_alone(query, reading) {
        return gathered_in_room(alloc, query, reading, room);
    }
    let survey = names_survey(query, reading);
    if survey.names > 0 && survey.marks > 0 {
        return Outcome::Mixed;
    }
    answer_in_room(query, survey, reading, room)
}

// Whether the query has a name and, from its first place on, no byte `?`: then it has no marks.
fn has_names_alone(query: &[u8], reading: Reading) -> bool
    ensures { OnTokensIn reading query.now (λ ts.
        result ≡ true → HasName ts × (marks ts ≡ 0)) }
{
    let Some(first) = first_place_in(query, reading) else {
        return false;
    };
    let Some(_) = memchr(b'?', &query[first.before..]) else {
        return true;
    };
    false
}

// Gathers the answer to a query without marks, and writes it to the front of the room, if the room
// is long enough.
fn gathered_in_room(alloc: Global, query: &[u8], reading: Reading, room: &mut [u8]) -> Outcome
    requires { OnTokensIn reading query.now (λ ts. marks ts ≡ 0) }
    ensures { OnTokensIn reading query.now (λ ts.
        IsInRoomOrMemory (names_answer (parsed ts)) room.old room.new result) }
{
    match gathered_names(alloc, query, reading) {
        Ok((text, row)) => both_in_room(text.as_slice(), row.as_slice(), room),
        Err(_) => Outcome::OutOfMemory,
    }
}

// The query with a mark in place of each name, and the names, each as a length-encoded string. It
// has no marks of its own.
fn gathered_names(
    alloc: Global,
    query: &[u8],
    reading: Reading,
) -> Result<(Vec<u8>, Vec<u8>), AllocError>
    requires { OnTokensIn reading query.now (λ ts. marks ts ≡ 0) }
    ensures { IfOk result (λ gathered. OnTokensIn reading query.now (λ ts.
        (gathered.0.items ≡ text_of (with_marks ts))
        × (gathered.1.items ≡ lenenc_row (names ts)))) }
{
    let mut text = Vec::with_capacity(alloc, query.len())?;
    let mut row = Vec::new(alloc);
    let mut rest = query;
    while let Some(found) = first_place_inlined(rest, reading) {
        let (before, place, after) = found.cut(rest);
        text.extend_from_slice(before)?;
        text.push(b'?')?;
        put_lenenc_str(&mut row, &place[1..])?;
        rest = after;
    }
    text.extend_from_slice(rest)?;
    Ok((text, row))
}

// Writes a text, as a length-encoded string, and then a row to the front of the room, if the room
// is long enough. Out of memory if no room can be that long.
fn both_in_room(text: &[u8], row: &[u8], room: &mut [u8]) -> Outcome
    ensures { IsInRoomOrMemory (lenenc_spelling text.now ++ row.now) room.old room.new result }
{
    let end = lenenc_str_len(text) as usize;
    let Some(len) = end.checked_add(row.len()) else {
        return Outcome::OutOfMemory;
    };
    if len > room.len() {
        return Outcome::Room { len };
    }
    fill_both(text, row, &mut room[..len]);
    Outcome::Done { len }
}

// Fills the slice with a text, as a length-encoded string, and then a row.
fn fill_both(text: &[u8], row: &[u8], slice: &mut [u8])
    requires { length slice.old ≡ length (lenenc_spelling text.now ++ row.now) }
    ensures { slice.new ≡ lenenc_spelling text.now ++ row.now }
{
    let (front, back) = slice.split_at_mut(lenenc_str_len(text) as usize);
    fill_lenenc_str(front, text);
    back.copy_from_slice(row);
}

// The facts about the names of a query before a byte is written.
#[derive(Clone, Copy)]
struct NamesSurvey {
    // The number of names, with repeats.
    names: usize,
    // The number of marks.
    marks: usize,
    // The length of the query with a mark in place of each name.
    marked_len: usize,
    // The length of the names, each as a length-encoded string.
    row_len: usize,
}

// The survey of a query. A name, with its colon, has at least two bytes, and takes at most one and
// a half times as many in the answer.
fn names_survey(query: &[u8], reading: Reading) -> NamesSurvey
    ensures survey { OnTokensIn reading query.now (IsNamesSurvey result) }
    ensures marked { result.marked_len ≤ length query.now }
    ensures small { 2 * (result.marked_len + result.row_len) ≤ 3 * length query.now }
{
    let mut names = 0;
    let mut marks = 0;
    let mut marked_len = 0;
    let mut row_len = 0;
    let mut rest = query;
    while let Some(found) = first_place_inlined(rest, reading) {
        let (_, place, after) = found.cut(rest);
        marked_len += found.before + 1;
        match found.kind {
            PlaceKind::Name => {
                names += 1;
                row_len += lenenc_str_len(&place[1..]) as usize;
            }
            PlaceKind::Mark => marks += 1,
        }
        rest = after;
    }
    NamesSurvey {
        names,
        marks,
        marked_len: marked_len + rest.len(),
        row_len,
    }
}

// Writes the answer to a query that has no names or no marks to the front of the room, if the room
// is long enough.
fn answer_in_room(query: &[u8], survey: NamesSurvey, reading: Reading, room: &mut [u8]) -> Outcome
    requires survey { OnTokensIn reading query.now (IsNamesSurvey survey) }
    requires marked { survey.marked_len ≤ length query.now }
    requires small { 2 * (survey.marked_len + survey.row_len) ≤ 3 * length query.now }
    requires unmixed { 0 < survey.names → survey.marks ≡ 0 }
    ensures { OnTokensIn reading query.now (λ ts.
        IsInRoom (names_answer (parsed ts)) room.old room.new result) }
{
    let len = marked_end(query, survey) + survey.row_len;
    if room.len() < len {
        return Outcome::Room { len };
    }
    fill_answer(query, survey, reading, &mut room[..len]);
    Outcome::Done { len }
}

// The length of the query with a mark in place of each name, as a length-encoded string.
fn marked_end(query: &[u8], survey: NamesSurvey) -> usize
    requires { survey.marked_len ≤ length query.now }
    ensures { result ≡ length (lenenc_spelling (take survey.marked_len query.now)) }
{
    lenenc_str_len(&query[..survey.marked_len]) as usize
}

// Fills the slice with the answer to a query that has no names or no marks.
fn fill_answer(query: &[u8], survey: NamesSurvey, reading: Reading, slice: &mut [u8])
    requires survey { OnTokensIn reading query.now (IsNamesSurvey survey) }
    requires marked { survey.marked_len ≤ length query.now }
    requires unmixed { 0 < survey.names → survey.marks ≡ 0 }
    requires exact { OnTokensIn reading query.now (λ ts.
        length slice.old ≡ length (names_answer (parsed ts))) }
    ensures { OnTokensIn reading query.now (λ ts.
        slice.new ≡ names_answer (parsed ts)) }
{
    if survey.names == 0 {
        fill_lenenc_str(slice, query);
        return;
    }
    let end = marked_end(query, survey);
    let (marked, row) = slice.split_at_mut(end);
    // The front of the query, which is written here, has the length of the query with marks. Its
    // bytes are then overwritten.
    fill_lenenc_str(marked, &query[..survey.marked_len]);
    let (_, text) = marked.split_at_mut(end - survey.marked_len);
    fill_names(query, reading, text, row);
}

// Fills one slice with a query that has no marks, with a mark in place of each name, and the other
// with the names, each as a length-encoded string.
fn fill_names(query: &[u8], reading: Reading, text: &mut [u8], row: &mut [u8])
    requires no_marks { OnTokensIn reading query.now (λ ts. marks ts ≡ 0) }
    requires text { OnTokensIn reading query.now (λ ts.
        length text.old ≡ length (text_of (with_marks ts))) }
    requires row { OnTokensIn reading query.now (λ ts.
        length row.old ≡ length (lenenc_row (names ts))) }
    ensures text { OnTokensIn reading query.now (λ ts.
        text.new ≡ text_of (with_marks ts)) }
    ensures row { OnTokensIn reading query.now (λ ts. row.new ≡ lenenc_row (names ts)) }
{
    let mut text_at = 0;
    let mut row_at = 0;
    let mut rest = query;
    while let Some(found) = first_place_inlined(rest, reading) {
        let (before, place, after) = found.cut(rest);
        text_at = append_bytes(text, text_at, before);
        text_at = append_mark(text, text_at);
        row_at = append_lenenc_str(row, row_at, &place[1..]);
        rest = after;
    }
    append_bytes(text, text_at, rest);
}

// Copies the bytes into the slice from index `at` on, and returns the index after them. The bytes
// before `at` are kept.
fn append_bytes(slice: &mut [u8], at: usize, bytes: &[u8]) -> usize
    requires { at + length bytes.now ≤ length slice.old }
    ensures next { result ≡ at + length bytes.now }
    ensures front { take result slice.new ≡ take at slice.old ++ bytes.now }
{
    let end = at + bytes.len();
    slice[at..end].copy_from_slice(bytes);
    end
}

// Writes a mark into the slice at index `at`, and returns the index after it. The bytes before `at`
// are kept.
fn append_mark(slice: &mut [u8], at: usize) -> usize
    requires { at < length slice.old }
    ensures next { result ≡ at + 1 }
    ensures front { take result slice.new ≡ take at slice.old ++ question_mark ∷ [] }
{
    slice[at] = b'?';
    at + 1
}

// Writes the bytes as a length-encoded string into the slice from index `at` on, and returns the
// index after it. The bytes before `at` are kept.
fn append_lenenc_str(slice: &mut [u8], at: usize, bytes: &[u8]) -> usize
    requires { at + length (lenenc_spelling bytes.now) ≤ length slice.old }
    ensures next { result ≡ at + length (lenenc_spelling bytes.now) }
    ensures front { take result slice.new ≡ take at slice.old ++ lenenc_spelling bytes.now }
{
    let end = at + lenenc_str_len(bytes) as usize;
    fill_lenenc_str(&mut slice[at..end], bytes);
    end
}
