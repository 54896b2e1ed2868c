//! Rows: one query, parsed once and bound to many forms, in a room of the caller.
ghost use Rattle.std.specs.Prelude.{◌≡◌, ◌+◌, ◌≤◌, ◌<◌, length, take, drop, ℕ, List, Ok, IfSome};
ghost use Rattle.mysql_wire_part.specs.Lenenc.{length_spelling};
ghost use Rattle.mysql_wire_part.specs.ParseBuf.{read_refusal};
ghost use Rattle.mysql_values.specs.Literal.{literal_of};
ghost use Rattle.mysql_params_core.specs.Given.{Given};
ghost use Rattle.mysql_binding.specs.MeasuredText.{IsMeasured};
ghost use Rattle.mysql_binding.specs.SurveyedQuery.{OnSurveyed};
ghost use Rattle.mysql_flat_params.specs.BoundRows.{AreBoundRows, AreBoundRowsIn, IsRowsOutcome, IsRowsOutcomeIn, unread_row};
ghost use Rattle.mysql_flat_params.specs.FlatForm.{IsFormReading};
ghost use Rattle.mysql_flat_params.specs.FormParams.{given_in_place};
ghost use Rattle.mysql_flat_params.specs.Outcomes.{IfDone, IfTooLong};
ghost use Rattle.mysql_flat_params.specs.RowNames.{AreFoundNames, IsFormOfPairs};
ghost use Rattle.mysql_flat_params.specs.RowInRoom.{IsFormInRoom, IsRowInRoom, IsStringInRoom};

use crate::few_strings::bind_few_string;
use crate::form::{FormParams, form_params};
use crate::form_names::NamesInPlace;
use crate::into_room::{ParamsInPlace, bind_outcome, borrowed_params, form_outcome, named_pairs};
use crate::outcome::Outcome;
use crate::row_names::{FoundNames, RowMemory};
use byteorder::{ByteOrder, LittleEndian};
use mysql_binding::{
    KEPT_PLACES, MeasuredText, NO_PLACE, PlaceValues, PlainForm, SurveyedQuery, all_places,
    fill_measured, measured_text, measured_values,
};
use mysql_named_params::places::Reading;
use mysql_values::value::ValueRef;
use mysql_wire_part::{ParseBuf, WireError};
use std::alloc::Global;
use std::mem;

/// The progress of a call that binds row after row.
#[derive(Clone, Copy, Debug, PartialEq, Eq)]
#[repr(C)]
pub struct Rows {
    /// The number of rows that are bound. It is also the number of the next row, from 0.
    pub count: usize,
    /// The number of bytes of the forms that were read. The form of the next row begins there.
    pub read: usize,
    /// The number of bytes of the room that their texts take. The text of the next row goes there.
    pub written: usize,
}

// Before the first row.
const NO_ROWS: Rows = Rows {
    count: 0,
    read: 0,
    written: 0,
};

/// Binds a query, which is parsed once, to row after row. It writes the texts one after another to
/// the front of the room, each as a length-encoded string.
///
/// The forms of the rows come one after another, each as a length-encoded string. Each row gives
/// the text, or the refusal, that [`bind_into`](crate::bind_into) gives for its form. `Done`, with
/// the length of all texts, means that all rows are bound. Every other outcome is that of the row
/// at which the call ends, and the texts of the rows before it are kept.
///
/// The length of `Room` is that of this row's text as a length-encoded string. So a caller goes on
/// from this row with a room of at least that length. If the form of a row isn't a length-encoded
/// string, the outcome is `FormEnd` or `FormLengthLead` with place and position 0. `OutOfMemory`
/// may come in place of any other outcome if a row is left. The room behind the texts is as before.
pub fn bind_rows_into(
    alloc: Global,
    query: &[u8],
    forms: &[u8],
    no_backslash_escape: bool,
    room: &mut [u8],
) -> (Rows, Outcome)
    ensures rows { AreBoundRows no_backslash_escape query.now forms.now result.0.count
        (take result.0.written room.new) (drop result.0.read forms.now) }
    ensures outcome { IsRowsOutcome no_backslash_escape query.now
        (drop result.0.read forms.now) result.1 }
    ensures read { result.0.read ≤ length forms.now }
    ensures done { IfDone result.1 (λ len. len ≡ result.0.written) }
    ensures too_long { IfTooLong result.1 (λ len. length room.old < result.0.written + len) }
    ensures rest { (result.0.written ≤ length room.old)
        × (drop result.0.written room.new ≡ drop result.0.written room.old) }
{
    let reading = Reading {
        no_backslash_escape,
        wide_names: false,
    };
    bind_rows_into_read(alloc, query, forms, reading, room)
}

/// [`bind_rows_into`] for a query in any reading. Each row gives the text, or the refusal, that
/// [`bind_into_read`](crate::bind_into_read) gives for its form.
pub fn bind_rows_into_read(
    alloc: Global,
    query: &[u8],
    forms: &[u8],
    reading: Reading,
    room: &mut [u8],
) -> (Rows, Outcome)
    ensures rows { AreBoundRowsIn reading query.now forms.now result.0.count
        (take result.0.written room.new) (drop result.0.read forms.now) }
    ensures outcome { IsRowsOutcomeIn reading query.now
        (drop result.0.read forms.now) result.1 }
    ensures read { result.0.read ≤ length forms.now }
    ensures done { IfDone result.1 (λ len. len ≡ result.0.written) }
    ensures too_long { IfTooLong result.1 (λ len. length room.old < result.0.written + len) }
    ensures rest { (result.0.written ≤ length room.old)
        × (drop result.0.written room.new ≡ drop result.0.written room.old) }
{
    if forms.is_empty() {
        return (NO_ROWS, Outcome::Done { len: 0 });
    }
    let mut first = [NO_PLACE; KEPT_PLACES];
    let surveyed = SurveyedQuery::new(query, reading, &mut first);
    if surveyed.survey.names + surveyed.survey.marks <= KEPT_PLACES {
        return bind_rows(alloc, &surveyed, forms, room);
    }
    match all_places(alloc, &surveyed) {
        Ok(places) => bind_rows(alloc, &surveyed.with_places(places.as_slice()), forms, room),
        Err(_) => (NO_ROWS, Outcome::OutOfMemory),
    }
}

// Binds row after row to a surveyed query.
fn bind_rows(
    alloc: Global,
    surveyed: &SurveyedQuery<'_>,
    forms: &[u8],
    room: &mut [u8],
) -> (Rows, Outcome)
    ensures rows { AreBoundRowsIn surveyed.now.reading surveyed.now.query.now
        forms.now result.0.count
        (take result.0.written room.new) (drop result.0.read forms.now) }
    ensures outcome { IsRowsOutcomeIn surveyed.now.reading surveyed.now.query.now
        (drop result.0.read forms.now) result.1 }
    ensures read { result.0.read ≤ length forms.now }
    ensures done { IfDone result.1 (λ len. len ≡ result.0.written) }
    ensures too_long { IfTooLong result.1 (λ len. length room.old < result.0.written + len) }
    ensures rest { (result.0.written ≤ length room.old)
        × (drop result.0.written room.new ≡ drop result.0.written room.old) }
{
    let mut memory = RowMemory::new(alloc);
    let mut count = 0;
    let mut read = 0;
    let mut written = 0;
    while read < forms.len() {
        let (outcome, taken) = bind_row(
            alloc,
            surveyed,
            &forms[read..],
            &mut memory,
            &mut room[written..],
        );
        let Outcome::Done { len } = outcome else {
            return (
                Rows {
                    count,
                    read,
                    written,
                },
                outcome,
            );
        };
        count += 1;
        read += taken;
        written += len;
    }
    (
        Rows {
            count,
            read,
            written,
        },
        Outcome::Done { len: written },
    )
}

// Binds the row whose form is the string at the front of the forms, and writes its text to the
// front of the room. The number is the length of the form as a length-encoded string, if the text
// is written.
fn bind_row<'f>(
    alloc: Global,
    surveyed: &SurveyedQuery<'_>,
    forms: &'f [u8],
    memory: &mut RowMemory<'f>,
    room: &mut [u8],
) -> (Outcome, usize)
    requires found { IfSome memory.old.found (AreFoundNames
        surveyed.now.reading surveyed.now.query.now) }
    requires some { 0 < length forms.now }
    ensures row { IsRowInRoom surveyed.now.reading surveyed.now.query.now forms.now
        room.old room.new
        result.1 result.0 }
    ensures found { IfSome memory.new.found (AreFoundNames
        surveyed.now.reading surveyed.now.query.now) }
{
    let mut rest = ParseBuf(forms);
    let form = match rest.eat_lenenc_str() {
        Ok(form) => form,
        Err(error) => return (unread_row(error), 0),
    };
    // After the last row no names are looked for.
    let tries = if rest.is_empty() { 0 } else { memory.tries };
    memory.tries = tries;
    let outcome = bind_form(alloc, surveyed, form, memory, room);
    (outcome, forms.len() - rest.len())
}

// Binds a form's parameters, and writes the text to the front of the room, as a length-encoded
// string.
fn bind_form<'f>(
    alloc: Global,
    surveyed: &SurveyedQuery<'_>,
    form: &'f [u8],
    memory: &mut RowMemory<'f>,
    room: &mut [u8],
) -> Outcome
    requires found { IfSome memory.old.found (AreFoundNames
        surveyed.now.reading surveyed.now.query.now) }
    ensures form { IsFormInRoom surveyed.now.reading surveyed.now.query.now form.now
        room.old room.new result }
    ensures found { IfSome memory.new.found (AreFoundNames
        surveyed.now.reading surveyed.now.query.now) }
{
    if let Some(len) = bind_few_string(surveyed, form, room) {
        return Outcome::Done { len };
    }
    let Some(found) = memory.names_of(alloc, surveyed, form) else {
        return bind_other(alloc, surveyed, form, &mut memory.spare, room);
    };
    bind_found(alloc, surveyed, found, memory, room)
}

// Binds the values of a form whose names were found.
fn bind_found<'f>(
    alloc: Global,
    surveyed: &SurveyedQuery<'_>,
    found: FoundNames<'f>,
    memory: &mut RowMemory<'f>,
    room: &mut [u8],
) -> Outcome
    requires found { AreFoundNames surveyed.now.reading surveyed.now.query.now found }
    requires kept { IfSome memory.old.found (AreFoundNames
        surveyed.now.reading surveyed.now.query.now) }
    ensures form { (form : List ℕ) → IsFormOfPairs form found.entry.pairs.items →
        IsFormInRoom surveyed.now.reading surveyed.now.query.now form
        room.old room.new result }
    ensures found { IfSome memory.new.found (AreFoundNames
        surveyed.now.reading surveyed.now.query.now) }
{
    let spare = mem::replace(&mut memory.spare, Vec::new(alloc));
    let Some(values) = found.place_values(spare) else {
        return Outcome::OutOfMemory;
    };
    let literals = PlainForm {
        no_backslash_escape: surveyed.reading.no_backslash_escape,
    };
    let list = PlaceValues::Values(values.as_slice());
    let outcome = match measured_values(alloc, surveyed.survey, list, &literals) {
        Ok(measured) => fill_string(surveyed, &measured, room),
        Err(error) => {
            return bind_outcome(surveyed.query, error, surveyed.reading);
        }
    };
    memory.spare = values;
    memory.found = Some(found);
    outcome
}

// Binds the parameters of any form. The memory of the spare list is used, and given back
// afterwards.
fn bind_other<'f>(
    alloc: Global,
    surveyed: &SurveyedQuery<'_>,
    form: &'f [u8],
    spare: &mut Vec<ValueRef<'f>>,
    room: &mut [u8],
) -> Outcome
    ensures { IsFormInRoom surveyed.now.reading surveyed.now.query.now form.now
        room.old room.new result }
{
    let lent = mem::replace(spare, Vec::new(alloc));
    let params = match form_params::<NamesInPlace>(alloc, form, lent) {
        Ok(params) => params,
        Err(error) => return form_outcome(error),
    };
    let outcome = bind_read(alloc, surveyed, &params, room);
    *spare = spare_values(alloc, params);
    outcome
}

// The list of a form's values, if it has one.
fn spare_values<'f>(alloc: Global, params: ParamsInPlace<'f>) -> Vec<ValueRef<'f>> {
    match params {
        FormParams::Empty => Vec::new(alloc),
        FormParams::Named(_names) => Vec::new(alloc),
        FormParams::Positional(values) => values,
    }
}

// Binds the parameters that were read from a form.
fn bind_read(
    alloc: Global,
    surveyed: &SurveyedQuery<'_>,
    params: &ParamsInPlace<'_>,
    room: &mut [u8],
) -> Outcome
    ensures { (form : List ℕ) → IsFormReading form (Ok (given_in_place params.now)) →
        IsFormInRoom surveyed.now.reading surveyed.now.query.now form
        room.old room.new result }
{
    let pairs = named_pairs(params);
    let plain = PlainForm {
        no_backslash_escape: surveyed.reading.no_backslash_escape,
    };
    match measured_text(alloc, surveyed, borrowed_params(params, &pairs), &plain) {
        Ok(measured) => fill_string(surveyed, &measured, room),
        Err(error) => bind_outcome(surveyed.query, error, surveyed.reading),
    }
}

// Writes the text of a measured query, as a length-encoded string, to the front of the room, if the
// room is long enough.
fn fill_string(
    surveyed: &SurveyedQuery<'_>,
    measured: &MeasuredText<'_>,
    room: &mut [u8],
) -> Outcome
    requires measured { (given : Given) × OnSurveyed surveyed.now (λ ts.
        IsMeasured (literal_of surveyed.now.reading.no_backslash_escape) ts given measured.now) }
    ensures { (given : Given) → OnSurveyed surveyed.now (λ ts.
        IsMeasured (literal_of surveyed.now.reading.no_backslash_escape) ts given measured.now) →
        IsStringInRoom surveyed.now.reading surveyed.now.query.now given
        room.old room.new result }
{
    let (lead, count) = length_lead(measured.len as u64);
    let len = count + measured.len;
    if room.len() < len {
        return Outcome::Room { len };
    }
    let (front, back) = room.split_at_mut(count);
    front.copy_from_slice(&lead[..count]);
    let form = PlainForm {
        no_backslash_escape: surveyed.reading.no_backslash_escape,
    };
    fill_measured(surveyed, measured, &form, &mut back[..measured.len]);
    Outcome::Done { len }
}

/// The length prefix of a string of this length, at the front of the array, and its number of
/// bytes.
pub(crate) fn length_lead(len: u64) -> ([u8; 9], usize)
    ensures few { result.1 ≤ 9 }
    ensures spelled { take result.1 result.0 ≡ length_spelling len }
    ensures count { result.1 ≡ length (length_spelling len) }
{
    let mut lead = [0u8; 9];
    if len < 0xFB {
        lead[0] = len as u8;
        return (lead, 1);
    }
    if len < 0x1_0000 {
        lead[0] = 0xFC;
        LittleEndian::write_u16(&mut lead[1..], len as u16);
        return (lead, 3);
    }
    if len < 0x100_0000 {
        lead[0] = 0xFD;
        LittleEndian::write_u24(&mut lead[1..], len as u32);
        return (lead, 4);
    }
    lead[0] = 0xFE;
    LittleEndian::write_u64(&mut lead[1..], len);
    (lead, 9)
}

// The outcome for a row whose form isn't a length-encoded string.
fn unread_row(error: WireError) -> Outcome
    ensures { IfSome (read_refusal error) (λ refusal. result ≡ unread_row refusal) }
{
    match error {
        WireError::UnexpectedEof => Outcome::FormEnd {
            place: 0,
            position: 0,
        },
        WireError::BadLengthLead(lead) => Outcome::FormLengthLead {
            place: 0,
            position: 0,
            lead,
        },
        WireError::UnsupportedColumn(_) => Outcome::FormType {
            place: 0,
            position: 0,
            number: 0,
        },
        WireError::Memory(_) => Outcome::OutOfMemory,
    }
}
