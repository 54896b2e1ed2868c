//! A table of a query's places, which is made once and kept by the caller, and binding by it.
ghost use Rattle.std.specs.Prelude.{◌≡◌, ◌⊎◌, ◌+◌, ◌≤◌, ◌<◌, ℕ, List, [], None, Some, Ok, pos, length, take, drop, IfErr, IfOk, IfSome, IsErrOf, OnErr};
ghost use Rattle.mysql_named_params.specs.Reading.{OnTokensIn};
ghost use Rattle.mysql_named_params.specs.Places.{HasMark, HasName};
ghost use Rattle.mysql_params_core.specs.Given.{Given};
ghost use Rattle.mysql_binding.specs.BindErrors.{IsCauseOrMemory};
ghost use Rattle.mysql_binding.specs.FirstCause.{first_cause};
ghost use Rattle.mysql_binding.specs.Isolation.{IsBoundText};
ghost use Rattle.mysql_binding.specs.PlaceSpans.{StaysInRoom};
ghost use Rattle.mysql_binding.specs.SpannedQuery.{HasOwnSpans, RefusesNames};
ghost use Rattle.mysql_binding.specs.TextInRoom.{HasTextOf, IsTextInRoom};
ghost use Rattle.mysql_flat_params.specs.FlatForm.{HasFirstParameter, IsFormReading};
ghost use Rattle.mysql_flat_params.specs.FormParams.{given_in_place};
ghost use Rattle.mysql_flat_params.specs.IntoRoom.{IfMixed, IfMixedIn, IsBoundForm, IsBoundFormIn, MissesOtherNameIn};
ghost use Rattle.mysql_flat_params.specs.Outcomes as outcomes;
ghost use Rattle.mysql_flat_params.specs.PlaceTable.{CanHaveTable, CanHaveTableIn, HasOwnTable, HasOwnTableIn, IfAsQuery, IfDone, IfTooLong, IsMadeTable, IsMadeTableIn, IsTableBindOutcome, IsTableBindOutcomeIn, IsTableOutcome, IsTableOutcomeIn, MissesOtherPlace, MissesOtherPlaceIn, UnlessDone, number_of, report_of, survey_of};

use crate::few_values::bind_few;
use crate::form::form_params;
use crate::form_names::NamesInPlace;
use crate::into_room::{
    ParamsInPlace, borrowed_params, form_outcome, named_pairs, text_outcome, told_outcome,
};
use crate::outcome::{NO_FIELDS, Outcome, Report};
use mysql_binding::{
    BindError, KEPT_PLACES, NO_PLACE, PlaceSpan, PlainForm, SpannedQuery, Survey, SurveyedQuery,
    TextInRoom, bind_spans_into, place_spans,
};
use mysql_named_params::places::Reading;
use std::alloc::Global;

/// The head of a table: the facts about all places of a query together.
#[derive(Clone, Copy, Debug, PartialEq, Eq)]
#[repr(C)]
pub struct TableHead {
    /// The number of names, with repeats.
    pub names: usize,
    /// The number of marks.
    pub marks: usize,
    /// 0 if each name and mark stands alone.
    pub not_alone: usize,
    /// The number of the first place that doesn't stand alone, from 0; else 0.
    pub place: usize,
    /// The index of that place's first byte in the query; else 0.
    pub position: usize,
    /// The number of bytes of the query outside of its places.
    pub piece_bytes: usize,
}

/// A query that was parsed once, to be bound many times: with its mode, and with its table, which
/// the caller kept.
#[derive(Clone, Copy, Debug)]
pub struct Template<'q> {
    /// The query.
    pub query: &'q [u8],
    /// The mode in which the query is read.
    pub no_backslash_escape: bool,
    /// The head of the table.
    pub head: TableHead,
    /// The places of the table.
    pub places: &'q [PlaceSpan],
}

/// A [`Template`] for a query in any reading. It has to be the reading of the table.
#[derive(Clone, Copy, Debug)]
pub struct ReadTemplate<'q> {
    /// The query.
    pub query: &'q [u8],
    /// How the query is read.
    pub reading: Reading,
    /// The head of the table.
    pub head: TableHead,
    /// The places of the table.
    pub places: &'q [PlaceSpan],
}

/// The outcome of a call that binds by a table. After each one except `Done` the room is as it was.
#[derive(Clone, Copy, Debug, PartialEq, Eq)]
pub enum TableOutcome {
    /// An outcome of a call that binds to the query. It is never `Unsteady`, `Unportable` or
    /// `Backslash`.
    AsQuery(Outcome),
    /// The table isn't that of the query.
    OtherTable,
}

impl TableOutcome {
    /// The number of the outcome's kind: the number of an [`Outcome`], or 20 for another table.
    pub fn number(self) -> i32
        ensures number { result ≡ pos (number_of self) }
    {
        match self {
            TableOutcome::AsQuery(outcome) => outcome.number(),
            TableOutcome::OtherTable => 20,
        }
    }

    /// The fields of the outcome.
    pub fn report(self) -> Report
        ensures fields { result ≡ report_of self }
    {
        match self {
            TableOutcome::AsQuery(outcome) => outcome.report(),
            TableOutcome::OtherTable => NO_FIELDS,
        }
    }
}

/// Makes the table of a query's places in a mode: its head, and the position of each place, at the
/// front of the room. The query can then be bound by it many times.
///
/// `Done` has the number of the places; the rest of the room is unchanged. `Room` has the number of
/// places that the room would need. `OutOfMemory` comes only for a query with places. After both,
/// head and room are as before.
pub fn table_into(
    alloc: Global,
    query: &[u8],
    no_backslash_escape: bool,
    head: &mut TableHead,
    room: &mut [PlaceSpan],
) -> Outcome
    ensures outcome { IsTableOutcome no_backslash_escape query.now result }
    ensures made { outcomes.IfDone result
        (IsMadeTable no_backslash_escape query.now head.new room.old room.new) }
    ensures too_long { outcomes.IfTooLong result (λ len. length room.old < len) }
    ensures unchanged { outcomes.UnlessDone result
        ((head.new ≡ head.old) × (room.new ≡ room.old)) }
{
    let reading = Reading {
        no_backslash_escape,
        wide_names: false,
    };
    table_into_read(alloc, query, reading, head, room)
}

/// [`table_into`] for a query in any reading. The table doesn't hold the reading: bind by it in the
/// same reading, by [`bind_by_table_into_read`].
pub fn table_into_read(
    alloc: Global,
    query: &[u8],
    reading: Reading,
    head: &mut TableHead,
    room: &mut [PlaceSpan],
) -> Outcome
    ensures outcome { IsTableOutcomeIn reading query.now result }
    ensures made { outcomes.IfDone result
        (IsMadeTableIn reading query.now head.new room.old room.new) }
    ensures too_long { outcomes.IfTooLong result (λ len. length room.old < len) }
    ensures unchanged { outcomes.UnlessDone result
        ((head.new ≡ head.old) × (room.new ≡ room.old)) }
{
    let mut first = [NO_PLACE; KEPT_PLACES];
    let surveyed = SurveyedQuery::new(query, reading, &mut first);
    let survey = surveyed.survey;
    let len = survey.names + survey.marks;
    if len == 0 {
        *head = head_of(survey);
        return Outcome::Done { len };
    }
    if room.len() < len {
        return Outcome::Room { len };
    }
    match place_spans(alloc, &surveyed, &mut room[..len]) {
        Ok(()) => {
            *head = head_of(survey);
            Outcome::Done { len }
        }
        Err(_) => Outcome::OutOfMemory,
    }
}

// The head of a table with this survey.
fn head_of(survey: Survey) -> TableHead
    ensures { survey_of result ≡ survey }
{
    let (not_alone, (place, position)) = match survey.not_alone {
        Some(found) => (1, found),
        None => (0, (0, 0)),
    };
    TableHead {
        names: survey.names,
        marks: survey.marks,
        not_alone,
        place,
        position,
        piece_bytes: survey.piece_bytes,
    }
}

// The survey in the head of a table.
pub(crate) fn survey_of(head: TableHead) -> Survey
    ensures { result ≡ survey_of head }
{
    let not_alone = if head.not_alone == 0 {
        None
    } else {
        Some((head.place, head.position))
    };
    Survey {
        names: head.names,
        marks: head.marks,
        not_alone,
        piece_bytes: head.piece_bytes,
    }
}

/// Binds a form's parameters to a query by the query's table, exactly as
/// [`bind_into`](crate::bind_into) does in the mode of the table. It has the same outcomes, and the
/// text is at the front of the room. The query isn't walked, except for `Missing`, to look up the
/// place.
///
/// A table of another query, or of another mode, is refused as `OtherTable` before the form is read
/// if the query can't have it. It can't if the number of places isn't that of the head, if a place
/// is empty or beyond the query, or if the number of bytes outside of the places isn't that of the
/// head.
///
/// With a wrong table that passes this test any text or outcome may come. `OtherTable` then means
/// that the query doesn't have the name that is missing. Nothing is written behind the text, and
/// after every outcome except `Done` the room is as before.
pub fn bind_by_table_into(
    alloc: Global,
    template: &Template<'_>,
    form: &[u8],
    room: &mut [u8],
) -> TableOutcome
    ensures outcome { HasOwnTable template.now →
        IsTableBindOutcome template.now.no_backslash_escape template.now.query.now form.now
        result }
    ensures written { HasOwnTable template.now → IfDone result (λ len.
        IsBoundForm template.now.no_backslash_escape template.now.query.now form.now
        (take len room.new)) }

    // A table that the query can't have by its numbers is refused before the form is read.
    ensures unfit { (CanHaveTable template.now → ⊥) → result ≡ TableOutcome.OtherTable }

    // A table that it can have is refused only if the missing name isn't a name of the query.
    ensures other { result ≡ TableOutcome.OtherTable → CanHaveTable template.now →
        MissesOtherPlace template.now form.now }

    // The empty form over a query with a name and a mark is refused without allocating.
    ensures mixed { HasOwnTable template.now → form.now ≡ [] →
        IfMixed template.now.no_backslash_escape template.now.query.now
        (result ≡ TableOutcome.AsQuery Outcome.Mixed) }

    // A form that is refused for its first parameter is refused without allocating.
    ensures memory { result ≡ TableOutcome.AsQuery Outcome.OutOfMemory →
        (form.now ≡ []) ⊎ HasFirstParameter form.now }
    ensures rest { IfDone result (λ len.
        (len ≤ length room.old) × (drop len room.new ≡ drop len room.old)) }
    ensures too_long { IfTooLong result (λ len. length room.old < len) }
    ensures unchanged { UnlessDone result (room.new ≡ room.old) }
{
    let template = ReadTemplate {
        query: template.query,
        reading: Reading {
            no_backslash_escape: template.no_backslash_escape,
            wide_names: false,
        },
        head: template.head,
        places: template.places,
    };
    bind_by_table_into_read(alloc, &template, form, room)
}

/// [`bind_by_table_into`] for a query in any reading, exactly as
/// [`bind_into_read`](crate::bind_into_read) binds in the reading of the table. A table of another
/// reading is like a table of another mode there.
pub fn bind_by_table_into_read(
    alloc: Global,
    template: &ReadTemplate<'_>,
    form: &[u8],
    room: &mut [u8],
) -> TableOutcome
    ensures outcome { HasOwnTableIn template.now →
        IsTableBindOutcomeIn template.now.reading template.now.query.now form.now
        result }
    ensures written { HasOwnTableIn template.now → IfDone result (λ len.
        IsBoundFormIn template.now.reading template.now.query.now form.now
        (take len room.new)) }

    // A table that the query can't have by its numbers is refused before the form is read.
    ensures unfit { (CanHaveTableIn template.now → ⊥) → result ≡ TableOutcome.OtherTable }

    // A table that it can have is refused only if the missing name isn't a name of the query.
    ensures other { result ≡ TableOutcome.OtherTable → CanHaveTableIn template.now →
        MissesOtherPlaceIn template.now form.now }

    // The empty form over a query with a name and a mark is refused without allocating.
    ensures mixed { HasOwnTableIn template.now → form.now ≡ [] →
        IfMixedIn template.now.reading template.now.query.now
        (result ≡ TableOutcome.AsQuery Outcome.Mixed) }

    // A form that is refused for its first parameter is refused without allocating.
    ensures memory { result ≡ TableOutcome.AsQuery Outcome.OutOfMemory →
        (form.now ≡ []) ⊎ HasFirstParameter form.now }
    ensures rest { IfDone result (λ len.
        (len ≤ length room.old) × (drop len room.new ≡ drop len room.old)) }
    ensures too_long { IfTooLong result (λ len. length room.old < len) }
    ensures unchanged { UnlessDone result (room.new ≡ room.old) }
{
    let survey = survey_of(template.head);
    let Some(spanned) = SpannedQuery::try_new(template.query, survey, template.places) else {
        return TableOutcome::OtherTable;
    };
    let literals = PlainForm {
        no_backslash_escape: template.reading.no_backslash_escape,
    };
    if let Some(len) = bind_few(&spanned, form, &literals, room) {
        return TableOutcome::AsQuery(Outcome::Done { len });
    }
    let params = match form_params::<NamesInPlace>(alloc, form, Vec::new(alloc)) {
        Ok(params) => params,
        Err(error) => return TableOutcome::AsQuery(form_outcome(error)),
    };
    match bind_places(alloc, &spanned, params, template.reading, room) {
        Ok(text) => TableOutcome::AsQuery(text_outcome(text)),
        Err(error) => table_outcome(template.query, error, template.reading),
    }
}

// The text of a query with a form's parameters, at the front of the room.
fn bind_places(
    alloc: Global,
    spanned: &SpannedQuery<'_>,
    params: ParamsInPlace<'_>,
    reading: Reading,
    room: &mut [u8],
) -> Result<TextInRoom, BindError>
    ensures bound { HasOwnSpans spanned.now reading →
        OnTokensIn reading spanned.now.query.now (λ ts. IfOk result (IsTextInRoom
        (IsBoundText reading.no_backslash_escape ts (given_in_place params.entry))
        (HasTextOf (IsBoundText reading.no_backslash_escape ts (given_in_place params.entry)))
        room.old room.new)) }
    ensures refused { HasOwnSpans spanned.now reading →
        OnTokensIn reading spanned.now.query.now (λ ts. IfErr result
        (IsCauseOrMemory (first_cause ts (given_in_place params.entry)))) }
    ensures mixed { HasOwnSpans spanned.now reading →
        OnTokensIn reading spanned.now.query.now (λ ts.
        HasName ts × HasMark ts → IsErrOf result BindError.Mixed) }
    ensures lookup { IfErr result (RefusesNames spanned.now (given_in_place params.entry)) }
    ensures in_room { IfOk result (StaysInRoom room.old room.new) }
    ensures unchanged { OnErr result (room.new ≡ room.old) }
{
    let form = PlainForm {
        no_backslash_escape: reading.no_backslash_escape,
    };
    let pairs = named_pairs(&params);
    let borrowed = borrowed_params(&params, &pairs);
    bind_spans_into(alloc, spanned, borrowed, &form, room)
}

// The outcome for an error of binding by a table. If the missing name isn't one of the query, the
// table is that of another query.
pub(crate) fn table_outcome(query: &[u8], error: BindError, reading: Reading) -> TableOutcome
    ensures outcome { (form : List ℕ) (given : Given) → IsFormReading form (Ok given) →
        OnTokensIn reading query.now (λ ts.
        IsCauseOrMemory (first_cause ts given) error) →
        IsTableBindOutcomeIn reading query.now form result }
    ensures other { result ≡ TableOutcome.OtherTable →
        MissesOtherNameIn reading query.now error }
    ensures mixed { error ≡ BindError.Mixed → result ≡ TableOutcome.AsQuery Outcome.Mixed }
    ensures no_answer { IfAsQuery result outcomes.HasNoAnswer }
    ensures not_done { IfDone result (λ len. ⊥) }
    ensures not_too_long { IfTooLong result (λ len. ⊥) }
{
    match told_outcome(query, error, reading) {
        Some(outcome) => TableOutcome::AsQuery(outcome),
        None => TableOutcome::OtherTable,
    }
}
