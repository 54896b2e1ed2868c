//! The facts about a query's places that are known before values are looked up, found in one walk
//! that allocates nothing. Also the bytes that may be directly beside a place.
ghost use Rattle.std.specs.Prelude.{◌≡◌, ◌+◌, ◌<◌, ◌≤◌, length, take, None, Some, drop, if◌then◌else◌};
ghost use Rattle.mysql_named_params.specs.Reading.{OnTokensIn};
ghost use Rattle.mysql_binding.specs.FoundPlaces.{AreFirstPlaces, found_places};
ghost use Rattle.mysql_binding.specs.Survey.{IsSurvey, IsSurveyOf};
ghost use Rattle.mysql_binding.specs.StandsAlone.{stands_alone, may_stand_before, may_stand_after, none_or_first, none_or_last};

use mysql_named_params::places::{FoundPlace, PlaceKind, Reading, first_place_inlined};

/// A query, its reading, and the facts that one walk found about its places. For the crates above;
/// no user needs it.
#[derive(Clone, Copy, Debug)]
pub struct SurveyedQuery<'q> {
    /// The query.
    pub query: &'q [u8],
    /// The reading of the query.
    pub reading: Reading,
    /// The number of its places, and the first that doesn't stand alone.
    pub survey: Survey,
    /// Its first places, as many as were kept.
    pub known: &'q [FoundPlace],
    pub ghost surveyed: { IsSurveyOf reading query.now survey },
    pub ghost in_query: { survey.names + survey.marks ≤ length query.now },
    pub ghost first: { AreFirstPlaces reading query.now known.now },
}

impl<'q> SurveyedQuery<'q> {
    /// Surveys a query in a reading, and keeps as many of its first places as `room` has items.
    pub fn new(query: &'q [u8], reading: Reading, room: &'q mut [FoundPlace]) -> SurveyedQuery<'q>
        ensures query { result.query.now ≡ query.now }
        ensures reading { result.reading ≡ reading }
        ensures known { OnTokensIn reading query.now (λ ts.
            result.known.now ≡ take (length room.old) (found_places ts)) }
    {
        let (survey, kept) = place_survey(query, room, reading);
        SurveyedQuery {
            query,
            reading,
            survey,
            known: &room[..kept],
        }
    }

    /// The facts that the walk found about its places.
    pub fn survey(&self) -> Survey
        ensures same { result ≡ self.now.survey }
        ensures survey { OnTokensIn self.now.reading self.now.query.now (IsSurvey result) }
    {
        self.survey
    }

    /// The same query, with these as its first places.
    pub fn with_places<'p>(&'p self, places: &'p [FoundPlace]) -> SurveyedQuery<'p>
        requires { AreFirstPlaces self.now.reading self.now.query.now places.now }
        ensures query { result.query.now ≡ self.now.query.now }
        ensures reading { result.reading ≡ self.now.reading }
        ensures known { result.known.now ≡ places.now }
    {
        SurveyedQuery {
            query: self.query,
            reading: self.reading,
            survey: self.survey,
            known: places,
        }
    }
}

/// The number of a query's places, and the first that doesn't stand alone.
#[derive(Debug, Clone, Copy)]
pub struct Survey {
    /// The number of names, with repeats.
    pub names: usize,
    /// The number of marks.
    pub marks: usize,
    /// Number and position of the first place that doesn't stand alone, both from 0.
    pub not_alone: Option<(usize, usize)>,
    /// The total length of the pieces between the places.
    pub piece_bytes: usize,
}

/// The survey of a query, and the number of its first places that were kept in `first`.
pub fn place_survey(query: &[u8], first: &mut [FoundPlace], reading: Reading) -> (Survey, usize)
    ensures survey { OnTokensIn reading query.now (IsSurvey result.0) }
    ensures in_query { result.0.names + result.0.marks ≤ length query.now }
    ensures kept { OnTokensIn reading query.now (λ ts.
        take result.1 first.new ≡ take (length first.new) (found_places ts)) }
    ensures in_room { result.1 ≤ length first.new }
{
    // Each kind of names has a loop of its own, in which `wide_names` is known.
    if reading.wide_names {
        return survey_read(query, first, reading);
    }
    survey_read(query, first, reading)
}

// The same. It is inlined, so that no loop tests `wide_names` for each place.
#[inline(always)]
fn survey_read(query: &[u8], first: &mut [FoundPlace], reading: Reading) -> (Survey, usize)
    ensures survey { OnTokensIn reading query.now (IsSurvey result.0) }
    ensures in_query { result.0.names + result.0.marks ≤ length query.now }
    ensures kept { OnTokensIn reading query.now (λ ts.
        take result.1 first.new ≡ take (length first.new) (found_places ts)) }
    ensures in_room { result.1 ≤ length first.new }
{
    let mut names = 0;
    let mut marks = 0;
    let mut not_alone = None;
    let mut piece_bytes = 0;
    let mut kept = 0;
    let mut at = 0;
    while let Some(found) = first_place_inlined(&query[at..], reading) {
        let start = at + found.before;
        let end = start + found.len;
        let here = not_alone_at(query, names + marks, start, end);
        not_alone = not_alone.or(here);
        piece_bytes += found.before;
        match found.kind {
            PlaceKind::Name => names += 1,
            PlaceKind::Mark => marks += 1,
        }
        if kept < first.len() {
            first[kept] = found;
            kept += 1;
        }
        at = end;
    }
    let survey = Survey {
        names,
        marks,
        not_alone,
        piece_bytes: piece_bytes + (query.len() - at),
    };
    (survey, kept)
}

// Number and position of the place from `start` to `end`, or `None` if it stands alone.
fn not_alone_at(query: &[u8], place: usize, start: usize, end: usize) -> Option<(usize, usize)>
    requires { (start ≤ length query.now) × (end ≤ length query.now) }
    ensures { result ≡ (if stands_alone (take start query.now) (drop end query.now)
        then None else Some (place, start)) }
{
    let (before, _) = query.split_at(start);
    let (_, after) = query.split_at(end);
    if stands_alone(before, after) {
        None
    } else {
        Some((place, start))
    }
}

// Whether the byte may stand directly before a place.
fn may_stand_before(byte: u8) -> bool
    ensures { result ≡ may_stand_before byte }
{
    MAY_STAND_BEFORE[byte as usize] == b'1'
}

// Whether the byte may stand directly after a place.
fn may_stand_after(byte: u8) -> bool
    ensures { result ≡ may_stand_after byte }
{
    MAY_STAND_AFTER[byte as usize] == b'1'
}

// `1` for white space and each of `(,=<>+-*/%&|^~`, 32 bytes a line.
static MAY_STAND_BEFORE: [u8; 256] = *b"\
    00000000011011000000000000000000\
    10000110101111010000000000001110\
    00000000000000000000000000000010\
    00000000000000000000000000001010\
    00000000000000000000000000000000\
    00000000000000000000000000000000\
    00000000000000000000000000000000\
    00000000000000000000000000000000";

// `1` for white space and each of `),;=<>+-*/%&|^!`, 32 bytes a line.
static MAY_STAND_AFTER: [u8; 256] = *b"\
    00000000011011000000000000000000\
    11000110011111010000000000011110\
    00000000000000000000000000000010\
    00000000000000000000000000001000\
    00000000000000000000000000000000\
    00000000000000000000000000000000\
    00000000000000000000000000000000\
    00000000000000000000000000000000";

// Whether a place may come after this text.
fn allows_place_after(before: &[u8]) -> bool
    ensures { result ≡ none_or_last may_stand_before before.now }
{
    match before.last() {
        Some(byte) => may_stand_before(*byte),
        None => true,
    }
}

// Whether a place may come before this text.
fn allows_place_before(after: &[u8]) -> bool
    ensures { result ≡ none_or_first may_stand_after after.now }
{
    match after.first() {
        Some(byte) => may_stand_after(*byte),
        None => true,
    }
}

/// Whether a place between these two texts stands alone.
pub(super) fn stands_alone(before: &[u8], after: &[u8]) -> bool
    ensures { result ≡ stands_alone before.now after.now }
{
    allows_place_after(before) && allows_place_before(after)
}
