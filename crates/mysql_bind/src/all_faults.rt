//! All faults of a query that have the kind for which the query is refused.
use crate::complaint::{Complaint, Fault, Place, add_fault};
use crate::construct_texts::{ConstructTexts, is_taken_after};
use crate::query_file::{
    JOINED, MARK, PlacesInOrder, QueryFile, UNSTEADY, complaint_of, place_behind,
};
use crate::rewritten::in_single_quotes;
use crate::values::Values;
use mysql_bind_core::{Failure, Request, TakenQuery};
use mysql_binding::{SurveyedQuery, WideQuery};
use mysql_named_params::lowered::lowered_query;
use mysql_named_params::places::{PlaceKind, Reading};
use mysql_named_params::tokens::first_token;
use mysql_portable::client::first_unportable_in_client;
use mysql_portable::portable::{Construct, Unportable};
use mysql_portable::steady::first_unsteady;
use std::alloc::{AllocError, Global};

// How many faults of a query are told.
const MOST_TOLD: usize = 1000;

// How many faults of a query are found. The first are told.
#[derive(Clone, Copy)]
struct FaultCount(usize);

impl FaultCount {
    // Counts one more, and returns whether it is told.
    fn tells_next(&mut self) -> bool {
        self.0 = self.0.saturating_add(1);
        self.0 <= MOST_TOLD
    }
}

// Adds a fault that says how many faults of the query aren't told, if there are any.
fn add_untold(
    faults: &mut Vec<Fault>,
    alloc: Global,
    query: &QueryFile<'_>,
    count: FaultCount,
) -> Result<(), AllocError> {
    let untold = count.0.saturating_sub(MOST_TOLD);
    if untold == 0 {
        return Ok(());
    }
    let path = String::from_str(alloc, query.path)?;
    let what = format!(in alloc;
        "only the first {} are told: {untold} more of this kind",
        MOST_TOLD
    )?;
    add_fault(faults, Place::File(path), what)
}

/// Adds the faults of a query that is refused for this reason: the unsteady bytes, the constructs,
/// or the marks, of each the first 1000 and how many more there are. For any other reason it adds
/// only the faults of that refusal.
pub fn add_all_faults(
    faults: &mut Vec<Fault>,
    alloc: Global,
    query: &QueryFile<'_>,
    request: Request,
    failure: Failure,
) -> Result<(), Complaint> {
    let mode = request.literals.no_backslash_escape();
    match failure {
        Failure::Unsteady { .. } => Ok(add_unsteady(faults, alloc, query)?),
        Failure::Unportable(_) => Ok(add_constructs(faults, alloc, query, mode)?),
        Failure::Marks => Ok(add_marks(faults, alloc, query, mode)?),
        failure => match complaint_of(alloc, query, &Values::new(alloc), request, failure)? {
            Complaint::Refused(found) => {
                for fault in found {
                    add_fault(faults, fault.place, fault.what)?;
                }
                Ok(())
            }
            complaint => Err(complaint),
        },
    }
}

/// Adds a fault for each of the first 1000 names of a taken query that join the text beside them,
/// and how many more there are. If a name directly follows another one, only that other one has a
/// fault for it.
pub fn add_joined(
    faults: &mut Vec<Fault>,
    alloc: Global,
    query: &QueryFile<'_>,
    taken: &TakenQuery<'_>,
) -> Result<(), AllocError> {
    let parsed = taken.parsed();
    let mode = parsed.no_backslash_escape();
    if parsed.surveyed().survey.not_alone.is_none() {
        return Ok(());
    }
    let text = parsed.query();
    let mut in_order = PlacesInOrder::new(query);
    let mut count = FaultCount(0);
    let mut before = 0usize;
    for found in parsed.surveyed().known {
        let place = place_behind(before, found);
        let end = place.end.saturating_add(1).min(text.len());
        if is_joined(text.get(before..end).unwrap_or(b""), mode) && count.tells_next() {
            add_at(faults, alloc, &mut in_order, place.at, JOINED)?;
        }
        before = place.end;
    }
    add_untold(faults, alloc, query, count)
}

// Whether the first name of a text, behind which at most one byte stands, doesn't stand alone.
fn is_joined(text: &[u8], mode: bool) -> bool {
    let reading = Reading {
        no_backslash_escape: mode,
        wide_names: true,
    };
    let survey = SurveyedQuery::new(text, reading, &mut []).survey;
    matches!(survey.not_alone, Some((0, _)))
}

// Adds a fault at a byte of the query.
fn add_at(
    faults: &mut Vec<Fault>,
    alloc: Global,
    places: &mut PlacesInOrder<'_>,
    at: usize,
    what: &str,
) -> Result<(), AllocError> {
    let place = places.place_of(alloc, at)?;
    add_fault(faults, place, String::from_str(alloc, what)?)
}

// How many bytes at the front aren't steady.
fn unsteady_len(text: &[u8]) -> usize {
    match text
        .iter()
        .position(|byte| byte.is_ascii() && *byte != b'\\')
    {
        Some(len) => len,
        None => text.len(),
    }
}

// Adds the faults of the runs of bytes that aren't steady.
fn add_unsteady(
    faults: &mut Vec<Fault>,
    alloc: Global,
    query: &QueryFile<'_>,
) -> Result<(), AllocError> {
    let text = query.bytes.as_slice();
    let mut places = PlacesInOrder::new(query);
    let mut count = FaultCount(0);
    let mut rest = text;
    // Each run has a byte.
    for _ in 0..text.len() {
        let Some(before) = first_unsteady(rest) else {
            break;
        };
        let before = before.min(rest.len());
        let at = text.len().saturating_sub(rest.len()).saturating_add(before);
        if count.tells_next() {
            add_at(faults, alloc, &mut places, at, UNSTEADY)?;
        }
        let run = &rest[before..];
        rest = &run[unsteady_len(run).min(run.len())..];
    }
    add_untold(faults, alloc, query, count)
}

// Adds the faults of the marks.
fn add_marks(
    faults: &mut Vec<Fault>,
    alloc: Global,
    query: &QueryFile<'_>,
    mode: bool,
) -> Result<(), AllocError> {
    let parsed = WideQuery::parse_in(alloc, query.bytes.as_slice(), mode)?;
    let mut places = PlacesInOrder::new(query);
    let mut count = FaultCount(0);
    let mut end = 0usize;
    for found in parsed.surveyed().known {
        let place = place_behind(end, found);
        if place.kind == PlaceKind::Mark && count.tells_next() {
            add_at(faults, alloc, &mut places, place.at, MARK)?;
        }
        end = place.end;
    }
    add_untold(faults, alloc, query, count)
}

// What is said of the next construct. Of a text in `"` also what to write instead of it, if that is
// short, and none stands directly beside it: `""` between two is a quote.
fn construct_told(
    alloc: Global,
    texts: &mut ConstructTexts,
    text: &[u8],
    found: Unportable,
    mode: bool,
) -> Result<String, AllocError> {
    if found.construct == Construct::EscapedQuote && found.at < text.len() {
        let (before, rest) = text.split_at(found.at);
        let (token, after) = rest.split_at(first_token(rest, mode).1);
        if before.last() != Some(&b'"')
            && after.first() != Some(&b'"')
            && let Some(written) = in_single_quotes(alloc, token)?
        {
            return format!(in alloc; "{}: {}", found.construct, written);
        }
    }
    texts.next(alloc, text, found)
}

// Two bytes behind which a client finds what it finds behind a text without a construct: that
// depends only on whether a statement or a line may begin there, and each word tells one of these.
// The text begins with two such bytes; where nothing follows them, they are the two.
fn same_front(alloc: Global, text: &[u8], mode: bool) -> Result<[u8; 2], AllocError> {
    if let [first, second] = text {
        return Ok([*first, *second]);
    }
    if is_taken_after(alloc, text, b"use ", mode)? {
        Ok(*b"  ")
    } else if is_taken_after(alloc, text, b"delimiter", mode)? {
        Ok(*b")\n")
    } else {
        Ok(*b"))")
    }
}

// Writes two bytes over the end of the token at this index of a text, and gives their index. They
// stand for spaces in the place of the token, behind what stands before it from `from` on.
fn passed(
    alloc: Global,
    text: &mut [u8],
    from: usize,
    at: usize,
    mode: bool,
) -> Result<usize, AllocError> {
    let (before, token_on) = text.split_at(at.min(text.len()));
    if token_on.is_empty() {
        return Ok(text.len());
    }
    let (_, len) = first_token(token_on, mode);
    let front = same_front(alloc, &before[from.min(before.len())..], mode)?;
    let from = at.saturating_add(len).saturating_sub(2);
    for i in 0..front.len() {
        if let Some(byte) = text.get_mut(from.saturating_add(i)) {
            *byte = front[i];
        }
    }
    Ok(from)
}

// Adds the faults of the constructs. Each further one is looked for behind the token at which the
// one before it begins, as if spaces stood in the place of that token. Names are looked at in lower
// case, as the query is when it is asked whether it is portable.
fn add_constructs(
    faults: &mut Vec<Fault>,
    alloc: Global,
    query: &QueryFile<'_>,
    mode: bool,
) -> Result<(), AllocError> {
    let mut places = PlacesInOrder::new(query);
    // Two bytes stand before the query, so that there is room for those that `passed` writes.
    let mut text = Vec::from_slice(alloc, b"  ")?;
    let lowered = lowered_query(alloc, query.bytes.as_slice(), mode)?;
    text.extend_from_slice(lowered.as_slice())?;
    // With the end of a statement, only a query that ends so may have a construct more.
    if lowered.as_slice().ends_with(b"--") {
        text.extend_from_slice(b"\n;")?;
    }
    let mut from = 0usize;
    let mut texts = ConstructTexts::new(mode);
    let mut count = FaultCount(0);
    // Each construct has a byte.
    for _ in 0..query.bytes.len() {
        let rest = &text.as_slice()[from.min(text.len())..];
        let Some(found) = first_unportable_in_client(rest, mode) else {
            break;
        };
        let at = from.saturating_add(found.at);
        if count.tells_next() {
            let place = places.place_of(alloc, at.saturating_sub(2))?;
            let what = construct_told(alloc, &mut texts, rest, found, mode)?;
            add_fault(faults, place, what)?;
        }
        from = passed(alloc, text.as_mut_slice(), from, at, mode)?;
    }
    add_untold(faults, alloc, query, count)
}
