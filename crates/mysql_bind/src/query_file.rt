//! A query, the file that it was read from, and the messages about refusals.
use crate::changed_text::changed_text;
use crate::complaint::{Complaint, Place, one_fault};
use crate::construct_texts::ConstructTexts;
use crate::sources::{Sources, shown_path};
use crate::values::{Values, wrong_values};
use mysql_bind_core::{Failure, Request, line_and_column};
use mysql_binding::WideQuery;
use mysql_fragments::{FragmentsError, SteadyFragmentsError};
use mysql_named_params::places::{FoundPlace, PlaceKind};
use mysql_values::show::Shown;
use std::alloc::{AllocError, Global};

/// A query and its file.
#[derive(Drop)]
pub struct QueryFile<'a> {
    /// The path, in the form that messages have.
    pub path: &'a str,
    /// The query.
    pub bytes: Vec<u8>,
}

/// Reads the query of a file.
pub fn read_query<'a>(
    sources: &mut Sources,
    rt: &HostRuntime,
    path: &'a str,
) -> Result<QueryFile<'a>, Complaint> {
    let bytes = sources.read(rt, path)?;
    Ok(QueryFile {
        path: shown_path(path),
        bytes,
    })
}

// A byte of the query, or its end.
fn place_of(alloc: Global, query: &QueryFile<'_>, at: usize) -> Result<Place, AllocError> {
    let path = String::from_str(alloc, query.path)?;
    let text = query.bytes.as_slice();
    let (line, column) = line_and_column(text, at.min(text.len()));
    Ok(Place::Line { path, line, column })
}

/// Lines and columns of bytes of a query, which have to be asked for in the order of the bytes. All
/// of them take one walk over the query.
#[derive(Drop)]
pub struct PlacesInOrder<'q> {
    path: &'q str,
    // The query from the last byte that was asked for on.
    rest: &'q [u8],
    // Where that byte is.
    at: usize,
    line: usize,
    column: usize,
}

impl<'q> PlacesInOrder<'q> {
    /// The state before the first byte.
    pub fn new(query: &'q QueryFile<'_>) -> PlacesInOrder<'q> {
        PlacesInOrder {
            path: query.path,
            rest: query.bytes.as_slice(),
            at: 0,
            line: 1,
            column: 1,
        }
    }

    /// The place of the byte at this index, or of the end. The index isn't before the last one that
    /// was asked for.
    pub fn place_of(&mut self, alloc: Global, at: usize) -> Result<Place, AllocError> {
        let further = at.saturating_sub(self.at).min(self.rest.len());
        let (line, column) = line_and_column(self.rest, further);
        self.column = if line == 1 {
            self.column.saturating_add(column.saturating_sub(1))
        } else {
            column
        };
        self.line = self.line.saturating_add(line.saturating_sub(1));
        self.at = self.at.saturating_add(further);
        self.rest = &self.rest[further..];
        let path = String::from_str(alloc, self.path)?;
        Ok(Place::Line {
            path,
            line: self.line,
            column: self.column,
        })
    }
}

// A refusal at a byte of the query.
fn refused_at(
    alloc: Global,
    query: &QueryFile<'_>,
    at: usize,
    what: &str,
) -> Result<Complaint, AllocError> {
    let place = place_of(alloc, query, at)?;
    let what = String::from_str(alloc, what)?;
    Ok(Complaint::Refused(one_fault(alloc, place, what)?))
}

/// A place of a query.
#[derive(Clone, Copy)]
pub struct PlaceAt {
    /// Whether it is a name or a mark.
    pub kind: PlaceKind,
    /// The index of its first byte.
    pub at: usize,
    /// The index behind its last byte.
    pub end: usize,
}

/// The place that is found behind this index.
pub fn place_behind(end: usize, found: &FoundPlace) -> PlaceAt {
    let at = end.saturating_add(found.before);
    PlaceAt {
        kind: found.kind,
        at,
        end: at.saturating_add(found.len),
    }
}

/// The places of a query, in order.
pub fn places_of(alloc: Global, query: &WideQuery<'_>) -> Result<Vec<PlaceAt>, AllocError> {
    let mut places = Vec::new(alloc);
    let mut end = 0usize;
    for found in query.surveyed().known {
        let place = place_behind(end, found);
        places.push(place)?;
        end = place.end;
    }
    Ok(places)
}

/// The message about a mark.
pub static MARK: &str = "`?` has no name: write a name, as `:id`";

/// The message about a byte that isn't steady.
pub static UNSTEADY: &str = "a mode or a character set may read this byte otherwise: give it as a \
     value, or --literals=plain";

// The refusal of the first mark.
fn mark_refused(alloc: Global, query: &QueryFile<'_>, mode: bool) -> Result<Complaint, AllocError> {
    let parsed = WideQuery::parse_in(alloc, query.bytes.as_slice(), mode)?;
    let places = places_of(alloc, &parsed)?;
    let mark = places.iter().find(|place| place.kind == PlaceKind::Mark);
    let at = match mark {
        Some(place) => place.at,
        None => 0,
    };
    refused_at(alloc, query, at, MARK)
}

// The refusal of a name with two values.
fn redefined(alloc: Global, name: &[u8]) -> Result<Complaint, AllocError> {
    let what = format!(in alloc; "`{}` is given two values", Shown(name))?;
    Ok(Complaint::Refused(one_fault(alloc, Place::Words, what)?))
}

/// The message about a name that joins the text beside it.
pub static JOINED: &str =
    "this name joins what stands beside it: write a space or a comma between them (and in a label \
     a space after its colon)";

// What is said if values and other fragments can't be bound. Each can be written, since its bytes
// are what its type takes.
fn fragments_refused(
    alloc: Global,
    query: &QueryFile<'_>,
    error: FragmentsError,
) -> Result<Complaint, AllocError> {
    match error {
        FragmentsError::Memory(_) => Ok(Complaint::Memory),
        FragmentsError::NotAlone { at, .. } => refused_at(alloc, query, at, JOINED),
        error => {
            let what = format!(in alloc; "{error}")?;
            let path = String::from_str(alloc, query.path)?;
            Ok(Complaint::Refused(one_fault(alloc, Place::File(path), what)?))
        }
    }
}

// What is said if they can't be bound into a steady text.
fn steady_fragments_refused(
    alloc: Global,
    query: &QueryFile<'_>,
    error: SteadyFragmentsError,
) -> Result<Complaint, AllocError> {
    match error {
        SteadyFragmentsError::Fragments(error) => fragments_refused(alloc, query, error),
        SteadyFragmentsError::UnsteadyFragment { place } => refused_at(
            alloc,
            query,
            place_index(alloc, query.bytes.as_slice(), place)?,
            "the identifier for this name has a backslash or a byte that is not ASCII, which a \
             mode or a character set may read otherwise: give --literals=plain",
        ),
        error => {
            let what = format!(in alloc; "{error}")?;
            let path = String::from_str(alloc, query.path)?;
            Ok(Complaint::Refused(one_fault(alloc, Place::File(path), what)?))
        }
    }
}

// The index of the place of this number in a steady query.
fn place_index(alloc: Global, text: &[u8], number: usize) -> Result<usize, AllocError> {
    let parsed = WideQuery::parse_in(alloc, text, false)?;
    match places_of(alloc, &parsed)?.get(number) {
        Some(place) => Ok(place.at),
        None => Ok(text.len()),
    }
}

/// The messages about a refusal.
pub fn complaint_of(
    alloc: Global,
    query: &QueryFile<'_>,
    values: &Values,
    request: Request,
    failure: Failure,
) -> Result<Complaint, AllocError> {
    let mode = request.literals.no_backslash_escape();
    match failure {
        Failure::Open { at } => refused_at(
            alloc,
            query,
            at,
            "the query ends within what opens here: close it",
        ),
        Failure::Unsteady { at } => refused_at(alloc, query, at, UNSTEADY),
        Failure::Unportable(found) => {
            let text = query.bytes.as_slice();
            let what = ConstructTexts::new(mode).next(alloc, text, found)?;
            refused_at(alloc, query, found.at, what.as_str())
        }
        Failure::Marks => mark_refused(alloc, query, mode),
        Failure::NoValue => Ok(Complaint::Refused(wrong_values(alloc, values)?)),
        Failure::Redefined(name) => redefined(alloc, name.as_slice()),
        Failure::Fragments(error) => fragments_refused(alloc, query, error),
        Failure::SteadyFragments(error) => steady_fragments_refused(alloc, query, error),
        Failure::UnportableText(found) => {
            let text = query.bytes.as_slice();
            let changed = changed_text(alloc, text, values.assignments.as_slice(), request, found)?;
            refused_at(alloc, query, changed.at, changed.what.as_str())
        }
        Failure::Write => Ok(Complaint::Write),
        Failure::Memory(_) => Ok(Complaint::Memory),
    }
}
