//! Messages about a bound text that a client would change: the place of the query that causes the
//! change, and the reason.
use crate::matching::assignment_numbers;
use crate::query_file::{PlaceAt, places_of};
use mysql_bind_core::{Assignment, Failure, Portability, Request, ValueType, bound_text};
use mysql_binding::WideQuery;
use mysql_portable::portable::{Construct, Unportable};
use mysql_values::show::Shown;
use std::alloc::{AllocError, Global};

// A query, and what its text is made of.
#[derive(Drop)]
struct Binding<'a> {
    query: &'a [u8],
    assignments: &'a [Assignment],
    request: Request,
}

impl Binding<'_> {
    // The length of the text of a piece of the query that ends with its one name, whether or not
    // it is portable. `number` is that of the name's assignment.
    fn text_len(&self, alloc: Global, piece: &[u8], number: usize) -> Result<usize, AllocError> {
        let end = number.saturating_add(1).min(self.assignments.len());
        let assigned = &self.assignments[number.min(end)..end];
        let request = Request {
            literals: self.request.literals,
            portability: Portability::Any,
        };
        match bound_text(alloc, piece, assigned, request) {
            Ok(text) => Ok(text.len()),
            Err(Failure::Memory(error)) => Err(error),
            // It doesn't come: what is bound into the whole query is bound into its pieces.
            Err(_) => Ok(0),
        }
    }

    // The place whose text holds this byte of the bound text. Each place is bound once, with what
    // stands between it and the place before it.
    fn place_at(&self, alloc: Global, at: usize) -> Result<Option<PlaceAt>, AllocError> {
        let mode = self.request.literals.no_backslash_escape();
        let numbers = assignment_numbers(alloc, self.assignments)?;
        let parsed = WideQuery::parse_in(alloc, self.query, mode)?;
        let mut before = 0usize;
        let mut written = 0usize;
        for place in places_of(alloc, &parsed)? {
            let piece = self.query.get(before..place.end).unwrap_or(b"");
            let name = self
                .query
                .get(place.at.saturating_add(1)..place.end)
                .unwrap_or(b"");
            if let Some(number) = numbers.get(name) {
                written = written.saturating_add(self.text_len(alloc, piece, *number)?);
            }
            if written > at {
                return Ok(Some(place));
            }
            before = place.end;
        }
        Ok(None)
    }
}

// Why a client would change the text.
fn reason_of(construct: Construct) -> &'static str {
    match construct {
        Construct::Delimiter =>
            "a line of it begins with `delimiter`, and a client drops the newline after that line",
        Construct::EscapedNewline =>
            "a `\\` stands in it before a newline, and a client may drop the `\\`",
        Construct::ZeroByte => "it has a byte 0, and a client sends nothing from that line on",
        // No other construct comes of what stands in a place.
        _ => "a client reads the text otherwise",
    }
}

// What to do about it.
fn advice_of(assignments: &[Assignment], name: &[u8]) -> &'static str {
    let is_name = assignments.iter().any(|assignment| {
        assignment.value_type == ValueType::Identifier && assignment.name.as_slice() == name
    });
    if is_name {
        "take a name without newlines"
    } else {
        "leave out --literals=plain and the mode: steady literals stand in one line"
    }
}

/// A place of a query that makes a client change the text, and the message about it.
#[derive(Drop)]
pub struct ChangedText<'q> {
    /// The index of the place in the query.
    pub at: usize,
    /// The name of the place.
    pub name: &'q [u8],
    /// The message: the name of the place, the reason, and what to do.
    pub what: String,
}

/// The message about a field of a row that makes a client change the text. It gives the name of the
/// field's column.
pub fn changed_column(alloc: Global, name: &[u8], found: Unportable) -> Result<String, AllocError> {
    format!(in alloc;
        "a client would change the text by what stands for `{}`: {}: {}",
        Shown(name),
        reason_of(found.construct),
        advice_of(&[], name)
    )
}

/// The place of the query that makes a client change the bound text. The client changes it at the
/// construct `found`.
pub fn changed_text<'q>(
    alloc: Global,
    query: &'q [u8],
    assignments: &[Assignment],
    request: Request,
    found: Unportable,
) -> Result<ChangedText<'q>, AllocError> {
    let binding = Binding {
        query,
        assignments,
        request,
    };
    let (at, end) = match binding.place_at(alloc, found.at)? {
        Some(place) => (place.at, place.end),
        None => (query.len(), query.len()),
    };
    let name = query.get(at.saturating_add(1)..end).unwrap_or(b"");
    let what = format!(in alloc;
        "a client would change the text by what stands for `:{}`: {}: {}",
        Shown(name),
        reason_of(found.construct),
        advice_of(assignments, name)
    )?;
    Ok(ChangedText { at, name, what })
}
