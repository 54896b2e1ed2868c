//! Assignments and requests as plain data for tables, and what a writer has taken.
use crate::outcome::{Outcome, judged};
use mysql_bind_core::{Assignment, Failure, Literals, Portability, Request, ValueType};
use mysql_fragments::{FragmentsError, SteadyFragmentsError};
use std::alloc::{AllocError, Global};

/// What names are assigned, as plain data.
pub(crate) type Assigned = &'static [(&'static [u8], ValueType, &'static [u8])];

/// The assignments.
pub(crate) fn assignments(alloc: Global, plain: Assigned) -> Result<Vec<Assignment>, AllocError> {
    let mut assignments = Vec::new(alloc);
    for (name, value_type, bytes) in plain {
        let name = Vec::from_slice(alloc, *name)?;
        let bytes = Vec::from_slice(alloc, *bytes)?;
        assignments.push(Assignment {
            name,
            value_type: *value_type,
            bytes,
        })?;
    }
    Ok(assignments)
}

/// Steady literals, in queries that are portable.
pub(crate) const STEADY: Request = Request {
    literals: Literals::Steady,
    portability: Portability::Portable,
};

/// Steady literals, in all queries.
pub(crate) const STEADY_IN_ANY: Request = Request {
    literals: Literals::Steady,
    portability: Portability::Any,
};

/// Literals with backslash escapes, in all queries.
pub(crate) const PLAIN: Request = Request {
    literals: Literals::Plain {
        no_backslash_escape: false,
    },
    portability: Portability::Any,
};

/// Literals without backslash escapes, in queries that are portable.
pub(crate) const PLAIN_WITHOUT_ESCAPES: Request = Request {
    literals: Literals::Plain {
        no_backslash_escape: true,
    },
    portability: Portability::Portable,
};

/// How a call went that was refused so, and should be refused with a failure that is shown so.
pub(crate) fn refused(failure: Failure, wanted: Option<&str>) -> Outcome {
    if is_memory(&failure) {
        return Outcome::Memory;
    }
    match wanted {
        Some(text) => judged(Err::<Vec<u8>, Failure>(failure), Err::<&[u8], &str>(text)),
        None => Outcome::Wrong,
    }
}

/// Whether the refusal is out of memory.
pub(crate) fn is_memory(failure: &Failure) -> bool {
    match failure {
        Failure::Memory(_)
        | Failure::Fragments(FragmentsError::Memory(_))
        | Failure::SteadyFragments(SteadyFragmentsError::Fragments(FragmentsError::Memory(_))) => {
            true
        }
        _ => false,
    }
}

/// The room of a writer, before a call.
pub(crate) const ROOM: &[u8; 96] = &[b'*'; 96];

/// Whether the room has these texts in front, one after another, and is as before after them, where
/// so many bytes are left to the writer.
pub(crate) fn is_written(room: &[u8], left: usize, texts: &[&[u8]]) -> bool {
    let mut rest = room;
    for text in texts {
        match rest.strip_prefix(*text) {
            Some(after) => rest = after,
            None => return false,
        }
    }
    rest.len() == left && ROOM.ends_with(rest)
}
