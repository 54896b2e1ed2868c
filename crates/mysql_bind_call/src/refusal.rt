//! Why a query and what is given to it have no text for a purpose.
use mysql_binding::BindError;
use mysql_fragments::FragmentsError;
use mysql_steady_text::purpose::QueryRefusal;
use std::alloc::AllocError;
use thiserror::Error;

/// Why [`bind`](crate::bind) gave no text: the first cause, in this order.
#[derive(Debug, PartialEq, Drop, Error)]
pub enum BindRefusal {
    /// A pair has the name of an earlier pair. The first such pair is reported.
    #[error("Redefinition of a named parameter by pair {index}")]
    Redefined {
        /// Its number among the pairs, from 0.
        index: usize,
    },
    /// The query is refused for the purpose, whatever is given to it.
    #[error(transparent)]
    Query(QueryRefusal),
    /// The values don't fit the query. It is never out of memory.
    #[error(transparent)]
    Values(BindError),
    /// The fragments don't fit the query. It is never out of memory.
    #[error(transparent)]
    Fragments(FragmentsError),
    /// The purpose is either mode or any connection, and the fragment for a place has a name with a
    /// backslash or a byte from 128 on. The first such fragment is reported.
    #[error("Fragment at place {place} has a name with a backslash or a byte that is not ASCII")]
    UnsteadyFragment {
        /// The number of its place, from 0.
        place: usize,
    },
    /// Memory was refused, or the text would be longer than `isize::MAX` bytes.
    #[error("out of memory")]
    Memory(AllocError),
}
