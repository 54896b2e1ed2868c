//! Why a query and fragments give no steady text.
ghost use Rattle.std.specs.Prelude.{◌≡◌};
ghost use Rattle.mysql_fragments.specs.SteadyFragmentsErrors.{steady_fragments_error};

use crate::fragments_error::FragmentsError;
use mysql_portable::portable::Unportable;
use mysql_steady_text::purpose::QueryRefusal;
use std::alloc::AllocError;
use thiserror::Error;

/// Why `bind_fragments_anywhere` or `bind_fragments_in_any_mode` gave no text: the first cause, in
/// this order.
#[derive(Debug, PartialEq, Drop, Error)]
pub enum SteadyFragmentsError {
    /// The query has a backslash or a byte from 128 on; the first is reported.
    #[error("Backslash or byte that is not ASCII at byte {at} of the query")]
    Unsteady {
        /// Its index in the query.
        at: usize,
    },
    /// The query isn't portable; the first construct is reported. It is never returned by
    /// `bind_fragments_in_any_mode`.
    #[error("Not portable at byte {} of the query: {}", .0.at, .0.construct)]
    Unportable(Unportable),
    /// A cause of `bind_fragments`, or out of memory.
    #[error(transparent)]
    Fragments(FragmentsError),
    /// The fragment for a place has a name with a backslash or a byte from 128 on; the first such
    /// fragment is reported.
    #[error("Fragment at place {place} has a name with a backslash or a byte that is not ASCII")]
    UnsteadyFragment {
        /// The number of its place, from 0, as in
        /// [`Fault`](crate::FragmentsError::Fault).
        place: usize,
    },
}

impl From<FragmentsError> for SteadyFragmentsError {
    ghost use Rattle.std.specs.Prelude.{◌≡◌};
    ghost use Rattle.mysql_fragments.specs.declared.steady_fragments_error.SteadyFragmentsError.TheVariants.{Fragments};

    ghost from_gives = { λ refusal error. error ≡ Fragments refusal };

    fn from(error: FragmentsError) -> SteadyFragmentsError {
        SteadyFragmentsError::Fragments(error)
    }
}

impl From<AllocError> for SteadyFragmentsError {
    ghost use Rattle.std.specs.Prelude.{◌≡◌, alloc_error};
    ghost use Rattle.mysql_fragments.specs.declared.fragments_error.FragmentsError.TheVariants.{Memory};
    ghost use Rattle.mysql_fragments.specs.declared.steady_fragments_error.SteadyFragmentsError.TheVariants.{Fragments};

    ghost from_gives = { λ _ error. error ≡ Fragments (Memory alloc_error) };

    fn from(error: AllocError) -> SteadyFragmentsError {
        SteadyFragmentsError::Fragments(FragmentsError::Memory(error))
    }
}

/// The error for a query that is refused. A backslash is a byte that isn't steady.
pub(crate) fn steady_fragments_error(refusal: QueryRefusal) -> SteadyFragmentsError
    ensures { result ≡ steady_fragments_error refusal }
{
    match refusal {
        QueryRefusal::Unsteady { at } => SteadyFragmentsError::Unsteady { at },
        QueryRefusal::Backslash { at } => SteadyFragmentsError::Unsteady { at },
        QueryRefusal::Unportable(found) => SteadyFragmentsError::Unportable(found),
    }
}
