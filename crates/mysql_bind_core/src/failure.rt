//! Why nothing was written.
use crate::assignment::PairsError;
use mysql_fragments::{FragmentsError, SteadyFragmentsError};
use mysql_io::readers_and_writers::WriteError;
use mysql_portable::portable::Unportable;
use std::alloc::{AllocError, AllocFailed};

/// Why [`write_bound`](crate::write_bound) did not write the whole text: the first cause, in the
/// order below. After `Write` a prefix of the text was written. After every other failure nothing
/// was written.
#[derive(Debug, PartialEq, Drop)]
pub enum Failure {
    /// The query ends within a string, a quoted identifier or a block comment. The text after the
    /// query would be part of it.
    Open {
        /// The index of the first byte of that token.
        at: usize,
    },
    /// Steady literals are asked for, and the query has a backslash or a byte from 128 on.
    Unsteady {
        /// The index of the first one.
        at: usize,
    },
    /// The query isn't portable on servers or in a client, by itself or with the end of a statement
    /// after it, a newline and `;`. The first construct that makes it so is reported, at its index
    /// in the query.
    Unportable(Unportable),
    /// The query has a mark, which has no name.
    Marks,
    /// The bytes of an assignment aren't valid for its type.
    NoValue,
    /// This name is assigned twice.
    Redefined(Vec<u8>),
    /// The values and other fragments can't be bound into the query with the literals of a mode, or
    /// out of memory.
    Fragments(FragmentsError),
    /// The same with steady literals.
    SteadyFragments(SteadyFragmentsError),
    /// The bound text isn't portable in a client. An example is a name or a string with a line that
    /// begins with `delimiter`. The first construct is reported, at its index in the text.
    UnportableText(Unportable),
    /// A write failed, or took no byte.
    Write,
    /// Out of memory. It may come in place of any other.
    Memory(AllocError),
}

impl From<AllocError> for Failure {
    ghost use Rattle.std.specs.Prelude.{◌≡◌, alloc_error};
    ghost use Rattle.mysql_bind_core.specs.declared.failure.Failure.TheVariants.{Memory};

    ghost from_gives = { λ _ failure. failure ≡ Memory alloc_error };

    fn from(error: AllocError) -> Failure {
        Failure::Memory(error)
    }
}

impl<T: Drop> From<AllocFailed<T>> for Failure {
    ghost use Rattle.std.specs.Prelude.{◌≡◌, alloc_error};
    ghost use Rattle.mysql_bind_core.specs.declared.failure.Failure.TheVariants.{Memory};

    ghost from_gives = { λ _ failure. failure ≡ Memory alloc_error };

    fn from(_error: AllocFailed<T>) -> Failure {
        Failure::Memory(AllocError)
    }
}

impl From<FragmentsError> for Failure {
    ghost use Rattle.std.specs.Prelude.{◌≡◌};
    ghost use Rattle.mysql_bind_core.specs.declared.failure.Failure.TheVariants.{Fragments};

    ghost from_gives = { λ error failure. failure ≡ Fragments error };

    fn from(error: FragmentsError) -> Failure {
        Failure::Fragments(error)
    }
}

impl From<SteadyFragmentsError> for Failure {
    ghost use Rattle.std.specs.Prelude.{◌≡◌};
    ghost use Rattle.mysql_bind_core.specs.declared.failure.Failure.TheVariants.{SteadyFragments};

    ghost from_gives = { λ error failure. failure ≡ SteadyFragments error };

    fn from(error: SteadyFragmentsError) -> Failure {
        Failure::SteadyFragments(error)
    }
}

impl From<PairsError> for Failure {
    ghost use Rattle.std.specs.Prelude.{◌≡◌};
    ghost use Rattle.mysql_bind_core.specs.Refusals.{pairs_failure};

    ghost from_gives = { λ error failure. failure ≡ pairs_failure error };

    fn from(error: PairsError) -> Failure {
        match error {
            PairsError::NoValue => Failure::NoValue,
            PairsError::Memory(error) => Failure::Memory(error),
        }
    }
}

impl From<WriteError> for Failure {
    ghost use Rattle.std.specs.Prelude.{◌≡◌};
    ghost use Rattle.mysql_bind_core.specs.declared.failure.Failure.TheVariants.{Write};

    ghost from_gives = { λ _ failure. failure ≡ Write };

    fn from(_error: WriteError) -> Failure {
        Failure::Write
    }
}
