//! Why the fragments of a form aren't bound to a query.
use mysql_fragments::FragmentsError;

/// Why the fragments of a form aren't bound to a query in a mode.
#[derive(Drop)]
pub(crate) enum KeptError {
    /// An implicit list or implicit rows may not stand at a place; the first such place is
    /// reported.
    Unbracketed {
        /// Its number among the names and marks, from 0.
        place: usize,
        /// The index of its first byte in the query.
        position: usize,
    },
    /// The first of the causes of fragments, or out of memory.
    Fragments(FragmentsError),
}

impl From<FragmentsError> for KeptError {
    ghost use Rattle.std.specs.Prelude.{◌≡◌};
    ghost use Rattle.mysql_flat_params.specs.declared.form_refusal.KeptError.TheVariants.{Fragments};

    ghost from_gives = { λ cause error. error ≡ Fragments cause };

    fn from(error: FragmentsError) -> KeptError {
        KeptError::Fragments(error)
    }
}

/// Why the fragments of a form aren't bound to a steady query for any mode.
#[derive(Drop)]
pub(crate) enum SteadyKeptError {
    /// Why they aren't bound in a mode.
    Kept(KeptError),
    /// The fragment for a place isn't steady; the first such place is reported.
    UnsteadyFragment {
        /// The number of its place, from 0.
        place: usize,
    },
}

impl From<FragmentsError> for SteadyKeptError {
    ghost use Rattle.std.specs.Prelude.{◌≡◌};
    ghost use Rattle.mysql_flat_params.specs.declared.form_refusal.KeptError.TheVariants.{Fragments};
    ghost use Rattle.mysql_flat_params.specs.declared.form_refusal.SteadyKeptError.TheVariants.{Kept};

    ghost from_gives = { λ cause error. error ≡ Kept (Fragments cause) };

    fn from(error: FragmentsError) -> SteadyKeptError {
        SteadyKeptError::Kept(KeptError::Fragments(error))
    }
}
