//! The error of binding borrowed pairs to a query.
use crate::bind_error::BindError;
use thiserror::Error;

/// The error of binding borrowed pairs to a query.
///
/// `bind_pairs` returns it, and so do `bind_pairs` and `append_pairs` of a
/// [`ParsedQuery`](crate::ParsedQuery). For at most 64 pairs it is the first cause for which they
/// gave no text, in this order. For more pairs, out of memory can be reported before a name that is
/// given twice.
#[derive(Debug, PartialEq, Drop, Error)]
pub enum BindPairsError {
    /// A pair has the name of an earlier pair. The first such pair is reported.
    #[error("Redefinition of a named parameter by pair {index}")]
    Redefined {
        /// Its number among the pairs, from 0.
        index: usize,
    },
    /// `bind_text_in` would be refused for this cause, or memory was refused.
    #[error(transparent)]
    Bind(BindError),
}

impl From<BindError> for BindPairsError {
    ghost use Rattle.std.specs.Prelude.{◌≡◌};
    ghost use Rattle.mysql_binding.specs.declared.bind_pairs_error.BindPairsError.TheVariants.{Bind};

    ghost from_gives = { λ refusal error. error ≡ Bind refusal };

    fn from(error: BindError) -> BindPairsError {
        BindPairsError::Bind(error)
    }
}
