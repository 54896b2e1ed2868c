//! Why a query and borrowed pairs give no steady text.
use crate::steady_text_error::SteadyTextError;
use thiserror::Error;

/// Why `bind_pairs_anywhere` or `bind_pairs_in_any_mode` gave no text.
///
/// For at most 64 pairs it is the first cause, in this order. For more, out of memory may come
/// before a name that is given twice.
#[derive(Debug, PartialEq, Drop, Error)]
pub enum SteadyPairsError {
    /// The name of a pair is that of an earlier one; the first such pair is reported.
    #[error("Redefinition of a named parameter by pair {index}")]
    Redefined {
        /// Its number among the pairs, from 0.
        index: usize,
    },
    /// A cause of `bind_text_anywhere` or `bind_text_in_any_mode`, or out of memory.
    #[error(transparent)]
    Bind(SteadyTextError),
}

impl From<SteadyTextError> for SteadyPairsError {
    ghost use Rattle.std.specs.Prelude.{◌≡◌};
    ghost use Rattle.mysql_steady_text.specs.declared.steady_pairs_error.SteadyPairsError.TheVariants.{Bind};

    ghost from_gives = { λ refusal error. error ≡ Bind refusal };

    fn from(error: SteadyTextError) -> SteadyPairsError {
        SteadyPairsError::Bind(error)
    }
}
