//! Why a query and borrowed pairs give no text for both modes.
use crate::both_modes_error::BothModesError;
use thiserror::Error;

/// Why `bind_pairs_in_both_modes` gave no text.
///
/// For at most 64 pairs it is the first cause, in this order. For more, out of memory may come
/// before a name that is given twice.
#[derive(Debug, PartialEq, Drop, Error)]
pub enum BothModesPairsError {
    /// The name of a pair is that of an earlier one; the first such pair is reported.
    #[error("Redefinition of a named parameter by pair {index}")]
    Redefined {
        /// Its number among the pairs, from 0.
        index: usize,
    },
    /// A cause of `bind_text_in_both_modes`, or out of memory.
    #[error(transparent)]
    Bind(BothModesError),
}

impl From<BothModesError> for BothModesPairsError {
    ghost use Rattle.std.specs.Prelude.{◌≡◌};
    ghost use Rattle.mysql_steady_text.specs.declared.both_modes_pairs_error.BothModesPairsError.TheVariants.{Bind};

    ghost from_gives = { λ refusal error. error ≡ Bind refusal };

    fn from(error: BothModesError) -> BothModesPairsError {
        BothModesPairsError::Bind(error)
    }
}
