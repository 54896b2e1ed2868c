//! Why a query and parameters give no text for both modes.
use mysql_binding::BindError;
use mysql_portable::portable::Unportable;
use thiserror::Error;

/// Why `bind_text_in_both_modes` gave no text: the first cause, in this order.
#[derive(Debug, PartialEq, Drop, Error)]
pub enum BothModesError {
    /// A string of the query holds a backslash; the first is reported.
    #[error("Backslash in a string at byte {at} of the query")]
    Backslash {
        /// Its index in the query.
        at: usize,
    },
    /// The query isn't portable; the first construct is reported.
    #[error("Not portable at byte {} of the query: {}", .0.at, .0.construct)]
    Unportable(Unportable),
    /// A cause of `bind_text`, or out of memory.
    #[error(transparent)]
    Bind(BindError),
}

impl From<BindError> for BothModesError {
    ghost use Rattle.std.specs.Prelude.{◌≡◌};
    ghost use Rattle.mysql_steady_text.specs.declared.both_modes_error.BothModesError.TheVariants.{Bind};

    ghost from_gives = { λ refusal error. error ≡ Bind refusal };

    fn from(error: BindError) -> BothModesError {
        BothModesError::Bind(error)
    }
}
