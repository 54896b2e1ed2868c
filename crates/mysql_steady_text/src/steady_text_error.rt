//! Why a query and parameters give no steady text.
use mysql_binding::BindError;
use mysql_portable::portable::Unportable;
use thiserror::Error;

/// Why `bind_text_anywhere` or `bind_text_in_any_mode` gave no text: the first cause, in this
/// order.
#[derive(Debug, PartialEq, Drop, Error)]
pub enum SteadyTextError {
    /// The query has a backslash or a byte from 128 on; the first is reported.
    #[error("Backslash or byte that is not ASCII at byte {at} of the query")]
    Unsteady {
        /// Its index in the query.
        at: usize,
    },
    /// The query isn't portable; the first construct is reported. It is never returned by
    /// `bind_text_in_any_mode`.
    #[error("Not portable at byte {} of the query: {}", .0.at, .0.construct)]
    Unportable(Unportable),
    /// A cause of `bind_text`, or out of memory.
    #[error(transparent)]
    Bind(BindError),
}

impl From<BindError> for SteadyTextError {
    ghost use Rattle.std.specs.Prelude.{◌≡◌};
    ghost use Rattle.mysql_steady_text.specs.declared.steady_text_error.SteadyTextError.TheVariants.{Bind};

    ghost from_gives = { λ refusal error. error ≡ Bind refusal };

    fn from(error: BindError) -> SteadyTextError {
        SteadyTextError::Bind(error)
    }
}
