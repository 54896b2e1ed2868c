//! The error of binding parameters to a query.
use mysql_params_core::params::ParamsError;
use std::alloc::AllocError;
use thiserror::Error;

/// The error of `bind_text` and `bind_text_in`: the first cause for which they gave no text, in
/// this order.
#[derive(Debug, PartialEq, Drop, Error)]
pub enum BindError {
    /// The query has both named and positional parameters.
    #[error("Named and positional params in one query")]
    Mixed,
    /// [`Params::into_values`](mysql_params_core::params::Params::into_values) refuses the query's
    /// names: a name has no value, or the parameters are of the other kind. It is never out of
    /// memory.
    #[error(transparent)]
    Params(ParamsError),
    /// The query has no names, and the number of its marks isn't the number of values.
    #[error("Query has {marks} marks and {values} values")]
    MarkCount {
        /// The marks of the query.
        marks: usize,
        /// The values given.
        values: usize,
    },
    /// A name or mark doesn't stand alone. The first one that doesn't is reported.
    #[error("Place {place} at byte {at} does not stand alone")]
    NotAlone {
        /// Its number among the names and marks, from 0.
        place: usize,
        /// The index of its first byte in the query.
        at: usize,
    },
    /// The value for a place is a float, which has no literal. The first float is reported.
    #[error("Float at place {place}")]
    Float {
        /// The number of its place, from 0.
        place: usize,
    },
    /// Memory was refused, or the text would be longer than `isize::MAX` bytes.
    #[error("out of memory")]
    Memory(AllocError),
}

impl From<AllocError> for BindError {
    ghost use Rattle.std.specs.Prelude.{◌≡◌, alloc_error};
    ghost use Rattle.mysql_binding.specs.declared.bind_error.BindError.TheVariants.{Memory};

    ghost from_gives = { λ _ error. error ≡ Memory alloc_error };

    fn from(error: AllocError) -> BindError {
        BindError::Memory(error)
    }
}

/// Out of memory of a lookup stays out of memory.
impl From<ParamsError> for BindError {
    ghost use Rattle.std.specs.Prelude.{◌≡◌, None, option_map, alloc_error};
    ghost use Rattle.mysql_params_core.specs.Errors.{lookup_refusal};
    ghost use Rattle.mysql_binding.specs.BindErrors.{cause_of};
    ghost use Rattle.mysql_binding.specs.FirstCause.{refused_params};
    ghost use Rattle.mysql_binding.specs.declared.bind_error.BindError.TheVariants.{Memory};

    ghost from_gives = { λ lookup error.
        (cause_of error ≡ option_map refused_params (lookup_refusal lookup))
        × (lookup_refusal lookup ≡ None → error ≡ Memory alloc_error) };

    fn from(error: ParamsError) -> BindError {
        match error {
            ParamsError::Memory(error) => BindError::Memory(error),
            error => BindError::Params(error),
        }
    }
}
