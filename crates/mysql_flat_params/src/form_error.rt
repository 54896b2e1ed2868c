//! Why bytes aren't a form of parameters.
use std::alloc::{AllocError, AllocFailed};
use thiserror::Error;

/// Why [`params_of_form`](crate::params_of_form) gave no parameters. `place` is the number of the
/// parameter, from 0, and `position` the index of its first byte in the form.
#[derive(Debug, PartialEq, Drop, Error)]
pub enum FormError {
    /// The form ends within a parameter.
    #[error("The form ends within parameter {place} at byte {position}")]
    End {
        /// The number of the parameter.
        place: usize,
        /// The index of its first byte.
        position: usize,
    },
    /// A length-encoded string begins with FB or FF.
    #[error("Bad length lead {lead} in parameter {place} at byte {position}")]
    LengthLead {
        /// The number of the parameter.
        place: usize,
        /// The index of its first byte.
        position: usize,
        /// That byte.
        lead: u8,
    },
    /// The number of its type isn't that of a column type with a binary form.
    #[error("Unsupported column type {number} of parameter {place} at byte {position}")]
    UnsupportedType {
        /// The number of the parameter.
        place: usize,
        /// The index of its first byte.
        position: usize,
        /// The number of its type.
        number: u8,
    },
    /// The parameter has a name and the first has none, or it has none and the first has one.
    #[error("Named and positional params in one form: parameter {place} at byte {position}")]
    Mixed {
        /// The number of the parameter.
        place: usize,
        /// The index of its first byte.
        position: usize,
    },
    /// An earlier parameter has its name.
    #[error("Redefinition of a named parameter: parameter {place}, name at byte {position}")]
    Repeated {
        /// The number of the parameter.
        place: usize,
        /// The index of the first byte of its name.
        position: usize,
        /// The bytes of its name.
        len: usize,
    },
    /// Memory was refused.
    #[error("out of memory")]
    Memory(AllocError),
}

impl From<AllocError> for FormError {
    ghost use Rattle.std.specs.Prelude.{◌≡◌, alloc_error};
    ghost use Rattle.mysql_flat_params.specs.declared.form_error.FormError.TheVariants.{Memory};

    ghost from_gives = { λ _ error. error ≡ Memory alloc_error };

    fn from(error: AllocError) -> FormError {
        FormError::Memory(error)
    }
}

impl<T: Drop> From<AllocFailed<T>> for FormError {
    ghost use Rattle.std.specs.Prelude.{◌≡◌, alloc_error};
    ghost use Rattle.mysql_flat_params.specs.declared.form_error.FormError.TheVariants.{Memory};

    ghost from_gives = { λ _ error. error ≡ Memory alloc_error };

    fn from(_failed: AllocFailed<T>) -> FormError {
        FormError::Memory(AllocError)
    }
}
