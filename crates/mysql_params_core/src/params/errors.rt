//! The errors of parameters.
ghost use Rattle.std.specs.Prelude.{◌≡◌, IfOk, OnErr, alloc_error};
ghost use Rattle.mysql_params_core.specs.Errors.{AreEqualParamsErrors, IsMissing, of_value};
ghost use Rattle.mysql_params_core.specs.declared.params.errors.ParamsError.TheVariants.{Missing, Confusion, Memory};
ghost use Rattle.mysql_params_core.specs.declared.params.errors.IntoPositionalError.TheVariants as positional;
ghost use Rattle.mysql_params_core.specs.declared.params.errors.ToParamsError.TheVariants as to_params;

use mysql_values::show::Shown;
use mysql_values::value::convert::ToValueError;
use std::alloc::{AllocError, AllocFailed};
use thiserror::Error;

/// A name of the query has no value in the parameters. The field is the name.
#[derive(Debug, PartialEq, Eq, Drop, Error)]
#[error("Missing named parameter `{}` for statement", Shown(.0.as_slice()))]
pub struct MissingNamedParameterError(pub Vec<u8>);

impl MissingNamedParameterError {
    /// A copy of the error, on the allocator of the name.
    pub fn clone(&self) -> Result<MissingNamedParameterError, AllocError>
        ensures equal { IfOk result (λ copy. copy.0.items ≡ self.now.0.items) }
    {
        let name = self.0.clone()?;
        Ok(MissingNamedParameterError(name))
    }
}

/// Parameters of one kind were given, but the query takes the other kind.
#[derive(Debug, Clone, Copy, PartialEq, Eq, Hash, Error)]
pub enum ParamsConfusionError {
    /// The query has no names, and the parameters are named.
    #[error("Named params given where positional params are expected")]
    NamedParamsForPositionalQuery,
    /// The query has names, and the parameters are positional.
    #[error("Positional params given where named params are expected")]
    PositionalParamsForNamedQuery,
}

/// The error of looking up the values for a query.
#[derive(Debug, PartialEq, Eq, Drop, Error)]
pub enum ParamsError {
    /// A name of the query has no value.
    #[error(transparent)]
    Missing(MissingNamedParameterError),
    /// The parameters are of the other kind.
    #[error(transparent)]
    Confusion(ParamsConfusionError),
    /// Out of memory.
    #[error("out of memory")]
    Memory(AllocError),
}

impl ParamsError {
    /// A copy of the error. Only a copy of `Missing` allocates, on the allocator of the name.
    pub fn clone(&self) -> Result<ParamsError, AllocError>
        ensures equal { IfOk result (λ copy. AreEqualParamsErrors copy self.now) }
        ensures memory { OnErr result (IsMissing self.now) }
    {
        match self {
            ParamsError::Missing(missing) => Ok(ParamsError::Missing(missing.clone()?)),
            ParamsError::Confusion(confusion) => Ok(ParamsError::Confusion(*confusion)),
            ParamsError::Memory(error) => Ok(ParamsError::Memory(*error)),
        }
    }
}

impl From<MissingNamedParameterError> for ParamsError {
    ghost from_gives = { λ missing error. error ≡ Missing missing };

    fn from(missing: MissingNamedParameterError) -> ParamsError {
        ParamsError::Missing(missing)
    }
}

impl From<ParamsConfusionError> for ParamsError {
    ghost from_gives = { λ confusion error. error ≡ Confusion confusion };

    fn from(confusion: ParamsConfusionError) -> ParamsError {
        ParamsError::Confusion(confusion)
    }
}

impl From<AllocError> for ParamsError {
    ghost from_gives = { λ _ error. error ≡ Memory alloc_error };

    fn from(error: AllocError) -> ParamsError {
        ParamsError::Memory(error)
    }
}

/// Memory was refused for a list, so a value had no place in it.
impl<T: Drop> From<AllocFailed<T>> for ParamsError {
    ghost from_gives = { λ _ error. error ≡ Memory alloc_error };

    fn from(failed: AllocFailed<T>) -> ParamsError {
        ParamsError::Memory(AllocError::from(failed))
    }
}

/// The error of turning named parameters into positional ones.
#[derive(Debug, PartialEq, Eq, Drop, Error)]
pub enum IntoPositionalError {
    /// A name of the list has no value.
    #[error(transparent)]
    Missing(MissingNamedParameterError),
    /// Out of memory.
    #[error("out of memory")]
    Memory(AllocError),
}

impl From<AllocError> for IntoPositionalError {
    ghost from_gives = { λ _ error. error ≡ positional.Memory alloc_error };

    fn from(error: AllocError) -> IntoPositionalError {
        IntoPositionalError::Memory(error)
    }
}

/// The error of making parameters from arguments.
#[derive(Debug, PartialEq, Drop, Error)]
pub enum ToParamsError {
    /// A pair has the name of an earlier pair. The field is the name.
    #[error("Redefinition of named parameter `{}'", Shown(.0.as_slice()))]
    Redefined(Vec<u8>),
    /// An argument has no value. Out of memory is never reported here, but as `Memory`.
    #[error(transparent)]
    Value(ToValueError),
    /// Out of memory.
    #[error("out of memory")]
    Memory(AllocError),
}

impl From<AllocError> for ToParamsError {
    ghost from_gives = { λ _ error. error ≡ to_params.Memory alloc_error };

    fn from(error: AllocError) -> ToParamsError {
        ToParamsError::Memory(error)
    }
}

/// Memory was refused for a list or a map, so a value had no place in it.
impl<T: Drop> From<AllocFailed<T>> for ToParamsError {
    ghost from_gives = { λ _ error. error ≡ to_params.Memory alloc_error };

    fn from(failed: AllocFailed<T>) -> ToParamsError {
        ToParamsError::Memory(AllocError::from(failed))
    }
}

/// Out of memory stays out of memory.
impl From<ToValueError> for ToParamsError {
    ghost from_gives = { λ value error. error ≡ of_value value };

    fn from(error: ToValueError) -> ToParamsError {
        match error {
            ToValueError::Memory(error) => ToParamsError::Memory(error),
            ToValueError::DurationTooLong(duration) => {
                ToParamsError::Value(ToValueError::DurationTooLong(duration))
            }
        }
    }
}
