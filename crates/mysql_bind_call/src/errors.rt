//! The refusals for the errors of the calls that `bind` makes, and their results with these.
ghost use Rattle.std.specs.Prelude.{◌≡◌};
ghost use Rattle.mysql_bind_call.specs.Errors.{of_bind_error, of_fragments_error, of_steady_error, with_error};

use crate::refusal::BindRefusal;
use mysql_binding::BindError;
use mysql_fragments::{FragmentsError, SteadyFragmentsError};
use mysql_steady_text::purpose::QueryRefusal;

/// The result of binding values, with the refusal for its error.
#[inline(always)]
pub(crate) fn of_values<T>(bound: Result<T, BindError>) -> Result<T, BindRefusal>
    ensures { result ≡ with_error of_bind_error bound }
{
    Ok(bound?)
}

/// The result of binding fragments, with the refusal for its error.
#[inline(always)]
pub(crate) fn of_fragments(bound: Result<Vec<u8>, FragmentsError>) -> Result<Vec<u8>, BindRefusal>
    ensures { result ≡ with_error of_fragments_error bound }
{
    Ok(bound?)
}

/// The result of binding steady fragments, with the refusal for its error.
#[inline(always)]
pub(crate) fn of_steady(
    bound: Result<Vec<u8>, SteadyFragmentsError>,
) -> Result<Vec<u8>, BindRefusal>
    ensures { result ≡ with_error of_steady_error bound }
{
    Ok(bound?)
}

impl From<BindError> for BindRefusal {
    ghost from_gives = { λ error refusal. refusal ≡ of_bind_error error };

    fn from(error: BindError) -> BindRefusal {
        match error {
            BindError::Memory(error) => BindRefusal::Memory(error),
            error => BindRefusal::Values(error),
        }
    }
}

impl From<FragmentsError> for BindRefusal {
    ghost from_gives = { λ error refusal. refusal ≡ of_fragments_error error };

    fn from(error: FragmentsError) -> BindRefusal {
        match error {
            FragmentsError::Memory(error) => BindRefusal::Memory(error),
            error => BindRefusal::Fragments(error),
        }
    }
}

impl From<SteadyFragmentsError> for BindRefusal {
    ghost from_gives = { λ error refusal. refusal ≡ of_steady_error error };

    fn from(error: SteadyFragmentsError) -> BindRefusal {
        match error {
            SteadyFragmentsError::Unsteady { at } => {
                BindRefusal::Query(QueryRefusal::Unsteady { at })
            }
            SteadyFragmentsError::Unportable(found) => {
                BindRefusal::Query(QueryRefusal::Unportable(found))
            }
            SteadyFragmentsError::Fragments(error) => BindRefusal::from(error),
            SteadyFragmentsError::UnsteadyFragment { place } => {
                BindRefusal::UnsteadyFragment { place }
            }
        }
    }
}
