//! Results of `bind` with the errors of the calls for one purpose. A refusal that such a call never
//! has is out of memory in its error.
ghost use Rattle.std.specs.Prelude.{◌≡◌};
ghost use Rattle.mysql_bind_call.specs.Errors.{with_error};
ghost use Rattle.mysql_bind_call.specs.InstanceErrors.{bind_error, bind_pairs_error, both_modes_error, both_modes_pairs_error, fragments_error, steady_fragments_error, steady_pairs_error, steady_text_error};

use crate::refusal::BindRefusal;
use mysql_binding::{BindError, BindPairsError};
use mysql_fragments::{FragmentsError, SteadyFragmentsError};
use mysql_steady_text::purpose::QueryRefusal;
use mysql_steady_text::{BothModesError, BothModesPairsError, SteadyPairsError, SteadyTextError};
use std::alloc::AllocError;

/// The result of binding values for one mode.
pub(crate) fn for_mode(bound: Result<Vec<u8>, BindRefusal>) -> Result<Vec<u8>, BindError>
    ensures { result ≡ with_error bind_error bound }
{
    bound.map_err(bind_error)
}

/// The result of binding pairs for one mode.
pub(crate) fn pairs_for_mode(bound: Result<Vec<u8>, BindRefusal>) -> Result<Vec<u8>, BindPairsError>
    ensures { result ≡ with_error bind_pairs_error bound }
{
    bound.map_err(bind_pairs_error)
}

/// The result of binding values for any connection.
pub(crate) fn for_any(bound: Result<Vec<u8>, BindRefusal>) -> Result<Vec<u8>, SteadyTextError>
    ensures { result ≡ with_error steady_text_error bound }
{
    bound.map_err(steady_text_error)
}

/// The result of binding pairs for any connection.
pub(crate) fn pairs_for_any(
    bound: Result<Vec<u8>, BindRefusal>,
) -> Result<Vec<u8>, SteadyPairsError>
    ensures { result ≡ with_error steady_pairs_error bound }
{
    bound.map_err(steady_pairs_error)
}

/// The result of binding values for either mode.
pub(crate) fn for_both_modes(bound: Result<Vec<u8>, BindRefusal>) -> Result<Vec<u8>, BothModesError>
    ensures { result ≡ with_error both_modes_error bound }
{
    bound.map_err(both_modes_error)
}

/// The result of binding pairs for either mode.
pub(crate) fn pairs_for_both_modes(
    bound: Result<Vec<u8>, BindRefusal>,
) -> Result<Vec<u8>, BothModesPairsError>
    ensures { result ≡ with_error both_modes_pairs_error bound }
{
    bound.map_err(both_modes_pairs_error)
}

/// The result of binding fragments for one mode.
pub(crate) fn fragments_for_mode(
    bound: Result<Vec<u8>, BindRefusal>,
) -> Result<Vec<u8>, FragmentsError>
    ensures { result ≡ with_error fragments_error bound }
{
    bound.map_err(fragments_error)
}

/// The result of binding fragments for any connection.
pub(crate) fn fragments_for_any(
    bound: Result<Vec<u8>, BindRefusal>,
) -> Result<Vec<u8>, SteadyFragmentsError>
    ensures { result ≡ with_error steady_fragments_error bound }
{
    bound.map_err(steady_fragments_error)
}

// A refusal of values for one mode.
fn bind_error(refusal: BindRefusal) -> BindError
    ensures { result ≡ bind_error refusal }
{
    match refusal {
        BindRefusal::Values(error) => error,
        BindRefusal::Memory(error) => BindError::Memory(error),
        BindRefusal::Redefined { .. }
        | BindRefusal::Query(_)
        | BindRefusal::Fragments(_)
        | BindRefusal::UnsteadyFragment { .. } => BindError::Memory(AllocError),
    }
}

// A refusal of pairs for one mode.
fn bind_pairs_error(refusal: BindRefusal) -> BindPairsError
    ensures { result ≡ bind_pairs_error refusal }
{
    match refusal {
        BindRefusal::Redefined { index } => BindPairsError::Redefined { index },
        refusal => BindPairsError::Bind(bind_error(refusal)),
    }
}

// A refusal of values for any connection.
fn steady_text_error(refusal: BindRefusal) -> SteadyTextError
    ensures { result ≡ steady_text_error refusal }
{
    match refusal {
        BindRefusal::Query(QueryRefusal::Unsteady { at }) => SteadyTextError::Unsteady { at },
        BindRefusal::Query(QueryRefusal::Unportable(found)) => SteadyTextError::Unportable(found),
        refusal => SteadyTextError::Bind(bind_error(refusal)),
    }
}

// A refusal of pairs for any connection.
fn steady_pairs_error(refusal: BindRefusal) -> SteadyPairsError
    ensures { result ≡ steady_pairs_error refusal }
{
    match refusal {
        BindRefusal::Redefined { index } => SteadyPairsError::Redefined { index },
        refusal => SteadyPairsError::Bind(steady_text_error(refusal)),
    }
}

// A refusal of values for either mode.
fn both_modes_error(refusal: BindRefusal) -> BothModesError
    ensures { result ≡ both_modes_error refusal }
{
    match refusal {
        BindRefusal::Query(QueryRefusal::Backslash { at }) => BothModesError::Backslash { at },
        BindRefusal::Query(QueryRefusal::Unportable(found)) => BothModesError::Unportable(found),
        refusal => BothModesError::Bind(bind_error(refusal)),
    }
}

// A refusal of pairs for either mode.
fn both_modes_pairs_error(refusal: BindRefusal) -> BothModesPairsError
    ensures { result ≡ both_modes_pairs_error refusal }
{
    match refusal {
        BindRefusal::Redefined { index } => BothModesPairsError::Redefined { index },
        refusal => BothModesPairsError::Bind(both_modes_error(refusal)),
    }
}

// A refusal of fragments for one mode.
fn fragments_error(refusal: BindRefusal) -> FragmentsError
    ensures { result ≡ fragments_error refusal }
{
    match refusal {
        BindRefusal::Fragments(error) => error,
        BindRefusal::Memory(error) => FragmentsError::Memory(error),
        BindRefusal::Redefined { .. }
        | BindRefusal::Query(_)
        | BindRefusal::Values(_)
        | BindRefusal::UnsteadyFragment { .. } => FragmentsError::Memory(AllocError),
    }
}

// A refusal of fragments for any connection.
fn steady_fragments_error(refusal: BindRefusal) -> SteadyFragmentsError
    ensures { result ≡ steady_fragments_error refusal }
{
    match refusal {
        BindRefusal::Query(QueryRefusal::Unsteady { at }) => SteadyFragmentsError::Unsteady { at },
        BindRefusal::Query(QueryRefusal::Unportable(found)) => {
            SteadyFragmentsError::Unportable(found)
        }
        BindRefusal::UnsteadyFragment { place } => SteadyFragmentsError::UnsteadyFragment { place },
        refusal => SteadyFragmentsError::Fragments(fragments_error(refusal)),
    }
}
