//! Why borrowed pairs make no parameters.
ghost use Rattle.std.specs.Prelude.{◌≡◌, ℕ, List, None, Ok, map, IfSome};
ghost use Rattle.mysql_named_params.specs.declared.places.Reading.{Reading};
ghost use Rattle.mysql_params_core.specs.Given.{named};
ghost use Rattle.mysql_params_core.specs.GivenBorrowed.{pair_map};
ghost use Rattle.mysql_params_core.specs.Made.{pairs_made, seen_pair};
ghost use Rattle.mysql_binding.specs.BoundPairs.{IfFewPairs, IsPairsRefusalIn};

use crate::bind_error::BindError;
use crate::bind_pairs_error::BindPairsError;
use mysql_params_core::params::NamedPairs;
use std::alloc::Global;

/// The cause for which the pairs make no parameters, or out of memory for more than 64 pairs.
/// `None` if they make parameters.
pub(super) fn pairs_refusal(alloc: Global, pairs: &NamedPairs<'_>) -> Option<BindPairsError>
    ensures none { result ≡ None →
        pairs_made (map seen_pair pairs.now.0.now) ≡ Ok (named (pair_map pairs.now.0.now)) }
    ensures some { IfSome result (λ error. (reading : Reading) (query : List ℕ) →
        IsPairsRefusalIn reading query pairs.now.0.now error) }
    ensures few { IfSome result (λ error. IfFewPairs pairs.now.0.now (λ given. ⊥)) }
{
    match pairs.first_redefined(alloc) {
        Ok(None) => None,
        Ok(Some(index)) => Some(BindPairsError::Redefined { index }),
        Err(error) => Some(BindPairsError::Bind(BindError::Memory(error))),
    }
}
