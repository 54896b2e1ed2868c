//! All that can be given to the places of a query.
ghost use Rattle.std.specs.Prelude.{◌≡◌, ◌≤◌, None, IfSome, length, ⊤};
ghost use Rattle.mysql_params_core.specs.Given.{given, named, positional, value_map};
ghost use Rattle.mysql_params_core.specs.Made.{few_pairs};
ghost use Rattle.mysql_values.specs.BorrowedValue.{owned_values};
ghost use Rattle.mysql_bind_call.specs.AnyGiven.{AnyGiven, values};
ghost use Rattle.mysql_bind_call.specs.GivenBy.{IsGivenBy};
ghost use Rattle.mysql_bind_call.specs.Pairs.{ArePairs, ArePairsMade, IsPairsRefusal};
ghost use Rattle.mysql_bind_call.specs.declared.refusal.BindRefusal as said;

use crate::given::BorrowedGiven;
use crate::refusal::BindRefusal;
use mysql_params_core::params::{BorrowedParams, NamedPairs, Params};
use mysql_values::value::{Value, ValueRef};
use std::alloc::Global;
use std::collections::BTreeMap;

/// What can be given to the places of a query by [`bind`](crate::bind).
pub trait GiveValues {
    // they can be given to a query, unlike pairs that have a name twice
    ghost AreMade: { Self → Type 0 };

    // what they give
    ghost Gives: { Self → AnyGiven → Type 0 };

    // whether they can be given is tested without memory
    ghost NeedNoMemory: { Self → Type 0 };

    // why they can't be given to any query
    ghost IsOwnRefusal: { Self → said.BindRefusal → Type 0 };

    /// Why they can't be given to any query.
    fn own_refusal(&self, alloc: Global) -> Option<BindRefusal>
        ensures made { result ≡ None → AreMade self.now }
        ensures refused { IfSome result (IsOwnRefusal self.now) }
        ensures memory { IfSome result (λ refusal. NeedNoMemory self.now → (given : AnyGiven) →
            Gives self.now given → ⊥) };

    /// What they give, borrowed.
    fn given(&self) -> BorrowedGiven<'_, '_>
        requires { AreMade self.now }
        ensures { (what : AnyGiven) → Gives self.now what → IsGivenBy result what };
}

impl GiveValues for Params {
    ghost AreMade = { λ params. ⊤ };

    ghost Gives = { λ params what. what ≡ values (given params) };

    ghost NeedNoMemory = { λ params. ⊤ };

    ghost IsOwnRefusal = { λ params refusal. ⊥ };

    #[inline(always)]
    fn own_refusal(&self, alloc: Global) -> Option<BindRefusal> {
        None
    }

    #[inline(always)]
    fn given(&self) -> BorrowedGiven<'_, '_> {
        BorrowedGiven::Values(self.borrowed())
    }
}

impl GiveValues for NamedPairs<'_> {
    ghost AreMade = { λ pairs. ArePairsMade pairs.0.now };

    ghost Gives = { λ pairs what. ArePairs pairs.0.now what };

    ghost NeedNoMemory = { λ pairs. length pairs.0.now ≤ few_pairs };

    ghost IsOwnRefusal = { λ pairs refusal. IsPairsRefusal pairs.0.now refusal };

    #[inline(always)]
    fn own_refusal(&self, alloc: Global) -> Option<BindRefusal> {
        match self.first_redefined(alloc) {
            Ok(None) => None,
            Ok(Some(index)) => Some(BindRefusal::Redefined { index }),
            Err(error) => Some(BindRefusal::Memory(error)),
        }
    }

    #[inline(always)]
    fn given(&self) -> BorrowedGiven<'_, '_> {
        BorrowedGiven::Values(BorrowedParams::Pairs(self))
    }
}

/// Borrowed values by position.
#[derive(Clone, Copy)]
pub struct ByPosition<'v>(pub &'v [ValueRef<'v>]);

impl GiveValues for ByPosition<'_> {
    ghost AreMade = { λ list. ⊤ };

    ghost Gives = { λ list what. what ≡ values (positional (owned_values list.0.now)) };

    ghost NeedNoMemory = { λ list. ⊤ };

    ghost IsOwnRefusal = { λ list refusal. ⊥ };

    #[inline(always)]
    fn own_refusal(&self, alloc: Global) -> Option<BindRefusal> {
        None
    }

    #[inline(always)]
    fn given(&self) -> BorrowedGiven<'_, '_> {
        BorrowedGiven::Values(BorrowedParams::Values(self.0))
    }
}

/// Values by name in a sorted map, which no choice of names makes slow.
impl GiveValues for BTreeMap<Vec<u8>, Value> {
    ghost AreMade = { λ entries. ⊤ };

    ghost Gives = { λ entries what. what ≡ values (named (value_map entries.entries)) };

    ghost NeedNoMemory = { λ entries. ⊤ };

    ghost IsOwnRefusal = { λ entries refusal. ⊥ };

    #[inline(always)]
    fn own_refusal(&self, alloc: Global) -> Option<BindRefusal> {
        None
    }

    #[inline(always)]
    fn given(&self) -> BorrowedGiven<'_, '_> {
        BorrowedGiven::Values(BorrowedParams::Sorted(self))
    }
}
