//! Named parameters in which a name is looked up, and what is kept of its value for a place.
ghost use Rattle.std.specs.Prelude.{◌≡◌, IfSome, Some, map};
ghost use Rattle.std.specs.FinMap.{get};
ghost use Rattle.mysql_values.specs.BorrowedValue.{owned, owned_values};
ghost use Rattle.mysql_values.specs.declared.value.Value as value;
ghost use Rattle.mysql_params_core.specs.Given.{ValueMap, value_map};
ghost use Rattle.mysql_params_core.specs.GivenBorrowed.{pair_map, pair_value};
ghost use Rattle.mysql_params_core.specs.Referents.{referents};
ghost use Rattle.mysql_binding.specs.PlaceValues.{placed_values};

use crate::binding::place_values::{PairValues, PlaceValues};
use mysql_params_core::params::{NamedPairs, NamedValues};
use mysql_values::value::{Value, ValueRef};
use std::collections::{BTreeMap, HashMap};

/// Parameters by name. For each place they keep no more of its value than they need.
pub(super) trait KeptValues<'p> {
    // the finite map that it represents
    ghost values: { Self → ValueMap };

    /// What is kept of a value.
    type Kept: Copy;

    // the value of which this is kept
    ghost value: { Self → Self.Kept → value.Value };

    /// What is kept of the value of a name. `None` also if nothing can be kept of it.
    fn find(&'p self, name: &[u8]) -> Option<Self::Kept>
        ensures { IfSome result (λ kept.
            Some (value self.now kept) ≡ get (values self.now) name.now) };

    /// The values of places, of each of which this is kept.
    fn placed(&'p self, kept: Vec<Self::Kept>) -> PlaceValues<'p>
        ensures { placed_values result ≡ map (value self.now) kept.items };
}

impl<'p> KeptValues<'p> for HashMap<Vec<u8>, Value> {
    ghost values = { λ entries. value_map entries.entries };

    type Kept = &'p Value;

    ghost value = { λ _ kept. kept.now };

    fn find(&'p self, name: &[u8]) -> Option<&'p Value> {
        match self.get(name) {
            Some(value) => Some(value),
            None => None,
        }
    }

    fn placed(&'p self, kept: Vec<&'p Value>) -> PlaceValues<'p>
        ensures { placed_values result ≡ referents kept.entry.items }
    {
        PlaceValues::Named(kept)
    }
}

impl<'p> KeptValues<'p> for BTreeMap<Vec<u8>, Value> {
    ghost values = { λ entries. value_map entries.entries };

    type Kept = &'p Value;

    ghost value = { λ _ kept. kept.now };

    fn find(&'p self, name: &[u8]) -> Option<&'p Value> {
        match BTreeMap::get(self, name) {
            Some(value) => Some(value),
            None => None,
        }
    }

    fn placed(&'p self, kept: Vec<&'p Value>) -> PlaceValues<'p>
        ensures { placed_values result ≡ referents kept.entry.items }
    {
        PlaceValues::Named(kept)
    }
}

impl<'p, 'v> KeptValues<'p> for BTreeMap<&'v [u8], ValueRef<'v>> {
    ghost values = { λ entries. pair_map entries.entries };

    type Kept = ValueRef<'p>;

    ghost value = { λ _ kept. owned kept };

    fn find(&'p self, name: &[u8]) -> Option<ValueRef<'p>> {
        self.value_of(name)
    }

    fn placed(&'p self, kept: Vec<ValueRef<'p>>) -> PlaceValues<'p>
        ensures { placed_values result ≡ owned_values kept.entry.items }
    {
        PlaceValues::Listed(kept)
    }
}

// An index has one byte, so that very many places take little memory.
impl<'p> KeptValues<'p> for NamedPairs<'p> {
    ghost values = { λ pairs. pair_map pairs.0.now };

    type Kept = u8;

    ghost value = { λ pairs index. pair_value pairs.0.now index };

    fn find(&'p self, name: &[u8]) -> Option<u8> {
        match self.index_of(name) {
            Some(index) => u8::try_from(index).ok(),
            None => None,
        }
    }

    fn placed(&'p self, kept: Vec<u8>) -> PlaceValues<'p>
        ensures { placed_values result ≡ map (pair_value self.now.0.now) kept.items }
    {
        PlaceValues::Pairs(PairValues {
            pairs: self.0,
            indices: kept,
        })
    }
}
