//! The entries of named parameters.
ghost use Rattle.std.specs.Prelude.{◌≡◌, ◌<◌, ◌≤◌, ◌↔◌, Ok, IfOk, IfSome, IsTrue, MatchOption, OnErr, OnOk, length, map, option_map};
ghost use Rattle.std.specs.FinMap.{contains_key, empty, get, insert};
ghost use Rattle.mysql_params_core.specs.Given.{ValueMap, named, value_map};
ghost use Rattle.mysql_params_core.specs.GivenBorrowed.{pair_map, pair_value};
ghost use Rattle.mysql_params_core.specs.Made.{few_pairs, pairs_made, seen_pair, IsFirstRedefined};
ghost use Rattle.mysql_values.specs.BorrowedValue.{owned};

use crate::params::sorted_pairs::first_redefined_sorted;
use mysql_values::value::{Value, ValueRef};
use std::alloc::{AllocError, Global};
use std::collections::{BTreeMap, HashMap};

/// Values by name: a map of either kind, or pairs. For the crates above.
pub trait NamedValues: Drop {
    // the finite map that it represents
    ghost values: { Self → ValueMap };

    /// The borrowed value of a name.
    fn value_of(&self, name: &[u8]) -> Option<ValueRef<'_>>
        ensures { option_map owned result ≡ get (values self.now) name.now };
}

/// A map from names to values, of either kind. One is the hash map of
/// [`Params`](crate::params::Params). The other is a sorted map, which no choice of names makes
/// slow. For the crates above.
pub trait NameMap: NamedValues {
    /// An empty map.
    fn without_names(alloc: Global) -> Self
        ensures { Self.values result ≡ empty };

    /// Inserts a value under a copy of the name. If memory is refused, the map is unchanged.
    fn insert_value(&mut self, alloc: Global, name: &[u8], value: Value) -> Result<(), AllocError>
        ensures inserted { OnOk result (Self.values self.new
            ≡ insert (Self.values self.old) name.now value) }
        ensures refused { OnErr result (Self.values self.new ≡ Self.values self.old) };
}

impl NamedValues for HashMap<Vec<u8>, Value> {
    ghost values = { λ entries. value_map entries.entries };

    fn value_of(&self, name: &[u8]) -> Option<ValueRef<'_>> {
        match self.get(name) {
            Some(value) => Some(value.borrowed()),
            None => None,
        }
    }
}

impl NameMap for HashMap<Vec<u8>, Value> {
    fn without_names(alloc: Global) -> HashMap<Vec<u8>, Value> {
        HashMap::new(alloc)
    }

    fn insert_value(&mut self, alloc: Global, name: &[u8], value: Value) -> Result<(), AllocError> {
        let name = Vec::from_slice(alloc, name)?;
        self.insert(name, value)?;
        Ok(())
    }
}

impl NamedValues for BTreeMap<Vec<u8>, Value> {
    ghost values = { λ entries. value_map entries.entries };

    fn value_of(&self, name: &[u8]) -> Option<ValueRef<'_>> {
        match BTreeMap::get(self, name) {
            Some(value) => Some(value.borrowed()),
            None => None,
        }
    }
}

impl NameMap for BTreeMap<Vec<u8>, Value> {
    fn without_names(alloc: Global) -> BTreeMap<Vec<u8>, Value> {
        BTreeMap::new(alloc)
    }

    fn insert_value(&mut self, alloc: Global, name: &[u8], value: Value) -> Result<(), AllocError> {
        let name = Vec::from_slice(alloc, name)?;
        self.insert(name, value)?;
        Ok(())
    }
}

/// Pairs of a name and a value, both borrowed. If several pairs have one name, the first counts. A
/// value is found by a walk over the pairs.
#[derive(Drop)]
pub struct NamedPairs<'p>(pub &'p [(&'p [u8], ValueRef<'p>)]);

impl NamedValues for NamedPairs<'_> {
    ghost values = { λ pairs. pair_map pairs.0.now };

    fn value_of(&self, name: &[u8]) -> Option<ValueRef<'_>> {
        for pair in self.0 {
            if name == pair.0 {
                return Some(pair.1);
            }
        }
        None
    }
}

/// Up to this many pairs are compared and searched faster by walks than in a sorted map.
const FEW_PAIRS: usize = 64;

impl<'p> NamedPairs<'p> {
    /// Whether there are at most 64 pairs. If so, a name is looked up by a walk over the pairs,
    /// which allocates nothing. For the crates above; no user needs it.
    pub fn are_few(&self) -> bool
        ensures { IsTrue result ↔ (length self.now.0.now ≤ few_pairs) }
    {
        self.0.len() <= FEW_PAIRS
    }

    /// The index of a pair that has the value of this name. A walk over the pairs finds it. For the
    /// crates above; no user needs it.
    pub fn index_of(&self, name: &[u8]) -> Option<usize>
        ensures value { option_map (pair_value self.now.0.now) result
            ≡ get (pair_map self.now.0.now) name.now }
        ensures in_range { IfSome result (λ index. index < length self.now.0.now) }
    {
        for (i, pair) in self.0.iter().enumerate() {
            if name == pair.0 {
                return Some(i);
            }
        }
        None
    }

    /// The index of the first pair that has the name of an earlier pair. If there is none,
    /// [`Params::from_pairs`](crate::params::Params::from_pairs) accepts the pairs and gives the
    /// same values. Otherwise it refuses them with that name. Only more than 64 pairs need memory:
    /// a sorted map of them is made, and dropped.
    pub fn first_redefined(&self, alloc: Global) -> Result<Option<usize>, AllocError>
        ensures answer { IfOk result (λ found. MatchOption found
            (pairs_made (map seen_pair self.now.0.now) ≡ Ok (named (pair_map self.now.0.now)))
            (IsFirstRedefined self.now.0.now)) }
        ensures memory { OnErr result (few_pairs < length self.now.0.now) }
    {
        if self.are_few() {
            Ok(self.first_redefined_by_walks())
        } else {
            first_redefined_sorted(alloc, self.0)
        }
    }

    // The same for few pairs. Each pair is compared with those before it.
    fn first_redefined_by_walks(&self) -> Option<usize>
        ensures { MatchOption result
            (pairs_made (map seen_pair self.now.0.now) ≡ Ok (named (pair_map self.now.0.now)))
            (IsFirstRedefined self.now.0.now) }
    {
        let pairs = self.0;
        for (i, pair) in pairs.iter().enumerate() {
            if has_name(&NamedPairs(&pairs[..i]), pair.0) {
                return Some(i);
            }
        }
        None
    }
}

/// Whether the name has a value.
pub fn has_name<M: NamedValues>(entries: &M, name: &[u8]) -> bool
    ensures { result ≡ contains_key (M.values entries.now) name.now }
{
    entries.value_of(name).is_some()
}
