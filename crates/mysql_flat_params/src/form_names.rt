//! The names of a form and their values, as they are read.
ghost use Rattle.std.specs.Prelude.{◌≡◌, IfOk, OnOk, false};
ghost use Rattle.std.specs.FinMap.{contains_key, empty, insert};
ghost use Rattle.mysql_values.specs.BorrowedValue.{owned};
ghost use Rattle.mysql_params_core.specs.Given.{ValueMap, value_map};
ghost use Rattle.mysql_params_core.specs.GivenBorrowed.{pair_map};
ghost use Rattle.mysql_flat_params.specs.FormParams.{values_in_place};

use mysql_params_core::params::{NameMap, NamedPairs, has_name};
use mysql_values::value::{Value, ValueRef};
use std::alloc::{AllocError, Global};
use std::collections::{BTreeMap, HashMap};

/// Names with values, into which those of a form are read.
pub(crate) trait FormNames<'f>: Drop {
    // the finite map that they stand for
    ghost values: { Self → ValueMap };

    /// Only this name. At most `follow` names come after it.
    fn with_first(
        alloc: Global,
        name: &'f [u8],
        value: ValueRef<'f>,
        follow: usize,
    ) -> Result<Self, AllocError>
        ensures { IfOk result (λ names.
            Self.values names ≡ insert empty name.now (owned value.entry)) };

    /// Whether the name is among them.
    fn has(&self, name: &[u8]) -> bool
        ensures { result ≡ contains_key (Self.values self.now) name.now };

    /// Inserts a value under a new name.
    fn insert_new(
        &mut self,
        alloc: Global,
        name: &'f [u8],
        value: ValueRef<'f>,
    ) -> Result<(), AllocError>
        requires { contains_key (Self.values self.old) name.now ≡ false }
        ensures { OnOk result (Self.values self.new
            ≡ insert (Self.values self.old) name.now (owned value.entry)) };
}

impl<'f> FormNames<'f> for HashMap<Vec<u8>, Value> {
    ghost values = { λ entries. value_map entries.entries };

    fn with_first(
        alloc: Global,
        name: &'f [u8],
        value: ValueRef<'f>,
        _follow: usize,
    ) -> Result<HashMap<Vec<u8>, Value>, AllocError> {
        let mut entries = HashMap::<Vec<u8>, Value>::without_names(alloc);
        let value = value.to_value(alloc)?;
        entries.insert_value(alloc, name, value)?;
        Ok(entries)
    }

    fn has(&self, name: &[u8]) -> bool {
        has_name(self, name)
    }

    fn insert_new(
        &mut self,
        alloc: Global,
        name: &'f [u8],
        value: ValueRef<'f>,
    ) -> Result<(), AllocError> {
        let value = value.to_value(alloc)?;
        self.insert_value(alloc, name, value)
    }
}

/// Up to this number of names a linear search is faster than a sorted map.
pub(crate) const FEW_NAMES: usize = 16;

/// Names with values that stay in the form: a few in a list of pairs, which is searched in order,
/// and more in a sorted map, which no choice of names makes slow.
#[derive(Drop)]
pub(crate) enum NamesInPlace<'f> {
    Pairs(Vec<(&'f [u8], ValueRef<'f>)>),
    Sorted(BTreeMap<&'f [u8], ValueRef<'f>>),
}

impl<'f> FormNames<'f> for NamesInPlace<'f> {
    ghost values = { values_in_place };

    fn with_first(
        alloc: Global,
        name: &'f [u8],
        value: ValueRef<'f>,
        follow: usize,
    ) -> Result<NamesInPlace<'f>, AllocError> {
        let room = if follow < FEW_NAMES {
            follow + 1
        } else {
            FEW_NAMES
        };
        let mut pairs = Vec::with_capacity(alloc, room)?;
        pairs.push((name, value))?;
        Ok(NamesInPlace::Pairs(pairs))
    }

    fn has(&self, name: &[u8]) -> bool {
        match self {
            NamesInPlace::Pairs(pairs) => has_name(&NamedPairs(pairs.as_slice()), name),
            NamesInPlace::Sorted(entries) => has_name(entries, name),
        }
    }

    fn insert_new(
        &mut self,
        alloc: Global,
        name: &'f [u8],
        value: ValueRef<'f>,
    ) -> Result<(), AllocError> {
        match self {
            NamesInPlace::Pairs(pairs) => {
                if pairs.len() < FEW_NAMES {
                    pairs.push((name, value))?;
                    return Ok(());
                }
                let mut entries = sorted_names(alloc, pairs.as_slice())?;
                insert_sorted(&mut entries, name, value)?;
                *self = NamesInPlace::Sorted(entries);
                Ok(())
            }
            NamesInPlace::Sorted(entries) => insert_sorted(entries, name, value),
        }
    }
}

/// The pairs in a sorted map. Of pairs of one name the first counts, so the last are inserted
/// first.
pub(crate) fn sorted_names<'f>(
    alloc: Global,
    pairs: &[(&'f [u8], ValueRef<'f>)],
) -> Result<BTreeMap<&'f [u8], ValueRef<'f>>, AllocError>
    ensures { IfOk result (λ entries. pair_map entries.entries ≡ pair_map pairs.now) }
{
    let mut entries: BTreeMap<&'f [u8], ValueRef<'f>> = BTreeMap::new(alloc);
    let mut i = pairs.len();
    while i > 0 {
        i -= 1;
        let (name, value) = pairs[i];
        insert_sorted(&mut entries, name, value)?;
    }
    Ok(entries)
}

/// Inserts a value under a name.
pub(crate) fn insert_sorted<'f>(
    entries: &mut BTreeMap<&'f [u8], ValueRef<'f>>,
    name: &'f [u8],
    value: ValueRef<'f>,
) -> Result<(), AllocError>
    ensures { OnOk result (pair_map entries.new.entries
        ≡ insert (pair_map entries.old.entries) name.now (owned value.entry)) }
{
    entries.insert(name, value)?;
    Ok(())
}
