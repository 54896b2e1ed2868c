//! Assignments: the bytes that sources have for names, and the values or fragments they make.
ghost use Rattle.std.specs.Prelude.{◌≡◌, ◌≢◌, map, ok_or, ⊤, ℕ, List, Some, Ok, IfOk, IfErr, OnOk};
ghost use Rattle.std.specs.FinMap.{contains_key};
ghost use Rattle.mysql_values.specs.Answer.{IsAnswer};
ghost use Rattle.mysql_fragments.specs.GivenFragments.{fragment_map};
ghost use Rattle.mysql_fragments.specs.declared.fragment.Fragment as declared;
ghost use Rattle.mysql_query_core.specs.WordErrors.{seen_pair};
ghost use Rattle.mysql_bind_core.specs.Assignments.{pair_of, pairs_of, pairs_refusal, no_value};
ghost use Rattle.mysql_bind_core.specs.Contents.{contents_of, has_fragment, named_content};
ghost use Rattle.mysql_bind_core.specs.Entries.{entries_of, pair_seen, pair_said, with_fragment};
ghost use Rattle.mysql_bind_core.specs.Refusals.{IsContentsRefusal, IsEntriesRefusal};

use crate::failure::Failure;
use crate::fragment_type::typed_fragment;
use crate::value_type::{ValueType, is_value_type, typed_value};
use mysql_fragments::{Fragment, Fragments};
use mysql_values::value::Value;
use std::alloc::{AllocError, AllocFailed, Global};
use std::collections::HashMap;

/// A name of a query, and the bytes from which the value or fragment in its place is made.
#[derive(Debug, Drop)]
pub struct Assignment {
    /// The name, without its colon.
    pub name: Vec<u8>,
    /// How the bytes are interpreted.
    pub value_type: ValueType,
    /// The bytes of the source.
    pub bytes: Vec<u8>,
}

// Why assignments make no pairs.
#[derive(Drop)]
pub(crate) enum PairsError {
    // The bytes of an assignment have no value of its type.
    NoValue,
    // Out of memory.
    Memory(AllocError),
}

impl From<AllocError> for PairsError {
    ghost use Rattle.std.specs.Prelude.{◌≡◌, alloc_error};
    ghost use Rattle.mysql_bind_core.specs.declared.assignment.PairsError.TheVariants.{Memory};

    ghost from_gives = { λ _ error. error ≡ Memory alloc_error };

    fn from(error: AllocError) -> PairsError {
        PairsError::Memory(error)
    }
}

impl<T: Drop> From<AllocFailed<T>> for PairsError {
    ghost use Rattle.std.specs.Prelude.{◌≡◌, alloc_error};
    ghost use Rattle.mysql_bind_core.specs.declared.assignment.PairsError.TheVariants.{Memory};

    ghost from_gives = { λ _ error. error ≡ Memory alloc_error };

    fn from(_error: AllocFailed<T>) -> PairsError {
        PairsError::Memory(AllocError)
    }
}

// The name and the value of each assignment.
pub(crate) fn pairs_of(
    alloc: Global,
    assignments: &[Assignment],
) -> Result<Vec<(&[u8], Value)>, PairsError>
    ensures { IsAnswer (λ pairs. map seen_pair pairs.items) pairs_refusal
        (ok_or (pairs_of assignments.now) no_value) ⊤ result }
{
    let mut pairs = Vec::with_capacity(alloc, assignments.len())?;
    for assignment in assignments {
        pairs.push(pair_of(alloc, assignment)?)?;
    }
    Ok(pairs)
}

// The name and the value of an assignment.
fn pair_of(alloc: Global, assignment: &Assignment) -> Result<(&[u8], Value), PairsError>
    ensures { IsAnswer seen_pair pairs_refusal
        (ok_or (pair_of assignment.now) no_value) ⊤ result }
{
    match typed_value(alloc, assignment.value_type, assignment.bytes.as_slice())? {
        Some(value) => Ok((assignment.name.as_slice(), value)),
        None => Err(PairsError::NoValue),
    }
}

// Whether one of the assignments is a fragment.
pub(crate) fn has_fragment(assignments: &[Assignment]) -> bool
    ensures { result ≡ has_fragment assignments.now }
{
    assignments
        .iter()
        .any(|assignment| !is_value_type(assignment.value_type))
}

// The fragments of assignments, by name.
pub(crate) fn assigned_fragments(
    alloc: Global,
    assignments: &[Assignment],
) -> Result<HashMap<Vec<u8>, Fragment>, Failure>
    ensures given { IfOk result (λ entries. (pairs : List (List ℕ × declared.Fragment))
        × (contents_of assignments.now ≡ Some (map pair_said pairs))
        × (entries_of pairs ≡ Ok (fragment_map entries.entries))) }
    ensures refused { IfErr result (IsContentsRefusal assignments.now) }
    ensures only { IfErr result (λ e. e ≢ Failure.Write) }
{
    let pairs = fragments_of(alloc, assignments)?;
    entries_of(alloc, pairs)
}

// The name and the fragment of each assignment.
fn fragments_of(
    alloc: Global,
    assignments: &[Assignment],
) -> Result<Vec<(&[u8], Fragment)>, PairsError>
    ensures { IsAnswer (λ pairs. map (λ pair. pair_said (pair_seen pair)) pairs.items)
        pairs_refusal (ok_or (contents_of assignments.now) no_value) ⊤ result }
{
    let mut pairs = Vec::new(alloc);
    for assignment in assignments {
        pairs.push(fragment_of(alloc, assignment)?)?;
    }
    Ok(pairs)
}

// The name and the fragment of an assignment.
fn fragment_of(alloc: Global, assignment: &Assignment) -> Result<(&[u8], Fragment), PairsError>
    ensures { IsAnswer (λ pair. pair_said (pair_seen pair)) pairs_refusal
        (ok_or (named_content assignment.now) no_value) ⊤ result }
{
    match typed_fragment(alloc, assignment.value_type, assignment.bytes.as_slice())? {
        Some(fragment) => Ok((assignment.name.as_slice(), fragment)),
        None => Err(PairsError::NoValue),
    }
}

// The fragments by name. A name that comes twice is refused.
fn entries_of(
    alloc: Global,
    pairs: Vec<(&[u8], Fragment)>,
) -> Result<HashMap<Vec<u8>, Fragment>, Failure>
    ensures made { IfOk result (λ entries.
        entries_of (map pair_seen pairs.entry.items) ≡ Ok (fragment_map entries.entries)) }
    ensures refused { IfErr result (IsEntriesRefusal
        (entries_of (map pair_seen pairs.entry.items))) }
{
    let mut entries = HashMap::new(alloc);
    for pair in pairs {
        let (name, fragment) = pair;
        insert_fragment(alloc, &mut entries, name, fragment)?;
    }
    Ok(entries)
}

// Inserts a fragment under a copy of its name, which may not be in the map yet.
pub(crate) fn insert_fragment(
    alloc: Global,
    entries: &mut HashMap<Vec<u8>, Fragment>,
    name: &[u8],
    fragment: Fragment,
) -> Result<(), Failure>
    ensures made { OnOk result (with_fragment (Ok (fragment_map entries.old.entries))
        (name.now, fragment) ≡ Ok (fragment_map entries.new.entries)) }
    ensures refused { IfErr result (IsEntriesRefusal
        (with_fragment (Ok (fragment_map entries.old.entries)) (name.now, fragment))) }
{
    let copy = Vec::from_slice(alloc, name)?;
    if has_name(entries, name) {
        return Err(Failure::Redefined(copy));
    }
    entries.insert(copy, fragment)?;
    Ok(())
}

// Whether the name is in the map.
fn has_name(entries: &HashMap<Vec<u8>, Fragment>, name: &[u8]) -> bool
    ensures { result ≡ contains_key (fragment_map entries.now.entries) name.now }
{
    entries.get(name).is_some()
}
