//! The names of a query without a value, and the values without a name in it.
use crate::complaint::{Complaint, Fault, Place, add_fault};
use crate::query_file::{PlacesInOrder, QueryFile, places_of};
use crate::values::{Values, origin_at};
use mysql_bind_core::{Assignment, TakenQuery};
use mysql_values::show::Shown;
use std::alloc::{AllocError, Global};
use std::collections::{BTreeMap, BTreeSet};

/// A name of the query, and its place.
#[derive(Drop)]
pub struct NamePlace {
    /// The index of its colon.
    pub at: usize,
    /// The name, without the colon.
    pub name: Vec<u8>,
}

/// Adds a name to a set, and returns whether the name is new.
pub fn is_new<'n>(names: &mut BTreeSet<&'n [u8]>, name: &'n [u8]) -> Result<bool, AllocError> {
    match names.insert(name) {
        Ok(added) => Ok(added),
        Err(_) => Err(AllocError),
    }
}

/// The number of each place, by its name.
pub fn place_numbers(
    alloc: Global,
    places: &[NamePlace],
) -> Result<BTreeMap<Vec<u8>, usize>, AllocError> {
    let mut numbers = BTreeMap::new(alloc);
    for (number, place) in places.iter().enumerate() {
        let name = Vec::from_slice(alloc, place.name.as_slice())?;
        if numbers.insert(name, number).is_err() {
            return Err(AllocError);
        }
    }
    Ok(numbers)
}

/// Notes that this name has a value, by the number of its place, if it has one.
pub fn note_value(assigned: &mut [bool], numbers: &BTreeMap<Vec<u8>, usize>, name: &[u8]) {
    if let Some(number) = numbers.get(name)
        && let Some(has_value) = assigned.get_mut(*number)
    {
        *has_value = true;
    }
}

/// Notes that these names have values.
pub fn note_values(
    assigned: &mut [bool],
    numbers: &BTreeMap<Vec<u8>, usize>,
    assignments: &[Assignment],
) {
    for assignment in assignments {
        note_value(assigned, numbers, assignment.name.as_slice());
    }
}

/// The names that have a value.
pub fn assigned_names<'n>(
    alloc: Global,
    assignments: &'n [Assignment],
) -> Result<BTreeSet<&'n [u8]>, AllocError> {
    let mut names = BTreeSet::new(alloc);
    for assignment in assignments {
        is_new(&mut names, assignment.name.as_slice())?;
    }
    Ok(names)
}

/// The number of each assignment, by its name.
pub fn assignment_numbers<'n>(
    alloc: Global,
    assignments: &'n [Assignment],
) -> Result<BTreeMap<&'n [u8], usize>, AllocError> {
    let mut numbers = BTreeMap::new(alloc);
    for (number, assignment) in assignments.iter().enumerate() {
        if numbers.insert(assignment.name.as_slice(), number).is_err() {
            return Err(AllocError);
        }
    }
    Ok(numbers)
}

/// The first place of each name of the query.
pub fn name_places(alloc: Global, query: &TakenQuery<'_>) -> Result<Vec<NamePlace>, AllocError> {
    let parsed = query.parsed();
    let mut places: Vec<NamePlace> = Vec::new(alloc);
    let mut names = BTreeSet::new(alloc);
    for place in places_of(alloc, parsed)? {
        let name = parsed
            .query()
            .get(place.at.saturating_add(1)..place.end)
            .unwrap_or(b"");
        if is_new(&mut names, name)? {
            let at = place.at;
            let name = Vec::from_slice(alloc, name)?;
            if places.push(NamePlace { at, name }).is_err() {
                return Err(AllocError);
            }
        }
    }
    Ok(places)
}

// Whether a byte is one of those that names are of.
fn is_of_names(byte: u8) -> bool {
    byte.is_ascii_alphanumeric() || byte == b'_'
}

// What is said further of a name after which a byte stands that may be of a letter no name has.
fn alphabet_hint(text: &[u8], place: &NamePlace) -> &'static str {
    match text.get(place.at.saturating_add(1).saturating_add(place.name.len())) {
        Some(byte) if !byte.is_ascii() =>
            ", which ends there (names are of A to Z, a to z, 0 to 9 and _)",
        _ => "",
    }
}

// A fault for each name without a value, at its first place. `assigned` tells which have one.
fn add_missing(
    faults: &mut Vec<Fault>,
    alloc: Global,
    query: &QueryFile<'_>,
    places: &[NamePlace],
    assigned: Vec<bool>,
) -> Result<(), AllocError> {
    let mut in_order = PlacesInOrder::new(query);
    for (place, has_value) in places.iter().zip(assigned) {
        if !has_value {
            let hint = alphabet_hint(query.bytes.as_slice(), place);
            let what = format!(in alloc;
                "no value for `:{}`{hint}: give it by --set, --file, --env, --null, --json or \
                 --pairs",
                Shown(place.name.as_slice())
            )?;
            add_fault(faults, in_order.place_of(alloc, place.at)?, what)?;
        }
    }
    Ok(())
}

// The words that stand behind a colon anywhere in a text, in quotes and comments too.
fn words_behind_colons(alloc: Global, text: &[u8]) -> Result<BTreeSet<&[u8]>, AllocError> {
    let mut words = BTreeSet::new(alloc);
    for (at, byte) in text.iter().enumerate() {
        if *byte == b':' {
            let rest = text.get(at.saturating_add(1)..).unwrap_or(b"");
            let len = match rest.iter().position(|byte| !is_of_names(*byte)) {
                Some(len) => len,
                None => rest.len(),
            };
            is_new(&mut words, rest.get(..len).unwrap_or(b""))?;
        }
    }
    Ok(words)
}

// Why a query that holds these words behind colons has no such name.
fn unused_hint(words: &BTreeSet<&[u8]>, name: &[u8]) -> &'static str {
    if !name.iter().all(|byte| is_of_names(*byte)) {
        ", since names are of A to Z, a to z, 0 to 9 and _"
    } else if words.contains(name) {
        ", except in quotes or a comment"
    } else {
        ""
    }
}

/// Adds a fault for each value without a name in the query.
pub fn add_unused(
    faults: &mut Vec<Fault>,
    alloc: Global,
    query: &QueryFile<'_>,
    numbers: &BTreeMap<Vec<u8>, usize>,
    values: &Values,
) -> Result<(), AllocError> {
    let is_used = |assignment: &Assignment| numbers.contains_key(assignment.name.as_slice());
    if values.assignments.iter().all(is_used) {
        return Ok(());
    }
    let words = words_behind_colons(alloc, query.bytes.as_slice())?;
    for i in 0..values.assignments.len() {
        let name = values.assignments[i].name.as_slice();
        if !numbers.contains_key(name) {
            let origin = origin_at(values, i);
            let hint = unused_hint(&words, name);
            let what = format!(in alloc;
                "{origin}: {} has no such name{hint} (--allow-unused takes it)",
                query.path
            )?;
            add_fault(faults, Place::Words, what)?;
        }
    }
    Ok(())
}

/// The values whose names the query has.
pub fn used_values(
    alloc: Global,
    numbers: &BTreeMap<Vec<u8>, usize>,
    values: Values,
) -> Result<Values, AllocError> {
    let mut used = Values::new(alloc);
    let Values {
        assignments,
        origins,
    } = values;
    for (assignment, origin) in assignments.into_iter().zip(origins) {
        if numbers.contains_key(assignment.name.as_slice()) {
            used.add(origin, assignment)?;
        }
    }
    Ok(used)
}

/// The values, if each name of the query has one. Values without a name in the query are refused,
/// or left out with `allow_unused`.
pub fn matched_values(
    alloc: Global,
    query: &QueryFile<'_>,
    taken: &TakenQuery<'_>,
    values: Values,
    allow_unused: bool,
) -> Result<Values, Complaint> {
    let places = name_places(alloc, taken)?;
    let numbers = place_numbers(alloc, places.as_slice())?;
    let mut assigned = vec![in alloc; false; places.len()]?;
    note_values(
        assigned.as_mut_slice(),
        &numbers,
        values.assignments.as_slice(),
    );
    let mut faults = Vec::new(alloc);
    add_missing(&mut faults, alloc, query, places.as_slice(), assigned)?;
    if !allow_unused {
        add_unused(&mut faults, alloc, query, &numbers, &values)?;
    }
    if !faults.is_empty() {
        return Err(Complaint::Refused(faults));
    }
    if allow_unused {
        return Ok(used_values(alloc, &numbers, values)?);
    }
    Ok(values)
}
