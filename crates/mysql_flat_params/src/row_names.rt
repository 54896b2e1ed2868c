//! The names that rows have in common: the index of each place's value is found once for all rows.
ghost use Rattle.std.specs.Prelude.{◌≡◌, ◌≢◌, ◌<◌, ℕ, List, [], None, Some, IfSome, OnSome, length, true, slice_get};
ghost use Rattle.std.specs.FinMap.{get};
ghost use Rattle.mysql_value_core.specs.declared.value.Value.TheVariants.{UInt};
ghost use Rattle.mysql_wire_part.specs.ParseBuf.{left};
ghost use Rattle.mysql_named_params.specs.Places.{names};
ghost use Rattle.mysql_values.specs.BorrowedValue.{owned};
ghost use Rattle.mysql_params_core.specs.GivenBorrowed.{pair_map};
ghost use Rattle.mysql_binding.specs.FirstCause.{mixed_cause};
ghost use Rattle.mysql_binding.specs.SurveyedQuery.{OnSurveyed};
ghost use Rattle.mysql_flat_params.specs.RowNames.{AreAtPlaces, AreFoundNames, AreOwnNames, AreValuesAt, IsFormOfPairs, IsReadUnder, names_of_pairs, values_of_pairs};

use crate::form::{Spot, eat_name, eat_value};
use crate::form_names::{FEW_NAMES, insert_sorted, sorted_names};
use mysql_binding::{SurveyedQuery, place_after};
use mysql_params_core::params::{NamedPairs, NamedValues, has_name};
use mysql_values::value::ValueRef;
use mysql_wire_part::ParseBuf;
use std::alloc::Global;
use std::collections::BTreeMap;

// The number of rows in which names are looked for before any were found again.
const FIRST_TRIES: u8 = 8;

// Names in the order of a form, each with a value.
type NamePairs<'f> = Vec<(&'f [u8], ValueRef<'f>)>;

// The same in a sorted map, which no choice of names makes slow, if there are more than a few.
type SortedNames<'f> = Option<BTreeMap<&'f [u8], ValueRef<'f>>>;

/// The names of a form, and the index of each place's value among the values of the form.
#[derive(Drop)]
pub(crate) struct FoundNames<'f> {
    /// The names in the order of the form, each with its value.
    pairs: NamePairs<'f>,
    /// For each place the index of the pair that has its name.
    places: Vec<usize>,
}

impl<'f> FoundNames<'f> {
    /// The names of a form by name that gives each name of the query a value. `None` for any other
    /// form, for a query without names or with marks beside them, and if memory is refused.
    fn of_form(
        alloc: Global,
        surveyed: &SurveyedQuery<'_>,
        form: &'f [u8],
    ) -> Option<FoundNames<'f>>
        ensures { IfSome result (AreFoundNames
            surveyed.now.reading surveyed.now.query.now) }
    {
        if surveyed.survey.names == 0 || surveyed.survey.marks > 0 {
            return None;
        }
        let (pairs, sorted) = numbered_names(alloc, form)?;
        let places = numbers_of_places(alloc, surveyed, pairs.as_slice(), &sorted)?;
        Some(FoundNames { pairs, places })
    }

    /// Reads the values of a form, if it has exactly these names, byte for byte and in their order.
    /// Otherwise it returns false, and some values may have changed.
    fn read_values(&mut self, form: &'f [u8]) -> bool
        requires some { 0 < length self.old.pairs.items }
        requires own { AreOwnNames (names_of_pairs self.old.pairs.items) }
        ensures names { names_of_pairs self.new.pairs.items
            ≡ names_of_pairs self.old.pairs.items }
        ensures places { self.new.places.items ≡ self.old.places.items }
        ensures read { result ≡ true → IsFormOfPairs form.now self.new.pairs.items }
    {
        read_under(form, self.pairs.as_mut_slice())
    }

    /// The values for the places, in the memory of the spare list. `None` if memory is refused.
    pub(crate) fn place_values(&self, spare: Vec<ValueRef<'f>>) -> Option<Vec<ValueRef<'f>>>
        requires { (wanted : List (List ℕ)) × AreAtPlaces (names_of_pairs self.now.pairs.items)
            self.now.places.items wanted }
        ensures { IfSome result (λ values.
            AreValuesAt self.now.pairs.items self.now.places.items values.items) }
    {
        values_at(self.pairs.as_slice(), self.places.as_slice(), spare)
    }
}

// For each place the value of the pair at its index, in the memory of the spare list. `None` if
// memory is refused.
fn values_at<'f>(
    pairs: &[(&'f [u8], ValueRef<'f>)],
    places: &[usize],
    spare: Vec<ValueRef<'f>>,
) -> Option<Vec<ValueRef<'f>>>
    requires { (wanted : List (List ℕ)) × AreAtPlaces (names_of_pairs pairs.now) places.now wanted }
    ensures { IfSome result (λ values. AreValuesAt pairs.now places.now values.items) }
{
    let mut values = spare;
    values.clear();
    let Ok(()) = values.reserve_exact(places.len()) else {
        return None;
    };
    for place in places {
        let Ok(()) = values.push(value_at(pairs, *place)) else {
            return None;
        };
    }
    Some(values)
}

// The value of the pair at this index.
fn value_at<'f>(pairs: &[(&'f [u8], ValueRef<'f>)], place: usize) -> ValueRef<'f>
    requires { place < length pairs.now }
    ensures { slice_get (values_of_pairs pairs.now) place ≡ Some result }
{
    let (_, value) = pairs[place];
    value
}

/// The memory that a row leaves to the rows after it.
#[derive(Drop)]
pub(crate) struct RowMemory<'f> {
    /// A list, for its memory.
    pub(crate) spare: Vec<ValueRef<'f>>,
    /// The names of an earlier row, if they were found.
    pub(crate) found: Option<FoundNames<'f>>,
    /// The number of further rows in which names are looked for. Each row whose names were found
    /// before adds one. So rows that change their names cost little more than without this search.
    pub(crate) tries: u8,
}

impl<'f> RowMemory<'f> {
    /// Before the first row.
    pub(crate) fn new(alloc: Global) -> RowMemory<'f>
        ensures { result.found ≡ None }
    {
        RowMemory {
            spare: Vec::new(alloc),
            found: None,
            tries: FIRST_TRIES,
        }
    }

    /// The names of this form, with its values, and the index of each place's value: those of an
    /// earlier row, or else found now. `None` if they aren't found.
    pub(crate) fn names_of(
        &mut self,
        alloc: Global,
        surveyed: &SurveyedQuery<'_>,
        form: &'f [u8],
    ) -> Option<FoundNames<'f>>
        requires found { IfSome self.old.found (AreFoundNames
            surveyed.now.reading surveyed.now.query.now) }
        ensures names { IfSome result (λ found. AreFoundNames
            surveyed.now.reading surveyed.now.query.now found
            × IsFormOfPairs form.now found.pairs.items) }
        ensures found { IfSome self.new.found (AreFoundNames
            surveyed.now.reading surveyed.now.query.now) }
    {
        let Some(mut found) = self.found.take() else {
            return self.new_names(alloc, surveyed, form);
        };
        if found.read_values(form) {
            self.tries = self.tries.saturating_add(1);
            return Some(found);
        }
        self.found = Some(found);
        self.new_names(alloc, surveyed, form)
    }

    // The same, found now.
    fn new_names(
        &mut self,
        alloc: Global,
        surveyed: &SurveyedQuery<'_>,
        form: &'f [u8],
    ) -> Option<FoundNames<'f>>
        ensures names { IfSome result (λ found. AreFoundNames
            surveyed.now.reading surveyed.now.query.now found
            × IsFormOfPairs form.now found.pairs.items) }
        ensures kept { self.new.found ≡ self.old.found }
    {
        if self.tries == 0 {
            return None;
        }
        self.tries -= 1;
        let mut names = FoundNames::of_form(alloc, surveyed, form)?;
        if names.read_values(form) {
            Some(names)
        } else {
            None
        }
    }
}

// Reads the values of a form into the pairs, if its names are those of the pairs, byte for byte and
// in their order. Otherwise it returns false, and some values may have changed.
fn read_under<'f>(form: &'f [u8], pairs: &mut [(&'f [u8], ValueRef<'f>)]) -> bool
    requires some { 0 < length pairs.old }
    requires own { AreOwnNames (names_of_pairs pairs.old) }
    ensures names { names_of_pairs pairs.new ≡ names_of_pairs pairs.old }
    ensures read { result ≡ true → IsFormOfPairs form.now pairs.new }
{
    let mut rest = ParseBuf(form);
    for i in 0..pairs.len() {
        let (name, _) = pairs[i];
        let spot = Spot {
            place: i,
            position: form.len() - rest.len(),
        };
        let Some(value) = value_under(spot, name, &mut rest) else {
            return false;
        };
        pairs[i] = (name, value);
    }
    rest.is_empty()
}

// The value of the next parameter, if it has this name and is read.
fn value_under<'f>(spot: Spot, name: &[u8], rest: &mut ParseBuf<'f>) -> Option<ValueRef<'f>>
    ensures { IfSome result (λ value. IsReadUnder spot.place spot.position name.now (owned value)
        (left rest.old) (left rest.new)) }
{
    let Ok(found) = eat_name(spot, rest) else {
        return None;
    };
    if found != name {
        return None;
    }
    match eat_value(spot, rest) {
        Ok(value) => Some(value),
        Err(_) => None,
    }
}

// The names of a form by name in its order, and the same in a sorted map if there are more than a
// few. Each has its number, from 0, as its value. `None` if a name is empty or comes twice, if the
// form is refused, or if memory is refused.
fn numbered_names<'f>(alloc: Global, form: &'f [u8]) -> Option<(NamePairs<'f>, SortedNames<'f>)>
    ensures { IfSome result (λ found. (0 < length found.0.items)
        × AreOwnNames (names_of_pairs found.0.items)) }
{
    let mut rest = ParseBuf(form);
    let first = next_name(&mut rest)?;
    let Ok(mut pairs) = Vec::with_capacity(alloc, FEW_NAMES) else {
        return None;
    };
    let Ok(()) = pairs.push((first, ValueRef::UInt(0))) else {
        return None;
    };
    let mut sorted = None;
    while !rest.is_empty() {
        let name = next_name(&mut rest)?;
        append_number(alloc, &mut pairs, &mut sorted, name)?;
    }
    Some((pairs, sorted))
}

// Gives a name the next number. `None` if it has one, or if memory is refused.
fn append_number<'f>(
    alloc: Global,
    pairs: &mut NamePairs<'f>,
    sorted: &mut SortedNames<'f>,
    name: &'f [u8],
) -> Option<()>
    requires some { name.now ≢ [] }
    requires own { AreOwnNames (names_of_pairs pairs.old.items) }
    requires sorted { IfSome sorted.old (λ entries.
        pair_map entries.entries ≡ pair_map pairs.old.items) }
    ensures own { OnSome result ((0 < length pairs.new.items)
        × AreOwnNames (names_of_pairs pairs.new.items)) }
    ensures sorted { OnSome result (IfSome sorted.new (λ entries.
        pair_map entries.entries ≡ pair_map pairs.new.items)) }
{
    if let Some(entries) = sorted {
        return append_sorted(entries, pairs, name);
    }
    append_few(pairs, name)?;
    if pairs.len() > FEW_NAMES {
        let Ok(entries) = sorted_names(alloc, pairs.as_slice()) else {
            return None;
        };
        *sorted = Some(entries);
    }
    Some(())
}

// The same for names that are in a sorted map too.
fn append_sorted<'f>(
    entries: &mut BTreeMap<&'f [u8], ValueRef<'f>>,
    pairs: &mut NamePairs<'f>,
    name: &'f [u8],
) -> Option<()>
    requires some { name.now ≢ [] }
    requires own { AreOwnNames (names_of_pairs pairs.old.items) }
    requires sorted { pair_map entries.old.entries ≡ pair_map pairs.old.items }
    ensures own { OnSome result ((0 < length pairs.new.items)
        × AreOwnNames (names_of_pairs pairs.new.items)) }
    ensures sorted { OnSome result
        (pair_map entries.new.entries ≡ pair_map pairs.new.items) }
{
    if has_name(entries, name) {
        return None;
    }
    let number = ValueRef::UInt(pairs.len() as u64);
    let Ok(()) = insert_sorted(entries, name, number) else {
        return None;
    };
    match pairs.push((name, number)) {
        Ok(()) => Some(()),
        Err(_) => None,
    }
}

// The same for names in a list that is searched in order.
fn append_few<'f>(pairs: &mut NamePairs<'f>, name: &'f [u8]) -> Option<()>
    requires some { name.now ≢ [] }
    requires own { AreOwnNames (names_of_pairs pairs.old.items) }
    ensures own { OnSome result ((0 < length pairs.new.items)
        × AreOwnNames (names_of_pairs pairs.new.items)) }
{
    if has_name(&NamedPairs(pairs.as_slice()), name) {
        return None;
    }
    let number = ValueRef::UInt(pairs.len() as u64);
    match pairs.push((name, number)) {
        Ok(()) => Some(()),
        Err(_) => None,
    }
}

// The name of the next parameter, whose value is skipped. `None` if the name is empty, or the
// parameter can't be read.
fn next_name<'f>(rest: &mut ParseBuf<'f>) -> Option<&'f [u8]>
    ensures some { IfSome result (λ name. name.now ≢ []) }
    ensures fewer { OnSome result (length (left rest.new) < length (left rest.old)) }
{
    let spot = Spot {
        place: 0,
        position: 0,
    };
    let Ok(name) = eat_name(spot, rest) else {
        return None;
    };
    if name.is_empty() {
        return None;
    }
    match eat_value(spot, rest) {
        Ok(_) => Some(name),
        Err(_) => None,
    }
}

// For each name of a query without both names and marks, the index of its pair. `None` if a name
// has none, or if memory is refused.
fn numbers_of_places(
    alloc: Global,
    surveyed: &SurveyedQuery<'_>,
    pairs: &[(&[u8], ValueRef<'_>)],
    sorted: &SortedNames<'_>,
) -> Option<Vec<usize>>
    requires unmixed { OnSurveyed surveyed.now (λ ts. mixed_cause ts ≡ None) }
    ensures { IfSome result (λ places. OnSurveyed surveyed.now (λ ts.
        AreAtPlaces (names_of_pairs pairs.now) places.items (names ts))) }
{
    let count = surveyed.survey.names;
    let Ok(mut places) = Vec::with_capacity(alloc, count) else {
        return None;
    };
    let mut rest = surveyed.query;
    while places.len() < count {
        let Some(found) = place_after(surveyed.known, places.len(), rest, surveyed.reading) else {
            unreachable!()
        };
        let (_, place, after) = found.cut(rest);
        let number = number_of(pairs, sorted, &place[1..])?;
        let Ok(()) = places.push(number) else {
            return None;
        };
        rest = after;
    }
    Some(places)
}

// The index of the pair that has this name, by the number of the name.
fn number_of(
    pairs: &[(&[u8], ValueRef<'_>)],
    sorted: &SortedNames<'_>,
    name: &[u8],
) -> Option<usize>
    ensures { IfSome result (λ number.
        slice_get (names_of_pairs pairs.now) number ≡ Some name.now) }
{
    let number = match sorted {
        Some(entries) => number_in(entries, name)?,
        None => number_in(&NamedPairs(&*pairs), name)?,
    };
    if number >= pairs.len() {
        return None;
    }
    let (found, _) = pairs[number];
    if found == name { Some(number) } else { None }
}

// The number that a name has as its value.
fn number_in<M: NamedValues>(numbers: &M, name: &[u8]) -> Option<usize>
    ensures { IfSome result (λ number. get (M.values numbers.now) name.now ≡ Some (UInt number)) }
{
    match numbers.value_of(name) {
        Some(ValueRef::UInt(number)) => Some(number as usize),
        _ => None,
    }
}
