//! The texts of many rows for one query, each written to the end of a script. Places and names
//! depend only on the query, so they are found once for all rows. A value is looked for among the
//! few values of its row, without a map.
ghost use Rattle.std.specs.Prelude.{◌≡◌, ◌++◌, ◌<◌, ℕ, false, true, List, length, map, option_map, IfOk, IfErr, IfSome, IsTrue, OnErr, OnOk};
ghost use Rattle.mysql_named_params.specs.Reading.{OnWideTokens};
ghost use Rattle.mysql_named_params.specs.Places.{names};
ghost use Rattle.mysql_params_core.specs.Given.{Given};
ghost use Rattle.mysql_params_core.specs.Referents.{referents};
ghost use Rattle.mysql_binding.specs.AppendedText.{AreFound};
ghost use Rattle.mysql_binding.specs.PlaceValues.{placed_values};
ghost use Rattle.mysql_query_core.specs.WordErrors.{seen_pair};
ghost use Rattle.mysql_bind_core.specs.Contents.{has_fragment};
ghost use Rattle.mysql_bind_core.specs.Bound.{IsAssignedText, IsWritten};
ghost use Rattle.mysql_bind_core.specs.FoundPairs.{AreValuesIn, IsGivenFor, IsTextAppended, IsValuesText, are_distinct, value_in};
ghost use Rattle.mysql_bind_core.specs.Refusals.{IsRefusal};
ghost use Rattle.mysql_bind_core.specs.Requests.{mode_of};

use crate::assignment::{Assignment, PairsError, has_fragment, pairs_of};
use crate::failure::Failure;
use crate::laws::values_are_sent;
use crate::request::Literals;
use crate::taken::{TakenQuery, bound_or_none, found_in_text};
use mysql_binding::{BindError, PlaceValues, PlainForm, append_surveyed};
use mysql_steady_text::SteadyForm;
use mysql_values::value::Value;
use std::alloc::{AllocError, Global};

// A row of at most this many values is bound without a map of them. Making the map was a fifth of
// the instructions of `rows_out`. Instead, there is a walk over the values for each name and each
// value. The number of values from which a map pays wasn't measured.
const FEW_VALUES: usize = 16;

/// The result of the fast way to a row's text.
#[derive(Debug, Clone, Copy)]
pub(crate) enum Attempt {
    /// The text is at the end of the script.
    Written,
    /// Nothing was written: the row isn't one for this way, or its text is refused. The slow way,
    /// by the text of its assignments, finds which.
    Left,
}

impl<'q> TakenQuery<'q> {
    /// Writes the text that [`TakenQuery::text`] gives to the end of a script. If it refuses, the
    /// script stays as it is. The names are those of the query, listed once for many rows.
    pub(crate) fn append(
        &self,
        alloc: Global,
        query_names: &[&[u8]],
        assignments: &[Assignment],
        script: &mut Vec<u8>,
    ) -> Result<(), Failure>
        requires { OnWideTokens (mode_of self.now.request.literals) self.now.query (λ ts.
            referents query_names.now ≡ names ts) }
        ensures bound { OnOk result ((text : List ℕ)
            × IsWritten self.now.request self.now.query assignments.now text
            × (script.new.items ≡ script.old.items ++ text)) }
        ensures refused { IfErr result
            (IsRefusal self.now.request self.now.query assignments.now) }
        ensures kept { OnErr result (script.new.items ≡ script.old.items) }
    {
        match self.append_values(alloc, query_names, assignments, script)? {
            Attempt::Written => Ok(()),
            Attempt::Left => self.append_text(alloc, assignments, script),
        }
    }

    // The slow way: writes the text into a vector of its own, and then to the end of the script.
    pub(crate) fn append_text(
        &self,
        alloc: Global,
        assignments: &[Assignment],
        script: &mut Vec<u8>,
    ) -> Result<(), Failure>
        ensures bound { OnOk result ((text : List ℕ)
            × IsWritten self.now.request self.now.query assignments.now text
            × (script.new.items ≡ script.old.items ++ text)) }
        ensures refused { IfErr result
            (IsRefusal self.now.request self.now.query assignments.now) }
        ensures kept { OnErr result (script.new.items ≡ script.old.items) }
    {
        let text = self.text(alloc, assignments)?;
        script.extend_from_slice(text.as_slice())?;
        Ok(())
    }

    // The fast way, for a few values with distinct names. It writes nothing for other assignments,
    // if the text is refused, or if a client would change it.
    fn append_values(
        &self,
        alloc: Global,
        query_names: &[&[u8]],
        assignments: &[Assignment],
        script: &mut Vec<u8>,
    ) -> Result<Attempt, AllocError>
        requires { OnWideTokens (mode_of self.now.request.literals) self.now.query (λ ts.
            referents query_names.now ≡ names ts) }
        ensures bound { IfOk result (λ attempt. attempt ≡ Attempt.Written → (text : List ℕ)
            × IsWritten self.now.request self.now.query assignments.now text
            × (script.new.items ≡ script.old.items ++ text)) }
        ensures kept { IfOk result (λ attempt. attempt ≡ Attempt.Left →
            script.new.items ≡ script.old.items) }
        ensures refused { OnErr result (script.new.items ≡ script.old.items) }
    {
        let start = script.len();
        match self.append_assigned(alloc, query_names, assignments, script)? {
            Attempt::Left => return Ok(Attempt::Left),
            Attempt::Written => {}
        }
        if !self.request.literals.no_backslash_escape() {
            values_are_sent();
            return Ok(Attempt::Written);
        }
        if found_in_text(&script.as_slice()[start..], self.request).is_none() {
            return Ok(Attempt::Written);
        }
        script.truncate(start);
        Ok(Attempt::Left)
    }

    // The same, whether or not the text is portable. It writes only values, no fragments.
    fn append_assigned(
        &self,
        alloc: Global,
        query_names: &[&[u8]],
        assignments: &[Assignment],
        script: &mut Vec<u8>,
    ) -> Result<Attempt, AllocError>
        requires { OnWideTokens (mode_of self.now.request.literals) self.now.query (λ ts.
            referents query_names.now ≡ names ts) }
        ensures bound { IfOk result (λ attempt. attempt ≡ Attempt.Written → (text : List ℕ)
            × IsAssignedText self.now.request self.now.query assignments.now text
            × IsValuesText self.now.request self.now.query text
            × (script.new.items ≡ script.old.items ++ text)) }
        ensures kept { IfOk result (λ attempt. attempt ≡ Attempt.Left →
            script.new.items ≡ script.old.items) }
        ensures refused { OnErr result (script.new.items ≡ script.old.items) }
    {
        if !are_few_values(query_names, assignments) {
            return Ok(Attempt::Left);
        }
        // Called for its `ensures` clause: the request takes the query.
        self.request();
        match pairs_of(alloc, assignments) {
            Ok(pairs) => self.append_pairs(alloc, query_names, pairs.as_slice(), script),
            Err(PairsError::NoValue) => Ok(Attempt::Left),
            Err(PairsError::Memory(error)) => Err(error),
        }
    }

    // The same for pairs of a name and a value.
    fn append_pairs(
        &self,
        alloc: Global,
        query_names: &[&[u8]],
        pairs: &[(&[u8], Value)],
        script: &mut Vec<u8>,
    ) -> Result<Attempt, AllocError>
        requires names { OnWideTokens (mode_of self.now.request.literals) self.now.query (λ ts.
            referents query_names.now ≡ names ts) }
        requires asked { 0 < length query_names.now }
        ensures bound { IfOk result (λ attempt. attempt ≡ Attempt.Written →
            IsTextAppended self.now.request self.now.query (map seen_pair pairs.now)
            script.old.items script.new.items) }
        ensures kept { IfOk result (λ attempt. attempt ≡ Attempt.Left →
            script.new.items ≡ script.old.items) }
        ensures refused { OnErr result (script.new.items ≡ script.old.items) }
    {
        if !are_some_and_distinct(pairs) {
            return Ok(Attempt::Left);
        }
        // Called for its `ensures` clause: the request takes the query, so the query has no mark.
        self.request();
        match values_in(alloc, query_names, pairs)? {
            Some(values) => self.append_found(alloc, PlaceValues::Named(values), script),
            None => Ok(Attempt::Left),
        }
    }

    // Writes the text of values that are found, unless it can't be written.
    pub(crate) fn append_found(
        &self,
        alloc: Global,
        values: PlaceValues<'_>,
        script: &mut Vec<u8>,
    ) -> Result<Attempt, AllocError>
        requires { (given : Given) × OnWideTokens (mode_of self.now.request.literals) self.now.query
            (AreFound given (placed_values values)) }
        ensures bound { IfOk result (λ attempt. attempt ≡ Attempt.Written → (text : List ℕ)
            × (script.new.items ≡ script.old.items ++ text) × ((given : Given) →
            OnWideTokens (mode_of self.now.request.literals) self.now.query
            (AreFound given (placed_values values.entry)) →
            OnWideTokens (mode_of self.now.request.literals) self.now.query (λ ts.
            IsGivenFor self.now.request.literals ts given text))) }
        ensures kept { IfOk result (λ attempt. attempt ≡ Attempt.Left →
            script.new.items ≡ script.old.items) }
        ensures refused { OnErr result (script.new.items ≡ script.old.items) }
    {
        let surveyed = self.parsed.surveyed();
        match self.request.literals {
            Literals::Plain {
                no_backslash_escape,
            } => {
                let form = PlainForm {
                    no_backslash_escape,
                };
                attempt_of(append_surveyed(alloc, &surveyed, values, &form, script))
            }
            Literals::Steady => {
                attempt_of(append_surveyed(alloc, &surveyed, values, &SteadyForm, script))
            }
        }
    }
}

// Whether a text was written; out of memory stays out of memory.
fn attempt_of(written: Result<(), BindError>) -> Result<Attempt, AllocError>
    ensures done { IfOk result (λ attempt. attempt ≡ Attempt.Written → OnErr written ⊥) }
    ensures undone { IfOk result (λ attempt. attempt ≡ Attempt.Left → OnOk written ⊥) }
    ensures refused { OnErr result (OnOk written ⊥) }
{
    match bound_or_none(written)? {
        Some(()) => Ok(Attempt::Written),
        None => Ok(Attempt::Left),
    }
}

// Whether the query has names, and the row has only a few values. This is checked before pairs are
// made, which would otherwise be made for nothing.
fn are_few_values(query_names: &[&[u8]], assignments: &[Assignment]) -> bool
    ensures asked { IsTrue result → 0 < length query_names.now }
    ensures values { IsTrue result → has_fragment assignments.now ≡ false }
{
    !query_names.is_empty() && assignments.len() <= FEW_VALUES && !has_fragment(assignments)
}

// The values of the pairs with these names, if each name has one.
fn values_in<'v>(
    alloc: Global,
    names: &[&[u8]],
    pairs: &'v [(&[u8], Value)],
) -> Result<Option<Vec<&'v Value>>, AllocError>
    ensures { IfOk result (λ found. IfSome found (λ values.
        AreValuesIn (map seen_pair pairs.now) (referents names.now) (referents values.items))) }
{
    let mut values = Vec::with_capacity(alloc, names.len())?;
    for name in names {
        match value_in(pairs, *name) {
            Some(value) => values.push(value)?,
            None => return Ok(None),
        }
    }
    Ok(Some(values))
}

// Whether there are pairs, and no name is in two of them.
fn are_some_and_distinct(pairs: &[(&[u8], Value)]) -> bool
    ensures some { IsTrue result → 0 < length pairs.now }
    ensures distinct { IsTrue result → are_distinct (map seen_pair pairs.now) ≡ true }
{
    !pairs.is_empty() && are_distinct(pairs)
}

// Whether no name is in two pairs.
fn are_distinct(pairs: &[(&[u8], Value)]) -> bool
    ensures { result ≡ are_distinct (map seen_pair pairs.now) }
{
    for (i, pair) in pairs.iter().enumerate() {
        if value_in(&pairs[i + 1..], pair.0).is_some() {
            return false;
        }
    }
    true
}

// The value of the first pair with this name.
fn value_in<'v>(pairs: &'v [(&[u8], Value)], name: &[u8]) -> Option<&'v Value>
    ensures { option_map (λ value. value.now) result ≡ value_in (map seen_pair pairs.now) name.now }
{
    for pair in pairs {
        if name == pair.0 {
            return Some(&pair.1);
        }
    }
    None
}
