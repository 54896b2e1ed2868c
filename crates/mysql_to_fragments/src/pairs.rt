//! Pairs of a name and an argument make fragments by name.
ghost use Rattle.std.specs.Prelude.{◌≡◌, ◌≢◌, ◌⊎◌, ◌∷◌, ℕ, List, [], None, Some, Ok, IfErr, alloc_error, fold, ⊤};
ghost use Rattle.std.specs.FinMap.{contains_key};
ghost use Rattle.mysql_values.specs.Answer.{IsAnswer};
ghost use Rattle.mysql_values.specs.ValueOf.{too_long_duration};
ghost use Rattle.mysql_value_core.specs.declared.value.convert.ToValueError.TheVariants as to_value;
ghost use Rattle.mysql_params_core.specs.Errors.{to_params_refusal};
ghost use Rattle.mysql_params_core.specs.Made.{redefined};
ghost use Rattle.mysql_to_fragments.specs.FragmentContent.{content_of};
ghost use Rattle.mysql_to_fragments.specs.Arguments.{SaidFragment};
ghost use Rattle.mysql_to_fragments.specs.NamedContents.{content_map, contents_of, pairs_made, with_new, with_pair};

use crate::fragment::ToFragment;
use crate::nested::nested;
use mysql_fragments::{Fragment, Fragments};
use mysql_params_core::params::ToParamsError;
use mysql_values::value::convert::ToValueError;
use std::alloc::Global;
use std::collections::HashMap;

/// Pairs of a name and an argument, up to eight in a tuple:
/// `(("ids", ListOf(ids)), ("column", Identifier(column)))`.
pub trait ToFragments {
    // the names, and the contents of the arguments
    ghost pairs: { Self → List (List ℕ × SaidFragment) };

    /// The fragments that the pairs make by name. The pairs are taken in order, and the first
    /// refusal ends the call. A pair with the name of an earlier pair is refused as `Redefined`
    /// with that name, and its argument isn't asked for its fragment. An argument with a duration
    /// that is too long for a value is refused as `Value`. `Memory` may come in place of any other
    /// result.
    fn to_fragments(&self, alloc: Global) -> Result<Fragments, ToParamsError>
        ensures made { IsAnswer contents_of to_params_refusal
            (pairs_made (pairs self.now)) ⊤ result }
        ensures value { IfErr result (λ error.
            error ≢ ToParamsError.Value (to_value.Memory alloc_error)) };
}

impl<A: ToFragment> ToFragments for ((&str, A),) {
    ghost pairs = { λ pairs. (pairs.0.0.now, A.said pairs.0.1) ∷ [] };

    fn to_fragments(&self, alloc: Global) -> Result<Fragments, ToParamsError> {
        fragments_of_pairs(alloc, &nested!(&self.0))
    }
}

impl<A: ToFragment, B: ToFragment> ToFragments for ((&str, A), (&str, B)) {
    ghost pairs = { λ pairs. (pairs.0.0.now, A.said pairs.0.1) ∷
        (pairs.1.0.now, B.said pairs.1.1) ∷ [] };

    fn to_fragments(&self, alloc: Global) -> Result<Fragments, ToParamsError> {
        fragments_of_pairs(alloc, &nested!(&self.0, &self.1))
    }
}

impl<A: ToFragment, B: ToFragment, C: ToFragment> ToFragments
    for ((&str, A), (&str, B), (&str, C)) {
    ghost pairs = { λ pairs. (pairs.0.0.now, A.said pairs.0.1) ∷
        (pairs.1.0.now, B.said pairs.1.1) ∷
        (pairs.2.0.now, C.said pairs.2.1) ∷ [] };

    fn to_fragments(&self, alloc: Global) -> Result<Fragments, ToParamsError> {
        fragments_of_pairs(alloc, &nested!(&self.0, &self.1, &self.2))
    }
}

impl<A: ToFragment, B: ToFragment, C: ToFragment, D: ToFragment> ToFragments
    for ((&str, A), (&str, B), (&str, C), (&str, D)) {
    ghost pairs = { λ pairs. (pairs.0.0.now, A.said pairs.0.1) ∷
        (pairs.1.0.now, B.said pairs.1.1) ∷
        (pairs.2.0.now, C.said pairs.2.1) ∷
        (pairs.3.0.now, D.said pairs.3.1) ∷ [] };

    fn to_fragments(&self, alloc: Global) -> Result<Fragments, ToParamsError> {
        fragments_of_pairs(alloc, &nested!(&self.0, &self.1, &self.2, &self.3))
    }
}

impl<A: ToFragment, B: ToFragment, C: ToFragment, D: ToFragment, E: ToFragment> ToFragments
    for ((&str, A), (&str, B), (&str, C), (&str, D), (&str, E)) {
    ghost pairs = { λ pairs. (pairs.0.0.now, A.said pairs.0.1) ∷
        (pairs.1.0.now, B.said pairs.1.1) ∷
        (pairs.2.0.now, C.said pairs.2.1) ∷
        (pairs.3.0.now, D.said pairs.3.1) ∷
        (pairs.4.0.now, E.said pairs.4.1) ∷ [] };

    fn to_fragments(&self, alloc: Global) -> Result<Fragments, ToParamsError> {
        fragments_of_pairs(alloc, &nested!(&self.0, &self.1, &self.2, &self.3, &self.4))
    }
}

impl<
    A: ToFragment,
    B: ToFragment,
    C: ToFragment,
    D: ToFragment,
    E: ToFragment,
    F: ToFragment,
> ToFragments
    for (
        (&str, A),
        (&str, B),
        (&str, C),
        (&str, D),
        (&str, E),
        (&str, F),
    ) {
    ghost pairs = { λ pairs. (pairs.0.0.now, A.said pairs.0.1) ∷
        (pairs.1.0.now, B.said pairs.1.1) ∷
        (pairs.2.0.now, C.said pairs.2.1) ∷
        (pairs.3.0.now, D.said pairs.3.1) ∷
        (pairs.4.0.now, E.said pairs.4.1) ∷
        (pairs.5.0.now, F.said pairs.5.1) ∷ [] };

    fn to_fragments(&self, alloc: Global) -> Result<Fragments, ToParamsError> {
        fragments_of_pairs(
            alloc,
            &nested!(&self.0, &self.1, &self.2, &self.3, &self.4, &self.5),
        )
    }
}

impl<
    A: ToFragment,
    B: ToFragment,
    C: ToFragment,
    D: ToFragment,
    E: ToFragment,
    F: ToFragment,
    G: ToFragment,
> ToFragments
    for (
        (&str, A),
        (&str, B),
        (&str, C),
        (&str, D),
        (&str, E),
        (&str, F),
        (&str, G),
    ) {
    ghost pairs = { λ pairs. (pairs.0.0.now, A.said pairs.0.1) ∷
        (pairs.1.0.now, B.said pairs.1.1) ∷
        (pairs.2.0.now, C.said pairs.2.1) ∷
        (pairs.3.0.now, D.said pairs.3.1) ∷
        (pairs.4.0.now, E.said pairs.4.1) ∷
        (pairs.5.0.now, F.said pairs.5.1) ∷
        (pairs.6.0.now, G.said pairs.6.1) ∷ [] };

    fn to_fragments(&self, alloc: Global) -> Result<Fragments, ToParamsError> {
        fragments_of_pairs(
            alloc,
            &nested!(
                &self.0, &self.1, &self.2, &self.3, &self.4, &self.5, &self.6
            ),
        )
    }
}

impl<
    A: ToFragment,
    B: ToFragment,
    C: ToFragment,
    D: ToFragment,
    E: ToFragment,
    F: ToFragment,
    G: ToFragment,
    H: ToFragment,
> ToFragments
    for (
        (&str, A),
        (&str, B),
        (&str, C),
        (&str, D),
        (&str, E),
        (&str, F),
        (&str, G),
        (&str, H),
    ) {
    ghost pairs = { λ pairs. (pairs.0.0.now, A.said pairs.0.1) ∷
        (pairs.1.0.now, B.said pairs.1.1) ∷
        (pairs.2.0.now, C.said pairs.2.1) ∷
        (pairs.3.0.now, D.said pairs.3.1) ∷
        (pairs.4.0.now, E.said pairs.4.1) ∷
        (pairs.5.0.now, F.said pairs.5.1) ∷
        (pairs.6.0.now, G.said pairs.6.1) ∷
        (pairs.7.0.now, H.said pairs.7.1) ∷ [] };

    fn to_fragments(&self, alloc: Global) -> Result<Fragments, ToParamsError> {
        fragments_of_pairs(
            alloc,
            &nested!(
                &self.0, &self.1, &self.2, &self.3, &self.4, &self.5, &self.6, &self.7
            ),
        )
    }
}

// The fragments that nested pairs make.
fn fragments_of_pairs<R: InsertPairs>(alloc: Global, row: &R) -> Result<Fragments, ToParamsError>
    ensures made { IsAnswer contents_of to_params_refusal
        (pairs_made (R.inserted row.now)) ⊤ result }
    ensures value { IfErr result (λ error.
        error ≢ ToParamsError.Value (to_value.Memory alloc_error)) }
{
    let mut entries = HashMap::new(alloc);
    row.insert(alloc, &mut entries)?;
    Ok(Fragments::Named(entries))
}

// References to pairs as nested pairs, whose fragments go into a map.
trait InsertPairs {
    // the names, and the contents of the arguments
    ghost inserted: { Self → List (List ℕ × SaidFragment) };

    // Inserts the fragments in order, up to the first refusal.
    fn insert(
        &self,
        alloc: Global,
        entries: &mut HashMap<Vec<u8>, Fragment>,
    ) -> Result<(), ToParamsError>
        ensures made { IsAnswer (λ _. content_map entries.new.entries) to_params_refusal
            (fold with_pair (Ok (content_map entries.old.entries)) (inserted self.now)) ⊤ result }
        ensures value { IfErr result (λ error.
            error ≢ ToParamsError.Value (to_value.Memory alloc_error)) };
}

impl InsertPairs for () {
    ghost inserted = { λ _. [] };

    fn insert(
        &self,
        _alloc: Global,
        _entries: &mut HashMap<Vec<u8>, Fragment>,
    ) -> Result<(), ToParamsError> {
        Ok(())
    }
}

impl<A: ToFragment, R: InsertPairs> InsertPairs for (&(&str, A), R) {
    ghost inserted = { λ row. (row.0.now.0.now, A.said row.0.now.1) ∷ R.inserted row.1 };

    fn insert(
        &self,
        alloc: Global,
        entries: &mut HashMap<Vec<u8>, Fragment>,
    ) -> Result<(), ToParamsError> {
        insert_pair(alloc, entries, self.0.0.as_bytes(), &self.0.1)?;
        self.1.insert(alloc, entries)
    }
}

// Inserts the fragment of an argument under its name, which may not be in the map yet.
fn insert_pair<A: ToFragment>(
    alloc: Global,
    entries: &mut HashMap<Vec<u8>, Fragment>,
    name: &[u8],
    argument: &A,
) -> Result<(), ToParamsError>
    ensures made { IsAnswer (λ _. content_map entries.new.entries) to_params_refusal
        (with_pair (Ok (content_map entries.old.entries))
        (name.now, A.said argument.now)) ⊤ result }
    ensures value { IfErr result (λ error.
        error ≢ ToParamsError.Value (to_value.Memory alloc_error)) }
{
    if has_name(entries, name) {
        return Err(redefined_error(alloc, name));
    }
    insert_new(alloc, entries, name, argument.to_fragment(alloc))
}

// Whether the name is in the map.
fn has_name(entries: &HashMap<Vec<u8>, Fragment>, name: &[u8]) -> bool
    ensures { result ≡ contains_key (content_map entries.now.entries) name.now }
{
    entries.get(name).is_some()
}

// The refusal of a name that is already in the map, or out of memory.
fn redefined_error(alloc: Global, name: &[u8]) -> ToParamsError
    ensures refused { (to_params_refusal result ≡ None)
        ⊎ (to_params_refusal result ≡ Some (redefined name.now)) }
    ensures value { result ≢ ToParamsError.Value (to_value.Memory alloc_error) }
{
    match Vec::from_slice(alloc, name) {
        Ok(name) => ToParamsError::Redefined(name),
        Err(error) => ToParamsError::Memory(error),
    }
}

// Inserts under a new name the fragment that an argument returned. A caller says which fragment the
// argument makes.
fn insert_new(
    alloc: Global,
    entries: &mut HashMap<Vec<u8>, Fragment>,
    name: &[u8],
    answer: Result<Fragment, ToValueError>,
) -> Result<(), ToParamsError>
    ensures made { (said : SaidFragment) →
        IsAnswer content_of too_long_duration said ⊤ answer →
        IsAnswer (λ _. content_map entries.new.entries) to_params_refusal
        (with_new (content_map entries.old.entries) name.now said) ⊤ result }
    ensures value { IfErr result (λ error.
        error ≢ ToParamsError.Value (to_value.Memory alloc_error)) }
{
    let fragment = answer?;
    let name = Vec::from_slice(alloc, name)?;
    entries.insert(name, fragment)?;
    Ok(())
}
