//! Named parameters from tuples of pairs of a name and an argument.
ghost use Rattle.std.specs.Prelude.{◌≢◌, ◌∷◌, ℕ, List, [], Ok, IfErr, alloc_error, fold, ⊤};
ghost use Rattle.mysql_wire_part.specs.Answer.{IsAnswer};
ghost use Rattle.mysql_value_core.specs.declared.value.convert.ToValueError.TheVariants as to_value;
ghost use Rattle.mysql_values.specs.ValueOf.{Meaning};
ghost use Rattle.mysql_params_core.specs.Errors.{to_params_refusal};
ghost use Rattle.mysql_params_core.specs.Given.{given, value_map};
ghost use Rattle.mysql_params_core.specs.Made.{pairs_made, with_pair};

use crate::params::pairs::insert_pair;
use crate::params::row::row;
use crate::params::{Params, ToParamsError};
use mysql_values::value::Value;
use mysql_values::value::convert::ToValue;
use std::alloc::Global;
use std::collections::HashMap;

/// Pairs of a name and an argument, as a tuple: `(("id", 7), ("name", "x"))`.
pub trait ToPairs {
    // the names, and the values of the arguments
    ghost pairs: { Self → List (List ℕ × Meaning) };

    /// Makes named parameters of the pairs, in order, like
    /// [`Params::from_pairs`](crate::params::Params::from_pairs). A pair with the name of an
    /// earlier pair is refused as `Redefined` with that name, and its argument isn't converted. An
    /// argument that has no value is refused as `Value`. The call stops at the first refusal.
    /// `Memory` can come in place of any other result.
    fn to_named(&self, alloc: Global) -> Result<Params, ToParamsError>
        ensures made { IsAnswer given to_params_refusal (pairs_made (pairs self.now)) ⊤ result }
        ensures value { IfErr result (λ error.
            error ≢ ToParamsError.Value (to_value.Memory alloc_error)) };
}

impl<A: ToValue> ToPairs for ((&str, A),) {
    ghost pairs = { λ pairs. (pairs.0.0.now, A.value_of pairs.0.1) ∷ [] };

    fn to_named(&self, alloc: Global) -> Result<Params, ToParamsError> {
        pair_row_params(alloc, &row!(&self.0))
    }
}

impl<A: ToValue, B: ToValue> ToPairs for ((&str, A), (&str, B)) {
    ghost pairs = { λ pairs. (pairs.0.0.now, A.value_of pairs.0.1) ∷
        (pairs.1.0.now, B.value_of pairs.1.1) ∷ [] };

    fn to_named(&self, alloc: Global) -> Result<Params, ToParamsError> {
        pair_row_params(alloc, &row!(&self.0, &self.1))
    }
}

impl<A: ToValue, B: ToValue, C: ToValue> ToPairs for ((&str, A), (&str, B), (&str, C)) {
    ghost pairs = { λ pairs. (pairs.0.0.now, A.value_of pairs.0.1) ∷
        (pairs.1.0.now, B.value_of pairs.1.1) ∷
        (pairs.2.0.now, C.value_of pairs.2.1) ∷ [] };

    fn to_named(&self, alloc: Global) -> Result<Params, ToParamsError> {
        pair_row_params(alloc, &row!(&self.0, &self.1, &self.2))
    }
}

impl<A: ToValue, B: ToValue, C: ToValue, D: ToValue> ToPairs
    for ((&str, A), (&str, B), (&str, C), (&str, D)) {
    ghost pairs = { λ pairs. (pairs.0.0.now, A.value_of pairs.0.1) ∷
        (pairs.1.0.now, B.value_of pairs.1.1) ∷
        (pairs.2.0.now, C.value_of pairs.2.1) ∷
        (pairs.3.0.now, D.value_of pairs.3.1) ∷ [] };

    fn to_named(&self, alloc: Global) -> Result<Params, ToParamsError> {
        pair_row_params(alloc, &row!(&self.0, &self.1, &self.2, &self.3))
    }
}

impl<A: ToValue, B: ToValue, C: ToValue, D: ToValue, E: ToValue> ToPairs
    for ((&str, A), (&str, B), (&str, C), (&str, D), (&str, E)) {
    ghost pairs = { λ pairs. (pairs.0.0.now, A.value_of pairs.0.1) ∷
        (pairs.1.0.now, B.value_of pairs.1.1) ∷
        (pairs.2.0.now, C.value_of pairs.2.1) ∷
        (pairs.3.0.now, D.value_of pairs.3.1) ∷
        (pairs.4.0.now, E.value_of pairs.4.1) ∷ [] };

    fn to_named(&self, alloc: Global) -> Result<Params, ToParamsError> {
        pair_row_params(alloc, &row!(&self.0, &self.1, &self.2, &self.3, &self.4))
    }
}

impl<A: ToValue, B: ToValue, C: ToValue, D: ToValue, E: ToValue, F: ToValue> ToPairs
    for (
        (&str, A),
        (&str, B),
        (&str, C),
        (&str, D),
        (&str, E),
        (&str, F),
    ) {
    ghost pairs = { λ pairs. (pairs.0.0.now, A.value_of pairs.0.1) ∷
        (pairs.1.0.now, B.value_of pairs.1.1) ∷
        (pairs.2.0.now, C.value_of pairs.2.1) ∷
        (pairs.3.0.now, D.value_of pairs.3.1) ∷
        (pairs.4.0.now, E.value_of pairs.4.1) ∷
        (pairs.5.0.now, F.value_of pairs.5.1) ∷ [] };

    fn to_named(&self, alloc: Global) -> Result<Params, ToParamsError> {
        pair_row_params(
            alloc,
            &row!(&self.0, &self.1, &self.2, &self.3, &self.4, &self.5),
        )
    }
}

impl<A: ToValue, B: ToValue, C: ToValue, D: ToValue, E: ToValue, F: ToValue, G: ToValue> ToPairs
    for (
        (&str, A),
        (&str, B),
        (&str, C),
        (&str, D),
        (&str, E),
        (&str, F),
        (&str, G),
    ) {
    ghost pairs = { λ pairs. (pairs.0.0.now, A.value_of pairs.0.1) ∷
        (pairs.1.0.now, B.value_of pairs.1.1) ∷
        (pairs.2.0.now, C.value_of pairs.2.1) ∷
        (pairs.3.0.now, D.value_of pairs.3.1) ∷
        (pairs.4.0.now, E.value_of pairs.4.1) ∷
        (pairs.5.0.now, F.value_of pairs.5.1) ∷
        (pairs.6.0.now, G.value_of pairs.6.1) ∷ [] };

    fn to_named(&self, alloc: Global) -> Result<Params, ToParamsError> {
        pair_row_params(
            alloc,
            &row!(
                &self.0, &self.1, &self.2, &self.3, &self.4, &self.5, &self.6
            ),
        )
    }
}

impl<
    A: ToValue,
    B: ToValue,
    C: ToValue,
    D: ToValue,
    E: ToValue,
    F: ToValue,
    G: ToValue,
    H: ToValue,
> ToPairs
    for (
        (&str, A),
        (&str, B),
        (&str, C),
        (&str, D),
        (&str, E),
        (&str, F),
        (&str, G),
        (&str, H),
    ) {
    ghost pairs = { λ pairs. (pairs.0.0.now, A.value_of pairs.0.1) ∷
        (pairs.1.0.now, B.value_of pairs.1.1) ∷
        (pairs.2.0.now, C.value_of pairs.2.1) ∷
        (pairs.3.0.now, D.value_of pairs.3.1) ∷
        (pairs.4.0.now, E.value_of pairs.4.1) ∷
        (pairs.5.0.now, F.value_of pairs.5.1) ∷
        (pairs.6.0.now, G.value_of pairs.6.1) ∷
        (pairs.7.0.now, H.value_of pairs.7.1) ∷ [] };

    fn to_named(&self, alloc: Global) -> Result<Params, ToParamsError> {
        pair_row_params(
            alloc,
            &row!(
                &self.0, &self.1, &self.2, &self.3, &self.4, &self.5, &self.6, &self.7
            ),
        )
    }
}

impl<
    A: ToValue,
    B: ToValue,
    C: ToValue,
    D: ToValue,
    E: ToValue,
    F: ToValue,
    G: ToValue,
    H: ToValue,
    I: ToValue,
> ToPairs
    for (
        (&str, A),
        (&str, B),
        (&str, C),
        (&str, D),
        (&str, E),
        (&str, F),
        (&str, G),
        (&str, H),
        (&str, I),
    ) {
    ghost pairs = { λ pairs. (pairs.0.0.now, A.value_of pairs.0.1) ∷
        (pairs.1.0.now, B.value_of pairs.1.1) ∷
        (pairs.2.0.now, C.value_of pairs.2.1) ∷
        (pairs.3.0.now, D.value_of pairs.3.1) ∷
        (pairs.4.0.now, E.value_of pairs.4.1) ∷
        (pairs.5.0.now, F.value_of pairs.5.1) ∷
        (pairs.6.0.now, G.value_of pairs.6.1) ∷
        (pairs.7.0.now, H.value_of pairs.7.1) ∷
        (pairs.8.0.now, I.value_of pairs.8.1) ∷ [] };

    fn to_named(&self, alloc: Global) -> Result<Params, ToParamsError> {
        pair_row_params(
            alloc,
            &row!(
                &self.0, &self.1, &self.2, &self.3, &self.4, &self.5, &self.6, &self.7, &self.8
            ),
        )
    }
}

impl<
    A: ToValue,
    B: ToValue,
    C: ToValue,
    D: ToValue,
    E: ToValue,
    F: ToValue,
    G: ToValue,
    H: ToValue,
    I: ToValue,
    J: ToValue,
> ToPairs
    for (
        (&str, A),
        (&str, B),
        (&str, C),
        (&str, D),
        (&str, E),
        (&str, F),
        (&str, G),
        (&str, H),
        (&str, I),
        (&str, J),
    ) {
    ghost pairs = { λ pairs. (pairs.0.0.now, A.value_of pairs.0.1) ∷
        (pairs.1.0.now, B.value_of pairs.1.1) ∷
        (pairs.2.0.now, C.value_of pairs.2.1) ∷
        (pairs.3.0.now, D.value_of pairs.3.1) ∷
        (pairs.4.0.now, E.value_of pairs.4.1) ∷
        (pairs.5.0.now, F.value_of pairs.5.1) ∷
        (pairs.6.0.now, G.value_of pairs.6.1) ∷
        (pairs.7.0.now, H.value_of pairs.7.1) ∷
        (pairs.8.0.now, I.value_of pairs.8.1) ∷
        (pairs.9.0.now, J.value_of pairs.9.1) ∷ [] };

    fn to_named(&self, alloc: Global) -> Result<Params, ToParamsError> {
        pair_row_params(
            alloc,
            &row!(
                &self.0, &self.1, &self.2, &self.3, &self.4, &self.5, &self.6, &self.7, &self.8,
                &self.9
            ),
        )
    }
}

impl<
    A: ToValue,
    B: ToValue,
    C: ToValue,
    D: ToValue,
    E: ToValue,
    F: ToValue,
    G: ToValue,
    H: ToValue,
    I: ToValue,
    J: ToValue,
    K: ToValue,
> ToPairs
    for (
        (&str, A),
        (&str, B),
        (&str, C),
        (&str, D),
        (&str, E),
        (&str, F),
        (&str, G),
        (&str, H),
        (&str, I),
        (&str, J),
        (&str, K),
    ) {
    ghost pairs = { λ pairs. (pairs.0.0.now, A.value_of pairs.0.1) ∷
        (pairs.1.0.now, B.value_of pairs.1.1) ∷
        (pairs.2.0.now, C.value_of pairs.2.1) ∷
        (pairs.3.0.now, D.value_of pairs.3.1) ∷
        (pairs.4.0.now, E.value_of pairs.4.1) ∷
        (pairs.5.0.now, F.value_of pairs.5.1) ∷
        (pairs.6.0.now, G.value_of pairs.6.1) ∷
        (pairs.7.0.now, H.value_of pairs.7.1) ∷
        (pairs.8.0.now, I.value_of pairs.8.1) ∷
        (pairs.9.0.now, J.value_of pairs.9.1) ∷
        (pairs.10.0.now, K.value_of pairs.10.1) ∷ [] };

    fn to_named(&self, alloc: Global) -> Result<Params, ToParamsError> {
        pair_row_params(
            alloc,
            &row!(
                &self.0, &self.1, &self.2, &self.3, &self.4, &self.5, &self.6, &self.7, &self.8,
                &self.9, &self.10
            ),
        )
    }
}

impl<
    A: ToValue,
    B: ToValue,
    C: ToValue,
    D: ToValue,
    E: ToValue,
    F: ToValue,
    G: ToValue,
    H: ToValue,
    I: ToValue,
    J: ToValue,
    K: ToValue,
    L: ToValue,
> ToPairs
    for (
        (&str, A),
        (&str, B),
        (&str, C),
        (&str, D),
        (&str, E),
        (&str, F),
        (&str, G),
        (&str, H),
        (&str, I),
        (&str, J),
        (&str, K),
        (&str, L),
    ) {
    ghost pairs = { λ pairs. (pairs.0.0.now, A.value_of pairs.0.1) ∷
        (pairs.1.0.now, B.value_of pairs.1.1) ∷
        (pairs.2.0.now, C.value_of pairs.2.1) ∷
        (pairs.3.0.now, D.value_of pairs.3.1) ∷
        (pairs.4.0.now, E.value_of pairs.4.1) ∷
        (pairs.5.0.now, F.value_of pairs.5.1) ∷
        (pairs.6.0.now, G.value_of pairs.6.1) ∷
        (pairs.7.0.now, H.value_of pairs.7.1) ∷
        (pairs.8.0.now, I.value_of pairs.8.1) ∷
        (pairs.9.0.now, J.value_of pairs.9.1) ∷
        (pairs.10.0.now, K.value_of pairs.10.1) ∷
        (pairs.11.0.now, L.value_of pairs.11.1) ∷ [] };

    fn to_named(&self, alloc: Global) -> Result<Params, ToParamsError> {
        pair_row_params(
            alloc,
            &row!(
                &self.0, &self.1, &self.2, &self.3, &self.4, &self.5, &self.6, &self.7, &self.8,
                &self.9, &self.10, &self.11
            ),
        )
    }
}

// Makes named parameters of the pairs of a row.
fn pair_row_params<R: InsertPairs>(alloc: Global, row: &R) -> Result<Params, ToParamsError>
    ensures made { IsAnswer given to_params_refusal (pairs_made (R.inserted row.now)) ⊤ result }
    ensures value { IfErr result (λ error.
        error ≢ ToParamsError.Value (to_value.Memory alloc_error)) }
{
    let mut entries = HashMap::new(alloc);
    row.insert(alloc, &mut entries)?;
    Ok(Params::Named(entries))
}

// A row of references to pairs, whose values are inserted into a map.
trait InsertPairs {
    // the names, and the values of the arguments
    ghost inserted: { Self → List (List ℕ × Meaning) };

    // Inserts the values in order, up to the first refusal.
    fn insert(
        &self,
        alloc: Global,
        entries: &mut HashMap<Vec<u8>, Value>,
    ) -> Result<(), ToParamsError>
        ensures made { IsAnswer (λ _. value_map entries.new.entries) to_params_refusal
            (fold with_pair (Ok (value_map entries.old.entries)) (inserted self.now)) ⊤ result }
        ensures value { IfErr result (λ error.
            error ≢ ToParamsError.Value (to_value.Memory alloc_error)) };
}

impl InsertPairs for () {
    ghost inserted = { λ _. [] };

    fn insert(
        &self,
        _alloc: Global,
        _entries: &mut HashMap<Vec<u8>, Value>,
    ) -> Result<(), ToParamsError> {
        Ok(())
    }
}

impl<A: ToValue> InsertPairs for (&(&str, A),) {
    ghost inserted = { λ row. (row.0.now.0.now, A.value_of row.0.now.1) ∷ [] };

    fn insert(
        &self,
        alloc: Global,
        entries: &mut HashMap<Vec<u8>, Value>,
    ) -> Result<(), ToParamsError> {
        insert_pair(alloc, entries, self.0.0.as_bytes(), &self.0.1)
    }
}

impl<A: ToValue, B: ToValue, R: InsertPairs> InsertPairs for (&(&str, A), &(&str, B), R) {
    ghost inserted = { λ row. (row.0.now.0.now, A.value_of row.0.now.1) ∷
        (row.1.now.0.now, B.value_of row.1.now.1) ∷ R.inserted row.2 };

    fn insert(
        &self,
        alloc: Global,
        entries: &mut HashMap<Vec<u8>, Value>,
    ) -> Result<(), ToParamsError> {
        insert_two(alloc, entries, self.0, self.1)?;
        self.2.insert(alloc, entries)
    }
}

// Inserts the values of two pairs, one after the other.
fn insert_two<A: ToValue, B: ToValue>(
    alloc: Global,
    entries: &mut HashMap<Vec<u8>, Value>,
    first: &(&str, A),
    second: &(&str, B),
) -> Result<(), ToParamsError>
    ensures made { IsAnswer (λ _. value_map entries.new.entries) to_params_refusal
        (fold with_pair (Ok (value_map entries.old.entries))
        ((first.now.0.now, A.value_of first.now.1) ∷
        (second.now.0.now, B.value_of second.now.1) ∷ [])) ⊤ result }
    ensures value { IfErr result (λ error.
        error ≢ ToParamsError.Value (to_value.Memory alloc_error)) }
{
    insert_pair(alloc, entries, first.0.as_bytes(), &first.1)?;
    insert_pair(alloc, entries, second.0.as_bytes(), &second.1)
}
