//! Positional parameters from tuples of arguments that have values.
ghost use Rattle.std.specs.Prelude.{◌≢◌, ◌∷◌, List, [], fold, Ok, IfErr, alloc_error, ⊤};
ghost use Rattle.mysql_wire_part.specs.Answer.{IsAnswer};
ghost use Rattle.mysql_value_core.specs.declared.value.convert.ToValueError.TheVariants as to_value;
ghost use Rattle.mysql_values.specs.ValueOf.{Meaning};
ghost use Rattle.mysql_params_core.specs.Errors.{to_params_refusal};
ghost use Rattle.mysql_params_core.specs.Given.{given};
ghost use Rattle.mysql_params_core.specs.Made.{by_position, list_made, values_made, with_value};

use crate::params::row::row;
use crate::params::to_params::append_value;
use crate::params::{Params, ToParams, ToParamsError};
use mysql_values::value::Value;
use mysql_values::value::convert::ToValue;
use std::alloc::Global;

impl<A: ToValue> ToParams for (A,) {
    ghost made = { λ arguments. list_made (A.value_of arguments.0 ∷ []) };

    ghost takes_memory = { λ _. ⊤ };

    fn to_params(&self, alloc: Global) -> Result<Params, ToParamsError> {
        row_params(alloc, &row!(&self.0))
    }
}

impl<A: ToValue, B: ToValue> ToParams for (A, B) {
    ghost made = { λ arguments. list_made (A.value_of arguments.0 ∷ B.value_of arguments.1 ∷ []) };

    ghost takes_memory = { λ _. ⊤ };

    fn to_params(&self, alloc: Global) -> Result<Params, ToParamsError> {
        row_params(alloc, &row!(&self.0, &self.1))
    }
}

impl<A: ToValue, B: ToValue, C: ToValue> ToParams for (A, B, C) {
    ghost made = { λ arguments. list_made (A.value_of arguments.0 ∷ B.value_of arguments.1 ∷
        C.value_of arguments.2 ∷ []) };

    ghost takes_memory = { λ _. ⊤ };

    fn to_params(&self, alloc: Global) -> Result<Params, ToParamsError> {
        row_params(alloc, &row!(&self.0, &self.1, &self.2))
    }
}

impl<A: ToValue, B: ToValue, C: ToValue, D: ToValue> ToParams for (A, B, C, D) {
    ghost made = { λ arguments. list_made (A.value_of arguments.0 ∷ B.value_of arguments.1 ∷
        C.value_of arguments.2 ∷ D.value_of arguments.3 ∷ []) };

    ghost takes_memory = { λ _. ⊤ };

    fn to_params(&self, alloc: Global) -> Result<Params, ToParamsError> {
        row_params(alloc, &row!(&self.0, &self.1, &self.2, &self.3))
    }
}

impl<A: ToValue, B: ToValue, C: ToValue, D: ToValue, E: ToValue> ToParams for (A, B, C, D, E) {
    ghost made = { λ arguments. list_made (A.value_of arguments.0 ∷ B.value_of arguments.1 ∷
        C.value_of arguments.2 ∷ D.value_of arguments.3 ∷
        E.value_of arguments.4 ∷ []) };

    ghost takes_memory = { λ _. ⊤ };

    fn to_params(&self, alloc: Global) -> Result<Params, ToParamsError> {
        row_params(alloc, &row!(&self.0, &self.1, &self.2, &self.3, &self.4))
    }
}

impl<A: ToValue, B: ToValue, C: ToValue, D: ToValue, E: ToValue, F: ToValue> ToParams
    for (A, B, C, D, E, F) {
    ghost made = { λ arguments. list_made (A.value_of arguments.0 ∷ B.value_of arguments.1 ∷
        C.value_of arguments.2 ∷ D.value_of arguments.3 ∷
        E.value_of arguments.4 ∷ F.value_of arguments.5 ∷ []) };

    ghost takes_memory = { λ _. ⊤ };

    fn to_params(&self, alloc: Global) -> Result<Params, ToParamsError> {
        row_params(
            alloc,
            &row!(&self.0, &self.1, &self.2, &self.3, &self.4, &self.5),
        )
    }
}

impl<A: ToValue, B: ToValue, C: ToValue, D: ToValue, E: ToValue, F: ToValue, G: ToValue> ToParams
    for (A, B, C, D, E, F, G) {
    ghost made = { λ arguments. list_made (A.value_of arguments.0 ∷ B.value_of arguments.1 ∷
        C.value_of arguments.2 ∷ D.value_of arguments.3 ∷
        E.value_of arguments.4 ∷ F.value_of arguments.5 ∷
        G.value_of arguments.6 ∷ []) };

    ghost takes_memory = { λ _. ⊤ };

    fn to_params(&self, alloc: Global) -> Result<Params, ToParamsError> {
        row_params(
            alloc,
            &row!(
                &self.0, &self.1, &self.2, &self.3, &self.4, &self.5, &self.6
            ),
        )
    }
}

impl<
    A: ToValue,
    B: ToValue,
    C: ToValue,
    D: ToValue,
    E: ToValue,
    F: ToValue,
    G: ToValue,
    H: ToValue,
> ToParams for (A, B, C, D, E, F, G, H) {
    ghost made = { λ arguments. list_made (A.value_of arguments.0 ∷ B.value_of arguments.1 ∷
        C.value_of arguments.2 ∷ D.value_of arguments.3 ∷
        E.value_of arguments.4 ∷ F.value_of arguments.5 ∷
        G.value_of arguments.6 ∷ H.value_of arguments.7 ∷ []) };

    ghost takes_memory = { λ _. ⊤ };

    fn to_params(&self, alloc: Global) -> Result<Params, ToParamsError> {
        row_params(
            alloc,
            &row!(
                &self.0, &self.1, &self.2, &self.3, &self.4, &self.5, &self.6, &self.7
            ),
        )
    }
}

impl<
    A: ToValue,
    B: ToValue,
    C: ToValue,
    D: ToValue,
    E: ToValue,
    F: ToValue,
    G: ToValue,
    H: ToValue,
    I: ToValue,
> ToParams for (A, B, C, D, E, F, G, H, I) {
    ghost made = { λ arguments. list_made (A.value_of arguments.0 ∷ B.value_of arguments.1 ∷
        C.value_of arguments.2 ∷ D.value_of arguments.3 ∷
        E.value_of arguments.4 ∷ F.value_of arguments.5 ∷
        G.value_of arguments.6 ∷ H.value_of arguments.7 ∷
        I.value_of arguments.8 ∷ []) };

    ghost takes_memory = { λ _. ⊤ };

    fn to_params(&self, alloc: Global) -> Result<Params, ToParamsError> {
        row_params(
            alloc,
            &row!(
                &self.0, &self.1, &self.2, &self.3, &self.4, &self.5, &self.6, &self.7, &self.8
            ),
        )
    }
}

impl<
    A: ToValue,
    B: ToValue,
    C: ToValue,
    D: ToValue,
    E: ToValue,
    F: ToValue,
    G: ToValue,
    H: ToValue,
    I: ToValue,
    J: ToValue,
> ToParams for (A, B, C, D, E, F, G, H, I, J) {
    ghost made = { λ arguments. list_made (A.value_of arguments.0 ∷ B.value_of arguments.1 ∷
        C.value_of arguments.2 ∷ D.value_of arguments.3 ∷
        E.value_of arguments.4 ∷ F.value_of arguments.5 ∷
        G.value_of arguments.6 ∷ H.value_of arguments.7 ∷
        I.value_of arguments.8 ∷ J.value_of arguments.9 ∷ []) };

    ghost takes_memory = { λ _. ⊤ };

    fn to_params(&self, alloc: Global) -> Result<Params, ToParamsError> {
        row_params(
            alloc,
            &row!(
                &self.0, &self.1, &self.2, &self.3, &self.4, &self.5, &self.6, &self.7, &self.8,
                &self.9
            ),
        )
    }
}

impl<
    A: ToValue,
    B: ToValue,
    C: ToValue,
    D: ToValue,
    E: ToValue,
    F: ToValue,
    G: ToValue,
    H: ToValue,
    I: ToValue,
    J: ToValue,
    K: ToValue,
> ToParams for (A, B, C, D, E, F, G, H, I, J, K) {
    ghost made = { λ arguments. list_made (A.value_of arguments.0 ∷ B.value_of arguments.1 ∷
        C.value_of arguments.2 ∷ D.value_of arguments.3 ∷
        E.value_of arguments.4 ∷ F.value_of arguments.5 ∷
        G.value_of arguments.6 ∷ H.value_of arguments.7 ∷
        I.value_of arguments.8 ∷ J.value_of arguments.9 ∷
        K.value_of arguments.10 ∷ []) };

    ghost takes_memory = { λ _. ⊤ };

    fn to_params(&self, alloc: Global) -> Result<Params, ToParamsError> {
        row_params(
            alloc,
            &row!(
                &self.0, &self.1, &self.2, &self.3, &self.4, &self.5, &self.6, &self.7, &self.8,
                &self.9, &self.10
            ),
        )
    }
}

impl<
    A: ToValue,
    B: ToValue,
    C: ToValue,
    D: ToValue,
    E: ToValue,
    F: ToValue,
    G: ToValue,
    H: ToValue,
    I: ToValue,
    J: ToValue,
    K: ToValue,
    L: ToValue,
> ToParams for (A, B, C, D, E, F, G, H, I, J, K, L) {
    ghost made = { λ arguments. list_made (A.value_of arguments.0 ∷ B.value_of arguments.1 ∷
        C.value_of arguments.2 ∷ D.value_of arguments.3 ∷
        E.value_of arguments.4 ∷ F.value_of arguments.5 ∷
        G.value_of arguments.6 ∷ H.value_of arguments.7 ∷
        I.value_of arguments.8 ∷ J.value_of arguments.9 ∷
        K.value_of arguments.10 ∷ L.value_of arguments.11 ∷ []) };

    ghost takes_memory = { λ _. ⊤ };

    fn to_params(&self, alloc: Global) -> Result<Params, ToParamsError> {
        row_params(
            alloc,
            &row!(
                &self.0, &self.1, &self.2, &self.3, &self.4, &self.5, &self.6, &self.7, &self.8,
                &self.9, &self.10, &self.11
            ),
        )
    }
}

// The positional parameters that the arguments of a row make.
fn row_params<R: AppendValues>(alloc: Global, row: &R) -> Result<Params, ToParamsError>
    ensures made { IsAnswer given to_params_refusal
        (by_position (values_made (R.appended row.now))) ⊤ result }
    ensures value { IfErr result (λ error.
        error ≢ ToParamsError.Value (to_value.Memory alloc_error)) }
{
    let mut values = Vec::new(alloc);
    row.append(alloc, &mut values)?;
    Ok(Params::Positional(values))
}

// A row of references to arguments, whose values are appended to a list.
trait AppendValues {
    // the values of the arguments
    ghost appended: { Self → List Meaning };

    // Appends the values in order, up to the first refusal.
    fn append(&self, alloc: Global, values: &mut Vec<Value>) -> Result<(), ToParamsError>
        ensures made { IsAnswer (λ _. values.new.items) to_params_refusal
            (fold with_value (Ok values.old.items) (appended self.now)) ⊤ result }
        ensures value { IfErr result (λ error.
            error ≢ ToParamsError.Value (to_value.Memory alloc_error)) };
}

impl AppendValues for () {
    ghost appended = { λ _. [] };

    fn append(&self, _alloc: Global, _values: &mut Vec<Value>) -> Result<(), ToParamsError> {
        Ok(())
    }
}

impl<A: ToValue> AppendValues for (&A,) {
    ghost appended = { λ row. A.value_of row.0.now ∷ [] };

    fn append(&self, alloc: Global, values: &mut Vec<Value>) -> Result<(), ToParamsError> {
        append_value(alloc, values, self.0)
    }
}

impl<A: ToValue, B: ToValue, R: AppendValues> AppendValues for (&A, &B, R) {
    ghost appended = { λ row. A.value_of row.0.now ∷ B.value_of row.1.now ∷
        R.appended row.2 };

    fn append(&self, alloc: Global, values: &mut Vec<Value>) -> Result<(), ToParamsError> {
        append_two(alloc, values, self.0, self.1)?;
        self.2.append(alloc, values)
    }
}

// Appends the values of two arguments, one after the other.
fn append_two<A: ToValue, B: ToValue>(
    alloc: Global,
    values: &mut Vec<Value>,
    first: &A,
    second: &B,
) -> Result<(), ToParamsError>
    ensures made { IsAnswer (λ _. values.new.items) to_params_refusal
        (fold with_value (Ok values.old.items)
        (A.value_of first.now ∷ B.value_of second.now ∷ [])) ⊤ result }
    ensures value { IfErr result (λ error.
        error ≢ ToParamsError.Value (to_value.Memory alloc_error)) }
{
    append_value(alloc, values, first)?;
    append_value(alloc, values, second)
}
