//! Conversion of arguments to parameters.
ghost use Rattle.std.specs.Prelude.{◌≡◌, ◌≢◌, [], map, Ok, IfErr, IsErrOf, alloc_error, ⊤};
ghost use Rattle.mysql_wire_part.specs.Answer.{IsAnswer};
ghost use Rattle.mysql_value_core.specs.declared.value.convert.ToValueError.TheVariants as to_value;
ghost use Rattle.mysql_params_core.specs.Errors.{to_params_refusal};
ghost use Rattle.mysql_params_core.specs.Given.{given, empty};
ghost use Rattle.mysql_params_core.specs.Made.{Made, list_made, with_value};
ghost use Rattle.mysql_values.specs.ValueOf.{Meaning, MeansBytes, too_long_duration};

use crate::params::{Params, ToParamsError};
use mysql_values::value::Value;
use mysql_values::value::convert::{ToValue, ToValueError};
use std::alloc::Global;

/// A type from which parameters can be made.
pub trait ToParams {
    // the parameters that it makes, or the refusal
    ghost made: { Self → Made };

    // whether making them allocates
    ghost takes_memory: { Self → Type 0 };

    /// Makes parameters, or returns the refusal of the first item that has no value. `Memory` comes
    /// only if the type says that it allocates. `Value` never holds out of memory.
    fn to_params(&self, alloc: Global) -> Result<Params, ToParamsError>
        ensures made { IsAnswer given to_params_refusal (made self.now) ⊤ result }
        ensures memory { IsErrOf result (ToParamsError.Memory alloc_error) → takes_memory self.now }
        ensures value { IfErr result (λ error.
            error ≢ ToParamsError.Value (to_value.Memory alloc_error)) };
}

impl ToParams for () {
    ghost made = { λ _. Ok empty };

    ghost takes_memory = { λ _. ⊥ };

    fn to_params(&self, _alloc: Global) -> Result<Params, ToParamsError> {
        Ok(Params::Empty)
    }
}

/// The copy is on the allocator of the parameters.
impl ToParams for Params {
    ghost made = { λ params. Ok (given params) };

    ghost takes_memory = { λ params. given params ≢ empty };

    fn to_params(&self, _alloc: Global) -> Result<Params, ToParamsError> {
        Params::clone(self).map_err(ToParamsError::Memory)
    }
}

impl<T: ToParams> ToParams for &T {
    ghost made = { λ reference. T.made reference.now };

    ghost takes_memory = { λ reference. T.takes_memory reference.now };

    fn to_params(&self, alloc: Global) -> Result<Params, ToParamsError> {
        (**self).to_params(alloc)
    }
}

impl<T: ToValue> ToParams for Vec<T> {
    ghost made = { λ arguments. list_made (map T.value_of arguments.items) };

    ghost takes_memory = { λ arguments. arguments.items ≢ [] };

    fn to_params(&self, alloc: Global) -> Result<Params, ToParamsError> {
        list_params(alloc, self.as_slice())
    }
}

impl ToParams for &[&dyn ToValue] {
    // The value of each object. The clause of a function writes `value_of object.now`, like that of
    // `object_params`. An implementation has to write it out.
    ghost made = { λ objects.
        list_made (map (λ object. (ToValue-dyn object.now).value_of object.now.1) objects.now) };

    ghost takes_memory = { λ objects. objects.now ≢ [] };

    fn to_params(&self, alloc: Global) -> Result<Params, ToParamsError> {
        object_params(alloc, *self)
    }
}

// The parameters that a list of arguments makes.
fn list_params<T: ToValue>(alloc: Global, arguments: &[T]) -> Result<Params, ToParamsError>
    ensures made { IsAnswer given to_params_refusal
        (list_made (map T.value_of arguments.now)) ⊤ result }
    ensures memory { IsErrOf result (ToParamsError.Memory alloc_error) → arguments.now ≢ [] }
    ensures value { IfErr result (λ error.
        error ≢ ToParamsError.Value (to_value.Memory alloc_error)) }
{
    if arguments.is_empty() {
        return Ok(Params::Empty);
    }
    let mut values = Vec::new(alloc);
    for argument in arguments {
        append_value(alloc, &mut values, argument)?;
    }
    Ok(Params::Positional(values))
}

// The same for objects, only through the interface of each.
fn object_params(alloc: Global, objects: &[&dyn ToValue]) -> Result<Params, ToParamsError>
    ensures made { IsAnswer given to_params_refusal
        (list_made (map (λ object. value_of object.now) objects.now)) ⊤ result }
    ensures memory { IsErrOf result (ToParamsError.Memory alloc_error) → objects.now ≢ [] }
    ensures value { IfErr result (λ error.
        error ≢ ToParamsError.Value (to_value.Memory alloc_error)) }
{
    if objects.is_empty() {
        return Ok(Params::Empty);
    }
    let mut values = Vec::new(alloc);
    for object in objects {
        append_object_value(alloc, &mut values, *object)?;
    }
    Ok(Params::Positional(values))
}

// Appends the value of an argument.
pub(crate) fn append_value<T: ToValue>(
    alloc: Global,
    values: &mut Vec<Value>,
    argument: &T,
) -> Result<(), ToParamsError>
    ensures made { IsAnswer (λ _. values.new.items) to_params_refusal
        (with_value (Ok values.old.items) (T.value_of argument.now)) ⊤ result }
    ensures value { IfErr result (λ error.
        error ≢ ToParamsError.Value (to_value.Memory alloc_error)) }
{
    append_answer(values, argument.to_value(alloc))
}

// The same for an object, only through its interface.
fn append_object_value(
    alloc: Global,
    values: &mut Vec<Value>,
    object: &dyn ToValue,
) -> Result<(), ToParamsError>
    ensures made { IsAnswer (λ _. values.new.items) to_params_refusal
        (with_value (Ok values.old.items) (value_of object.now)) ⊤ result }
    ensures value { IfErr result (λ error.
        error ≢ ToParamsError.Value (to_value.Memory alloc_error)) }
{
    append_answer(values, object.to_value(alloc))
}

// Appends the value that an argument returned. The caller says which value the argument has.
fn append_answer(
    values: &mut Vec<Value>,
    answer: Result<Value, ToValueError>,
) -> Result<(), ToParamsError>
    ensures made { (meaning : Meaning) →
        IsAnswer (λ value. value) too_long_duration meaning (MeansBytes meaning) answer →
        IsAnswer (λ _. values.new.items) to_params_refusal
        (with_value (Ok values.old.items) meaning) ⊤ result }
    ensures value { IfErr result (λ error.
        error ≢ ToParamsError.Value (to_value.Memory alloc_error)) }
{
    let value = answer?;
    values.push(value)?;
    Ok(())
}
