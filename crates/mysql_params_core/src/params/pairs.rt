//! Named parameters from pairs of a name and an argument.
ghost use Rattle.std.specs.Prelude.{◌≡◌, ◌≢◌, ◌⊎◌, ℕ, List, None, Some, Ok, map, IfErr, alloc_error, string_bytes, ⊤};
ghost use Rattle.mysql_wire_part.specs.Answer.{IsAnswer};
ghost use Rattle.mysql_value_core.specs.declared.value.convert.ToValueError.TheVariants as to_value;
ghost use Rattle.mysql_values.specs.ValueOf.{Meaning, MeansBytes, too_long_duration};
ghost use Rattle.mysql_params_core.specs.Errors.{to_params_refusal};
ghost use Rattle.mysql_params_core.specs.Given.{given, value_map};
ghost use Rattle.mysql_params_core.specs.Made.{pairs_made, redefined, with_new, with_pair};

use crate::params::entries::has_name;
use crate::params::{Params, ToParamsError};
use mysql_values::value::Value;
use mysql_values::value::convert::{ToValue, ToValueError};
use std::alloc::Global;
use std::collections::HashMap;

/// A type that names a parameter.
pub trait ToName {
    // the bytes of the name
    ghost name: { Self → List ℕ };

    /// The bytes of the name.
    fn name_bytes(&self) -> &[u8]
        ensures { result.now ≡ name self.now };
}

impl ToName for &[u8] {
    ghost name = { λ bytes. bytes.now };

    fn name_bytes(&self) -> &[u8] {
        *self
    }
}

impl ToName for Vec<u8> {
    ghost name = { λ bytes. bytes.items };

    fn name_bytes(&self) -> &[u8] {
        self.as_slice()
    }
}

impl ToName for &str {
    ghost name = { λ text. text.now };

    fn name_bytes(&self) -> &[u8] {
        self.as_bytes()
    }
}

impl ToName for String {
    ghost name = { string_bytes };

    fn name_bytes(&self) -> &[u8] {
        self.as_str().as_bytes()
    }
}

impl Params {
    /// Makes named parameters of pairs, in order. A pair with the name of an earlier pair is
    /// refused as `Redefined` with that name, and its argument isn't converted. An argument that
    /// has no value is refused as `Value`. The call stops at the first refusal. No pairs make an
    /// empty map. `Memory` can come in place of any other result.
    pub fn from_pairs<N: ToName, V: ToValue>(
        alloc: Global,
        pairs: &[(N, V)],
    ) -> Result<Params, ToParamsError>
        ensures made { IsAnswer given to_params_refusal
            (pairs_made (map (λ pair. (N.name pair.0, V.value_of pair.1)) pairs.now)) ⊤ result }
        ensures value { IfErr result (λ error.
            error ≢ ToParamsError.Value (to_value.Memory alloc_error)) }
    {
        let mut entries = HashMap::new(alloc);
        for pair in pairs {
            insert_pair(alloc, &mut entries, pair.0.name_bytes(), &pair.1)?;
        }
        Ok(Params::Named(entries))
    }

    /// The same for arguments of several types, as objects.
    pub fn from_objects(
        alloc: Global,
        pairs: &[(&[u8], &dyn ToValue)],
    ) -> Result<Params, ToParamsError>
        ensures made { IsAnswer given to_params_refusal
            (pairs_made (map (λ pair. (pair.0.now, value_of pair.1.now)) pairs.now)) ⊤ result }
        ensures value { IfErr result (λ error.
            error ≢ ToParamsError.Value (to_value.Memory alloc_error)) }
    {
        let mut entries = HashMap::new(alloc);
        for pair in pairs {
            insert_object_pair(alloc, &mut entries, pair.0, pair.1)?;
        }
        Ok(Params::Named(entries))
    }
}

// Inserts the value of an argument under its name. The name is refused if it is already in the map.
pub(crate) fn insert_pair<V: ToValue>(
    alloc: Global,
    entries: &mut HashMap<Vec<u8>, Value>,
    name: &[u8],
    argument: &V,
) -> Result<(), ToParamsError>
    ensures made { IsAnswer (λ _. value_map entries.new.entries) to_params_refusal
        (with_pair (Ok (value_map entries.old.entries))
        (name.now, V.value_of argument.now)) ⊤ result }
    ensures value { IfErr result (λ error.
        error ≢ ToParamsError.Value (to_value.Memory alloc_error)) }
{
    if has_name(entries, name) {
        return Err(redefined_error(alloc, name));
    }
    insert_new(alloc, entries, name, argument.to_value(alloc))
}

// The same for an object, only through its interface.
fn insert_object_pair(
    alloc: Global,
    entries: &mut HashMap<Vec<u8>, Value>,
    name: &[u8],
    object: &dyn ToValue,
) -> Result<(), ToParamsError>
    ensures made { IsAnswer (λ _. value_map entries.new.entries) to_params_refusal
        (with_pair (Ok (value_map entries.old.entries)) (name.now, value_of object.now)) ⊤ result }
    ensures value { IfErr result (λ error.
        error ≢ ToParamsError.Value (to_value.Memory alloc_error)) }
{
    if has_name(entries, name) {
        return Err(redefined_error(alloc, name));
    }
    insert_new(alloc, entries, name, object.to_value(alloc))
}

// The refusal of a name that is already in the map, or out of memory.
fn redefined_error(alloc: Global, name: &[u8]) -> ToParamsError
    ensures refused { (to_params_refusal result ≡ None)
        ⊎ (to_params_refusal result ≡ Some (redefined name.now)) }
    ensures value { result ≢ ToParamsError.Value (to_value.Memory alloc_error) }
{
    match Vec::from_slice(alloc, name) {
        Ok(name) => ToParamsError::Redefined(name),
        Err(error) => ToParamsError::Memory(error),
    }
}

// Inserts the value that an argument returned, under a new name. The caller says which value the
// argument has.
fn insert_new(
    alloc: Global,
    entries: &mut HashMap<Vec<u8>, Value>,
    name: &[u8],
    answer: Result<Value, ToValueError>,
) -> Result<(), ToParamsError>
    ensures made { (meaning : Meaning) →
        IsAnswer (λ value. value) too_long_duration meaning (MeansBytes meaning) answer →
        IsAnswer (λ _. value_map entries.new.entries) to_params_refusal
        (with_new (value_map entries.old.entries) name.now meaning) ⊤ result }
    ensures value { IfErr result (λ error.
        error ≢ ToParamsError.Value (to_value.Memory alloc_error)) }
{
    let value = answer?;
    let name = Vec::from_slice(alloc, name)?;
    entries.insert(name, value)?;
    Ok(())
}
