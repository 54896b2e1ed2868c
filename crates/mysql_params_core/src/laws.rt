//! Laws about the definitions that the contracts cite, and about equality. A function without a
//! result does nothing: it is called for its `ensures`.
ghost use Rattle.std.specs.Prelude.{◌≡◌, ◌↔◌, IsTrue};
ghost use Rattle.mysql_params_core.specs.Errors.{AreEqualToParamsErrors, AreEqualParamsErrors, AreEqualPositionalErrors};
ghost use Rattle.mysql_params_core.specs.Given.{given};
ghost use Rattle.mysql_params_core.specs.Lookup.{LookupsAgree};
ghost use Rattle.mysql_params_core.specs.Names.{PrefixesAreFound};

use crate::params::{
    IntoPositionalError, MissingNamedParameterError, Params, ParamsConfusionError, ParamsError,
    ToParamsError,
};

/// Parameters are equal if and only if their variants are equal, and their list or map.
pub fn params_equality(a: &Params, b: &Params) -> bool
    ensures same { IsTrue result ↔ (given a.now ≡ given b.now) }
    ensures member { result ≡ ⟦<Params as PartialEq>⟧.eq a.now b.now }
{
    a == b
}

/// Errors of a missing name are equal if and only if the names are equal.
pub fn missing_named_parameter_error_equality(
    a: &MissingNamedParameterError,
    b: &MissingNamedParameterError,
) -> bool
    ensures same { IsTrue result ↔ (a.now.0.items ≡ b.now.0.items) }
    ensures member { result ≡ ⟦<MissingNamedParameterError as PartialEq>⟧.eq a.now b.now }
{
    a == b
}

/// Errors of the kind of parameters are equal if and only if the variants are equal.
pub fn params_confusion_error_equality(a: &ParamsConfusionError, b: &ParamsConfusionError) -> bool
    ensures same { IsTrue result ↔ (a.now ≡ b.now) }
    ensures member { result ≡ ⟦<ParamsConfusionError as PartialEq>⟧.eq a.now b.now }
{
    a == b
}

/// Errors of `into_values` are equal if and only if variant and field are equal.
pub fn params_error_equality(a: &ParamsError, b: &ParamsError) -> bool
    ensures same { IsTrue result ↔ AreEqualParamsErrors a.now b.now }
    ensures member { result ≡ ⟦<ParamsError as PartialEq>⟧.eq a.now b.now }
{
    a == b
}

/// Errors of `into_positional` are equal if and only if variant and field are equal.
pub fn into_positional_error_equality(a: &IntoPositionalError, b: &IntoPositionalError) -> bool
    ensures same { IsTrue result ↔ AreEqualPositionalErrors a.now b.now }
    ensures member { result ≡ ⟦<IntoPositionalError as PartialEq>⟧.eq a.now b.now }
{
    a == b
}

/// Errors of `to_params` are equal if and only if variant and field are equal.
pub fn to_params_error_equality(a: &ToParamsError, b: &ToParamsError) -> bool
    ensures same { IsTrue result ↔ AreEqualToParamsErrors a.now b.now }
    ensures member { result ≡ ⟦<ToParamsError as PartialEq>⟧.eq a.now b.now }
{
    a == b
}

/// For named parameters and a list with names, `into_values` and `into_positional` give the same
/// values, or both are refused.
pub fn lookups_agree()
    ensures agree { LookupsAgree }
{}

/// The names of a list that are in a map are found to be a prefix of the list if and only if their
/// indices are those below some count.
pub fn prefixes_are_found()
    ensures found { PrefixesAreFound }
{}
