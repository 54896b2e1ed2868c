//! Parameters of queries, the arguments that make them, and the values that they give.
ghost use Rattle.std.specs.Prelude.{◌≡◌, ◌≢◌, IfOk, OnErr};
ghost use Rattle.mysql_params_core.specs.Given.{given, empty};

mod borrowed;
mod entries;
mod errors;
mod lookup;
mod pair_tuples;
mod pairs;
mod row;
mod shown;
mod sorted_pairs;
mod to_params;
mod tuples;

pub use borrowed::{BorrowedParams, place_values};
pub use entries::{NameMap, NamedPairs, NamedValues, has_name};
pub use errors::{
    IntoPositionalError, MissingNamedParameterError, ParamsConfusionError, ParamsError,
    ToParamsError,
};
use mysql_values::value::Value;
pub use pair_tuples::ToPairs;
pub use pairs::ToName;
use std::alloc::AllocError;
use std::collections::HashMap;
pub use to_params::ToParams;

/// The parameters of a query: none, values by name, or values by position.
///
/// Two are equal if and only if their variants are equal, and their list or map. The order of
/// entries in a map doesn't count.
#[derive(PartialEq, Drop)]
pub enum Params {
    /// No parameters.
    Empty,
    /// Values by name. A name is bytes.
    Named(HashMap<Vec<u8>, Value>),
    /// Values by position.
    Positional(Vec<Value>),
}

impl Params {
    /// A copy of the parameters, on their own allocator. A copy of `Empty` allocates nothing.
    pub fn clone(&self) -> Result<Params, AllocError>
        ensures equal { IfOk result (λ copy. given copy ≡ given self.now) }
        ensures memory { OnErr result (given self.now ≢ empty) }
    {
        match self {
            Params::Empty => Ok(Params::Empty),
            Params::Named(entries) => Ok(Params::Named(entries.clone()?)),
            Params::Positional(values) => Ok(Params::Positional(values.clone()?)),
        }
    }
}
