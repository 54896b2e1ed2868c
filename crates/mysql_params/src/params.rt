//! Parameters of queries, the things that make them, and the values that they give: the public part
//! of `mysql_params_core::params`, re-exported by name.

pub use mysql_params_core::params::{
    IntoPositionalError, MissingNamedParameterError, NamedPairs, Params, ParamsConfusionError,
    ParamsError, ToName, ToPairs, ToParams, ToParamsError,
};
