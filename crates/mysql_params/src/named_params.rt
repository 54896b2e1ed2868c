//! Queries with named parameters: re-exported by name from `mysql_named_params`.
pub use mysql_named_params::named_params::{MixedParamsError, NamedParamsError, ParsedNamedParams};
