//! Queries that are constants and proved bindable: all of `mysql_fixed_query`, re-exported by name.
pub use mysql_fixed_query::{
    bind_named, bind_named_for, bind_named_in, bind_positional, bind_positional_for,
    bind_positional_in,
};
