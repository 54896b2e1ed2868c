//! Values of the MySQL client/server protocol: all of `mysql_value_core`, re-exported by name, and
//! conversions of values that can be undone.
#![tactic(auto)]

pub mod bytes;
pub mod laws;
pub mod show;
pub mod value;
