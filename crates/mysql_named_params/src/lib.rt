//! The tokens of MySQL queries, and their named and positional parameters.
//!
//! A query is bytes. [`named_params`] finds the names and marks outside its strings, quoted
//! identifiers and comments. `mysql_params` re-exports it, and the laws. The other modules are for
//! the crates above.
#![tactic(auto)]

mod ends;
pub mod lanes;
pub mod laws;
pub mod lowered;
pub mod named_params;
pub mod places;
pub mod tokens;
