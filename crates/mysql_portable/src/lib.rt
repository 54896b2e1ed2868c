//! Finds constructs of MySQL queries that servers, clients, modes or character sets read in
//! different ways.
//!
//! A query is bytes. [`portable`] finds the first construct that servers read in different ways.
//! [`client`] also finds constructs that a client reads or sends differently. [`steady`] finds the
//! first byte that a mode or a character set may read differently. `mysql_params` re-exports all
//! three and the laws. [`clear`] is a quick test of a query, for the crate above.
#![tactic(auto)]

pub mod clear;
pub mod client;
mod jumps;
pub mod laws;
mod no_construct;
mod nothing_in_quotes;
pub mod portable;
pub mod steady;
pub mod wide;
