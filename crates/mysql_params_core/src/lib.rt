//! Named and positional parameters of MySQL queries: the arguments that they are made from, and the
//! values that they give to the names of a query.
#![tactic(auto)]

pub mod laws;
pub mod params;
