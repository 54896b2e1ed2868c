//! Values of the MySQL client/server protocol.
#![tactic(auto)]

pub mod bytes;
pub mod laws;
pub mod show;
pub mod value;
