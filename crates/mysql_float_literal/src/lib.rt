//! Doubles as numbers in SQL text that read back as the same double.
//!
//! [`Double`] is a finite double with its number. `specs/` defines the shape of such a number, its
//! digits, and how it is read.
#![tactic(auto)]

mod closest;
mod compare;
mod double;
pub mod laws;
mod literal;
mod quick;
mod shortest;
mod start;
mod wide;
mod write;

pub use double::Double;
