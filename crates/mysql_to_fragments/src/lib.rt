//! Arguments of queries with fragments: they make items, rows, fragments, and fragments by name.
//!
//! [`ToFragments`] makes the fragments of a query from pairs of a name and an argument. An argument
//! is of a type that has a value, a wrapper of this crate, or of a type of the caller's own.
#![tactic(auto)]

mod assignments;
mod fragment;
mod item;
mod list;
mod nested;
mod pairs;
mod rows;
mod tuples;

pub use assignments::AssignmentsOf;
pub use fragment::{Identifier, Identifiers, Qualified, ToFragment, Word};
pub use item::{Decimal, DoubleOf, ToItem};
pub use list::ListOf;
pub use pairs::ToFragments;
pub use rows::{RowsOf, ToRow};
