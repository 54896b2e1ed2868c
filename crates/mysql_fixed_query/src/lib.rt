//! Fixed queries: constants of a program that are proved bindable. `specs/Bindable.antt` defines
//! the facts that the prover computes about such a query. The only error of binding it is then out
//! of memory.
//!
//! [`bind_named_for`] takes values by name, and [`bind_positional_for`] by position, for any
//! [`Purpose`](mysql_steady_text::purpose::Purpose). [`bind_named_in`] and [`bind_positional_in`]
//! do so for one mode, and [`bind_named`] and [`bind_positional`] for the mode in which a backslash
//! escapes.
#![tactic(auto)]

mod by_name;
mod by_position;
mod made;

pub use by_name::{bind_named, bind_named_for, bind_named_in};
pub use by_position::{bind_positional, bind_positional_for, bind_positional_in};
