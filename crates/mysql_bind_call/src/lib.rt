//! One call that binds: a query, what is given to its places, and a purpose.
//!
//! [`bind`] writes the text of a query for a [`Purpose`]: the connections, the servers and clients
//! that read it alike, and the names that are read in it. What is given is a [`GiveValues`]:
//! parameters, pairs, values by position, a sorted map, or fragments.
#![tactic(auto)]

mod appended;
mod borrowed_values;
mod ends;
mod errors;
mod fragments;
mod given;
mod instances;
pub mod laws;
mod one_call;
mod refusal;
mod room;
mod values;

pub use appended::append;
pub use given::BorrowedGiven;
pub use instances::{
    bind_fragments, bind_fragments_anywhere, bind_fragments_in, bind_fragments_in_any_mode,
    bind_pairs, bind_pairs_anywhere, bind_pairs_in_any_mode, bind_pairs_in_both_modes, bind_text,
    bind_text_anywhere, bind_text_in, bind_text_in_any_mode, bind_text_in_both_modes, bind_values,
    bind_values_anywhere, bind_values_in_any_mode, bind_values_in_both_modes,
};
pub use mysql_steady_text::purpose::{Portability, Purpose, QueryRefusal, Scope};
pub use one_call::bind;
pub use refusal::BindRefusal;
pub use room::bind_into;
pub use values::{ByPosition, GiveValues};
