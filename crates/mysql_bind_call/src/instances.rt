//! The calls for one kind of what is given and one purpose. Each is [`bind`](crate::bind), and its
//! error has only the refusals of that purpose.

mod errors;
mod fragments;
mod pairs;
mod texts;
mod values;

pub use fragments::{
    bind_fragments, bind_fragments_anywhere, bind_fragments_in, bind_fragments_in_any_mode,
};
use mysql_steady_text::purpose::{Portability, Purpose, Scope};
pub use pairs::{
    bind_pairs, bind_pairs_anywhere, bind_pairs_in_any_mode, bind_pairs_in_both_modes,
};
pub use texts::{
    bind_text, bind_text_anywhere, bind_text_in, bind_text_in_any_mode, bind_text_in_both_modes,
};
pub use values::{
    bind_values, bind_values_anywhere, bind_values_in_any_mode, bind_values_in_both_modes,
};

// Any connection to one server.
const IN_ANY_MODE: Purpose = Purpose {
    scope: Scope::AnyConnection,
    portability: Portability::Any,
    wide_names: false,
};
