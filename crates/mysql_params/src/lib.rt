//! Named and positional parameters of MySQL queries: the crate for users, which re-exports the
//! others by name.
//!
//! A query is bytes. [`named_params`] finds the names and marks outside its strings, quoted
//! identifiers and comments. [`params`] has the parameters, and [`bind_text`] puts the literals of
//! their values in the places of names and marks. [`bind_text_in`] does so in either mode of
//! backslashes. A [`ParsedQuery`] is parsed once and bound many times.
//!
//! [`bind_text_anywhere`] gives text that is read the same in every mode and over every character
//! set. [`bind_text_in_both_modes`] takes a query that may hold bytes from 128 on, and gives text
//! that is read the same in every mode. [`bind_pairs`] and [`bind_values`] take borrowed names and
//! values, and each of these calls has two such calls beside it.
//!
//! [`bind`] is one call for all of this, and for names with capitals. A [`Purpose`] says for which
//! connections, servers and clients the text is, and which names are read. It binds parameters,
//! pairs, values by position, a sorted map, or fragments.
//!
//! [`bind_text_guarded`] writes text that has the connection's collation. In each mode, and over
//! each character set of a client, no value leaves its literal.
//!
//! Before a query is bound, [`first_unportable`] finds the first construct that servers read in
//! different ways, or in which a value would join a number. [`first_unportable_in_client`] also
//! finds constructs that the client `mysql` or `mariadb` reads or sends in another way.
//! [`first_unsteady`] finds the first byte that may be read in another way in a mode or over a
//! character set.
//!
//! If the query is a constant, [`fixed_query`] binds it, and the only error is out of memory.
//! [`run`] is the program, with its commands `names` and `bind`, for any reader and writer, and
//! [`words_of`] gives its words.
//!
//! [`fragments`] also binds lists, rows, exact numbers, doubles, identifiers, columns, assignments
//! and keywords, and makes them from arguments.
#![tactic(auto)]

pub mod fixed_query;
pub mod fragments;
pub mod laws;
pub mod named_params;
pub mod params;

pub use mysql_bind_call::{
    BindRefusal, ByPosition, Portability, Purpose, QueryRefusal, Scope, append, bind, bind_into,
    bind_pairs, bind_pairs_anywhere, bind_pairs_in_any_mode, bind_pairs_in_both_modes, bind_text,
    bind_text_anywhere, bind_text_in, bind_text_in_any_mode, bind_text_in_both_modes, bind_values,
    bind_values_anywhere, bind_values_in_any_mode, bind_values_in_both_modes,
};
pub use mysql_binding::{BindError, BindPairsError, ParsedQuery, TextInRoom, WideQuery};
pub use mysql_named_params::places::Reading;
pub use mysql_portable::client::first_unportable_in_client;
pub use mysql_portable::portable::{Construct, Unportable, first_unportable};
pub use mysql_portable::steady::first_unsteady;
pub use mysql_portable::wide::{first_unportable_in, first_unportable_in_client_in};
pub use mysql_query_core::{RunError, run, words_of};
pub use mysql_steady_text::{
    BothModesError, BothModesPairsError, SteadyPairsError, SteadyTextError, bind_text_guarded,
};
