//! What the clients `mysql` and `mariadb` send of a text.
//!
//! A client is a function here: `sends` of the definition Sends.antt gives the statements that it
//! sends of a text. The [`laws`] say what follows of a text in which
//! `mysql_portable::client::first_unportable_in_client` finds nothing. There is no code.
#![tactic(auto)]

pub mod laws;
