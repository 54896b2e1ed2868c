//! The program, with its commands `names` and `bind`, over any reader and writer.
//!
//! [`words_of`] gives the words of the command line. [`run`] checks them and reads the whole input.
//! Then it writes the whole output or refuses.
#![tactic(auto)]

mod arguments;
pub mod laws;
mod program;
mod run_error;
mod words;

pub use arguments::words_of;
pub use program::run;
pub use run_error::RunError;
