//! Reads whole inputs from any reader, and writes whole outputs to any writer.
//!
//! [`read_whole`](readers_and_writers::read_whole) reads to the end.
//! [`write_whole`](readers_and_writers::write_whole) writes the whole text. `specs/` says in which
//! state they leave a reader and a writer.
#![tactic(auto)]

pub mod readers_and_writers;
