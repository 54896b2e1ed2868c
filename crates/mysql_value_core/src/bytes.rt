//! Bytes that a value holds.
pub use crate::value::Bytes;
