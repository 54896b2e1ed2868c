//! Bytes that a value holds, re-exported.
pub use mysql_value_core::bytes::Bytes;
