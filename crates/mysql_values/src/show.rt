//! Bytes as text, re-exported.
pub use mysql_value_core::show::Shown;
