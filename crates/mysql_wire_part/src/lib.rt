//! The parts of the wire protocol that MySQL values need. They are a buffer that is read from its
//! front, length-encoded strings, types and flags of columns, and the traits for writing and
//! reading.
#![tactic(auto)]

mod codec;
mod column;
mod error;
pub mod laws;
mod lenenc;
mod parse_buf;

pub use crate::codec::{MyDeserialize, MySerialize};
pub use crate::column::{ColumnFlags, ColumnType};
pub use crate::error::WireError;
pub use crate::lenenc::{fill_lenenc_str, lenenc_str_len, put_lenenc_str};
pub use crate::parse_buf::ParseBuf;

// The capabilities of `ColumnFlags`, such as `contains`.
pub use bitflags::Flags;
