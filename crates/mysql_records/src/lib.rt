//! Records of text: CSV, TSV, and the formats that MySQL servers and clients write.
#![tactic(auto)]

mod fault;
mod fields;
mod format;
pub mod laws;
mod lent;
mod pieces;
mod record;
mod rows;

pub use fault::{Fault, FaultKind, RecordError};
pub use format::RecordFormat;
pub use lent::LentField;
pub use record::{Field, Record, first_record, first_record_into};
pub use rows::{Row, all_rows};
