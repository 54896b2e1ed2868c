//! Values, re-exported, and their conversions.
pub mod convert;

pub use mysql_value_core::value::{
    AsSqlError, BinValue, BinaryRowError, ClientSide, NullBitmap, SerializationSide, ServerSide,
    TextValue, Value, ValueDeserializer, ValueRef, read_binary_cells_into, read_binary_value,
    read_null_bitmap, read_text_cell, read_text_cells, read_text_cells_into,
};
