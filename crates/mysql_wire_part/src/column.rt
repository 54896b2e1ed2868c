//! Types and flags of columns.
ghost use Rattle.std.specs.Prelude.{⊤, [], ◌∷◌, codes};
ghost use Rattle.mysql_wire_part.specs.Column.{flag_bits, unsigned_flag};

use bitflags::{Flag, Flags, bitflag_items};

/// The type of a column, by "Protocol::ColumnType" of the MySQL client/server protocol.
#[derive(Clone, Copy, Debug, PartialEq, Eq)]
pub enum ColumnType {
    MYSQL_TYPE_DECIMAL,
    MYSQL_TYPE_TINY,
    MYSQL_TYPE_SHORT,
    MYSQL_TYPE_LONG,
    MYSQL_TYPE_FLOAT,
    MYSQL_TYPE_DOUBLE,
    MYSQL_TYPE_NULL,
    MYSQL_TYPE_TIMESTAMP,
    MYSQL_TYPE_LONGLONG,
    MYSQL_TYPE_INT24,
    MYSQL_TYPE_DATE,
    MYSQL_TYPE_TIME,
    MYSQL_TYPE_DATETIME,
    MYSQL_TYPE_YEAR,
    MYSQL_TYPE_NEWDATE,
    MYSQL_TYPE_VARCHAR,
    MYSQL_TYPE_BIT,
    MYSQL_TYPE_TIMESTAMP2,
    MYSQL_TYPE_DATETIME2,
    MYSQL_TYPE_TIME2,
    MYSQL_TYPE_TYPED_ARRAY,
    MYSQL_TYPE_VECTOR,
    MYSQL_TYPE_UNKNOWN,
    MYSQL_TYPE_JSON,
    MYSQL_TYPE_NEWDECIMAL,
    MYSQL_TYPE_ENUM,
    MYSQL_TYPE_SET,
    MYSQL_TYPE_TINY_BLOB,
    MYSQL_TYPE_MEDIUM_BLOB,
    MYSQL_TYPE_LONG_BLOB,
    MYSQL_TYPE_BLOB,
    MYSQL_TYPE_VAR_STRING,
    MYSQL_TYPE_STRING,
    MYSQL_TYPE_GEOMETRY,
}

/// Flags of a column, by "Column Definition Flags" of the MySQL client/server protocol. Bits that
/// have no name here are kept.
#[derive(Clone, Copy, Debug, PartialEq, Eq)]
pub struct ColumnFlags(u16);

bitflag_items! {
    impl ColumnFlags: u16 {
        const UNSIGNED_FLAG = 32;
    }
}

impl Flags for ColumnFlags {
    type Bits = u16;

    ghost exact = { ⊤ };

    ghost table = { (codes "UNSIGNED_FLAG", unsigned_flag) ∷ [] };

    ghost set_of = { flag_bits };

    fn flags<'a>() -> &'a [Flag<ColumnFlags>] {
        ColumnFlags::FLAGS
    }

    fn bits(&self) -> u16 {
        self.0
    }

    fn from_bits_retain(bits: u16) -> ColumnFlags {
        ColumnFlags(bits)
    }
}
