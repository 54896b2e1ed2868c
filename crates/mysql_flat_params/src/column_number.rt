//! The numbers of column types.
ghost use Rattle.std.specs.Prelude.{◌≡◌};
ghost use Rattle.mysql_flat_params.specs.ColumnNumbers.{column_type};

use mysql_wire_part::ColumnType;

/// The column type with this number in the protocol; `None` if there is none.
pub fn column_type(number: u8) -> Option<ColumnType>
    ensures { result ≡ column_type number }
{
    match number {
        0 => Some(ColumnType::MYSQL_TYPE_DECIMAL),
        1 => Some(ColumnType::MYSQL_TYPE_TINY),
        2 => Some(ColumnType::MYSQL_TYPE_SHORT),
        3 => Some(ColumnType::MYSQL_TYPE_LONG),
        4 => Some(ColumnType::MYSQL_TYPE_FLOAT),
        5 => Some(ColumnType::MYSQL_TYPE_DOUBLE),
        6 => Some(ColumnType::MYSQL_TYPE_NULL),
        7 => Some(ColumnType::MYSQL_TYPE_TIMESTAMP),
        8 => Some(ColumnType::MYSQL_TYPE_LONGLONG),
        9 => Some(ColumnType::MYSQL_TYPE_INT24),
        10 => Some(ColumnType::MYSQL_TYPE_DATE),
        11 => Some(ColumnType::MYSQL_TYPE_TIME),
        12 => Some(ColumnType::MYSQL_TYPE_DATETIME),
        13 => Some(ColumnType::MYSQL_TYPE_YEAR),
        14 => Some(ColumnType::MYSQL_TYPE_NEWDATE),
        15 => Some(ColumnType::MYSQL_TYPE_VARCHAR),
        16 => Some(ColumnType::MYSQL_TYPE_BIT),
        17 => Some(ColumnType::MYSQL_TYPE_TIMESTAMP2),
        18 => Some(ColumnType::MYSQL_TYPE_DATETIME2),
        19 => Some(ColumnType::MYSQL_TYPE_TIME2),
        20 => Some(ColumnType::MYSQL_TYPE_TYPED_ARRAY),
        242 => Some(ColumnType::MYSQL_TYPE_VECTOR),
        243 => Some(ColumnType::MYSQL_TYPE_UNKNOWN),
        245 => Some(ColumnType::MYSQL_TYPE_JSON),
        246 => Some(ColumnType::MYSQL_TYPE_NEWDECIMAL),
        247 => Some(ColumnType::MYSQL_TYPE_ENUM),
        248 => Some(ColumnType::MYSQL_TYPE_SET),
        249 => Some(ColumnType::MYSQL_TYPE_TINY_BLOB),
        250 => Some(ColumnType::MYSQL_TYPE_MEDIUM_BLOB),
        251 => Some(ColumnType::MYSQL_TYPE_LONG_BLOB),
        252 => Some(ColumnType::MYSQL_TYPE_BLOB),
        253 => Some(ColumnType::MYSQL_TYPE_VAR_STRING),
        254 => Some(ColumnType::MYSQL_TYPE_STRING),
        255 => Some(ColumnType::MYSQL_TYPE_GEOMETRY),
        _ => None,
    }
}
