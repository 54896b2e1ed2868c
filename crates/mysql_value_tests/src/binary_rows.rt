//! Rows in binary form.
use crate::shared::Plain::{Bytes, Date, Double, Float, Int, Null, Time};
use crate::shared::{Plain, answer_of, same_in, value_ref, value_refs};
use mysql_values::value::{
    BinaryRowError, NullBitmap, ValueRef, read_binary_cells_into, read_binary_value,
    read_null_bitmap,
};
use mysql_wire_part::ColumnType::*;
use mysql_wire_part::{ColumnFlags, ColumnType, Flags, ParseBuf, WireError};
use std::alloc::Global;
use std::process::Abort;

const TINIES: &[ColumnType] = &[
    MYSQL_TYPE_TINY,
    MYSQL_TYPE_TINY,
    MYSQL_TYPE_TINY,
    MYSQL_TYPE_TINY,
    MYSQL_TYPE_TINY,
    MYSQL_TYPE_TINY,
    MYSQL_TYPE_TINY,
    MYSQL_TYPE_TINY,
    MYSQL_TYPE_TINY,
];

// Types of columns, bytes, the cells in front of them, and what is left.
const ROWS: &[(&[ColumnType], &[u8], &[Plain], &[u8])] = &[
    // The example of the protocol's manual at COM_STMT_EXECUTE.
    (
        &[MYSQL_TYPE_VAR_STRING],
        &[0, 0, 6, 0x66, 0x6F, 0x6F, 0x62, 0x61, 0x72],
        &[Bytes(b"foobar")],
        &[],
    ),
    // The manual's bitmap of nine columns of which the ninth is NULL.
    (
        TINIES,
        &[0, 0, 4, 1, 2, 3, 4, 5, 6, 7, 8],
        &[
            Int(1),
            Int(2),
            Int(3),
            Int(4),
            Int(5),
            Int(6),
            Int(7),
            Int(8),
            Null,
        ],
        &[],
    ),
    // The manual's values.
    (
        &[
            MYSQL_TYPE_LONGLONG,
            MYSQL_TYPE_DOUBLE,
            MYSQL_TYPE_FLOAT,
            MYSQL_TYPE_DATETIME,
            MYSQL_TYPE_TIME,
        ],
        &[
            0, 0, 1, 0, 0, 0, 0, 0, 0, 0, 0x66, 0x66, 0x66, 0x66, 0x66, 0x66, 0x24, 0x40, 0x33,
            0x33, 0x23, 0x41, 0x0B, 0xDA, 7, 0x0A, 0x11, 0x13, 0x1B, 0x1E, 1, 0, 0, 0, 0x0C, 1,
            0x78, 0, 0, 0, 0x13, 0x1B, 0x1E, 1, 0, 0, 0,
        ],
        &[
            Int(1),
            Double(0x4024_6666_6666_6666),
            Float(0x4123_3333),
            Date(2010, 10, 17, 19, 27, 30, 1),
            Time(true, 120, 19, 27, 30, 1),
        ],
        &[],
    ),
    // NULL has no bytes, of whatever type its column is; what follows the row is left.
    (
        &[
            MYSQL_TYPE_LONG,
            MYSQL_TYPE_TIMESTAMP2,
            MYSQL_TYPE_VAR_STRING,
        ],
        &[0, 0b0000_1100, 3, 0x66, 0x6F, 0x6F, 0x2A],
        &[Null, Null, Bytes(b"foo")],
        &[0x2A],
    ),
    // Six columns have one byte, and seven two.
    (
        &[
            MYSQL_TYPE_NULL,
            MYSQL_TYPE_NULL,
            MYSQL_TYPE_NULL,
            MYSQL_TYPE_NULL,
            MYSQL_TYPE_NULL,
            MYSQL_TYPE_TINY,
        ],
        &[0, 0x80],
        &[Null, Null, Null, Null, Null, Null],
        &[],
    ),
    (
        &[
            MYSQL_TYPE_NULL,
            MYSQL_TYPE_NULL,
            MYSQL_TYPE_NULL,
            MYSQL_TYPE_NULL,
            MYSQL_TYPE_NULL,
            MYSQL_TYPE_TINY,
            MYSQL_TYPE_TINY,
        ],
        &[0, 0, 1, 9],
        &[Null, Null, Null, Null, Null, Int(9), Null],
        &[],
    ),
    // No bit but that of the column is looked at.
    (&[MYSQL_TYPE_TINY], &[0, 0b1111_1011, 5], &[Int(5)], &[]),
    // A row of no columns has a bitmap too.
    (&[], &[0, 0], &[], &[]),
];

// Columns of these types, with signs.
fn columns(rt: &impl Abort, alloc: Global, types: &[ColumnType]) -> Vec<(ColumnType, ColumnFlags)> {
    let mut columns = Vec::new(alloc);
    for column in types {
        answer_of(
            rt,
            columns.push((*column, ColumnFlags::from_bits_retain(0))),
        );
    }
    columns
}

// One vector serves all rows, and keeps its room.
#[test]
fn binary_rows_in_one_vector(rt: HostRuntime) {
    let mut cells = answer_of(&rt, Vec::with_capacity(rt.alloc(), 9));
    for (types, input, plain, left) in ROWS {
        let columns = columns(&rt, rt.alloc(), *types);
        let wanted = value_refs(&rt, rt.alloc(), *plain);
        let mut buf = ParseBuf(*input);
        answer_of(&rt, read_binary_cells_into(&columns, &mut buf, &mut cells));
        let found = (cells.as_slice(), buf.0, cells.capacity());
        same_in(&rt, found, (wanted.as_slice(), *left, 9), input);
    }
}

#[test]
fn cells_without_a_vector(rt: HostRuntime) {
    for (types, input, plain, left) in ROWS {
        let columns = columns(&rt, rt.alloc(), *types);
        let mut buf = ParseBuf(*input);
        let bitmap = answer_of(&rt, read_null_bitmap(columns.len(), &mut buf));
        for (i, wanted) in plain.iter().enumerate() {
            let found = cell(bitmap, i, &columns, &mut buf);
            same_in(&rt, found, Some(value_ref(*wanted)), input);
        }
        let past = NullBitmap::is_null(bitmap, usize::MAX);
        same_in(&rt, (past, buf.0), (false, *left), input);
    }
}

// The cell of the column of this index, if it can be read.
fn cell<'b>(
    bitmap: NullBitmap<'b>,
    i: usize,
    columns: &[(ColumnType, ColumnFlags)],
    buf: &mut ParseBuf<'b>,
) -> Option<ValueRef<'b>> {
    if bitmap.is_null(i) {
        return Some(ValueRef::NULL);
    }
    let (column, flags) = *columns.get(i)?;
    read_binary_value(column, flags, buf).ok()
}

// Types of columns, bytes that begin with no row of these, and why.
const REFUSED: &[(&[ColumnType], &[u8], BinaryRowError)] = &[
    (TINIES, &[], BinaryRowError::Wire(WireError::UnexpectedEof)),
    // The packets that end the rows and that break them off.
    (
        &[MYSQL_TYPE_TINY],
        &[0xFE, 0, 0, 2, 0],
        BinaryRowError::BadHeader(254),
    ),
    (
        &[MYSQL_TYPE_TINY],
        &[0xFF, 0x48, 4],
        BinaryRowError::BadHeader(255),
    ),
    (&[], &[1, 0], BinaryRowError::BadHeader(1)),
    // The bitmap ends too early.
    (&[], &[0], BinaryRowError::Wire(WireError::UnexpectedEof)),
    (
        TINIES,
        &[0, 0],
        BinaryRowError::Wire(WireError::UnexpectedEof),
    ),
    // A value is missing, ends too early, has no length, or is of a type that isn't read.
    (
        TINIES,
        &[0, 0, 0, 1, 2, 3, 4, 5, 6, 7, 8],
        BinaryRowError::Wire(WireError::UnexpectedEof),
    ),
    (
        &[MYSQL_TYPE_TINY, MYSQL_TYPE_BLOB],
        &[0, 0, 1, 2, 0x41],
        BinaryRowError::Wire(WireError::UnexpectedEof),
    ),
    (
        &[MYSQL_TYPE_TINY, MYSQL_TYPE_BLOB],
        &[0, 0, 1, 0xFB],
        BinaryRowError::Wire(WireError::BadLengthLead(251)),
    ),
    (
        &[MYSQL_TYPE_TINY, MYSQL_TYPE_TIME2],
        &[0, 0, 1, 0],
        BinaryRowError::Wire(WireError::UnsupportedColumn(MYSQL_TYPE_TIME2)),
    ),
];

#[test]
fn refused_binary_rows_leave_the_buffer(rt: HostRuntime) {
    for (types, input, error) in REFUSED {
        let columns = columns(&rt, rt.alloc(), *types);
        let mut cells = Vec::new(rt.alloc());
        let mut buf = ParseBuf(*input);
        let refusal = read_binary_cells_into(&columns, &mut buf, &mut cells).err();
        same_in(&rt, (refusal.as_ref(), buf.0), (Some(error), *input), input);
    }
}
