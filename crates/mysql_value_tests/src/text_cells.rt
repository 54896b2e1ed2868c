//! Values of rows in text form.
use crate::shared::Plain::{Bytes, Null};
use crate::shared::{Plain, answer_of, bytes, same_in, value_refs, values};
use mysql_values::value::{
    TextValue, ValueDeserializer, ValueRef, read_text_cell, read_text_cells, read_text_cells_into,
};
use mysql_wire_part::{MyDeserialize, ParseBuf, WireError};

// Bytes, the cells in front of them, and what is left.
const ROWS: &[(&[u8], &[Plain], &[u8])] = &[
    (
        &[1, 49, 1, 50, 1, 51, 251, 1, 52, 1, 53, 251, 1, 55],
        &[
            Bytes(b"1"),
            Bytes(b"2"),
            Bytes(b"3"),
            Null,
            Bytes(b"4"),
            Bytes(b"5"),
            Null,
            Bytes(b"7"),
        ],
        &[],
    ),
    // A length in more bytes than it needs, and an empty string, which isn't NULL.
    (&[0xFC, 1, 0, 0x41, 0, 7], &[Bytes(b"A"), Bytes(b"")], &[7]),
    (&[0xFC, 1, 0, 0x41], &[Bytes(b"A")], &[]),
    (&[7], &[], &[7]),
];

#[test]
fn rows(rt: HostRuntime) {
    for (input, cells, left) in ROWS {
        let wanted = values(&rt, rt.alloc(), *cells);
        let mut buf = ParseBuf(*input);
        let row = answer_of(&rt, read_text_cells(rt.alloc(), &mut buf, cells.len()));
        same_in(
            &rt,
            (row.as_slice(), buf.0),
            (wanted.as_slice(), *left),
            input,
        );
    }
}

// One vector serves all rows, and keeps its room.
#[test]
fn text_rows_in_one_vector(rt: HostRuntime) {
    let mut cells = answer_of(&rt, Vec::with_capacity(rt.alloc(), 8));
    for (input, plain, left) in ROWS {
        let wanted = value_refs(&rt, rt.alloc(), *plain);
        let mut buf = ParseBuf(*input);
        answer_of(&rt, read_text_cells_into(&mut buf, plain.len(), &mut cells));
        let found = (cells.as_slice(), buf.0, cells.capacity());
        same_in(&rt, found, (wanted.as_slice(), *left, 8), input);
    }
}

// Bytes that begin with fewer cells, and the refusal of the first that is none.
const REFUSED: &[(&[u8], usize, WireError)] = &[
    // The second cell ends too early.
    (&[1, 0x31, 2, 0x32], 2, WireError::UnexpectedEof),
    (&[], 1, WireError::UnexpectedEof),
    (&[0xFC, 1], 1, WireError::UnexpectedEof),
    (&[0xFD, 1, 0], 1, WireError::UnexpectedEof),
    (
        &[0xFE, 255, 255, 255, 255, 255, 255, 255, 255, 0x41],
        1,
        WireError::UnexpectedEof,
    ),
    (&[0xFB], usize::MAX, WireError::UnexpectedEof),
    (&[0xFB, 0], usize::MAX, WireError::UnexpectedEof),
    (&[0xFF], 1, WireError::BadLengthLead(255)),
    (&[0xFB, 0xFF, 1], 3, WireError::BadLengthLead(255)),
];

#[test]
fn refused_text_rows_leave_the_buffer(rt: HostRuntime) {
    for (input, count, error) in REFUSED {
        let mut buf = ParseBuf(*input);
        let refusal = read_text_cells(rt.alloc(), &mut buf, *count).err();
        same_in(&rt, (refusal.as_ref(), buf.0), (Some(error), *input), input);
    }
}

#[test]
fn refused_rows_in_a_vector_leave_the_buffer(rt: HostRuntime) {
    for (input, count, error) in REFUSED {
        let mut buf = ParseBuf(*input);
        let mut cells = Vec::new(rt.alloc());
        let refusal = read_text_cells_into(&mut buf, *count, &mut cells).err();
        same_in(&rt, (refusal.as_ref(), buf.0), (Some(error), *input), input);
    }
}

#[test]
fn single_cell(rt: HostRuntime) {
    let mut buf = ParseBuf(b"\x02ab*\xFF");
    let cell = ValueDeserializer::<TextValue>::deserialize(rt.alloc(), (), &mut buf);
    let found = answer_of(&rt, cell).0;
    let wanted = bytes(&rt, rt.alloc(), b"ab");
    same_in(&rt, (&found, buf.0), (&wanted, b"*\xFF"), &"a cell");
}

#[test]
fn borrowed_cells(rt: HostRuntime) {
    let mut buf = ParseBuf(b"\x02ab\xFB\xFF");
    let bytes = read_text_cell(&mut buf).ok();
    same_in(&rt, bytes, Some(ValueRef::Bytes(b"ab")), &"a cell");
    let null = read_text_cell(&mut buf).ok();
    same_in(&rt, null, Some(ValueRef::NULL), &"a cell of NULL");
    let refusal = read_text_cell(&mut buf).err();
    let wanted = Some(WireError::BadLengthLead(255));
    same_in(
        &rt,
        (refusal.as_ref(), buf.0),
        (wanted.as_ref(), b"\xFF"),
        &"no cell",
    );
}
