//! Values in binary form: as they are written.
use crate::shared::{Plain, answer_of, bytes, same_in, value, value_ref};
use mysql_values::value::{
    BinValue, ClientSide, SerializationSide, ServerSide, TextValue, ValueDeserializer,
};
use mysql_wire_part::{MyDeserialize, MySerialize};

// Values, and the bytes that they are written as.
const FORMS: &[(Plain, &[u8])] = &[
    (Plain::Null, &[]),
    (Plain::Bytes(b""), &[0]),
    (Plain::Bytes(b"abc"), &[3, 0x61, 0x62, 0x63]),
    (Plain::Float(1065353216), &[0, 0, 0x80, 0x3F]),
    (Plain::Double(72623859790382856), &[8, 7, 6, 5, 4, 3, 2, 1]),
    (Plain::Int(1), &[1, 0, 0, 0, 0, 0, 0, 0]),
    (Plain::UInt(1), &[1, 0, 0, 0, 0, 0, 0, 0]),
    (Plain::Int(-2), &[0xFE, 255, 255, 255, 255, 255, 255, 255]),
    (
        Plain::UInt(9223372036854775807),
        &[255, 255, 255, 255, 255, 255, 255, 0x7F],
    ),
    (
        Plain::UInt(9223372036854775808),
        &[0, 0, 0, 0, 0, 0, 0, 0x80],
    ),
    (Plain::Date(0, 0, 0, 0, 0, 0, 0), &[0]),
    (Plain::Date(0, 0, 1, 0, 0, 0, 0), &[4, 0, 0, 0, 1]),
    (
        Plain::Date(2019, 11, 27, 0, 0, 0, 0),
        &[4, 0xE3, 7, 0x0B, 0x1B],
    ),
    (Plain::Date(0, 0, 0, 0, 0, 1, 0), &[7, 0, 0, 0, 0, 0, 0, 1]),
    (
        Plain::Date(2019, 11, 27, 12, 30, 0, 0),
        &[7, 0xE3, 7, 0x0B, 0x1B, 0x0C, 0x1E, 0],
    ),
    (
        Plain::Date(2019, 11, 27, 12, 30, 0, 123456),
        &[0x0B, 0xE3, 7, 0x0B, 0x1B, 0x0C, 0x1E, 0, 0x40, 0xE2, 1, 0],
    ),
    (
        Plain::Date(0, 0, 0, 0, 0, 0, 1),
        &[0x0B, 0, 0, 0, 0, 0, 0, 0, 1, 0, 0, 0],
    ),
    (Plain::Time(false, 0, 0, 0, 0, 0), &[0]),
    (Plain::Time(true, 0, 0, 0, 0, 0), &[0]),
    (
        Plain::Time(false, 1, 2, 3, 4, 0),
        &[8, 0, 1, 0, 0, 0, 2, 3, 4],
    ),
    (
        Plain::Time(true, 1, 2, 3, 4, 0),
        &[8, 1, 1, 0, 0, 0, 2, 3, 4],
    ),
    (
        Plain::Time(true, 0, 0, 0, 0, 1),
        &[0x0C, 1, 0, 0, 0, 0, 0, 0, 0, 1, 0, 0, 0],
    ),
    (
        Plain::Time(true, 300, 8, 8, 8, 123456),
        &[0x0C, 1, 0x2C, 1, 0, 0, 8, 8, 8, 0x40, 0xE2, 1, 0],
    ),
];

#[test]
fn written_values(rt: HostRuntime) {
    for (plain, form) in FORMS {
        let value = value(&rt, rt.alloc(), *plain);
        let mut buf = answer_of(&rt, vec![in rt.alloc(); 7]);
        answer_of(&rt, value.serialize(&mut buf));
        let found = (buf.strip_prefix(&[7]), value.bin_len());
        same_in(&rt, found, (Some(*form), form.len() as u64), &value);
        let borrowed = value_ref(*plain);
        let mut buf = answer_of(&rt, vec![in rt.alloc(); 7]);
        answer_of(&rt, borrowed.serialize(&mut buf));
        let found = (buf.strip_prefix(&[7]), borrowed.bin_len());
        same_in(&rt, found, (Some(*form), form.len() as u64), &borrowed);
    }
}

// Lengths of bytes, what their form begins with, and its length.
const LONG: &[(usize, &[u8], u64)] = &[
    (251, &[0xFC, 0xFB, 0], 254),
    (65535, &[0xFC, 0xFF, 0xFF], 65538),
    (65536, &[0xFD, 0, 0, 1], 65540),
];

#[test]
fn long_bytes(rt: HostRuntime) {
    for (len, head, form_len) in LONG {
        let text = answer_of(&rt, vec![in rt.alloc(); b'a'; *len]);
        let value = bytes(&rt, rt.alloc(), &text);
        let mut buf = Vec::new(rt.alloc());
        answer_of(&rt, value.serialize(&mut buf));
        let found = (buf.strip_prefix(*head), value.bin_len());
        same_in(&rt, found, (Some(text.as_slice()), *form_len), len);
    }
}

#[test]
fn constants(rt: HostRuntime) {
    let sizes = (
        ValueDeserializer::<BinValue>::SIZE,
        ValueDeserializer::<TextValue>::SIZE,
    );
    same_in(&rt, sizes, (None, None), &"sizes");
    let offsets = (ServerSide::BIT_OFFSET, ClientSide::BIT_OFFSET);
    same_in(&rt, offsets, (2, 0), &"the sides");
}
