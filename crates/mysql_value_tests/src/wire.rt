//! The buffer: integers of each width, and length-encoded strings.
use crate::shared::{answer_of, same_in};
use mysql_wire_part::WireError::{BadLengthLead, UnexpectedEof};
use mysql_wire_part::{ParseBuf, WireError, fill_lenenc_str, lenenc_str_len, put_lenenc_str};

// What the eight calls answer one after another, widened.
fn integers(bytes: &[u8]) -> [Option<i128>; 8] {
    let mut buf = ParseBuf(bytes);
    [
        buf.checked_eat_u8().map(i128::from),
        buf.checked_eat_i8().map(i128::from),
        buf.checked_eat_u16_le().map(i128::from),
        buf.checked_eat_i16_le().map(i128::from),
        buf.checked_eat_u32_le().map(i128::from),
        buf.checked_eat_i32_le().map(i128::from),
        buf.checked_eat_u64_le().map(i128::from),
        buf.checked_eat_i64_le().map(i128::from),
    ]
}

// Bytes, and the integers that they begin with.
const INTEGERS: &[(&[u8], [Option<i128>; 8])] = &[
    (
        b"\xFE\xFE\xFE\xFF\xFE\xFF\
        \xFE\xFF\xFF\xFF\xFE\xFF\xFF\xFF\xFE\xFF\xFF\xFF\xFF\xFF\xFF\x7F\
        \xFE\xFF\xFF\xFF\xFF\xFF\xFF\x7F",
        [
            Some(254),
            Some(-2),
            Some(65534),
            Some(-2),
            Some(4294967294),
            Some(-2),
            Some(9223372036854775806),
            Some(9223372036854775806),
        ],
    ),
    (
        b"\x01\x01\x01\x80\x01\x80\
        \x01\x80\x00\x80\x01\x80\x00\x80\x01\x80\x00\x80\x00\x00\x00\x80\
        \x01\x80\x00\x80\x00\x00\x00\x80",
        [
            Some(1),
            Some(1),
            Some(32769),
            Some(-32767),
            Some(2147516417),
            Some(-2147450879),
            Some(9223372039002292225),
            Some(-9223372034707259391),
        ],
    ),
    // Too few bytes for the rest.
    (b"", [None; 8]),
    (b"\x01", [Some(1), None, None, None, None, None, None, None]),
    (
        b"\x01\x02\x03",
        [Some(1), Some(2), None, None, None, None, None, None],
    ),
    (
        b"\x00\x00\x00\x00\x00\x00\x01\x02\x03",
        [Some(0), Some(0), Some(0), Some(0), None, None, None, None],
    ),
    (
        b"\x00\x00\x00\x00\x00\x00\x01\x00\x00\x00\x02\x00\x00\x00\x03\x00\x00\x00\x00\x00\x00",
        [
            Some(0),
            Some(0),
            Some(0),
            Some(0),
            Some(1),
            Some(2),
            None,
            None,
        ],
    ),
];

#[test]
fn integers_of_each_width(rt: HostRuntime) {
    for (bytes, wanted) in INTEGERS {
        same_in(&rt, integers(*bytes), *wanted, bytes);
    }
}

// So many bytes are wanted of seven, these are handed out, and so many are left.
const STRETCHES: &[(usize, (Option<&[u8]>, usize))] = &[
    (8, (None, 7)),
    (usize::MAX, (None, 7)),
    (3, (Some(&[1, 2, 3]), 4)),
    (7, (Some(&[1, 2, 3, 4, 5, 6, 7]), 0)),
    (0, (Some(&[]), 7)),
];

#[test]
fn stretches_of_bytes(rt: HostRuntime) {
    for (count, wanted) in STRETCHES {
        let mut buf = ParseBuf(&[1, 2, 3, 4, 5, 6, 7]);
        let front = buf.checked_eat_buf(*count).map(|front| front.0);
        let found = ((front, buf.len()), buf.is_empty());
        same_in(&rt, found, (*wanted, wanted.1 == 0), count);
    }
}

// Lengths of strings, and how they are written.
const LENGTHS: &[(usize, &[u8])] = &[
    (0, &[0]),
    (1, &[1]),
    (250, &[0xFA]),
    (251, &[0xFC, 0xFB, 0]),
    (65535, &[0xFC, 0xFF, 0xFF]),
    (65536, &[0xFD, 0, 0, 1]),
    (16777215, &[0xFD, 0xFF, 0xFF, 0xFF]),
    (16777216, &[0xFE, 0, 0, 0, 1, 0, 0, 0, 0]),
];

#[test]
fn lengths(rt: HostRuntime) {
    for (len, head) in LENGTHS {
        let text = answer_of(&rt, vec![in rt.alloc(); b'a'; *len]);
        let mut buf = Vec::new(rt.alloc());
        answer_of(&rt, put_lenenc_str(&mut buf, &text));
        let found = (buf.strip_prefix(*head), lenenc_str_len(&text));
        same_in(&rt, found, (Some(text.as_slice()), buf.len() as u64), len);
    }
}

#[test]
fn a_string_in_a_room(rt: HostRuntime) {
    let mut room = Vec::new(rt.alloc());
    // Only this call itself says how long the bytes are, which the call below needs.
    put_lenenc_str(&mut room, b"abc").expect(&rt, "no memory");
    room.fill(0);
    fill_lenenc_str(&mut room, b"abc");
    same_in(&rt, room.as_slice(), b"\x03abc", &"a room");
}

// Bytes, the string in front of them, and what is left.
const STRINGS: &[(&[u8], Result<&[u8], WireError>, &[u8])] = &[
    // Longer spellings than needed.
    (&[0xFC, 1, 0, b'A', 0x2A], Ok(b"A"), b"*"),
    (&[0xFD, 1, 0, 0, b'A', 0x2A], Ok(b"A"), b"*"),
    (&[0xFE, 1, 0, 0, 0, 0, 0, 0, 0, b'A', 0x2A], Ok(b"A"), b"*"),
    (&[1, b'A', 0x2A], Ok(b"A"), b"*"),
    (&[], Err(UnexpectedEof), &[]),
    (&[1], Err(UnexpectedEof), &[1]),
    (&[0xFA, 1, 2], Err(UnexpectedEof), &[0xFA, 1, 2]),
    (&[0xFC, 0], Err(UnexpectedEof), &[0xFC, 0]),
    (&[0xFC, 1, 0], Err(UnexpectedEof), &[0xFC, 1, 0]),
    (&[0xFD, 0, 0], Err(UnexpectedEof), &[0xFD, 0, 0]),
    (&[0xFD, 2, 0, 0, 1], Err(UnexpectedEof), &[0xFD, 2, 0, 0, 1]),
    (
        &[0xFE, 0, 0, 0, 0, 0, 0, 0],
        Err(UnexpectedEof),
        &[0xFE, 0, 0, 0, 0, 0, 0, 0],
    ),
    (
        &[0xFE, 0, 0, 0, 0, 0, 0, 0, 0x80, 1],
        Err(UnexpectedEof),
        &[0xFE, 0, 0, 0, 0, 0, 0, 0, 0x80, 1],
    ),
    (
        &[0xFE, 255, 255, 255, 255, 255, 255, 255, 255, 1],
        Err(UnexpectedEof),
        &[0xFE, 255, 255, 255, 255, 255, 255, 255, 255, 1],
    ),
    // No string begins so.
    (&[0xFB, 1, 2], Err(BadLengthLead(0xFB)), &[0xFB, 1, 2]),
    (&[0xFF, 1, 2], Err(BadLengthLead(0xFF)), &[0xFF, 1, 2]),
];

#[test]
fn strings(rt: HostRuntime) {
    for (bytes, wanted, left) in STRINGS {
        let mut buf = ParseBuf(*bytes);
        let found = buf.eat_lenenc_str();
        same_in(&rt, (&found, buf.0), (wanted, *left), bytes);
    }
}
