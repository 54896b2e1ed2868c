//! Calls of the wire: buffers and length-encoded strings.
use crate::outcome::{Case, Outcome, cases, holds, row};
use mysql_wire_part::{ParseBuf, WireError, lenenc_str_len, put_lenenc_str};
use std::alloc::{AllocError, Global};

/// A call of the wire.
#[derive(Clone, Copy)]
enum Call {
    PutShort,
    PutLong,
    Length,
    EatAll,
    EatTooFew,
    EatString,
    EatNoString,
}

const CALLS: &[(&str, Call)] = cases! {
    "put_lenenc_str of 3 bytes" => Call::PutShort;
    "put_lenenc_str of 251 bytes" => Call::PutLong;
    "lenenc_str_len of 251 bytes" => Call::Length;
    "checked_eat of 8 bytes" => Call::EatAll;
    "checked_eat of too few bytes" => Call::EatTooFew;
    "eat_lenenc_str of 3 bytes" => Call::EatString;
    "eat_lenenc_str of what is no string" => Call::EatNoString;
};

const LONG: &[u8; 251] = &[b'a'; 251];

/// How the call of this name went, if it stands here.
pub(crate) fn case(alloc: Global, name: &str) -> Option<Case> {
    let case = match row(CALLS, name)? {
        Call::PutShort => string_appended(alloc, b"abc", b"\x03"),
        Call::PutLong => string_appended(alloc, LONG, b"\xFC\xFB\x00"),
        Call::Length => holds(lenenc_str_len(LONG) == 254),
        Call::EatAll => holds(integers(BYTES) == INTEGERS && bytes_eaten()),
        Call::EatTooFew => holds(integers(&[]) == [None; 8] && are_too_few()),
        Call::EatString => holds(string_eaten()),
        Call::EatNoString => holds(strings_refused()),
    };
    Some(case)
}

/// How a call went that appends a head and a text to `xy`.
pub(crate) fn appended(
    answer: Result<(), AllocError>,
    buf: &[u8],
    head: &[u8],
    text: &[u8],
) -> Outcome {
    match answer {
        Err(AllocError) => Outcome::Memory.if_holds(buf == b"xy".as_slice()),
        Ok(()) => Outcome::Answer.if_holds(is_appended(buf, head, text)),
    }
}

fn is_appended(buf: &[u8], head: &[u8], text: &[u8]) -> bool {
    match buf.strip_prefix(b"xy".as_slice()) {
        Some(rest) => rest.strip_prefix(head) == Some(text),
        None => false,
    }
}

fn string_appended(alloc: Global, text: &[u8], head: &[u8]) -> Case {
    let mut buf = Vec::from_slice(alloc, b"xy")?;
    let answer = put_lenenc_str(&mut buf, text);
    Ok(appended(answer, buf.as_slice(), head, text))
}

/// The first bytes of 2^63 - 2, least first.
const BYTES: &[u8] = &[0xFE, 0xFF, 0xFF, 0xFF, 0xFF, 0xFF, 0xFF, 0x7F];

/// What they begin with, by each width.
const INTEGERS: [Option<i128>; 8] = [
    Some(254),
    Some(-2),
    Some(65534),
    Some(-2),
    Some(4294967294),
    Some(-2),
    Some(9223372036854775806),
    Some(9223372036854775806),
];

/// What each of the eight calls answers for the bytes, widened.
fn integers(bytes: &[u8]) -> [Option<i128>; 8] {
    [
        ParseBuf(bytes).checked_eat_u8().map(i128::from),
        ParseBuf(bytes).checked_eat_i8().map(i128::from),
        ParseBuf(bytes).checked_eat_u16_le().map(i128::from),
        ParseBuf(bytes).checked_eat_i16_le().map(i128::from),
        ParseBuf(bytes).checked_eat_u32_le().map(i128::from),
        ParseBuf(bytes).checked_eat_i32_le().map(i128::from),
        ParseBuf(bytes).checked_eat_u64_le().map(i128::from),
        ParseBuf(bytes).checked_eat_i64_le().map(i128::from),
    ]
}

fn bytes_eaten() -> bool {
    let mut buf = ParseBuf(BYTES);
    match buf.checked_eat_buf(7) {
        Some(front) => front.0 == &BYTES[..7] && buf.0 == [0x7F].as_slice(),
        None => false,
    }
}

/// Whether one byte fewer than is asked for is refused, and stays.
fn are_too_few() -> bool {
    let mut seven = ParseBuf(&BYTES[..7]);
    integers(&BYTES[..1]) == ONE_BYTE
        && integers(&BYTES[..3]) == THREE_BYTES
        && integers(&BYTES[..7]) == SEVEN_BYTES
        && seven.checked_eat_buf(8).is_none()
        && seven.checked_eat_u64_le().is_none()
        && seven.len() == 7
}

const ONE_BYTE: [Option<i128>; 8] = [Some(254), Some(-2), None, None, None, None, None, None];

const THREE_BYTES: [Option<i128>; 8] = [
    Some(254),
    Some(-2),
    Some(65534),
    Some(-2),
    None,
    None,
    None,
    None,
];

const SEVEN_BYTES: [Option<i128>; 8] = [
    Some(254),
    Some(-2),
    Some(65534),
    Some(-2),
    Some(4294967294),
    Some(-2),
    None,
    None,
];

fn string_eaten() -> bool {
    let mut buf = ParseBuf(b"\x03abc*");
    match buf.eat_lenenc_str() {
        Ok(text) => text == b"abc".as_slice() && buf.0 == b"*".as_slice(),
        Err(_) => false,
    }
}

fn strings_refused() -> bool {
    refuses(b"\xFB", WireError::BadLengthLead(251))
        && refuses(b"\xFFa", WireError::BadLengthLead(255))
        && refuses(b"\x03ab", WireError::UnexpectedEof)
        && refuses(b"", WireError::UnexpectedEof)
}

/// The bytes are refused as a string, and stay.
fn refuses(input: &[u8], refusal: WireError) -> bool {
    let mut buf = ParseBuf(input);
    match buf.eat_lenenc_str() {
        Ok(_) => false,
        Err(error) => error == refusal && buf.0 == input,
    }
}
