//! Values that try to leave their literals.
use crate::shared::{
    Given, Plain, WITH_BACKSLASHES, WITHOUT_BACKSLASHES, answer_of, are_bound_by,
    string_is_bound_by,
};
use std::alloc::{AllocError, Global};
use std::process::Abort;

/// With backslash escapes: what stands after the backslash for a byte between quotes, if it
/// isn't the byte itself.
const ESCAPES: &[(u8, u8)] = &[
    (0, b'0'),
    (b'\n', b'n'),
    (b'\r', b'r'),
    (26, b'Z'),
    (b'\\', b'\\'),
    (b'\'', b'\''),
    (b'"', b'"'),
];

const HEXADECIMAL: &[u8; 16] = b"0123456789ABCDEF";

/// The literal of a byte that isn't ASCII: alone it is no UTF-8.
fn hexadecimal(alloc: Global, byte: u8) -> Result<Vec<u8>, AllocError> {
    let high = HEXADECIMAL[usize::from(byte / 16)];
    let low = HEXADECIMAL[usize::from(byte % 16)];
    Vec::from_slice(alloc, &[b'0', b'x', high, low])
}

/// The literal of one byte, with backslash escapes.
fn literal(alloc: Global, byte: u8) -> Result<Vec<u8>, AllocError> {
    if byte >= 128 {
        return hexadecimal(alloc, byte);
    }
    for (escaped, letter) in ESCAPES {
        if *escaped == byte {
            return Vec::from_slice(alloc, &[b'\'', b'\\', *letter, b'\'']);
        }
    }
    Vec::from_slice(alloc, &[b'\'', byte, b'\''])
}

/// The literal of one byte, without backslash escapes: there only a quote isn't itself.
fn literal_without_backslashes(alloc: Global, byte: u8) -> Result<Vec<u8>, AllocError> {
    if byte >= 128 {
        return hexadecimal(alloc, byte);
    }
    if byte == b'\'' {
        return Vec::from_slice(alloc, b"''''");
    }
    Vec::from_slice(alloc, &[b'\'', byte, b'\''])
}

/// In either mode the value of this byte is bound as its literal.
fn is_literal(rt: &impl Abort, alloc: Global, byte: u8) {
    let wanted = answer_of(rt, literal(alloc, byte));
    string_is_bound_by(rt, alloc, WITH_BACKSLASHES, b"?", &[byte], &wanted);
    let wanted = answer_of(rt, literal_without_backslashes(alloc, byte));
    string_is_bound_by(rt, alloc, WITHOUT_BACKSLASHES, b"?", &[byte], &wanted);
}

#[test]
fn each_value_of_one_byte(rt: HostRuntime) {
    for byte in 0..=255u8 {
        is_literal(&rt, rt.alloc(), byte);
    }
}

/// Queries, what is given to them, and the text: values that look like places, and values of two
/// types that say the same.
const VALUES: &[(&[u8], Given<'_>, &[u8])] = &[
    (
        b"SELECT :a, :b",
        Given::Named(&[(b"a", Plain::Text(b":b")), (b"b", Plain::Text(b"?"))]),
        b"SELECT ':b', '?'",
    ),
    (b"SELECT ':b', '?'", Given::Nothing, b"SELECT ':b', '?'"),
    (
        b"SELECT ?, ?",
        Given::Positional(&[Plain::Text(b":b"), Plain::Text(b"?")]),
        b"SELECT ':b', '?'",
    ),
    (b":a", Given::Named(&[(b"a", Plain::Int(5))]), b"5"),
    (b":a", Given::Named(&[(b"a", Plain::UInt(5))]), b"5"),
    (
        b"?",
        Given::Positional(&[Plain::Day(2019, 11, 27)]),
        b"'2019-11-27'",
    ),
    (
        b"?",
        Given::Positional(&[Plain::Text(b"2019-11-27")]),
        b"'2019-11-27'",
    ),
];

#[test]
fn values_like_places_and_of_two_types(rt: HostRuntime) {
    are_bound_by(&rt, rt.alloc(), WITH_BACKSLASHES, VALUES);
}

/// A value, and the text to which it is bound: with backslash escapes, and without.
type Hostile = (&'static [u8], &'static [u8], &'static [u8]);

/// Values that end a string, a comment or a statement elsewhere.
const HOSTILE: &[Hostile] = &[
    (b"'", b"SELECT '\\'', 1", b"SELECT '''', 1"),
    (b"\\", b"SELECT '\\\\', 1", b"SELECT '\\', 1"),
    (b"\\'", b"SELECT '\\\\\\'', 1", b"SELECT '\\''', 1"),
    (b"\\\\'", b"SELECT '\\\\\\\\\\'', 1", b"SELECT '\\\\''', 1"),
    (b"'\\", b"SELECT '\\'\\\\', 1", b"SELECT '''\\', 1"),
    (b"\"", b"SELECT '\\\"', 1", b"SELECT '\"', 1"),
    (b"*/", b"SELECT '*/', 1", b"SELECT '*/', 1"),
    (b"-- ", b"SELECT '-- ', 1", b"SELECT '-- ', 1"),
    (
        b"; DROP TABLE t #",
        b"SELECT '; DROP TABLE t #', 1",
        b"SELECT '; DROP TABLE t #', 1",
    ),
    (b"\xBF'", b"SELECT 0xBF27, 1", b"SELECT 0xBF27, 1"),
    (b"\n", b"SELECT '\\n', 1", b"SELECT '\n', 1"),
    (
        b"\n\r\x00\x1a",
        b"SELECT '\\n\\r\\0\\Z', 1",
        b"SELECT '\n\r\x00\x1a', 1",
    ),
];

/// In either mode the value is bound to its text.
fn is_bound(rt: &impl Abort, alloc: Global, (value, wanted, without): Hostile) {
    let query = b"SELECT ?, 1";
    string_is_bound_by(rt, alloc, WITH_BACKSLASHES, query, value, wanted);
    string_is_bound_by(rt, alloc, WITHOUT_BACKSLASHES, query, value, without);
}

#[test]
fn hostile_values(rt: HostRuntime) {
    for hostile in HOSTILE {
        is_bound(&rt, rt.alloc(), *hostile);
    }
}
