//! Each byte directly before and directly after a place.
use crate::shared::{EITHER_MODE, Given, Plain, Refused, are_bound_by, is_bound_by, is_refused_by};
use std::alloc::Global;
use std::process::Abort;

const BEFORE: &[u8] = b"\t\n\x0c\r (,=<>+-*/%&|^~";

const AFTER: &[u8] = b"\t\n\x0c\r ),;=<>+-*/%&|^!";

/// Bytes that open a string, an identifier or a comment, in which a mark is none.
const OPENING: &[u8] = b"'\"`#";

/// One NULL.
const NULL: Given<'_> = Given::Positional(&[Plain::Null]);

fn refused(byte: u8, at: usize) -> Refused<'static> {
    if byte == b'?' {
        Refused::MarkCount(2, 1)
    } else if at == 1 && OPENING.contains(&byte) {
        Refused::MarkCount(0, 1)
    } else {
        Refused::NotAlone(0, at)
    }
}

/// In either mode, the query is bound to the text if its byte may stand beside the place, and
/// else it is refused so.
fn answers(
    rt: &impl Abort,
    alloc: Global,
    query: &[u8],
    may_stand: bool,
    wanted: &[u8],
    refused: Refused<'_>,
) {
    if may_stand {
        is_bound_by(rt, alloc, EITHER_MODE, query, NULL, wanted)
    } else {
        is_refused_by(rt, alloc, EITHER_MODE, query, NULL, refused)
    }
}

#[test]
fn each_byte_before_a_place(rt: HostRuntime) {
    for byte in 0..=255u8 {
        answers(
            &rt,
            rt.alloc(),
            &[byte, b'?'],
            BEFORE.contains(&byte),
            &[byte, b'N', b'U', b'L', b'L'],
            refused(byte, 1),
        );
    }
}

/// The name `a` with this value.
const MINUS_THREE: Given<'_> = Given::Named(&[(b"a", Plain::Int(-3))]);

/// Queries with a place beside `-`, `/` or a comment, what is given to them, and the text.
const AT_A_SIGN: &[(&[u8], Given<'_>, &[u8])] = &[
    (b"?/*x*/", NULL, b"NULL/*x*/"),
    (b"?--\n", NULL, b"NULL--\n"),
    (b"1-:a", MINUS_THREE, b"1--3"),
    (b"--:a", MINUS_THREE, b"---3"),
    (b"/:a", MINUS_THREE, b"/-3"),
    (b"8/?", Given::Positional(&[Plain::UInt(2)]), b"8/2"),
    (b"/* x */?", NULL, b"/* x */NULL"),
    (b"*/?", NULL, b"*/NULL"),
    (b"--?", NULL, b"--NULL"),
    // Values that would go on with a comment, if their literals began with them.
    (b"--?", Given::Positional(&[Plain::Text(b" x")]), b"--' x'"),
    (b"-?", Given::Positional(&[Plain::Text(b"- x")]), b"-'- x'"),
    (b"/?", Given::Positional(&[Plain::Text(b"* x")]), b"/'* x'"),
    (
        b"-?/?",
        Given::Positional(&[Plain::Text(b"\xC3\x28"), Plain::Day(2019, 11, 27)]),
        b"-0xC328/'2019-11-27'",
    ),
    // Their texts have no place.
    (b"---3", Given::Nothing, b"---3"),
    (b"--' x'", Given::Nothing, b"--' x'"),
];

#[test]
fn places_at_a_sign(rt: HostRuntime) {
    are_bound_by(&rt, rt.alloc(), EITHER_MODE, AT_A_SIGN);
}

#[test]
fn each_byte_after_a_place(rt: HostRuntime) {
    for byte in 0..=255u8 {
        answers(
            &rt,
            rt.alloc(),
            &[b'?', byte],
            AFTER.contains(&byte),
            &[b'N', b'U', b'L', b'L', byte],
            refused(byte, 0),
        );
    }
}
