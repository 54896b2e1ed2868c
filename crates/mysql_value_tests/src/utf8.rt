//! The test for UTF-8.
use crate::shared::same_in;
use mysql_sql_text::utf8::is_utf8;

// The examples of RFC 3629, section 7, and bytes that its section 3 excludes, also after ASCII and
// across a multiple of 16 bytes.
const BYTES: &[(&[u8], bool)] = &[
    (b"", true),
    (b"A\xE2\x89\xA2\xCE\x91.", true),
    (b"\xED\x95\x9C\xEA\xB5\xAD\xEC\x96\xB4", true),
    (b"\xE6\x97\xA5\xE6\x9C\xAC\xE8\xAA\x9E", true),
    (b"\xEF\xBB\xBF\xF0\xA3\x8E\xB4", true),
    (b"fifteen letters", true),
    (b"sixteen letters.", true),
    (b"seventeen letters", true),
    (b"forty-eight letters stand here one after another", true),
    (b"fifteen letters\xE2\x89\xA2", true),
    (b"seventeen letters\xF0\xA3\x8E\xB4", true),
    (
        b"forty-eight letters stand here one after another\xCE\x91",
        true,
    ),
    // An overlong character, a surrogate, a number above 10FFFF, and bytes that never occur.
    (b"\xC0\x80", false),
    (b"\xED\xA1\x8C", false),
    (b"\xF4\x90\x80\x80", false),
    (b"\xFE", false),
    (b"\xFF", false),
    (b"\x80", false),
    // A character that ends early.
    (b"\xE2\x89", false),
    (b"fifteen letters\xE2\x89", false),
    (b"sixteen letters.\xFF", false),
    (b"seventeen letters\xED\xA1\x8C", false),
    (
        b"forty-eight letters stand here one after another\xC3",
        false,
    ),
];

#[test]
fn bytes_that_are_utf8_or_not(rt: HostRuntime) {
    for (bytes, wanted) in BYTES {
        same_in(&rt, is_utf8(*bytes), *wanted, bytes);
    }
}
