//! The first byte of a text that a mode or a character set may read otherwise.
use crate::shared::same_in;
use mysql_params::first_unsteady;
use std::process::Abort;

// Texts, and the index of their first byte that isn't steady.
const TEXTS: &[(&[u8], Option<usize>)] = &[
    (b"", None),
    (b"SELECT * FROM t WHERE a = :a -- it's", None),
    // Control bytes and DEL are ASCII.
    (b"\x00\t\r\n\x1a\x7f", None),
    (b"SELECT '\\'', :a", Some(8)),
    // Outside of strings too.
    (b"SELECT 1 -- \\", Some(12)),
    (b"SELECT '\xc3\xa9', :a", Some(8)),
    (b"\x80", Some(0)),
    (b"a\xff\\", Some(1)),
    (b"a\\\xff", Some(1)),
];

#[test]
fn first_bytes(rt: HostRuntime) {
    for (text, wanted) in TEXTS {
        same_in(&rt, first_unsteady(*text), *wanted, text);
    }
}

/// Of the single bytes exactly the backslash, which is 92, and those from 128 on aren't steady.
#[test]
fn single_bytes(rt: HostRuntime) {
    for byte in 0..=255u8 {
        let wanted = if byte == 92 || byte >= 128 {
            Some(0)
        } else {
            None
        };
        same_in(&rt, first_unsteady(&[byte]), wanted, &byte);
    }
}
