//! Texts for any mode. The wanted texts are written by the rules of the MySQL Reference Manual,
//! "Character Set Introducers", "Schema Object Names" and "Numeric Literals".
use crate::steady_shared::Plain::{
    Assignments, Decimal, Identifier, Identifiers, Qualified, Text, Texts,
};
use crate::steady_shared::{Plain, steadily_bound};
use std::alloc::Global;

// A query, its fragments, the text for any server; a text in `"` with `\` is unsteady, and `[` is
// not portable.
const TEXTS: &[(&[u8], &[Plain], &[u8])] = &[
    (
        b"a IN (?)",
        &[Texts(&[b"x", b"it's"])],
        b"a IN (_utf8mb4'x', _utf8mb4'it''s')",
    ),
    (
        b"SELECT ? FROM ? WHERE a = ? -- ?\n",
        &[Identifier(b"a`b"), Qualified(&[b"db", b"t"]), Text(b"\\")],
        b"SELECT `a``b` FROM `db`.`t` WHERE a = _utf8mb4 0x5C -- ?\n",
    ),
    (
        b"a < ? AND b = ?",
        &[Decimal(b"-1.50"), Text(&[0xC3, 0xA9])],
        b"a < -1.50 AND b = _utf8mb4 0xC3A9",
    ),
    (
        b"UPDATE t SET ? WHERE (?) = (1, 2)",
        &[
            Assignments(&[(&[b"a"], b"x"), (&[b"t", b"b"], b"\\")]),
            Identifiers(&[&[b"c"], &[b"t", b"d"]]),
        ],
        b"UPDATE t SET `a` = _utf8mb4'x', `t`.`b` = _utf8mb4 0x5C WHERE (`c`, `t`.`d`) = (1, 2)",
    ),
];

const FOR_ONE_SERVER: &[(&[u8], &[Plain], &[u8])] = &[(
    b"a[1] = ?",
    &[Text(b"x")],
    b"a[1] = _utf8mb4'x'",
)];

fn gives(alloc: Global, query: &[u8], plain: &[Plain], anywhere: bool, wanted: &[u8]) -> bool {
    match steadily_bound(alloc, query, plain, anywhere) {
        Ok(text) => text.as_slice() == wanted,
        Err(_) => false,
    }
}

#[test]
fn fragments_in_a_text_for_any_server(rt: HostRuntime) {
    for (query, plain, wanted) in TEXTS {
        let anywhere = gives(rt.alloc(), *query, *plain, true, *wanted);
        assert!(rt; anywhere);
        let in_any_mode = gives(rt.alloc(), *query, *plain, false, *wanted);
        assert!(rt; in_any_mode);
    }
}

#[test]
fn a_query_for_one_server(rt: HostRuntime) {
    for (query, plain, wanted) in FOR_ONE_SERVER {
        let in_any_mode = gives(rt.alloc(), *query, *plain, false, *wanted);
        assert!(rt; in_any_mode);
    }
}
