//! Texts with guarded literals, as each mode writes them. MariaDB 10.11 reads each of these
//! literals in its mode as the value.
use crate::steady_shared::Plain::{Assignments, Decimal, Identifier, Qualified, Text, Texts};
use crate::steady_shared::{Plain, positional};
use mysql_fragments::{FragmentsError, SteadyFragmentsError, bind_wide_fragments_guarded};
use std::alloc::Global;

// A query, its fragments, and the texts with backslash escapes and without.
const TEXTS: &[(&[u8], &[Plain], &[u8], &[u8])] = &[
    (
        b"a IN (?) AND b < ?",
        &[Texts(&[b"it's", b"C:\\"]), Decimal(b"-1.50")],
        b"a IN ('it''s', 'C:\\\\') AND b < -1.50",
        b"a IN ('it''s', _utf8mb4 0x433A5C) AND b < -1.50",
    ),
    (
        b"SELECT ? FROM ? WHERE a = ?",
        &[
            Identifier(b"a`b"),
            Qualified(&[b"db", b"t"]),
            Text(b"\xC3\xA9\\"),
        ],
        b"SELECT `a``b` FROM `db`.`t` WHERE a = '\xC3\xA9' '\\\\'",
        b"SELECT `a``b` FROM `db`.`t` WHERE a = _utf8mb4 0xC3A95C",
    ),
    (
        b"UPDATE t SET ?",
        &[Assignments(&[(&[b"a"], b"\xC3\xA9"), (&[b"t", b"b"], b"\\")])],
        b"UPDATE t SET `a` = '\xC3\xA9', `t`.`b` = '\\\\'",
        b"UPDATE t SET `a` = '\xC3\xA9', `t`.`b` = _utf8mb4 0x5C",
    ),
];

// What a query gives with fragments by position, in a mode.
fn bound(
    alloc: Global,
    query: &[u8],
    plain: &[Plain],
    no_backslash_escape: bool,
) -> Result<Vec<u8>, SteadyFragmentsError> {
    match positional(alloc, plain) {
        Ok(fragments) => {
            bind_wide_fragments_guarded(alloc, query, &fragments, no_backslash_escape)
        }
        Err(error) => Err(SteadyFragmentsError::Fragments(FragmentsError::Memory(error))),
    }
}

fn gives(found: Result<Vec<u8>, SteadyFragmentsError>, wanted: &[u8]) -> bool {
    match found {
        Ok(text) => text.as_slice() == wanted,
        Err(_) => false,
    }
}

fn is_refused(found: Result<Vec<u8>, SteadyFragmentsError>, wanted: SteadyFragmentsError) -> bool {
    match found {
        Ok(_) => false,
        Err(error) => error == wanted,
    }
}

#[test]
fn fragments_in_a_guarded_text(rt: HostRuntime) {
    for (query, plain, escaped, unescaped) in TEXTS {
        assert!(rt; gives(bound(rt.alloc(), *query, *plain, false), *escaped));
        assert!(rt; gives(bound(rt.alloc(), *query, *plain, true), *unescaped));
    }
}

#[test]
fn refusals(rt: HostRuntime) {
    let unsteady = SteadyFragmentsError::Unsteady { at: 1 };
    let found = bound(rt.alloc(), b"'\\' = ?", &[Text(b"x")], false);
    assert!(rt; is_refused(found, unsteady));
    let name = SteadyFragmentsError::UnsteadyFragment { place: 0 };
    let found = bound(rt.alloc(), b"SELECT ?", &[Identifier(b"\xC3\xA9")], false);
    assert!(rt; is_refused(found, name));
    assert!(rt; bound(rt.alloc(), b"[a] = ?", &[Text(b"x")], false).is_err());
}
