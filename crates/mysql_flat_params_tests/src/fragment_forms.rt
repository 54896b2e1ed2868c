//! What forms of fragments say: the texts of their fragments in queries. The forms are written by
//! hand, by the heading of `FlatFragments.antt`.
use crate::shared::{answer_of, same_in};
use mysql_bind_call::bind_fragments;
use mysql_flat_params::form_fragments;

/// A query, a form, and the text.
const TEXTS: &[(&[u8], &[u8], &[u8])] = &[
    (b"SELECT 1", b"", b"SELECT 1"),
    // A list of 7, -1.50 and NULL, and the identifier `t`.
    (
        b"a IN (?) AND ?",
        b"\0\x81\0\x03\0\0\0\x01\0\x07\x80\0\x05-1.50\x06\0\0\x83\0\x01t",
        b"a IN (7, -1.50, NULL) AND `t`",
    ),
    // The columns `a` and `t`.`b`.
    (
        b"INSERT INTO t (?) VALUES (1, 2)",
        b"\0\x86\0\x02\0\0\0\x01\0\0\0\x01a\x02\0\0\0\x01t\x01b",
        b"INSERT INTO t (`a`, `t`.`b`) VALUES (1, 2)",
    ),
    // `a` set to 1, `t`.`b` to -1.50, `c` to the text x, and `d` to the double 1.5.
    (
        b"UPDATE t SET ?",
        b"\0\x87\0\x04\0\0\0\x01\0\0\0\x01a\x01\0\x01\
            \x02\0\0\0\x01t\x01b\x80\0\x05-1.50\x01\0\0\0\x01c\xFD\0\x01x\
            \x01\0\0\0\x01d\x05\0\0\0\0\0\0\0\xF8\x3F",
        b"UPDATE t SET `a` = 1, `t`.`b` = -1.50, `c` = 'x', `d` = 1.5e0",
    ),
    // The identifier `t` for `t`, and the number -3 for `a`.
    (b":a, :t", b"\x01t\x83\0\x01t\x01a\x01\0\xFD", b"-3, `t`"),
];

#[test]
fn texts_of_forms(rt: HostRuntime) {
    for (query, form, text) in TEXTS {
        let fragments = answer_of(&rt, form_fragments(rt.alloc(), *form));
        let bound = answer_of(&rt, bind_fragments(rt.alloc(), *query, &fragments));
        same_in(&rt, bound.as_slice(), *text, query);
    }
}

#[test]
fn a_list_that_is_cut(rt: HostRuntime) {
    let form = b"\0\x81\0\x02\0\0\0\x06\0".as_slice();
    same_in(&rt, form_fragments(rt.alloc(), form).is_err(), true, &form);
}
