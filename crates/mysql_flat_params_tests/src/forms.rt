//! Forms and queries that are bound, and those that are refused.
use crate::shared::{
    FORM, QUERY, TEXT, WITH_BACKSLASHES, all_bind_in, all_refuse_in, answer_of, refuses, same_in,
};
use mysql_flat_params::{FormError, Outcome, params_of_form};
use mysql_params_core::params::Params;
use std::alloc::{AllocError, Global};
use std::process::Abort;

/// As many names as are kept in pairs: `a` to `p`, of type TINY (1), with the values 1 to 16.
const FORM_OF_16: &[u8] = b"\
    \x01a\x01\0\x01\x01b\x01\0\x02\x01c\x01\0\x03\x01d\x01\0\x04\x01e\x01\0\x05\x01f\x01\0\x06\
    \x01g\x01\0\x07\x01h\x01\0\x08\x01i\x01\0\x09\x01j\x01\0\x0a\x01k\x01\0\x0b\x01l\x01\0\x0c\
    \x01m\x01\0\x0d\x01n\x01\0\x0e\x01o\x01\0\x0f\x01p\x01\0\x10";

/// The same with `q`, 17.
const FORM_OF_17: &[u8] = b"\
    \x01a\x01\0\x01\x01b\x01\0\x02\x01c\x01\0\x03\x01d\x01\0\x04\x01e\x01\0\x05\x01f\x01\0\x06\
    \x01g\x01\0\x07\x01h\x01\0\x08\x01i\x01\0\x09\x01j\x01\0\x0a\x01k\x01\0\x0b\x01l\x01\0\x0c\
    \x01m\x01\0\x0d\x01n\x01\0\x0e\x01o\x01\0\x0f\x01p\x01\0\x10\x01q\x01\0\x11";

/// The same with `r`, 18.
const FORM_OF_18: &[u8] = b"\
    \x01a\x01\0\x01\x01b\x01\0\x02\x01c\x01\0\x03\x01d\x01\0\x04\x01e\x01\0\x05\x01f\x01\0\x06\
    \x01g\x01\0\x07\x01h\x01\0\x08\x01i\x01\0\x09\x01j\x01\0\x0a\x01k\x01\0\x0b\x01l\x01\0\x0c\
    \x01m\x01\0\x0d\x01n\x01\0\x0e\x01o\x01\0\x0f\x01p\x01\0\x10\x01q\x01\0\x11\x01r\x01\0\x12";

/// Queries, forms, and the text.
const TEXTS: &[(&[u8], &[u8], &[u8])] = &[
    (QUERY, FORM, TEXT),
    (
        b"SELECT ?, ':id', ?",
        b"\0\x08\0\x2a\0\0\0\0\0\0\0\0\xfd\0\x0cx' OR '1'='1",
        TEXT,
    ),
    (b"", b"", b""),
    (b"SELECT 1", b"", b"SELECT 1"),
    (b"?, ?", b"\0\x01\0\x05\0\x06\0", b"5, NULL"),
    // A name that the query has twice, and one that it doesn't have.
    (b":a, :a", b"\x01b\x06\0\x01a\x01\x80\xff", b"255, 255"),
    // Places after `-` and `/`.
    (b"--:a", b"\x01a\x01\0\xfd", b"---3"),
    (b"/* x */?", b"\0\x06\0", b"/* x */NULL"),
    // A length in three bytes, and one in nine.
    (b":a", b"\xfc\x01\0a\x06\0", b"NULL"),
    (b"?", b"\xfe\0\0\0\0\0\0\0\0\x06\0", b"NULL"),
    // As many names as are kept in pairs, one more, and two more.
    (b":p, :a", FORM_OF_16, b"16, 1"),
    (b":q, :p, :a", FORM_OF_17, b"17, 16, 1"),
    (b":r, :q, :p, :a", FORM_OF_18, b"18, 17, 16, 1"),
];

#[test]
fn bound_texts(rt: HostRuntime) {
    all_bind_in(&rt, rt.alloc(), WITH_BACKSLASHES, TEXTS);
}

/// The form of 16 names, and the first of them again.
const SIXTEEN_AND_THE_FIRST: &[u8] = b"\
    \x01a\x01\0\x01\x01b\x01\0\x02\x01c\x01\0\x03\x01d\x01\0\x04\x01e\x01\0\x05\x01f\x01\0\x06\
    \x01g\x01\0\x07\x01h\x01\0\x08\x01i\x01\0\x09\x01j\x01\0\x0a\x01k\x01\0\x0b\x01l\x01\0\x0c\
    \x01m\x01\0\x0d\x01n\x01\0\x0e\x01o\x01\0\x0f\x01p\x01\0\x10\x01a\x01\0\x11";

/// The form of 17 names, and the first of them again.
const SEVENTEEN_AND_THE_FIRST: &[u8] = b"\
    \x01a\x01\0\x01\x01b\x01\0\x02\x01c\x01\0\x03\x01d\x01\0\x04\x01e\x01\0\x05\x01f\x01\0\x06\
    \x01g\x01\0\x07\x01h\x01\0\x08\x01i\x01\0\x09\x01j\x01\0\x0a\x01k\x01\0\x0b\x01l\x01\0\x0c\
    \x01m\x01\0\x0d\x01n\x01\0\x0e\x01o\x01\0\x0f\x01p\x01\0\x10\x01q\x01\0\x11\x01a\x01\0\x12";

/// The form of 17 names, and the last of them again.
const SEVENTEEN_AND_THE_LAST: &[u8] = b"\
    \x01a\x01\0\x01\x01b\x01\0\x02\x01c\x01\0\x03\x01d\x01\0\x04\x01e\x01\0\x05\x01f\x01\0\x06\
    \x01g\x01\0\x07\x01h\x01\0\x08\x01i\x01\0\x09\x01j\x01\0\x0a\x01k\x01\0\x0b\x01l\x01\0\x0c\
    \x01m\x01\0\x0d\x01n\x01\0\x0e\x01o\x01\0\x0f\x01p\x01\0\x10\x01q\x01\0\x11\x01q\x01\0\x12";

/// The form of 17 names, and a value without one.
const SEVENTEEN_AND_NO_NAME: &[u8] = b"\
    \x01a\x01\0\x01\x01b\x01\0\x02\x01c\x01\0\x03\x01d\x01\0\x04\x01e\x01\0\x05\x01f\x01\0\x06\
    \x01g\x01\0\x07\x01h\x01\0\x08\x01i\x01\0\x09\x01j\x01\0\x0a\x01k\x01\0\x0b\x01l\x01\0\x0c\
    \x01m\x01\0\x0d\x01n\x01\0\x0e\x01o\x01\0\x0f\x01p\x01\0\x10\x01q\x01\0\x11\0\x01\0\x12";

/// Forms, and why they are refused.
const FORMS: &[(&[u8], Outcome)] = &[
    // The form ends before the type, before the flags, in the value, in the name.
    (
        b"\0",
        Outcome::FormEnd {
            place: 0,
            position: 0,
        },
    ),
    (
        b"\0\x06",
        Outcome::FormEnd {
            place: 0,
            position: 0,
        },
    ),
    (
        b"\0\x08\0\x2a",
        Outcome::FormEnd {
            place: 0,
            position: 0,
        },
    ),
    (
        b"\x05ab",
        Outcome::FormEnd {
            place: 0,
            position: 0,
        },
    ),
    (
        b"\0\x06\0\xfc",
        Outcome::FormEnd {
            place: 1,
            position: 3,
        },
    ),
    // A length that is only stated.
    (
        b"\0\xfd\0\xfe\xff\xff\xff\xff\xff\xff\xff\xff",
        Outcome::FormEnd {
            place: 0,
            position: 0,
        },
    ),
    (
        b"\xfb",
        Outcome::FormLengthLead {
            place: 0,
            position: 0,
            lead: 0xFB,
        },
    ),
    (
        b"\0\xfd\0\xff",
        Outcome::FormLengthLead {
            place: 0,
            position: 0,
            lead: 0xFF,
        },
    ),
    (
        b"\x01a\x06\0\x01b\xfd\0\xfb",
        Outcome::FormLengthLead {
            place: 1,
            position: 4,
            lead: 0xFB,
        },
    ),
    // A type without a reading, and a number of none; the type without flags.
    (
        b"\0\x11\0",
        Outcome::FormType {
            place: 0,
            position: 0,
            number: 17,
        },
    ),
    (
        b"\0\x06\0\0\xf4\0",
        Outcome::FormType {
            place: 1,
            position: 3,
            number: 244,
        },
    ),
    (
        b"\0\x11",
        Outcome::FormEnd {
            place: 0,
            position: 0,
        },
    ),
    // Names and no names, before the type.
    (
        b"\0\x06\0\x01a\x11\0",
        Outcome::FormMixed {
            place: 1,
            position: 3,
        },
    ),
    (
        b"\x01a\x06\0\0\x06\0",
        Outcome::FormMixed {
            place: 1,
            position: 4,
        },
    ),
    // A name that stands twice, with a length of one byte, of three, and before a value that ends.
    (
        b"\x01a\x06\0\x01b\x06\0\x01a\x06\0",
        Outcome::FormRepeated {
            place: 2,
            position: 9,
            len: 1,
        },
    ),
    (
        b"\x02ab\x06\0\xfc\x02\0ab\x06\0",
        Outcome::FormRepeated {
            place: 1,
            position: 8,
            len: 2,
        },
    ),
    (
        b"\x01a\x06\0\x01a",
        Outcome::FormRepeated {
            place: 1,
            position: 5,
            len: 1,
        },
    ),
    // A name after 16 and after 17 others that is one of them, and none after 17.
    (
        SIXTEEN_AND_THE_FIRST,
        Outcome::FormRepeated {
            place: 16,
            position: 81,
            len: 1,
        },
    ),
    (
        SEVENTEEN_AND_THE_FIRST,
        Outcome::FormRepeated {
            place: 17,
            position: 86,
            len: 1,
        },
    ),
    (
        SEVENTEEN_AND_THE_LAST,
        Outcome::FormRepeated {
            place: 17,
            position: 86,
            len: 1,
        },
    ),
    (
        SEVENTEEN_AND_NO_NAME,
        Outcome::FormMixed {
            place: 17,
            position: 85,
        },
    ),
];

#[test]
fn refused_forms(rt: HostRuntime) {
    for (form, wanted) in FORMS {
        // The query has causes of its own, which come later.
        refuses(&rt, rt.alloc(), b":a ?", *form, *wanted);
    }
}

/// Queries, forms, and why binding is refused.
const CAUSES: &[(&[u8], &[u8], Outcome)] = &[
    (b":a ?", b"", Outcome::Mixed),
    // Nothing is given: the first name. By name: the last, if the given ones are a prefix.
    (
        b"x, :a, :b",
        b"",
        Outcome::Missing {
            place: 0,
            position: 4,
            len: 1,
        },
    ),
    (
        b":a, :bb, :bb",
        b"\x01a\x06\0",
        Outcome::Missing {
            place: 1,
            position: 5,
            len: 2,
        },
    ),
    (
        b"':c' :a, :b, :a",
        b"\x01b\x06\0",
        Outcome::Missing {
            place: 0,
            position: 6,
            len: 1,
        },
    ),
    (b"?", b"\x01a\x06\0", Outcome::NamedForPositional),
    (b":a", b"\0\x06\0", Outcome::PositionalForNamed),
    (
        b"?, ?",
        b"\0\x06\0",
        Outcome::MarkCount {
            marks: 2,
            values: 1,
        },
    ),
    (
        b"?, 1?",
        b"\0\x06\0\0\x06\0",
        Outcome::NotAlone {
            place: 1,
            position: 4,
        },
    ),
    (
        b"::b",
        b"\x01b\x06\0",
        Outcome::NotAlone {
            place: 0,
            position: 1,
        },
    ),
    (
        b"?, ?",
        b"\0\x06\0\0\x04\0\0\0\0\0",
        Outcome::Float { place: 1 },
    ),
];

#[test]
fn refused_queries(rt: HostRuntime) {
    all_refuse_in(&rt, rt.alloc(), WITH_BACKSLASHES, CAUSES);
}

/// The form is read as this.
fn reads(rt: &impl Abort, alloc: Global, form: &[u8], wanted: Result<Params, FormError>) {
    same_in(rt, &params_of_form(alloc, form), &wanted, &form);
}

#[test]
fn the_form_of_no_parameter(rt: HostRuntime) {
    reads(&rt, rt.alloc(), b"", Ok(Params::Empty));
}

#[test]
fn errors_of_forms(rt: HostRuntime) {
    let wanted = FormError::LengthLead {
        place: 1,
        position: 3,
        lead: 255,
    };
    reads(&rt, rt.alloc(), b"\0\x06\0\xff", Err(wanted));
}

/// Errors and their messages.
const MESSAGES: &[(FormError, &str)] = &[
    (
        FormError::End {
            place: 1,
            position: 2,
        },
        "The form ends within parameter 1 at byte 2",
    ),
    (
        FormError::LengthLead {
            place: 1,
            position: 2,
            lead: 251,
        },
        "Bad length lead 251 in parameter 1 at byte 2",
    ),
    (
        FormError::UnsupportedType {
            place: 1,
            position: 2,
            number: 17,
        },
        "Unsupported column type 17 of parameter 1 at byte 2",
    ),
    (
        FormError::Mixed {
            place: 1,
            position: 2,
        },
        "Named and positional params in one form: parameter 1 at byte 2",
    ),
    (
        FormError::Repeated {
            place: 1,
            position: 2,
            len: 3,
        },
        "Redefinition of a named parameter: parameter 1, name at byte 2",
    ),
];

/// What is printed of the error.
fn says(rt: &impl Abort, alloc: Global, error: &FormError, message: &str) {
    let printed = answer_of(rt, error.to_string(alloc));
    same_in(rt, printed.as_str(), message, &"a message");
}

#[test]
fn messages(rt: HostRuntime) {
    for (error, text) in MESSAGES {
        says(&rt, rt.alloc(), error, *text);
    }
    let memory = FormError::Memory(AllocError);
    says(&rt, rt.alloc(), &memory, "out of memory");
}
