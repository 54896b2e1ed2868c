//! The first construct for which a query isn't portable, as a number and a report.
use crate::shared::{WITH_BACKSLASHES, WITHOUT_BACKSLASHES, same_in};
use mysql_flat_params::{
    Report, construct_number, report_first_unportable, report_first_unportable_in_client,
};
use mysql_portable::portable::Construct;

/// Queries, and in either mode the number and the position of their first construct: none is 0.
/// `bindings/cases/portable.txt` has more, which run through the archive.
const CONSTRUCTS: &[(&[u8], i32, usize)] = &[
    (b"", 0, 0),
    (b"SELECT :id, ':id', :name", 0, 0),
    (
        b"SELECT '/*! [ $$ 1e+?', `--\x01 \"\\\"\"`, ? /* [ */ # $$\n -- [",
        0,
        0,
    ),
    (b"SELECT /*+ x */ /*!80000 1 + */ 2 /*M! + 3 */", 0, 0),
    (b"5--1, a--\n?, a---", 0, 0),
    (b"\"a\\n\"", 0, 0),
    (b"x.5e--2, 1e-- x", 0, 0),
    (b"1e+ ?, 1e+5", 0, 0),
    (b"SELECT /*!80000 ? */", 1, 7),
    (b"SELECT /*+ 'x' */ 1", 2, 7),
    (b"1 /*M! 2; */", 3, 2),
    (b"1 --\x7f", 4, 2),
    (b"a, [b]", 6, 3),
    (b"$x y$_0\xff$", 7, 4),
    (b"1.5e-- x", 8, 1),
    (b"12.75E-:a", 9, 4),
    // What an engine of MariaDB's reads again.
    (b"1 --\t2", 4, 2),
    (b"1 --\r\n2", 4, 2),
    (b"1, `a\\`", 19, 3),
    (b"1 # a\r2\n", 20, 2),
    (b"1 --\ta\r2", 20, 2),
    (b"1, `\\a` # a\r\n -- b\r\n", 0, 0),
    // Of several the first.
    (b"'[', $$, [", 7, 5),
    (b"\"\\\\\" $:a", 7, 5),
];

/// Queries with a backslash before a quote, whether without backslash escapes, number and position.
const AFTER_A_BACKSLASH: &[(&[u8], bool, i32, usize)] = &[
    (b"1, \"a\\\" :b", WITH_BACKSLASHES, 5, 3),
    (b"1, \"a\\\" :b", WITHOUT_BACKSLASHES, 0, 0),
    (b"1, \"a\\\" [", WITH_BACKSLASHES, 5, 3),
    (b"1, \"a\\\" [", WITHOUT_BACKSLASHES, 6, 8),
    // The last quote is the last byte, so that both readings end there.
    (b"1, \"a\\\"", WITH_BACKSLASHES, 0, 0),
    (b"1, \"a\\\"", WITHOUT_BACKSLASHES, 0, 0),
    (b"'a\\' [", WITH_BACKSLASHES, 0, 0),
    (b"'a\\' [", WITHOUT_BACKSLASHES, 6, 5),
    (b"'a\\', '[', :a", WITH_BACKSLASHES, 6, 7),
    (b"'a\\', '[', :a", WITHOUT_BACKSLASHES, 0, 0),
];

/// A report that says something.
const NINES: Report = Report {
    len: 9,
    place: 9,
    position: 9,
    marks: 9,
    values: 9,
    byte: 9,
};

/// The report that says this position, and nothing else.
fn report_of(position: usize) -> Report {
    Report {
        len: 0,
        place: 0,
        position,
        marks: 0,
        values: 0,
        byte: 0,
    }
}

#[test]
fn first_constructs(rt: HostRuntime) {
    for (query, number, position) in CONSTRUCTS {
        for mode in [WITH_BACKSLASHES, WITHOUT_BACKSLASHES] {
            let mut report = NINES;
            let told = report_first_unportable(*query, mode, &mut report);
            let wanted = (*number, report_of(*position));
            same_in(&rt, (told, report), wanted, &(query, mode));
        }
    }
}

#[test]
fn quotes_after_a_backslash(rt: HostRuntime) {
    for (query, mode, number, position) in AFTER_A_BACKSLASH {
        let mut report = NINES;
        let told = report_first_unportable(*query, *mode, &mut report);
        let wanted = (*number, report_of(*position));
        same_in(&rt, (told, report), wanted, &(query, mode));
    }
}

/// Queries, and in either mode the number and the position of their first construct for a client.
const IN_CLIENT: &[(&[u8], i32, usize)] = &[
    (b"SELECT :id, ':id', :name", 0, 0),
    (b"a, [b] /*/*!*/", 6, 3),
    (b"1 /*//*/, :a", 10, 2),
    (b"5/**/\\N", 11, 1),
    (b"1 --#", 12, 2),
    (b"1 \\g", 13, 2),
    (b"-:a", 14, 0),
    (b"1\ndelimiter", 15, 2),
    (b"use a", 16, 0),
    (b"1, 'a\\\n'", 17, 3),
    (b"1, '\0'", 18, 3),
    (b"1, `a\\`", 19, 3),
    (b"1 -- a\r2", 20, 2),
];

#[test]
fn first_constructs_in_a_client(rt: HostRuntime) {
    for (query, number, position) in IN_CLIENT {
        for mode in [WITH_BACKSLASHES, WITHOUT_BACKSLASHES] {
            let mut report = NINES;
            let told = report_first_unportable_in_client(*query, mode, &mut report);
            let wanted = (*number, report_of(*position));
            same_in(&rt, (told, report), wanted, &(query, mode));
        }
    }
}

/// Each construct and its number, in the order of the rows of RULES.
const NUMBERS: &[(Construct, u8)] = &[
    (Construct::ExecutableComment, 1),
    (Construct::Hint, 2),
    (Construct::MariaDbComment, 3),
    (Construct::Dashes, 4),
    (Construct::EscapedQuote, 5),
    (Construct::Bracket, 6),
    (Construct::DollarQuote, 7),
    (Construct::DashesAfterExponent, 8),
    (Construct::PlaceAfterExponent, 9),
    (Construct::OpenerInComment, 10),
    (Construct::JoiningComment, 11),
    (Construct::DashesBeforeComment, 12),
    (Construct::ClientCommand, 13),
    (Construct::DashInFront, 14),
    (Construct::Delimiter, 15),
    (Construct::ClientWord, 16),
    (Construct::EscapedNewline, 17),
    (Construct::ZeroByte, 18),
    (Construct::EscapedBackquote, 19),
    (Construct::ReturnInComment, 20),
];

#[test]
fn numbers_of_constructs(rt: HostRuntime) {
    for (construct, number) in NUMBERS {
        same_in(&rt, construct_number(*construct), *number, construct);
    }
}
