//! The first construct of a query that a client which keeps comments reads or sends otherwise. The
//! rows are restated by hand from docs/RULES.md, "Queries for a client"; `tests/server` shows what
//! the clients send.
use crate::portable;
use crate::portable::{BOTH, print};
use crate::shared::same_in;
use mysql_params::{Construct, Unportable, first_unportable_in_client};
use std::process::Abort;

/// In both modes this is found in the query.
fn is_found(rt: &impl Abort, query: &[u8], wanted: Option<Unportable>) {
    for mode in BOTH {
        let found = first_unportable_in_client(query, *mode);
        same_in(rt, &found, &wanted, &(query, mode));
    }
}

/// Each query has this construct at this index, for the client alone: servers read it alike.
fn are_found(rt: &impl Abort, rows: &[(&[u8], Construct, usize)]) {
    for (query, construct, at) in rows {
        let wanted = Unportable {
            construct: *construct,
            at: *at,
        };
        is_found(rt, *query, Some(wanted));
        portable::is_found(rt, *query, BOTH, None);
    }
}

// Queries that the client reads or sends otherwise, and the first construct.
const OTHERWISE: &[(&[u8], Construct, usize)] = &[
    // In these a client ends a comment elsewhere.
    (b"SELECT 1 /*//*/, :a", Construct::OpenerInComment, 9),
    (b"SELECT 1 /* /*! */, :a", Construct::OpenerInComment, 9),
    (b"SELECT 1 /* /*+ */, :a", Construct::OpenerInComment, 9),
    (b"/* a\n/*/ SELECT ?", Construct::OpenerInComment, 0),
    // Of several the first.
    (b"/**/ /*/*!*/ /*/*!*/", Construct::OpenerInComment, 5),
    // What the client does beside reading: commands, dropped lines, changed bytes.
    (b"SELECT $/**/\xc3\xa9$x", Construct::JoiningComment, 8),
    (b"SELECT 5/**/\\N", Construct::JoiningComment, 8),
    (b"SELECT 5 --#x\n3", Construct::DashesBeforeComment, 9),
    (b"SELECT 5 ---- x\n3", Construct::DashesBeforeComment, 9),
    (b"SELECT 1 \\C gbk\n, :a", Construct::ClientCommand, 9),
    (b"SELECT 1 \\", Construct::ClientCommand, 9),
    (b"SELECT 1; --x\nSELECT 2", Construct::DashInFront, 10),
    (b"-:a", Construct::DashInFront, 0),
    (b"--\nuse a", Construct::DashInFront, 0),
    (b"; /* a */ -?", Construct::DashInFront, 10),
    (b"SELECT 1\ndelimiter\n5", Construct::Delimiter, 9),
    (b"DELIMITER //", Construct::Delimiter, 0),
    // In quotes too, if they end on that line, and after a UTF-8 mark.
    (b"SELECT 'a\ndelimiter', 5\ne5", Construct::Delimiter, 7),
    (b"SELECT `a\r\nDELIMITER`, 5\r\ne5", Construct::Delimiter, 7),
    (b"\xef\xbb\xbfdelimiter x", Construct::Delimiter, 3),
    (b"\xef\xbb\xbfsystem :a", Construct::ClientWord, 3),
    (
        b"\xef\xbb\xbf--don't\nSELECT ' :a '",
        Construct::DashInFront,
        3,
    ),
    (b"SELECT 1;\tDelimiters", Construct::Delimiter, 10),
    // A letter of latin1 with an accent, of either case, is the one without to MariaDB's client.
    (b"syst\xeam :a", Construct::ClientWord, 0),
    (b"\xc9go", Construct::ClientWord, 0),
    (b"\xdbs\xe8 a", Construct::ClientWord, 0),
    (b"\xf0elimiter x", Construct::Delimiter, 0),
    (b"SELECT 'a\nd\xc9limiter', 5\ne5", Construct::Delimiter, 7),
    (b"/*! a */ delimiter", Construct::Delimiter, 9),
    (b"USE shop", Construct::ClientWord, 0),
    (b"SELECT 1; # a\n help ;", Construct::ClientWord, 15),
    (b"use", Construct::ClientWord, 0),
    (b"system :a", Construct::ClientWord, 0),
    (b"SELECT 1;quit\n", Construct::ClientWord, 9),
    // MySQL's client alone, with `--commands`.
    (b"resetconnection", Construct::ClientWord, 0),
    (
        b"SELECT 1; Query_Attributes n :a",
        Construct::ClientWord,
        10,
    ),
    (b"r\xe9setconnection\n", Construct::ClientWord, 0),
    (b"ssl_session_data_print;", Construct::ClientWord, 0),
    // A mark is another word for `help`, if it ends like one.
    (b"?", Construct::ClientWord, 0),
    (b"SELECT ?; /* a */ ?\n+ 1", Construct::ClientWord, 18),
    (b"SELECT 1, 'a\\\nb'", Construct::EscapedNewline, 10),
    (b"SELECT `a\\\r\nb`", Construct::EscapedNewline, 7),
    (b"SELECT \"\\\n\"", Construct::EscapedNewline, 7),
    (b"SELECT 'a\\", Construct::EscapedNewline, 7),
    (b"`a\\", Construct::EscapedNewline, 0),
    (b"SELECT 1 /* \0 */", Construct::ZeroByte, 9),
    (b"SELECT '\0'", Construct::ZeroByte, 7),
    (b"\0", Construct::ZeroByte, 0),
];

#[test]
fn constructs_of_the_client(rt: HostRuntime) {
    are_found(&rt, OTHERWISE);
}

// A client sends these as they are, or a comment in front of a statement apart.
const SENT: &[&[u8]] = &[
    b"",
    b"SELECT * FROM t WHERE id = :id AND name = :name",
    b"SELECT 1; SELECT ?; -- a\nSELECT :a # b\n",
    b"SELECT 1 /* /*M! */, :a",
    b"SELECT 1 /*/ a */, :a",
    b"SELECT 1 /* a * / b / * ! */, :a",
    b"SELECT '/* /*! */', :a",
    b"SELECT /*+ MAX_EXECUTION_TIME(1000) */ ? /*! + 1 */ /*M! + 2 */",
    b"SELECT \\N, :a",
    b"SELECT 'a\\n', \"\\\\\", `\\a`, :a",
    b"SELECT :a # a\r\n, 2 -- b\r\n, `c\\ `",
    b"SELECT 5 /**/ \xc3\xa9",
    b"SELECT 5 - -:a, 5 -- :a\n, --5",
    b"-- a\nSELECT -:a",
    b"SELECT 1 AS delimiter, 2 AS a_delimiter",
    b"SELECT 1 FROM t\nUSE INDEX (a)",
    b"SELECT 1; user",
    b"resetconnections; query_attribute; ssl_session_data",
    b"SELECT 1 resetconnection",
    // To no client are these letters of a word: y of the Swedish order for u, UTF-8.
    b"\xfcse a",
    b"syst\xc3\xa9m :a",
    b"-- use a\nSELECT 'help'",
    b"?+ 1; :a",
    b"SELECT 1 # a\\",
    b"SELECT 'a\nb'",
    b"SELECT 'delimiter', 'a\n delimiter' /* a\ndelimiter */ 5\ne5",
    b"SELECT 1; show status",
];

#[test]
fn queries_that_are_sent_as_they_are(rt: HostRuntime) {
    for query in SENT {
        is_found(&rt, *query, None);
    }
}

// What servers read in different ways is found too, and of both the first.
const OF_SERVERS: &[(&[u8], Construct, usize)] = &[
    (b"SELECT 5/*+*/\xc3\xa9", Construct::Hint, 8),
    (b"SELECT 1 --/**/2", Construct::Dashes, 9),
    (b"SELECT /*+ ? */ 1", Construct::Hint, 7),
    (b"SELECT 1 AS [a], /*/*!*/ 2", Construct::Bracket, 12),
    (b"USE [a]", Construct::ClientWord, 0),
    (b"SELECT 1 --\t:a", Construct::Dashes, 9),
    (b"SELECT `a\\`, :a", Construct::EscapedBackquote, 7),
    (b"SELECT 1 # a\r:a", Construct::ReturnInComment, 9),
    (b"SELECT 1 -- a\r:a", Construct::ReturnInComment, 9),
    // Before what the client does with the same token.
    (b"SELECT `a\\\n\\`", Construct::EscapedBackquote, 7),
    (b"SELECT 1 # a\r\0", Construct::ReturnInComment, 9),
    (b"--\t", Construct::Dashes, 0),
];

#[test]
fn constructs_of_servers(rt: HostRuntime) {
    for (query, construct, at) in OF_SERVERS {
        let wanted = Unportable {
            construct: *construct,
            at: *at,
        };
        is_found(&rt, *query, Some(wanted));
    }
}

const MESSAGES: &[(Construct, &str)] = &[
    (
        Construct::OpenerInComment,
        "the client may not end this comment here: keep `/*!`, `/*+` and `/*/` out of it",
    ),
    (
        Construct::JoiningComment,
        "the client may join what stands around this comment: write a space after it",
    ),
    (
        Construct::DashesBeforeComment,
        "a client that drops comments begins one here: write a space between the two signs",
    ),
    (
        Construct::ClientCommand,
        "the client takes `\\` and the next byte for its command: leave the `\\` out",
    ),
    (
        Construct::DashInFront,
        "the client may take this line for a comment: write a space after the `-`",
    ),
    (
        Construct::Delimiter,
        "the client takes this line for its command: write the word in backquotes",
    ),
    (
        Construct::ClientWord,
        "the client may run this word itself: leave it out, name the database by an option",
    ),
    (
        Construct::EscapedNewline,
        "the client changes a `\\` at the end of a line: write `\\n`, or the newline alone",
    ),
    (
        Construct::ZeroByte,
        "the client sends nothing from this line on: write `\\0` in a string, or hexadecimal",
    ),
];

#[test]
fn messages(rt: HostRuntime) {
    print(&rt, rt.alloc(), MESSAGES);
}
