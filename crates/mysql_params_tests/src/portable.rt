//! The first construct of a query that servers read in different ways.
use crate::queries::{COMMENTS, QUERIES, QUERIES_WITHOUT_BACKSLASHES};
use crate::query_shared::says;
use crate::shared::same_in;
use mysql_params::{Construct, Unportable, first_unportable};
use std::alloc::Global;
use std::process::Abort;

// The modes: with backslash escapes, and without.
const WITH: &[bool] = &[false];

const WITHOUT: &[bool] = &[true];

pub(crate) const BOTH: &[bool] = &[false, true];

/// In each of these modes this is found in the query.
pub(crate) fn is_found(rt: &impl Abort, query: &[u8], modes: &[bool], wanted: Option<Unportable>) {
    for mode in modes {
        let found = first_unportable(query, *mode);
        same_in(rt, &found, &wanted, &(query, mode));
    }
}

/// In each of these modes each query has this construct at this index.
fn are_found(rt: &impl Abort, modes: &[bool], rows: &[(&[u8], Construct, usize)]) {
    for (query, construct, at) in rows {
        let wanted = Unportable {
            construct: *construct,
            at: *at,
        };
        is_found(rt, *query, modes, Some(wanted));
    }
}

/// In each of these modes each query is portable.
fn are_portable(rt: &impl Abort, modes: &[bool], queries: &[&[u8]]) {
    for query in queries {
        is_found(rt, *query, modes, None);
    }
}

// Queries, and their first construct: those with which a value left its literal on some server.
const FOUND: &[(&[u8], Construct, usize)] = &[
    (b"SELECT /*+ ? */ 1", Construct::Hint, 7),
    (b"SELECT /*+ ' */ ' :a '", Construct::Hint, 7),
    (
        b"SELECT 1 /*!80000 it's */, ' :a ', :a",
        Construct::ExecutableComment,
        9,
    ),
    (b"SELECT 1 /*!80000 + ? */", Construct::ExecutableComment, 9),
    (
        b"SELECT 1 /*M! , ' */ :a ' */",
        Construct::MariaDbComment,
        9,
    ),
    (b"SELECT 1/*M!'*/ :a */", Construct::MariaDbComment, 8),
    (b"SELECT --\x0b'\n' :a '", Construct::Dashes, 7),
    (b"SELECT 1 --\x01 ?", Construct::Dashes, 9),
    (b"SELECT 1 AS [it's], ?", Construct::Bracket, 12),
    (b"SELECT $$ :a $$", Construct::DollarQuote, 7),
    (b"SELECT $js$ :a $js$", Construct::DollarQuote, 7),
    (b"SELECT 2 1.e-- :a", Construct::DashesAfterExponent, 10),
    (b"SELECT 1.5e+?", Construct::PlaceAfterExponent, 9),
    // MariaDB's InnoDB reads an `ALTER TABLE` again.
    (
        b"ALTER TABLE t --\tdon't\n ALTER a SET DEFAULT :a, ALGORITHM=COPY",
        Construct::Dashes,
        14,
    ),
    (
        b"ALTER TABLE t ADD `c\\` INT, ADD d CHAR(99) DEFAULT :a",
        Construct::EscapedBackquote,
        18,
    ),
    (
        b"ALTER TABLE t # a\rdon't\n, ALTER a SET DEFAULT :a",
        Construct::ReturnInComment,
        14,
    ),
    // Each construct in other forms, and where it stands.
    (b"/*!", Construct::ExecutableComment, 0),
    (b"*/*! ; */", Construct::ExecutableComment, 1),
    (b"1 /* a *//*!;*/", Construct::ExecutableComment, 9),
    (b"/*+", Construct::Hint, 0),
    (b"//*+;*/", Construct::Hint, 1),
    (b"/*M!", Construct::MariaDbComment, 0),
    (b"/**//*M!100100 ; */", Construct::MariaDbComment, 4),
    (b"SELECT 5 --/*!99999 x*/ '\n', :a", Construct::Dashes, 9),
    (b"--/**/", Construct::Dashes, 0),
    (b"---/", Construct::Dashes, 1),
    (b"--\x00", Construct::Dashes, 0),
    (b"--\x08", Construct::Dashes, 0),
    (b"--\x1f", Construct::Dashes, 0),
    (b"--\x7f", Construct::Dashes, 0),
    (b"--\x80", Construct::Dashes, 0),
    (b"--\xa0", Construct::Dashes, 0),
    (b"--\xff", Construct::Dashes, 0),
    (b"---\x01", Construct::Dashes, 1),
    (b"--\t[", Construct::Dashes, 0),
    (b"--\x0c[", Construct::Dashes, 0),
    (b"--\r\n[", Construct::Dashes, 0),
    (b"---\t", Construct::Dashes, 1),
    (b"--\ta\r\n", Construct::Dashes, 0),
    (b"?[", Construct::Bracket, 1),
    (b":a_b[", Construct::Bracket, 4),
    (b"$A_z9\xc3\xa9$", Construct::DollarQuote, 0),
    (b"v$a$b", Construct::DollarQuote, 1),
    (b"$?", Construct::DollarQuote, 0),
    (b"$ab:c", Construct::DollarQuote, 0),
    (b".e-- ", Construct::DashesAfterExponent, 0),
    (b"1.e+-- ' \n", Construct::DashesAfterExponent, 1),
    (b"2.5E---\t", Construct::DashesAfterExponent, 1),
    (b"1.05E--\n", Construct::DashesAfterExponent, 1),
    (b"t.e--\x01", Construct::DashesAfterExponent, 1),
    (b"1.?", Construct::DashesAfterExponent, 1),
    (b"1.55:a", Construct::DashesAfterExponent, 1),
    (b"1e+?", Construct::PlaceAfterExponent, 0),
    (b"1e-?", Construct::PlaceAfterExponent, 0),
    (b"12E-:a", Construct::PlaceAfterExponent, 1),
    (b"1.e+:_", Construct::PlaceAfterExponent, 1),
    (b"1.e-?", Construct::PlaceAfterExponent, 1),
    (b"`\\`", Construct::EscapedBackquote, 0),
    (b"1, `a\\\\` ", Construct::EscapedBackquote, 3),
    // One identifier is two tokens: that of the quote is told.
    (b"`a``b\\`", Construct::EscapedBackquote, 3),
    (b"`a\\``b`", Construct::EscapedBackquote, 0),
    (b"'`' `\\\\\\`[", Construct::EscapedBackquote, 4),
    (b"#\r", Construct::ReturnInComment, 0),
    (b"1 # a\r[\n", Construct::ReturnInComment, 2),
    (b"1 -- a\r?", Construct::ReturnInComment, 2),
    (b"-- \r", Construct::ReturnInComment, 0),
    (b"# a\r\r\n", Construct::ReturnInComment, 0),
    (b"# \r \r\n", Construct::ReturnInComment, 0),
    // Before other white space than the space too, and so is a carriage return right after `--`.
    (b"--\ta\r?", Construct::ReturnInComment, 0),
    (b"--\r[", Construct::ReturnInComment, 0),
    (b"--\r", Construct::ReturnInComment, 0),
    (b"--\r\r\n", Construct::ReturnInComment, 0),
    (b"/* \r */# b\r\n`\\`# c\r", Construct::EscapedBackquote, 12),
    // These belong to no number.
    (b"x1e+?", Construct::PlaceAfterExponent, 1),
    (b"t.e+?", Construct::PlaceAfterExponent, 1),
    // The first of several.
    (b"[ /*!", Construct::Bracket, 0),
    (b"' [ ' $$ [", Construct::DollarQuote, 6),
    (b"-- [\n/*+ [ */", Construct::Hint, 5),
    // What makes hints and executable comments differ: each of these in one of the three, and no
    // end.
    (b"/*! '*/", Construct::ExecutableComment, 0),
    (b"1 /*+\"*/", Construct::Hint, 2),
    (b"/*M! `*/", Construct::MariaDbComment, 0),
    (b"/*! a#*/", Construct::ExecutableComment, 0),
    (b"/*+--*/", Construct::Hint, 0),
    (b"/*M! /**/", Construct::MariaDbComment, 0),
    (b"/*! /*/", Construct::ExecutableComment, 0),
    (b"/*! a ?*/", Construct::ExecutableComment, 0),
    (b"/*+:a*/", Construct::Hint, 0),
    (b"/*M! :_*/", Construct::MariaDbComment, 0),
    (b"/*! [*/", Construct::ExecutableComment, 0),
    (b"/*+ $$*/", Construct::Hint, 0),
    (b"/*M! a$b$*/", Construct::MariaDbComment, 0),
    (b"/*! 1.e-- */", Construct::ExecutableComment, 0),
    (b"/*+ 1.5?*/", Construct::Hint, 0),
    (b"/*M! ;*/", Construct::MariaDbComment, 0),
    (b"/*! \\*/", Construct::ExecutableComment, 0),
    (b"/*! - */", Construct::ExecutableComment, 0),
    (b"?/*!_b */", Construct::ExecutableComment, 1),
    (b":a/*M!50000e1 */", Construct::MariaDbComment, 2),
    (b"/*!STRAIGHT_JOIN */", Construct::ExecutableComment, 0),
    // Digits that are no version, or more than one.
    (b":a/*!1 */", Construct::ExecutableComment, 2),
    (b":a/*!8000 */", Construct::ExecutableComment, 2),
    (b":a/*!090000 */", Construct::ExecutableComment, 2),
    (b":a/*!8000001 */", Construct::ExecutableComment, 2),
    (b":a/*!800000", Construct::ExecutableComment, 2),
    (b"/*! a != b */", Construct::ExecutableComment, 0),
    (b"/*!**/", Construct::ExecutableComment, 0),
    // A server may leave one out, and join what stands around it.
    (
        b"SELECT 5 -/*!99999 x*/- '\n', :a",
        Construct::ExecutableComment,
        10,
    ),
    (b"/*+*/*", Construct::Hint, 0),
    (b"/*M! a */* 5", Construct::MariaDbComment, 0),
    (b"/*!*/:a", Construct::ExecutableComment, 0),
    (b"/*+*/?", Construct::Hint, 0),
    (b"/*+ a *//*! b */", Construct::Hint, 0),
    (b"/*M!*/a", Construct::MariaDbComment, 0),
    (b"/*!*/'a'", Construct::ExecutableComment, 0),
    (b"/*!*/(", Construct::ExecutableComment, 0),
    (b"/*+*/\x0b", Construct::Hint, 0),
    // What stands after the end counts, also if another end follows.
    (b"/*!*//\t*/", Construct::ExecutableComment, 0),
    (b"/*+ a */b */", Construct::Hint, 0),
    (b".e--/", Construct::DashesAfterExponent, 0),
    (b"/*! a", Construct::ExecutableComment, 0),
    (b"/*+ *", Construct::Hint, 0),
    (b"/*! a */ /*+ ' */", Construct::Hint, 9),
];

#[test]
fn constructs_are_found(rt: HostRuntime) {
    are_found(&rt, BOTH, FOUND);
}

// Portable queries.
const PORTABLE: &[&[u8]] = &[
    // Hints and executable comments in which nothing begins or ends: MySQL 9.7 and MariaDB 11.8,
    // with versions below and above the server's, answered such queries alike for each of two
    // values. The first three are examples of the MySQL Reference Manual ("Optimizer Hints",
    // "Comments") with a place.
    b"SELECT /*+ MAX_EXECUTION_TIME(1000) */ * FROM t1 WHERE a = :a",
    b"SELECT /*! STRAIGHT_JOIN */ col1 FROM table1, table2 WHERE b = ?",
    b"CREATE TABLE t1(a INT DEFAULT ?, KEY (a)) /*!50110 KEY_BLOCK_SIZE=1024 */;",
    b"SELECT :a /*M! + 1 */, 2 /*M!100100 + 1 */",
    b"SELECT 1 /*!99999 + 1 */, 2 /*!80000 + 1 */, :a",
    b"/*!*/",
    b"/*+*/",
    b"/*M!*/",
    b"/*!50000*/",
    b":a/*!100100*/ /*!80000\n1 */",
    b"/*! **/",
    b"/*! a ! b */",
    b"*/*! */",
    b"//*+*/",
    b"1 /* a *//*!*/",
    b"/**//*M!100100 a */",
    b"/*! a + b / c * d : e */",
    b"/*! a$b $ . 1.5e+3 x.e5 */",
    b"/*! SET @a:=1, @b:= 2 */",
    b"/*! (] ,=<>~^&|%@ \x01\xc3 */",
    b"/*!\n*/",
    b"/*!*/ *",
    b":a/*!*/ ?/*+*/, 5/*M!*/;",
    b"-/*+ a */ /*! b */\t/*M! c */\n/*!*/\x0c/*!*/\r(/*+ d */)",
    // Constructs in strings, identifiers and comments.
    b"SELECT '/*! /*+ /*M! --\x01 [ $$ .e-- 1e+? '",
    b"SELECT \"/*! /*+ /*M! --\x01 [ $$ .e-- 1e+? \"",
    b"SELECT `/*! /*+ /*M! --\x01 [ $$ .e-- 1e+? `",
    b"SELECT 1 # /*! /*+ /*M! --\x01 [ $$ .e-- 1e+? \" '",
    b"SELECT 1 -- /*! /*+ /*M! --\x01 [ $$ .e-- 1e+? \" '",
    b"SELECT 1 /* /*! /*+ /*M! --\x01 [ $$ .e-- 1e+? \" ' */",
    b"SELECT '--\t`\\`#\r', \"--\t`\\`#\r\", `--\t#\r`, 1 /* --\t`\\` #\r */ # --\t`\\`",
    // Lines that end in CR LF, and backslashes in a name.
    b"SELECT :a # a\r\n, 2 -- b\r\n, 3 #\r\n-- \r\n\r",
    b"# a\nb\r",
    b"--\n\r",
    b"`\\a`, `a\\ `, `\\\\a`, ``, `\r`",
    b"`a\\",
    b"\\`b`",
    // What is near a construct.
    b"SELECT 7 --\n-?",
    b"SELECT 7 --",
    b"--",
    b"--5",
    b"a--b",
    b"--'a'",
    b"---?",
    b"/* ! */",
    b"/* + */",
    b"/* M! */",
    b"/*m! */",
    b"/*M !*/",
    b"/*M*/",
    b"/*M",
    b"/*",
    b"/",
    b"2 * /* a */ 3 / 4",
    b"\"a\"\"b\"",
    b"\"a",
    b"v$session",
    b"$",
    b"$a b$",
    b"a $ $",
    // A colon with which no name begins.
    b"SET @a$:=1",
    b"@a$b:= 1",
    b"$:A",
    b"@t.1:=2",
    b"1.5:A",
    b"1.5e-3",
    b"1.e--5",
    b"1.e---5",
    b"1.e+--5",
    b"1.e*-- ",
    b"1.e--",
    b"1.5e - -?",
    b"1e+ ?",
    b"1e+5",
    b"1e+",
    b"1e++?",
    b"1e+:A",
    b"1_e+?",
    b":a1e+?",
    b"'1'e+?",
    b"`1`e+?",
];

#[test]
fn others_are_portable(rt: HostRuntime) {
    are_portable(&rt, BOTH, PORTABLE);
}

// A quote after a backslash, in a text in `"`: with backslash escapes it stands inside.
const ESCAPED: &[(&[u8], Construct, usize)] = &[
    (b"SELECT \"a\\\"b\"", Construct::EscapedQuote, 7),
    (b"'\\'' \"\\\"\"", Construct::EscapedQuote, 5),
    (b"\"\\\\\\\"\"", Construct::EscapedQuote, 0),
    (b"\"\\\"?", Construct::EscapedQuote, 0),
];

// Backslashes that move the end of no text in `"`.
const BACKSLASHES: &[&[u8]] = &[
    b"SELECT \"a\\n\"",
    b"\"a\\\\\"",
    b"\"a\\'\"",
    b"'a\\\"b'",
    b"\"a\\\"",
    b"`\\\"`",
];

#[test]
fn escaped_quotes(rt: HostRuntime) {
    are_found(&rt, WITH, ESCAPED);
    are_portable(&rt, BOTH, BACKSLASHES);
    for (query, _, _) in ESCAPED {
        is_found(&rt, *query, WITHOUT, None);
    }
}

// How those of the queries of the other tests begin that aren't portable in either mode.
const UNPORTABLE: &[(&[u8], Construct, usize)] = &[
    (b"/*! :a */", Construct::ExecutableComment, 0),
    (b":a/*! :b", Construct::ExecutableComment, 2),
    (
        b"SELECT 1 FROM my_table WHERE thing = :param;/*",
        Construct::ExecutableComment,
        130,
    ),
    (b"--\x0b:a", Construct::Dashes, 0),
    (b"--\x01:a", Construct::Dashes, 0),
    (b"--\x7f:a", Construct::Dashes, 0),
    (b"--\t:a", Construct::Dashes, 0),
    (b"--\x0c:a", Construct::Dashes, 0),
    (b"--\r:a", Construct::ReturnInComment, 0),
    (b"#\r:a", Construct::ReturnInComment, 0),
    (b"-- \r:a", Construct::ReturnInComment, 0),
    (b"`a\\`:b", Construct::EscapedBackquote, 0),
];

// .. and with backslash escapes alone.
const UNPORTABLE_WITH: &[(&[u8], Construct, usize)] = &[(
    b"SELECT '\"\\':a' \"'\\\"':c\" :b",
    Construct::EscapedQuote,
    15,
)];

/// The construct of the row that begins the query, if there is one.
fn row_of(rows: &[(&[u8], Construct, usize)], query: &[u8]) -> Option<Unportable> {
    for (beginning, construct, at) in rows {
        if query.starts_with(*beginning) {
            return Some(Unportable {
                construct: *construct,
                at: *at,
            });
        }
    }
    None
}

#[test]
fn queries_of_the_other_tests(rt: HostRuntime) {
    for (query, _) in QUERIES {
        let query = query.as_bytes();
        let wanted = match row_of(UNPORTABLE_WITH, query) {
            None => row_of(UNPORTABLE, query),
            found => found,
        };
        is_found(&rt, query, WITH, wanted);
    }
    for (query, _) in QUERIES_WITHOUT_BACKSLASHES {
        let query = query.as_bytes();
        is_found(&rt, query, WITHOUT, row_of(UNPORTABLE, query));
    }
    for (query, _) in COMMENTS {
        is_found(&rt, *query, BOTH, row_of(UNPORTABLE, *query));
    }
}

const MESSAGES: &[(Construct, &str)] = &[
    (
        Construct::ExecutableComment,
        "`/*!` is executed or skipped: no quote, place, comment, `-` or `;`; spaces around",
    ),
    (
        Construct::Hint,
        "`/*+` is a hint or a comment: no quote, place, comment, `-` or `;`; a space after it",
    ),
    (
        Construct::MariaDbComment,
        "`/*M!` is executed or not: no quote, place, comment, `-` or `;`; spaces around",
    ),
    (
        Construct::Dashes,
        "`--` is a comment or two signs here: write a space between them, or after them",
    ),
    (
        Construct::EscapedQuote,
        "`\\\"` may end an identifier here: write `\"\"`, or the text in `'`",
    ),
    (
        Construct::Bracket,
        "`[` may open an identifier: write the name in backquotes",
    ),
    (
        Construct::DollarQuote,
        "`$$` and `$tag$` may open a string: write it in `'`, or a name in backquotes",
    ),
    (
        Construct::DashesAfterExponent,
        "`--` after `.e` may open no comment: write the exponent's digits, or a space first",
    ),
    (
        Construct::PlaceAfterExponent,
        "a value's digits would join this number: write a space before the place",
    ),
    (
        Construct::EscapedBackquote,
        "`\\` may escape this name's backquote: no name ends in `\\` or has it before one",
    ),
    (
        Construct::ReturnInComment,
        "a comment may end at a carriage return: leave it out, or write a newline after it",
    ),
];

/// Each construct prints its message.
pub(crate) fn print(rt: &impl Abort, alloc: Global, rows: &[(Construct, &str)]) {
    for (construct, message) in rows {
        says(rt, alloc, construct, *message);
    }
}

#[test]
fn messages(rt: HostRuntime) {
    print(&rt, rt.alloc(), MESSAGES);
}
