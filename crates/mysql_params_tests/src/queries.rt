//! Names and marks of single queries.
use crate::query_shared::says;
use crate::shared::{answer_of, same_in};
use crate::spellings::{Spelling, WITH_BACKSLASHES};
use mysql_params::named_params::{MixedParamsError, NamedParamsError, ParsedNamedParams};
use std::alloc::{AllocError, Global};
use std::borrow::CowSlice;
use std::process::Abort;

/// Whether this is the query with marks, and then each name after a newline.
fn is_shown_as(parsed: &ParsedNamedParams<'_>, wanted: &[u8]) -> bool {
    let Some(mut rest) = wanted.strip_prefix(parsed.query()) else {
        return false;
    };
    for name in parsed.params() {
        match after_newline(rest, name.as_slice()) {
            Some(after) => rest = after,
            None => return false,
        }
    }
    rest.is_empty()
}

/// What follows a newline and this name, if they stand there.
fn after_newline<'a>(text: &'a [u8], name: &[u8]) -> Option<&'a [u8]> {
    text.strip_prefix(b"\n".as_slice())?.strip_prefix(name)
}

/// Whether the query is shown as this text, or is mixed if the text is `mixed`.
fn shows(alloc: Global, query: &[u8], spelling: Spelling, wanted: &[u8]) -> bool {
    match spelling.parsed(alloc, query) {
        Ok(parsed) => is_shown_as(&parsed, wanted),
        Err(NamedParamsError::Mixed(_)) => wanted == b"mixed".as_slice(),
        Err(NamedParamsError::Memory(_)) => false,
    }
}

/// By each of the calls, the query is shown as this text.
fn is_shown(rt: &impl Abort, alloc: Global, spellings: &[Spelling], query: &[u8], wanted: &[u8]) {
    for spelling in spellings {
        let same = shows(alloc, query, *spelling, wanted);
        same_in(rt, same, true, &(query, spelling.name()));
    }
}

/// By each of the calls, each query is shown as the text beside it.
fn are_shown(rt: &impl Abort, alloc: Global, spellings: &[Spelling], queries: &[(&str, &str)]) {
    for (query, wanted) in queries {
        is_shown(rt, alloc, spellings, query.as_bytes(), wanted.as_bytes());
    }
}

// Queries, and each with its marks and the names after newlines, or `mixed`.
pub(crate) const QUERIES: &[(&str, &str)] = &[
    ("", ""),
    (":a_Aa:b", "?Aa?\na_\nb"),
    ("/**/:a", "/**/?\na"),
    ("/*/:a", "/*/:a"),
    ("::b", ":?\nb"),
    (":1a :2a", ":1a :2a"),
    ("1-:a", "1-?\na"),
    (":a?", "mixed"),
    (":a ?", "mixed"),
    ("?", "?"),
    ("--- :a", "--- :a"),
    ("--\n:a", "--\n?\na"),
    ("SELECT 'a\\':b", "SELECT 'a\\':b"),
    (
        "SELECT '\"\\':a' \"'\\\"':c\" :b",
        "SELECT '\"\\':a' \"'\\\"':c\" ?\nb",
    ),
    (
        "INSERT INTO `my:table` VALUES (:one, ':two\\\\', :three)",
        "INSERT INTO `my:table` VALUES (?, ':two\\\\', ?)\none\nthree",
    ),
    (":a1 :a2", "? ?\na1\na2"),
    (
        "SELECT 1 FROM été WHERE thing = :param;",
        "SELECT 1 FROM été WHERE thing = ?;\nparam",
    ),
    (
        "INSERT INTO `my:table` VALUES (?)",
        "INSERT INTO `my:table` VALUES (?)",
    ),
    (
        "INSERT INTO `my:table` VALUES (:foo)",
        "INSERT INTO `my:table` VALUES (?)\nfoo",
    ),
    ("/* x **/:a", "/* x **/?\na"),
    ("-- x\n:a", "-- x\n?\na"),
    ("SELECT (:a-10)", "SELECT (?-10)\na"),
    ("/*! :a */ /*+ :b */", "/*! ? */ /*+ ? */\na\nb"),
    (":a :b :a", "? ? ?\na\nb\na"),
    ("'?' :a", "'?' ?\na"),
    (":_ :A :a0Z", "? :A ?Z\n_\na0"),
    ("*/*:a", "*/*:a"),
    ("`a\\`:b", "`a\\`?\nb"),
    (":a`:b`:c", "?`:b`?\na\nc"),
    // What stands right after a name or a lone colon is read as anywhere.
    (":a:b", "??\na\nb"),
    (":a#:b\n:c", "?#:b\n?\na\nc"),
    (":a-- :b\n:c", "?-- :b\n?\na\nc"),
    (":a/*:b*/:c", "?/*:b*/?\na\nc"),
    (":a-:b", "?-?\na\nb"),
    (":a/:b", "?/?\na\nb"),
    (":#:b\n:c", ":#:b\n?\nc"),
    (":-- :b\n:c", ":-- :b\n?\nc"),
    (":/*:b*/:c", ":/*:b*/?\nc"),
    (":`:b`:c", ":`:b`?\nc"),
    (":?:a", "mixed"),
    (
        "SELECT 1 FROM my_table WHERE thing = :param;/* question\n  mark '?' in multiline\n\
         comment? */\n# ??- sharp comment -??\n-- dash-dash?\n/*! extention param :param2 */\n\
         /*+ optimizer hint :param3 */; select :foo; # another comment?",
        "SELECT 1 FROM my_table WHERE thing = ?;/* question\n  mark '?' in multiline\n\
         comment? */\n# ??- sharp comment -??\n-- dash-dash?\n/*! extention param ? */\n\
         /*+ optimizer hint ? */; select ?; # another comment?\nparam\nparam2\nparam3\nfoo",
    ),
];

#[test]
fn names_of_queries(rt: HostRuntime) {
    are_shown(&rt, rt.alloc(), WITH_BACKSLASHES, QUERIES);
}

// The same in the mode without backslash escapes. There a string ends at the next quote of its
// kind, also after a backslash.
pub(crate) const QUERIES_WITHOUT_BACKSLASHES: &[(&str, &str)] = &[
    ("", ""),
    ("SELECT 'a\\':b", "SELECT 'a\\'?\nb"),
    (
        "SELECT '\"\\':a' \"'\\\"':c\" :b",
        "SELECT '\"\\'?' \"'\\\"':c\" ?\na\nb",
    ),
    (
        "INSERT INTO `my:table` VALUES (:one, ':two\\\\', :three)",
        "INSERT INTO `my:table` VALUES (?, ':two\\\\', ?)\none\nthree",
    ),
    ("\"\\\" :a", "\"\\\" ?\na"),
    ("'\\\\':a", "'\\\\'?\na"),
    ("'it''s :a' :b", "'it''s :a' ?\nb"),
    ("'\\':a ?", "mixed"),
    ("'\\' ?", "'\\' ?"),
    ("'\\'':a", "'\\'':a"),
    ("`a\\`:b", "`a\\`?\nb"),
    ("\\:a\\", "\\?\\\na"),
    ("/*\\*/:a", "/*\\*/?\na"),
    ("#\\\n:a", "#\\\n?\na"),
];

#[test]
fn names_without_backslash_escapes(rt: HostRuntime) {
    let spellings = [Spelling::ParseIn(true)];
    are_shown(&rt, rt.alloc(), &spellings, QUERIES_WITHOUT_BACKSLASHES);
}

// After `--`: a space, a tab, a form feed and a carriage return open a comment; a vertical tab,
// other control bytes, a newline and the end do not.
pub(crate) const COMMENTS: &[(&[u8], &[u8])] = &[
    (b"-- :a", b"-- :a"),
    (b"--\t:a", b"--\t:a"),
    (b"--\x0c:a", b"--\x0c:a"),
    (b"--\r:a", b"--\r:a"),
    (b"--\x0b:a", b"--\x0b?\na"),
    (b"--\x01:a", b"--\x01?\na"),
    (b"--\x7f:a", b"--\x7f?\na"),
    (b"--\n:a", b"--\n?\na"),
    (b"--", b"--"),
    // A carriage return ends no comment.
    (b"#\r:a\n:b", b"#\r:a\n?\nb"),
    (b"-- \r:a\n:b", b"-- \r:a\n?\nb"),
    (b"/*", b"/*"),
    (b":a/*! :b", b"?/*! ?\na\nb"),
    // Bytes outside ASCII are plain.
    (b":\xc3\xa9:a\xff", b":\xc3\xa9?\xff\na"),
];

#[test]
fn bytes_that_open_and_close_comments(rt: HostRuntime) {
    for (query, wanted) in COMMENTS {
        is_shown(&rt, rt.alloc(), WITH_BACKSLASHES, *query, *wanted);
    }
}

#[test]
fn copies(rt: HostRuntime) {
    let parsed = answer_of(&rt, ParsedNamedParams::parse(rt.alloc(), b"SELECT :a, :b"));
    let copy = answer_of(&rt, parsed.clone());
    same_in(&rt, &copy, &parsed, &"a copy");
    same_in(
        &rt,
        is_shown_as(&copy, b"SELECT ?, ?\na\nb"),
        true,
        &"a copy",
    );
}

#[test]
fn messages_of_refusals(rt: HostRuntime) {
    let alloc = rt.alloc();
    let mixed = "Named and positional params in one query";
    says(&rt, alloc, &MixedParamsError, mixed);
    says(
        &rt,
        alloc,
        &NamedParamsError::Mixed(MixedParamsError),
        mixed,
    );
    says(
        &rt,
        alloc,
        &NamedParamsError::Memory(AllocError),
        "out of memory",
    );
}

/// The first name of a query, which lives as long as the query.
fn first_name<'a>(rt: &impl Abort, alloc: Global, query: &'a [u8]) -> &'a [u8] {
    let parsed = answer_of(rt, ParsedNamedParams::parse(alloc, query));
    match parsed.params() {
        [name, ..] => match name {
            CowSlice::Borrowed(bytes) => *bytes,
            CowSlice::Owned(_) => b"an owned name",
        },
        [] => b"no name",
    }
}

#[test]
fn names_outlive_what_parsed_them(rt: HostRuntime) {
    let query = answer_of(&rt, Vec::from_slice(rt.alloc(), b"SELECT :a"));
    let name = first_name(&rt, rt.alloc(), &query);
    same_in(&rt, name, b"a".as_slice(), &"the name");
    let _gone = query;
}
