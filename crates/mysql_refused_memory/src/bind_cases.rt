//! Assigned values and fragments bound to text and written: `write_bound`.
use crate::bind_inputs::{
    Assigned, PLAIN, PLAIN_WITHOUT_ESCAPES, ROOM, STEADY, STEADY_IN_ANY, assignments, is_written,
    refused,
};
use crate::outcome::{Case, Outcome, cases, row};
use mysql_bind_core::ValueType::{
    Base64, Bool, Bytes, Decimal, Double, Hex, Identifier, Int, Line, List, Null, Number, Text,
    Uint,
};
use mysql_bind_core::{Request, write_bound};
use std::alloc::Global;

/// How the call of this name went, if it stands here.
pub(crate) fn case(alloc: Global, name: &str) -> Option<Case> {
    Some(written(alloc, row(WRITTEN, name)?))
}

/// A query, what its names are assigned, the request, and the text or how the refusal is shown.
type Row = (
    &'static [u8],
    Assigned,
    Request,
    Result<&'static [u8], &'static str>,
);

const NUMBER: Assigned = &[(b"a", Int, b"5")];

const LIST: Assigned = &[(b"a", List, b"[7, 2.5, \"it's\", null]")];

const NUMBER_TWICE: Assigned = &[(b"a", Int, b"5"), (b"a", Int, b"5")];

const NAME_TWICE: Assigned = &[(b"a", Identifier, b"n"), (b"a", Null, b"")];

const WRITTEN: &[(&str, Row)] = cases! {
    "write_bound of values in steady literals" =>
        b":a, :b, :a", &[(b"a", Text, b"it's"), (b"b", Int, b"-3")], STEADY,
        Ok(b"_utf8mb4'it''s', -3, _utf8mb4'it''s'");
    "write_bound of values in steady literals of any query" =>
        b"[ :a, :b", &[(b"a", Line, b"x\n"), (b"b", Bool, b"true")], STEADY_IN_ANY,
        Ok(b"[ _utf8mb4'x', 1");
    "write_bound of values in plain literals" =>
        b":a, :b, :a", &[(b"a", Bytes, b"it's"), (b"b", Null, b"")], PLAIN,
        Ok(b"'it\\'s', NULL, 'it\\'s'");
    "write_bound of a text without backslash escapes" =>
        b"'\\', :a", &[(b"a", Text, b"it's\\")], PLAIN_WITHOUT_ESCAPES, Ok(b"'\\', 'it''s\\'");
    "write_bound of numbers" =>
        b":a :b :c",
        &[(b"a", Uint, b"7"), (b"b", Number, b"18446744073709551615"), (b"c", Number, b"-1")],
        STEADY, Ok(b"7 18446744073709551615 -1");
    "write_bound of names with capitals" =>
        b":Id, :id", &[(b"Id", Int, b"-3"), (b"id", Text, b"it's")], STEADY,
        Ok(b"-3, _utf8mb4'it''s'");
    "write_bound of bytes in hexadecimal and base64" =>
        b":a, :b", &[(b"a", Hex, b"C3A9"), (b"b", Base64, b"w6k=")], STEADY,
        Ok(b"_utf8mb4 0xC3A9, _utf8mb4 0xC3A9");
    "write_bound of a query without names" => b"SELECT 1", &[], STEADY, Ok(b"SELECT 1");
    "write_bound of an identifier in steady literals" =>
        b"TABLE :a", &[(b"a", Identifier, b"a`b")], STEADY, Ok(b"TABLE `a``b`");
    "write_bound of an identifier in plain literals" =>
        b"SELECT :b FROM :a", &[(b"a", Identifier, b"\xC3\xA9"), (b"b", Text, b"x")], PLAIN,
        Ok(b"SELECT 'x' FROM `\xC3\xA9`");
    "write_bound of a list in steady literals" =>
        b"a IN (:a)", LIST, STEADY, Ok(b"a IN (7, 2.5, _utf8mb4'it''s', NULL)");
    "write_bound of a list in steady literals of any query" =>
        b"[ IN (:a)", LIST, STEADY_IN_ANY, Ok(b"[ IN (7, 2.5, _utf8mb4'it''s', NULL)");
    "write_bound of a list in plain literals" =>
        b"a IN (:a)", LIST, PLAIN, Ok(b"a IN (7, 2.5, 'it\\'s', NULL)");
    "write_bound of an exact number" =>
        b"a = :a", &[(b"a", Decimal, b"-1.50")], STEADY, Ok(b"a = -1.50");
    "write_bound of a double" =>
        b"a = :a", &[(b"a", Double, b"-1.50")], STEADY, Ok(b"a = -1.5e0");
    "write_bound of a list with a double" =>
        b"a IN (:a)", &[(b"a", List, b"[1.5E-7, 1]")], STEADY, Ok(b"a IN (1.5e-7, 1)");
    "write_bound of an open query" => b"':a", NUMBER, STEADY, Err("Open { at: 0 }");
    "write_bound of an unsteady query" => b"'\\\\':a", NUMBER, STEADY, Err("Unsteady { at: 1 }");
    "write_bound of a query that is not portable" =>
        b"[ :a", NUMBER, STEADY, Err("Unportable(Unportable { construct: Bracket, at: 0 })");
    "write_bound of a query that is not portable before a newline" =>
        b"SELECT :a, 1.e--", NUMBER, STEADY,
        Err("Unportable(Unportable { construct: DashesAfterExponent, at: 12 })");
    "write_bound of names with capitals in a query that is not portable" =>
        b"/*+ :Id */", &[(b"Id", Int, b"5")], STEADY,
        Err("Unportable(Unportable { construct: Hint, at: 0 })");
    "write_bound of a mark" => b":a ?", NUMBER, PLAIN, Err("Marks");
    "write_bound of bytes that are no number" =>
        b":a", &[(b"a", Int, b"x")], STEADY, Err("NoValue");
    "write_bound of bytes that are no list" =>
        b":a", &[(b"a", List, b"[7")], STEADY, Err("NoValue");
    "write_bound of a name with two values" =>
        b":a", NUMBER_TWICE, STEADY, Err("Redefined([97])");
    "write_bound of a name with two fragments" => b":a", NAME_TWICE, STEADY, Err("Redefined([97])");
    "write_bound of a missing value in plain literals" =>
        b":b", NUMBER, PLAIN, Err("Fragments(Missing(MissingNamedParameterError([98])))");
    "write_bound of two missing values" =>
        b":a, :b, :c", NUMBER, PLAIN, Err("Fragments(Missing(MissingNamedParameterError([98])))");
    "write_bound of a missing value in steady literals" =>
        b":b", NUMBER, STEADY,
        Err("SteadyFragments(Fragments(Missing(MissingNamedParameterError([98]))))");
    "write_bound of a missing fragment in plain literals" =>
        b":b", LIST, PLAIN, Err("Fragments(Missing(MissingNamedParameterError([98])))");
    "write_bound of a missing fragment in steady literals" =>
        b":b", LIST, STEADY,
        Err("SteadyFragments(Fragments(Missing(MissingNamedParameterError([98]))))");
    "write_bound of an identifier that is not steady" =>
        b":a", &[(b"a", Identifier, b"\xC3\xA9")], STEADY,
        Err("SteadyFragments(UnsteadyFragment { place: 0 })");
    "write_bound of a text that a client would change" =>
        b"(:a)", &[(b"a", Text, b"\ndelimiter")], PLAIN_WITHOUT_ESCAPES,
        Err("UnportableText(Unportable { construct: Delimiter, at: 1 })");
};

fn written(alloc: Global, (query, assigned, request, wanted): Row) -> Case {
    let assignments = assignments(alloc, assigned)?;
    let mut room = *ROOM;
    let mut output = room.as_mut_slice();
    let answer = write_bound(alloc, query, &assignments, request, &mut output);
    let left = output.len();
    Ok(match answer {
        Ok(()) => match wanted {
            Ok(text) => Outcome::Answer.if_holds(is_written(&room, left, &[text])),
            Err(_) => Outcome::Wrong,
        },
        Err(failure) => refused(failure, wanted.err()).if_holds(is_written(&room, left, &[])),
    })
}
