//! Fragments bound to text and put into expanded queries, and keywords.
use crate::fragment_inputs::InPlaces;
use crate::fragment_inputs::InPlaces::{Named, Positional};
use crate::fragment_inputs::PlainFragment::{
    Assignments, Decimal, Identifier, Identifiers, Keyword as Word, List, Qualified, Rows, Value,
};
use crate::fragment_inputs::PlainItem::{Decimal as Number, Value as Item};
use crate::inputs::Plain;
use crate::inputs::Plain::{Bytes, Double, Float, Int, Null};
use crate::outcome::Memory::{Asked, Never};
use crate::outcome::{Case, Is, Memory, cases, judged, row};
use mysql_fragments::{
    ExpandedQuery, Keyword, expanded_for_literals, expanded_query, expanded_query_in,
};
use mysql_params::fragments::{bind_fragments, bind_fragments_in};
use std::alloc::Global;

/// How the call of this name went, if it stands here.
pub(crate) fn case(alloc: Global, name: &str) -> Option<Case> {
    if let Some(row) = row(BOUND, name) {
        return Some(bound(alloc, row));
    }
    if let Some(row) = row(EXPANDED, name) {
        return Some(expanded(alloc, row));
    }
    if let Some(row) = row(FOR_LITERALS, name) {
        return Some(for_literals(alloc, row));
    }
    let word = row(KEYWORDS, name)?;
    Some(Ok(judged(Keyword::new(alloc, word), Ok(word))))
}

const KEYWORDS: &[(&str, &[u8])] = cases! {
    "Keyword::new of a word" => b"DESC";
};

/// A query, what is given, the mode (without one it is `bind_fragments`), the text or the refusal,
/// and whether it asks for memory.
type Row = (
    &'static [u8],
    InPlaces,
    Option<bool>,
    Result<&'static [u8], &'static str>,
    Memory,
);

const NOTHING: InPlaces = Positional(&[]);

const NAME_OF_A: InPlaces = Named(&[(b"a", Identifier(b"n"))]);

const MISSING_B: &str = "Missing(MissingNamedParameterError([98]))";

const FOR_MARKS: &str = "Confusion(NamedParamsForPositionalQuery)";

const FOR_NAMES: &str = "Confusion(PositionalParamsForNamedQuery)";

const BOUND: &[(&str, Row)] = cases! {
    "bind_fragments of a value" =>
        b"a = ?", Positional(&[Value(Bytes(b"it's"))]), None, Ok(b"a = 'it\\'s'"), Asked;
    "bind_fragments of an exact number" =>
        b"1-?", Positional(&[Decimal(b"-1.50")]), None, Ok(b"1--1.50"), Asked;
    "bind_fragments of a list" =>
        b"a IN (?)",
        Positional(&[List(&[Item(Int(7)), Number(b"2.5"), Item(Bytes(b"x")), Item(Null)])]), None,
        Ok(b"a IN (7, 2.5, 'x', NULL)"), Asked;
    "bind_fragments of rows" =>
        b"VALUES ?",
        Positional(&[Rows(&[&[Item(Int(1)), Item(Bytes(b"x"))], &[Number(b"0.5"), Item(Null)]])]),
        None, Ok(b"VALUES (1, 'x'), (0.5, NULL)"), Asked;
    "bind_fragments of an identifier" =>
        b"SELECT ? FROM t", Positional(&[Identifier(b"a`b")]), None, Ok(b"SELECT `a``b` FROM t"),
        Asked;
    "bind_fragments of a qualified identifier" =>
        b"TABLE ?", Positional(&[Qualified(&[b"db", b"t"])]), None, Ok(b"TABLE `db`.`t`"), Asked;
    "bind_fragments of columns" =>
        b"t (?)", Positional(&[Identifiers(&[&[b"a"], &[b"t", b"b"]])]), None,
        Ok(b"t (`a`, `t`.`b`)"), Asked;
    "bind_fragments of assignments" =>
        b"SET ?", Positional(&[Assignments(&[
            (&[b"a"], Item(Int(1))), (&[b"t", b"b"], Item(Bytes(b"x"))), (&[b"c"], Number(b"2.5")),
        ])]), None, Ok(b"SET `a` = 1, `t`.`b` = 'x', `c` = 2.5"), Asked;
    "bind_fragments of a keyword" =>
        b"ORDER BY a ?", Positional(&[Word(b"DESC")]), None, Ok(b"ORDER BY a DESC"), Asked;
    "bind_fragments of a repeated name" =>
        b"(:a) = (:a)", Named(&[(b"a", List(&[Item(Int(4)), Item(Bytes(b"x"))]))]), None,
        Ok(b"(4, 'x') = (4, 'x')"), Asked;
    "bind_fragments of two names" =>
        b":b = :a", Named(&[(b"a", Value(Bytes(b"x"))), (b"b", Identifier(b"n"))]), None,
        Ok(b"`n` = 'x'"), Asked;
    "bind_fragments of more places than are kept" =>
        b"?,?,?,?,?,?,?,?,?,?,?,?,?,?,?,?,?", Positional(&[Value(Int(1)); 17]), None,
        Ok(b"1,1,1,1,1,1,1,1,1,1,1,1,1,1,1,1,1"), Asked;
    "bind_fragments of a query without places" =>
        b"'\\':a'", NOTHING, None, Ok(b"'\\':a'"), Asked;
    "bind_fragments of a list without backslash escapes" =>
        b"'\\', ?", Positional(&[List(&[Item(Bytes(b"it's\\")), Item(Int(1))])]), Some(true),
        Ok(b"'\\', 'it''s\\', 1"), Asked;
    "bind_fragments of names and marks" => b":a ?", NAME_OF_A, None, Err("Mixed"), Never;
    "bind_fragments of names and marks without backslash escapes" =>
        b"'\\', :a, ?", NAME_OF_A, Some(true), Err("Mixed"), Never;
    "bind_fragments of a missing name" => b":a :b", NAME_OF_A, None, Err(MISSING_B), Asked;
    "bind_fragments of named fragments for marks" => b"?", NAME_OF_A, None, Err(FOR_MARKS), Asked;
    "bind_fragments of positional fragments for names" =>
        b":a", NOTHING, None, Err(FOR_NAMES), Asked;
    "bind_fragments of too few fragments" =>
        b"? ?", Positional(&[Word(b"ASC")]), None, Err("MarkCount { marks: 2, fragments: 1 }"),
        Asked;
    "bind_fragments of a place that does not stand alone" =>
        b"x:a", NAME_OF_A, None, Err("NotAlone { place: 0, at: 1 }"), Asked;
    "bind_fragments of a float" =>
        b"? = ?", Positional(&[Identifier(b"n"), Value(Float(0))]), None,
        Err("Float { place: 1 }"), Asked;
    "bind_fragments of a float in a list" =>
        b"a IN (:a)", Named(&[(b"a", List(&[Item(Int(1)), Item(Double(0))]))]), None,
        Err("Float { place: 0 }"), Asked;
    "bind_fragments of an empty list" =>
        b"a IN (?)", Positional(&[List(&[])]), None, Err("Fault { place: 0, fault: Empty }"), Asked;
    "bind_fragments of rows of two lengths" =>
        b"VALUES ?", Positional(&[Rows(&[&[Item(Int(1)), Item(Int(2))], &[Item(Int(3))]])]), None,
        Err("Fault { place: 0, fault: RowLength { row: 1 } }"), Asked;
    "bind_fragments of a text that is no exact number" =>
        b"1 = :a", Named(&[(b"a", Decimal(b"1e5"))]), None,
        Err("Fault { place: 0, fault: Number { row: 0, item: 0 } }"), Asked;
    "bind_fragments of a name that ends in a space" =>
        b"SELECT :a", Named(&[(b"a", Qualified(&[b"t", b"n "]))]), None,
        Err("Fault { place: 0, fault: TrailingSpace { part: 1 } }"), Asked;
};

fn bound(alloc: Global, (query, given, no_backslash_escape, wanted, memory): Row) -> Case {
    let fragments = given.fragments(alloc)?;
    let answer = match no_backslash_escape {
        Some(mode) => bind_fragments_in(alloc, query, &fragments, mode),
        None => bind_fragments(alloc, query, &fragments),
    };
    Ok(judged(answer, wanted).with(memory))
}

/// The text of an expanded query, and its values.
pub(crate) type Expanded = (&'static [u8], &'static [Plain<'static>]);

/// A query, what is given, the mode (without one it is `expanded_query`), the expanded query or the
/// refusal, and whether it asks for memory.
type ExpandedRow = (
    &'static [u8],
    InPlaces,
    Option<bool>,
    Result<Expanded, &'static str>,
    Memory,
);

const EXPANDED: &[(&str, ExpandedRow)] = cases! {
    "expanded_query of a list" =>
        b"a IN (?)", Positional(&[List(&[Item(Int(7)), Number(b"2.5"), Item(Bytes(b"x"))])]), None,
        Ok((b"a IN (?, 2.5, ?)", &[Int(7), Bytes(b"x")])), Asked;
    "expanded_query of rows" =>
        b"VALUES ?", Positional(&[Rows(&[&[Item(Int(1))], &[Item(Bytes(b"x"))]])]), None,
        Ok((b"VALUES (?), (?)", &[Int(1), Bytes(b"x")])), Asked;
    "expanded_query of assignments" =>
        b"SET ?", Positional(&[Assignments(&[
            (&[b"a"], Item(Int(1))), (&[b"b"], Number(b"2.5")), (&[b"c"], Item(Bytes(b"x"))),
        ])]), None, Ok((b"SET `a` = ?, `b` = 2.5, `c` = ?", &[Int(1), Bytes(b"x")])), Asked;
    "expanded_query of names alone" =>
        b"SELECT ? FROM ?", Positional(&[Identifier(b"a`b"), Qualified(&[b"db", b"t"])]), None,
        Ok((b"SELECT `a``b` FROM `db`.`t`", &[])), Asked;
    "expanded_query of a repeated name" =>
        b":a = :a", Named(&[(b"a", Value(Bytes(b"x")))]), None,
        Ok((b"? = ?", &[Bytes(b"x"), Bytes(b"x")])), Asked;
    "expanded_query of a float" =>
        b"1+?", Positional(&[Value(Float(0))]), None, Ok((b"1+?", &[Float(0)])), Asked;
    "expanded_query of a query without places" =>
        b"'\\':a'", NOTHING, None, Ok((b"'\\':a'", &[])), Asked;
    "expanded_query of a keyword without backslash escapes" =>
        b"'\\', a ?", Positional(&[Word(b"DESC")]), Some(true), Ok((b"'\\', a DESC", &[])), Asked;
    "expanded_query of names and marks" => b":a ?", NAME_OF_A, None, Err("Mixed"), Never;
    "expanded_query of names and marks without backslash escapes" =>
        b"'\\', :a, ?", NAME_OF_A, Some(true), Err("Mixed"), Never;
    "expanded_query of a missing name" => b":a :b", NAME_OF_A, None, Err(MISSING_B), Asked;
    "expanded_query of named fragments for marks" => b"?", NAME_OF_A, None, Err(FOR_MARKS), Asked;
    "expanded_query of positional fragments for names" =>
        b":a", NOTHING, None, Err(FOR_NAMES), Asked;
    "expanded_query of too many fragments" =>
        b"SELECT 1", Positional(&[Word(b"ASC")]), None, Err("MarkCount { marks: 0, fragments: 1 }"),
        Asked;
    "expanded_query of a place that does not stand alone" =>
        b"x:a", NAME_OF_A, None, Err("NotAlone { place: 0, at: 1 }"), Asked;
    "expanded_query of a text that is no keyword" =>
        b"ORDER BY a ?", Positional(&[Word(b"ASC;")]), None,
        Err("Fault { place: 0, fault: Keyword }"), Asked;
    "expanded_query of an item that is no exact number" =>
        b"VALUES :a", Named(&[(b"a", Rows(&[&[Item(Int(1))], &[Number(b"1e5")]]))]), None,
        Err("Fault { place: 0, fault: Number { row: 1, item: 0 } }"), Asked;
};

impl Is<Expanded> for ExpandedQuery {
    fn is(&self, (text, values): Expanded) -> bool {
        self.query.as_slice() == text && self.values.is(values)
    }
}

fn expanded(
    alloc: Global,
    (query, given, no_backslash_escape, wanted, memory): ExpandedRow,
) -> Case {
    let fragments = given.fragments(alloc)?;
    let answer = match no_backslash_escape {
        Some(mode) => expanded_query_in(alloc, query, &fragments, mode),
        None => expanded_query(alloc, query, &fragments),
    };
    Ok(judged(answer, wanted).with(memory))
}

/// A query, what is given, and the expanded query or the refusal.
type LiteralsRow = (&'static [u8], InPlaces, Result<Expanded, &'static str>);

const FOR_LITERALS: &[(&str, LiteralsRow)] = cases! {
    "expanded_for_literals of a list" =>
        b"a IN (?)", Positional(&[List(&[Item(Int(7)), Number(b"2.5"), Item(Bytes(b"x"))])]),
        Ok((b"a IN (?, 2.5, ?)", &[Int(7), Bytes(b"x")]));
    "expanded_for_literals of a float" =>
        b"1+?", Positional(&[Value(Float(0))]), Err("Float { place: 0 }");
};

fn for_literals(alloc: Global, (query, given, wanted): LiteralsRow) -> Case {
    let fragments = given.fragments(alloc)?;
    Ok(judged(
        expanded_for_literals(alloc, query, &fragments, false),
        wanted,
    ))
}
