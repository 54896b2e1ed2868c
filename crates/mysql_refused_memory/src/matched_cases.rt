//! Rows of a table that are bound from cells where they lie: `with_columns`, `append_row`,
//! `append_record` and `assignments_of`.
use crate::bind_inputs::{PLAIN, PLAIN_WITHOUT_ESCAPES, STEADY, refused};
use crate::outcome::{Case, Is, Outcome, cases, judged, row};
use mysql_bind_core::ValueType::{self, Base64, Hex, Identifier, Int, Null, Text};
use mysql_bind_core::{
    Assignment, Cell, Failure, MatchedQuery, Request, append_record, assignments_of,
};
use std::alloc::{AllocError, Global};

/// How the call of this name went, if it stands here.
pub(crate) fn case(alloc: Global, name: &str) -> Option<Case> {
    if let Some(row) = row(MATCHED, name) {
        return Some(Ok(matched(alloc, row)));
    }
    if let Some(row) = row(APPENDED, name) {
        return Some(appended(alloc, row, false));
    }
    if let Some(row) = row(RECORDS, name) {
        return Some(appended(alloc, row, true));
    }
    let (columns, plain) = row(ASSIGNED, name)?;
    Some(assigned(alloc, columns, plain))
}

/// The names of columns.
type Columns = &'static [&'static [u8]];

/// Cells as plain data.
type Cells = &'static [(ValueType, &'static [u8])];

const A: Columns = &[b"a"];

const A_AND_B: Columns = &[b"a", b"b"];

/// A query, columns, the request, and how the refusal is shown, if there is one.
type MatchedRow = (&'static [u8], Columns, Request, Option<&'static str>);

const MATCHED: &[(&str, MatchedRow)] = cases! {
    "with_columns of names" => b":b, :a, :b", A_AND_B, STEADY, None;
    "with_columns of a name without a column" => b":a, :c", A_AND_B, PLAIN, None;
    "with_columns of no columns" => b"DO :a", &[], STEADY, None;
    "with_columns of a mark" => b":a ?", A, PLAIN, Some("Marks");
    "with_columns of an open query" => b"':a", A, STEADY, Some("Open { at: 0 }");
};

/// A query, columns, cells, the request, and what is appended or how the refusal is shown.
type AppendedRow = (
    &'static [u8],
    Columns,
    Cells,
    Request,
    Result<&'static [u8], &'static str>,
);

const APPENDED: &[(&str, AppendedRow)] = cases! {
    "append_row of values in steady literals" =>
        b":b, :a, :b", A_AND_B, &[(Text, b"it's"), (Int, b"-3")], STEADY,
        Ok(b"-3, _utf8mb4'it''s', -3");
    "append_row of values in plain literals" =>
        b":a, :b", A_AND_B, &[(Text, b"it's"), (Null, b"")], PLAIN, Ok(b"'it\\'s', NULL");
    "append_row of values without backslash escapes" =>
        b"(:a)", A, &[(Text, b"it's")], PLAIN_WITHOUT_ESCAPES, Ok(b"('it''s')");
    "append_row of bytes in hexadecimal and base64" =>
        b":a, :b", A_AND_B, &[(Hex, b"C3A9"), (Base64, b"w6k=")], STEADY,
        Ok(b"_utf8mb4 0xC3A9, _utf8mb4 0xC3A9");
    "append_row of a value and a name" =>
        b"(:a, :b)", A_AND_B, &[(Identifier, b"n"), (Int, b"5")], STEADY, Ok(b"(`n`, 5)");
    "append_row of a query without names" => b"DO 1", &[], &[], STEADY, Ok(b"DO 1");
    "append_row of more cells than columns" =>
        b"(:a)", A, &[(Int, b"5"), (Int, b"6")], STEADY, Ok(b"(5)");
    "append_row of fewer cells than columns" =>
        b":a, :b", A_AND_B, &[(Int, b"5")], PLAIN,
        Err("Fragments(Missing(MissingNamedParameterError([98])))");
    "append_row of columns with one name" =>
        b":a", &[b"a", b"a"], &[(Int, b"5"), (Int, b"5")], STEADY, Err("Redefined([97])");
    "append_row of bytes that are no number" =>
        b":a", A, &[(Int, b"x")], STEADY, Err("NoValue");
    "append_row of a text that a client would change" =>
        b"(:a)", A, &[(Text, b"\ndelimiter")], PLAIN_WITHOUT_ESCAPES,
        Err("UnportableText(Unportable { construct: Delimiter, at: 1 })");
};

const RECORDS: &[(&str, AppendedRow)] = cases! {
    "append_record of values" =>
        b"(:b, :a)", A_AND_B, &[(Text, b"it's"), (Int, b"5")], STEADY,
        Ok(b"(5, _utf8mb4'it''s')\n;\n");
    "append_record of a name" => b"(:a)", A, &[(Identifier, b"n")], STEADY, Ok(b"(`n`)\n;\n");
    "append_record of bytes that are no number" =>
        b"(:a)", A, &[(Int, b"x")], STEADY, Err("NoValue");
};

/// Columns and cells.
const ASSIGNED: &[(&str, (Columns, Cells))] = cases! {
    "assignments_of two cells" => A_AND_B, &[(Text, b"it's"), (Int, b"5")];
    "assignments_of fewer cells than columns" => A_AND_B, &[(Text, b"it's")];
};

/// What a script has before a call.
const BEFORE: &[u8] = b"DO 2\n;\n";

fn cells(alloc: Global, plain: Cells) -> Result<Vec<Cell<'static>>, AllocError> {
    let mut cells = Vec::with_capacity(alloc, plain.len())?;
    for (value_type, bytes) in plain {
        cells.push(Cell {
            value_type: *value_type,
            bytes: *bytes,
        })?;
    }
    Ok(cells)
}

fn matched(alloc: Global, (query, columns, request, refusal): MatchedRow) -> Outcome {
    match MatchedQuery::with_columns(alloc, query, columns, request) {
        Ok(_) => Outcome::Answer.if_holds(refusal.is_none()),
        Err(failure) => refused(failure, refusal),
    }
}

/// The text, or the statement of a record, behind what the script has. A refusal leaves it.
fn appended(
    alloc: Global,
    (query, columns, plain, request, wanted): AppendedRow,
    is_record: bool,
) -> Case {
    let cells = cells(alloc, plain)?;
    let query = match MatchedQuery::with_columns(alloc, query, columns, request) {
        Ok(query) => query,
        Err(Failure::Memory(error)) => return Err(error),
        Err(_) => return Ok(Outcome::Wrong),
    };
    let mut script = Vec::from_slice(alloc, BEFORE)?;
    let answer = if is_record {
        append_record(alloc, &query, cells.as_slice(), &mut script)
    } else {
        query.append_row(alloc, cells.as_slice(), &mut script)
    };
    let script = script.as_slice();
    Ok(match answer {
        Ok(()) => match wanted {
            Ok(text) => Outcome::Answer.if_holds(script.strip_prefix(BEFORE) == Some(text)),
            Err(_) => Outcome::Wrong,
        },
        Err(failure) => refused(failure, wanted.err()).if_holds(script == BEFORE),
    })
}

fn assigned(alloc: Global, columns: Columns, plain: Cells) -> Case {
    let cells = cells(alloc, plain)?;
    let answer = assignments_of(alloc, columns, cells.as_slice());
    Ok(judged(answer, Ok::<(Columns, Cells), &str>((columns, plain))))
}

impl Is<(Columns, Cells)> for Vec<Assignment> {
    fn is(&self, (columns, plain): (Columns, Cells)) -> bool {
        self.len() == plain.len()
            && self.iter().zip(columns).zip(plain).all(|((assignment, name), (value_type, bytes))| {
                assignment.name.as_slice() == *name
                    && assignment.value_type == *value_type
                    && assignment.bytes.as_slice() == *bytes
            })
    }
}
