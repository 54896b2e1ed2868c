//! A query bound to rows and written: `write_rows` and `stream_rows`.
use crate::bind_inputs::{
    Assigned, PLAIN, PLAIN_WITHOUT_ESCAPES, ROOM, STEADY, assignments, is_memory, is_written,
};
use crate::outcome::{Case, Outcome, cases, judged, row};
use mysql_bind_core::ValueType::{Identifier, Int, Null, Text};
use mysql_bind_core::{Request, Row, RowsFailure, stream_rows, write_rows};
use std::alloc::{AllocError, Global};

/// How the call of this name went, if it stands here.
pub(crate) fn case(alloc: Global, name: &str) -> Option<Case> {
    if let Some((row, transaction)) = row(WRITTEN, name) {
        return Some(written(alloc, row, transaction));
    }
    Some(streamed(alloc, row(STREAMED, name)?))
}

/// A query, what its names are assigned in each row, the request, what is written one after
/// another, and how the refusal is shown, if there is one.
type RowsRow = (
    &'static [u8],
    &'static [Assigned],
    Request,
    &'static [&'static [u8]],
    Option<&'static str>,
);

const NUMBER: Assigned = &[(b"a", Int, b"5")];

const TEXT: Assigned = &[(b"a", Text, b"it's")];

const NAME: Assigned = &[(b"a", Identifier, b"n")];

const NO_NUMBER: Assigned = &[(b"a", Int, b"x")];

const COMMAND: Assigned = &[(b"a", Text, b"\ndelimiter")];

/// 17 values: one more than are looked for without a map.
const MANY: Assigned = &[
    (b"a", Int, b"6"),
    (b"b", Null, b""),
    (b"c", Null, b""),
    (b"d", Null, b""),
    (b"e", Null, b""),
    (b"f", Null, b""),
    (b"g", Null, b""),
    (b"h", Null, b""),
    (b"i", Null, b""),
    (b"j", Null, b""),
    (b"k", Null, b""),
    (b"l", Null, b""),
    (b"m", Null, b""),
    (b"n", Null, b""),
    (b"o", Null, b""),
    (b"p", Null, b""),
    (b"q", Null, b""),
];

const REFUSED_SECOND: Option<&str> = Some("Row(RefusedRow { number: 1, failure: NoValue })");

/// The same, and whether in a transaction.
const WRITTEN: &[(&str, (RowsRow, bool))] = cases! {
    "write_rows of values in steady literals" =>
        (b"(:a)", &[NUMBER, TEXT], STEADY, &[b"(5)\n;\n", b"(_utf8mb4'it''s')\n;\n"], None), false;
    "write_rows of values in a transaction" =>
        (b"(:a)", &[NUMBER, TEXT], PLAIN,
        &[b"START TRANSACTION\n;\n", b"(5)\n;\n", b"('it\\'s')\n;\n", b"COMMIT\n;\n"], None), true;
    "write_rows of a value and a name" =>
        (b"(:a)", &[NUMBER, NAME], STEADY, &[b"(5)\n;\n", b"(`n`)\n;\n"], None), false;
    "write_rows of a refused query" => (b"(?)", &[NUMBER], STEADY, &[], Some("Query(Marks)")), true;
    "write_rows of a refused row" =>
        (b"(:a)", &[NUMBER, NO_NUMBER], STEADY, &[], REFUSED_SECOND), true;
};

const STREAMED: &[(&str, RowsRow)] = cases! {
    "stream_rows of values in steady literals" =>
        b"(:a)", &[NUMBER, TEXT, TEXT], STEADY,
        &[b"(5)\n;\n", b"(_utf8mb4'it''s')\n;\n", b"(_utf8mb4'it''s')\n;\n"], None;
    "stream_rows of values in plain literals" =>
        b"(:a)", &[TEXT, NUMBER], PLAIN, &[b"('it\\'s')\n;\n", b"(5)\n;\n"], None;
    "stream_rows of names and a value" =>
        b"(:a)", &[NAME, NUMBER, NAME], STEADY, &[b"(`n`)\n;\n", b"(5)\n;\n", b"(`n`)\n;\n"], None;
    "stream_rows of more values than are looked for without a map" =>
        b"(:a)", &[NUMBER, MANY], STEADY, &[b"(5)\n;\n", b"(6)\n;\n"], None;
    "stream_rows of a query without names" =>
        b"DO 1", &[&[], &[]], STEADY, &[b"DO 1\n;\n", b"DO 1\n;\n"], None;
    "stream_rows of no rows" => b"(:a)", &[], STEADY, &[], None;
    "stream_rows of a refused query" =>
        b"':a", &[NUMBER], STEADY, &[], Some("Query(Open { at: 0 })");
    "stream_rows of a refused first row" =>
        b"(:a)", &[NO_NUMBER, NUMBER], STEADY, &[],
        Some("Row(RefusedRow { number: 0, failure: NoValue })");
    "stream_rows of a refused second row" =>
        b"(:a)", &[NUMBER, NO_NUMBER, NUMBER], STEADY, &[b"(5)\n;\n"], REFUSED_SECOND;
    "stream_rows of a text that a client takes for a command" =>
        b"(:a)", &[TEXT, NUMBER, COMMAND], PLAIN_WITHOUT_ESCAPES,
        &[b"('it''s')\n;\n", b"(5)\n;\n"],
        Some("Row(RefusedRow { number: 2, failure: \
            UnportableText(Unportable { construct: Delimiter, at: 1 }) })");
};

fn rows(alloc: Global, plain: &[Assigned]) -> Result<Vec<Row>, AllocError> {
    let mut rows = Vec::new(alloc);
    for assigned in plain {
        let assignments = assignments(alloc, *assigned)?;
        rows.push(Row { assignments })?;
    }
    Ok(rows)
}

/// A refusal has written nothing.
fn written(
    alloc: Global,
    (query, assigned, request, texts, refusal): RowsRow,
    transaction: bool,
) -> Case {
    let rows = rows(alloc, assigned)?;
    let mut room = *ROOM;
    let mut output = room.as_mut_slice();
    let answer = write_rows(alloc, query, &rows, request, transaction, &mut output);
    let left = output.len();
    Ok(match answer {
        Ok(()) => {
            let holds = refusal.is_none() && is_written(&room, left, texts);
            Outcome::Answer.if_holds(holds)
        }
        Err(failure) => refused(failure, refusal).if_holds(is_written(&room, left, &[])),
    })
}

/// A refused row has written the statements of those before it.
fn streamed(alloc: Global, (query, assigned, request, texts, refusal): RowsRow) -> Case {
    let rows = rows(alloc, assigned)?;
    let mut room = *ROOM;
    let mut output = room.as_mut_slice();
    let answer = stream_rows(alloc, query, &rows, request, &mut output);
    let left = output.len();
    Ok(match answer {
        Ok(()) => {
            let holds = refusal.is_none() && is_written(&room, left, texts);
            // Without rows nothing is bound, and nothing is allocated.
            let right = if assigned.is_empty() {
                Outcome::AnswerWithoutMemory
            } else {
                Outcome::Answer
            };
            right.if_holds(holds)
        }
        Err(failure) => {
            let before = texts.get(..rows_before(&failure)).unwrap_or(texts);
            refused(failure, refusal).if_holds(is_written(&room, left, before))
        }
    })
}

/// How many rows stand before the refused one; none if it is none of a row.
fn rows_before(failure: &RowsFailure) -> usize {
    match failure {
        RowsFailure::Row(refused) => refused.number,
        _ => 0,
    }
}

/// How a call went that was refused so, and should be refused with a failure that is shown so.
fn refused(failure: RowsFailure, wanted: Option<&str>) -> Outcome {
    let is_memory = match &failure {
        RowsFailure::Memory(_) => true,
        RowsFailure::Query(failure) => is_memory(failure),
        RowsFailure::Row(refused) => is_memory(&refused.failure),
        RowsFailure::Write => false,
    };
    if is_memory {
        return Outcome::Memory;
    }
    match wanted {
        Some(text) => judged(
            Err::<Vec<u8>, RowsFailure>(failure),
            Err::<&[u8], &str>(text),
        ),
        None => Outcome::Wrong,
    }
}
