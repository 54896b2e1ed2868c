//! The statements of a table's records, from its bytes: `append_table`.
use crate::bind_inputs::{STEADY, is_memory};
use crate::outcome::{Case, Memory, Outcome, cases, holds, judged, row};
use mysql_bind_core::ValueType::{Int, Text};
use mysql_bind_core::{
    Cell, Failure, MatchedQuery, TableColumn, TableForm, TableRefusal, append_table,
};
use mysql_records::RecordFormat::{self, Csv, MysqlTsv};
use std::alloc::Global;

/// How the call of this name went, if it stands here.
pub(crate) fn case(alloc: Global, name: &str) -> Option<Case> {
    if name == "append_table of fewer cells than names" {
        return Some(fewer_cells(alloc));
    }
    let row = row(TABLES, name)?;
    Some(appended(alloc, row))
}

const QUERY: &[u8] = b"(:a, :b, :c)";

/// The columns that are used, and what is the same in each row.
const NAMES: &[&[u8]] = &[b"a", b"c", b"b"];

const COLUMNS: &[TableColumn<'static>] = &[
    TableColumn {
        value_type: Int,
        null_text: Some(b"-"),
        used: true,
    },
    TableColumn {
        value_type: Int,
        null_text: None,
        used: false,
    },
    TableColumn {
        value_type: Text,
        null_text: Some(b"="),
        used: true,
    },
];

const FIXED: &[Cell<'static>] = &[Cell {
    value_type: Text,
    bytes: b"z",
}];

/// A text of which at most so many records are taken, what is appended, how much of the text is
/// left or how the refusal is shown, and whether the call may ask for memory.
type TableRow = (
    RecordFormat,
    &'static [u8],
    usize,
    &'static [u8],
    Result<usize, &'static str>,
    Memory,
);

const TABLES: &[(&str, TableRow)] = cases! {
    "append_table of two records" =>
        Csv, b"1,x,y\r\n2,,\"it's\"", usize::MAX,
        b"(1, _utf8mb4'z', _utf8mb4'y')\n;\n(2, _utf8mb4'z', _utf8mb4'it''s')\n;\n", Ok(0),
        Memory::Asked;
    "append_table of NULL and the null text" =>
        MysqlTsv, b"\\N\t-\t=\n", usize::MAX, b"(NULL, _utf8mb4'z', NULL)\n;\n", Ok(0),
        Memory::Asked;
    "append_table of fewer records than a text has" =>
        Csv, b"1,x,y\n2,x,y\n", 1, b"(1, _utf8mb4'z', _utf8mb4'y')\n;\n", Ok(6),
        Memory::Asked;
    "append_table of an empty text" => Csv, b"", usize::MAX, b"", Ok(0), Memory::Never;
    "append_table of a fault behind a record" =>
        Csv, b"1,x,y\n2,\"x", usize::MAX, b"(1, _utf8mb4'z', _utf8mb4'y')\n;\n",
        Err("Record(Fault { at: 8, kind: OpenQuote })"), Memory::Asked;
    "append_table of a record of two fields behind one of three" =>
        Csv, b"1,x,y\n2,x\n3,x,y", usize::MAX, b"(1, _utf8mb4'z', _utf8mb4'y')\n;\n",
        Err("Length { at: 6, fields: 2 }"), Memory::Asked;
    "append_table of a refused row behind a record" =>
        Csv, b"1,x,y\n-,x,-\n?,x,y\n2,x", usize::MAX,
        b"(1, _utf8mb4'z', _utf8mb4'y')\n;\n(NULL, _utf8mb4'z', _utf8mb4'-')\n;\n",
        Err("Row { at: 12, failure: NoValue }"), Memory::Asked;
};

/// What a script has before a call.
const BEFORE: &[u8] = b"DO 2\n;\n";

/// The statements behind what the script has, and the text that is left.
fn appended(alloc: Global, (format, text, most, statements, wanted, memory): TableRow) -> Case {
    let form = TableForm {
        format,
        columns: COLUMNS,
        fixed: FIXED,
    };
    let query = match MatchedQuery::with_columns(alloc, QUERY, NAMES, STEADY) {
        Ok(query) => query,
        Err(Failure::Memory(error)) => return Err(error),
        Err(_) => return Ok(Outcome::Wrong),
    };
    let mut script = Vec::from_slice(alloc, BEFORE)?;
    let answer = append_table(alloc, &query, &form, text, most, &mut script);
    let added = script.as_slice().strip_prefix(BEFORE);
    let outcome = match answer {
        Ok(rest) => {
            Outcome::Answer.if_holds(added == Some(statements) && wanted == Ok(rest.len()))
        }
        Err(refusal) if is_without_memory(&refusal) => {
            Outcome::Memory.if_holds(matches!(added, Some(added) if statements.starts_with(added)))
        }
        Err(refusal) => {
            let told = match wanted {
                Ok(_) => return Ok(Outcome::Wrong),
                Err(told) => told,
            };
            judged(
                Err::<Vec<u8>, TableRefusal>(refusal),
                Err::<&[u8], &str>(told),
            )
            .if_holds(added == Some(statements))
        }
    };
    Ok(outcome.with(memory))
}

/// A form without what is the same in each row, which has no cell for the name `b`.
fn fewer_cells(alloc: Global) -> Case {
    let form = TableForm {
        format: Csv,
        columns: COLUMNS,
        fixed: &[],
    };
    let query = match MatchedQuery::with_columns(alloc, QUERY, NAMES, STEADY) {
        Ok(query) => query,
        Err(Failure::Memory(error)) => return Err(error),
        Err(_) => return Ok(Outcome::Wrong),
    };
    let mut script = Vec::from_slice(alloc, BEFORE)?;
    let answer = append_table(alloc, &query, &form, b"1,x,y\n", usize::MAX, &mut script);
    let is_refused = answer == Err(TableRefusal::Cells { cells: 2 });
    holds(is_refused && script.as_slice() == BEFORE)
}

/// Whether the refusal is out of memory.
fn is_without_memory(refusal: &TableRefusal) -> bool {
    match refusal {
        TableRefusal::Memory(_) => true,
        TableRefusal::Row { failure, .. } => is_memory(failure),
        _ => false,
    }
}
