//! The statements of a table's records, several records in one: `append_groups`.
use crate::bind_inputs::{STEADY, is_memory};
use crate::outcome::{Case, Memory, Outcome, cases, judged, row};
use mysql_bind_core::ValueType::{Int, Text};
use mysql_bind_core::{
    AppendedGroups, Assignment, Failure, GroupForm, GroupRefusal, TableColumn, TableForm,
    TakenQuery, append_groups,
};
use mysql_records::RecordFormat::Csv;
use std::alloc::{AllocError, Global};

/// How the call of this name went, if it stands here.
pub(crate) fn case(alloc: Global, name: &str) -> Option<Case> {
    let row = row(GROUPS, name)?;
    Some(appended(alloc, row))
}

const QUERY: &[u8] = b"SELECT :row, :b";

const COLUMNS: &[TableColumn<'static>] = &[
    TableColumn {
        value_type: Int,
        null_text: Some(b"-"),
        used: true,
    },
    TableColumn {
        value_type: Text,
        null_text: None,
        used: true,
    },
];

/// How many rows and bytes a statement has at most, a text, what is appended, how much of the text
/// is left or how the refusal is shown, and whether the call may ask for memory.
type GroupRow = (
    usize,
    usize,
    &'static [u8],
    &'static [u8],
    Result<usize, &'static str>,
    Memory,
);

const GROUPS: &[(&str, GroupRow)] = cases! {
    "append_groups of three records, two in a statement" =>
        2, usize::MAX, b"1,x\n-,it's\n3,y\n",
        b"SELECT (1, _utf8mb4'x'), (NULL, _utf8mb4'it''s'), 7\n;\nSELECT (3, _utf8mb4'y'), 7\n;\n",
        Ok(0), Memory::Asked;
    "append_groups of records in at most 48 bytes" =>
        9, 48, b"1,x\n2,y\n3,z", b"SELECT (1, _utf8mb4'x'), (2, _utf8mb4'y'), 7\n;\n\
        SELECT (3, _utf8mb4'z'), 7\n;\n", Ok(0), Memory::Asked;
    "append_groups of an empty text" => 2, 9, b"", b"", Ok(0), Memory::Never;
    "append_groups of a fault behind a record" =>
        2, usize::MAX, b"1,x\n2,\"x", b"SELECT (1, _utf8mb4'x'), 7\n;\n",
        Err("Record(Fault { at: 6, kind: OpenQuote })"), Memory::Asked;
    "append_groups of a record of one field behind one of two" =>
        2, usize::MAX, b"1,x\n2\n", b"SELECT (1, _utf8mb4'x'), 7\n;\n",
        Err("Length { at: 4, fields: 1 }"), Memory::Asked;
    "append_groups of a refused row behind a record" =>
        2, usize::MAX, b"1,x\n?,y\n", b"SELECT (1, _utf8mb4'x'), 7\n;\n",
        Err("Row { at: 4, failure: NoValue }"), Memory::Asked;
    "append_groups of a row that is too long behind a record" =>
        2, 29, b"1,x\n2,xy\n", b"SELECT (1, _utf8mb4'x'), 7\n;\n",
        Err("Long { at: 4, bytes: 30 }"), Memory::Asked;
};

/// What a script has before a call.
const BEFORE: &[u8] = b"DO 2\n;\n";

/// What is the same in each statement: `:b` is 7.
fn fixed(alloc: Global) -> Result<Vec<Assignment>, AllocError> {
    let mut fixed = Vec::new(alloc);
    let assignment = Assignment {
        name: Vec::from_slice(alloc, b"b")?,
        value_type: Int,
        bytes: Vec::from_slice(alloc, b"7")?,
    };
    fixed.push(assignment)?;
    Ok(fixed)
}

/// The statements behind what the script has, and the text that is left.
fn appended(alloc: Global, row: GroupRow) -> Case {
    let (rows, bytes, text, statements, wanted, memory) = row;
    let fixed = fixed(alloc)?;
    let form = GroupForm {
        table: TableForm {
            format: Csv,
            columns: COLUMNS,
            fixed: &[],
        },
        fixed: fixed.as_slice(),
        rows: rows.max(1),
        bytes,
        start: 1,
        statements: usize::MAX,
    };
    let query = match TakenQuery::new(alloc, QUERY, STEADY) {
        Ok(query) => query,
        Err(Failure::Memory(error)) => return Err(error),
        Err(_) => return Ok(Outcome::Wrong),
    };
    let mut script = Vec::from_slice(alloc, BEFORE)?;
    let answer = append_groups(alloc, &query, &form, text, &mut script);
    let added = script.as_slice().strip_prefix(BEFORE);
    Ok(outcome_of(answer, added, statements, wanted).with(memory))
}

/// What came of a call that added this, where these statements and this answer are wanted.
fn outcome_of(
    answer: Result<AppendedGroups<'_>, GroupRefusal>,
    added: Option<&[u8]>,
    statements: &[u8],
    wanted: Result<usize, &'static str>,
) -> Outcome {
    match answer {
        Ok(end) => {
            Outcome::Answer.if_holds(added == Some(statements) && wanted == Ok(end.rest.len()))
        }
        Err(refusal) if is_without_memory(&refusal) => {
            Outcome::Memory.if_holds(matches!(added, Some(added) if statements.starts_with(added)))
        }
        Err(refusal) => {
            let told = match wanted {
                Ok(_) => return Outcome::Wrong,
                Err(told) => told,
            };
            judged(
                Err::<Vec<u8>, GroupRefusal>(refusal),
                Err::<&[u8], &str>(told),
            )
            .if_holds(added == Some(statements))
        }
    }
}

/// Whether the refusal is out of memory.
fn is_without_memory(refusal: &GroupRefusal) -> bool {
    match refusal {
        GroupRefusal::Memory(_) => true,
        GroupRefusal::Row { failure, .. } => is_memory(failure),
        _ => false,
    }
}
