//! The columns of a header, the parts of a table, words of options and members of JSON objects:
//! `columns_of`, `column_of`, `table_parts`, `taken_columns`, `copy_of_assignment`,
//! `set_assignment`, `word_assignment`, `named_column`, `null_text`, `pair_parts`, `first_pair`,
//! `type_named` and `member_assignment`.
use crate::outcome::{Case, Is, Memory, Outcome, cases, holds, judged, row};
use json::{Scratch, Value as Json};
use mysql_bind_core::ValueType::{self, Bool, Bytes, Decimal, Int, List, Null, Number, Text};
use mysql_bind_core::{
    Assignment, Column, ColumnWords, Decimals, NamedColumn, NullText, OptionWord, TableColumn,
    TableParts, columns_of, copy_of_assignment, first_pair, member_assignment, named_column,
    null_text, pair_parts, set_assignment, table_parts, taken_columns, type_named, word_assignment,
};
use mysql_records::{RecordFormat, first_record_into};
use std::alloc::{AllocError, Global};

/// How the call of this name went, if it stands here.
pub(crate) fn case(alloc: Global, name: &str) -> Option<Case> {
    if let Some((word, wanted, memory)) = row(SET, name) {
        let answer = set_assignment(alloc, word);
        return Some(Ok(judged(answer, Ok::<Said, &str>(wanted)).with(memory)));
    }
    if let Some((word, bytes, wanted)) = row(WORDS, name) {
        return Some(word_case(alloc, word, bytes, wanted));
    }
    if let Some((word, wanted, memory)) = row(NAMED, name) {
        let answer = named_column(alloc, word);
        return Some(Ok(judged(answer, Ok::<Named, &str>(wanted)).with(memory)));
    }
    if let Some((word, wanted, memory)) = row(NULLS, name) {
        let answer = null_text(alloc, word);
        return Some(Ok(judged(answer, Ok::<Pair, &str>(wanted)).with(memory)));
    }
    if let Some(row) = row(MEMBERS, name) {
        return Some(member_case(alloc, row));
    }
    match name {
        "columns_of a header" => Some(header_case(alloc)),
        "table_parts of three columns and a value" => Some(parts_case(alloc)),
        "taken_columns of three columns" => Some(taken_case(alloc)),
        "copy_of_assignment" => Some(copy_case(alloc)),
        "column_of a header" => Some(column_case(alloc)),
        "pair_parts of NAME=VALUE" => Some(holds(
            pair_parts(b"a:b=1=2") == Some((b"a:b".as_slice(), b"1=2".as_slice())),
        )),
        "first_pair of two" => Some(holds(
            first_pair(b"a=1\0b\0") == Some((b"a=1".as_slice(), b"b\0".as_slice())),
        )),
        "type_named uint" => Some(holds(type_named("uint") == Some(ValueType::Uint))),
        _ => None,
    }
}

/// A name, a type and bytes, if there are any.
type Said = Option<(&'static [u8], ValueType, &'static [u8])>;

/// A name, a type and a header, if there are any.
type Named = Option<(&'static [u8], ValueType, &'static [u8])>;

/// Two texts, if there are any.
type Pair = Option<(&'static [u8], &'static [u8])>;

const SET: &[(&str, (&str, Said, Memory))] = cases! {
    "set_assignment of NAME=VALUE" =>
        "a=it's: x=1", Some((b"a", Text, b"it's: x=1")), Memory::Asked;
    "set_assignment of NAME:TYPE=VALUE" =>
        "a:int=1:2=3", Some((b"a", Int, b"1:2=3")), Memory::Asked;
    "set_assignment of a word without a value" => "a:int", None, Memory::Never;
    "set_assignment of an unknown type" => "a:integer=1", None, Memory::Asked;
};

const WORDS: &[(&str, (&str, &[u8], Said))] = cases! {
    "word_assignment of a type" => "a:bytes=PATH", b"\xFF", Some((b"a", Bytes, b"\xFF"));
    "word_assignment without a type" => "a", b"x", Some((b"a", Text, b"x"));
};

const NAMED: &[(&str, (&str, Named, Memory))] = cases! {
    "named_column of NAME:TYPE" => "a:int", Some((b"a", Int, b"a")), Memory::Asked;
    "named_column of NAME=HEADER" => "a=A:B=C", Some((b"a", Text, b"A:B=C")), Memory::Asked;
    "named_column of NAME:TYPE=HEADER" => "a:list=b", Some((b"a", List, b"b")), Memory::Asked;
    "named_column of NAME" => "a", None, Memory::Never;
};

const NULLS: &[(&str, (&str, Pair, Memory))] = cases! {
    "null_text of NAME=TEXT" => "a:b=-", Some((b"a:b", b"-")), Memory::Asked;
    "null_text of NAME" => "a", None, Memory::Never;
};

/// A JSON text, how numbers are taken, what it assigns to `a`, and whether the call may ask for
/// memory.
type Member = (&'static str, Decimals, Said, Memory);

const MEMBERS: &[(&str, Member)] = cases! {
    "member_assignment of null" =>
        "null", Decimals::Refused, Some((b"a", Null, b"")), Memory::Asked;
    "member_assignment of true" =>
        "true", Decimals::Refused, Some((b"a", Bool, b"true")), Memory::Asked;
    "member_assignment of a text" =>
        "\"it's\"", Decimals::Refused, Some((b"a", Text, b"it's")), Memory::Asked;
    "member_assignment of a whole number" =>
        "18446744073709551615", Decimals::Text, Some((b"a", Number, b"18446744073709551615")),
        Memory::Asked;
    "member_assignment of an exact number" =>
        "1.50", Decimals::Exact, Some((b"a", Decimal, b"1.50")), Memory::Asked;
    "member_assignment of a list" =>
        "[1, 0.5, true, null, \"x\"]", Decimals::Double,
        Some((b"a", List, b"[1,0.5e0,true,null,\"x\"]")), Memory::Asked;
    "member_assignment of a list with a refused number" =>
        "[1, 1.5]", Decimals::Refused, Some((b"a", Number, b"-")), Memory::Asked;
    "member_assignment of a list with a list" => "[1, []]", Decimals::Exact, None, Memory::Asked;
    "member_assignment of an object" => "{}", Decimals::Exact, None, Memory::Never;
};

fn word_case(alloc: Global, word: &str, bytes: &[u8], wanted: Said) -> Case {
    let bytes = Vec::from_slice(alloc, bytes)?;
    let answer = word_assignment(alloc, OptionWord::new(word), bytes);
    Ok(judged(answer, Ok::<Said, &str>(wanted)))
}

fn member_case(alloc: Global, (text, decimals, wanted, memory): Member) -> Case {
    let mut scratch = Scratch::new(alloc);
    let Ok(json) = Json::parse(alloc, text, &mut scratch) else {
        return Err(AllocError);
    };
    let answer = member_assignment(alloc, "a", &json, decimals);
    Ok(judged(answer, Ok::<Said, &str>(wanted)).with(memory))
}

/// Options that name the column `Id`, and say what means NULL.
fn words(alloc: Global) -> Result<ColumnWords, AllocError> {
    let mut named = Vec::new(alloc);
    named.push(NamedColumn {
        name: Vec::from_slice(alloc, b"id")?,
        value_type: Int,
        header: Vec::from_slice(alloc, b"Id")?,
    })?;
    let mut nulls = Vec::new(alloc);
    nulls.push(NullText {
        name: Vec::from_slice(alloc, b"name")?,
        text: Vec::from_slice(alloc, b"-")?,
    })?;
    Ok(ColumnWords {
        named,
        nulls,
        null_text: Some(Vec::from_slice(alloc, b"?")?),
    })
}

/// The columns of the header `Id`, `id`, `name` and NULL.
const WANTED: &[PlainColumn] = &[
    (Some(b"id"), Int, Some(b"?"), true),
    (None, Text, Some(b"?"), false),
    (Some(b"name"), Text, Some(b"-"), true),
    (Some(b""), Text, Some(b"?"), true),
];

/// A name, a type, what means NULL, and whether it is used.
type PlainColumn = (
    Option<&'static [u8]>,
    ValueType,
    Option<&'static [u8]>,
    bool,
);

fn header_case(alloc: Global) -> Case {
    let words = words(alloc)?;
    let mut header = Vec::new(alloc);
    let text = b"Id\tid\tname\t\\N\n";
    if first_record_into(alloc, RecordFormat::MysqlTsv, text, &mut header).is_err() {
        return Err(AllocError);
    }
    let answer = columns_of(alloc, &words, header.as_slice());
    Ok(judged(answer, Ok::<&[PlainColumn], &str>(WANTED)))
}

fn column_case(alloc: Global) -> Case {
    let words = words(alloc)?;
    let said = words.column_of(b"Id");
    holds(
        said.name == Some(b"id".as_slice())
            && said.value_type == Int
            && said.null_text == Some(b"?".as_slice()),
    )
}

/// Two columns that are used, and one between them that isn't.
fn columns(alloc: Global) -> Result<Vec<Column>, AllocError> {
    let mut columns = Vec::new(alloc);
    for (name, value_type, null_text, used) in COLUMNS {
        columns.push(Column {
            name: Some(Vec::from_slice(alloc, name)?),
            value_type: *value_type,
            null_text: match null_text {
                Some(text) => Some(Vec::from_slice(alloc, text)?),
                None => None,
            },
            used: *used,
        })?;
    }
    Ok(columns)
}

const COLUMNS: &[(&[u8], ValueType, Option<&[u8]>, bool)] = &[
    (b"a", Int, Some(b"-"), true),
    (b"b", Text, None, false),
    (b"c", Text, None, true),
];

fn assignment(alloc: Global) -> Result<Assignment, AllocError> {
    Ok(Assignment {
        name: Vec::from_slice(alloc, b"d")?,
        value_type: Int,
        bytes: Vec::from_slice(alloc, b"7")?,
    })
}

fn parts_case(alloc: Global) -> Case {
    let columns = columns(alloc)?;
    let mut fixed = Vec::new(alloc);
    fixed.push(assignment(alloc)?)?;
    let answer = table_parts(alloc, columns.as_slice(), fixed.as_slice());
    Ok(judged(answer, Ok::<(), &str>(())))
}

fn taken_case(alloc: Global) -> Case {
    let columns = columns(alloc)?;
    let answer = taken_columns(alloc, columns.as_slice());
    Ok(judged(answer, Ok::<(), &str>(())))
}

fn copy_case(alloc: Global) -> Case {
    let given = assignment(alloc)?;
    Ok(match copy_of_assignment(alloc, &given) {
        Ok(copy) => Outcome::Answer.if_holds(is_assignment(&copy, (b"d", Int, b"7"))),
        Err(AllocError) => Outcome::Memory,
    })
}

fn is_assignment(
    assignment: &Assignment,
    (name, value_type, bytes): (&[u8], ValueType, &[u8]),
) -> bool {
    assignment.name.as_slice() == name
        && assignment.value_type == value_type
        && assignment.bytes.as_slice() == bytes
}

impl Is<Said> for Option<Assignment> {
    fn is(&self, wanted: Said) -> bool {
        match (self, wanted) {
            (Some(assignment), Some(wanted)) => is_assignment(assignment, wanted),
            (None, None) => true,
            _ => false,
        }
    }
}

impl Is<Named> for Option<NamedColumn> {
    fn is(&self, wanted: Named) -> bool {
        match (self, wanted) {
            (Some(column), Some((name, value_type, header))) => {
                column.name.as_slice() == name
                    && column.value_type == value_type
                    && column.header.as_slice() == header
            }
            (None, None) => true,
            _ => false,
        }
    }
}

impl Is<Pair> for Option<NullText> {
    fn is(&self, wanted: Pair) -> bool {
        match (self, wanted) {
            (Some(null), Some((name, text))) => null.name.as_slice() == name
                && null.text.as_slice() == text,
            (None, None) => true,
            _ => false,
        }
    }
}

impl Is<&[PlainColumn]> for Vec<Column> {
    fn is(&self, wanted: &[PlainColumn]) -> bool {
        self.len() == wanted.len()
            && self.iter().zip(wanted).all(|(column, (name, value_type, null, used))| {
                column.name.as_deref() == *name
                    && column.value_type == *value_type
                    && column.null_text.as_deref() == *null
                    && column.used == *used
            })
    }
}

/// Whether these are the parts of `COLUMNS` and the assignment of `d`.
impl Is<()> for TableParts<'_> {
    fn is(&self, wanted: ()) -> bool {
        self.names.as_slice() == [b"a".as_slice(), b"c".as_slice(), b"d".as_slice()].as_slice()
            && self.columns.is(wanted)
            && self.fixed.len() == 1
            && self.fixed.iter().all(|cell| cell.value_type == Int && cell.bytes == b"7".as_slice())
    }
}

/// Whether these are `COLUMNS`.
impl Is<()> for Vec<TableColumn<'_>> {
    fn is(&self, _wanted: ()) -> bool {
        self.len() == COLUMNS.len()
            && self.iter().zip(COLUMNS).all(|(column, (_, value_type, null_text, used))| {
                column.value_type == *value_type
                    && column.null_text == *null_text
                    && column.used == *used
            })
    }
}
