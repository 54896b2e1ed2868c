//! Records of a text: `first_record`, `first_record_into` and `all_rows`.
use crate::outcome::{Case, Is, Memory, cases, judged, row};
use mysql_records::RecordFormat::{self, Csv, MysqlTsv};
use mysql_records::{Field, LentField, Record, Row, all_rows, first_record, first_record_into};
use std::alloc::Global;

/// How the call of this name went, if it stands here.
pub(crate) fn case(alloc: Global, name: &str) -> Option<Case> {
    if let Some((format, text, wanted, memory)) = row(FIRST, name) {
        return Some(Ok(judged(first_record(alloc, format, text), wanted).with(memory)));
    }
    if let Some((room, row)) = row(INTO, name) {
        return Some(read_into(alloc, room, row));
    }
    let (format, text, wanted, memory) = row(ALL, name)?;
    Some(Ok(judged(all_rows(alloc, format, text), wanted).with(memory)))
}

/// The fields of a record: the bytes of each, or none where it is NULL.
type Fields = &'static [Option<&'static [u8]>];

/// A text, what is read of it or how the refusal is shown, and whether the call may ask for memory.
type ReadRow<W> = (RecordFormat, &'static [u8], Result<W, &'static str>, Memory);

const FIRST: &[(&str, ReadRow<Option<Fields>>)] = cases! {
    "first_record of fields in quotes and without" =>
        Csv, b"\"a\"\"b\",c\r\nd\r\n", Ok(Some(&[Some(b"a\"b"), Some(b"c")])), Memory::Asked;
    "first_record of NULL and escapes" =>
        MysqlTsv, b"\\N\ta\\tb\n", Ok(Some(&[None, Some(b"a\tb")])), Memory::Asked;
    "first_record of a quote in a field" =>
        Csv, b"a,b\"c", Err("Fault(Fault { at: 3, kind: StrayQuote })"), Memory::Asked;
    "first_record of an empty text" => Csv, b"", Ok(None), Memory::Never;
};

/// The room of the vector, and the same.
const INTO: &[(&str, (usize, ReadRow<Option<Fields>>))] = cases! {
    "first_record_into of fields in quotes and without" =>
        0, (Csv, b"\"a\"\"b\",c\r\nd\r\n", Ok(Some(&[Some(b"a\"b"), Some(b"c")])), Memory::Asked);
    "first_record_into of NULL and escapes" =>
        0, (MysqlTsv, b"\\N\ta\\tb\n", Ok(Some(&[None, Some(b"a\tb")])), Memory::Asked);
    "first_record_into of room and bytes as they stand" =>
        2, (Csv, b"\"a,b\",c", Ok(Some(&[Some(b"a,b"), Some(b"c")])), Memory::Never);
    "first_record_into of a quote in a field" =>
        0, (Csv, b"a,b\"c", Err("Fault(Fault { at: 3, kind: StrayQuote })"), Memory::Asked);
    "first_record_into of an empty text" => 0, (Csv, b"", Ok(None), Memory::Never);
};

const ALL: &[(&str, ReadRow<&'static [Fields]>)] = cases! {
    "all_rows of two records" =>
        Csv, b"a,b\n\"\"", Ok(&[&[Some(b"a"), Some(b"b")], &[Some(b"")]]), Memory::Asked;
    "all_rows of a fault behind a record" =>
        MysqlTsv, b"a\nb\\", Err("Fault(Fault { at: 3, kind: UnknownEscape })"), Memory::Asked;
    "all_rows of an empty text" => Csv, b"", Ok(&[]), Memory::Never;
};

/// Whether the fields are these.
fn are_fields(fields: &[Field], wanted: Fields) -> bool {
    fields.len() == wanted.len()
        && fields.iter().zip(wanted).all(|(field, wanted)| match (field, wanted) {
            (Field::Null, None) => true,
            (Field::Bytes(bytes), Some(wanted)) => bytes.as_slice() == *wanted,
            _ => false,
        })
}

impl Is<Option<Fields>> for Option<Record<'_>> {
    fn is(&self, wanted: Option<Fields>) -> bool {
        match (self, wanted) {
            (None, None) => true,
            (Some(record), Some(wanted)) => are_fields(record.fields.as_slice(), wanted),
            _ => false,
        }
    }
}

/// The same for fields that lie in a text, as `first_record_into` reads them.
fn read_into(alloc: Global, room: usize, row: ReadRow<Option<Fields>>) -> Case {
    let (format, text, wanted, memory) = row;
    let mut fields = Vec::with_capacity(alloc, room)?;
    let answer = match first_record_into(alloc, format, text, &mut fields) {
        Ok(Some(_)) => Ok(Some(fields)),
        Ok(None) => Ok(None),
        Err(error) => Err(error),
    };
    Ok(judged(answer, wanted).with(memory))
}

impl Is<Option<Fields>> for Option<Vec<LentField<'_>>> {
    fn is(&self, wanted: Option<Fields>) -> bool {
        match (self, wanted) {
            (None, None) => true,
            (Some(fields), Some(wanted)) => {
                fields.len() == wanted.len()
                    && fields
                        .iter()
                        .zip(wanted)
                        .all(|(field, wanted)| field.bytes() == *wanted)
            }
            _ => false,
        }
    }
}

/// Whether the rows have these fields.
fn are_rows(rows: &[Row], wanted: &'static [Fields]) -> bool {
    if rows.len() != wanted.len() {
        return false;
    }
    for i in 0..rows.len() {
        if !are_fields(rows[i].fields.as_slice(), wanted[i]) {
            return false;
        }
    }
    true
}

impl Is<&'static [Fields]> for Vec<Row> {
    fn is(&self, wanted: &'static [Fields]) -> bool {
        are_rows(self.as_slice(), wanted)
    }
}
