//! The columns of a table: what its header and options say of each.
ghost use Rattle.std.specs.Prelude.{◌≡◌, IfOk, map, option_map};
ghost use Rattle.mysql_records.specs.Seen.{lent_seen};
ghost use Rattle.mysql_bind_core.specs.Headers.{column_name, column_seen, column_type, column_under, has_name, header_of, null_of, null_text, with_header};

use crate::value_type::ValueType;
use mysql_records::LentField;
use std::alloc::{AllocError, Global};

/// A column that an option names by its header.
#[derive(Debug, Drop)]
pub struct NamedColumn {
    /// The name that the column is bound to.
    pub name: Vec<u8>,
    /// How its fields are interpreted.
    pub value_type: ValueType,
    /// The column's field in the header.
    pub header: Vec<u8>,
}

/// The text that means NULL in one column.
#[derive(Debug, Drop)]
pub struct NullText {
    /// The name that the column is bound to.
    pub name: Vec<u8>,
    /// The bytes of a field that mean NULL.
    pub text: Vec<u8>,
}

/// The options that describe columns. Of two with the same header or name, the first counts.
#[derive(Debug, Drop)]
pub struct ColumnWords {
    /// The columns that have names, or types, of their own.
    pub named: Vec<NamedColumn>,
    /// The texts that mean NULL in one column.
    pub nulls: Vec<NullText>,
    /// The text that means NULL in each other column, if one does.
    pub null_text: Option<Vec<u8>>,
}

/// The description of a column.
#[derive(Debug, Clone, Copy)]
pub struct ColumnSaid<'w> {
    /// The name that it is bound to; none if an option gives this name to another column.
    pub name: Option<&'w [u8]>,
    /// How its fields are interpreted.
    pub value_type: ValueType,
    /// The bytes of a field that mean NULL, if any do.
    pub null_text: Option<&'w [u8]>,
}

impl ColumnWords {
    /// The description of the column with this header. Headers and names are compared byte by byte,
    /// so `Id` isn't `id`. Without an option a column has its header for its name, and is text.
    pub fn column_of<'w>(&'w self, header: &'w [u8]) -> ColumnSaid<'w>
        ensures name { option_map (λ part. part.now) result.name
            ≡ column_name self.now.named.items header.now }
        ensures value_type { result.value_type
            ≡ column_type (with_header self.now.named.items header.now) }
        ensures null_text { option_map (λ part. part.now) result.null_text
            ≡ null_text self.now (column_name self.now.named.items header.now) }
    {
        let found = with_header(self.named.as_slice(), header);
        let name = match found {
            Some(column) => Some(column.name.as_slice()),
            None if has_name(self.named.as_slice(), header) => None,
            None => Some(header),
        };
        let value_type = match found {
            Some(column) => column.value_type,
            None => ValueType::Text,
        };
        ColumnSaid {
            name,
            value_type,
            null_text: self.null_text_of(name),
        }
    }

    // The bytes that mean NULL in a column with this name.
    fn null_text_of(&self, name: Option<&[u8]>) -> Option<&[u8]>
        ensures { option_map (λ part. part.now) result
            ≡ null_text self.now (option_map (λ part. part.now) name.entry) }
    {
        let own = match name {
            Some(name) => null_of(self.nulls.as_slice(), name),
            None => None,
        };
        match own {
            Some(text) => Some(text),
            None => match &self.null_text {
                Some(text) => Some(text.as_slice()),
                None => None,
            },
        }
    }
}

// The first of these columns with this header.
fn with_header<'w>(columns: &'w [NamedColumn], header: &[u8]) -> Option<&'w NamedColumn>
    ensures { option_map (λ column. column.now) result ≡ with_header columns.now header.now }
{
    for i in 0..columns.len() {
        if columns[i].header.as_slice() == header {
            return Some(&columns[i]);
        }
    }
    None
}

// Whether one of these columns has this name.
fn has_name(columns: &[NamedColumn], name: &[u8]) -> bool
    ensures { result ≡ has_name columns.now name.now }
{
    columns.iter().any(|column| column.name.as_slice() == name)
}

// The text that the first of these says to mean NULL in a column with this name.
fn null_of<'w>(nulls: &'w [NullText], name: &[u8]) -> Option<&'w [u8]>
    ensures { option_map (λ part. part.now) result ≡ null_of nulls.now name.now }
{
    for i in 0..nulls.len() {
        if nulls[i].name.as_slice() == name {
            return Some(nulls[i].text.as_slice());
        }
    }
    None
}

/// A column of a table, as a header and the options describe it.
#[derive(Debug, Drop)]
pub struct Column {
    /// The name that it is bound to; none if an option gives this name to another column.
    pub name: Option<Vec<u8>>,
    /// How its fields are interpreted.
    pub value_type: ValueType,
    /// The bytes of a field that mean NULL, if any do.
    pub null_text: Option<Vec<u8>>,
    /// Whether its fields are bound, if it has a name.
    pub used: bool,
}

/// The columns of the fields of a header, in their order. Each is used if it has a name. A field
/// that is NULL is the empty header.
pub fn columns_of(
    alloc: Global,
    words: &ColumnWords,
    header: &[LentField<'_>],
) -> Result<Vec<Column>, AllocError>
    ensures { IfOk result (λ columns.
        map (λ field. column_under words.now (lent_seen field)) header.now
        ≡ map column_seen columns.items) }
{
    let mut columns = Vec::with_capacity(alloc, header.len())?;
    for field in header {
        columns.push(column_under(alloc, words, field)?)?;
    }
    Ok(columns)
}

// The column with this field in the header.
fn column_under(
    alloc: Global,
    words: &ColumnWords,
    field: &LentField<'_>,
) -> Result<Column, AllocError>
    ensures { IfOk result (λ column.
        column_seen column ≡ column_under words.now (lent_seen field.now)) }
{
    let said = words.column_of(header_of(field));
    Ok(Column {
        name: copy_of(alloc, said.name)?,
        value_type: said.value_type,
        null_text: copy_of(alloc, said.null_text)?,
        used: said.name.is_some(),
    })
}

// The bytes of a field of a header.
fn header_of<'f>(field: &'f LentField<'_>) -> &'f [u8]
    ensures { result.now ≡ header_of (lent_seen field.now) }
{
    match field.bytes() {
        Some(bytes) => bytes,
        None => b"",
    }
}

// A copy of bytes, if there are some.
fn copy_of(alloc: Global, bytes: Option<&[u8]>) -> Result<Option<Vec<u8>>, AllocError>
    ensures { IfOk result (λ copy.
        option_map (λ part. part.items) copy ≡ option_map (λ part. part.now) bytes.entry) }
{
    match bytes {
        Some(bytes) => Ok(Some(Vec::from_slice(alloc, bytes)?)),
        None => Ok(None),
    }
}
