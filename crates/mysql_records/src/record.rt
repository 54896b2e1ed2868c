//! A record at the front of a text.
ghost use Rattle.std.specs.Prelude.{◌≡◌, ◌≢◌, ◌<◌, ◌≤◌, length, IfErr, IfNone, IfOk, IfSome, IsNone, ◌↔◌, [], vec_capacity};
ghost use Rattle.mysql_records.specs.Faults.{IsRefusal};
ghost use Rattle.mysql_records.specs.LentFields.{AreFieldsBeforeError, AreHeld, HasMemoryCause};
ghost use Rattle.mysql_records.specs.Records.{BeginsWithRecord};
ghost use Rattle.mysql_records.specs.Seen.{fields_seen, lent_fields_seen};

use crate::fault::{Fault, RecordError};
use crate::fields::{FieldEnd, FieldError, field_end, first_field};
use crate::format::RecordFormat;
use crate::lent::LentField;
use std::alloc::{AllocError, Global};

/// A field of a record.
#[derive(Debug, PartialEq, Drop)]
pub enum Field {
    /// `\N` without quotes, in the MySQL formats.
    Null,
    /// Its bytes, without quotes and escapes.
    Bytes(Vec<u8>),
}

/// A record, and the text after it.
#[derive(Debug, Drop)]
pub struct Record<'a> {
    /// Its fields, at least one.
    pub fields: Vec<Field>,
    /// The text after its line end, which begins with the next record.
    pub rest: &'a [u8],
}

/// Returns the record at the front of a text, or `None` exactly if the text is empty. To read all
/// records, go on with the `rest` of each. The time is linear in the length of the record. It asks
/// for memory only if the text begins with a field, or with one that is copied up to its fault.
pub fn first_record<'a>(
    alloc: Global,
    format: RecordFormat,
    text: &'a [u8],
) -> Result<Option<Record<'a>>, RecordError>
    ensures none { IfOk result (λ found. IsNone found ↔ (text.now ≡ [])) }
    ensures read { IfOk result (λ found. IfSome found (λ read.
        BeginsWithRecord format text.now (fields_seen read.fields.items) read.rest.now)) }
    ensures shorter { IfOk result (λ found. IfSome found (λ read.
        length read.rest.now < length text.now)) }
    ensures refused { IfErr result (IsRefusal format text.now) }
    ensures some { IfErr result (λ error. text.now ≢ []) }
    ensures memory { IfErr result (HasMemoryCause format text.now) }
{
    let mut lent = Vec::new(alloc);
    let Some(rest) = first_record_into(alloc, format, text, &mut lent)? else {
        return Ok(None);
    };
    let fields = owned_fields(alloc, lent)?;
    Ok(Some(Record { fields, rest }))
}

// The fields with their bytes as vectors.
fn owned_fields(alloc: Global, lent: Vec<LentField<'_>>) -> Result<Vec<Field>, AllocError>
    ensures { IfOk result (λ fields.
        fields_seen fields.items ≡ lent_fields_seen lent.entry.items) }
{
    let mut fields = Vec::with_capacity(alloc, lent.len())?;
    for field in lent {
        let owned = field.into_field(alloc)?;
        if fields.push(owned).is_err() {
            return Err(AllocError);
        }
    }
    Ok(fields)
}

/// Reads the record at the front of a text into the vector, in place of the fields that it has.
/// Returns the text after the record's line end, or `None` exactly if the text is empty. Then the
/// vector is empty, too. The record is the same as for [`first_record`], but a field is lent unless
/// the text has a quote or a backslash before one of its bytes. So one vector is enough for all
/// records of a text.
///
/// It asks for memory only for a field that is copied, or if the vector's capacity is too small for
/// the fields. After an error the vector has the fields before the one that isn't read, which has
/// the fault or asked for the memory.
pub fn first_record_into<'a>(
    alloc: Global,
    format: RecordFormat,
    text: &'a [u8],
    fields: &mut Vec<LentField<'a>>,
) -> Result<Option<&'a [u8]>, RecordError>
    ensures none { IfOk result (λ found. IsNone found ↔ (text.now ≡ [])) }
    ensures read { IfOk result (λ found. IfSome found (λ rest.
        BeginsWithRecord format text.now (lent_fields_seen fields.new.items) rest.now)) }
    ensures shorter { IfOk result (λ found. IfSome found (λ rest.
        length rest.now < length text.now)) }
    ensures refused { IfErr result (IsRefusal format text.now) }
    ensures some { IfErr result (λ error. text.now ≢ []) }
    ensures lent { AreHeld format text.now fields.new.items }
    ensures empty { IfOk result (λ found. IfNone found (fields.new.items ≡ [])) }
    ensures before { IfErr result (AreFieldsBeforeError format text.now
        (vec_capacity fields.old) (lent_fields_seen fields.new.items)) }
    ensures room { vec_capacity fields.old ≤ vec_capacity fields.new }
{
    fields.clear();
    if text.is_empty() {
        return Ok(None);
    }
    let mut rest = text;
    'fields: loop {
        let (field, back) = match first_field(alloc, format, rest) {
            Ok(read) => read,
            Err(error) => match error {
                FieldError::Memory(error) => return Err(RecordError::Memory(error)),
                FieldError::Fault(kind, from) => {
                    let at = text.len() - from.len();
                    return Err(RecordError::Fault(Fault { at, kind }));
                }
            },
        };
        if fields.push(field).is_err() {
            return Err(RecordError::Memory(AllocError));
        }
        let Some(end) = field_end(format, back) else {
            unreachable!()
        };
        match end {
            FieldEnd::Separator(more) => rest = more,
            FieldEnd::Record(rest) => return Ok(Some(rest)),
        }
    }
}
