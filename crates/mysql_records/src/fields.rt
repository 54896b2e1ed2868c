//! A field at the front of a text, and the text after it.
ghost use Rattle.std.specs.Prelude.{◌≡◌, ◌≢◌, ℕ, IfErr, IfOk, IfNone, IfSome, IsTrue, List, [], ◌∷◌, ◌++◌, true, false};
ghost use Rattle.std.specs.Str.{byte};
ghost use Rattle.mysql_records.specs.Formats.{backslash, has_escapes, has_quotes, quote, separator};
ghost use Rattle.mysql_records.specs.Seen.{lent_seen};
ghost use Rattle.mysql_records.specs.Fields.{IsFieldEnd, IsFieldRefusal, StartsNoPiece};
ghost use Rattle.mysql_records.specs.LentFields.{IsHeld};
ghost use Rattle.mysql_records.specs.Faults.{BeginsWithNoNull, IsFaultAt, IsFieldBefore};
ghost use Rattle.mysql_records.specs.Records.{BeginsWithField, EndsField, IsPieces};

use crate::fault::FaultKind;
use crate::format::RecordFormat;
use crate::lent::LentField;
use crate::pieces::{behind, has_escapes, lent_pieces};
use std::alloc::{AllocError, Global};

// The cause for which no field is read.
#[derive(Drop)]
pub(crate) enum FieldError<'a> {
    // The text doesn't begin with a field: the kind of the fault, and the text from the fault on.
    Fault(FaultKind, &'a [u8]),
    // Out of memory.
    Memory(AllocError),
}

impl<'a> From<AllocError> for FieldError<'a> {
    ghost use Rattle.std.specs.Prelude.{◌≡◌, alloc_error};
    ghost use Rattle.mysql_records.specs.declared.fields.FieldError.TheVariants.{Memory};

    ghost from_gives = { λ _ error. error ≡ Memory alloc_error };

    fn from(error: AllocError) -> FieldError<'a> {
        FieldError::Memory(error)
    }
}

// The end of a field, and the text after it.
#[derive(Clone, Copy)]
pub(crate) enum FieldEnd<'a> {
    // A separator.
    Separator(&'a [u8]),
    // A line end, or the end of the text.
    Record(&'a [u8]),
}

// The field at the front of a text, and the text after it.
pub(crate) fn first_field<'a>(
    alloc: Global,
    format: RecordFormat,
    text: &'a [u8],
) -> Result<(LentField<'a>, &'a [u8]), FieldError<'a>>
    ensures read { IfOk result (λ read.
        BeginsWithField format text.now (lent_seen read.0) read.1.now) }
    ensures held { IfOk result (λ read. IsHeld format text.now read.0) }
    ensures refused { IfErr result (IsFieldRefusal format text.now) }
{
    if let Some(rest) = behind_null(format, text) {
        return Ok((LentField::Null, rest));
    }
    if let Some(tail) = behind_quote(format, text) {
        return enclosed_field(alloc, format, text, tail);
    }
    bare_field(alloc, format, text)
}

// The field in quotes at the front of a text, and the text after it.
fn enclosed_field<'a>(
    alloc: Global,
    format: RecordFormat,
    text: &'a [u8],
    tail: &'a [u8],
) -> Result<(LentField<'a>, &'a [u8]), FieldError<'a>>
    requires quotes { IsTrue (has_quotes format) }
    requires whole { text.now ≡ quote ∷ tail.now }
    ensures read { IfOk result (λ read.
        BeginsWithField format text.now (lent_seen read.0) read.1.now) }
    ensures held { IfOk result (λ read. IsHeld format text.now read.0) }
    ensures refused { IfErr result (IsFieldRefusal format text.now) }
{
    let (field, back) = lent_pieces(alloc, format, true, tail)?;
    if back.is_empty() {
        return Err(FieldError::Fault(FaultKind::OpenQuote, text));
    }
    let Some(rest) = behind(back, b'"') else {
        return Err(FieldError::Fault(FaultKind::UnknownEscape, back));
    };
    if field_end(format, rest).is_some() {
        return Ok((field, rest));
    }
    Err(FieldError::Fault(fault_behind_quote(format, rest), rest))
}

// The fault of a text that comes after the quote at the end of a field, and can't come after a
// field.
fn fault_behind_quote(format: RecordFormat, rest: &[u8]) -> FaultKind
    requires longest { StartsNoPiece format true (quote ∷ rest.now) }
    requires no_end { EndsField format rest.now → ⊥ }
    ensures before { (bytes front : List ℕ) → IsTrue (has_quotes format) →
        IsPieces format true bytes front →
        IsFieldBefore format rest.now result (quote ∷ front ++ quote ∷ []) }
    ensures stands { IsFaultAt format result rest.now }
{
    if !has_escapes(format) && behind(rest, b'\r').is_some() {
        FaultKind::StrayReturn
    } else {
        FaultKind::BehindQuote
    }
}

// The field without quotes at the front of a text, and the text after it.
fn bare_field<'a>(
    alloc: Global,
    format: RecordFormat,
    text: &'a [u8],
) -> Result<(LentField<'a>, &'a [u8]), FieldError<'a>>
    requires no_quote { (tail : List ℕ) → IsTrue (has_quotes format) → text.now ≢ quote ∷ tail }
    requires no_null { (rest : List ℕ) → IsTrue (has_escapes format) →
        text.now ≡ backslash ∷ byte "N" ∷ rest → EndsField format rest → ⊥ }
    ensures read { IfOk result (λ read.
        BeginsWithField format text.now (lent_seen read.0) read.1.now) }
    ensures held { IfOk result (λ read. IsHeld format text.now read.0) }
    ensures refused { IfErr result (IsFieldRefusal format text.now) }
{
    let (field, back) = lent_pieces(alloc, format, false, text)?;
    if field_end(format, back).is_some() {
        return Ok((field, back));
    }
    Err(FieldError::Fault(fault_without_quotes(format, back), back))
}

// The fault of a text that comes after the pieces of a field without quotes, and can't come after a
// field.
fn fault_without_quotes(format: RecordFormat, back: &[u8]) -> FaultKind
    requires longest { StartsNoPiece format false back.now }
    requires no_end { EndsField format back.now → ⊥ }
    ensures before { (bytes front : List ℕ) → IsPieces format false bytes front →
        ((tail : List ℕ) → IsTrue (has_quotes format) → front ++ back.now ≢ quote ∷ tail) →
        (IsTrue (has_escapes format) → BeginsWithNoNull format (front ++ back.now)) →
        IsFieldBefore format back.now result front }
    ensures stands { IsFaultAt format result back.now }
{
    if behind(back, b'"').is_some() {
        FaultKind::StrayQuote
    } else if behind(back, b'\\').is_some() {
        FaultKind::UnknownEscape
    } else {
        FaultKind::StrayReturn
    }
}

// The text after `\N`, if that is the field at the front.
fn behind_null<'a>(format: RecordFormat, text: &'a [u8]) -> Option<&'a [u8]>
    ensures some { IfSome result (λ rest. IsTrue (has_escapes format)
        × (text.now ≡ backslash ∷ byte "N" ∷ rest.now) × EndsField format rest.now) }
    ensures none { IfNone result ((rest : List ℕ) → IsTrue (has_escapes format) →
        text.now ≡ backslash ∷ byte "N" ∷ rest → EndsField format rest → ⊥) }
{
    if !has_escapes(format) {
        return None;
    }
    let rest = behind(behind(text, b'\\')?, b'N')?;
    if field_end(format, rest).is_some() {
        Some(rest)
    } else {
        None
    }
}

// The text after the quote at the front of a text, if the quote opens a field.
fn behind_quote<'a>(format: RecordFormat, text: &'a [u8]) -> Option<&'a [u8]>
    ensures some { IfSome result (λ tail. IsTrue (has_quotes format)
        × (text.now ≡ quote ∷ tail.now)) }
    ensures none { IfNone result ((tail : List ℕ) → IsTrue (has_quotes format) →
        text.now ≢ quote ∷ tail) }
{
    match format {
        RecordFormat::Csv | RecordFormat::MysqlCsv => behind(text, b'"'),
        RecordFormat::Tsv | RecordFormat::MysqlTsv => None,
    }
}

// The end of a field, if the text can come after one.
pub(crate) fn field_end<'a>(format: RecordFormat, text: &'a [u8]) -> Option<FieldEnd<'a>>
    ensures some { IfSome result (IsFieldEnd format text.now) }
    ensures none { IfNone result (EndsField format text.now → ⊥) }
{
    if text.is_empty() {
        return Some(FieldEnd::Record(text));
    }
    if let Some(rest) = behind(text, separator(format)) {
        return Some(FieldEnd::Separator(rest));
    }
    if let Some(rest) = behind(text, b'\n') {
        return Some(FieldEnd::Record(rest));
    }
    if has_escapes(format) {
        return None;
    }
    let rest = behind(behind(text, b'\r')?, b'\n')?;
    Some(FieldEnd::Record(rest))
}

// The byte between the fields of a record.
fn separator(format: RecordFormat) -> u8
    ensures { result ≡ separator format }
{
    match format {
        RecordFormat::Csv | RecordFormat::MysqlCsv => b',',
        RecordFormat::Tsv | RecordFormat::MysqlTsv => b'\t',
    }
}
