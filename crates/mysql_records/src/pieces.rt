//! The bytes of a field, as a text has them.
ghost use Rattle.std.specs.Prelude.{◌≡◌, ◌≢◌, ℕ, ◌<◌, ◌≤◌, IfErr, IfOk, IfSome, IfNone, IsFalse, IsTrue, ◌∷◌, ◌++◌, List, Some, length, slice_index, take};
ghost use Rattle.std.specs.List.{list_any};
ghost use Rattle.mysql_records.specs.Formats.{doubles_quotes, escape_value, has_escapes, is_special};
ghost use Rattle.mysql_records.specs.Records.{IsPiece};
ghost use Rattle.mysql_records.specs.Fields.{AreHeldPieces, BeginsSpecial, BeginsWithPieces, StartsNoPiece};
ghost use Rattle.mysql_records.specs.LentFields.{HasPair};
ghost use Rattle.mysql_records.specs.Seen.{lent_seen};

use crate::format::RecordFormat;
use crate::lent::LentField;
use std::alloc::{AllocError, Global};

// The longest row of pieces at the front of a text as a field, and the text after it. If each byte
// stands for itself, they are borrowed.
pub(crate) fn lent_pieces<'a>(
    alloc: Global,
    format: RecordFormat,
    quoted: bool,
    text: &'a [u8],
) -> Result<(LentField<'a>, &'a [u8]), AllocError>
    ensures read { IfOk result (λ read. (bytes : List ℕ) × (lent_seen read.0 ≡ Some bytes)
        × BeginsWithPieces format quoted text.now bytes read.1.now) }
    ensures held { IfOk result (λ read. AreHeldPieces format quoted text.now read.0) }
    ensures memory { IfErr result (λ error. HasPair format quoted text.now) }
{
    let len = raw_len(format, quoted, text);
    let rest = &text[len..];
    if pair(format, quoted, rest).is_none() {
        return Ok((LentField::Lent(&text[..len]), rest));
    }
    let (bytes, back) = pieces(alloc, format, quoted, text)?;
    Ok((LentField::Made(bytes), back))
}

// The bytes of the longest row of pieces at the front of a text, and the text after it.
fn pieces<'a>(
    alloc: Global,
    format: RecordFormat,
    quoted: bool,
    text: &'a [u8],
) -> Result<(Vec<u8>, &'a [u8]), AllocError>
    ensures { IfOk result (λ read.
        BeginsWithPieces format quoted text.now read.0.items read.1.now) }
{
    let mut bytes = Vec::new(alloc);
    let mut rest = text;
    'pieces: loop {
        let len = raw_len(format, quoted, rest);
        bytes.extend_from_slice(&rest[..len])?;
        rest = &rest[len..];
        match pair(format, quoted, rest) {
            Some((byte, behind)) => {
                if bytes.push(byte).is_err() {
                    return Err(AllocError);
                }
                rest = behind;
            }
            None => return Ok((bytes, rest)),
        }
    }
}

// The number of bytes at the front of a text that stand for themselves.
fn raw_len(format: RecordFormat, quoted: bool, text: &[u8]) -> usize
    ensures within { result ≤ length text.now }
    ensures raw { IsFalse (list_any (is_special format quoted) (take result text.now)) }
    ensures special { result < length text.now →
        IsTrue (is_special format quoted (slice_index text.now result)) }
{
    for (i, byte) in text.iter().enumerate() {
        if is_special(format, quoted, *byte) {
            return i;
        }
    }
    text.len()
}

// The byte for which two bytes at the front of a text stand, and the text after them.
fn pair<'a>(format: RecordFormat, quoted: bool, text: &'a [u8]) -> Option<(u8, &'a [u8])>
    requires { BeginsSpecial format quoted text.now }
    ensures some { IfSome result (λ read. (piece : List ℕ) × IsPiece format quoted read.0 piece
        × (text.now ≡ piece ++ read.1.now) × (length piece ≡ 2)) }
    ensures shorter { IfSome result (λ read. length read.1.now < length text.now) }
    ensures none { IfNone result (StartsNoPiece format quoted text.now) }
{
    if doubles_quotes(format, quoted) {
        let rest = behind(behind(text, b'"')?, b'"')?;
        return Some((b'"', rest));
    }
    if has_escapes(format) {
        let (second, rest) = behind(text, b'\\')?.split_first()?;
        return Some((escape_value(*second)?, rest));
    }
    None
}

// The text after a byte, if the text begins with this byte.
pub(crate) fn behind(text: &[u8], byte: u8) -> Option<&[u8]>
    ensures some { IfSome result (λ rest. text.now ≡ byte ∷ rest.now) }
    ensures none { IfNone result ((rest : List ℕ) → text.now ≢ byte ∷ rest) }
{
    let (first, rest) = text.split_first()?;
    if *first == byte { Some(rest) } else { None }
}

// Whether a byte doesn't stand for itself in a field.
fn is_special(format: RecordFormat, quoted: bool, byte: u8) -> bool
    ensures { result ≡ is_special format quoted byte }
{
    match format {
        RecordFormat::Csv if quoted => byte == b'"',
        RecordFormat::Csv => byte == b'"' || byte == b',' || byte == b'\r' || byte == b'\n',
        RecordFormat::Tsv => byte == b'\t' || byte == b'\r' || byte == b'\n',
        RecordFormat::MysqlCsv if quoted => byte == b'"' || byte == b'\\',
        RecordFormat::MysqlCsv => byte == b'"' || byte == b'\\' || byte == b',' || byte == b'\n',
        RecordFormat::MysqlTsv => byte == b'\\' || byte == b'\t' || byte == b'\n',
    }
}

// Whether two quotes stand for one quote in a field.
fn doubles_quotes(format: RecordFormat, quoted: bool) -> bool
    ensures { result ≡ doubles_quotes format quoted }
{
    match format {
        RecordFormat::Csv => quoted,
        RecordFormat::Tsv | RecordFormat::MysqlCsv | RecordFormat::MysqlTsv => false,
    }
}

// Whether a backslash escapes the byte after it.
pub(crate) fn has_escapes(format: RecordFormat) -> bool
    ensures { result ≡ has_escapes format }
{
    match format {
        RecordFormat::Csv | RecordFormat::Tsv => false,
        RecordFormat::MysqlCsv | RecordFormat::MysqlTsv => true,
    }
}

// The byte for which a backslash and this byte stand.
fn escape_value(byte: u8) -> Option<u8>
    ensures { result ≡ escape_value byte }
{
    match byte {
        b'0' => Some(0),
        b'b' => Some(8),
        b'n' => Some(b'\n'),
        b'r' => Some(b'\r'),
        b't' => Some(b'\t'),
        b'Z' => Some(26),
        b'\\' | b'"' | b'\'' | b',' | b'\t' | b'\r' | b'\n' => Some(byte),
        _ => None,
    }
}
