//! Faults of records, and the error of reading one.
use std::alloc::AllocError;

/// The kind of a fault: a piece of text that no record has at its place.
#[derive(Debug, Clone, Copy, PartialEq, Eq)]
pub enum FaultKind {
    /// A carriage return outside of quotes that isn't before a newline, in CSV and TSV.
    StrayReturn,
    /// A quote in a field without quotes, in a format that has quotes.
    StrayQuote,
    /// The quote before a field that no quote ends.
    OpenQuote,
    /// The byte after the quote that ends a field, if it is neither a separator nor a line end.
    BehindQuote,
    /// A backslash before a byte with which it makes no escape, or before no byte, in a format that
    /// has escapes.
    UnknownEscape,
}

/// The place at which a text isn't records. Here the first piece begins that no record has at its
/// place: a quote, or the byte behind one; a carriage return or a backslash, with the byte after
/// it; or a quote that no quote ends, with the rest of the text. Example: in the MySQL formats the
/// fault of `a\q` is its backslash, although the record `a\n` has that byte, too.
///
/// The bytes before a fault are the front of a record
/// ([`faults_are_first`](crate::laws::faults_are_first)), and with its piece they aren't
/// ([`faulty_pieces_are_first`](crate::laws::faulty_pieces_are_first)). A text has at most one
/// fault ([`faults_are_unambiguous`](crate::laws::faults_are_unambiguous)).
#[derive(Debug, Clone, Copy, PartialEq, Eq)]
pub struct Fault {
    /// The index of the first byte of the piece.
    pub at: usize,
    /// The kind of the fault.
    pub kind: FaultKind,
}

/// The error of reading a record.
#[derive(Debug, PartialEq, Drop)]
pub enum RecordError {
    /// The text doesn't begin with a record.
    Fault(Fault),
    /// Memory was refused. This can also come in place of a fault. No memory is asked for if the
    /// text is empty, or if its first field has a fault and isn't copied.
    Memory(AllocError),
}

impl From<AllocError> for RecordError {
    ghost use Rattle.std.specs.Prelude.{◌≡◌, alloc_error};
    ghost use Rattle.mysql_records.specs.declared.fault.RecordError.TheVariants.{Memory};

    ghost from_gives = { λ _ error. error ≡ Memory alloc_error };

    fn from(error: AllocError) -> RecordError {
        RecordError::Memory(error)
    }
}
