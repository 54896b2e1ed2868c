//! Laws about the definitions that the contracts cite. They do nothing: each is called for its
//! `ensures`.
ghost use Rattle.std.specs.Prelude.{◌≡◌, ◌==◌, ℕ, ◌+◌, Bool, false, IsTrue, IsFalse, List, ◌∷◌, ◌++◌, Option, Some, drop, take};
ghost use Rattle.std.specs.List.{list_any};
ghost use Rattle.mysql_records.specs.Faults.{IsFaulty, IsFaultyTable};
ghost use Rattle.mysql_records.specs.FaultyPieces.{IsFirstWrong, IsFrontOfRecord, IsFrontOfTable, IsLastOfPiece};
ghost use Rattle.mysql_records.specs.Formats.{has_quotes};
ghost use Rattle.mysql_records.specs.Records.{BeginsWithRecord, IsLineEnd, IsRecord, IsTable};
ghost use Rattle.mysql_records.specs.WrittenRecords.{Cell, IsWritable, IsWritableTable, IsWriter, Writer, fields_of, written_table};
ghost use Rattle.mysql_records.specs.Writers.{ArePlainNames, client_table, client_writer, name_fields, unwritable_bytes, usual_writer};
ghost use Rattle.mysql_records.specs.declared.fault.Fault.{Fault};
ghost use Rattle.mysql_records.specs.declared.format.RecordFormat.{RecordFormat};
ghost use Rattle.mysql_records.specs.declared.format.RecordFormat.TheVariants.{MysqlTsv};

/// A text is at most one table.
pub fn tables_are_unambiguous()
    ensures records { (format : RecordFormat) (text : List ℕ)
        (fields others : List (Option (List ℕ))) (rest more : List ℕ) →
        BeginsWithRecord format text fields rest → BeginsWithRecord format text others more →
        (fields ≡ others) × (rest ≡ more) }
    ensures tables { (format : RecordFormat) (rows others : List (List (Option (List ℕ))))
        (text : List ℕ) → IsTable format rows text → IsTable format others text →
        rows ≡ others }
{}

/// A text has at most one fault: no other byte and no other kind is reported.
pub fn faults_are_unambiguous()
    ensures records { (format : RecordFormat) (text : List ℕ) (fault other : Fault) →
        IsFaulty format text fault → IsFaulty format text other → fault ≡ other }
    ensures tables { (format : RecordFormat) (text : List ℕ) (fault other : Fault) →
        IsFaultyTable format text fault → IsFaultyTable format text other → fault ≡ other }
{}

/// A fault is the first one: the bytes before it are the front of a record, and in a table the
/// front of a table. With other bytes from the fault on, the text is a record or a table.
pub fn faults_are_first()
    ensures records { (format : RecordFormat) (text : List ℕ) (fault : Fault) →
        IsFaulty format text fault → (more : List ℕ) × (fields : List (Option (List ℕ)))
        × IsRecord format fields (take fault.at text ++ more) }
    ensures tables { (format : RecordFormat) (text : List ℕ) (fault : Fault) →
        IsFaultyTable format text fault → (more : List ℕ) × (rows : List (List (Option (List ℕ))))
        × IsTable format rows (take fault.at text ++ more) }
{}

/// The piece that begins at a fault is the first one that no record has there. Up to the last byte
/// of the piece, the text can go on to a record. With this byte it can't, whatever follows. So in
/// CSV no record begins with `a"`, or with a carriage return and `b`. In the MySQL formats none
/// begins with a backslash and `q`. If the text ends within the piece, as behind an open quote,
/// only its end is wrong. The same holds for tables.
pub fn faulty_pieces_are_first()
    ensures records { (format : RecordFormat) (text : List ℕ) (fault : Fault) →
        IsFaulty format text fault → (last : ℕ)
        × IsLastOfPiece fault.kind (drop fault.at text) last
        × IsFirstWrong (IsFrontOfRecord format) text (fault.at + last) }
    ensures tables { (format : RecordFormat) (text : List ℕ) (fault : Fault) →
        IsFaultyTable format text fault → (last : ℕ)
        × IsLastOfPiece fault.kind (drop fault.at text) last
        × IsFirstWrong (IsFrontOfTable format) text (fault.at + last) }
{}

/// The text that a writer makes of a table is read as that table, and as no other. This holds for
/// any choice of fields in quotes and of escapes, and with or without a line end after the last
/// record. So no byte of a field that is written like this begins a field or a record.
///
/// A writer here escapes each occurrence of a byte in the same way. Where a text escapes only some
/// of them, each is still a piece by itself. So that text is a table by definition, and no other
/// table ([`tables_are_unambiguous`]).
pub fn written_tables_are_read()
    ensures table { (writer : Writer) (rows : List (List Cell)) →
        IsWriter writer → IsWritableTable writer rows →
        IsTable writer.format (fields_of rows) (written_table writer rows) }
    ensures only { (writer : Writer) (rows : List (List Cell))
        (others : List (List (Option (List ℕ)))) →
        IsWriter writer → IsWritableTable writer rows →
        IsTable writer.format others (written_table writer rows) → others ≡ fields_of rows }
{}

/// Writers of CSV and TSV, servers with `[OPTIONALLY] ENCLOSED BY` or with tabs, and clients with
/// `mysql --batch`, for its rows, are writers in the sense of [`written_tables_are_read`]. They can
/// write each field that has none of these bytes:
/// - in TSV a tab, CR and LF;
/// - in CSV without quotes a quote, a comma, CR and LF;
/// - in a server's file with commas, in a field without quotes, a quote.
///
/// MariaDB isn't such a writer for a column of the type `BIT`, which it writes as it is. Nor is
/// `mysql --batch` for its first line, the names of the columns, in which it escapes nothing. The
/// names and the rows that it writes are read as they are if no name has a tab, LF or backslash.
/// Example: a column without an alias can have a string's content for its name.
pub fn usual_writers_are_writers()
    ensures writers { (format : RecordFormat) (line_end : List ℕ) (ends_last : Bool) →
        IsLineEnd format line_end → IsWriter (usual_writer format line_end ends_last) }
    ensures fields { (format : RecordFormat) (line_end : List ℕ) (ends_last quoted : Bool)
        (bytes : List ℕ) → (IsTrue quoted → IsTrue (has_quotes format)) →
        IsFalse (list_any (λ b. list_any (λ other. b == other) (unwritable_bytes format quoted))
        bytes) →
        IsWritable (usual_writer format line_end ends_last) quoted (Some bytes) }
    ensures clients { IsWriter client_writer }
    ensures client_fields { (bytes : List ℕ) → IsWritable client_writer false (Some bytes) }
    ensures client_tables { (names : List (List ℕ)) (rows : List (List Cell)) →
        ArePlainNames names → IsWritableTable client_writer rows →
        IsTable MysqlTsv (name_fields names ∷ fields_of rows) (client_table names rows) }
{}
