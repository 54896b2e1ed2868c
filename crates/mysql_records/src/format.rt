//! The formats of records.

/// A format of records.
#[derive(Debug, Clone, Copy, PartialEq, Eq)]
pub enum RecordFormat {
    /// RFC 4180, section 2: commas between fields, and quotes around a field where they are needed.
    /// LF ends a line, and so does CR LF.
    Csv,
    /// Tabs between fields, no quotes and no escapes.
    Tsv,
    /// The format that
    /// `SELECT .. INTO OUTFILE .. FIELDS TERMINATED BY ',' [OPTIONALLY] ENCLOSED BY '"'` writes.
    MysqlCsv,
    /// The format that `SELECT .. INTO OUTFILE` with escapes writes, and `mysql --batch` for its
    /// rows.
    MysqlTsv,
}
