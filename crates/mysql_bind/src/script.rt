//! The rows that are bound, and the messages about a refused row.
use crate::columns::Wanted;
use crate::complaint::Complaint;
use crate::output::write_text;
use crate::progress::Progress;
use crate::query_file::complaint_of;
use crate::refused_row::{RowAt, complaint_of_row};
use crate::values::Values;
use mysql_bind_core::{
    Assignment, COMMIT, RefusedRow, Row, RowsFailure, START, script_of, stream_rows, write_rows,
};
use std::alloc::{AllocError, Global};

/// How many rows `--stream` writes at once.
pub const STREAMED_ROWS: usize = 256;

/// The rows of a table, and how they are written.
#[derive(Drop)]
pub struct Script<'a, 'w> {
    /// The query, and the requirements for the table.
    pub wanted: &'a Wanted<'w>,
    /// Whether a transaction is asked for.
    pub transaction: bool,
    /// Whether rows are written before all are bound.
    pub stream: bool,
    /// Whether a row was written.
    pub begun: bool,
    /// The progress of the rows.
    pub progress: Progress,
    /// The rows that aren't written yet.
    pub rows: Vec<Row>,
    /// The line at which each begins.
    pub lines: Vec<u64>,
}

impl Script<'_, '_> {
    /// Adds a row.
    pub fn add(
        &mut self,
        rt: &HostRuntime,
        assignments: Vec<Assignment>,
        line: u64,
    ) -> Result<(), Complaint> {
        if self.rows.push(Row { assignments }).is_err() || self.lines.push(line).is_err() {
            return Err(Complaint::Memory);
        }
        if self.stream && self.rows.len() >= STREAMED_ROWS {
            self.write_streamed(rt)?;
        }
        Ok(())
    }

    // Writes what begins the script, once.
    fn begin(&mut self, rt: &HostRuntime) -> Result<(), Complaint> {
        if self.transaction && !self.begun {
            write_text(rt, None, START)?;
        }
        self.begun = true;
        Ok(())
    }

    /// Writes the rows that aren't written yet.
    pub fn write_streamed(&mut self, rt: &HostRuntime) -> Result<(), Complaint> {
        if self.rows.is_empty() {
            return Ok(());
        }
        self.begin(rt)?;
        let text = self.wanted.query.bytes.as_slice();
        let written = match stream_rows(
            rt.alloc(),
            text,
            self.rows.as_slice(),
            self.wanted.request,
            &mut rt.stdout(),
        ) {
            Ok(()) => Ok(()),
            Err(failure) => Err(self.refused(rt.alloc(), failure)),
        };
        self.rows.clear();
        self.lines.clear();
        written
    }

    /// Writes the rest of the rows, and the end of the script.
    pub fn finish(&mut self, rt: &HostRuntime, output: Option<&str>) -> Result<(), Complaint> {
        if self.stream {
            self.write_streamed(rt)?;
            self.begin(rt)?;
            return if self.transaction {
                write_text(rt, None, COMMIT)
            } else {
                Ok(())
            };
        }
        match output {
            Some(_) => self.write_file(rt, output),
            None => self.write_all(rt),
        }
    }

    // Writes the whole script to standard output.
    fn write_all(&self, rt: &HostRuntime) -> Result<(), Complaint> {
        match write_rows(
            rt.alloc(),
            self.wanted.query.bytes.as_slice(),
            self.rows.as_slice(),
            self.wanted.request,
            self.transaction,
            &mut rt.stdout(),
        ) {
            Ok(()) => Ok(()),
            Err(failure) => Err(self.refused(rt.alloc(), failure)),
        }
    }

    // Writes the whole script to a file.
    fn write_file(&self, rt: &HostRuntime, output: Option<&str>) -> Result<(), Complaint> {
        match script_of(
            rt.alloc(),
            self.wanted.query.bytes.as_slice(),
            self.rows.as_slice(),
            self.wanted.request,
            self.transaction,
        ) {
            Ok(text) => write_text(rt, output, text.as_slice()),
            Err(failure) => Err(self.refused(rt.alloc(), failure)),
        }
    }

    /// The messages about a row that can't be read, behind the rows so far. If one of those is
    /// refused, that is reported first.
    pub fn refused_behind(&self, alloc: Global, complaint: Complaint) -> Complaint {
        let bound = script_of(
            alloc,
            self.wanted.query.bytes.as_slice(),
            self.rows.as_slice(),
            self.wanted.request,
            self.transaction,
        );
        match bound {
            Ok(_) => complaint,
            Err(failure) => match self.refused(alloc, failure).before(complaint) {
                Ok(both) => both,
                Err(_) => Complaint::Memory,
            },
        }
    }

    // A refusal, as a complaint; a complaint out of memory is that.
    fn refused(&self, alloc: Global, failure: RowsFailure) -> Complaint {
        let complaint = match failure {
            RowsFailure::Query(failure) => complaint_of(
                alloc,
                &self.wanted.query,
                &Values::new(alloc),
                self.wanted.request,
                failure,
            ),
            RowsFailure::Row(refused) => self.row_refused(alloc, refused),
            RowsFailure::Write => Ok(Complaint::Write),
            RowsFailure::Memory(_) => Ok(Complaint::Memory),
        };
        match complaint {
            Ok(complaint) => complaint,
            Err(_) => Complaint::Memory,
        }
    }

    // What is said of a refused row.
    fn row_refused(&self, alloc: Global, refused: RefusedRow) -> Result<Complaint, AllocError> {
        let line = match self.lines.get(refused.number) {
            Some(line) => *line,
            None => 0,
        };
        let assignments = match self.rows.get(refused.number) {
            Some(row) => row.assignments.as_slice(),
            None => return Ok(Complaint::Memory),
        };
        let row = RowAt { assignments, line };
        complaint_of_row(alloc, self.wanted, row, refused.failure)
    }
}
