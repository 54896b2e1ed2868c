//! The script of a table's records, written at once or piece by piece.
use crate::columns::Wanted;
use crate::complaint::Complaint;
use crate::output::write_text;
use crate::progress::Progress;
use mysql_bind_core::{COMMIT, START};

/// The statements of the rows so far.
#[derive(Drop)]
pub struct TableScript<'a, 'w> {
    /// The query, and the requirements for the table.
    pub wanted: &'a Wanted<'w>,
    /// Whether a transaction is asked for.
    pub transaction: bool,
    /// Whether rows are written before all are bound.
    pub stream: bool,
    /// Whether the beginning of the script was written.
    pub begun: bool,
    /// The progress of the rows.
    pub progress: Progress,
    /// The text that isn't written yet: with `stream` statements of rows, else the script so far.
    pub text: Vec<u8>,
}

impl TableScript<'_, '_> {
    /// Writes the beginning of the script, once.
    pub fn begin(&mut self, rt: &HostRuntime) -> Result<(), Complaint> {
        if self.transaction && !self.begun {
            write_text(rt, None, START)?;
        }
        self.begun = true;
        Ok(())
    }

    /// Writes the statements that aren't written yet.
    pub fn write_streamed(&mut self, rt: &HostRuntime) -> Result<(), Complaint> {
        if self.text.is_empty() {
            return Ok(());
        }
        self.begin(rt)?;
        write_text(rt, None, self.text.as_slice())?;
        self.text.clear();
        Ok(())
    }

    /// Writes the rest of the text, and the end of the script.
    pub fn finish(&mut self, rt: &HostRuntime, output: Option<&str>) -> Result<(), Complaint> {
        if self.stream {
            self.write_streamed(rt)?;
            self.begin(rt)?;
            return if self.transaction {
                write_text(rt, None, COMMIT)
            } else {
                Ok(())
            };
        }
        if self.transaction {
            self.text.extend_from_slice(COMMIT)?;
        }
        write_text(rt, output, self.text.as_slice())
    }
}
