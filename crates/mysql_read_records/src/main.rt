//! Reads texts as tables, for tests. Each line of standard input is the name of a format, a space
//! and a text in hexadecimal. Its line of standard output has the rows of the text, each ended by
//! `;`, with `,` between the fields: hexadecimal, or `-` for NULL. If the text isn't a table, the
//! line is `!`, the index of the fault and its kind.
#![tactic(auto)]

use mysql_records::{Field, RecordError, RecordFormat, Row, all_rows};
use std::alloc::{AllocError, Global};
use std::io::{Read, Write};
use std::process::ExitCode;

// Why a line has no answer.
#[derive(Drop)]
enum Failure {
    // It isn't the name of a format, a space and hexadecimal.
    Line,
    // Reading or writing failed, or memory was refused.
    System,
}

impl From<AllocError> for Failure {
    fn from(_error: AllocError) -> Failure {
        Failure::System
    }
}

// The format of this name.
fn format_of(name: &[u8]) -> Option<RecordFormat> {
    match name {
        b"csv" => Some(RecordFormat::Csv),
        b"tsv" => Some(RecordFormat::Tsv),
        b"mysql-csv" => Some(RecordFormat::MysqlCsv),
        b"mysql-tsv" => Some(RecordFormat::MysqlTsv),
        _ => None,
    }
}

static DIGITS: [u8; 16] = *b"0123456789abcdef";

// Adds bytes in hexadecimal.
fn add_hexadecimal(answer: &mut Vec<u8>, bytes: &[u8]) -> Result<(), AllocError> {
    for byte in bytes {
        let pair = [DIGITS[(*byte / 16) as usize], DIGITS[(*byte % 16) as usize]];
        answer.extend_from_slice(&pair)?;
    }
    Ok(())
}

// Adds a row.
fn add_row(answer: &mut Vec<u8>, row: &Row) -> Result<(), AllocError> {
    for (i, field) in row.fields.iter().enumerate() {
        if i > 0 {
            answer.extend_from_slice(b",")?;
        }
        match field {
            Field::Null => answer.extend_from_slice(b"-")?,
            Field::Bytes(bytes) => add_hexadecimal(answer, bytes.as_slice())?,
        }
    }
    answer.extend_from_slice(b";")
}

// Adds the answer to a line.
fn add_answer(answer: &mut Vec<u8>, alloc: Global, line: &[u8]) -> Result<(), Failure> {
    let Some(at) = line.iter().position(|byte| *byte == b' ') else {
        return Err(Failure::Line);
    };
    let (name, digits) = line.split_at(at);
    let Some(format) = format_of(name) else {
        return Err(Failure::Line);
    };
    let Ok(text) = hex::decode(alloc, &digits[1..]) else {
        return Err(Failure::Line);
    };
    match all_rows(alloc, format, text.as_slice()) {
        Ok(rows) => {
            for row in &rows {
                add_row(answer, row)?;
            }
        }
        Err(RecordError::Fault(fault)) => {
            let told = format!(in alloc; "!{} {:?}", fault.at, fault.kind)?;
            answer.extend_from_slice(told.as_bytes())?;
        }
        Err(RecordError::Memory(_)) => return Err(Failure::System),
    }
    answer.extend_from_slice(b"\n")?;
    Ok(())
}

// Answers each line of standard input.
fn answer(rt: &HostRuntime) -> Result<(), Failure> {
    let mut input = Vec::new(rt.alloc());
    if rt.stdin().read_to_end(&mut input).is_err() {
        return Err(Failure::System);
    }
    let mut answer = Vec::new(rt.alloc());
    for line in input.as_slice().split(|byte| *byte == b'\n') {
        if !line.is_empty() {
            add_answer(&mut answer, rt.alloc(), line)?;
        }
    }
    match rt.stdout().write_all(answer.as_slice()) {
        Ok(()) => Ok(()),
        Err(_) => Err(Failure::System),
    }
}

// Ends with status 0 if each line has an answer, with 1 at a line that has none, and with 2 if
// reading, writing or memory failed.
fn main(rt: HostRuntime) -> ExitCode {
    match answer(&rt) {
        Ok(()) => ExitCode::SUCCESS,
        Err(Failure::Line) => ExitCode::from(1),
        Err(Failure::System) => ExitCode::from(2),
    }
}
