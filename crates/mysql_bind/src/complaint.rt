//! Messages about refusals. No message has a value in it. Each message stays on its line, whatever
//! bytes a name or a path has.
use crate::told::{OnOneLine, github_property, github_text, json_text};
use std::alloc::{AllocError, Global};
use std::io;
use std::io::{BufWriter, Write};

/// Where a fault is.
#[derive(Debug, Drop)]
pub enum Place {
    /// In the arguments.
    Words,
    /// In a file.
    File(String),
    /// At a byte of a file, counted from 1.
    Line {
        /// The file.
        path: String,
        /// Its line.
        line: usize,
        /// The column, in bytes.
        column: usize,
    },
    /// In a row of a file.
    Row {
        /// The file.
        path: String,
        /// The line at which the row begins, counted from 1.
        line: u64,
    },
}

/// One fault.
#[derive(Debug, Drop)]
pub struct Fault {
    /// Where it is.
    pub place: Place,
    /// The message: the fault, and what to write instead.
    pub what: String,
}

/// Why the program failed.
#[derive(Debug, Drop)]
pub enum Complaint {
    /// The query or the values are refused.
    Refused(Vec<Fault>),
    /// An argument is wrong, or a source can't be read.
    Unusable(Vec<Fault>),
    /// A write failed.
    Write,
    /// Out of memory.
    Memory,
}

/// The format in which faults are reported.
#[derive(Debug, Clone, Copy, PartialEq, Eq)]
pub enum ErrorForm {
    /// A line of text for each.
    Text,
    /// A JSON object for each, on a line.
    Json,
    /// A GitHub annotation for each.
    Github,
}

impl From<AllocError> for Complaint {
    fn from(_error: AllocError) -> Complaint {
        Complaint::Memory
    }
}

/// A list of only this fault.
pub fn one_fault(alloc: Global, place: Place, what: String) -> Result<Vec<Fault>, AllocError> {
    let mut faults = Vec::new(alloc);
    add_fault(&mut faults, place, what)?;
    Ok(faults)
}

/// Adds a fault.
pub fn add_fault(faults: &mut Vec<Fault>, place: Place, what: String) -> Result<(), AllocError> {
    match faults.push(Fault { place, what }) {
        Ok(()) => Ok(()),
        Err(_) => Err(AllocError),
    }
}

/// A complaint about an argument.
pub fn bad_word(alloc: Global, what: &str) -> Complaint {
    match String::from_str(alloc, what) {
        Ok(what) => unusable(alloc, Place::Words, what),
        Err(_) => Complaint::Memory,
    }
}

/// A complaint about one argument or source.
pub fn unusable(alloc: Global, place: Place, what: String) -> Complaint {
    match one_fault(alloc, place, what) {
        Ok(faults) => Complaint::Unusable(faults),
        Err(_) => Complaint::Memory,
    }
}

/// A complaint about a file.
pub fn bad_file(alloc: Global, path: &str, what: &str) -> Complaint {
    match (String::from_str(alloc, path), String::from_str(alloc, what)) {
        (Ok(path), Ok(what)) => unusable(alloc, Place::File(path), what),
        _ => Complaint::Memory,
    }
}

/// A complaint about a folder in the place of a file.
pub fn bad_folder(alloc: Global, path: &str) -> Complaint {
    bad_file(alloc, path, "this is a folder: name a file in it")
}

/// A complaint about a file for which a system call failed.
pub fn failed_file(alloc: Global, path: &str, error: &io::Error) -> Result<Complaint, AllocError> {
    if error.kind() == io::ErrorKind::OutOfMemory {
        return Ok(Complaint::Memory);
    }
    if error.kind() == io::ErrorKind::IsADirectory {
        return Ok(bad_folder(alloc, path));
    }
    let what = format!(in alloc; "{error}")?;
    Ok(bad_file(alloc, path, what.as_str()))
}

/// A complaint about a row of a file.
pub fn bad_row(alloc: Global, path: &str, line: u64, what: &str) -> Complaint {
    match (String::from_str(alloc, path), String::from_str(alloc, what)) {
        (Ok(path), Ok(what)) => match one_fault(alloc, Place::Row { path, line }, what) {
            Ok(faults) => Complaint::Refused(faults),
            Err(_) => Complaint::Memory,
        },
        _ => Complaint::Memory,
    }
}

impl Complaint {
    /// The faults of both complaints, first those of this one, if both are `Refused`. Otherwise
    /// only one of them is kept: this one, unless it is `Refused`.
    pub fn before(self, later: Complaint) -> Result<Complaint, AllocError> {
        match (self, later) {
            (Complaint::Refused(mut faults), Complaint::Refused(found)) => {
                for fault in found {
                    add_fault(&mut faults, fault.place, fault.what)?;
                }
                Ok(Complaint::Refused(faults))
            }
            (Complaint::Refused(_), later) => Ok(later),
            (first, _) => Ok(first),
        }
    }

    /// The exit status.
    pub fn status(&self) -> u8 {
        match self {
            Complaint::Refused(_) => 1,
            Complaint::Unusable(_) => 2,
            Complaint::Write => 3,
            Complaint::Memory => 4,
        }
    }

    /// Reports each fault on standard error.
    pub fn tell(&self, rt: &HostRuntime, form: ErrorForm) -> io::Result<()> {
        match self {
            Complaint::Refused(faults) => tell_faults(rt, form, faults.as_slice()),
            Complaint::Unusable(faults) => tell_faults(rt, form, faults.as_slice()),
            Complaint::Write => eprintln!(rt; "mysql_bind: cannot write"),
            Complaint::Memory => eprintln!(rt; "mysql_bind: out of memory"),
        }
    }
}

// Tells each fault in this form. They are written many at once, where there is memory for it.
fn tell_faults(rt: &HostRuntime, form: ErrorForm, faults: &[Fault]) -> io::Result<()> {
    let mut out = match BufWriter::new(rt.alloc(), rt.stderr()) {
        Ok(out) => out,
        Err(_) => BufWriter::with_capacity(rt.alloc(), 0, rt.stderr())?,
    };
    for fault in faults {
        match form {
            ErrorForm::Text => tell_text(&mut out, fault)?,
            ErrorForm::Json => tell_json(rt.alloc(), &mut out, fault)?,
            ErrorForm::Github => tell_github(rt.alloc(), &mut out, fault)?,
        }
    }
    out.flush()
}

// Tells a fault as a line of text.
fn tell_text<W: Write>(out: &mut W, fault: &Fault) -> io::Result<()> {
    let what = OnOneLine(fault.what.as_str());
    match &fault.place {
        Place::Words => writeln!(out, "mysql_bind: {what}"),
        Place::File(path) => writeln!(out, "mysql_bind: {}: {what}", OnOneLine(path.as_str())),
        Place::Line { path, line, column } => writeln!(
            out,
            "mysql_bind: {}:{line}:{column}: {what}",
            OnOneLine(path.as_str())
        ),
        Place::Row { path, line } => writeln!(
            out,
            "mysql_bind: {}:{line}: {what}",
            OnOneLine(path.as_str())
        ),
    }
}

// Tells a fault as a JSON object.
fn tell_json<W: Write>(alloc: Global, out: &mut W, fault: &Fault) -> io::Result<()> {
    let Ok(what) = json_text(alloc, fault.what.as_str()) else {
        return tell_text(out, fault);
    };
    let Ok(place) = json_place(alloc, &fault.place) else {
        return tell_text(out, fault);
    };
    writeln!(out, "{{{place}\"message\":{what}}}")
}

// The members that say where a fault is, each with a comma after it.
fn json_place(alloc: Global, place: &Place) -> Result<String, AllocError> {
    match place {
        Place::Words => Ok(String::new(alloc)),
        Place::File(path) => {
            let path = json_text(alloc, path.as_str())?;
            format!(in alloc; "\"file\":{path},")
        }
        Place::Line { path, line, column } => {
            let path = json_text(alloc, path.as_str())?;
            format!(in alloc; "\"file\":{path},\"line\":{line},\"column\":{column},")
        }
        Place::Row { path, line } => {
            let path = json_text(alloc, path.as_str())?;
            format!(in alloc; "\"file\":{path},\"line\":{line},")
        }
    }
}

// Tells a fault as an annotation of GitHub's.
fn tell_github<W: Write>(alloc: Global, out: &mut W, fault: &Fault) -> io::Result<()> {
    let Ok(what) = github_text(alloc, fault.what.as_str()) else {
        return tell_text(out, fault);
    };
    let Ok(place) = github_place(alloc, &fault.place) else {
        return tell_text(out, fault);
    };
    writeln!(out, "::error{place}::{what}")
}

// The properties that say where a fault is, with a space before them.
fn github_place(alloc: Global, place: &Place) -> Result<String, AllocError> {
    match place {
        Place::Words => Ok(String::new(alloc)),
        Place::File(path) => {
            let path = github_property(alloc, path.as_str())?;
            format!(in alloc; " file={path}")
        }
        Place::Line { path, line, column } => {
            let path = github_property(alloc, path.as_str())?;
            format!(in alloc; " file={path},line={line},col={column}")
        }
        Place::Row { path, line } => {
            let path = github_property(alloc, path.as_str())?;
            format!(in alloc; " file={path},line={line}")
        }
    }
}
