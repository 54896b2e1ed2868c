//! Readers and writers that give and take little and fail at a stated call, and what a run of the
//! program over them leaves.
use crate::shared::{answer_of, same_in};
use mysql_params::{RunError, run};
use std::alloc::Global;
use std::fmt::Debug;
use std::io;
use std::io::{ErrorKind, Read, Write};
use std::process::Abort;

/// The words of a command line.
pub(crate) fn words(rt: &impl Abort, alloc: Global, texts: &[&str]) -> Vec<String> {
    let mut words = Vec::new(alloc);
    for text in texts {
        let word = answer_of(rt, String::from_str(alloc, *text));
        answer_of(rt, words.push(word));
    }
    words
}

/// Gives its bytes one a call, and fails at call `fails_at`, counted from 1.
#[derive(Drop)]
struct SlowReader<'a> {
    rest: &'a [u8],
    fails_at: usize,
    calls: usize,
}

impl Read for SlowReader<'_> {
    fn read(&mut self, buf: &mut [u8]) -> io::Result<usize> {
        self.calls = self.calls.saturating_add(1);
        if self.calls == self.fails_at {
            return Err(ErrorKind::Interrupted.into());
        }
        match (self.rest, buf) {
            ([first, rest @ ..], [place, ..]) => {
                *place = *first;
                self.rest = rest;
                Ok(1)
            }
            _ => Ok(0),
        }
    }
}

/// How a writer lets its caller down.
#[derive(Clone, Copy, PartialEq, Eq, Debug)]
pub(crate) enum Fault {
    Fails,
    TakesNothing,
}

/// Takes one byte a call, and has its fault at call `fault_at`, counted from 1.
#[derive(Drop)]
struct SlowWriter {
    taken: Vec<u8>,
    fault: Fault,
    fault_at: usize,
    calls: usize,
}

impl Write for SlowWriter {
    fn write(&mut self, buf: &[u8]) -> io::Result<usize> {
        self.calls = self.calls.saturating_add(1);
        if self.calls == self.fault_at {
            return match self.fault {
                Fault::Fails => Err(ErrorKind::Interrupted.into()),
                Fault::TakesNothing => Ok(0),
            };
        }
        let Some(first) = buf.first() else {
            return Ok(0);
        };
        self.taken.push(*first)?;
        Ok(1)
    }

    fn flush(&mut self) -> io::Result<()> {
        Ok(())
    }
}

/// The calls, counted from 1, at which the reader fails and the writer has its fault; 0 for none.
#[derive(Clone, Copy, Debug)]
pub(crate) struct Faults {
    pub(crate) read: usize,
    pub(crate) write: usize,
    pub(crate) fault: Fault,
}

/// What a run told.
#[derive(Clone, Copy, PartialEq, Eq, Debug)]
pub(crate) enum Told {
    Nothing,
    Usage,
    Redefined,
    Mixed,
    Bind,
    Read,
    Write,
    Memory,
}

fn told_by(answer: Result<(), RunError>) -> Told {
    match answer {
        Ok(()) => Told::Nothing,
        Err(RunError::Usage) => Told::Usage,
        Err(RunError::Redefined(_)) => Told::Redefined,
        Err(RunError::Mixed) => Told::Mixed,
        Err(RunError::Bind(_)) => Told::Bind,
        Err(RunError::Read) => Told::Read,
        Err(RunError::Write) => Told::Write,
        Err(RunError::Memory(_)) => Told::Memory,
    }
}

/// The program with these words over a query, read and written byte by byte with these faults,
/// tells this, after so many reads and writes, and has written this.
pub(crate) fn leaves(
    rt: &impl Abort,
    alloc: Global,
    (texts, query): (&[&str], &[u8]),
    faults: Faults,
    wanted: (Told, usize, usize, &[u8]),
) {
    let words = words(rt, alloc, texts);
    let mut input = SlowReader {
        rest: query,
        fails_at: faults.read,
        calls: 0,
    };
    let mut output = SlowWriter {
        taken: Vec::new(alloc),
        fault: faults.fault,
        fault_at: faults.write,
        calls: 0,
    };
    let told = told_by(run(alloc, &words, &mut input, &mut output));
    let found = (told, input.calls, output.calls, output.taken.as_slice());
    same_in(rt, found, wanted, &(texts, faults));
}
