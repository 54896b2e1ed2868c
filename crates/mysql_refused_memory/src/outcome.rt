//! How a call went.
use std::alloc::AllocError;
use std::fmt::{self, Debug, Write};

/// How a call went.
#[derive(Clone, Copy)]
pub(crate) enum Outcome {
    /// It was out of memory, and left what it was lent as it was.
    Memory,
    /// It gave its answer.
    Answer,
    /// It gave the refusal that its input has.
    Refusal,
    /// It gave its answer or refusal, and may not allocate.
    AnswerWithoutMemory,
    /// Anything else.
    Wrong,
}

/// How a call went, or out of memory while its input was made.
pub(crate) type Case = Result<Outcome, AllocError>;

/// Whether a call may ask for memory.
#[derive(Clone, Copy)]
pub(crate) enum Memory {
    /// It may.
    Asked,
    /// It may not.
    Never,
}

impl Outcome {
    /// This outcome, if what it asks holds.
    pub(crate) fn if_holds(self, holds: bool) -> Outcome {
        if holds { self } else { Outcome::Wrong }
    }

    /// Whether the call gave the answer or refusal that it should.
    pub(crate) fn is_right(self) -> bool {
        match self {
            Outcome::Answer | Outcome::Refusal => true,
            _ => false,
        }
    }

    /// This outcome, of a call that may ask for memory or not.
    pub(crate) fn with(self, memory: Memory) -> Outcome {
        match memory {
            Memory::Asked => self,
            Memory::Never => self.without_memory(),
        }
    }

    /// This outcome, of a call that may not ask for memory.
    pub(crate) fn without_memory(self) -> Outcome {
        Outcome::AnswerWithoutMemory.if_holds(self.is_right())
    }
}

/// How a call went that may not ask for memory: what it should do holds, or not.
pub(crate) fn holds(holds: bool) -> Case {
    Ok(Outcome::AnswerWithoutMemory.if_holds(holds))
}

/// An answer beside plain data that says what it should be. The comparison takes no memory.
pub(crate) trait Is<W: Copy> {
    fn is(&self, wanted: W) -> bool;
}

/// How a call went that should answer so, or be refused with an error that is shown so.
pub(crate) fn judged<T: Is<W> + Drop, W: Copy, E: Debug + Drop>(
    answer: Result<T, E>,
    wanted: Result<W, &str>,
) -> Outcome {
    match answer {
        Ok(found) => match wanted {
            Ok(wanted) => Outcome::Answer.if_holds(found.is(wanted)),
            Err(_) => Outcome::Wrong,
        },
        Err(error) => refused(&error, wanted.err()),
    }
}

/// How a call went that gave this error, and should give one that is shown so, if any.
fn refused<E: Debug>(error: &E, wanted: Option<&str>) -> Outcome {
    if is_shown(error, "Memory(AllocError)") || is_shown(error, "AllocError") {
        return Outcome::Memory;
    }
    match wanted {
        Some(text) => Outcome::Refusal.if_holds(is_shown(error, text)),
        None => Outcome::Wrong,
    }
}

/// What is left of a text that is compared with what is printed.
#[derive(Drop)]
struct Left<'a>(&'a [u8]);

impl fmt::Write for Left<'_> {
    fn write_str(&mut self, printed: &str) -> fmt::Result {
        match self.0.strip_prefix(printed.as_bytes()) {
            Some(left) => {
                self.0 = left;
                Ok(())
            }
            None => Err(fmt::Error),
        }
    }
}

/// Whether the error is shown so for debugging.
fn is_shown<E: Debug>(error: &E, text: &str) -> bool {
    let mut left = Left(text.as_bytes());
    write!(left, "{error:?}").is_ok() && left.0.is_empty()
}

/// How a copy went.
pub(crate) fn copied<T: PartialEq + Drop>(copy: Result<T, AllocError>, source: &T) -> Outcome {
    match copy {
        Err(AllocError) => Outcome::Memory,
        Ok(copy) => Outcome::Answer.if_holds(copy == *source),
    }
}

/// The row of this name.
pub(crate) fn row<T: Copy>(rows: &[(&str, T)], name: &str) -> Option<T> {
    for (each, row) in rows {
        if *each == name {
            return Some(*row);
        }
    }
    None
}

/// A table of cases: the name of each, and what its call is given and should answer.
macro_rules! cases {
    ($($name:literal => $($field:expr),+;)*) => { &[$(($name, ($($field),+))),*] };
}

pub(crate) use cases;
