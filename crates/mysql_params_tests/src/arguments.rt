//! The words of the program, of arguments that a test gives.
use crate::program_shared::words;
use crate::shared::{answer_of, same_in};
use mysql_params::words_of;
use std::alloc::Global;
use std::env::{Env, FillError};
use std::process::Abort;

/// Arguments, the program's name first. There are no variables.
#[derive(Drop)]
struct Arguments {
    texts: &'static [&'static [u8]],
}

impl Env for Arguments {
    fn arg(&self, i: usize, buf: &mut [u8]) -> Result<usize, FillError> {
        let Some(text) = self.texts.get(i) else {
            return Err(FillError::NotPresent);
        };
        match buf.get_mut(..text.len()) {
            Some(front) => front.copy_from_slice(*text),
            None => return Err(FillError::TooLong),
        }
        Ok(text.len())
    }

    fn var(&self, _name: &str, _buf: &mut [u8]) -> Result<usize, FillError> {
        Err(FillError::NotPresent)
    }

    fn var_at(&self, _i: usize, _buf: &mut [u8]) -> Result<usize, FillError> {
        Err(FillError::NotPresent)
    }
}

/// Arguments, and the words that they are.
type Case = (&'static [&'static [u8]], &'static [&'static str]);

const CASES: &[Case] = &[
    (&[], &[]),
    (&[b"mysql_query"], &[]),
    (&[b"mysql_query", b"names"], &["names"]),
    (
        &[b"mysql_query", b"bind", b"", b"a=s:\xc3\xa4"],
        &["bind", "", "a=s:ä"],
    ),
    // The name is not looked at: the program may stand in any folder.
    (&[b"/\xff/mysql_query", b"names"], &["names"]),
];

fn gives(rt: &impl Abort, alloc: Global, (texts, wanted): Case) {
    let found = answer_of(rt, words_of(alloc, &Arguments { texts }));
    same_in(rt, &found, &words(rt, alloc, wanted), &wanted);
}

#[test]
fn words_are_the_arguments_without_the_name(rt: HostRuntime) {
    for case in CASES {
        gives(&rt, rt.alloc(), *case);
    }
}
