//! The program's words, of arguments that are given here.
use crate::outcome::{Case, Outcome};
use mysql_params::{RunError, words_of};
use std::alloc::Global;
use std::env::{Env, FillError};

/// How the call of this name went, if it stands here.
pub(crate) fn case(alloc: Global, name: &str) -> Option<Case> {
    match name {
        "words_of two arguments" => Some(Ok(two_words(alloc))),
        _ => None,
    }
}

/// The program's name, and two arguments.
#[derive(Drop)]
struct Arguments;

impl Env for Arguments {
    fn arg(&self, i: usize, buf: &mut [u8]) -> Result<usize, FillError> {
        let texts: [&[u8]; 3] = [b"mysql_query", b"bind", b"a=i:1"];
        let Some(text) = texts.get(i) else {
            return Err(FillError::NotPresent);
        };
        match buf.get_mut(..text.len()) {
            Some(front) => front.copy_from_slice(*text),
            None => return Err(FillError::TooLong),
        }
        Ok(text.len())
    }

    fn var(&self, _name: &str, _buf: &mut [u8]) -> Result<usize, FillError> {
        Err(FillError::NotPresent)
    }

    fn var_at(&self, _i: usize, _buf: &mut [u8]) -> Result<usize, FillError> {
        Err(FillError::NotPresent)
    }
}

/// Refused memory is told as usage.
fn two_words(alloc: Global) -> Outcome {
    match words_of(alloc, &Arguments) {
        Ok(words) => Outcome::Answer.if_holds(are_both(&words)),
        Err(RunError::Usage) => Outcome::Memory,
        Err(_) => Outcome::Wrong,
    }
}

fn are_both(words: &[String]) -> bool {
    match words {
        [command, word] => command.as_str() == "bind" && word.as_str() == "a=i:1",
        _ => false,
    }
}
