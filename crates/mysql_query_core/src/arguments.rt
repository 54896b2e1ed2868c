//! The words of the program: its arguments without its own name.
ghost use Rattle.std.specs.Prelude.{◌≡◌, IfErr};

use crate::run_error::RunError;
use std::alloc::Global;
use std::env;
use std::env::{Env, FillError};

// An environment with the same variables, and the same arguments without the first, which is the
// program's name. `env::args` refuses all arguments if one isn't UTF-8, and the name has the
// program's path.
#[derive(Drop)]
struct WithoutName<'a, E> {
    env: &'a E,
}

impl<E: Env> Env for WithoutName<'_, E> {
    fn arg(&self, i: usize, buf: &mut [u8]) -> Result<usize, FillError> {
        match i.checked_add(1) {
            Some(next) => self.env.arg(next, buf),
            None => Err(FillError::NotPresent),
        }
    }

    fn var(&self, name: &str, buf: &mut [u8]) -> Result<usize, FillError> {
        self.env.var(name, buf)
    }

    fn var_at(&self, i: usize, buf: &mut [u8]) -> Result<usize, FillError> {
        self.env.var_at(i, buf)
    }
}

/// The words of the program: its arguments without its own name, which is not read. The error is
/// `Usage`: a word isn't UTF-8, or memory for the words is refused.
pub fn words_of<E: Env>(alloc: Global, env: &E) -> Result<Vec<String>, RunError>
    ensures usage { IfErr result (λ error. error ≡ RunError.Usage) }
{
    let Ok(arguments) = env::args(&(WithoutName { env }, alloc)) else {
        return Err(RunError::Usage);
    };
    let mut words = Vec::new(alloc);
    for argument in arguments {
        if words.push(argument).is_err() {
            return Err(RunError::Usage);
        }
    }
    Ok(words)
}
