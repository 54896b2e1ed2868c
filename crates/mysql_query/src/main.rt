//! The program `mysql_query`: `mysql_params::run` on the arguments, standard input and standard
//! output.
#![tactic(auto)]

use mysql_params::{RunError, run, words_of};
use std::process::ExitCode;

// Answers the arguments and standard input on standard output, or refuses.
fn answer(rt: &HostRuntime) -> Result<(), RunError> {
    let words = words_of(rt.alloc(), rt)?;
    run(rt.alloc(), &words, &mut rt.stdin(), &mut rt.stdout())
}

// Ends with the status 0, or with that of a refusal, whose message it prints.
fn main(rt: HostRuntime) -> ExitCode {
    match answer(&rt) {
        Ok(()) => ExitCode::SUCCESS,
        Err(error) => {
            // If the message can't be printed, the status still reports the refusal.
            let _ = eprintln!(rt; "{error}");
            ExitCode::from(error.status())
        }
    }
}
