//! What refusals of the program print, and their statuses. How a run ends with them is in
//! `tests/program`.
use crate::shared::{answer_of, same_in};
use mysql_params::{BindError, RunError};
use std::alloc::{AllocError, Global};
use std::process::Abort;

/// The refusal prints the message and has the status.
fn says(rt: &impl Abort, alloc: Global, refusal: RunError, message: &str, status: u8) {
    let printed = answer_of(rt, refusal.to_string(alloc));
    let found = (printed.as_str(), refusal.status());
    same_in(rt, found, (message, status), &"a refusal");
}

#[test]
fn messages_and_statuses(rt: HostRuntime) {
    let alloc = rt.alloc();
    let usage = "usage: names, or bind NAME=VALUE..";
    says(&rt, alloc, RunError::Usage, usage, 2);
    let mixed = "Named and positional params in one query";
    says(&rt, alloc, RunError::Mixed, mixed, 1);
    says(&rt, alloc, RunError::Bind(BindError::Mixed), mixed, 1);
    says(&rt, alloc, RunError::Read, "cannot read", 2);
    says(&rt, alloc, RunError::Write, "cannot write", 2);
    let memory = RunError::Memory(AllocError);
    says(&rt, alloc, memory, "out of memory", 2);
}

#[test]
fn a_redefined_name(rt: HostRuntime) {
    let name = answer_of(&rt, Vec::from_slice(rt.alloc(), b"a\n"));
    let message = "Redefinition of named parameter `a\\x0a'";
    says(&rt, rt.alloc(), RunError::Redefined(name), message, 1);
}
