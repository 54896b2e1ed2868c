//! What several tests share.
use crate::shared::{answer_of, same_in};
use std::alloc::Global;
use std::fmt::Display;
use std::process::Abort;

/// What is printed of the refusal.
pub(crate) fn says(rt: &impl Abort, alloc: Global, refusal: &impl Display, message: &str) {
    let printed = answer_of(rt, refusal.to_string(alloc));
    same_in(rt, printed.as_str(), message, &"a message");
}
