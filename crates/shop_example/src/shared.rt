//! What several tests share.
use std::fmt::Debug;
use std::process::Abort;

/// The two are the same. A call is cheaper to prove than the message.
pub(crate) fn same<T: Copy + Debug + PartialEq>(rt: &impl Abort, found: T, wanted: T) {
    assert_eq!(rt; found, wanted);
}

/// The answer of a call. An error ends the test here, so that callers have none to meet.
pub(crate) fn answer_of<T, E: Debug + Drop>(rt: &impl Abort, found: Result<T, E>) -> T {
    found.expect(rt, "an error in place of an answer")
}

/// The call gives this text.
pub(crate) fn gives<E: Debug + Drop>(rt: &impl Abort, found: Result<Vec<u8>, E>, wanted: &[u8]) {
    let text = answer_of(rt, found);
    same(rt, text.as_slice(), wanted);
}
