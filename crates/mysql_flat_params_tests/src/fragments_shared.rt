//! What binding over forms of fragments answers in a room.
use mysql_flat_params::{FragmentsOutcome, bind_fragments_into};
use std::alloc::Global;

/// In a mode, what became of binding in a room of 64 bytes, whether the text stands at its front,
/// and whether the rest is unchanged.
pub(crate) fn answer(
    alloc: Global,
    query: &[u8],
    form: &[u8],
    text: &[u8],
) -> (FragmentsOutcome, bool, bool) {
    let mut room = [b'#'; 64];
    let outcome = bind_fragments_into(alloc, query, form, false, &mut room);
    let kept = room.iter().skip(text.len()).all(|byte| *byte == b'#');
    (outcome, room.starts_with(text), kept)
}
