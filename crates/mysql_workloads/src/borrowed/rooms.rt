//! Texts in rooms and behind other texts.
use crate::borrowed::Run;
use crate::borrowed::answers::{Answer, Kind};
use crate::borrowed::tally::Call;
use mysql_params::TextInRoom;
use std::alloc::AllocError;

// The byte that fills a room before it is lent.
const FILL: u8 = 0xAA;

// What stands in a text before something is appended.
const FRONT: &[u8] = b"-- before\n";

/// What a call gives: a text, or why there is none.
pub type Bound<E> = Result<Vec<u8>, E>;

/// A room for what a call gives: as long as the text, or a little longer, or shorter.
pub fn room_for<E>(run: &mut Run, bound: &Bound<E>) -> Result<Vec<u8>, AllocError> {
    let len = match bound {
        Ok(text) => text.len(),
        Err(_) => 8,
    };
    let room = match run.random.below(4) {
        0 => len,
        1 => len.saturating_add(run.random.below(20)),
        2 => len.saturating_sub(1),
        _ => run.random.below(len),
    };
    Vec::from_elem(run.alloc, FILL, room)
}

/// Takes in what became of a room: the text stands at its front, or it is as before if it is too
/// short or the call refused.
pub fn take_room<E: Answer + PartialEq>(
    run: &mut Run,
    call: Call,
    owned: &Bound<E>,
    made: &Result<TextInRoom, E>,
    room: &[u8],
) {
    let is_same = match (owned, made) {
        (Ok(text), Ok(made)) => is_in_room(run, text.as_slice(), *made, room),
        (Err(a), Err(b)) => *a == *b && is_filled(room),
        _ => false,
    };
    run.tally.take(call, owned.kind(), is_same);
}

// Whether a text stands at the front of a room, and the rest is as before; or is too long for it.
fn is_in_room(run: &mut Run, text: &[u8], made: TextInRoom, room: &[u8]) -> bool {
    let (kind, is_right) = match (made, room.split_at_checked(text.len())) {
        (TextInRoom::Written { len }, Some((front, behind))) => {
            (
                Kind::Done,
                len == text.len() && front == text && is_filled(behind),
            )
        }
        (TextInRoom::TooShort { len }, None) => {
            (Kind::TooShort, len == text.len() && is_filled(room))
        }
        _ => (Kind::Refused, false),
    };
    run.tally.take(Call::Room, kind, is_right);
    is_right
}

// Whether a room has its one byte everywhere.
fn is_filled(room: &[u8]) -> bool {
    for byte in room {
        if *byte != FILL {
            return false;
        }
    }
    true
}

/// A text to which something is to be appended.
pub fn front(run: &Run) -> Result<Vec<u8>, AllocError> {
    Vec::from_slice(run.alloc, FRONT)
}

/// Takes in what was appended to that text: a text, or nothing if the call refused.
pub fn take_appended<E: Answer + PartialEq>(
    run: &mut Run,
    call: Call,
    owned: &Bound<E>,
    made: &Result<(), E>,
    text: &[u8],
) {
    let is_same = match (owned, made, text.strip_prefix(FRONT)) {
        (Ok(owned), Ok(()), Some(behind)) => owned.as_slice() == behind,
        (Err(a), Err(b), Some(b"")) => *a == *b,
        _ => false,
    };
    run.tally.take(call, owned.kind(), is_same);
}
