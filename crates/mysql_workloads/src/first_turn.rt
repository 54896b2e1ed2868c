//! What a job takes in that does the same work in each turn: all of a result in the first turn, and
//! little of it later. So most of a job's work is that of the calls.
use crate::digest::Digest;

/// Takes in the bytes of a result in the first turn, and their number in any other.
pub fn take_bytes(digest: &mut Digest, turn: usize, bytes: &[u8]) {
    if turn == 0 {
        digest.bytes(bytes);
    } else {
        digest.number(bytes.len() as u64);
    }
}
