//! A digest of results, which takes little time beside what makes them.
use byteorder::{ByteOrder, LittleEndian};

// An odd number with bits all over, by which numbers are mixed.
const MIX: u64 = 0x9E37_79B9_7F4A_7C15;

// The number of bytes that are mixed in one turn.
const BLOCK: usize = 32;

/// What results were, as one number.
#[derive(Drop)]
pub struct Digest {
    /// The digest so far.
    pub state: u64,
}

impl Digest {
    /// Takes in a number.
    pub fn number(&mut self, number: u64) {
        self.state = mixed(self.state, number).rotate_left(29);
    }

    /// Takes in bytes, and how many they are.
    pub fn bytes(&mut self, bytes: &[u8]) {
        self.number(bytes.len() as u64);
        let rest = if bytes.len() < 2 * BLOCK {
            bytes
        } else {
            self.blocks(bytes)
        };
        let (words, rest) = rest.as_chunks::<8>();
        for word in words {
            self.number(u64::from_le_bytes(*word));
        }
        let mut last = 0u64;
        for byte in rest {
            last = last.rotate_left(8) ^ u64::from(*byte);
        }
        self.number(last);
    }

    // Takes in all whole blocks, and returns what follows them. Four words are mixed side by side,
    // so that none waits for the one before.
    fn blocks<'a>(&mut self, bytes: &'a [u8]) -> &'a [u8] {
        let mut lanes = [1u64, 2, 3, 4];
        let (blocks, rest) = bytes.as_chunks::<BLOCK>();
        for block in blocks {
            lanes[0] = mixed(lanes[0], LittleEndian::read_u64(block));
            lanes[1] = mixed(lanes[1], LittleEndian::read_u64(&block[8..]));
            lanes[2] = mixed(lanes[2], LittleEndian::read_u64(&block[16..]));
            lanes[3] = mixed(lanes[3], LittleEndian::read_u64(&block[24..]));
        }
        for lane in lanes {
            self.number(lane);
        }
        rest
    }
}

// A number mixed into another.
fn mixed(state: u64, number: u64) -> u64 {
    (state.rotate_left(23) ^ number).wrapping_mul(MIX)
}
