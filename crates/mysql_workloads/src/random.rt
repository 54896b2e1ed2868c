//! Numbers that a seed gives: the generator SplitMix64 (Steele, Lea and Flood, "Fast Splittable
//! Pseudorandom Number Generators").
ghost use Rattle.std.specs.Prelude.{◌≤◌};

/// Numbers that a seed gives, one after another.
#[derive(Drop)]
pub struct Random {
    /// What the next number is made of.
    pub state: u64,
}

impl Random {
    /// The next number.
    pub fn next(&mut self) -> u64 {
        self.state = self.state.wrapping_add(0x9E37_79B9_7F4A_7C15);
        let first = (self.state ^ (self.state >> 30)).wrapping_mul(0xBF58_476D_1CE4_E5B9);
        let second = (first ^ (first >> 27)).wrapping_mul(0x94D0_49BB_1331_11EB);
        second ^ (second >> 31)
    }

    /// The next number, below this one, which is below 2^32; 0 if that is 0.
    pub fn below(&mut self, limit: usize) -> usize
        ensures { result ≤ limit }
    {
        scaled(self.next() >> 32, limit)
    }

    /// The next byte.
    pub fn byte(&mut self) -> u8 {
        let [byte, ..] = self.next().to_le_bytes();
        byte
    }

    /// The next number of 32 bits.
    pub fn word(&mut self) -> u32 {
        let [a, b, c, d, ..] = self.next().to_le_bytes();
        u32::from_le_bytes([a, b, c, d])
    }

    /// The next number of up to 19 digits, each length about as often.
    pub fn positive(&mut self) -> i64 {
        let number = self.next();
        let shift = 1 + self.below(60) as u32;
        (number >> shift).cast_signed()
    }

    /// Whether the next of so many turns is taken, on average one.
    pub fn one_in(&mut self, turns: usize) -> bool {
        self.below(turns) == 0
    }
}

/// A number of 32 bits as one below this limit, which is below 2^32 too: the upper half of their
/// product, which takes no division (Lemire, "Fast Random Integer Generation in an Interval").
pub fn scaled(number: u64, limit: usize) -> usize
    ensures { result ≤ limit }
{
    let product = (number & 0xFFFF_FFFF).wrapping_mul(limit as u64);
    ((product >> 32) as usize).min(limit)
}
