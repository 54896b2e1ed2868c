//! Texts of which inputs are copied, so that making inputs takes little time.
use crate::random::{Random, scaled};
use std::alloc::{AllocError, Global};

// So many bytes has a pool, or a few more.
const POOL: usize = 1 << 16;

/// Words of names and notes in ASCII.
const PLAIN: &[&str] = &[
    "order",
    "Smith",
    "delivered",
    "to",
    "the",
    "warehouse",
    "on",
    "Monday",
    "Anna",
    "Petersen",
    "and",
    "checked",
    "by",
    "invoice",
    "42",
    "Garden",
    "Street",
    "blue",
    "paper",
    "pending",
    "ok",
    "returned",
    "without",
    "a",
    "label",
    "2026",
    "customer",
    "wrote",
    "that",
    "parts",
    "are",
    "missing",
    "express",
    "Lee",
    "Nowak",
    "Fischer",
    "gift",
    "wrapped",
];

/// Words with characters beyond ASCII among them.
const WIDE: &[&str] = &[
    "Müller",
    "the",
    "naïve",
    "order",
    "北京",
    "was",
    "sent",
    "to",
    "Łódź",
    "with",
    "São",
    "Paulo",
    "stamps",
    "and",
    "Ελλάδα",
    "paid",
    "in",
    "€",
    "on",
    "Monday",
    "наклейка",
    "fragile",
];

/// Words with bytes that a string escapes.
const ROUGH: &[&str] = &[
    "O'Brien",
    "said",
    "\"now\"",
    "C:\\temp\\x",
    "line\nbreak",
    "it's",
    "the",
    "plain",
    "word",
    "tab\tand",
    "return\r\n",
    "don't",
    "path",
    "of",
    "order",
    "\\'",
    "twelve",
    "parts",
    "for",
];

/// Texts to copy from.
#[derive(Drop)]
pub struct Pools {
    /// Plain words.
    pub plain: Vec<u8>,
    /// Words beyond ASCII.
    pub wide: Vec<u8>,
    /// Words with what is escaped.
    pub rough: Vec<u8>,
    /// Digits from 1 to 9.
    pub digits: Vec<u8>,
    /// Lower-case letters.
    pub letters: Vec<u8>,
}

impl Pools {
    /// The pools of these numbers.
    pub fn new(alloc: Global, random: &mut Random) -> Result<Pools, AllocError> {
        Ok(Pools {
            plain: words(alloc, random, PLAIN)?,
            wide: words(alloc, random, WIDE)?,
            rough: words(alloc, random, ROUGH)?,
            digits: bytes_from(alloc, random, b'1', 9)?,
            letters: bytes_from(alloc, random, b'a', 26)?,
        })
    }

    /// A plain text, sometimes a wide one, and every twentieth time one that is escaped.
    pub fn text(&self, random: &mut Random, least: usize, most: usize) -> &[u8] {
        let turn = random.below(20);
        if turn == 0 {
            return part(&self.rough, random, least, most);
        }
        if turn < 5 {
            return part(&self.wide, random, least, most);
        }
        part(&self.plain, random, least, most)
    }

    /// A plain text.
    pub fn plain(&self, random: &mut Random, least: usize, most: usize) -> &[u8] {
        part(&self.plain, random, least, most)
    }

    /// So many digits.
    pub fn digits(&self, random: &mut Random, least: usize, most: usize) -> &[u8] {
        part(&self.digits, random, least, most)
    }

    /// So many letters.
    pub fn letters(&self, random: &mut Random, least: usize, most: usize) -> &[u8] {
        part(&self.letters, random, least, most)
    }
}

// Words with spaces between them, until the pool is full.
fn words(alloc: Global, random: &mut Random, list: &[&str]) -> Result<Vec<u8>, AllocError> {
    let mut pool = Vec::with_capacity(alloc, POOL)?;
    for _ in 0..POOL {
        if pool.len() >= POOL {
            break;
        }
        let word = list.get(random.below(list.len())).copied().unwrap_or("");
        pool.extend_from_slice(word.as_bytes())?;
        pool.push(b' ')?;
    }
    Ok(pool)
}

// Bytes from the first on, of so many kinds.
fn bytes_from(
    alloc: Global,
    random: &mut Random,
    first: u8,
    kinds: usize,
) -> Result<Vec<u8>, AllocError> {
    let mut pool = Vec::with_capacity(alloc, POOL)?;
    for _ in 0..POOL {
        let offset = u8::try_from(random.below(kinds)).unwrap_or(0);
        pool.push(first.wrapping_add(offset))?;
    }
    Ok(pool)
}

// A part of a pool of whole characters, of at least and at most so many bytes, or three more.
fn part<'p>(pool: &'p [u8], random: &mut Random, least: usize, most: usize) -> &'p [u8] {
    let number = random.next();
    let span = most.saturating_sub(least).saturating_add(1);
    let len = least.saturating_add(scaled(number, span));
    let from = character_from(pool, scaled(number >> 32, pool.len().saturating_sub(len)));
    let to = character_from(pool, from.saturating_add(len));
    pool.get(from..to).unwrap_or(&[])
}

// The first index from this one on at which a character of the text begins.
fn character_from(text: &[u8], from: usize) -> usize {
    for step in 0..4 {
        let at = from.saturating_add(step);
        match text.get(at) {
            Some(byte) if *byte & 0xC0 == 0x80 => {}
            _ => return at,
        }
    }
    from
}
