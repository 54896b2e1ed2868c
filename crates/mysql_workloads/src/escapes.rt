//! A text of which every second byte is escaped, bound again and again. The parameters are copied
//! for each call, which takes them.
use crate::digest::Digest;
use crate::first_turn::take_bytes;
use crate::random::Random;
use crate::some_values::bytes;
use mysql_params::bind_text;
use mysql_params::params::Params;
use std::alloc::{AllocError, Global};

const QUERY: &[u8] = b"INSERT INTO odd (text) VALUES (?)";

// The number of bytes that are escaped.
const ESCAPES: usize = 4096;

/// Binds the text so many times.
pub fn run(
    alloc: Global,
    random: &mut Random,
    turns: usize,
    digest: &mut Digest,
) -> Result<(), AllocError> {
    let text = text(alloc, random)?;
    let mut values = Vec::with_capacity(alloc, 1)?;
    values.push(bytes(alloc, &text)?)?;
    let params = Params::Positional(values);
    for turn in 0..turns {
        let params = params.clone()?;
        match bind_text(alloc, QUERY, params) {
            Ok(bound) => take_bytes(digest, turn, bound.as_slice()),
            Err(_) => digest.number(1),
        }
    }
    Ok(())
}

// A text of pairs of a byte that is escaped and a letter.
fn text(alloc: Global, random: &mut Random) -> Result<Vec<u8>, AllocError> {
    let mut text = Vec::with_capacity(alloc, 2 * ESCAPES)?;
    for _ in 0..ESCAPES {
        let bits = random.next();
        let escaped = match bits & 3 {
            0 => b'\'',
            1 => b'\\',
            2 => b'"',
            _ => b'\n',
        };
        text.extend_from_slice(&[escaped, b'a' + ((bits >> 8) & 15) as u8])?;
    }
    Ok(text)
}
