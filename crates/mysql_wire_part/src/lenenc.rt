//! Length-encoded strings, written and read.
ghost use Rattle.std.specs.Prelude.{◌≡◌, ◌≤◌, ◌++◌, length, take, OnOk, OnErr};
ghost use Rattle.mysql_wire_part.specs.Reading.{read_number};
ghost use Rattle.mysql_wire_part.specs.Lenenc.{length_spelling, lenenc_spelling, read_length, LenencReadsBack};
ghost use Rattle.mysql_wire_part.specs.Answer.{IsAnswer};
ghost use Rattle.mysql_wire_part.specs.ParseBuf.{read_refusal};

use crate::error::WireError;
use byteorder::{ByteOrder, LittleEndian};
use std::alloc::AllocError;

// The least lengths that take 2, 3 and 8 bytes after a lead. A smaller length is a single byte.
const LEAST_OF_TWO: u64 = 251;

const LEAST_OF_THREE: u64 = 0x1_0000;

const LEAST_OF_EIGHT: u64 = 0x100_0000;

// The leads of these lengths. FB is the least byte that isn't a length itself. Neither FB nor FF
// begins a length.
const LEAST_LEAD: u8 = 0xFB;

const LEAD_OF_TWO: u8 = 0xFC;

const LEAD_OF_THREE: u8 = 0xFD;

const LEAD_OF_EIGHT: u8 = 0xFE;

/// The length of these bytes as a length-encoded string (MySQL client/server protocol,
/// "Protocol::LengthEncodedString").
pub fn lenenc_str_len(bytes: &[u8]) -> u64
    ensures count { result ≡ length (lenenc_spelling bytes.now) }
{
    let len = bytes.len() as u64;
    match len {
        0..LEAST_OF_TWO => len + 1,
        LEAST_OF_TWO..LEAST_OF_THREE => len + 3,
        LEAST_OF_THREE..LEAST_OF_EIGHT => len + 4,
        _ => len + 9,
    }
}

/// Appends the bytes as a length-encoded string (MySQL client/server protocol,
/// "Protocol::LengthEncodedString"). If memory is refused, the vector is unchanged.
#[tactic(auto, using(crate::proofs::LenencLemmas::lenenc_reads_back))]
pub fn put_lenenc_str(buf: &mut Vec<u8>, bytes: &[u8]) -> Result<(), AllocError>
    ensures appended { OnOk result (buf.new.items ≡ buf.old.items ++ lenenc_spelling bytes.now) }
    ensures unchanged { OnErr result (buf.new.items ≡ buf.old.items) }
    ensures reads_back { LenencReadsBack bytes.now }
{
    let (head, count) = length_head(bytes.len() as u64);
    buf.try_reserve(count + bytes.len())?;
    buf.extend_from_slice(&head[..count])?;
    buf.extend_from_slice(bytes)
}

/// Fills the slice with the bytes as a length-encoded string. The slice must have exactly
/// [`lenenc_str_len`] bytes. It allocates nothing and is never refused.
pub fn fill_lenenc_str(slice: &mut [u8], bytes: &[u8])
    requires exact { length slice.old ≡ length (lenenc_spelling bytes.now) }
    ensures filled { slice.new ≡ lenenc_spelling bytes.now }
{
    let (head, count) = length_head(bytes.len() as u64);
    slice[..count].copy_from_slice(&head[..count]);
    slice[count..].copy_from_slice(bytes);
}

// The bytes of a length, at the front of the array, and their number.
fn length_head(len: u64) -> ([u8; 9], usize)
    ensures few { result.1 ≤ 9 }
    ensures spelled { take result.1 result.0 ≡ length_spelling len }
{
    let mut head = [0u8; 9];
    if len < LEAST_OF_TWO {
        head[0] = len as u8;
        return (head, 1);
    }
    if len < LEAST_OF_THREE {
        head[0] = LEAD_OF_TWO;
        LittleEndian::write_u16(&mut head[1..], len as u16);
        return (head, 3);
    }
    if len < LEAST_OF_EIGHT {
        head[0] = LEAD_OF_THREE;
        LittleEndian::write_u24(&mut head[1..], len as u32);
        return (head, 4);
    }
    head[0] = LEAD_OF_EIGHT;
    LittleEndian::write_u64(&mut head[1..], len);
    (head, 9)
}

// The length at the front of the bytes, and the bytes after it.
pub(crate) fn length_at(bytes: &[u8]) -> Result<(u64, &[u8]), WireError>
    ensures read { IsAnswer (λ read. (read.0, read.1.now)) read_refusal
        (read_length bytes.now) ⊥ result }
{
    match bytes {
        [] => Err(WireError::UnexpectedEof),
        [lead @ 0..LEAST_LEAD, rest @ ..] => Ok((u64::from(*lead), rest)),
        [LEAD_OF_TWO, rest @ ..] => number_at(rest, 2),
        [LEAD_OF_THREE, rest @ ..] => number_at(rest, 3),
        [LEAD_OF_EIGHT, rest @ ..] => number_at(rest, 8),
        [lead, ..] => Err(WireError::BadLengthLead(*lead)),
    }
}

// The number of the next `count` bytes, and the bytes after them.
fn number_at(bytes: &[u8], count: usize) -> Result<(u64, &[u8]), WireError>
    requires low { 1 ≤ count }
    requires high { count ≤ 8 }
    ensures read { IsAnswer (λ read. (read.0, read.1.now)) read_refusal
        (read_number count bytes.now) ⊥ result }
{
    if bytes.len() < count {
        return Err(WireError::UnexpectedEof);
    }
    Ok((LittleEndian::read_uint(bytes, count), &bytes[count..]))
}
