//! A buffer that is read from its front.
ghost use Rattle.std.specs.Prelude.{◌≡◌, ◌↔◌, [], length, IsTrue, OnErr, option_map};
ghost use Rattle.byteorder.specs.Endian.{twos_complement};
ghost use Rattle.mysql_wire_part.specs.Reading.{read_bytes, read_number, map_read};
ghost use Rattle.mysql_wire_part.specs.Lenenc.{read_lenenc};
ghost use Rattle.mysql_wire_part.specs.Answer.{IsAnswer};
ghost use Rattle.mysql_wire_part.specs.ParseBuf.{left, Eats, read_refusal};

use crate::error::WireError;
use crate::lenenc::length_at;
use byteorder::{ByteOrder, LittleEndian};

/// The bytes of a buffer that are left. Each call that eats takes the bytes of its result off the
/// front. It returns `None` if too few bytes are left. After `None` or an error, the buffer is
/// unchanged. Numbers and strings have the forms "Protocol::FixedLengthInteger" and
/// "Protocol::LengthEncodedString" of the MySQL client/server protocol.
#[derive(Clone, Copy, Debug, PartialEq, Eq)]
pub struct ParseBuf<'a>(pub &'a [u8]);

impl<'a> ParseBuf<'a> {
    /// Whether no bytes are left.
    pub fn is_empty(&self) -> bool
        ensures empty { IsTrue result ↔ (left self.now ≡ []) }
    {
        self.0.is_empty()
    }

    /// The number of bytes that are left.
    pub fn len(&self) -> usize
        ensures count { result ≡ length (left self.now) }
    {
        self.0.len()
    }

    /// The next byte.
    pub fn checked_eat_u8(&mut self) -> Option<u8>
        ensures eats { Eats (read_number 1 (left self.old)) (left self.old) (left self.new) result }
    {
        let front = self.checked_eat_buf(1)?;
        Some(front.0[0])
    }

    /// The next byte, in two's complement.
    pub fn checked_eat_i8(&mut self) -> Option<i8>
        ensures eats { Eats (map_read (twos_complement 1) (read_number 1 (left self.old)))
            (left self.old) (left self.new) result }
    {
        let n = self.checked_eat_u8()?;
        Some(n.cast_signed())
    }

    /// The number of the next 2 bytes, least byte first.
    pub fn checked_eat_u16_le(&mut self) -> Option<u16>
        ensures eats { Eats (read_number 2 (left self.old)) (left self.old) (left self.new) result }
    {
        let front = self.checked_eat_buf(2)?;
        Some(LittleEndian::read_u16(front.0))
    }

    /// The number of the next 2 bytes, least byte first, in two's complement.
    pub fn checked_eat_i16_le(&mut self) -> Option<i16>
        ensures eats { Eats (map_read (twos_complement 2) (read_number 2 (left self.old)))
            (left self.old) (left self.new) result }
    {
        let n = self.checked_eat_u16_le()?;
        Some(n.cast_signed())
    }

    /// The number of the next 4 bytes, least byte first.
    pub fn checked_eat_u32_le(&mut self) -> Option<u32>
        ensures eats { Eats (read_number 4 (left self.old)) (left self.old) (left self.new) result }
    {
        let front = self.checked_eat_buf(4)?;
        Some(LittleEndian::read_u32(front.0))
    }

    /// The number of the next 4 bytes, least byte first, in two's complement.
    pub fn checked_eat_i32_le(&mut self) -> Option<i32>
        ensures eats { Eats (map_read (twos_complement 4) (read_number 4 (left self.old)))
            (left self.old) (left self.new) result }
    {
        let n = self.checked_eat_u32_le()?;
        Some(n.cast_signed())
    }

    /// The number of the next 8 bytes, least byte first.
    pub fn checked_eat_u64_le(&mut self) -> Option<u64>
        ensures eats { Eats (read_number 8 (left self.old)) (left self.old) (left self.new) result }
    {
        let front = self.checked_eat_buf(8)?;
        Some(LittleEndian::read_u64(front.0))
    }

    /// The number of the next 8 bytes, least byte first, in two's complement.
    pub fn checked_eat_i64_le(&mut self) -> Option<i64>
        ensures eats { Eats (map_read (twos_complement 8) (read_number 8 (left self.old)))
            (left self.old) (left self.new) result }
    {
        let n = self.checked_eat_u64_le()?;
        Some(n.cast_signed())
    }

    /// The next `n` bytes, as a buffer of their own.
    pub fn checked_eat_buf(&mut self, n: usize) -> Option<ParseBuf<'a>>
        ensures eats { Eats (read_bytes n (left self.old)) (left self.old) (left self.new)
            (option_map left result) }
    {
        let (front, rest) = self.0.split_at_checked(n)?;
        self.0 = rest;
        Some(ParseBuf(front))
    }

    /// The next length-encoded string, as a slice of the input. The error is `UnexpectedEof` if the
    /// length or the string is cut. It is `BadLengthLead` if FB or FF is in place of a length.
    pub fn eat_lenenc_str(&mut self) -> Result<&'a [u8], WireError>
        // It allocates nothing, so it is never out of memory.
        ensures read { IsAnswer (λ text. (text.now, left self.new)) read_refusal
            (read_lenenc (left self.old)) ⊥ result }
        ensures unchanged { OnErr result (left self.new ≡ left self.old) }
    {
        let (len, rest) = length_at(self.0)?;
        if (rest.len() as u64) < len {
            return Err(WireError::UnexpectedEof);
        }
        let (text, rest) = rest.split_at(len as usize);
        self.0 = rest;
        Ok(text)
    }
}
