//! The traits for values that are written to a buffer or read from one.
ghost use Rattle.std.specs.Prelude.{◌≡◌, ℕ, List, Option, ◌++◌, OnOk, OnErr};
ghost use Rattle.mysql_wire_part.specs.Reading.{Reading};
ghost use Rattle.mysql_wire_part.specs.Answer.{IsAnswer};
ghost use Rattle.mysql_wire_part.specs.ParseBuf.{left, read_refusal};

use crate::error::WireError;
use crate::parse_buf::ParseBuf;
use std::alloc::{AllocError, Global};

/// A type whose values can be written to a buffer.
pub trait MySerialize {
    // the bytes that are written
    ghost spelling: { Self → List ℕ };

    /// Appends the value, as a whole or not at all.
    fn serialize(&self, buf: &mut Vec<u8>) -> Result<(), AllocError>
        ensures appended { OnOk result (buf.new.items ≡ buf.old.items ++ spelling self.now) }
        ensures unchanged { OnErr result (buf.new.items ≡ buf.old.items) };
}

/// A type whose values can be read from the front of a buffer.
pub trait MyDeserialize<'de>: Sized {
    /// The number of bytes that a value takes, if all values take the same number.
    const SIZE: Option<usize>;

    // the same number, for contracts
    ghost SIZE: { Option ℕ };

    /// The context that is needed to read a value.
    type Ctx;

    // the view that contracts have of a value, such as the list of a vector's items
    ghost Seen: { Type 0 };

    ghost seen: { Self → Seen };

    // the value at the front of the bytes, and the bytes after it, or the cause for which none can
    // be read
    ghost reads: { Self.Ctx → List ℕ → Reading Seen };

    // whether a reading allocates, so that it can be out of memory
    ghost takes_memory: { Self.Ctx → List ℕ → Type 0 };

    /// Takes a value off the front of the buffer. On an error the buffer is unchanged.
    fn deserialize(
        alloc: Global,
        ctx: Self::Ctx,
        buf: &mut ParseBuf<'de>,
    ) -> Result<Self, WireError>
        ensures read { IsAnswer (λ x. (seen x, left buf.new)) read_refusal
            (reads ctx (left buf.old)) (takes_memory ctx (left buf.old)) result }
        ensures unchanged { OnErr result (left buf.new ≡ left buf.old) };
}
