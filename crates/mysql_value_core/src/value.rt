//! Values of the protocol, owned and borrowed, and the bytes that they hold.
ghost use Rattle.std.specs.Prelude.{◌≡◌, IfOk, OnErr, nat_eq};
ghost use Rattle.std.specs.Cmp.Lexicographic.{pointwise, slice_cmp};
ghost use Rattle.std.specs.Cmp.{partial_order_from_own_ties};
ghost use Rattle.std.specs.Cmp.Rules.{comparing};
ghost use Rattle.std.specs.Ordering.{nat_cmp, as_partial_cmp};
ghost use Rattle.std.proofs.Common.{rules};
ghost use Rattle.mysql_value_core.specs.Value.{FieldsInRange, IsBytes};
ghost use Rattle.mysql_value_core.specs.Bytes.{AreBytes};
ghost use Rattle.mysql_value_core.specs.BorrowedValue.{owned};

mod binary;
mod binary_row;
mod borrowed_binary;
mod borrowed_literal;
pub mod convert;
mod literal;
mod side;
mod text;

use crate::show::Quoted;
pub use crate::value::binary::BinValue;
pub use crate::value::binary_row::{
    BinaryRowError, NullBitmap, read_binary_cells_into, read_null_bitmap,
};
pub use crate::value::borrowed_binary::read_binary_value;
pub use crate::value::literal::AsSqlError;
pub use crate::value::side::{ClientSide, SerializationSide, ServerSide};
pub use crate::value::text::{TextValue, read_text_cell, read_text_cells, read_text_cells_into};
use std::alloc::{AllocError, Global};
use std::cmp::Ordering;
use std::fmt;
use std::marker::{Model, PhantomData};

/// A value of the MySQL client/server protocol.
///
/// `Float` and `Double` hold the bits of the number. The fields of `Date` are year, month, day,
/// hour, minute, second and microseconds. The fields of `Time` are a flag for negative, days,
/// hours, minutes, seconds and microseconds. Values are equal if and only if variant and fields are
/// equal. The order is by variant, as listed here, and then by the fields.
#[derive(PartialEq, Eq, PartialOrd, Ord, Drop)]
pub enum Value {
    NULL,
    Bytes(Bytes),
    Int(i64),
    UInt(u64),
    Float(u32),
    Double(u64),
    Date(u16, u8, u8, u8, u8, u8, u32),
    Time(bool, u32, u8, u8, u8, u32),
}

impl Value {
    /// A copy of the value. Only a copy of `Bytes` allocates, on the allocator of the bytes.
    pub fn clone(&self) -> Result<Value, AllocError>
        ensures equal { IfOk result (λ copy. copy ≡ self.now) }
        ensures memory { OnErr result (IsBytes self.now) }
    {
        match self {
            Value::NULL => Ok(Value::NULL),
            Value::Bytes(bytes) => {
                let bytes = bytes.clone()?;
                Ok(Value::Bytes(bytes))
            }
            Value::Int(number) => Ok(Value::Int(*number)),
            Value::UInt(number) => Ok(Value::UInt(*number)),
            Value::Float(bits) => Ok(Value::Float(*bits)),
            Value::Double(bits) => Ok(Value::Double(*bits)),
            Value::Date(year, month, day, hour, minute, second, microseconds) => {
                Ok(Value::Date(*year, *month, *day, *hour, *minute, *second, *microseconds))
            }
            Value::Time(negative, days, hours, minutes, seconds, microseconds) => {
                Ok(Value::Time(*negative, *days, *hours, *minutes, *seconds, *microseconds))
            }
        }
    }

    // It reads each field and does nothing. It lets a proof use that all fields are in their
    // ranges.
    pub(crate) fn fields_in_range(&self)
        ensures { FieldsInRange self.now }
    {
        match self {
            Value::NULL => {}
            Value::Bytes(bytes) => {
                let _bytes = bytes.as_slice();
            }
            Value::Int(number) => {
                let _number = *number;
            }
            Value::UInt(number) => {
                let _number = *number;
            }
            Value::Float(bits) => {
                let _bits = *bits;
            }
            Value::Double(bits) => {
                let _bits = *bits;
            }
            Value::Date(year, month, day, hour, minute, second, microseconds) => {
                let _date = (*year, *month, *day, *hour, *minute, *second, *microseconds);
            }
            Value::Time(_, days, hours, minutes, seconds, microseconds) => {
                let _time = (*days, *hours, *minutes, *seconds, *microseconds);
            }
        }
    }
}

/// A value that was read from the form `T`: `TextValue` or `BinValue`.
#[derive(Drop)]
pub struct ValueDeserializer<T>(pub Value, PhantomData<T>);

/// The same as the inherent `clone`, for the containers of the standard library, which copy their
/// items by it.
impl Clone for Value {
    ghost is_clone = { λ value copy. copy ≡ value };

    fn clone(&self) -> Result<Value, AllocError>
        ensures equal { IfOk result (λ copy. copy ≡ self.now) }
        ensures memory { OnErr result (IsBytes self.now) }
    {
        Value::clone(self)
    }
}

/// A value of the MySQL client/server protocol whose bytes are borrowed. It is a [`Value`] of the
/// same variant with the same fields. A copy of it takes no memory. Equality and order are those of
/// the values.
#[derive(Clone, Copy, PartialEq, Eq, PartialOrd, Ord)]
pub enum ValueRef<'v> {
    NULL,
    Bytes(&'v [u8]),
    Int(i64),
    UInt(u64),
    Float(u32),
    Double(u64),
    Date(u16, u8, u8, u8, u8, u8, u32),
    Time(bool, u32, u8, u8, u8, u32),
}

impl Value {
    /// The same value, borrowed. No bytes are copied.
    // Inline, since it comes before each call that takes borrowed values. The rare variants are
    // borrowed by a call: otherwise the many small fields of dates would be taken apart for each
    // value.
    #[inline(always)]
    pub fn borrowed(&self) -> ValueRef<'_>
        ensures same { owned result ≡ self.now }
    {
        match self {
            Value::NULL => ValueRef::NULL,
            Value::Bytes(bytes) => ValueRef::Bytes(bytes.as_slice()),
            Value::Int(number) => ValueRef::Int(*number),
            Value::UInt(number) => ValueRef::UInt(*number),
            _ => self.borrowed_by_call(),
        }
    }

    // The same value, borrowed, by a call.
    #[inline(never)]
    fn borrowed_by_call(&self) -> ValueRef<'_>
        ensures same { owned result ≡ self.now }
    {
        match self {
            Value::NULL => ValueRef::NULL,
            Value::Bytes(bytes) => ValueRef::Bytes(bytes.as_slice()),
            Value::Int(number) => ValueRef::Int(*number),
            Value::UInt(number) => ValueRef::UInt(*number),
            Value::Float(bits) => ValueRef::Float(*bits),
            Value::Double(bits) => ValueRef::Double(*bits),
            &Value::Date(year, month, day, hour, minute, second, microseconds) => {
                ValueRef::Date(year, month, day, hour, minute, second, microseconds)
            }
            &Value::Time(negative, days, hours, minutes, seconds, microseconds) => {
                ValueRef::Time(negative, days, hours, minutes, seconds, microseconds)
            }
        }
    }
}

impl<'v> ValueRef<'v> {
    /// The same value with bytes of its own. Only `Bytes` allocates.
    pub fn to_value(self, alloc: Global) -> Result<Value, AllocError>
        ensures same { IfOk result (λ value. value ≡ owned self.entry) }
        ensures memory { OnErr result (IsBytes (owned self.entry)) }
    {
        match self {
            ValueRef::NULL => Ok(Value::NULL),
            ValueRef::Bytes(bytes) => {
                let bytes = Vec::from_slice(alloc, bytes)?;
                Ok(Value::Bytes(Bytes::from(bytes)))
            }
            ValueRef::Int(number) => Ok(Value::Int(number)),
            ValueRef::UInt(number) => Ok(Value::UInt(number)),
            ValueRef::Float(bits) => Ok(Value::Float(bits)),
            ValueRef::Double(bits) => Ok(Value::Double(bits)),
            ValueRef::Date(year, month, day, hour, minute, second, microseconds) => {
                Ok(Value::Date(year, month, day, hour, minute, second, microseconds))
            }
            ValueRef::Time(negative, days, hours, minutes, seconds, microseconds) => {
                Ok(Value::Time(negative, days, hours, minutes, seconds, microseconds))
            }
        }
    }

    // It reads each field and does nothing. It lets a proof use that all fields are in their
    // ranges.
    pub(crate) fn fields_in_range(self)
        ensures { FieldsInRange (owned self.entry) }
    {
        match self {
            ValueRef::NULL => {}
            ValueRef::Bytes(bytes) => read_bytes(bytes),
            ValueRef::Int(number) => {
                let _number = number;
            }
            ValueRef::UInt(number) => {
                let _number = number;
            }
            ValueRef::Float(bits) => {
                let _bits = bits;
            }
            ValueRef::Double(bits) => {
                let _bits = bits;
            }
            ValueRef::Date(year, month, day, hour, minute, second, microseconds) => {
                let _date = (year, month, day, hour, minute, second, microseconds);
            }
            ValueRef::Time(_, days, hours, minutes, seconds, microseconds) => {
                let _time = (days, hours, minutes, seconds, microseconds);
            }
        }
    }
}

// It does nothing. It lets a proof use that the items are bytes.
fn read_bytes(bytes: &[u8])
    ensures { AreBytes bytes.now }
{
    let _bytes = bytes;
}

/// The bytes of a value: a vector, which contracts see as the list of its bytes. It is made from a
/// `Vec<u8>` and converts back to it. Neither conversion allocates.
#[derive(Drop)]
pub struct Bytes {
    items: Vec<u8>,
}

impl Model for Bytes {
    ghost use Rattle.std.specs.Prelude.{List, ℕ};

    ghost Value = { List ℕ };

    ghost view = { λ bytes. bytes.items.items };
}

impl Bytes {
    /// The bytes, as a slice.
    pub fn as_slice(&self) -> &[u8]
        ensures same { result.now ≡ self.now }
        ensures range { AreBytes self.now }
    {
        bytes_in_range(self.items.as_slice())
    }

    /// A copy of the bytes, on their own allocator.
    pub fn clone(&self) -> Result<Bytes, AllocError>
        ensures equal { IfOk result (λ copy. copy ≡ self.now) }
    {
        let items = self.items.clone()?;
        Ok(Bytes { items })
    }
}

// The same slice. It lets a proof use that its items are bytes.
fn bytes_in_range(bytes: &[u8]) -> &[u8]
    ensures same { result.now ≡ bytes.now }
    ensures range { AreBytes bytes.now }
{
    bytes
}

impl From<Vec<u8>> for Bytes {
    ghost from_gives = { λ vector bytes. bytes ≡ vector.items };

    fn from(items: Vec<u8>) -> Bytes {
        Bytes { items }
    }
}

impl From<Bytes> for Vec<u8> {
    ghost from_gives = { λ bytes vector. vector.items ≡ bytes };

    fn from(bytes: Bytes) -> Vec<u8> {
        let Bytes { items } = bytes;
        items
    }
}

impl PartialEq for Bytes {
    ghost eq = { pointwise nat_eq };

    ghost laws = { Prim.search (comparing, rules) };

    fn eq(&self, other: &Bytes) -> bool {
        self.items == other.items
    }
}

impl Eq for Bytes {
    ghost laws = { Prim.search (comparing, rules) };
}

impl PartialOrd for Bytes {
    ghost partial_cmp = { as_partial_cmp (slice_cmp nat_cmp) };

    ghost laws = { partial_order_from_own_ties (Prim.search (comparing, rules))
        (Prim.search (comparing, rules)) };

    fn partial_cmp(&self, other: &Bytes) -> Option<Ordering> {
        Some(self.cmp(other))
    }
}

impl Ord for Bytes {
    ghost cmp = { slice_cmp nat_cmp };

    ghost total = { Prim.search (comparing, rules) };

    ghost matches_partial_cmp = { Prim.search (comparing, rules) };

    ghost matches_eq = { Prim.search (comparing, rules) };

    fn cmp(&self, other: &Bytes) -> Ordering {
        self.items.cmp(&other.items)
    }
}

/// Shows at most the first eight bytes, in double quotes. If there are more, two dots follow them.
impl fmt::Debug for Bytes {
    fn fmt<W: fmt::Write>(&self, f: &mut fmt::Formatter<W>) -> fmt::Result {
        write!(f, "{:?}", Quoted(self.as_slice()))
    }
}
