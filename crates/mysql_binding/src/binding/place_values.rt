//! The values of a query's places, from the lookup until the text is written.
//!
//! Values by position stay where the parameters have them. A place with a name keeps as little as
//! its parameters allow: a reference, the index of a pair, or a borrowed value.
ghost use Rattle.std.specs.Prelude.{◌≡◌, ◌<◌, List, Some, get_or, length, option_map};
ghost use Rattle.mysql_values.specs.BorrowedValue.{owned, owned_values};
ghost use Rattle.mysql_values.specs.Literal.{is_float};
ghost use Rattle.mysql_values.specs.Value.{FieldsInRange};
ghost use Rattle.mysql_values.specs.declared.value.Value as value;
ghost use Rattle.mysql_values.specs.declared.value.Value.TheVariants.{NULL};
ghost use Rattle.mysql_params_core.specs.Referents.{referents};
ghost use Rattle.mysql_binding.specs.PlaceValues.{pair_values, placed_values};

use crate::binding::form::LiteralForm;
use mysql_values::laws::{borrowed_fields_in_range, fields_in_range};
use mysql_values::value::{Value, ValueRef};

/// The values of a query's places, in order. For the crates above.
#[derive(Debug, Drop)]
pub enum PlaceValues<'p> {
    /// Values by position.
    Positional(&'p [Value]),
    /// Borrowed values by position.
    Values(&'p [ValueRef<'p>]),
    /// Values of a map.
    Named(Vec<&'p Value>),
    /// Values of a few pairs.
    Pairs(PairValues<'p>),
    /// Borrowed values that were looked up one by one.
    Listed(Vec<ValueRef<'p>>),
}

impl PlaceValues<'_> {
    /// The number of values.
    pub fn count(&self) -> usize
        ensures { result ≡ length (placed_values self.now) }
    {
        match self {
            PlaceValues::Positional(list) => list.len(),
            PlaceValues::Values(list) => list.len(),
            PlaceValues::Named(list) => list.len(),
            PlaceValues::Pairs(list) => list.indices.len(),
            PlaceValues::Listed(list) => list.len(),
        }
    }
}

/// For each place the index of a pair, which has the value.
#[derive(Debug, Drop)]
pub struct PairValues<'p> {
    /// The pairs of a name and a value.
    pub pairs: &'p [(&'p [u8], ValueRef<'p>)],
    /// The index of each place's pair. If it isn't that of a pair, the value is NULL.
    pub indices: Vec<u8>,
}

/// A value whose literal is written, owned or borrowed.
pub trait LiteralValue: Copy {
    // the value
    ghost value: { Self → value.Value };

    /// Whether it is a float.
    fn is_float(self) -> bool
        ensures { result ≡ is_float (value self) };

    /// The number of bytes of its literal.
    fn len_in<F: LiteralForm>(self, form: &F) -> Option<u128>
        ensures len { result ≡ option_map length (F.literal form.now (value self)) }
        ensures in_range { FieldsInRange (value self) };

    /// Writes its literal over the whole of `room`.
    fn put_in<F: LiteralForm>(self, form: &F, room: &mut [u8])
        requires { option_map length (F.literal form.now (value self)) ≡ Some (length room.old) }
        ensures exact { F.literal form.now (value self) ≡ Some room.new }
        ensures known { F.IsKnown form.now (value self) room.new };
}

impl LiteralValue for &Value {
    ghost value = { λ value. value.now };

    fn is_float(self) -> bool {
        matches!(self, Value::Float(_) | Value::Double(_))
    }

    fn len_in<F: LiteralForm>(self, form: &F) -> Option<u128> {
        fields_in_range(self);
        form.value_len(self)
    }

    fn put_in<F: LiteralForm>(self, form: &F, room: &mut [u8]) {
        form.put_value(self, room);
    }
}

impl LiteralValue for ValueRef<'_> {
    ghost value = { owned };

    fn is_float(self) -> bool {
        matches!(self, ValueRef::Float(_) | ValueRef::Double(_))
    }

    fn len_in<F: LiteralForm>(self, form: &F) -> Option<u128> {
        borrowed_fields_in_range(self);
        form.len(self)
    }

    fn put_in<F: LiteralForm>(self, form: &F, room: &mut [u8]) {
        form.put(self, room);
    }
}

/// A list of values of one kind. Each kind has loops of its own, so the kind is chosen once and not
/// for each place.
pub(super) trait ValueList: Copy {
    // the values
    ghost values: { Self → List value.Value };

    /// How a value is borrowed.
    type Item: LiteralValue;

    /// The number of values.
    fn count(self) -> usize
        ensures { result ≡ length (values self) };

    /// The value of a place.
    fn at(self, place: usize) -> Self::Item
        requires { place < length (values self) }
        ensures { Self.Item.value result ≡ get_or (values self) place NULL };
}

impl<'p> ValueList for &'p [Value] {
    ghost values = { λ list. list.now };

    type Item = &'p Value;

    fn count(self) -> usize {
        self.len()
    }

    fn at(self, place: usize) -> &'p Value {
        &self[place]
    }
}

impl<'p> ValueList for &'p [ValueRef<'p>] {
    ghost values = { λ list. owned_values list.now };

    type Item = ValueRef<'p>;

    fn count(self) -> usize {
        self.len()
    }

    fn at(self, place: usize) -> ValueRef<'p> {
        self[place]
    }
}

impl<'p> ValueList for &'p [&'p Value] {
    ghost values = { λ list. referents list.now };

    type Item = &'p Value;

    fn count(self) -> usize {
        self.len()
    }

    fn at(self, place: usize) -> &'p Value {
        self[place]
    }
}

impl<'p> ValueList for &'p PairValues<'p> {
    ghost values = { λ list. pair_values list.now };

    type Item = ValueRef<'p>;

    fn count(self) -> usize {
        self.indices.len()
    }

    fn at(self, place: usize) -> ValueRef<'p> {
        match self.pairs.get(self.indices[place] as usize) {
            Some(pair) => pair.1,
            None => ValueRef::NULL,
        }
    }
}
