//! Items of lists and rows.
ghost use Rattle.std.specs.Prelude.{◌≡◌, Ok, to_bits, ⊤};
ghost use Rattle.std.specs.Float.{binary64};
ghost use Rattle.mysql_values.specs.Answer.{IsAnswer};
ghost use Rattle.mysql_values.specs.ValueOf.{too_long_duration};
ghost use Rattle.mysql_to_fragments.specs.FragmentContent.{item_content, number_item, value_item};
ghost use Rattle.mysql_to_fragments.specs.Arguments.{SaidItem, made_of, said_double};

use mysql_fragments::Item;
use mysql_values::value::Value;
use mysql_values::value::convert::{ToValue, ToValueError};
use std::alloc::Global;

/// An argument that makes an item of a list or a row: one that has a value, a [`Decimal`] or a
/// [`DoubleOf`].
pub trait ToItem {
    // the content of the item, or the duration that is too long for its value
    ghost said_item: { Self → SaidItem };

    /// The item. `DurationTooLong` is returned only if the type's `said_item` is such a duration.
    /// `Memory` may come in place of any other result.
    fn to_item(&self, alloc: Global) -> Result<Item, ToValueError>
        ensures { IsAnswer item_content too_long_duration (said_item self.now) ⊤ result };
}

impl<T: ToValue> ToItem for T {
    ghost said_item = { λ argument. made_of value_item (T.value_of argument) };

    fn to_item(&self, alloc: Global) -> Result<Item, ToValueError> {
        let value = self.to_value(alloc)?;
        Ok(Item::Value(value))
    }
}

/// An exact number, such as `-1.50`: the text of [`Item::Decimal`](mysql_fragments::Item::Decimal),
/// which is written as it is. A text that isn't such a number is refused when it is bound.
#[derive(Clone, Copy)]
pub struct Decimal<'a>(pub &'a [u8]);

impl<'a> ToItem for Decimal<'a> {
    ghost said_item = { λ number. Ok (number_item number.0.now) };

    fn to_item(&self, alloc: Global) -> Result<Item, ToValueError> {
        Ok(Item::Decimal(Vec::from_slice(alloc, self.0)?))
    }
}

/// The double of an `f64` or an `f32`, written as a number with an exponent:
/// [`Item::Double`](mysql_fragments::Item::Double). An `f32` is widened to the double of the same
/// value. A NaN and an infinity have no number: they are values, which are refused as `Float` when
/// they are bound.
#[derive(Clone, Copy)]
pub struct DoubleOf<T>(pub T);

impl ToItem for DoubleOf<f64> {
    ghost said_item = { λ double. Ok (said_double double.0) };

    fn to_item(&self, _alloc: Global) -> Result<Item, ToValueError> {
        Ok(double_item(self.0))
    }
}

impl ToItem for DoubleOf<f32> {
    ghost said_item = { λ float. Ok (said_double float.0) };

    fn to_item(&self, _alloc: Global) -> Result<Item, ToValueError> {
        Ok(double_item(f64::from(self.0)))
    }
}

// The item of a double.
fn double_item(double: f64) -> Item
    ensures { item_content result ≡ said_double double }
{
    match mysql_float_literal::Double::new(double) {
        Some(number) => Item::Double(number),
        None => Item::Value(Value::Double(bits_of(double))),
    }
}

// The bits of a double: those of a NaN are always the same.
fn bits_of(double: f64) -> u64
    ensures { result ≡ to_bits binary64 double }
{
    if double.is_nan() {
        0x7ff8_0000_0000_0000
    } else {
        double.to_bits()
    }
}
