//! The forms in which the literals of values are written.
ghost use Rattle.std.specs.Prelude.{◌≡◌, Some, length, option_map, refl};
ghost use Rattle.mysql_values.specs.BorrowedValue.{owned};
ghost use Rattle.mysql_values.specs.Literal.{literal_of};
ghost use Rattle.mysql_values.specs.declared.value.Value.TheVariants.{NULL, Bytes, Int, UInt, Float, Double, Date, Time};
ghost use Rattle.mysql_binding.specs.LiteralForm.{Literals, LiteralFacts, LackFloats, IsPlainLiteral};

use mysql_values::laws::{
    borrowed_fields_in_range, borrowed_literal_shape, fields_in_range, literal_shape,
};
use mysql_values::value::{Value, ValueRef};

/// A form in which [`bind_borrowed_as`](crate::bind_borrowed_as) writes the literals of values.
/// Exactly the floats have no literal. For the crate above.
pub trait LiteralForm {
    // the literal that it writes for each value
    ghost literal: { Self → Literals };

    // the facts that are known of that literal
    ghost IsKnown: { Self → LiteralFacts };

    /// The number of bytes of the literal of a value. It allocates nothing.
    fn len(&self, value: ValueRef<'_>) -> Option<u128>
        ensures { result ≡ option_map length (literal self.now (owned value.entry)) };

    /// Writes the literal of a value over the whole of `room`.
    fn put(&self, value: ValueRef<'_>, room: &mut [u8])
        requires { option_map length (literal self.now (owned value)) ≡ Some (length room.old) }
        ensures exact { literal self.now (owned value.entry) ≡ Some room.new }
        ensures known { IsKnown self.now (owned value.entry) room.new };

    /// [`len`](LiteralForm::len) of an owned value. Borrowing it first would take longer.
    fn value_len(&self, value: &Value) -> Option<u128>
        ensures { result ≡ option_map length (literal self.now value.now) };

    /// [`put`](LiteralForm::put) of an owned value.
    fn put_value(&self, value: &Value, room: &mut [u8])
        requires { option_map length (literal self.now value.now) ≡ Some (length room.old) }
        ensures exact { literal self.now value.now ≡ Some room.new }
        ensures known { IsKnown self.now value.now room.new };

    // exactly floats have no literal
    ghost floats: { (form : Self) → LackFloats (literal form) };
}

/// The literals of a mode, as [`ValueRef::put_sql`] writes them.
#[derive(Debug, Clone, Copy)]
pub struct PlainForm {
    /// Whether a backslash is a byte like any other.
    pub no_backslash_escape: bool,
}

impl LiteralForm for PlainForm {
    ghost literal = { λ form. literal_of form.no_backslash_escape };

    ghost IsKnown = { λ form. IsPlainLiteral form.no_backslash_escape };

    ghost floats = { λ form. elim [
      | NULL ↦ refl
      | Bytes bytes ↦ refl
      | Int number ↦ refl
      | UInt number ↦ refl
      | Float bits ↦ refl
      | Double bits ↦ refl
      | Date year month day hour minute second microseconds ↦ refl
      | Time negative days hours minutes seconds microseconds ↦ refl
    ] };

    fn len(&self, value: ValueRef<'_>) -> Option<u128> {
        value.sql_len(self.no_backslash_escape)
    }

    fn put(&self, value: ValueRef<'_>, room: &mut [u8]) {
        borrowed_fields_in_range(value);
        borrowed_literal_shape(value);
        value.put_sql(self.no_backslash_escape, room);
    }

    fn value_len(&self, value: &Value) -> Option<u128> {
        let PlainForm {
            no_backslash_escape,
        } = *self;
        value.sql_len(no_backslash_escape)
    }

    fn put_value(&self, value: &Value, room: &mut [u8]) {
        let PlainForm {
            no_backslash_escape,
        } = *self;
        fields_in_range(value);
        literal_shape(value);
        value.put_sql(no_backslash_escape, room);
    }
}
