//! The numbers of finite floats and doubles.
ghost use Rattle.std.specs.Prelude.{◌≡◌};
ghost use Rattle.std.specs.Option.{option_map};
ghost use Rattle.mysql_values.specs.BorrowedValue.{owned};
ghost use Rattle.mysql_float_literal.specs.DoubleText.{double_value};
ghost use Rattle.mysql_flat_params.specs.FiniteDouble.{finite_double};

use mysql_float_literal::Double;
use mysql_values::value::ValueRef;

/// The number of a finite float or double; `None` for any other value.
pub(crate) fn double_in(value: ValueRef<'_>) -> Option<Double>
    ensures { option_map double_value result ≡ finite_double (owned value.entry) }
{
    match value {
        ValueRef::Float(bits) => Double::from_float_bits(bits),
        ValueRef::Double(bits) => Double::from_bits(bits),
        _ => None,
    }
}
