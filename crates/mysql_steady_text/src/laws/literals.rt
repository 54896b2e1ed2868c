//! The law of steady literals. It does nothing: it is called for what it ensures.
ghost use Rattle.std.specs.Prelude.{◌≡◌, IfSome, is_none};
ghost use Rattle.mysql_sql_text.specs.InLine.{IsInLine};
ghost use Rattle.mysql_values.specs.BorrowedValue.{owned};
ghost use Rattle.mysql_values.specs.Literal.{is_float};
ghost use Rattle.mysql_portable.specs.Steady.{IsSteady};
ghost use Rattle.mysql_steady_text.specs.SteadyLiteral.{steady_literal_of};
ghost use Rattle.mysql_steady_text.specs.SteadyShape.{IsSteadyLiteral};
ghost use Rattle.mysql_steady_text.specs.ReadSteadyLiteral.{ReadsSteadyAs};

use mysql_values::laws::{borrowed_fields_in_range, fields_in_range};
use mysql_values::value::{Value, ValueRef};

/// The steady literal of a value has the shape of steady literals, is steady, and reads in either
/// mode as the content of the value. It has no newline and no byte 0. Floats have none, and only
/// floats.
pub fn steady_literals(value: &Value)
    ensures shape { IfSome (steady_literal_of value.now) IsSteadyLiteral }
    ensures steady { IfSome (steady_literal_of value.now) IsSteady }
    ensures reads_back { IfSome (steady_literal_of value.now) (ReadsSteadyAs value.now) }
    ensures in_line { IfSome (steady_literal_of value.now) IsInLine }
    ensures float { is_none (steady_literal_of value.now) ≡ is_float value.now }
{
    fields_in_range(value);
}

/// The same for a borrowed value.
pub fn borrowed_steady_literals(value: ValueRef<'_>)
    ensures shape { IfSome (steady_literal_of (owned value.entry)) IsSteadyLiteral }
    ensures steady { IfSome (steady_literal_of (owned value.entry)) IsSteady }
    ensures reads_back { IfSome (steady_literal_of (owned value.entry))
        (ReadsSteadyAs (owned value.entry)) }
    ensures float { is_none (steady_literal_of (owned value.entry)) ≡ is_float (owned value.entry) }
{
    borrowed_fields_in_range(value);
}
