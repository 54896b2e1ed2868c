//! Laws about literals: their shape, how they are read back, and the values that have none. Also
//! the ranges of fields, on which literals depend.
ghost use Rattle.std.specs.Prelude.{◌≡◌, ◌↔◌, Bool, IfSome, IsTrue, is_none};
ghost use Rattle.mysql_value_core.specs.declared.value.Value as value;
ghost use Rattle.mysql_value_core.specs.Value.{FieldsInRange};
ghost use Rattle.mysql_value_core.specs.Literal.{is_float, literal_of};
ghost use Rattle.mysql_value_core.specs.Content.{content_of};
ghost use Rattle.mysql_value_core.specs.ReadBack.{ReadsAs};
ghost use Rattle.mysql_sql_text.specs.InLine.{IsInLine};
ghost use Rattle.mysql_sql_text.specs.LiteralShape.{IsLiteral};
ghost use Rattle.mysql_sql_text.specs.StringUnits.{with_backslashes};

use crate::value::{AsSqlError, Value};

/// Each field of a value is in the range of its type.
pub fn fields_in_range(value: &Value)
    ensures range { FieldsInRange value.now }
{
    value.fields_in_range();
}

/// The literal of a value has the shape of literals.
pub fn literal_shape(value: &Value)
    ensures shape { (mode : Bool) → IfSome (literal_of mode value.now) (IsLiteral mode) }
{
    value.fields_in_range();
}

/// The literal of a value is read as the content of the value, before any text that may follow it.
pub fn literal_reads_back(value: &Value)
    ensures reads_back { (mode : Bool) →
        IfSome (literal_of mode value.now) (ReadsAs mode value.now) }
{
    value.fields_in_range();
}

/// With backslash escapes no literal has a newline or a byte 0, whatever its value holds.
pub fn escaped_literals_stand_in_line()
    ensures in_line { (value : value.Value) →
        IfSome (literal_of with_backslashes value) IsInLine }
{}

/// Exactly the floats have no literal. Exactly they have no content.
pub fn floats_have_no_literal()
    ensures literal { (mode : Bool) (value : value.Value) →
        is_none (literal_of mode value) ≡ is_float value }
    ensures content { (value : value.Value) → is_none (content_of value) ≡ is_float value }
{}

/// Refusals of `as_sql` are equal if and only if the variants are equal.
pub fn as_sql_error_equality(a: &AsSqlError, b: &AsSqlError) -> bool
    ensures same { IsTrue result ↔ (a.now ≡ b.now) }
    ensures member { result ≡ ⟦<AsSqlError as PartialEq>⟧.eq a.now b.now }
{
    a == b
}
