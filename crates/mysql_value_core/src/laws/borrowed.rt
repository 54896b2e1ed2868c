//! Laws about borrowed values. Their equality, their order, the ranges of their fields and the
//! shape of their literals are those of the owned values.
ghost use Rattle.std.specs.Prelude.{◌≡◌, ◌↔◌, Bool, IfSome, IsTrue, Some};
ghost use Rattle.mysql_value_core.specs.BorrowedValue.{owned};
ghost use Rattle.mysql_value_core.specs.Literal.{literal_of};
ghost use Rattle.mysql_value_core.specs.Value.{FieldsInRange};
ghost use Rattle.mysql_value_core.specs.ValueOrder.{value_cmp};
ghost use Rattle.mysql_sql_text.specs.LiteralShape.{IsLiteral};

use crate::value::ValueRef;
use std::cmp::Ordering;

/// Borrowed values are equal if and only if their owned values are equal.
pub fn borrowed_equality(a: &ValueRef<'_>, b: &ValueRef<'_>) -> bool
    ensures same { IsTrue result ↔ (owned a.now ≡ owned b.now) }
    ensures member { result ≡ ⟦<ValueRef<'static> as PartialEq>⟧.eq a.now b.now }
{
    a == b
}

/// Borrowed values are ordered like their owned values.
pub fn borrowed_order(a: &ValueRef<'_>, b: &ValueRef<'_>) -> Ordering
    ensures order { result ≡ value_cmp (owned a.now) (owned b.now) }
    ensures member { result ≡ ⟦<ValueRef<'static> as Ord>⟧.cmp a.now b.now }
{
    a.cmp(b)
}

/// Any two borrowed values have an order: that of `cmp`.
pub fn borrowed_partial_order(a: &ValueRef<'_>, b: &ValueRef<'_>) -> Option<Ordering>
    ensures order { result ≡ Some (value_cmp (owned a.now) (owned b.now)) }
    ensures member { result ≡ ⟦<ValueRef<'static> as PartialOrd>⟧.partial_cmp a.now b.now }
{
    a.partial_cmp(b)
}

/// Each field of a borrowed value is in the range of its type.
pub fn borrowed_fields_in_range(value: ValueRef<'_>)
    ensures range { FieldsInRange (owned value.entry) }
{
    value.fields_in_range();
}

/// The literal of a borrowed value has the shape of literals.
pub fn borrowed_literal_shape(value: ValueRef<'_>)
    ensures shape { (mode : Bool) → IfSome (literal_of mode (owned value.entry)) (IsLiteral mode) }
{
    value.fields_in_range();
}
