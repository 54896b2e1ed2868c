//! Laws of the definitions that the contracts cite, and of equality. No program needs to call them.
ghost use Rattle.std.specs.Prelude.{◌≡◌, ◌↔◌, ℕ, List, IsTrue, Result};
ghost use Rattle.mysql_params_core.specs.Given.{Given};
ghost use Rattle.mysql_flat_params.specs.FlatForm.{FormRefusal, IsFormReading};
ghost use Rattle.mysql_flat_params.specs.Outcomes.{number_of, report_of};
ghost use Rattle.mysql_flat_params.specs.declared.outcome.Outcome as outcome;

use crate::form_error::FormError;
use crate::outcome::{Outcome, Report};
use crate::rows::Rows;

/// Each form either has parameters or is refused, and this result is unique.
pub fn one_form_reading()
    ensures exists { (form : List ℕ) →
        (reading : Result Given FormRefusal) × IsFormReading form reading }
    ensures unique { (form : List ℕ) (a b : Result Given FormRefusal) →
        IsFormReading form a → IsFormReading form b → a ≡ b }
{}

/// No two outcomes have the same number and fields.
pub fn one_outcome()
    ensures unique { (a b : outcome.Outcome) →
        number_of a ≡ number_of b → report_of a ≡ report_of b → a ≡ b }
{}

/// Errors of forms are equal if and only if variant and fields are.
pub fn form_error_equality(a: &FormError, b: &FormError) -> bool
    ensures same { IsTrue result ↔ (a.now ≡ b.now) }
    ensures member { result ≡ ⟦<FormError as PartialEq>⟧.eq a.now b.now }
{
    a == b
}

/// Outcomes are equal if and only if variant and fields are.
pub fn outcome_equality(a: &Outcome, b: &Outcome) -> bool
    ensures same { IsTrue result ↔ (a.now ≡ b.now) }
    ensures member { result ≡ ⟦<Outcome as PartialEq>⟧.eq a.now b.now }
{
    a == b
}

/// Reports are equal if and only if all fields are.
pub fn report_equality(a: &Report, b: &Report) -> bool
    ensures same { IsTrue result ↔ (a.now ≡ b.now) }
    ensures member { result ≡ ⟦<Report as PartialEq>⟧.eq a.now b.now }
{
    a == b
}

/// Two `Rows` are equal if and only if all fields are.
pub fn rows_equality(a: &Rows, b: &Rows) -> bool
    ensures same { IsTrue result ↔ (a.now ≡ b.now) }
    ensures member { result ≡ ⟦<Rows as PartialEq>⟧.eq a.now b.now }
{
    a == b
}
