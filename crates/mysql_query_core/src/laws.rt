//! The law of equality of the errors of a run. No program needs to call it.
ghost use Rattle.std.specs.Prelude.{◌≡◌, ◌↔◌, IsTrue};
ghost use Rattle.mysql_query_core.specs.RunErrors.{AreEqualRunErrors};

use crate::run_error::RunError;

/// Errors of a run are equal if and only if variant and field are.
pub fn run_error_equality(a: &RunError, b: &RunError) -> bool
    ensures same { IsTrue result ↔ AreEqualRunErrors a.now b.now }
    ensures member { result ≡ ⟦<RunError as PartialEq>⟧.eq a.now b.now }
{
    a == b
}
