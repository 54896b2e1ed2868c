//! Borrowed values bound by position for one purpose.
ghost use Rattle.std.specs.Prelude.{◌≡◌, ℕ, Bool, None, Some, IfErr, IfOk, IsErrOf};
ghost use Rattle.mysql_named_params.specs.Tokens.{OnTokens};
ghost use Rattle.mysql_named_params.specs.Places.{HasName, HasMark};
ghost use Rattle.mysql_params_core.specs.Given.{positional};
ghost use Rattle.mysql_values.specs.BorrowedValue.{owned_values};
ghost use Rattle.mysql_binding.specs.BindErrors.{IsCauseOrMemory};
ghost use Rattle.mysql_binding.specs.BoundAgain.{IsSameBoundAgain, IsSameByPosition};
ghost use Rattle.mysql_binding.specs.FirstCause.{first_cause};
ghost use Rattle.mysql_binding.specs.Isolation.{IsBoundText};
ghost use Rattle.mysql_portable.specs.FirstUnportable.{first_unportable};
ghost use Rattle.mysql_portable.specs.Steady.{first_unsteady, IsSteady};
ghost use Rattle.mysql_portable.specs.declared.portable.Unportable as unportable;
ghost use Rattle.mysql_steady_text.specs.BothModesErrors.{IsBothModesRefusal};
ghost use Rattle.mysql_steady_text.specs.BothModesText.{IsPortableInBothModes, IsBoundAgainInBothModes, IsByPositionInBothModes};
ghost use Rattle.mysql_steady_text.specs.FirstBackslash.{first_backslash};
ghost use Rattle.mysql_steady_text.specs.SteadyAgain.{IsSteadyBoundAgain, IsSteadyByPosition};
ghost use Rattle.mysql_steady_text.specs.SteadyText.{IsAnywhereText, IsSteadyText};
ghost use Rattle.mysql_steady_text.specs.SteadyTextErrors.{IsSteadyRefusal};

use crate::instances::IN_ANY_MODE;
use crate::instances::errors::{for_any, for_both_modes, for_mode};
use crate::one_call::bind;
use crate::values::ByPosition;
use mysql_binding::BindError;
use mysql_steady_text::purpose::{ANYWHERE, IN_BOTH_MODES, Portability, Purpose, Scope};
use mysql_steady_text::{BothModesError, SteadyTextError};
use mysql_values::value::ValueRef;
use std::alloc::Global;

/// [`bind_text_in`](crate::bind_text_in) with borrowed values by position. No value is copied. It
/// is refused for the same causes.
pub fn bind_values(
    alloc: Global,
    query: &[u8],
    values: &[ValueRef<'_>],
    no_backslash_escape: bool,
) -> Result<Vec<u8>, BindError>
    ensures bound { OnTokens no_backslash_escape query.now (λ ts. IfOk result (λ text.
        IsBoundText no_backslash_escape ts (positional (owned_values values.now)) text.items)) }
    ensures refused { OnTokens no_backslash_escape query.now (λ ts. IfErr result
        (IsCauseOrMemory (first_cause ts (positional (owned_values values.now))))) }
    ensures bound_again { IfOk result (λ text. IsSameBoundAgain no_backslash_escape text.items) }
    ensures by_position { OnTokens no_backslash_escape query.now (λ ts. IfOk result (λ text.
        IsSameByPosition no_backslash_escape ts (positional (owned_values values.now))
        text.items)) }

    // A query with a name and a mark is refused without allocating.
    ensures mixed { OnTokens no_backslash_escape query.now (λ ts.
        HasName ts × HasMark ts → IsErrOf result BindError.Mixed) }
{
    let purpose = Purpose {
        scope: Scope::OneMode {
            no_backslash_escape,
        },
        portability: Portability::Any,
        wide_names: false,
    };
    for_mode(bind(alloc, query, &ByPosition(values), purpose))
}

/// [`bind_text_anywhere`](crate::bind_text_anywhere) for borrowed values by position: no value is
/// copied. It refuses for the same causes.
pub fn bind_values_anywhere(
    alloc: Global,
    query: &[u8],
    values: &[ValueRef<'_>],
) -> Result<Vec<u8>, SteadyTextError>
    ensures bound { (mode : Bool) → OnTokens mode query.now (λ ts. IfOk result (λ text.
        IsAnywhereText ts (positional (owned_values values.now)) text.items)) }
    ensures refused { (mode : Bool) → OnTokens mode query.now (λ ts. IfErr result
        (IsSteadyRefusal query.now (first_unportable ts)
        (first_cause ts (positional (owned_values values.now))))) }
    ensures bound_again { IfOk result (λ text. IsSteadyBoundAgain text.items) }
    ensures by_position { (mode : Bool) → OnTokens mode query.now (λ ts. IfOk result (λ text.
        IsSteadyByPosition mode ts (positional (owned_values values.now)) text.items)) }

    // These are refused without allocating.
    ensures unsteady { (at : ℕ) → first_unsteady query.now ≡ Some at →
        IsErrOf result (SteadyTextError.Unsteady at) }
    ensures unportable { (mode : Bool) → OnTokens mode query.now (λ ts. IsSteady query.now →
        (found : unportable.Unportable) → first_unportable ts ≡ Some found →
        IsErrOf result (SteadyTextError.Unportable found)) }
    ensures mixed { (mode : Bool) → OnTokens mode query.now (λ ts. IsSteady query.now →
        first_unportable ts ≡ None → HasName ts × HasMark ts →
        IsErrOf result (SteadyTextError.Bind BindError.Mixed)) }
{
    for_any(bind(alloc, query, &ByPosition(values), ANYWHERE))
}

/// [`bind_values_anywhere`] for a query that is meant for one server, like
/// [`bind_text_in_any_mode`](crate::bind_text_in_any_mode): the query needn't be portable, so
/// `Unportable` never comes. Everything else is the same.
pub fn bind_values_in_any_mode(
    alloc: Global,
    query: &[u8],
    values: &[ValueRef<'_>],
) -> Result<Vec<u8>, SteadyTextError>
    ensures bound { (mode : Bool) → OnTokens mode query.now (λ ts. IfOk result (λ text.
        IsSteadyText ts (positional (owned_values values.now)) text.items)) }
    ensures refused { (mode : Bool) → OnTokens mode query.now (λ ts. IfErr result
        (IsSteadyRefusal query.now None (first_cause ts (positional (owned_values values.now))))) }
    ensures bound_again { IfOk result (λ text. IsSteadyBoundAgain text.items) }
    ensures by_position { (mode : Bool) → OnTokens mode query.now (λ ts. IfOk result (λ text.
        IsSteadyByPosition mode ts (positional (owned_values values.now)) text.items)) }

    // These are refused without allocating.
    ensures unsteady { (at : ℕ) → first_unsteady query.now ≡ Some at →
        IsErrOf result (SteadyTextError.Unsteady at) }
    ensures mixed { (mode : Bool) → OnTokens mode query.now (λ ts. IsSteady query.now →
        HasName ts × HasMark ts → IsErrOf result (SteadyTextError.Bind BindError.Mixed)) }
{
    for_any(bind(alloc, query, &ByPosition(values), IN_ANY_MODE))
}

/// [`bind_text_in_both_modes`](crate::bind_text_in_both_modes) for borrowed values by position: no
/// value is copied. It refuses for the same causes.
pub fn bind_values_in_both_modes(
    alloc: Global,
    query: &[u8],
    values: &[ValueRef<'_>],
) -> Result<Vec<u8>, BothModesError>
    ensures bound { (mode : Bool) → OnTokens mode query.now (λ ts. IfOk result (λ text.
        IsPortableInBothModes ts (positional (owned_values values.now)) text.items)) }
    ensures refused { (mode : Bool) → OnTokens mode query.now (λ ts. IfErr result
        (IsBothModesRefusal (first_backslash ts) (first_unportable ts)
        (first_cause ts (positional (owned_values values.now))))) }
    ensures bound_again { IfOk result (λ text. IsBoundAgainInBothModes text.items) }
    ensures by_position { (mode : Bool) → OnTokens mode query.now (λ ts. IfOk result (λ text.
        IsByPositionInBothModes mode ts (positional (owned_values values.now)) text.items)) }

    // These are refused without allocating.
    ensures backslash { (mode : Bool) → OnTokens mode query.now (λ ts.
        (at : ℕ) → first_backslash ts ≡ Some at → IsErrOf result (BothModesError.Backslash at)) }
    ensures unportable { (mode : Bool) → OnTokens mode query.now (λ ts. first_backslash ts ≡ None →
        (found : unportable.Unportable) → first_unportable ts ≡ Some found →
        IsErrOf result (BothModesError.Unportable found)) }
    ensures mixed { (mode : Bool) → OnTokens mode query.now (λ ts. first_backslash ts ≡ None →
        first_unportable ts ≡ None → HasName ts × HasMark ts →
        IsErrOf result (BothModesError.Bind BindError.Mixed)) }
{
    for_both_modes(bind(alloc, query, &ByPosition(values), IN_BOTH_MODES))
}
