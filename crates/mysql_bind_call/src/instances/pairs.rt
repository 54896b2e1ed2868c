//! Borrowed pairs bound for one purpose.
ghost use Rattle.std.specs.Prelude.{◌≡◌, ℕ, Bool, None, Some, IfErr, IfOk, IsErrOf};
ghost use Rattle.mysql_named_params.specs.Tokens.{OnTokens};
ghost use Rattle.mysql_named_params.specs.Places.{HasName, HasMark};
ghost use Rattle.mysql_binding.specs.BoundAgain.{IsSameBoundAgain, IsSameByPosition};
ghost use Rattle.mysql_binding.specs.BoundPairs.{IfFewPairs, IsPairsRefusal, OfPairs};
ghost use Rattle.mysql_binding.specs.Isolation.{IsBoundText};
ghost use Rattle.mysql_portable.specs.FirstUnportable.{first_unportable};
ghost use Rattle.mysql_portable.specs.Steady.{first_unsteady, IsSteady};
ghost use Rattle.mysql_portable.specs.declared.portable.Unportable as unportable;
ghost use Rattle.mysql_steady_text.specs.BothModesText.{IsPortableInBothModes, IsBoundAgainInBothModes, IsByPositionInBothModes};
ghost use Rattle.mysql_steady_text.specs.FirstBackslash.{first_backslash};
ghost use Rattle.mysql_steady_text.specs.SteadyAgain.{IsSteadyBoundAgain, IsSteadyByPosition};
ghost use Rattle.mysql_steady_text.specs.SteadyPairs.{IsBothModesPairsRefusal, IsSteadyPairsRefusal};
ghost use Rattle.mysql_steady_text.specs.SteadyText.{IsAnywhereText, IsSteadyText};

use crate::instances::IN_ANY_MODE;
use crate::instances::errors::{pairs_for_any, pairs_for_both_modes, pairs_for_mode};
use crate::one_call::bind;
use mysql_binding::{BindError, BindPairsError};
use mysql_params_core::params::NamedPairs;
use mysql_steady_text::purpose::{ANYWHERE, IN_BOTH_MODES, Portability, Purpose, Scope};
use mysql_steady_text::{BothModesError, BothModesPairsError, SteadyPairsError, SteadyTextError};
use mysql_values::value::ValueRef;
use std::alloc::Global;

/// [`bind_text_in`](crate::bind_text_in) with named parameters that are borrowed, in pairs. No name
/// and no value is copied. Up to 64 pairs are compared and searched one by one, without memory. For
/// more pairs a sorted map is made.
///
/// A name that is given twice is refused first. Then come the causes of
/// [`bind_text_in`](crate::bind_text_in), in its order. For more than 64 pairs, out of memory can
/// come before all of them.
pub fn bind_pairs(
    alloc: Global,
    query: &[u8],
    pairs: &[(&[u8], ValueRef<'_>)],
    no_backslash_escape: bool,
) -> Result<Vec<u8>, BindPairsError>
    ensures bound { IfOk result (λ text. OfPairs pairs.now (λ given.
        OnTokens no_backslash_escape query.now (λ ts.
        IsBoundText no_backslash_escape ts given text.items))) }
    ensures refused { IfErr result (IsPairsRefusal no_backslash_escape query.now pairs.now) }
    ensures bound_again { IfOk result (λ text. IsSameBoundAgain no_backslash_escape text.items) }
    ensures by_position { IfOk result (λ text. OfPairs pairs.now (λ given.
        OnTokens no_backslash_escape query.now (λ ts.
        IsSameByPosition no_backslash_escape ts given text.items))) }

    // A query with both a name and a mark is refused without allocating, if there are at most 64
    // pairs and no name is given twice.
    ensures mixed { IfFewPairs pairs.now (λ given. OnTokens no_backslash_escape query.now (λ ts.
        HasName ts × HasMark ts → IsErrOf result (BindPairsError.Bind BindError.Mixed))) }
{
    let purpose = Purpose {
        scope: Scope::OneMode {
            no_backslash_escape,
        },
        portability: Portability::Any,
        wide_names: false,
    };
    pairs_for_mode(bind(alloc, query, &NamedPairs(pairs), purpose))
}

/// [`bind_text_anywhere`](crate::bind_text_anywhere) for borrowed named parameters, in pairs: no
/// name and no value is copied. For more than 64 pairs a sorted map is made.
///
/// A name that is given twice is refused first. Then it refuses for the causes of
/// [`bind_text_anywhere`](crate::bind_text_anywhere), in their order. For more than 64 pairs, out
/// of memory may come before either.
pub fn bind_pairs_anywhere(
    alloc: Global,
    query: &[u8],
    pairs: &[(&[u8], ValueRef<'_>)],
) -> Result<Vec<u8>, SteadyPairsError>
    ensures bound { IfOk result (λ text. OfPairs pairs.now (λ given. (mode : Bool) →
        OnTokens mode query.now (λ ts. IsAnywhereText ts given text.items))) }
    ensures refused { IfErr result
        (IsSteadyPairsRefusal query.now first_unportable pairs.now) }
    ensures bound_again { IfOk result (λ text. IsSteadyBoundAgain text.items) }
    ensures by_position { IfOk result (λ text. OfPairs pairs.now (λ given. (mode : Bool) →
        OnTokens mode query.now (λ ts. IsSteadyByPosition mode ts given text.items))) }

    // These are refused without allocating, if there are at most 64 pairs and no name is given
    // twice.
    ensures unsteady { IfFewPairs pairs.now (λ given. (at : ℕ) →
        first_unsteady query.now ≡ Some at →
        IsErrOf result (SteadyPairsError.Bind (SteadyTextError.Unsteady at))) }
    ensures unportable { IfFewPairs pairs.now (λ given. (mode : Bool) →
        OnTokens mode query.now (λ ts. IsSteady query.now → (found : unportable.Unportable) →
        first_unportable ts ≡ Some found →
        IsErrOf result (SteadyPairsError.Bind (SteadyTextError.Unportable found)))) }
    ensures mixed { IfFewPairs pairs.now (λ given. (mode : Bool) →
        OnTokens mode query.now (λ ts. IsSteady query.now → first_unportable ts ≡ None →
        HasName ts × HasMark ts →
        IsErrOf result (SteadyPairsError.Bind (SteadyTextError.Bind BindError.Mixed)))) }
{
    pairs_for_any(bind(alloc, query, &NamedPairs(pairs), ANYWHERE))
}

/// [`bind_pairs_anywhere`] for a query that is meant for one server, like
/// [`bind_text_in_any_mode`](crate::bind_text_in_any_mode): the query needn't be portable, so
/// `Unportable` never comes. Everything else is the same.
pub fn bind_pairs_in_any_mode(
    alloc: Global,
    query: &[u8],
    pairs: &[(&[u8], ValueRef<'_>)],
) -> Result<Vec<u8>, SteadyPairsError>
    ensures bound { IfOk result (λ text. OfPairs pairs.now (λ given. (mode : Bool) →
        OnTokens mode query.now (λ ts. IsSteadyText ts given text.items))) }
    ensures refused { IfErr result (IsSteadyPairsRefusal query.now (λ ts. None) pairs.now) }
    ensures bound_again { IfOk result (λ text. IsSteadyBoundAgain text.items) }
    ensures by_position { IfOk result (λ text. OfPairs pairs.now (λ given. (mode : Bool) →
        OnTokens mode query.now (λ ts. IsSteadyByPosition mode ts given text.items))) }

    // These are refused without allocating, if there are at most 64 pairs and no name is given
    // twice.
    ensures unsteady { IfFewPairs pairs.now (λ given. (at : ℕ) →
        first_unsteady query.now ≡ Some at →
        IsErrOf result (SteadyPairsError.Bind (SteadyTextError.Unsteady at))) }
    ensures mixed { IfFewPairs pairs.now (λ given. (mode : Bool) →
        OnTokens mode query.now (λ ts. IsSteady query.now → HasName ts × HasMark ts →
        IsErrOf result (SteadyPairsError.Bind (SteadyTextError.Bind BindError.Mixed)))) }
{
    pairs_for_any(bind(alloc, query, &NamedPairs(pairs), IN_ANY_MODE))
}

/// [`bind_text_in_both_modes`](crate::bind_text_in_both_modes) for borrowed named parameters, in
/// pairs: no name and no value is copied. For more than 64 pairs a sorted map is made.
///
/// A name that is given twice is refused first. Then it refuses for the causes of
/// [`bind_text_in_both_modes`](crate::bind_text_in_both_modes), in their order. For more than 64
/// pairs, out of memory may come before either.
pub fn bind_pairs_in_both_modes(
    alloc: Global,
    query: &[u8],
    pairs: &[(&[u8], ValueRef<'_>)],
) -> Result<Vec<u8>, BothModesPairsError>
    ensures bound { IfOk result (λ text. OfPairs pairs.now (λ given. (mode : Bool) →
        OnTokens mode query.now (λ ts. IsPortableInBothModes ts given text.items))) }
    ensures refused { IfErr result (IsBothModesPairsRefusal query.now pairs.now) }
    ensures bound_again { IfOk result (λ text. IsBoundAgainInBothModes text.items) }
    ensures by_position { IfOk result (λ text. OfPairs pairs.now (λ given. (mode : Bool) →
        OnTokens mode query.now (λ ts. IsByPositionInBothModes mode ts given text.items))) }

    // These are refused without allocating, if there are at most 64 pairs and no name is given
    // twice.
    ensures backslash { IfFewPairs pairs.now (λ given. (mode : Bool) →
        OnTokens mode query.now (λ ts. (at : ℕ) → first_backslash ts ≡ Some at →
        IsErrOf result (BothModesPairsError.Bind (BothModesError.Backslash at)))) }
    ensures unportable { IfFewPairs pairs.now (λ given. (mode : Bool) →
        OnTokens mode query.now (λ ts. first_backslash ts ≡ None → (found : unportable.Unportable) →
        first_unportable ts ≡ Some found →
        IsErrOf result (BothModesPairsError.Bind (BothModesError.Unportable found)))) }
    ensures mixed { IfFewPairs pairs.now (λ given. (mode : Bool) →
        OnTokens mode query.now (λ ts. first_backslash ts ≡ None → first_unportable ts ≡ None →
        HasName ts × HasMark ts →
        IsErrOf result (BothModesPairsError.Bind (BothModesError.Bind BindError.Mixed)))) }
{
    pairs_for_both_modes(bind(alloc, query, &NamedPairs(pairs), IN_BOTH_MODES))
}
