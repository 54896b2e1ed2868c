//! Queries with fragments in the places of wide names, and values in guarded literals.
ghost use Rattle.std.specs.Prelude.{◌≡◌, ℕ, Bool, None, Some, IfErr, IfOk, IsErrOf};
ghost use Rattle.mysql_named_params.specs.LoweredNames.{lower_names};
ghost use Rattle.mysql_named_params.specs.Places.{HasMark, HasName};
ghost use Rattle.mysql_named_params.specs.Reading.{OnWideTokens};
ghost use Rattle.mysql_portable.specs.FirstUnportable.{first_unportable};
ghost use Rattle.mysql_portable.specs.Steady.{first_unsteady, IsSteady};
ghost use Rattle.mysql_portable.specs.declared.portable.Unportable as unportable;
ghost use Rattle.mysql_fragments.specs.GivenFragments.{given_fragments};
ghost use Rattle.mysql_fragments.specs.GuardedFragments.{IsGuardedFragments, IsGuardedOnServers};
ghost use Rattle.mysql_fragments.specs.SteadyFragmentsErrors.{IsFragmentsRefusal, IsSteadyRefusal};

use crate::expanded::placed_fragments;
use crate::filled::filled_query;
use crate::fragment::Fragments;
use crate::fragments_error::FragmentsError;
use crate::steady_fragments_error::{SteadyFragmentsError, steady_fragments_error};
use crate::unsteady::first_unsteady_place;
use mysql_named_params::places::Reading;
use mysql_steady_text::GuardedForm;
use mysql_steady_text::purpose::{WIDE_ANYWHERE, query_refusal};
use std::alloc::Global;

/// The query with a fragment in the place of each wide name and mark, its values as guarded
/// literals, for a connection that is taken to be in this mode over utf8mb4. On any server, in each
/// mode, and over each character set of a client, no value leaves its literal.
///
/// The text is the one that [`bind_text_guarded`](mysql_steady_text::bind_text_guarded) gives for
/// the query of [`expanded_wide_query_in`](crate::expanded_wide_query_in) and its values. Mode and
/// character set decide only what a text says, as there.
///
/// It refuses as `bind_fragments_anywhere` in `mysql_bind_call` does, but reads wide names.
pub fn bind_wide_fragments_guarded(
    alloc: Global,
    query: &[u8],
    fragments: &Fragments,
    no_backslash_escape: bool,
) -> Result<Vec<u8>, SteadyFragmentsError>
    ensures bound { (mode : Bool) → OnWideTokens mode query.now (λ ts. IfOk result (λ text.
        IsGuardedOnServers no_backslash_escape ts (given_fragments fragments.now) text.items)) }
    ensures refused { (mode : Bool) → OnWideTokens mode query.now (λ ts. IfErr result
        (IsSteadyRefusal query.now (first_unportable (lower_names ts)) ts
        (given_fragments fragments.now))) }

    // These are refused without allocating.
    ensures unsteady { (at : ℕ) → first_unsteady query.now ≡ Some at →
        IsErrOf result (SteadyFragmentsError.Unsteady at) }
    ensures unportable { (mode : Bool) → OnWideTokens mode query.now (λ ts. IsSteady query.now →
        (found : unportable.Unportable) → first_unportable (lower_names ts) ≡ Some found →
        IsErrOf result (SteadyFragmentsError.Unportable found)) }
    ensures mixed { (mode : Bool) → OnWideTokens mode query.now (λ ts. IsSteady query.now →
        first_unportable (lower_names ts) ≡ None →
        HasName ts × HasMark ts →
        IsErrOf result (SteadyFragmentsError.Fragments FragmentsError.Mixed)) }
{
    match query_refusal(query, WIDE_ANYWHERE) {
        Some(refusal) => Err(steady_fragments_error(refusal)),
        None => bind_guarded_fragments(alloc, query, fragments, no_backslash_escape),
    }
}

/// The text of a steady query. Such a query has the same tokens in both modes. The error is
/// `Fragments` or `UnsteadyFragment`.
fn bind_guarded_fragments(
    alloc: Global,
    query: &[u8],
    fragments: &Fragments,
    no_backslash_escape: bool,
) -> Result<Vec<u8>, SteadyFragmentsError>
    requires { IsSteady query.now }
    ensures bound { (mode : Bool) → OnWideTokens mode query.now (λ ts. IfOk result (λ text.
        IsGuardedFragments no_backslash_escape ts (given_fragments fragments.now) text.items)) }
    ensures refused { (mode : Bool) → OnWideTokens mode query.now (λ ts.
        IfErr result (IsFragmentsRefusal ts (given_fragments fragments.now))) }
    ensures mixed { (mode : Bool) → OnWideTokens mode query.now (λ ts. HasName ts × HasMark ts →
        IsErrOf result (SteadyFragmentsError.Fragments FragmentsError.Mixed)) }
{
    let reading = Reading {
        no_backslash_escape: false,
        wide_names: true,
    };
    let list = placed_fragments(alloc, query, fragments, reading, true)?;
    if let Some(place) = first_unsteady_place(list.as_slice()) {
        return Err(SteadyFragmentsError::UnsteadyFragment { place });
    }
    let form = GuardedForm {
        no_backslash_escape,
    };
    let text = filled_query(alloc, query, list.as_slice(), reading, &form)?;
    Ok(text)
}
