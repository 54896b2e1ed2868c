//! Queries with fragments in their places and values in steady literals.
ghost use Rattle.std.specs.Prelude.{Bool, Some, IfErr, IfOk, IsErrOf};
ghost use Rattle.mysql_named_params.specs.Reading.{OnTokensIn, reading_with};
ghost use Rattle.mysql_named_params.specs.Places.{HasName, HasMark};
ghost use Rattle.mysql_portable.specs.Steady.{IsSteady};
ghost use Rattle.mysql_fragments.specs.GivenFragments.{given_fragments};
ghost use Rattle.mysql_fragments.specs.SteadyFragments.{IsSteadyFragments};
ghost use Rattle.mysql_fragments.specs.SteadyFragmentsErrors.{IsFragmentsRefusal};

use crate::expanded::placed_fragments;
use crate::filled::filled_query;
use crate::fragment::Fragments;
use crate::fragments_error::FragmentsError;
use crate::steady_fragments_error::SteadyFragmentsError;
use crate::unsteady::first_unsteady_place;
use mysql_named_params::places::Reading;
use mysql_steady_text::SteadyForm;
use std::alloc::Global;

/// The text of a steady query, by wide names or by those of the grammar. Such a query has the same
/// tokens in both modes. The error is `Fragments` or `UnsteadyFragment`.
pub fn bind_steady_fragments(
    alloc: Global,
    query: &[u8],
    fragments: &Fragments,
    wide_names: bool,
) -> Result<Vec<u8>, SteadyFragmentsError>
    requires { IsSteady query.now }
    ensures bound { (mode : Bool) → OnTokensIn (reading_with wide_names mode) query.now (λ ts.
        IfOk result (λ text. IsSteadyFragments ts (given_fragments fragments.now) text.items)) }
    ensures refused { (mode : Bool) → OnTokensIn (reading_with wide_names mode) query.now (λ ts.
        IfErr result (IsFragmentsRefusal ts (given_fragments fragments.now))) }
    ensures mixed { (mode : Bool) → OnTokensIn (reading_with wide_names mode) query.now (λ ts.
        HasName ts × HasMark ts →
        IsErrOf result (SteadyFragmentsError.Fragments FragmentsError.Mixed)) }
{
    let reading = Reading {
        no_backslash_escape: false,
        wide_names,
    };
    let list = placed_fragments(alloc, query, fragments, reading, true)?;
    if let Some(place) = first_unsteady_place(list.as_slice()) {
        return Err(SteadyFragmentsError::UnsteadyFragment { place });
    }
    let text = filled_query(alloc, query, list.as_slice(), reading, &SteadyForm)?;
    Ok(text)
}
