//! The names of a query, as slices of it.
ghost use Rattle.std.specs.Prelude.{◌≡◌, ◌≢◌, None, IfOk, OnErr};
ghost use Rattle.mysql_named_params.specs.Places.{names};
ghost use Rattle.mysql_params_core.specs.Referents.{referents};
ghost use Rattle.mysql_binding.specs.FirstCause.{mixed_cause};
ghost use Rattle.mysql_binding.specs.SurveyedQuery.{OnSurveyed};

use crate::binding::found::place_after;
use crate::binding::survey::SurveyedQuery;
use std::alloc::{AllocError, Global};

/// The names of a query that has no names or no marks, as slices of the query. For the crates
/// above.
pub fn query_names<'q>(
    alloc: Global,
    surveyed: &SurveyedQuery<'q>,
) -> Result<Vec<&'q [u8]>, AllocError>
    requires unmixed { OnSurveyed surveyed.now (λ ts. mixed_cause ts ≡ None) }
    ensures names { IfOk result (λ list. OnSurveyed surveyed.now (λ ts.
        referents list.items ≡ names ts)) }
    ensures memory { OnErr result (surveyed.now.survey.names ≢ 0) }
{
    let count = surveyed.survey.names;
    let mut list = Vec::with_capacity(alloc, count)?;
    let mut rest = surveyed.query;
    while list.len() < count {
        let Some(found) = place_after(surveyed.known, list.len(), rest, surveyed.reading) else {
            unreachable!()
        };
        let (_, place, after) = found.cut(rest);
        list.push(&place[1..])?;
        rest = after;
    }
    Ok(list)
}
