//! The text of a query and the fragments of its assignments.
ghost use Rattle.std.specs.Prelude.{◌≡◌, ◌≢◌, false, IfOk, IfErr};
ghost use Rattle.mysql_named_params.specs.NamesAndMarks.{names};
ghost use Rattle.mysql_named_params.specs.Reading.{OnWideTokens, wide_reading};
ghost use Rattle.mysql_portable.specs.SteadyBytes.{IsSteady};
ghost use Rattle.mysql_binding.specs.SurveyedQuery.{OnSurveyed};
ghost use Rattle.mysql_fragments.specs.GivenFragments.{fragment_map, given_fragments};
ghost use Rattle.mysql_bind_core.specs.Bound.{IsAssignedText, IsSteadyIfWanted, IsTaken};
ghost use Rattle.mysql_bind_core.specs.Entries.{IsAskedText, given_to};
ghost use Rattle.mysql_bind_core.specs.Refusals.{IsFragmentsRefusal, IsRefusal};
ghost use Rattle.mysql_bind_core.specs.Requests.{mode_of};

use crate::assignment::{Assignment, assigned_fragments};
use crate::failure::Failure;
use crate::request::{Literals, Request};
use mysql_binding::SurveyedQuery;
use mysql_fragments::{Fragment, Fragments, bind_steady_fragments, bound_fragments};
use mysql_named_params::places::Reading;
use std::alloc::Global;
use std::collections::HashMap;

// The text of a query that the request takes, with the fragments of its assignments.
pub(crate) fn fragments_text(
    alloc: Global,
    query: &SurveyedQuery<'_>,
    assignments: &[Assignment],
    request: Request,
) -> Result<Vec<u8>, Failure>
    requires reading { query.now.reading ≡ wide_reading (mode_of request.literals) }
    requires taken { IsTaken request query.now.query.now }
    ensures bound { IfOk result (λ text.
        IsAssignedText request query.now.query.now assignments.now text.items) }
    ensures refused { IfErr result (IsRefusal request query.now.query.now assignments.now) }
    ensures only { IfErr result (λ e. e ≢ Failure.Write) }
{
    let entries = assigned_fragments(alloc, assignments)?;
    let fragments = given_to(alloc, query, assignments, entries);
    named_text(alloc, query.query, &fragments, request)
}

// The fragments of assignments, as they are given to a query.
fn given_to(
    alloc: Global,
    query: &SurveyedQuery<'_>,
    assignments: &[Assignment],
    entries: HashMap<Vec<u8>, Fragment>,
) -> Fragments
    ensures { OnSurveyed query.now (λ ts. given_fragments result
        ≡ given_to assignments.now (fragment_map entries.entries) (names ts)) }
{
    if assignments.is_empty() && query.survey.names == 0 {
        Fragments::Positional(Vec::new(alloc))
    } else {
        Fragments::Named(entries)
    }
}

// The text of a query and fragments, with the literals that are asked for.
pub(crate) fn named_text(
    alloc: Global,
    query: &[u8],
    fragments: &Fragments,
    request: Request,
) -> Result<Vec<u8>, Failure>
    requires { IsSteadyIfWanted request query.now }
    ensures bound { IfOk result (λ text. OnWideTokens (mode_of request.literals) query.now (λ ts.
        IsAskedText request.literals ts (given_fragments fragments.now) text.items)) }
    ensures refused { IfErr result (λ e. OnWideTokens (mode_of request.literals) query.now (λ ts.
        IsFragmentsRefusal request.literals ts (given_fragments fragments.now) e)) }
{
    match request.literals {
        Literals::Plain {
            no_backslash_escape,
        } => plain_text(alloc, query, fragments, no_backslash_escape),
        Literals::Steady => steady_text(alloc, query, fragments),
    }
}

// The text with literals of a mode.
fn plain_text(
    alloc: Global,
    query: &[u8],
    fragments: &Fragments,
    no_backslash_escape: bool,
) -> Result<Vec<u8>, Failure>
    ensures bound { IfOk result (λ text. OnWideTokens no_backslash_escape query.now (λ ts.
        IsAskedText (Literals.Plain no_backslash_escape) ts
        (given_fragments fragments.now) text.items)) }
    ensures refused { IfErr result (λ e. OnWideTokens no_backslash_escape query.now (λ ts.
        IsFragmentsRefusal (Literals.Plain no_backslash_escape) ts
        (given_fragments fragments.now) e)) }
{
    let reading = Reading {
        no_backslash_escape,
        wide_names: true,
    };
    Ok(bound_fragments(alloc, query, fragments, reading)?)
}

// The text with steady literals, for a steady query. Whether the query and the text are portable is
// checked elsewhere.
fn steady_text(alloc: Global, query: &[u8], fragments: &Fragments) -> Result<Vec<u8>, Failure>
    requires { IsSteady query.now }
    ensures bound { IfOk result (λ text. OnWideTokens false query.now (λ ts.
        IsAskedText Literals.Steady ts (given_fragments fragments.now) text.items)) }
    ensures refused { IfErr result (λ e. OnWideTokens false query.now (λ ts.
        IsFragmentsRefusal Literals.Steady ts (given_fragments fragments.now) e)) }
{
    Ok(bind_steady_fragments(alloc, query, fragments, true)?)
}
