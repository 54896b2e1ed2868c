//! Queries with fragments in their places.
ghost use Rattle.std.specs.Prelude.{◌≡◌, false, true, List, None, Some, IfErr, IfOk, IsErrOf, length, map, option_map};
ghost use Rattle.mysql_sql_text.specs.StringUnits.{with_backslashes};
ghost use Rattle.mysql_named_params.specs.Tokens.{OnTokens, Token};
ghost use Rattle.mysql_named_params.specs.Reading.{OnTokensIn};
ghost use Rattle.mysql_named_params.specs.Places.{HasName, HasMark, place_count};
ghost use Rattle.mysql_params_core.specs.Referents.{referents};
ghost use Rattle.mysql_binding.specs.FirstCause.{mark_count_differs};
ghost use Rattle.mysql_binding.specs.Pieces.{pieces, joined_text};
ghost use Rattle.mysql_binding.specs.Survey.{IsSurvey};
ghost use Rattle.mysql_binding.specs.SurveyedQuery.{OnSurveyed};
ghost use Rattle.mysql_fragments.specs.Expanded.{IsBoundFragments, IsExpandedQuery};
ghost use Rattle.mysql_fragments.specs.FilledText.{ArePlaced};
ghost use Rattle.mysql_fragments.specs.FragmentErrors.{IsCauseOrMemory, cause_of, first_cause, first_fault_from, first_float_from, later_cause, literal_float};
ghost use Rattle.mysql_fragments.specs.FragmentText.{all_values, fragment_text};
ghost use Rattle.mysql_fragments.specs.GivenFragments.{given_fragments};

use crate::filled::{filled_query, spliced_text};
use crate::fragment::{Fragment, Fragments};
use crate::fragments_error::{FragmentFault, FragmentsError};
use crate::places::fragments_of_places;
use crate::value_form::Marks;
use crate::written::{has_float, push_values};
use mysql_binding::{PlainForm, Survey, SurveyedQuery};
use mysql_named_params::places::Reading;
use mysql_values::value::Value;
use std::alloc::{AllocError, Global};

/// A query with fragments in its places, for a prepared statement.
#[derive(Drop)]
pub struct ExpandedQuery {
    /// The text of the query, with a mark for each value.
    pub query: Vec<u8>,
    /// The values for its marks, in order.
    pub values: Vec<Value>,
}

/// The query for a prepared statement, with the text of a fragment in the place of each name and
/// mark, and its values. The text of a fragment has a mark for each of its values: `a IN (?)` with
/// a list of three values is `a IN (?, ?, ?)`. Nothing else of the query changes. A server prepares
/// the text, and executes it with the values.
///
/// The first of these causes refuses it:
///
/// - `Mixed`: names and marks in one query;
/// - `Missing` or `Confusion`: a name without a fragment, or fragments of the other kind;
/// - `MarkCount`: in a query without names, marks that aren't as many as the fragments;
/// - `NotAlone`: a place that doesn't stand alone, as `bind_text_in` tests it;
/// - `Fault`: a fragment that can't be written ([`Fragment::fault`]).
///
/// A float is no cause: it is among the values.
///
/// The flag is the server's mode, like that of `bind_text_in`.
///
/// `Memory` may come in place of any other result, except for a query with names and marks.
// A query has one token list in each mode (`mysql_named_params::laws::one_token_list`), so the
// clauses speak of the same `ts`.
pub fn expanded_query_in(
    alloc: Global,
    query: &[u8],
    fragments: &Fragments,
    no_backslash_escape: bool,
) -> Result<ExpandedQuery, FragmentsError>
    ensures expanded { OnTokens no_backslash_escape query.now (λ ts. IfOk result (λ expanded.
        IsExpandedQuery false no_backslash_escape ts (given_fragments fragments.now)
        expanded.query.items expanded.values.items)) }
    ensures refused { OnTokens no_backslash_escape query.now (λ ts. IfErr result
        (IsCauseOrMemory (first_cause false ts (given_fragments fragments.now)))) }

    // A query with a name and a mark is refused without allocating.
    ensures mixed { OnTokens no_backslash_escape query.now (λ ts.
        HasName ts × HasMark ts → IsErrOf result FragmentsError.Mixed) }
{
    let reading = Reading {
        no_backslash_escape,
        wide_names: false,
    };
    expanded(alloc, query, fragments, reading, false)
}

/// The query with fragments in its places, in the mode in which a backslash escapes:
/// [`expanded_query_in`] with `false`. It refuses for the same causes.
pub fn expanded_query(
    alloc: Global,
    query: &[u8],
    fragments: &Fragments,
) -> Result<ExpandedQuery, FragmentsError>
    ensures expanded { OnTokens with_backslashes query.now (λ ts. IfOk result (λ expanded.
        IsExpandedQuery false with_backslashes ts (given_fragments fragments.now)
        expanded.query.items expanded.values.items)) }
    ensures refused { OnTokens with_backslashes query.now (λ ts. IfErr result
        (IsCauseOrMemory (first_cause false ts (given_fragments fragments.now)))) }

    // A query with a name and a mark is refused without allocating.
    ensures mixed { OnTokens with_backslashes query.now (λ ts.
        HasName ts × HasMark ts → IsErrOf result FragmentsError.Mixed) }
{
    expanded_query_in(alloc, query, fragments, false)
}

/// [`expanded_query_in`] for a caller that writes the values as literals itself: it also refuses a
/// float, like `bind_fragments_in`. That call writes the text with the literals at once.
pub fn expanded_for_literals(
    alloc: Global,
    query: &[u8],
    fragments: &Fragments,
    no_backslash_escape: bool,
) -> Result<ExpandedQuery, FragmentsError>
    ensures expanded { OnTokens no_backslash_escape query.now (λ ts. IfOk result (λ expanded.
        IsExpandedQuery true no_backslash_escape ts (given_fragments fragments.now)
        expanded.query.items expanded.values.items)) }
    ensures refused { OnTokens no_backslash_escape query.now (λ ts. IfErr result
        (IsCauseOrMemory (first_cause true ts (given_fragments fragments.now)))) }
    ensures mixed { OnTokens no_backslash_escape query.now (λ ts.
        HasName ts × HasMark ts → IsErrOf result FragmentsError.Mixed) }
{
    let reading = Reading {
        no_backslash_escape,
        wide_names: false,
    };
    expanded(alloc, query, fragments, reading, true)
}

/// The body of `bind_fragments_in`, for a query in any reading.
pub fn bound_fragments(
    alloc: Global,
    query: &[u8],
    fragments: &Fragments,
    reading: Reading,
) -> Result<Vec<u8>, FragmentsError>
    ensures bound { OnTokensIn reading query.now (λ ts. IfOk result (λ text.
        IsBoundFragments reading.no_backslash_escape ts (given_fragments fragments.now)
        text.items)) }
    ensures refused { OnTokensIn reading query.now (λ ts. IfErr result
        (IsCauseOrMemory (first_cause true ts (given_fragments fragments.now)))) }
    ensures mixed { OnTokensIn reading query.now (λ ts.
        HasName ts × HasMark ts → IsErrOf result FragmentsError.Mixed) }
{
    let list = placed_fragments(alloc, query, fragments, reading, true)?;
    let form = PlainForm {
        no_backslash_escape: reading.no_backslash_escape,
    };
    let text = filled_query(alloc, query, list.as_slice(), reading, &form)?;
    Ok(text)
}

/// The body of [`expanded_query_in`], for a query in any reading. With `as_literals` it is the body
/// of [`expanded_for_literals`], which refuses floats.
pub(crate) fn expanded(
    alloc: Global,
    query: &[u8],
    fragments: &Fragments,
    reading: Reading,
    as_literals: bool,
) -> Result<ExpandedQuery, FragmentsError>
    ensures expanded { OnTokensIn reading query.now (λ ts. IfOk result (λ expanded.
        IsExpandedQuery as_literals reading.no_backslash_escape ts (given_fragments fragments.now)
        expanded.query.items expanded.values.items)) }
    ensures refused { OnTokensIn reading query.now (λ ts. IfErr result
        (IsCauseOrMemory (first_cause as_literals ts (given_fragments fragments.now)))) }
    ensures mixed { OnTokensIn reading query.now (λ ts.
        HasName ts × HasMark ts → IsErrOf result FragmentsError.Mixed) }
{
    let list = placed_fragments(alloc, query, fragments, reading, as_literals)?;
    let expanded = written(alloc, query, list.as_slice(), reading)?;
    Ok(expanded)
}

/// References to the fragments for the places of a query in a reading. It refuses for the causes of
/// [`expanded_query_in`] and, with `as_literals`, for those of `bind_fragments_in`.
pub fn placed_fragments<'f>(
    alloc: Global,
    query: &[u8],
    fragments: &'f Fragments,
    reading: Reading,
    as_literals: bool,
) -> Result<Vec<&'f Fragment>, FragmentsError>
    ensures placed { OnTokensIn reading query.now (λ ts. IfOk result (λ list.
        ArePlaced as_literals ts (given_fragments fragments.now) (referents list.items))) }
    ensures refused { OnTokensIn reading query.now (λ ts. IfErr result
        (IsCauseOrMemory (first_cause as_literals ts (given_fragments fragments.now)))) }
    ensures mixed { OnTokensIn reading query.now (λ ts.
        HasName ts × HasMark ts → IsErrOf result FragmentsError.Mixed) }
{
    let surveyed = SurveyedQuery::new(query, reading, &mut []);
    placed_surveyed(alloc, &surveyed, fragments, as_literals)
}

// The same for a surveyed query.
fn placed_surveyed<'f>(
    alloc: Global,
    surveyed: &SurveyedQuery<'_>,
    fragments: &'f Fragments,
    as_literals: bool,
) -> Result<Vec<&'f Fragment>, FragmentsError>
    ensures placed { OnSurveyed surveyed.now (λ ts. IfOk result (λ list.
        ArePlaced as_literals ts (given_fragments fragments.now) (referents list.items))) }
    ensures refused { OnSurveyed surveyed.now (λ ts. IfErr result
        (IsCauseOrMemory (first_cause as_literals ts (given_fragments fragments.now)))) }
    ensures mixed { OnSurveyed surveyed.now (λ ts.
        HasName ts × HasMark ts → IsErrOf result FragmentsError.Mixed) }
{
    let survey = surveyed.survey;
    if survey.names > 0 && survey.marks > 0 {
        return Err(FragmentsError::Mixed);
    }
    let list = fragments_of_places(alloc, surveyed, fragments)?;
    match later_error(survey, list.as_slice(), as_literals) {
        Some(error) => Err(error),
        None => Ok(list),
    }
}

// The first cause that refuses the fragments once they are in the order of the places: the number
// of marks, a place that doesn't stand alone, a float, a fault.
fn later_error(survey: Survey, fragments: &[&Fragment], as_literals: bool) -> Option<FragmentsError>
    ensures { (ts : List Token) → IsSurvey survey ts → option_map cause_of result
        ≡ option_map Some (later_cause as_literals ts (referents fragments.now)) }
{
    if mark_count_differs(survey, fragments.len()) {
        return Some(FragmentsError::MarkCount {
            marks: survey.marks,
            fragments: fragments.len(),
        });
    }
    if let Some((place, at)) = survey.not_alone {
        return Some(FragmentsError::NotAlone { place, at });
    }
    if let Some(place) = literal_float(fragments, as_literals) {
        return Some(FragmentsError::Float { place });
    }
    match first_fault(fragments) {
        Some((place, fault)) => Some(FragmentsError::Fault { place, fault }),
        None => None,
    }
}

/// Whether the marks of a query without names are not as many as the fragments.
pub(crate) fn mark_count_differs(survey: Survey, fragments: usize) -> bool
    ensures { result ≡ mark_count_differs survey.names survey.marks fragments }
{
    survey.names == 0 && survey.marks != fragments
}

// The place of the first fragment with a float, if the values are to be written as literals.
fn literal_float(fragments: &[&Fragment], as_literals: bool) -> Option<usize>
    ensures { result ≡ literal_float as_literals (referents fragments.now) }
{
    if as_literals {
        first_float(fragments)
    } else {
        None
    }
}

// The place of the first fragment with a float.
fn first_float(fragments: &[&Fragment]) -> Option<usize>
    ensures { result ≡ first_float_from 0 (referents fragments.now) }
{
    for (place, fragment) in fragments.iter().enumerate() {
        if has_float(*fragment) {
            return Some(place);
        }
    }
    None
}

// The place of the first fragment that can't be written, and its fault.
fn first_fault(fragments: &[&Fragment]) -> Option<(usize, FragmentFault)>
    ensures { result ≡ first_fault_from 0 (referents fragments.now) }
{
    for (place, fragment) in fragments.iter().enumerate() {
        if let Some(fault) = fragment.fault() {
            return Some((place, fault));
        }
    }
    None
}

// The query with fragments in its places, and their values. There are as many fragments as places.
fn written(
    alloc: Global,
    query: &[u8],
    fragments: &[&Fragment],
    reading: Reading,
) -> Result<ExpandedQuery, AllocError>
    requires { OnTokensIn reading query.now (λ ts.
        length (referents fragments.now) ≡ place_count ts) }
    ensures text { OnTokensIn reading query.now (λ ts. IfOk result (λ expanded.
        joined_text (pieces ts) (map fragment_text (referents fragments.now))
        ≡ Some expanded.query.items)) }
    ensures values { IfOk result (λ expanded.
        expanded.values.items ≡ all_values (referents fragments.now)) }
{
    let query = spliced_text(alloc, query, fragments, reading, &Marks)?;
    let values = values_of(alloc, fragments)?;
    Ok(ExpandedQuery { query, values })
}

// The values of fragments, in order.
fn values_of(alloc: Global, fragments: &[&Fragment]) -> Result<Vec<Value>, AllocError>
    ensures { IfOk result (λ values. values.items ≡ all_values (referents fragments.now)) }
{
    let mut values = Vec::new(alloc);
    for fragment in fragments {
        push_values(&mut values, *fragment)?;
    }
    Ok(values)
}
