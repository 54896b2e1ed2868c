//! Queries with named parameters.
ghost use Rattle.std.specs.Prelude.{◌≡◌, ◌≢◌, ◌<◌, ◌≤◌, ◌↔◌, [], length, map, All, IfOk, IsErrOf, IsTrue, OnErr, alloc_error};
ghost use Rattle.std.specs.Cow.{cow_slice_items, IsBorrowedSlice};
ghost use Rattle.std.specs.Cmp.{partial_equiv_from_equiv};
ghost use Rattle.mysql_sql_text.specs.StringUnits.{with_backslashes};
ghost use Rattle.mysql_named_params.specs.Tokens.{OnTokens, text_of};
ghost use Rattle.mysql_named_params.specs.Places.{names, marks, with_names, HasName, HasMark};
ghost use Rattle.mysql_named_params.specs.FirstPlace.{BeginPlacesFrom};
ghost use Rattle.mysql_named_params.specs.Parsed.{parsed, same_parsed};
ghost use Rattle.mysql_named_params.specs.SameParsed.{same_parsed_is_equivalence};
ghost use Rattle.mysql_named_params.specs.NamedParamsErrors.{mixed};

use crate::places::{count_places, first_place};
use memchr::memchr;
use std::alloc::{AllocError, Global};
use std::borrow::CowSlice;
use std::marker::Model;
use thiserror::Error;

/// A query has both named and positional parameters.
#[derive(Debug, Clone, Copy, PartialEq, Eq, Error)]
#[error("Named and positional params in one query")]
pub struct MixedParamsError;

/// The error of finding the names of a query.
#[derive(Debug, PartialEq, Drop, Error)]
pub enum NamedParamsError {
    /// The query has both named and positional parameters.
    #[error(transparent)]
    Mixed(MixedParamsError),
    /// Memory was refused, for a query with names and no marks.
    #[error("out of memory")]
    Memory(AllocError),
}

/// A query with `?` in place of each named parameter, and the names.
///
/// The names are slices of the parsed query. If it has no names, the query is that same slice.
#[derive(Debug, Drop)]
pub struct ParsedNamedParams<'a> {
    query: CowSlice<'a, u8>,
    params: Vec<CowSlice<'a, u8>>,
}

impl<'a> Model for ParsedNamedParams<'a> {
    ghost use Rattle.std.specs.Prelude.{◌≡◌, [], map, All};
    ghost use Rattle.std.specs.Cow.{cow_slice_items, IsBorrowedSlice};
    ghost use Rattle.mysql_named_params.specs.Parsed.{Parsed};

    ghost Value = { Parsed };

    ghost view = { λ p. record {
      query = cow_slice_items p.query;
      params = map cow_slice_items p.params.items;
    } };

    // The names are borrowed, and without names so is the query.
    ghost invariant = { λ p. All IsBorrowedSlice p.params.items
        × (p.params.items ≡ [] → IsBorrowedSlice p.query) };
}

impl<'a> ParsedNamedParams<'a> {
    /// Finds the names outside strings, quoted identifiers and comments. A name is `:`, then a
    /// letter `a` to `z` or `_`, and then all letters `a` to `z`, digits and `_` that follow. A
    /// query that also has a `?` there is refused as `Mixed`.
    ///
    /// `no_backslash_escape` is the server's mode. With `true`, as for an `sql_mode` with
    /// `NO_BACKSLASH_ESCAPES`, a backslash is a byte like any other. With `false`, it escapes the
    /// byte after it in a string. `Memory` comes only for a query with names and without marks.
    // A query has one token list in each mode (`laws::one_token_list`). So all clauses speak of the
    // same `ts`.
    pub fn parse_in(
        alloc: Global,
        query: &'a [u8],
        no_backslash_escape: bool,
    ) -> Result<ParsedNamedParams<'a>, NamedParamsError>
        ensures ok { OnTokens no_backslash_escape query.now (λ ts.
            IfOk result (λ p. p ≡ parsed ts)) }
        ensures mixed { OnTokens no_backslash_escape query.now (λ ts.
            IsErrOf result (NamedParamsError.Mixed mixed) ↔ (HasName ts × HasMark ts)) }

        // Only a query with names and without marks allocates.
        ensures memory { OnTokens no_backslash_escape query.now (λ ts.
            IsErrOf result (NamedParamsError.Memory alloc_error) → HasName ts × (marks ts ≡ 0)) }

        // The query with marks has no names. If names were found, it has as many marks. Putting the
        // names back in place of the marks gives the parsed query.
        ensures nameless { IfOk result (λ p. OnTokens no_backslash_escape p.query (λ us.
            names us ≡ [])) }
        ensures marked { IfOk result (λ p. OnTokens no_backslash_escape p.query (λ us.
            p.params ≢ [] → marks us ≡ length p.params)) }
        ensures restored { IfOk result (λ p. OnTokens no_backslash_escape p.query (λ us.
            p.params ≢ [] → text_of (with_names us p.params) ≡ query.now)) }
    {
        let survey = survey_of(query, no_backslash_escape);
        if !survey.has_name {
            return Ok(ParsedNamedParams {
                query: CowSlice::Borrowed(query),
                params: Vec::new(alloc),
            });
        }
        if survey.has_mark {
            return Err(NamedParamsError::Mixed(MixedParamsError));
        }
        // No other call returns such an error, so there is no conversion.
        match renamed_query(alloc, query, survey, no_backslash_escape) {
            Ok(parsed) => Ok(parsed),
            Err(error) => Err(NamedParamsError::Memory(error)),
        }
    }

    /// Finds the names outside strings, quoted identifiers and comments, in the mode in which a
    /// backslash escapes: [`parse_in`](ParsedNamedParams::parse_in) with `false`.
    // A query has one token list (`laws::one_token_list`). So all clauses speak of the same `ts`.
    pub fn parse(alloc: Global, query: &'a [u8]) -> Result<ParsedNamedParams<'a>, NamedParamsError>
        ensures ok { OnTokens with_backslashes query.now (λ ts. IfOk result (λ p. p ≡ parsed ts)) }
        ensures mixed { OnTokens with_backslashes query.now (λ ts.
            IsErrOf result (NamedParamsError.Mixed mixed) ↔ (HasName ts × HasMark ts)) }

        // Only a query with names and without marks allocates.
        ensures memory { OnTokens with_backslashes query.now (λ ts.
            IsErrOf result (NamedParamsError.Memory alloc_error) → HasName ts × (marks ts ≡ 0)) }

        // The query with marks has no names. If names were found, it has as many marks. Putting the
        // names back in place of the marks gives the parsed query.
        ensures nameless { IfOk result (λ p. OnTokens with_backslashes p.query (λ us.
            names us ≡ [])) }
        ensures marked { IfOk result (λ p. OnTokens with_backslashes p.query (λ us.
            p.params ≢ [] → marks us ≡ length p.params)) }
        ensures restored { IfOk result (λ p. OnTokens with_backslashes p.query (λ us.
            p.params ≢ [] → text_of (with_names us p.params) ≡ query.now)) }
    {
        ParsedNamedParams::parse_in(alloc, query, false)
    }

    /// The query with `?` in place of each name. All other bytes are unchanged.
    pub fn query(&self) -> &[u8]
        ensures query { result.now ≡ self.now.query }
    {
        self.query.as_slice()
    }

    /// The names without the colon, in the order of the query, with repeats.
    pub fn params(&self) -> &[CowSlice<'a, u8>]
        ensures names { map cow_slice_items result.now ≡ self.now.params }
        ensures borrowed { All IsBorrowedSlice result.now }
    {
        self.params.as_slice()
    }

    /// A copy for the same query. Its names are borrowed like these. Only a copy of a query with
    /// names allocates, on the allocator of the names.
    pub fn clone(&self) -> Result<ParsedNamedParams<'a>, AllocError>
        ensures equal { IfOk result (λ copy. copy ≡ self.now) }
        ensures memory { OnErr result (self.now.params ≢ []) }
    {
        let alloc = *self.params.allocator();
        let mut params = Vec::new(alloc);
        for param in &self.params {
            match param {
                CowSlice::Borrowed(name) => params.push(CowSlice::Borrowed(*name))?,
                CowSlice::Owned(_) => unreachable!(),
            }
        }
        let query = match &self.query {
            CowSlice::Borrowed(query) => CowSlice::Borrowed(*query),
            CowSlice::Owned(query) => CowSlice::Owned(query.clone()?),
        };
        Ok(ParsedNamedParams { query, params })
    }
}

// The facts that are known about a query before anything is allocated.
#[derive(Clone, Copy)]
struct NameSurvey {
    has_name: bool,
    has_mark: bool,
    // No name and no mark comes before this index.
    start: usize,
    // The number of names if they were counted, or else 0.
    counted_names: usize,
}

// Surveys a query. Without a byte `?` there is no mark, and the names needn't be counted. Otherwise
// the names and marks are counted, since a query with both is refused before anything is allocated.
fn survey_of(query: &[u8], no_backslash_escape: bool) -> NameSurvey
    ensures places { OnTokens no_backslash_escape query.now (λ ts.
        (IsTrue result.has_name ↔ HasName ts) × (IsTrue result.has_mark ↔ HasMark ts)) }
    ensures start { OnTokens no_backslash_escape query.now (λ ts.
        BeginPlacesFrom ts result.start) }
    ensures in_range { result.start ≤ length query.now }
    ensures counted { OnTokens no_backslash_escape query.now (λ ts.
        result.counted_names ≤ length (names ts)) }
{
    let Some(first) = first_place(query, no_backslash_escape) else {
        return NameSurvey {
            has_name: false,
            has_mark: false,
            start: query.len(),
            counted_names: 0,
        };
    };
    let from_first = &query[first.before..];
    let Some(_) = memchr(b'?', from_first) else {
        return NameSurvey {
            has_name: true,
            has_mark: false,
            start: first.before,
            counted_names: 0,
        };
    };
    let counts = count_places(from_first, no_backslash_escape);
    NameSurvey {
        has_name: counts.names > 0,
        has_mark: counts.marks > 0,
        start: first.before,
        counted_names: counts.names,
    }
}

// The query with `?` in place of each name, and its names. It has names and no marks.
fn renamed_query<'a>(
    alloc: Global,
    query: &'a [u8],
    survey: NameSurvey,
    no_backslash_escape: bool,
) -> Result<ParsedNamedParams<'a>, AllocError>
    requires names { OnTokens no_backslash_escape query.now (λ ts. HasName ts × (marks ts ≡ 0)) }
    requires start { OnTokens no_backslash_escape query.now (λ ts.
        BeginPlacesFrom ts survey.start) }
    requires in_range { survey.start ≤ length query.now }
    ensures { IfOk result (λ p. OnTokens no_backslash_escape query.now (λ ts. p ≡ parsed ts)) }
{
    let mut renamed = Vec::with_capacity(alloc, query.len())?;
    let mut params = Vec::with_capacity(alloc, survey.counted_names)?;
    let (before, mut rest) = query.split_at(survey.start);
    renamed.extend_from_slice(before)?;
    while let Some(found) = first_place(rest, no_backslash_escape) {
        let (before_place, place, after) = found.cut(rest);
        renamed.extend_from_slice(before_place)?;
        renamed.push(b'?')?;
        params.push(CowSlice::Borrowed(&place[1..]))?;
        rest = after;
    }
    renamed.extend_from_slice(rest)?;
    Ok(ParsedNamedParams {
        query: CowSlice::Owned(renamed),
        params,
    })
}

impl<'a> PartialEq for ParsedNamedParams<'a> {
    ghost eq = { same_parsed };

    ghost laws = { partial_equiv_from_equiv same_parsed_is_equivalence };

    fn eq(&self, other: &Self) -> bool
        ensures test { result ≡ same_parsed self.now other.now }
        ensures equal { IsTrue result ↔ (self.now ≡ other.now) }
    {
        self.query == other.query && self.params == other.params
    }
}

impl<'a> Eq for ParsedNamedParams<'a> {
    ghost laws = { same_parsed_is_equivalence };
}
