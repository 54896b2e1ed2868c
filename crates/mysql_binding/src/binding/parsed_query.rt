//! Queries that are parsed once and bound many times.
ghost use Rattle.std.specs.Prelude.{◌≡◌, ◌≢◌, ◌↔◌, None, IfErr, IfOk, IsErrOf, IsTrue, OnErr, alloc_error};
ghost use Rattle.std.specs.Cmp.{partial_equiv_from_equiv};
ghost use Rattle.mysql_sql_text.specs.StringUnits.{with_backslashes};
ghost use Rattle.mysql_named_params.specs.NamedParamsErrors.{mixed};
ghost use Rattle.mysql_named_params.specs.Tokens.{OnTokens};
ghost use Rattle.mysql_named_params.specs.Reading.{grammar_reading};
ghost use Rattle.mysql_named_params.specs.Places.{HasName, HasMark, marks, names, place_count};
ghost use Rattle.mysql_portable.specs.Portable.{IsPortable};
ghost use Rattle.mysql_portable.specs.FirstUnportable.{first_unportable};
ghost use Rattle.mysql_params_core.specs.Given.{given};
ghost use Rattle.mysql_params_core.specs.Referents.{referents};
ghost use Rattle.mysql_binding.specs.BindErrors.{IsCauseOrMemory};
ghost use Rattle.mysql_binding.specs.BoundAgain.{IsSameBoundAgain, IsSameByPosition};
ghost use Rattle.mysql_binding.specs.FirstCause.{first_cause};
ghost use Rattle.mysql_binding.specs.FoundPlaces.{found_places};
ghost use Rattle.mysql_binding.specs.Isolation.{IsBoundText};
ghost use Rattle.mysql_binding.specs.ParsedQuery.{same_query};
ghost use Rattle.mysql_binding.specs.SameQuery.{same_query_is_equivalence};
ghost use Rattle.mysql_binding.specs.Survey.{IsSurvey};

mod pairs;

use crate::bind_error::BindError;
use crate::binding::bind_surveyed;
use crate::binding::found_query::FoundQuery;
use crate::binding::survey::SurveyedQuery;
use mysql_named_params::named_params::NamedParamsError;
use mysql_named_params::places::Reading;
use mysql_params_core::params::Params;
use mysql_portable::portable::{Unportable, first_unportable};
use std::alloc::{AllocError, Global};
use std::marker::Model;

/// A query whose places are found once, to be bound many times.
///
/// It borrows the query or owns it ([`into_owned`](ParsedQuery::into_owned)). Binding changes
/// nothing in it, so many threads can bind it at once.
#[derive(Debug, Drop)]
pub struct ParsedQuery<'q> {
    found: FoundQuery<'q>,
}

impl<'q> Model for ParsedQuery<'q> {
    ghost use Rattle.std.specs.Prelude.{◌≡◌, false};
    ghost use Rattle.std.specs.Cow.{cow_slice_items};
    ghost use Rattle.mysql_binding.specs.ParsedQuery.{QueryInMode};

    ghost Value = { QueryInMode };

    ghost view = { λ p. record {
      mode = p.found.reading.no_backslash_escape;
      query = cow_slice_items p.found.query;
    } };

    ghost invariant = { λ p. p.found.reading.wide_names ≡ false };
}

impl<'q> ParsedQuery<'q> {
    /// Finds the names and marks of a query in the mode `no_backslash_escape`, like `bind_text_in`.
    /// It allocates 24 bytes for each name or mark, and nothing if there are none.
    pub fn parse_in(
        alloc: Global,
        query: &'q [u8],
        no_backslash_escape: bool,
    ) -> Result<ParsedQuery<'q>, AllocError>
        ensures parsed { IfOk result (λ p.
            p ≡ record { mode = no_backslash_escape; query = query.now }) }

        // A query without names and marks is parsed without allocating.
        ensures memory { OnErr result (OnTokens no_backslash_escape query.now (λ ts.
            place_count ts ≢ 0)) }
    {
        let reading = Reading {
            no_backslash_escape,
            wide_names: false,
        };
        let found = FoundQuery::parse(alloc, query, reading)?;
        Ok(ParsedQuery { found })
    }

    /// Finds the names and marks of a query in the mode in which a backslash escapes:
    /// [`parse_in`](ParsedQuery::parse_in) with `false`.
    pub fn parse(alloc: Global, query: &'q [u8]) -> Result<ParsedQuery<'q>, AllocError>
        ensures parsed { IfOk result (λ p.
            p ≡ record { mode = with_backslashes; query = query.now }) }

        // A query without names and marks is parsed without allocating.
        ensures memory { OnErr result (OnTokens with_backslashes query.now (λ ts.
            place_count ts ≢ 0)) }
    {
        ParsedQuery::parse_in(alloc, query, false)
    }

    /// The same, with an owned copy of the query if it is borrowed. Only this copy needs memory. If
    /// the memory is refused, the parsed query is dropped. With an owned query the call is never
    /// refused. Tests show this; no clause says it, since clauses can't tell whether a query is
    /// owned.
    pub fn into_owned(self, alloc: Global) -> Result<ParsedQuery<'static>, AllocError>
        ensures { IfOk result (λ p. p ≡ self.entry) }
    {
        let found = self.found.into_owned(alloc)?;
        Ok(ParsedQuery { found })
    }

    /// A copy, on the allocator of the places. It borrows the query if this one does, or else owns
    /// a copy of it.
    pub fn clone(&self) -> Result<ParsedQuery<'q>, AllocError>
        ensures { IfOk result (λ copy. copy ≡ self.now) }
    {
        let found = self.found.clone()?;
        Ok(ParsedQuery { found })
    }

    /// Binds parameters to the query, exactly like `bind_text_in` in this mode. The query isn't
    /// walked again.
    pub fn bind(&self, alloc: Global, params: Params) -> Result<Vec<u8>, BindError>
        ensures bound { OnTokens self.now.mode self.now.query (λ ts. IfOk result (λ text.
            IsBoundText self.now.mode ts (given params) text.items)) }
        ensures refused { OnTokens self.now.mode self.now.query (λ ts. IfErr result
            (IsCauseOrMemory (first_cause ts (given params)))) }
        ensures bound_again { IfOk result (λ text. IsSameBoundAgain self.now.mode text.items) }
        ensures by_position { OnTokens self.now.mode self.now.query (λ ts. IfOk result (λ text.
            IsSameByPosition self.now.mode ts (given params) text.items)) }

        // A query with a name and a mark is refused without allocating.
        ensures mixed { OnTokens self.now.mode self.now.query (λ ts.
            HasName ts × HasMark ts → IsErrOf result BindError.Mixed) }
    {
        bind_surveyed(alloc, &self.surveyed(), params.borrowed())
    }

    /// The query that was parsed.
    pub fn query(&self) -> &[u8]
        ensures { result.now ≡ self.now.query }
    {
        self.found.query.as_slice()
    }

    /// The mode in which the query is read.
    pub fn no_backslash_escape(&self) -> bool
        ensures { result ≡ self.now.mode }
    {
        self.found.reading.no_backslash_escape
    }

    /// The names without the colon, as slices of the query, in its order and with repeats. If the
    /// query has both names and marks, it is refused as `Mixed`, as in
    /// [`ParsedNamedParams`](mysql_named_params::named_params::ParsedNamedParams). The query isn't
    /// walked again.
    pub fn names(&self, alloc: Global) -> Result<Vec<&[u8]>, NamedParamsError>
        ensures ok { OnTokens self.now.mode self.now.query (λ ts. IfOk result (λ list.
            referents list.items ≡ names ts)) }
        ensures mixed { OnTokens self.now.mode self.now.query (λ ts.
            IsErrOf result (NamedParamsError.Mixed mixed) ↔ (HasName ts × HasMark ts)) }

        // Only a query with names and without marks allocates.
        ensures memory { OnTokens self.now.mode self.now.query (λ ts.
            IsErrOf result (NamedParamsError.Memory alloc_error) → HasName ts × (marks ts ≡ 0)) }
    {
        self.found.names(alloc)
    }

    /// The number of the query's marks.
    pub fn marks(&self) -> usize
        ensures { OnTokens self.now.mode self.now.query (λ ts. result ≡ marks ts) }
    {
        self.found.survey.marks
    }

    /// The first construct that makes the query not portable. It walks the query again, since the
    /// walk that found the places skips the bytes that matter here.
    pub fn first_unportable(&self) -> Option<Unportable>
        ensures first { OnTokens self.now.mode self.now.query (λ ts.
            result ≡ first_unportable ts) }
        ensures none { OnTokens self.now.mode self.now.query (λ ts.
            (result ≡ None) ↔ IsPortable ts) }
    {
        first_unportable(self.query(), self.no_backslash_escape())
    }

    /// The query with its survey and all of its places. For the crates above; no user needs it.
    pub fn surveyed(&self) -> SurveyedQuery<'_>
        ensures query { result.query.now ≡ self.now.query }
        ensures reading { result.reading ≡ grammar_reading self.now.mode }
        ensures places { OnTokens self.now.mode self.now.query (λ ts.
            result.known.now ≡ found_places ts) }
        ensures survey { OnTokens self.now.mode self.now.query (IsSurvey result.survey) }
    {
        self.found.surveyed()
    }
}

impl<'q> PartialEq for ParsedQuery<'q> {
    ghost eq = { same_query };

    ghost laws = { partial_equiv_from_equiv same_query_is_equivalence };

    fn eq(&self, other: &Self) -> bool
        ensures test { result ≡ same_query self.now other.now }
        ensures equal { IsTrue result ↔ (self.now ≡ other.now) }
    {
        self.found.reading.no_backslash_escape == other.found.reading.no_backslash_escape
            && self.found.query == other.found.query
    }
}

impl<'q> Eq for ParsedQuery<'q> {
    ghost laws = { same_query_is_equivalence };
}
