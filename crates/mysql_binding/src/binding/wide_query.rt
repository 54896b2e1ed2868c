//! Queries with wide names that are parsed once and bound many times.
ghost use Rattle.std.specs.Prelude.{◌≡◌, ◌≢◌, ◌↔◌, IfErr, IfOk, IsErrOf, IsTrue, OnErr, alloc_error};
ghost use Rattle.std.specs.Cmp.{partial_equiv_from_equiv};
ghost use Rattle.mysql_sql_text.specs.StringUnits.{with_backslashes};
ghost use Rattle.mysql_named_params.specs.NamedParamsErrors.{mixed};
ghost use Rattle.mysql_named_params.specs.Reading.{OnWideTokens, wide_reading};
ghost use Rattle.mysql_named_params.specs.Places.{HasName, HasMark, marks, names, place_count};
ghost use Rattle.mysql_params_core.specs.Given.{given};
ghost use Rattle.mysql_params_core.specs.Referents.{referents};
ghost use Rattle.mysql_binding.specs.BindErrors.{IsCauseOrMemory};
ghost use Rattle.mysql_binding.specs.BoundAgain.{IsSameBoundAgain, IsSameByPosition};
ghost use Rattle.mysql_binding.specs.FirstCause.{first_cause};
ghost use Rattle.mysql_binding.specs.FoundPlaces.{found_places};
ghost use Rattle.mysql_binding.specs.Isolation.{IsBoundText};
ghost use Rattle.mysql_binding.specs.ParsedQuery.{same_query};
ghost use Rattle.mysql_binding.specs.SameQuery.{same_query_is_equivalence};
ghost use Rattle.mysql_binding.specs.Survey.{IsSurvey};

mod pairs;

use crate::bind_error::BindError;
use crate::binding::bind_surveyed;
use crate::binding::found_query::FoundQuery;
use crate::binding::survey::SurveyedQuery;
use mysql_named_params::named_params::NamedParamsError;
use mysql_named_params::places::Reading;
use mysql_params_core::params::Params;
use std::alloc::{AllocError, Global};
use std::marker::Model;

/// A query whose places, with wide names, are found once, to be bound many times: a
/// [`ParsedQuery`](crate::ParsedQuery) that is read by wide names.
///
/// It borrows the query or owns it ([`into_owned`](WideQuery::into_owned)). Binding changes nothing
/// in it, so many threads can bind it at once.
#[derive(Debug, Drop)]
pub struct WideQuery<'q> {
    found: FoundQuery<'q>,
}

impl<'q> Model for WideQuery<'q> {
    ghost use Rattle.std.specs.Prelude.{◌≡◌, true};
    ghost use Rattle.std.specs.Cow.{cow_slice_items};
    ghost use Rattle.mysql_binding.specs.ParsedQuery.{QueryInMode};

    ghost Value = { QueryInMode };

    ghost view = { λ p. record {
      mode = p.found.reading.no_backslash_escape;
      query = cow_slice_items p.found.query;
    } };

    ghost invariant = { λ p. p.found.reading.wide_names ≡ true };
}

impl<'q> WideQuery<'q> {
    /// Finds the wide names and marks of a query in the mode `no_backslash_escape`. It allocates 24
    /// bytes for each name or mark, and nothing if there are none.
    pub fn parse_in(
        alloc: Global,
        query: &'q [u8],
        no_backslash_escape: bool,
    ) -> Result<WideQuery<'q>, AllocError>
        ensures parsed { IfOk result (λ p.
            p ≡ record { mode = no_backslash_escape; query = query.now }) }

        // A query without names and marks is parsed without allocating.
        ensures memory { OnErr result (OnWideTokens no_backslash_escape query.now (λ ts.
            place_count ts ≢ 0)) }
    {
        let reading = Reading {
            no_backslash_escape,
            wide_names: true,
        };
        let found = FoundQuery::parse(alloc, query, reading)?;
        Ok(WideQuery { found })
    }

    /// Finds the names and marks of a query in the mode in which a backslash escapes:
    /// [`parse_in`](WideQuery::parse_in) with `false`.
    pub fn parse(alloc: Global, query: &'q [u8]) -> Result<WideQuery<'q>, AllocError>
        ensures parsed { IfOk result (λ p.
            p ≡ record { mode = with_backslashes; query = query.now }) }

        // A query without names and marks is parsed without allocating.
        ensures memory { OnErr result (OnWideTokens with_backslashes query.now (λ ts.
            place_count ts ≢ 0)) }
    {
        WideQuery::parse_in(alloc, query, false)
    }

    /// The same, with an owned copy of the query if it is borrowed. Only this copy needs memory. If
    /// the memory is refused, the parsed query is dropped. With an owned query the call is never
    /// refused. Tests show this; no clause says it, since clauses can't tell whether a query is
    /// owned.
    pub fn into_owned(self, alloc: Global) -> Result<WideQuery<'static>, AllocError>
        ensures { IfOk result (λ p. p ≡ self.entry) }
    {
        let found = self.found.into_owned(alloc)?;
        Ok(WideQuery { found })
    }

    /// A copy, on the allocator of the places. It borrows the query if this one does, or else owns
    /// a copy of it.
    pub fn clone(&self) -> Result<WideQuery<'q>, AllocError>
        ensures { IfOk result (λ copy. copy ≡ self.now) }
    {
        let found = self.found.clone()?;
        Ok(WideQuery { found })
    }

    /// Binds parameters to the query by wide names in this mode. It refuses them for the causes of
    /// `bind_text_in`, in their order. The query isn't walked again.
    pub fn bind(&self, alloc: Global, params: Params) -> Result<Vec<u8>, BindError>
        ensures bound { OnWideTokens self.now.mode self.now.query (λ ts. IfOk result (λ text.
            IsBoundText self.now.mode ts (given params) text.items)) }
        ensures refused { OnWideTokens self.now.mode self.now.query (λ ts. IfErr result
            (IsCauseOrMemory (first_cause ts (given params)))) }
        ensures bound_again { IfOk result (λ text. IsSameBoundAgain self.now.mode text.items) }
        ensures by_position { OnWideTokens self.now.mode self.now.query (λ ts. IfOk result (λ text.
            IsSameByPosition self.now.mode ts (given params) text.items)) }

        // A query with a name and a mark is refused without allocating.
        ensures mixed { OnWideTokens self.now.mode self.now.query (λ ts.
            HasName ts × HasMark ts → IsErrOf result BindError.Mixed) }
    {
        bind_surveyed(alloc, &self.surveyed(), params.borrowed())
    }

    /// The query that was parsed.
    pub fn query(&self) -> &[u8]
        ensures { result.now ≡ self.now.query }
    {
        self.found.query.as_slice()
    }

    /// The mode in which the query is read.
    pub fn no_backslash_escape(&self) -> bool
        ensures { result ≡ self.now.mode }
    {
        self.found.reading.no_backslash_escape
    }

    /// The names without the colon, as slices of the query, in its order and with repeats. If the
    /// query has both names and marks, it is refused as `Mixed`. The query isn't walked again.
    pub fn names(&self, alloc: Global) -> Result<Vec<&[u8]>, NamedParamsError>
        ensures ok { OnWideTokens self.now.mode self.now.query (λ ts. IfOk result (λ list.
            referents list.items ≡ names ts)) }
        ensures mixed { OnWideTokens self.now.mode self.now.query (λ ts.
            IsErrOf result (NamedParamsError.Mixed mixed) ↔ (HasName ts × HasMark ts)) }

        // Only a query with names and without marks allocates.
        ensures memory { OnWideTokens self.now.mode self.now.query (λ ts.
            IsErrOf result (NamedParamsError.Memory alloc_error) → HasName ts × (marks ts ≡ 0)) }
    {
        self.found.names(alloc)
    }

    /// The number of the query's marks.
    pub fn marks(&self) -> usize
        ensures { OnWideTokens self.now.mode self.now.query (λ ts. result ≡ marks ts) }
    {
        self.found.survey.marks
    }

    /// The query with its survey and all of its places. For the crates above; no user needs it.
    pub fn surveyed(&self) -> SurveyedQuery<'_>
        ensures query { result.query.now ≡ self.now.query }
        ensures reading { result.reading ≡ wide_reading self.now.mode }
        ensures places { OnWideTokens self.now.mode self.now.query (λ ts.
            result.known.now ≡ found_places ts) }
        ensures survey { OnWideTokens self.now.mode self.now.query (IsSurvey result.survey) }
    {
        self.found.surveyed()
    }
}

impl<'q> PartialEq for WideQuery<'q> {
    ghost eq = { same_query };

    ghost laws = { partial_equiv_from_equiv same_query_is_equivalence };

    fn eq(&self, other: &Self) -> bool
        ensures test { result ≡ same_query self.now other.now }
        ensures equal { IsTrue result ↔ (self.now ≡ other.now) }
    {
        self.found.reading.no_backslash_escape == other.found.reading.no_backslash_escape
            && self.found.query == other.found.query
    }
}

impl<'q> Eq for WideQuery<'q> {
    ghost laws = { same_query_is_equivalence };
}
