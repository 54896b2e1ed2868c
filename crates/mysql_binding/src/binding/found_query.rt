//! The part of a query that is kept after it is parsed once: its places, in any reading.
ghost use Rattle.std.specs.Prelude.{◌≡◌, ◌≢◌, ◌↔◌, IfErr, IfOk, IsErrOf, OnErr, OnOk, alloc_error};
ghost use Rattle.std.specs.Cow.{cow_slice_items};
ghost use Rattle.mysql_named_params.specs.NamedParamsErrors.{mixed};
ghost use Rattle.mysql_named_params.specs.Reading.{OnTokensIn};
ghost use Rattle.mysql_named_params.specs.Places.{HasName, HasMark, marks, names, place_count};
ghost use Rattle.mysql_params_core.specs.GivenBorrowed.{given_by_borrowed};
ghost use Rattle.mysql_params_core.specs.Referents.{referents};
ghost use Rattle.mysql_binding.specs.BindErrors.{IsCauseOrMemory};
ghost use Rattle.mysql_binding.specs.BoundPairs.{IsBoundAfterIn};
ghost use Rattle.mysql_binding.specs.FirstCause.{first_cause};
ghost use Rattle.mysql_binding.specs.FoundPlaces.{found_places};
ghost use Rattle.mysql_binding.specs.ParsedQuery.{AreParsed};
ghost use Rattle.mysql_binding.specs.Survey.{IsSurvey};

use crate::bind_error::BindError;
use crate::binding::form::PlainForm;
use crate::binding::found::all_places;
use crate::binding::names::query_names;
use crate::binding::survey::{Survey, SurveyedQuery};
use crate::binding::text::bind_surveyed_after;
use crate::binding::{KEPT_PLACES, NO_PLACE};
use mysql_named_params::named_params::{MixedParamsError, NamedParamsError};
use mysql_named_params::places::{FoundPlace, Reading};
use mysql_params_core::params::BorrowedParams;
use std::alloc::{AllocError, Global};
use std::borrow::CowSlice;

/// A query, borrowed or owned, with its survey and all of its places.
#[derive(Debug, Drop)]
pub(super) struct FoundQuery<'q> {
    pub(super) query: CowSlice<'q, u8>,
    pub(super) reading: Reading,
    pub(super) survey: Survey,
    pub(super) places: Vec<FoundPlace>,
    ghost parsed: { AreParsed survey places.items reading (cow_slice_items query) },
}

impl<'q> FoundQuery<'q> {
    /// Finds the places of a query.
    pub(super) fn parse(
        alloc: Global,
        query: &'q [u8],
        reading: Reading,
    ) -> Result<FoundQuery<'q>, AllocError>
        ensures query { IfOk result (λ found. cow_slice_items found.query ≡ query.now) }
        ensures reading { IfOk result (λ found. found.reading ≡ reading) }
        ensures memory { OnErr result (OnTokensIn reading query.now (λ ts. place_count ts ≢ 0)) }
    {
        let mut first = [NO_PLACE; KEPT_PLACES];
        let surveyed = SurveyedQuery::new(query, reading, &mut first);
        let places = all_places(alloc, &surveyed)?;
        Ok(FoundQuery {
            query: CowSlice::Borrowed(query),
            reading,
            survey: surveyed.survey,
            places,
        })
    }

    /// The same, with an owned copy of the query if it is borrowed.
    pub(super) fn into_owned(self, alloc: Global) -> Result<FoundQuery<'static>, AllocError>
        ensures query { IfOk result (λ found.
            cow_slice_items found.query ≡ cow_slice_items self.entry.query) }
        ensures reading { IfOk result (λ found. found.reading ≡ self.entry.reading) }
    {
        Ok(FoundQuery {
            query: CowSlice::Owned(self.query.into_owned(alloc)?),
            reading: self.reading,
            survey: self.survey,
            places: self.places,
        })
    }

    /// A copy, on the allocator of the places.
    pub(super) fn clone(&self) -> Result<FoundQuery<'q>, AllocError>
        ensures query { IfOk result (λ copy.
            cow_slice_items copy.query ≡ cow_slice_items self.now.query) }
        ensures reading { IfOk result (λ copy. copy.reading ≡ self.now.reading) }
    {
        let alloc = *self.places.allocator();
        let query = match &self.query {
            CowSlice::Borrowed(query) => CowSlice::Borrowed(*query),
            CowSlice::Owned(query) => { CowSlice::Owned(Vec::from_slice(alloc, query.as_slice())?) }
        };
        Ok(FoundQuery {
            query,
            reading: self.reading,
            survey: self.survey,
            places: Vec::from_slice(alloc, self.places.as_slice())?,
        })
    }

    /// The query with its survey and all of its places, borrowed.
    pub(super) fn surveyed(&self) -> SurveyedQuery<'_>
        ensures query { result.query.now ≡ cow_slice_items self.now.query }
        ensures reading { result.reading ≡ self.now.reading }
        ensures places { OnTokensIn self.now.reading (cow_slice_items self.now.query) (λ ts.
            result.known.now ≡ found_places ts) }
        ensures survey { OnTokensIn self.now.reading (cow_slice_items self.now.query)
            (IsSurvey result.survey) }
    {
        SurveyedQuery {
            query: self.query.as_slice(),
            reading: self.reading,
            survey: self.survey,
            known: self.places.as_slice(),
        }
    }

    /// The names without the colon. If the query also has a mark, it is refused.
    pub(super) fn names(&self, alloc: Global) -> Result<Vec<&[u8]>, NamedParamsError>
        ensures ok { OnTokensIn self.now.reading (cow_slice_items self.now.query) (λ ts.
            IfOk result (λ list. referents list.items ≡ names ts)) }
        ensures mixed { OnTokensIn self.now.reading (cow_slice_items self.now.query) (λ ts.
            IsErrOf result (NamedParamsError.Mixed mixed) ↔ (HasName ts × HasMark ts)) }
        ensures memory { OnTokensIn self.now.reading (cow_slice_items self.now.query) (λ ts.
            IsErrOf result (NamedParamsError.Memory alloc_error) → HasName ts × (marks ts ≡ 0)) }
    {
        if self.survey.names > 0 && self.survey.marks > 0 {
            return Err(NamedParamsError::Mixed(MixedParamsError));
        }
        query_names(alloc, &self.surveyed()).map_err(NamedParamsError::Memory)
    }

    /// Appends the text of the query with borrowed parameters to another text.
    pub(super) fn append(
        &self,
        alloc: Global,
        params: BorrowedParams<'_, '_>,
        text: &mut Vec<u8>,
    ) -> Result<(), BindError>
        ensures appended { OnOk result (IsBoundAfterIn self.now.reading
            (cow_slice_items self.now.query) (given_by_borrowed params.entry)
            text.old.items text.new.items) }
        ensures refused { OnTokensIn self.now.reading (cow_slice_items self.now.query) (λ ts.
            IfErr result (IsCauseOrMemory (first_cause ts (given_by_borrowed params.entry)))) }
        ensures mixed { OnTokensIn self.now.reading (cow_slice_items self.now.query) (λ ts.
            HasName ts × HasMark ts → IsErrOf result BindError.Mixed) }
        ensures kept { OnErr result (text.new.items ≡ text.old.items) }
    {
        let surveyed = self.surveyed();
        let form = PlainForm {
            no_backslash_escape: surveyed.reading.no_backslash_escape,
        };
        bind_surveyed_after(alloc, &surveyed, params, &form, text)
    }
}
