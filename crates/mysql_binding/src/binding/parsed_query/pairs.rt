//! Binding a parsed query with borrowed names and values.
ghost use Rattle.std.specs.Prelude.{◌≡◌, IfErr, IfOk, IsErrOf, OnErr, OnOk};
ghost use Rattle.mysql_named_params.specs.Tokens.{OnTokens};
ghost use Rattle.mysql_named_params.specs.Places.{HasMark, HasName};
ghost use Rattle.mysql_params_core.specs.Given.{positional};
ghost use Rattle.mysql_values.specs.BorrowedValue.{owned_values};
ghost use Rattle.mysql_binding.specs.BindErrors.{IsCauseOrMemory};
ghost use Rattle.mysql_binding.specs.BoundAgain.{IsSameBoundAgain, IsSameByPosition};
ghost use Rattle.mysql_binding.specs.BoundPairs.{IfFewPairs, IsBoundAfter, IsPairsRefusal, OfPairs};
ghost use Rattle.mysql_binding.specs.FirstCause.{first_cause};
ghost use Rattle.mysql_binding.specs.Isolation.{IsBoundText};

use crate::bind_error::BindError;
use crate::bind_pairs_error::BindPairsError;
use crate::binding::bind_surveyed;
use crate::binding::pairs::pairs_refusal;
use crate::binding::parsed_query::ParsedQuery;
use mysql_params_core::params::{BorrowedParams, NamedPairs};
use mysql_values::value::ValueRef;
use std::alloc::Global;

impl<'q> ParsedQuery<'q> {
    /// [`bind`](ParsedQuery::bind) with named parameters that are borrowed, in pairs, exactly like
    /// `bind_pairs` in this mode. The query isn't walked again.
    pub fn bind_pairs(
        &self,
        alloc: Global,
        pairs: &[(&[u8], ValueRef<'_>)],
    ) -> Result<Vec<u8>, BindPairsError>
        ensures bound { IfOk result (λ text. OfPairs pairs.now (λ given.
            OnTokens self.now.mode self.now.query (λ ts.
            IsBoundText self.now.mode ts given text.items))) }
        ensures refused { IfErr result
            (IsPairsRefusal self.now.mode self.now.query pairs.now) }
        ensures bound_again { IfOk result (λ text. IsSameBoundAgain self.now.mode text.items) }
        ensures by_position { IfOk result (λ text. OfPairs pairs.now (λ given.
            OnTokens self.now.mode self.now.query (λ ts.
            IsSameByPosition self.now.mode ts given text.items))) }

        // A query with both a name and a mark is refused without allocating, if there are at most
        // 64 pairs and no name is given twice.
        ensures mixed { IfFewPairs pairs.now (λ given. OnTokens self.now.mode self.now.query (λ ts.
            HasName ts × HasMark ts → IsErrOf result (BindPairsError.Bind BindError.Mixed))) }
    {
        let named = NamedPairs(pairs);
        if let Some(error) = pairs_refusal(alloc, &named) {
            return Err(error);
        }
        Ok(bind_surveyed(alloc, &self.surveyed(), BorrowedParams::Pairs(&named))?)
    }

    /// [`bind`](ParsedQuery::bind) with borrowed values by position, exactly like `bind_values` in
    /// this mode. The query isn't walked again.
    pub fn bind_values(&self, alloc: Global, values: &[ValueRef<'_>]) -> Result<Vec<u8>, BindError>
        ensures bound { OnTokens self.now.mode self.now.query (λ ts. IfOk result (λ text.
            IsBoundText self.now.mode ts (positional (owned_values values.now)) text.items)) }
        ensures refused { OnTokens self.now.mode self.now.query (λ ts. IfErr result
            (IsCauseOrMemory (first_cause ts (positional (owned_values values.now))))) }
        ensures bound_again { IfOk result (λ text. IsSameBoundAgain self.now.mode text.items) }
        ensures by_position { OnTokens self.now.mode self.now.query (λ ts. IfOk result (λ text.
            IsSameByPosition self.now.mode ts (positional (owned_values values.now))
            text.items)) }

        // A query with a name and a mark is refused without allocating.
        ensures mixed { OnTokens self.now.mode self.now.query (λ ts.
            HasName ts × HasMark ts → IsErrOf result BindError.Mixed) }
    {
        bind_surveyed(alloc, &self.surveyed(), BorrowedParams::Values(values))
    }

    /// [`bind_pairs`](ParsedQuery::bind_pairs), with the bound text appended to `text`. No vector
    /// is allocated for it. After a refusal `text` is unchanged.
    pub fn append_pairs(
        &self,
        alloc: Global,
        pairs: &[(&[u8], ValueRef<'_>)],
        text: &mut Vec<u8>,
    ) -> Result<(), BindPairsError>
        ensures appended { OnOk result (OfPairs pairs.now (λ given.
            IsBoundAfter self.now.mode self.now.query given text.old.items text.new.items)) }
        ensures refused { IfErr result
            (IsPairsRefusal self.now.mode self.now.query pairs.now) }
        ensures mixed { IfFewPairs pairs.now (λ given. OnTokens self.now.mode self.now.query (λ ts.
            HasName ts × HasMark ts → IsErrOf result (BindPairsError.Bind BindError.Mixed))) }
        ensures kept { OnErr result (text.new.items ≡ text.old.items) }
    {
        let named = NamedPairs(pairs);
        if let Some(error) = pairs_refusal(alloc, &named) {
            return Err(error);
        }
        let params = BorrowedParams::Pairs(&named);
        Ok(self.found.append(alloc, params, text)?)
    }

    /// [`bind_values`](ParsedQuery::bind_values), with the bound text appended to `text`. No vector
    /// is allocated for it. After a refusal `text` is unchanged.
    pub fn append_values(
        &self,
        alloc: Global,
        values: &[ValueRef<'_>],
        text: &mut Vec<u8>,
    ) -> Result<(), BindError>
        ensures appended { OnOk result (IsBoundAfter self.now.mode self.now.query
            (positional (owned_values values.now)) text.old.items text.new.items) }
        ensures refused { OnTokens self.now.mode self.now.query (λ ts. IfErr result
            (IsCauseOrMemory (first_cause ts (positional (owned_values values.now))))) }
        ensures mixed { OnTokens self.now.mode self.now.query (λ ts.
            HasName ts × HasMark ts → IsErrOf result BindError.Mixed) }
        ensures kept { OnErr result (text.new.items ≡ text.old.items) }
    {
        let params = BorrowedParams::Values(values);
        self.found.append(alloc, params, text)
    }
}
