//! Queries that a request takes. Everything that doesn't depend on values is found in a query once,
//! and reused. The text of such a query has its assignments, in the literals that are asked for. It
//! is written or refused as a whole.
ghost use Rattle.std.specs.Prelude.{◌≡◌, ◌≢◌, ◌⊎◌, IfErr, IfOk, IsErrOf, OnErr, OnOk, alloc_error, ℕ, List, None, Ok, map, false, IfSome};
ghost use Rattle.std.specs.Io.KnownBytes.{Appends};
ghost use Rattle.mysql_io.specs.ReadersAndWriters.{AppendsPrefix};
ghost use Rattle.mysql_params_core.specs.GivenBorrowed.{by_borrowed, given_by_borrowed};
ghost use Rattle.mysql_query_core.specs.WordErrors.{seen_pair};
ghost use Rattle.mysql_named_params.specs.Tokens.{OnTokens};
ghost use Rattle.mysql_portable.specs.FirstUnportableInClient.{IsPortableInClient};
ghost use Rattle.mysql_bind_core.specs.Bound.{IsTaken, IsAssignedText, IsWritten};
ghost use Rattle.mysql_bind_core.specs.Contents.{has_fragment};
ghost use Rattle.mysql_bind_core.specs.FoundPairs.{IsPairsText, IsValuesText};
ghost use Rattle.mysql_bind_core.specs.Refusals.{IsCopied, IsQueryRefusal, IsFoundInText, IsRefusal};
ghost use Rattle.mysql_bind_core.specs.Requests.{mode_of};
ghost use Rattle.mysql_bind_core.specs.Assignments.{given_of};

mod appended;

use crate::assignment::{Assignment, PairsError, has_fragment, pairs_of};
use crate::checked::check_surveyed;
use crate::failure::Failure;
use crate::fragments_text::fragments_text;
use crate::laws::values_are_sent;
use crate::request::{Literals, Portability, Request};
pub(crate) use appended::Attempt;
use mysql_binding::{
    BindError, KEPT_PLACES, NO_PLACE, PlainForm, SurveyedQuery, WideQuery, bind_surveyed_as,
};
use mysql_io::readers_and_writers::write_whole;
use mysql_named_params::places::Reading;
use mysql_params_core::params::{BorrowedParams, NamedPairs};
use mysql_portable::client::first_unportable_in_client;
use mysql_portable::portable::Unportable;
use mysql_steady_text::SteadyForm;
use mysql_values::value::{Value, ValueRef};
use std::alloc::{AllocError, Global};
use std::io::Write;
use std::marker::Model;

/// A query that a request takes, with its places. It can be bound any number of times. Values are
/// bound without a further walk over it.
#[derive(Debug, Drop)]
pub struct TakenQuery<'q> {
    parsed: WideQuery<'q>,
    request: Request,
}

impl<'q> Model for TakenQuery<'q> {
    ghost use Rattle.mysql_bind_core.specs.TakenQuery.{RequestedQuery, IsTakenFor};

    ghost Value = { RequestedQuery };

    ghost view = { λ t. record {
      query = t.parsed.query;
      request = t.request;
    } };

    ghost invariant = { λ t. IsTakenFor t.request t.parsed };
}

impl<'q> TakenQuery<'q> {
    /// The query, if the request takes it. Otherwise the error is `Open`, `Unsteady`, `Unportable`
    /// or `Marks`, like that of [`check_query`]. It is `Memory` only if the request takes the
    /// query, or, if the query ends with `--`, in place of `Unportable` and `Marks`.
    pub fn new(alloc: Global, query: &'q [u8], request: Request) -> Result<TakenQuery<'q>, Failure>
        ensures query { IfOk result (λ t. t ≡ record { query = query.now; request = request }) }
        ensures taken { IfOk result (λ t. IsTaken request query.now) }
        ensures refused { IfErr result (IsQueryRefusal request query.now) }
        ensures only { IfErr result (λ e. e ≢ Failure.Write) }
        ensures memory { IsErrOf result (Failure.Memory alloc_error) →
            IsTaken request query.now ⊎ IsCopied request query.now }
    {
        let mode = request.literals.no_backslash_escape();
        let parsed = match WideQuery::parse_in(alloc, query, mode) {
            Ok(parsed) => parsed,
            Err(error) => {
                check_query(alloc, query, request)?;
                return Err(Failure::Memory(error));
            }
        };
        check_surveyed(alloc, &parsed.surveyed(), request)?;
        Ok(TakenQuery { parsed, request })
    }

    /// The request that takes the query.
    pub fn request(&self) -> Request
        ensures request { result ≡ self.now.request }
        ensures taken { IsTaken self.now.request self.now.query }
    {
        self.request
    }

    /// The query with its places, read in the mode of the request.
    pub fn parsed(&self) -> &WideQuery<'q>
        ensures query { result.now.query ≡ self.now.query }
        ensures mode { result.now.mode ≡ mode_of self.now.request.literals }
    {
        &self.parsed
    }

    /// The query with the assigned values and other fragments in the places of its names, or the
    /// refusal, like [`bound_text`](crate::bound_text). Values that can be bound take no further
    /// walk over the query.
    pub fn text(&self, alloc: Global, assignments: &[Assignment]) -> Result<Vec<u8>, Failure>
        ensures bound { IfOk result (λ text.
            IsWritten self.now.request self.now.query assignments.now text.items) }
        ensures refused { IfErr result
            (IsRefusal self.now.request self.now.query assignments.now) }
        ensures only { IfErr result (λ e. e ≢ Failure.Write) }
    {
        if !has_fragment(assignments) {
            if let Some(text) = self.sent_values(alloc, assignments)? {
                return Ok(text);
            }
        }
        let text = fragments_text(alloc, &self.parsed.surveyed(), assignments, self.request)?;
        self.asked_text(assignments, text)
    }

    /// Binds the assigned values into the query, and writes the whole text, or refuses, as
    /// [`write_bound`](crate::write_bound) does for a query that is taken.
    pub fn write<W: Write>(
        &self,
        alloc: Global,
        assignments: &[Assignment],
        output: &mut W,
    ) -> Result<(), Failure>
        ensures written { OnOk result ((text : List ℕ)
            × IsWritten self.now.request self.now.query assignments.now text
            × Appends (W.contents output.old) (W.contents output.new) text) }
        ensures refused { IfErr result (λ e. e ≢ Failure.Write →
            IsRefusal self.now.request self.now.query assignments.now e) }

        // A refusal has written nothing.
        ensures unwritten { IfErr result (λ e. e ≢ Failure.Write → output.new ≡ output.old) }

        // A failed write has written a prefix of the text.
        ensures begun { IsErrOf result Failure.Write → (text : List ℕ)
            × IsWritten self.now.request self.now.query assignments.now text
            × AppendsPrefix (W.contents output.old) (W.contents output.new) text }
    {
        let text = self.text(alloc, assignments)?;
        written(output, &text)
    }

    // The text, unless it has to be portable in a client and isn't. A name may have a newline. A
    // string without backslash escapes may have a newline or a byte 0. All texts with fragments are
    // checked.
    fn asked_text(&self, assignments: &[Assignment], text: Vec<u8>) -> Result<Vec<u8>, Failure>
        requires { IsAssignedText self.now.request self.now.query assignments.now text.items }
        ensures bound { IfOk result (λ text.
            IsWritten self.now.request self.now.query assignments.now text.items) }
        ensures refused { IfErr result
            (IsRefusal self.now.request self.now.query assignments.now) }
        ensures only { IfErr result (λ e. e ≢ Failure.Write) }
    {
        match found_in_text(text.as_slice(), self.request) {
            None => Ok(text),
            Some(found) => Err(Failure::UnportableText(found)),
        }
    }

    // The text of assignments that are all values, without a further walk over the query. None if
    // they can't be bound: `fragments_text` finds the cause.
    fn sent_values(
        &self,
        alloc: Global,
        assignments: &[Assignment],
    ) -> Result<Option<Vec<u8>>, Failure>
        requires { has_fragment assignments.now ≡ false }
        ensures bound { IfOk result (λ found. IfSome found (λ text.
            IsWritten self.now.request self.now.query assignments.now text.items)) }
        ensures refused { IfErr result
            (IsRefusal self.now.request self.now.query assignments.now) }
        ensures only { IfErr result (λ e. e ≢ Failure.Write) }
    {
        let Some(text) = self.values_text(alloc, assignments)? else {
            return Ok(None);
        };
        if self.request.literals.no_backslash_escape() {
            let text = self.asked_text(assignments, text)?;
            return Ok(Some(text));
        }
        values_are_sent();
        Ok(Some(text))
    }

    // The same, whether or not the text is portable.
    fn values_text(
        &self,
        alloc: Global,
        assignments: &[Assignment],
    ) -> Result<Option<Vec<u8>>, AllocError>
        requires { has_fragment assignments.now ≡ false }
        ensures assigned { IfOk result (λ found. IfSome found (λ text.
            IsAssignedText self.now.request self.now.query assignments.now text.items)) }
        ensures values { IfOk result (λ found. IfSome found (λ text.
            IsValuesText self.now.request self.now.query text.items)) }
    {
        // Called for its `ensures` clause: the request takes the query.
        Self::request(self);
        let pairs = match pairs_of(alloc, assignments) {
            Ok(pairs) => pairs,
            Err(PairsError::NoValue) => return Ok(None),
            Err(PairsError::Memory(error)) => return Err(error),
        };
        self.pairs_text(alloc, pairs.as_slice())
    }

    // The same for pairs of a name and a value.
    fn pairs_text<'p>(
        &self,
        alloc: Global,
        pairs: &'p [(&'p [u8], Value)],
    ) -> Result<Option<Vec<u8>>, AllocError>
        ensures { IfOk result (λ found. IfSome found (λ text.
            IsPairsText self.now.request self.now.query (map seen_pair pairs.now) text.items)) }
    {
        let borrowed = borrowed_pairs(alloc, pairs)?;
        let named = NamedPairs(borrowed.as_slice());
        let Some(params) = params_of(alloc, &named)? else {
            return Ok(None);
        };
        let surveyed = self.parsed.surveyed();
        match self.request.literals {
            Literals::Plain {
                no_backslash_escape,
            } => {
                let form = PlainForm {
                    no_backslash_escape,
                };
                bound_or_none(bind_surveyed_as(alloc, &surveyed, params, &form))
            }
            Literals::Steady => {
                bound_or_none(bind_surveyed_as(alloc, &surveyed, params, &SteadyForm))
            }
        }
    }
}

// What is bound, or none if it is refused; out of memory stays out of memory.
pub(crate) fn bound_or_none<T: Drop>(bound: Result<T, BindError>) -> Result<Option<T>, AllocError>
    ensures bound { IfOk result (λ found. IfSome found (λ it. bound ≡ Ok it)) }
    ensures none { IfOk result (λ found. found ≡ None → OnOk bound ⊥) }
    ensures refused { OnErr result (OnOk bound ⊥) }
{
    match bound {
        Ok(it) => Ok(Some(it)),
        Err(BindError::Memory(error)) => Err(error),
        Err(_) => Ok(None),
    }
}

/// Whether the request takes the query, without any values. If it doesn't, the error is `Open`,
/// `Unsteady`, `Unportable` or `Marks`. For a query that ends with `--` it may ask for memory, for
/// a copy of the query. If that is refused, the error is `Memory`. It never comes in place of
/// `Open` or `Unsteady`, nor of the `Unportable` of a construct that the query has without the end
/// of a statement.
///
/// The end of a statement after the query counts for `Unportable`: `SELECT 1.e--` is refused, since
/// servers read `1.e--` before a newline in different ways.
pub fn check_query(alloc: Global, query: &[u8], request: Request) -> Result<(), Failure>
    ensures taken { OnOk result (IsTaken request query.now) }
    ensures refused { IfErr result (IsQueryRefusal request query.now) }
    ensures only { IfErr result (λ e. e ≢ Failure.Write) }
    ensures memory { IsErrOf result (Failure.Memory alloc_error) → IsCopied request query.now }
{
    let mode = request.literals.no_backslash_escape();
    let mut first = [NO_PLACE; KEPT_PLACES];
    let reading = Reading {
        no_backslash_escape: mode,
        wide_names: true,
    };
    check_surveyed(
        alloc,
        &SurveyedQuery::new(query, reading, &mut first),
        request,
    )
}

// Writes the whole text.
fn written<W: Write>(output: &mut W, text: &[u8]) -> Result<(), Failure>
    ensures ok { OnOk result (Appends (W.contents output.old) (W.contents output.new) text.now) }
    ensures refused { IfErr result (λ e. e ≡ Failure.Write) }
    ensures begun { IsErrOf result Failure.Write →
        AppendsPrefix (W.contents output.old) (W.contents output.new) text.now }
{
    Ok(write_whole(output, text)?)
}

// The first construct of a bound text, if it has to be portable in a client.
pub(crate) fn found_in_text(text: &[u8], request: Request) -> Option<Unportable>
    ensures none { result ≡ None → request.portability ≡ Portability.Portable →
        OnTokens (mode_of request.literals) text.now IsPortableInClient }
    ensures found { IfSome result (IsFoundInText request text.now) }
{
    match request.portability {
        Portability::Any => None,
        Portability::Portable => {
            first_unportable_in_client(text, request.literals.no_backslash_escape())
        }
    }
}

// The pairs, with their values borrowed.
fn borrowed_pairs<'p>(
    alloc: Global,
    pairs: &'p [(&'p [u8], Value)],
) -> Result<Vec<(&'p [u8], ValueRef<'p>)>, AllocError>
    ensures { IfOk result (λ lent. map by_borrowed lent.items ≡ map seen_pair pairs.now) }
{
    let mut lent = Vec::with_capacity(alloc, pairs.len())?;
    for pair in pairs {
        lent.push((pair.0, pair.1.borrowed()))?;
    }
    Ok(lent)
}

// The parameters that pairs make, by name. They are empty if there are no pairs. None if a name is
// given twice.
fn params_of<'p>(
    alloc: Global,
    pairs: &'p NamedPairs<'p>,
) -> Result<Option<BorrowedParams<'p, 'p>>, AllocError>
    ensures { IfOk result (λ found. IfSome found (λ params.
        given_of (map by_borrowed pairs.now.0.now) ≡ Ok (given_by_borrowed params))) }
{
    if pairs.0.is_empty() {
        return Ok(Some(BorrowedParams::Empty));
    }
    match pairs.first_redefined(alloc)? {
        None => Ok(Some(BorrowedParams::Pairs(pairs))),
        Some(_) => Ok(None),
    }
}
