//! Fixed queries, bound to values by name.
ghost use Rattle.std.specs.Prelude.{◌≡◌, Bool, IfOk};
ghost use Rattle.mysql_sql_text.specs.StringUnits.{with_backslashes};
ghost use Rattle.mysql_named_params.specs.TokensOf.{tokens_of};
ghost use Rattle.mysql_binding.specs.Isolation.{IsBoundText};
ghost use Rattle.mysql_steady_text.specs.Purposes.{reading_for};
ghost use Rattle.mysql_bind_call.specs.Accepted.{IsAccepted};
ghost use Rattle.mysql_bind_call.specs.BoundTexts.{IsValuesText};
ghost use Rattle.mysql_fixed_query.specs.Bindable.{Fits, IsBindable, IsAcceptedFor, given_by, tokens_for, tokens_in, valued};
ghost use Rattle.mysql_fixed_query.specs.FixedText.{bound_text, text_for, values_for, values_named};

use crate::made::bind_made;
use mysql_params_core::params::ToPairs;
use mysql_steady_text::purpose::{Portability, Purpose, Scope};
use std::alloc::{AllocError, Global};

/// The query with the literals of the values in the places of its names, for a purpose, as
/// `mysql_bind_call::bind` gives it.
///
/// The caller proves that nothing refuses it. The query isn't refused for the purpose
/// ([`query_refusal`](mysql_steady_text::purpose::query_refusal)). It has a name and no mark, and
/// each of its places stands alone. Its names are exactly those of the pairs, which differ. Each
/// thing has a value, which isn't a float. So the only error is out of memory.
///
/// For a constant query and purpose the prover computes this by itself, except for
/// [`Portability::Clients`]. There the caller's answer unfolds one definition, `is_client_word` of
/// `mysql_portable`.
///
/// For either mode or any connection, the text of a portable query is one for all servers, by the
/// laws `accepted_queries` and `texts_of_portable_queries` of `mysql_bind_call`. For example,
/// `bind_named_for(alloc, b"SELECT a FROM t WHERE b = :Id", &(("Id", 7),), purpose)`.
#[inline(always)]
pub fn bind_named_for<P: ToPairs>(
    alloc: Global,
    query: &[u8],
    pairs: &P,
    purpose: Purpose,
) -> Result<Vec<u8>, AllocError>
    requires accepted { IsAcceptedFor purpose query.now }
    requires fits { Fits (tokens_for purpose query.now) (P.pairs pairs.now) }
    ensures bound { (mode : Bool) → IfOk result (λ text. IsValuesText purpose.scope
        (tokens_in (reading_for purpose mode) query.now) (given_by (valued (P.pairs pairs.now)))
        text.items) }
    ensures accepted { IsAccepted purpose query.now }
    ensures text { IfOk result (λ text. text.items ≡ text_for purpose query.now
        (values_for (tokens_for purpose query.now) (valued (P.pairs pairs.now)))) }
{
    bind_made(alloc, query, pairs.to_named(alloc), purpose)
}

/// The query with the literals of the values in the places of its names, in a mode of the server,
/// as `bind_text_in` gives it. The flag is the mode: with `true` a backslash is a byte like any
/// other.
///
/// The caller proves that nothing refuses it. The query has a name and no mark, and each of its
/// places stands alone. Its names are exactly those of the pairs, which differ. Each thing has a
/// value, which isn't a float. For a constant query the prover computes this by itself. So the only
/// error is out of memory.
#[inline(always)]
pub fn bind_named_in<P: ToPairs>(
    alloc: Global,
    query: &[u8],
    pairs: &P,
    no_backslash_escape: bool,
) -> Result<Vec<u8>, AllocError>
    requires { IsBindable no_backslash_escape query.now (P.pairs pairs.now) }
    ensures bound { IfOk result (λ text. IsBoundText no_backslash_escape
        (tokens_of no_backslash_escape query.now) (given_by (valued (P.pairs pairs.now)))
        text.items) }
    ensures text { IfOk result (λ text. text.items ≡ bound_text no_backslash_escape query.now
        (values_named no_backslash_escape query.now (valued (P.pairs pairs.now)))) }
{
    let purpose = Purpose {
        scope: Scope::OneMode {
            no_backslash_escape,
        },
        portability: Portability::Any,
        wide_names: false,
    };
    bind_named_for(alloc, query, pairs, purpose)
}

/// The query with the literals of the values in the places of its names, in the mode in which a
/// backslash escapes: [`bind_named_in`] with `false`. The caller proves the same. For example,
/// `bind_named(alloc, b"SELECT a FROM t WHERE b = :b", &(("b", 7),))`, with the query a constant.
pub fn bind_named<P: ToPairs>(alloc: Global, query: &[u8], pairs: &P) -> Result<Vec<u8>, AllocError>
    requires { IsBindable with_backslashes query.now (P.pairs pairs.now) }
    ensures bound { IfOk result (λ text. IsBoundText with_backslashes
        (tokens_of with_backslashes query.now) (given_by (valued (P.pairs pairs.now)))
        text.items) }
    ensures text { IfOk result (λ text. text.items ≡ bound_text with_backslashes query.now
        (values_named with_backslashes query.now (valued (P.pairs pairs.now)))) }
{
    bind_named_in(alloc, query, pairs, false)
}
