//! Fixed queries, bound to values by position.
ghost use Rattle.std.specs.Prelude.{◌≡◌, Bool, IfOk};
ghost use Rattle.mysql_sql_text.specs.StringUnits.{with_backslashes};
ghost use Rattle.mysql_named_params.specs.TokensOf.{tokens_of};
ghost use Rattle.mysql_binding.specs.Isolation.{IsBoundText};
ghost use Rattle.mysql_steady_text.specs.Purposes.{reading_for};
ghost use Rattle.mysql_bind_call.specs.Accepted.{IsAccepted};
ghost use Rattle.mysql_bind_call.specs.BoundTexts.{IsValuesText};
ghost use Rattle.mysql_fixed_query.specs.Bindable.{FitsByPosition, IsBindableByPosition, IsAcceptedFor, tokens_for, tokens_in, values_of};
ghost use Rattle.mysql_fixed_query.specs.FixedText.{bound_text, text_for};

use crate::made::bind_made;
use mysql_params_core::params::ToParams;
use mysql_steady_text::purpose::{Portability, Purpose, Scope};
use std::alloc::{AllocError, Global};

/// The query with the literals of the values in the places of its marks, in order, for a purpose,
/// as `mysql_bind_call::bind` gives it.
///
/// The caller proves that nothing refuses it. The query isn't refused for the purpose
/// ([`query_refusal`](mysql_steady_text::purpose::query_refusal)). The things make values by
/// position, or nothing. The query has no name, and as many marks as there are values. Each of its
/// places stands alone, and no value is a float. So the only error is out of memory.
///
/// For a constant query and purpose and a tuple of things the prover computes this by itself. The
/// rest is as for [`bind_named_for`](crate::bind_named_for).
#[inline(always)]
pub fn bind_positional_for<P: ToParams>(
    alloc: Global,
    query: &[u8],
    things: &P,
    purpose: Purpose,
) -> Result<Vec<u8>, AllocError>
    requires accepted { IsAcceptedFor purpose query.now }
    requires fits { FitsByPosition (tokens_for purpose query.now) (P.made things.now) }
    ensures bound { (mode : Bool) → IfOk (P.made things.now) (λ given. IfOk result (λ text.
        IsValuesText purpose.scope (tokens_in (reading_for purpose mode) query.now) given
        text.items)) }
    ensures accepted { IsAccepted purpose query.now }
    ensures text { IfOk result (λ text. text.items ≡ text_for purpose query.now
        (values_of (P.made things.now))) }
{
    bind_made(alloc, query, things.to_params(alloc), purpose)
}

/// The query with the literals of the values in the places of its marks, in order, in a mode of the
/// server, as `bind_text_in` gives it. The flag is the mode: with `true` a backslash is a byte like
/// any other.
///
/// The caller proves that nothing refuses it. The things make values by position, or nothing. The
/// query has no name, and as many marks as there are values. Each of its places stands alone, and
/// no value is a float. For a constant query and a tuple of things the prover computes this by
/// itself. So the only error is out of memory. A query without places takes `&()`.
#[inline(always)]
pub fn bind_positional_in<P: ToParams>(
    alloc: Global,
    query: &[u8],
    things: &P,
    no_backslash_escape: bool,
) -> Result<Vec<u8>, AllocError>
    requires { IsBindableByPosition no_backslash_escape query.now (P.made things.now) }
    ensures bound { IfOk (P.made things.now) (λ given. IfOk result (λ text.
        IsBoundText no_backslash_escape (tokens_of no_backslash_escape query.now) given
        text.items)) }
    ensures text { IfOk result (λ text. text.items ≡ bound_text no_backslash_escape query.now
        (values_of (P.made things.now))) }
{
    let purpose = Purpose {
        scope: Scope::OneMode {
            no_backslash_escape,
        },
        portability: Portability::Any,
        wide_names: false,
    };
    bind_positional_for(alloc, query, things, purpose)
}

/// The query with the literals of the values in the places of its marks, in order, in the mode in
/// which a backslash escapes: [`bind_positional_in`] with `false`. The caller proves the same. For
/// example, `bind_positional(alloc, b"SELECT a FROM t WHERE b = ?", &(7,))`, with the query a
/// constant.
pub fn bind_positional<P: ToParams>(
    alloc: Global,
    query: &[u8],
    things: &P,
) -> Result<Vec<u8>, AllocError>
    requires { IsBindableByPosition with_backslashes query.now (P.made things.now) }
    ensures bound { IfOk (P.made things.now) (λ given. IfOk result (λ text.
        IsBoundText with_backslashes (tokens_of with_backslashes query.now) given text.items)) }
    ensures text { IfOk result (λ text. text.items ≡ bound_text with_backslashes query.now
        (values_of (P.made things.now))) }
{
    bind_positional_in(alloc, query, things, false)
}
