//! Fragments bound for one purpose.
ghost use Rattle.std.specs.Prelude.{◌≡◌, false, true, None, Some, IfErr, IfOk, IsErrOf, ℕ, Bool};
ghost use Rattle.mysql_sql_text.specs.StringUnits.{with_backslashes};
ghost use Rattle.mysql_named_params.specs.Tokens.{OnTokens};
ghost use Rattle.mysql_named_params.specs.Places.{HasName, HasMark};
ghost use Rattle.mysql_fragments.specs.Expanded.{IsBoundFragments};
ghost use Rattle.mysql_fragments.specs.FragmentErrors.{IsCauseOrMemory, first_cause};
ghost use Rattle.mysql_fragments.specs.GivenFragments.{given_fragments};
ghost use Rattle.mysql_portable.specs.FirstUnportable.{first_unportable};
ghost use Rattle.mysql_portable.specs.Steady.{first_unsteady, IsSteady};
ghost use Rattle.mysql_fragments.specs.SteadyFragments.{IsAnywhereFragments, IsSteadyFragments};
ghost use Rattle.mysql_fragments.specs.SteadyFragmentsErrors.{IsSteadyRefusal};
ghost use Rattle.mysql_portable.specs.declared.portable.Unportable as unportable;

use crate::instances::IN_ANY_MODE;
use crate::instances::errors::{fragments_for_any, fragments_for_mode};
use crate::one_call::bind;
use mysql_fragments::{Fragments, FragmentsError, SteadyFragmentsError};
use mysql_steady_text::purpose::{ANYWHERE, Portability, Purpose, Scope};
use std::alloc::Global;

/// The query with a fragment in the place of each name and mark, its values as literals: `a IN (?)`
/// with a list of three values is `a IN (1, 'b', NULL)`. The text is the one that
/// [`bind_text_in`](crate::bind_text_in) gives for the query of
/// [`expanded_query_in`](mysql_fragments::expanded_query_in) and its values. Nothing else of the
/// query changes.
///
/// It refuses for the causes of [`expanded_query_in`](mysql_fragments::expanded_query_in), in their
/// order, and for a float, which has no literal. A float comes directly after a place that doesn't
/// stand alone.
///
/// `Memory` may come in place of any other result, except for a query with names and marks. It also
/// comes if the text would be longer than `isize::MAX` bytes.
// A query has one token list in each mode (`mysql_named_params::laws::one_token_list`), so the
// clauses speak of the same `ts`.
pub fn bind_fragments_in(
    alloc: Global,
    query: &[u8],
    fragments: &Fragments,
    no_backslash_escape: bool,
) -> Result<Vec<u8>, FragmentsError>
    ensures bound { OnTokens no_backslash_escape query.now (λ ts. IfOk result (λ text.
        IsBoundFragments no_backslash_escape ts (given_fragments fragments.now) text.items)) }
    ensures refused { OnTokens no_backslash_escape query.now (λ ts. IfErr result
        (IsCauseOrMemory (first_cause true ts (given_fragments fragments.now)))) }

    // A query with a name and a mark is refused without allocating.
    ensures mixed { OnTokens no_backslash_escape query.now (λ ts.
        HasName ts × HasMark ts → IsErrOf result FragmentsError.Mixed) }
{
    let purpose = Purpose {
        scope: Scope::OneMode {
            no_backslash_escape,
        },
        portability: Portability::Any,
        wide_names: false,
    };
    fragments_for_mode(bind(alloc, query, fragments, purpose))
}

/// The query with a fragment in the place of each name and mark, in the mode in which a backslash
/// escapes: [`bind_fragments_in`] with `false`. It refuses for the same causes.
pub fn bind_fragments(
    alloc: Global,
    query: &[u8],
    fragments: &Fragments,
) -> Result<Vec<u8>, FragmentsError>
    ensures bound { OnTokens with_backslashes query.now (λ ts. IfOk result (λ text.
        IsBoundFragments with_backslashes ts (given_fragments fragments.now) text.items)) }
    ensures refused { OnTokens with_backslashes query.now (λ ts. IfErr result
        (IsCauseOrMemory (first_cause true ts (given_fragments fragments.now)))) }

    // A query with a name and a mark is refused without allocating.
    ensures mixed { OnTokens with_backslashes query.now (λ ts.
        HasName ts × HasMark ts → IsErrOf result FragmentsError.Mixed) }
{
    bind_fragments_in(alloc, query, fragments, false)
}

/// The query with a fragment in the place of each name and mark, its values as steady literals:
/// text that is read the same on any server, in every `sql_mode` and over every character set of a
/// connection.
///
/// The text is the one that [`bind_text_anywhere`](crate::bind_text_anywhere) gives for the query
/// of [`expanded_query`](mysql_fragments::expanded_query) and its values. So it is ASCII without a
/// backslash. Nothing else of the query changes.
///
/// The first of these causes refuses it:
///
/// - `Unsteady`: a backslash or a byte from 128 on anywhere in the query, also in a comment;
/// - `Unportable`: a construct that
///   [`first_unportable`](mysql_portable::portable::first_unportable) finds;
/// - `Fragments`: a cause of [`bind_fragments`](crate::bind_fragments), in its order;
/// - `UnsteadyFragment`: a fragment with a name that has a backslash or a byte from 128 on.
///
/// Each place in an error is one of the query.
///
/// MariaDB stores an expression of `DEFAULT`, `AS` or `CHECK` as text in which the introducer of a
/// steady literal isn't kept right. For the expressions of tables use `bind_fragments`.
///
/// Out of memory may come in place of any text or cause after `Unportable`, except for a query with
/// names and marks.
// A query has one token list in each mode (`mysql_named_params::laws::one_token_list`), and a
// steady one the same in both (`steady_texts`), so the clauses speak of the same `ts`.
pub fn bind_fragments_anywhere(
    alloc: Global,
    query: &[u8],
    fragments: &Fragments,
) -> Result<Vec<u8>, SteadyFragmentsError>
    ensures bound { (mode : Bool) → OnTokens mode query.now (λ ts. IfOk result (λ text.
        IsAnywhereFragments ts (given_fragments fragments.now) text.items)) }
    ensures refused { (mode : Bool) → OnTokens mode query.now (λ ts. IfErr result
        (IsSteadyRefusal query.now (first_unportable ts) ts (given_fragments fragments.now))) }

    // These are refused without allocating.
    ensures unsteady { (at : ℕ) → first_unsteady query.now ≡ Some at →
        IsErrOf result (SteadyFragmentsError.Unsteady at) }
    ensures unportable { (mode : Bool) → OnTokens mode query.now (λ ts. IsSteady query.now →
        (found : unportable.Unportable) → first_unportable ts ≡ Some found →
        IsErrOf result (SteadyFragmentsError.Unportable found)) }
    ensures mixed { (mode : Bool) → OnTokens mode query.now (λ ts. IsSteady query.now →
        first_unportable ts ≡ None → HasName ts × HasMark ts →
        IsErrOf result (SteadyFragmentsError.Fragments FragmentsError.Mixed)) }
{
    fragments_for_any(bind(alloc, query, fragments, ANYWHERE))
}

/// [`bind_fragments_anywhere`] for a query that is meant for one server: the query needn't be
/// portable, so `Unportable` never comes. That server reads the text the same in every `sql_mode`
/// and over every character set. Everything else is as there.
pub fn bind_fragments_in_any_mode(
    alloc: Global,
    query: &[u8],
    fragments: &Fragments,
) -> Result<Vec<u8>, SteadyFragmentsError>
    ensures bound { (mode : Bool) → OnTokens mode query.now (λ ts. IfOk result (λ text.
        IsSteadyFragments ts (given_fragments fragments.now) text.items)) }
    ensures refused { (mode : Bool) → OnTokens mode query.now (λ ts. IfErr result
        (IsSteadyRefusal query.now None ts (given_fragments fragments.now))) }

    // These are refused without allocating.
    ensures unsteady { (at : ℕ) → first_unsteady query.now ≡ Some at →
        IsErrOf result (SteadyFragmentsError.Unsteady at) }
    ensures mixed { (mode : Bool) → OnTokens mode query.now (λ ts. IsSteady query.now →
        HasName ts × HasMark ts →
        IsErrOf result (SteadyFragmentsError.Fragments FragmentsError.Mixed)) }
{
    fragments_for_any(bind(alloc, query, fragments, IN_ANY_MODE))
}
