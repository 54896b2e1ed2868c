//! Parameters bound for one purpose.
ghost use Rattle.std.specs.Prelude.{◌≡◌, ℕ, Bool, None, Some, IfErr, IfOk, IsErrOf};
ghost use Rattle.mysql_sql_text.specs.StringUnits.{with_backslashes};
ghost use Rattle.mysql_named_params.specs.Tokens.{OnTokens};
ghost use Rattle.mysql_named_params.specs.Places.{HasName, HasMark};
ghost use Rattle.mysql_params_core.specs.Given.{given};
ghost use Rattle.mysql_binding.specs.BindErrors.{IsCauseOrMemory};
ghost use Rattle.mysql_binding.specs.BoundAgain.{IsSameBoundAgain, IsSameByPosition};
ghost use Rattle.mysql_binding.specs.FirstCause.{first_cause};
ghost use Rattle.mysql_binding.specs.Isolation.{IsBoundText};
ghost use Rattle.mysql_portable.specs.FirstUnportable.{first_unportable};
ghost use Rattle.mysql_portable.specs.Steady.{first_unsteady, IsSteady};
ghost use Rattle.mysql_portable.specs.declared.portable.Unportable as unportable;
ghost use Rattle.mysql_steady_text.specs.BothModesErrors.{IsBothModesRefusal};
ghost use Rattle.mysql_steady_text.specs.BothModesText.{IsPortableInBothModes, IsBoundAgainInBothModes, IsByPositionInBothModes};
ghost use Rattle.mysql_steady_text.specs.FirstBackslash.{first_backslash};
ghost use Rattle.mysql_steady_text.specs.SteadyAgain.{IsSteadyBoundAgain, IsSteadyByPosition};
ghost use Rattle.mysql_steady_text.specs.SteadyText.{IsAnywhereText, IsSteadyText};
ghost use Rattle.mysql_steady_text.specs.SteadyTextErrors.{IsSteadyRefusal};

use crate::instances::IN_ANY_MODE;
use crate::instances::errors::{for_any, for_both_modes, for_mode};
use crate::one_call::bind;
use mysql_binding::BindError;
use mysql_params_core::params::Params;
use mysql_steady_text::purpose::{ANYWHERE, IN_BOTH_MODES, Portability, Purpose, Scope};
use mysql_steady_text::{BothModesError, SteadyTextError};
use std::alloc::Global;

/// Binds parameters to a query: returns it with a literal in place of each name and mark. A name
/// gets its own value. Marks get the positional values, in order. Nothing else of the query
/// changes.
///
/// The call is refused for the first of these causes:
/// - the query has both names and marks;
/// - [`Params::into_values`] refuses the query's names;
/// - the query has no names, and the number of its marks isn't the number of values;
/// - a name or mark doesn't stand alone;
/// - a value is a float.
///
/// A name or mark stands alone if both sides allow it. Directly before it there is nothing, white
/// space or one of `(,=<>+-*/%&|^~`. Directly after it there is nothing, white space or one of
/// `),;=<>+-*/%&|^!`. The parameters are consumed, even if the call is refused.
///
/// `no_backslash_escape` is the server's mode. The query is read and the literals are written in
/// this mode, as [`ParsedNamedParams`](mysql_named_params::named_params::ParsedNamedParams) reads a
/// query. With `true`, as for an `sql_mode` with `NO_BACKSLASH_ESCAPES`, a backslash is a byte like
/// any other. With `false`, it escapes the byte after it in a string.
///
/// `Memory` can come in place of any other result, except for a query with both names and marks. It
/// also comes if the text would be longer than `isize::MAX` bytes.
// A query has one token list in each mode (`mysql_named_params::laws::one_token_list`). So all
// clauses speak of the same `ts`.
pub fn bind_text_in(
    alloc: Global,
    query: &[u8],
    params: Params,
    no_backslash_escape: bool,
) -> Result<Vec<u8>, BindError>
    ensures bound { OnTokens no_backslash_escape query.now (λ ts. IfOk result (λ text.
        IsBoundText no_backslash_escape ts (given params) text.items)) }
    ensures refused { OnTokens no_backslash_escape query.now (λ ts. IfErr result
        (IsCauseOrMemory (first_cause ts (given params)))) }
    ensures bound_again { IfOk result (λ text. IsSameBoundAgain no_backslash_escape text.items) }
    ensures by_position { OnTokens no_backslash_escape query.now (λ ts. IfOk result (λ text.
        IsSameByPosition no_backslash_escape ts (given params) text.items)) }

    // A query with a name and a mark is refused without allocating.
    ensures mixed { OnTokens no_backslash_escape query.now (λ ts.
        HasName ts × HasMark ts → IsErrOf result BindError.Mixed) }
{
    let purpose = Purpose {
        scope: Scope::OneMode {
            no_backslash_escape,
        },
        portability: Portability::Any,
        wide_names: false,
    };
    for_mode(bind(alloc, query, &params, purpose))
}

/// Binds parameters to a query in the mode in which a backslash escapes: [`bind_text_in`] with
/// `false`. It is refused for the same causes.
// A query has one token list (`mysql_named_params::laws::one_token_list`). So all clauses speak of
// the same `ts`.
pub fn bind_text(alloc: Global, query: &[u8], params: Params) -> Result<Vec<u8>, BindError>
    ensures bound { OnTokens with_backslashes query.now (λ ts. IfOk result (λ text.
        IsBoundText with_backslashes ts (given params) text.items)) }
    ensures refused { OnTokens with_backslashes query.now (λ ts. IfErr result
        (IsCauseOrMemory (first_cause ts (given params)))) }
    ensures bound_again { IfOk result (λ text. IsSameBoundAgain with_backslashes text.items) }
    ensures by_position { OnTokens with_backslashes query.now (λ ts. IfOk result (λ text.
        IsSameByPosition with_backslashes ts (given params) text.items)) }

    // A query with a name and a mark is refused without allocating.
    ensures mixed { OnTokens with_backslashes query.now (λ ts.
        HasName ts × HasMark ts → IsErrOf result BindError.Mixed) }
{
    bind_text_in(alloc, query, params, false)
}

/// The query with the steady literal of a value in the place of each name and mark: text that is
/// read the same on any server, in every `sql_mode` and over every character set of a connection.
///
/// Bytes are written as `_utf8mb4'it''s'` if they are printable ASCII without a backslash, as
/// `_utf8mb4 0xC3A9` if they are other UTF-8, and as `0xFF` if they aren't UTF-8. Numbers, `NULL`,
/// dates and times are written as [`bind_text`](crate::bind_text) writes them. So the text is ASCII
/// without a backslash. Nothing else of the query changes.
///
/// The first of these causes refuses it:
///
/// - `Unsteady`: a backslash or a byte from 128 on anywhere in the query, also in a comment;
/// - `Unportable`: a construct that
///   [`first_unportable`](mysql_portable::portable::first_unportable) finds;
/// - `Bind`: a cause of `bind_text`, in its order.
///
/// The parameters are consumed, even if the call refuses.
///
/// MariaDB stores an expression of `DEFAULT`, `AS` or `CHECK` as text in which the introducer of a
/// steady literal isn't kept right. For the expressions of tables use `bind_text`.
///
/// Out of memory may come in place of any text or cause after `Unportable`, except for a query with
/// names and marks.
// A query has one token list in each mode (`mysql_named_params::laws::one_token_list`), and a
// steady one the same in both (`steady_texts`), so the clauses speak of the same `ts`.
pub fn bind_text_anywhere(
    alloc: Global,
    query: &[u8],
    params: Params,
) -> Result<Vec<u8>, SteadyTextError>
    ensures bound { (mode : Bool) → OnTokens mode query.now (λ ts. IfOk result (λ text.
        IsAnywhereText ts (given params) text.items)) }
    ensures refused { (mode : Bool) → OnTokens mode query.now (λ ts. IfErr result
        (IsSteadyRefusal query.now (first_unportable ts) (first_cause ts (given params)))) }
    ensures bound_again { IfOk result (λ text. IsSteadyBoundAgain text.items) }
    ensures by_position { (mode : Bool) → OnTokens mode query.now (λ ts. IfOk result (λ text.
        IsSteadyByPosition mode ts (given params) text.items)) }

    // These are refused without allocating.
    ensures unsteady { (at : ℕ) → first_unsteady query.now ≡ Some at →
        IsErrOf result (SteadyTextError.Unsteady at) }
    ensures unportable { (mode : Bool) → OnTokens mode query.now (λ ts. IsSteady query.now →
        (found : unportable.Unportable) → first_unportable ts ≡ Some found →
        IsErrOf result (SteadyTextError.Unportable found)) }
    ensures mixed { (mode : Bool) → OnTokens mode query.now (λ ts. IsSteady query.now →
        first_unportable ts ≡ None → HasName ts × HasMark ts →
        IsErrOf result (SteadyTextError.Bind BindError.Mixed)) }
{
    for_any(bind(alloc, query, &params, ANYWHERE))
}

/// [`bind_text_anywhere`] for a query that is meant for one server: the query needn't be portable,
/// so `Unportable` never comes. That server reads the text the same in every `sql_mode` and over
/// every character set. Everything else is as there.
pub fn bind_text_in_any_mode(
    alloc: Global,
    query: &[u8],
    params: Params,
) -> Result<Vec<u8>, SteadyTextError>
    ensures bound { (mode : Bool) → OnTokens mode query.now (λ ts. IfOk result (λ text.
        IsSteadyText ts (given params) text.items)) }
    ensures refused { (mode : Bool) → OnTokens mode query.now (λ ts. IfErr result
        (IsSteadyRefusal query.now None (first_cause ts (given params)))) }
    ensures bound_again { IfOk result (λ text. IsSteadyBoundAgain text.items) }
    ensures by_position { (mode : Bool) → OnTokens mode query.now (λ ts. IfOk result (λ text.
        IsSteadyByPosition mode ts (given params) text.items)) }

    // These are refused without allocating.
    ensures unsteady { (at : ℕ) → first_unsteady query.now ≡ Some at →
        IsErrOf result (SteadyTextError.Unsteady at) }
    ensures mixed { (mode : Bool) → OnTokens mode query.now (λ ts. IsSteady query.now →
        HasName ts × HasMark ts → IsErrOf result (SteadyTextError.Bind BindError.Mixed)) }
{
    for_any(bind(alloc, query, &params, IN_ANY_MODE))
}

/// [`bind_text_anywhere`](crate::bind_text_anywhere) for a query that may hold bytes from 128 on,
/// such as `SELECT * FROM bücher WHERE t = :a`. The text is read the same on any server, in every
/// `sql_mode`. The literals are the same as there.
///
/// The connection's character set has to be that of the query's own bytes: utf8mb4 for UTF-8. Over
/// another set, such as gbk, a byte from 128 on may take the backquote after it.
///
/// The first of these causes refuses it:
///
/// - `Backslash`: a backslash in a string of the query. A text in `"` is a string too. Elsewhere,
///   such as in an identifier in backquotes or a comment, a backslash stays;
/// - `Unportable`: a construct that
///   [`first_unportable`](mysql_portable::portable::first_unportable) finds;
/// - `Bind`: a cause of [`bind_text`](crate::bind_text), in its order.
///
/// The parameters are consumed, even if the call refuses.
///
/// Out of memory may come in place of any text or cause after `Unportable`, except for a query with
/// names and marks.
// A query has one token list in each mode (`mysql_named_params::laws::one_token_list`), and one
// without a backslash in a string the same in both (`modes_agree`), so the clauses speak of the
// same `ts`.
pub fn bind_text_in_both_modes(
    alloc: Global,
    query: &[u8],
    params: Params,
) -> Result<Vec<u8>, BothModesError>
    ensures bound { (mode : Bool) → OnTokens mode query.now (λ ts. IfOk result (λ text.
        IsPortableInBothModes ts (given params) text.items)) }
    ensures refused { (mode : Bool) → OnTokens mode query.now (λ ts. IfErr result
        (IsBothModesRefusal (first_backslash ts) (first_unportable ts)
        (first_cause ts (given params)))) }
    ensures bound_again { IfOk result (λ text. IsBoundAgainInBothModes text.items) }
    ensures by_position { (mode : Bool) → OnTokens mode query.now (λ ts. IfOk result (λ text.
        IsByPositionInBothModes mode ts (given params) text.items)) }

    // These are refused without allocating.
    ensures backslash { (mode : Bool) → OnTokens mode query.now (λ ts.
        (at : ℕ) → first_backslash ts ≡ Some at → IsErrOf result (BothModesError.Backslash at)) }
    ensures unportable { (mode : Bool) → OnTokens mode query.now (λ ts. first_backslash ts ≡ None →
        (found : unportable.Unportable) → first_unportable ts ≡ Some found →
        IsErrOf result (BothModesError.Unportable found)) }
    ensures mixed { (mode : Bool) → OnTokens mode query.now (λ ts. first_backslash ts ≡ None →
        first_unportable ts ≡ None → HasName ts × HasMark ts →
        IsErrOf result (BothModesError.Bind BindError.Mixed)) }
{
    for_both_modes(bind(alloc, query, &params, IN_BOTH_MODES))
}
