//! Queries with the guarded literals of values in the places of names and marks.
ghost use Rattle.std.specs.Prelude.{◌≡◌, ℕ, Bool, None, Some, IfErr, IfOk, IsErrOf};
ghost use Rattle.mysql_named_params.specs.Tokens.{OnTokens};
ghost use Rattle.mysql_named_params.specs.Places.{HasName, HasMark};
ghost use Rattle.mysql_portable.specs.Steady.{first_unsteady, IsSteady};
ghost use Rattle.mysql_params_core.specs.Given.{given};
ghost use Rattle.mysql_params_core.specs.GivenBorrowed.{given_by_borrowed};
ghost use Rattle.mysql_binding.specs.BoundAgain.{IsSameBoundAgain};
ghost use Rattle.mysql_binding.specs.FirstCause.{first_cause};
ghost use Rattle.mysql_steady_text.specs.SteadyTextErrors.{IsBindRefusal, IsSteadyRefusal};
ghost use Rattle.mysql_steady_text.specs.GuardedAgain.{IsGuardedByPosition};
ghost use Rattle.mysql_steady_text.specs.GuardedText.{IsGuardedText};

use crate::guarded_literal::GuardedForm;
use crate::steady_text_error::SteadyTextError;
use mysql_binding::{BindError, bind_borrowed_as};
use mysql_named_params::places::Reading;
use mysql_params_core::params::{BorrowedParams, Params};
use mysql_portable::steady::first_unsteady;
use std::alloc::Global;

/// The query with the guarded literal of a value in the place of each name and mark, for a
/// connection that is taken to be in this mode over utf8mb4. In each mode, and over each character
/// set of a client, no value leaves its literal.
///
/// - Text is written as `'it''s'`, without an introducer, so it has the connection's collation.
/// - With backslash escapes each backslash is doubled: `'C:\\dir'`. One directly after a byte from
///   128 on begins a second string, `'é' '\\'`, which a server joins to the first.
/// - Without backslash escapes a text with a backslash is written as `_utf8mb4 0x5C`.
/// - Bytes that aren't UTF-8 are written as `0xFF`.
/// - Numbers, `NULL`, dates and times are written as `bind_text` writes them.
///
/// The mode decides only what a text with a backslash says: in the other mode it may have each
/// backslash doubled. The character set decides what a text with a byte from 128 on says.
///
/// After `SHOW .. LIKE`, `SEPARATOR` and the like a server takes one string only, and neither two
/// strings nor hexadecimal digits.
///
/// It refuses as `bind_text_in_any_mode`.
// A query has one token list in each mode (`mysql_named_params::laws::one_token_list`), and a
// steady one the same in both (`steady_texts`), so the clauses speak of the same `ts`.
pub fn bind_text_guarded(
    alloc: Global,
    query: &[u8],
    params: Params,
    no_backslash_escape: bool,
) -> Result<Vec<u8>, SteadyTextError>
    ensures bound { (mode : Bool) → OnTokens mode query.now (λ ts. IfOk result (λ text.
        IsGuardedText no_backslash_escape ts (given params) text.items)) }
    ensures refused { (mode : Bool) → OnTokens mode query.now (λ ts. IfErr result
        (IsSteadyRefusal query.now None (first_cause ts (given params)))) }
    ensures bound_again { IfOk result (λ text. (mode : Bool) → IsSameBoundAgain mode text.items) }
    ensures by_position { (mode : Bool) → OnTokens mode query.now (λ ts. IfOk result (λ text.
        IsGuardedByPosition mode no_backslash_escape ts (given params) text.items)) }

    // These are refused without allocating.
    ensures unsteady { (at : ℕ) → first_unsteady query.now ≡ Some at →
        IsErrOf result (SteadyTextError.Unsteady at) }
    ensures mixed { (mode : Bool) → OnTokens mode query.now (λ ts. IsSteady query.now →
        HasName ts × HasMark ts → IsErrOf result (SteadyTextError.Bind BindError.Mixed)) }
{
    bind_borrowed_guarded(alloc, query, params.borrowed(), no_backslash_escape)
}

/// [`bind_text_guarded`] with borrowed parameters.
pub(crate) fn bind_borrowed_guarded(
    alloc: Global,
    query: &[u8],
    params: BorrowedParams<'_, '_>,
    no_backslash_escape: bool,
) -> Result<Vec<u8>, SteadyTextError>
    ensures bound { (mode : Bool) → OnTokens mode query.now (λ ts. IfOk result (λ text.
        IsGuardedText no_backslash_escape ts (given_by_borrowed params.entry) text.items)) }
    ensures refused { (mode : Bool) → OnTokens mode query.now (λ ts. IfErr result
        (IsSteadyRefusal query.now None (first_cause ts (given_by_borrowed params.entry)))) }
    ensures bound_again { IfOk result (λ text. (mode : Bool) → IsSameBoundAgain mode text.items) }
    ensures by_position { (mode : Bool) → OnTokens mode query.now (λ ts. IfOk result (λ text.
        IsGuardedByPosition mode no_backslash_escape ts (given_by_borrowed params.entry)
        text.items)) }
    ensures unsteady { (at : ℕ) → first_unsteady query.now ≡ Some at →
        IsErrOf result (SteadyTextError.Unsteady at) }
    ensures mixed { (mode : Bool) → OnTokens mode query.now (λ ts. IsSteady query.now →
        HasName ts × HasMark ts → IsErrOf result (SteadyTextError.Bind BindError.Mixed)) }
{
    match first_unsteady(query) {
        Some(at) => Err(SteadyTextError::Unsteady { at }),
        None => bind_guarded(alloc, query, params, no_backslash_escape),
    }
}

/// The text of a steady query, which has the same tokens in both modes. Its only errors are `Bind`.
pub(crate) fn bind_guarded(
    alloc: Global,
    query: &[u8],
    params: BorrowedParams<'_, '_>,
    no_backslash_escape: bool,
) -> Result<Vec<u8>, SteadyTextError>
    requires { IsSteady query.now }
    ensures bound { (mode : Bool) → OnTokens mode query.now (λ ts. IfOk result (λ text.
        IsGuardedText no_backslash_escape ts (given_by_borrowed params.entry) text.items)) }
    ensures refused { (mode : Bool) → OnTokens mode query.now (λ ts. IfErr result
        (IsBindRefusal (first_cause ts (given_by_borrowed params.entry)))) }
    ensures mixed { (mode : Bool) → OnTokens mode query.now (λ ts. HasName ts × HasMark ts →
        IsErrOf result (SteadyTextError.Bind BindError.Mixed)) }
{
    let reading = Reading {
        no_backslash_escape: false,
        wide_names: false,
    };
    let form = GuardedForm {
        no_backslash_escape,
    };
    Ok(bind_borrowed_as(alloc, query, params, reading, &form)?)
}
