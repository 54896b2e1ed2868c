//! For whom the text of a query is, and why a query has no such text with any parameters.
ghost use Rattle.std.specs.Prelude.{◌≡◌, Bool, None, IsTrue, true};
ghost use Rattle.mysql_named_params.specs.Reading.{OnTokensIn, reading_with};
ghost use Rattle.mysql_named_params.specs.Tokens.{OnTokens};
ghost use Rattle.mysql_portable.specs.Steady.{IsSteady};
ghost use Rattle.mysql_steady_text.specs.Purposes.{first_construct, mode_in, query_refusal, reading_for, scope_refusal};

use crate::first_backslash::first_backslash;
use mysql_named_params::places::Reading;
use mysql_portable::clear::{is_clear, is_clear_in_client};
use mysql_portable::portable::Unportable;
use mysql_portable::steady::first_unsteady;
use mysql_portable::wide::{first_unportable_in, first_unportable_in_client_in};
use thiserror::Error;

/// The connections in which a text is read the same.
#[derive(Debug, Clone, Copy, PartialEq, Eq)]
pub enum Scope {
    /// Those in one mode, over the character set of the query.
    OneMode {
        /// Whether their `sql_mode` has `NO_BACKSLASH_ESCAPES`.
        no_backslash_escape: bool,
    },
    /// Those in either mode, over the character set of the query.
    EitherMode,
    /// All: those in either mode, over any character set.
    AnyConnection,
}

/// The programs that read a text the same.
#[derive(Debug, Clone, Copy, PartialEq, Eq)]
pub enum Portability {
    /// One server, so no query is refused for what it holds.
    Any,
    /// All servers.
    Servers,
    /// All servers, and the clients `mysql` and `mariadb`.
    Clients,
}

/// For whom the text of a query is, and the names by which the query is read.
#[derive(Debug, Clone, Copy, PartialEq, Eq)]
pub struct Purpose {
    /// The connections in which the text is read the same.
    pub scope: Scope,
    /// The programs that read it the same.
    pub portability: Portability,
    /// Whether the query is read by wide names
    /// ([`Reading`](mysql_named_params::places::Reading)), or by those of the grammar. By wide
    /// names, portability is asked of the query with its names in lower case.
    pub wide_names: bool,
}

/// For any connection to any server.
pub const ANYWHERE: Purpose = Purpose {
    scope: Scope::AnyConnection,
    portability: Portability::Servers,
    wide_names: false,
};

/// The same by wide names.
pub const WIDE_ANYWHERE: Purpose = Purpose {
    scope: Scope::AnyConnection,
    portability: Portability::Servers,
    wide_names: true,
};

/// For connections in either mode to any server.
pub const IN_BOTH_MODES: Purpose = Purpose {
    scope: Scope::EitherMode,
    portability: Portability::Servers,
    wide_names: false,
};

/// The same by wide names.
pub const WIDE_IN_BOTH_MODES: Purpose = Purpose {
    scope: Scope::EitherMode,
    portability: Portability::Servers,
    wide_names: true,
};

/// Why a query has no text for a purpose with any parameters: the first cause, in this order.
#[derive(Debug, Clone, Copy, PartialEq, Eq, Error)]
pub enum QueryRefusal {
    /// The query has a backslash or a byte from 128 on, also in a comment; the first is reported.
    /// Only [`Scope::AnyConnection`] refuses it.
    #[error("Backslash or byte that is not ASCII at byte {at} of the query")]
    Unsteady {
        /// Its index in the query.
        at: usize,
    },
    /// A string of the query holds a backslash; the first is reported. A text in `"` is a string
    /// too. Only [`Scope::EitherMode`] refuses it.
    #[error("Backslash in a string at byte {at} of the query")]
    Backslash {
        /// Its index in the query.
        at: usize,
    },
    /// The query has a construct that some servers or clients read in their own ways; the first is
    /// reported.
    #[error("Not portable at byte {} of the query: {}", .0.at, .0.construct)]
    Unportable(Unportable),
}

/// The refusal of a query for a purpose, if it is refused with any parameters. It allocates
/// nothing.
///
/// For example, [`Scope::EitherMode`] refuses `SELECT '\n'` at byte 8, and
/// [`Portability::Servers`] refuses `SELECT $$a$$` at byte 7. With [`Portability::Any`], a query of
/// ASCII without a backslash is never refused.
///
/// Most queries pass in one quick walk. If a byte is in doubt there, two more walks find the cause,
/// or that there is none.
// A query has one token list in each mode (`mysql_named_params::laws::one_token_list`). If it isn't
// refused in `EitherMode` or for `AnyConnection`, the list is the same in both
// (`mysql_portable::laws::modes_agree`).
pub fn query_refusal(query: &[u8], purpose: Purpose) -> Option<QueryRefusal>
    ensures { (mode : Bool) → OnTokensIn (reading_for purpose mode) query.now (λ ts.
        result ≡ query_refusal purpose query.now ts) }
{
    if is_clear_for(query, purpose.portability) {
        return None;
    }
    if let Some(refusal) = scope_refusal(query, purpose.scope) {
        return Some(refusal);
    }
    let reading = Reading {
        no_backslash_escape: mode_of(purpose.scope),
        wide_names: purpose.wide_names,
    };
    match first_construct(query, reading, purpose.portability) {
        Some(found) => Some(QueryRefusal::Unportable(found)),
        None => None,
    }
}

// Whether one quick walk finds that the query is steady, and portable as far as it has to be. Where
// it needn't be portable, the walk is left out: the next one is as quick.
fn is_clear_for(query: &[u8], portability: Portability) -> bool
    ensures steady { IsTrue result → IsSteady query.now }
    ensures portable { IsTrue result → (wide mode : Bool) →
        OnTokensIn (reading_with wide mode) query.now (λ ts.
        None ≡ first_construct portability ts) }
{
    match portability {
        Portability::Any => false,
        Portability::Servers => is_clear(query),
        Portability::Clients => is_clear_in_client(query),
    }
}

// The refusal of a query that some of the connections read in their own ways.
fn scope_refusal(query: &[u8], scope: Scope) -> Option<QueryRefusal>
    ensures { (mode : Bool) → OnTokens mode query.now (λ ts.
        result ≡ scope_refusal scope query.now ts) }
{
    match scope {
        Scope::OneMode { .. } => None,
        Scope::EitherMode => match first_backslash(query) {
            Some(at) => Some(QueryRefusal::Backslash { at }),
            None => None,
        },
        Scope::AnyConnection => match first_unsteady(query) {
            Some(at) => Some(QueryRefusal::Unsteady { at }),
            None => None,
        },
    }
}

// The mode in which a query is read that both modes read alike, if both have to.
fn mode_of(scope: Scope) -> bool
    ensures { result ≡ mode_in scope true }
{
    match scope {
        Scope::OneMode {
            no_backslash_escape,
        } => no_backslash_escape,
        Scope::EitherMode | Scope::AnyConnection => true,
    }
}

// The first construct that some of the programs read in their own ways.
fn first_construct(query: &[u8], reading: Reading, portability: Portability) -> Option<Unportable>
    ensures { OnTokensIn reading query.now (λ ts. result ≡ first_construct portability ts) }
{
    match portability {
        Portability::Any => None,
        Portability::Servers => first_unportable_in(query, reading),
        Portability::Clients => first_unportable_in_client_in(query, reading),
    }
}
