//! Queries that are refused for a purpose. Their positions are counted by hand. The constructs are
//! those of RULES.
use crate::shared::same_in;
use mysql_portable::portable::{Construct, Unportable};
use mysql_steady_text::purpose::Portability::{Any, Clients, Servers};
use mysql_steady_text::purpose::Scope::{AnyConnection, EitherMode, OneMode};
use mysql_steady_text::purpose::{Portability, Purpose, QueryRefusal, Scope, query_refusal};

/// A scope, a portability, a query, and its refusal.
type Row = (Scope, Portability, &'static [u8], Option<QueryRefusal>);

const WITH_BACKSLASHES: Scope = OneMode {
    no_backslash_escape: false,
};

const WITHOUT_BACKSLASHES: Scope = OneMode {
    no_backslash_escape: true,
};

/// The refusal for a construct.
const fn unportable(construct: Construct, at: usize) -> Option<QueryRefusal> {
    Some(QueryRefusal::Unportable(Unportable { construct, at }))
}

const ROWS: &[Row] = &[
    // A server in one mode refuses nothing by itself.
    (WITH_BACKSLASHES, Any, b"'\\n', $$a$$, \xC3\xBC", None),
    // The bracket is in the string, unless a backslash is a byte like any other.
    (WITH_BACKSLASHES, Servers, b"'\\', [ '", None),
    (
        WITHOUT_BACKSLASHES,
        Servers,
        b"'\\', [ '",
        Some(QueryRefusal::Unportable(Unportable {
            construct: Construct::Bracket,
            at: 5,
        })),
    ),
    (
        EitherMode,
        Servers,
        b"'\\', [ '",
        Some(QueryRefusal::Backslash { at: 1 }),
    ),
    // A backslash in an identifier is read alike in both modes, but not over each set.
    (EitherMode, Any, b"`\\` [", None),
    (
        EitherMode,
        Servers,
        b"`\\a` [",
        Some(QueryRefusal::Unportable(Unportable {
            construct: Construct::Bracket,
            at: 5,
        })),
    ),
    (
        AnyConnection,
        Servers,
        b"[ `\\`",
        Some(QueryRefusal::Unsteady { at: 3 }),
    ),
    (
        AnyConnection,
        Any,
        b"SELECT \xC3\xBC",
        Some(QueryRefusal::Unsteady { at: 7 }),
    ),
    (AnyConnection, Any, b"SELECT [a]", None),
    (
        AnyConnection,
        Servers,
        b"SELECT [a]",
        Some(QueryRefusal::Unportable(Unportable {
            construct: Construct::Bracket,
            at: 7,
        })),
    ),
    // Only clients have lines of their own.
    (AnyConnection, Servers, b"SELECT 1\ndelimiter x", None),
    (
        AnyConnection,
        Clients,
        b"SELECT 1\ndelimiter x",
        Some(QueryRefusal::Unportable(Unportable {
            construct: Construct::Delimiter,
            at: 9,
        })),
    ),
    (AnyConnection, Clients, b"SELECT :id, ?", None),
];

#[test]
fn the_first_cause_is_told(rt: HostRuntime) {
    for (scope, portability, query, wanted) in ROWS {
        let purpose = Purpose {
            scope: *scope,
            portability: *portability,
            wide_names: false,
        };
        same_in(&rt, query_refusal(*query, purpose), *wanted, query);
    }
}

// The hint is quiet, unless it holds a place.
#[test]
fn a_name_with_capitals_is_a_place_by_wide_names(rt: HostRuntime) {
    let query = b"SELECT /*+ SET_VAR(x=:ID) */ 1";
    let by_grammar = Purpose {
        scope: AnyConnection,
        portability: Servers,
        wide_names: false,
    };
    same_in(&rt, query_refusal(query, by_grammar), None, &query);
    let by_wide_names = Purpose {
        scope: AnyConnection,
        portability: Servers,
        wide_names: true,
    };
    let wanted = unportable(Construct::Hint, 7);
    same_in(&rt, query_refusal(query, by_wide_names), wanted, &query);
}
