//! Refusals of queries and of what is given to them.
use crate::purposes::{BACKSLASHES, purpose};
use mysql_bind_call::{BindRefusal, ByPosition, Portability, Purpose, QueryRefusal, Scope, bind};
use mysql_binding::BindError;
use mysql_params_core::params::{NamedPairs, Params};
use mysql_portable::portable::{Construct, Unportable};
use mysql_values::value::ValueRef;
use std::alloc::Global;

fn unportable(construct: Construct, at: usize) -> QueryRefusal {
    QueryRefusal::Unportable(Unportable { construct, at })
}

// The refusal of a query that has a mark, if it is refused.
fn refusal(alloc: Global, query: &[u8], purpose: Purpose) -> Option<BindRefusal> {
    bind(alloc, query, &ByPosition(&[ValueRef::UInt(5)]), purpose).err()
}

// A backslash in a string is refused except for one mode.
#[test]
fn backslashes_refused_by_some_scopes(rt: HostRuntime) {
    let query: &[u8] = b"SELECT '\\n', ?";
    let any = Portability::Any;
    let taken = refusal(rt.alloc(), query, purpose(BACKSLASHES, any, false)) == None;
    assert!(rt; taken);
    let either = refusal(rt.alloc(), query, purpose(Scope::EitherMode, any, false));
    let refused = either == Some(BindRefusal::Query(QueryRefusal::Backslash { at: 8 }));
    assert!(rt; refused);
    let all = refusal(rt.alloc(), query, purpose(Scope::AnyConnection, any, true));
    let refused = all == Some(BindRefusal::Query(QueryRefusal::Unsteady { at: 8 }));
    assert!(rt; refused);
}

// `[` is refused for servers, and a word of the client only for clients.
#[test]
fn constructs_refused_by_some_portabilities(rt: HostRuntime) {
    let servers = Portability::Servers;
    let clients = Portability::Clients;
    let bracket = refusal(
        rt.alloc(),
        b"SELECT a[1], ?",
        purpose(BACKSLASHES, servers, true),
    );
    let refused = bracket == Some(BindRefusal::Query(unportable(Construct::Bracket, 8)));
    assert!(rt; refused);
    let query: &[u8] = b"use ?";
    let all = Scope::AnyConnection;
    let taken = refusal(rt.alloc(), query, purpose(all, servers, false)) == None;
    assert!(rt; taken);
    let word = refusal(rt.alloc(), query, purpose(all, clients, false));
    let refused = word == Some(BindRefusal::Query(unportable(Construct::ClientWord, 0)));
    assert!(rt; refused);
    let word = refusal(rt.alloc(), query, purpose(BACKSLASHES, clients, true));
    let refused = word == Some(BindRefusal::Query(unportable(Construct::ClientWord, 0)));
    assert!(rt; refused);
}

// The order of the causes.
#[test]
fn first_causes(rt: HostRuntime) {
    let servers = purpose(BACKSLASHES, Portability::Servers, false);
    let twice = [
        (b"a".as_slice(), ValueRef::UInt(1)),
        (b"a".as_slice(), ValueRef::UInt(2)),
    ];
    // A name given twice comes before a construct, and this before a name and a mark.
    let redefined = bind(rt.alloc(), b"a[1] :a ?", &NamedPairs(&twice), servers)
        == Err(BindRefusal::Redefined { index: 1 });
    assert!(rt; redefined);
    let construct = refusal(rt.alloc(), b"a[1] :a ?", servers)
        == Some(BindRefusal::Query(unportable(Construct::Bracket, 1)));
    assert!(rt; construct);
    let mixed = refusal(rt.alloc(), b"a :a ?", servers)
        == Some(BindRefusal::Values(BindError::Mixed));
    assert!(rt; mixed);
    let count = bind(rt.alloc(), b"a ?", &Params::Empty, servers)
        == Err(BindRefusal::Values(BindError::MarkCount {
            marks: 1,
            values: 0,
        }));
    assert!(rt; count);
}
