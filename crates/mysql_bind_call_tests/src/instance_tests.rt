//! Each instance once. The wanted texts are written by the rules of the MySQL Reference Manual,
//! "String Literals" and "Character Set Introducers".
use mysql_bind_call::{
    bind_fragments, bind_fragments_anywhere, bind_fragments_in, bind_fragments_in_any_mode,
    bind_pairs, bind_pairs_anywhere, bind_pairs_in_any_mode, bind_pairs_in_both_modes, bind_text,
    bind_text_anywhere, bind_text_in, bind_text_in_any_mode, bind_text_in_both_modes, bind_values,
    bind_values_anywhere, bind_values_in_any_mode, bind_values_in_both_modes,
};
use mysql_fragments::{Fragment, Fragments};
use mysql_params_core::params::Params;
use mysql_values::bytes::Bytes;
use mysql_values::value::{Value, ValueRef};
use std::alloc::{AllocError, Global};

const QUERY: &[u8] = b"SELECT ?";

const PLAIN: &[u8] = b"SELECT '\\\\'";

const RAW: &[u8] = b"SELECT '\\'";

const STEADY: &[u8] = b"SELECT _utf8mb4 0x5C";

// One backslash.
fn backslash(alloc: Global) -> Result<Value, AllocError> {
    Ok(Value::Bytes(Bytes::from(Vec::from_slice(alloc, b"\\")?)))
}

fn params(alloc: Global) -> Result<Params, AllocError> {
    let mut values = Vec::new(alloc);
    values.push(backslash(alloc)?)?;
    Ok(Params::Positional(values))
}

fn fragments(alloc: Global) -> Result<Fragments, AllocError> {
    let mut list = Vec::new(alloc);
    list.push(Fragment::Value(backslash(alloc)?))?;
    Ok(Fragments::Positional(list))
}

#[test]
fn texts_of_parameters(rt: HostRuntime) {
    let alloc = rt.alloc();
    let given = params(alloc).expect(&rt, "parameters");
    let text = bind_text(alloc, QUERY, given).expect(&rt, "a text");
    assert_eq!(rt; text.as_slice(), PLAIN);
    let given = params(alloc).expect(&rt, "parameters");
    let text = bind_text_in(alloc, QUERY, given, true).expect(&rt, "a text");
    assert_eq!(rt; text.as_slice(), RAW);
    let given = params(alloc).expect(&rt, "parameters");
    let text = bind_text_anywhere(alloc, QUERY, given).expect(&rt, "a text");
    assert_eq!(rt; text.as_slice(), STEADY);
}

#[test]
fn texts_of_parameters_for_one_server_and_for_both_modes(rt: HostRuntime) {
    let alloc = rt.alloc();
    let given = params(alloc).expect(&rt, "parameters");
    let text = bind_text_in_any_mode(alloc, QUERY, given).expect(&rt, "a text");
    assert_eq!(rt; text.as_slice(), STEADY);
    let given = params(alloc).expect(&rt, "parameters");
    let text = bind_text_in_both_modes(alloc, QUERY, given).expect(&rt, "a text");
    assert_eq!(rt; text.as_slice(), STEADY);
}

#[test]
fn texts_of_pairs(rt: HostRuntime) {
    let alloc = rt.alloc();
    let query = b"SELECT :a";
    let pairs = [(b"a".as_slice(), ValueRef::Bytes(b"\\"))];
    let text = bind_pairs(alloc, query, &pairs, false).expect(&rt, "a text");
    assert_eq!(rt; text.as_slice(), PLAIN);
    let text = bind_pairs_anywhere(alloc, query, &pairs).expect(&rt, "a text");
    assert_eq!(rt; text.as_slice(), STEADY);
    let text = bind_pairs_in_any_mode(alloc, query, &pairs).expect(&rt, "a text");
    assert_eq!(rt; text.as_slice(), STEADY);
    let text = bind_pairs_in_both_modes(alloc, query, &pairs).expect(&rt, "a text");
    assert_eq!(rt; text.as_slice(), STEADY);
}

#[test]
fn texts_of_values(rt: HostRuntime) {
    let alloc = rt.alloc();
    let values = [ValueRef::Bytes(b"\\")];
    let text = bind_values(alloc, QUERY, &values, true).expect(&rt, "a text");
    assert_eq!(rt; text.as_slice(), RAW);
    let text = bind_values_anywhere(alloc, QUERY, &values).expect(&rt, "a text");
    assert_eq!(rt; text.as_slice(), STEADY);
    let text = bind_values_in_any_mode(alloc, QUERY, &values).expect(&rt, "a text");
    assert_eq!(rt; text.as_slice(), STEADY);
    let text = bind_values_in_both_modes(alloc, QUERY, &values).expect(&rt, "a text");
    assert_eq!(rt; text.as_slice(), STEADY);
}

#[test]
fn texts_of_fragments(rt: HostRuntime) {
    let alloc = rt.alloc();
    let list = fragments(alloc).expect(&rt, "fragments");
    let text = bind_fragments(alloc, QUERY, &list).expect(&rt, "a text");
    assert_eq!(rt; text.as_slice(), PLAIN);
    let text = bind_fragments_in(alloc, QUERY, &list, true).expect(&rt, "a text");
    assert_eq!(rt; text.as_slice(), RAW);
    let text = bind_fragments_anywhere(alloc, QUERY, &list).expect(&rt, "a text");
    assert_eq!(rt; text.as_slice(), STEADY);
    let text = bind_fragments_in_any_mode(alloc, QUERY, &list).expect(&rt, "a text");
    assert_eq!(rt; text.as_slice(), STEADY);
}
