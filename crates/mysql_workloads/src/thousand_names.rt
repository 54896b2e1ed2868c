//! A query of a thousand names, each another, bound again and again. The parameters are copied for
//! each call, which takes them.
use crate::digest::Digest;
use crate::first_turn::take_bytes;
use crate::pools::Pools;
use crate::random::Random;
use mysql_params::bind_text;
use mysql_params::params::Params;
use mysql_values::value::Value;
use std::alloc::{AllocError, Global};

// The number of names.
const NAMES: usize = 1000;

/// Binds the query so many times.
pub fn run(
    alloc: Global,
    random: &mut Random,
    pools: &Pools,
    turns: usize,
    digest: &mut Digest,
) -> Result<(), AllocError> {
    let mut query = Vec::with_capacity(alloc, 32 * NAMES)?;
    let mut pairs: Vec<(Vec<u8>, Value)> = Vec::with_capacity(alloc, NAMES)?;
    query.extend_from_slice(b"INSERT INTO readings (sensor, reading) VALUES ")?;
    for place in 0..NAMES {
        let name = name(alloc, random, pools, place)?;
        query.extend_from_slice(if place == 0 { b"(:" } else { b", (:" })?;
        query.extend_from_slice(&name)?;
        query.extend_from_slice(b", 1)")?;
        pairs.push((name, value(alloc, random, pools)?))?;
    }
    match Params::from_pairs(alloc, pairs.as_slice()) {
        Ok(params) => bind_again(alloc, &query, &params, turns, digest),
        Err(_) => {
            digest.number(1);
            Ok(())
        }
    }
}

// Binds a query so many times to the same parameters.
fn bind_again(
    alloc: Global,
    query: &[u8],
    params: &Params,
    turns: usize,
    digest: &mut Digest,
) -> Result<(), AllocError> {
    for turn in 0..turns {
        let params = params.clone()?;
        match bind_text(alloc, query, params) {
            Ok(text) => take_bytes(digest, turn, text.as_slice()),
            Err(_) => digest.number(2),
        }
    }
    Ok(())
}

// The name of a place: some letters, and three of its number.
fn name(
    alloc: Global,
    random: &mut Random,
    pools: &Pools,
    place: usize,
) -> Result<Vec<u8>, AllocError> {
    let mut name = Vec::with_capacity(alloc, 16)?;
    name.extend_from_slice(pools.letters(random, 3, 12))?;
    for shift in [8u32, 4, 0] {
        name.push(b'a' + ((place >> shift) & 15) as u8)?;
    }
    Ok(name)
}

// The value of a name: mostly a number, and each fourth time a short text.
fn value(alloc: Global, random: &mut Random, pools: &Pools) -> Result<Value, AllocError> {
    if random.one_in(4) {
        let bytes = Vec::from_slice(alloc, pools.text(random, 5, 20))?;
        return Ok(Value::Bytes(bytes.into()));
    }
    Ok(Value::Int(random.positive()))
}
