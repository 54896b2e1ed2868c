//! Awkward inputs: texts of which every second byte is escaped, bytes that are UTF-8 up to their
//! last, very many places, comments full of quotes, and long names.
use crate::digest::Digest;
use crate::pools::Pools;
use crate::random::Random;
use mysql_params::params::{Params, ToPairs};
use mysql_params::{bind_text, bind_text_anywhere, first_unportable};
use mysql_values::value::Value;
use std::alloc::{AllocError, Global};

// The number of places of a query with very many.
const PLACES: usize = 20_000;

/// Binds so many queries of each kind.
pub fn run(
    alloc: Global,
    random: &mut Random,
    pools: &Pools,
    turns: usize,
    digest: &mut Digest,
) -> Result<(), AllocError> {
    for _ in 0..turns {
        for _ in 0..20 {
            take_texts(alloc, random, pools, digest)?;
        }
        take_many_names(alloc, random, pools, digest)?;
        take_many_marks(alloc, random, digest)?;
        take_quoted_comments(alloc, random, pools, digest)?;
    }
    Ok(())
}

// Takes in the bound text of a query, or that it is refused.
fn take_bound(alloc: Global, query: &[u8], params: Params, digest: &mut Digest) {
    match bind_text(alloc, query, params) {
        Ok(text) => digest.bytes(text.as_slice()),
        Err(_) => digest.number(1),
    }
}

// Binds a text with very many escapes, and bytes that aren't UTF-8 at their end.
fn take_texts(
    alloc: Global,
    random: &mut Random,
    pools: &Pools,
    digest: &mut Digest,
) -> Result<(), AllocError> {
    let text = escapes(alloc, random, 16_000)?;
    let mut blob = Vec::with_capacity(alloc, 32_000)?;
    for _ in 0..5 {
        blob.extend_from_slice(pools.text(random, 2_000, 5_000))?;
    }
    blob.push(0xFF)?;
    match (("text", text.as_slice()), ("blob", blob.as_slice())).to_named(alloc) {
        Ok(params) => {
            let query = b"INSERT INTO odd (a, b, c) VALUES (:text, :blob, :text)";
            match random.below(2) {
                0 => take_bound(alloc, query, params, digest),
                _ => match bind_text_anywhere(alloc, query, params) {
                    Ok(bound) => digest.bytes(bound.as_slice()),
                    Err(_) => digest.number(2),
                },
            }
        }
        Err(_) => digest.number(3),
    }
    Ok(())
}

// A text of which every second byte is escaped.
fn escapes(alloc: Global, random: &mut Random, pairs: usize) -> Result<Vec<u8>, AllocError> {
    let mut text = Vec::with_capacity(alloc, 16_384)?;
    for _ in 0..pairs / 8 {
        let bits = random.next();
        for pair in 0..8u32 {
            let pick = (bits >> (8 * pair)) & 3;
            let escaped = match pick {
                0 => b'\'',
                1 => b'\\',
                2 => b'"',
                _ => b'\n',
            };
            text.extend_from_slice(&[escaped, b'a' + ((bits >> (8 * pair)) & 15) as u8])?;
        }
    }
    Ok(text)
}

// Binds a query of very many names, half of which stand twice and more, some of them long.
fn take_many_names(
    alloc: Global,
    random: &mut Random,
    pools: &Pools,
    digest: &mut Digest,
) -> Result<(), AllocError> {
    let mut query = Vec::with_capacity(alloc, 64 * PLACES)?;
    let mut pairs: Vec<(Vec<u8>, Value)> = Vec::with_capacity(alloc, PLACES)?;
    for place in 0..PLACES / 2 {
        let mut name = Vec::with_capacity(alloc, 64)?;
        name.push(b'n')?;
        for shift in [12u32, 8, 4, 0] {
            name.push(b'a' + ((place >> shift) & 15) as u8)?;
        }
        let most = if random.one_in(50) { 2_000 } else { 24 };
        name.extend_from_slice(pools.letters(random, 1, most))?;
        query.extend_from_slice(b"(:")?;
        query.extend_from_slice(name.as_slice())?;
        query.extend_from_slice(b", :")?;
        match pairs.get(random.below(place)) {
            Some(pair) => query.extend_from_slice(pair.0.as_slice())?,
            None => query.extend_from_slice(name.as_slice())?,
        }
        query.extend_from_slice(b"), ")?;
        pairs.push((name, Value::Int(random.positive())))?;
    }
    match Params::from_pairs(alloc, pairs.as_slice()) {
        Ok(params) => take_bound(alloc, &query, params, digest),
        Err(_) => digest.number(4),
    }
    Ok(())
}

// Binds a query of very many marks with nothing between them but a space.
fn take_many_marks(
    alloc: Global,
    random: &mut Random,
    digest: &mut Digest,
) -> Result<(), AllocError> {
    let count = PLACES + random.below(PLACES);
    let mut query = Vec::with_capacity(alloc, 4 * PLACES)?;
    let mut values = Vec::with_capacity(alloc, count)?;
    for _ in 0..count {
        query.extend_from_slice(b"? ")?;
        values.push(Value::Int(random.positive()))?;
    }
    take_bound(alloc, &query, Params::Positional(values), digest);
    Ok(())
}

// Asks a query whose comments are full of quotes and places for its first construct, and binds it.
fn take_quoted_comments(
    alloc: Global,
    random: &mut Random,
    pools: &Pools,
    digest: &mut Digest,
) -> Result<(), AllocError> {
    let mut query = Vec::with_capacity(alloc, 200_000)?;
    query.extend_from_slice(b"SELECT :a")?;
    for _ in 0..1_000 {
        query.extend_from_slice(b" /* it's \"so\" `and` :b ? ")?;
        query.extend_from_slice(pools.letters(random, 1, 60))?;
        query.extend_from_slice(b" ' */ + 1 # don't ? :c \"\n- 2 -- `x ")?;
        query.extend_from_slice(pools.letters(random, 1, 60))?;
        query.extend_from_slice(b"\n")?;
    }
    match first_unportable(&query, false) {
        Some(found) => digest.number(found.at as u64),
        None => digest.number(5),
    }
    match (("a", random.positive()),).to_named(alloc) {
        Ok(params) => take_bound(alloc, &query, params, digest),
        Err(_) => digest.number(6),
    }
    Ok(())
}
