//! Queries as programs send them, with comments and strings, tested again and again for their first
//! construct that isn't portable, or that a client reads in another way.
use crate::digest::Digest;
use crate::pools::Pools;
use crate::random::Random;
use crate::requests::{put_comment, put_find, put_report, put_search, put_update};
use mysql_params::{Unportable, first_unportable, first_unportable_in_client};
use std::alloc::{AllocError, Global};

// The number of queries.
const QUERIES: usize = 64;

/// Tests each query so many times for a construct that isn't portable.
pub fn run_portable(
    alloc: Global,
    random: &mut Random,
    pools: &Pools,
    turns: usize,
    digest: &mut Digest,
) -> Result<(), AllocError> {
    let queries = queries(alloc, random, pools)?;
    for _ in 0..turns {
        for query in queries.iter() {
            take_construct(first_unportable(query, false), digest);
        }
    }
    Ok(())
}

/// Tests each query so many times for a construct that a client reads in another way.
pub fn run_client(
    alloc: Global,
    random: &mut Random,
    pools: &Pools,
    turns: usize,
    digest: &mut Digest,
) -> Result<(), AllocError> {
    let queries = queries(alloc, random, pools)?;
    for _ in 0..turns {
        for query in queries.iter() {
            take_construct(first_unportable_in_client(query, false), digest);
        }
    }
    Ok(())
}

// Takes in where a construct stands.
fn take_construct(found: Option<Unportable>, digest: &mut Digest) {
    match found {
        Some(found) => digest.number(found.at as u64),
        None => digest.number(1),
    }
}

// Queries of four kinds in turn. Every eighth one ends with a construct that isn't portable, and
// every eighth one with a comment that a client ends in another place.
fn queries(alloc: Global, random: &mut Random, pools: &Pools) -> Result<Vec<Vec<u8>>, AllocError> {
    let mut queries = Vec::with_capacity(alloc, QUERIES)?;
    for place in 0..QUERIES {
        let mut query = Vec::with_capacity(alloc, 2048)?;
        put_comment(&mut query, random, pools)?;
        match place % 4 {
            0 => put_find(random, pools, &mut query)?,
            1 => put_search(random, pools, &mut query)?,
            2 => put_update(random, pools, &mut query)?,
            _ => put_report(random, pools, &mut query)?,
        }
        match place % 8 {
            3 => query.extend_from_slice(b" /* as with /*+ above */")?,
            7 => query.extend_from_slice(b" /*!50001 + :late */")?,
            _ => {}
        }
        queries.push(query)?;
    }
    Ok(queries)
}
