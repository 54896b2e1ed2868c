//! A parsed query bound again: one of twelve names, four of them twice, and one of twelve marks.
//! The parameters are copied for each call, which takes them.
use crate::digest::Digest;
use crate::first_turn::take_bytes;
use crate::pools::Pools;
use crate::random::Random;
use mysql_params::ParsedQuery;
use mysql_params::params::{Params, ToPairs, ToParams, ToParamsError};
use std::alloc::{AllocError, Global};

const BY_NAME: &[u8] = b"SELECT o.id, o.name, COUNT(*) AS n\n\
    FROM orders o LEFT JOIN customers c ON c.id = o.customer\n\
    WHERE o.day BETWEEN :first AND :last\n  AND (o.cents >= :low OR o.tax >= :low)\n\
      AND o.cents < :high AND c.region = :region\n\
      AND o.kind IN (:kind_1, :kind_2, :kind_3, 'open', 'late')\n\
      AND (c.id = :customer OR c.parent = :customer) AND o.paid = :is_paid\n\
    GROUP BY o.id -- rows without a region come first\n\
    HAVING MIN(o.day) >= :first AND MAX(o.day) <= :last\nLIMIT :most OFFSET :skipped";

const BY_POSITION: &[u8] = b"INSERT INTO orders (id, customer, name, note, cents, tax, kind, \
    region, day, paid, place, weight) VALUES (?, ?, ?, ?, ?, ?, ?, ?, ?, ?, ?, ?)";

// The number of parameters for each query.
const KINDS: usize = 8;

/// Binds each query so many times to each of its parameters.
pub fn run(
    alloc: Global,
    random: &mut Random,
    pools: &Pools,
    turns: usize,
    digest: &mut Digest,
) -> Result<(), AllocError> {
    let by_name = ParsedQuery::parse(alloc, BY_NAME)?;
    let by_position = ParsedQuery::parse(alloc, BY_POSITION)?;
    let mut named = Vec::with_capacity(alloc, KINDS)?;
    let mut positional = Vec::with_capacity(alloc, KINDS)?;
    for _ in 0..KINDS {
        match named_params(alloc, random, pools) {
            Ok(params) => named.push(params)?,
            Err(_) => digest.number(1),
        }
        match positional_params(alloc, random, pools) {
            Ok(params) => positional.push(params)?,
            Err(_) => digest.number(2),
        }
    }
    for turn in 0..turns {
        bind_each(alloc, &by_name, &named, turn, digest)?;
        bind_each(alloc, &by_position, &positional, turn, digest)?;
    }
    Ok(())
}

// Binds a query once to each of these parameters.
fn bind_each(
    alloc: Global,
    query: &ParsedQuery<'_>,
    list: &[Params],
    turn: usize,
    digest: &mut Digest,
) -> Result<(), AllocError> {
    for params in list {
        let params = params.clone()?;
        match query.bind(alloc, params) {
            Ok(text) => take_bytes(digest, turn, text.as_slice()),
            Err(_) => digest.number(3),
        }
    }
    Ok(())
}

// Parameters for twelve names.
fn named_params(
    alloc: Global,
    random: &mut Random,
    pools: &Pools,
) -> Result<Params, ToParamsError> {
    (
        ("first", pools.plain(random, 10, 10)),
        ("last", pools.plain(random, 10, 10)),
        ("low", random.below(1000) as u64),
        ("high", random.below(1_000_000) as u64),
        ("region", pools.text(random, 5, 20)),
        ("kind_1", "new"),
        ("kind_2", "sent"),
        ("kind_3", pools.plain(random, 4, 8)),
        ("customer", random.positive()),
        ("is_paid", random.one_in(2)),
        ("most", random.below(500) as u64),
        ("skipped", random.below(5000) as u64),
    )
        .to_named(alloc)
}

// Parameters for twelve marks.
fn positional_params(
    alloc: Global,
    random: &mut Random,
    pools: &Pools,
) -> Result<Params, ToParamsError> {
    let note = pools.text(random, 20, 200);
    let note = if random.one_in(4) { None } else { Some(note) };
    (
        random.positive(),
        random.below(1_000_000) as u64,
        pools.text(random, 5, 40),
        note,
        random.below(10_000_000) as u64,
        random.below(1_000_000) as u64,
        "sent",
        pools.text(random, 5, 20),
        pools.plain(random, 10, 10),
        random.one_in(2),
        pools.plain(random, 5, 20),
        random.positive(),
    )
        .to_params(alloc)
}
