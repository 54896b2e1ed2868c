//! Requests: short queries, each another text, each bound once with parameters that are made for
//! the call, every other one as steady text.
use crate::digest::Digest;
use crate::pools::Pools;
use crate::random::Random;
use mysql_params::params::{Params, ToPairs, ToParamsError};
use mysql_params::{bind_text, bind_text_anywhere};
use std::alloc::{AllocError, Global};

/// Binds so many hundred queries.
pub fn run(
    alloc: Global,
    random: &mut Random,
    pools: &Pools,
    hundreds: usize,
    digest: &mut Digest,
) -> Result<(), AllocError> {
    let mut query = Vec::with_capacity(alloc, 4096)?;
    for hundred in 0..hundreds {
        for turn in 0..100usize {
            query.clear();
            put_comment(&mut query, random, pools)?;
            let params = match random.below(4) {
                0 => find(alloc, random, pools, &mut query)?,
                1 => search(alloc, random, pools, &mut query)?,
                2 => update(alloc, random, pools, &mut query)?,
                _ => report(alloc, random, pools, &mut query)?,
            };
            take_bound(alloc, &query, params, (hundred ^ turn) % 2 == 0, digest);
        }
    }
    Ok(())
}

// Binds a query in one of two ways, and takes in its text.
fn take_bound(
    alloc: Global,
    query: &[u8],
    params: Result<Params, ToParamsError>,
    anywhere: bool,
    digest: &mut Digest,
) {
    let Ok(params) = params else {
        return digest.number(1);
    };
    if anywhere {
        match bind_text_anywhere(alloc, query, params) {
            Ok(text) => digest.bytes(text.as_slice()),
            Err(_) => digest.number(2),
        }
    } else {
        match bind_text(alloc, query, params) {
            Ok(text) => digest.bytes(text.as_slice()),
            Err(_) => digest.number(3),
        }
    }
}

/// Begins half of the queries with the comment of a tracer, and a sixth with one of a line.
#[inline(always)]
pub(crate) fn put_comment(
    query: &mut Vec<u8>,
    random: &mut Random,
    pools: &Pools,
) -> Result<(), AllocError> {
    match random.below(6) {
        0 => {
            query.extend_from_slice(b"-- ")?;
            query.extend_from_slice(pools.plain(random, 10, 60))?;
            query.extend_from_slice(b"\n")
        }
        1 => Ok(()),
        2 => Ok(()),
        _ => {
            query.extend_from_slice(b"/* trace=")?;
            query.extend_from_slice(pools.digits(random, 16, 16))?;
            query.extend_from_slice(b" route=/")?;
            query.extend_from_slice(pools.letters(random, 5, 30))?;
            query.extend_from_slice(b" */ ")
        }
    }
}

/// Writes the query of `find`.
#[inline(always)]
pub(crate) fn put_find(
    random: &mut Random,
    pools: &Pools,
    query: &mut Vec<u8>,
) -> Result<(), AllocError> {
    query.extend_from_slice(b"SELECT `id`, `name`, `")?;
    query.extend_from_slice(pools.letters(random, 4, 12))?;
    query.extend_from_slice(b"` FROM `shop`.`")?;
    query.extend_from_slice(pools.letters(random, 4, 12))?;
    query.extend_from_slice(b"` WHERE `id` = :id AND kind <> 'closed' LIMIT 1")
}

// A row by its number: one name.
fn find(
    alloc: Global,
    random: &mut Random,
    pools: &Pools,
    query: &mut Vec<u8>,
) -> Result<Result<Params, ToParamsError>, AllocError> {
    put_find(random, pools, query)?;
    Ok((("id", random.positive()),).to_named(alloc))
}

/// Writes the query of `search`.
#[inline(always)]
pub(crate) fn put_search(
    random: &mut Random,
    pools: &Pools,
    query: &mut Vec<u8>,
) -> Result<(), AllocError> {
    query.extend_from_slice(b"SELECT o.id, o.name, c.name AS customer, '")?;
    query.extend_from_slice(pools.letters(random, 3, 20))?;
    query.extend_from_slice(b"' AS label\nFROM orders o JOIN customers c ON c.id = o.customer\n")?;
    query.extend_from_slice(b"WHERE (o.name LIKE :text OR c.name LIKE :text) AND o.day >= :first")?;
    query.extend_from_slice(b" AND o.kind IN ('new', 'sent', '")?;
    query.extend_from_slice(pools.letters(random, 3, 10))?;
    query.extend_from_slice(b"')\n  AND o.customer = :customer /* ")?;
    query.extend_from_slice(pools.plain(random, 10, 80))?;
    query.extend_from_slice(b"*/ ORDER BY o.id LIMIT :most")
}

// Rows by a text: four names, one of them twice.
fn search(
    alloc: Global,
    random: &mut Random,
    pools: &Pools,
    query: &mut Vec<u8>,
) -> Result<Result<Params, ToParamsError>, AllocError> {
    put_search(random, pools, query)?;
    Ok(
        (
            ("text", pools.text(random, 5, 40)),
            ("first", pools.plain(random, 10, 10)),
            ("customer", random.positive()),
            ("most", random.below(500) as u64),
        )
            .to_named(alloc),
    )
}

/// Writes the query of `update`.
#[inline(always)]
pub(crate) fn put_update(
    random: &mut Random,
    pools: &Pools,
    query: &mut Vec<u8>,
) -> Result<(), AllocError> {
    query.extend_from_slice(b"UPDATE `")?;
    query.extend_from_slice(pools.letters(random, 4, 12))?;
    query.extend_from_slice(b"` SET `name` = :name, `note` = :note, `cents` = :cents, ")?;
    query.extend_from_slice(b"`paid` = :paid, `place` = :place, `by` = '")?;
    query.extend_from_slice(pools.letters(random, 3, 20))?;
    query.extend_from_slice(b"' WHERE `id` = :id AND `version` = :version")
}

// A row that changes: seven names.
fn update(
    alloc: Global,
    random: &mut Random,
    pools: &Pools,
    query: &mut Vec<u8>,
) -> Result<Result<Params, ToParamsError>, AllocError> {
    put_update(random, pools, query)?;
    let note = pools.text(random, 20, 200);
    let note = if random.one_in(10) { None } else { Some(note) };
    Ok(
        (
            ("name", pools.text(random, 5, 40)),
            ("note", note),
            ("cents", random.below(1_000_000) as u64),
            ("paid", random.one_in(2)),
            ("place", pools.plain(random, 5, 20)),
            ("id", random.positive()),
            ("version", random.below(100) as u64),
        )
            .to_named(alloc),
    )
}

/// Writes the query of `report`.
#[inline(always)]
pub(crate) fn put_report(
    random: &mut Random,
    pools: &Pools,
    query: &mut Vec<u8>,
) -> Result<(), AllocError> {
    query.extend_from_slice(b"SELECT\n")?;
    for _ in 0..3 + random.below(8) {
        query.extend_from_slice(b"  SUM(CASE WHEN o.kind = '")?;
        query.extend_from_slice(pools.letters(random, 3, 15))?;
        query.extend_from_slice(b"' THEN o.cents ELSE 0 END) AS `")?;
        query.extend_from_slice(pools.letters(random, 4, 12))?;
        query.extend_from_slice(b"`, -- ")?;
        query.extend_from_slice(pools.plain(random, 5, 30))?;
        query.extend_from_slice(b"\n")?;
    }
    query.extend_from_slice(REPORT)
}

// A long query: twelve names, four of them twice, comments, strings, and columns.
fn report(
    alloc: Global,
    random: &mut Random,
    pools: &Pools,
    query: &mut Vec<u8>,
) -> Result<Result<Params, ToParamsError>, AllocError> {
    put_report(random, pools, query)?;
    Ok(
        (
            ("first", pools.plain(random, 10, 10)),
            ("last", pools.plain(random, 10, 10)),
            ("low", random.below(1000) as u64),
            ("high", random.below(1_000_000) as u64),
            ("region", pools.text(random, 5, 20)),
            ("kind_1", "new"),
            ("kind_2", "sent"),
            ("kind_3", pools.plain(random, 4, 8)),
            ("customer", random.positive()),
            ("is_paid", random.one_in(2)),
            ("most", random.below(500) as u64),
            ("skipped", random.below(5000) as u64),
        )
            .to_named(alloc),
    )
}

const REPORT: &[u8] = b"  COUNT(*) AS n\nFROM orders o LEFT JOIN customers c ON c.id = o.customer\n\
    WHERE o.day BETWEEN :first AND :last\n  AND (o.cents >= :low OR o.tax >= :low)\n\
      AND o.cents < :high AND c.region = :region\n\
      AND o.kind IN (:kind_1, :kind_2, :kind_3, 'open', 'late')\n\
      AND (c.id = :customer OR c.parent = :customer) AND o.paid = :is_paid\n\
    GROUP BY c.region -- rows without a region come first\n\
    HAVING MIN(o.day) >= :first AND MAX(o.day) <= :last\nLIMIT :most OFFSET :skipped";
