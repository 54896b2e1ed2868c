//! What `requests` does, with names and values that are borrowed.
use crate::digest::Digest;
use crate::pools::Pools;
use crate::random::Random;
use crate::requests::{put_comment, put_find, put_report, put_search, put_update};
use mysql_params::{bind_pairs, bind_pairs_anywhere};
use mysql_values::value::ValueRef;
use std::alloc::{AllocError, Global};

// A name and its value.
type Pair<'p> = (&'p [u8], ValueRef<'p>);

/// Binds so many hundred queries.
pub fn run(
    alloc: Global,
    random: &mut Random,
    pools: &Pools,
    hundreds: usize,
    digest: &mut Digest,
) -> Result<(), AllocError> {
    let mut query = Vec::with_capacity(alloc, 4096)?;
    for hundred in 0..hundreds {
        for turn in 0..100usize {
            query.clear();
            put_comment(&mut query, random, pools)?;
            let mut request = Request {
                alloc,
                anywhere: (hundred ^ turn) % 2 == 0,
                digest,
            };
            match random.below(4) {
                0 => request.find(random, pools, &mut query)?,
                1 => request.search(random, pools, &mut query)?,
                2 => request.update(random, pools, &mut query)?,
                _ => request.report(random, pools, &mut query)?,
            }
        }
    }
    Ok(())
}

// How a query is bound, and where its text goes.
#[derive(Drop)]
struct Request<'d> {
    alloc: Global,
    anywhere: bool,
    digest: &'d mut Digest,
}

impl Request<'_> {
    // Binds a query in one of two ways, and takes in its text.
    fn take_bound(&mut self, query: &[u8], pairs: &[Pair<'_>]) {
        if self.anywhere {
            match bind_pairs_anywhere(self.alloc, query, pairs) {
                Ok(text) => self.digest.bytes(text.as_slice()),
                Err(_) => self.digest.number(2),
            }
        } else {
            match bind_pairs(self.alloc, query, pairs, false) {
                Ok(text) => self.digest.bytes(text.as_slice()),
                Err(_) => self.digest.number(3),
            }
        }
    }

    // A row by its number: one name.
    fn find(
        &mut self,
        random: &mut Random,
        pools: &Pools,
        query: &mut Vec<u8>,
    ) -> Result<(), AllocError> {
        put_find(random, pools, query)?;
        self.take_bound(query, &[(b"id", ValueRef::Int(random.positive()))]);
        Ok(())
    }

    // Rows by a text: four names, one of them twice.
    fn search(
        &mut self,
        random: &mut Random,
        pools: &Pools,
        query: &mut Vec<u8>,
    ) -> Result<(), AllocError> {
        put_search(random, pools, query)?;
        let pairs: [Pair<'_>; 4] = [
            (b"text", ValueRef::Bytes(pools.text(random, 5, 40))),
            (b"first", ValueRef::Bytes(pools.plain(random, 10, 10))),
            (b"customer", ValueRef::Int(random.positive())),
            (b"most", ValueRef::UInt(random.below(500) as u64)),
        ];
        self.take_bound(query, &pairs);
        Ok(())
    }

    // A row that changes: seven names.
    fn update(
        &mut self,
        random: &mut Random,
        pools: &Pools,
        query: &mut Vec<u8>,
    ) -> Result<(), AllocError> {
        put_update(random, pools, query)?;
        let note = pools.text(random, 20, 200);
        let note = if random.one_in(10) {
            ValueRef::NULL
        } else {
            ValueRef::Bytes(note)
        };
        let pairs: [Pair<'_>; 7] = [
            (b"name", ValueRef::Bytes(pools.text(random, 5, 40))),
            (b"note", note),
            (b"cents", ValueRef::UInt(random.below(1_000_000) as u64)),
            (b"paid", ValueRef::Int(i64::from(random.one_in(2)))),
            (b"place", ValueRef::Bytes(pools.plain(random, 5, 20))),
            (b"id", ValueRef::Int(random.positive())),
            (b"version", ValueRef::UInt(random.below(100) as u64)),
        ];
        self.take_bound(query, &pairs);
        Ok(())
    }

    // A long query: twelve names, four of them twice.
    fn report(
        &mut self,
        random: &mut Random,
        pools: &Pools,
        query: &mut Vec<u8>,
    ) -> Result<(), AllocError> {
        put_report(random, pools, query)?;
        let pairs: [Pair<'_>; 12] = [
            (b"first", ValueRef::Bytes(pools.plain(random, 10, 10))),
            (b"last", ValueRef::Bytes(pools.plain(random, 10, 10))),
            (b"low", ValueRef::UInt(random.below(1000) as u64)),
            (b"high", ValueRef::UInt(random.below(1_000_000) as u64)),
            (b"region", ValueRef::Bytes(pools.text(random, 5, 20))),
            (b"kind_1", ValueRef::Bytes(b"new")),
            (b"kind_2", ValueRef::Bytes(b"sent")),
            (b"kind_3", ValueRef::Bytes(pools.plain(random, 4, 8))),
            (b"customer", ValueRef::Int(random.positive())),
            (b"is_paid", ValueRef::Int(i64::from(random.one_in(2)))),
            (b"most", ValueRef::UInt(random.below(500) as u64)),
            (b"skipped", ValueRef::UInt(random.below(5000) as u64)),
        ];
        self.take_bound(query, &pairs);
        Ok(())
    }
}
