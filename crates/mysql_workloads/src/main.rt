//! The jobs that users wait for, by the public calls, on inputs that are made of a seed.
//!
//! The words are a job, a seed and a size, as `rows_in 7 100`; the job `all` runs each. It prints a
//! digest of all results of a job, which depends on nothing but the words. The word `borrowed` in
//! place of a job compares so many random cases by the calls for borrowed and for owned values.
#![tactic(auto)]

mod awkward;
mod batches;
mod borrowed;
mod cells;
mod digest;
mod escapes;
mod first_turn;
mod number_list;
mod parsed_again;
mod pools;
mod query_tests;
mod random;
mod requests;
mod requests_ref;
mod rows_in;
mod rows_in_ref;
mod rows_out;
mod scripts;
mod some_values;
mod steady_text;
mod thousand_names;
mod written_values;

use crate::digest::Digest;
use crate::pools::Pools;
use crate::random::Random;
use std::alloc::AllocError;
use std::process::ExitCode;
use std::{env, io};

const JOBS: [&str; 17] = [
    "rows_in",
    "rows_out",
    "batches",
    "requests",
    "scripts",
    "awkward",
    "rows_in_ref",
    "requests_ref",
    "parsed_again",
    "thousand_names",
    "number_list",
    "steady_text",
    "portable_test",
    "client_test",
    "written_values",
    "cells",
    "escapes",
];

// The digest of a job.
fn job(rt: &HostRuntime, name: &str, seed: u64, size: usize) -> Result<u64, AllocError> {
    let alloc = rt.alloc();
    let mut random = Random { state: seed };
    let pools = Pools::new(alloc, &mut random)?;
    let mut digest = Digest { state: seed };
    match name {
        "rows_in" => rows_in::run(alloc, &mut random, &pools, size, &mut digest)?,
        "rows_out" => rows_out::run(alloc, &mut random, &pools, size, &mut digest)?,
        "batches" => batches::run(alloc, &mut random, &pools, size, &mut digest)?,
        "requests" => requests::run(alloc, &mut random, &pools, size, &mut digest)?,
        "rows_in_ref" => rows_in_ref::run(alloc, &mut random, &pools, size, &mut digest)?,
        "requests_ref" => requests_ref::run(alloc, &mut random, &pools, size, &mut digest)?,
        "scripts" => scripts::run(alloc, &mut random, &pools, size, &mut digest)?,
        "parsed_again" => parsed_again::run(alloc, &mut random, &pools, size, &mut digest)?,
        "thousand_names" => thousand_names::run(alloc, &mut random, &pools, size, &mut digest)?,
        "number_list" => number_list::run(alloc, &mut random, size, &mut digest)?,
        "steady_text" => steady_text::run(alloc, &mut random, &pools, size, &mut digest)?,
        "portable_test" => query_tests::run_portable(
            alloc,
            &mut random,
            &pools,
            size,
            &mut digest,
        )?,
        "client_test" => query_tests::run_client(alloc, &mut random, &pools, size, &mut digest)?,
        "written_values" => written_values::run(alloc, &mut random, &pools, size, &mut digest)?,
        "cells" => cells::run(alloc, &mut random, &pools, size, &mut digest)?,
        "escapes" => escapes::run(alloc, &mut random, size, &mut digest)?,
        _ => awkward::run(alloc, &mut random, &pools, size, &mut digest)?,
    }
    Ok(digest.state)
}

// Prints the digest of a job.
fn print_job(rt: &HostRuntime, name: &str, seed: u64, size: usize) -> io::Result<()> {
    match job(rt, name, seed, size) {
        Ok(digest) => println!(rt; "{name} {digest:016x}"),
        Err(_) => println!(rt; "{name}: out of memory"),
    }
}

// Does what the words say. It gives whether nothing was found that must not be.
fn answer(rt: &HostRuntime) -> io::Result<bool> {
    let mut words = env::args(rt)?.skip(1);
    let (Some(name), Some(seed), Some(size)) = (words.next(), words.next(), words.next()) else {
        println!(rt; "usage: JOB SEED SIZE, or borrowed SEED COUNT")?;
        return Ok(true);
    };
    let (Ok(seed), Ok(size)) = (seed.as_str().parse::<u32>(), size.as_str().parse::<usize>()) else {
        println!(rt; "SEED and SIZE are numbers")?;
        return Ok(true);
    };
    if name.as_str() == "borrowed" {
        return Ok(borrowed::print(rt, u64::from(seed), size));
    }
    for job in JOBS {
        if name.as_str() == job || name.as_str() == "all" {
            print_job(rt, job, u64::from(seed), size)?;
        }
    }
    Ok(true)
}

// Ends with the status 0, unless a line can't be printed, or a comparison failed.
fn main(rt: HostRuntime) -> ExitCode {
    match answer(&rt) {
        Ok(true) => ExitCode::SUCCESS,
        Ok(false) => ExitCode::FAILURE,
        Err(_) => ExitCode::FAILURE,
    }
}
