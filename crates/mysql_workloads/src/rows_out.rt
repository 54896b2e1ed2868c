//! Rows go out: one statement is bound to row after row, by position, by name, and as a script.
use crate::digest::Digest;
use crate::pools::Pools;
use crate::random::Random;
use mysql_bind_core::{Assignment, Literals, Portability, Request, Row, ValueType, script_of};
use mysql_params::ParsedQuery;
use mysql_params::params::{Params, ToPairs, ToParams, ToParamsError};
use std::alloc::{AllocError, Global};

const BY_POSITION: &[u8] = b"INSERT INTO orders (id, customer, name, note, cents, sent) \
    VALUES (?, ?, ?, ?, ?, ?)";

const BY_NAME: &[u8] = b"INSERT INTO orders (id, name, note, cents, `place:id`, kind) \
    VALUES (:id, :name, :note, :cents, :place, 'new') -- one row\n";

// The number of rows of a script.
const SCRIPT: usize = 500;

/// Binds so many hundred rows in each way.
pub fn run(
    alloc: Global,
    random: &mut Random,
    pools: &Pools,
    hundreds: usize,
    digest: &mut Digest,
) -> Result<(), AllocError> {
    let by_position = ParsedQuery::parse(alloc, BY_POSITION)?;
    let by_name = ParsedQuery::parse(alloc, BY_NAME)?;
    for hundred in 0..hundreds {
        for _ in 0..100 {
            let row = position_row(alloc, random, pools);
            take_bound(alloc, &by_position, row, digest);
            let row = named_row(alloc, random, pools);
            take_bound(alloc, &by_name, row, digest);
        }
        if hundred % 5 == 0 {
            take_script(alloc, random, pools, hundred % 2 == 0, digest)?;
        }
    }
    Ok(())
}

// Binds a row, and takes in its text.
fn take_bound(
    alloc: Global,
    query: &ParsedQuery<'_>,
    row: Result<Params, ToParamsError>,
    digest: &mut Digest,
) {
    let Ok(row) = row else {
        return digest.number(1);
    };
    match query.bind(alloc, row) {
        Ok(text) => digest.bytes(text.as_slice()),
        Err(_) => digest.number(2),
    }
}

// Whether the cell is there: nine times in ten.
fn if_there<T: Drop>(random: &mut Random, cell: T) -> Option<T> {
    if random.one_in(10) { None } else { Some(cell) }
}

// The parameters of a row by position.
fn position_row(
    alloc: Global,
    random: &mut Random,
    pools: &Pools,
) -> Result<Params, ToParamsError> {
    let id = random.positive();
    let customer = (random.next() & 0x00FF_FFFF) as u32;
    let name = pools.text(random, 5, 40);
    let note = pools.text(random, 20, 200);
    let cents = random.below(10_000_000) as u64;
    let sent = pools.plain(random, 10, 19);
    let customer = if_there(random, customer);
    let note = if_there(random, note);
    (id, customer, name, note, cents, if_there(random, sent)).to_params(alloc)
}

// The parameters of a row by name.
fn named_row(alloc: Global, random: &mut Random, pools: &Pools) -> Result<Params, ToParamsError> {
    let id = random.positive();
    let name = pools.text(random, 5, 40);
    let note = pools.text(random, 20, 200);
    let cents = random.below(10_000_000) as u64;
    let place = random.below(100_000) as u64;
    let note = if_there(random, note);
    let place = if_there(random, place);
    (
        ("id", id),
        ("name", name),
        ("note", note),
        ("cents", cents),
        ("place", place),
    )
        .to_named(alloc)
}

// Makes a script of rows, as the shell tool does, and takes it in.
fn take_script(
    alloc: Global,
    random: &mut Random,
    pools: &Pools,
    transaction: bool,
    digest: &mut Digest,
) -> Result<(), AllocError> {
    let mut rows = Vec::with_capacity(alloc, SCRIPT)?;
    for _ in 0..SCRIPT {
        rows.push(script_row(alloc, random, pools)?)?;
    }
    let request = Request {
        literals: Literals::Steady,
        portability: Portability::Portable,
    };
    match script_of(alloc, BY_NAME, rows.as_slice(), request, transaction) {
        Ok(script) => digest.bytes(script.as_slice()),
        Err(_) => digest.number(3),
    }
    Ok(())
}

// The assignments of a row of a script.
fn script_row(alloc: Global, random: &mut Random, pools: &Pools) -> Result<Row, AllocError> {
    let mut assignments = Vec::with_capacity(alloc, 5)?;
    let id = pools.digits(random, 1, 18);
    assignments.push(assignment(alloc, b"id", ValueType::Int, id)?)?;
    let name = pools.text(random, 5, 40);
    assignments.push(assignment(alloc, b"name", ValueType::Text, name)?)?;
    let note = pools.text(random, 20, 200);
    let kind = if random.one_in(10) {
        ValueType::Null
    } else {
        ValueType::Text
    };
    assignments.push(assignment(alloc, b"note", kind, note)?)?;
    let cents = pools.digits(random, 1, 7);
    assignments.push(assignment(alloc, b"cents", ValueType::Uint, cents)?)?;
    let place = pools.digits(random, 1, 5);
    assignments.push(assignment(alloc, b"place", ValueType::Number, place)?)?;
    Ok(Row { assignments })
}

// What a name is assigned.
fn assignment(
    alloc: Global,
    name: &[u8],
    value_type: ValueType,
    bytes: &[u8],
) -> Result<Assignment, AllocError> {
    Ok(Assignment {
        name: Vec::from_slice(alloc, name)?,
        value_type,
        bytes: Vec::from_slice(alloc, bytes)?,
    })
}
