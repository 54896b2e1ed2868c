//! The queries that `bind_text_anywhere` refuses by themselves, with each construct before, across
//! and behind a border of 16 bytes: its quick walk looks at so many at once.
use crate::shared::{Given, same_in};
use mysql_params::{
    Construct, SteadyTextError, Unportable, bind_text_anywhere, first_unportable, first_unsteady,
};
use std::alloc::Global;
use std::process::Abort;

/// The refusal of a query, except what `bind_text` refuses too.
fn refusal(rt: &impl Abort, alloc: Global, query: &[u8]) -> Option<SteadyTextError> {
    match bind_text_anywhere(alloc, query, Given::Nothing.params(rt, alloc)) {
        Ok(_) | Err(SteadyTextError::Bind(_)) => None,
        Err(error) => Some(error),
    }
}

/// What the two walks find of which one looks at bytes alone, and the other at tokens.
fn found(query: &[u8]) -> Option<SteadyTextError> {
    match first_unsteady(query) {
        Some(at) => Some(SteadyTextError::Unsteady { at }),
        None => match first_unportable(query, false) {
            Some(found) => Some(SteadyTextError::Unportable(found)),
            None => None,
        },
    }
}

/// The length of a query in which a piece stands somewhere between spaces.
const LEN: usize = 52;

/// The last index at which a piece begins.
const LAST: usize = 40;

/// Pieces of up to 12 bytes, and the construct that begins with each, by RULES.
const PIECES: &[(&[u8], Construct)] = &[
    (b"[", Construct::Bracket),
    (b"$$", Construct::DollarQuote),
    (b"$tag$", Construct::DollarQuote),
    (b"$:a", Construct::DollarQuote),
    (b"/*! '*/", Construct::ExecutableComment),
    (b"/*+ '*/", Construct::Hint),
    (b"/*M! '*/", Construct::MariaDbComment),
    (b"--\x01", Construct::Dashes),
    (b"--\t", Construct::Dashes),
    (b"--\x0c", Construct::Dashes),
    (b"--\r\n", Construct::Dashes),
    (b".e-- ", Construct::DashesAfterExponent),
    (b".5E+-- ", Construct::DashesAfterExponent),
    (b".5?", Construct::DashesAfterExponent),
    (b"1e+?", Construct::PlaceAfterExponent),
    (b"1E-:a", Construct::PlaceAfterExponent),
    (b"#\r", Construct::ReturnInComment),
    (b"# abcdefgh\r", Construct::ReturnInComment),
    (b"-- x\r", Construct::ReturnInComment),
    (b"--\r", Construct::ReturnInComment),
    (b"--\tx\r", Construct::ReturnInComment),
];

/// Writes the piece into the query, from this index on.
fn put(query: &mut [u8], piece: &[u8], from: usize) {
    for (slot, byte) in query.iter_mut().skip(from).zip(piece) {
        *slot = *byte;
    }
}

#[test]
fn constructs_in_long_runs(rt: HostRuntime) {
    for (piece, construct) in PIECES {
        for at in 0..LAST + 1 {
            let mut query = [b' '; LEN];
            put(&mut query, *piece, at);
            let wanted = Some(SteadyTextError::Unportable(Unportable {
                construct: *construct,
                at,
            }));
            same_in(
                &rt,
                &refusal(&rt, rt.alloc(), &query),
                &wanted,
                &(*piece, at),
            );
        }
    }
}

/// Pieces of portable queries in which a byte is in doubt, or could be taken for one.
const PORTABLE: &[&[u8]] = &[
    b"'[$$ --\x01'",
    b"`a[`",
    b"-- [ $$\n",
    b"/* $$ [ */",
    b"/*! x*/ ",
    b"a-?",
    b"t.e -1",
    b"'12:30'",
    b"'$.a'",
    b"-- x",
    b"# x\r\n",
    b"-- x\r\n",
    b"a\r\nb\r",
    b"'#\r-- x\r'",
    b"a.b = :b",
    b"1e-5",
];

#[test]
fn portable_queries_in_long_runs(rt: HostRuntime) {
    for piece in PORTABLE {
        for at in 0..LAST + 1 {
            let mut query = [b' '; LEN];
            put(&mut query, *piece, at);
            same_in(&rt, &refusal(&rt, rt.alloc(), &query), &None, &(*piece, at));
        }
    }
}

/// A byte of each kind of which the quick walk tells some apart.
const BYTES: &[u8] = b"[$/*!-.e+1?:a'#\r\n\t\\\xC3 ";

/// Every four of these bytes across the border, against the walks that are no quick ones.
#[test]
fn all_short_queries(rt: HostRuntime) {
    let mut query = [b' '; 20];
    for first in BYTES {
        query[14] = *first;
        for second in BYTES {
            query[15] = *second;
            for third in BYTES {
                query[16] = *third;
                for fourth in BYTES {
                    query[17] = *fourth;
                    let told = refusal(&rt, rt.alloc(), &query);
                    same_in(&rt, &told, &found(&query), &query.as_slice());
                }
            }
        }
    }
}
