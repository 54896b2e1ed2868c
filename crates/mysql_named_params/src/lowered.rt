//! Queries with their names in lower case.
ghost use Rattle.std.specs.Prelude.{◌≡◌, ◌+◌, ◌-◌, ◌++◌, ◌≤◌, IfOk, drop, length, map, take};
ghost use Rattle.std.specs.Char.{to_ascii_lowercase};
ghost use Rattle.mysql_named_params.specs.LoweredNames.{lower_names};
ghost use Rattle.mysql_named_params.specs.Reading.{OnTokensIn, OnWideTokens};
ghost use Rattle.mysql_named_params.specs.Tokens.{text_of};

use crate::places::{Reading, first_place_in};
use std::alloc::{AllocError, Global};

/// The query with its wide names in lower case, so that they are names of the grammar. All other
/// bytes and all positions stay the same. For the crates above.
pub fn lowered_query(
    alloc: Global,
    query: &[u8],
    no_backslash_escape: bool,
) -> Result<Vec<u8>, AllocError>
    ensures { IfOk result (λ text. OnWideTokens no_backslash_escape query.now (λ ts.
        text.items ≡ text_of (lower_names ts))) }
{
    let reading = Reading {
        no_backslash_escape,
        wide_names: true,
    };
    let mut text = Vec::from_slice(alloc, query)?;
    lower_places(query, reading, text.as_mut_slice());
    Ok(text)
}

// Puts the names of a query in lower case, in a copy of it.
fn lower_places(query: &[u8], reading: Reading, text: &mut [u8])
    requires { text.old ≡ query.now }
    ensures { OnTokensIn reading query.now (λ ts. text.new ≡ text_of (lower_names ts)) }
{
    let mut at = 0;
    while let Some(found) = first_place_in(&query[at..], reading) {
        let start = at + found.before;
        let end = start + found.len;
        lower_bytes(text, start, end);
        at = end;
    }
}

// Puts the bytes from `start` to `end` in lower case.
fn lower_bytes(text: &mut [u8], start: usize, end: usize)
    requires { (start ≤ end) × (end ≤ length text.old) }
    ensures front { take end text.new ≡ take start text.old
        ++ map to_ascii_lowercase (take (end - start) (drop start text.old)) }
    ensures rest { drop end text.new ≡ drop end text.old }
    ensures len { length text.new ≡ length text.old }
{
    text[start..end].make_ascii_lowercase();
}
