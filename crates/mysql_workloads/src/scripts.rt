//! Scripts: a linter or a migration reads SQL, mostly rows that are inserted, with strings and
//! comments and few places.
use crate::digest::Digest;
use crate::pools::Pools;
use crate::random::Random;
use mysql_params::named_params::ParsedNamedParams;
use mysql_params::{Unportable, first_unportable, first_unportable_in_client};
use std::alloc::{AllocError, Global};

// So many bytes has a script, or a few more.
const SCRIPT: usize = 1 << 18;

/// Reads so many scripts of a quarter of a megabyte.
pub fn run(
    alloc: Global,
    random: &mut Random,
    pools: &Pools,
    scripts: usize,
    digest: &mut Digest,
) -> Result<(), AllocError> {
    let mut script = Vec::with_capacity(alloc, SCRIPT + 1024)?;
    for turn in 0..scripts {
        script.clear();
        put_script(&mut script, random, pools)?;
        if turn % 8 == 7 {
            // The last statement can't be read alike by all.
            script.extend_from_slice(b"SELECT 1 /*!50001 + :late */;\n")?;
        }
        match ParsedNamedParams::parse(alloc, &script) {
            Ok(parsed) => take_parsed(&parsed, digest),
            Err(_) => digest.number(1),
        }
        take_construct(first_unportable(&script, false), digest);
        take_construct(first_unportable_in_client(&script, false), digest);
    }
    Ok(())
}

// Takes in a query with its names.
fn take_parsed(parsed: &ParsedNamedParams<'_>, digest: &mut Digest) {
    digest.bytes(parsed.query());
    for name in parsed.params() {
        digest.bytes(name.as_slice());
    }
}

// Takes in where a construct stands.
fn take_construct(found: Option<Unportable>, digest: &mut Digest) {
    match found {
        Some(found) => digest.number(found.at as u64),
        None => digest.number(2),
    }
}

// Appends statements until the script is long enough.
fn put_script(script: &mut Vec<u8>, random: &mut Random, pools: &Pools) -> Result<(), AllocError> {
    for _ in 0..SCRIPT {
        if script.len() >= SCRIPT {
            break;
        }
        match random.below(20) {
            0 => put_table(script, random, pools)?,
            1 => put_change(script, random, pools)?,
            2 => put_note(script, random, pools)?,
            _ => put_rows(script, random, pools)?,
        }
    }
    Ok(())
}

// Appends a statement that inserts rows.
fn put_rows(script: &mut Vec<u8>, random: &mut Random, pools: &Pools) -> Result<(), AllocError> {
    script.extend_from_slice(b"INSERT INTO `")?;
    script.extend_from_slice(pools.letters(random, 4, 12))?;
    script.extend_from_slice(b"` (id, name, price, note, day) VALUES\n")?;
    let count = 1 + random.below(30);
    for row in 0..count {
        script.extend_from_slice(b"(")?;
        script.extend_from_slice(pools.digits(random, 1, 10))?;
        script.extend_from_slice(b", '")?;
        script.extend_from_slice(pools.plain(random, 5, 40))?;
        script.extend_from_slice(b"', ")?;
        script.extend_from_slice(pools.digits(random, 1, 5))?;
        script.extend_from_slice(b".")?;
        script.extend_from_slice(pools.digits(random, 2, 2))?;
        script.extend_from_slice(b", '")?;
        script.extend_from_slice(pools.plain(random, 20, 400))?;
        script.extend_from_slice(if random.one_in(4) {
            b" it''s \\n'"
        } else {
            b" and more'"
        })?;
        script.extend_from_slice(b", '2026-11-")?;
        script.extend_from_slice(pools.digits(random, 2, 2))?;
        script.extend_from_slice(if row + 1 < count { b"'),\n" } else { b"');\n" })?;
    }
    Ok(())
}

// Appends a table's definition.
fn put_table(script: &mut Vec<u8>, random: &mut Random, pools: &Pools) -> Result<(), AllocError> {
    script.extend_from_slice(b"CREATE TABLE IF NOT EXISTS `")?;
    script.extend_from_slice(pools.letters(random, 4, 12))?;
    script.extend_from_slice(b"` (\n  `id` bigint unsigned NOT NULL AUTO_INCREMENT,\n")?;
    for _ in 0..4 + random.below(12) {
        script.extend_from_slice(b"  `")?;
        script.extend_from_slice(pools.letters(random, 4, 16))?;
        script.extend_from_slice(b"` varchar(190) CHARACTER SET utf8mb4 DEFAULT NULL COMMENT '")?;
        script.extend_from_slice(pools.plain(random, 5, 60))?;
        script.extend_from_slice(b"',\n")?;
    }
    script.extend_from_slice(b"  PRIMARY KEY (`id`)\n) ENGINE=InnoDB DEFAULT CHARSET=utf8mb4;\n")
}

// Appends a statement with places.
fn put_change(script: &mut Vec<u8>, random: &mut Random, pools: &Pools) -> Result<(), AllocError> {
    script.extend_from_slice(b"UPDATE `")?;
    script.extend_from_slice(pools.letters(random, 4, 12))?;
    script.extend_from_slice(b"` SET price = price * 1.1 + (:added - 2) / 4 WHERE id = :id_")?;
    script.extend_from_slice(pools.digits(random, 1, 4))?;
    script.extend_from_slice(b" AND note NOT LIKE '%: ? -- none%';\n")
}

// Appends comments.
fn put_note(script: &mut Vec<u8>, random: &mut Random, pools: &Pools) -> Result<(), AllocError> {
    script.extend_from_slice(b"-- ")?;
    script.extend_from_slice(pools.plain(random, 10, 120))?;
    script.extend_from_slice(b"\n/* ")?;
    script.extend_from_slice(pools.plain(random, 50, 600))?;
    script.extend_from_slice(b"\n * it's done: see \"notes\" */\n# ")?;
    script.extend_from_slice(pools.plain(random, 10, 60))?;
    script.extend_from_slice(b"\n")
}
