//! Random queries, and what is given to their places.
use crate::borrowed::Run;
use crate::borrowed::values::{pick, piece, value, values};
use crate::random::Random;
use mysql_values::value::Value;
use std::alloc::AllocError;

// Texts that every mode and server reads alike.
const CLEAN: &[u8] = b"SELECT ~ a ~ x1 = 5 AND ~\n~\t~(~) ~, ~ 'it''s :a ?' ~ \"q?\" ~ `i``:d` ~\
     /* :a ? ' */ ~-- ? :a '\n~# it's :b\n~ /*+ x */ ~; ~";

// Texts that modes or character sets read otherwise.
const MODAL: &[u8] =
    b" 'it\\'s' ~ 'a\\' ~ \"q\\\"?\" ~ 'back\\\\slash' ~ b\xC3\xBCcher ~ '\xE5\x8C\x97' ~ \\ ~\
     `c\\d` ";

// Texts that servers read otherwise, and texts that are left open.
const WILD: &[u8] =
    b" [~ $$ ~ /*! 1 ~ /*M!~--\x01~ 1.e-- ~ `a\\` ~# x\r y\n~'~\"~`~/*~*/~\\~\xFF~:~:1~:A~\
    --~ 1.5e+~?~:a";

// The texts of each roughness.
const ROUGHNESS: [&[u8]; 4] = [CLEAN, CLEAN, MODAL, WILD];

// What stands before places, behind them, and rarely beside them.
const BEFORE: &[u8] = b" ~=~(~, ~-~+~\n~ < ";

const AFTER: &[u8] = b" ~)~, ~;~\n~ = ~-";

const JOINED: &[u8] = b"1~a~.~'x'~:~\xC3\xA9~?";

// The names that queries have, and names that no query has.
const NAMES: &[u8] = b"a~b~ab~a1~_~_x9~name~a_long_name_of_28_bytes_in_all";

const ODD_NAMES: &[u8] = b"~A~1~a ~\xC3\xA9~\xFF~a:b~a\0";

// The number of `NAMES`, and of the names of a query that has more.
const FEW: usize = 8;

const MANY: usize = 96;

// What more names are cut from: no two pieces of three letters are the same.
const LETTERS: &[u8] =
    b"abcdefghijklmnopqrstuvwxyzzyxwvutsrqponmlkjihgfedcbaacegikmoqsuwybdfhjlnprtvxz\
    adgjmpsvybehknqtwzcfilorux";

/// A name and its value.
pub type Pair = (&'static [u8], Value);

/// A query, and what its places want.
#[derive(Drop)]
pub struct Case {
    /// The query.
    pub query: Vec<u8>,
    // The number of marks that were put where they are none of a string, usually.
    marks: usize,
    // It has names of this many.
    names: usize,
    // Whether some of its places may not stand alone.
    careless: bool,
}

impl Case {
    /// A random query with names or with marks, in one of twenty with both.
    pub fn new(run: &mut Run, by_name: bool) -> Result<Case, AllocError> {
        let mut case = Case {
            query: Vec::with_capacity(run.alloc, 256)?,
            marks: 0,
            names: if run.random.one_in(10) { MANY } else { FEW },
            careless: run.random.one_in(4),
        };
        case.put(&mut run.random, by_name)?;
        Ok(case)
    }

    // Appends texts and places.
    fn put(&mut self, random: &mut Random, by_name: bool) -> Result<(), AllocError> {
        let has_both = random.one_in(20);
        let roughness = random.below(4);
        let most = if random.one_in(50) { 90 } else { 6 };
        for _ in 0..random.below(most) {
            let is_other = has_both && random.one_in(2);
            self.put_text(random, roughness)?;
            self.put_place(random, by_name != is_other)?;
        }
        self.put_text(random, roughness)
    }

    // Appends a text between places.
    fn put_text(&mut self, random: &mut Random, roughness: usize) -> Result<(), AllocError> {
        let roughness = if random.one_in(2) { 0 } else { roughness };
        let texts = ROUGHNESS.get(roughness).copied().unwrap_or(CLEAN);
        self.query.extend_from_slice(pick(random, texts))
    }

    // Appends a place.
    fn put_place(&mut self, random: &mut Random, by_name: bool) -> Result<(), AllocError> {
        self.put_edge(random, BEFORE)?;
        if by_name {
            self.query.extend_from_slice(b":")?;
            self.query
                .extend_from_slice(name(random.below(self.names)))?;
        } else {
            self.marks = self.marks.saturating_add(1);
            self.query.extend_from_slice(b"?")?;
        }
        self.put_edge(random, AFTER)
    }

    // Appends what stands beside a place, which usually lets it stand alone.
    fn put_edge(&mut self, random: &mut Random, usual: &'static [u8]) -> Result<(), AllocError> {
        let is_joined = self.careless && random.one_in(15);
        let texts = if is_joined { JOINED } else { usual };
        self.query.extend_from_slice(pick(random, texts))
    }

    /// Pairs of names and values for it, from any of its names on. Some names may be missing, one
    /// may stand twice, and one may be none of a query.
    pub fn pairs(&self, run: &mut Run) -> Result<Vec<Pair>, AllocError> {
        let floats = run.random.one_in(3);
        let gaps = run.random.one_in(4);
        let first = run.random.below(self.names);
        let mut pairs = Vec::with_capacity(run.alloc, self.names)?;
        for i in 0..self.names.saturating_add(2) {
            if let Some(name) = self.name_at(&mut run.random, first, i, gaps) {
                pairs.push((name, value(run, floats)?))?;
            }
        }
        Ok(pairs)
    }

    // The name of a pair, if it isn't left out. The last two are one of `NAMES` and an odd one.
    fn name_at(
        &self,
        random: &mut Random,
        first: usize,
        i: usize,
        gaps: bool,
    ) -> Option<&'static [u8]> {
        let (is_there, found) = if i < self.names {
            let number = first.wrapping_add(i).checked_rem(self.names).unwrap_or(0);
            (!gaps || !random.one_in(4), name(number))
        } else if i == self.names {
            (random.one_in(12), pick(random, NAMES))
        } else {
            (random.one_in(6), pick(random, ODD_NAMES))
        };
        if is_there { Some(found) } else { None }
    }

    /// Values for its marks, sometimes more or fewer.
    pub fn values(&self, run: &mut Run) -> Result<Vec<Value>, AllocError> {
        let floats = run.random.one_in(3);
        let count = self.count(&mut run.random);
        values(run, count, floats)
    }

    /// The number of its marks, sometimes more or less.
    pub fn count(&self, random: &mut Random) -> usize {
        match random.below(20) {
            0 => self.marks.saturating_add(1),
            1 => self.marks.saturating_sub(1),
            _ => self.marks,
        }
    }
}

// The name of a number below `MANY`.
fn name(number: usize) -> &'static [u8] {
    match piece(NAMES, number) {
        Some(name) => name,
        None => LETTERS.get(number..number.wrapping_add(3)).unwrap_or(b"z"),
    }
}
