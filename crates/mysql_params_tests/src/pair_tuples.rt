//! Tuples of pairs of a name and a thing.
use crate::shared::{answer_of, named, same, same_in};
use mysql_params::params::{Params, ToPairs, ToParamsError};
use std::alloc::Global;
use std::process::Abort;

// Through the bound alone.
fn params_of<P: ToPairs>(alloc: Global, pairs: &P) -> Result<Params, ToParamsError> {
    pairs.to_named(alloc)
}

// The pairs name each letter, and give it the number of its place, from 1 on.
fn makes<P: ToPairs>(rt: &impl Abort, alloc: Global, pairs: &P, letters: &[u8]) {
    let found = answer_of(rt, params_of(alloc, pairs));
    same_in(rt, &found, &named(rt, alloc, letters), &letters);
}

// The pairs are refused for this name.
fn is_redefined<P: ToPairs>(rt: &impl Abort, alloc: Global, pairs: &P, name: &[u8]) {
    let refusal = ToParamsError::Redefined(answer_of(rt, Vec::from_slice(alloc, name)));
    same_in(rt, &params_of(alloc, pairs).err(), &Some(refusal), &name);
}

// A name and a number.
type Pair = (&'static str, u8);

const A: Pair = ("a", 1);

const B: Pair = ("b", 2);

const C: Pair = ("c", 3);

const D: Pair = ("d", 4);

const E: Pair = ("e", 5);

const F: Pair = ("f", 6);

const G: Pair = ("g", 7);

const H: Pair = ("h", 8);

const I: Pair = ("i", 9);

const J: Pair = ("j", 10);

const K: Pair = ("k", 11);

const L: Pair = ("l", 12);

const FIVE: (Pair, Pair, Pair, Pair, Pair) = (A, B, C, D, E);

const SIX: (Pair, Pair, Pair, Pair, Pair, Pair) = (A, B, C, D, E, F);

const SEVEN: (Pair, Pair, Pair, Pair, Pair, Pair, Pair) = (A, B, C, D, E, F, G);

const EIGHT: (Pair, Pair, Pair, Pair, Pair, Pair, Pair, Pair) = (A, B, C, D, E, F, G, H);

const NINE: (Pair, Pair, Pair, Pair, Pair, Pair, Pair, Pair, Pair) = (A, B, C, D, E, F, G, H, I);

const TEN: (Pair, Pair, Pair, Pair, Pair, Pair, Pair, Pair, Pair, Pair) = (
    A, B, C, D, E, F, G, H, I, J,
);

const ELEVEN: (
    Pair,
    Pair,
    Pair,
    Pair,
    Pair,
    Pair,
    Pair,
    Pair,
    Pair,
    Pair,
    Pair,
) = (A, B, C, D, E, F, G, H, I, J, K);

const TWELVE: (
    Pair,
    Pair,
    Pair,
    Pair,
    Pair,
    Pair,
    Pair,
    Pair,
    Pair,
    Pair,
    Pair,
    Pair,
) = (A, B, C, D, E, F, G, H, I, J, K, L);

#[test]
fn up_to_four_pairs(rt: HostRuntime) {
    makes(&rt, rt.alloc(), &(A,), b"a");
    makes(&rt, rt.alloc(), &(A, ("b", 2u64)), b"ab");
    makes(&rt, rt.alloc(), &(A, B, C), b"abc");
    makes(&rt, rt.alloc(), &(A, B, C, D), b"abcd");
}

#[test]
fn five_to_eight_pairs(rt: HostRuntime) {
    makes(&rt, rt.alloc(), &FIVE, b"abcde");
    makes(&rt, rt.alloc(), &SIX, b"abcdef");
    makes(&rt, rt.alloc(), &SEVEN, b"abcdefg");
    makes(&rt, rt.alloc(), &EIGHT, b"abcdefgh");
}

#[test]
fn nine_to_twelve_pairs(rt: HostRuntime) {
    makes(&rt, rt.alloc(), &NINE, b"abcdefghi");
    makes(&rt, rt.alloc(), &TEN, b"abcdefghij");
    makes(&rt, rt.alloc(), &ELEVEN, b"abcdefghijk");
    makes(&rt, rt.alloc(), &TWELVE, b"abcdefghijkl");
}

#[test]
fn repeated_names(rt: HostRuntime) {
    is_redefined(&rt, rt.alloc(), &(A, A), b"a");
    is_redefined(&rt, rt.alloc(), &(A, B, B), b"b");
    is_redefined(&rt, rt.alloc(), &(A, B, C, B, A), b"b");
    is_redefined(&rt, rt.alloc(), &(("", 1u8), ("", 2u8)), b"");
}

// A function's own text is lent to the pairs.
fn named_text(alloc: Global, text: &str) -> Result<Params, ToParamsError> {
    (("b", text), ("a", None::<u8>)).to_named(alloc)
}

#[test]
fn a_lent_text(rt: HostRuntime) {
    let alloc = rt.alloc();
    let pairs = [("a", None::<&str>), ("b", Some("it's"))];
    let found = answer_of(&rt, named_text(alloc, "it's"));
    let wanted = answer_of(&rt, Params::from_pairs(alloc, &pairs));
    same(&rt, &found, &wanted);
}
