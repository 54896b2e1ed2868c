//! Bytes that are no form: each gets an answer or a named refusal.
use crate::shared::{FORM, QUERY, answer_of, refuses, same_in};
use mysql_flat_params::{Outcome, bind_into};
use std::alloc::Global;
use std::process::Abort;

// The refusal of a form of one or two bytes: none of them is a parameter.
fn refusal_of_two(first: u8) -> Outcome {
    match first {
        0xFB | 0xFF => Outcome::FormLengthLead {
            place: 0,
            position: 0,
            lead: first,
        },
        _ => Outcome::FormEnd {
            place: 0,
            position: 0,
        },
    }
}

#[test]
fn every_form_of_up_to_two_bytes(rt: HostRuntime) {
    let alloc = rt.alloc();
    for first in 0..=255u8 {
        refuses(&rt, alloc, b"", &[first], refusal_of_two(first));
        for second in 0..=255u8 {
            refuses(&rt, alloc, b"", &[first, second], refusal_of_two(first));
        }
    }
}

// The answer to a form of three bytes over the empty query: only a nameless parameter of a type
// without a value, NULL, stands whole in it.
fn outcome_of_three(first: u8, second: u8) -> Outcome {
    match (first, second) {
        (0, 6) => Outcome::MarkCount {
            marks: 0,
            values: 1,
        },
        (0, 17..=241 | 243 | 244) => Outcome::FormType {
            place: 0,
            position: 0,
            number: second,
        },
        _ => refusal_of_two(first),
    }
}

// Whatever the third byte is, the answer to a form that begins so is this, and the room is left.
fn answers_all_thirds(rt: &impl Abort, alloc: Global, first: u8, second: u8, wanted: Outcome) {
    let mut room = [b'#'; 8];
    let mut all = true;
    for third in 0..=255u8 {
        let outcome = bind_into(alloc, b"", &[first, second, third], false, &mut room);
        all = all && outcome == wanted;
    }
    let case = (first, second, "and a third byte");
    same_in(rt, all, true, &case);
    same_in(rt, room, [b'#'; 8], &case);
}

#[test]
fn every_form_of_three_bytes(rt: HostRuntime) {
    for first in 0..=255u8 {
        for second in 0..=255u8 {
            let wanted = outcome_of_three(first, second);
            answers_all_thirds(&rt, rt.alloc(), first, second, wanted);
        }
    }
}

// What becomes of the form of README's example, cut off at this byte. Its first parameter has 13
// bytes.
fn outcome_of_cut(at: usize) -> Outcome {
    match at {
        0 => Outcome::Missing {
            place: 0,
            position: 8,
            len: 2,
        },
        13 => Outcome::Missing {
            place: 1,
            position: 20,
            len: 4,
        },
        1..13 => Outcome::FormEnd {
            place: 0,
            position: 0,
        },
        _ => Outcome::FormEnd {
            place: 1,
            position: 13,
        },
    }
}

#[test]
fn a_form_cut_at_every_byte(rt: HostRuntime) {
    for at in 0..FORM.len() {
        refuses(&rt, rt.alloc(), QUERY, &FORM[..at], outcome_of_cut(at));
    }
}

// Binding over the form of README's example with this byte at this place doesn't run out of memory.
fn has_its_memory(rt: &impl Abort, alloc: Global, at: usize, byte: u8) {
    let mut form = answer_of(rt, Vec::from_slice(alloc, FORM));
    if let Some(place) = form.get_mut(at) {
        *place = byte;
    }
    let mut room = [b'#'; 400];
    let outcome = bind_into(alloc, QUERY, &form, false, &mut room);
    same_in(rt, outcome == Outcome::OutOfMemory, false, &(at, byte));
}

#[test]
fn a_form_with_every_byte_changed(rt: HostRuntime) {
    for at in 0..FORM.len() {
        for byte in 0..=255u8 {
            has_its_memory(&rt, rt.alloc(), at, byte);
        }
    }
}
