//! Both commands over readers and writers that give and take a byte a call, and fail at a stated
//! call: how often they are called, and what was written.
use crate::program_shared::{Fault, Faults, Told, leaves};
use std::alloc::Global;
use std::process::Abort;

/// A command, a query, and what is written for it.
type Case = (&'static [&'static str], &'static [u8], &'static [u8]);

const NAMES: Case = (&["names"], b":a :b", b"? ?\na\nb\n");

const BIND: Case = (&["bind", "a=i:-3", "b=s:it's"], b":a :b", b"-3 'it\\'s'");

const NO_FAULTS: Faults = Faults {
    read: 0,
    write: 0,
    fault: Fault::Fails,
};

/// A read for each byte and one for the end; a write for each byte.
fn ends(rt: &impl Abort, alloc: Global, (texts, query, wanted): Case) {
    let calls = (Told::Nothing, query.len() + 1, wanted.len(), wanted);
    leaves(rt, alloc, (texts, query), NO_FAULTS, calls);
}

#[test]
fn nothing_is_read_after_the_end(rt: HostRuntime) {
    ends(&rt, rt.alloc(), NAMES);
    ends(&rt, rt.alloc(), BIND);
}

/// Words, a query, what is told, and how often the query is read.
const REFUSED: &[(&[&str], &[u8], Told, usize)] = &[
    (&["names"], b":a ?", Told::Mixed, 5),
    (&["bind", "a=i:1"], b":a ?", Told::Bind, 5),
    (&["bind", "a=i:1"], b"x:a", Told::Bind, 4),
    (&["bind"], b"?", Told::Bind, 2),
    // Words are judged before anything is read.
    (&["names", "x"], b":a", Told::Usage, 0),
    (&["bind", "a=i:9223372036854775808"], b":a", Told::Usage, 0),
    (&["bind", "a=="], b":a", Told::Usage, 0),
    (&["bind", "a=i:1", "=null"], b":a", Told::Usage, 0),
    (&["bind", "a=i:1", "a=i:2"], b":a", Told::Redefined, 0),
];

#[test]
fn nothing_is_written_after_a_refusal(rt: HostRuntime) {
    for (texts, query, told, reads) in REFUSED {
        let left = (*told, *reads, 0, b"".as_slice());
        leaves(&rt, rt.alloc(), (*texts, *query), NO_FAULTS, left);
    }
}

/// The reader fails at each of its calls in turn; nothing more is read, or written.
fn fails_to_read(rt: &impl Abort, alloc: Global, (texts, query, _): Case) {
    for read in 1..=query.len() + 1 {
        let faults = Faults {
            read,
            write: 0,
            fault: Fault::Fails,
        };
        let left = (Told::Read, read, 0, b"".as_slice());
        leaves(rt, alloc, (texts, query), faults, left);
    }
}

#[test]
fn a_failed_read_is_told_and_not_repeated(rt: HostRuntime) {
    fails_to_read(&rt, rt.alloc(), NAMES);
    fails_to_read(&rt, rt.alloc(), BIND);
}

/// The writer has its fault at each of its calls in turn; nothing more is written, or read.
fn fails_to_write(rt: &impl Abort, alloc: Global, (texts, query, wanted): Case, fault: Fault) {
    for write in 1..=wanted.len() {
        let faults = Faults {
            read: 0,
            write,
            fault,
        };
        let left = (Told::Write, query.len() + 1, write, &wanted[..write - 1]);
        leaves(rt, alloc, (texts, query), faults, left);
    }
}

#[test]
fn a_failed_write_is_told_and_not_repeated(rt: HostRuntime) {
    fails_to_write(&rt, rt.alloc(), NAMES, Fault::Fails);
    fails_to_write(&rt, rt.alloc(), NAMES, Fault::TakesNothing);
    fails_to_write(&rt, rt.alloc(), BIND, Fault::Fails);
    fails_to_write(&rt, rt.alloc(), BIND, Fault::TakesNothing);
}
