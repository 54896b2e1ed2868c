//! What is refused, in the order of the causes.
use crate::steady_shared::Plain::{
    Assignments, Decimal, Float, Identifier, Identifiers, Qualified, Text,
};
use crate::steady_shared::{Plain, steadily_bound};
use mysql_fragments::{FragmentFault, FragmentsError, SteadyFragmentsError};
use mysql_portable::portable::{Construct, Unportable};
use std::alloc::Global;

/// A refusal as plain data.
#[derive(Clone, Copy)]
enum Refused {
    Unsteady(usize),
    Bracket(usize),
    Mixed,
    Float(usize),
    Number(usize),
    UnsteadyFragment(usize),
}

// Each query has the cause that is told, and all that come after it.
const REFUSED: &[(&[u8], &[Plain], Refused)] = &[
    (
        b"a[1]?:a '\\",
        &[Float(0), Identifier(b"\\a")],
        Refused::Unsteady(9),
    ),
    (
        b"a[1] ? :a",
        &[Float(0), Identifier(b"\\a")],
        Refused::Bracket(1),
    ),
    (b"? :a", &[Float(0), Identifier(b"\\a")], Refused::Mixed),
    (
        b"? ? ?",
        &[Identifier(b"\\a"), Decimal(b"x"), Float(0)],
        Refused::Float(2),
    ),
    (
        b"? ?",
        &[Identifier(b"\\a"), Decimal(b"x")],
        Refused::Number(1),
    ),
    (
        b"? ?",
        &[Text(b"\\"), Identifier(b"a\\b")],
        Refused::UnsteadyFragment(1),
    ),
    (
        b"? ?",
        &[Qualified(&[b"a", &[0xC3, 0xA9]]), Identifier(b"\\a")],
        Refused::UnsteadyFragment(0),
    ),
    (
        b"? ?",
        &[
            Identifiers(&[&[b"a"], &[b"b"]]),
            Identifiers(&[&[b"a"], &[b"t", b"\\b"]]),
        ],
        Refused::UnsteadyFragment(1),
    ),
    (
        b"? ?",
        &[
            Assignments(&[(&[b"a"], b"\\")]),
            Assignments(&[(&[b"a"], b"x"), (&[b"b\\c"], b"x")]),
        ],
        Refused::UnsteadyFragment(1),
    ),
];

fn is_fault(error: FragmentsError, refused: Refused) -> bool {
    match (error, refused) {
        (FragmentsError::Mixed, Refused::Mixed) => true,
        (FragmentsError::Float { place }, Refused::Float(wanted)) => place == wanted,
        (FragmentsError::Fault { place, fault }, Refused::Number(wanted)) => {
            place == wanted && fault == FragmentFault::Number { row: 0, item: 0 }
        }
        _ => false,
    }
}

fn is_refused(alloc: Global, query: &[u8], plain: &[Plain], refused: Refused) -> bool {
    match steadily_bound(alloc, query, plain, true) {
        Ok(_) => false,
        Err(SteadyFragmentsError::Unsteady { at }) =>
            matches!(refused, Refused::Unsteady(wanted) if wanted == at),
        Err(SteadyFragmentsError::Unportable(found)) => match refused {
            Refused::Bracket(at) => found
                == Unportable {
                    construct: Construct::Bracket,
                    at,
                },
            _ => false,
        },
        Err(SteadyFragmentsError::Fragments(error)) => is_fault(error, refused),
        Err(SteadyFragmentsError::UnsteadyFragment { place }) => {
            matches!(refused, Refused::UnsteadyFragment(wanted) if wanted == place)
        }
    }
}

#[test]
fn the_first_cause_is_told(rt: HostRuntime) {
    for (query, plain, refused) in REFUSED {
        let told = is_refused(rt.alloc(), *query, *plain, *refused);
        assert!(rt; told);
    }
}
