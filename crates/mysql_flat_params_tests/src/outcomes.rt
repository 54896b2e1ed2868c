//! Outcomes as numbers and fields.
use crate::shared::same_in;
use mysql_flat_params::{Outcome, Report};

/// Outcomes, their numbers, and their fields: length, place, position, marks, values, byte.
const OUTCOMES: &[(Outcome, i32, [usize; 6])] = &[
    (Outcome::Done { len: 9 }, 0, [9, 0, 0, 0, 0, 0]),
    (Outcome::OutOfMemory, 1, [0, 0, 0, 0, 0, 0]),
    (Outcome::Room { len: 9 }, 2, [9, 0, 0, 0, 0, 0]),
    (
        Outcome::FormEnd {
            place: 1,
            position: 2,
        },
        3,
        [0, 1, 2, 0, 0, 0],
    ),
    (
        Outcome::FormLengthLead {
            place: 1,
            position: 2,
            lead: 251,
        },
        4,
        [0, 1, 2, 0, 0, 251],
    ),
    (
        Outcome::FormType {
            place: 1,
            position: 2,
            number: 17,
        },
        5,
        [0, 1, 2, 0, 0, 17],
    ),
    (
        Outcome::FormMixed {
            place: 1,
            position: 2,
        },
        6,
        [0, 1, 2, 0, 0, 0],
    ),
    (
        Outcome::FormRepeated {
            place: 1,
            position: 2,
            len: 3,
        },
        7,
        [3, 1, 2, 0, 0, 0],
    ),
    (Outcome::Mixed, 8, [0, 0, 0, 0, 0, 0]),
    (
        Outcome::Missing {
            place: 1,
            position: 2,
            len: 3,
        },
        9,
        [3, 1, 2, 0, 0, 0],
    ),
    (Outcome::NamedForPositional, 10, [0, 0, 0, 0, 0, 0]),
    (Outcome::PositionalForNamed, 11, [0, 0, 0, 0, 0, 0]),
    (
        Outcome::MarkCount {
            marks: 4,
            values: 5,
        },
        12,
        [0, 0, 0, 4, 5, 0],
    ),
    (
        Outcome::NotAlone {
            place: 1,
            position: 2,
        },
        13,
        [0, 1, 2, 0, 0, 0],
    ),
    (Outcome::Float { place: 1 }, 14, [0, 1, 0, 0, 0, 0]),
    (Outcome::Unsteady { position: 2 }, 15, [0, 0, 2, 0, 0, 0]),
    (
        Outcome::Unportable {
            number: 6,
            position: 2,
        },
        16,
        [0, 0, 2, 0, 0, 6],
    ),
    // 17 is a fragment that can't be written (`mysql_flat_params`).
    (Outcome::Backslash { position: 2 }, 18, [0, 0, 2, 0, 0, 0]),
];

#[test]
fn numbers_and_fields(rt: HostRuntime) {
    for (outcome, number, [len, place, position, marks, values, byte]) in OUTCOMES {
        let wanted = Report {
            len: *len,
            place: *place,
            position: *position,
            marks: *marks,
            values: *values,
            byte: *byte,
        };
        same_in(&rt, outcome.number(), *number, outcome);
        same_in(&rt, Outcome::report(*outcome), wanted, outcome);
    }
}
