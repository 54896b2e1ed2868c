//! What both forms use: types of numbers, and places of names.
use crate::shared::{WITH_BACKSLASHES, WITHOUT_BACKSLASHES, same_in};
use mysql_flat_params::{column_type, name_place};
use mysql_wire_part::ColumnType;

/// Numbers of the protocol, and the type of each. None has 21.
const TYPES: &[(u8, Option<ColumnType>)] = &[
    (3, Some(ColumnType::MYSQL_TYPE_LONG)),
    (8, Some(ColumnType::MYSQL_TYPE_LONGLONG)),
    (246, Some(ColumnType::MYSQL_TYPE_NEWDECIMAL)),
    (253, Some(ColumnType::MYSQL_TYPE_VAR_STRING)),
    (21, None),
];

#[test]
fn types_of_columns(rt: HostRuntime) {
    for (number, wanted) in TYPES {
        same_in(&rt, column_type(*number), *wanted, number);
    }
}

/// Queries, names and modes, and the number and the first byte of the name's first place.
const PLACES: &[(&[u8], &[u8], bool, Option<(usize, usize)>)] = &[
    (
        b"SELECT :id, ':b', :b, :b",
        b"b",
        WITH_BACKSLASHES,
        Some((1, 19)),
    ),
    (b"SELECT :id, ':b', :b, :b", b"c", WITH_BACKSLASHES, None),
    (b"'\\', :a, ' :b'", b"b", WITH_BACKSLASHES, Some((0, 12))),
    (b"'\\', :a, ' :b'", b"a", WITHOUT_BACKSLASHES, Some((0, 6))),
    (b"'\\', :a, ' :b'", b"a", WITH_BACKSLASHES, None),
];

#[test]
fn first_places_of_names(rt: HostRuntime) {
    for (query, name, mode, wanted) in PLACES {
        same_in(
            &rt,
            name_place(*query, *name, *mode),
            *wanted,
            &(query, name),
        );
    }
}
