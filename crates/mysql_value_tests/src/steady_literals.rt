//! Steady literals: how long they are, and how they fill a slice.
use crate::shared::{Plain, same_in, value};
use mysql_steady_text::steady_literal::{put_steady, steady_len};
use mysql_values::value::Value;

// Values, and their steady literals. MySQL 9.7 and MariaDB 11.8 read literals of bytes of these
// forms as these bytes, in both modes and over every character set that they have.
const LITERALS: &[(Plain, &[u8])] = &[
    (Plain::Bytes(b""), b"_utf8mb4''"),
    (Plain::Bytes(b"it's"), b"_utf8mb4'it''s'"),
    (Plain::Bytes(b"''"), b"_utf8mb4''''''"),
    (Plain::Bytes(b" \"!~"), b"_utf8mb4' \"!~'"),
    (Plain::Bytes(b"_utf8mb4 0x41"), b"_utf8mb4'_utf8mb4 0x41'"),
    // The bytes beside those that a string holds, and the backslash.
    (Plain::Bytes(b"\x1f"), b"_utf8mb4 0x1F"),
    (Plain::Bytes(b"\x7f"), b"_utf8mb4 0x7F"),
    (Plain::Bytes(b"\\"), b"_utf8mb4 0x5C"),
    (
        Plain::Bytes(b"\\' OR 1=1 -- "),
        b"_utf8mb4 0x5C27204F5220313D31202D2D20",
    ),
    (Plain::Bytes(b"a\nb"), b"_utf8mb4 0x610A62"),
    (Plain::Bytes(b"\x00"), b"_utf8mb4 0x00"),
    (Plain::Bytes(b"caf\xc3\xa9"), b"_utf8mb4 0x636166C3A9"),
    (Plain::Bytes(b"\xf0\x9f\x98\x80"), b"_utf8mb4 0xF09F9880"),
    // These aren't UTF-8: over gbk the first two are one letter.
    (Plain::Bytes(b"\xbf' OR 1=1"), b"0xBF27204F5220313D31"),
    (Plain::Bytes(b"\xff"), b"0xFF"),
    // Others as they are.
    (Plain::Null, b"NULL"),
    (Plain::Int(-42), b"-42"),
    (Plain::UInt(42), b"42"),
    (Plain::Date(2019, 11, 27, 0, 0, 0, 0), b"'2019-11-27'"),
    (Plain::Time(true, 1, 2, 3, 4, 0), b"'-026:03:04'"),
];

#[test]
fn literals(rt: HostRuntime) {
    for (plain, literal) in LITERALS {
        let value = value(&rt, rt.alloc(), *plain);
        // The call below needs this fact, which no call hands on.
        assert!(rt;
            steady_len(&value) == Some(literal.len() as u128),
            "{value:?}"
        );
        let mut room = vec![in rt.alloc(); 0xFFu8; literal.len()].expect(&rt, "no memory");
        put_steady(&value, room.as_mut_slice());
        same_in(&rt, room.as_slice(), *literal, &value);
    }
}

#[test]
fn floats_have_none(rt: HostRuntime) {
    let found = (steady_len(&Value::Float(0)), steady_len(&Value::Double(0)));
    same_in(&rt, found, (None, None), &"floats");
}
