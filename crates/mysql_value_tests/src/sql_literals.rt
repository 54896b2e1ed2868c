//! SQL literals of values.
use crate::shared::Plain::{Bytes, Date, Double, Float, Int, Null, Time, UInt};
use crate::shared::{Plain, answer_of, bytes, same_in, value, value_ref};
use mysql_values::value::{AsSqlError, ValueRef};

// Values, whether without backslash escapes, and their literals. Only texts differ by the mode.
const LITERALS: &[(Plain, bool, &str)] = &[
    (Bytes(b""), false, "''"),
    (Bytes(b""), true, "''"),
    (Bytes(b"it's"), false, "'it\\'s'"),
    (Bytes(b"it's"), true, "'it''s'"),
    (Bytes(b"\\'"), false, "'\\\\\\''"),
    (Bytes(b"\\'"), true, "'\\'''"),
    (Bytes(b"''"), false, "'\\'\\''"),
    (Bytes(b"''"), true, "''''''"),
    (
        Bytes(b"\x00\n\r\x1A\\'\""),
        false,
        "'\\0\\n\\r\\Z\\\\\\'\\\"'",
    ),
    (Bytes(b"\x00\n\r\x1A\\'\""), true, "'\x00\n\r\x1A\\''\"'"),
    (Bytes(b"?p??\\\\?p??"), false, "'?p??\\\\\\\\?p??'"),
    (Bytes(b"?p??\\\\?p??"), true, "'?p??\\\\?p??'"),
    (Bytes(b"?p??\"?p??"), false, "'?p??\\\"?p??'"),
    (Bytes(b"?p??\"?p??"), true, "'?p??\"?p??'"),
    (Bytes(b"?p??'?p??"), false, "'?p??\\'?p??'"),
    (Bytes(b"?p??'?p??"), true, "'?p??''?p??'"),
    (Bytes(b"?p??\n?p??"), false, "'?p??\\n?p??'"),
    (Bytes(b"?p??\n?p??"), true, "'?p??\n?p??'"),
    (Bytes(b"?p??\r?p??"), false, "'?p??\\r?p??'"),
    (Bytes(b"?p??\r?p??"), true, "'?p??\r?p??'"),
    (Bytes(b"?p??\x00?p??"), false, "'?p??\\0?p??'"),
    (Bytes(b"?p??\x00?p??"), true, "'?p??\x00?p??'"),
    // UTF-8 of one to four bytes a character stays.
    (
        Bytes(b"a\xC3\xA9\xE2\x82\xAC\xF0\x9F\x98\x80%_"),
        false,
        "'a\u{E9}\u{20AC}\u{1F600}%_'",
    ),
    (
        Bytes(b"a\xC3\xA9\xE2\x82\xAC\xF0\x9F\x98\x80%_"),
        true,
        "'a\u{E9}\u{20AC}\u{1F600}%_'",
    ),
    // No UTF-8: a lone first byte, one before a quote, an overlong zero, a surrogate.
    (Bytes(b"\xC3\x28"), false, "0xC328"),
    (Bytes(b"\xC3\x28"), true, "0xC328"),
    (Bytes(b"\xE9'"), false, "0xE927"),
    (Bytes(b"\xC0\x80"), false, "0xC080"),
    (Bytes(b"\xED\xA0\x80"), false, "0xEDA080"),
    // Each byte below 128.
    (
        Bytes(b"\x00\x01\x02\x03\x04\x05\x06\x07\x08\x09\x0a\x0b\x0c\x0d\x0e\x0f"),
        false,
        "'\\0\x01\x02\x03\x04\x05\x06\x07\x08\x09\\n\x0b\x0c\\r\x0e\x0f'",
    ),
    (
        Bytes(b"\x00\x01\x02\x03\x04\x05\x06\x07\x08\x09\x0a\x0b\x0c\x0d\x0e\x0f"),
        true,
        "'\x00\x01\x02\x03\x04\x05\x06\x07\x08\x09\x0a\x0b\x0c\x0d\x0e\x0f'",
    ),
    (
        Bytes(b"\x10\x11\x12\x13\x14\x15\x16\x17\x18\x19\x1a\x1b\x1c\x1d\x1e\x1f"),
        false,
        "'\x10\x11\x12\x13\x14\x15\x16\x17\x18\x19\\Z\x1b\x1c\x1d\x1e\x1f'",
    ),
    (
        Bytes(b"\x10\x11\x12\x13\x14\x15\x16\x17\x18\x19\x1a\x1b\x1c\x1d\x1e\x1f"),
        true,
        "'\x10\x11\x12\x13\x14\x15\x16\x17\x18\x19\x1a\x1b\x1c\x1d\x1e\x1f'",
    ),
    (
        Bytes(b" !\"#$%&'()*+,-./"),
        false,
        "' !\\\"#$%&\\'()*+,-./'",
    ),
    (Bytes(b" !\"#$%&'()*+,-./"), true, "' !\"#$%&''()*+,-./'"),
    (Bytes(b"0123456789:;<=>?"), false, "'0123456789:;<=>?'"),
    (Bytes(b"0123456789:;<=>?"), true, "'0123456789:;<=>?'"),
    (Bytes(b"@ABCDEFGHIJKLMNO"), false, "'@ABCDEFGHIJKLMNO'"),
    (Bytes(b"@ABCDEFGHIJKLMNO"), true, "'@ABCDEFGHIJKLMNO'"),
    (Bytes(b"PQRSTUVWXYZ[\\]^_"), false, "'PQRSTUVWXYZ[\\\\]^_'"),
    (Bytes(b"PQRSTUVWXYZ[\\]^_"), true, "'PQRSTUVWXYZ[\\]^_'"),
    (Bytes(b"`abcdefghijklmno"), false, "'`abcdefghijklmno'"),
    (Bytes(b"`abcdefghijklmno"), true, "'`abcdefghijklmno'"),
    (
        Bytes(b"pqrstuvwxyz{|}~\x7f"),
        false,
        "'pqrstuvwxyz{|}~\x7f'",
    ),
    (Bytes(b"pqrstuvwxyz{|}~\x7f"), true, "'pqrstuvwxyz{|}~\x7f'"),
    // Each other byte.
    (
        Bytes(b"\x80\x81\x82\x83\x84\x85\x86\x87\x88\x89\x8a\x8b\x8c\x8d\x8e\x8f"),
        false,
        "0x808182838485868788898A8B8C8D8E8F",
    ),
    (
        Bytes(b"\x80\x81\x82\x83\x84\x85\x86\x87\x88\x89\x8a\x8b\x8c\x8d\x8e\x8f"),
        true,
        "0x808182838485868788898A8B8C8D8E8F",
    ),
    (
        Bytes(b"\x90\x91\x92\x93\x94\x95\x96\x97\x98\x99\x9a\x9b\x9c\x9d\x9e\x9f"),
        false,
        "0x909192939495969798999A9B9C9D9E9F",
    ),
    (
        Bytes(b"\xa0\xa1\xa2\xa3\xa4\xa5\xa6\xa7\xa8\xa9\xaa\xab\xac\xad\xae\xaf"),
        false,
        "0xA0A1A2A3A4A5A6A7A8A9AAABACADAEAF",
    ),
    (
        Bytes(b"\xb0\xb1\xb2\xb3\xb4\xb5\xb6\xb7\xb8\xb9\xba\xbb\xbc\xbd\xbe\xbf"),
        false,
        "0xB0B1B2B3B4B5B6B7B8B9BABBBCBDBEBF",
    ),
    (
        Bytes(b"\xc0\xc1\xc2\xc3\xc4\xc5\xc6\xc7\xc8\xc9\xca\xcb\xcc\xcd\xce\xcf"),
        false,
        "0xC0C1C2C3C4C5C6C7C8C9CACBCCCDCECF",
    ),
    (
        Bytes(b"\xd0\xd1\xd2\xd3\xd4\xd5\xd6\xd7\xd8\xd9\xda\xdb\xdc\xdd\xde\xdf"),
        false,
        "0xD0D1D2D3D4D5D6D7D8D9DADBDCDDDEDF",
    ),
    (
        Bytes(b"\xe0\xe1\xe2\xe3\xe4\xe5\xe6\xe7\xe8\xe9\xea\xeb\xec\xed\xee\xef"),
        false,
        "0xE0E1E2E3E4E5E6E7E8E9EAEBECEDEEEF",
    ),
    (
        Bytes(b"\xf0\xf1\xf2\xf3\xf4\xf5\xf6\xf7\xf8\xf9\xfa\xfb\xfc\xfd\xfe\xff"),
        false,
        "0xF0F1F2F3F4F5F6F7F8F9FAFBFCFDFEFF",
    ),
    (Bytes(b"\x00"), false, "'\\0'"),
    (Bytes(b"\x00"), true, "'\x00'"),
    (Null, false, "NULL"),
    (Null, true, "NULL"),
    (Int(0), false, "0"),
    (Int(1), false, "1"),
    (Int(-3), false, "-3"),
    (Int(9223372036854775807), false, "9223372036854775807"),
    (Int(-9223372036854775808), false, "-9223372036854775808"),
    (Int(-9223372036854775808), true, "-9223372036854775808"),
    (UInt(0), false, "0"),
    (UInt(1), false, "1"),
    (UInt(10), false, "10"),
    (UInt(18446744073709551615), false, "18446744073709551615"),
    (Date(0, 0, 0, 0, 0, 0, 0), false, "'0000-00-00'"),
    (Date(2019, 11, 27, 0, 0, 0, 0), false, "'2019-11-27'"),
    (
        Date(2019, 11, 27, 12, 30, 0, 123456),
        false,
        "'2019-11-27 12:30:00.123456'",
    ),
    // Six digits of microseconds at least, also if all others are zero.
    (
        Date(12, 1, 2, 3, 4, 5, 99999),
        false,
        "'0012-01-02 03:04:05.099999'",
    ),
    (
        Date(2019, 1, 2, 0, 0, 0, 7),
        false,
        "'2019-01-02 00:00:00.000007'",
    ),
    (Date(2019, 1, 2, 1, 0, 0, 0), false, "'2019-01-02 01:00:00'"),
    (Date(2019, 1, 2, 0, 1, 0, 0), false, "'2019-01-02 00:01:00'"),
    (Date(2019, 1, 2, 0, 0, 1, 0), false, "'2019-01-02 00:00:01'"),
    (
        Date(65535, 255, 255, 0, 0, 0, 4294967295),
        false,
        "'65535-255-255 00:00:00.4294967295'",
    ),
    (
        Date(65535, 255, 255, 0, 0, 0, 4294967295),
        true,
        "'65535-255-255 00:00:00.4294967295'",
    ),
    (Time(false, 0, 0, 0, 0, 0), false, "'000:00:00'"),
    (Time(true, 0, 0, 0, 0, 0), false, "'-000:00:00'"),
    (Time(false, 4, 3, 2, 1, 0), false, "'099:02:01'"),
    (Time(false, 0, 0, 0, 0, 12), false, "'000:00:00.000012'"),
    (
        Time(false, 1, 255, 100, 200, 1000000),
        false,
        "'279:100:200.1000000'",
    ),
    (
        Time(true, 300, 8, 8, 8, 123456),
        false,
        "'-7208:08:08.123456'",
    ),
    (
        Time(true, 300, 8, 8, 8, 123456),
        true,
        "'-7208:08:08.123456'",
    ),
    (
        Time(false, 4294967295, 255, 0, 0, 0),
        false,
        "'103079215335:00:00'",
    ),
];

#[test]
fn literals(rt: HostRuntime) {
    for (plain, no_backslash_escape, literal) in LITERALS {
        let value = value(&rt, rt.alloc(), *plain);
        let found = answer_of(&rt, value.as_sql(rt.alloc(), *no_backslash_escape));
        let found = (found.as_str(), value.sql_len(*no_backslash_escape));
        same_in(&rt, found, (*literal, Some(literal.len() as u128)), &value);
        let borrowed = value_ref(*plain);
        let found = answer_of(&rt, borrowed.as_sql(rt.alloc(), *no_backslash_escape));
        let found = (found.as_str(), borrowed.sql_len(*no_backslash_escape));
        same_in(
            &rt,
            found,
            (*literal, Some(literal.len() as u128)),
            &borrowed,
        );
    }
}

#[test]
fn a_literal_in_a_room(rt: HostRuntime) {
    let value = bytes(&rt, rt.alloc(), b"it's");
    let mut room = [0xFFu8; 7];
    // The call below needs this fact, which no call hands on.
    assert!(rt; value.sql_len(false) == Some(7));
    value.put_sql(false, &mut room);
    same_in(&rt, room.as_slice(), b"'it\\'s'", &"a room");
}

#[test]
fn a_borrowed_literal_in_a_room(rt: HostRuntime) {
    let value = ValueRef::Bytes(b"it's");
    let mut room = [0xFFu8; 7];
    assert!(rt; value.sql_len(true) == Some(7));
    value.put_sql(true, &mut room);
    same_in(&rt, room.as_slice(), b"'it''s'", &"a room");
}

const FLOATS: &[(Plain, bool)] = &[
    (Float(0), false),
    (Float(0), true),
    (Double(0), false),
    (Double(0), true),
];

#[test]
fn floats_have_no_literal(rt: HostRuntime) {
    let wanted = Some(AsSqlError::Float);
    for (plain, no_backslash_escape) in FLOATS {
        let value = value(&rt, rt.alloc(), *plain);
        let refusal = value.as_sql(rt.alloc(), *no_backslash_escape).err();
        let found = (&refusal, value.sql_len(*no_backslash_escape));
        same_in(&rt, found, (&wanted, None), &value);
    }
}
