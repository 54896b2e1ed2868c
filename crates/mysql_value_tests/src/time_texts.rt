//! The reader of time texts.
use crate::shared::same_in;
use mysql_sql_text::time_text::read_time_text;

// Texts, whether each is negative, and its microseconds.
const TEXTS: &[(&[u8], Option<(bool, u64)>)] = &[
    (b"00:00:00", Some((false, 0))),
    (b"-00:00:00", Some((true, 0))),
    (b"00:00:00.000001", Some((false, 1))),
    (b"00:00:00.5", Some((false, 500_000))),
    (b"00:00:00.05", Some((false, 50_000))),
    (b"00:00:00.0", Some((false, 0))),
    (b"00:00:59", Some((false, 59_000_000))),
    (b"00:59:00", Some((false, 3_540_000_000))),
    (b"000:00:01", Some((false, 1_000_000))),
    (b"99:58:58.000001", Some((false, 359_938_000_001))),
    (b"099:58:58.000001", Some((false, 359_938_000_001))),
    (b"899:59:59.5", Some((false, 3_239_999_500_000))),
    (b"-899:58:58.999999", Some((true, 3_239_938_999_999))),
    // Others are not read.
    (b"", None),
    (b"-", None),
    (b":", None),
    (b"00", None),
    (b"00:00", None),
    (b"00:00:", None),
    (b"00:00:0", None),
    (b"0:00:00", None),
    (b"1:00:00", None),
    (b"0000:00:00", None),
    (b"900:00:00", None),
    (b"999:00:00", None),
    (b"00:0:00", None),
    (b"00:60:00", None),
    (b"00:00:60", None),
    (b"00:000:00", None),
    (b"00:00:000", None),
    (b"00-00-00", None),
    (b"00:00:00.", None),
    (b"00:00:00.1234567", None),
    (b"00:00:00.12345a", None),
    (b"00:00:00,5", None),
    (b"00:00:00 ", None),
    (b" 00:00:00", None),
    (b"+00:00:00", None),
    (b"--00:00:00", None),
    (b"0a:00:00", None),
    // An Arabic-Indic zero and a superscript two, which are no ASCII digits.
    (b"\xD9\xA0\xD9\xA0:00:00", None),
    (b"00:00:0\xD9\xA0.5", None),
    (b"00:00:00.1\xC2\xB2", None),
];

#[test]
fn time_texts(rt: HostRuntime) {
    for (text, wanted) in TEXTS {
        same_in(&rt, read_time_text(*text), *wanted, text);
    }
}
