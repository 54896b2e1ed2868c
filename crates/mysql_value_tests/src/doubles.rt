//! Doubles as numbers with an exponent.
use crate::shared::same_in;
use mysql_float_literal::Double;

// The bits of doubles, and their numbers. The digits are those of Python's `repr`, and the bits
// those of its `struct`.
const NUMBERS: &[(u64, &[u8])] = &[
    (0, b"0.0e0"),
    (0x8000_0000_0000_0000, b"-0.0e0"),
    (0x3ff8_0000_0000_0000, b"1.5e0"),
    (0x3fb9_9999_9999_999a, b"0.1e0"),
    (0x3fd5_5555_5555_5555, b"0.3333333333333333e0"),
    (0xc05e_d000_0000_0000, b"-123.25e0"),
    (0x4340_0000_0000_0000, b"9007199254740992.0e0"),
    (0x4340_0000_0000_0001, b"9007199254740994.0e0"),
    (0x4341_c379_37e0_8000, b"1e16"),
    (0x44b5_2d02_c7e1_4af6, b"1e23"),
    (0x447c_7e83_209e_90b2, b"8.41e21"),
    // Others at which digits are hard to find.
    (0x43f2_250f_a083_98d4, b"2.0919495182368195e19"),
    (0x43f6_af2f_e006_5ebf, b"2.6153245263757308e19"),
    (0x4459_1d67_fecc_8000, b"1.8531501765868567e21"),
    (0xc6e4_a1c8_5222_906d, b"-3.347727380279489e33"),
    (0x496f_ffff_ffff_ffff, b"5.708990770823839e45"),
    (0x4340_1860_1510_c000, b"9060801153433600.0e0"),
    (0x43d0_55dc_36f2_4000, b"4.708356024711512e18"),
    (0x0000_2ce1_03c8_73c9, b"2.4379641e-310"),
    (0x0008_8e1a_48c5_ec67, b"1.189731495357232e-308"),
    (0x0000_0000_0000_0a47, b"1.3e-320"),
    // Powers of two, below which the doubles lie closer together, and above.
    (0x3eb0_0000_0000_0000, b"9.5367431640625e-7"),
    (0x3e60_0000_0000_0000, b"2.9802322387695312e-8"),
    (2, b"1e-323"),
    (3, b"1.5e-323"),
    (0x3e7a_d7f2_9abc_af48, b"1e-7"),
    // Zeros before and after the digits, and where the exponent begins.
    (0x4059_0000_0000_0000, b"100.0e0"),
    (0x4311_8b54_f22a_eb00, b"1234567890123456.0e0"),
    (0x437b_69b4_ba63_0f35, b"1.2345678901234568e17"),
    (0x3ee4_f8b5_88e3_68f1, b"0.00001e0"),
    (0x3e84_21f5_f40d_8376, b"1.5e-7"),
    // The least and the greatest of their kinds.
    (1, b"5e-324"),
    (0x800f_ffff_ffff_ffff, b"-2.225073858507201e-308"),
    (0x0010_0000_0000_0000, b"2.2250738585072014e-308"),
    (0x7fef_ffff_ffff_ffff, b"1.7976931348623157e308"),
    (0xffef_ffff_ffff_ffff, b"-1.7976931348623157e308"),
];

#[test]
fn numbers(rt: HostRuntime) {
    for (bits, number) in NUMBERS {
        let double = Double::from_bits(*bits).expect(&rt, "no number");
        same_in(&rt, double.as_bytes(), *number, bits);
    }
}

#[test]
fn other_doubles_have_none(rt: HostRuntime) {
    let infinity = 0x7ff0_0000_0000_0000;
    let found = (
        Double::from_bits(infinity).is_none(),
        Double::from_bits(0xfff0_0000_0000_0000).is_none(),
        Double::from_bits(infinity + 1).is_none(),
        Double::from_bits(0xfff8_0000_0000_0000).is_none(),
        Double::new(f64::NAN).is_none(),
        Double::new(f64::INFINITY).is_none(),
    );
    same_in(
        &rt,
        found,
        (true, true, true, true, true, true),
        &"no numbers",
    );
}

// 0.1 as a float of 32 bits isn't 0.1, and neither is it when it is widened.
#[test]
fn floats_are_widened(rt: HostRuntime) {
    let widened = Double::new(f64::from(0.1f32)).expect(&rt, "no number");
    same_in(&rt, widened.as_bytes(), b"0.10000000149011612e0", &"0.1");
}

// The bits of floats, and the numbers of the doubles of the same values. The digits are those of
// Python's `repr`, and the bits those of its `struct`.
const NUMBERS_OF_FLOATS: &[(u32, &[u8])] = &[
    (0x8000_0000, b"-0.0e0"),
    (0x3dcc_cccd, b"0.10000000149011612e0"),
    (0xc049_0fdb, b"-3.1415927410125732e0"),
    (1, b"1.401298464324817e-45"),
    (0x7f7f_ffff, b"3.4028234663852886e38"),
];

#[test]
fn numbers_of_floats(rt: HostRuntime) {
    for (bits, number) in NUMBERS_OF_FLOATS {
        let double = Double::from_float_bits(*bits).expect(&rt, "no number");
        same_in(&rt, double.as_bytes(), *number, bits);
    }
}

#[test]
fn other_floats_have_none(rt: HostRuntime) {
    let found = (
        Double::from_float_bits(0x7f80_0000).is_none(),
        Double::from_float_bits(0xff80_0000).is_none(),
        Double::from_float_bits(0x7f80_0001).is_none(),
        Double::from_float_bits(0xffc0_0000).is_none(),
    );
    same_in(&rt, found, (true, true, true, true), &"no numbers");
}
