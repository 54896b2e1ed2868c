//! The digits of most doubles, by one product with a power of ten. A decimal is
//! digits * 10 ^ (power - 342).
ghost use Rattle.std.specs.Prelude.{◌≡◌, ◌+◌, ◌-◌, ◌*◌, ◌%◌, ◌^◌, ◌<◌, ◌≤◌, IfSome, false};
ghost use Rattle.mysql_float_literal.specs.DoubleDigits.{IsShortest, IsClosest};
ghost use Rattle.mysql_float_literal.specs.DigitSteps.{with_power, AreFiniteBits, IsReading, IsLessZeros, IsScaledDouble, IsTold};

use crate::compare::significand_of;
use fast_float::power_of_ten;

const LOW_WORD: u128 = 0xffff_ffff_ffff_ffff;

// A twentieth of 2 ^ 64, and a little more.
const LEAST_HALF_GAP: u64 = 922_337_203_685_477_600;

// A half of 2 ^ 64, and a little less.
const MOST_HALF_GAP: u64 = 0x7fff_ffff_ffff_fff8;

// The double over 10 ^ (power - 341), cut off: the whole part and 64 bits after the point.
// `half_gap` is half of the gap to the next double, in units of the last of those bits.
#[derive(Clone, Copy)]
struct Scaled {
    whole: u64,
    fraction: u64,
    half_gap: u64,
    power: u64,
}

// The power is the whole part of the gap's logarithm, plus 342. Over 2 ^ 20, 315_653 is a little
// more than log10(2), and 19_601_670 is a little less than 342 - 1074 * log10(2).
#[inline(always)]
fn scale(significand: u64, exponent: u64) -> Scaled
    requires { (0 < significand) × (significand ≤ 2 ^ 53) × (exponent ≤ 2045) }
    ensures { IsScaledDouble significand exponent result }
{
    let power = (exponent * 315_653 + 19_601_670) >> 20;
    let index = 683 - power;
    // That row is 10 ^ (341 - power). The shift leaves 134 bits of the product after the point.
    let shift = exponent + (index * 217_706 + 58_980) / 65_536 + 2 - 2206;
    let row = power_of_ten(index);
    let shifted = (significand << shift) as u128;
    let product = (row >> 64) * shifted + (((row & LOW_WORD) * shifted) >> 64);
    Scaled {
        whole: (product >> 70) as u64,
        fraction: ((product >> 6) & LOW_WORD) as u64,
        half_gap: ((row >> 64) as u64) >> (7 - shift),
        power,
    }
}

// The power and the digits without the zeros at the end, which are taken off one by one.
#[inline(always)]
fn without_ones(power: u64, digits: u64) -> (u64, u64)
    requires { (power < 700) × (0 < digits) × (digits < 10 ^ 17) }
    ensures { IsLessZeros power digits result.0 result.1 }
{
    let (mut up, mut rest) = (power, digits);
    while rest % 10 == 0 {
        rest /= 10;
        up += 1;
    }
    (up, rest)
}

// The same. Two zeros are taken off at once.
#[inline(always)]
fn without_pairs(power: u64, digits: u64) -> (u64, u64)
    requires { (power < 690) × (0 < digits) × (digits < 10 ^ 17) }
    ensures { IsLessZeros power digits result.0 result.1 }
{
    if digits % 100 == 0 {
        without_ones(power + 2, digits / 100)
    } else {
        without_ones(power, digits)
    }
}

// The same. Four zeros are taken off at once.
#[inline(always)]
fn without_fours(power: u64, digits: u64) -> (u64, u64)
    requires { (power < 680) × (0 < digits) × (digits < 10 ^ 17) }
    ensures { IsLessZeros power digits result.0 result.1 }
{
    if digits % 10_000 == 0 {
        without_pairs(power + 4, digits / 10_000)
    } else {
        without_pairs(power, digits)
    }
}

// The power and the digits without the zeros at the end. Each branch goes on by itself, since a
// processor would otherwise compute both.
fn without_zeros(power: u64, digits: u64) -> (u64, u64)
    requires { (power < 651) × (0 < digits) × (digits < 10 ^ 17) }
    ensures { IsLessZeros power digits result.0 result.1 }
{
    if digits % 100_000_000 == 0 {
        without_fours(power + 8, digits / 100_000_000)
    } else {
        without_fours(power, digits)
    }
}

// The power and the digits of the closest decimal of one digit more than the whole part has, where
// no shorter decimal reads as the double.
#[inline(always)]
fn with_tenth(bits: u64, scaled: Scaled, up_gap: u64) -> Option<(u64, u64)>
    requires told { IsTold bits scaled up_gap }
    requires low { scaled.half_gap < scaled.fraction }
    requires high { scaled.fraction + up_gap + 4 ≤ 2 ^ 64 }
    requires wide { 922337203685477600 < scaled.half_gap }
    ensures reading { IfSome result (λ found. IsReading bits found.0 found.1) }
    ensures shortest { IfSome result (λ found. IsShortest false (with_power found.0 found.1)) }
    ensures closest { IfSome result (λ found. IsClosest false (with_power found.0 found.1)) }
    ensures trimmed { IfSome result (λ found. 0 < found.1 % 10) }
{
    let tenths = scaled.fraction as u128 * 10 + 0x8000_0000_0000_0000;
    let rest = (tenths & LOW_WORD) as u64;
    // Close to a tie.
    if rest.wrapping_sub(1) > 0xffff_ffff_ffff_ff00 {
        return None;
    }
    Some((scaled.power, scaled.whole * 10 + (tenths >> 64) as u64))
}

// The power and the digits of the closest decimal, where the bits after the point tell them.
#[inline(always)]
fn told(bits: u64, scaled: Scaled, up_gap: u64) -> Option<(u64, u64)>
    requires told { IsTold bits scaled up_gap }
    requires wide { 922337203685477600 < scaled.half_gap }
    requires narrow { up_gap ≤ 2 ^ 64 - 8 }
    ensures reading { IfSome result (λ found. IsReading bits found.0 found.1) }
    ensures shortest { IfSome result (λ found. IsShortest false (with_power found.0 found.1)) }
    ensures closest { IfSome result (λ found. IsClosest false (with_power found.0 found.1)) }
    ensures trimmed { IfSome result (λ found. 0 < found.1 % 10) }
{
    let is_below_next = scaled.fraction < 0xffff_ffff_ffff_fffc - up_gap;
    if scaled.fraction > scaled.half_gap {
        if is_below_next {
            return with_tenth(bits, scaled, up_gap);
        }
        if scaled.fraction - 1 > u64::MAX - scaled.half_gap {
            return Some(without_zeros(scaled.power + 1, scaled.whole + 1));
        }
        return None;
    }
    if is_below_next && scaled.fraction + 2 <= scaled.half_gap {
        return Some(without_zeros(scaled.power + 1, scaled.whole));
    }
    None
}

/// The power and the digits of the closest decimal, where one product tells them.
#[inline(always)]
pub(crate) fn quick(bits: u64) -> Option<(u64, u64)>
    requires { AreFiniteBits bits }
    ensures reading { IfSome result (λ found. IsReading bits found.0 found.1) }
    ensures shortest { IfSome result (λ found. IsShortest false (with_power found.0 found.1)) }
    ensures closest { IfSome result (λ found. IsClosest false (with_power found.0 found.1)) }
    ensures trimmed { IfSome result (λ found. 0 < found.1 % 10) }
{
    let (significand, exponent) = significand_of(bits);
    if exponent == 0 {
        return None;
    }
    // The float below a power of two is half as far as the one above.
    let is_edge = significand == 0x10_0000_0000_0000;
    let scaled = if is_edge {
        scale(2 * significand, exponent - 1)
    } else {
        scale(significand, exponent)
    };
    if scaled.half_gap <= LEAST_HALF_GAP || scaled.half_gap > MOST_HALF_GAP {
        return None;
    }
    let up_gap = if is_edge {
        2 * scaled.half_gap
    } else {
        scaled.half_gap
    };
    told(bits, scaled, up_gap)
}
