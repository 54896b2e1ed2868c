//! A decimal that reads as a double, to start from. A decimal is digits * 10 ^ (power - 342).
ghost use Rattle.std.specs.Prelude.{◌≡◌, ◌+◌, ◌-◌, ◌*◌, ◌/◌, ◌^◌, ◌<◌, ◌≤◌, IsTrue, IsFalse};
ghost use Rattle.std.specs.Float.{float_is_finite};
ghost use Rattle.mysql_float_literal.specs.DigitSteps.{AreFiniteBits, IsReading, IsAtMostDouble, IsAboveDouble};

use crate::compare::compare_twice;
use crate::shortest::reads;
use fast_float::Numeral;
use ryu::raw;
use std::cmp::Ordering;

const TWO_AND_16_ZEROS: u64 = 20_000_000_000_000_000;

// Whether the decimal is at most the double.
fn is_at_most(bits: u64, power: u64, digits: u64) -> bool
    requires finite { bits < 0x7ff0000000000000 }
    requires fits { (power < 651) × (digits ≤ 10 ^ 18) }
    ensures at_most { IsTrue result → IsAtMostDouble bits power digits }
    ensures above { IsFalse result → IsAboveDouble bits power digits }
{
    match compare_twice(bits, power, 2 * digits) {
        Ordering::Less => false,
        Ordering::Equal => true,
        Ordering::Greater => true,
    }
}

// The power at which the double lies from 2 * 10 ^ 16 up to ten times as much.
fn power_of_17_digits(bits: u64) -> u64
    requires { AreFiniteBits bits }
    ensures fits { result < 640 }
    ensures low { IsAtMostDouble bits result (2 * 10 ^ 16) }
    ensures high { IsAboveDouble bits result (2 * 10 ^ 17) }
{
    let mut power = 0;
    while is_at_most(bits, power + 1, TWO_AND_16_ZEROS) {
        power += 1;
    }
    power
}

// The power and the digits of the least decimal above the double, among those of 17 digits. It
// reads as the double. No run is known to come here.
#[cold]
fn sought(bits: u64) -> (u64, u64)
    requires { AreFiniteBits bits }
    ensures { IsReading bits result.0 result.1 }
{
    let power = power_of_17_digits(bits);
    let mut low = TWO_AND_16_ZEROS;
    let mut high = 10 * TWO_AND_16_ZEROS;
    while low + 1 < high {
        let middle = low + (high - low) / 2;
        if is_at_most(bits, power, middle) {
            low = middle;
        } else {
            high = middle;
        }
    }
    (power, high)
}

// The digits that these bytes write after others, at most 18 of them.
fn with_digits(digits: u64, bytes: &[u8]) -> u64
    requires { digits < 10 ^ 18 }
    ensures { result < 10 ^ 18 }
{
    let mut digits = digits;
    for byte in bytes {
        if digits < 100_000_000_000_000_000 {
            digits = digits * 10 + (byte.wrapping_sub(b'0') % 10) as u64;
        }
    }
    digits
}

// The power and the digits of the decimal that ryu writes. No clause says that it reads as the
// double, which is tried.
fn written_by_ryu(double: f64) -> (u64, u64)
    requires { IsTrue (float_is_finite double) }
    ensures { (result.0 < 651) × (result.1 < 10 ^ 18) }
{
    let mut text = [0; 32];
    let len = raw::format(double, &mut text);
    let sign = (text[0] == b'-') as usize;
    let numeral = Numeral::scan(&text[sign..len.max(sign)]);
    let fraction = numeral.fraction();
    let digits = with_digits(with_digits(0, numeral.whole()), fraction);
    let exponent = with_digits(0, numeral.exponent());
    let down = fraction.len() as u64;
    let power = if numeral.is_exponent_negative() {
        342_u64.saturating_sub(exponent).saturating_sub(down)
    } else {
        (342 + exponent).saturating_sub(down)
    };
    without_zeros(power.min(640), digits)
}

// The power and the digits without the zeros at the end.
fn without_zeros(power: u64, digits: u64) -> (u64, u64)
    requires { (power < 651) × (digits < 10 ^ 18) }
    ensures { (result.0 < 651) × (result.1 < 10 ^ 18) }
{
    let (mut power, mut digits) = (power, digits);
    while digits > 0 && digits % 10 == 0 && power < 650 {
        digits /= 10;
        power += 1;
    }
    (power, digits)
}

/// The power and the digits of a decimal that reads as the double.
pub(crate) fn start(bits: u64, double: f64) -> (u64, u64)
    requires bits { AreFiniteBits bits }
    requires finite { IsTrue (float_is_finite double) }
    ensures { IsReading bits result.0 result.1 }
{
    let (power, digits) = written_by_ryu(double);
    if digits > 0 && reads(bits, power, digits) {
        return (power, digits);
    }
    sought(bits)
}
