//! Of the shortest decimals that read as a double the closest. A decimal is
//! digits * 10 ^ (power - 342).
ghost use Rattle.std.specs.Prelude.{◌≡◌, ◌+◌, ◌-◌, ◌*◌, ◌/◌, ◌%◌, ◌^◌, ◌<◌, ◌≤◌, IfSome, IsNone, IsTrue, IsFalse, false, from_bits};
ghost use Rattle.std.specs.Float.{binary64};
ghost use Rattle.mysql_float_literal.specs.DoubleDigits.{AreSameDecimal, IsShortest, IsClosest};
ghost use Rattle.mysql_float_literal.specs.DigitSteps.{with_power, AreFiniteBits, IsReadAs, IsReading, IsWithinTen, HasNoDigitToSpare, IsBetter, IsBetterThanNext};

use crate::compare::compare_twice;
use crate::shortest::reads;
use std::cmp::Ordering;

// Of this decimal and the next one in its last place, whether the next one is closer to the double,
// or as close and even.
fn is_next_closer(bits: u64, power: u64, digits: u64) -> bool
    requires finite { bits < 0x7ff0000000000000 }
    requires fits { (power < 651) × (digits ≤ 10 ^ 18) }
    ensures next { IsTrue result → IsBetter (from_bits binary64 bits)
        (with_power power (digits + 1)) (with_power power digits) }
    ensures this { IsFalse result → IsBetterThanNext bits power digits }
{
    match compare_twice(bits, power, 2 * digits + 1) {
        Ordering::Less => false,
        Ordering::Equal => digits % 2 == 1,
        Ordering::Greater => true,
    }
}

// Whether the next decimal in the last place reads as the double and is closer to it, or as close
// and even.
fn is_next_better(bits: u64, power: u64, digits: u64) -> bool
    requires { IsReading bits power digits }
    ensures next { IsTrue result → IsReadAs bits power (digits + 1) }
    ensures this { IsFalse result → IsBetterThanNext bits power digits }
{
    reads(bits, power, digits + 1) && is_next_closer(bits, power, digits)
}

// The digits with which no next decimal is better.
fn raised(bits: u64, power: u64, digits: u64) -> u64
    requires reading { IsReading bits power digits }
    requires within { IsWithinTen bits power digits }
    ensures reading { IsReading bits power result }
    ensures within { IsWithinTen bits power result }
    ensures better { IsBetterThanNext bits power result }
{
    let mut digits = digits;
    while is_next_better(bits, power, digits) {
        digits += 1;
    }
    digits
}

// The power and the digits of the same decimal, the digits above 1.
fn finer(bits: u64, power: u64, digits: u64) -> (u64, u64)
    requires { IsReading bits power digits }
    ensures same { AreSameDecimal (with_power power digits) (with_power result.0 result.1) }
    ensures fits { (result.0 < 651) × (1 < result.1) × (result.1 < 10 ^ 18) }
    ensures one { digits ≡ 1 → (result.0 + 1 ≡ power) × (result.1 ≡ 10) }
    ensures more { 1 < digits → (result.0 ≡ power) × (result.1 ≡ digits) }
{
    if digits == 1 {
        (power - 1, 10)
    } else {
        (power, digits)
    }
}

// The power and the digits of the decimal before this one, if it reads as the double and is closer
// to it, or as close and even.
fn better_previous(bits: u64, power: u64, digits: u64) -> Option<(u64, u64)>
    requires reading { IsReading bits power digits }
    requires short { HasNoDigitToSpare bits power digits }
    requires better { IsBetterThanNext bits power digits }
    ensures reading { IfSome result (λ found. IsReading bits found.0 found.1) }
    ensures short { IfSome result (λ found. HasNoDigitToSpare bits found.0 found.1) }
    ensures better { IfSome result (λ found. IsBetterThanNext bits found.0 found.1) }
    ensures lower { IfSome result (λ found.
        found.0 * 2 ^ 64 + found.1 < power * 2 ^ 64 + digits) }
    ensures none { IsNone result → IsClosest false (with_power power digits) }
{
    let (fine_power, fine_digits) = finer(bits, power, digits);
    let previous = fine_digits - 1;
    if !reads(bits, fine_power, previous) || is_next_closer(bits, fine_power, previous) {
        return None;
    }
    Some((fine_power, previous))
}

// The power and the digits of the closest decimal, from one with which no next one is better.
fn lowered(bits: u64, power: u64, digits: u64) -> (u64, u64)
    requires reading { IsReading bits power digits }
    requires short { HasNoDigitToSpare bits power digits }
    requires better { IsBetterThanNext bits power digits }
    ensures reading { IsReading bits result.0 result.1 }
    ensures shortest { IsShortest false (with_power result.0 result.1) }
    ensures closest { IsClosest false (with_power result.0 result.1) }
    ensures trimmed { 0 < result.1 % 10 }
{
    let (mut power, mut digits) = (power, digits);
    while let Some((lower_power, lower_digits)) = better_previous(bits, power, digits) {
        power = lower_power;
        digits = lower_digits;
    }
    (power, digits)
}

// The power and the digits of the closest decimal, from one that can lose no digit.
pub(crate) fn closest(bits: u64, power: u64, digits: u64) -> (u64, u64)
    requires reading { IsReading bits power digits }
    requires within { IsWithinTen bits power digits }
    ensures reading { IsReading bits result.0 result.1 }
    ensures shortest { IsShortest false (with_power result.0 result.1) }
    ensures closest { IsClosest false (with_power result.0 result.1) }
    ensures trimmed { 0 < result.1 % 10 }
{
    let high = raised(bits, power, digits);
    lowered(bits, power, high)
}
