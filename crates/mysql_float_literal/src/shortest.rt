//! The digits of a double: the fewest that read as it, and of these the closest. A decimal is
//! digits * 10 ^ (power - 342).
ghost use Rattle.std.specs.Prelude.{◌≡◌, ◌+◌, ◌-◌, ◌*◌, ◌/◌, ◌^◌, ◌<◌, ◌≤◌, IfSome, IsNone, IsTrue, IsFalse};
ghost use Rattle.mysql_float_literal.specs.DigitSteps.{IsReadAs, IsReading, IsWithinTen};

use fast_float::nearest_bits;

// Whether the decimal reads as the double with these bits.
pub(crate) fn reads(bits: u64, power: u64, digits: u64) -> bool
    requires finite { bits < 0x7ff0000000000000 }
    requires some { 0 < digits }
    requires power { power < 651 }
    ensures read { IsTrue result → IsReadAs bits power digits }
    ensures other { IsFalse result → ¬ (IsReadAs bits power digits) }
{
    nearest_bits::<f64>(digits, power) == bits
}

// The digits in front of the last, or one more: those with which a decimal of one digit less reads
// as the same double.
fn shorter(bits: u64, power: u64, digits: u64) -> Option<u64>
    requires { IsReading bits power digits }
    ensures some { IfSome result (λ front.
        (0 < front) × (front ≤ digits) × IsReadAs bits power (10 * front)) }
    ensures none { IsNone result → IsWithinTen bits power digits }
{
    let front = digits / 10;
    if front > 0 && reads(bits, power, 10 * front) {
        Some(front)
    } else if reads(bits, power, 10 * front + 10) {
        Some(front + 1)
    } else {
        None
    }
}

// The power and the digits of a decimal that can lose no digit.
pub(crate) fn shortened(bits: u64, power: u64, digits: u64) -> (u64, u64)
    requires { IsReading bits power digits }
    ensures reading { IsReading bits result.0 result.1 }
    ensures within { IsWithinTen bits result.0 result.1 }
{
    let (mut power, mut digits) = (power, digits);
    while let Some(front) = shorter(bits, power, digits) {
        digits = front;
        power += 1;
    }
    (power, digits)
}
