//! Twice a double against a decimal, exactly.
ghost use Rattle.std.specs.Prelude.{◌≡◌, ◌+◌, ◌-◌, ◌*◌, ◌^◌, ◌<◌, ◌≤◌, from_bits};
ghost use Rattle.std.specs.Ordering.{nat_cmp};
ghost use Rattle.std.specs.Float.{binary64};
ghost use Rattle.mysql_float_literal.specs.DoubleDigits.{size_above, size_below};
ghost use Rattle.mysql_float_literal.specs.DigitSteps.{IsSignificandOf};

use crate::wide::{compare, product};
use std::cmp::Ordering;

/// The double with these bits as a significand and an exponent of two, over 2 ^ 1074.
#[inline(always)]
pub(crate) fn significand_of(bits: u64) -> (u64, u64)
    requires { bits < 0x7ff0000000000000 }
    ensures { IsSignificandOf bits result.0 result.1 }
{
    if bits < 0x10_0000_0000_0000 {
        (bits, 0)
    } else {
        (
            bits % 0x10_0000_0000_0000 + 0x10_0000_0000_0000,
            bits / 0x10_0000_0000_0000 - 1,
        )
    }
}

/// Twice the double with these bits, against middle * 10 ^ (power - 342).
pub(crate) fn compare_twice(bits: u64, power: u64, middle: u64) -> Ordering
    requires finite { bits < 0x7ff0000000000000 }
    requires power { power < 651 }
    ensures { result ≡ nat_cmp (2 * size_above (from_bits binary64 bits) * 10 ^ (342 - power))
        (middle * 10 ^ (power - 342) * size_below (from_bits binary64 bits)) }
{
    let (significand, exponent) = significand_of(bits);
    let tens = power.saturating_sub(342);
    let places = 342u64.saturating_sub(power);
    let up = exponent + 1 + places;
    let down = 1074 + tens;
    let double = product(significand, places, up.saturating_sub(down));
    let decimal = product(middle, tens, down.saturating_sub(up));
    compare(&double, &decimal)
}
