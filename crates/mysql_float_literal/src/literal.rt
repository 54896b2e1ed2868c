//! The text of a double.
ghost use Rattle.std.specs.Prelude.{◌≡◌, ◌%◌, ◌<◌, ◌≤◌, ◌↔◌, take, IfSome, IsNone, Some, IsFalse, IsTrue, false, from_bits};
ghost use Rattle.std.specs.Float.{binary32, binary64, float_is_finite};
ghost use Rattle.std.specs.Float.Parse.{parse_float};
ghost use Rattle.ryu.specs.Sign.{IsSignAndSize};
ghost use Rattle.mysql_float_literal.specs.DoubleDigits.{HasShortestDigits, HasClosestDigits, IsShortest, IsClosest};
ghost use Rattle.mysql_float_literal.specs.DigitSteps.{with_power, AreFiniteBits, IsReading};
ghost use Rattle.mysql_float_literal.specs.DoubleShape.{IsDouble};
ghost use Rattle.mysql_float_literal.specs.DoubleSpelling.{IsSpelledDouble};
ghost use Rattle.mysql_float_literal.specs.WrittenParts.{IsLayoutOfDouble};

use crate::closest::closest;
use crate::quick::quick;
use crate::shortest::shortened;
use crate::start::start;
use crate::write::{Layout, layout_of, put_layout, zero_layout};
use ryu::Float;

/// The double with these bits, if it is finite.
pub(crate) fn finite_of(bits: u64) -> Option<f64>
    ensures none { IsNone result ↔ IsFalse (float_is_finite (from_bits binary64 bits)) }
    ensures same { IfSome result (λ double. double ≡ from_bits binary64 bits) }
    ensures finite { IfSome result (λ double. IsTrue (float_is_finite double)) }
{
    if bits & 0x7fff_ffff_ffff_ffff > 0x7ff0_0000_0000_0000 {
        return None;
    }
    if_finite(f64::from_bits(bits))
}

/// The float with these bits as the double of the same value, if it is finite.
pub(crate) fn finite_float_of(bits: u32) -> Option<f64>
    ensures none { IsNone result ↔ IsFalse (float_is_finite (from_bits binary32 bits)) }
    ensures same { IfSome result (λ double. double ≡ from_bits binary32 bits) }
    ensures finite { IfSome result (λ double. IsTrue (float_is_finite double)) }
{
    if bits & 0x7fff_ffff > 0x7f80_0000 {
        return None;
    }
    if_finite(f64::from(f32::from_bits(bits)))
}

// The double, if it is finite.
fn if_finite(double: f64) -> Option<f64>
    ensures none { IsNone result ↔ IsFalse (float_is_finite double) }
    ensures same { IfSome result (λ found. found ≡ double) }
    ensures finite { IfSome result (λ found. IsTrue (float_is_finite found)) }
{
    if double.is_finite() {
        Some(double)
    } else {
        None
    }
}

// The layout of the text of the double with these bits and the sign taken off.
fn layout_of_double(size: u64, double: f64) -> Layout
    requires bits { size < 0x7ff0000000000000 }
    requires finite { IsTrue (float_is_finite double) }
    ensures { IsLayoutOfDouble size result }
{
    if size == 0 {
        return zero_layout();
    }
    let (power, digits) = digits_of(size, double);
    layout_of(power, digits)
}

// The power and the digits of the closest decimal.
fn digits_of(size: u64, double: f64) -> (u64, u64)
    requires bits { AreFiniteBits size }
    requires finite { IsTrue (float_is_finite double) }
    ensures reading { IsReading size result.0 result.1 }
    ensures shortest { IsShortest false (with_power result.0 result.1) }
    ensures closest { IsClosest false (with_power result.0 result.1) }
    ensures trimmed { 0 < result.1 % 10 }
{
    match quick(size) {
        Some(found) => found,
        None => stepped(size, double),
    }
}

// The power and the digits of the closest decimal, by steps from the one that ryu writes.
#[cold]
#[inline(never)]
fn stepped(size: u64, double: f64) -> (u64, u64)
    requires bits { AreFiniteBits size }
    requires finite { IsTrue (float_is_finite double) }
    ensures reading { IsReading size result.0 result.1 }
    ensures shortest { IsShortest false (with_power result.0 result.1) }
    ensures closest { IsClosest false (with_power result.0 result.1) }
    ensures trimmed { 0 < result.1 % 10 }
{
    let (power, digits) = start(size, double);
    let (power, digits) = shortened(size, power, digits);
    closest(size, power, digits)
}

/// Writes a finite double to the front, and returns the length of its text.
pub(crate) fn put_finite(double: f64, out: &mut [u8; 32]) -> usize
    requires { IsTrue (float_is_finite double) }
    ensures exact { parse_float binary64 (take result out.new) ≡ Some double }
    ensures shape { IsDouble (take result out.new) }
    ensures spelled { IsSpelledDouble (take result out.new) }
    ensures shortest { HasShortestDigits (take result out.new) }
    ensures closest { HasClosestDigits (take result out.new) }
    ensures short { result ≤ 27 }
{
    let (negative, size) = sign_and_size(double);
    put_layout(out, negative, layout_of_double(size, double))
}

// The sign of a finite double, and its bits without the sign.
fn sign_and_size(double: f64) -> (bool, u64)
    requires { IsTrue (float_is_finite double) }
    ensures parts { IsSignAndSize binary64 double result.0 result.1 }
    ensures finite { result.1 < 0x7ff0000000000000 }
{
    let bits = double.raw_bits();
    (bits >= 0x8000_0000_0000_0000, bits & 0x7fff_ffff_ffff_ffff)
}
