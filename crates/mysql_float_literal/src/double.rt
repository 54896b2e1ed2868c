//! A double and the number that is written for it.
ghost use Rattle.std.specs.Prelude.{◌≤◌, take, IsTrue};
ghost use Rattle.mysql_float_literal.specs.DoubleDigits.{HasShortestDigits, HasClosestDigits};
ghost use Rattle.mysql_float_literal.specs.DoubleSpelling.{IsSpelledDouble};
ghost use Rattle.mysql_float_literal.specs.DoubleTest.{is_double};
ghost use Rattle.mysql_float_literal.specs.ReadDouble.{reads_finite};

use crate::literal::{finite_float_of, finite_of, put_finite};

/// A finite double with the number that is written for it: digits and an exponent, such as `1.5e0`.
/// Servers read a number with an exponent as a double. It allocates nothing.
#[derive(Clone, Copy)]
pub struct Double {
    room: [u8; 27],
    len: u8,
    ghost within: { len ≤ 27 },
    ghost shaped: { IsTrue (is_double (take len room)) },
    ghost spelled: { IsSpelledDouble (take len room) },
    ghost shortest: { HasShortestDigits (take len room) },
    ghost closest: { HasClosestDigits (take len room) },
    ghost finite: { IsTrue (reads_finite (take len room)) },
}

impl Double {
    ghost use Rattle.std.specs.Prelude.{◌≡◌, ◌↔◌, IfSome, IsNone, Some, IsFalse, from_bits, length};
    ghost use Rattle.std.specs.Float.{binary32, binary64, float_is_finite};
    ghost use Rattle.std.specs.Float.Parse.{parse_float};
    ghost use Rattle.mysql_float_literal.specs.DoubleShape.{IsDouble};
    ghost use Rattle.mysql_float_literal.specs.DoubleText.{double_text, double_value};

    /// The number of a double; `None` for a NaN and an infinity, which have none. The sign of -0 is
    /// kept. Give an `f32` as `f64::from(x)`, which has the same value.
    pub fn new(double: f64) -> Option<Double>
        ensures none { IsNone result ↔ IsFalse (float_is_finite double) }
        ensures same { IfSome result (λ made. double_value made ≡ double) }
    {
        if double.is_finite() {
            Some(Double::of_finite(double))
        } else {
            None
        }
    }

    /// The number of the double with these bits; `None` for a NaN and an infinity.
    pub fn from_bits(bits: u64) -> Option<Double>
        ensures none { IsNone result ↔ IsFalse (float_is_finite (from_bits binary64 bits)) }
        ensures same { IfSome result (λ made. double_value made ≡ from_bits binary64 bits) }
    {
        match finite_of(bits) {
            Some(double) => Some(Double::of_finite(double)),
            None => None,
        }
    }

    /// The number of the `f32` with these bits, as a double of the same value; `None` for a NaN and
    /// an infinity.
    pub fn from_float_bits(bits: u32) -> Option<Double>
        ensures none { IsNone result ↔ IsFalse (float_is_finite (from_bits binary32 bits)) }
        ensures same { IfSome result (λ made. double_value made ≡ from_bits binary32 bits) }
    {
        match finite_float_of(bits) {
            Some(double) => Some(Double::of_finite(double)),
            None => None,
        }
    }

    // The number of a finite double.
    fn of_finite(double: f64) -> Double
        requires { IsTrue (float_is_finite double) }
        ensures { double_value result ≡ double }
    {
        let mut text = [0; 32];
        let len = put_finite(double, &mut text);
        match text.first_chunk::<27>() {
            Some(room) => Double {
                room: *room,
                len: len as u8,
            },
            None => unreachable!(),
        }
    }

    /// Its text, of at most 27 bytes. It is a number with an exponent (`shape`) in the one spelling
    /// of its digits (`spelled`): `1.5e0`, never `15e-1`. It reads as the double (`exact`), which
    /// is finite. No number with fewer digits reads as it (`shortest`): `0.1e0`, never
    /// `0.1000000000000000056e0`. Of those with as few it is the closest, at a tie the even one
    /// (`closest`): `5e-324`, never `4e-324`. So a double has only this text
    /// (`laws::one_double_text`).
    pub fn as_bytes(&self) -> &[u8]
        ensures text { result.now ≡ double_text self.now }
        ensures short { length result.now ≤ 27 }
        ensures shape { IsDouble result.now }
        ensures spelled { IsSpelledDouble result.now }
        ensures shortest { HasShortestDigits result.now }
        ensures closest { HasClosestDigits result.now }
        ensures exact { parse_float binary64 result.now ≡ Some (double_value self.now) }
        ensures finite { IsTrue (float_is_finite (double_value self.now)) }
    {
        &self.room[..self.len as usize]
    }
}
