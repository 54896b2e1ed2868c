//! Laws of doubles. No program needs to call them.
ghost use Rattle.std.specs.Prelude.{◌≡◌, ℕ, ◌↔◌, List, Some, IsTrue, codes};
ghost use Rattle.std.specs.Float.{binary64};
ghost use Rattle.std.specs.Float.Ieee.{Float};
ghost use Rattle.std.specs.Float.Parse.{parse_float};
ghost use Rattle.mysql_float_literal.specs.DoubleDigits.{HasShortestDigits, HasClosestDigits};
ghost use Rattle.mysql_float_literal.specs.DoubleEnds.{begins_number, ends_in_digit};
ghost use Rattle.mysql_float_literal.specs.DoubleShape.{IsDouble};
ghost use Rattle.mysql_float_literal.specs.DoubleSpelling.{AreSameNumber, DoubleSpelling, IsSpelledDouble};
ghost use Rattle.mysql_float_literal.specs.DoubleTest.{is_double};
ghost use Rattle.mysql_float_literal.specs.DoubleText.{double_text, double_value};
ghost use Rattle.mysql_float_literal.specs.ReadDouble.{ReadsAs};
ghost use Rattle.mysql_float_literal.specs.declared.double.Double as written;

/// The test for a number with an exponent tests for its shape.
pub fn is_double_is_shape()
    ensures { (text : List ℕ) → IsTrue (is_double text) ↔ IsDouble text }
{}

/// If a number with an exponent reads as a float on its own, it reads as this float before every
/// text that doesn't begin with a digit. It ends where that text begins.
pub fn doubles_read_before_others()
    ensures { (text : List ℕ) (x : Float) → IsDouble text → parse_float binary64 text ≡ Some x
        → ReadsAs text x }
{}

/// A number with an exponent begins with a minus or a digit, and ends in a digit.
pub fn ends_of_doubles()
    ensures begins { (text : List ℕ) → IsDouble text → IsTrue (begins_number text) }
    ensures ends { (text : List ℕ) → IsDouble text → IsTrue (ends_in_digit text) }
{}

/// The text of each [`Double`](crate::Double) is in the one spelling of its number (`spelled`). A
/// decimal number has only one: two such texts of the same sign and the same number are the same
/// (`same`). So a double has only one text. Two such texts are the same if they read as one float
/// and each has its shortest digits and the closest (`one`). Doubles of one value have one text
/// (`value`). Other texts that read as 1.5 aren't in the spelling (`two_digits`, `zeros_in_front`,
/// `zero_at_the_end`).
pub fn one_double_text()
    ensures spelled { (double : written.Double) → IsSpelledDouble (double_text double) }
    ensures same { (a b : List ℕ) → (x : DoubleSpelling a) → (y : DoubleSpelling b) →
        x.negative ≡ y.negative → AreSameNumber x.parts y.parts → a ≡ b }
    ensures one { (a b : List ℕ) (x : Float) → IsSpelledDouble a → IsSpelledDouble b
        → parse_float binary64 a ≡ Some x → parse_float binary64 b ≡ Some x
        → HasShortestDigits a → HasShortestDigits b → HasClosestDigits a → HasClosestDigits b
        → a ≡ b }
    ensures value { (a b : written.Double) → double_value a ≡ double_value b →
        double_text a ≡ double_text b }
    ensures two_digits { ¬ (IsSpelledDouble (codes "15e-1")) }
    ensures zeros_in_front { ¬ (IsSpelledDouble (codes "0001.5e0")) }
    ensures zero_at_the_end { ¬ (IsSpelledDouble (codes "1.50e0")) }
{}
