//! Decimal texts of any length.
ghost use Rattle.std.specs.Prelude.{◌≡◌, ◌≤◌, ◌^◌, Some, IfSome, IfNone, unsigned_abs};
ghost use Rattle.mysql_values.specs.Decimal.{decimal_number, signed_number};

use mysql_sql_text::digits::value_of_digits;

// Whether a decimal text has a `-`, and the magnitude of its number. `None` if the text isn't a
// decimal text, or if 128 bits don't hold the magnitude.
pub(crate) fn decimal_parts(text: &[u8]) -> Option<(bool, u128)>
    ensures found { IfSome result (λ parts.
        decimal_number text.now ≡ Some (signed_number parts.0 parts.1)) }
    ensures refused { IfNone result (IfSome (decimal_number text.now) (λ number.
        2 ^ 128 ≤ unsigned_abs number)) }
{
    match text {
        [] => None,
        [b'-', digits @ ..] => Some((true, value_of_digits(digits)?)),
        [b'+', digits @ ..] => Some((false, value_of_digits(digits)?)),
        digits => Some((false, value_of_digits(digits)?)),
    }
}
