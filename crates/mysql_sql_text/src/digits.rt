//! The number that digits write.
ghost use Rattle.std.specs.Prelude.{◌≡◌, ◌<◌, ◌≤◌, ◌^◌, length, Some, IfSome, IfNone};
ghost use Rattle.std.specs.Option.{SomeIff};
ghost use Rattle.std.specs.Str.Parse.{IsNumeral, digits_value};
ghost use Rattle.mysql_sql_text.specs.Digits.{value_of_digits};

// This many decimal digits always fit in 64 bits: 19 nines are less than 2^64, and 20 are more.
const DIGITS_IN_64_BITS: usize = 19;

/// The number that one or more ASCII digits write, if 128 bits hold it.
pub fn value_of_digits(digits: &[u8]) -> Option<u128>
    ensures found { IfSome result (λ number. value_of_digits digits.now ≡ Some number) }
    ensures refused { IfNone result
        (IfSome (value_of_digits digits.now) (λ number. 2 ^ 128 ≤ number)) }
{
    if digits.len() <= DIGITS_IN_64_BITS {
        let number = value_of_few_digits(digits)?;
        return Some(u128::from(number));
    }
    parsed_number(digits)
}

// The number of so few digits that 64 bits hold it. It is read digit by digit.
pub(crate) fn value_of_few_digits(digits: &[u8]) -> Option<u64>
    requires { length digits.now ≤ DIGITS_IN_64_BITS }
    ensures { result ≡ value_of_digits digits.now }
{
    if digits.is_empty() {
        return None;
    }
    let mut number = 0;
    for byte in digits {
        if !byte.is_ascii_digit() {
            return None;
        }
        number = 10 * number + u64::from(*byte - b'0');
    }
    Some(number)
}

// The number, by the parser of the standard library.
#[tactic(auto, using(crate::proofs::ValueOfDigitsLemmas::numeral_is_utf8))]
fn parsed_number(digits: &[u8]) -> Option<u128>
    ensures { SomeIff result (IsNumeral 10 digits.now × (digits_value 10 digits.now < 2 ^ 128))
        (digits_value 10 digits.now) }
{
    if digits.first() == Some(&b'+') {
        return None;
    }
    let Ok(text) = str::from_utf8(digits) else {
        return None;
    };
    text.parse().ok()
}
