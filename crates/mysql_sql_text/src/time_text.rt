//! Reading of time texts.
ghost use Rattle.std.specs.Prelude.{◌≡◌, ◌<◌, ◌≤◌, ◌^◌, ℕ, Bool, [], ◌∷◌, length, Some, IfNone, IfSome};
ghost use Rattle.mysql_sql_text.specs.Digits.{value_of_digits};
ghost use Rattle.mysql_sql_text.specs.TimeText.{IsTimeText};
ghost use Rattle.mysql_sql_text.specs.ReadTimeText.{at_most, fraction_of, fraction_microseconds, time_after_hours, time_of_text, time_of_three_digits, time_of_two_digits, unsigned_time};

use crate::digits::value_of_few_digits;

/// Reads a time text: whether it is negative, and the number of its microseconds. `None` if the
/// bytes aren't a time text.
pub fn read_time_text(text: &[u8]) -> Option<(bool, u64)>
    ensures reads { IfSome result (λ time. IsTimeText text.now time.0 time.1) }
    ensures none { IfNone result ((negative : Bool) (microseconds : ℕ) →
        IsTimeText text.now negative microseconds → ⊥) }
    ensures exact { result ≡ time_of_text text.now }
    ensures few { IfSome result (λ time. time.1 < 2 ^ 42) }
{
    read_signed(text)
}

// The same, by the definition as a function.
fn read_signed(text: &[u8]) -> Option<(bool, u64)>
    ensures exact { result ≡ time_of_text text.now }
    ensures few { IfSome result (λ time. time.1 < 2 ^ 42) }
{
    match text {
        [b'-', text @ ..] => Some((true, read_unsigned(text)?)),
        _ => Some((false, read_unsigned(text)?)),
    }
}

// The microseconds of a time text without a sign.
fn read_unsigned(text: &[u8]) -> Option<u64>
    ensures exact { result ≡ unsigned_time text.now }
    ensures few { IfSome result (λ microseconds. microseconds < 2 ^ 42) }
{
    match read_two_digits(text) {
        Some(microseconds) => Some(microseconds),
        None => read_three_digits(text),
    }
}

// The microseconds of a time text without a sign whose hours have two digits.
fn read_two_digits(text: &[u8]) -> Option<u64>
    ensures exact { result ≡ time_of_two_digits text.now }
    ensures few { IfSome result (λ microseconds. microseconds < 2 ^ 42) }
{
    match text {
        [a, b, b':', text @ ..] => read_after_hours(short_number(&[*a, *b])?, text),
        _ => None,
    }
}

// The microseconds of a time text without a sign whose hours have three digits.
fn read_three_digits(text: &[u8]) -> Option<u64>
    ensures exact { result ≡ time_of_three_digits text.now }
    ensures few { IfSome result (λ microseconds. microseconds < 2 ^ 42) }
{
    match text {
        [a, b, c, b':', text @ ..] => read_after_hours(three_digit_hours(*a, *b, *c)?, text),
        _ => None,
    }
}

// The number of three digits, if it is at most 899.
fn three_digit_hours(a: u8, b: u8, c: u8) -> Option<u32>
    ensures exact { result ≡ at_most 899 (value_of_digits (a ∷ b ∷ c ∷ [])) }
    ensures few { IfSome result (λ number. number < 900) }
{
    let number = short_number(&[a, b, c])?;
    if number <= 899 { Some(number) } else { None }
}

// The microseconds of a time with these hours, and this text after their colon.
fn read_after_hours(hours: u32, text: &[u8]) -> Option<u64>
    requires { hours < 1000 }
    ensures exact { result ≡ time_after_hours (Some hours) text.now }
    ensures few { IfSome result (λ microseconds. microseconds < 2 ^ 42) }
{
    match text {
        [a, b, b':', c, d, text @ ..] => {
            let minutes = number_up_to_59(*a, *b)?;
            let seconds = number_up_to_59(*c, *d)?;
            let microseconds = read_fraction(text)?;
            let seconds = (u64::from(hours) * 60 + u64::from(minutes)) * 60 + u64::from(seconds);
            Some(seconds * 1_000_000 + microseconds)
        }
        _ => None,
    }
}

// The number of two digits, if it is at most 59: minutes or seconds.
fn number_up_to_59(a: u8, b: u8) -> Option<u32>
    ensures exact { result ≡ at_most 59 (value_of_digits (a ∷ b ∷ [])) }
    ensures few { IfSome result (λ number. number < 60) }
{
    let number = short_number(&[a, b])?;
    if number <= 59 { Some(number) } else { None }
}

// The microseconds of the text after the seconds.
fn read_fraction(text: &[u8]) -> Option<u64>
    ensures exact { result ≡ fraction_of text.now }
    ensures few { IfSome result (λ number. number < 1000000) }
{
    match text {
        [] => Some(0),
        [b'.', digits @ ..] => fraction_microseconds(digits),
        _ => None,
    }
}

// The microseconds of the digits after the point.
fn fraction_microseconds(digits: &[u8]) -> Option<u64>
    ensures exact { result ≡ fraction_microseconds digits.now }
    ensures few { IfSome result (λ number. number < 1000000) }
{
    if digits.len() > 6 {
        return None;
    }
    let number = short_number(digits)?;
    Some(u64::from(number) * 10u64.pow(6 - digits.len() as u32))
}

// The number of up to six digits.
fn short_number(digits: &[u8]) -> Option<u32>
    requires { length digits.now ≤ 6 }
    ensures exact { result ≡ value_of_digits digits.now }
    ensures few { IfSome result (λ number. number < 10 ^ length digits.now) }
{
    let number = value_of_few_digits(digits)?;
    Some(number as u32)
}
