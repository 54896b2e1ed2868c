//! The text of a decimal, in the spelling of a double. A decimal is digits * 10 ^ (power - 342).
ghost use Rattle.std.specs.Prelude.{◌≡◌, ◌⊎◌, ◌+◌, ◌-◌, ◌*◌, ◌/◌, ◌%◌, ◌^◌, ◌<◌, ◌≤◌, ◌++◌, ◌∷◌, take, if◌then◌else◌};
ghost use Rattle.std.specs.Fmt.{sign_text};
ghost use Rattle.std.specs.Float.Numeral.{text_of};
ghost use Rattle.mysql_float_literal.specs.WrittenParts.{padded, fraction_text, layout_parts, IsTight, IsFarExponent, IsSpelledLayout, IsLayoutOf};

use core::dec2flt::ten_to;
use mysql_sql_text::numbers::{decimal_len, fill_padded};

// The numbers that the parts of a text write, and how many digits each of them has.
#[derive(Clone, Copy)]
pub(crate) struct Layout {
    whole: u64,
    whole_width: usize,
    fraction: u64,
    fraction_width: usize,
    exponent_negative: bool,
    exponent: u64,
    exponent_width: usize,
}

// How many digits the number has: one for 0.
fn digit_count(n: u64) -> usize
    requires { n < 10 ^ 18 }
    ensures tight { IsTight result n }
    ensures few { result ≤ 18 }
    ensures small { n < 1000 → result ≤ 3 }
{
    decimal_len(n)
}

/// The text of zero.
pub(crate) fn zero_layout() -> Layout
    ensures spelled { IsSpelledLayout result }
    ensures value { IsLayoutOf 0 0 result }
{
    Layout {
        whole: 0,
        whole_width: 1,
        fraction: 0,
        fraction_width: 1,
        exponent_negative: false,
        exponent: 0,
        exponent_width: 1,
    }
}

// The text with the exponent 0 of a whole number.
fn whole_layout(power: u64, digits: u64, count: usize) -> Layout
    requires digits { IsTight count digits × (0 < digits) }
    requires power { (342 ≤ power) × (power + count ≤ 358) }
    ensures spelled { IsSpelledLayout result }
    ensures value { IsLayoutOf power digits result }
{
    let tens = power - 342;
    Layout {
        whole: digits * ten_to(tens),
        whole_width: count + tens as usize,
        fraction: 0,
        fraction_width: 1,
        exponent_negative: false,
        exponent: 0,
        exponent_width: 1,
    }
}

// The text with the exponent 0 of a number that has digits before and after the point.
fn pointed_layout(power: u64, digits: u64, count: usize) -> Layout
    requires digits { IsTight count digits × (0 < digits % 10) × (count ≤ 18) }
    requires power { (power < 342) × (342 < power + count) × (power + count ≤ 358) }
    ensures spelled { IsSpelledLayout result }
    ensures value { IsLayoutOf power digits result }
{
    let places = 342 - power;
    let unit = ten_to(places);
    Layout {
        whole: digits / unit,
        whole_width: count - places as usize,
        fraction: digits % unit,
        fraction_width: places as usize,
        exponent_negative: false,
        exponent: 0,
        exponent_width: 1,
    }
}

// The text with the exponent 0 of a number below 1, with at most four zeros behind the point.
fn small_layout(power: u64, digits: u64, count: usize) -> Layout
    requires digits { IsTight count digits × (0 < digits % 10) × (count ≤ 18) }
    requires power { (338 ≤ power + count) × (power + count ≤ 342) }
    ensures spelled { IsSpelledLayout result }
    ensures value { IsLayoutOf power digits result }
{
    Layout {
        whole: 0,
        whole_width: 1,
        fraction: digits,
        fraction_width: (342 - power) as usize,
        exponent_negative: false,
        exponent: 0,
        exponent_width: 1,
    }
}

// The text with one digit before the point, and this exponent.
fn far_layout(power: u64, digits: u64, count: usize, negative: bool, exponent: u64) -> Layout
    requires digits { IsTight count digits × (0 < digits % 10) × (count ≤ 18) }
    requires exponent { IsFarExponent (power + count) negative exponent × (exponent < 1000) }
    ensures spelled { IsSpelledLayout result }
    ensures value { IsLayoutOf power digits result }
{
    let unit = ten_to(count as u64 - 1);
    Layout {
        whole: digits / unit,
        whole_width: 1,
        fraction: digits % unit,
        fraction_width: count - 1,
        exponent_negative: negative,
        exponent,
        exponent_width: digit_count(exponent),
    }
}

/// The text of a decimal whose last digit isn't a zero.
pub(crate) fn layout_of(power: u64, digits: u64) -> Layout
    requires digits { (digits < 10 ^ 18) × (0 < digits % 10) }
    requires power { power < 651 }
    ensures spelled { IsSpelledLayout result }
    ensures value { IsLayoutOf power digits result }
{
    let count = digit_count(digits);
    let point = power + count as u64;
    if point < 338 {
        return far_layout(power, digits, count, true, 343 - point);
    }
    if point > 358 {
        return far_layout(power, digits, count, false, point - 343);
    }
    if point <= 342 {
        return small_layout(power, digits, count);
    }
    if power < 342 {
        return pointed_layout(power, digits, count);
    }
    whole_layout(power, digits, count)
}

// Writes so many digits of the number, from index `at` on, two at a time.
#[inline(always)]
fn put_pairs(out: &mut [u8; 32], at: usize, width: usize, n: u64)
    requires room { at + width ≤ 32 }
    requires fits { (0 < width) × (n < 10 ^ width) }
    ensures { take (at + width) out.new ≡ take at out.old ++ padded width n }
{
    fill_padded(&mut out[at..at + width], n);
}

// The same, without a loop for one digit or two.
#[inline(always)]
fn put_padded(out: &mut [u8; 32], at: usize, width: usize, n: u64)
    requires room { at + width ≤ 32 }
    requires fits { (0 < width) × (n < 10 ^ width) }
    ensures { take (at + width) out.new ≡ take at out.old ++ padded width n }
{
    match width {
        1 => out[at] = b'0' + n as u8,
        2 => put_pairs(out, at, 2, n),
        _ => put_pairs(out, at, width, n),
    }
}

// Writes a point and digits, if there are any, and returns the index after them.
fn put_fraction(out: &mut [u8; 32], at: usize, width: usize, n: u64) -> usize
    requires room { at + width ≤ 30 }
    requires fits { n < 10 ^ width }
    ensures text { take result out.new ≡ take at out.old ++ fraction_text width n }
    ensures end { result ≤ at + width + 1 }
{
    if width == 0 {
        return at;
    }
    out[at] = b'.';
    put_padded(out, at + 1, width, n);
    at + 1 + width
}

// Writes an `e` and the sign of an exponent, and returns the index after them.
fn put_mark(out: &mut [u8; 32], at: usize, negative: bool) -> usize
    requires { at ≤ 30 }
    ensures text { take result out.new ≡ take at out.old ++ 101 ∷ sign_text negative }
    ensures end { result ≡ at + 1 + (if negative then 1 else 0) }
{
    out[at] = b'e';
    if negative {
        out[at + 1] = b'-';
        return at + 2;
    }
    at + 1
}

// Writes a minus, if there is one, and returns the index after it.
fn put_sign(out: &mut [u8; 32], negative: bool) -> usize
    ensures text { take result out.new ≡ sign_text negative }
    ensures end { result ≤ 1 }
{
    if negative {
        out[0] = b'-';
        return 1;
    }
    0
}

/// Writes the text to the front, and returns its length.
pub(crate) fn put_layout(out: &mut [u8; 32], negative: bool, layout: Layout) -> usize
    requires { IsSpelledLayout layout }
    ensures text { take result out.new ≡ sign_text negative ++ text_of (layout_parts layout) }
    ensures short { result ≤ 27 }
{
    let start = put_sign(out, negative);
    put_padded(out, start, layout.whole_width, layout.whole);
    let point = start + layout.whole_width;
    let end = put_fraction(out, point, layout.fraction_width, layout.fraction);
    let mark = put_mark(out, end, layout.exponent_negative);
    put_padded(out, mark, layout.exponent_width, layout.exponent);
    mark + layout.exponent_width
}
