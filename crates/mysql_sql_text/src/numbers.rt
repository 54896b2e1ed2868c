//! Decimal digits that are written into a slice.
//!
//! `fill_..` writes the whole slice. `append_..` writes from an index on, keeps the bytes before
//! it, and returns the index after the last byte that it wrote.
ghost use Rattle.std.specs.Prelude.{◌≡◌, ◌∷◌, ◌++◌, ◌+◌, ◌/◌, ◌%◌, ◌<◌, ◌≤◌, length, take, drop};
ghost use Rattle.std.specs.Fmt.{decimal, signed_decimal};
ghost use Rattle.std.specs.Str.{byte};
ghost use Rattle.mysql_sql_text.specs.LiteralText.{padded};

// The two digits of each number below 100.
static TWO_DIGITS: [u8; 200] = *b"\
    0001020304050607080910111213141516171819\
    2021222324252627282930313233343536373839\
    4041424344454647484950515253545556575859\
    6061626364656667686970717273747576777879\
    8081828384858687888990919293949596979899";

/// The length of a signed number, with its `-`.
pub fn signed_len(number: i64) -> u128
    ensures { result ≡ length (signed_decimal number) }
{
    let digits = decimal_len(number.unsigned_abs()) as u128;
    if number < 0 { digits + 1 } else { digits }
}

/// The number of decimal digits of a number.
///
/// It needs no division: it estimates the digits from the bits, and one power of ten decides.
pub fn decimal_len(mut number: u64) -> usize
    ensures exact { result ≡ length (decimal number) }
    ensures few { result ≤ 20 }
{
    if number == 0 {
        // Zero has as many digits as 1.
        number = 1;
    }
    number.ilog10() as usize + 1
}

/// Fills the slice with a signed number. The slice must have exactly the length `signed_len`.
pub fn fill_signed(buffer: &mut [u8], number: i64)
    requires { length buffer.old ≡ length (signed_decimal number) }
    ensures { buffer.new ≡ signed_decimal number }
{
    if number < 0 {
        buffer[0] = b'-';
        fill_padded(&mut buffer[1..], number.unsigned_abs());
    } else {
        fill_padded(buffer, number.unsigned_abs());
    }
}

/// Fills the slice with a number, after zeros. The slice must be at least as long as the digits.
///
/// Two digits are written at once, from the last ones on, so only every second digit costs a
/// division.
pub fn fill_padded(buffer: &mut [u8], mut number: u64)
    requires { length (decimal number) ≤ length buffer.old }
    ensures { buffer.new ≡ padded (length buffer.old) number }
{
    let mut at = buffer.len();
    while at >= 2 {
        at -= 2;
        put_two_digits(buffer, at, number % 100);
        number /= 100;
    }
    if at == 0 {
        return;
    }
    buffer[0] = b'0' + (number % 10) as u8;
}

// Writes the two digits of a number below 100 at an index. It is inlined, since it is the body of a
// loop.
#[inline(always)]
fn put_two_digits(buffer: &mut [u8], at: usize, number: u64)
    requires within { at + 2 ≤ length buffer.old }
    requires small { number < 100 }
    ensures { drop at buffer.new
        ≡ (byte "0" + number / 10) ∷ (byte "0" + number % 10) ∷ drop (at + 2) buffer.old }
{
    let digits = 2 * number as usize;
    buffer[at] = TWO_DIGITS[digits];
    buffer[at + 1] = TWO_DIGITS[digits + 1];
}

// Appends a number with at least `width` digits, by zeros before it.
pub(crate) fn append_padded(buffer: &mut [u8], at: usize, width: usize, number: u64) -> usize
    requires { at + length (padded width number) ≤ length buffer.old }
    ensures next { result ≡ at + length (padded width number) }
    ensures front { take result buffer.new ≡ take at buffer.old ++ padded width number }
{
    let end = at + decimal_len(number).max(width);
    fill_padded(&mut buffer[at..end], number);
    end
}
