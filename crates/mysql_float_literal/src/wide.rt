//! Whole numbers in up to 40 limbs of 64 bits, the lowest first.
ghost use Rattle.std.specs.Prelude.{◌≡◌, ◌+◌, ◌*◌, ◌/◌, ◌^◌, ◌<◌, ◌≤◌, length};
ghost use Rattle.std.specs.Ordering.{nat_cmp};
ghost use Rattle.core.specs.Dec2flt.Limbs.{value_below, AreZeroFrom};

use std::cmp::Ordering;

pub(crate) const LIMBS: usize = 40;

// 5 ^ 27, the largest power of five in a limb.
const FIVE_TO_27: u64 = 7_450_580_596_923_828_125;

/// A number in its first `len` limbs.
#[derive(Clone, Copy)]
pub(crate) struct Wide {
    limbs: [u64; LIMBS],
    len: usize,
    ghost fits: { len ≤ 40 },
    ghost zeros: { AreZeroFrom limbs len },
}

// Multiplies the number in the first limbs by `by`, and returns how many limbs it has then.
fn multiply(limbs: &mut [u64; LIMBS], len: usize, by: u64) -> usize
    requires room { len < 40 }
    requires zeros { AreZeroFrom limbs.old len }
    ensures value { value_below limbs.new result ≡ value_below limbs.old len * by }
    ensures zeros { AreZeroFrom limbs.new result }
    ensures room { result ≤ len + 1 }
{
    let mut carry = 0;
    for i in 0..len {
        let product = limbs[i] as u128 * by as u128 + carry as u128;
        limbs[i] = (product & 0xffff_ffff_ffff_ffff) as u64;
        carry = (product >> 64) as u64;
    }
    if carry == 0 {
        return len;
    }
    limbs[len] = carry;
    len + 1
}

// Multiplies the number in the first limbs by a power of five.
fn multiply_by_fives(limbs: &mut [u64; LIMBS], len: usize, fives: u64) -> usize
    requires room { 27 * len + fives < 1053 }
    requires zeros { AreZeroFrom limbs.old len }
    ensures value { value_below limbs.new result ≡ value_below limbs.old len * 5 ^ fives }
    ensures zeros { AreZeroFrom limbs.new result }
    ensures room { 27 * result ≤ 27 * len + fives + 27 }
{
    let (mut len, mut left) = (len, fives);
    while left > 27 {
        len = multiply(limbs, len, FIVE_TO_27);
        left -= 27;
    }
    multiply(limbs, len, 5_u64.pow(left as u32))
}

/// The number n * 5 ^ fives * 2 ^ twos.
pub(crate) fn product(n: u64, fives: u64, twos: u64) -> Wide
    requires { (fives ≤ 342) × (twos ≤ 1390) }
    ensures { value_below result.limbs result.len ≡ n * 5 ^ fives * 2 ^ twos }
{
    let mut limbs = [0; LIMBS];
    let whole = (twos / 64) as usize;
    limbs[whole] = n;
    let len = multiply(&mut limbs, whole + 1, 1 << (twos % 64));
    let len = multiply_by_fives(&mut limbs, len, fives);
    Wide { limbs, len }
}

// The order of the numbers in the first limbs.
fn order_of(a: &[u64], b: &[u64], len: usize) -> Ordering
    requires { (len ≤ length a.now) × (len ≤ length b.now) }
    ensures { result ≡ nat_cmp (value_below a.now len) (value_below b.now len) }
{
    let mut i = len;
    while i > 0 {
        i -= 1;
        if a[i] != b[i] {
            return a[i].cmp(&b[i]);
        }
    }
    Ordering::Equal
}

/// The order of two numbers.
pub(crate) fn compare(a: &Wide, b: &Wide) -> Ordering
    ensures { result ≡ nat_cmp (value_below a.now.limbs a.now.len)
        (value_below b.now.limbs b.now.len) }
{
    order_of(&a.limbs, &b.limbs, a.len.max(b.len))
}
