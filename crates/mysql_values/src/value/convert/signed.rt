//! The six whole-number types with negative numbers.
ghost use Rattle.std.specs.Prelude.{◌≡◌, true};
ghost use Rattle.std.specs.Option.{SomeIff};
ghost use Rattle.std.proofs.Common.{lit≤};
ghost use Rattle.mysql_values.specs.Decimal.{signed_number};
ghost use Rattle.mysql_values.specs.Intermediate.{committed};
ghost use Rattle.mysql_values.specs.WholeNumber.{holds, i128_type, i16_type, i32_type, i64_type, i8_type, isize_type};

use crate::value::convert::{ParseIrOpt, WholeNumber};

// The number of at most 128 bits with this sign and magnitude, for the types with negative numbers.
fn with_sign(negative: bool, magnitude: u128) -> Option<i128>
    ensures { SomeIff result (holds true 128 (signed_number negative magnitude) ≡ true)
        (signed_number negative magnitude) }
{
    if negative {
        0i128.checked_sub_unsigned(magnitude)
    } else {
        0i128.checked_add_unsigned(magnitude)
    }
}

impl WholeNumber for i8 {
    ghost is_signed = { i8_type.is_signed };

    ghost width = { i8_type.width };

    ghost width_at_most_128 = { lit≤ tt };

    ghost of_number = { i8_type.of_number };

    #[tactic(auto, using(crate::proofs::WholeNumberLemmas::int_converts_back))]
    fn from_parts(negative: bool, magnitude: u128) -> Option<i8> {
        i8::try_from(with_sign(negative, magnitude)?).ok()
    }

    fn to_parts(&self) -> (bool, u128) {
        (*self < 0, u128::from(self.unsigned_abs()))
    }
}

impl WholeNumber for i16 {
    ghost is_signed = { i16_type.is_signed };

    ghost width = { i16_type.width };

    ghost width_at_most_128 = { lit≤ tt };

    ghost of_number = { i16_type.of_number };

    #[tactic(auto, using(crate::proofs::WholeNumberLemmas::int_converts_back))]
    fn from_parts(negative: bool, magnitude: u128) -> Option<i16> {
        i16::try_from(with_sign(negative, magnitude)?).ok()
    }

    fn to_parts(&self) -> (bool, u128) {
        (*self < 0, u128::from(self.unsigned_abs()))
    }
}

impl WholeNumber for i32 {
    ghost is_signed = { i32_type.is_signed };

    ghost width = { i32_type.width };

    ghost width_at_most_128 = { lit≤ tt };

    ghost of_number = { i32_type.of_number };

    #[tactic(auto, using(crate::proofs::WholeNumberLemmas::int_converts_back))]
    fn from_parts(negative: bool, magnitude: u128) -> Option<i32> {
        i32::try_from(with_sign(negative, magnitude)?).ok()
    }

    fn to_parts(&self) -> (bool, u128) {
        (*self < 0, u128::from(self.unsigned_abs()))
    }
}

impl WholeNumber for i64 {
    ghost is_signed = { i64_type.is_signed };

    ghost width = { i64_type.width };

    ghost width_at_most_128 = { lit≤ tt };

    ghost of_number = { i64_type.of_number };

    #[tactic(auto, using(crate::proofs::WholeNumberLemmas::int_converts_back))]
    fn from_parts(negative: bool, magnitude: u128) -> Option<i64> {
        i64::try_from(with_sign(negative, magnitude)?).ok()
    }

    fn to_parts(&self) -> (bool, u128) {
        (*self < 0, u128::from(self.unsigned_abs()))
    }
}

impl WholeNumber for i128 {
    ghost is_signed = { i128_type.is_signed };

    ghost width = { i128_type.width };

    ghost width_at_most_128 = { lit≤ tt };

    ghost of_number = { i128_type.of_number };

    #[tactic(auto, using(crate::proofs::WholeNumberLemmas::wide_int_converts_back))]
    fn from_parts(negative: bool, magnitude: u128) -> Option<i128> {
        with_sign(negative, magnitude)
    }

    fn to_parts(&self) -> (bool, u128) {
        (*self < 0, self.unsigned_abs())
    }
}

impl WholeNumber for isize {
    ghost is_signed = { isize_type.is_signed };

    ghost width = { isize_type.width };

    ghost width_at_most_128 = { lit≤ tt };

    ghost of_number = { isize_type.of_number };

    #[tactic(auto, using(crate::proofs::WholeNumberLemmas::int_converts_back))]
    fn from_parts(negative: bool, magnitude: u128) -> Option<isize> {
        isize::try_from(with_sign(negative, magnitude)?).ok()
    }

    fn to_parts(&self) -> (bool, u128) {
        (*self < 0, self.unsigned_abs() as u128)
    }
}

impl From<ParseIrOpt<i8>> for i8 {
    ghost from_gives = { λ ir x. x ≡ committed ir };

    fn from(ir: ParseIrOpt<i8>) -> i8 {
        ir.commit()
    }
}

impl From<ParseIrOpt<i16>> for i16 {
    ghost from_gives = { λ ir x. x ≡ committed ir };

    fn from(ir: ParseIrOpt<i16>) -> i16 {
        ir.commit()
    }
}

impl From<ParseIrOpt<i32>> for i32 {
    ghost from_gives = { λ ir x. x ≡ committed ir };

    fn from(ir: ParseIrOpt<i32>) -> i32 {
        ir.commit()
    }
}

impl From<ParseIrOpt<i64>> for i64 {
    ghost from_gives = { λ ir x. x ≡ committed ir };

    fn from(ir: ParseIrOpt<i64>) -> i64 {
        ir.commit()
    }
}

impl From<ParseIrOpt<i128>> for i128 {
    ghost from_gives = { λ ir x. x ≡ committed ir };

    fn from(ir: ParseIrOpt<i128>) -> i128 {
        ir.commit()
    }
}

impl From<ParseIrOpt<isize>> for isize {
    ghost from_gives = { λ ir x. x ≡ committed ir };

    fn from(ir: ParseIrOpt<isize>) -> isize {
        ir.commit()
    }
}
