//! The six whole-number types without negative numbers.
ghost use Rattle.std.specs.Prelude.{◌≡◌, true, false};
ghost use Rattle.std.specs.Option.{SomeIff};
ghost use Rattle.std.proofs.Common.{lit≤};
ghost use Rattle.mysql_values.specs.Decimal.{signed_number};
ghost use Rattle.mysql_values.specs.Intermediate.{committed};
ghost use Rattle.mysql_values.specs.WholeNumber.{holds, u128_type, u16_type, u32_type, u64_type, u8_type, usize_type};

use crate::value::convert::{ParseIrOpt, WholeNumber};

// The number of at most 128 bits with this magnitude, for the types without negative numbers.
fn without_sign(negative: bool, magnitude: u128) -> Option<u128>
    ensures { SomeIff result (holds false 128 (signed_number negative magnitude) ≡ true) magnitude }
{
    if negative && magnitude != 0 {
        None
    } else {
        Some(magnitude)
    }
}

impl WholeNumber for u8 {
    ghost is_signed = { u8_type.is_signed };

    ghost width = { u8_type.width };

    ghost width_at_most_128 = { lit≤ tt };

    ghost of_number = { u8_type.of_number };

    #[tactic(auto, using(crate::proofs::WholeNumberLemmas::uint_converts_back))]
    fn from_parts(negative: bool, magnitude: u128) -> Option<u8> {
        u8::try_from(without_sign(negative, magnitude)?).ok()
    }

    fn to_parts(&self) -> (bool, u128) {
        (false, u128::from(*self))
    }
}

impl WholeNumber for u16 {
    ghost is_signed = { u16_type.is_signed };

    ghost width = { u16_type.width };

    ghost width_at_most_128 = { lit≤ tt };

    ghost of_number = { u16_type.of_number };

    #[tactic(auto, using(crate::proofs::WholeNumberLemmas::uint_converts_back))]
    fn from_parts(negative: bool, magnitude: u128) -> Option<u16> {
        u16::try_from(without_sign(negative, magnitude)?).ok()
    }

    fn to_parts(&self) -> (bool, u128) {
        (false, u128::from(*self))
    }
}

impl WholeNumber for u32 {
    ghost is_signed = { u32_type.is_signed };

    ghost width = { u32_type.width };

    ghost width_at_most_128 = { lit≤ tt };

    ghost of_number = { u32_type.of_number };

    #[tactic(auto, using(crate::proofs::WholeNumberLemmas::uint_converts_back))]
    fn from_parts(negative: bool, magnitude: u128) -> Option<u32> {
        u32::try_from(without_sign(negative, magnitude)?).ok()
    }

    fn to_parts(&self) -> (bool, u128) {
        (false, u128::from(*self))
    }
}

impl WholeNumber for u64 {
    ghost is_signed = { u64_type.is_signed };

    ghost width = { u64_type.width };

    ghost width_at_most_128 = { lit≤ tt };

    ghost of_number = { u64_type.of_number };

    #[tactic(auto, using(crate::proofs::WholeNumberLemmas::uint_converts_back))]
    fn from_parts(negative: bool, magnitude: u128) -> Option<u64> {
        u64::try_from(without_sign(negative, magnitude)?).ok()
    }

    fn to_parts(&self) -> (bool, u128) {
        (false, u128::from(*self))
    }
}

impl WholeNumber for u128 {
    ghost is_signed = { u128_type.is_signed };

    ghost width = { u128_type.width };

    ghost width_at_most_128 = { lit≤ tt };

    ghost of_number = { u128_type.of_number };

    #[tactic(auto, using(crate::proofs::WholeNumberLemmas::wide_uint_converts_back))]
    fn from_parts(negative: bool, magnitude: u128) -> Option<u128> {
        without_sign(negative, magnitude)
    }

    fn to_parts(&self) -> (bool, u128) {
        (false, *self)
    }
}

impl WholeNumber for usize {
    ghost is_signed = { usize_type.is_signed };

    ghost width = { usize_type.width };

    ghost width_at_most_128 = { lit≤ tt };

    ghost of_number = { usize_type.of_number };

    #[tactic(auto, using(crate::proofs::WholeNumberLemmas::uint_converts_back))]
    fn from_parts(negative: bool, magnitude: u128) -> Option<usize> {
        usize::try_from(without_sign(negative, magnitude)?).ok()
    }

    fn to_parts(&self) -> (bool, u128) {
        (false, *self as u128)
    }
}

impl From<ParseIrOpt<u8>> for u8 {
    ghost from_gives = { λ ir x. x ≡ committed ir };

    fn from(ir: ParseIrOpt<u8>) -> u8 {
        ir.commit()
    }
}

impl From<ParseIrOpt<u16>> for u16 {
    ghost from_gives = { λ ir x. x ≡ committed ir };

    fn from(ir: ParseIrOpt<u16>) -> u16 {
        ir.commit()
    }
}

impl From<ParseIrOpt<u32>> for u32 {
    ghost from_gives = { λ ir x. x ≡ committed ir };

    fn from(ir: ParseIrOpt<u32>) -> u32 {
        ir.commit()
    }
}

impl From<ParseIrOpt<u64>> for u64 {
    ghost from_gives = { λ ir x. x ≡ committed ir };

    fn from(ir: ParseIrOpt<u64>) -> u64 {
        ir.commit()
    }
}

impl From<ParseIrOpt<u128>> for u128 {
    ghost from_gives = { λ ir x. x ≡ committed ir };

    fn from(ir: ParseIrOpt<u128>) -> u128 {
        ir.commit()
    }
}

impl From<ParseIrOpt<usize>> for usize {
    ghost from_gives = { λ ir x. x ≡ committed ir };

    fn from(ir: ParseIrOpt<usize>) -> usize {
        ir.commit()
    }
}
