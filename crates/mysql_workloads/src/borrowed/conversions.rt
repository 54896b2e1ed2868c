//! Literals, binary forms and conversions of borrowed values, against those of owned ones.
use crate::borrowed::Run;
use crate::borrowed::answers::{Answer, Kind};
use crate::borrowed::tally::Call;
use crate::borrowed::values::value;
use mysql_values::value::convert::{
    FromValue, FromValueRef, copied_bytes, copied_text, from_value_opt,
};
use mysql_values::value::{Value, ValueRef};
use mysql_wire_part::MySerialize;
use std::alloc::{AllocError, Global};
use std::time::Duration;

// A value, owned and lent.
#[derive(Clone, Copy)]
struct Both<'v> {
    owned: &'v Value,
    lent: ValueRef<'v>,
}

/// Asks a random value and the same, lent, for all that they say and convert to.
pub fn compare(run: &mut Run) -> Result<(), AllocError> {
    let owned = value(run, true)?;
    let lent = owned.borrowed();
    let both = Both {
        owned: &owned,
        lent,
    };
    both.compare_copies(run)?;
    both.compare_forms(run)?;
    both.compare_literals(run, false);
    both.compare_literals(run, true);
    both.compare_conversions(run)
}

impl<'v> Both<'v> {
    // A copy of the lent value.
    fn compare_copies(self, run: &mut Run) -> Result<(), AllocError> {
        let copy = self.lent.to_value(run.alloc)?;
        run.tally.compare(Call::Lent, self.owned, &copy);
        Ok(())
    }

    // The binary forms and their lengths.
    fn compare_forms(self, run: &mut Run) -> Result<(), AllocError> {
        let owned = form(run.alloc, self.owned)?;
        let lent = form(run.alloc, &self.lent)?;
        run.tally.compare(Call::BinaryForm, &owned, &lent);
        let (owned, lent) = (self.owned.bin_len(), self.lent.bin_len());
        run.tally.compare(Call::BinaryLength, &owned, &lent);
        Ok(())
    }

    // The literals in a mode.
    fn compare_literals(self, run: &mut Run, mode: bool) {
        let owned = self.owned.as_sql(run.alloc, mode);
        run.tally
            .compare(Call::Literal, &owned, &self.lent.as_sql(run.alloc, mode));
        let owned = self.owned.sql_len(mode);
        run.tally
            .compare(Call::LiteralLength, &owned, &self.lent.sql_len(mode));
    }

    // What the value converts to.
    fn compare_conversions(self, run: &mut Run) -> Result<(), AllocError> {
        self.compare_signed(run);
        self.compare_unsigned(run);
        self.compare_others(run);
        self.compare_texts(run)?;
        self.compare_bytes(run)
    }

    // Signed whole numbers.
    fn compare_signed(self, run: &mut Run) {
        self.compare_as::<i8>(run, Call::WholeNumber);
        self.compare_as::<i16>(run, Call::WholeNumber);
        self.compare_as::<i32>(run, Call::WholeNumber);
        self.compare_as::<i64>(run, Call::WholeNumber);
        self.compare_as::<i128>(run, Call::WholeNumber);
        self.compare_as::<isize>(run, Call::WholeNumber);
    }

    // Unsigned ones.
    fn compare_unsigned(self, run: &mut Run) {
        self.compare_as::<u8>(run, Call::WholeNumber);
        self.compare_as::<u16>(run, Call::WholeNumber);
        self.compare_as::<u32>(run, Call::WholeNumber);
        self.compare_as::<u64>(run, Call::WholeNumber);
        self.compare_as::<u128>(run, Call::WholeNumber);
        self.compare_as::<usize>(run, Call::WholeNumber);
    }

    // Truth, durations and an option.
    fn compare_others(self, run: &mut Run) {
        self.compare_as::<bool>(run, Call::Truth);
        self.compare_as::<Duration>(run, Call::Time);
        self.compare_as::<Option<i64>>(run, Call::OrNull);
    }

    // A type to which both convert.
    fn compare_as<T: FromValue + FromValueRef<'v> + PartialEq + Drop>(
        self,
        run: &mut Run,
        call: Call,
    ) {
        let Ok(copy) = self.owned.clone() else {
            return run.tally.take(call, Kind::Memory, false);
        };
        let owned = from_value_opt::<T>(copy).ok();
        let kind = if owned.is_none() {
            Kind::Refused
        } else {
            self.owned.kind()
        };
        run.tally
            .take(call, kind, owned == T::from_value_ref(self.lent));
    }

    // Texts, copied and lent.
    fn compare_texts(self, run: &mut Run) -> Result<(), AllocError> {
        let owned = from_value_opt::<String>(self.owned.clone()?).ok();
        let copied = copied_text(run.alloc, self.lent)?;
        run.tally.compare(Call::CopiedText, &owned, &copied);
        let lent = <&str as FromValueRef>::from_value_ref(self.lent);
        run.tally
            .take(Call::Text, owned.kind(), owned.as_deref() == lent);
        Ok(())
    }

    // Bytes, copied and lent.
    fn compare_bytes(self, run: &mut Run) -> Result<(), AllocError> {
        let owned = from_value_opt::<Vec<u8>>(self.owned.clone()?).ok();
        let copied = copied_bytes(run.alloc, self.lent)?;
        run.tally.compare(Call::CopiedBytes, &owned, &copied);
        let lent = <&[u8] as FromValueRef>::from_value_ref(self.lent);
        run.tally
            .take(Call::ByteString, owned.kind(), owned.as_deref() == lent);
        Ok(())
    }
}

// The binary form of a value.
fn form<T: MySerialize>(alloc: Global, value: &T) -> Result<Vec<u8>, AllocError> {
    let mut bytes = Vec::new(alloc);
    value.serialize(&mut bytes)?;
    Ok(bytes)
}
