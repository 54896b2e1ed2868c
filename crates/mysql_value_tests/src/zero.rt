//! A type of a user's own that values convert to, of which contracts see nothing.
ghost use Rattle.std.specs.Prelude.{⊤};
ghost use Rattle.mysql_value_tests.specs.Zero.{zero_conversion};

use mysql_values::value::Value;
use mysql_values::value::convert::{FromValue, FromValueError, ValueIr};

/// The number 0, for which NULL stands too.
#[derive(Drop)]
pub struct Zero;

impl From<ValueIr> for Zero {
    fn from(ir: ValueIr) -> Zero {
        Zero::commit_intermediate(ir)
    }
}

impl FromValue for Zero {
    type Intermediate = ValueIr;

    ghost Seen = { ⊤ };

    ghost seen = { λ _. tt };

    ghost SeenIr = { ⊤ };

    ghost seen_ir = { λ _. tt };

    ghost conversion = { zero_conversion };

    ghost commit = { λ zero. zero };

    fn commit_intermediate(_ir: ValueIr) -> Zero {
        Zero
    }

    fn get_intermediate(v: Value) -> Result<ValueIr, FromValueError> {
        match v {
            Value::NULL => Ok(ValueIr(Value::NULL)),
            Value::Int(0) => Ok(ValueIr(Value::Int(0))),
            other => Err(FromValueError(other)),
        }
    }
}

#[cfg(test)]
mod tests {
    use super::*;
    use crate::shared::{answer_of, same_in};
    use mysql_values::value::convert::from_value_opt;

    #[test]
    fn converted(rt: HostRuntime) {
        let zero: Option<Zero> = answer_of(&rt, from_value_opt(Value::Int(0)));
        let none: Option<Zero> = answer_of(&rt, from_value_opt(Value::NULL));
        same_in(
            &rt,
            (zero.is_some(), none.is_some()),
            (true, false),
            &"Zero",
        );
    }
}
