//! Conversions to Booleans.
ghost use Rattle.std.specs.Prelude.{◌≡◌, Bool};
ghost use Rattle.mysql_value_core.specs.FromValue.{ConvertsOrHandsBack};
ghost use Rattle.mysql_value_core.specs.ValueTable.{value_of_bool};
ghost use Rattle.mysql_values.specs.Intermediate.{committed};
ghost use Rattle.mysql_values.specs.Rollback.{ConvertsAndRollsBack};
ghost use Rattle.mysql_values.specs.Boolean.{boolean_conversion, boolean_of_text};
ghost use Rattle.mysql_values.specs.declared.value.convert.intermediate.ParseIrOpt as parsed_ir;

use crate::value::Value;
use crate::value::convert::{FromValue, FromValueError, ParseIrOpt};

// The Boolean of a text.
pub(crate) fn boolean_of_text(text: &[u8]) -> Option<bool>
    ensures { result ≡ boolean_of_text text.now }
{
    match text {
        b"0" => Some(false),
        b"1" => Some(true),
        _ => None,
    }
}

impl TryFrom<Value> for ParseIrOpt<bool> {
    type Error = FromValueError;

    ghost try_from_gives = { λ v r. ConvertsOrHandsBack (λ ir. ir) (boolean_conversion v) v r };

    fn try_from(value: Value) -> Result<ParseIrOpt<bool>, FromValueError> {
        match value {
            Value::Int(number) => Ok(ParseIrOpt::Ready(number != 0)),
            Value::UInt(number) => Ok(ParseIrOpt::Ready(number != 0)),
            Value::Bytes(bytes) => match boolean_of_text(bytes.as_slice()) {
                Some(boolean) => Ok(ParseIrOpt::Parsed(boolean, Value::Bytes(bytes))),
                None => Err(FromValueError(Value::Bytes(bytes))),
            },
            other => Err(FromValueError(other)),
        }
    }
}

impl From<ParseIrOpt<bool>> for bool {
    ghost from_gives = { λ ir boolean. boolean ≡ committed ir };

    fn from(ir: ParseIrOpt<bool>) -> bool {
        ir.commit()
    }
}

impl FromValue for bool {
    type Intermediate = ParseIrOpt<bool>;

    ghost Seen = { Bool };

    ghost seen = { λ boolean. boolean };

    ghost SeenIr = { parsed_ir.ParseIrOpt Bool };

    ghost seen_ir = { λ ir. ir };

    ghost conversion = { boolean_conversion };

    ghost commit = { committed };

    fn commit_intermediate(ir: ParseIrOpt<bool>) -> bool {
        ir.commit()
    }

    #[inline]
    fn get_intermediate(v: Value) -> Result<ParseIrOpt<bool>, FromValueError>
        ensures converts_and_rolls_back { ConvertsAndRollsBack (λ ir. ir)
            boolean_conversion value_of_bool v result }
    {
        ParseIrOpt::<bool>::try_from(v)
    }
}
