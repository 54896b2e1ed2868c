//! Conversions to texts.
ghost use Rattle.std.specs.Prelude.{◌≡◌, ℕ, List, false, string_bytes};
ghost use Rattle.std.specs.Option.{option_map};
ghost use Rattle.mysql_value_core.specs.FromValue.{CowSeen, cow_text, owned_cow, value_text};
ghost use Rattle.mysql_value_core.specs.ValueTable.{value_of_str_cow, value_of_string};

use crate::bytes::Bytes;
use crate::value::Value;
use crate::value::convert::{FromValue, FromValueError, IntoValue, ToValueError};
use std::alloc::Global;
use std::borrow::CowStr;

impl IntoValue for String {
    ghost undo = { λ text. value_of_string (string_bytes text) };

    ghost takes_memory = { λ _. ⊥ };

    fn into_value(self, _alloc: Global) -> Result<Value, ToValueError> {
        Ok(Value::Bytes(Bytes::from(self.into_bytes())))
    }
}

impl FromValue for String {
    type Intermediate = String;

    ghost Seen = { List ℕ };

    ghost seen = { string_bytes };

    ghost SeenIr = { List ℕ };

    ghost seen_ir = { string_bytes };

    ghost conversion = { value_text };

    ghost commit = { λ text. text };

    fn commit_intermediate(ir: String) -> String {
        ir
    }

    #[inline]
    fn get_intermediate(v: Value) -> Result<String, FromValueError> {
        String::try_from(v)
    }
}

impl<'a> IntoValue for CowStr<'a> {
    ghost undo = { λ text. value_of_str_cow (cow_text text).1 };

    ghost takes_memory = { λ text. (cow_text text).0 ≡ false };

    fn into_value(self, alloc: Global) -> Result<Value, ToValueError> {
        match self {
            CowStr::Owned(text) => Ok(Value::Bytes(Bytes::from(text.into_bytes()))),
            CowStr::Borrowed(text) => {
                let bytes = Vec::from_slice(alloc, text.as_bytes())?;
                Ok(Value::Bytes(Bytes::from(bytes)))
            }
        }
    }
}

impl FromValue for CowStr<'static> {
    type Intermediate = CowStr<'static>;

    ghost Seen = { CowSeen };

    ghost seen = { cow_text };

    ghost SeenIr = { CowSeen };

    ghost seen_ir = { cow_text };

    ghost conversion = { λ v. option_map owned_cow (value_text v) };

    ghost commit = { λ text. text };

    fn commit_intermediate(ir: CowStr<'static>) -> CowStr<'static> {
        ir
    }

    #[inline]
    fn get_intermediate(v: Value) -> Result<CowStr<'static>, FromValueError> {
        CowStr::<'static>::try_from(v)
    }
}
