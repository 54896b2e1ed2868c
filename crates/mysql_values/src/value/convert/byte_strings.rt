//! Conversions to bytes.
ghost use Rattle.std.specs.Prelude.{◌≡◌, ℕ, List, ⊤, false};
ghost use Rattle.std.specs.Option.{option_map};
ghost use Rattle.mysql_value_core.specs.FromValue.{CowSeen, value_array, value_bytes, cow_bytes, owned_cow};
ghost use Rattle.mysql_value_core.specs.ValueTable.{value_of_byte_array, value_of_byte_cow, value_of_byte_vec};

use crate::bytes::Bytes;
use crate::value::Value;
use crate::value::convert::{FromValue, FromValueError, IntoValue, ToValueError};
use std::alloc::Global;
use std::borrow::CowSlice;

impl IntoValue for Vec<u8> {
    ghost undo = { λ bytes. value_of_byte_vec bytes.items };

    ghost takes_memory = { λ _. ⊥ };

    fn into_value(self, _alloc: Global) -> Result<Value, ToValueError> {
        Ok(Value::Bytes(Bytes::from(self)))
    }
}

impl FromValue for Vec<u8> {
    type Intermediate = Vec<u8>;

    ghost Seen = { List ℕ };

    ghost seen = { λ bytes. bytes.items };

    ghost SeenIr = { List ℕ };

    ghost seen_ir = { λ bytes. bytes.items };

    ghost conversion = { value_bytes };

    ghost commit = { λ bytes. bytes };

    fn commit_intermediate(ir: Vec<u8>) -> Vec<u8> {
        ir
    }

    #[inline]
    fn get_intermediate(v: Value) -> Result<Vec<u8>, FromValueError> {
        Vec::<u8>::try_from(v)
    }
}

impl<const N: usize> IntoValue for [u8; N] {
    ghost undo = { λ bytes. value_of_byte_array bytes };

    ghost takes_memory = { λ _. ⊤ };

    fn into_value(self, alloc: Global) -> Result<Value, ToValueError> {
        let bytes = Vec::from_slice(alloc, &self)?;
        Ok(Value::Bytes(Bytes::from(bytes)))
    }
}

impl<const N: usize> FromValue for [u8; N] {
    type Intermediate = [u8; N];

    ghost Seen = { List ℕ };

    ghost seen = { λ bytes. bytes };

    ghost SeenIr = { List ℕ };

    ghost seen_ir = { λ bytes. bytes };

    ghost conversion = { value_array N };

    ghost commit = { λ bytes. bytes };

    fn commit_intermediate(ir: [u8; N]) -> [u8; N] {
        ir
    }

    #[inline]
    fn get_intermediate(v: Value) -> Result<[u8; N], FromValueError> {
        <[u8; N]>::try_from(v)
    }
}

impl<'a> IntoValue for CowSlice<'a, u8> {
    ghost undo = { λ bytes. value_of_byte_cow (cow_bytes bytes).1 };

    ghost takes_memory = { λ bytes. (cow_bytes bytes).0 ≡ false };

    fn into_value(self, alloc: Global) -> Result<Value, ToValueError> {
        match self {
            CowSlice::Owned(bytes) => Ok(Value::Bytes(Bytes::from(bytes))),
            CowSlice::Borrowed(bytes) => {
                let bytes = Vec::from_slice(alloc, bytes)?;
                Ok(Value::Bytes(Bytes::from(bytes)))
            }
        }
    }
}

impl FromValue for CowSlice<'static, u8> {
    type Intermediate = CowSlice<'static, u8>;

    ghost Seen = { CowSeen };

    ghost seen = { cow_bytes };

    ghost SeenIr = { CowSeen };

    ghost seen_ir = { cow_bytes };

    ghost conversion = { λ v. option_map owned_cow (value_bytes v) };

    ghost commit = { λ bytes. bytes };

    fn commit_intermediate(ir: CowSlice<'static, u8>) -> CowSlice<'static, u8> {
        ir
    }

    #[inline]
    fn get_intermediate(v: Value) -> Result<CowSlice<'static, u8>, FromValueError> {
        CowSlice::<'static, u8>::try_from(v)
    }
}
