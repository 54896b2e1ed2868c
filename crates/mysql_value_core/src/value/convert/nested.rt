//! The values of references, of options, and of values.
ghost use Rattle.mysql_value_core.specs.ValueTable.{value_of_option, value_of_reference, value_of_value};

use crate::value::Value;
use crate::value::convert::{ToValue, ToValueError};
use std::alloc::Global;

impl<T: ToValue> ToValue for &T {
    ghost value_of = { λ reference. value_of_reference T.value_of reference.now };

    fn to_value(&self, alloc: Global) -> Result<Value, ToValueError> {
        (**self).to_value(alloc)
    }
}

impl<T: ToValue> ToValue for Option<T> {
    ghost value_of = { value_of_option T.value_of };

    fn to_value(&self, alloc: Global) -> Result<Value, ToValueError> {
        match self {
            None => Ok(Value::NULL),
            Some(argument) => argument.to_value(alloc),
        }
    }
}

/// The copy is on the value's own allocator.
impl ToValue for Value {
    ghost value_of = { value_of_value };

    fn to_value(&self, _alloc: Global) -> Result<Value, ToValueError> {
        Ok(Value::clone(self)?)
    }
}
