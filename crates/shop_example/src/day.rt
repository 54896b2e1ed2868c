//! A day: a type of the caller's own as a parameter.
ghost use Rattle.shop_example.specs.Day.{day_value};

use mysql_values::value::Value;
use mysql_values::value::convert::{ToValue, ToValueError};
use std::alloc::Global;

/// A day of the calendar: the year, the month from 1, the day of the month from 1.
#[derive(Debug, Clone, Copy, PartialEq, Eq)]
pub struct Day {
    pub year: u16,
    pub month: u8,
    pub day: u8,
}

impl ToValue for Day {
    ghost value_of = { day_value };

    fn to_value(&self, _alloc: Global) -> Result<Value, ToValueError> {
        Ok(Value::Date(self.year, self.month, self.day, 0, 0, 0, 0))
    }
}
