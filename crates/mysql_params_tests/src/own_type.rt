//! A type of a user's own as a parameter: it counts how often it is asked for its value.
use mysql_values::value::Value;
use mysql_values::value::convert::{ToValue, ToValueError};
use std::alloc::Global;
use std::cell::Cell;
use std::time::Duration;

/// A duration, whose value is its own.
#[derive(Drop)]
pub struct Counted {
    duration: Duration,
    calls: Cell<u32>,
}

impl ToValue for Counted {
    ghost use Rattle.mysql_values.specs.DurationValue.{duration_value};

    ghost value_of = { λ counted. duration_value counted.duration };

    fn to_value(&self, alloc: Global) -> Result<Value, ToValueError> {
        self.calls.set(self.calls.get().wrapping_add(1));
        self.duration.to_value(alloc)
    }
}

impl Counted {
    /// A duration that was not asked for its value.
    pub fn new(duration: Duration) -> Counted {
        Counted {
            duration,
            calls: Cell::new(0),
        }
    }

    /// How often it was asked for its value.
    pub fn times_asked(&self) -> u32 {
        self.calls.get()
    }
}
