//! The values of durations.
ghost use Rattle.std.specs.Prelude.{◌≡◌, ◌<◌, ◌^◌};
ghost use Rattle.std.specs.Duration.{as_nanos};
ghost use Rattle.mysql_value_core.specs.ValueTable.{value_of_duration};

use crate::value::Value;
use crate::value::convert::{ToValue, ToValueError};
use std::alloc::Global;
use std::time::Duration;

const NANOSECONDS_PER_SECOND: u128 = 1_000_000_000;

const NANOSECONDS_PER_MICROSECOND: u128 = 1_000;

const MICROSECONDS_PER_SECOND: u128 = 1_000_000;

const SECONDS_PER_DAY: u128 = 86_400;

const SECONDS_PER_HOUR: u128 = 3_600;

const SECONDS_PER_MINUTE: u128 = 60;

// The nanoseconds of a duration.
fn nanoseconds(duration: &Duration) -> u128
    ensures exact { result ≡ as_nanos duration.now }
    ensures few { result < 2 ^ 96 }
{
    u128::from(duration.as_secs()) * NANOSECONDS_PER_SECOND + u128::from(duration.subsec_nanos())
}

/// The value is a `Time` that isn't negative. The duration is rounded half up to microseconds.
/// `DurationTooLong` holds the duration.
impl ToValue for Duration {
    ghost value_of = { value_of_duration };

    fn to_value(&self, _alloc: Global) -> Result<Value, ToValueError> {
        let half = NANOSECONDS_PER_MICROSECOND / 2;
        let microseconds = (nanoseconds(self) + half) / NANOSECONDS_PER_MICROSECOND;
        let seconds = microseconds / MICROSECONDS_PER_SECOND;
        let days = seconds / SECONDS_PER_DAY;
        if days > u128::from(u32::MAX) {
            return Err(ToValueError::DurationTooLong(*self));
        }
        Ok(Value::Time(
            false,
            days as u32,
            (seconds / SECONDS_PER_HOUR % 24) as u8,
            (seconds / SECONDS_PER_MINUTE % 60) as u8,
            (seconds % 60) as u8,
            (microseconds % MICROSECONDS_PER_SECOND) as u32,
        ))
    }
}
