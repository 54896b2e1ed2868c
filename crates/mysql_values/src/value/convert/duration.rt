//! Conversions to durations.
ghost use Rattle.std.specs.Prelude.{◌≡◌, ◌*◌, ℕ};
ghost use Rattle.std.specs.Option.{option_map};
ghost use Rattle.std.specs.Duration.{as_nanos};
ghost use Rattle.mysql_sql_text.specs.TimeText.{total_microseconds};
ghost use Rattle.mysql_value_core.specs.FromValue.{ConvertsOrHandsBack};
ghost use Rattle.mysql_value_core.specs.ValueTable.{value_of_duration};
ghost use Rattle.mysql_values.specs.DurationConversion.{ConvertsTimeTexts, duration_conversion, nanoseconds_of_text, seen_intermediate};
ghost use Rattle.mysql_values.specs.Intermediate.{committed};
ghost use Rattle.mysql_values.specs.Rollback.{ConvertsAndRollsBack};
ghost use Rattle.mysql_values.specs.declared.value.convert.intermediate.ParseIrOpt as parsed_ir;

use crate::value::Value;
use crate::value::convert::{FromValue, FromValueError, ParseIrOpt};
use mysql_sql_text::time_text::read_time_text;
use std::time::Duration;

const MICROSECONDS_PER_SECOND: u32 = 1_000_000;

const NANOSECONDS_PER_MICROSECOND: u32 = 1_000;

// The duration of the fields of a time. Microseconds from a million on are carried into the
// seconds.
pub(crate) fn duration_of(
    days: u32,
    hours: u8,
    minutes: u8,
    seconds: u8,
    microseconds: u32,
) -> Duration
    ensures { as_nanos result ≡ total_microseconds days hours minutes seconds microseconds * 1000 }
{
    let hours = u64::from(days) * 24 + u64::from(hours);
    let seconds = (hours * 60 + u64::from(minutes)) * 60 + u64::from(seconds);
    let carried = u64::from(microseconds / MICROSECONDS_PER_SECOND);
    let part = microseconds % MICROSECONDS_PER_SECOND;
    Duration::new(seconds + carried, part * NANOSECONDS_PER_MICROSECOND)
}

// The duration of a time text without `-`.
pub(crate) fn duration_of_text(text: &[u8]) -> Option<Duration>
    ensures { option_map as_nanos result ≡ nanoseconds_of_text text.now }
{
    match read_time_text(text) {
        Some((false, microseconds)) => Some(Duration::from_micros(microseconds)),
        _ => None,
    }
}

impl TryFrom<Value> for ParseIrOpt<Duration> {
    type Error = FromValueError;

    ghost try_from_gives = { λ v r.
        ConvertsOrHandsBack (seen_intermediate as_nanos) (duration_conversion v) v r };

    fn try_from(value: Value) -> Result<ParseIrOpt<Duration>, FromValueError> {
        match value {
            Value::Bytes(bytes) => match duration_of_text(bytes.as_slice()) {
                Some(duration) => Ok(ParseIrOpt::Parsed(duration, Value::Bytes(bytes))),
                None => Err(FromValueError(Value::Bytes(bytes))),
            },
            Value::Time(false, days, hours, minutes, seconds, microseconds) => Ok(
                ParseIrOpt::Parsed(
                    duration_of(days, hours, minutes, seconds, microseconds),
                    Value::Time(false, days, hours, minutes, seconds, microseconds),
                ),
            ),
            other => Err(FromValueError(other)),
        }
    }
}

impl From<ParseIrOpt<Duration>> for Duration {
    ghost from_gives = { λ ir duration. duration ≡ committed ir };

    fn from(ir: ParseIrOpt<Duration>) -> Duration {
        ir.commit()
    }
}

impl FromValue for Duration {
    type Intermediate = ParseIrOpt<Duration>;

    ghost Seen = { ℕ };

    ghost seen = { as_nanos };

    ghost SeenIr = { parsed_ir.ParseIrOpt ℕ };

    ghost seen_ir = { seen_intermediate as_nanos };

    ghost conversion = { duration_conversion };

    ghost commit = { committed };

    fn commit_intermediate(ir: ParseIrOpt<Duration>) -> Duration {
        ir.commit()
    }

    #[inline]
    fn get_intermediate(v: Value) -> Result<ParseIrOpt<Duration>, FromValueError>
        ensures converts_and_rolls_back { ConvertsAndRollsBack (seen_intermediate as_nanos)
            duration_conversion value_of_duration v result }
        ensures time_texts { ConvertsTimeTexts v result }
    {
        ParseIrOpt::<Duration>::try_from(v)
    }
}
