//! Conversions of durations, both ways.
use crate::shared::Plain::{Bytes, Date, Double, Float, Int, Null, Time, UInt};
use crate::shared::{Plain, converts, gives, same_in, value};
use mysql_values::value::convert::{FromValue, ParseIrOpt, ToValue, ToValueError, from_value_opt};
use std::time::Duration;

// Texts and times, and the seconds and microseconds of the duration that they convert to.
const READ: &[(Plain, u64, u32)] = &[
    (Bytes(b"899:59:59.5"), 3_239_999, 500_000),
    (Bytes(b"00:00:00.000001"), 0, 1),
    (Bytes(b"12:34:56"), 45_296, 0),
    (Bytes(b"00:00:00"), 0, 0),
    (Bytes(b"099:00:00.25"), 356_400, 250_000),
    (Time(false, 0, 0, 0, 0, 4_294_967_295), 4_294, 967_295),
    (Time(false, 1, 2, 3, 4, 5), 93_784, 5),
    (Time(false, 0, 255, 255, 255, 1_000_000), 933_556, 0),
    (
        Time(false, 4_294_967_295, 23, 59, 59, 999_999),
        371_085_174_374_399,
        999_999,
    ),
];

const NO_DURATIONS: &[Plain] = &[
    Bytes(b"900:00:00"),
    Bytes(b"-00:00:00"),
    Bytes(b"-012:34:56.012345"),
    Bytes(b"1:00:00"),
    Bytes(b"00:60:00"),
    Bytes(b"00:00:60"),
    Bytes(b"00:00:00."),
    Bytes(b"00:00:00.1234567"),
    Bytes(b"00:00:00.1\xC2\xB2"),
    Bytes(b""),
    Time(true, 0, 0, 0, 0, 0),
    Time(true, 0, 1, 0, 0, 0),
    Int(1),
    UInt(1),
    Float(0),
    Double(0),
    Date(0, 0, 0, 0, 0, 0, 0),
    Null,
];

#[test]
fn texts_and_times(rt: HostRuntime) {
    for (plain, seconds, microseconds) in READ {
        let duration = Duration::new(*seconds, *microseconds * 1000);
        let found = from_value_opt::<Duration>(value(&rt, rt.alloc(), *plain));
        gives(&rt, found, &duration, &duration);
        let kept = ParseIrOpt::Parsed(duration, value(&rt, rt.alloc(), *plain));
        let ir = Duration::get_intermediate(value(&rt, rt.alloc(), *plain));
        gives(&rt, ir, &kept, &duration);
    }
}

// Times, and that of the duration that they convert to.
const TIMES: &[(Plain, Plain)] = &[
    (Time(false, 1, 2, 3, 4, 5), Time(false, 1, 2, 3, 4, 5)),
    (Bytes(b"899:59:59.5"), Time(false, 37, 11, 59, 59, 500_000)),
];

#[test]
fn way_back(rt: HostRuntime) {
    converts::<Duration>(&rt, rt.alloc(), TIMES, NO_DURATIONS);
}

// Seconds and nanoseconds, and the value, if it isn't too long for one.
const DURATIONS: &[(u64, u32, Option<Plain>)] = &[
    (0, 0, Some(Time(false, 0, 0, 0, 0, 0))),
    (0, 499, Some(Time(false, 0, 0, 0, 0, 0))),
    (0, 500, Some(Time(false, 0, 0, 0, 0, 1))),
    (59, 999_999_500, Some(Time(false, 0, 0, 1, 0, 0))),
    (
        86_399,
        999_999_499,
        Some(Time(false, 0, 23, 59, 59, 999_999)),
    ),
    (86_399, 999_999_500, Some(Time(false, 1, 0, 0, 0, 0))),
    (
        371_085_174_374_399,
        0,
        Some(Time(false, 4_294_967_295, 23, 59, 59, 0)),
    ),
    (371_085_174_374_400, 0, None),
    (371_085_174_374_399, 999_999_500, None),
    (18_446_744_073_709_551_615, 999_999_999, None),
];

#[test]
fn durations_to_values(rt: HostRuntime) {
    for (seconds, nanoseconds, plain) in DURATIONS {
        let duration = Duration::new(*seconds, *nanoseconds);
        let wanted = match plain {
            Some(plain) => Ok(value(&rt, rt.alloc(), *plain)),
            None => Err(ToValueError::DurationTooLong(duration)),
        };
        same_in(&rt, &duration.to_value(rt.alloc()), &wanted, &duration);
    }
}
