//! What errors say.
use crate::shared::{Plain, gives, says, value};
use mysql_values::value::convert::{FromValueError, ToValueError};
use mysql_values::value::{AsSqlError, BinaryRowError};
use mysql_wire_part::{ColumnType, WireError};
use std::alloc::AllocError;
use std::time::Duration;

const WIRE_ERRORS: &[(WireError, &str)] = &[
    (WireError::UnexpectedEof, "Unexpected end of buffer"),
    (WireError::BadLengthLead(255), "Bad length lead 255"),
    (
        WireError::UnsupportedColumn(ColumnType::MYSQL_TYPE_TIME2),
        "Unsupported column type",
    ),
];

const NO_MEMORY: &str = "out of memory";

#[test]
fn errors_of_the_wire(rt: HostRuntime) {
    for (error, message) in WIRE_ERRORS {
        says(&rt, rt.alloc(), error, *message);
    }
    says(&rt, rt.alloc(), &WireError::from(AllocError), NO_MEMORY);
}

#[test]
fn refused_rows(rt: HostRuntime) {
    let header = BinaryRowError::BadHeader(254);
    says(&rt, rt.alloc(), &header, "Bad row header 254");
    let cut = BinaryRowError::Wire(WireError::UnexpectedEof);
    says(&rt, rt.alloc(), &cut, "Unexpected end of buffer");
}

#[test]
fn refused_values(rt: HostRuntime) {
    let alloc = rt.alloc();
    says(&rt, alloc, &AsSqlError::Float, "Float has no SQL text");
    says(&rt, alloc, &AsSqlError::from(AllocError), NO_MEMORY);
    let too_long = ToValueError::DurationTooLong(Duration::new(0, 0));
    says(&rt, alloc, &too_long, "Duration has too many days");
    says(&rt, alloc, &ToValueError::from(AllocError), NO_MEMORY);
}

// Values that don't convert, and what their refusal says.
const REFUSED: &[(Plain, &str)] = &[
    (
        Plain::Bytes(b"it's long"),
        "Couldn't convert the value `Bytes(\"it's lon..\")` to a desired type",
    ),
    (
        Plain::Time(true, 300, 8, 8, 8, 123456),
        "Couldn't convert the value `Time(\"'-7208:08:08.123456'\")` to a desired type",
    ),
];

#[test]
fn refused_conversions(rt: HostRuntime) {
    for (plain, message) in REFUSED {
        let refusal = FromValueError(value(&rt, rt.alloc(), *plain));
        gives(&rt, refusal.clone(), &refusal, &refusal);
        says(&rt, rt.alloc(), &refusal, *message);
    }
}
