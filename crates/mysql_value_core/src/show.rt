//! Bytes and values as text, for debugging and in messages. `Shown` is also for the crates above,
//! whose messages have names.
use crate::value::{Value, ValueRef};
use std::fmt;

/// Bytes as text. The bytes 32 to 126 except `"` and `\` are shown as they are. Each other byte is
/// shown as `\x` and two lower-case hexadecimal digits.
#[derive(Clone, Copy)]
pub struct Shown<'a>(pub &'a [u8]);

impl fmt::Display for Shown<'_> {
    fn fmt<W: fmt::Write>(&self, f: &mut fmt::Formatter<W>) -> fmt::Result {
        for byte in self.0 {
            let byte = *byte;
            if byte >= 32 && byte <= 126 && byte != b'"' && byte != b'\\' {
                write!(f, "{}", byte as char)?;
            } else {
                write!(f, "\\x{byte:02x}")?;
            }
        }
        Ok(())
    }
}

/// At most the first eight bytes, in double quotes. If there are more, two dots follow them.
#[derive(Drop)]
pub(crate) struct Quoted<'a>(pub &'a [u8]);

impl fmt::Debug for Quoted<'_> {
    fn fmt<W: fmt::Write>(&self, f: &mut fmt::Formatter<W>) -> fmt::Result {
        let bytes = self.0;
        if bytes.len() <= 8 {
            write!(f, "\"{}\"", Shown(bytes))
        } else {
            write!(f, "\"{}..\"", Shown(&bytes[..8]))
        }
    }
}

/// Shows the variant and its fields. A float is shown as its bits in decimal. A date or a time is
/// shown as its SQL text in double quotes.
impl fmt::Debug for Value {
    fn fmt<W: fmt::Write>(&self, f: &mut fmt::Formatter<W>) -> fmt::Result {
        write!(f, "{:?}", self.borrowed())
    }
}

/// Shows the same text as [`Value`].
impl fmt::Debug for ValueRef<'_> {
    fn fmt<W: fmt::Write>(&self, f: &mut fmt::Formatter<W>) -> fmt::Result {
        match self {
            ValueRef::NULL => write!(f, "Null"),
            ValueRef::Bytes(bytes) => write!(f, "Bytes({:?})", Quoted(*bytes)),
            ValueRef::Int(number) => write!(f, "Int({})", *number),
            ValueRef::UInt(number) => write!(f, "UInt({})", *number),
            ValueRef::Float(bits) => write!(f, "Float({})", *bits),
            ValueRef::Double(bits) => write!(f, "Double({})", *bits),
            ValueRef::Date(year, month, day, hour, minute, second, microseconds) => {
                write!(f, "Date(\"'{:04}-{:02}-{:02}", *year, *month, *day)?;
                if *hour != 0 || *minute != 0 || *second != 0 || *microseconds != 0 {
                    write!(f, " {:02}", *hour)?;
                    show_after_hours(f, *minute, *second, *microseconds)?;
                }
                write!(f, "'\")")
            }
            ValueRef::Time(negative, days, hours, minutes, seconds, microseconds) => {
                let sign = if *negative { "-" } else { "" };
                let hours = u64::from(*days) * 24 + u64::from(*hours);
                write!(f, "Time(\"'{sign}{hours:03}")?;
                show_after_hours(f, *minutes, *seconds, *microseconds)?;
                write!(f, "'\")")
            }
        }
    }
}

// Minutes and seconds, and microseconds unless they are 0.
fn show_after_hours<W: fmt::Write>(
    f: &mut fmt::Formatter<W>,
    minutes: u8,
    seconds: u8,
    microseconds: u32,
) -> fmt::Result {
    write!(f, ":{minutes:02}:{seconds:02}")?;
    if microseconds != 0 {
        write!(f, ".{microseconds:06}")?;
    }
    Ok(())
}
