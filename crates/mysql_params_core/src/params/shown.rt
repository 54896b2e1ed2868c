//! Parameters as text, for debugging.
use crate::params::Params;
use mysql_values::show::Shown;
use mysql_values::value::Value;
use std::collections::HashMap;
use std::fmt;

/// Shows the variant, and the values by position or in the order of the names' bytes.
impl fmt::Debug for Params {
    fn fmt<W: fmt::Write>(&self, f: &mut fmt::Formatter<W>) -> fmt::Result {
        match self {
            Params::Empty => write!(f, "Empty"),
            Params::Named(entries) => show_entries(f, entries),
            Params::Positional(values) => write!(f, "Positional({values:?})"),
        }
    }
}

// The entries in the order of the names' bytes, found one by one.
fn show_entries<W: fmt::Write>(
    f: &mut fmt::Formatter<W>,
    entries: &HashMap<Vec<u8>, Value>,
) -> fmt::Result {
    write!(f, "Named({{")?;
    let mut last: Option<&[u8]> = None;
    for i in 0..entries.len() {
        let Some((name, value)) = next_entry(entries, last) else {
            break;
        };
        if i > 0 {
            write!(f, ", ")?;
        }
        write!(f, "\"{}\": {value:?}", Shown(name))?;
        last = Some(name);
    }
    write!(f, "}})")
}

// The entry with the least name above `after`, or the entry with the least name of all.
fn next_entry<'a>(
    entries: &'a HashMap<Vec<u8>, Value>,
    after: Option<&[u8]>,
) -> Option<(&'a [u8], &'a Value)> {
    let mut next: Option<(&[u8], &Value)> = None;
    for (name, value) in entries {
        let name = name.as_slice();
        let is_later = after.is_none_or(|after| after < name);
        let is_before = next.is_none_or(|(least, _)| name < least);
        if is_later && is_before {
            next = Some((name, value));
        }
    }
    next
}
