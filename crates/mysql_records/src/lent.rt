//! Fields that borrow their bytes from a text.
ghost use Rattle.std.specs.Prelude.{◌≡◌, IfOk, option_map};
ghost use Rattle.mysql_records.specs.Seen.{field_seen, lent_seen};

use crate::record::Field;
use std::alloc::{AllocError, Global};

/// A field of a record. Its bytes are copied only if the text doesn't have them one after another.
#[derive(Debug, Drop)]
pub enum LentField<'a> {
    /// `\N` without quotes, in the MySQL formats.
    Null,
    /// Its bytes, borrowed from the text.
    Lent(&'a [u8]),
    /// Its bytes, copied, since the text has a quote or a backslash before at least one of them.
    Made(Vec<u8>),
}

impl<'a> LentField<'a> {
    /// The bytes of the field, or `None` if it is NULL.
    pub fn bytes(&self) -> Option<&[u8]>
        ensures { option_map (λ bytes. bytes.now) result ≡ lent_seen self.now }
    {
        match self {
            LentField::Null => None,
            LentField::Lent(bytes) => Some(*bytes),
            LentField::Made(bytes) => Some(bytes.as_slice()),
        }
    }

    /// The same field with its bytes as a vector. Borrowed bytes are copied.
    pub fn into_field(self, alloc: Global) -> Result<Field, AllocError>
        ensures { IfOk result (λ field. field_seen field ≡ lent_seen self.entry) }
    {
        match self {
            LentField::Null => Ok(Field::Null),
            LentField::Lent(bytes) => Ok(Field::Bytes(Vec::from_slice(alloc, bytes)?)),
            LentField::Made(bytes) => Ok(Field::Bytes(bytes)),
        }
    }
}
