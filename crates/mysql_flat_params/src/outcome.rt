//! The outcome of a call that writes into a caller's room.
ghost use Rattle.std.specs.Prelude.{◌≡◌, pos};
ghost use Rattle.mysql_flat_params.specs.Outcomes.{no_fields, number_of, report_of};

/// The outcome of a call that writes into a caller's room. After each one except `Done` the room is
/// as it was.
#[derive(Clone, Copy, Debug, PartialEq, Eq)]
pub enum Outcome {
    /// The answer is in the first `len` bytes of the room. The rest of the room is unchanged.
    Done {
        /// The length of the answer in bytes.
        len: usize,
    },
    /// Memory was refused, or the answer would be longer than any answer can be.
    OutOfMemory,
    /// The room is shorter than the answer.
    Room {
        /// The length of the answer in bytes.
        len: usize,
    },
    /// The form ends within a parameter.
    FormEnd {
        /// The number of the parameter, from 0.
        place: usize,
        /// The index of its first byte in the form.
        position: usize,
    },
    /// A length-encoded string of the form begins with FB or FF.
    FormLengthLead {
        /// The number of the parameter, from 0.
        place: usize,
        /// The index of its first byte in the form.
        position: usize,
        /// That byte.
        lead: u8,
    },
    /// The number of a parameter's type isn't that of a column type with a binary form.
    FormType {
        /// The number of the parameter, from 0.
        place: usize,
        /// The index of its first byte in the form.
        position: usize,
        /// The number of its type.
        number: u8,
    },
    /// A parameter has a name and the first has none, or it has none and the first has one.
    FormMixed {
        /// The number of the parameter, from 0.
        place: usize,
        /// The index of its first byte in the form.
        position: usize,
    },
    /// An earlier parameter has the name of this one.
    FormRepeated {
        /// The number of the later parameter, from 0.
        place: usize,
        /// The index of the first byte of its name in the form.
        position: usize,
        /// The length of the name in bytes.
        len: usize,
    },
    /// The query has names and marks.
    Mixed,
    /// A name of the query has no value.
    Missing {
        /// The number of the first place with that name, from 0.
        place: usize,
        /// The index of the first byte of the name in the query, after its colon.
        position: usize,
        /// The length of the name in bytes.
        len: usize,
    },
    /// The parameters are named, and the query has no names.
    NamedForPositional,
    /// The parameters are positional, and the query has names.
    PositionalForNamed,
    /// The query has no names, and its marks aren't as many as the values.
    MarkCount {
        /// The number of marks of the query.
        marks: usize,
        /// The number of values given.
        values: usize,
    },
    /// A name or mark doesn't stand alone; the first such place is reported.
    NotAlone {
        /// Its number among the names and marks, from 0.
        place: usize,
        /// The index of its first byte in the query.
        position: usize,
    },
    /// The value for a place is a float, which has no literal; the first such place is reported.
    Float {
        /// The number of its place, from 0.
        place: usize,
    },
    /// The query has a backslash or a byte from 128 on; the first is reported. Of the calls that
    /// bind values, only [`bind_anywhere_into`](crate::bind_anywhere_into) returns it, also by wide
    /// names.
    Unsteady {
        /// Its index in the query.
        position: usize,
    },
    /// The query isn't portable; the first construct is reported. Of the calls that bind values,
    /// only [`bind_anywhere_into`](crate::bind_anywhere_into) and
    /// [`bind_in_both_modes_into`](crate::bind_in_both_modes_into) return it, also by wide names.
    Unportable {
        /// The number of the construct, as
        /// [`report_first_unportable`](crate::report_first_unportable) gives it.
        number: u8,
        /// The index of its first byte in the query.
        position: usize,
    },
    /// A string of the query holds a backslash; the first is reported. Only
    /// [`bind_in_both_modes_into`](crate::bind_in_both_modes_into) returns it, also by wide names.
    Backslash {
        /// Its index in the query.
        position: usize,
    },
}

/// The fields of an outcome as numbers. Fields that an outcome doesn't have are 0.
#[derive(Clone, Copy, Debug, PartialEq, Eq)]
#[repr(C)]
pub struct Report {
    /// The length of the answer, or of a name, in bytes.
    pub len: usize,
    /// The number of a place of the query or of a parameter of the form, from 0.
    pub place: usize,
    /// The index of a byte in the query or in the form.
    pub position: usize,
    /// The number of marks of the query.
    pub marks: usize,
    /// The number of values given.
    pub values: usize,
    /// The byte FB or FF that begins a length-encoded string, or the number of a type or of a
    /// construct.
    pub byte: usize,
}

// The report of an outcome without fields.
pub(crate) const NO_FIELDS: Report = Report {
    len: 0,
    place: 0,
    position: 0,
    marks: 0,
    values: 0,
    byte: 0,
};

// The fields of an outcome with a place and a position.
fn spot_fields(len: usize, place: usize, position: usize, byte: u8) -> Report
    ensures { result ≡ record no_fields {
      len = len;
      place = place;
      position = position;
      byte = byte;
    } }
{
    Report {
        len,
        place,
        position,
        byte: byte as usize,
        ..NO_FIELDS
    }
}

impl Outcome {
    /// The number of the outcome's kind: 0 for `Done`, then in the order of the declaration to 16
    /// for `Unportable`, and 18 for `Backslash`. 17 is the number of a fragment that can't be
    /// written.
    pub fn number(self) -> i32
        ensures number { result ≡ pos (number_of self) }
    {
        match self {
            Outcome::Done { .. } => 0,
            Outcome::OutOfMemory => 1,
            Outcome::Room { .. } => 2,
            Outcome::FormEnd { .. } => 3,
            Outcome::FormLengthLead { .. } => 4,
            Outcome::FormType { .. } => 5,
            Outcome::FormMixed { .. } => 6,
            Outcome::FormRepeated { .. } => 7,
            Outcome::Mixed => 8,
            Outcome::Missing { .. } => 9,
            Outcome::NamedForPositional => 10,
            Outcome::PositionalForNamed => 11,
            Outcome::MarkCount { .. } => 12,
            Outcome::NotAlone { .. } => 13,
            Outcome::Float { .. } => 14,
            Outcome::Unsteady { .. } => 15,
            Outcome::Unportable { .. } => 16,
            Outcome::Backslash { .. } => 18,
        }
    }

    /// The fields of the outcome.
    pub fn report(self) -> Report
        ensures fields { result ≡ report_of self }
    {
        match self {
            Outcome::Done { len } | Outcome::Room { len } => Report { len, ..NO_FIELDS },
            Outcome::FormEnd { place, position }
            | Outcome::FormMixed { place, position }
            | Outcome::NotAlone { place, position } => spot_fields(0, place, position, 0),
            Outcome::FormLengthLead {
                place,
                position,
                lead: byte,
            }
            | Outcome::FormType {
                place,
                position,
                number: byte,
            } => spot_fields(0, place, position, byte),
            Outcome::FormRepeated {
                place,
                position,
                len,
            }
            | Outcome::Missing {
                place,
                position,
                len,
            } => spot_fields(len, place, position, 0),
            Outcome::MarkCount { marks, values } => Report {
                marks,
                values,
                ..NO_FIELDS
            },
            Outcome::Float { place } => Report { place, ..NO_FIELDS },
            Outcome::Unsteady { position } => spot_fields(0, 0, position, 0),
            Outcome::Backslash { position } => spot_fields(0, 0, position, 0),
            Outcome::Unportable { number, position } => spot_fields(0, 0, position, number),
            Outcome::OutOfMemory
            | Outcome::Mixed
            | Outcome::NamedForPositional
            | Outcome::PositionalForNamed => NO_FIELDS,
        }
    }
}
