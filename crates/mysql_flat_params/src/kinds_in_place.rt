//! What is known of a form's fragments, kept beside them.
ghost use Rattle.std.specs.Prelude.{◌≡◌, ◌+◌, ◌≤◌, OnOk, length};
ghost use Rattle.mysql_flat_params.specs.FormKinds.{FormKinds, kind_of_type, with_kind};
ghost use Rattle.mysql_flat_params.specs.FlatFragments.{layout_type};
ghost use Rattle.mysql_flat_params.specs.KindsInPlace.{AreKeptKinds};

use crate::fragment::{LIST, ROWS};
use mysql_fragments::brackets::Implicit;
use std::alloc::{AllocError, Global};
use std::collections::BTreeMap;

// The numbers of the types for lists and rows that are such only because a value was one.
const IMPLICIT_LIST: u8 = 136;

const IMPLICIT_ROWS: u8 = 137;

/// The implicit lists and rows of a form. Nothing is allocated for a form without them.
#[derive(Drop)]
pub(crate) struct KindsInPlace<'f> {
    // of each parameter by position, up to the last that is implicit
    pub(crate) by_place: Vec<Implicit>,
    // of each implicit parameter with a name
    pub(crate) by_name: BTreeMap<&'f [u8], Implicit>,
}

impl<'f> KindsInPlace<'f> {
    /// Keeps what is known of the parameter of this number, which comes after those that are kept.
    /// Its name is empty for one by position.
    pub(crate) fn insert(
        &mut self,
        place: usize,
        name: &'f [u8],
        kind: Implicit,
    ) -> Result<(), AllocError>
        requires { length self.now.by_place.items ≤ place }
        ensures kept { OnOk result ((kinds : FormKinds) → AreKeptKinds self.old kinds →
            AreKeptKinds self.new (with_kind kinds place name.now kind)) }
        ensures room { OnOk result (length self.new.by_place.items ≤ place + 1) }
    {
        if kind == Implicit::No {
            return Ok(());
        }
        if name.is_empty() {
            self.by_place.resize(place, Implicit::No)?;
            self.by_place.push(kind)?;
        } else {
            self.by_name.insert(name, kind)?;
        }
        Ok(())
    }
}

/// What is known of a fragment whose type has this number.
pub(crate) fn kind_of_type(number: u8) -> Implicit
    ensures { result ≡ kind_of_type number }
{
    if number == IMPLICIT_LIST {
        Implicit::List
    } else if number == IMPLICIT_ROWS {
        Implicit::Rows
    } else {
        Implicit::No
    }
}

/// The type whose layout this type has: for implicit lists and rows that of lists and rows.
pub(crate) fn layout_type(number: u8) -> u8
    ensures { result ≡ layout_type number }
{
    match kind_of_type(number) {
        Implicit::No => number,
        Implicit::List => LIST,
        Implicit::Rows => ROWS,
    }
}
