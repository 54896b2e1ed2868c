//! A table of a query that is bound for any mode and any server, and binding by it.
ghost use Rattle.std.specs.Prelude.{◌≡◌, ◌⊎◌, ◌≤◌, ◌<◌, ℕ, Bool, true, [], Some, length, take, drop};
ghost use Rattle.mysql_named_params.specs.Reading.{OnWideTokens, wide_reading};
ghost use Rattle.mysql_portable.specs.Steady.{first_unsteady};
ghost use Rattle.mysql_flat_params.specs.AnywhereTable.{HasAnywhereTable, IsAnywhereBindOutcome, IsAnywhereTableOutcome, IsGuardedBindOutcome, IsMadeAnywhereTable, any_template};
ghost use Rattle.mysql_flat_params.specs.FlatForm.{HasFirstParameter};
ghost use Rattle.mysql_flat_params.specs.GuardedIntoRoom.{IsWideGuardedForm};
ghost use Rattle.mysql_flat_params.specs.IntoRoom.{IfMixedIn};
ghost use Rattle.mysql_flat_params.specs.Outcomes as outcomes;
ghost use Rattle.mysql_flat_params.specs.PlaceTable.{CanHaveTableIn, IfDone, IfTooLong, MissesOtherPlaceIn, UnlessDone};
ghost use Rattle.mysql_flat_params.specs.WideSteadyIntoRoom.{IsWideAnywhereForm, wide_anywhere_refusal};
ghost use Rattle.mysql_flat_params.specs.declared.outcome.Outcome as outcome;

use crate::outcome::Outcome;
use crate::place_table::{TableHead, TableOutcome, table_into_read};
use crate::steady_room::{WIDE_ANYWHERE, query_outcome};
use crate::table_literals::{AnywhereLiterals, bind_by_table_with};
use mysql_binding::PlaceSpan;
use mysql_named_params::places::Reading;
use std::alloc::Global;

/// The reading of the tables. A query that has one has the same tokens in the other mode.
pub(crate) const WIDE_READING: Reading = Reading {
    no_backslash_escape: true,
    wide_names: true,
};

/// A query that was parsed once, and found to be one for any mode and any server, to be bound many
/// times: with its table of [`wide_anywhere_table_into`], which the caller kept.
#[derive(Clone, Copy, Debug)]
pub struct AnywhereTemplate<'q> {
    /// The query.
    pub query: &'q [u8],
    /// The head of the table.
    pub head: TableHead,
    /// The places of the table.
    pub places: &'q [PlaceSpan],
}

/// Makes the table of a query that
/// [`bind_wide_anywhere_into`](crate::bind_wide_anywhere_into) binds: its head, and its places at
/// the front of the room. The query can then be bound by it many times.
///
/// `Unsteady` and `Unportable` are those that `bind_wide_anywhere_into` returns. They come before
/// all else. Everything else is as for [`table_into`](crate::table_into).
pub fn wide_anywhere_table_into(
    alloc: Global,
    query: &[u8],
    head: &mut TableHead,
    room: &mut [PlaceSpan],
) -> Outcome
    ensures outcome { IsAnywhereTableOutcome query.now result }

    // These are refused without allocating.
    ensures unsteady { (at : ℕ) → first_unsteady query.now ≡ Some at →
        result ≡ Outcome.Unsteady at }
    ensures refused { (mode : Bool) → OnWideTokens mode query.now (λ ts.
        (told : outcome.Outcome) → wide_anywhere_refusal query.now ts ≡ Some told → result ≡ told) }
    ensures made { outcomes.IfDone result
        (IsMadeAnywhereTable query.now head.new room.old room.new) }
    ensures too_long { outcomes.IfTooLong result (λ len. length room.old < len) }
    ensures unchanged { outcomes.UnlessDone result
        ((head.new ≡ head.old) × (room.new ≡ room.old)) }
{
    match query_outcome(query, WIDE_ANYWHERE) {
        None => table_into_read(alloc, query, WIDE_READING, head, room),
        Some(outcome) => outcome,
    }
}

/// Binds a form's parameters to a query by its table of [`wide_anywhere_table_into`], exactly as
/// [`bind_wide_anywhere_into`](crate::bind_wide_anywhere_into) does. It has the same outcomes, and
/// the text is at the front of the room. The query isn't tested again. It isn't walked, except for
/// `Missing`, to look up the place.
///
/// With another table it does what [`bind_by_table_into`](crate::bind_by_table_into) does with
/// another. A table of [`table_into`](crate::table_into) is such a table too: its query may be one
/// that `bind_wide_anywhere_into` refuses.
pub fn bind_wide_anywhere_by_table_into(
    alloc: Global,
    template: &AnywhereTemplate<'_>,
    form: &[u8],
    room: &mut [u8],
) -> TableOutcome
    ensures outcome { HasAnywhereTable template.now →
        IsAnywhereBindOutcome template.now.query.now form.now result }
    ensures written { HasAnywhereTable template.now → IfDone result (λ len.
        IsWideAnywhereForm template.now.query.now form.now (take len room.new)) }

    // A table that the query can't have by its numbers is refused before the form is read.
    ensures unfit { (CanHaveTableIn (any_template template.now) → ⊥) →
        result ≡ TableOutcome.OtherTable }

    // A table that it can have is refused only if the missing name isn't a name of the query.
    ensures other { result ≡ TableOutcome.OtherTable →
        CanHaveTableIn (any_template template.now) →
        MissesOtherPlaceIn (any_template template.now) form.now }

    // The empty form over a query with a name and a mark is refused without allocating.
    ensures mixed { HasAnywhereTable template.now → form.now ≡ [] →
        IfMixedIn (wide_reading true) template.now.query.now
        (result ≡ TableOutcome.AsQuery Outcome.Mixed) }

    // A form that is refused for its first parameter is refused without allocating.
    ensures memory { result ≡ TableOutcome.AsQuery Outcome.OutOfMemory →
        (form.now ≡ []) ⊎ HasFirstParameter form.now }
    ensures rest { IfDone result (λ len.
        (len ≤ length room.old) × (drop len room.new ≡ drop len room.old)) }
    ensures too_long { IfTooLong result (λ len. length room.old < len) }
    ensures unchanged { UnlessDone result (room.new ≡ room.old) }
{
    bind_by_table_with(alloc, template, form, AnywhereLiterals::Steady, room)
}

/// Binds a form's parameters to a query by its table of [`wide_anywhere_table_into`], as
/// [`bind_text_guarded`](mysql_steady_text::bind_text_guarded) does by wide names, for a connection
/// that is taken to be in this mode over utf8mb4. On any server, in each mode, and over each
/// character set of a client, no value leaves its literal.
///
/// Everything else is as for [`bind_wide_anywhere_by_table_into`].
pub fn bind_wide_guarded_by_table_into(
    alloc: Global,
    template: &AnywhereTemplate<'_>,
    form: &[u8],
    no_backslash_escape: bool,
    room: &mut [u8],
) -> TableOutcome
    ensures outcome { HasAnywhereTable template.now →
        IsGuardedBindOutcome no_backslash_escape template.now.query.now form.now result }
    ensures written { HasAnywhereTable template.now → IfDone result (λ len.
        IsWideGuardedForm no_backslash_escape template.now.query.now form.now
        (take len room.new)) }

    // A table that the query can't have by its numbers is refused before the form is read.
    ensures unfit { (CanHaveTableIn (any_template template.now) → ⊥) →
        result ≡ TableOutcome.OtherTable }

    // A table that it can have is refused only if the missing name isn't a name of the query.
    ensures other { result ≡ TableOutcome.OtherTable →
        CanHaveTableIn (any_template template.now) →
        MissesOtherPlaceIn (any_template template.now) form.now }

    // The empty form over a query with a name and a mark is refused without allocating.
    ensures mixed { HasAnywhereTable template.now → form.now ≡ [] →
        IfMixedIn (wide_reading true) template.now.query.now
        (result ≡ TableOutcome.AsQuery Outcome.Mixed) }

    // A form that is refused for its first parameter is refused without allocating.
    ensures memory { result ≡ TableOutcome.AsQuery Outcome.OutOfMemory →
        (form.now ≡ []) ⊎ HasFirstParameter form.now }
    ensures rest { IfDone result (λ len.
        (len ≤ length room.old) × (drop len room.new ≡ drop len room.old)) }
    ensures too_long { IfTooLong result (λ len. length room.old < len) }
    ensures unchanged { UnlessDone result (room.new ≡ room.old) }
{
    let literals = AnywhereLiterals::Guarded {
        no_backslash_escape,
    };
    bind_by_table_with(alloc, template, form, literals, room)
}
