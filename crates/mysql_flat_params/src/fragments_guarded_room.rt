//! The text with guarded literals that is bound to fragments, in a room of the caller.
ghost use Rattle.std.specs.Prelude.{◌≡◌, ◌≤◌, ◌<◌, length, take, drop};
ghost use Rattle.mysql_flat_params.specs.FragmentsAnywhereIntoRoom.{IsWideGuardedForm, IsWideGuardedOutcome};
ghost use Rattle.mysql_flat_params.specs.FragmentsOutcomes.{IfDone, IfTooLong, UnlessDone};

use crate::fragments_anywhere_room::{AnywhereCall, bind_form_anywhere};
use crate::fragments_outcome::FragmentsOutcome;
use std::alloc::Global;

/// Binds a form's fragments to a query by wide names, as
/// [`bind_wide_fragments_guarded`](mysql_fragments::bind_wide_fragments_guarded) does, and writes
/// the text to the front of the room, for a connection that is taken to be in this mode over
/// utf8mb4. On any server, in each mode, and over each character set of a client, no value leaves
/// its literal.
///
/// Form, room and outcomes are as for
/// [`bind_wide_fragments_anywhere_into`](crate::bind_wide_fragments_anywhere_into).
pub fn bind_wide_fragments_guarded_into(
    alloc: Global,
    query: &[u8],
    form: &[u8],
    no_backslash_escape: bool,
    room: &mut [u8],
) -> FragmentsOutcome
    ensures outcome { IsWideGuardedOutcome no_backslash_escape query.now form.now result }
    ensures written { IfDone result (λ len.
        IsWideGuardedForm no_backslash_escape query.now form.now (take len room.new)) }
    ensures rest { IfDone result (λ len.
        (len ≤ length room.old) × (drop len room.new ≡ drop len room.old)) }
    ensures too_long { IfTooLong result (λ len. length room.old < len) }
    ensures unchanged { UnlessDone result (room.new ≡ room.old) }
{
    let call = AnywhereCall::Guarded {
        no_backslash_escape,
    };
    bind_form_anywhere(alloc, query, form, call, room)
}
