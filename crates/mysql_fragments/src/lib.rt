//! Fragments: lists, rows, exact numbers, identifiers, columns, assignments and keywords in the
//! places of a query.
//!
//! `bind` and `bind_fragments` in `mysql_bind_call` stand on [`bound_fragments`], which binds for a
//! mode of the server, and on [`bind_steady_fragments`], whose text every server reads alike, in
//! either mode and over every character set. [`expanded_query_in`] gives the query with marks, and
//! its values, for a prepared statement. `specs/Expanded.antt` defines their promises.
//! [`bind_borrowed_fragments`] copies no fragment, and [`bind_borrowed_fragments_into`] allocates
//! nothing. The calls with `wide` in their names read names with capitals too, as `bind` in
//! `mysql_bind_call` can.
//!
//! `specs/SteadyFragments.antt` defines the promises of texts with steady literals.
//! [`bind_wide_fragments_guarded`] writes guarded literals (`specs/GuardedFragments.antt`).
#![tactic(auto)]

mod appended;
mod borrowed;
mod bound_refs;
pub mod brackets;
mod expanded;
mod faults;
mod filled;
mod filled_refs;
mod fragment;
mod fragment_ref;
mod fragments_error;
mod guarded_fragments;
pub mod laws;
mod measured;
mod names;
mod placed_refs;
mod places;
mod rows_ref;
mod steady_fragments;
mod steady_fragments_error;
mod unsteady;
mod value_form;
mod wide;
mod written;

pub use bound_refs::{bind_borrowed_fragments, bind_borrowed_fragments_into};
pub use expanded::{
    ExpandedQuery, bound_fragments, expanded_for_literals, expanded_query, expanded_query_in,
    placed_fragments,
};
pub use filled::filled_query;
pub use fragment::{ColumnAssignment, Fragment, Fragments, Item, Keyword};
pub use fragment_ref::FragmentRef;
pub use fragments_error::{FragmentFault, FragmentsError};
pub use guarded_fragments::bind_wide_fragments_guarded;
pub use mysql_binding::TextInRoom;
pub use placed_refs::{bind_placed_into, placed_error};
pub use rows_ref::RowsRef;
pub use steady_fragments::bind_steady_fragments;
pub use steady_fragments_error::SteadyFragmentsError;
pub use unsteady::{first_unsteady_fragment, first_unsteady_place};
pub use wide::{
    bind_wide_borrowed_fragments, bind_wide_borrowed_fragments_into, expanded_wide_query_in,
};
