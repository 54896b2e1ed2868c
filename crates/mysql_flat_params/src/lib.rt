//! Binding for callers in other languages: parameters come as bytes in one flat form, and the
//! answer is written into a room, a buffer of the caller.
//!
//! [`params_of_form`] reads the form. [`bind_into`], [`bind_anywhere_into`],
//! [`bind_in_both_modes_into`] and [`names_into`] write their answer into the room. If they can't,
//! they leave the room as it was, and an [`Outcome`] has the cause. [`table_into`] makes a table of
//! a query's places, and [`bind_by_table_into`] binds by it, in a [`Template`], without a walk of
//! the query. [`wide_anywhere_table_into`] also tests the query for any mode and any server, and
//! [`bind_wide_anywhere_by_table_into`] and [`bind_wide_guarded_by_table_into`] bind by its table.
//! [`bind_rows_into`] parses a query once and binds it to many forms.
//! [`report_first_unportable`] reports the first construct for which a query isn't portable, and
//! [`report_first_unportable_in_client`] also reports constructs that a client reads or sends in
//! another way.
//!
//! [`form_fragments`] reads the form of fragments: lists, rows, exact numbers, doubles, identifiers
//! and keywords. [`bind_fragments_into`], [`bind_fragments_anywhere_into`] and
//! [`bind_wide_fragments_guarded_into`] bind its fragments. A [`FragmentsOutcome`] has the cause if
//! they refuse.
//!
//! A function whose name ends in `_read` does the same as the one without `_read`, for a query in
//! any [`Reading`]. So it can also read wide names, which may have capitals. It has the same
//! outcomes.
#![tactic(auto)]

mod anywhere_table;
mod column_number;
mod double;
mod few_strings;
mod few_values;
mod form;
mod form_error;
mod form_names;
mod form_refusal;
mod fragment;
mod fragment_in_place;
mod fragment_parts;
mod fragments_anywhere_room;
mod fragments_form;
mod fragments_guarded_room;
mod fragments_in_place;
mod fragments_outcome;
mod fragments_room;
mod into_room;
mod items;
mod keywords;
mod kinds_in_place;
pub mod laws;
mod missing_place;
mod names_room;
mod outcome;
mod place_table;
mod placed;
mod row_names;
mod rows;
mod rows_in_place;
mod steady_room;
mod table_literals;
mod unbracketed;
mod unportable;

pub use anywhere_table::{
    AnywhereTemplate, bind_wide_anywhere_by_table_into, bind_wide_guarded_by_table_into,
    wide_anywhere_table_into,
};
pub use column_number::column_type;
pub use form::params_of_form;
pub use form_error::FormError;
pub use fragments_anywhere_room::{
    bind_fragments_anywhere_into, bind_wide_fragments_anywhere_into,
};
pub use fragments_form::form_fragments;
pub use fragments_guarded_room::bind_wide_fragments_guarded_into;
pub use fragments_outcome::FragmentsOutcome;
pub use fragments_room::{bind_fragments_into, bind_fragments_into_read};
pub use into_room::{bind_into, bind_into_read};
pub use missing_place::{name_place, name_place_read};
pub use mysql_binding::PlaceSpan;
pub use mysql_named_params::places::Reading;
pub use names_room::{names_into, names_into_read};
pub use outcome::{Outcome, Report};
pub use place_table::{
    ReadTemplate, TableHead, TableOutcome, Template, bind_by_table_into, bind_by_table_into_read,
    table_into, table_into_read,
};
pub use rows::{Rows, bind_rows_into, bind_rows_into_read};
pub use steady_room::{
    bind_anywhere_into, bind_in_both_modes_into, bind_wide_anywhere_into,
    bind_wide_in_both_modes_into,
};
pub use unportable::{
    construct_number, report_first_unportable, report_first_unportable_in_client,
    report_first_unportable_in_client_wide, report_first_unportable_wide,
};
