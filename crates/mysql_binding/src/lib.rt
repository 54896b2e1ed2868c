//! Binding: writes the literals of values in place of a query's names and marks.
//!
//! `bind` and `bind_text` in `mysql_bind_call` stand on [`bind_borrowed_as`]. A [`ParsedQuery`] is
//! parsed once and bound many times. `specs/Isolation.antt` states the promises about the text:
//! each value is in one literal, and nothing else of the query changes.
#![tactic(auto)]

mod bind_error;
mod bind_pairs_error;
mod binding;
pub mod laws;

pub use bind_error::BindError;
pub use bind_pairs_error::BindPairsError;
pub use binding::{
    KEPT_PLACES, LiteralForm, LiteralValue, MeasuredText, NO_PLACE, PairValues, ParsedQuery,
    PlaceSpan, PlaceValues, PlainForm, SpannedQuery, Survey, SurveyedQuery, TextInRoom, WideQuery,
    all_places, append_piece, append_surveyed, bind_borrowed_as, bind_spans_into, bind_surveyed,
    bind_surveyed_after, bind_surveyed_as, bind_surveyed_into, fill_measured, literal_len,
    measured_text, measured_values, place_after, place_spans, push_literal, put_literal,
    query_names,
};
