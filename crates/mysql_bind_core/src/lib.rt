//! The core of the program `mysql_bind`: it binds values that were read from anywhere into a query,
//! and writes the bound text whole, or refuses and writes nothing.
//!
//! [`write_bound`] is the call; `specs/Bound.antt` says what it promises of the text, and
//! `specs/Refusals.antt` which refusal comes. Names may have capitals.
//!
//! [`write_rows`] binds one query to row after row, and writes the script of them;
//! `specs/Scripts.antt` says what it promises of the script.
#![tactic(auto)]

mod assignment;
mod binding;
mod cell;
mod checked;
mod column;
mod failure;
mod fragment_type;
mod fragments_text;
mod group;
mod group_form;
mod groups;
mod json_member;
mod json_value;
pub mod laws;
mod matched;
mod option_word;
mod parts;
mod positions;
mod record_rows;
mod request;
mod row;
mod row_items;
mod rows;
mod rows_text;
mod script;
mod table;
mod table_form;
mod table_text;
mod taken;
mod value_type;

pub use assignment::Assignment;
pub use binding::{bound_text, write_bound};
pub use cell::Cell;
pub use column::{Column, ColumnSaid, ColumnWords, NamedColumn, NullText, columns_of};
pub use failure::Failure;
pub use fragment_type::typed_fragment;
pub use group_form::{AppendedGroups, GroupForm, GroupRefusal, ROW_NAME};
pub use groups::append_groups;
pub use json_member::member_assignment;
pub use json_value::Decimals;
pub use matched::{MatchedQuery, assignments_of};
pub use option_word::{
    OptionWord, first_pair, named_column, null_text, pair_parts, set_assignment, type_named,
    word_assignment,
};
pub use parts::{TableParts, copy_of_assignment, table_parts, taken_columns};
pub use positions::line_and_column;
pub use request::{Literals, Portability, Request};
pub use row::{RefusedRow, Row, RowsFailure};
pub use rows::append_rows;
pub use script::{COMMIT, START, script_of, stream_rows, write_rows};
pub use table::append_record;
pub use table_form::{TableColumn, TableForm, TableRefusal};
pub use table_text::{append_table, record_cells};
pub use taken::{TakenQuery, check_query};
pub use value_type::{ValueType, typed_value};
