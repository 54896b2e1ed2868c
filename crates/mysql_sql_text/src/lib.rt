//! SQL text without values. The crate has the two modes of backslashes and the units of strings,
//! the texts of literals, their shape and how they are read. It also has digits, time texts and a
//! test for UTF-8.
//!
//! `specs/` defines literals and how they are read. `mysql_value_core` writes literals with these
//! calls. `mysql_values` reads digits and time texts. `mysql_named_params` reads queries in the
//! same modes. A user of values calls `as_sql` and the conversions of `mysql_values`, and not this
//! crate.
#![tactic(auto)]

pub mod blocks;
pub mod dates;
pub mod digits;
mod escapes;
pub mod laws;
pub mod numbers;
pub mod strings;
pub mod time_text;
pub mod utf8;
