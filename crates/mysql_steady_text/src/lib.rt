//! Texts that every server reads alike, in either mode and over every character set: the query with
//! the steady literals of values in its places.
//!
//! `specs/SteadyText.antt` defines the text for any connection, and `specs/BothModesText.antt` the
//! one for either mode, over the character set of the query. [`purpose`] says for whom a text is,
//! and which queries have none.
//!
//! [`bind_text_guarded`] writes guarded literals, which have the connection's collation
//! (`specs/GuardedText.antt`).
//!
//! [`steady_literal`] has the length and the text of a steady literal, and
//! `specs/SteadyLiteral.antt` defines it.
#![tactic(auto)]

mod both_modes_error;
mod both_modes_pairs_error;
pub mod first_backslash;
mod guarded_literal;
mod guarded_text;
pub mod laws;
pub mod purpose;
pub mod steady_literal;
mod steady_pairs_error;
mod steady_text_error;

pub use both_modes_error::BothModesError;
pub use both_modes_pairs_error::BothModesPairsError;
pub use guarded_literal::GuardedForm;
pub use guarded_text::bind_text_guarded;
pub use steady_literal::SteadyForm;
pub use steady_pairs_error::SteadyPairsError;
pub use steady_text_error::SteadyTextError;
