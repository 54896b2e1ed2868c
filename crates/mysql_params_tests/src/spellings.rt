//! The calls that parse a query.
use mysql_params::named_params::{NamedParamsError, ParsedNamedParams};
use std::alloc::Global;

/// A call that parses a query.
#[derive(Clone, Copy)]
pub(crate) enum Spelling {
    /// `parse`.
    Parse,
    /// `parse_in` with this flag.
    ParseIn(bool),
}

/// The calls that read a query in the mode in which a backslash escapes.
pub(crate) const WITH_BACKSLASHES: &[Spelling] = &[Spelling::Parse, Spelling::ParseIn(false)];

impl Spelling {
    /// What the call gives.
    pub(crate) fn parsed<'a>(
        self,
        alloc: Global,
        query: &'a [u8],
    ) -> Result<ParsedNamedParams<'a>, NamedParamsError> {
        match self {
            Spelling::Parse => ParsedNamedParams::parse(alloc, query),
            Spelling::ParseIn(mode) => ParsedNamedParams::parse_in(alloc, query, mode),
        }
    }

    /// Whether it reads a query in the mode without backslash escapes.
    pub(crate) fn has_no_backslash_escape(self) -> bool {
        match self {
            Spelling::Parse => false,
            Spelling::ParseIn(mode) => mode,
        }
    }

    /// The name of the call in messages.
    pub(crate) fn name(self) -> &'static str {
        match self {
            Spelling::Parse => "parse",
            Spelling::ParseIn(false) => "parse_in(false)",
            Spelling::ParseIn(true) => "parse_in(true)",
        }
    }
}
