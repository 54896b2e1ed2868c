//! What is given to the places of a query, borrowed.
use mysql_fragments::Fragments;
use mysql_params_core::params::BorrowedParams;

/// What is given to the places of a query, borrowed: values, or fragments.
#[derive(Clone, Copy)]
pub enum BorrowedGiven<'p, 'v> {
    /// Values.
    Values(BorrowedParams<'p, 'v>),
    /// Fragments.
    Fragments(&'p Fragments),
}
