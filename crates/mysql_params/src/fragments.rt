//! Queries with fragments in their places: lists, rows, exact numbers, doubles, identifiers,
//! columns, assignments and keywords, and the arguments that make these. It is the public part of
//! `mysql_fragments`, `mysql_to_fragments` and `mysql_float_literal`, re-exported by name.

pub use mysql_bind_call::{
    bind_fragments, bind_fragments_anywhere, bind_fragments_in, bind_fragments_in_any_mode,
};
pub use mysql_float_literal::Double;
pub use mysql_fragments::{
    ColumnAssignment, ExpandedQuery, Fragment, FragmentFault, FragmentRef, Fragments,
    FragmentsError, Item, Keyword, RowsRef, SteadyFragmentsError, bind_borrowed_fragments,
    bind_borrowed_fragments_into, bind_wide_borrowed_fragments, bind_wide_borrowed_fragments_into,
    bind_wide_fragments_guarded, expanded_query, expanded_query_in, expanded_wide_query_in,
};
pub use mysql_to_fragments::{
    AssignmentsOf, Decimal, DoubleOf, Identifier, Identifiers, ListOf, Qualified, RowsOf,
    ToFragment, ToFragments, ToItem, ToRow, Word,
};
