//! Borrowed fragments for the places of a query.
use crate::fragment::Fragment;
use crate::rows_ref::RowsRef;
use mysql_values::value::ValueRef;

/// A borrowed fragment: no value is copied to make it.
#[derive(Clone, Copy)]
pub enum FragmentRef<'f> {
    /// A whole fragment.
    Owned(&'f Fragment),
    /// The literal of a value, like [`Fragment::Value`].
    Value(ValueRef<'f>),
    /// The literals of values with `, ` between them, like a [`Fragment::List`] of values.
    List(&'f [ValueRef<'f>]),
    /// Rows of values in brackets with `, ` between them, like [`Fragment::Rows`] of values.
    Rows(RowsRef<'f>),
}
