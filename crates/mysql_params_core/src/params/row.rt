//! The arguments of a tuple as a row, which is proved step by step, and not for each size of tuple.

// Two arguments and the row of the arguments after them. The last two forms are the end of a row.
macro_rules! row {
    ($first:expr, $second:expr $(, $later:expr)*) => { ($first, $second, row!($($later),*)) };
    ($last:expr) => { ($last,) };
    () => { () };
}

pub(crate) use row;
