//! The arguments of a tuple as a nested pair, which is proved step by step and not for each size of
//! tuple.

// An argument and the rest of them; `()` is the end.
macro_rules! nested {
    ($first:expr $(, $later:expr)*) => { ($first, nested!($($later),*)) };
    () => { () };
}

pub(crate) use nested;
