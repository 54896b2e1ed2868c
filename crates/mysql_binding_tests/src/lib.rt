//! Tests of binding, of the first call that README links to, and of the paths that a user may name,
//! through public calls alone.
#![tactic(auto)]

#[cfg(test)]
mod binding;
#[cfg(test)]
mod borrowed;
#[cfg(test)]
mod both_modes;
#[cfg(test)]
mod fixed_query;
#[cfg(test)]
mod guarded_text;
#[cfg(test)]
mod isolation;
#[cfg(test)]
mod parsed_query;
#[cfg(test)]
mod paths;
#[cfg(test)]
mod query_refusals;
#[cfg(test)]
mod readme;
#[cfg(test)]
mod shared;
#[cfg(test)]
mod stands_alone;
#[cfg(test)]
mod steady_text;
#[cfg(test)]
mod wide_fixed_query;
#[cfg(test)]
mod wide_names;
#[cfg(test)]
mod without_backslashes;
