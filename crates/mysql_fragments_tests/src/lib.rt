//! Tests of fragments, through public calls alone.
#![tactic(auto)]

#[cfg(test)]
mod arguments;
#[cfg(test)]
mod borrowed;
#[cfg(test)]
mod bound;
#[cfg(test)]
mod brackets;
#[cfg(test)]
mod columns;
#[cfg(test)]
mod guarded_bound;
#[cfg(test)]
mod placed;
#[cfg(test)]
mod refused;
#[cfg(test)]
mod room;
#[cfg(test)]
mod shared;
#[cfg(test)]
mod single_calls;
#[cfg(test)]
mod sizes;
#[cfg(test)]
mod steady_borrowed;
#[cfg(test)]
mod steady_bound;
#[cfg(test)]
mod steady_refused;
#[cfg(test)]
mod steady_shared;
#[cfg(test)]
mod wide_names;
