//! Tests of the one call that binds, through public calls only.
#![tactic(auto)]

#[cfg(test)]
mod ends;
#[cfg(test)]
mod fragments;
#[cfg(test)]
mod instance_tests;
#[cfg(test)]
mod purposes;
#[cfg(test)]
mod refused;
#[cfg(test)]
mod values;
