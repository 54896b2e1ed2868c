//! Tests of the flat form and of answers in a caller's room, through public calls alone.
#![tactic(auto)]

#[cfg(test)]
mod anywhere;
#[cfg(test)]
mod anywhere_tables;
#[cfg(test)]
mod both_modes;
#[cfg(test)]
mod forms;
#[cfg(test)]
mod fragment_forms;
#[cfg(test)]
mod fragments_anywhere;
#[cfg(test)]
mod fragments_bound;
#[cfg(test)]
mod fragments_guarded;
#[cfg(test)]
mod fragments_shared;
#[cfg(test)]
mod hostile;
#[cfg(test)]
mod implicit_lists;
#[cfg(test)]
mod lent;
#[cfg(test)]
mod outcomes;
#[cfg(test)]
mod portable;
#[cfg(test)]
mod purposes;
#[cfg(test)]
mod rooms;
#[cfg(test)]
mod rows;
#[cfg(test)]
mod shared;
#[cfg(test)]
mod tables;
#[cfg(test)]
mod types;
#[cfg(test)]
mod wide_names;
#[cfg(test)]
mod without_backslashes;
