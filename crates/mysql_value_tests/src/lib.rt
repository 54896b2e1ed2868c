//! Tests of the wire part, values, literals and conversions, through public calls alone.
#![tactic(auto)]

#[cfg(test)]
mod any_bytes;
#[cfg(test)]
mod binary;
#[cfg(test)]
mod binary_reading;
#[cfg(test)]
mod binary_rows;
#[cfg(test)]
mod borrowed_conversions;
#[cfg(test)]
mod conversions;
#[cfg(test)]
mod doubles;
#[cfg(test)]
mod durations;
#[cfg(test)]
mod messages;
#[cfg(test)]
mod shared;
#[cfg(test)]
mod sql_literals;
#[cfg(test)]
mod steady_literals;
#[cfg(test)]
mod text_cells;
#[cfg(test)]
mod time_texts;
#[cfg(test)]
mod utf8;
#[cfg(test)]
mod values;
#[cfg(test)]
mod whole_numbers;
#[cfg(test)]
mod wire;
#[cfg(test)]
mod wire_types;
pub mod zero;
