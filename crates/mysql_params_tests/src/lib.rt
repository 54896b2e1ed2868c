//! Tests of parameters, of queries, their tokens and how they are parsed, and of the program over
//! any reader and writer, through public calls alone.
#![tactic(auto)]

#[cfg(test)]
mod all_short_queries;
#[cfg(test)]
mod arguments;
#[cfg(test)]
mod asked;
#[cfg(test)]
mod client;
#[cfg(test)]
mod lookups;
#[cfg(test)]
mod makers;
#[cfg(test)]
mod messages;
#[cfg(test)]
mod own_type;
#[cfg(test)]
mod pair_tuples;
#[cfg(test)]
mod plain_reading;
#[cfg(test)]
mod plain_tokens;
#[cfg(test)]
mod portable;
#[cfg(test)]
mod program_shared;
#[cfg(test)]
mod queries;
#[cfg(test)]
mod query_shared;
#[cfg(test)]
mod readers_and_writers;
#[cfg(test)]
mod refusals;
#[cfg(test)]
mod shared;
#[cfg(test)]
mod spellings;
#[cfg(test)]
mod steady;
#[cfg(test)]
mod wide_places;
