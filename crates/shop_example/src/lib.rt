//! A shop's queries and rows: a caller of the library, through which docs/GUIDE.md walks.
#![tactic(auto)]

pub mod article_list;
pub mod article_query;
pub mod article_search;
pub mod balance_query;
pub mod cell;
pub mod customer;
pub mod customer_row;
pub mod day;
mod one_fragment;
pub mod order_query;
pub mod pair_query;
pub mod price_rows;
#[cfg(test)]
mod shared;
pub mod sorted_articles;
pub mod state;
