//! Ladders: what a quantity earns on one, where it earns most, and the offers and bids that are ladders.

#![tactic(auto)]

pub mod bid;
pub mod ladder;
pub mod offer;
pub mod row_ladder;
mod row_list;
pub mod rows;
