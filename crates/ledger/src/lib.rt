//! The ledger of a day: entries that the site holds, and the calls that append to them and read them.

#![tactic(auto)]

pub mod day;
pub mod entry;
pub mod fault;
mod lines;
mod posting;
mod table;
