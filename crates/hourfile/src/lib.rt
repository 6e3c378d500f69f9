//! The blocks of an hour file, and what they come to.

#![tactic(auto)]

pub mod file;
pub mod hour;
pub mod hour_lines;
pub mod hour_number;
pub mod lines;
pub mod owners;
mod tallies;
mod tally;
