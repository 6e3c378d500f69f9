//! The block format: a block of 512 bytes, checked, read and written.

#![tactic(auto)]

pub mod block;
mod check;
pub mod fault;
pub mod kind;
pub mod limits;
pub mod record;
mod rows;
mod rules;
mod verdict;
mod whole;
mod word;
