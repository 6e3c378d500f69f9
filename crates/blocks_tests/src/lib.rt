//! Tests of blocks and hour files: the edges of every rule, with expected values worked out by hand.

#![tactic(auto)]

#[cfg(test)]
mod block_tests;
#[cfg(test)]
mod file_tests;
#[cfg(test)]
mod making;
