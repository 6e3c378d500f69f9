//! Tests of the ladders and of the market arithmetic.

#![tactic(auto)]

#[cfg(test)]
mod ladder_tests;
#[cfg(test)]
mod market_tests;
