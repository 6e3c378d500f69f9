//! Tests of a day and its ledger. The expected amounts were worked out by hand or by a second program, with no use of the code.

#![tactic(auto)]

#[cfg(test)]
mod amount_tests;
#[cfg(test)]
mod day_tests;
#[cfg(test)]
mod making;
#[cfg(test)]
mod nobody;
#[cfg(test)]
mod refusal_tests;
#[cfg(test)]
mod telling;
