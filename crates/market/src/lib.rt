//! The market arithmetic of one position: exact, in whole numbers, with no input left out.

#![tactic(auto)]

pub mod amounts;
pub mod cents;
pub mod figures;
pub mod position;
pub mod range;
pub mod side;
pub mod trade;
