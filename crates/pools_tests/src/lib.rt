//! Tests of bases, pools and sharing, with a basis of a site's own.

#![tactic(auto)]

pub mod bands;
#[cfg(test)]
mod basis_tests;
pub mod holding;
#[cfg(test)]
mod places;
#[cfg(test)]
mod sharing_tests;
