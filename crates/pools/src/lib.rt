//! Bases, pools and sharing: what is struck as a pool is shared out to the cent, by any basis.

#![tactic(auto)]

pub mod basis;
pub mod pool;
pub mod withdrawals;
