//! The update that is made from a number is accepted.
//!
//! The crate has a law alone: of each number from 1 to 1000, both sources are accepted, the mapping
//! is read, and its entries are sound between the programs, `loads_are_accepted`.
#![tactic(auto)]

mod laws;

pub use laws::loads_are_accepted;
