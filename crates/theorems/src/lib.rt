//! Theorems of the whole project: what follows from the contracts of several crates together.
//!
//! Nothing here runs. Each function is the proof of what it promises, and a definition of `specs`
//! states that in the subject's own words.
#![tactic(auto)]

mod runs;

pub use runs::{accepted_runs_stay_valid, whole_patches_arm_well};
