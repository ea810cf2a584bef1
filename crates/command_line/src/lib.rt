//! What the words of a call ask for.
//!
//! The layers above rest on one contract: `command_of` gives the one command that the words are,
//! and what it gives is fair: the steps of a run, its seed, the steps of its update and the number
//! of a load lie in their ranges, and a run has not both a seed and a schedule.
//!
//! The first word names a command, and `clap` reads the words after it. Nothing is printed here: a
//! call for help is a usage fault as any other.
#![tactic(auto)]

mod command;
pub mod laws;
mod matches;
mod options;

pub use command::{Command, PatchWords, RunWords, UpdateWords, UpgradeWords, command_of};
