//! The code of a transformed program: from its tree to the instructions of the target machine.
//!
//! The layers above rest on one contract: `lower` gives the code by which the target machine's
//! runs are defined. Each part of a function is appended behind those before it, at positions that
//! follow from how many instructions each part has.
#![tactic(auto)]

mod blocks;
mod calls;
mod expressions;
mod marks;
mod program;
mod simple;
mod size;
mod statements;
mod texts;

pub use program::lower;
