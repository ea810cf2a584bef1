//! The stack of the target machine in segments of raw memory.
#![tactic(auto)]

mod place;
mod segment;
mod stack;

pub use stack::SegStack;
