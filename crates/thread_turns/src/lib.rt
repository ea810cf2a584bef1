//! Turns of a thread of the target machine, one after the other.
//!
//! The layer above rests on one contract, that of `row`: the turns that it makes are those by which
//! the target machine is defined. Each instruction is a small function that makes the definition's
//! step, and the loop calls them inlined.
#![tactic(auto)]

mod calls;
mod cursor;
mod effects;
mod evaluate;
mod operands;
mod perform;
mod rows;
mod shared;
mod texts;
mod waiting;

pub use cursor::{Kept, Stop};
pub use rows::row;
