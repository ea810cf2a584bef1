//! The target machine: its instructions, the code of a program, and the stacks on which threads
//! run it. What the machine does with a code stands in `specs/`, as definitions.
//!
//! The layers above rest on two contracts: a `Code` is the code of a formed program, and a
//! `FrameStack` is a list of activations beside a number of words that are to spare.
#![tactic(auto)]

mod activation;
mod code;
mod instr;
mod list_stack;
mod stack;

pub use activation::{Activation, FrameInfo, Mode};
pub use code::{CallSpot, Code, CodeFunction};
pub use instr::Instr;
pub use list_stack::ListStack;
pub use stack::FrameStack;
