//! Typing of a C program: whether a tree that was read is well typed, and its first fault if not.
//!
//! The layers above rest on one contract, that of `check`: it gives `Ok` exactly where the program
//! is well typed, and else the first fault.
#![tactic(auto)]

mod calls;
mod declared;
mod expr;
mod function;
mod global;
mod laws;
mod locals;
mod note;
mod print;
mod program;
mod refusal;
mod repeats;
mod scope;
mod simple;
mod stand;
mod stmt;
mod structs;
mod types;

pub use laws::{first_fault_law, refusal_law};
pub use program::check;
pub use refusal::CheckRefused;
