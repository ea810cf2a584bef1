//! The actions: each takes the newest values that were read, and puts what it makes of them in
//! their place.
//!
//! An action is a function of the file that is named after what it makes; `acts` finds it, and
//! `pop` is the stack.

mod acts;
mod beside;
mod call;
mod constant;
mod decl;
mod entry;
mod expr;
mod fill;
mod item;
mod part;
mod pop;
mod sign;
mod simple;
mod stmt;

pub use acts::act;
pub use beside::{closes, operators_after};
pub use pop::{pop_mapping, pop_operand, pop_program, push_value, word_of};
