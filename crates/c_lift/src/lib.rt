//! From a well-typed C program to the small language that is run: its calls stand alone, its loops
//! have one form, and its names are numbers. Nothing is judged here but the limits of a function's
//! places and slots: a program comes as `Checked`.
//!
//! The layer above rests on one contract: what `lift` gives is exactly the lifting, and a limit is
//! answered exactly for the first function that passes one.
#![tactic(auto)]

mod bare;
mod build;
mod call;
mod compound;
mod function;
mod global;
mod has_call;
mod kind;
mod names;
mod places;
mod program;
mod refusal;
mod simple;
mod spot;
mod stmt;
mod take;
mod taken;
mod variables;

pub use program::lift;
pub use refusal::LiftRefused;
