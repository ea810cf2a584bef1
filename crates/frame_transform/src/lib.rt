//! The transformed program: a program with the numbered places of its functions, and its text,
//! which shows where a frame is saved and how it is rebuilt.
//!
//! The layers above rest on two contracts: `transform` keeps the program and its places, and
//! `print_target` gives the text by which the transformed program is defined. The definition begins
//! in `specs/TargetText.antt`.
#![tactic(auto)]

mod blocks;
mod declarations;
mod expressions;
mod extent;
mod function;
mod line;
mod names;
mod print;
mod rebuild;
mod statements;
mod target;

pub use print::print_target;
pub use target::{Target, transform};
