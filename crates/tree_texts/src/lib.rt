//! Trees, faults and events as text, for tables of rows.
//!
//! A tree is told node by node, each before its parts, with its offset behind `@`, so that two
//! trees are the same where their texts are.
#![tactic(auto)]

mod causes;
mod events;
mod programs;
mod shapes;
mod trees;

pub use causes::{fault, word};
pub use events::{kind_word, put_event};
pub use programs::put_program;
pub use shapes::put_shape;
pub use trees::{Node, put_body, put_tree, put_type};
