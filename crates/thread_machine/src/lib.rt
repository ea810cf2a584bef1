//! The threads of the target machine: each on a stack of its own, running, or with its frames
//! saved.
//!
//! The layer above rests on one contract: a `Thread` is seen as the definitions' thread between
//! two events, and each call leaves what the target machine does.
#![tactic(auto)]

mod laws;
mod next;
mod part;
mod place;
mod rebuild;
mod stack;
mod start;
mod thread;
mod turns;
mod unwind;

pub use laws::an_update_place_has_a_flag;
pub use next::Next;
pub use thread::Thread;
