//! The memory of a running program: globals, heap, mutexes, what is left of the input, and the
//! output, changed in place. What the threads do between two accesses is not its matter.
//!
//! The layer above rests on one contract: each call of a `Store` is the access by which a step is
//! defined, and where it traps or memory is short all stays.
#![tactic(auto)]

mod globals;
mod heap;
mod laws;
mod marks;
mod mutexes;
mod print;
mod refusal;
mod store;

pub use heap::object_of;
pub use laws::{
    a_step_makes_these_accesses, marks_follow_the_threads, marks_tell_the_threads,
    threads_play_no_part,
};
pub use print::printed;
pub use refusal::StoreEnd;
pub use store::Store;
