//! How an old state becomes a new one.
//!
//! The layer above rests on two contracts: `updated` gives the parts of the state that a patch
//! leads to, or the first reason against it, and leaves the old state as it is; `Parts::put_into`
//! puts the parts into the state, and takes no memory.
#![tactic(auto)]

mod checks;
mod fields;
mod globals;
mod heap;
mod mutexes;
mod parts;
mod update;

pub use globals::map_globals;
pub use heap::map_heap;
pub use mutexes::map_mutexes;
pub use parts::Parts;
pub use update::updated;
