//! The lines that the tool tells of what it did, and the words that they are made of.
//!
//! The layer above rests on one contract, that of each function of `line`: it gives that line, byte
//! by byte. `reason_words` gives the words for why an update was refused, with the names of what
//! the reason numbers; a slot is one of those of all parts of its frame.
#![tactic(auto)]

mod cause;
mod laws;
pub mod line;
mod named;
mod reason;
mod trap;
mod words;

pub use laws::slots_are_those_of_the_parts;
pub use reason::reason_words;
