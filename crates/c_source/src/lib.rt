//! Sources: from bytes to an accepted program, or to why they are refused.
//!
//! The layers above rest on one contract: `accepted` gives the lifting of the well-typed tree that
//! the bytes are the text of, or the offset and the cause of their first fault.
#![tactic(auto)]

mod accept;
mod laws;
mod refused;

pub use accept::accepted;
pub use laws::{a_source_has_one_verdict, accepted_programs_are_formed};
pub use refused::SourceRefused;
