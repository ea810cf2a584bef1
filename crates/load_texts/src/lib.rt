//! A large update made from one number: an old program, a new program and the mapping between them.
//!
//! The layers above rest on these contracts: each of the three texts is the one that the
//! definitions give for the number. Both programs have a chain of as many functions, each with a
//! loop, and four threads that run down the chain; the mapping has a point for each frame that the
//! update may find there.
#![tactic(auto)]

mod laws;
mod number;
mod points;
mod request;
mod source;

pub use laws::mappings_are_short;
pub use points::mapping;
pub use request::request_at;
pub use source::{new_source, old_source};
