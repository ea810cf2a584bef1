//! The plain run of a program, and of its update, in the state itself.
//!
//! The layers above rest on one contract: each call that makes an event says `Makes`, that the
//! event was legal and leads from where the run stood to where it stands now. The tests answer
//! which events are legal; `make` makes an event where it is legal, and says whether it is.
#![tactic(auto)]

pub mod decision;
pub mod event;
mod making;
pub mod named;
pub mod now;
pub mod parking;

pub use decision::{Committed, Decision, decide, settle};
pub use making::make;
pub use now::Now;
