//! The events of a run, kept small: a Step takes four bytes, and contracts see the list of events.
//!
//! The layer above rests on one contract: `push_reserved` puts one event behind the others.
#![tactic(auto)]

mod events;
mod log;
mod word;

pub use events::Events;
pub use log::EventLog;
