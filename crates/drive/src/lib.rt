//! Runs a World to its end by a plan, and its update with it.
//!
//! The layers above rest on one contract: after `drive` the events are those of the plan, and the
//! run is over; a listing that can't be followed is refused at the event that the definition says.
//! Where memory is short for the update, a picker's plan goes on with that refusal as the outcome,
//! and a listing ends in an error. A listed refusal for memory is never taken.
#![tactic(auto)]

pub mod laws;
pub mod list;
pub mod next;
pub mod pick;
pub mod plan;
pub mod planned;
pub mod seed;
pub mod take;

pub use history::{Listing, history_text, read_schedule};
pub use list::Driven;
pub use plan::{Plan, drive};
pub use planned::drive_round;
