//! The text of a run's history, and the reading of a schedule, which has the same lines.
//!
//! The layers above rest on two contracts: `history_text` gives the text of the events, and
//! `read_schedule` gives the one listing of the bytes.
#![tactic(auto)]

pub mod laws;
mod line;
mod listing;
mod number;
mod print;
mod reason;
mod word;

pub use listing::{Listing, read_schedule};
pub use print::history_text;
