//! What a call reads, and what it puts: files that are read in order up to the first that is lost
//! or too long, and an answer that is played to files and sinks.
//!
//! The layer above rests on two contracts: `read_all` gives the texts of the wanted files, or what
//! is answered where one of them ends the call; `finish` plays an answer whole, or up to a fault or
//! want of memory that `err` and the status tell.
#![tactic(auto)]

mod answer;
mod read;
pub mod refusal;
mod status;

pub use answer::{Answer, Piece, finish, say};
pub use read::{Taken, WantedFile, read_all};
pub use status::{Status, status_of};
