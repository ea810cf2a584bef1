//! The outer form of a patch file: three texts, each behind a line with its length.
//!
//! The layer above rests on two contracts: `write_frame` gives the bytes of three texts in
//! the newer of the two formats, and `read_frame` finds the format and the texts again, or says
//! where no patch file goes on.
#![tactic(auto)]

mod fault;
mod format;
mod frame;
mod head;
mod laws;
mod number;
mod reading;
mod word;
mod writing;

pub use fault::FrameFault;
pub use format::Format;
pub use frame::{Frame, Part};
pub use laws::{each_text_is_answered, lengths_are_decimal, no_text_has_two_answers};
pub use reading::read_frame;
pub use writing::write_frame;
