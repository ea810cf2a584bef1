//! The text of a run's trace.
//!
//! The layer above rests on one contract: `trace_text` gives the text of the marks, line by line.
#![tactic(auto)]

mod print;

pub use print::trace_text;
