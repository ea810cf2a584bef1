//! Whole calls of a tool over files and sinks in memory, for tables of rows.
//!
//! A row says what a call is made over and the text of what it comes to. The functions here make
//! the calls of a table, and give a text of the rows that came to something else: that it is empty
//! is asserted by the tests above. What the tool is they don't know: it is given by a `Tool`.
#![tactic(auto)]

mod call;
mod compared;
mod events;
mod repeated;
mod row;
mod table;
mod tool;
mod update;
mod verdict;

pub use call::{Call, Faults, Shown, called};
pub use compared::{compare, opened};
pub use events::listing;
pub use repeated::{Repeated, text_of};
pub use row::{
    CallRow, FaultRow, LongRow, called_on, differing_calls, differing_faults,
    differing_long_sources, differing_sources,
};
pub use table::{Row, Trial, differing_rows};
pub use tool::Tool;
pub use update::{ListingRow, Programs, UpdateRow, differing_listings, differing_updates};
pub use verdict::{RowsDiffer, judged};
