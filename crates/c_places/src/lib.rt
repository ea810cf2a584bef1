//! The numbered places of a program's functions: the entry, each simple statement, each test and
//! each loop's end, and the implied return, with the place that follows each.
//!
//! The layers above rest on one contract: `places` gives the list of places by which the meaning
//! of a program is defined. What is asked of the places are methods of `Places`; `points_text`
//! lists those that matter to an update.
#![tactic(auto)]

mod enter;
mod laws;
mod lay;
mod points;
mod size;
mod tally;

pub use laws::{all_places_are_counted, flow_goes_on, kind_and_number_tell_a_place};
pub use lay::places;
pub use points::points_text;
pub use size::keeps_limit;
pub use tally::Tally;
