//! The text of a patch's entries, one a line, and the names of what they number.
//!
//! The layers above rest on one contract: `mapping_text` gives the text by which patches are
//! defined. An entry may hold numbers of things that are not there. The names of things and the
//! texts of points serve other texts too.
#![tactic(auto)]

mod entry;
mod fills;
mod names;
mod part;
mod points;
mod programs;
mod text;

pub use names::name_at;
pub use points::Points;
pub use text::mapping_text;
