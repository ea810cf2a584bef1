//! The names of a program at hand: those that it declares, in text order, and the number of each
//! without a search.
//!
//! The layers above rest on `File`, a program whose declarations are found by their names. Beside
//! it stands what lies behind a name that was found: a function, a type, a length.
#![tactic(auto)]

mod file;
mod length;
mod meant;
mod names;

pub use file::File;
pub use length::length_of_array;
pub use meant::{element_type, is_zero_define, is_zero_number, routine};
