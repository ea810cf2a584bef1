//! The reader of mappings: from the bytes of a text to its mapping, or to the first fault.
//!
//! The layer above rests on `read_map`: what it answers is the one mapping that the text is, or its
//! first fault. `read_first_map` does so for the first format, in which a point has one part. The
//! rules are in the grammar of the sources, and the machine that reads by them is theirs.
#![tactic(auto)]

mod laws;
mod reading;
mod refused;

pub use laws::{
    each_mapping_has_one_answer, first_mappings_are_mappings, first_mappings_have_their_form,
    mappings_have_their_form, mappings_of_one_part_are_first,
};
pub use reading::{read_first_map, read_map};
pub use refused::MapRefused;
