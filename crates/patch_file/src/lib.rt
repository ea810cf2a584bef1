//! Patches as files: from a patch to its bytes, and from bytes to the patch or to why they are
//! none.
//!
//! The layer above rests on two contracts: `write_patch` gives the bytes of a patch's file, and
//! `read_patch` gives the one whole patch whose file the bytes are, or the first cause why they are
//! that of none. `first_difference` tells where two texts differ.
#![tactic(auto)]

mod difference;
mod laws;
mod reading;
mod refused;
mod writing;

pub use difference::first_difference;
pub use laws::{bytes_have_one_answer, made_patches_read_back};
pub use reading::read_patch;
pub use refused::FileRefused;
pub use writing::write_patch;
