//! Patches: the entries of a mapping by numbers, judged one after the other and put in order.
//!
//! The layers above rest on one contract: `make_patch` gives the patch with the canonical entries
//! of a mapping, or the first unsound entry and the least of its causes; and on the type
//! `SoundPatch`, which keeps that the entries of a patch are sound and in order.
#![tactic(auto)]

mod entries;
mod maker;
mod order;
mod refused;
mod subjects;

pub use maker::{SoundPatch, make_patch};
pub use refused::PatchRefused;
