//! What holds of the entries of a mapping and of a patch.
//!
//! The crate has laws alone: that the entries of a mapping that was read, lifted and in their
//! canonical order, are the sound entries of a patch, that the canonical order is kept, that the
//! causes of an entry asked in ascending order give the least that holds, and that an entry of
//! which none holds has numbers.
#![tactic(auto)]

mod laws;

pub use laws::{
    canonical_is_kept, causes_are_asked_in_order, lifted_entries_are_sound,
    sound_entries_have_numbers,
};
