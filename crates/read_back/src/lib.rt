//! The text of a patch's entries reads back.
//!
//! The crate has laws alone: that a mapping that was read keeps the limits on expressions and
//! numbers, `mappings_keep_limits`; and that the canonical text of its entries is itself a mapping,
//! whose canonical entries are the same, `canonical_text_reads_back`.
#![tactic(auto)]

mod laws;

pub use laws::{canonical_text_reads_back, mappings_keep_limits};
