//! Why a source is refused.

use c_tree::SourceCause;
use std::alloc::AllocError;

/// Why a source gave no program.
#[derive(Drop)]
pub enum SourceRefused {
    /// At an offset in bytes from the source's start, for a cause.
    At(u32, SourceCause),
    /// There was no memory. Of the source nothing is said.
    Memory(AllocError),
}
