//! Why a text is no mapping.

use c_tree::ReadCause;
use std::alloc::AllocError;
use thiserror::Error;

/// Why a text was not read as a mapping.
#[derive(Debug, Drop, Error)]
pub enum MapRefused {
    /// The first fault, at its offset in bytes.
    #[error("refused at {0}")]
    At(u32, ReadCause),
    /// The memory did not suffice.
    #[error("memory")]
    Memory(AllocError),
}
