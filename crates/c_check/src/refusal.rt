//! Why a program is refused.

use c_tree::CheckCause;
use std::alloc::AllocError;
use thiserror::Error;

/// The answer to a program that can't be checked, or that is not well typed.
#[derive(Debug, Drop, Error)]
pub enum CheckRefused {
    /// The first fault: its offset in the source, and its cause.
    #[error("not well typed at offset {0}")]
    At(u32, CheckCause),
    /// There was no memory for the check. Of the program nothing is said.
    #[error("memory")]
    Memory(AllocError),
}
