//! Why a read or a write ended early.

use std::alloc::AllocError;
use thiserror::Error;

/// Why a read ended without the contents.
#[derive(Debug, Drop, Error)]
pub enum ReadEnd {
    /// The file met a fault, which the files' count of read faults tells.
    #[error("the read failed")]
    Failed,
    /// There is no file of the name.
    #[error("there is no such file")]
    Missing,
    /// The file holds more bytes than were asked for.
    #[error("the file is too long")]
    TooLong,
    #[error(transparent)]
    Memory(AllocError),
}

/// Why a write ended before its end.
#[derive(Debug, Drop, Error)]
pub enum PutEnd {
    /// A fault, which a count of faults tells.
    #[error("the write failed")]
    Failed,
    #[error(transparent)]
    Memory(AllocError),
}
