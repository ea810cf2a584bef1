//! The programs of sources.

use c_source::{SourceRefused, accepted};
use c_tree::Lifted;
use std::alloc::{AllocError, Global};

/// The program of a source; none where it is refused.
///
/// # Errors
/// Memory for the program.
pub fn program_of(alloc: Global, source: &str) -> Result<Option<Lifted>, AllocError> {
    match accepted(alloc, source.as_bytes()) {
        Ok(program) => Ok(Some(program)),
        Err(SourceRefused::At(_, _)) => Ok(None),
        Err(SourceRefused::Memory(e)) => Err(e),
    }
}
