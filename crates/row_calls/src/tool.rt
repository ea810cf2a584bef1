//! What is called.

use std::alloc::Global;
use up_base::{MemFiles, MemSink};

/// A tool that is called with words over files, an output and `err`, and ends with a status.
pub trait Tool {
    /// One call.
    fn call(
        &self,
        alloc: Global,
        words: &[String],
        files: &mut MemFiles,
        out: &mut MemSink,
        err: &mut MemSink,
    ) -> u8;
}
