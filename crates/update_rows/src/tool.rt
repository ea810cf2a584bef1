//! The tool, as the rows call it.

use row_calls::Tool;
use std::alloc::Global;
use up_base::{MemFiles, MemSink};
use upstare_cmd::upstare_main;

/// The commands of the tool.
pub struct Upstare;

impl Tool for Upstare {
    fn call(
        &self,
        alloc: Global,
        words: &[String],
        files: &mut MemFiles,
        out: &mut MemSink,
        err: &mut MemSink,
    ) -> u8 {
        upstare_main(alloc, words, files, out, err)
    }
}
