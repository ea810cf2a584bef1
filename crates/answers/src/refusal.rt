//! The answers where a file is lost, is too long, or is refused: a line alone.

ghost use Rattle.std.specs.Prelude.{◌≡◌, IfOk};
ghost use Rattle.answers.specs.Refusals as refusal;
ghost use Rattle.answers.specs.Views as view;

use crate::answer::Answer;
use crate::status::Status;
use c_tree::{ReadCause, Row, SourceCause, Text};
use reports::line;
use std::alloc::{AllocError, Global};

/// A line alone.
pub fn says(alloc: Global, line: Text, status: Status) -> Answer
    ensures { view.answer result ≡ refusal.says line status }
{
    Answer {
        pieces: Row::from_vec(Vec::new(alloc)),
        line,
        status,
    }
}

/// A file could not be read.
pub fn cannot_read(alloc: Global, name: &str) -> Result<Answer, AllocError>
    ensures { IfOk result (λ a. view.answer a ≡ refusal.cannot_read name.now) }
{
    Ok(says(alloc, line::cannot_read(alloc, name)?, Status::ReadFault))
}

/// A source is refused, `at` bytes from its start.
pub fn refused(alloc: Global, name: &str, at: u32, why: &SourceCause) -> Result<Answer, AllocError>
    ensures { IfOk result (λ a. view.answer a ≡ refusal.refused name.now at why.now) }
{
    Ok(says(
        alloc,
        line::refused(alloc, name, at, why)?,
        Status::SourceRefused,
    ))
}

/// A file holds more than it may.
pub fn too_long(alloc: Global, name: &str) -> Result<Answer, AllocError>
    ensures { IfOk result (λ a. view.answer a ≡ refusal.too_long name.now) }
{
    Ok(says(alloc, line::too_long(alloc, name)?, Status::TooLong))
}

/// A mapping is refused, `at` bytes from its start.
pub fn map_refused(
    alloc: Global,
    name: &str,
    at: u32,
    why: &ReadCause,
) -> Result<Answer, AllocError>
    ensures { IfOk result (λ a. view.answer a ≡ refusal.map_refused name.now at why.now) }
{
    Ok(says(
        alloc,
        line::map_refused(alloc, name, at, why)?,
        Status::MapRefused,
    ))
}

/// A patch would have more bytes than its file may.
pub fn patch_too_long(alloc: Global, name: &str) -> Result<Answer, AllocError>
    ensures { IfOk result (λ a. view.answer a ≡ refusal.patch_too_long name.now) }
{
    Ok(says(
        alloc,
        line::patch_too_long(alloc, name)?,
        Status::MapRefused,
    ))
}
