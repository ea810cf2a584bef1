//! The answers of the commands.

ghost use Rattle.std.specs.Prelude.{◌≡◌, IfOk};
ghost use Rattle.upstare_cmd.specs.Replies as replies;
ghost use Rattle.answers.specs.Views as view;
ghost use Rattle.upstare_cmd.specs.Views as inner;

use answers::refusal::{map_refused, refused, says};
use answers::{Answer, Piece, Status};
use c_source::SourceRefused;
use c_tree::{EntryCause, FileCause, Row, Text};
use map_lang::MapRefused;
use patch_file::FileRefused;
use patch_maker::PatchRefused;
use reports::line;
use std::alloc::{AllocError, Global};

/// A text for the output, and then a line.
fn puts(alloc: Global, text: Text, line: Text, status: Status) -> Result<Answer, AllocError>
    ensures { IfOk result (λ a. view.answer a ≡ replies.puts text line status) }
{
    let mut pieces = Vec::new(alloc);
    pieces.push(Piece::Out(text))?;
    Ok(Answer {
        pieces: Row::from_vec(pieces),
        line,
        status,
    })
}

/// A text alone.
pub fn prints(alloc: Global, text: Text) -> Result<Answer, AllocError>
    ensures { IfOk result (λ a. view.answer a ≡ replies.prints text) }
{
    let line = Text::from_vec(Vec::new(alloc));
    puts(alloc, text, line, Status::Done)
}

/// The words ask for nothing that there is.
pub fn usage(alloc: Global) -> Result<Answer, AllocError>
    ensures { IfOk result (λ a. view.answer a ≡ replies.usage) }
{
    Ok(says(alloc, line::usage(alloc)?, Status::Usage))
}

/// A mapping has an unsound entry of this number, from 1.
pub fn map_unsound(
    alloc: Global,
    name: &str,
    entry: u32,
    why: EntryCause,
) -> Result<Answer, AllocError>
    ensures { IfOk result (λ a. view.answer a ≡ replies.map_unsound name.now entry why) }
{
    Ok(says(
        alloc,
        line::map_unsound(alloc, name, entry, why)?,
        Status::MapRefused,
    ))
}

/// The bytes of a file are no patch, for a cause `at` bytes from their start.
pub fn patch_refused(
    alloc: Global,
    name: &str,
    at: u32,
    why: &FileCause,
) -> Result<Answer, AllocError>
    ensures { IfOk result (λ a. view.answer a ≡ replies.patch_refused name.now at why.now) }
{
    Ok(says(
        alloc,
        line::patch_refused(alloc, name, at, why)?,
        Status::MapRefused,
    ))
}

/// A patch has another old source; the numbers are those of the two texts' bytes, and where they
/// differ.
pub fn patch_differs(
    alloc: Global,
    name: &str,
    source: usize,
    old: usize,
    at: usize,
) -> Result<Answer, AllocError>
    ensures { IfOk result (λ a. view.answer a ≡ replies.patch_differs name.now source old at) }
{
    Ok(says(
        alloc,
        line::patch_differs(alloc, name, source, old, at)?,
        Status::MapRefused,
    ))
}

/// A patch for its file, and then how many bytes it has for the output.
pub fn patch_written(alloc: Global, name: &str, patch: Text) -> Result<Answer, AllocError>
    ensures { IfOk result (λ a. view.answer a ≡ replies.patch_written name.now patch) }
{
    let line = line::written(alloc, patch.as_bytes().len())?;
    let mut pieces = Vec::new(alloc);
    pieces.push(Piece::File(String::from_str(alloc, name)?, patch))?;
    pieces.push(Piece::Out(line))?;
    Ok(Answer {
        pieces: Row::from_vec(pieces),
        line: Text::from_vec(Vec::new(alloc)),
        status: Status::Done,
    })
}

/// A schedule is refused at its event of this number, from 1.
pub fn schedule_refused(alloc: Global, name: &str, n: u64) -> Result<Answer, AllocError>
    ensures { IfOk result (λ a. view.answer a ≡ replies.schedule_refused name.now n) }
{
    Ok(says(
        alloc,
        line::schedule_refused(alloc, name, n)?,
        Status::ScheduleRefused,
    ))
}

/// What is answered where a source gave no program.
pub fn turned_down(alloc: Global, name: &str, why: SourceRefused) -> Result<Answer, AllocError>
    ensures { IfOk result (λ a. inner.TurnsDown name.now why (view.answer a)) }
{
    match why {
        SourceRefused::At(at, why) => refused(alloc, name, at, &why),
        SourceRefused::Memory(e) => Err(e),
    }
}

/// What is answered where a text gave no mapping.
pub fn map_turned_down(alloc: Global, name: &str, why: MapRefused) -> Result<Answer, AllocError>
    ensures { IfOk result (λ a. inner.TurnsDownMap name.now why (view.answer a)) }
{
    match why {
        MapRefused::At(at, why) => map_refused(alloc, name, at, &why),
        MapRefused::Memory(e) => Err(e),
    }
}

/// What is answered where a mapping gave no patch.
pub fn entry_turned_down(alloc: Global, name: &str, why: PatchRefused) -> Result<Answer, AllocError>
    ensures { IfOk result (λ a. inner.TurnsDownEntry name.now why (view.answer a)) }
{
    match why {
        PatchRefused::Entry(entry, why) => map_unsound(alloc, name, entry, why),
        PatchRefused::Memory(e) => Err(e),
    }
}

/// What is answered where bytes gave no patch.
pub fn file_turned_down(alloc: Global, name: &str, why: FileRefused) -> Result<Answer, AllocError>
    ensures { IfOk result (λ a. inner.TurnsDownFile name.now why (view.answer a)) }
{
    match why {
        FileRefused::At(at, why) => patch_refused(alloc, name, at, &why),
        FileRefused::Memory(e) => Err(e),
    }
}
