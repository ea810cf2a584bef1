//! Why bytes are no patch.

ghost use Rattle.patch_file.specs.Refusal as spec;

use c_source::SourceRefused;
use c_tree::FileCause;
use map_lang::MapRefused;
use patch_maker::PatchRefused;
use std::alloc::AllocError;

/// Why bytes gave no patch.
#[derive(Drop)]
pub enum FileRefused {
    /// At an offset in the bytes, for a cause.
    At(u32, FileCause),
    Memory(AllocError),
}

/// A cause so many bytes behind the start of a text. No file that memory holds is so long that the
/// offset is no `u32`.
pub fn refused_at(start: usize, at: usize, why: FileCause) -> FileRefused
    ensures { spec.IsAt start at why result }
{
    let Some(at) = start.checked_add(at) else {
        return FileRefused::Memory(AllocError);
    };
    match u32::try_from(at) {
        Ok(at) => FileRefused::At(at, why),
        Err(_) => FileRefused::Memory(AllocError),
    }
}

/// A refusal of the old source, which begins at an offset.
pub fn old_refused(start: usize, why: SourceRefused) -> FileRefused
    ensures { spec.IsOfOld start why result }
{
    match why {
        SourceRefused::At(at, why) => refused_at(start, at as usize, FileCause::OldSource(why)),
        SourceRefused::Memory(e) => FileRefused::Memory(e),
    }
}

/// A refusal of the new source, which begins at an offset.
pub fn new_refused(start: usize, why: SourceRefused) -> FileRefused
    ensures { spec.IsOfNew start why result }
{
    match why {
        SourceRefused::At(at, why) => refused_at(start, at as usize, FileCause::NewSource(why)),
        SourceRefused::Memory(e) => FileRefused::Memory(e),
    }
}

/// A refusal of the mapping's text, which begins at an offset.
pub fn map_refused(start: usize, why: MapRefused) -> FileRefused
    ensures { spec.IsOfMap start why result }
{
    match why {
        MapRefused::At(at, why) => refused_at(start, at as usize, FileCause::Map(why)),
        MapRefused::Memory(e) => FileRefused::Memory(e),
    }
}

/// A refusal of an entry of the mapping, which begins at an offset.
pub fn entry_refused(start: usize, why: PatchRefused) -> FileRefused
    ensures { spec.IsOfEntry start why result }
{
    match why {
        PatchRefused::Entry(entry, why) => refused_at(start, 0, FileCause::Entry(entry, why)),
        PatchRefused::Memory(e) => FileRefused::Memory(e),
    }
}
