//! From a patch to its bytes.

ghost use Rattle.std.specs.Prelude.{◌≡◌, IfOk};
ghost use Rattle.c_places.specs.Limit.{KeepsLimit};
ghost use Rattle.patch_file.specs.Whole.{file_of};

use map_text::mapping_text;
use patch_form::write_frame;
use patch_maker::SoundPatch;
use std::alloc::{AllocError, Global};

/// The bytes of a patch's file, in the newest format: both sources, and the canonical text of the
/// entries.
pub fn write_patch(alloc: Global, patch: &SoundPatch) -> Result<Vec<u8>, AllocError>
    ensures { IfOk result (λ bytes. bytes.items ≡ file_of patch.now) }
{
    let patch = patch.patch();
    let map = mapping_text(alloc, &patch.old, &patch.new, patch.entries.as_slice())?;
    write_frame(
        alloc,
        patch.old_text.as_bytes(),
        patch.new_text.as_bytes(),
        &map,
    )
}
