//! The command `upgrade`: the same patch in the newest format.

ghost use Rattle.std.specs.Prelude.{◌≡◌, IfOk};
ghost use Rattle.answers.specs.Views as view;
ghost use Rattle.command_line.specs.Views as words_view;
ghost use Rattle.patch_file.specs.Whole.{file_of};
ghost use Rattle.upstare_cmd.specs.Meaning as meaning;
ghost use Rattle.upstare_cmd.specs.Replies as replies;

use crate::reply::{file_turned_down, patch_written};
use answers::Answer;
use c_tree::Text;
use command_line::UpgradeWords;
use patch_file::{read_patch, write_patch};
use patch_maker::SoundPatch;
use std::alloc::{AllocError, Global};

/// What is answered of a patch that was read.
fn upgraded(alloc: Global, output: &str, patch: &SoundPatch) -> Result<Answer, AllocError>
    ensures { IfOk result
        (λ a. view.answer a ≡ replies.patch_written output.now (file_of patch.now)) }
{
    let file = write_patch(alloc, patch)?;
    patch_written(alloc, output, Text::from_vec(file))
}

/// What `upgrade` answers where the file of the patch holds this.
pub fn upgrade_meant(
    alloc: Global,
    words: &UpgradeWords<'_>,
    bytes: &[u8],
) -> Result<Answer, AllocError>
    ensures { IfOk result (λ a.
        meaning.UpgradeMeans (words_view.upgrade words.now) bytes.now (view.answer a)) }
{
    match read_patch(alloc, bytes) {
        Ok(patch) => upgraded(alloc, words.output, &patch),
        Err(why) => file_turned_down(alloc, words.file, why),
    }
}
