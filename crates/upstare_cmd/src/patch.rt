//! The command `patch`: a patch from one program to another, by a mapping.

ghost use Rattle.std.specs.Prelude.{◌≡◌, ◌≤◌, IfOk, length};
ghost use Rattle.patch_file.specs.Whole.{file_of};
ghost use Rattle.upstare_cmd.specs.Asked as asks;
ghost use Rattle.upstare_cmd.specs.Meaning as meaning;
ghost use Rattle.upstare_cmd.specs.Replies as replies;
ghost use Rattle.answers.specs.Views as view;
ghost use Rattle.answers.specs.Views.{Fit};
ghost use Rattle.command_line.specs.Command as asked_for;
ghost use Rattle.command_line.specs.Views as words_view;

use crate::judged::{Judged, TextNames, texts_judged};
use crate::reply::patch_written;
use answers::Answer;
use answers::refusal::patch_too_long;
use c_tree::Text;
use command_line::PatchWords;
use patch_file::write_patch;
use patch_maker::SoundPatch;
use std::alloc::{AllocError, Global};

/// The most bytes of a patch's file.
const MAX_PATCH: usize = 4_194_304;

/// A patch is written where its file may hold so much.
fn put_patch(alloc: Global, name: &str, patch: Text) -> Result<Answer, AllocError>
    ensures { IfOk result (λ a. view.answer a ≡ replies.put_patch name.now patch) }
{
    if patch.as_bytes().len() <= MAX_PATCH {
        patch_written(alloc, name, patch)
    } else {
        patch_too_long(alloc, name)
    }
}

/// What is answered of a patch that is made.
fn made_meant(alloc: Global, output: &str, patch: &SoundPatch) -> Result<Answer, AllocError>
    ensures { IfOk result (λ a. view.answer a ≡ replies.put_patch output.now (file_of patch.now)) }
{
    let file = write_patch(alloc, patch)?;
    put_patch(alloc, output, Text::from_vec(file))
}

/// What is answered of the three texts.
fn texts_meant(
    alloc: Global,
    words: &PatchWords<'_>,
    old_text: &[u8],
    new_text: &[u8],
    map_text: &[u8],
) -> Result<Answer, AllocError>
    requires small { length map_text.now ≤ 4194304 }
    ensures { IfOk result (λ a.
        meaning.PatchMeans (words_view.patch words.now) old_text.now new_text.now map_text.now
        (view.answer a)) }
{
    let names = TextNames {
        old: words.old,
        new: words.new,
        map: words.map,
    };
    match texts_judged(alloc, &names, old_text, new_text, map_text)? {
        Judged::Patch(patch) => made_meant(alloc, words.output, &patch),
        Judged::Refused(answer) => Ok(answer),
    }
}

/// What `patch` answers where its files hold these texts: the old source, the new one, the mapping.
pub fn patch_meant(
    alloc: Global,
    words: &PatchWords<'_>,
    texts: &[Text],
) -> Result<Answer, AllocError>
    requires fit { Fit (asks.wanted (asked_for.Patch (words_view.patch words.now))) texts.now }
    ensures { IfOk result
        (λ a. meaning.Means (asked_for.Patch (words_view.patch words.now)) texts.now
        (view.answer a)) }
{
    let [old, new, mapping] = texts else {
        unreachable!()
    };
    texts_meant(
        alloc,
        words,
        old.as_bytes(),
        new.as_bytes(),
        mapping.as_bytes(),
    )
}
