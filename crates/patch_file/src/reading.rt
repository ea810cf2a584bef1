//! From bytes to a patch.

ghost use Rattle.std.specs.Prelude.{◌≡◌, ◌≤◌, IfOk, MatchResult, length};
ghost use Rattle.c_places.specs.Limit.{KeepsLimit};
ghost use Rattle.c_tree.specs.MapForm.{HasMapForm};
ghost use Rattle.c_tree.specs.declared.lifted.Lifted.{Lifted};
ghost use Rattle.patch_file.specs.Formats.{IsMappingAs};
ghost use Rattle.patch_file.specs.Parts.{AreRead, IsMadeOf, IsPatchOf, IsPlaced, Refuses};
ghost use Rattle.patch_file.specs.Refusal.{IsMapRefusal, IsRefusal};
ghost use Rattle.patch_file.specs.Whole.{IsFileOf};
ghost use Rattle.c_source.specs.Source.{IsAccepted};

use crate::difference::first_difference;
use crate::refused::{
    FileRefused, entry_refused, map_refused, new_refused, old_refused, refused_at,
};
use c_source::accepted;
use c_tree::{FileCause, Lifted, Mapping, Text};
use map_lang::{MapRefused, first_mappings_are_mappings, read_first_map, read_map};
use map_text::mapping_text;
use patch_form::{Format, Frame, FrameFault, read_frame};
use patch_maker::{SoundPatch, make_patch};
use std::alloc::{AllocError, Global};

/// The most bytes of a patch's file.
const MAX_FILE: usize = 4_194_304;

fn old_program(alloc: Global, frame: &Frame<'_>) -> Result<Lifted, FileRefused>
    requires { IsPlaced frame.now }
    ensures read { MatchResult result (IsAccepted frame.now.old.text.now) (Refuses frame.now) }
    ensures small { IfOk result KeepsLimit }
{
    match accepted(alloc, frame.old.text) {
        Ok(program) => Ok(program),
        Err(why) => Err(old_refused(frame.old.at, why)),
    }
}

/// The new program, where the old source is accepted.
fn new_program(alloc: Global, frame: &Frame<'_>) -> Result<Lifted, FileRefused>
    requires { IsPlaced frame.now }
    ensures read { MatchResult result (IsAccepted frame.now.new.text.now)
        (λ r. (p : Lifted) → IsAccepted frame.now.old.text.now p → Refuses frame.now r) }
    ensures small { IfOk result KeepsLimit }
{
    match accepted(alloc, frame.new.text) {
        Ok(program) => Ok(program),
        Err(why) => Err(new_refused(frame.new.at, why)),
    }
}

/// The mapping that a text is in a format.
fn mapping_as(alloc: Global, format: Format, text: &[u8]) -> Result<Mapping, MapRefused>
    requires { length text.now ≤ 4194304 }
    ensures read { MatchResult result (IsMappingAs format text.now) (IsMapRefusal format text.now) }
    ensures form { IfOk result HasMapForm }
{
    match format {
        Format::One => read_first_map(alloc, text),
        Format::Two => read_map(alloc, text),
    }
}

/// The mapping, where both sources are accepted.
fn mapping_in(alloc: Global, frame: &Frame<'_>) -> Result<Mapping, FileRefused>
    requires placed { IsPlaced frame.now }
    requires small { length frame.now.map.text.now ≤ 4194304 }
    ensures read { MatchResult result (IsMappingAs frame.now.format frame.now.map.text.now)
        (λ r. (p q : Lifted) → IsAccepted frame.now.old.text.now p
        → IsAccepted frame.now.new.text.now q → Refuses frame.now r) }
    ensures form { IfOk result HasMapForm }
{
    match mapping_as(alloc, frame.format, frame.map.text) {
        Ok(mapping) => Ok(mapping),
        Err(why) => Err(map_refused(frame.map.at, why)),
    }
}

/// The patch of a mapping between two programs, where they are those of the texts.
fn patch_made(
    alloc: Global,
    frame: &Frame<'_>,
    old: Lifted,
    new: Lifted,
    mapping: &Mapping,
) -> Result<SoundPatch, FileRefused>
    requires placed { IsPlaced frame.now }
    requires old_limit { KeepsLimit old }
    requires new_limit { KeepsLimit new }
    requires form { HasMapForm mapping.now }
    ensures { MatchResult result (IsMadeOf frame.now old new mapping.now)
        (λ r. AreRead frame.now old new mapping.now → Refuses frame.now r) }
{
    let old_text = bytes_of(alloc, frame.old.text)?;
    let new_text = bytes_of(alloc, frame.new.text)?;
    match make_patch(alloc, old_text, old, new_text, new, mapping) {
        Ok(patch) => Ok(patch),
        Err(why) => Err(entry_refused(frame.map.at, why)),
    }
}

fn bytes_of(alloc: Global, text: &[u8]) -> Result<Text, FileRefused>
    ensures { MatchResult result (λ t. t ≡ text.now) (λ r. (e : _) × (r ≡ FileRefused.Memory e)) }
{
    match text.to_vec(alloc) {
        Ok(bytes) => Ok(Text::from_vec(bytes)),
        Err(e) => Err(FileRefused::Memory(e)),
    }
}

/// The patch, where its mapping stands in the canonical text.
fn canonical_only(
    alloc: Global,
    frame: &Frame<'_>,
    patch: SoundPatch,
) -> Result<SoundPatch, FileRefused>
    requires placed { IsPlaced frame.now }
    requires made { (m : Mapping) × AreRead frame.now patch.old patch.new m
        × IsMadeOf frame.now patch.old patch.new m patch }
    ensures { MatchResult result (IsPatchOf frame.now) (Refuses frame.now) }
{
    let whole = patch.patch();
    match mapping_text(alloc, &whole.old, &whole.new, whole.entries.as_slice()) {
        Ok(text) => match first_difference(frame.map.text, &text) {
            None => Ok(patch),
            Some(i) => Err(refused_at(frame.map.at, i, FileCause::NotCanonical)),
        },
        Err(e) => Err(FileRefused::Memory(e)),
    }
}

/// The patch of the texts of a file.
fn texts_read(alloc: Global, frame: &Frame<'_>) -> Result<SoundPatch, FileRefused>
    requires placed { IsPlaced frame.now }
    requires small { length frame.now.map.text.now ≤ 4194304 }
    ensures { MatchResult result (IsPatchOf frame.now) (Refuses frame.now) }
{
    let old = old_program(alloc, frame)?;
    let new = new_program(alloc, frame)?;
    let mapping = mapping_in(alloc, frame)?;
    let patch = patch_made(alloc, frame, old, new, &mapping)?;
    canonical_only(alloc, frame, patch)
}

/// The patch whose file the bytes are, in one of the formats.
///
/// # Errors
///
/// The bytes are the file of no whole patch; the first of these causes is answered, at its offset
/// in the bytes: they are too long; they are no file of this form; the old source is refused, the
/// new source, the text of the mapping, an entry; the text isn't the canonical one of its entries.
pub fn read_patch(alloc: Global, bytes: &[u8]) -> Result<SoundPatch, FileRefused>
    ensures { MatchResult result (IsFileOf bytes.now) (IsRefusal bytes.now) }
{
    first_mappings_are_mappings();
    if bytes.len() > MAX_FILE {
        return Err(FileRefused::At(MAX_FILE as u32, FileCause::TooLong));
    }
    match read_frame(bytes) {
        Ok(frame) => texts_read(alloc, &frame),
        Err(FrameFault::Short) => Err(refused_at(0, bytes.len(), FileCause::Short)),
        Err(FrameFault::BadHead(at)) => Err(refused_at(0, at, FileCause::BadHead)),
    }
}
