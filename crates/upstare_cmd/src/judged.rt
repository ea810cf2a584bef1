//! Three texts that are judged in their order: an old source, a new one, and a mapping between
//! their programs.

ghost use Rattle.std.specs.Prelude.{◌≤◌, IfOk, length};
ghost use Rattle.c_places.specs.Limit.{KeepsLimit};
ghost use Rattle.c_tree.specs.MapForm.{HasMapForm};
ghost use Rattle.upstare_cmd.specs.Views as inner;

use crate::reply::{entry_turned_down, map_turned_down, turned_down};
use answers::Answer;
use c_source::accepted;
use c_tree::{Lifted, Mapping, Text};
use map_lang::read_map;
use patch_maker::{SoundPatch, make_patch};
use std::alloc::{AllocError, Global};

/// The names by which a line tells of the three texts.
#[derive(Clone, Copy)]
pub struct TextNames<'a> {
    pub old: &'a str,
    pub new: &'a str,
    pub map: &'a str,
}

/// What the three texts came to.
#[derive(Drop)]
pub enum Judged {
    /// Their patch.
    Patch(SoundPatch),
    /// What is answered where one of them is refused.
    Refused(Answer),
}

fn entries_judged(
    alloc: Global,
    names: &TextNames<'_>,
    old_text: &[u8],
    old: Lifted,
    new_text: &[u8],
    new: Lifted,
    mapping: &Mapping,
) -> Result<Judged, AllocError>
    requires old_limit { KeepsLimit old }
    requires new_limit { KeepsLimit new }
    requires form { HasMapForm mapping.now }
    ensures { IfOk result
        (inner.IsOfEntries (inner.names names.now) old_text.now old new_text.now new mapping.now) }
{
    let old_text = Text::from_vec(old_text.to_vec(alloc)?);
    let new_text = Text::from_vec(new_text.to_vec(alloc)?);
    match make_patch(alloc, old_text, old, new_text, new, mapping) {
        Ok(patch) => Ok(Judged::Patch(patch)),
        Err(why) => Ok(Judged::Refused(entry_turned_down(alloc, names.map, why)?)),
    }
}

fn mapping_judged(
    alloc: Global,
    names: &TextNames<'_>,
    old_text: &[u8],
    old: Lifted,
    new_text: &[u8],
    new: Lifted,
    map_text: &[u8],
) -> Result<Judged, AllocError>
    requires old_limit { KeepsLimit old }
    requires new_limit { KeepsLimit new }
    requires small { length map_text.now ≤ 4194304 }
    ensures { IfOk result
        (inner.IsOfMapping (inner.names names.now) old_text.now old new_text.now new map_text.now) }
{
    match read_map(alloc, map_text) {
        Ok(mapping) => entries_judged(alloc, names, old_text, old, new_text, new, &mapping),
        Err(why) => Ok(Judged::Refused(map_turned_down(alloc, names.map, why)?)),
    }
}

fn new_judged(
    alloc: Global,
    names: &TextNames<'_>,
    old_text: &[u8],
    old: Lifted,
    new_text: &[u8],
    map_text: &[u8],
) -> Result<Judged, AllocError>
    requires limit { KeepsLimit old }
    requires small { length map_text.now ≤ 4194304 }
    ensures { IfOk result
        (inner.IsOfNew (inner.names names.now) old_text.now old new_text.now map_text.now) }
{
    match accepted(alloc, new_text) {
        Ok(new) => mapping_judged(alloc, names, old_text, old, new_text, new, map_text),
        Err(why) => Ok(Judged::Refused(turned_down(alloc, names.new, why)?)),
    }
}

/// The patch of the three texts, or what is answered where one of them is refused.
pub fn texts_judged(
    alloc: Global,
    names: &TextNames<'_>,
    old_text: &[u8],
    new_text: &[u8],
    map_text: &[u8],
) -> Result<Judged, AllocError>
    requires small { length map_text.now ≤ 4194304 }
    ensures { IfOk result
        (inner.IsOfTexts (inner.names names.now) old_text.now new_text.now map_text.now) }
{
    match accepted(alloc, old_text) {
        Ok(old) => new_judged(alloc, names, old_text, old, new_text, map_text),
        Err(why) => Ok(Judged::Refused(turned_down(alloc, names.old, why)?)),
    }
}
