//! What tells where frames go.

ghost use Rattle.std.specs.Prelude.{◌≡◌, length};
ghost use Rattle.stack_map.specs.Subjects.{GivesFirst};
ghost use Rattle.stack_map.specs.Kept.{AreUnchanged};
ghost use Rattle.stack_map.specs.PlacesOf.{ArePlacesOf, one_way};

use crate::entries::Declared;
use c_tree::{LEntry, Places};
use patch_match::Link;

/// What tells where the frames of old threads go: how the two programs belong together, the entries
/// of the patch, and what is found of them once for a whole update.
#[derive(Drop)]
pub struct FrameMap<'a, 'b> {
    /// The link that the entries make.
    pub link: &'a Link<'b>,
    /// The entries of the patch.
    pub entries: &'a [LEntry],
    /// The number of the first entry about each thing.
    pub declared: &'a Declared,
    /// Which old functions have a match that leaves them unchanged.
    pub same: &'a [bool],
    /// The places of the old functions.
    pub places: &'a Places,
    ghost first: { GivesFirst declared.now entries.now },
    ghost unchanged: { AreUnchanged link.now same.now },
    ghost placed: { ArePlacesOf places.now.functions link.now.old } by { one_way places.now.functions link.now.old },
    // The link says of each old function whether it has a match.
    ghost whole: { length link.now.functions ≡ length link.now.old.functions },
}
