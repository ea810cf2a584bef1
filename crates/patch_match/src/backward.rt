//! From new things back to the old ones that they are the matches of.

ghost use Rattle.std.specs.Prelude.{◌≡◌, ℕ, [], ◌∷◌, ◌++◌, List, Option, length, IfOk, OnOk};
ghost use Rattle.c_tree.specs.Link as link;
ghost use Rattle.patch_match.specs.Origins.{GivesOrigins};

use c_tree::narrowed;
use indexmap::IndexMap;
use std::alloc::{AllocError, Global};

/// For each new thing that is a match the first old one that it is the match of, both by number.
pub type Origins = IndexMap<u32, u32>;

/// For each new thing that is a match the first old one that it is the match of, from the match of
/// each old thing. More than 4,294,967,296 old things count as want of memory.
pub fn origins_of(alloc: Global, found: &[Option<u32>]) -> Result<Origins, AllocError>
    ensures { IfOk result (λ t. GivesOrigins t found.now) }
{
    let mut origins = IndexMap::new(alloc);
    for (i, side) in found.iter().enumerate() {
        add_origin(&mut origins, *side, narrowed(i)?)?;
    }
    Ok(origins)
}

/// Adds the match of an old thing that follows those of the table.
fn add_origin(origins: &mut Origins, side: Option<u32>, at: u32) -> Result<(), AllocError>
    ensures { OnOk result ((found : List (Option ℕ)) → GivesOrigins origins.old found
        → at ≡ length found → GivesOrigins origins.new (found ++ side ∷ [])) }
{
    let side = match side {
        Some(side) => side,
        None => return Ok(()),
    };
    match origins.get(&side) {
        Some(_) => Ok(()),
        None => {
            origins.insert(side, at)?;
            Ok(())
        }
    }
}

/// The first old thing that a new one is the match of.
pub fn origin_in(origins: &Origins, new: u32) -> Option<u32>
    ensures { (found : List (Option ℕ)) → GivesOrigins origins.now found →
        result ≡ link.origin found new }
{
    origins.get(&new).copied()
}
