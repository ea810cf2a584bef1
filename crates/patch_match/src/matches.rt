//! The matches of all kinds.

ghost use Rattle.std.specs.Prelude.{◌≡◌, map, IfOk};
ghost use Rattle.c_tree.specs.Link as link;
ghost use Rattle.c_tree.specs.Entries as entries;
ghost use Rattle.patch_match.specs.Linking.{linking};

use crate::tables::Tables;
use crate::{matching, numbered};
use c_tree::{At, Entry, LEntry};
use std::alloc::{AllocError, Global};

/// For each old thing of each kind the number of its match.
pub struct Matches {
    pub functions: Vec<Option<u32>>,
    pub structs: Vec<Option<u32>>,
    pub globals: Vec<Option<u32>>,
    pub mutexes: Vec<Option<u32>>,
}

impl Drop for Matches {
    fn drop(self) {
        let Matches {
            functions: _,
            structs: _,
            globals: _,
            mutexes: _,
        } = self;
    }
}

impl Matches {
    /// What the entries of a mapping say, else equal names.
    pub fn by_names(
        alloc: Global,
        old: &Tables<'_>,
        new: &Tables<'_>,
        mapping: &[At<Entry>],
    ) -> Result<Matches, AllocError>
        ensures { IfOk result (λ m. linking old.now new.now m ≡
            entries.link_by_names old.now new.now (map (λ x. x.it) mapping.now)) }
    {
        Ok(Matches {
            functions: matching::matches(alloc, 0, old, new, mapping)?,
            structs: matching::matches(alloc, 1, old, new, mapping)?,
            globals: matching::matches(alloc, 2, old, new, mapping)?,
            mutexes: matching::matches(alloc, 3, old, new, mapping)?,
        })
    }

    /// What the entries of a patch say, else equal names.
    pub fn by_numbers(
        alloc: Global,
        old: &Tables<'_>,
        new: &Tables<'_>,
        entries: &[LEntry],
    ) -> Result<Matches, AllocError>
        ensures { IfOk result (λ m. linking old.now new.now m ≡
            link.link_of old.now new.now entries.now) }
    {
        Ok(Matches {
            functions: numbered::matches(alloc, 0, old, new, entries)?,
            structs: numbered::matches(alloc, 1, old, new, entries)?,
            globals: numbered::matches(alloc, 2, old, new, entries)?,
            mutexes: numbered::matches(alloc, 3, old, new, entries)?,
        })
    }
}
