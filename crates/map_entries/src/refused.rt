//! Why an entry has no numbers.

use c_tree::EntryCause;
use std::alloc::AllocError;
use thiserror::Error;

/// Why an entry of a mapping is not taken.
#[derive(Debug, Drop, Error)]
pub enum EntryRefused {
    /// The entry is unsound, and this is the least cause.
    #[error("entry")]
    Cause(EntryCause),
    #[error("memory")]
    Memory(AllocError),
}

impl From<EntryCause> for EntryRefused {
    ghost use Rattle.std.specs.Prelude.{◌≡◌};
    ghost use Rattle.map_entries.specs.declared.refused.EntryRefused.TheVariants.{Cause};

    ghost from_gives = { λ x e. e ≡ Cause x };

    fn from(cause: EntryCause) -> EntryRefused {
        EntryRefused::Cause(cause)
    }
}

impl From<AllocError> for EntryRefused {
    ghost use Rattle.std.specs.Prelude.{◌≡◌};
    ghost use Rattle.map_entries.specs.declared.refused.EntryRefused.TheVariants.{Memory};

    ghost from_gives = { λ x e. e ≡ Memory x };

    fn from(error: AllocError) -> EntryRefused {
        EntryRefused::Memory(error)
    }
}
