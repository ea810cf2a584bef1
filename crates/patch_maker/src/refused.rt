//! Why a mapping is no patch.

use c_tree::EntryCause;
use std::alloc::AllocError;
use thiserror::Error;

/// Why no patch is made of a mapping.
#[derive(Debug, Drop, Error)]
pub enum PatchRefused {
    /// The entry of this number, from 1, is the first that is unsound, and this is its least cause.
    #[error("entry {0}")]
    Entry(u32, EntryCause),
    #[error("memory")]
    Memory(AllocError),
}

impl From<AllocError> for PatchRefused {
    ghost use Rattle.std.specs.Prelude.{◌≡◌};
    ghost use Rattle.patch_maker.specs.declared.refused.PatchRefused.TheVariants.{Memory};

    ghost from_gives = { λ x e. e ≡ Memory x };

    fn from(error: AllocError) -> PatchRefused {
        PatchRefused::Memory(error)
    }
}
