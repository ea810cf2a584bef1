//! Why a change of the memory ended early.

use c_tree::Trap;
use std::alloc::AllocError;
use thiserror::Error;

/// Why an object was not made, or a text not put out. All stays.
#[derive(Debug, Drop, Error)]
pub enum StoreEnd {
    /// A limit is passed: `Objects` where 1,000,000 objects were made, `Output` where the output
    /// would have more than 4,194,304 bytes.
    #[error("a limit is passed")]
    Trap(Trap),
    /// There was no memory for it.
    #[error("memory")]
    Memory(AllocError),
}

impl From<AllocError> for StoreEnd {
    ghost use Rattle.std.specs.Prelude.{◌≡◌};
    ghost use Rattle.store_mem.specs.declared.refusal.StoreEnd.TheVariants.{Memory};

    ghost from_gives = { λ x e. e ≡ Memory x };

    fn from(error: AllocError) -> StoreEnd {
        StoreEnd::Memory(error)
    }
}
