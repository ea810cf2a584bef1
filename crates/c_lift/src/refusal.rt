//! Why a program is not lifted.

use c_tree::LimitKind;
use std::alloc::AllocError;
use thiserror::Error;

/// The answer to a program that is not lifted.
#[derive(Debug, Drop, Error)]
pub enum LiftRefused {
    /// A function has more than 10,000 places or more than 128 slots. It is the first that has, and
    /// the offset is that of its name. The kind is `Places` where it has too many places, and else
    /// `Slots`.
    #[error("limit")]
    Limit(u32, LimitKind),
    /// There was no memory for the lifting. Of the program nothing is said.
    #[error("memory")]
    Memory(AllocError),
}

impl From<AllocError> for LiftRefused {
    ghost use Rattle.std.specs.Prelude.{◌≡◌};
    ghost use Rattle.c_lift.specs.declared.refusal.LiftRefused.TheVariants.{Memory};

    ghost from_gives = { λ x e. e ≡ Memory x };

    fn from(error: AllocError) -> LiftRefused {
        LiftRefused::Memory(error)
    }
}
