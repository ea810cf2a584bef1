//! Why a part of a state is not mapped.

ghost use Rattle.std.specs.Prelude.{◌≡◌};
ghost use Rattle.c_tree.specs.Fillings as spec;

use c_tree::{Reason, Trap};
use std::alloc::AllocError;

/// Why a part of a state is not mapped.
#[derive(Drop)]
pub enum MapEnd {
    /// The first reason against it.
    Refused(Reason),
    /// Memory ran out, or something is longer than its number can tell.
    Memory(AllocError),
}

/// The number of a trap in a reason. No expression makes a trap of number 0.
pub fn code(trap: Trap) -> u32
    ensures { result ≡ spec.code trap }
{
    match trap {
        Trap::Divide => 1,
        Trap::Shift => 2,
        Trap::Null => 3,
        Trap::Freed => 4,
        Trap::Struct => 5,
        Trap::Bounds => 6,
        Trap::Relock | Trap::Unlock | Trap::Join => 0,
        Trap::Frames | Trap::Threads | Trap::Objects | Trap::Output => 0,
    }
}
