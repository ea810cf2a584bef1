//! The words of traps.

ghost use Rattle.std.specs.Prelude.{◌≡◌};
ghost use Rattle.reports.specs.Trap as spec;

use c_tree::Trap;

/// Why a run was stopped, or an expression of a mapping has no value.
pub fn trap(why: Trap) -> &'static str
    ensures { result.now ≡ spec.trap why }
{
    match why {
        Trap::Divide => "divide",
        Trap::Shift => "shift",
        Trap::Null => "null",
        Trap::Freed => "freed",
        Trap::Struct => "struct",
        Trap::Bounds => "bounds",
        Trap::Relock => "relock",
        Trap::Unlock => "unlock",
        Trap::Join => "join",
        Trap::Frames => "frames",
        Trap::Threads => "threads",
        Trap::Objects => "objects",
        Trap::Output => "output",
    }
}

/// The word of a trap's number in a reason; nothing for a number that no trap of an expression has.
pub fn numbered(code: u32) -> &'static str
    ensures { result.now ≡ spec.numbered code }
{
    match code {
        1 => trap(Trap::Divide),
        2 => trap(Trap::Shift),
        3 => trap(Trap::Null),
        4 => trap(Trap::Freed),
        5 => trap(Trap::Struct),
        6 => trap(Trap::Bounds),
        _ => "",
    }
}
