//! What holds of first faults and of refusals.

ghost use Rattle.c_check.specs.Laws.{FirstIsLeast, WellTypedHasNoFault, RefusedAtTheFirst, RefusedIsNotWellTyped};

/// The first fault is among the faults, and none of the faults comes before it. Where there is no
/// fault, and only there, a program is well typed.
pub fn first_fault_law()
    ensures least { FirstIsLeast }
    ensures none { WellTypedHasNoFault }
{}

/// Where a program is refused at an offset, one of its faults stands there with this cause, and
/// none of its faults comes before it. So no program is both accepted and refused.
pub fn refusal_law()
    ensures first { RefusedAtTheFirst }
    ensures not_well_typed { RefusedIsNotWellTyped }
{}
