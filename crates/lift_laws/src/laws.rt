//! Each function is the proof of what it promises.

ghost use Rattle.lift_laws.specs.Laws.{LiftsWithinLimits, LiftsToDifferentNames, LiftsParametersFirst, LiftsToMain, LiftsPointersToNull, LiftsArraysToZero, LiftsWithinLoops, LiftsToFittingPrints, LiftsToDifferentSlots, LiftsToSorts, LiftsToFormed};

/// Where no function passes a limit, the lifting of a well-typed program keeps all limits. Its
/// names of one kind are different, a function's parameters are its first slots, `main` lies
/// inside, is an `int` and has no parameters, a pointer's initialiser is 0, and so is an array's
/// in a program that was read.
pub fn lifted_law()
    ensures limits { LiftsWithinLimits }
    ensures names { LiftsToDifferentNames }
    ensures parameters { LiftsParametersFirst }
    ensures main { LiftsToMain }
    ensures starts { LiftsPointersToNull }
    ensures arrays { LiftsArraysToZero }
{}

/// The lifting of a well-typed program of the form that sources are read in leaves no loop but
/// those around it, each `printf` has as many arguments as its text asks for, and each expression
/// and destination has the sort that its place asks. Where no function passes a limit, the names
/// of a function's slots are different.
pub fn lifted_statements_law()
    ensures loops { LiftsWithinLoops }
    ensures prints { LiftsToFittingPrints }
    ensures sorts { LiftsToSorts }
    ensures slots { LiftsToDifferentSlots }
{}

/// The lifting of a well-typed program that was read, and whose functions keep the limits, is
/// formed.
pub fn a_lifted_program_is_formed()
    ensures formed { LiftsToFormed }
{}
