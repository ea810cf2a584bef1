//! A law on the texts that are made from a number.

ghost use Rattle.load_laws.specs.Laws.{LoadsAreAccepted};

/// Of each number from 1 to 1000, both sources are accepted, the mapping is read, and its entries
/// are sound between the two programs.
pub fn loads_are_accepted()
    ensures { LoadsAreAccepted }
{}
