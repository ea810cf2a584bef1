//! What holds of a mapping's entries: their causes, and what they are once they are lifted and in
//! order.

ghost use Rattle.patch_laws.specs.Laws.{LiftedEntriesAreSound, CanonicalIsKept, CausesAreAskedInOrder, SoundEntriesHaveNumbers};

/// Where each entry of a mapping that was read lifts to numbers, the entries in their canonical
/// order are sound.
pub fn lifted_entries_are_sound()
    ensures { LiftedEntriesAreSound }
{}

/// Entries in their canonical order stay as they are.
pub fn canonical_is_kept()
    ensures { CanonicalIsKept }
{}

/// Where the causes of an entry are asked in ascending order, the first that is found is the least
/// of all that hold of it, and an entry that passes is the one by numbers.
pub fn causes_are_asked_in_order()
    ensures { CausesAreAskedInOrder }
{}

/// An entry of which no cause holds has numbers.
pub fn sound_entries_have_numbers()
    ensures { SoundEntriesHaveNumbers }
{}
