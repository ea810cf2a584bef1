//! What the definitions say of every text.
ghost use Rattle.c_tokens.specs.Order.{InTextOrder, TakesLongest};
ghost use Rattle.c_tokens.specs.Reads.{OneReading};
ghost use Rattle.c_tokens.specs.Scans.{OneScan};

/// Each text has exactly one list of tokens or exactly one first fault.
pub fn each_text_reads_once()
    ensures { OneReading }
{}

/// Each source has exactly one list of lexemes and at most one first fault.
pub fn each_source_scans_once()
    ensures { OneScan }
{}

/// Lexemes stand in text order, and before the fault.
pub fn lexemes_stand_before_the_fault()
    ensures { InTextOrder }
{}

/// The longest operator is taken.
pub fn longest_operator_is_taken()
    ensures { TakesLongest }
{}
