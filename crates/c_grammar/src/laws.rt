//! Laws of the definitions.

ghost use Rattle.c_grammar.specs.SameWords.{SameWords};
ghost use Rattle.c_grammar.specs.Source.{OneAnswer};
ghost use Rattle.c_grammar.specs.Mapping.{OneMapAnswer};
ghost use Rattle.c_grammar.specs.Rules.{map_start, first_map_start};

/// That a source has at most one answer: one program, or one first fault.
pub fn a_source_has_one_answer()
    ensures { OneAnswer }
{}

/// That the text of a mapping has at most one answer, and as a mapping of the first format too: one
/// mapping, or one first fault.
pub fn a_mapping_has_one_answer()
    ensures mapping { OneMapAnswer map_start }
    ensures first { OneMapAnswer first_map_start }
{}

/// That the words that are no names, and those that are left out, are the same to the grammar as
/// to the tokens.
pub fn words_are_those_of_the_tokens()
    ensures { SameWords }
{}
