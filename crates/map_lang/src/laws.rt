//! What the definitions say of every mapping.

ghost use Rattle.c_grammar.specs.Mapping.{OneMapAnswer};
ghost use Rattle.c_grammar.specs.Rules.{map_start, first_map_start};
ghost use Rattle.map_lang.specs.Answered.{EachIsAnswered};
ghost use Rattle.map_lang.specs.Formats.{FirstMappingsAreMappings, MappingsOfOnePartAreFirst};
ghost use Rattle.map_lang.specs.Formed.{EachMappingHasTheForm, EachFirstMappingHasTheForm};

/// That each text is exactly one mapping or has exactly one first fault, in the first format too.
pub fn each_mapping_has_one_answer()
    ensures some { EachIsAnswered map_start }
    ensures one { OneMapAnswer map_start }
    ensures first_some { EachIsAnswered first_map_start }
    ensures first_one { OneMapAnswer first_map_start }
{
    c_grammar::a_mapping_has_one_answer();
}

/// That each mapping that is read has the form that the laws of updates ask for.
pub fn mappings_have_their_form()
    ensures { EachMappingHasTheForm }
{}

/// That each mapping that is read in the first format has this form.
pub fn first_mappings_have_their_form()
    ensures { EachFirstMappingHasTheForm }
{}

/// That a mapping of the first format is the same in the second, and has one part in each point.
pub fn first_mappings_are_mappings()
    ensures { FirstMappingsAreMappings }
{}

/// That a mapping of the second format with one part in each point is the same in the first.
pub fn mappings_of_one_part_are_first()
    ensures { MappingsOfOnePartAreFirst }
{}
