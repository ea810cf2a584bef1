//! What the definitions say of every source, and of the grammar.

ghost use Rattle.c_grammar.specs.Source.{OneAnswer};
ghost use Rattle.c_reader.specs.Answered.{EachIsAnswered};
ghost use Rattle.c_reader.specs.Formed.{EachReadingHasTheForm};
ghost use Rattle.c_reader.specs.Loose.{SameLive};
ghost use Rattle.c_reader.specs.Spelling.{EachLiftingIsSpelt, EachReadingIsSpelt};

use c_grammar::a_source_has_one_answer;

/// That each source is exactly one program or has exactly one first fault.
pub fn each_source_has_one_answer()
    ensures some { EachIsAnswered }
    ensures one { OneAnswer }
{
    a_source_has_one_answer();
}

/// That an else belongs to the nearest if changes nothing of where a reading goes on.
pub fn nearest_if_changes_no_live_list()
    ensures { SameLive }
{}

/// That each program that is read has the form that the laws of the lifting ask for.
pub fn readings_have_their_form()
    ensures { EachReadingHasTheForm }
{}

/// That the names of each program that is read can be spelt: they have a letter or `_` first, then
/// letters, digits and `_`, 64 bytes at most, and are no words with a meaning of their own.
/// So can those of its lifting, where no function passes a limit.
pub fn names_can_be_spelt()
    ensures tree { EachReadingIsSpelt }
    ensures lifted { EachLiftingIsSpelt }
{}
