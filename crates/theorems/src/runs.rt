//! The states that the run of an accepted source comes to.

ghost use Rattle.theorems.specs.Laws.{AcceptedRunsStayValid, WholePatchesArmWell};

use c_source::{a_source_has_one_verdict, accepted_programs_are_formed};
use map_lang::mappings_have_their_form;
use patch_laws::lifted_entries_are_sound;
use state_laws::whole_runs_stay_valid;

/// Each state that a run of an accepted source comes to is valid for the program that runs then,
/// where the patch that is armed, if any, is one of this program to a formed one, and sound.
pub fn accepted_runs_stay_valid()
    ensures { AcceptedRunsStayValid }
{
    accepted_programs_are_formed();
    whole_runs_stay_valid();
}

/// A whole patch of a source is one of its program to a formed one, and sound.
pub fn whole_patches_arm_well()
    ensures { WholePatchesArmWell }
{
    accepted_programs_are_formed();
    a_source_has_one_verdict();
    mappings_have_their_form();
    lifted_entries_are_sound();
}
