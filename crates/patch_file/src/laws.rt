//! What holds of all bytes: the function is the proof of what it promises.

ghost use Rattle.patch_file.specs.Laws as laws;

use c_grammar::a_mapping_has_one_answer;
use c_source::a_source_has_one_verdict;
use map_lang::{first_mappings_are_mappings, mappings_of_one_part_are_first};
use patch_form::no_text_has_two_answers;
use read_back::canonical_text_reads_back;

/// Bytes are the file of one whole patch, or are refused at one offset for one cause, and not both.
/// So what `write_patch` makes of a whole patch, `read_patch` reads as that patch; and the same
/// bytes in format 1 too, where each point of the patch has one part.
pub fn bytes_have_one_answer()
    ensures { laws.OneAnswer }
{
    a_mapping_has_one_answer();
    no_text_has_two_answers();
    a_source_has_one_verdict();
    canonical_text_reads_back();
    first_mappings_are_mappings();
    mappings_of_one_part_are_first();
}

/// A patch that `make_patch` makes of two accepted sources and a mapping that was read reads back:
/// `read_patch` takes the bytes that `write_patch` gives as this patch, and refuses them for no
/// cause, where they are no more than a file may have.
pub fn made_patches_read_back()
    ensures { laws.MadePatchesReadBack }
{
    bytes_have_one_answer();
}
