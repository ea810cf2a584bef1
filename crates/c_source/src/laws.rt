//! What holds of every source: each function is the proof of what it promises.

ghost use Rattle.c_source.specs.Laws as laws;

use c_check::refusal_law;
use c_grammar::a_source_has_one_answer;
use c_reader::readings_have_their_form;
use lift_laws::a_lifted_program_is_formed;

/// The program of each accepted source is formed: its indices lie inside, its expressions have the
/// sorts that their places ask, and its counts keep their limits.
pub fn accepted_programs_are_formed()
    ensures { laws.AcceptedIsFormed }
{
    readings_have_their_form();
    a_lifted_program_is_formed();
}

/// A source has at most one verdict: it is accepted as one program, or refused at one offset for
/// one cause.
pub fn a_source_has_one_verdict()
    ensures { laws.OneVerdict }
{
    a_source_has_one_answer();
    refusal_law();
}
