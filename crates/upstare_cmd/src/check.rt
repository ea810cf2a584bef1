//! The command `check`.

ghost use Rattle.std.specs.Prelude.{◌≡◌, IfOk};
ghost use Rattle.upstare_cmd.specs.Parts as parts;
ghost use Rattle.upstare_cmd.specs.Replies as replies;
ghost use Rattle.answers.specs.Views as view;

use crate::reply::{prints, turned_down};
use answers::Answer;
use c_source::accepted;
use c_tree::Lifted;
use reports::line;
use std::alloc::{AllocError, Global};

/// How much an accepted program has of each kind.
fn counted(alloc: Global, program: &Lifted) -> Result<Answer, AllocError>
    ensures { IfOk result (λ a. view.answer a ≡ replies.prints (replies.counts program.now)) }
{
    let line = line::counts(
        alloc,
        program.functions.len(),
        program.structs.len(),
        program.globals.len(),
        program.mutexes.len(),
    )?;
    prints(alloc, line)
}

/// What `check` answers where the file holds this.
pub fn check_meant(alloc: Global, name: &str, source: &[u8]) -> Result<Answer, AllocError>
    ensures { IfOk result
        (λ a. parts.OfSource name.now source.now
        (λ p. view.answer a ≡ replies.prints (replies.counts p)) (view.answer a)) }
{
    match accepted(alloc, source) {
        Ok(program) => counted(alloc, &program),
        Err(why) => turned_down(alloc, name, why),
    }
}
