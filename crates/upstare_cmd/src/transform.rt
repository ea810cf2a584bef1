//! The command `transform`.

ghost use Rattle.std.specs.Prelude.{◌≡◌, ◌<◌, ◌^◌, IfOk, length};
ghost use Rattle.c_places.specs.Limit.{KeepsLimit};
ghost use Rattle.frame_transform.specs.TargetText.{target_text};
ghost use Rattle.upstare_cmd.specs.Parts as parts;
ghost use Rattle.upstare_cmd.specs.Replies as replies;
ghost use Rattle.answers.specs.Views as view;

use crate::reply::{prints, turned_down};
use answers::Answer;
use c_places::places;
use c_source::{accepted, accepted_programs_are_formed};
use c_tree::Lifted;
use frame_transform::{print_target, transform};
use std::alloc::{AllocError, Global};

/// The text of a transformed program.
fn transformed(alloc: Global, program: &Lifted) -> Result<Answer, AllocError>
    requires limit { KeepsLimit program.now }
    requires few { length program.now.functions < 2 ^ 32 }
    ensures { IfOk result (λ a. view.answer a ≡ replies.prints (target_text program.now)) }
{
    let places = places(alloc, program)?;
    let target = transform(alloc, program, &places)?;
    prints(alloc, print_target(alloc, &target)?)
}

/// What `transform` answers where the file holds this.
pub fn transform_meant(alloc: Global, name: &str, source: &[u8]) -> Result<Answer, AllocError>
    ensures { IfOk result
        (λ a. parts.OfSource name.now source.now
        (λ p. view.answer a ≡ replies.prints (target_text p)) (view.answer a)) }
{
    accepted_programs_are_formed();
    match accepted(alloc, source) {
        Ok(program) => transformed(alloc, &program),
        Err(why) => turned_down(alloc, name, why),
    }
}
