//! The command `points`.

ghost use Rattle.std.specs.Prelude.{◌≡◌, IfOk};
ghost use Rattle.c_places.specs.Limit.{KeepsLimit};
ghost use Rattle.c_tree.specs.Points.{points};
ghost use Rattle.upstare_cmd.specs.Parts as parts;
ghost use Rattle.upstare_cmd.specs.Replies as replies;
ghost use Rattle.answers.specs.Views as view;

use crate::reply::{prints, turned_down};
use answers::Answer;
use c_places::{places, points_text};
use c_source::accepted;
use c_tree::Lifted;
use std::alloc::{AllocError, Global};

/// The places of a program that mappings can name.
fn listed(alloc: Global, program: &Lifted) -> Result<Answer, AllocError>
    requires { KeepsLimit program.now }
    ensures { IfOk result (λ a. view.answer a ≡ replies.prints (points program.now)) }
{
    let places = places(alloc, program)?;
    prints(alloc, points_text(alloc, program, &places)?)
}

/// What `points` answers where the file holds this.
pub fn points_meant(alloc: Global, name: &str, source: &[u8]) -> Result<Answer, AllocError>
    ensures { IfOk result
        (λ a. parts.OfSource name.now source.now (λ p. view.answer a ≡ replies.prints (points p))
        (view.answer a)) }
{
    match accepted(alloc, source) {
        Ok(program) => listed(alloc, &program),
        Err(why) => turned_down(alloc, name, why),
    }
}
