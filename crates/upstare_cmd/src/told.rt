//! What is told of a run that is over.

ghost use Rattle.std.specs.Prelude.{◌≡◌, ◌∷◌, ◌++◌, [], IfOk, Some, codes};
ghost use Rattle.c_places.specs.Limit.{KeepsLimit};
ghost use Rattle.c_tree.specs.Link.{link_of};
ghost use Rattle.reports.specs.Words.{reason as words_of};
ghost use Rattle.answers.specs.Answer as meant;
ghost use Rattle.upstare_cmd.specs.Meaning as meaning;
ghost use Rattle.upstare_cmd.specs.Replies as replies;
ghost use Rattle.upstare_cmd.specs.Update as updates;
ghost use Rattle.answers.specs.Views as view;
ghost use Rattle.command_line.specs.Views as words_view;
ghost use Rattle.world_core.specs.History.{over};
ghost use Rattle.world_core.specs.Refused.{named_at_refusal};

use answers::{Answer, Piece, status_of};
use c_tree::{End, Patch, Reason, Row, Text};
use drive::history_text;
use event_log::EventLog;
use reports::{line, reason_words};
use std::alloc::{AllocError, Global};
use world_core::{Outcome, World};

/// What a run puts: its output, then the text of its events where a file for it is named.
fn pieces_of(
    alloc: Global,
    output: Text,
    history: Option<&str>,
    events: &EventLog,
) -> Result<Row<Piece>, AllocError>
    ensures { IfOk result
        (λ ps. view.pieces ps ≡ meant.ToOut output ∷ replies.kept
        (words_view.text history.entry) events.now.items) }
{
    let mut pieces = Vec::new(alloc);
    pieces.push(Piece::Out(output))?;
    let Some(name) = history else {
        return Ok(Row::from_vec(pieces));
    };
    let text = history_text(alloc, events)?;
    pieces.push(Piece::File(String::from_str(alloc, name)?, text))?;
    Ok(Row::from_vec(pieces))
}

fn text_of(alloc: Global, bytes: &[u8]) -> Result<Text, AllocError>
    ensures { IfOk result (λ text. text ≡ bytes.now) }
{
    Ok(Text::from_vec(bytes.to_vec(alloc)?))
}

/// The words of a refusal of an update by a patch.
fn refused_words(
    alloc: Global,
    patch: &Patch,
    at: (u32, u32),
    reason: Reason,
) -> Result<Text, AllocError>
    requires { KeepsLimit patch.now.old }
    ensures { IfOk result (λ words. words ≡
        codes "refused: " ++ words_of (link_of patch.now.old patch.now.new patch.now.entries)
        patch.now.entries at reason) }
{
    let mut words = text_of(alloc, b"refused: ")?;
    let reason = reason_words(alloc, patch, at, reason)?;
    words.append(reason.as_bytes())?;
    Ok(words)
}

/// The words of a refusal of a World's update.
fn refusal_words(alloc: Global, world: &World, reason: Reason) -> Result<Text, AllocError>
    ensures { IfOk result (λ words. words ≡
        codes "refused: " ++ updates.refusal_words world.now.settings.armed
        (named_at_refusal world.now) reason) }
{
    match world.patch() {
        Some(patch) => refused_words(alloc, patch, world.named_at_refusal(), reason),
        None => text_of(alloc, b"refused: "),
    }
}

/// What came of the update of a run, in words.
pub fn update_words(alloc: Global, world: &World) -> Result<Text, AllocError>
    ensures { IfOk result (λ words. words ≡ updates.update_words world.now) }
{
    match world.outcome() {
        Outcome::NoPatch => text_of(alloc, b"none"),
        Outcome::NotAsked => text_of(alloc, b"not asked"),
        Outcome::Asked => text_of(alloc, b"asked"),
        Outcome::Done => text_of(alloc, b"done"),
        Outcome::Refused(reason) => refusal_words(alloc, world, reason),
    }
}

/// What is answered of a run that is over: its output, its history where that is kept, its report.
pub fn told(
    alloc: Global,
    world: &World,
    end: End,
    history: Option<&str>,
) -> Result<Answer, AllocError>
    requires over { over world.now ≡ Some end }
    requires single { world.now.earlier ≡ [] }
    ensures { IfOk result
        (λ a. meaning.Tells world.now.settings (words_view.text history.entry) world.now.events
        (view.answer a)) }
{
    let output = Text::from_vec(world.output().to_vec(alloc)?);
    let update = update_words(alloc, world)?;
    let line = line::report(alloc, end, world.steps(), update.as_bytes())?;
    Ok(Answer {
        pieces: pieces_of(alloc, output, history, world.events())?,
        line,
        status: status_of(end),
    })
}
