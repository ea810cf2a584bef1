//! The command `load`: a large update made from one number.

ghost use Rattle.std.specs.Prelude.{◌≡◌, ◌≤◌, ◌∷◌, [], IfOk, Some};
ghost use Rattle.answers.specs.Answer as meant;
ghost use Rattle.upstare_cmd.specs.Arming.{Fits};
ghost use Rattle.upstare_cmd.specs.Meaning as meaning;
ghost use Rattle.answers.specs.Views as view;
ghost use Rattle.world_core.specs.History.{over};

use crate::judged::{Judged, TextNames, texts_judged};
use crate::run::started;
use crate::told::update_words;
use answers::{Answer, Piece, status_of};
use c_grammar::a_mapping_has_one_answer;
use c_source::a_source_has_one_verdict;
use c_tree::{End, Patch, Row, Text};
use drive::drive_round;
use load_laws::loads_are_accepted;
use load_texts::{mapping, mappings_are_short, new_source, old_source, request_at};
use patch_maker::SoundPatch;
use reports::line;
use std::alloc::{AllocError, Global};
use world_core::World;

/// The most Steps of the run.
const STEPS: u64 = 1_000_000;

/// The names by which a line would tell of the texts.
const NAMES: TextNames<'static> = TextNames {
    old: "old",
    new: "new",
    map: "map",
};

/// What a load puts: its line, and then the output of its run.
fn pieces_of(alloc: Global, line: Text, output: Text) -> Result<Row<Piece>, AllocError>
    ensures { IfOk result (λ ps. view.pieces ps ≡ meant.ToOut line ∷ meant.ToOut output ∷ []) }
{
    let mut pieces = Vec::new(alloc);
    pieces.push(Piece::Out(line))?;
    pieces.push(Piece::Out(output))?;
    Ok(Row::from_vec(pieces))
}

/// What is answered of a load's run that is over.
fn told(alloc: Global, world: &World, n: u32, end: End) -> Result<Answer, AllocError>
    requires over { over world.now ≡ Some end }
    requires single { world.now.earlier ≡ [] }
    ensures { IfOk result (λ a. meaning.LoadTells world.now.settings n world.now.events
        (view.answer a)) }
{
    let output = Text::from_vec(world.output().to_vec(alloc)?);
    let update = update_words(alloc, world)?;
    let line = line::loaded(alloc, n, world.steps(), update.as_bytes())?;
    Ok(Answer {
        pieces: pieces_of(alloc, line, output)?,
        line: Text::from_vec(Vec::new(alloc)),
        status: status_of(end),
    })
}

/// Runs a load's World to its end, each thread in turn.
fn driven(alloc: Global, world: &mut World, n: u32) -> Result<Answer, AllocError>
    requires new { world.old.events ≡ [] }
    requires single { world.old.earlier ≡ [] }
    ensures { IfOk result (λ a. meaning.Loads n world.old.settings (view.answer a)) }
{
    let end = drive_round(world)?;
    told(alloc, world, n, end)
}

/// The run of a load by its patch.
fn patch_loaded(alloc: Global, n: u32, patch: Patch) -> Result<Answer, AllocError>
    requires range { n ≤ 1000 }
    requires fits { Fits patch.old patch }
    ensures { IfOk result (λ a. meaning.Loads n (meaning.load_settings n patch) (view.answer a)) }
{
    let program = patch.old.copy()?;
    let empty = Text::from_vec(Vec::new(alloc));
    let mut world = started(alloc, program, Some((patch, request_at(n))), empty, STEPS)?;
    driven(alloc, &mut world, n)
}

/// The run of a load by the patch of its texts.
fn sound_loaded(alloc: Global, n: u32, patch: SoundPatch) -> Result<Answer, AllocError>
    requires range { n ≤ 1000 }
    ensures { IfOk result (λ a. meaning.Loads n (meaning.load_settings n patch) (view.answer a)) }
{
    patch_loaded(alloc, n, patch.into_patch())
}

/// What `load` answers.
pub fn load_meant(alloc: Global, n: u32) -> Result<Answer, AllocError>
    requires least { 1 ≤ n }
    requires most { n ≤ 1000 }
    ensures { IfOk result (λ a. meaning.LoadMeans n (view.answer a)) }
{
    mappings_are_short();
    loads_are_accepted();
    a_source_has_one_verdict();
    a_mapping_has_one_answer();
    let old = old_source(alloc, n)?;
    let new = new_source(alloc, n)?;
    let map = mapping(alloc, n)?;
    match texts_judged(
        alloc,
        &NAMES,
        old.as_bytes(),
        new.as_bytes(),
        map.as_bytes(),
    )? {
        Judged::Patch(patch) => sound_loaded(alloc, n, patch),
        Judged::Refused(answer) => Ok(answer),
    }
}
