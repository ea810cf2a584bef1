//! A run with an update: each of its events is made by a call of its own.

ghost use Rattle.std.specs.Prelude.{◌≡◌, OnOk};
ghost use Rattle.c_places.specs.Limit.{KeepsLimit};
ghost use Rattle.c_tree.specs.Sound.{Sound};
ghost use Rattle.plain_run.specs.CoreAt.{core_now};
ghost use Rattle.plain_run.specs.Ready.{IsReady};

use c_places::places;
use c_tree::{Armed, EventKind, Patch, Phase, Places, Settings, State, Text};
use patch_file::{FileRefused, read_patch};
use plain_run::{Now, make};
use row_calls::{RowsDiffer, compare, judged};
use std::alloc::{AllocError, Global};

const FILE: &str = r"upstare-patch 2
old 29
int main(void) { return 7; }
new 29
int main(void) { return 9; }
map 27
point main entry -> entry;
end
";

/// Which events are made, one after the other.
const WANTED: &str = r"
step 0 isn't made
request is made
step 0 isn't made
update isn't made
park 0 is made
resume 0 isn't made
update is made
step 0 isn't made
resume 0 is made
step 0 is made
step 0 is made
step 0 isn't made
";

/// A line that says whether the event is made.
fn put_made(
    text: &mut String,
    alloc: Global,
    settings: &Settings,
    places: &mut Places,
    now: &mut Now,
    name: &str,
    kind: EventKind,
) -> Result<(), AllocError>
    requires { IsReady settings.now places.old (core_now settings.now now.old) }
    ensures { OnOk result (IsReady settings.now places.new (core_now settings.now now.new)) }
{
    let made = if make(alloc, settings, places, now, kind)? {
        "is made"
    } else {
        "isn't made"
    };
    write!(text, "{name} {made}\n")
}

/// A line for each event that is tried, one after the other.
#[rattlefmt::skip]
fn put_all(
    text: &mut String,
    alloc: Global,
    settings: &Settings,
    places: &mut Places,
    now: &mut Now,
) -> Result<(), AllocError>
    requires { IsReady settings.now places.old (core_now settings.now now.old) }
{
    put_made(text, alloc, settings, places, now, "step 0", EventKind::Step(0))?;
    put_made(text, alloc, settings, places, now, "request", EventKind::Request)?;
    put_made(text, alloc, settings, places, now, "step 0", EventKind::Step(0))?;
    put_made(text, alloc, settings, places, now, "update", EventKind::Update)?;
    put_made(text, alloc, settings, places, now, "park 0", EventKind::Park(0))?;
    put_made(text, alloc, settings, places, now, "resume 0", EventKind::Resume(0))?;
    put_made(text, alloc, settings, places, now, "update", EventKind::Update)?;
    put_made(text, alloc, settings, places, now, "step 0", EventKind::Step(0))?;
    put_made(text, alloc, settings, places, now, "resume 0", EventKind::Resume(0))?;
    put_made(text, alloc, settings, places, now, "step 0", EventKind::Step(0))?;
    put_made(text, alloc, settings, places, now, "step 0", EventKind::Step(0))?;
    put_made(text, alloc, settings, places, now, "step 0", EventKind::Step(0))
}

/// The lines of a run that is updated by the patch before its first Step.
fn put_run(text: &mut String, alloc: Global, patch: Patch) -> Result<(), AllocError>
    requires sound { Sound patch.old patch.new patch.entries }
    requires old_placed { KeepsLimit patch.old }
    requires new_placed { KeepsLimit patch.new }
{
    let program = patch.old.copy()?;
    let input = Text::from_vec(Vec::new(alloc));
    let mut places = places(alloc, &program)?;
    let mut now = Now {
        state: State::start(alloc, &program, &input)?,
        phase: Phase::Before,
        parked: Vec::new(alloc),
        steps: 0,
        ended: None,
    };
    let settings = Settings {
        program,
        armed: Some(Armed { patch, at: 0 }),
        input,
        limit: 10,
    };
    put_all(text, alloc, &settings, &mut places, &mut now)
}

fn differing_updates(alloc: Global) -> Result<String, AllocError> {
    let mut text = String::new(alloc);
    match read_patch(alloc, FILE.as_bytes()) {
        Ok(patch) => put_run(&mut text, alloc, patch.into_patch())?,
        Err(FileRefused::At(_at, _why)) => text.push_str("the patch is refused\n")?,
        Err(FileRefused::Memory(e)) => return Err(e),
    }
    let mut differing = String::new(alloc);
    compare(&mut differing, "an update", WANTED, &text)?;
    Ok(differing)
}

#[test]
fn each_event_of_an_update_is_made_in_turn(rt: HostRuntime) -> Result<(), RowsDiffer> {
    judged(differing_updates(rt.alloc()))
}
